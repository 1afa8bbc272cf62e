//! Texts from outside: lines, lengths and checksums that a script computed by the description only.
use m51_generator::generate;
use std::alloc::Global;

// The sum of the bytes, and another of their positions, so that lines that change places are seen.
fn sums(bytes: &[u8]) -> (u32, u32) {
    let mut sum: u32 = 0;
    let mut positions: u32 = 0;
    for byte in bytes {
        sum = sum.wrapping_add(u32::from(*byte));
        positions = positions.wrapping_mul(31).wrapping_add(u32::from(*byte));
    }
    (sum, positions)
}

// How many bytes a generated source has, and their sums; none where the units are not from 1 to 100.
fn measured(alloc: Global, units: u8, start: u32) -> Option<(usize, (u32, u32))> {
    if units < 1 || units > 100 {
        return None;
    }
    let source = generate(alloc, units, start).ok()?;
    let bytes = source.bytes.as_slice();
    Some((bytes.len(), sums(bytes)))
}

// The first lines of the source of one unit, and the last ones.
const FIRST: &str = "NAME GEN\n?STACK SEGMENT IDATA\nRSEG ?STACK\nDS 64\n?PR?U1 SEGMENT CODE\n\
    ?DT?U1 SEGMENT DATA OVERLAYABLE\nRSEG ?DT?U1\nL1: DS 3\nRSEG ?PR?U1\nF1: MOV L1,A\nMOV A,L1\n";

const LAST: &str = "SETB TR1\nLOOP: CLR A\nLCALL F1\nLJMP LOOP\nEND\n";

// Whether one unit from 0 has its name, begins with those first lines, and ends with those last ones.
fn name_and_ends(alloc: Global) -> Option<[bool; 3]> {
    let source = generate(alloc, 1, 0).ok()?;
    let bytes = source.bytes.as_slice();
    Some([
        source.name.as_slice() == b"gen.a51".as_slice(),
        bytes.starts_with(FIRST.as_bytes()),
        bytes.ends_with(LAST.as_bytes()),
    ])
}

#[test]
fn one_unit_from_0_has_622_bytes(rt: HostRuntime) {
    assert!(rt; measured(rt.alloc(), 1, 0) == Some((622, (38406, 3547458938))));
    assert!(rt; name_and_ends(rt.alloc()) == Some([true; 3]));
}

#[test]
fn a_hundred_units_have_the_checksums_of_the_script(rt: HostRuntime) {
    for (start, sums) in [(1, (907805, 363892949)), (4294967295, (907791, 1351653991))] {
        assert!(rt;
            measured(rt.alloc(), 100, start) == Some((14815, sums)),
            "from {start}"
        );
    }
}
