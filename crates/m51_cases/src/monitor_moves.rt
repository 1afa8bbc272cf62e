//! Lists of moves over a layout with three roots, and what is live and written after each. All of it is worked by hand.
use crate::monitor_run::{Act, MonitorRun, PcAndSp};
use m51_cells::digit_value;
use m51_flat::Source;
use m51_monitor::Move;
use std::alloc::Global;

// Each row: where a step begins, what it does, where it leads, the move, and the marks afterwards, which are of the
// bytes 08H to 0DH, of the bits 0 to 2, and of the byte 20H. A step is call, jump, ret_, reti, low_ and high (the
// interrupts at 0003H and 000BH), sAAV (V is stored at AA), or bAAV (the bit AA is set to V). A move has the number
// of the unit that becomes active; -- is none.
const CALLED_TWICE: &str = "R call J C5 ??........
J s095 J S. ?5........
J ret_ R R. ?.........
R call J C5 ??........
J ret_ R R. ?.........";

const BOTH_OF_A_JUMP: &str = "R call J C5 ??........
J s095 J S. ?5........
J jump K J6 ?5?.......
K s0A6 K S. ?56.......
K ret_ R R. ?.........";

const WITHIN_A_UNIT: &str = "R call J C5 ??........
J s095 J S. ?5........
J call L L. ?5........
L call M L. ?5........
M ret_ L R. ?5........
L ret_ J R. ?5........
J ret_ R R. ?.........";

const INTERRUPTS: &str = "R low_ X I1 ?...?.....
X s0C1 X S. ?...1.....
X call C C7 ?..?1.....
C s0B2 C S. ?..21.....
C high T I2 ?..21?....
T s0D3 T S. ?..213....
T low_ A -- ?..213....
T reti C R. ?..21.....
C ret_ X R. ?...1.....
X reti R R. ?.........";

const AN_ARGUMENT: &str = "R s085 R S. 5.........
R call B C4 5.....??.?
B ret_ R R. 5.........
R call D C3 5.....????
D ret_ R R. 5.........";

const ONE_BYTE: &str = "R call B C4 ?.....??.?
B b001 B S. ?.....1?.?
B b010 B S. ?.....10..
B b021 B -- ?.....10..
B s206 B -- ?.....10..
B ret_ R R. ?.........
R call D C3 ?.....????
D s206 D S. ?.....0116
D ret_ R R. ?.........
R call B C4 ?.....??.?";

// The addresses: the root of the reset; units that it calls, with an argument at 08H and the byte 20H, with the bits 0
// and 1, and with the byte 09H, which jumps to one with the byte 0AH, and calls itself; the root at 0003H with the
// byte 0CH, the unit that it calls, with 0BH, the root at 000BH, with 0DH, above both, and the first of these roots
// once more.
fn spot(letter: u8) -> PcAndSp {
    let (pc, sp) = match letter {
        b'R' => (0x00, 0x40),
        b'D' => (0x30, 0x42),
        b'B' => (0x40, 0x42),
        b'J' => (0x50, 0x42),
        b'K' => (0x60, 0x42),
        b'L' => (0x58, 0x44),
        b'M' => (0x5C, 0x46),
        b'X' => (0x03, 0x42),
        b'C' => (0x70, 0x44),
        b'T' => (0x0B, 0x46),
        b'A' => (0x03, 0x48),
        _ => (0xFF, 0xFF),
    };
    PcAndSp { pc, sp }
}

// The byte of a row.
fn at(row: &[u8], index: usize) -> u8 {
    row.get(index).copied().unwrap_or(0)
}

// The digit of a table's row.
fn digit(row: &[u8], index: usize) -> u8 {
    digit_value(at(row, index)).unwrap_or(0)
}

// What the step of a row does.
fn act(row: &[u8]) -> Act {
    let address = digit(row, 3).wrapping_mul(16).wrapping_add(digit(row, 4));
    match at(row, 2) {
        b'c' => Act::Call,
        b'j' => Act::Jump,
        b'l' => Act::Vector(Source::Ie0),
        b'h' => Act::Vector(Source::Tf0),
        b's' => Act::Store(address, digit(row, 5)),
        b'b' => Act::Bit(address, digit(row, 5) == 1),
        _ if at(row, 5) == b'i' => Act::Reti,
        _ => Act::Ret,
    }
}

// A move as two bytes.
fn written(step: Option<Move>) -> (u8, u8) {
    match step {
        None => (b'-', b'-'),
        Some(Move::Stay) => (b'S', b'.'),
        Some(Move::Local) => (b'L', b'.'),
        Some(Move::Return) => (b'R', b'.'),
        Some(Move::Jump(unit)) => (b'J', numeral(unit)),
        Some(Move::Call(unit)) => (b'C', numeral(unit)),
        Some(Move::Interrupt(_, unit)) => (b'I', numeral(unit)),
    }
}

// The digit of a number below ten.
fn numeral(unit: u16) -> u8 {
    match unit {
        0..=9 => b'0' + unit as u8,
        _ => b'?',
    }
}

// The step of a row ends as the row says.
fn holds(run: &mut MonitorRun, row: &[u8]) -> bool {
    let (kind, unit) = written(run.go(spot(at(row, 0)), act(row), spot(at(row, 7))));
    let marks = run.marks();
    kind == at(row, 9)
        && unit == at(row, 10)
        && marks
            .iter()
            .enumerate()
            .all(|(index, mark)| *mark == at(row, index.saturating_add(12)))
}

// How many rows, from the first, end as they say.
fn rows_held(run: &mut MonitorRun, table: &str) -> usize {
    for (index, row) in table.lines().enumerate() {
        if !holds(run, row.as_bytes()) {
            return index;
        }
    }
    table.lines().count()
}

// How many do from the reset on; none where there is no memory.
fn followed(alloc: Global, table: &str) -> usize {
    match MonitorRun::start(alloc) {
        Ok(mut run) => rows_held(&mut run, table),
        Err(_) => 0,
    }
}

#[test]
fn the_rows_of_each_list_end_as_they_say(rt: HostRuntime) {
    for (table, rows, rule) in [
        (CALLED_TWICE, 5, "a local is unset at its second call"),
        (
            BOTH_OF_A_JUMP,
            5,
            "both units of a jump are live until the return",
        ),
        (WITHIN_A_UNIT, 7, "calls within a unit keep its local"),
        (
            INTERRUPTS,
            10,
            "an interrupt comes inside a call inside an interrupt",
        ),
        (
            AN_ARGUMENT,
            5,
            "an argument is kept through a call of another unit",
        ),
        (ONE_BYTE, 10, "bits and a byte of two units share a byte"),
    ] {
        let held = followed(rt.alloc(), table);
        assert!(rt; held == rows, "{rule}: after {held} rows");
    }
}

// The segments over the cell of the bit 0: at the reset, in the unit with the bits, and in the unit with the byte 20H;
// none where a move there is not made.
fn segments_over_a_cell(run: &mut MonitorRun) -> Option<[Option<u16>; 3]> {
    let reset = run.segment_at(256);
    let _call = run.go(spot(b'R'), Act::Call, spot(b'B'))?;
    let bits = run.segment_at(256);
    let _return = run.go(spot(b'B'), Act::Ret, spot(b'R'))?;
    let _call = run.go(spot(b'R'), Act::Call, spot(b'D'))?;
    Some([reset, bits, run.segment_at(256)])
}

// Those of a run from the reset on.
fn live_over_a_cell(alloc: Global) -> Option<[Option<u16>; 3]> {
    let mut run = MonitorRun::start(alloc).ok()?;
    segments_over_a_cell(&mut run)
}

#[test]
fn of_two_segments_on_a_cell_the_live_one_answers(rt: HostRuntime) {
    assert!(rt; live_over_a_cell(rt.alloc()) == Some([None, Some(9), Some(8)]));
}

// Return records and names at the reset, after a call of the unit 5, after two calls within it, and after their returns
// and a jump to the unit 6.
fn depths_and_names(run: &mut MonitorRun) -> Option<[(u8, [u8; 8]); 4]> {
    let reset = run.depth_and_named();
    let _call = run.go(spot(b'R'), Act::Call, spot(b'J'))?;
    let call = run.depth_and_named();
    let _call = run.go(spot(b'J'), Act::Call, spot(b'L'))?;
    let _call = run.go(spot(b'L'), Act::Call, spot(b'M'))?;
    let within = run.depth_and_named();
    let _return = run.go(spot(b'M'), Act::Ret, spot(b'L'))?;
    let _return = run.go(spot(b'L'), Act::Ret, spot(b'J'))?;
    let _jump = run.go(spot(b'J'), Act::Jump, spot(b'K'))?;
    Some([reset, call, within, run.depth_and_named()])
}

// Those of a run from the reset on.
fn depths_and_names_of_run(alloc: Global) -> Option<[(u8, [u8; 8]); 4]> {
    let mut run = MonitorRun::start(alloc).ok()?;
    depths_and_names(&mut run)
}

#[test]
fn a_call_within_a_unit_names_no_unit_again(rt: HostRuntime) {
    let want = [
        (0, [1, 0, 0, 0, 0, 0, 0, 0]),
        (1, [1, 0, 0, 0, 0, 1, 0, 0]),
        (3, [1, 0, 0, 0, 0, 1, 0, 0]),
        (1, [1, 0, 0, 0, 0, 1, 1, 0]),
    ];
    let found = depths_and_names_of_run(rt.alloc());
    assert!(rt; found == Some(want), "{found:?}");
}
