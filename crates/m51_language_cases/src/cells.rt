//! What no clause says: that the written rules are those of the guides.
use m51_cells::{
    Extent, Kind, ListOf, Name, Names, NoMemory, Reloc, Space, cells_of, copy_of, fits, lines,
    meets,
};
use std::alloc::Global;

// Whether a text is a name that is stored so.
fn is_stored_as(text: &[u8], want: &[u8]) -> bool {
    match Name::of(text) {
        Some(name) => name.bytes() == want,
        None => false,
    }
}

// Whether a text is no name.
fn is_no_name(text: &[u8]) -> bool {
    Name::of(text).is_none()
}

// Whether the title of a base is written so.
fn is_titled(base: u16, want: &[u8]) -> bool {
    Name::at(base).bytes() == want
}

#[test]
fn names_are_stored_in_upper_case(rt: HostRuntime) {
    assert!(rt; is_stored_as(b"?pr?Main_1", b"?PR?MAIN_1"));
    for text in [
        b"1A".as_slice(),
        b"@0003",
        b"A2345678901234567890123456789012",
    ] {
        assert!(rt; is_no_name(text), "at {text:?}");
    }
    for (base, want) in [(0x0B, b"@000B".as_slice()), (0xFFA0, b"@FFA0")] {
        assert!(rt; is_titled(base, want), "at {want:?}");
    }
    assert!(rt; Name::none().bytes().is_empty(), "at the empty name");
}

// Whether a list has one item, is not empty, lends its item, and returns it as a `Vec`.
fn answers_of_list(alloc: Global) -> Result<[bool; 4], NoMemory> {
    let name = Name::at(3);
    let names: Names = ListOf::of(vec![in alloc; name]?);
    let one = names.len() == 1;
    let some = !names.is_empty();
    let lent = names.as_slice() == [name].as_slice();
    let items = names.into_vec();
    Ok([one, some, lent, items.as_slice() == [name].as_slice()])
}

// Whether a copy has the bytes that are copied.
fn is_copied(alloc: Global) -> Result<bool, NoMemory> {
    Ok(copy_of(alloc, b"P1")?.as_slice() == b"P1".as_slice())
}

#[test]
fn a_list_gives_its_items_back(rt: HostRuntime) {
    let answers = answers_of_list(rt.alloc());
    assert!(rt; answers == Ok([true; 4]), "{answers:?}");
    assert!(rt; is_copied(rt.alloc()) == Ok(true));
}

// Whether a text of three lines is cut where they end.
fn lines_are_cut(alloc: Global) -> Result<bool, NoMemory> {
    let found = lines(alloc, b" A\rB\r\n\n\tC\r")?;
    match found.as_slice() {
        [first, second, third] => Ok(
            *first == b" A\rB".as_slice() && second.is_empty() && *third == b"\tC\r".as_slice(),
        ),
        _ => Ok(false),
    }
}

#[test]
fn a_line_ends_in_a_feed_or_in_a_return_and_a_feed(rt: HostRuntime) {
    assert!(rt; lines_are_cut(rt.alloc()) == Ok(true));
}

// The cells of byte 20H.
fn cells_of_byte() -> Extent {
    cells_of(Kind::Direct, 0x20, 1)
}

// Whether bit 0 and bit 8 meet them.
fn bits_that_meet() -> [bool; 2] {
    let byte = cells_of_byte();
    [
        meets(&cells_of(Kind::Bits, 0, 1), &byte),
        meets(&cells_of(Kind::Bits, 8, 1), &byte),
    ]
}

#[test]
fn bit_address_0_is_the_first_bit_of_byte_20h(rt: HostRuntime) {
    let bits = bits_that_meet();
    assert!(rt; bits == [true, false], "{bits:?}");
    let cells = Extent {
        space: Space::Ram,
        first: 256,
        len: 8,
    };
    assert!(rt; cells_of_byte() == cells);
}

// Whether segments of some kinds and types fit at a base.
fn fits_at_bases() -> [bool; 5] {
    [
        fits(Kind::Xdata, Reloc::Inpage, 0, 256),
        fits(Kind::Xdata, Reloc::Inpage, 1, 256),
        fits(Kind::Code, Reloc::Inblock, 0x0800, 2048),
        fits(Kind::Code, Reloc::Page, 0x0080, 1),
        fits(Kind::Direct, Reloc::Bitaddressable, 0x20, 16),
    ]
}

#[test]
fn a_page_segment_stays_in_its_block(rt: HostRuntime) {
    let found = fits_at_bases();
    assert!(rt; found == [true, false, true, false, true], "{found:?}");
}
