//! What no clause says: that the calls give their answers where there is memory.
use crate::sample;
use m51_cells::{Kind, NoMemory};
use m51_module::{Image, external_numbered, segment_numbered};
use std::alloc::Global;

// Whether the tables of the sample give each of these answers.
fn answers_of_tables(alloc: Global) -> Result<[bool; 6], NoMemory> {
    let layout = sample::layout(alloc)?;
    Ok([
        layout.unit_at(1) == Some(1),
        layout.unit_at(3) == None,
        layout.edge(0, 2),
        !layout.edge(2, 0),
        layout.owners(5) == [1, 0].as_slice(),
        layout.locals(1) == [3, 5].as_slice(),
    ])
}

#[test]
fn a_layout_answers_by_its_tables(rt: HostRuntime) {
    assert!(rt; answers_of_tables(rt.alloc()) == Ok([true; 6]));
}

// The version of a module, and that of the module raised.
fn versions(alloc: Global) -> Result<(u8, u8), NoMemory> {
    let module = sample::module_with(alloc, sample::name(b"A"), sample::name(b"P"))?;
    let version = module.version();
    Ok((version, module.raise().version()))
}

#[test]
fn a_module_is_raised(rt: HostRuntime) {
    assert!(rt; versions(rt.alloc()) == Ok((1, 2)));
}

// The sizes of the segments from 0 to 3.
fn sizes(alloc: Global) -> Result<[Option<u16>; 4], NoMemory> {
    let module = sample::module(alloc)?;
    Ok([0, 1, 2, 3].map(|number| {
        segment_numbered(module.segments(), number).map(|segment| segment.size)
    }))
}

// The kind of the external 1.
fn first_external(alloc: Global) -> Result<Option<Kind>, NoMemory> {
    let module = sample::module(alloc)?;
    Ok(external_numbered(module.externals(), 1).map(|external| external.kind))
}

#[test]
fn numbers_count_from_1(rt: HostRuntime) {
    assert!(rt; sizes(rt.alloc()) == Ok([None, Some(3), Some(1), None]));
    assert!(rt; first_external(rt.alloc()) == Ok(Some(Kind::Direct)));
}

// The last two bytes of an image whose last byte is set.
fn last_bytes(alloc: Global) -> Result<(u8, u8), NoMemory> {
    let mut image = Image::blank(alloc)?;
    image.set(0xFFFF, 0x22);
    Ok((image.bytes()[0xFFFE], image.bytes()[0xFFFF]))
}

#[test]
fn an_image_holds_what_is_set(rt: HostRuntime) {
    assert!(rt; last_bytes(rt.alloc()) == Ok((0xFF, 0x22)));
}
