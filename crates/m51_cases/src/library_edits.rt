//! A list of edits of a library, of which one is refused. The verbs stop at the first that is.
use crate::sample::{module_with, name};
use m51_module::{Edit, LibError, Library};
use std::alloc::Global;

// A library of A and B in version 1, whose publics are P and Q.
fn two(alloc: Global) -> Result<Library, LibError> {
    let mut library = Library::empty(alloc);
    library.add(module_with(alloc, name(b"A"), name(b"P"))?)?;
    library.add(module_with(alloc, name(b"B"), name(b"Q"))?)?;
    Ok(library)
}

// How many modules are left of it after three edits, of which the first is refused, and the version of the last one.
fn edited(alloc: Global) -> Result<(usize, Option<u8>), LibError> {
    let mut library = two(alloc)?;
    let edits = vec![in alloc;
        Edit::Raise(name(b"C")),
        Edit::Delete(name(b"A")),
        Edit::Raise(name(b"B")),
    ]?;
    library.edit_all(edits)?;
    let list = library.list();
    Ok((list.len(), list.last().map(|module| module.version())))
}

#[test]
fn edits_are_made_one_after_another(rt: HostRuntime) {
    assert!(rt; edited(rt.alloc()) == Ok((1, Some(2))));
}
