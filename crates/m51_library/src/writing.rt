//! Writes a library: how many modules it has, and their objects.
ghost use Rattle.std.specs.Prelude.{◌≡◌, ◌++◌, IfOk, OnOk};
ghost use Rattle.std.specs.List.{flat_map};
ghost use Rattle.m51_records.specs.Spelling.{bytes_of};
ghost use Rattle.m51_library.specs.Spelling.{library_bytes};

use m51_cells::NoMemory;
use m51_module::{Library, Module};
use m51_records::{LIBRARY_HEADER, pair, record_bytes, write_module};
use std::alloc::Global;

// Appends the object of each module.
fn put_modules(alloc: Global, out: &mut Vec<u8>, modules: &[Module]) -> Result<(), NoMemory>
    ensures { OnOk result (out.new.items ≡ out.old.items ++ flat_map bytes_of modules.now) }
{
    for member in modules {
        let bytes = write_module(alloc, member)?;
        out.extend_from_slice(&bytes)?;
    }
    Ok(())
}

/// The bytes of the library: each has one spelling. Error: out of memory.
///
/// Source: own choice ("Library files").
pub fn write_library(alloc: Global, library: &Library) -> Result<Vec<u8>, NoMemory>
    ensures { IfOk result (λ bytes. bytes.items ≡ library_bytes library.now) }
{
    let modules = library.list();
    let mut out = record_bytes(alloc, LIBRARY_HEADER, &pair(modules.len() as u16))?;
    put_modules(alloc, &mut out, modules)?;
    Ok(out)
}
