//! Writes a module: its records in their order.
ghost use Rattle.std.specs.Prelude.{◌≡◌, ◌++◌, IfOk, OnOk};
ghost use Rattle.m51_records.specs.Spelling.{header_record, end_record, bytes_of};

use crate::end::end_contents;
use crate::header::header_contents;
use crate::record::write_records;
use crate::types::{END, HEADER};
use m51_cells::{Name, NoMemory};
use m51_frame::put_record;
use m51_module::Module;
use std::alloc::Global;

// Appends the first record.
fn put_header(alloc: Global, out: &mut Vec<u8>, name: &Name, version: u8) -> Result<(), NoMemory>
    ensures { OnOk result (out.new.items ≡ out.old.items ++ header_record name.now version) }
{
    let contents = header_contents(alloc, name, version)?;
    put_record(out, HEADER, &contents)
}

// Appends the last record.
fn put_end(alloc: Global, out: &mut Vec<u8>, name: &Name, banks: u8) -> Result<(), NoMemory>
    ensures { OnOk result (out.new.items ≡ out.old.items ++ end_record name.now banks) }
{
    let contents = end_contents(alloc, name, banks)?;
    put_record(out, END, &contents)
}

/// The bytes of the object file of the module: each module has one spelling. Error: out of memory.
///
/// Source: own choice ("Object records").
#[tactic(auto, unfolding(crate::specs::Spelling::bytes_of))]
pub fn write_module(alloc: Global, module: &Module) -> Result<Vec<u8>, NoMemory>
    ensures { IfOk result (λ bytes. bytes.items ≡ bytes_of «module».now) }
{
    let mut out = Vec::new(alloc);
    let name = module.name();
    put_header(alloc, &mut out, &name, module.version())?;
    write_records(alloc, &mut out, module.segments())?;
    write_records(alloc, &mut out, module.externals())?;
    write_records(alloc, &mut out, module.publics())?;
    write_records(alloc, &mut out, module.pieces())?;
    write_records(alloc, &mut out, module.fixups())?;
    put_end(alloc, &mut out, &name, module.banks())?;
    Ok(out)
}
