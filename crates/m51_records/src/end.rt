//! The last record of a module: its name once more, and the register banks in use.
ghost use Rattle.std.specs.Prelude.{◌≡◌, IfOk, ◌<◌, length};
ghost use Rattle.m51_frame.specs.Fields.{Reads};
ghost use Rattle.m51_records.specs.Ends.{end_contents, again_at, are_banks, banks_at, end_in};

use m51_cells::{Name, NoMemory};
use m51_frame::{broken, byte_at, put_text, same, text_at};
use m51_module::ObjError;
use std::alloc::Global;

// The name once more, and the bytes after it. O4 where it is another.
fn again_at<'a>(name: &Name, end: u32, bytes: &'a [u8]) -> Result<(&'a [u8], &'a [u8]), ObjError>
    ensures { Reads (λ x. (x.0.now, x.1.now)) result (again_at name.now end bytes.now) }
{
    let (text, rest) = text_at(end, bytes)?;
    if !same(name, text) {
        return Err(broken(end, bytes));
    }
    Ok((text, rest))
}

// Whether bit 0 is set, and none above bit 3.
fn are_banks(banks: u8) -> bool
    ensures { result ≡ are_banks banks }
{
    banks % 2 == 1 && banks < 16
}

// The banks, and the bytes after them. O4 where bit 0 is not set, or a bit above bit 3 is.
fn banks_at(end: u32, bytes: &[u8]) -> Result<(u8, &[u8]), ObjError>
    ensures { Reads (λ x. (x.0, x.1.now)) result (banks_at end bytes.now) }
{
    let (banks, rest) = byte_at(end, bytes)?;
    if !are_banks(banks) {
        return Err(broken(end, bytes));
    }
    Ok((banks, rest))
}

/// The banks of the module of this name whose last record has these contents: they end at that offset.
///
/// Errors: O4 for a field that breaks a rule, or for bytes left over.
///
/// Source: own choice ("Object records").
#[tactic(auto, unfolding(crate::specs::Ends::end_in))]
pub(crate) fn read_end(name: &Name, end: u32, contents: &[u8]) -> Result<u8, ObjError>
    ensures { Reads (λ x. x) result (end_in name.now end contents.now) }
{
    let (_, rest) = again_at(name, end, contents)?;
    let (banks, rest) = banks_at(end, rest)?;
    match rest {
        [] => Ok(banks),
        _ => Err(broken(end, rest)),
    }
}

/// The contents of the last record of a module of this name that uses these banks.
///
/// Source: own choice ("Object records").
pub(crate) fn end_contents(alloc: Global, name: &Name, banks: u8) -> Result<Vec<u8>, NoMemory>
    ensures value { IfOk result (λ contents. contents.items ≡ end_contents name.now banks) }
    ensures short { IfOk result (λ contents. length contents.items < 65535) }
{
    let mut contents = Vec::new(alloc);
    put_text(&mut contents, name.bytes())?;
    contents.push(banks)?;
    Ok(contents)
}
