//! The first record of a module: its name, and the version of the object.
ghost use Rattle.std.specs.Prelude.{◌≡◌, IfOk, ◌<◌, length};
ghost use Rattle.m51_frame.specs.Fields.{Reads};
ghost use Rattle.m51_records.specs.Ends.{header_contents, is_version, version_at, header_in};

use m51_cells::{Name, NoMemory};
use m51_frame::{broken, byte_at, put_text, text_at, upper_name};
use m51_module::ObjError;
use std::alloc::Global;

// Whether it is a version of objects.
fn is_version(version: u8) -> bool
    ensures { result ≡ is_version version }
{
    version == 1 || version == 2
}

// The version, and the bytes after it. O4 where it is neither 1 nor 2.
fn version_at(end: u32, bytes: &[u8]) -> Result<(u8, &[u8]), ObjError>
    ensures { Reads (λ x. (x.0, x.1.now)) result (version_at end bytes.now) }
{
    let (version, rest) = byte_at(end, bytes)?;
    if !is_version(version) {
        return Err(broken(end, bytes));
    }
    Ok((version, rest))
}

/// The name and the version of the module whose first record has these contents: they end at that offset.
///
/// Errors: O4 for a field that breaks a rule, or for bytes left over.
///
/// Source: own choice ("Object records").
#[tactic(auto, unfolding(crate::specs::Ends::header_in))]
pub(crate) fn read_header(end: u32, contents: &[u8]) -> Result<(Name, u8), ObjError>
    ensures { Reads (λ x. x) result (header_in end contents.now) }
{
    let (text, rest) = text_at(end, contents)?;
    let Some(name) = upper_name(text) else {
        return Err(broken(end, contents));
    };
    let (version, rest) = version_at(end, rest)?;
    match rest {
        [] => Ok((name, version)),
        _ => Err(broken(end, rest)),
    }
}

/// The contents of the first record of a module of this name and version.
///
/// Source: own choice ("Object records").
pub(crate) fn header_contents(alloc: Global, name: &Name, version: u8) -> Result<Vec<u8>, NoMemory>
    ensures value { IfOk result (λ contents. contents.items ≡ header_contents name.now version) }
    ensures short { IfOk result (λ contents. length contents.items < 65535) }
{
    let mut contents = Vec::new(alloc);
    put_text(&mut contents, name.bytes())?;
    contents.push(version)?;
    Ok(contents)
}
