//! The record of an external.
ghost use Rattle.std.specs.Prelude.{◌≡◌, ◌<◌, ◌++◌, ◌∷◌, [], false, IfOk, length, map};
ghost use Rattle.m51_module.specs.declared.symbol.External.{External};
ghost use Rattle.m51_frame.specs.Fields.{Reads, is_name_among};
ghost use Rattle.m51_records.specs.Externals.{external_contents, kind_at, external_in};
ghost use Rattle.m51_records.specs.declared.types.TheConstants.{EXTERNAL};

use crate::codes::{kind_number, kind_of};
use crate::record::{Reader, Record};
use crate::seen::{SeenNames, new_name_at};
use crate::types::EXTERNAL;
use m51_cells::{Kind, MOST_EXTERNALS, NoMemory};
use m51_frame::{broken, byte_at, put_text};
use m51_module::{External, ObjError};
use std::alloc::Global;

/// A kind, and the bytes after it. O4 where it is none.
///
/// Source: own choice ("Object records").
#[tactic(auto, unfolding(crate::specs::Externals::kind_at))]
pub(crate) fn kind_at(end: u32, bytes: &[u8]) -> Result<(Kind, &[u8]), ObjError>
    ensures { Reads (λ x. (x.0, x.1.now)) result (kind_at end bytes.now) }
{
    let (number, rest) = byte_at(end, bytes)?;
    match kind_of(number) {
        Some(kind) => Ok((kind, rest)),
        None => Err(broken(end, bytes)),
    }
}

impl Record for External {
    ghost TYPE = { EXTERNAL };

    ghost spelled = { external_contents };

    ghost is_short = { λ _. Unit {0} };

    const TYPE: u8 = EXTERNAL;

    fn contents(&self, alloc: Global) -> Result<Vec<u8>, NoMemory> {
        let mut contents = Vec::new(alloc);
        contents.push(kind_number(self.kind))?;
        put_text(&mut contents, self.name.bytes())?;
        Ok(contents)
    }
}

/// Reads the externals of a module, and keeps the names of those before.
///
/// Source: own choice ("Object records").
#[derive(Drop)]
pub(crate) struct ExternalReader {
    pub(crate) seen: SeenNames,
}

impl Reader for ExternalReader {
    type Item = External;

    ghost reads = { λ _. external_in };

    ghost knows = { λ r before. r.seen ≡ map (λ (e : External). e.name) before };

    fn read(
        &mut self,
        alloc: Global,
        before: &[External],
        end: u32,
        contents: &[u8],
    ) -> Result<External, ObjError> {
        let external = read_external(&self.seen, before, end, contents)?;
        self.seen.note(alloc, &external.name)?;
        Ok(external)
    }
}

// The external whose record has these contents: they end at that offset, and these externals, with these names, are
// before it. O4 for a field that breaks a rule, for a 256th external, or for bytes left over.
#[tactic(auto, unfolding(crate::specs::Externals::external_in))]
fn read_external(
    seen: &SeenNames,
    before: &[External],
    end: u32,
    contents: &[u8],
) -> Result<External, ObjError>
    requires { seen.now ≡ map (λ (e : External). e.name) before.now }
    ensures value { Reads (λ x. x) result (external_in before.now end contents.now) }
    ensures new { IfOk result (λ e. is_name_among seen.now e.name ≡ false) }
{
    if before.len() >= MOST_EXTERNALS {
        return Err(broken(end, contents));
    }
    let (kind, rest) = kind_at(end, contents)?;
    let name = new_name_at(seen, end, rest)?;
    Ok(External { name, kind })
}
