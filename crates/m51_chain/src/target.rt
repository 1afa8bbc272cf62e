//! The file that a job keeps, with the text where it could not be kept.
ghost use Rattle.std.specs.Prelude.{◌≡◌, IfOk, string_bytes};
ghost use Rattle.m51_chain.specs.Targets.{unkept_text};

use m51_args::FileName;
use m51_cells::{Bytes, NoMemory};
use std::alloc::Global;
use std::marker::Model;

/// The name of the file that a job keeps, and the text that is written where it could not be kept. Contracts see the
/// name. The text is made with it, so that keeping and what follows do not allocate.
///
/// Source: own choice ("The top call").
#[derive(Drop)]
pub struct KeptName {
    name: FileName,
    unkept: Bytes,
}

impl Model for KeptName {
    ghost use Rattle.std.specs.Prelude.{◌≡◌, ℕ, List};
    ghost use Rattle.m51_chain.specs.Targets.{unkept_text};

    ghost Value = { List ℕ };

    ghost view = { λ t. t.name };

    ghost invariant = { λ t. t.unkept ≡ unkept_text t.name };
}

// The text where the file of this name could not be kept.
fn unkept_text(alloc: Global, name: &str) -> Result<Bytes, NoMemory>
    ensures { IfOk result (λ text. text ≡ unkept_text name.now) }
{
    let text = format!(in alloc; "WRITE FAULT {name}\n")?;
    Ok(Bytes::of(text.as_bytes().to_vec(alloc)?))
}

impl KeptName {
    // The name, with the text where its file could not be kept. Out of memory is the only error.
    pub(crate) fn of(alloc: Global, name: FileName) -> Result<KeptName, NoMemory>
        ensures { IfOk result (λ target. target ≡ name) }
    {
        let unkept = unkept_text(alloc, name.as_str())?;
        Ok(KeptName { name, unkept })
    }

    // The name and the text.
    pub(crate) fn into_parts(self) -> (FileName, Bytes)
        ensures name { result.0 ≡ self }
        ensures text { result.1 ≡ unkept_text self }
    {
        let KeptName { name, unkept } = self;
        (name, unkept)
    }
}
