//! The names that records before a record have.
ghost use Rattle.std.specs.Prelude.{◌≡◌, ◌<◌, false, [], ◌∷◌, ◌++◌, IfOk, OnOk};
ghost use Rattle.m51_frame.specs.Fields.{Reads, is_name_among, new_name_at};

use indexmap::IndexSet;
use m51_cells::{Name, NoMemory};
use m51_frame::{broken, text_at, upper_name};
use m51_module::ObjError;
use std::alloc::Global;
use std::marker::Model;

/// Names in the order in which they were noted, which contracts see as their list.
///
/// Source: own choice ("Object records").
#[derive(Drop)]
pub(crate) struct SeenNames {
    names: IndexSet<Vec<u8>>,
}

impl Model for SeenNames {
    ghost use Rattle.std.specs.Prelude.{ℕ, List};
    ghost use Rattle.m51_records.specs.WorkNames.{items_of};

    ghost Value = { List (List ℕ) };

    ghost view = { λ s. items_of s.names.keys };
}

impl SeenNames {
    /// The empty list of names.
    ///
    /// Source: own choice ("Object records").
    pub(crate) fn new(alloc: Global) -> SeenNames
        ensures { result ≡ [] }
    {
        SeenNames {
            names: IndexSet::new(alloc),
        }
    }

    /// Whether the name is among them.
    ///
    /// Source: own choice ("Object records").
    pub(crate) fn has(&self, name: &Name) -> bool
        ensures { result ≡ is_name_among self.now name.now }
    {
        self.names.contains(name.bytes())
    }

    /// Notes a name that is not among them. Error: out of memory.
    ///
    /// Source: own choice ("Object records").
    pub(crate) fn note(&mut self, alloc: Global, name: &Name) -> Result<(), NoMemory>
        requires { is_name_among self.old name.now ≡ false }
        ensures { OnOk result (self.new ≡ self.old ++ name.now ∷ []) }
    {
        let key = Vec::from_slice(alloc, name.bytes())?;
        self.names.insert(key)?;
        Ok(())
    }
}

/// The name that is the last field of a record. O4 where it is not of the form, or one of these, or where bytes are
/// left over.
///
/// Source: own choice ("Object records").
#[tactic(auto, unfolding(m51_frame::specs::Fields::new_name_at))]
pub(crate) fn new_name_at(seen: &SeenNames, end: u32, bytes: &[u8]) -> Result<Name, ObjError>
    ensures value { Reads (λ x. x) result (new_name_at seen.now end bytes.now) }
    ensures new { IfOk result (λ name. is_name_among seen.now name ≡ false) }
{
    let (text, rest) = text_at(end, bytes)?;
    let Some(name) = upper_name(text) else {
        return Err(broken(end, bytes));
    };
    if seen.has(&name) {
        return Err(broken(end, bytes));
    }
    match rest {
        [] => Ok(name),
        _ => Err(broken(end, rest)),
    }
}
