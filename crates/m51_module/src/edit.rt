//! Edits of a library, one after another.
ghost use Rattle.std.specs.Prelude.{◌≡◌, ◌≢◌, ℕ, take, OnOk, OnErr};
ghost use Rattle.m51_module.specs.Edits.{after_edit, after_edits};

use crate::{LibError, Library, Module};
use m51_cells::{Name, NoMemory};

/// An edit of a library.
///
/// Source: own choice ("Libraries").
#[derive(Drop)]
pub enum Edit {
    /// Add this module.
    Add(Module),
    /// Delete the module of this name.
    Delete(Name),
    /// Replace the module of this one's name.
    Replace(Module),
    /// Raise the module of this name to version 2.
    Raise(Name),
}

// Out of memory; a refusal is passed over.
fn unless_memory(answer: Result<(), LibError>) -> Result<(), NoMemory>
    ensures ok { OnOk result (answer ≢ Err LibError.Memory) }
    ensures err { OnErr result (answer ≡ Err LibError.Memory) }
{
    match answer {
        Err(LibError::Memory) => Err(NoMemory),
        _ => Ok(()),
    }
}

impl Library {
    /// Makes the edit, or leaves the library as it was if it is refused. The only error is out of memory, and then
    /// the library is as before.
    ///
    /// Source: own choice ("Libraries").
    pub fn edit(&mut self, edit: Edit) -> Result<(), NoMemory>
        ensures ok { OnOk result (self.new ≡ after_edit self.old edit) }
        ensures err { OnErr result (self.new ≡ self.old) }
    {
        match edit {
            Edit::Add(incoming) => unless_memory(self.add(incoming)),
            Edit::Delete(name) => unless_memory(self.delete(&name).map(|_| ())),
            Edit::Replace(incoming) => unless_memory(self.replace(incoming)),
            Edit::Raise(name) => unless_memory(self.raise(&name)),
        }
    }

    /// Makes the edits, one after another. If memory runs out, some first edits are made and no other.
    ///
    /// Source: own choice ("Libraries").
    pub fn edit_all(&mut self, edits: Vec<Edit>) -> Result<(), NoMemory>
        ensures ok { OnOk result (self.new ≡ after_edits self.old edits.items) }
        ensures err { OnErr result ((count : ℕ) × (self.new ≡ after_edits self.old (take count edits.items))) }
    {
        for edit in edits {
            self.edit(edit)?;
        }
        Ok(())
    }
}
