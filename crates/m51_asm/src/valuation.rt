//! The values of names.
ghost use Rattle.std.specs.Prelude.{◌≡◌, [], OnOk};
ghost use Rattle.m51_asm.specs.Values.{value_in, known, Puts};

use indexmap::IndexMap;
use m51_cells::{Name, NoMemory};
use m51_expr::Located;
use std::alloc::Global;
use std::marker::Model;

/// The values that the lines so far give to names. Contracts see it as a list of names with their values.
#[derive(Drop)]
pub(crate) struct Values {
    values: IndexMap<Vec<u8>, Option<Located<u32>>>,
}

impl Model for Values {
    ghost use Rattle.m51_asm.specs.Values.{Valuation, valuation_of};

    ghost Value = { Valuation };

    ghost view = { λ v. valuation_of v.values.entries };
}

// The value that is looked up, if it is known and has one.
fn known(value: Option<Option<Located<u32>>>) -> Option<Located<u32>>
    ensures { result ≡ known value }
{
    match value {
        Some(value) => value,
        None => None,
    }
}

impl Values {
    /// No values.
    pub(crate) fn new(alloc: Global) -> Values
        ensures { result ≡ [] }
    {
        Values {
            values: IndexMap::new(alloc),
        }
    }

    /// The value of a name, if it has one.
    pub(crate) fn get(&self, name: &Name) -> Option<Located<u32>>
        ensures { result ≡ value_in self.now name.now }
    {
        known(self.values.get(name.bytes()).copied())
    }

    /// Gives a name a value or none, also in place of an earlier one.
    pub(crate) fn put(
        &mut self,
        alloc: Global,
        name: &Name,
        value: Option<Located<u32>>,
    ) -> Result<(), NoMemory>
        ensures { OnOk result (Puts self.old self.new name.now value) }
    {
        let key = Vec::from_slice(alloc, name.bytes())?;
        self.values.insert(key, value)?;
        Ok(())
    }
}
