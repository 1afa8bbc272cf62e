//! Modules that are chosen, and the names that they define and need.
ghost use Rattle.std.specs.Prelude.{◌≡◌, [], ◌∷◌, ◌++◌, length, map, IfOk, OnOk};
ghost use Rattle.m51_resolve.specs.WorkChoice.{lesser_number, IsEarliest, IsWanted, defining_module, supplier};
ghost use Rattle.m51_resolve.specs.WorkNames.{AreNamed, AreWanted, definition_in, Wants};

use crate::definitions::{DefinedNames, note_publics, public_definition};
use crate::publics::Definition;
use indexmap::{IndexMap, IndexSet};
use m51_cells::{Name, NoMemory};
use m51_module::{External, Module};
use std::alloc::Global;
use std::marker::Model;

// Chosen modules, in order of choice, and their names. Contracts see the list of the modules.
#[derive(Drop)]
pub(crate) struct Chosen {
    pub(crate) modules: Vec<Module>,
    pub(crate) definitions: DefinedNames,
    pub(crate) wanted: IndexSet<Name>,
}

impl Model for Chosen {
    ghost use Rattle.std.specs.Prelude.{List};
    ghost use Rattle.m51_module.specs.declared.parts.ModuleParts.{ModuleParts};
    ghost use Rattle.m51_resolve.specs.WorkNames.{AreNamed};

    ghost Value = { List ModuleParts };

    ghost view = { λ c. c.modules.items };

    ghost invariant = { λ c. AreNamed c.modules.items c.definitions.entries c.wanted.keys };
}

// Notes the names of the externals. Error: out of memory.
pub(crate) fn want_externals(
    names: &mut IndexSet<Name>,
    externals: &[External],
) -> Result<(), NoMemory>
    ensures { OnOk result (Wants names.old.keys externals.now names.new.keys) }
{
    for external in externals {
        names.insert(external.name)?;
    }
    Ok(())
}

// The number of the module of a definition.
fn defining_module(definition: Option<Definition>) -> Option<usize>
    ensures { result ≡ defining_module definition }
{
    match definition {
        Some(found) => Some(found.number),
        None => None,
    }
}

// The lesser of two numbers, if there is one.
fn lesser_number(one: Option<usize>, two: Option<usize>) -> Option<usize>
    ensures { result ≡ lesser_number one two }
{
    match (one, two) {
        (Some(one), Some(two)) => Some(one.min(two)),
        (Some(one), None) => Some(one),
        (None, two) => two,
    }
}

// The names that these modules define and need. Error: out of memory.
fn names_of(alloc: Global, modules: &[Module]) -> Result<(DefinedNames, IndexSet<Name>), NoMemory>
    ensures { IfOk result (λ names. AreNamed modules.now names.0.entries names.1.keys) }
{
    let mut definitions = IndexMap::new(alloc);
    let mut wanted = IndexSet::new(alloc);
    for (number, module) in modules.iter().enumerate() {
        note_publics(&mut definitions, number, module.publics())?;
        want_externals(&mut wanted, module.externals())?;
    }
    Ok((definitions, wanted))
}

impl Chosen {
    // These modules. Error: out of memory.
    pub(crate) fn of(alloc: Global, modules: Vec<Module>) -> Result<Chosen, NoMemory>
        ensures { IfOk result (λ chosen. chosen ≡ modules.items) }
    {
        let (definitions, wanted) = names_of(alloc, &modules)?;
        Ok(Chosen {
            modules,
            definitions,
            wanted,
        })
    }

    // The names that the chosen modules or these members need. Error: out of memory.
    pub(crate) fn asked(
        &self,
        alloc: Global,
        members: &[&Module],
    ) -> Result<IndexSet<Name>, NoMemory>
        ensures { IfOk result (λ names. AreWanted (self.now ++ map (λ m. m.now) members.now) names.keys) }
    {
        let (_, wanted) = names_of(alloc, &self.modules)?;
        let mut names = wanted;
        for member in members {
            want_externals(&mut names, member.externals())?;
        }
        Ok(names)
    }

    // How many modules are chosen.
    pub(crate) fn count(&self) -> usize
        ensures { result ≡ length self.now }
    {
        self.modules.len()
    }

    // With one more module. Error: out of memory.
    pub(crate) fn with(self, member: Module) -> Result<Chosen, NoMemory>
        ensures { IfOk result (λ chosen. chosen ≡ self ++ member ∷ []) }
    {
        let Chosen {
            mut modules,
            mut definitions,
            mut wanted,
        } = self;
        note_publics(&mut definitions, modules.len(), member.publics())?;
        want_externals(&mut wanted, member.externals())?;
        modules.push(member)?;
        Ok(Chosen {
            modules,
            definitions,
            wanted,
        })
    }

    // The number of the member that has the name first, where none of the chosen modules defines it.
    fn supplier(&self, members: &DefinedNames, name: &Name) -> Option<usize>
        ensures { result ≡ supplier self.now (definition_in members.now.entries) name.now }
    {
        match public_definition(&self.definitions, name) {
            Some(_) => None,
            None => defining_module(public_definition(members, name)),
        }
    }

    // The least number of a member that is the first to have a name which the chosen modules need and do not define.
    pub(crate) fn first_supplier(&self, members: &DefinedNames) -> Option<usize>
        ensures { let supplier = supplier self.now (definition_in members.now.entries) in
            IsEarliest supplier (IsWanted self.now) result }
    {
        let mut least = None;
        for name in self.wanted.as_slice() {
            least = lesser_number(least, self.supplier(members, name));
        }
        least
    }
}
