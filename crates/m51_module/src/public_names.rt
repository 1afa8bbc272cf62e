//! The names of the publics of modules, in a table where there is memory for one.
ghost use Rattle.std.specs.Prelude.{◌≡◌, [], ◌∷◌, ◌++◌, List, OnOk, IfSome, None};
ghost use Rattle.m51_module.specs.declared.parts.ModuleParts.{ModuleParts};
ghost use Rattle.m51_module.specs.Library.{defines};
ghost use Rattle.m51_module.specs.WorkNames.{AreNames, IsBeside, LacksNames, NotesNames};

use crate::members::defines_either;
use crate::{Module, Public};
use indexmap::IndexSet;
use m51_cells::{Name, NoMemory};
use std::alloc::Global;
use std::marker::Model;

// The names of the publics of modules; `None` where there was no memory for them.
#[derive(Drop)]
pub(crate) struct PublicNames {
    names: Option<IndexSet<Name>>,
}

impl Model for PublicNames {
    ghost use Rattle.std.specs.Prelude.{List, ℕ, Option, option_map};

    ghost Value = { Option (List (List ℕ)) };

    ghost view = { λ n. option_map (λ s. s.keys) n.names };
}

// Notes the names of the publics. Error: out of memory.
fn note(names: &mut IndexSet<Name>, publics: &[Public]) -> Result<(), NoMemory>
    ensures { OnOk result (NotesNames (λ p. p.name) names.old.keys publics.now names.new.keys) }
{
    for public in publics {
        names.insert(public.name)?;
    }
    Ok(())
}

// Removes the names of the publics.
fn take_out(names: &mut IndexSet<Name>, publics: &[Public])
    ensures { LacksNames (λ p. p.name) names.old.keys publics.now names.new.keys }
{
    for public in publics {
        names.swap_remove(&public.name);
    }
}

// The names without those of the publics.
fn lacking(mut names: IndexSet<Name>, publics: &[Public]) -> IndexSet<Name>
    ensures { LacksNames (λ p. p.name) names.keys publics.now result.keys }
{
    take_out(&mut names, publics);
    names
}

// The names with those of the publics, where there is memory for them.
fn noted(mut names: IndexSet<Name>, publics: &[Public]) -> Option<IndexSet<Name>>
    ensures { IfSome result (λ more. NotesNames (λ p. p.name) names.keys publics.now more.keys) }
{
    match note(&mut names, publics) {
        Ok(()) => Some(names),
        Err(_) => None,
    }
}

impl PublicNames {
    // Those of no modules.
    pub(crate) fn none(alloc: Global) -> PublicNames
        ensures { AreNames [] result }
    {
        PublicNames {
            names: Some(IndexSet::new(alloc)),
        }
    }

    // No table.
    pub(crate) fn unknown() -> PublicNames
        ensures { (modules : List ModuleParts) → AreNames modules result }
    {
        PublicNames { names: None }
    }

    // The table, or where there is none that of these modules; no table is left.
    pub(crate) fn take(&mut self, alloc: Global, members: &[Module]) -> PublicNames
        requires { AreNames members.now self.old }
        ensures taken { AreNames members.now result }
        ensures left { self.new ≡ None }
    {
        match self.names.take() {
            Some(names) => PublicNames { names: Some(names) },
            None => PublicNames::of(alloc, members, &[]),
        }
    }

    // With those of one more module.
    pub(crate) fn with(self, member: &Module) -> PublicNames
        ensures { (modules : List ModuleParts) → AreNames modules self → AreNames (modules ++ member.now ∷ []) result }
    {
        match self.names {
            Some(names) => PublicNames {
                names: noted(names, member.publics()),
            },
            None => PublicNames { names: None },
        }
    }

    // Without those of a module, which no other module has.
    pub(crate) fn without(self, member: &Module) -> PublicNames
        ensures { (modules others : List ModuleParts) → IsBeside modules others member.now → AreNames modules self
            → AreNames others result }
    {
        match self.names {
            Some(names) => PublicNames {
                names: Some(lacking(names, member.publics())),
            },
            None => PublicNames { names: None },
        }
    }

    // With those of these modules.
    fn with_all(self, members: &[Module]) -> PublicNames
        ensures { (modules : List ModuleParts) → AreNames modules self → AreNames (modules ++ members.now) result }
    {
        let mut names = self;
        for member in members {
            names = names.with(member);
        }
        names
    }

    // Those of the modules of these two parts of a list.
    pub(crate) fn of(alloc: Global, before: &[Module], after: &[Module]) -> PublicNames
        ensures { AreNames (before.now ++ after.now) result }
    {
        PublicNames::none(alloc).with_all(before).with_all(after)
    }

    // Whether a module of these two parts of a list, whose names these are, has a public of that name.
    pub(crate) fn defined(&self, before: &[Module], after: &[Module], name: &Name) -> bool
        requires { AreNames (before.now ++ after.now) self.now }
        ensures { result ≡ defines (before.now ++ after.now) name.now }
    {
        match &self.names {
            Some(names) => names.contains(name),
            None => defines_either(before, after, name),
        }
    }
}
