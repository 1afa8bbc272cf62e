//! Chooses modules.
ghost use Rattle.std.specs.Prelude.{◌≡◌, ℕ, true, List, map, IfOk};
ghost use Rattle.m51_resolve.specs.Choice.{chosen_of, members_of};
ghost use Rattle.m51_resolve.specs.Rules.{resolved_or_refused, resolved_of};
ghost use Rattle.m51_resolve.specs.WorkChoice.{IsNext, IsWanted};
ghost use Rattle.m51_resolve.specs.WorkNames.{AreAskedFor, wanted_in};

use crate::chosen::Chosen;
use crate::definitions::{DefinedNames, note_asked};
use indexmap::{IndexMap, IndexSet};
use m51_cells::{MOST_MODULES, Name, NoMemory};
use m51_module::{Library, Module};
use std::alloc::Global;

// The index of the member that is chosen next, of those with these definitions: the first that is needed. There is none
// where more modules are chosen already than a link takes: the link is refused then, whatever else is chosen.
fn next_needed(
    chosen: &Chosen,
    definitions: &DefinedNames,
    asked: &IndexSet<Name>,
    members: &[&Module],
) -> Option<usize>
    requires definitions { AreAskedFor asked.now.keys (map (λ m. m.now) members.now) definitions.now.entries }
    requires asked { (name : List ℕ) → IsWanted chosen.now name → wanted_in asked.now.keys name ≡ true }
    ensures { IsNext chosen.now (map (λ m. m.now) members.now) result }
{
    if chosen.count() > MOST_MODULES {
        return None;
    }
    chosen.first_supplier(definitions)
}

// The members of libraries, in order of library and member.
fn members<'a>(alloc: Global, libraries: &'a [Library]) -> Result<Vec<&'a Module>, NoMemory>
    ensures { IfOk result (λ members. map (λ m. m.now) members.items ≡ members_of libraries.now) }
{
    let mut members = Vec::new(alloc);
    for library in libraries {
        for member in library.list() {
            members.push(member)?;
        }
    }
    Ok(members)
}

// Of the names that are asked for those that the members define.
fn definitions_of(
    alloc: Global,
    asked: &IndexSet<Name>,
    members: &[&Module],
) -> Result<DefinedNames, NoMemory>
    ensures { IfOk result (λ table. AreAskedFor asked.now.keys (map (λ m. m.now) members.now) table.entries) }
{
    let mut definitions = IndexMap::new(alloc);
    for (number, member) in members.iter().enumerate() {
        note_asked(&mut definitions, asked, number, member.publics())?;
    }
    Ok(definitions)
}

// The given modules and those chosen of the members, as far as the answer of a link is known by them.
fn choose_of(alloc: Global, given: Chosen, members: &[&Module]) -> Result<Chosen, NoMemory>
    ensures { let left = map (λ m. m.now) members.now in
        IfOk result (λ chosen. resolved_or_refused chosen ≡ resolved_or_refused (chosen_of given left)) }
{
    let asked = given.asked(alloc, members)?;
    let definitions = definitions_of(alloc, &asked, members)?;
    let mut chosen = given;
    while let Some(index) = next_needed(&chosen, &definitions, &asked, members) {
        let member = members[index].copy(alloc)?;
        chosen = chosen.with(member)?;
    }
    Ok(chosen)
}

// The given modules, and then the members of libraries that they need: each the first, in order of library and member,
// that is not chosen and has a public which a chosen module needs and none defines, until there is none, or until more
// modules are chosen than a link takes. Error: out of memory.
pub(crate) fn choose(
    alloc: Global,
    given: Vec<Module>,
    libraries: &[Library],
) -> Result<Chosen, NoMemory>
    ensures { IfOk result (λ chosen. resolved_or_refused chosen ≡ resolved_of given.items libraries.now) }
{
    let given = Chosen::of(alloc, given)?;
    let members = members(alloc, libraries)?;
    choose_of(alloc, given, &members)
}
