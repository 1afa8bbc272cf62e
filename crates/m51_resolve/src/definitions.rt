//! The names that modules define.
ghost use Rattle.std.specs.Prelude.{◌≡◌, ℕ, bytes_eq, if◌then◌else◌, true, List, Some, OnOk};
ghost use Rattle.indexmap.specs.IndexMap.{Updates};
ghost use Rattle.m51_resolve.specs.WorkNames.{again, definition_at, definition_in, shared_in, entry_by_name, Notes};
ghost use Rattle.m51_resolve.specs.WorkNames.{NotesAsked, wanted_in};

use crate::publics::Definition;
use indexmap::{IndexMap, IndexSet};
use m51_cells::{Name, NoMemory};
use m51_module::Public;

// Where a name is defined first, and whether another module defines it too.
#[derive(Clone, Copy)]
pub(crate) struct Defined {
    pub first: Definition,
    pub shared: bool,
}

// The names that modules define, in order of first sight.
pub(crate) type DefinedNames = IndexMap<Name, Defined>;

// What is known of a name with one more definition.
fn again(known: Option<Defined>, definition: Definition) -> Defined
    ensures { result ≡ again known definition }
{
    match known {
        Some(old) => Defined {
            first: old.first,
            shared: old.shared || old.first.number != definition.number,
        },
        None => Defined {
            first: definition,
            shared: false,
        },
    }
}

// The definition that a public of the module of that number is.
fn definition_at(number: usize, index: usize, public: &Public) -> Definition
    ensures { result ≡ definition_at number index public.now }
{
    let kind = public.kind;
    Definition {
        number,
        index,
        kind,
    }
}

// Notes a definition of the name.
fn note(table: &mut DefinedNames, name: &Name, definition: Definition) -> Result<(), NoMemory>
    ensures { let known = entry_by_name table.old.entries name.now in
        OnOk result (Updates bytes_eq table.old table.new name.now (Some (again known definition))) }
{
    let known = table.get(name).copied();
    table.insert(*name, again(known, definition))?;
    Ok(())
}

// Notes the publics of the module of that number. Error: out of memory.
pub(crate) fn note_publics(
    table: &mut DefinedNames,
    number: usize,
    publics: &[Public],
) -> Result<(), NoMemory>
    ensures { OnOk result (Notes table.old.entries number publics.now table.new.entries) }
{
    for (index, public) in publics.iter().enumerate() {
        let definition = definition_at(number, index, public);
        note(table, &public.name, definition)?;
    }
    Ok(())
}

// Notes a definition of the name, if the name is asked for.
fn note_if(
    table: &mut DefinedNames,
    asked: &IndexSet<Name>,
    name: &Name,
    definition: Definition,
) -> Result<(), NoMemory>
    ensures { OnOk result ((other : List ℕ) → wanted_in asked.now.keys other ≡ true
        → entry_by_name table.new.entries other ≡ (if bytes_eq name.now other
        then Some (again (entry_by_name table.old.entries name.now) definition)
        else entry_by_name table.old.entries other)) }
{
    if !asked.contains(name) {
        return Ok(());
    }
    note(table, name, definition)
}

// Notes the publics of the module of that number whose names are asked for. Error: out of memory.
pub(crate) fn note_asked(
    table: &mut DefinedNames,
    asked: &IndexSet<Name>,
    number: usize,
    publics: &[Public],
) -> Result<(), NoMemory>
    ensures { OnOk result (NotesAsked asked.now.keys table.old.entries number publics.now table.new.entries) }
{
    for (index, public) in publics.iter().enumerate() {
        let definition = definition_at(number, index, public);
        note_if(table, asked, &public.name, definition)?;
    }
    Ok(())
}

// The first public of the name, if the table has one.
pub(crate) fn public_definition(table: &DefinedNames, name: &Name) -> Option<Definition>
    ensures { result ≡ definition_in table.now.entries name.now }
{
    table.get(name).copied().map(|known| known.first)
}

// Whether two modules define the name.
pub(crate) fn is_shared(table: &DefinedNames, name: &Name) -> bool
    ensures { result ≡ shared_in table.now.entries name.now }
{
    match table.get(name).copied() {
        Some(known) => known.shared,
        None => false,
    }
}
