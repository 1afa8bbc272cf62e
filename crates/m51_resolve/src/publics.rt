//! Which public resolves an external.
ghost use Rattle.std.specs.Prelude.{◌≡◌, map, IfOk};
ghost use Rattle.m51_resolve.specs.Publics.{kinds_agree};
ghost use Rattle.m51_resolve.specs.WorkNames.{definition_in, resolving_by};

use crate::definitions::{DefinedNames, public_definition};
use m51_cells::{Kind, NoMemory, same_kind};
use m51_module::External;
use std::alloc::Global;

// Where a name is defined: a public of a chosen module.
#[derive(Clone, Copy)]
pub(crate) struct Definition {
    // The module, counted from 0 among the chosen ones.
    pub number: usize,
    // The index, counted from 0, among its publics.
    pub index: usize,
    // The kind of the public.
    pub kind: Kind,
}

// Whether the kinds agree: they are the same, or one of them is NUMBER.
pub(crate) fn kinds_agree(one: Kind, two: Kind) -> bool
    ensures { result ≡ kinds_agree one two }
{
    same_kind(one, two) || same_kind(one, Kind::Number) || same_kind(two, Kind::Number)
}

// The public that resolves the external, where one does.
fn resolving(definitions: &DefinedNames, external: &External) -> Definition
    ensures { result ≡ resolving_by (definition_in definitions.now.entries) external.now }
{
    public_definition(definitions, &external.name).unwrap_or(Definition {
        number: 0,
        index: 0,
        kind: Kind::Number,
    })
}

// The publics that resolve these externals. Error: out of memory.
pub(crate) fn resolving_all(
    alloc: Global,
    definitions: &DefinedNames,
    externals: &[External],
) -> Result<Vec<Definition>, NoMemory>
    ensures { let definition = definition_in definitions.now.entries in
        IfOk result (λ found. found.items ≡ map (resolving_by definition) externals.now) }
{
    let mut found = Vec::new(alloc);
    for external in externals {
        found.push(resolving(definitions, external))?;
    }
    Ok(found)
}
