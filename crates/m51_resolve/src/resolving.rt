//! Resolves the modules of a link.
ghost use Rattle.std.specs.Prelude.{◌≡◌, false, map, IfOk, All};
ghost use Rattle.m51_cells.specs.Outcome.{Gives};
ghost use Rattle.m51_resolve.specs.Rules.{resolved_or_refused, but_memory, resolved_of};
ghost use Rattle.m51_resolve.specs.WorkJoining.{is_large, joined_as};
ghost use Rattle.m51_resolve.specs.WorkNames.{definition_in, AreDefinitions};
ghost use Rattle.m51_resolve.specs.WorkRules.{rules_of_counts, rules_of_externals, rules_of_growing};
ghost use Rattle.m51_resolve.specs.WorkRules.{rules_of_publics, Tells};

use crate::choosing::choose;
use crate::chosen::Chosen;
use crate::definitions::DefinedNames;
use crate::flat::{all_externals, all_segments};
use crate::joining::{Growing, join_all};
use crate::publics::resolving_all;
use crate::rules::{
    contrary_external, large_segment, mixed_segment, shared_public, title_of, undefined_external,
    unit_count,
};
use crate::{Joined, JoinedSegment};
use m51_cells::{MOST_MODULES, MOST_SEGMENTS, MOST_UNITS, NoMemory};
use m51_module::{External, Library, Module, Quantity, Refusal};
use std::alloc::Global;

// Limit of modules, and L1.
fn check_publics(definitions: &DefinedNames, modules: &[Module]) -> Result<(), Refusal>
    requires { AreDefinitions modules.now definitions.now.entries }
    ensures { Tells (rules_of_publics modules.now) result }
{
    if modules.len() > MOST_MODULES {
        let what = Quantity::Modules;
        return Err(Refusal::Limit { what });
    }
    match shared_public(definitions, modules) {
        Some(name) => Err(Refusal::L1 { name }),
        None => Ok(()),
    }
}

// L2 and L3.
fn check_externals(definitions: &DefinedNames, externals: &[External]) -> Result<(), Refusal>
    ensures { Tells (rules_of_externals (definition_in definitions.now.entries) externals.now) result }
{
    if let Some(name) = undefined_external(definitions, externals) {
        return Err(Refusal::L2 { name });
    }
    match contrary_external(definitions, externals) {
        Some(name) => Err(Refusal::L3 { name }),
        None => Ok(()),
    }
}

// Limit of segments and of units.
fn check_counts(growing: &[Growing]) -> Result<(), Refusal>
    ensures { Tells (rules_of_counts growing.now) result }
{
    if growing.len() > MOST_SEGMENTS {
        let what = Quantity::Segments;
        return Err(Refusal::Limit { what });
    }
    if unit_count(growing) > MOST_UNITS {
        let what = Quantity::Units;
        return Err(Refusal::Limit { what });
    }
    Ok(())
}

// L4, the limits of segments and of units, and L5.
fn check_segments(growing: &[Growing]) -> Result<(), Refusal>
    ensures { Tells (rules_of_growing growing.now) result }
{
    if let Some(name) = mixed_segment(growing) {
        return Err(Refusal::L4 { name });
    }
    check_counts(growing)?;
    match large_segment(growing) {
        Some(name) => Err(Refusal::L5 { name }),
        None => Ok(()),
    }
}

// The joined segment whose parts are all joined.
fn joined_as(joined: &Growing) -> JoinedSegment
    requires { is_large joined.now ≡ false }
    ensures { result ≡ joined_as joined.now }
{
    let first = joined.first;
    JoinedSegment {
        title: title_of(&first),
        kind: first.kind,
        reloc: first.reloc,
        overlay: first.overlay,
        argument: first.argument,
        base: first.base,
        size: joined.end as u16,
    }
}

// The joined segments, whose parts are all joined.
fn segments_of(alloc: Global, growing: &[Growing]) -> Result<Vec<JoinedSegment>, NoMemory>
    requires { All (λ g. is_large g ≡ false) growing.now }
    ensures { IfOk result (λ segments. segments.items ≡ map joined_as growing.now) }
{
    let mut segments = Vec::new(alloc);
    for joined in growing {
        segments.push(joined_as(joined))?;
    }
    Ok(segments)
}

// Resolves the externals of the chosen modules and joins their segments.
fn join_chosen(
    alloc: Global,
    modules: Vec<Module>,
    definitions: &DefinedNames,
) -> Result<Joined, Refusal>
    requires { AreDefinitions modules.items definitions.now.entries }
    ensures { Gives (λ joined. joined) but_memory result (resolved_or_refused modules.items) }
{
    check_publics(definitions, &modules)?;
    let externals = all_externals(alloc, &modules)?;
    check_externals(definitions, &externals.items)?;
    let segments = all_segments(alloc, &modules)?;
    let (growing, parts) = join_all(alloc, &segments.items)?;
    check_segments(&growing)?;
    let joined = segments_of(alloc, &growing)?;
    let publics = resolving_all(alloc, definitions, &externals.items)?;
    Ok(Joined {
        modules,
        segments: joined,
        segment_starts: segments.starts,
        parts,
        external_starts: externals.starts,
        publics,
    })
}

/// Chooses the modules of a link, resolves their externals and joins their segments.
///
/// The given modules are chosen, and then the members of libraries that they need: each the first, in order of library
/// and member, that is not chosen and has a public which a chosen module needs and none defines, until there is none.
///
/// The first rule that fails is the refusal, in this order: `Limit` where there are more than 255 modules; `L1`, the
/// first public that another module defines too; `L2`, the first external that no module defines; `L3`, the first
/// external whose kind does not agree with that of its public; `L4`, the first joined segment whose parts differ in
/// kind, type, OVERLAYABLE or ARGUMENT; `Limit` where there are more than 2,000 joined segments, and where there are
/// more than 1,000 units; `L5`, the first joined segment that is too large. Publics and externals come in order of
/// their modules, and in a module in its order. `Memory` is the only other error.
///
/// Source: RL51 guide.
pub fn resolve(
    alloc: Global,
    modules: Vec<Module>,
    libraries: &[Library],
) -> Result<Joined, Refusal>
    ensures { Gives (λ joined. joined) but_memory result (resolved_of modules.items libraries.now) }
{
    let Chosen {
        modules,
        definitions,
        wanted: _,
    } = choose(alloc, modules, libraries)?;
    join_chosen(alloc, modules, &definitions)
}
