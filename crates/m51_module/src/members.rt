//! What is asked of the modules of a library, and of one that comes in.
ghost use Rattle.std.specs.Prelude.{◌≡◌, ◌<◌, ◌++◌, length, position, remove, slice_set, slice_index_or, vec_len};
ghost use Rattle.m51_module.specs.declared.parts.ModuleParts.{ModuleParts};
ghost use Rattle.m51_module.specs.Arguments.{raised};
ghost use Rattle.m51_module.specs.Library.{is_named, holds, has_public, defines, clash, add_refusal};
ghost use Rattle.m51_module.specs.WorkNames.{AreNames};

use crate::public_names::PublicNames;
use crate::{LibError, Module, Public};
use m51_cells::{MOST_MODULES, Name};
use std::alloc::Global;

// Whether the module has that name.
fn is_named(member: &Module, name: &Name) -> bool
    ensures { result ≡ is_named name.now member.now }
{
    member.name() == *name
}

// Whether one of the modules has that name.
fn holds(members: &[Module], name: &Name) -> bool
    ensures { result ≡ holds members.now name.now }
{
    members.iter().any(|member| is_named(member, name))
}

/// The index of the module of that name.
///
/// Source: own choice ("Libraries").
pub(crate) fn index_of(members: &[Module], name: &Name) -> Option<usize>
    ensures { result ≡ position (is_named name.now) members.now }
{
    members.iter().position(|member| is_named(member, name))
}

// Whether the module has a public of that name.
fn has_public(member: &Module, name: &Name) -> bool
    ensures { result ≡ has_public name.now member.now }
{
    member.publics().iter().any(|public| public.name == *name)
}

// Whether one of the modules has a public of that name.
fn defines(members: &[Module], name: &Name) -> bool
    ensures { result ≡ defines members.now name.now }
{
    members.iter().any(|member| has_public(member, name))
}

// Whether a module of these two parts of a list has a public of that name.
pub(crate) fn defines_either(before: &[Module], after: &[Module], name: &Name) -> bool
    ensures { result ≡ defines (before.now ++ after.now) name.now }
{
    defines(before, name) || defines(after, name)
}

// What refuses the module beside these two parts of a list, the names of whose publics are given: B3 with its first
// public that a module of them has.
fn clash(
    names: &PublicNames,
    before: &[Module],
    after: &[Module],
    incoming: &Module,
) -> Option<LibError>
    requires { AreNames (before.now ++ after.now) names.now }
    ensures { result ≡ clash (before.now ++ after.now) incoming.now }
{
    incoming
        .publics()
        .iter()
        .find(|public| names.defined(before, after, &public.name))
        .map(|public| LibError::B3 { name: public.name })
}

// What refuses the module beside all of these but the one at that index, the names of whose publics are given: B3 with
// its first public that one of them has.
#[tactic(auto, using(crate::proofs::Held::around))]
pub(crate) fn clash_with_others(
    names: &PublicNames,
    members: &[Module],
    index: usize,
    incoming: &Module,
) -> Option<LibError>
    requires index { index < length members.now }
    requires names { AreNames (remove members.now index) names.now }
    ensures { result ≡ clash (remove members.now index) incoming.now }
{
    let before = &members[..index];
    let after = &members[index + 1..];
    clash(names, before, after, incoming)
}

/// Removes the module at that index, and returns it.
///
/// Source: own choice ("Libraries").
pub(crate) fn take_out(members: &mut Vec<Module>, index: usize) -> Module
    requires { index < vec_len members.old }
    ensures value { result ≡ slice_index_or members.old.items index result }
    ensures items { members.new.items ≡ remove members.old.items index }
{
    members.remove(index)
}

// Raises the module at that index to version 2.
pub(crate) fn raise_at(members: &mut Vec<Module>, index: usize)
    requires { index < vec_len members.old }
    ensures { (d : ModuleParts) → members.new.items
        ≡ slice_set members.old.items index (raised (slice_index_or members.old.items index d)) }
{
    let alloc = *members.allocator();
    members[index].raise_in_place(alloc);
}

// What refuses to add the module to these, the names of whose publics are given: B1, then Full, then B3.
pub(crate) fn add_refusal_by(
    names: &PublicNames,
    members: &[Module],
    incoming: &Module,
) -> Option<LibError>
    requires { AreNames members.now names.now }
    ensures { result ≡ add_refusal members.now incoming.now }
{
    let name = incoming.name();
    if holds(members, &name) {
        return Some(LibError::B1 { name });
    }
    if members.len() >= MOST_MODULES {
        return Some(LibError::Full);
    }
    clash(names, members, &[], incoming)
}
