//! The rules that chosen modules must meet.
ghost use Rattle.std.specs.Prelude.{◌≡◌, find, filter, length, option_map};
ghost use Rattle.m51_resolve.specs.Joining.{title_of};
ghost use Rattle.m51_resolve.specs.Rules.{shared_public};
ghost use Rattle.m51_resolve.specs.WorkJoining.{is_large, is_unit};
ghost use Rattle.m51_resolve.specs.WorkNames.{contrary_by, definition_in, shared_in, undefined_by, AreDefinitions};

use crate::definitions::{DefinedNames, is_shared, public_definition};
use crate::joining::{Growing, is_relocatable};
use crate::publics::kinds_agree;
use m51_cells::{Name, is_code, most_of};
use m51_module::{External, Module, Public, Segment};

// The first of the publics that two modules define.
fn first_shared(definitions: &DefinedNames, publics: &[Public]) -> Option<Name>
    ensures { result ≡ option_map (λ p. p.name) (find (λ p. shared_in definitions.now.entries p.name) publics.now) }
{
    publics
        .iter()
        .find(|public| is_shared(definitions, &public.name))
        .map(|public| public.name)
}

// The first public, by module and index, that another module defines too.
pub(crate) fn shared_public(definitions: &DefinedNames, modules: &[Module]) -> Option<Name>
    requires { AreDefinitions modules.now definitions.now.entries }
    ensures { result ≡ shared_public modules.now }
{
    for module in modules {
        if let Some(name) = first_shared(definitions, module.publics()) {
            return Some(name);
        }
    }
    None
}

// Whether no module defines the external.
fn is_undefined(definitions: &DefinedNames, external: &External) -> bool
    ensures { result ≡ undefined_by (definition_in definitions.now.entries) external.now }
{
    public_definition(definitions, &external.name).is_none()
}

// The first of these externals that no module defines.
pub(crate) fn undefined_external(definitions: &DefinedNames, externals: &[External]) -> Option<Name>
    ensures { let definition = definition_in definitions.now.entries in
        result ≡ option_map (λ e. e.name) (find (undefined_by definition) externals.now) }
{
    externals
        .iter()
        .find(|external| is_undefined(definitions, external))
        .map(|external| external.name)
}

// Whether the kind of the external does not agree with that of its public.
fn is_contrary(definitions: &DefinedNames, external: &External) -> bool
    ensures { result ≡ contrary_by (definition_in definitions.now.entries) external.now }
{
    match public_definition(definitions, &external.name) {
        Some(found) => !kinds_agree(external.kind, found.kind),
        None => false,
    }
}

// The first of these externals whose kind does not agree with that of its public.
pub(crate) fn contrary_external(definitions: &DefinedNames, externals: &[External]) -> Option<Name>
    ensures { let definition = definition_in definitions.now.entries in
        result ≡ option_map (λ e. e.name) (find (contrary_by definition) externals.now) }
{
    externals
        .iter()
        .find(|external| is_contrary(definitions, external))
        .map(|external| external.name)
}

// The first joined segment whose parts differ in kind, type, OVERLAYABLE or ARGUMENT.
pub(crate) fn mixed_segment(growing: &[Growing]) -> Option<Name>
    ensures { result ≡ option_map (λ g. g.first.name) (find (λ g. g.mixed) growing.now) }
{
    growing
        .iter()
        .find(|joined| joined.mixed)
        .map(|joined| joined.first.name)
}

// Whether the joined segment is larger.
fn is_large(joined: &Growing) -> bool
    ensures { result ≡ is_large joined.now }
{
    joined.end > most_of(joined.first.kind, joined.first.reloc) as usize
}

// The name of a relocatable segment, the title of an absolute one.
pub(crate) fn title_of(segment: &Segment) -> Name
    ensures { result ≡ title_of segment.now }
{
    if is_relocatable(segment.reloc) {
        segment.name
    } else {
        Name::at(segment.base)
    }
}

// The first joined segment that is too large.
pub(crate) fn large_segment(growing: &[Growing]) -> Option<Name>
    ensures { result ≡ option_map (λ g. title_of g.first) (find is_large growing.now) }
{
    growing
        .iter()
        .find(|joined| is_large(joined))
        .map(|joined| title_of(&joined.first))
}

// How many of the joined segments are units.
pub(crate) fn unit_count(growing: &[Growing]) -> usize
    ensures { result ≡ length (filter is_unit growing.now) }
{
    growing
        .iter()
        .filter(|joined| is_code(joined.first.kind))
        .count()
}
