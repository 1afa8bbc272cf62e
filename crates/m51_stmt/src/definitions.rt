//! Reads definitions: SEGMENT, EQU, SET and the words of addresses.
ghost use Rattle.std.specs.Prelude.{◌≡◌, IfOk, option_map};
ghost use Rattle.m51_stmt.specs.Statement.{body_tree};
ghost use Rattle.m51_stmt.specs.Definitions.{definition_word, is_allowed, segment_body, is_overlayable, segment};
ghost use Rattle.m51_stmt.specs.Definitions.{definition_form};
ghost use Rattle.m51_stmt.specs.Definitions.{definition_lacks};

use crate::kinds::{kind_of, reloc_of};
use crate::lack::{Want, lacks};
use crate::lists::expression;
use crate::statement::Body;
use m51_cells::{Kind, Name, NoMemory, Reloc, allows, may_overlay};
use m51_expr::Symbol;
use std::alloc::Global;

/// A word of definitions, which comes after the name that it defines.
#[derive(Clone, Copy)]
pub(crate) enum DefinitionWord {
    Segment,
    Equ,
    Set,
    Address(Kind),
}

/// The definition that a word makes.
#[tactic(auto, unfolding(crate::specs::Definitions::definition_word))]
pub(crate) fn definition_word(word: &[u8]) -> Option<DefinitionWord>
    ensures { result ≡ definition_word word.now }
{
    if word == b"SEGMENT".as_slice() {
        Some(DefinitionWord::Segment)
    } else if word == b"EQU".as_slice() {
        Some(DefinitionWord::Equ)
    } else if word == b"SET".as_slice() {
        Some(DefinitionWord::Set)
    } else {
        kind_of(word).map(DefinitionWord::Address)
    }
}

// Whether a segment of the kind may have the type, and be OVERLAYABLE if that is written.
fn is_allowed(kind: Kind, reloc: Reloc, overlayable: bool) -> bool
    ensures { result ≡ is_allowed kind reloc overlayable }
{
    allows(kind, reloc) && (!overlayable || may_overlay(kind, reloc))
}

// The segment of this name by its kind and its type, and whether OVERLAYABLE is written.
fn segment_body(
    name: &Name,
    kind: Option<Kind>,
    reloc: Option<Reloc>,
    overlayable: bool,
) -> Option<Body>
    ensures { option_map body_tree result ≡ segment_body name.now kind reloc overlayable }
{
    let kind = kind?;
    let reloc = reloc?;
    if is_allowed(kind, reloc, overlayable) {
        Some(Body::Segment(*name, kind, reloc, overlayable))
    } else {
        None
    }
}

fn is_overlayable(word: &Name) -> bool
    ensures { result ≡ is_overlayable word.now }
{
    word.bytes() == b"OVERLAYABLE".as_slice()
}

// The kind, the type and OVERLAYABLE of the segment of this name.
fn segment(name: &Name, symbols: &[Symbol]) -> Option<Body>
    ensures { option_map body_tree result ≡ segment name.now symbols.now }
{
    match symbols {
        [Symbol::Word(kind)] => segment_body(name, kind_of(kind.bytes()), Some(Reloc::Unit), false),
        [Symbol::Word(kind), Symbol::Word(last)] => {
            let kind = kind_of(kind.bytes());
            if is_overlayable(last) {
                segment_body(name, kind, Some(Reloc::Unit), true)
            } else {
                segment_body(name, kind, reloc_of(last.bytes()), false)
            }
        }
        [Symbol::Word(kind), Symbol::Word(reloc), Symbol::Word(last)] if is_overlayable(last) => {
            segment_body(name, kind_of(kind.bytes()), reloc_of(reloc.bytes()), true)
        }
        _ => None,
    }
}

/// The definition of this name with what follows its word, if it has no syntax error.
pub(crate) fn definition_form(
    alloc: Global,
    kind: DefinitionWord,
    name: &Name,
    symbols: &[Symbol],
) -> Result<Option<Body>, NoMemory>
    ensures { IfOk result (λ found. option_map body_tree found ≡ definition_form kind name.now symbols.now) }
{
    Ok(match kind {
        DefinitionWord::Segment => segment(name, symbols),
        DefinitionWord::Equ => expression(alloc, symbols)?.map(|value| Body::Equ(*name, value)),
        DefinitionWord::Set => expression(alloc, symbols)?.map(|value| Body::Set(*name, value)),
        DefinitionWord::Address(kind) => {
            expression(alloc, symbols)?.map(|value| Body::Address(*name, kind, value))
        }
    })
}

/// Whether something that a definition needs after its word is missing.
pub(crate) fn definition_lacks(
    alloc: Global,
    definition: DefinitionWord,
    symbols: &[Symbol],
) -> Result<bool, NoMemory>
    ensures { IfOk result (λ lacks. lacks ≡ definition_lacks definition symbols.now) }
{
    match definition {
        DefinitionWord::Segment => lacks(alloc, Want::Nothing, Want::Names, symbols),
        DefinitionWord::Equ | DefinitionWord::Set | DefinitionWord::Address(_) => {
            lacks(alloc, Want::Expression, Want::Nothing, symbols)
        }
    }
}
