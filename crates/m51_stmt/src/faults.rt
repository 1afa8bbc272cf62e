//! The fault of a line with a syntax error.
ghost use Rattle.std.specs.Prelude.{◌≡◌, IfOk, drop};
ghost use Rattle.m51_stmt.specs.Lines.{definition_in, is_extrn, beside_extrn, definition_after, spoken_fault};
ghost use Rattle.m51_stmt.specs.Lines.{begun_fault, fault, is_colon, statement_fault};
ghost use Rattle.m51_stmt.specs.Words.{first_is};

use crate::definitions::{DefinitionWord, definition_lacks, definition_word};
use crate::directives::{directive_fault, directive_of, lacking};
use crate::lack::{Want, lacks};
use crate::words::{is_reserved_word, is_word, word_of};
use m51_cells::{BAD_FORM, NO_INSTRUCTION, Name, NoMemory};
use m51_expr::Symbol;
use m51_isa::is_mnemonic;
use std::alloc::Global;

// The word of definitions that comes first.
fn definition_in(symbols: &[Symbol]) -> Option<DefinitionWord>
    ensures { result ≡ definition_in symbols.now }
{
    match symbols {
        [] => None,
        [first, ..] => match word_of(first) {
            Some(word) => definition_word(word.bytes()),
            None => None,
        },
    }
}

fn is_extrn(symbol: &Symbol) -> bool
    ensures { result ≡ is_extrn symbol.now }
{
    match symbol {
        Symbol::Word(word) => word.bytes() == b"EXTRN".as_slice(),
        _ => false,
    }
}

// A kind after EXTRN is no word of definitions.
fn beside_extrn(definition: Option<DefinitionWord>) -> Option<DefinitionWord>
    ensures { result ≡ beside_extrn definition }
{
    match definition {
        Some(DefinitionWord::Address(_)) => None,
        _ => definition,
    }
}

// The word of definitions after a first word, if there is one.
fn definition_after(first: &Symbol, rest: &[Symbol]) -> Option<DefinitionWord>
    ensures { result ≡ definition_after first.now rest.now }
{
    if is_extrn(first) {
        beside_extrn(definition_in(rest))
    } else {
        definition_in(rest)
    }
}

// The fault of an instruction or a directive with a syntax error, or E11 where the word begins none.
fn spoken_fault(alloc: Global, word: Option<Name>, rest: &[Symbol]) -> Result<u8, NoMemory>
    ensures { IfOk result (λ fault. fault ≡ spoken_fault rest.now word) }
{
    let Some(word) = word else {
        return Ok(NO_INSTRUCTION);
    };
    if is_mnemonic(word.bytes()) {
        let lacks = lacks(alloc, Want::First, Want::Operand, rest)?;
        Ok(lacking(lacks, NO_INSTRUCTION))
    } else {
        match directive_of(word.bytes()) {
            Some(directive) => directive_fault(alloc, directive, rest),
            None => Ok(NO_INSTRUCTION),
        }
    }
}

fn behind_first(symbols: &[Symbol]) -> &[Symbol]
    ensures { result.now ≡ drop 1 symbols.now }
{
    match symbols {
        [_, rest @ ..] => rest,
        [] => symbols,
    }
}

// The fault of a definition, E12 where its name is reserved; or else of what the first word begins.
fn begun_fault(alloc: Global, first: &Symbol, rest: &[Symbol]) -> Result<u8, NoMemory>
    ensures { IfOk result (λ fault. fault ≡ begun_fault first.now rest.now (definition_after first.now rest.now)) }
{
    match definition_after(first, rest) {
        Some(_) if is_reserved_word(first) => Ok(BAD_FORM),
        Some(definition) => {
            let lacks = definition_lacks(alloc, definition, behind_first(rest))?;
            Ok(lacking(lacks, BAD_FORM))
        }
        None => spoken_fault(alloc, word_of(first), rest),
    }
}

// The fault of what comes after the label, or E11 where no word begins it.
fn fault(alloc: Global, symbols: &[Symbol]) -> Result<u8, NoMemory>
    ensures { IfOk result (λ number. number ≡ fault symbols.now) }
{
    match symbols {
        [] => Ok(NO_INSTRUCTION),
        [first, rest @ ..] => {
            if is_word(first) {
                begun_fault(alloc, first, rest)
            } else {
                Ok(NO_INSTRUCTION)
            }
        }
    }
}

fn first_is_colon(symbols: &[Symbol]) -> bool
    ensures { result ≡ first_is is_colon symbols.now }
{
    match symbols {
        [Symbol::Colon, ..] => true,
        _ => false,
    }
}

/// The fault of symbols with a syntax error.
pub(crate) fn statement_fault(alloc: Global, symbols: &[Symbol]) -> Result<u8, NoMemory>
    ensures { IfOk result (λ number. number ≡ statement_fault symbols.now) }
{
    match symbols {
        [] => Ok(NO_INSTRUCTION),
        [first, rest @ ..] => {
            if is_word(first) && first_is_colon(rest) {
                if is_reserved_word(first) {
                    return Ok(BAD_FORM);
                }
                fault(alloc, behind_first(rest))
            } else {
                fault(alloc, symbols)
            }
        }
    }
}
