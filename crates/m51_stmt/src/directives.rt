//! Reads directives, and says what each needs after its word.
ghost use Rattle.std.specs.Prelude.{◌≡◌, ◌<◌, ◌^◌, IfOk, length, option_map};
ghost use Rattle.m51_stmt.specs.Statement.{Db, body_tree};
ghost use Rattle.m51_stmt.specs.Lists.{item, list_of};
ghost use Rattle.m51_stmt.specs.Directives.{select_of, directive_of, is_at, select, end_form, directive_form};
ghost use Rattle.m51_stmt.specs.Directives.{select_lacks};
ghost use Rattle.m51_stmt.specs.Directives.{directive_lacks, lacking, reserves, directive_fault};

use crate::externs::{Awaited, Region, defines_reserved, externs_from};
use crate::lack::{Want, lacks};
use crate::lists::{expression, items, name_alone, names, part_count};
use crate::statement::Body;
use m51_cells::{BAD_FORM, Kind, NO_EXPRESSION, NoMemory};
use m51_expr::Symbol;
use std::alloc::Global;

/// A directive.
#[derive(Clone, Copy)]
pub(crate) enum Directive {
    Rseg,
    Select(Kind),
    Using,
    Ds,
    Dbit,
    Org,
    Db,
    Dw,
    Public,
    Extrn,
    Name,
    End,
}

// CSEG, DSEG, XSEG, BSEG and ISEG.
#[tactic(auto, unfolding(crate::specs::Directives::select_of))]
fn select_of(word: &[u8]) -> Option<Directive>
    ensures { result ≡ select_of word.now }
{
    if word == b"CSEG".as_slice() {
        Some(Directive::Select(Kind::Code))
    } else if word == b"XSEG".as_slice() {
        Some(Directive::Select(Kind::Xdata))
    } else if word == b"DSEG".as_slice() {
        Some(Directive::Select(Kind::Direct))
    } else if word == b"ISEG".as_slice() {
        Some(Directive::Select(Kind::Idata))
    } else if word == b"BSEG".as_slice() {
        Some(Directive::Select(Kind::Bits))
    } else {
        None
    }
}

/// The directive that a word begins.
#[tactic(auto, unfolding(crate::specs::Directives::directive_of))]
pub(crate) fn directive_of(word: &[u8]) -> Option<Directive>
    ensures { result ≡ directive_of word.now }
{
    if word == b"RSEG".as_slice() {
        Some(Directive::Rseg)
    } else if word == b"USING".as_slice() {
        Some(Directive::Using)
    } else if word == b"DS".as_slice() {
        Some(Directive::Ds)
    } else if word == b"DBIT".as_slice() {
        Some(Directive::Dbit)
    } else if word == b"ORG".as_slice() {
        Some(Directive::Org)
    } else if word == b"DB".as_slice() {
        Some(Directive::Db)
    } else if word == b"DW".as_slice() {
        Some(Directive::Dw)
    } else if word == b"PUBLIC".as_slice() {
        Some(Directive::Public)
    } else if word == b"EXTRN".as_slice() {
        Some(Directive::Extrn)
    } else if word == b"NAME".as_slice() {
        Some(Directive::Name)
    } else if word == b"END".as_slice() {
        Some(Directive::End)
    } else {
        select_of(word)
    }
}

fn is_at(symbol: &Symbol) -> bool
    ensures { result ≡ is_at symbol.now }
{
    match symbol {
        Symbol::Word(word) => word.bytes() == b"AT".as_slice(),
        _ => false,
    }
}

// CSEG and the like have no operand, or AT and an expression.
fn select(alloc: Global, kind: Kind, symbols: &[Symbol]) -> Result<Option<Body>, NoMemory>
    ensures { IfOk result (λ found. option_map body_tree found ≡ select kind symbols.now) }
{
    match symbols {
        [] => Ok(Some(Body::Select(kind, None))),
        [first, rest @ ..] => {
            if !is_at(first) {
                return Ok(None);
            }
            Ok(expression(alloc, rest)?.map(|value| Body::Select(kind, Some(value))))
        }
    }
}

fn end_form(symbols: &[Symbol]) -> Option<Body>
    ensures { option_map body_tree result ≡ end_form symbols.now }
{
    match symbols {
        [] => Some(Body::End),
        _ => None,
    }
}

fn data_bytes(alloc: Global, symbols: &[Symbol]) -> Result<Option<Body>, NoMemory>
    ensures { IfOk result (λ found. option_map body_tree found ≡ option_map Db (list_of item symbols.now)) }
{
    let done = Vec::with_capacity(alloc, part_count(symbols))?;
    match items(alloc, true, symbols, done)? {
        Some(items) => Ok(Some(Body::Db(items))),
        None => Ok(None),
    }
}

/// What a directive says with what follows its word, if it has no syntax error.
pub(crate) fn directive_form(
    alloc: Global,
    word: Directive,
    symbols: &[Symbol],
) -> Result<Option<Body>, NoMemory>
    ensures { IfOk result (λ found. option_map body_tree found ≡ directive_form word symbols.now) }
{
    match word {
        Directive::Using => Ok(expression(alloc, symbols)?.map(Body::Using)),
        Directive::Ds => Ok(expression(alloc, symbols)?.map(Body::Ds)),
        Directive::Dbit => Ok(expression(alloc, symbols)?.map(Body::Dbit)),
        Directive::Org => Ok(expression(alloc, symbols)?.map(Body::Org)),
        Directive::Db => data_bytes(alloc, symbols),
        Directive::Dw => {
            let done = Vec::with_capacity(alloc, part_count(symbols))?;
            Ok(items(alloc, false, symbols, done)?.map(Body::Dw))
        }
        Directive::Select(kind) => select(alloc, kind, symbols),
        Directive::Rseg => Ok(name_alone(symbols).map(Body::Rseg)),
        Directive::Name => Ok(name_alone(symbols).map(Body::ModuleName)),
        Directive::Public => Ok(names(symbols, Vec::new(alloc))?.map(Body::Public)),
        Directive::Extrn => {
            let externs = externs_from(Awaited::Kind, symbols, Vec::new(alloc))?;
            Ok(externs.map(Body::Extrn))
        }
        Directive::End => Ok(end_form(symbols)),
    }
}

// Whether something that CSEG and the like require is missing: after AT an expression is required.
fn select_lacks(alloc: Global, symbols: &[Symbol]) -> Result<bool, NoMemory>
    ensures { IfOk result (λ lacks. lacks ≡ select_lacks symbols.now) }
{
    match symbols {
        [first, rest @ ..] if is_at(first) => lacks(alloc, Want::Expression, Want::Nothing, rest),
        _ => lacks(alloc, Want::Nothing, Want::Names, symbols),
    }
}

// Whether something that a directive needs after its word is missing.
fn directive_lacks(alloc: Global, word: Directive, symbols: &[Symbol]) -> Result<bool, NoMemory>
    ensures { IfOk result (λ lacks. lacks ≡ directive_lacks word symbols.now) }
{
    match word {
        Directive::Using | Directive::Ds | Directive::Dbit | Directive::Org => {
            lacks(alloc, Want::Expression, Want::Nothing, symbols)
        }
        Directive::Db => lacks(alloc, Want::Item, Want::Item, symbols),
        Directive::Dw => lacks(alloc, Want::Expression, Want::Expression, symbols),
        Directive::Select(_) => select_lacks(alloc, symbols),
        Directive::Extrn | Directive::Rseg | Directive::Public | Directive::Name | Directive::End =>
            { lacks(alloc, Want::Nothing, Want::Names, symbols) }
    }
}

/// E6 if something is missing, or else this fault.
pub(crate) fn lacking(lacks: bool, fault: u8) -> u8
    ensures { result ≡ lacking lacks fault }
{
    if lacks { NO_EXPRESSION } else { fault }
}

// Whether EXTRN defines a reserved word.
fn reserves(word: Directive, symbols: &[Symbol]) -> bool
    ensures { result ≡ reserves word symbols.now }
{
    match word {
        Directive::Extrn => defines_reserved(Region::OUTSIDE, symbols),
        _ => false,
    }
}

/// The fault of a directive with a syntax error.
pub(crate) fn directive_fault(
    alloc: Global,
    word: Directive,
    symbols: &[Symbol],
) -> Result<u8, NoMemory>
    ensures { IfOk result (λ fault. fault ≡ directive_fault word symbols.now) }
{
    if reserves(word, symbols) {
        return Ok(BAD_FORM);
    }
    Ok(lacking(directive_lacks(alloc, word, symbols)?, BAD_FORM))
}
