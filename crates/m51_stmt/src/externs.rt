//! Reads EXTRN.
ghost use Rattle.std.specs.Prelude.{◌≡◌, ◌<◌, ◌+◌, ◌++◌, ◌^◌, IfOk, OnOk, length, option_map};
ghost use Rattle.m51_stmt.specs.Lists.{list_after};
ghost use Rattle.m51_stmt.specs.Externs.{after_name, next, names_added, names_at_end, externs_from, region_after};
ghost use Rattle.m51_stmt.specs.Externs.{defines_reserved};

use crate::kinds::extern_kind_of;
use crate::statement::Externs;
use crate::words::is_reserved_word;
use m51_cells::{Kind, ListOf, Name, NoMemory};
use m51_expr::{Symbol, is_reserved};

/// What is awaited in EXTRN: a kind; the parenthesis that opens the names of a kind; one of them; a comma or the
/// closing parenthesis after it; the line's end, or a comma before another kind.
#[derive(Clone, Copy)]
pub(crate) enum Awaited {
    Kind,
    Open(Kind),
    Name(Kind),
    Sign(Kind),
    End,
}

/// Where a symbol of EXTRN lies: how many parentheses are open, and whether a name must follow.
#[derive(Clone, Copy)]
pub(crate) struct Region {
    depth: usize,
    at_name: bool,
}

impl Region {
    /// Outside parentheses.
    pub(crate) const OUTSIDE: Region = Region {
        depth: 0,
        at_name: false,
    };
}

// After a name, which no word reserves, a sign is awaited.
fn after_name(name: &[u8], kind: Kind) -> Option<Awaited>
    ensures { result ≡ after_name name.now kind }
{
    if is_reserved(name) {
        None
    } else {
        Some(Awaited::Sign(kind))
    }
}

// What is awaited after a symbol.
fn next(awaited: Awaited, symbol: &Symbol) -> Option<Awaited>
    ensures { result ≡ next awaited symbol.now }
{
    match (awaited, symbol) {
        (Awaited::Kind, Symbol::Word(word)) => extern_kind_of(word.bytes()).map(Awaited::Open),
        (Awaited::Open(kind), Symbol::Open) => Some(Awaited::Name(kind)),
        (Awaited::Name(kind), Symbol::Name(name)) => after_name(name.bytes(), kind),
        (Awaited::Sign(kind), Symbol::Comma) => Some(Awaited::Name(kind)),
        (Awaited::Sign(_), Symbol::Close) => Some(Awaited::End),
        (Awaited::End, Symbol::Comma) => Some(Awaited::Kind),
        _ => None,
    }
}

// Adds the name that a symbol is, with its kind, if a name is awaited.
fn add(externs: &mut Vec<(Name, Kind)>, awaited: Awaited, symbol: &Symbol) -> Result<(), NoMemory>
    ensures { OnOk result (externs.new.items ≡ externs.old.items ++ names_added awaited symbol.now) }
{
    match (awaited, symbol) {
        (Awaited::Name(kind), Symbol::Name(name)) => {
            externs.push((*name, kind))?;
            Ok(())
        }
        _ => Ok(()),
    }
}

/// The names of EXTRN with their kinds, after some that are read, where this is awaited.
pub(crate) fn externs_from(
    awaited: Awaited,
    symbols: &[Symbol],
    mut done: Vec<(Name, Kind)>,
) -> Result<Option<Externs>, NoMemory>
    ensures { IfOk result (λ found. found ≡ list_after done.items (externs_from awaited symbols.now)) }
{
    match symbols {
        [] => match awaited {
            Awaited::End => Ok(Some(ListOf::of(done))),
            _ => Ok(None),
        },
        [first, rest @ ..] => {
            let Some(then) = next(awaited, first) else {
                return Ok(None);
            };
            add(&mut done, awaited, first)?;
            externs_from(then, rest, done)
        }
    }
}

// The region after a symbol.
fn region_after(region: Region, symbol: &Symbol) -> Region
    requires { region.depth + 1 < 2 ^ 64 }
    ensures { result ≡ region_after region symbol.now }
{
    let Region { depth, .. } = region;
    match symbol {
        Symbol::Open => Region {
            depth: depth + 1,
            at_name: true,
        },
        Symbol::Close => Region {
            depth: depth.saturating_sub(1),
            at_name: false,
        },
        Symbol::Comma => Region {
            depth,
            at_name: 0 < depth,
        },
        _ => Region {
            depth,
            at_name: false,
        },
    }
}

/// Whether a reserved word is in EXTRN where a name must be.
pub(crate) fn defines_reserved(region: Region, symbols: &[Symbol]) -> bool
    requires { region.depth + length symbols.now < 2 ^ 64 }
    ensures { result ≡ defines_reserved region symbols.now }
{
    match symbols {
        [] => false,
        [first, more @ ..] => {
            if region.at_name && is_reserved_word(first) {
                return true;
            }
            defines_reserved(region_after(region, first), more)
        }
    }
}
