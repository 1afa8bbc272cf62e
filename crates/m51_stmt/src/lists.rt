//! Reads expressions, names and items, and lists of them.
ghost use Rattle.std.specs.Prelude.{◌≡◌, ◌≤◌, IfOk, length, map, option_map, take, drop};
ghost use Rattle.m51_expr.specs.Tree.{tree_of};
ghost use Rattle.m51_stmt.specs.Statement.{item_tree};
ghost use Rattle.m51_stmt.specs.Lists.{all_parts, parts, later_parts, list_after, list_of, name_alone};
ghost use Rattle.m51_stmt.specs.Lists.{expression, value, item, item_of, item_trees};

use crate::words::is_comma;
use m51_cells::{Bytes, ListOf, Name, Names, NoMemory};
use m51_expr::{Expr, Item, Items, ReadError, Symbol, read_symbols};
use std::alloc::Global;

/// How many symbols come before the first comma.
pub(crate) fn part_len(symbols: &[Symbol]) -> usize
    ensures front { (parts symbols.now).0 ≡ take result symbols.now }
    ensures behind { (parts symbols.now).1 ≡ later_parts (drop result symbols.now) }
    ensures within { result ≤ length symbols.now }
{
    match symbols {
        [] => 0,
        [first, more @ ..] => {
            if is_comma(first) {
                0
            } else {
                1 + part_len(more)
            }
        }
    }
}

// How many commas there are.
fn comma_count(symbols: &[Symbol]) -> usize
    ensures count { result ≡ length (parts symbols.now).1 }
    ensures within { result ≤ length symbols.now }
{
    match symbols {
        [] => 0,
        [first, more @ ..] => {
            if is_comma(first) {
                1 + comma_count(more)
            } else {
                comma_count(more)
            }
        }
    }
}

/// How many parts there are: one more than commas.
pub(crate) fn part_count(symbols: &[Symbol]) -> usize
    ensures { result ≡ length (all_parts symbols.now) }
{
    1 + comma_count(symbols)
}

/// The name that the symbols are, if they are one.
pub(crate) fn name_alone(symbols: &[Symbol]) -> Option<Name>
    ensures { result ≡ name_alone symbols.now }
{
    match symbols {
        [Symbol::Name(name)] => Some(*name),
        _ => None,
    }
}

/// The expression that the symbols are, all of them.
pub(crate) fn expression(alloc: Global, symbols: &[Symbol]) -> Result<Option<Expr>, NoMemory>
    ensures { IfOk result (λ found. option_map tree_of found ≡ expression symbols.now) }
{
    match read_symbols(alloc, symbols) {
        Ok((value, many)) if many == symbols.len() => Ok(Some(value)),
        Ok(_) | Err(ReadError::Fault { .. }) => Ok(None),
        Err(ReadError::Memory) => Err(NoMemory),
    }
}

// An item by its value.
fn value(alloc: Global, symbols: &[Symbol]) -> Result<Option<Item>, NoMemory>
    ensures { IfOk result (λ found. option_map item_tree found ≡ value symbols.now) }
{
    Ok(expression(alloc, symbols)?.map(Item::Value))
}

// An item of DB: only a text, or a value.
fn item(alloc: Global, symbols: &[Symbol]) -> Result<Option<Item>, NoMemory>
    ensures { IfOk result (λ found. option_map item_tree found ≡ item symbols.now) }
{
    match symbols {
        [Symbol::Text(characters)] => {
            let characters = characters.as_slice().to_vec(alloc)?;
            Ok(Some(Item::Text(Bytes::of(characters))))
        }
        _ => value(alloc, symbols),
    }
}

// An item of DB, or of DW, which has no texts.
fn item_of(alloc: Global, texts: bool, symbols: &[Symbol]) -> Result<Option<Item>, NoMemory>
    ensures { IfOk result (λ found. option_map item_tree found ≡ item_of texts symbols.now) }
{
    if texts {
        item(alloc, symbols)
    } else {
        value(alloc, symbols)
    }
}

/// The names with commas between them, after some that are read.
pub(crate) fn names(symbols: &[Symbol], mut done: Vec<Name>) -> Result<Option<Names>, NoMemory>
    ensures { IfOk result (λ found. found ≡ list_after done.items (list_of name_alone symbols.now)) }
{
    let len = part_len(symbols);
    let Some(name) = name_alone(&symbols[..len]) else {
        return Ok(None);
    };
    done.push(name)?;
    match &symbols[len..] {
        [_, rest @ ..] => names(rest, done),
        [] => Ok(Some(ListOf::of(done))),
    }
}

/// The items of DB, or of DW, with commas between them, after some that are read.
pub(crate) fn items(
    alloc: Global,
    texts: bool,
    symbols: &[Symbol],
    mut done: Vec<Item>,
) -> Result<Option<Items>, NoMemory>
    ensures { IfOk result (λ found. option_map item_trees found
        ≡ list_after (map item_tree done.items) (list_of (item_of texts) symbols.now)) }
{
    let len = part_len(symbols);
    let Some(item) = item_of(alloc, texts, &symbols[..len])? else {
        return Ok(None);
    };
    done.push(item)?;
    match &symbols[len..] {
        [_, rest @ ..] => items(alloc, texts, rest, done),
        [] => Ok(Some(ListOf::of(done))),
    }
}
