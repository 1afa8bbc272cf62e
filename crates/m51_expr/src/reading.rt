//! Reads expressions by the ranks of their operators.
ghost use Rattle.std.specs.Prelude.{◌≡◌, ◌≤◌, ◌<◌, ◌-◌, ℕ, All, IfOk, IsSome, is_some};
ghost use Rattle.std.specs.Prelude.{false, Some, length, map, ◌+◌, option_copied};
ghost use Rattle.m51_lex.specs.Tokens.{IsWithin};
ghost use Rattle.m51_expr.specs.Symbol.{symbol_of};
ghost use Rattle.m51_expr.specs.Ranks.{prefix_operator};
ghost use Rattle.m51_expr.specs.Tree.{Tree, tree_of};
ghost use Rattle.m51_expr.specs.Grammar.{IsExpression};
ghost use Rattle.m51_expr.specs.Reading.{GivesTree, line_of_symbols, read, operators_after, looser, operand, enough};
ghost use Rattle.m51_expr.specs.Reading.{expression_in};
ghost use Rattle.m51_expr.specs.Reading.{expression_from};

use crate::fault::ReadError;
use crate::ranks::{OPERAND, infix_of, is_close, is_infix, is_open, is_prefix, leaf_of, prefix_of};
use crate::symbol::{Symbol, symbols};
use crate::tree::{Expr, one, two};
use m51_cells::NO_EXPRESSION;
use m51_lex::Token;
use std::alloc::Global;

// There is no expression.
const FAULT: ReadError = ReadError::Fault {
    number: NO_EXPRESSION,
};

// The symbol at an index, if there is one.
fn symbol_at(symbols: &[Symbol], at: usize) -> Option<&Symbol>
    ensures symbol { option_copied result ≡ line_of_symbols symbols.now at }
    ensures within { IsSome result → at < length symbols.now }
{
    if at >= symbols.len() {
        None
    } else {
        Some(&symbols[at])
    }
}

// The expression of this rank that begins at an index, and the index after it.
#[cycle(reader)]
fn read(alloc: Global, symbols: &[Symbol], rank: u8, at: usize) -> Result<(Expr, usize), ReadError>
    requires rank { rank ≤ 8 }
    ensures gives { (n : ℕ) → enough (length symbols.now - at) rank ≤ n
        → GivesTree result (read n (line_of_symbols symbols.now) rank at) }
    ensures within { IfOk result (λ r. (at < r.1) × (r.1 ≤ length symbols.now)) }
{
    let symbol = symbol_at(symbols, at);
    if !is_prefix(symbol) {
        return plain(alloc, symbols, rank, at);
    }
    if rank == OPERAND {
        return operand(alloc, symbols, at);
    }
    match prefix_of(symbol, rank) {
        Some(op) => {
            let (inner, next) = read(alloc, symbols, rank, at + 1)?;
            Ok((one(alloc, op, inner)?, next))
        }
        None => {
            let (left, next) = read(alloc, symbols, rank + 1, at)?;
            operators_after(alloc, symbols, rank, left, next)
        }
    }
}

// The expression of this rank that begins with an operand, and the index after it.
#[cycle(reader)]
fn plain(alloc: Global, symbols: &[Symbol], rank: u8, at: usize) -> Result<(Expr, usize), ReadError>
    requires rank { rank ≤ 8 }
    requires plain { is_some (prefix_operator (line_of_symbols symbols.now at)) ≡ false }
    ensures gives { (n : ℕ) → enough (length symbols.now - at) rank ≤ n
        → GivesTree result (read n (line_of_symbols symbols.now) rank at) }
    ensures within { IfOk result (λ r. (at < r.1) × (r.1 ≤ length symbols.now)) }
{
    let (left, next) = operand(alloc, symbols, at)?;
    looser(alloc, symbols, rank, left, next)
}

// An operand continues as an expression of each rank down to this one.
#[cycle(reader)]
fn looser(
    alloc: Global,
    symbols: &[Symbol],
    rank: u8,
    left: Expr,
    at: usize,
) -> Result<(Expr, usize), ReadError>
    requires rank { rank ≤ 8 }
    requires within { at ≤ length symbols.now }
    ensures gives { (n : ℕ) → enough (length symbols.now - at) rank ≤ n
        → GivesTree result (looser (8 - rank) n (line_of_symbols symbols.now) rank (tree_of left) at) }
    ensures within { IfOk result (λ r. (at ≤ r.1) × (r.1 ≤ length symbols.now)) }
{
    if rank == OPERAND {
        return Ok((left, at));
    }
    if !is_infix(symbol_at(symbols, at)) {
        return Ok((left, at));
    }
    let (inner, next) = looser(alloc, symbols, rank + 1, left, at)?;
    operators_after(alloc, symbols, rank, inner, next)
}

// An expression of this rank continues, as long as operators of the rank follow.
#[cycle(reader)]
fn operators_after(
    alloc: Global,
    symbols: &[Symbol],
    rank: u8,
    left: Expr,
    at: usize,
) -> Result<(Expr, usize), ReadError>
    requires rank { rank < 8 }
    requires within { at ≤ length symbols.now }
    ensures gives { (n : ℕ) → enough (length symbols.now - at) 8 ≤ n
        → GivesTree result (operators_after n (line_of_symbols symbols.now) rank (tree_of left) at) }
    ensures within { IfOk result (λ r. (at ≤ r.1) × (r.1 ≤ length symbols.now)) }
{
    let Some(op) = infix_of(symbol_at(symbols, at), rank) else {
        return Ok((left, at));
    };
    let (right, next) = read(alloc, symbols, rank + 1, at + 1)?;
    let both = two(alloc, op, left, right)?;
    operators_after(alloc, symbols, rank, both, next)
}

// A number, a name, the place of the statement, or an expression in parentheses.
#[cycle(reader)]
fn operand(alloc: Global, symbols: &[Symbol], at: usize) -> Result<(Expr, usize), ReadError>
    ensures gives { (n : ℕ) → enough (length symbols.now - at) 9 ≤ n
        → GivesTree result
        (operand (line_of_symbols symbols.now) at (read n (line_of_symbols symbols.now) 0 (at + 1))) }
    ensures within { IfOk result (λ r. (at < r.1) × (r.1 ≤ length symbols.now)) }
{
    let symbol = symbol_at(symbols, at);
    if is_open(symbol) {
        let (inner, next) = read(alloc, symbols, 0, at + 1)?;
        if is_close(symbol_at(symbols, next)) {
            Ok((inner, next + 1))
        } else {
            Err(FAULT)
        }
    } else {
        match leaf_of(symbol) {
            Some(leaf) => Ok((leaf, at + 1)),
            None => Err(FAULT),
        }
    }
}

/// The expression that the symbols begin with and that no infix operator follows, and how many of them it has: for a
/// caller who has the symbols of a line once and reads parts of them.
///
/// Errors: E6 where there is none, as for `1+`; or out of memory.
///
/// Source: own choice ("Ranks of operators").
pub fn read_symbols(alloc: Global, symbols: &[Symbol]) -> Result<(Expr, usize), ReadError>
    // The tree that reading by ranks gives, or E6.
    ensures gives { GivesTree result (expression_in symbols.now) }
    // It is an expression of the grammar.
    ensures sound { IfOk result (λ r. IsExpression (line_of_symbols symbols.now) 0 0 (tree_of r.0) r.1) }
    // An expression of the grammar that no infix operator follows is this one: so there is one at most, and E6 comes
    // only where there is none.
    ensures complete { (e : Tree) (to : ℕ) → IsExpression (line_of_symbols symbols.now) 0 0 e to
        → GivesTree result (Some (e, to)) }
    ensures within { IfOk result (λ r. (0 < r.1) × (r.1 ≤ length symbols.now)) }
{
    read(alloc, symbols, 0, 0)
}

// The expression that begins at an index among the symbols, and the index after it.
fn read_from(alloc: Global, symbols: &[Symbol], from: usize) -> Result<(Expr, usize), ReadError>
    ensures gives { GivesTree result (expression_from from symbols.now) }
    ensures sound { IfOk result (λ r. IsExpression (line_of_symbols symbols.now) 0 from (tree_of r.0) r.1) }
    ensures complete { (e : Tree) (to : ℕ) → IsExpression (line_of_symbols symbols.now) 0 from e to
        → GivesTree result (Some (e, to)) }
    ensures within { IfOk result (λ r. (from < r.1) × (r.1 ≤ length symbols.now)) }
{
    read(alloc, symbols, 0, from)
}

/// The expression that begins at a token of the line and that no infix operator follows, and the index of the token
/// after it. Both indices count from the first token of the line, which is 0. The tokens lie in the line, and the index
/// is at most their number.
///
/// Errors: E6 where there is none, as for `1+`; or out of memory.
///
/// Source: own choice ("Ranks of operators").
pub fn read_expr(
    alloc: Global,
    line: &str,
    tokens: &[Token],
    from: usize,
) -> Result<(Expr, usize), ReadError>
    requires slices { All (IsWithin (length line.now)) tokens.now }
    requires from { from ≤ length tokens.now }
    // The tree that reading by ranks gives, or E6.
    ensures gives { GivesTree result (expression_from from (map (symbol_of line.now) tokens.now)) }
    // It is an expression of the grammar.
    ensures sound { IfOk result (λ r.
        IsExpression (line_of_symbols (map (symbol_of line.now) tokens.now)) 0 from (tree_of r.0) r.1) }
    // An expression of the grammar that no infix operator follows is this one: so there is one at most, and E6 comes
    // only where there is none.
    ensures complete { (e : Tree) (to : ℕ) →
        IsExpression (line_of_symbols (map (symbol_of line.now) tokens.now)) 0 from e to
        → GivesTree result (Some (e, to)) }
    ensures within { IfOk result (λ r. (from < r.1) × (r.1 ≤ length tokens.now)) }
{
    let symbols = symbols(alloc, line, tokens)?;
    read_from(alloc, &symbols, from)
}
