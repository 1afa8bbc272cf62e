//! Where an expression or an operand is missing in a line with a syntax error.
ghost use Rattle.std.specs.Prelude.{◌≡◌, ◌≤◌, ◌<◌, ◌+◌, ◌-◌, ◌^◌, ◌∷◌, IfOk, IfSome, Some, is_some, length};
ghost use Rattle.std.specs.Prelude.{option_map, slice_get};
ghost use Rattle.m51_expr.specs.Ranks.{is_close, leaf_of};
ghost use Rattle.m51_expr.specs.Reading.{expression_in};
ghost use Rattle.m51_stmt.specs.Lack.{begins, is_want_met, many, after_at, none_if};
ghost use Rattle.m51_stmt.specs.Lack.{is_start, passed_behind, passed, lacks_after, lacks};
ghost use Rattle.m51_stmt.specs.Lack.{is_closed, prefix_of, operand_in, closes, operand_begins, is_parenthesis};

use crate::words::{begins_expression, begins_operand, first_is_operator, is_text};
use m51_cells::NoMemory;
use m51_expr::{ReadError, Symbol, Unary, is_close, is_open, read_symbols};
use std::alloc::Global;

/// What is needed after each comma of a line: an operand of an instruction, an expression of DW, an expression or a
/// text of DB, or nothing: in a line with one expression, and in one with names only, where a parenthesis begins a
/// list. The first operand of an instruction may be missing, but a text can't be in its place.
#[derive(Clone, Copy)]
pub(crate) enum Want {
    Operand,
    Expression,
    Item,
    First,
    Nothing,
    Names,
}

// Whether what is required begins with this symbol.
fn begins(want: Want, symbol: &Symbol) -> bool
    ensures { result ≡ begins want symbol.now }
{
    match want {
        Want::Operand => begins_operand(symbol),
        Want::Expression => begins_expression(symbol),
        Want::Item => begins_expression(symbol) || is_text(symbol),
        Want::First => !is_text(symbol),
        Want::Nothing | Want::Names => true,
    }
}

// Whether the symbols begin with what is required.
fn is_want_met(want: Want, symbols: &[Symbol]) -> bool
    ensures { result ≡ is_want_met want symbols.now }
{
    match symbols {
        [first, ..] => begins(want, first),
        [] => match want {
            Want::First | Want::Nothing | Want::Names => true,
            Want::Operand | Want::Expression | Want::Item => false,
        },
    }
}

// How many symbols the expression has that begins them, if one does.
fn expression_len(alloc: Global, symbols: &[Symbol]) -> Result<Option<usize>, NoMemory>
    ensures len { IfOk result (λ len. len ≡ many (expression_in symbols.now)) }
    ensures within { IfOk result (λ len. IfSome len (λ n. (0 < n) × (n ≤ length symbols.now))) }
{
    match read_symbols(alloc, symbols) {
        Ok((_value, many)) => Ok(Some(many)),
        Err(ReadError::Fault { .. }) => Ok(None),
        Err(ReadError::Memory) => Err(NoMemory),
    }
}

// The same without the first symbol.
fn rest_len(alloc: Global, symbols: &[Symbol]) -> Result<Option<usize>, NoMemory>
    ensures { IfOk result (λ len. len ≡ option_map (λ n. n - 1) (many (expression_in symbols.now))) }
{
    match expression_len(alloc, symbols)? {
        Some(len) => Ok(Some(len - 1)),
        None => Ok(None),
    }
}

// The + of `@A+` is no operator.
fn after_at(symbols: &[Symbol]) -> usize
    ensures { result ≡ after_at symbols.now }
{
    match symbols {
        [Symbol::Word(word), Symbol::Plus, ..] if word.bytes() == b"A".as_slice() => 2,
        _ => 0,
    }
}

// No further symbol is passed over if this holds, or else something is missing.
fn none_if(holds: bool) -> Option<usize>
    ensures { result ≡ none_if holds }
{
    if holds { Some(0) } else { None }
}

// Whether an expression has to begin with the symbol.
fn is_start(want: Want, symbol: &Symbol) -> bool
    ensures { result ≡ is_start want symbol.now }
{
    match (want, symbol) {
        (Want::Names, Symbol::Open) => false,
        _ => begins_expression(symbol),
    }
}

// How many symbols after one belong to it, if no expression has to begin with it; `None` if something is missing.
fn passed_behind(
    alloc: Global,
    want: Want,
    symbol: &Symbol,
    rest: &[Symbol],
) -> Result<Option<usize>, NoMemory>
    ensures { IfOk result (λ len. len ≡ passed_behind want symbol.now rest.now) }
{
    match symbol {
        Symbol::Open => Ok(none_if(is_parenthesis(alloc, rest)?)),
        Symbol::Hash | Symbol::Infix(_) => expression_len(alloc, rest),
        Symbol::Text(_) => Ok(none_if(!first_is_operator(rest))),
        Symbol::Comma => Ok(none_if(is_want_met(want, rest))),
        Symbol::At => Ok(Some(after_at(rest))),
        _ => Ok(Some(0)),
    }
}

// How many symbols after the first belong to what it begins, or `None` if something required is missing.
#[tactic(auto, unfolding(crate::specs::Lack::passed))]
fn passed(
    alloc: Global,
    want: Want,
    first: &Symbol,
    rest: &[Symbol],
    symbols: &[Symbol],
) -> Result<Option<usize>, NoMemory>
    requires { symbols.now ≡ first.now ∷ rest.now }
    ensures { IfOk result (λ len. len ≡ passed want first.now rest.now) }
{
    if is_start(want, first) {
        rest_len(alloc, symbols)
    } else {
        passed_behind(alloc, want, first, rest)
    }
}

// Whether something required is missing among the symbols. The first `len` are passed over.
fn lacks_after(alloc: Global, len: usize, want: Want, symbols: &[Symbol]) -> Result<bool, NoMemory>
    ensures { IfOk result (λ lacks. lacks ≡ lacks_after len want symbols.now) }
{
    match symbols {
        [] => Ok(false),
        [_, rest @ ..] if len > 0 => lacks_after(alloc, len - 1, want, rest),
        [first, rest @ ..] => match passed(alloc, want, first, rest, symbols)? {
            Some(more) => lacks_after(alloc, more, want, rest),
            None => Ok(true),
        },
    }
}

/// Whether the symbols do not begin with what is required first, or something required further on is missing.
pub(crate) fn lacks(
    alloc: Global,
    first: Want,
    want: Want,
    symbols: &[Symbol],
) -> Result<bool, NoMemory>
    ensures { IfOk result (λ lacking. lacking ≡ lacks first want symbols.now) }
{
    if is_want_met(first, symbols) {
        lacks_after(alloc, 0, want, symbols)
    } else {
        Ok(true)
    }
}

// Whether these symbols close a parenthesis that is open before them, with `depth` more open inside it.
fn is_closed(symbols: &[Symbol], depth: usize) -> bool
    requires { depth + length symbols.now < 2 ^ 64 }
    ensures { result ≡ is_closed symbols.now depth }
{
    match symbols {
        [] => false,
        [first, more @ ..] => {
            if is_open(Some(first)) {
                is_closed(more, depth + 1)
            } else if is_close(Some(first)) {
                depth == 0 || is_closed(more, depth - 1)
            } else {
                is_closed(more, depth)
            }
        }
    }
}

/// An operator before an operand: `NOT`, a tighter one, or none.
#[derive(Clone, Copy)]
pub(crate) enum Prefix {
    Nothing,
    Not,
    Tight,
}

fn prefix_of(symbol: &Symbol) -> Prefix
    ensures { result ≡ prefix_of symbol.now }
{
    match symbol {
        Symbol::Prefix(Unary::Not) => Prefix::Not,
        Symbol::Plus | Symbol::Minus | Symbol::Prefix(_) => Prefix::Tight,
        _ => Prefix::Nothing,
    }
}

// The symbols from an operand on: the operators before it are passed over. NOT follows no tighter one.
fn operand_in(before: Prefix, symbols: &[Symbol]) -> Option<&[Symbol]>
    ensures { option_map (λ rest. rest.now) result ≡ operand_in before symbols.now }
{
    match symbols {
        [] => None,
        [first, more @ ..] => match (before, prefix_of(first)) {
            (Prefix::Tight, Prefix::Not) => None,
            (_, Prefix::Nothing) => Some(symbols),
            (_, next) => operand_in(next, more),
        },
    }
}

// Whether an expression begins the symbols, and a closing parenthesis follows it.
fn closes(alloc: Global, symbols: &[Symbol]) -> Result<bool, NoMemory>
    ensures { IfOk result (λ holds. holds ≡ closes symbols.now (expression_in symbols.now)) }
{
    match expression_len(alloc, symbols)? {
        Some(len) => Ok(first_is_close(&symbols[len..])),
        None => Ok(false),
    }
}

fn first_is_close(symbols: &[Symbol]) -> bool
    ensures { result ≡ is_close (slice_get symbols.now 0) }
{
    match symbols {
        [first, ..] => is_close(Some(first)),
        [] => false,
    }
}

fn is_leaf(symbol: &Symbol) -> bool
    ensures { result ≡ is_some (leaf_of (Some symbol.now)) }
{
    match symbol {
        Symbol::Name(_) | Symbol::Number(_) | Symbol::Here => true,
        Symbol::Text(_) => !is_text(symbol),
        _ => false,
    }
}

// Whether a whole operand begins the symbols.
fn operand_begins(alloc: Global, symbols: &[Symbol]) -> Result<bool, NoMemory>
    ensures { IfOk result (λ holds. holds ≡ operand_begins symbols.now) }
{
    match symbols {
        [] => Ok(false),
        [first, rest @ ..] => {
            if is_open(Some(first)) {
                closes(alloc, rest)
            } else {
                Ok(is_leaf(first))
            }
        }
    }
}

// Whether the symbols after an opening parenthesis begin with a whole operand, operators before it passed over, and
// close the parenthesis further on.
fn is_parenthesis(alloc: Global, symbols: &[Symbol]) -> Result<bool, NoMemory>
    ensures { IfOk result (λ holds. holds ≡ is_parenthesis symbols.now) }
{
    match operand_in(Prefix::Nothing, symbols) {
        Some(operand) => Ok(operand_begins(alloc, operand)? && is_closed(symbols, 0)),
        None => Ok(false),
    }
}
