//! The ranks of operators.
ghost use Rattle.std.specs.Prelude.{◌≡◌, IsSome, is_some, option_map, option_copied};
ghost use Rattle.m51_expr.specs.Tree.{Number, tree_of};
ghost use Rattle.m51_expr.specs.Ranks.{prefix_operator, infix_operator, prefix_of, infix_of, leaf_of, prefix_rank};
ghost use Rattle.m51_expr.specs.Ranks.{infix_rank, text_value, is_open, is_close};

use crate::symbol::Symbol;
use crate::tree::{Binary, Expr, Unary};

/// The rank of operands, which is the tightest.
pub(crate) const OPERAND: u8 = 8;

// The rank of an operator before an operand.
fn prefix_rank(op: Unary) -> u8
    ensures { result ≡ prefix_rank op }
{
    match op {
        Unary::Not => 2,
        Unary::Plus | Unary::Minus | Unary::High | Unary::Low => 6,
    }
}

// The rank of an operator between two operands.
fn infix_rank(op: Binary) -> u8
    ensures { result ≡ infix_rank op }
{
    match op {
        Binary::Or | Binary::Xor => 0,
        Binary::And => 1,
        Binary::Eq | Binary::Ne | Binary::Lt | Binary::Le | Binary::Gt | Binary::Ge => 3,
        Binary::Add | Binary::Sub => 4,
        Binary::Mul | Binary::Div | Binary::Rem | Binary::Shl | Binary::Shr => 5,
        Binary::Dot => 7,
    }
}

// The operator that a symbol is before an operand.
fn prefix_operator(symbol: Option<&Symbol>) -> Option<Unary>
    ensures op { result ≡ prefix_operator (option_copied symbol.entry) }
    ensures some { IsSome result → IsSome symbol.entry }
{
    match symbol {
        Some(Symbol::Plus) => Some(Unary::Plus),
        Some(Symbol::Minus) => Some(Unary::Minus),
        Some(Symbol::Prefix(op)) => Some(*op),
        _ => None,
    }
}

// The operator that a symbol is between two operands.
fn infix_operator(symbol: Option<&Symbol>) -> Option<Binary>
    ensures op { result ≡ infix_operator (option_copied symbol.entry) }
    ensures some { IsSome result → IsSome symbol.entry }
{
    match symbol {
        Some(Symbol::Plus) => Some(Binary::Add),
        Some(Symbol::Minus) => Some(Binary::Sub),
        Some(Symbol::Infix(op)) => Some(*op),
        _ => None,
    }
}

/// Whether it is an operator before an operand.
pub(crate) fn is_prefix(symbol: Option<&Symbol>) -> bool
    ensures { result ≡ is_some (prefix_operator (option_copied symbol.entry)) }
{
    prefix_operator(symbol).is_some()
}

/// Whether it is an operator between two operands.
pub(crate) fn is_infix(symbol: Option<&Symbol>) -> bool
    ensures { result ≡ is_some (infix_operator (option_copied symbol.entry)) }
{
    infix_operator(symbol).is_some()
}

/// The operator before an operand, where its rank is this one.
pub(crate) fn prefix_of(symbol: Option<&Symbol>, rank: u8) -> Option<Unary>
    ensures op { result ≡ prefix_of (option_copied symbol.entry) rank }
    ensures some { IsSome result → IsSome symbol.entry }
{
    let op = prefix_operator(symbol)?;
    if rank == prefix_rank(op) {
        Some(op)
    } else {
        None
    }
}

/// The operator between two operands, where its rank is this one.
pub(crate) fn infix_of(symbol: Option<&Symbol>, rank: u8) -> Option<Binary>
    ensures op { result ≡ infix_of (option_copied symbol.entry) rank }
    ensures some { IsSome result → IsSome symbol.entry }
{
    let op = infix_operator(symbol)?;
    if rank == infix_rank(op) {
        Some(op)
    } else {
        None
    }
}

// The number that a text of one or two characters is, the first one in the high byte; none for any other text.
fn text_value(characters: &[u8]) -> Option<u16>
    ensures { result ≡ text_value characters.now }
{
    match characters {
        [one] => Some(u16::from(*one)),
        [first, second] => Some(u16::from(*first) * 256 + u16::from(*second)),
        _ => None,
    }
}

// A short text as a number.
fn text_leaf(characters: &[u8]) -> Option<Expr>
    ensures { option_map tree_of result ≡ option_map Number (text_value characters.now) }
{
    match text_value(characters) {
        Some(n) => Some(Expr::Number(n)),
        None => None,
    }
}

/// The expression that a symbol is of itself: a number, a text of one or two characters, a name or the place of the
/// statement.
pub(crate) fn leaf_of(symbol: Option<&Symbol>) -> Option<Expr>
    ensures leaf { option_map tree_of result ≡ leaf_of (option_copied symbol.entry) }
    ensures some { IsSome result → IsSome symbol.entry }
{
    match symbol {
        Some(Symbol::Number(n)) => Some(Expr::Number(*n)),
        Some(Symbol::Text(characters)) => text_leaf(characters.as_slice()),
        Some(Symbol::Name(name)) => Some(Expr::Name(*name)),
        Some(Symbol::Here) => Some(Expr::Here),
        _ => None,
    }
}

/// Whether it is an opening parenthesis.
///
/// Source: own choice ("Words and names").
pub fn is_open(symbol: Option<&Symbol>) -> bool
    ensures { result ≡ is_open (option_copied symbol.entry) }
{
    match symbol {
        Some(Symbol::Open) => true,
        _ => false,
    }
}

/// Whether it is a closing parenthesis.
///
/// Source: own choice ("Words and names").
pub fn is_close(symbol: Option<&Symbol>) -> bool
    ensures { result ≡ is_close (option_copied symbol.entry) }
{
    match symbol {
        Some(Symbol::Close) => true,
        _ => false,
    }
}
