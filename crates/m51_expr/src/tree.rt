//! Expressions as trees.
ghost use Rattle.std.specs.Prelude.{◌≡◌, IfOk};
ghost use Rattle.m51_expr.specs.Tree.{One, Two, tree_of};

use m51_cells::Name;
use std::alloc::{AllocError, Global};

/// An operator before one operand.
///
/// Source: ASM51 guide.
#[derive(Clone, Copy, Debug, PartialEq, Eq)]
pub enum Unary {
    /// `+`
    Plus,
    /// `-`
    Minus,
    /// `HIGH`: the high byte.
    High,
    /// `LOW`: the low byte.
    Low,
    /// `NOT`: each bit inverted.
    Not,
}

/// An operator between two operands.
///
/// Source: ASM51 guide.
#[derive(Clone, Copy, Debug, PartialEq, Eq)]
pub enum Binary {
    /// `*`
    Mul,
    /// `/`
    Div,
    /// `MOD`
    Rem,
    /// `SHL`
    Shl,
    /// `SHR`
    Shr,
    /// `+`
    Add,
    /// `-`
    Sub,
    /// `EQ`
    Eq,
    /// `NE`
    Ne,
    /// `LT`
    Lt,
    /// `LE`
    Le,
    /// `GT`
    Gt,
    /// `GE`
    Ge,
    /// `AND`
    And,
    /// `OR`
    Or,
    /// `XOR`
    Xor,
    /// `.`: a bit of a byte.
    Dot,
}

/// An expression.
///
/// Source: ASM51 guide.
#[derive(Drop)]
pub enum Expr {
    /// A number, or a text of one or two characters as a number.
    Number(u16),
    /// A name.
    Name(Name),
    /// `$`, the place of the statement.
    Here,
    /// An operator and its operand.
    One(Unary, Box<Expr>),
    /// An operator, its left operand and its right one.
    Two(Binary, Box<Expr>, Box<Expr>),
}

/// An operator over an expression.
pub(crate) fn one(alloc: Global, op: Unary, inner: Expr) -> Result<Expr, AllocError>
    ensures { IfOk result (λ e. tree_of e ≡ One op (tree_of inner)) }
{
    Ok(Expr::One(op, Box::new(alloc, inner)?))
}

/// An operator over two expressions.
pub(crate) fn two(alloc: Global, op: Binary, left: Expr, right: Expr) -> Result<Expr, AllocError>
    ensures { IfOk result (λ e. tree_of e ≡ Two op (tree_of left) (tree_of right)) }
{
    let left = Box::new(alloc, left)?;
    Ok(Expr::Two(op, left, Box::new(alloc, right)?))
}
