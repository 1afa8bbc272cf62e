//! Gives expressions their values.
ghost use Rattle.std.specs.Prelude.{◌≡◌};
ghost use Rattle.m51_expr.specs.Tree.{tree_of};
ghost use Rattle.m51_expr.specs.Evaluation.{is_dot, applied, value_of};
ghost use Rattle.m51_expr.specs.Located.{value_by, valued_by};

use crate::bits::dot;
use crate::fault::ExprError;
use crate::located::{Located, SegmentNumber, plain};
use crate::lookup::{Lookup, object_value};
use crate::operators::{binary, unary};
use crate::places::Places;
use crate::tree::{Binary, Expr};
use crate::value::Value;
use m51_cells::{Kind, UNKNOWN_NAME};

// Whether the operator is the dot.
fn is_dot(op: Binary) -> bool
    ensures { result ≡ is_dot op }
{
    match op {
        Binary::Dot => true,
        _ => false,
    }
}

// An operator between two operands.
fn applied<S: SegmentNumber, P: Places<S>>(
    names: &P,
    op: Binary,
    x: Located<S>,
    y: Located<S>,
) -> Result<Located<S>, ExprError>
    ensures { valued_by S.number result
        ≡ applied (P.meanings names.now) op (value_by S.number x) (value_by S.number y) }
{
    if is_dot(op) {
        dot(names, x, y)
    } else {
        binary(names, op, x, y)
    }
}

/// The value of an expression over segment numbers of any width. It allocates nothing.
///
/// Errors: those of `value_of`.
///
/// Source: own choice ("Numbers of segments in values").
#[tactic(auto, unfolding(crate::specs::Evaluation::value_of))]
pub fn located_value_of<S: SegmentNumber, P: Places<S>>(
    expr: &Expr,
    names: &P,
) -> Result<Located<S>, ExprError>
    ensures { valued_by S.number result ≡ value_of (P.meanings names.now) (tree_of expr.now) }
{
    match expr {
        Expr::Number(n) => Ok(plain(*n, Kind::Number)),
        Expr::Here => Ok(names.here()),
        Expr::Name(name) => match names.value(name) {
            Some(value) => Ok(value),
            None => Err(ExprError {
                number: UNKNOWN_NAME,
            }),
        },
        Expr::One(op, inner) => {
            let value = located_value_of(inner, names)?;
            unary(names, *op, value)
        }
        Expr::Two(op, left, right) => {
            let x = located_value_of(left, names)?;
            let y = located_value_of(right, names)?;
            applied(names, *op, x, y)
        }
    }
}

/// The value of an expression. It allocates nothing.
///
/// Errors: the fault of the first part that fails, operands before their operator and the left one first: E7 for a name
/// without a value; E8 for a base that is not allowed; E9 for a division by 0; E10 for a bit number over 7 or a byte
/// whose bits have no addresses. Where E8 and another are at one operator, E8 comes.
///
/// Source: own choice ("Values with a base").
pub fn value_of<L: Lookup>(expr: &Expr, names: &L) -> Result<Value, ExprError>
    ensures { result ≡ value_of (L.meanings names.now) (tree_of expr.now) }
{
    match located_value_of(expr, names) {
        Ok(value) => Ok(object_value(value)),
        Err(error) => Err(error),
    }
}
