//! What operands count as where they may have no base but an absolute one.
ghost use Rattle.std.specs.Prelude.{◌≡◌};
ghost use Rattle.m51_expr.specs.Tree.{tree_of};
ghost use Rattle.m51_asm.specs.Assignment.{numbered};

use m51_expr::{Expr, ExprError, Places, as_number, located_value_of};

/// The number of an operand that may have no base but an absolute one, or its fault.
pub(crate) fn numbered<P: Places<u32>>(names: &P, e: &Expr) -> Result<u16, ExprError>
    ensures { result ≡ numbered (P.meanings names.now) (tree_of e.now) }
{
    match located_value_of(e, names) {
        Ok(value) => as_number(names, value),
        Err(error) => Err(error),
    }
}
