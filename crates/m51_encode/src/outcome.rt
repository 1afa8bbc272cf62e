//! The outcomes of the operands and items of a statement.
ghost use Rattle.std.specs.Prelude.{◌≡◌};
ghost use Rattle.m51_encode.specs.Outcomes.{linked, operand_outcome};

use crate::filling::{CodingError, Held};
use crate::reference::Reference;

/// The outcome of an operand or an item of a statement.
///
/// Source: own choice ("Faults of instructions").
#[derive(Clone, Copy, Debug, PartialEq, Eq)]
pub enum OperandOutcome {
    /// It has the fault of this number: 7 to 10 where it has no value, 14 for a value out of range or class.
    Faulty(u8),
    /// The linker fills in its field.
    Fixes,
    /// Neither.
    Stands,
}

// The outcome of an operand with this reference, or none.
fn linked(reference: Option<Reference>) -> OperandOutcome
    ensures { result ≡ linked reference }
{
    match reference {
        Some(_) => OperandOutcome::Fixes,
        None => OperandOutcome::Stands,
    }
}

/// The outcome of an operand.
pub(crate) fn operand_outcome(filled: &Result<Held, CodingError>) -> OperandOutcome
    ensures { result ≡ operand_outcome filled.now }
{
    match filled {
        Ok(held) => linked(held.reference),
        Err(error) => OperandOutcome::Faulty(error.number),
    }
}
