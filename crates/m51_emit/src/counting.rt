//! How the outcomes of operands and items are counted: fixups from left to right, and the leftmost fault.
ghost use Rattle.std.specs.Prelude.{◌≡◌, nat_lt};
ghost use Rattle.m51_cells.specs.declared.limits.TheConstants.{MOST_FIXUPS};
ghost use Rattle.m51_emit.specs.Outcomes.{made_with, part_fault, or_next};
ghost use Rattle.m51_emit.specs.Counting.{none_of, counted, counted_all};

use m51_cells::{MOST_FIXUPS, TOO_MANY};
use m51_encode::OperandOutcome;

/// How many fixups are made, and the leftmost fault of a line down to an operand or item.
#[derive(Clone, Copy)]
pub(crate) struct FixupCount {
    pub(crate) made: usize,
    pub(crate) fault: Option<u8>,
}

/// The count at the beginning of a line, with `made` fixups before it.
pub(crate) fn none_of(made: usize) -> FixupCount
    ensures { result ≡ none_of made }
{
    FixupCount { made, fault: None }
}

// Whether one more fixup can be made.
fn has_room(made: usize) -> bool
    ensures { result ≡ nat_lt made MOST_FIXUPS }
{
    made < MOST_FIXUPS
}

// How many fixups are made up to the end of the part, with `made` before it.
fn made_with(made: usize, part: OperandOutcome) -> usize
    ensures { result ≡ made_with made part }
{
    match part {
        OperandOutcome::Fixes => { if has_room(made) { made + 1 } else { made } }
        OperandOutcome::Faulty(_) | OperandOutcome::Stands => made,
    }
}

// The fault of the part, with `made` fixups before it.
fn part_fault(made: usize, part: OperandOutcome) -> Option<u8>
    ensures { result ≡ part_fault made part }
{
    match part {
        OperandOutcome::Faulty(number) => Some(number),
        OperandOutcome::Fixes => { if has_room(made) { None } else { Some(TOO_MANY) } }
        OperandOutcome::Stands => None,
    }
}

/// Counts one more part.
pub(crate) fn counted(count: FixupCount, part: OperandOutcome) -> FixupCount
    ensures { result ≡ counted count part }
{
    FixupCount {
        made: made_with(count.made, part),
        fault: count.fault.or(part_fault(count.made, part)),
    }
}

/// Counts the three operands of an instruction.
pub(crate) fn counted_operands(count: FixupCount, operands: [OperandOutcome; 3]) -> FixupCount
    ensures { result ≡ counted_all count operands }
{
    let [first, second, third] = operands;
    counted(counted(counted(count, first), second), third)
}
