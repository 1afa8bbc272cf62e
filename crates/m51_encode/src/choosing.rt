//! Chooses the form of a generic jump.
ghost use Rattle.std.specs.Prelude.{◌≡◌};
ghost use Rattle.m51_expr.specs.Located.{base_by, valued_by};
ghost use Rattle.m51_encode.specs.JumpForm.{address_after, is_byte, is_own, is_short, shortest, jump_form_of};

use crate::bases::{is_current, stands_absolute};
use m51_expr::{ExprError, Located, Origin, Part, Places, SegmentNumber, counted};
use m51_isa::{Jump, Verb, distance, in_one_block, is_near};

/// The address after a statement of `length` bytes, modulo 65,536.
pub(crate) fn address_after<S: SegmentNumber, P: Places<S>>(names: &P, length: u16) -> u16
    ensures { result ≡ address_after (P.meanings names.now) length }
{
    names.here().number.wrapping_add(length)
}

// Whether a base is under HIGH or LOW.
fn is_byte(part: Part) -> bool
    ensures { result ≡ is_byte part }
{
    match part {
        Part::High | Part::Low => true,
        Part::Whole | Part::Bit(_) => false,
    }
}

// Whether a value counts from the current segment, or from nothing where that is absolute.
fn is_own<S: SegmentNumber, P: Places<S>>(names: &P, origin: Origin<S>) -> bool
    ensures { result ≡ is_own (P.meanings names.now) (base_by S.number origin) }
{
    match origin {
        Origin::None => stands_absolute(names),
        Origin::Segment(_) | Origin::External(_) => is_current(names, origin),
    }
}

// Whether the verb has a short form that reaches the target.
fn is_short(verb: Verb, next: u16, target: u16) -> bool
    ensures { result ≡ is_short verb next target }
{
    match verb {
        Verb::Jmp => is_near(distance(next, target)),
        Verb::Call => false,
    }
}

// The first form that reaches a target in the current segment.
fn shortest<S: SegmentNumber, P: Places<S>>(names: &P, verb: Verb, next: u16, target: u16) -> Jump
    ensures { result ≡ shortest (P.meanings names.now) verb next target }
{
    if is_short(verb, next, target) {
        Jump::Short
    } else if stands_absolute(names) && in_one_block(target, next) {
        Jump::Block
    } else {
        Jump::Long
    }
}

/// The form of a generic jump or call at the place of the statement. It is long where the target has a fault, or
/// another base than the current segment, or is `HIGH` or `LOW` of a base, or has no base in a relocatable segment.
/// Else it is the first that reaches the target: the short one for `JMP`, that of a block in an absolute segment, the
/// long one.
///
/// Source: own choice ("Generic jumps").
#[tactic(auto, unfolding(crate::specs::JumpForm::jump_form_of))]
pub fn jump_form<S: SegmentNumber, P: Places<S>>(
    names: &P,
    verb: Verb,
    target: Result<Located<S>, ExprError>,
) -> Jump
    ensures { result ≡ jump_form_of (P.meanings names.now) verb (valued_by S.number target) }
{
    match target {
        Ok(value) => {
            if is_own(names, value.origin) && !is_byte(value.part) {
                shortest(names, verb, address_after(names, 2), counted(value))
            } else {
                Jump::Long
            }
        }
        Err(_) => Jump::Long,
    }
}
