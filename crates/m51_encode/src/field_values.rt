//! What a value gives in a field.
ghost use Rattle.std.specs.Prelude.{◌≡◌, IfSome};
ghost use Rattle.m51_expr.specs.Located.{located_value};
ghost use Rattle.m51_encode.specs.FieldValues.{is_taken, rel_of, addr11_of};
ghost use Rattle.m51_encode.specs.FieldValues.{relative_of, block_of, stored_of, taken_of, field_of, FitsField};

use crate::bases::{Numbered, is_current, is_linked, stands_absolute};
use crate::reference::{FieldValue, reference_of};
use crate::taking::{held_of, takes_class, takes_number, takes_part};
use m51_expr::{Located, counted, is_unplaced_origin};
use m51_isa::{Field, distance, in_one_block, is_near};

// Whether the field takes the class, the operator and the number.
fn is_taken<N: Numbered>(names: &N, field: Field, value: Located<u32>) -> bool
    ensures { result ≡ is_taken (N.meanings names.now) field (located_value value) }
{
    takes_class(field, value.class)
        && takes_part(field, value.part)
        && (is_unplaced_origin(names, value.origin) || takes_number(field, counted(value)))
}

// The signed byte from after a statement to a target.
fn rel_of(next: u16, target: u16) -> Option<FieldValue>
    ensures { result ≡ rel_of next target }
{
    let distance = distance(next, target);
    if is_near(distance) {
        Some(FieldValue::Number(distance % 256))
    } else {
        None
    }
}

// The address of a target within the block of what is after a statement.
fn addr11_of(next: u16, target: u16) -> Option<FieldValue>
    ensures { result ≡ addr11_of next target }
{
    if in_one_block(target, next) {
        Some(FieldValue::Number(target % 2048))
    } else {
        None
    }
}

// A relative target is computed in the current segment, and a number where that is absolute.
fn relative_of<N: Numbered>(names: &N, next: u16, value: Located<u32>) -> Option<FieldValue>
    ensures { result ≡ relative_of (N.meanings names.now) next (located_value value) }
{
    if is_current(names, value.origin) {
        rel_of(next, counted(value))
    } else if is_linked(names, value.origin) {
        Some(FieldValue::Linked(reference_of(names, Field::Rel, value)))
    } else if stands_absolute(names) {
        rel_of(next, counted(value))
    } else {
        None
    }
}

// A target within a block is computed where it counts as a number in an absolute segment.
fn block_of<N: Numbered>(names: &N, next: u16, value: Located<u32>) -> Option<FieldValue>
    ensures { result ≡ block_of (N.meanings names.now) next (located_value value) }
{
    if is_linked(names, value.origin) {
        Some(FieldValue::Linked(reference_of(names, Field::Addr11, value)))
    } else if stands_absolute(names) {
        addr11_of(next, counted(value))
    } else {
        None
    }
}

// A reference where the linker adds the base, else the number.
fn stored_of<N: Numbered>(names: &N, field: Field, value: Located<u32>) -> FieldValue
    ensures { result ≡ stored_of (N.meanings names.now) field (located_value value) }
{
    if is_linked(names, value.origin) {
        FieldValue::Linked(reference_of(names, field, value))
    } else {
        FieldValue::Number(held_of(field, counted(value)))
    }
}

// What a value gives in a field that allows it.
fn taken_of<N: Numbered>(
    names: &N,
    field: Field,
    next: u16,
    value: Located<u32>,
) -> Option<FieldValue>
    ensures { result ≡ taken_of (N.meanings names.now) field next (located_value value) }
{
    match field {
        Field::Rel => relative_of(names, next, value),
        Field::Addr11 => block_of(names, next, value),
        Field::Data | Field::Direct | Field::Bit | Field::Data16 | Field::Addr16 => {
            Some(stored_of(names, field, value))
        }
    }
}

/// What a value gives in a field of a statement. `next` is the address after the statement, modulo 65,536; in a
/// relocatable segment the offset there. None is E14: the value is out of its range, out of reach, of another class, or
/// under an operator that is not allowed there.
///
/// Source: own choice ("Fields").
#[tactic(auto, unfolding(crate::specs::FieldValues::field_of))]
pub fn field_value<N: Numbered>(
    names: &N,
    field: Field,
    next: u16,
    value: Located<u32>,
) -> Option<FieldValue>
    ensures value { result ≡ field_of (N.meanings names.now) field next (located_value value) }
    ensures within { IfSome result (FitsField field) }
{
    if is_taken(names, field, value) {
        taken_of(names, field, next, value)
    } else {
        None
    }
}
