//! What the operands of a line give in the fields of its row.
ghost use Rattle.std.specs.Prelude.{◌≡◌};
ghost use Rattle.m51_expr.specs.Tree.{tree_of};
ghost use Rattle.m51_expr.specs.Evaluation.{value_of};
ghost use Rattle.m51_expr.specs.Located.{located};
ghost use Rattle.m51_expr.specs.Operand.{operand_tree};
ghost use Rattle.m51_encode.specs.Coding.{seen};
ghost use Rattle.m51_encode.specs.Filling.{or_out_of_range, fielded, held_at, filled_by, filled, expression};
ghost use Rattle.m51_encode.specs.Filling.{beginning_at, reference_at, references_of};

use crate::bases::Numbered;
use crate::field_values::field_value;
use crate::reference::{FieldValue, Reference};
use m51_cells::OUT_OF_RANGE;
use m51_expr::{Expr, ExprError, Located, Operand, located_value_of};
use m51_isa::{Field, FieldSlot};

/// The fault E`number` of an instruction: 11 where the instruction table has no such row, 7 to 10 for an operand that
/// has no value, as [`m51_expr::ExprError`] has them, 14 for a value out of range or class.
///
/// Source: own choice ("Faults of instructions").
#[derive(Clone, Copy, Debug, PartialEq, Eq)]
pub struct CodingError {
    pub number: u8,
}

/// What an operand gives in its field, which begins at a byte of the instruction.
#[derive(Clone, Copy)]
pub(crate) struct Held {
    pub(crate) number: u16,
    pub(crate) byte: u8,
    pub(crate) reference: Option<Reference>,
}

// An operand without a field.
const NOTHING: Held = Held {
    number: 0,
    byte: 0,
    reference: None,
};

// The value is out of the range or the class of its field.
const OUT_OF_FIELD: CodingError = CodingError {
    number: OUT_OF_RANGE,
};

// A value that has no field is out of its range or class.
fn or_out_of_range(held: Option<FieldValue>) -> Result<FieldValue, CodingError>
    ensures { result ≡ or_out_of_range held }
{
    match held {
        Some(held) => Ok(held),
        None => Err(OUT_OF_FIELD),
    }
}

// What a value gives in the field.
fn fielded<N: Numbered>(
    names: &N,
    next: u16,
    field: Field,
    value: Result<Located<u32>, ExprError>,
) -> Result<FieldValue, CodingError>
    ensures { result ≡ fielded (N.meanings names.now) next field (located value) }
{
    match value {
        Ok(value) => or_out_of_range(field_value(names, field, next, value)),
        Err(error) => Err(CodingError {
            number: error.number,
        }),
    }
}

/// What an expression gives in a field of a statement. `next` is the address after the statement, as for
/// [`field_value`](crate::field_value).
///
/// Errors: E7 to E10 where it has no value, as [`m51_expr::ExprError`] has them, E14 where its value is out of range or
/// class.
///
/// Source: own choice ("Fields").
pub fn expression_field<N: Numbered>(
    names: &N,
    field: Field,
    next: u16,
    expr: &Expr,
) -> Result<FieldValue, CodingError>
    ensures { let names = N.meanings names.now in
        result ≡ fielded names next field (value_of names (tree_of expr.now)) }
{
    fielded(names, next, field, located_value_of(expr, names))
}

// What the field that begins at a byte holds.
fn held_at(byte: u8, held: FieldValue) -> Held
    ensures { result ≡ held_at byte held }
{
    match held {
        FieldValue::Number(number) => Held {
            number,
            byte,
            reference: None,
        },
        FieldValue::Linked(reference) => Held {
            number: 0,
            byte,
            reference: Some(reference),
        },
    }
}

fn of_expression<N: Numbered>(
    names: &N,
    next: u16,
    slot: FieldSlot,
    expr: &Expr,
) -> Result<Held, CodingError>
    ensures { result ≡ filled_by (N.meanings names.now) next slot (Some (tree_of expr.now)) }
{
    let held = expression_field(names, slot.field, next, expr)?;
    Ok(held_at(slot.byte, held))
}

// What an operand gives in the field.
fn of_operand<N: Numbered>(
    names: &N,
    next: u16,
    slot: FieldSlot,
    operand: &Operand,
) -> Result<Held, CodingError>
    ensures { result ≡ filled_by (N.meanings names.now) next slot (expression (operand_tree operand.now)) }
{
    match operand {
        Operand::Imm(expr) | Operand::Plain(expr) | Operand::NotBit(expr) => {
            of_expression(names, next, slot, expr)
        }
        _ => Ok(NOTHING),
    }
}

/// What an operand of the line gives in the field of the operand of the row. `next` is the address after the
/// instruction.
///
/// Errors: E7 to E10 where the operand has no value, E14 where its value is out of range or class.
pub(crate) fn filled<N: Numbered>(
    names: &N,
    next: u16,
    slot: Option<FieldSlot>,
    operand: Option<&Operand>,
) -> Result<Held, CodingError>
    ensures { result ≡ filled (N.meanings names.now) next slot (seen operand.entry) }
{
    match (slot, operand) {
        (Some(slot), Some(operand)) => of_operand(names, next, slot, operand),
        _ => Ok(NOTHING),
    }
}

// The reference of a field that begins at this byte.
fn beginning_at(byte: u8, filled: Held) -> Option<Reference>
    ensures { result ≡ beginning_at byte filled }
{
    if filled.byte == byte {
        filled.reference
    } else {
        None
    }
}

fn reference_at(byte: u8, a: Held, b: Held, c: Held) -> Option<Reference>
    ensures { result ≡ reference_at byte a b c }
{
    beginning_at(byte, a).or(beginning_at(byte, b).or(beginning_at(byte, c)))
}

/// The references by the byte where their fields begin.
pub(crate) fn references_of(a: Held, b: Held, c: Held) -> [Option<Reference>; 3]
    ensures { result ≡ references_of a b c }
{
    [
        reference_at(0, a, b, c),
        reference_at(1, a, b, c),
        reference_at(2, a, b, c),
    ]
}
