//! Operators on values, but the dot.
ghost use Rattle.std.specs.Prelude.{◌≡◌, option_map};
ghost use Rattle.m51_expr.specs.Operators.{kept_under, unary, settled, beside, truth, arithmetic, class_of};
ghost use Rattle.m51_expr.specs.Operators.{base_of, of_wholes, binary};
ghost use Rattle.m51_expr.specs.Located.{base_by, value_by, valued_by};

use crate::fault::ExprError;
use crate::located::{Located, Origin, SegmentNumber, counted, plain, same_origin};
use crate::places::{Places, as_number, is_absolute_origin, is_unplaced_origin};
use crate::tree::{Binary, Unary};
use crate::value::{Part, is_whole};
use m51_cells::{BASE_NOT_ALLOWED, DIVISION_BY_ZERO, Kind};

// A division by 0.
const BY_ZERO: ExprError = ExprError {
    number: DIVISION_BY_ZERO,
};

// The whole value of a base, which keeps it under one HIGH or LOW.
fn kept_under<S: SegmentNumber>(part: Part, value: Located<S>) -> Option<Located<S>>
    ensures { option_map (value_by S.number) result ≡ kept_under part (value_by S.number value) }
{
    match (value.origin, value.part) {
        (Origin::None, _) => None,
        (_, Part::Whole) => Some(Located {
            class: Kind::Number,
            part,
            ..value
        }),
        _ => None,
    }
}

/// An operator before an operand.
pub(crate) fn unary<S: SegmentNumber, P: Places<S>>(
    names: &P,
    op: Unary,
    value: Located<S>,
) -> Result<Located<S>, ExprError>
    ensures { valued_by S.number result ≡ unary (P.meanings names.now) op (value_by S.number value) }
{
    match op {
        Unary::High => {
            if let Some(kept) = kept_under(Part::High, value) {
                return Ok(kept);
            }
            Ok(plain(as_number(names, value)? / 256, Kind::Number))
        }
        Unary::Low => {
            if let Some(kept) = kept_under(Part::Low, value) {
                return Ok(kept);
            }
            Ok(plain(as_number(names, value)? % 256, Kind::Number))
        }
        Unary::Plus => Ok(plain(as_number(names, value)?, value.class)),
        Unary::Minus => Ok(plain(0u16.wrapping_sub(as_number(names, value)?), Kind::Number)),
        Unary::Not => Ok(plain(65535 - as_number(names, value)?, Kind::Number)),
    }
}

// A value without a relocatable or external base counts after HIGH, LOW or `.` as the byte or the bit address.
fn settled<S: SegmentNumber, P: Places<S>>(names: &P, value: Located<S>) -> Located<S>
    ensures { value_by S.number result ≡ settled (P.meanings names.now) (value_by S.number value) }
{
    if is_unplaced_origin(names, value.origin) || is_whole(value.part) {
        return value;
    }
    plain(counted(value), value.class)
}

// An absolute base beside a relocatable or external one counts as its number.
fn beside<S: SegmentNumber, P: Places<S>>(
    names: &P,
    other: Origin<S>,
    value: Located<S>,
) -> Located<S>
    ensures { value_by S.number result
        ≡ beside (P.meanings names.now) (base_by S.number other) (value_by S.number value) }
{
    let absolute = is_absolute_origin(names, value.origin);
    if is_unplaced_origin(names, other) && absolute {
        plain(value.number, value.class)
    } else {
        value
    }
}

// A truth as a number.
fn truth(holds: bool) -> u16
    ensures { result ≡ truth holds }
{
    if holds { 65535 } else { 0 }
}

// An operator between two numbers.
fn arithmetic(op: Binary, a: u16, b: u16) -> Result<u16, ExprError>
    ensures { result ≡ arithmetic op a b }
{
    match op {
        Binary::Mul => Ok(a.wrapping_mul(b)),
        Binary::Div if b == 0 => Err(BY_ZERO),
        Binary::Div => Ok(a / b),
        Binary::Rem if b == 0 => Err(BY_ZERO),
        Binary::Rem => Ok(a % b),
        Binary::Shl if b < 16 => Ok(a << b),
        Binary::Shr if b < 16 => Ok(a >> b),
        Binary::Shl | Binary::Shr | Binary::Dot => Ok(0),
        Binary::Add => Ok(a.wrapping_add(b)),
        Binary::Sub => Ok(a.wrapping_sub(b)),
        Binary::Eq => Ok(truth(a == b)),
        Binary::Ne => Ok(truth(a != b)),
        Binary::Lt => Ok(truth(a < b)),
        Binary::Le => Ok(truth(a <= b)),
        Binary::Gt => Ok(truth(a > b)),
        Binary::Ge => Ok(truth(a >= b)),
        Binary::And => Ok(a & b),
        Binary::Or => Ok(a | b),
        Binary::Xor => Ok(a ^ b),
    }
}

// The class of a sum, a difference or what another operator gives.
fn class_of(op: Binary, x: Kind, y: Kind) -> Kind
    ensures { result ≡ class_of op x y }
{
    match (op, x, y) {
        (Binary::Add, x, Kind::Number) => x,
        (Binary::Add, Kind::Number, y) => y,
        (Binary::Sub, x, Kind::Number) => x,
        _ => Kind::Number,
    }
}

// The base of a sum or a difference, where the rules give one.
fn origin_of<S: SegmentNumber>(op: Binary, x: Origin<S>, y: Origin<S>) -> Option<Origin<S>>
    ensures { option_map (base_by S.number) result ≡ base_of op (base_by S.number x) (base_by S.number y) }
{
    match (op, x, y) {
        (Binary::Add | Binary::Sub, x, Origin::None) => Some(x),
        (Binary::Add, Origin::None, y) => Some(y),
        (Binary::Sub, x, y) if same_origin(x, y) => Some(Origin::None),
        _ => None,
    }
}

// An operator between two whole values.
fn of_wholes<S: SegmentNumber, P: Places<S>>(
    names: &P,
    op: Binary,
    class: Kind,
    x: Located<S>,
    y: Located<S>,
) -> Result<Located<S>, ExprError>
    ensures { valued_by S.number result
        ≡ of_wholes (P.meanings names.now) op class (value_by S.number x) (value_by S.number y) }
{
    match origin_of(op, x.origin, y.origin) {
        Some(origin) => Ok(Located {
            number: arithmetic(op, x.number, y.number)?,
            class,
            origin,
            part: Part::Whole,
        }),
        None => {
            let a = as_number(names, x)?;
            let b = as_number(names, y)?;
            Ok(plain(arithmetic(op, a, b)?, class))
        }
    }
}

/// An operator between two operands, but the dot.
pub(crate) fn binary<S: SegmentNumber, P: Places<S>>(
    names: &P,
    op: Binary,
    x: Located<S>,
    y: Located<S>,
) -> Result<Located<S>, ExprError>
    ensures { valued_by S.number result
        ≡ binary (P.meanings names.now) op (value_by S.number x) (value_by S.number y) }
{
    let class = class_of(op, x.class, y.class);
    let (x, y) = (settled(names, x), settled(names, y));
    if !is_whole(x.part) || !is_whole(y.part) {
        return Err(ExprError {
            number: BASE_NOT_ALLOWED,
        });
    }
    of_wholes(
        names,
        op,
        class,
        beside(names, y.origin, x),
        beside(names, x.origin, y),
    )
}
