//! The operands of directives, which must use names defined above: each is evaluated once.
ghost use Rattle.std.specs.Prelude.{◌≡◌, ℕ, ◌&&◌, ◌||◌, nat_lt, None, is_some, unwrap_or, option_map};
ghost use Rattle.m51_cells.specs.Kinds.{same_kind};
ghost use Rattle.m51_expr.specs.Tree.{tree_of};
ghost use Rattle.m51_expr.specs.Evaluation.{value_of};
ghost use Rattle.m51_stmt.specs.Statement.{body_tree};
ghost use Rattle.m51_asm.specs.Assignment.{value_or_none};
ghost use Rattle.m51_asm.specs.Fitting.{bank_by, with_class};
ghost use Rattle.m51_asm.specs.PlacedFaults.{is_short, is_address, fault_in, address_fault, bank_fault};
ghost use Rattle.m51_asm.specs.GivenValues.{expression_given};
ghost use Rattle.m51_expr.specs.Located.{origin_base, located_value, located};
ghost use Rattle.m51_asm.specs.LineFaults.{has_class, segment_fault_by, operand_fault_by};
ghost use Rattle.m51_asm.specs.Operands.{evaluated_fault, number_in, segment_named, given_in, bank_in, if_rseg};
ghost use Rattle.m51_asm.specs.Operands.{operand_number, IsOperand};

use crate::counting::numbered;
use m51_cells::{Kind, OUT_OF_RANGE, UNKNOWN_NAME, same_kind};
use m51_expr::{ExprError, Located, Places, counted, is_unplaced_origin, located_value_of};
use m51_stmt::Body;

/// What the operand of a directive is, by the names defined above its line.
#[derive(Clone, Copy)]
pub(crate) enum Evaluated {
    /// The line has no operand that must use names defined above.
    None,
    /// What EQU, SET or an address statement gives its name.
    Value(Located<u32>),
    /// The count of DS or DBIT, or the base of ORG or AT.
    Number(u16),
    /// The bank of USING.
    Bank(u8),
    /// The segment of RSEG, by its id.
    Segment(u32),
    /// The operand has a fault of this number.
    Fault(u8),
}

impl Evaluated {
    /// The number of its fault, if it has one.
    pub(crate) fn fault(self) -> Option<u8>
        ensures { result ≡ evaluated_fault self }
    {
        match self {
            Evaluated::Fault(number) => Some(number),
            _ => None,
        }
    }

    /// The count or the base, 0 where it is neither.
    pub(crate) fn number(self) -> u16
        ensures { result ≡ number_in self }
    {
        match self {
            Evaluated::Number(number) => number,
            _ => 0,
        }
    }

    /// The id of the segment of RSEG.
    pub(crate) fn segment(self) -> Option<u32>
        ensures { result ≡ segment_named self }
    {
        match self {
            Evaluated::Segment(id) => Some(id),
            _ => None,
        }
    }

    /// The value that the line gives its name.
    pub(crate) fn given(self) -> Option<Located<u32>>
        ensures { option_map located_value result ≡ given_in self }
    {
        match self {
            Evaluated::Value(value) => Some(value),
            _ => None,
        }
    }

    /// The bank after the line.
    pub(crate) fn bank(self, before: u8) -> u8
        ensures { result ≡ bank_in before self }
    {
        match self {
            Evaluated::Bank(bank) => bank,
            _ => before,
        }
    }
}

// Whether addresses of the kind have eight bits.
fn is_short(kind: Kind) -> bool
    ensures { result ≡ is_short kind }
{
    match kind {
        Kind::Direct | Kind::Idata | Kind::Bits => true,
        Kind::Code | Kind::Xdata | Kind::Number => false,
    }
}

// Whether a value has the class of a kind or none.
fn has_class(value: Located<u32>, kind: Kind) -> bool
    ensures { result ≡ (has_class (located_value value) kind) }
{
    same_kind(value.class, kind) || same_kind(value.class, Kind::Number)
}

// Whether a number is too large for a kind.
fn is_large(kind: Kind, number: u16) -> bool
    ensures { result ≡ (is_short kind && nat_lt 255 number) }
{
    is_short(kind) && 255 < number
}

// Whether a value is an address of a kind.
fn is_address<P: Places<u32>>(names: &P, kind: Kind, value: Located<u32>) -> bool
    ensures { result ≡ is_address (P.meanings names.now) kind (located_value value) }
{
    has_class(value, kind)
        && (is_unplaced_origin(names, value.origin) || !is_large(kind, counted(value)))
}

fn value_operand(value: Result<Located<u32>, ExprError>) -> Evaluated
    ensures segment { segment_named result ≡ None }
    ensures operand { IsOperand (fault_in (located value)) 0 (value_or_none (located value)) (λ bank. bank) result }
{
    match value {
        Ok(value) => Evaluated::Value(value),
        Err(error) => Evaluated::Fault(error.number),
    }
}

fn with_class(kind: Kind, value: Located<u32>) -> Located<u32>
    ensures { located_value result ≡ with_class kind (located_value value) }
{
    Located {
        number: value.number,
        class: kind,
        origin: value.origin,
        part: value.part,
    }
}

fn address_operand<P: Places<u32>>(
    names: &P,
    kind: Kind,
    value: Result<Located<u32>, ExprError>,
) -> Evaluated
    ensures segment { segment_named result ≡ None }
    ensures operand { IsOperand (address_fault (P.meanings names.now) kind (located value)) 0
        (option_map (with_class kind) (value_or_none (located value))) (λ bank. bank) result }
{
    match value {
        Ok(value) => {
            if is_address(names, kind, value) {
                Evaluated::Value(with_class(kind, value))
            } else {
                Evaluated::Fault(OUT_OF_RANGE)
            }
        }
        Err(error) => Evaluated::Fault(error.number),
    }
}

fn number_operand(number: Result<u16, ExprError>) -> Evaluated
    ensures segment { segment_named result ≡ None }
    ensures operand { IsOperand (fault_in number) (unwrap_or (value_or_none number) 0) None (λ bank. bank) result }
{
    match number {
        Ok(number) => Evaluated::Number(number),
        Err(error) => Evaluated::Fault(error.number),
    }
}

fn bank_operand(number: Result<u16, ExprError>) -> Evaluated
    ensures segment { segment_named result ≡ None }
    ensures operand { IsOperand (bank_fault number) 0 None (λ bank. unwrap_or (value_or_none number) 0) result }
{
    match number {
        Ok(bank) => {
            if bank > 3 {
                Evaluated::Fault(OUT_OF_RANGE)
            } else {
                Evaluated::Bank(bank as u8)
            }
        }
        Err(error) => Evaluated::Fault(error.number),
    }
}

// The operand of an RSEG, by the segment that its name is above and whether it has a value there.
fn segment_operand(named: Option<u32>, has_value: bool) -> Evaluated
    ensures operand { IsOperand (segment_fault_by (is_some named) has_value) 0 None (λ bank. bank) result }
    ensures segment { segment_named result ≡ named }
{
    match named {
        Some(id) => Evaluated::Segment(id),
        None if has_value => Evaluated::Fault(OUT_OF_RANGE),
        None => Evaluated::Fault(UNKNOWN_NAME),
    }
}

/// The operand of a line that must use names defined above. The segment that an RSEG names, if it is declared above, is
/// an argument.
pub(crate) fn evaluate_operand<P: Places<u32>>(
    names: &P,
    named: Option<u32>,
    body: &Body,
) -> Evaluated
    ensures segment { segment_named result ≡ if_rseg named (body_tree body.now) }
    ensures operand { IsOperand
        (operand_fault_by (P.meanings names.now) (is_some named) (body_tree body.now))
        (operand_number (P.meanings names.now) (body_tree body.now))
        (expression_given (P.meanings names.now) (body_tree body.now))
        (λ bank. bank_by (P.meanings names.now) bank (body_tree body.now)) result }
{
    match body {
        Body::Equ(_, e) | Body::Set(_, e) => value_operand(located_value_of(e, names)),
        Body::Address(_, kind, e) => address_operand(names, *kind, located_value_of(e, names)),
        Body::Ds(e) | Body::Dbit(e) | Body::Org(e) => number_operand(numbered(names, e)),
        Body::Select(_, Some(e)) => number_operand(numbered(names, e)),
        Body::Using(e) => bank_operand(numbered(names, e)),
        Body::Rseg(name) => segment_operand(named, names.value(name).is_some()),
        _ => Evaluated::None,
    }
}
