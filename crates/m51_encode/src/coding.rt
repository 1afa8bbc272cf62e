//! Codes the instructions of a source.
ghost use Rattle.std.specs.Prelude.{◌≡◌, ℕ, List, Some, map, slice_get};
ghost use Rattle.m51_expr.specs.Operand.{operand_tree};
ghost use Rattle.m51_encode.specs.Coding.{seen, look_in, line, line_row, row_of, coded_as, gathered, coded_in, coded};
ghost use Rattle.m51_encode.specs.Coding.{outcomes_in, outcomes};

use crate::bases::Numbered;
use crate::choosing::address_after;
use crate::filling::{CodingError, Held, filled, references_of};
use crate::outcome::{OperandOutcome, operand_outcome};
use crate::reference::Reference;
use m51_cells::{NO_INSTRUCTION, Name};
use m51_expr::{Operand, look_of};
use m51_isa::{Code, Instr, Jump, Look, encode, length, row_for, spelling_of, with_numbers};

/// The bytes of an instruction of a source, and what the linker fills in.
///
/// Source: own choice ("Instructions of a source").
#[derive(Clone, Copy, Debug, PartialEq, Eq)]
pub struct Coded {
    /// The bytes; those of a field that the linker fills in are 0, but for the opcode bits of `addr11`.
    pub code: Code,
    /// For each byte of the instruction the reference whose field begins there: at the opcode that of `addr11`.
    pub references: [Option<Reference>; 3],
}

/// What an instruction of a source gives.
///
/// Source: own choice ("Instructions of a source").
#[derive(Clone, Copy, Debug, PartialEq, Eq)]
pub struct Coding {
    /// The outcome of each operand, from left to right; `OperandOutcome::Stands` for one that is missing.
    pub outcomes: [OperandOutcome; 3],
    /// Its bytes and references, or its fault.
    pub coded: Result<Coded, CodingError>,
}

// The table has no such row.
const NO_SUCH_ROW: Coding = Coding {
    outcomes: [
        OperandOutcome::Stands,
        OperandOutcome::Stands,
        OperandOutcome::Stands,
    ],
    coded: Err(CodingError {
        number: NO_INSTRUCTION,
    }),
};

// What an operand looks like, or that there is none.
fn look_in(operand: Option<&Operand>) -> Look
    ensures { result ≡ look_in (seen operand.entry) }
{
    match operand {
        Some(operand) => look_of(operand),
        None => Look::Nothing,
    }
}

// The row of a line, with 0 in each field.
fn line_row(
    word: &[u8],
    jump: Jump,
    a: Option<&Operand>,
    b: Option<&Operand>,
    c: Option<&Operand>,
) -> Option<Instr>
    ensures { result ≡ line_row (line word.now jump (seen a.entry) (seen b.entry) (seen c.entry)) }
{
    row_for(word, jump, &look_in(a), &look_in(b), &look_in(c))
}

// The bytes of a row with the numbers that the operands gave, and the references in its fields.
fn coded_as(row: &Instr, a: Held, b: Held, c: Held) -> Coded
    ensures { result ≡ coded_as row.now a b c }
{
    Coded {
        code: encode(&with_numbers(row, a.number, b.number, c.number)),
        references: references_of(a, b, c),
    }
}

// The code of a row, where each operand gives something in its field.
fn gathered(
    row: &Instr,
    first: Result<Held, CodingError>,
    second: Result<Held, CodingError>,
    third: Result<Held, CodingError>,
) -> Result<Coded, CodingError>
    ensures { result ≡ gathered row.now first second third }
{
    let a = first?;
    let b = second?;
    let c = third?;
    Ok(coded_as(row, a, b, c))
}

// The operand with this index, if there is one.
fn operand_at(operands: &[Operand], index: usize) -> Option<&Operand>
    ensures { seen result ≡ slice_get (map operand_tree operands.now) index }
{
    operands.get(index)
}

/// The row of an instruction of a source, with 0 in each field; none where the instruction table has no row of this
/// mnemonic with such operands. `jump` is looked at for `JMP` and `CALL` with only a code address, which mean the jump
/// and the call of that form; a short `CALL` means `ACALL`.
///
/// Source: family manual.
pub fn row_of(mnemonic: &Name, operands: &[Operand], jump: Jump) -> Option<Instr>
    ensures { result ≡ row_of mnemonic.now (map operand_tree operands.now) jump }
{
    let word = mnemonic.bytes();
    match operands {
        [] => line_row(word, jump, None, None, None),
        [a] => line_row(word, jump, Some(a), None, None),
        [a, b] => line_row(word, jump, Some(a), Some(b), None),
        [a, b, c] => line_row(word, jump, Some(a), Some(b), Some(c)),
        _ => None,
    }
}

/// The bytes and references of an instruction at the place of the statement, and the outcome of each of its operands.
/// `row` is its row, which [`row_of`] gives. It allocates nothing.
///
/// Errors, in `coded`: the fault of the leftmost operand that has one: E7 to E10 where it has no value, E14 where its
/// value is out of range or class.
///
/// Source: family manual.
#[tactic(auto, using(crate::proofs::CodedRows::by_row))]
pub fn code_row<N: Numbered>(names: &N, row: &Instr, operands: &[Operand]) -> Coding
    ensures coded { let operands = map operand_tree operands.now in (mnemonic : List ℕ) (jump : Jump)
        → row_of mnemonic operands jump ≡ Some row.now
        → result.coded ≡ coded (N.meanings names.now) mnemonic operands jump }
    ensures outcomes { let operands = map operand_tree operands.now in (mnemonic : List ℕ) (jump : Jump)
        → row_of mnemonic operands jump ≡ Some row.now
        → result.outcomes ≡ outcomes (N.meanings names.now) mnemonic operands jump }
{
    let next = address_after(names, u16::from(length(row)));
    let text = spelling_of(row);
    let first = filled(names, next, text.first.field(), operand_at(operands, 0));
    let second = filled(names, next, text.second.field(), operand_at(operands, 1));
    let third = filled(names, next, text.third.field(), operand_at(operands, 2));
    Coding {
        outcomes: [
            operand_outcome(&first),
            operand_outcome(&second),
            operand_outcome(&third),
        ],
        coded: gathered(row, first, second, third),
    }
}

/// What [`code_row`] gives by the row of the instruction; `jump` as for [`row_of`].
///
/// Errors, in `coded`: E11 where the instruction table has no row of this mnemonic with such operands; else the fault
/// of the leftmost operand that has one: E7 to E10 where it has no value, E14 where its value is out of range or class.
///
/// Source: family manual.
#[tactic(auto, using(crate::proofs::CodedRows::by_row))]
pub fn code<N: Numbered>(names: &N, mnemonic: &Name, operands: &[Operand], jump: Jump) -> Coding
    ensures coded { let operands = map operand_tree operands.now in
        result.coded ≡ coded (N.meanings names.now) mnemonic.now operands jump }
    ensures outcomes { let operands = map operand_tree operands.now in
        result.outcomes ≡ outcomes (N.meanings names.now) mnemonic.now operands jump }
{
    match row_of(mnemonic, operands, jump) {
        Some(row) => code_row(names, &row, operands),
        None => NO_SUCH_ROW,
    }
}
