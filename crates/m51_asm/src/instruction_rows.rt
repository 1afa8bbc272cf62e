//! The row of the instruction of a line, and how it is kept.
ghost use Rattle.std.specs.Prelude.{◌≡◌};
ghost use Rattle.m51_stmt.specs.Statement.{body_tree};
ghost use Rattle.m51_emit.specs.Lines.{row_by};
ghost use Rattle.m51_asm.specs.Placing.{row_of_code};

use m51_encode::row_of;
use m51_isa::{Instr, Jump, decode, encode};
use m51_stmt::Body;

/// The row of the instruction of a line, if it has one, with its JMP or CALL in this form.
pub(crate) fn row_by(form: Jump, body: &Body) -> Option<Instr>
    ensures { result ≡ row_by form (body_tree body.now) }
{
    match body {
        Body::Code(mnemonic, operands) => row_of(mnemonic, operands.as_slice(), form),
        _ => None,
    }
}

/// The bytes of a row, by which it is kept.
#[tactic(auto, using(m51_isa::proofs::Codes::codes_decode))]
pub(crate) fn code_of_row(row: &Option<Instr>) -> Option<[u8; 3]>
    ensures { row_of_code result ≡ row.now }
{
    match row {
        Some(row) => Some(encode(row).bytes),
        None => None,
    }
}

/// The row of these bytes.
pub(crate) fn row_of_code(code: Option<[u8; 3]>) -> Option<Instr>
    ensures { result ≡ row_of_code code }
{
    match code {
        Some(bytes) => decode(bytes),
        None => None,
    }
}
