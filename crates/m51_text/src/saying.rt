//! What a line says.
ghost use Rattle.std.specs.Prelude.{◌≡◌, IfOk};
ghost use Rattle.std.specs.List.{list_all};
ghost use Rattle.m51_stmt.specs.Lines.{statement_of};
ghost use Rattle.m51_text.specs.Said.{is_character, said, said_with};

use m51_cells::{BAD_BYTE, NoMemory};
use m51_stmt::{LineRoom, Stmt, StmtError, read_line_into};
use std::alloc::Global;

/// What a line says: its statement, or where it has a fault the number of that, and then any statement.
#[derive(Drop)]
pub(crate) struct LineSaid {
    pub statement: Stmt,
    pub fault: Option<u8>,
}

// Whether each byte may be in a line: a tab, or 20H to 7EH.
fn are_characters(line: &[u8]) -> bool
    ensures { result ≡ list_all is_character line.now }
{
    line.iter()
        .all(|byte| *byte == b'\t' || (0x20 <= *byte && *byte <= 0x7E))
}

// Writes the statement of a line of characters, or returns its fault.
fn spoken(
    alloc: Global,
    line: &str,
    room: &mut LineRoom,
    statement: &mut Stmt,
) -> Result<Option<u8>, NoMemory>
    ensures { IfOk result (λ fault. said_with statement.new fault ≡ statement_of line.now) }
{
    match read_line_into(alloc, line, room, statement) {
        Ok(()) => Ok(None),
        Err(StmtError::Fault { number }) => Ok(Some(number)),
        Err(StmtError::Memory) => Err(NoMemory),
    }
}

/// Writes the statement of a line, given without its end, or returns its fault: E18 for a byte that is neither a tab
/// nor 20H to 7EH, or else the first fault by the grammar of lines.
///
/// Error: out of memory.
#[tactic(auto, unfolding(crate::specs::Said::said))]
pub(crate) fn said(
    alloc: Global,
    line: &[u8],
    room: &mut LineRoom,
    statement: &mut Stmt,
) -> Result<Option<u8>, NoMemory>
    ensures { IfOk result (λ fault. said_with statement.new fault ≡ said line.now) }
{
    if !are_characters(line) {
        return Ok(Some(BAD_BYTE));
    }
    let Ok(text) = str::from_utf8(line) else {
        return Ok(Some(BAD_BYTE));
    };
    spoken(alloc, text, room, statement)
}
