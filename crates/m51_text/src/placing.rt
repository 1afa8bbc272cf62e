//! Faults that lines have by their place.
ghost use Rattle.std.specs.Prelude.{◌≡◌, ◌==◌};
ghost use Rattle.m51_stmt.specs.Statement.{body_tree, stmt_tree};
ghost use Rattle.m51_text.specs.Said.{is_end_body, is_empty_body, is_end, has_content, said_tree};
ghost use Rattle.m51_text.specs.Faults.{is_misplaced, is_refused, fault_by_place};

use crate::inclusion::Inclusion;
use crate::saying::LineSaid;
use m51_cells::{BAD_INCLUDE, MISPLACED_END, MOST_SOURCE_LINES, TOO_MANY};
use m51_stmt::{Body, Stmt};

/// How many lines of a text are read: one more than a source may have.
pub(crate) const MOST_LINES: usize = MOST_SOURCE_LINES + 1;

// Whether it is the word END.
fn is_end_body(body: &Body) -> bool
    ensures { result ≡ is_end_body (body_tree body.now) }
{
    match body {
        Body::End => true,
        _ => false,
    }
}

// Whether it has no statement.
fn is_empty_body(body: &Body) -> bool
    ensures { result ≡ is_empty_body (body_tree body.now) }
{
    match body {
        Body::Empty => true,
        _ => false,
    }
}

/// Whether a line says END.
pub(crate) fn is_end(said: &LineSaid) -> bool
    ensures { result ≡ is_end (said_tree said.now) }
{
    match said.fault {
        None => is_end_body(&said.statement.body),
        Some(_) => false,
    }
}

// Whether there is more than blanks and a comment.
fn has_content(statement: &Stmt) -> bool
    ensures { result ≡ has_content (stmt_tree statement.now) }
{
    statement.label.is_some() || !is_empty_body(&statement.body)
}

// Whether it is text after the END of the source, or END in an include.
fn is_misplaced(ended: bool, file: u16, statement: &Stmt) -> bool
    ensures { result ≡ is_misplaced ended (file == 0) (stmt_tree statement.now) }
{
    if ended && has_content(statement) {
        return true;
    }
    file != 0 && is_end_body(&statement.body)
}

// Whether an include is not given or too deep.
fn is_refused(inclusion: Inclusion) -> bool
    ensures { result ≡ is_refused inclusion }
{
    match inclusion {
        Inclusion::Refused => true,
        Inclusion::Nothing | Inclusion::Given(_) => false,
    }
}

/// The first fault by its place of a line that says a statement, with `above` lines above it: E16 for text after the
/// END of the source and for END in an include, E17 for an include that is refused, E19 for line 65,536.
pub(crate) fn fault_by_place(
    ended: bool,
    file: u16,
    statement: &Stmt,
    inclusion: Inclusion,
    above: usize,
) -> Option<u8>
    ensures { result ≡ fault_by_place (is_misplaced ended (file == 0) (stmt_tree statement.now)) inclusion above }
{
    if is_misplaced(ended, file, statement) {
        Some(MISPLACED_END)
    } else if is_refused(inclusion) {
        Some(BAD_INCLUDE)
    } else if above == MOST_SOURCE_LINES {
        Some(TOO_MANY)
    } else {
        None
    }
}
