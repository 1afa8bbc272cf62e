//! The row of the listing that a line gives.
ghost use Rattle.std.specs.Prelude.{◌≡◌, ◌<◌, ◌^◌, length};
ghost use Rattle.m51_stmt.specs.Statement.{body_tree, stmt_tree};
ghost use Rattle.m51_emit.specs.Rows.{has_place, place_in, first_three, is_any, row_in};

use crate::content::{EmittedContent, ReferenceAt};
use m51_module::Row;
use m51_stmt::{Body, Stmt};

// Whether what a line says has a place: an instruction, DB, DW, DS or DBIT.
fn has_place(body: &Body) -> bool
    ensures { result ≡ has_place (body_tree body.now) }
{
    match body {
        Body::Code(..) | Body::Db(_) | Body::Dw(_) | Body::Ds(_) | Body::Dbit(_) => true,
        _ => false,
    }
}

/// The place of a statement that has a label, or is an instruction, DB, DW, DS or DBIT, modulo 65,536.
///
/// Source: own choice ("Listing").
pub fn place_of(stmt: &Stmt, place: u64) -> Option<u16>
    ensures { result ≡ place_in (stmt_tree stmt.now) place }
{
    if stmt.label.is_some() || has_place(&stmt.body) {
        Some((place % 65536) as u16)
    } else {
        None
    }
}

// The first three bytes, with 0 past the last.
fn first_three(bytes: &[u8]) -> [u8; 3]
    ensures { result ≡ first_three bytes.now }
{
    match bytes {
        [] => [0, 0, 0],
        [a] => [*a, 0, 0],
        [a, b] => [*a, *b, 0],
        [a, b, c, ..] => [*a, *b, *c],
    }
}

// Whether there is a reference.
fn is_any(references: &[ReferenceAt]) -> bool
    ensures { result ≡ is_any references.now }
{
    !references.is_empty()
}

/// The row of a line that gives this content at this place: the file, 0 for the source and k for the k-th include, the
/// line in it, counted from 1, how many of the first three bytes there are, these bytes with 0 past the last, and
/// whether the line has a fixup, in these bytes or past them.
///
/// Source: own choice ("Listing").
pub fn row_of(file: u16, line: u32, place: Option<u16>, content: &EmittedContent) -> Row
    ensures { result ≡ row_in file line place content.now }
{
    let bytes = content.bytes.as_slice();
    Row {
        file,
        line,
        place,
        count: bytes.len().min(3) as u8,
        bytes: first_three(bytes),
        marked: is_any(content.references.as_slice()),
    }
}
