//! The rows of `sources.txt`: a source, and its faults or bytes of its image.
use crate::answering::{Answer, run};
use crate::failing::Failure;
use crate::files::contents_of;
use crate::report::Report;
use crate::texts::{
    after, before, braced, cut, has, is_row, not_in_form, number, parts_of, put_bytes, words_of,
};
use m51_cells::Bytes;
use std::alloc::{AllocError, Global};
use std::io;

// Puts the line of a fault, as E14@2.
fn put_fault(to: &mut Vec<u8>, fault: &[u8]) -> Result<(), AllocError> {
    to.extend_from_slice(b"a.a51(")?;
    to.extend_from_slice(after(fault, b"@"))?;
    to.extend_from_slice(b"): ")?;
    to.extend_from_slice(before(fault, b"@"))?;
    to.extend_from_slice(b"\n")
}

// The text that has the faults of a row, as `E14@2, E14@3`.
fn faults_of(alloc: Global, faults: &[u8]) -> Result<Vec<u8>, AllocError> {
    let mut text = Vec::new(alloc);
    for fault in parts_of(alloc, faults, b", ")?.iter() {
        put_fault(&mut text, *fault)?;
    }
    Ok(text)
}

// Whether an answer is one of the row.
fn is_right(alloc: Global, answer: &Answer, wanted: &[u8]) -> io::Result<bool> {
    if has(wanted, b":") {
        return answer.has_image(alloc, wanted);
    }
    let text = faults_of(alloc, wanted)?;
    Ok(answer.is(b"3", &text, &[]))
}

// Puts a piece such as `32*A` as often as it says.
fn put_piece(alloc: Global, to: &mut Vec<u8>, piece: &[u8]) -> Result<(), AllocError> {
    let Some(count) = number(before(piece, b"*")) else {
        return Ok(());
    };
    for _ in 0..count {
        put_bytes(alloc, to, after(piece, b"*"))?;
    }
    Ok(())
}

// Puts a line that may have a piece in braces.
fn put_line(alloc: Global, to: &mut Vec<u8>, line: &[u8]) -> Result<(), AllocError> {
    put_bytes(alloc, to, before(line, b"{"))?;
    put_piece(alloc, to, braced(line))?;
    put_bytes(alloc, to, after(after(line, b"{"), b"}"))?;
    to.extend_from_slice(b"\n")
}

// The source whose lines are parted by ` / `.
fn source_of(alloc: Global, text: &[u8]) -> Result<Vec<u8>, AllocError> {
    let mut source = Vec::new(alloc);
    for line in parts_of(alloc, text, b" / ")?.iter() {
        put_line(alloc, &mut source, *line)?;
    }
    Ok(source)
}

// Whether a row is answered as it says.
fn passes(alloc: Global, row: &[u8]) -> io::Result<bool> {
    let Some((wanted, text)) = cut(row, b" = ") else {
        return Err(not_in_form());
    };
    let words = words_of(alloc, b"build --hex a.hex --steps 1 a.a51", b" ")?;
    let source = Bytes::of(source_of(alloc, text)?);
    let file = (Bytes::of(b"a.a51".to_vec(alloc)?), source);
    let answer = run(alloc, &words, vec![in alloc; file]?, Failure::None)?;
    is_right(alloc, &answer, wanted)
}

/// Runs all of them.
pub(crate) fn run_all(rt: &HostRuntime, report: &mut Report) -> io::Result<()> {
    let text = contents_of(rt, ".", "sources.txt")?;
    for row in parts_of(rt.alloc(), &text, b"\n")?.iter() {
        if is_row(*row) {
            report.count(rt, *row, passes(rt.alloc(), *row)?)?;
        }
    }
    Ok(())
}
