//! The rows of `words.txt` and `files.txt`: words, perhaps a file, and the status, the text or the file that is kept.
use crate::answering::{Answer, run};
use crate::failing::Failure;
use crate::files::{contents_of, files_in, filled};
use crate::report::Report;
use crate::texts::{after, before, cut, has, is_row, parts_of, put_bytes, put_digits, words_of};
use m51_cells::Bytes;
use std::alloc::Global;
use std::io;

// The words of a row.
fn asked(row: &[u8]) -> &[u8] {
    before(after(row, b" ="), b" <")
}

// Whether an answer is the one of a row, as `2`, `0 > file`, `8 READ FAULT file` or 1000:3433. A status without
// more says nothing of the text, but for 2, where it is the usage.
fn is_wanted(rt: &HostRuntime, answer: &Answer, wanted: &[u8]) -> io::Result<bool> {
    if wanted == b"2".as_slice() {
        let usage = contents_of(rt, "cases/usage", "stdout")?;
        return Ok(answer.is(b"2", &usage, &[]));
    }
    let Some((status, text)) = cut(wanted, b" ") else {
        return if has(wanted, b":") {
            answer.has_image(rt.alloc(), wanted)
        } else {
            Ok(answer.writes(wanted))
        };
    };
    if let Some(name) = text.strip_prefix(b"> ") {
        return Ok(answer.keeps(status, name));
    }
    let mut line = Vec::new(rt.alloc());
    put_bytes(rt.alloc(), &mut line, text)?;
    Ok(answer.refuses(status, &line))
}

// What a row gives its last word: the text after ` < `, or the bytes whose digits come after ` <<`.
fn given(alloc: Global, text: &[u8]) -> io::Result<Vec<u8>> {
    let mut bytes = Vec::new(alloc);
    match text.strip_prefix(b"<") {
        Some(digits) => put_digits(&mut bytes, after(digits, b" "))?,
        None => put_bytes(alloc, &mut bytes, after(text, b" "))?,
    }
    Ok(bytes)
}

// The file that a row gives, under the name that is its last word.
fn given_file(alloc: Global, words: &[u8], text: &[u8]) -> io::Result<(Bytes, Bytes)> {
    let contents = Bytes::of(given(alloc, text)?);
    let parts = parts_of(alloc, words, b" ")?;
    let name = match parts.last() {
        Some(name) => (*name).to_vec(alloc)?,
        None => Vec::new(alloc),
    };
    Ok((Bytes::of(name), contents))
}

// Puts the file of a line, if the words name it, to those before.
fn put_if_named(
    alloc: Global,
    to: &mut Vec<(Bytes, Bytes)>,
    line: &[u8],
    words: &[u8],
) -> io::Result<()> {
    if !is_row(line) || !has(words, before(line, b" ")) {
        return Ok(());
    }
    to.push(filled(alloc, line)?)?;
    Ok(())
}

// The files that a row has: those of the folder, those of the lines that its words name, and the one that it gives.
fn files_of(rt: &HostRuntime, lines: &[u8], row: &[u8]) -> io::Result<Vec<(Bytes, Bytes)>> {
    let mut files = files_in(rt, ".", "words")?;
    for line in parts_of(rt.alloc(), lines, b"\n")?.iter() {
        put_if_named(rt.alloc(), &mut files, *line, asked(row))?;
    }
    let text = after(after(row, b" ="), b" <");
    if !text.is_empty() {
        files.push(given_file(rt.alloc(), asked(row), text)?)?;
    }
    Ok(files)
}

// Whether a row is answered as it says.
fn passes(rt: &HostRuntime, lines: &[u8], row: &[u8]) -> io::Result<bool> {
    let words = words_of(rt.alloc(), asked(row), b" ")?;
    let files = files_of(rt, lines, row)?;
    let answer = run(rt.alloc(), &words, files, Failure::None)?;
    is_wanted(rt, &answer, before(row, b" ="))
}

// Runs the rows of a table.
fn run_table(rt: &HostRuntime, table: &str, report: &mut Report) -> io::Result<()> {
    let lines = contents_of(rt, ".", "filled.txt")?;
    let text = contents_of(rt, ".", table)?;
    for row in parts_of(rt.alloc(), &text, b"\n")?.iter() {
        if is_row(*row) {
            let passed = passes(rt, &lines, *row)?;
            report.count(rt, *row, passed)?;
        }
    }
    Ok(())
}

/// Runs all of them.
pub(crate) fn run_all(rt: &HostRuntime, report: &mut Report) -> io::Result<()> {
    run_table(rt, "words.txt", report)?;
    run_table(rt, "files.txt", report)
}
