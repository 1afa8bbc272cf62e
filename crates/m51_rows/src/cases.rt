//! The cases that have a folder each: `args`, `data/`, `status`, `stdout`, `kept/`, and `fails`.
use crate::answering::{Answer, run};
use crate::failing::Failure;
use crate::files::{contents_of, files_in, joined, names_in};
use crate::report::Report;
use crate::texts::{before, cut, is_row, not_in_form, number, parts_of, words_of};
use std::alloc::{AllocError, Global};
use std::io;

// The answer that the case in this folder has, where this goes wrong.
fn answer_of(rt: &HostRuntime, folder: &str, failure: Failure) -> io::Result<Answer> {
    let args = contents_of(rt, folder, "args")?;
    let words = words_of(rt.alloc(), &args, b"\n")?;
    run(rt.alloc(), &words, files_in(rt, folder, "data")?, failure)
}

// The first lines of a text.
fn first_lines(text: &[u8], count: u32) -> &[u8] {
    let mut rest = text;
    for _ in 0..count {
        let Some((_, more)) = cut(rest, b"\n") else {
            return text;
        };
        rest = more;
    }
    text.strip_suffix(rest).unwrap_or(text)
}

// Whether an answer has this status, the first lines of the case's text, and the files that the case keeps.
fn ends_after(
    rt: &HostRuntime,
    folder: &str,
    answer: &Answer,
    status: &[u8],
    lines: u32,
) -> io::Result<bool> {
    let kept = files_in(rt, folder, "kept")?;
    let text = contents_of(rt, folder, "stdout")?;
    Ok(answer.is(status, first_lines(&text, lines), &kept))
}

// Whether an answer is the one of the case.
fn is_wanted(rt: &HostRuntime, folder: &str, answer: &Answer) -> io::Result<bool> {
    let text = contents_of(rt, folder, "status")?;
    ends_after(rt, folder, answer, before(&text, b"\n"), u32::MAX)
}

// Whether an answer is the one of a line of `fails`: `same`, a refusal, or `9 after 2 lines`.
fn is_told(rt: &HostRuntime, folder: &str, answer: &Answer, told: &[u8]) -> io::Result<bool> {
    let Some((status, text)) = cut(told, b" ") else {
        return is_wanted(rt, folder, answer);
    };
    match text
        .strip_prefix(b"after ")
        .and_then(|text| text.strip_suffix(b" lines"))
    {
        Some(lines) => {
            let lines = number(lines).unwrap_or(u32::MAX);
            ends_after(rt, folder, answer, status, lines)
        }
        None => Ok(answer.refuses(status, text)),
    }
}

// Whether the case is answered as its line of `fails` says.
fn fails_so(rt: &HostRuntime, folder: &str, line: &[u8]) -> io::Result<bool> {
    let Some((told, text)) = cut(line, b" = ") else {
        return Err(not_in_form());
    };
    let Some(failure) = Failure::of(text) else {
        return Err(not_in_form());
    };
    let answer = answer_of(rt, folder, failure)?;
    is_told(rt, folder, &answer, told)
}

// The name of a case, and a line of its `fails`.
fn line_name(alloc: Global, name: &str, line: &[u8]) -> Result<Vec<u8>, AllocError> {
    let mut text = name.as_bytes().to_vec(alloc)?;
    text.extend_from_slice(b", ")?;
    text.extend_from_slice(line)?;
    Ok(text)
}

// Runs the lines of `fails` of a case.
fn run_failing(rt: &HostRuntime, name: &str, folder: &str, report: &mut Report) -> io::Result<()> {
    let text = contents_of(rt, folder, "fails")?;
    for line in parts_of(rt.alloc(), &text, b"\n")?.iter() {
        if is_row(*line) {
            let passed = fails_so(rt, folder, *line)?;
            report.count(rt, &line_name(rt.alloc(), name, *line)?, passed)?;
        }
    }
    Ok(())
}

// Runs a case, and prints its name if it passed.
fn run_case(rt: &HostRuntime, name: &str, report: &mut Report) -> io::Result<()> {
    let folder = joined(rt.alloc(), "cases", "/", name)?;
    let answer = answer_of(rt, folder.as_str(), Failure::None)?;
    let passed = is_wanted(rt, folder.as_str(), &answer)?;
    if passed {
        println!(rt; "{name}: passed")?;
    }
    report.count(rt, name.as_bytes(), passed)?;
    run_failing(rt, name, folder.as_str(), report)
}

/// Runs all of them, and prints the name of each that passed.
pub(crate) fn run_all(rt: &HostRuntime, report: &mut Report) -> io::Result<()> {
    for name in names_in(rt, "cases")? {
        run_case(rt, name.as_str(), report)?;
    }
    Ok(())
}
