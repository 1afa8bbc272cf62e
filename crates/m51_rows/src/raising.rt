//! What one call keeps is what the next one reads: a library with a module of version 1, which is raised to version 2.
use crate::answering::{Answer, run};
use crate::failing::Failure;
use crate::files::contents_of;
use crate::report::Report;
use crate::texts::words_of;
use m51_cells::Bytes;
use std::alloc::Global;
use std::io;

// A file of this name and these contents.
fn file_of(alloc: Global, name: &[u8], contents: &[u8]) -> io::Result<(Bytes, Bytes)> {
    let name = Bytes::of(name.to_vec(alloc)?);
    Ok((name, Bytes::of(contents.to_vec(alloc)?)))
}

// The answer to the words of a case, over this library and the source that is linked with it.
fn answer_over(rt: &HostRuntime, case: &str, library: &[u8]) -> io::Result<Answer> {
    let args = contents_of(rt, case, "args")?;
    let words = words_of(rt.alloc(), &args, b"\n")?;
    let source = contents_of(rt, "cases/versions-raised/data", "main.a51")?;
    let mut files = Vec::new(rt.alloc());
    files.push(file_of(rt.alloc(), b"l.lib", library)?)?;
    files.push(file_of(rt.alloc(), b"main.a51", &source)?)?;
    run(rt.alloc(), &words, files, Failure::None)
}

// Whether that is this status and the text of the case, and nothing is kept.
fn is_told(rt: &HostRuntime, case: &str, status: &[u8], library: &[u8]) -> io::Result<bool> {
    let text = contents_of(rt, case, "stdout")?;
    let answer = answer_over(rt, case, library)?;
    Ok(answer.is(status, &text, &[]))
}

// Whether one library is listed, is refused at the link, is raised, and is linked as it was kept.
fn passes(rt: &HostRuntime) -> io::Result<bool> {
    let library = contents_of(rt, "cases/versions-list/data", "l.lib")?;
    if !is_told(rt, "cases/versions-list", b"0", &library)?
        || !is_told(rt, "cases/versions-unmarked", b"4", &library)?
    {
        return Ok(false);
    }
    let raised = answer_over(rt, "cases/versions-raise", &library)?;
    if !raised.keeps(b"0", b"l.lib") {
        return Ok(false);
    }
    match raised.kept() {
        [(_, kept)] => is_told(rt, "cases/versions-raised", b"0", kept.as_slice()),
        _ => Ok(false),
    }
}

/// Runs and counts this.
pub(crate) fn run_all(rt: &HostRuntime, report: &mut Report) -> io::Result<()> {
    let passed = passes(rt)?;
    report.count(rt, b"a library that is raised", passed)
}
