//! The top call over files of the system, and over files and a sink that never fail. The report is the one that
//! README.md explains, the listing that of docs/COMMAND.md, the object that of docs/OBJECTS.md.
use crate::answering::{call, in_room};
use crate::failing::Failure;
use crate::files::contents_of;
use crate::report::Report;
use crate::texts::words_of;
use m51_cells::Bytes;
use m51_shelf::{DirShelf, SureShelf, SureSink};
use std::alloc::Global;
use std::rt::Files;
use std::{fs, io};

// A source that writes 55H to port 1, and what `build --steps 4` writes for it.
const SOURCE: &[u8] = b"CSEG AT 0\nMOV P1,#55H\nSJMP $\nEND\n";

const REPORT: &[u8] = b"SEGMENTS\nDATA  0000 0008 B BANK0\nCODE  0000 0005 A @0000\nUNITS\n\
    @0000 FROM @0000 TO -\nCHAIN @0000 0 @0000\nOVERLAID 0 BYTES\nIMAGE 5 BYTES\nRUN\n\
    0 P1 55\nEND 4 STEPS 8 CYCLES\n";

const ABSENT: &[u8] = b"READ FAULT b.a51\n";

const LISTING: &[u8] = b"    1              CSEG AT 0\n    2 0000 759055  MOV P1,#55H\n\
    \x20   3 0003 80FE    SJMP $\n    4              END\n";

// The records of the object: header, segment, content, end.
const OBJECT: &[u8] = b"\x02\x04\x00\x01A\x01\xB7\
    \x0E\x09\x00\x00\x00\x00\x00\x00\x05\x00\x00\xE4\
    \x06\x09\x00\x01\x00\x00\x75\x90\x55\x80\xFE\x18\
    \x04\x04\x00\x01A\x01\xB5";

// Whether a call with these words over the files of the system has this status and text.
fn answers<R: Files>(
    alloc: Global,
    files: &mut DirShelf<R>,
    words: &[u8],
    status: u32,
    text: &[u8],
) -> io::Result<bool> {
    let words = words_of(alloc, words, b" ")?;
    let mut out = in_room(Failure::None.sink(alloc))?;
    Ok(call(alloc, &words, files, &mut out) == status && out.text() == text)
}

// Whether a file is read that was written there, one that is absent is named, and an object is kept over a longer file
// and then linked.
fn system_passes(rt: &HostRuntime) -> io::Result<bool> {
    fs::write(rt, "a.a51", SOURCE)?;
    fs::write(rt, "a.obj", REPORT)?;
    let mut files = DirShelf::make(rt);
    for (words, status, text) in [
        (b"build --steps 4 a.a51".as_slice(), 0, REPORT),
        (b"build --steps 4 b.a51".as_slice(), 8, ABSENT),
        (b"asm --out a.obj a.a51".as_slice(), 0, LISTING),
        (b"build --steps 4 a.obj".as_slice(), 0, REPORT),
    ] {
        if !answers(rt.alloc(), &mut files, words, status, text)? {
            return Ok(false);
        }
    }
    Ok(contents_of(rt, ".", "a.obj")?.as_slice() == OBJECT)
}

// The status of a call over files and a sink that never fail, where each name of no file is that of an empty one.
fn sure_status(alloc: Global, words: &[u8]) -> io::Result<u32> {
    let words = words_of(alloc, words, b" ")?;
    let source = Bytes::of(SOURCE.to_vec(alloc)?);
    let file = (Bytes::of(b"a.a51".to_vec(alloc)?), source);
    let mut shelf = SureShelf::make(vec![in alloc; file]?);
    Ok(call(alloc, &words, &mut shelf, &mut SureSink::make()))
}

// Whether no call fails over them.
fn sure_passes(alloc: Global) -> io::Result<bool> {
    Ok(
        sure_status(alloc, b"build --steps 4 a.a51")? == 0
            && sure_status(alloc, b"build --steps 4 b.a51")? == 3
            && sure_status(alloc, b"asm --out o a.a51")? == 0,
    )
}

/// Runs these, and counts those that fail.
pub(crate) fn run_all(rt: &HostRuntime, report: &mut Report) -> io::Result<()> {
    if !system_passes(rt)? {
        report.count(rt, b"files of the system", false)?;
    }
    if !sure_passes(rt.alloc())? {
        report.count(rt, b"files that never fail", false)?;
    }
    Ok(())
}
