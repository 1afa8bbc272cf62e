//! The answer of the top call over files and a sink in memory.
use crate::failing::Failure;
use crate::image::has_parts;
use crate::pieces::PieceShelf;
use crate::texts::{number, parts_of};
use m51_cells::{Bytes, NoMemory};
use m51_chain::chain;
use m51_shelf::{MemSink, Shelf, Sink};
use std::alloc::Global;
use std::io;
use std::io::ErrorKind;

/// The status of a run, what it writes, and the files that it keeps.
#[derive(Drop)]
pub(crate) struct Answer {
    status: u32,
    out: MemSink,
    shelf: PieceShelf,
}

// Whether two files have the same name and contents.
fn is_same(one: &(Bytes, Bytes), two: &(Bytes, Bytes)) -> bool {
    one.0.as_slice() == two.0.as_slice() && one.1.as_slice() == two.1.as_slice()
}

impl Answer {
    // Whether it has this status.
    fn has_status(&self, status: &[u8]) -> bool {
        number(status) == Some(self.status)
    }

    /// Whether it has this status and text, and keeps these files in this order. No run keeps more than one.
    pub(crate) fn is(&self, status: &[u8], text: &[u8], kept: &[(Bytes, Bytes)]) -> bool {
        let keeps = match (self.shelf.kept(), kept) {
            ([], []) => true,
            ([one], [two]) => is_same(one, two),
            _ => false,
        };
        keeps && self.has_status(status) && self.out.text() == text
    }

    /// Whether it has this status, keeps nothing, and its text is this line.
    pub(crate) fn refuses(&self, status: &[u8], line: &[u8]) -> bool {
        self.has_status(status)
            && self.shelf.kept().is_empty()
            && self.out.text().strip_suffix(b"\n") == Some(line)
    }

    /// Whether it has this status and some text, and keeps nothing.
    pub(crate) fn writes(&self, status: &[u8]) -> bool {
        self.has_status(status) && !self.out.text().is_empty() && self.shelf.kept().is_empty()
    }

    /// Whether it has this status and keeps one file, of this name, which is not empty unless there is a text.
    pub(crate) fn keeps(&self, status: &[u8], name: &[u8]) -> bool {
        match self.shelf.kept() {
            [(kept, contents)] => {
                self.has_status(status)
                    && kept.as_slice() == name
                    && !(contents.is_empty() && self.out.text().is_empty())
            }
            _ => false,
        }
    }

    // Whether its text ends with the last line of a run, and its status is that of the line: 0 for END, 1 for EVENT.
    fn has_run(&self, alloc: Global) -> io::Result<bool> {
        let Some(text) = self.out.text().strip_suffix(b"\n") else {
            return Ok(false);
        };
        let lines = parts_of(alloc, text, b"\n")?;
        let Some(last) = lines.last() else {
            return Ok(false);
        };
        Ok(match self.status {
            0 => (*last).strip_prefix(b"END ").is_some(),
            1 => (*last).strip_prefix(b"EVENT ").is_some(),
            _ => false,
        })
    }

    /// Whether its status and last line are those of a run, and it keeps one file, a HEX file with all parts such as
    /// 0000:7455, with commas between them.
    pub(crate) fn has_image(&self, alloc: Global, parts: &[u8]) -> io::Result<bool> {
        match self.shelf.kept() {
            [(_, contents)] => {
                Ok(self.has_run(alloc)? && has_parts(alloc, contents.as_slice(), parts)?)
            }
            _ => Ok(false),
        }
    }

    /// The files that it keeps.
    pub(crate) fn kept(&self) -> &[(Bytes, Bytes)] {
        self.shelf.kept()
    }
}

/// The status of the top call. Its clauses are long, so its callers do without them.
pub(crate) fn call<F: Shelf, S: Sink>(
    alloc: Global,
    words: &[String],
    files: &mut F,
    out: &mut S,
) -> u32 {
    u32::from(chain(alloc, words, files, out) as u8)
}

/// What was made, or the error of the program where there was no memory for it.
pub(crate) fn in_room<T>(made: Result<T, NoMemory>) -> io::Result<T> {
    match made {
        Ok(made) => Ok(made),
        Err(NoMemory) => Err(io::Error::from(ErrorKind::OutOfMemory)),
    }
}

/// Runs the top call with these words over these files, where this goes wrong.
pub(crate) fn run(
    alloc: Global,
    words: &[String],
    files: Vec<(Bytes, Bytes)>,
    failure: Failure,
) -> io::Result<Answer> {
    let mut shelf = in_room(PieceShelf::make(alloc, files, failure))?;
    let mut out = in_room(failure.sink(alloc))?;
    let status = call(alloc, words, &mut shelf, &mut out);
    Ok(Answer { status, out, shelf })
}
