//! What is kept while a text is read.
ghost use Rattle.std.specs.Prelude.{◌≡◌, ◌+◌, ◌==◌, ◌&&◌, ◌<◌, [], Bool, false, IfOk, OnOk, length, nat_le, nat_lt};
ghost use Rattle.std.specs.Prelude.{not};
ghost use Rattle.m51_text.specs.Said.{said, said_tree, is_end};
ghost use Rattle.m51_text.specs.Text.{inclusion_of, IsAllowed};
ghost use Rattle.m51_text.specs.Entries.{line_count};
ghost use Rattle.m51_text.specs.Reading.{State, state_of, text_line, fault_above, next};

use crate::entry::LineEntry;
use crate::inclusion::{Inclusion, inclusion_of};
use crate::placing::{MOST_LINES, fault_by_place, is_end};
use crate::read_lines::ReadLines;
use crate::saying::{LineSaid, said};
use m51_cells::NoMemory;
use m51_module::SourceFile;
use m51_stmt::{LineRoom, Stmt};
use std::alloc::Global;

/// Where a line is.
#[derive(Clone, Copy)]
pub(crate) struct TextPlace {
    /// The file: 0 for the source, k for the k-th include.
    pub file: u16,
    /// The line in that file, counted from 1.
    pub line: u32,
    /// How many levels of includes are allowed below the line.
    pub levels: u8,
}

/// The lines that were read, and whether the END of the source is among them.
#[derive(Drop)]
pub(crate) struct TextReading {
    pub read: ReadLines,
    /// Where a line is cut into words while it is read.
    pub room: LineRoom,
    pub ended: bool,
}

// Whether it is an END of the source itself.
fn ends_source(file: u16, said: &LineSaid) -> bool
    ensures { result ≡ ((file == 0) && is_end (said_tree said.now)) }
{
    file == 0 && is_end(said)
}

impl TextReading {
    /// No line is read yet.
    pub(crate) fn new(alloc: Global) -> TextReading
        ensures { state_of result ≡ record { entries = []; ended = false } }
    {
        TextReading {
            read: ReadLines::new(alloc),
            room: LineRoom::new(alloc),
            ended: false,
        }
    }

    /// Whether reading stops here: 65,536 lines are read.
    pub(crate) fn is_full(&self) -> bool
        ensures { result ≡ nat_le 65536 (line_count self.now.read) }
    {
        self.read.len() >= MOST_LINES
    }

    /// Whether END is missing: all was read, and no END of the source is among it.
    pub(crate) fn lacks_end(&self) -> bool
        ensures { result ≡ (nat_lt (line_count self.now.read) 65536 && not self.now.ended) }
    {
        !self.is_full() && !self.ended
    }

    // The fault by its place of the next line, where it says a statement.
    fn next_fault(&self, file: u16, inclusion: Inclusion, said: &LineSaid) -> Option<u8>
        ensures { result ≡ fault_above (line_count self.now.read) self.now.ended file inclusion (said_tree said.now) }
    {
        match said.fault {
            None => fault_by_place(
                self.ended,
                file,
                &said.statement,
                inclusion,
                self.read.len(),
            ),
            Some(_) => None,
        }
    }

    /// Reads the next line, given without its end, and says which include it names.
    ///
    /// Error: out of memory.
    pub(crate) fn read_line(
        &mut self,
        alloc: Global,
        includes: &[SourceFile],
        place: TextPlace,
        line: &[u8],
    ) -> Result<Inclusion, NoMemory>
        requires { line_count self.old.read < 65536 }
        ensures state { OnOk result (state_of self.new
            ≡ next includes.now (state_of self.old) (text_line place line.now)) }
        ensures inclusion { IfOk result (λ found. found ≡ inclusion_of includes.now place.levels (said line.now)) }
        ensures more { OnOk result (line_count self.new.read ≡ line_count self.old.read + 1) }
        ensures allowed { IfOk result (IsAllowed (length includes.now) place.levels) }
    {
        let mut heard = LineSaid {
            statement: Stmt::nothing(),
            fault: None,
        };
        heard.fault = said(alloc, line, &mut self.room, &mut heard.statement)?;
        let inclusion = inclusion_of(includes, place.levels, &heard);
        let by_place = self.next_fault(place.file, inclusion, &heard);
        let ends = ends_source(place.file, &heard);
        self.read.push(LineEntry {
            file: place.file,
            line: place.line,
            said: heard,
            by_place,
        })?;
        self.ended = self.ended || ends;
        Ok(inclusion)
    }
}
