//! The lines that were read.
ghost use Rattle.std.specs.Prelude.{◌≡◌, ◌+◌, ◌∷◌, ◌++◌, [], IfOk, OnOk, map};
ghost use Rattle.m51_text.specs.Entries.{read_entries, entry_of_line, entry_tree, line_count};

use crate::entry::LineEntry;
use crate::saying::LineSaid;
use crate::text::Line;
use m51_cells::NoMemory;
use std::alloc::{AllocError, Global};

/// The lines that were read: those before the first fault as lines of a text, and all others.
#[derive(Drop)]
pub(crate) struct ReadLines {
    pub lines: Vec<Line>,
    pub entries: Vec<LineEntry>,
}

impl ReadLines {
    /// No line is read yet.
    pub(crate) fn new(alloc: Global) -> ReadLines
        ensures entries { read_entries result ≡ [] }
        ensures count { line_count result ≡ 0 }
    {
        ReadLines {
            lines: Vec::new(alloc),
            entries: Vec::new(alloc),
        }
    }

    /// How many lines were read.
    pub(crate) fn len(&self) -> usize
        ensures { result ≡ line_count self.now }
    {
        self.lines.len() + self.entries.len()
    }

    /// Adds a line.
    ///
    /// Error: out of memory.
    #[tactic(auto, using(crate::proofs::WholeText::push_line, crate::proofs::WholeText::push_entry))]
    pub(crate) fn push(&mut self, entry: LineEntry) -> Result<(), NoMemory>
        ensures entries { OnOk result (read_entries self.new ≡ read_entries self.old ++ entry_tree entry ∷ []) }
        ensures count { OnOk result (line_count self.new ≡ line_count self.old + 1) }
    {
        if self.entries.is_empty() && entry.is_faultless() {
            self.lines.push(entry.into_line())?;
        } else {
            self.entries.push(entry)?;
        }
        Ok(())
    }
}

// A line that has no fault, as one of those that may have one.
fn as_entry(line: Line) -> LineEntry
    ensures { result ≡ entry_of_line line }
{
    let Line { file, line, stmt } = line;
    let said = LineSaid {
        statement: stmt,
        fault: None,
    };
    LineEntry {
        file,
        line,
        said,
        by_place: None,
    }
}

// Lines that have no fault, as those that may have one.
fn as_entries(alloc: Global, lines: Vec<Line>) -> Result<Vec<LineEntry>, AllocError>
    ensures { IfOk result (λ entries. entries.items ≡ map entry_of_line lines.items) }
{
    lines.into_iter().map(|line| as_entry(line)).collect(alloc)
}

/// All the lines that were read.
#[tactic(auto, using(crate::proofs::WholeText::all_kept))]
pub(crate) fn all_entries(alloc: Global, read: ReadLines) -> Result<Vec<LineEntry>, AllocError>
    ensures { IfOk result (λ entries. map entry_tree entries.items ≡ read_entries read) }
{
    let ReadLines { lines, mut entries } = read;
    let mut all = as_entries(alloc, lines)?;
    all.append(&mut entries)?;
    Ok(all)
}
