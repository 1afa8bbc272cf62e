//! From a source and its includes to the text or its faults.
ghost use Rattle.std.specs.Prelude.{◌≡◌, ◌≤◌, [], ◌∷◌, ◌++◌, IfOk, length, map};
ghost use Rattle.std.specs.List.{filter_map};
ghost use Rattle.m51_cells.specs.declared.fault.TheConstants.{MISPLACED_END};
ghost use Rattle.m51_text.specs.Entries.{read_entries, fault_at, fault_kept, fault_of_entry, line_of_entry, marked};
ghost use Rattle.m51_text.specs.Entries.{tree_of_entry};
ghost use Rattle.m51_text.specs.Answer.{faults_or_lines, text_of, text_tree};
ghost use Rattle.m51_text.specs.Reading.{state_of, settled, told};

use crate::entry::LineEntry;
use crate::inserting::read_file;
use crate::missing_end::mark_missing_end;
use crate::read_lines::{ReadLines, all_entries};
use crate::reading::TextReading;
use crate::text::{Line, Lines, Text};
use m51_cells::{MISPLACED_END, MOST_INCLUDE_LEVELS, NoMemory};
use m51_module::{Fault, Faults, SourceFile};
use std::alloc::{AllocError, Global};

// How many levels of includes are allowed below the lines of a source.
const MOST_LEVELS: u8 = MOST_INCLUDE_LEVELS as u8;

// The faults of lines.
fn faults_of(alloc: Global, entries: &[LineEntry]) -> Result<Vec<Fault>, AllocError>
    ensures { IfOk result (λ faults. faults.items ≡ filter_map fault_kept entries.now) }
{
    entries
        .iter()
        .filter_map(|entry| entry.fault())
        .collect(alloc)
}

// The lines with their statements, where none has a fault.
fn lines_of(alloc: Global, entries: Vec<LineEntry>) -> Result<Vec<Line>, AllocError>
    ensures { IfOk result (λ lines. lines.items ≡ map line_of_entry entries.items) }
{
    entries
        .into_iter()
        .map(|entry| entry.into_line())
        .collect(alloc)
}

// All lines with their statements, where none has a fault.
fn all_lines(alloc: Global, read: ReadLines) -> Result<Vec<Line>, AllocError>
    ensures { IfOk result (λ lines. lines.items ≡ read.lines.items ++ map line_of_entry read.entries.items) }
{
    let ReadLines { mut lines, entries } = read;
    let mut more = lines_of(alloc, entries)?;
    lines.append(&mut more)?;
    Ok(lines)
}

// The faults of a source of no lines: it lacks END.
fn faults_of_nothing(alloc: Global) -> Result<Vec<Fault>, NoMemory>
    ensures { IfOk result (λ faults. faults.items ≡ fault_at 0 1 MISPLACED_END ∷ []) }
{
    let mut faults = Vec::new(alloc);
    faults.push(Fault {
        file: 0,
        line: 1,
        number: MISPLACED_END,
    })?;
    Ok(faults)
}

// The faults of lines, or where there are none the lines.
fn faults_or_lines(alloc: Global, read: ReadLines) -> Result<Text, NoMemory>
    ensures { IfOk result (λ text. text_tree text
        ≡ faults_or_lines (filter_map fault_of_entry (read_entries read))
        (filter_map tree_of_entry (read_entries read))) }
{
    let faults = faults_of(alloc, &read.entries)?;
    if faults.is_empty() {
        let lines = all_lines(alloc, read)?;
        return Ok(Text::Lines(Lines::of(lines)));
    }
    Ok(Text::Faults(Faults::of(faults)))
}

// The lines that were read, with E16 at the last line of the source.
fn marked(alloc: Global, read: ReadLines) -> Result<ReadLines, NoMemory>
    ensures { IfOk result (λ kept. read_entries kept ≡ marked (read_entries read)) }
{
    let mut entries = all_entries(alloc, read)?;
    mark_missing_end(&mut entries);
    Ok(ReadLines {
        lines: Vec::new(alloc),
        entries,
    })
}

// The lines that were read, with E16 at the last line of the source if it lacks END.
fn settled(alloc: Global, reading: TextReading) -> Result<ReadLines, NoMemory>
    ensures { IfOk result (λ kept. read_entries kept ≡ settled (state_of reading)) }
{
    let lacks_end = reading.lacks_end();
    let TextReading { read, .. } = reading;
    if lacks_end {
        marked(alloc, read)
    } else {
        Ok(read)
    }
}

// What the lines that were read give.
#[tactic(auto, using(crate::proofs::Telling::nothing_told, crate::proofs::Telling::some_told))]
fn told(alloc: Global, read: ReadLines) -> Result<Text, NoMemory>
    ensures { IfOk result (λ text. text_tree text ≡ told (read_entries read)) }
{
    if read.len() == 0 {
        return Ok(Text::Faults(Faults::of(faults_of_nothing(alloc)?)));
    }
    faults_or_lines(alloc, read)
}

/// The text of a source and its includes: its lines, or where a line has a fault the faults in the order of the lines.
///
/// The lines of the text are those of the source in order. After each line `$INCLUDE(name)` come the lines of the first
/// include of exactly that name, which may include others, eight levels deep. Reading stops at line 65,536.
///
/// A line has at most one fault, the first of these:
///
/// - E18: a byte other than a tab and 20H to 7EH, in a comment too;
/// - E1 to E6, E11 and E12: as `read_line` gives them;
/// - E16: more than blanks and a comment after the END of the source; END in an include; or END is missing, at the last
///   line of the source, and at line 1 of one that has none. It is not missing where reading stopped;
/// - E17: an include that is not given, or is too deep;
/// - E19: line 65,536.
///
/// Condition: at most 65,535 includes. Error: out of memory.
///
/// Source: own choice ("The text of a source").
pub fn read_text(
    alloc: Global,
    source: &SourceFile,
    includes: &[SourceFile],
) -> Result<Text, NoMemory>
    requires { length includes.now ≤ 65535 }
    ensures { IfOk result (λ text. text_tree text ≡ text_of source.now includes.now) }
{
    let mut reading = TextReading::new(alloc);
    read_file(
        alloc,
        includes,
        MOST_LEVELS,
        0,
        source.bytes.as_slice(),
        &mut reading,
    )?;
    let kept = settled(alloc, reading)?;
    told(alloc, kept)
}
