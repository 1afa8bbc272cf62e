//! Reads the lines of a file, and those of their includes.
ghost use Rattle.std.specs.Prelude.{◌≡◌, ◌≤◌, OnOk, length};
ghost use Rattle.m51_text.specs.Entries.{line_count};
ghost use Rattle.m51_text.specs.Text.{IsAllowed, file_lines};
ghost use Rattle.m51_text.specs.Reading.{state_of, state_of_lines, inserted};

use crate::inclusion::{Inclusion, bytes_at};
use crate::reading::{TextPlace, TextReading};
use m51_cells::{NoMemory, first_line};
use m51_module::SourceFile;
use std::alloc::Global;

/// Reads the lines of a file, each followed by those that it includes. `levels` levels of includes are allowed below
/// them. After 65,536 lines no more are read.
///
/// Error: out of memory.
#[cycle(inserting)]
pub(crate) fn read_file(
    alloc: Global,
    includes: &[SourceFile],
    levels: u8,
    file: u16,
    bytes: &[u8],
    reading: &mut TextReading,
) -> Result<(), NoMemory>
    requires { length includes.now ≤ 65535 }
    ensures state { OnOk result (state_of reading.new
        ≡ state_of_lines includes.now (state_of reading.old) (file_lines includes.now levels file bytes.now)) }
    ensures grows { OnOk result (line_count reading.old.read ≤ line_count reading.new.read) }
{
    let mut rest = bytes;
    let mut line = 1;
    while let Some((text, after)) = first_line(rest) {
        if reading.is_full() {
            return Ok(());
        }
        let place = TextPlace { file, line, levels };
        let inclusion = reading.read_line(alloc, includes, place, text)?;
        insert(alloc, includes, levels, inclusion, reading)?;
        line += 1;
        rest = after;
    }
    Ok(())
}

// Reads the lines of the include that a line names, if `levels` levels of includes are allowed below the line.
#[cycle(inserting)]
#[tactic(auto, using(crate::proofs::WholeText::after_last))]
fn insert(
    alloc: Global,
    includes: &[SourceFile],
    levels: u8,
    inclusion: Inclusion,
    reading: &mut TextReading,
) -> Result<(), NoMemory>
    requires few { length includes.now ≤ 65535 }
    requires allowed { IsAllowed (length includes.now) levels inclusion }
    ensures state { OnOk result (state_of reading.new
        ≡ state_of_lines includes.now (state_of reading.old) (inserted includes.now levels inclusion)) }
    ensures grows { OnOk result (line_count reading.old.read ≤ line_count reading.new.read) }
{
    match inclusion {
        Inclusion::Given(index) => {
            let bytes = bytes_at(includes, index);
            read_file(
                alloc,
                includes,
                levels - 1,
                index as u16 + 1,
                bytes,
                reading,
            )
        }
        Inclusion::Nothing | Inclusion::Refused => Ok(()),
    }
}
