//! The lines that a generated program's run ends in.
ghost use Rattle.std.specs.Prelude.{◌≡◌, ◌++◌, OnOk, IfOk, length};
ghost use Rattle.std.specs.Option.{ForSome};
ghost use Rattle.m51_print.specs.Lines.{HasText};
ghost use Rattle.m51_print.specs.Summary.{units_line, sizes_line, entries_line, tally_line, summary_of};

use crate::end_line;
use crate::pushing::{push_decimal, push_text};
use m51_cells::NoMemory;
use m51_module::{Layout, Placed, Tally};
use std::alloc::Global;

// Appends how many units there are.
fn push_unit_count(text: &mut Vec<u8>, units: u16) -> Result<(), NoMemory>
    ensures { OnOk result (text.new.items ≡ text.old.items ++ units_line units) }
{
    push_text(text, b"UNITS ")?;
    push_decimal(text, u64::from(units))?;
    push_text(text, b"\n")
}

// Appends the bytes that overlaid segments cover, and their sizes added up.
fn push_sizes(text: &mut Vec<u8>, overlaid: u32, sizes: u32) -> Result<(), NoMemory>
    ensures { OnOk result (text.new.items ≡ text.old.items ++ sizes_line overlaid sizes) }
{
    push_text(text, b"OVERLAID ")?;
    push_decimal(text, u64::from(overlaid))?;
    push_text(text, b" OF ")?;
    push_decimal(text, u64::from(sizes))?;
    push_text(text, b" BYTES\n")
}

// Appends how many entries the run has.
fn push_entries(text: &mut Vec<u8>, entries: u64) -> Result<(), NoMemory>
    ensures { OnOk result (text.new.items ≡ text.old.items ++ entries_line entries) }
{
    push_text(text, b"ENTRIES ")?;
    push_decimal(text, entries)?;
    push_text(text, b"\n")
}

// Appends the last line of the run.
fn push_last(text: &mut Vec<u8>, tally: &Tally, placed: &[Placed]) -> Result<(), NoMemory>
    requires { ForSome tally.now.event (HasText (length placed.now)) }
    ensures { OnOk result (text.new.items ≡ text.old.items ++ tally_line placed.now tally.now) }
{
    let mut line = [0; 128];
    let len = end_line(
        tally.event.as_ref(),
        placed,
        tally.steps,
        tally.cycle,
        &mut line,
    );
    push_text(text, &line[..len])
}

/// The summary of a run, four lines: the number of units, how many bytes overlaid segments of DATA cover and the
/// sizes of all overlaid segments added up, all three as given; how many entries the run has, and its last line. The
/// segment of an event is one of the placed extents of the layout, and its cell one of internal RAM or of external
/// data memory.
/// Error: out of memory.
///
/// Source: own choice ("Texts").
#[tactic(auto, unfolding(crate::specs::Summary::summary_of))]
pub fn summary_text(
    alloc: Global,
    units: u16,
    overlaid: u32,
    sizes: u32,
    tally: &Tally,
    layout: &Layout,
) -> Result<Vec<u8>, NoMemory>
    requires { ForSome tally.now.event (HasText (length layout.now.placed)) }
    ensures { IfOk result (λ text. text.items ≡ summary_of units overlaid sizes tally.now layout.now.placed) }
{
    let mut text = Vec::new(alloc);
    push_unit_count(&mut text, units)?;
    push_sizes(&mut text, overlaid, sizes)?;
    push_entries(&mut text, tally.entries)?;
    push_last(&mut text, tally, layout.placed())?;
    Ok(text)
}
