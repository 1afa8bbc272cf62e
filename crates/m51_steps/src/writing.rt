//! What is written: the lines that `build` writes too, and parts of lines.
ghost use Rattle.std.specs.Prelude.{◌≡◌, ◌≤◌, ◌++◌, length, OnOk, OnErr, flat_map, option_copied, option_to_list};
ghost use Rattle.std.specs.Option.{ForSome};
ghost use Rattle.std.specs.Io.KnownBytes.{Appends};
ghost use Rattle.m51_cells.specs.Outside.{AppendsFront, HasCause};
ghost use Rattle.m51_print.specs.Lines.{HasText, entry_line, last_line, titles_of};
ghost use Rattle.m51_steps.specs.Noted.{told_lines};
ghost use Rattle.m51_steps.specs.Listing.{marked};

use m51_cells::{Entry, Event};
use m51_module::Placed;
use m51_print::{end_line, trace_line};
use m51_shelf::{Failed, Sink, write_whole};
use m51_sim::Told;

// Writes all of the bytes; where it fails, a prefix is written.
pub(crate) fn write_front<S: Sink>(out: &mut S, bytes: &[u8]) -> Result<(), Failed>
    ensures whole { OnOk result (Appends (S.state out.old).text (S.state out.new).text bytes.now) }
    ensures front { OnErr result (AppendsFront (S.state out.old).text (S.state out.new).text bytes.now) }
    ensures cause { HasCause (S.state out.old).faults (S.state out.new).faults result }
{
    write_whole(out, bytes)
}

// Writes both; where it fails, a prefix of the two is written.
#[tactic(auto, using(crate::proofs::Pieces::pieces))]
pub(crate) fn write_both<S: Sink>(out: &mut S, first: &[u8], second: &[u8]) -> Result<(), Failed>
    ensures whole { OnOk result (Appends (S.state out.old).text (S.state out.new).text (first.now ++ second.now)) }
    ensures front { OnErr result
        (AppendsFront (S.state out.old).text (S.state out.new).text (first.now ++ second.now)) }
    ensures cause { HasCause (S.state out.old).faults (S.state out.new).faults result }
{
    write_front(out, first)?;
    write_front(out, second)
}

// Writes an item after its mark, if it is not empty.
pub(crate) fn write_marked<S: Sink>(out: &mut S, mark: &[u8], item: &[u8]) -> Result<(), Failed>
    ensures whole { OnOk result (Appends (S.state out.old).text (S.state out.new).text (marked mark.now item.now)) }
    ensures front { OnErr result
        (AppendsFront (S.state out.old).text (S.state out.new).text (marked mark.now item.now)) }
    ensures cause { HasCause (S.state out.old).faults (S.state out.new).faults result }
{
    match item {
        [] => Ok(()),
        [_, ..] => write_both(out, mark, item),
    }
}

// Writes the line of an entry, if there is one.
fn write_entry<S: Sink>(out: &mut S, entry: Option<Entry>) -> Result<(), Failed>
    ensures whole { OnOk result
        (Appends (S.state out.old).text (S.state out.new).text (flat_map entry_line (option_to_list entry))) }
    ensures front { OnErr result
        (AppendsFront (S.state out.old).text (S.state out.new).text (flat_map entry_line (option_to_list entry))) }
    ensures cause { HasCause (S.state out.old).faults (S.state out.new).faults result }
{
    match entry {
        None => Ok(()),
        Some(entry) => write_line(out, &entry),
    }
}

// Writes the line of an entry.
fn write_line<S: Sink>(out: &mut S, entry: &Entry) -> Result<(), Failed>
    ensures whole { OnOk result (Appends (S.state out.old).text (S.state out.new).text (entry_line entry.now)) }
    ensures front { OnErr result (AppendsFront (S.state out.old).text (S.state out.new).text (entry_line entry.now)) }
    ensures cause { HasCause (S.state out.old).faults (S.state out.new).faults result }
{
    let mut line = [0u8; 128];
    let len = trace_line(entry, &mut line);
    write_front(out, &line[..len])
}

// Writes the lines of what a step reports.
#[tactic(auto, using(crate::proofs::Pieces::lines))]
pub(crate) fn write_told<S: Sink>(out: &mut S, told: &Told) -> Result<(), Failed>
    ensures whole { OnOk result (Appends (S.state out.old).text (S.state out.new).text
        (told_lines told.now.port told.now.sent)) }
    ensures front { OnErr result (AppendsFront (S.state out.old).text (S.state out.new).text
        (told_lines told.now.port told.now.sent)) }
    ensures cause { HasCause (S.state out.old).faults (S.state out.new).faults result }
{
    write_entry(out, told.port)?;
    write_entry(out, told.sent)
}

// Writes the last line.
pub(crate) fn write_end<S: Sink>(
    out: &mut S,
    event: Option<&Event>,
    placed: &[Placed],
    steps: u32,
    cycle: u64,
) -> Result<(), Failed>
    requires { ForSome (option_copied event) (HasText (length placed.now)) }
    ensures whole { OnOk result (Appends (S.state out.old).text (S.state out.new).text
        (last_line (titles_of placed.now) (option_copied event.entry) steps cycle)) }
    ensures front { OnErr result (AppendsFront (S.state out.old).text (S.state out.new).text
        (last_line (titles_of placed.now) (option_copied event.entry) steps cycle)) }
    ensures cause { HasCause (S.state out.old).faults (S.state out.new).faults result }
{
    let mut line = [0u8; 128];
    let len = end_line(event, placed, steps, cycle, &mut line);
    write_front(out, &line[..len])
}
