//! The lines of a trace: one for each entry, and the last one.
ghost use Rattle.std.specs.Prelude.{◌≡◌, ◌≤◌, ◌+◌, ◌++◌, ◌<◌, length, take, option_copied};
ghost use Rattle.std.specs.Option.{ForSome};
ghost use Rattle.m51_cells.specs.Cells.{IsDataCell};
ghost use Rattle.m51_print.specs.Lines.{entry_line, why_text, cell_text, titles_of, numbered_title, event_text};
ghost use Rattle.m51_print.specs.Lines.{HasText};
ghost use Rattle.m51_print.specs.Lines.{counts_text, last_line};

use crate::putting::{put, put_decimal, put_digit, put_hex2, put_hex4};
use m51_cells::{Cell, Entry, Event, Space, Why};
use m51_module::Placed;

/// Formats the line of an entry at the start of the array, and returns its length, line feed included.
///
/// Source: own choice ("Texts").
pub fn trace_line(entry: &Entry, into: &mut [u8; 128]) -> usize
    ensures bound { result ≤ 128 }
    ensures line { take result into.new ≡ entry_line entry.now }
{
    match *entry {
        Entry::Port { cycle, port, value } => {
            let at = put_decimal(into, 0, cycle);
            let at = put(into, at, b" P");
            let at = put_decimal(into, at, u64::from(port));
            let at = put(into, at, b" ");
            let at = put_hex2(into, at, value);
            put(into, at, b"\n")
        }
        Entry::Sent { cycle, byte, ninth } => {
            let at = put_decimal(into, 0, cycle);
            let at = put(into, at, b" TX ");
            let at = put_hex2(into, at, byte);
            let at = match ninth {
                None => at,
                Some(false) => put(into, at, b" 0"),
                Some(true) => put(into, at, b" 1"),
            };
            put(into, at, b"\n")
        }
    }
}

// The words of a reason, in capitals.
fn why_text(why: Why) -> &'static [u8]
    ensures words { result.now ≡ why_text why }
    ensures bound { length result.now ≤ 12 }
{
    match why {
        Why::NoUnit => b"NOUNIT",
        Why::NoEdge => b"NOEDGE",
        Why::NotCalled => b"NOTCALLED",
        Why::WrongAddress => b"WRONGADDRESS",
        Why::SpMoved => b"SPMOVED",
        Why::SpBelow => b"SPBELOW",
        Why::NoHandler => b"NOHANDLER",
        Why::RootBusy => b"ROOTBUSY",
        Why::PastEnd => b"PASTEND",
    }
}

// Puts a cell of internal RAM or of external data memory.
fn put_cell(into: &mut [u8; 128], at: usize, cell: Cell) -> usize
    requires room { at + 6 ≤ 128 }
    requires cell { IsDataCell cell }
    ensures bound { result ≤ at + 6 }
    ensures written { take result into.new ≡ take at into.old ++ cell_text cell.space cell.at }
{
    match cell.space {
        Space::Ram => {
            let at = put(into, at, b"D:");
            let at = put_hex2(into, at, (cell.at / 8) as u8);
            let at = put(into, at, b".");
            put_digit(into, at, (cell.at % 8) as u8)
        }
        Space::Xram => {
            let at = put(into, at, b"X:");
            put_hex4(into, at, cell.at as u16)
        }
        Space::Code => unreachable!(),
    }
}

// The title of a placed extent.
#[tactic(auto, using(crate::proofs::PlacedTitles::title_at))]
fn numbered_title(placed: &[Placed], segment: u16) -> &[u8]
    requires { segment < length placed.now }
    ensures title { result.now ≡ numbered_title (titles_of placed.now) segment }
    ensures bound { length result.now ≤ 31 }
{
    placed[usize::from(segment)].title.bytes()
}

// Formats an event at the start of the line, and returns its length.
fn put_event(into: &mut [u8; 128], event: &Event, placed: &[Placed]) -> usize
    requires { HasText (length placed.now) event.now }
    ensures bound { result ≤ 60 }
    ensures written { take result into.new ≡ event_text (titles_of placed.now) event.now }
{
    match *event {
        Event::Transfer { why, from, to } => {
            let at = put(into, 0, b"EVENT V1 ");
            let at = put(into, at, why_text(why));
            let at = put(into, at, b" FROM ");
            let at = put_hex4(into, at, from);
            let at = put(into, at, b" TO ");
            put_hex4(into, at, to)
        }
        Event::Outside { cell, at: pc } => {
            let at = put(into, 0, b"EVENT V2 ");
            let at = put_cell(into, at, cell);
            let at = put(into, at, b" AT ");
            put_hex4(into, at, pc)
        }
        Event::Unwritten {
            cell,
            segment,
            at: pc,
        } => {
            let at = put(into, 0, b"EVENT V3 ");
            let at = put_cell(into, at, cell);
            let at = put(into, at, b" IN ");
            let at = put(into, at, numbered_title(placed, segment));
            let at = put(into, at, b" AT ");
            put_hex4(into, at, pc)
        }
        Event::Reserved { at: pc } => {
            let at = put(into, 0, b"EVENT V4 AT ");
            put_hex4(into, at, pc)
        }
        Event::PowerDown { at: pc } => {
            let at = put(into, 0, b"EVENT V5 AT ");
            put_hex4(into, at, pc)
        }
    }
}

// Puts the steps and the cycles, which end the last line.
fn put_counts(into: &mut [u8; 128], at: usize, steps: u32, cycles: u64) -> usize
    requires { at ≤ 70 }
    ensures bound { result ≤ 128 }
    ensures written { take result into.new ≡ take at into.old ++ counts_text steps cycles }
{
    let at = put_decimal(into, at, u64::from(steps));
    let at = put(into, at, b" STEPS ");
    let at = put_decimal(into, at, cycles);
    put(into, at, b" CYCLES\n")
}

/// Formats the last line of a trace at the start of the array, and returns its length, line feed included. The
/// segment of an event is one of the placed extents, and its cell one of internal RAM or of external data memory.
///
/// Source: own choice ("Texts").
pub fn end_line(
    event: Option<&Event>,
    placed: &[Placed],
    steps: u32,
    cycles: u64,
    into: &mut [u8; 128],
) -> usize
    requires { ForSome (option_copied event) (HasText (length placed.now)) }
    ensures bound { result ≤ 128 }
    ensures line { take result into.new ≡ last_line (titles_of placed.now) (option_copied event.entry) steps cycles }
{
    let at = match event {
        None => put(into, 0, b"END "),
        Some(event) => {
            let at = put_event(into, event, placed);
            put(into, at, b" AFTER ")
        }
    };
    put_counts(into, at, steps, cycles)
}
