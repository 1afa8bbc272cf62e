//! The lines of the text of a party.
ghost use Rattle.std.specs.Prelude.{◌≡◌, ◌<◌, ◌≤◌, ◌++◌, All, codes, length, List, OnErr, OnOk, take};
ghost use Rattle.std.specs.Fmt.{decimal};
ghost use Rattle.std.specs.Io.KnownBytes.{Appends};
ghost use Rattle.m51_cells.specs.Outside.{AppendsFront, HasCause};
ghost use Rattle.m51_print.specs.Lines.{entry_line};
ghost use Rattle.m51_shelf.specs.Writing.{StopsWithin};
ghost use Rattle.m51_party.specs.Text.{front_of};
ghost use Rattle.m51_party.specs.Seats.{HasEventText, end_text, ends_text, entry_text, last_text, told_text};

use crate::seat::Seat;
use m51_cells::Entry;
use m51_print::{end_line, trace_line};
use m51_shelf::{Failed, Sink, write_whole};
use m51_sim::Told;

// Writes the first line: how many boards there are.
pub(crate) fn write_head<S: Sink>(out: &mut S, count: usize) -> Result<(), Failed>
    requires { count ≤ 8 }
    ensures whole { OnOk result (Appends (S.state out.old).text (S.state out.new).text
        (codes "PARTY " ++ decimal count ++ codes "\n")) }
    ensures front { OnErr result (AppendsFront (S.state out.old).text (S.state out.new).text
        (codes "PARTY " ++ decimal count ++ codes "\n")) }
    ensures cause { HasCause (S.state out.old).faults (S.state out.new).faults result }
{
    let line = [
        b'P',
        b'A',
        b'R',
        b'T',
        b'Y',
        b' ',
        b'0' + count as u8,
        b'\n',
    ];
    write_whole(out, &line)
}

// Writes the number of a board, a colon and a blank.
fn write_front<S: Sink>(out: &mut S, index: usize) -> Result<(), Failed>
    requires { index < 8 }
    ensures whole { OnOk result (Appends (S.state out.old).text (S.state out.new).text (front_of index)) }
    ensures front { OnErr result (AppendsFront (S.state out.old).text (S.state out.new).text (front_of index)) }
    ensures cause { HasCause (S.state out.old).faults (S.state out.new).faults result }
{
    let front = [b'1' + index as u8, b':', b' '];
    write_whole(out, &front)
}

// Writes the line of an entry.
fn write_line<S: Sink>(out: &mut S, entry: &Entry) -> Result<(), Failed>
    ensures whole { OnOk result (Appends (S.state out.old).text (S.state out.new).text (entry_line entry.now)) }
    ensures short { OnErr result (StopsWithin (S.state out.old).text (S.state out.new).text (entry_line entry.now)) }
    ensures cause { HasCause (S.state out.old).faults (S.state out.new).faults result }
{
    let mut line = [0u8; 128];
    let len = trace_line(entry, &mut line);
    write_whole(out, &line[..len])
}

// Writes the line of an entry of a board.
fn write_numbered<S: Sink>(out: &mut S, index: usize, entry: &Entry) -> Result<(), Failed>
    requires { index < 8 }
    ensures whole { OnOk result
        (Appends (S.state out.old).text (S.state out.new).text (front_of index ++ entry_line entry.now)) }
    ensures front { OnErr result
        (AppendsFront (S.state out.old).text (S.state out.new).text (front_of index ++ entry_line entry.now)) }
    ensures cause { HasCause (S.state out.old).faults (S.state out.new).faults result }
{
    write_front(out, index)?;
    write_line(out, entry)
}

// Writes it, if there is one.
fn write_entry<S: Sink>(out: &mut S, index: usize, entry: Option<Entry>) -> Result<(), Failed>
    requires { index < 8 }
    ensures whole { OnOk result (Appends (S.state out.old).text (S.state out.new).text (entry_text index entry)) }
    ensures front { OnErr result
        (AppendsFront (S.state out.old).text (S.state out.new).text (entry_text index entry)) }
    ensures cause { HasCause (S.state out.old).faults (S.state out.new).faults result }
{
    match entry {
        None => Ok(()),
        Some(entry) => write_numbered(out, index, &entry),
    }
}

// Writes the lines of what a step reports.
pub(crate) fn write_told<S: Sink>(out: &mut S, index: usize, told: &Told) -> Result<(), Failed>
    requires { index < 8 }
    ensures whole { OnOk result (Appends (S.state out.old).text (S.state out.new).text (told_text index told.now)) }
    ensures front { OnErr result
        (AppendsFront (S.state out.old).text (S.state out.new).text (told_text index told.now)) }
    ensures cause { HasCause (S.state out.old).faults (S.state out.new).faults result }
{
    write_entry(out, index, told.port)?;
    write_entry(out, index, told.sent)
}

// Puts the last line of a board, without its number, at the beginning of the bytes, and answers how long it is.
fn put_last(seat: &Seat, into: &mut [u8; 128]) -> usize
    requires { HasEventText seat.now }
    ensures bound { result ≤ 128 }
    ensures line { take result into.new ≡ last_text seat.now }
{
    end_line(
        seat.event.as_ref(),
        seat.board.layout().placed(),
        seat.steps,
        seat.board.cycle(),
        into,
    )
}

// Writes the last line of a board without its number.
fn write_last<S: Sink>(out: &mut S, seat: &Seat) -> Result<(), Failed>
    requires { HasEventText seat.now }
    ensures whole { OnOk result (Appends (S.state out.old).text (S.state out.new).text (last_text seat.now)) }
    ensures short { OnErr result (StopsWithin (S.state out.old).text (S.state out.new).text (last_text seat.now)) }
    ensures cause { HasCause (S.state out.old).faults (S.state out.new).faults result }
{
    let mut line = [0u8; 128];
    let len = put_last(seat, &mut line);
    write_whole(out, &line[..len])
}

// Writes the last line of a board.
fn write_end<S: Sink>(out: &mut S, index: usize, seat: &Seat) -> Result<(), Failed>
    requires index { index < 8 }
    requires text { HasEventText seat.now }
    ensures whole { OnOk result (Appends (S.state out.old).text (S.state out.new).text (end_text index seat.now)) }
    ensures front { OnErr result
        (AppendsFront (S.state out.old).text (S.state out.new).text (end_text index seat.now)) }
    ensures cause { HasCause (S.state out.old).faults (S.state out.new).faults result }
{
    write_front(out, index)?;
    write_last(out, seat)
}

// Writes the last line of each board.
pub(crate) fn write_ends<S: Sink>(out: &mut S, seats: &[Seat]) -> Result<(), Failed>
    requires few { length seats.now ≤ 8 }
    requires texts { All HasEventText seats.now }
    ensures whole { OnOk result (Appends (S.state out.old).text (S.state out.new).text (ends_text 0 seats.now)) }
    ensures front { OnErr result
        (AppendsFront (S.state out.old).text (S.state out.new).text (ends_text 0 seats.now)) }
    ensures cause { HasCause (S.state out.old).faults (S.state out.new).faults result }
{
    for index in 0..seats.len() {
        write_end(out, index, &seats[index])?;
    }
    Ok(())
}
