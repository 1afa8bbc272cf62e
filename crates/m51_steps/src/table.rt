//! The table of counts.
ghost use Rattle.std.specs.Prelude.{◌≡◌, ◌≤◌, ◌<◌, ◌+◌, ◌++◌, codes, length, take, OnOk, OnErr};
ghost use Rattle.std.specs.Io.KnownBytes.{Appends};
ghost use Rattle.m51_cells.specs.Outside.{AppendsFront, HasCause};
ghost use Rattle.m51_steps.specs.Counts.{address_line, address_lines, count_text, idle_line, next_text, table_in};
ghost use Rattle.m51_steps.specs.Counts.{table_text, vector_line, vector_lines};

use crate::counting::Counts;
use crate::lines::{instr_at, put_instr};
use crate::writing::{write_front, write_marked};
use m51_isa::Instr;
use m51_print::{put, put_decimal, put_hex4};
use m51_shelf::{Failed, Sink};
use m51_sim::Board;

// Puts what was counted at a place.
fn put_count(into: &mut [u8; 128], at: usize, counts: &Counts, place: u32) -> usize
    requires room { at + 42 ≤ 128 }
    requires place { place < 65543 }
    ensures bound { result ≤ at + 42 }
    ensures written { take result into.new ≡ take at into.old ++ count_text (table_in counts.now) place }
{
    let at = put_decimal(into, at, u64::from(counts.times(place)));
    let at = put(into, at, b"\t");
    let at = put_decimal(into, at, counts.cycles(place));
    put(into, at, b"\t")
}

// Puts the instruction that begins at an address, if one does.
fn put_next(into: &mut [u8; 128], at: usize, next: Option<Instr>) -> usize
    requires { at + 15 ≤ 128 }
    ensures bound { result ≤ at + 15 }
    ensures written { take result into.new ≡ take at into.old ++ next_text next }
{
    match next {
        None => at,
        Some(instr) => put_instr(into, at, &instr),
    }
}

// Puts the line of an address at the start of the array, if a step began there.
#[tactic(auto, unfolding(crate::specs::Counts::address_line))]
fn put_address(into: &mut [u8; 128], image: &[u8], counts: &Counts, address: u16) -> usize
    requires { length image.now ≡ 65536 }
    ensures bound { result ≤ 128 }
    ensures written { take result into.new ≡ address_line image.now (table_in counts.now) address }
{
    if counts.times(u32::from(address)) == 0 {
        return 0;
    }
    let at = put_hex4(into, 0, address);
    let at = put(into, at, b"\t");
    let at = put_count(into, at, counts, u32::from(address));
    let at = put_next(into, at, instr_at(image, address));
    put(into, at, b"\n")
}

// Puts the line of a source at the start of the array, if its interrupt was taken.
#[tactic(auto, unfolding(crate::specs::Counts::vector_line))]
fn put_vector(into: &mut [u8; 128], counts: &Counts, source: u16) -> usize
    requires { source < 6 }
    ensures bound { result ≤ 128 }
    ensures written { take result into.new ≡ vector_line (table_in counts.now) source }
{
    let place = 65_536 + u32::from(source);
    if counts.times(place) == 0 {
        return 0;
    }
    let at = put(into, 0, b"VECTOR\t");
    let at = put_count(into, at, counts, place);
    let at = put(into, at, b"VECTOR ");
    let at = put_hex4(into, at, 3 + 8 * source);
    put(into, at, b"\n")
}

// Puts the line of the idle steps at the start of the array, if there were some.
#[tactic(auto, unfolding(crate::specs::Counts::idle_line))]
fn put_idle(into: &mut [u8; 128], counts: &Counts) -> usize
    ensures bound { result ≤ 128 }
    ensures written { take result into.new ≡ idle_line (table_in counts.now) }
{
    if counts.times(65_542) == 0 {
        return 0;
    }
    let at = put(into, 0, b"IDLE\t");
    let at = put_count(into, at, counts, 65_542);
    put(into, at, b"IDLE\n")
}

// Writes the lines of the first addresses.
fn write_addresses<S: Sink>(
    out: &mut S,
    image: &[u8],
    counts: &Counts,
    count: usize,
) -> Result<(), Failed>
    requires whole { length image.now ≡ 65536 }
    requires few { count ≤ 65536 }
    ensures whole { OnOk result (Appends (S.state out.old).text (S.state out.new).text
        (address_lines image.now (table_in counts.now) count)) }
    ensures front { OnErr result (AppendsFront (S.state out.old).text (S.state out.new).text
        (address_lines image.now (table_in counts.now) count)) }
    ensures cause { HasCause (S.state out.old).faults (S.state out.new).faults result }
{
    for address in 0..count {
        let mut line = [0u8; 128];
        let len = put_address(&mut line, image, counts, address as u16);
        match write_marked(out, &[], &line[..len]) {
            Ok(()) => {}
            Err(Failed) => return Err(Failed),
        }
    }
    Ok(())
}

// Writes the lines of the first sources.
fn write_vectors<S: Sink>(out: &mut S, counts: &Counts, count: usize) -> Result<(), Failed>
    requires few { count ≤ 6 }
    ensures whole { OnOk result (Appends (S.state out.old).text (S.state out.new).text
        (vector_lines (table_in counts.now) count)) }
    ensures front { OnErr result (AppendsFront (S.state out.old).text (S.state out.new).text
        (vector_lines (table_in counts.now) count)) }
    ensures cause { HasCause (S.state out.old).faults (S.state out.new).faults result }
{
    for source in 0..count {
        let mut line = [0u8; 128];
        let len = put_vector(&mut line, counts, source as u16);
        match write_marked(out, &[], &line[..len]) {
            Ok(()) => {}
            Err(Failed) => return Err(Failed),
        }
    }
    Ok(())
}

// Writes the line of the idle steps, if there were some.
fn write_idle<S: Sink>(out: &mut S, counts: &Counts) -> Result<(), Failed>
    ensures whole { OnOk result (Appends (S.state out.old).text (S.state out.new).text
        (idle_line (table_in counts.now))) }
    ensures front { OnErr result (AppendsFront (S.state out.old).text (S.state out.new).text
        (idle_line (table_in counts.now))) }
    ensures cause { HasCause (S.state out.old).faults (S.state out.new).faults result }
{
    let mut line = [0u8; 128];
    let len = put_idle(&mut line, counts);
    write_front(out, &line[..len])
}

// Writes the lines of the sources and that of the idle steps.
#[tactic(auto, using(crate::proofs::Pieces::pieces))]
fn write_others<S: Sink>(out: &mut S, counts: &Counts) -> Result<(), Failed>
    ensures whole { OnOk result (Appends (S.state out.old).text (S.state out.new).text
        (vector_lines (table_in counts.now) 6 ++ idle_line (table_in counts.now))) }
    ensures front { OnErr result (AppendsFront (S.state out.old).text (S.state out.new).text
        (vector_lines (table_in counts.now) 6 ++ idle_line (table_in counts.now))) }
    ensures cause { HasCause (S.state out.old).faults (S.state out.new).faults result }
{
    write_vectors(out, counts, 6)?;
    write_idle(out, counts)
}

// Writes the lines of the addresses, and then those.
#[tactic(auto, using(crate::proofs::Pieces::pieces))]
fn write_lines<S: Sink>(
    out: &mut S,
    image: &[u8],
    counts: &Counts,
    count: usize,
) -> Result<(), Failed>
    requires whole { length image.now ≡ 65536 }
    requires few { count ≤ 65536 }
    ensures whole { OnOk result (Appends (S.state out.old).text (S.state out.new).text
        (address_lines image.now (table_in counts.now) count
        ++ (vector_lines (table_in counts.now) 6 ++ idle_line (table_in counts.now)))) }
    ensures front { OnErr result (AppendsFront (S.state out.old).text (S.state out.new).text
        (address_lines image.now (table_in counts.now) count
        ++ (vector_lines (table_in counts.now) 6 ++ idle_line (table_in counts.now)))) }
    ensures cause { HasCause (S.state out.old).faults (S.state out.new).faults result }
{
    write_addresses(out, image, counts, count)?;
    write_others(out, counts)
}

// The titles of the columns.
fn titles() -> &'static [u8]
    ensures { result.now ≡ codes "PC\tTIMES\tCYCLES\tNEXT\n" }
{
    b"PC\tTIMES\tCYCLES\tNEXT\n"
}

// Writes titles, and then those.
#[tactic(auto, using(crate::proofs::Pieces::pieces))]
fn write_titled<S: Sink>(
    out: &mut S,
    titles: &[u8],
    image: &[u8],
    counts: &Counts,
    count: usize,
) -> Result<(), Failed>
    requires whole { length image.now ≡ 65536 }
    requires few { count ≤ 65536 }
    ensures whole { OnOk result (Appends (S.state out.old).text (S.state out.new).text
        (titles.now ++ (address_lines image.now (table_in counts.now) count
        ++ (vector_lines (table_in counts.now) 6 ++ idle_line (table_in counts.now))))) }
    ensures front { OnErr result (AppendsFront (S.state out.old).text (S.state out.new).text
        (titles.now ++ (address_lines image.now (table_in counts.now) count
        ++ (vector_lines (table_in counts.now) 6 ++ idle_line (table_in counts.now))))) }
    ensures cause { HasCause (S.state out.old).faults (S.state out.new).faults result }
{
    write_front(out, titles)?;
    write_lines(out, image, counts, count)
}

// Writes the table of an image.
fn write_table<S: Sink>(out: &mut S, image: &[u8], counts: &Counts) -> Result<(), Failed>
    requires { length image.now ≡ 65536 }
    ensures whole { OnOk result (Appends (S.state out.old).text (S.state out.new).text
        (table_text image.now (table_in counts.now))) }
    ensures front { OnErr result (AppendsFront (S.state out.old).text (S.state out.new).text
        (table_text image.now (table_in counts.now))) }
    ensures cause { HasCause (S.state out.old).faults (S.state out.new).faults result }
{
    write_titled(out, titles(), image, counts, 65_536)
}

/// Writes all counts that are not 0: those of addresses, then those of vectors, and then that of idle steps.
///
/// Failed: the sink has failed, and a prefix of the text is written.
///
/// Source: own choice ("The trace of a run").
pub fn write_counts<S: Sink>(out: &mut S, board: &Board, counts: &Counts) -> Result<(), Failed>
    ensures whole { OnOk result (Appends (S.state out.old).text (S.state out.new).text
        (table_text board.now.chip.image (table_in counts.now))) }
    ensures front { OnErr result (AppendsFront (S.state out.old).text (S.state out.new).text
        (table_text board.now.chip.image (table_in counts.now))) }
    ensures cause { HasCause (S.state out.old).faults (S.state out.new).faults result }
{
    write_table(out, board.bytes(), counts)
}
