//! Internal RAM as it is shown: a byte has a value, was not written since it became live, or is of no live segment.
ghost use Rattle.std.specs.Prelude.{◌≡◌, ◌≤◌, ◌<◌, ◌+◌, ◌*◌, ◌++◌, ℕ, length, take, OnOk, OnErr, slice_index};
ghost use Rattle.std.specs.Io.KnownBytes.{Appends};
ghost use Rattle.m51_cells.specs.Outside.{AppendsFront, HasCause};
ghost use Rattle.m51_flat.specs.States.{bit_seen};
ghost use Rattle.m51_monitor.specs.Shared.{shared_cells};
ghost use Rattle.m51_steps.specs.Ram.{bit_code, bits_code, blank_code, byte_code, change_text, changes_text};
ghost use Rattle.m51_steps.specs.Ram.{four_code};
ghost use Rattle.m51_steps.specs.Listing.{mark_after};

use crate::showing::put_code;
use crate::writing::write_marked;
use m51_flat::{CellStore, Seen};
use m51_monitor::SharedRam;
use m51_print::{put, put_hex2};
use m51_shelf::{Failed, Sink};

/// Nothing was shown of a byte.
pub(crate) const NOTHING: u32 = 65_794;

/// What is shown of a byte that is unset.
pub(crate) const UNSET: u32 = 256;

/// What is shown of a byte that is outside.
pub(crate) const OUTSIDE: u32 = 257;

/// What is shown of the first byte of which the bits are shown: all of them hold 0.
pub(crate) const BITS: u32 = 258;

// What is shown of a bit: its value, 2 where it is unset, 3 where it is outside.
fn bit_code(store: &SharedRam, address: u8) -> u32
    requires { address < 128 }
    ensures code { result ≡ bit_code (bit_seen (shared_cells store.now) (256 + address)) }
    ensures bound { result ≤ 3 }
{
    match store.bit(address) {
        Seen::Value(value) => if value == 0 { 0 } else { 1 },
        Seen::Unset(_) => 2,
        Seen::Outside(_) => 3,
    }
}

// What is shown of four bits, of which the lowest has this address.
#[tactic(auto, unfolding(crate::specs::Ram::four_code))]
fn four_code(store: &SharedRam, first: u8) -> u32
    requires { first + 4 ≤ 128 }
    ensures code { result ≡ four_code (shared_cells store.now) first }
    ensures bound { result ≤ 255 }
{
    let two = 4 * bit_code(store, first + 3) + bit_code(store, first + 2);
    4 * (4 * two + bit_code(store, first + 1)) + bit_code(store, first)
}

// What is shown of the bits of a byte, of which bit 0 has this address.
#[tactic(auto, unfolding(crate::specs::Ram::bits_code))]
fn bits_code(store: &SharedRam, first: u8) -> u32
    requires { first + 8 ≤ 128 }
    ensures code { result ≡ bits_code (shared_cells store.now) first }
    ensures bound { result ≤ 65535 }
{
    256 * four_code(store, first + 4) + four_code(store, first)
}

// What is shown of a byte without a value: of one whose bits have addresses it is what is shown of each of them.
fn blank_code(store: &SharedRam, address: u8, whole: u32) -> u32
    requires { whole < 65794 }
    ensures code { result ≡ blank_code (shared_cells store.now) address whole }
    ensures bound { result < 65794 }
{
    if address < 0x20 {
        whole
    } else if 0x2F < address {
        whole
    } else {
        BITS + bits_code(store, 8 * (address - 0x20))
    }
}

// What is shown of a byte.
fn byte_code(store: &SharedRam, address: u8) -> u32
    ensures code { result ≡ byte_code (shared_cells store.now) address }
    ensures bound { result < 65794 }
{
    match store.byte(address) {
        Seen::Value(value) => u32::from(value),
        Seen::Unset(_) => blank_code(store, address, UNSET),
        Seen::Outside(_) => blank_code(store, address, OUTSIDE),
    }
}

// What is shown of each byte.
fn byte_codes(store: &SharedRam) -> [u32; 256]
    ensures codes { (a : ℕ) → a < 256 → slice_index result a ≡ byte_code (shared_cells store.now) a }
{
    let mut now = [NOTHING; 256];
    for address in 0..256usize {
        now[address] = byte_code(store, address as u8);
    }
    now
}

// Puts a byte at the start of the array, if it is not as it was shown: its address and what it is now.
fn put_change(into: &mut [u8; 128], shown: &[u32; 256], now: &[u32; 256], address: u8) -> usize
    ensures bound { result ≤ 11 }
    ensures written { take result into.new ≡ change_text (slice_index shown.now) (slice_index now.now) address }
{
    let code = now[usize::from(address)];
    if code == shown[usize::from(address)] {
        return 0;
    }
    let at = put_hex2(into, 0, address);
    let at = put(into, at, b"=");
    put_code(into, at, code)
}

/// The mark of the next item: that of the first one, until there was an item.
pub(crate) fn mark_after<'a>(mark: &'a [u8], between: &'a [u8], item: &[u8]) -> &'a [u8]
    ensures { result.now ≡ mark_after mark.now between.now item.now }
{
    match item {
        [] => mark,
        [_, ..] => between,
    }
}

// Writes the bytes that are not as they were shown.
fn write_changes<S: Sink>(out: &mut S, shown: &[u32; 256], now: &[u32; 256]) -> Result<(), Failed>
    ensures whole { OnOk result (Appends (S.state out.old).text (S.state out.new).text
        (changes_text (slice_index shown.now) (slice_index now.now))) }
    ensures front { OnErr result (AppendsFront (S.state out.old).text (S.state out.new).text
        (changes_text (slice_index shown.now) (slice_index now.now))) }
    ensures cause { HasCause (S.state out.old).faults (S.state out.new).faults result }
{
    let mut mark: &[u8] = b"\t";
    for address in 0..256usize {
        let mut item = [0u8; 128];
        let len = put_change(&mut item, shown, now, address as u8);
        match write_marked(out, mark, &item[..len]) {
            Ok(()) => {}
            Err(Failed) => return Err(Failed),
        }
        mark = mark_after(mark, b" ", &item[..len]);
    }
    Ok(())
}

// Writes the bytes that are not as they were shown, and keeps what is shown now.
pub(crate) fn write_ram<S: Sink>(
    out: &mut S,
    store: &SharedRam,
    shown: &mut [u32; 256],
) -> Result<(), Failed>
    ensures whole { OnOk result (Appends (S.state out.old).text (S.state out.new).text
        (changes_text (slice_index shown.old) (byte_code (shared_cells store.now)))) }
    ensures front { OnErr result (AppendsFront (S.state out.old).text (S.state out.new).text
        (changes_text (slice_index shown.old) (byte_code (shared_cells store.now)))) }
    ensures codes { (a : ℕ) → a < 256 → slice_index shown.new a ≡ byte_code (shared_cells store.now) a }
    ensures cause { HasCause (S.state out.old).faults (S.state out.new).faults result }
{
    let now = byte_codes(store);
    let written = write_changes(out, shown, &now);
    *shown = now;
    written
}
