//! The text of what is shown of a byte of internal RAM.
ghost use Rattle.std.specs.Prelude.{◌≡◌, ◌≤◌, ◌+◌, ◌++◌, take};
ghost use Rattle.m51_steps.specs.Ram.{bit_text, bits_text, blank_text, code_text, four_text, partial_text};

use crate::ram::{BITS, OUTSIDE, UNSET};
use m51_print::{put, put_hex2};

// What is shown of eight bits that are unset, and of eight that are outside.
const ALL_UNSET: u32 = 43_948;

const ALL_OUTSIDE: u32 = 65_793;

// Puts the character of a bit.
fn put_bit(into: &mut [u8; 128], at: usize, code: u32) -> usize
    requires { at + 1 ≤ 128 }
    ensures end { result ≡ at + 1 }
    ensures written { take result into.new ≡ take at into.old ++ bit_text code }
{
    if code == 0 {
        put(into, at, b"0")
    } else if code == 1 {
        put(into, at, b"1")
    } else if code == 2 {
        put(into, at, b"?")
    } else {
        put(into, at, b"-")
    }
}

// Puts the characters of four bits, the highest first.
#[tactic(auto, unfolding(crate::specs::Ram::four_text))]
fn put_four(into: &mut [u8; 128], at: usize, bits: u32) -> usize
    requires { at + 4 ≤ 128 }
    ensures end { result ≡ at + 4 }
    ensures written { take result into.new ≡ take at into.old ++ four_text bits }
{
    let at = put_bit(into, at, bits / 64 % 4);
    let at = put_bit(into, at, bits / 16 % 4);
    let at = put_bit(into, at, bits / 4 % 4);
    put_bit(into, at, bits % 4)
}

// Puts the characters of the bits of a byte, bit 7 first.
#[tactic(auto, unfolding(crate::specs::Ram::bits_text))]
fn put_bits(into: &mut [u8; 128], at: usize, bits: u32) -> usize
    requires { at + 8 ≤ 128 }
    ensures end { result ≡ at + 8 }
    ensures written { take result into.new ≡ take at into.old ++ bits_text bits }
{
    let at = put_four(into, at, bits / 256);
    put_four(into, at, bits % 256)
}

// Puts a byte without a value, of which the bits are looked at.
#[tactic(auto, unfolding(crate::specs::Ram::partial_text))]
fn put_partial(into: &mut [u8; 128], at: usize, code: u32) -> usize
    requires room { at + 8 ≤ 128 }
    requires partial { 258 ≤ code }
    ensures bound { result ≤ at + 8 }
    ensures written { take result into.new ≡ take at into.old ++ partial_text code }
{
    if code == ALL_UNSET {
        put(into, at, b"?")
    } else if code == ALL_OUTSIDE {
        put(into, at, b"-")
    } else {
        put_bits(into, at, code - BITS)
    }
}

// Puts a byte without a value.
#[tactic(auto, unfolding(crate::specs::Ram::blank_text))]
fn put_blank(into: &mut [u8; 128], at: usize, code: u32) -> usize
    requires room { at + 8 ≤ 128 }
    requires blank { 256 ≤ code }
    ensures bound { result ≤ at + 8 }
    ensures written { take result into.new ≡ take at into.old ++ blank_text code }
{
    if code == UNSET {
        put(into, at, b"?")
    } else if code == OUTSIDE {
        put(into, at, b"-")
    } else {
        put_partial(into, at, code)
    }
}

// Puts what is shown of a byte.
#[tactic(auto, unfolding(crate::specs::Ram::code_text))]
pub(crate) fn put_code(into: &mut [u8; 128], at: usize, code: u32) -> usize
    requires { at + 8 ≤ 128 }
    ensures bound { result ≤ at + 8 }
    ensures written { take result into.new ≡ take at into.old ++ code_text code }
{
    if code < UNSET {
        put_hex2(into, at, code as u8)
    } else {
        put_blank(into, at, code)
    }
}
