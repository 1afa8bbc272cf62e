//! Flags, eight to a byte.
ghost use Rattle.std.specs.Prelude.{◌≡◌, ◌≢◌, ◌+◌, ◌*◌, ◌≤◌, ◌<◌, ℕ, true, false, length, IfOk, slice_index};
ghost use Rattle.std.specs.Prelude.{slice_index_or};
ghost use Rattle.std.specs.Int.{bit_at};
ghost use Rattle.m51_monitor.specs.Masks.{flag_at};
ghost use Rattle.m51_monitor.specs.Rows.{AreSet};

use m51_cells::NoMemory;
use std::alloc::Global;
use std::marker::Model;

/// A row of flags, eight to a byte, the lowest bit's first.
#[derive(Drop)]
pub(crate) struct Flags {
    bytes: Vec<u8>,
}

impl Model for Flags {
    ghost use Rattle.std.specs.Prelude.{List, Bool};
    ghost use Rattle.m51_monitor.specs.Masks as masks;

    ghost Value = { List Bool };

    ghost view = { λ b. masks.flags_in b.bytes.items };
}

// A byte whose flags are all set so.
#[tactic(auto, using(crate::proofs::Marks::full, crate::proofs::Marks::empty))]
fn whole_byte(value: bool) -> u8
    ensures { (k : ℕ) → k < 8 → flag_at result k ≡ value }
{
    if value { 0xFF } else { 0 }
}

// A byte with this flag set so.
fn with_flag(byte: u8, index: u8, value: bool) -> u8
    requires { index < 8 }
    ensures here { flag_at result index ≡ value }
    ensures others { (k : ℕ) → k < 8 → k ≢ index → bit_at result k ≡ bit_at byte k }
{
    if value {
        byte | 1 << index
    } else {
        byte & !(1 << index)
    }
}

// A list of this number of equal bytes.
fn bytes(alloc: Global, byte: u8, count: usize) -> Result<Vec<u8>, NoMemory>
    ensures len { IfOk result (λ bytes. length bytes.items ≡ count) }
    ensures each { IfOk result (λ bytes. (n : ℕ) → n < count → slice_index bytes.items n ≡ byte) }
{
    Ok(vec![in alloc; byte; count]?)
}

// Replaces the bytes from an index to another.
#[tactic(auto, using(std::proofs::lemmas::List::places))]
#[inline(always)]
fn fill_bytes(bytes: &mut Vec<u8>, from: usize, to: usize, byte: u8)
    requires order { from ≤ to }
    requires inside { to ≤ length bytes.old.items }
    ensures len { length bytes.new.items ≡ length bytes.old.items }
    ensures inside { (n : ℕ) → from ≤ n → n < to → slice_index bytes.new.items n ≡ byte }
    ensures below { (n : ℕ) → n < from → slice_index bytes.new.items n ≡ slice_index bytes.old.items n }
    ensures above { (n : ℕ) → to ≤ n → slice_index bytes.new.items n ≡ slice_index bytes.old.items n }
{
    bytes[from..to].fill(byte);
}

impl Flags {
    /// The flags of this number of bytes, all of them set so.
    pub(crate) fn filled(alloc: Global, value: bool, count: usize) -> Result<Flags, NoMemory>
        ensures len { IfOk result (λ bits. length bits ≡ 8 * count) }
        ensures each { IfOk result (λ bits. (n : ℕ) → n < 8 * count → slice_index_or bits n false ≡ value) }
    {
        let bytes = bytes(alloc, whole_byte(value), count)?;
        Ok(Flags { bytes })
    }

    /// The flag at this index.
    #[tactic(auto, using(crate::proofs::Marks::byte_inside))]
    pub(crate) fn get(&self, index: usize) -> bool
        requires { index < length self.now }
        ensures { result ≡ slice_index_or self.now index false }
    {
        self.bytes[index / 8] >> (index % 8) & 1 == 1
    }

    /// Whether all flags of this byte are set.
    #[tactic(auto, using(crate::proofs::Marks::length_flags))]
    pub(crate) fn are_set(&self, byte: usize) -> bool
        requires { 8 * byte < length self.now }
        ensures { result ≡ true → (n : ℕ) → 8 * byte ≤ n → n < 8 * byte + 8 → slice_index_or self.now n false ≡ true }
    {
        self.bytes[byte] == 0xFF
    }

    /// Sets one flag.
    #[tactic(auto, using(crate::proofs::Marks::byte_inside))]
    #[inline(always)]
    pub(crate) fn set(&mut self, index: usize, value: bool)
        requires { index < length self.old }
        ensures { AreSet index (index + 1) value self.old self.new }
    {
        let byte = self.bytes[index / 8];
        self.bytes[index / 8] = with_flag(byte, (index % 8) as u8, value);
    }

    // Sets flags one by one.
    #[tactic(auto, using(crate::proofs::Marks::none_set, crate::proofs::Marks::then_set))]
    fn set_each(&mut self, from: usize, to: usize, value: bool)
        requires order { from ≤ to }
        requires inside { to ≤ length self.old }
        ensures { AreSet from to value self.old self.new }
    {
        for index in from..to {
            self.set(index, value);
        }
    }

    // Sets the flags of whole bytes.
    #[inline(always)]
    fn set_bytes(&mut self, from: usize, to: usize, value: bool)
        requires order { from ≤ to }
        requires inside { 8 * to ≤ length self.old }
        ensures { AreSet (8 * from) (8 * to) value self.old self.new }
    {
        fill_bytes(&mut self.bytes, from, to, whole_byte(value));
    }

    /// Sets the flags of one byte.
    #[inline(always)]
    pub(crate) fn set_byte(&mut self, byte: usize)
        requires small { byte < 256 }
        requires inside { 8 * byte + 8 ≤ length self.old }
        ensures { AreSet (8 * byte) (8 * byte + 8) true self.old self.new }
    {
        self.set_bytes(byte, byte + 1, true);
    }

    /// Sets the flags from one index to another.
    pub(crate) fn set_row(&mut self, from: usize, to: usize, value: bool)
        requires order { from ≤ to }
        requires inside { to ≤ length self.old }
        ensures { AreSet from to value self.old self.new }
    {
        let first = from.div_ceil(8);
        let last = to / 8;
        if first >= last {
            self.set_each(from, to, value);
            return;
        }
        self.set_each(from, 8 * first, value);
        self.set_bytes(first, last, value);
        self.set_each(8 * last, to, value);
    }
}
