//! Rows of bits.
ghost use Rattle.std.specs.Prelude.{◌≡◌, ◌*◌, ◌<◌, ◌||◌, ℕ, IfOk, bit_or, length, nat_eq, replicate};
ghost use Rattle.m51_relations.specs.Bits.{bit};

use crate::indexing::item_or;
use m51_cells::NoMemory;
use std::alloc::Global;
use std::marker::Model;

/// A row of bits, 64 to a word, which contracts see as the list of its words.
///
/// Source: own choice ("Closed rows").
#[derive(Drop)]
pub struct BitRow {
    words: Vec<u64>,
}

impl Model for BitRow {
    ghost use Rattle.std.specs.Prelude.{List, ℕ};

    ghost Value = { List ℕ };

    ghost view = { λ r. r.words.items };
}

// Whether the bit of that number is set.
#[tactic(auto, using(crate::proofs::BitLaws::bit_tested))]
fn has_bit(words: &[u64], number: usize) -> bool
    ensures { result ≡ bit words.now number }
{
    item_or(words, number / 64, 0) >> (number % 64) & 1 == 1
}

// Sets the bit of that number.
fn put_bit(words: &mut [u64], number: usize)
    requires { number < 64 * length words.old }
    ensures { (v : ℕ) → bit words.new v ≡ (nat_eq v number || bit words.old v) }
{
    words[number / 64] |= 1 << (number % 64);
}

// Adds to each word the bits of the other.
fn join_words(words: &mut [u64], more: &[u64])
    requires { length words.old ≡ length more.now }
    ensures { (v : ℕ) → bit words.new v ≡ (bit words.old v || bit more.now v) }
{
    for (k, word) in words.iter_mut().enumerate() {
        *word |= more[k];
    }
}

impl BitRow {
    /// A row of `words` words, no bit of them set. Error: out of memory.
    ///
    /// Source: own choice ("Closed rows").
    pub fn blank(alloc: Global, words: usize) -> Result<BitRow, NoMemory>
        ensures { IfOk result (λ row. row ≡ replicate words 0) }
    {
        Ok(BitRow {
            words: vec![in alloc; 0; words]?,
        })
    }

    /// A row with the same bits. Error: out of memory.
    ///
    /// Source: own choice ("Closed rows").
    pub fn copy(&self, alloc: Global) -> Result<BitRow, NoMemory>
        ensures { IfOk result (λ row. row ≡ self.now) }
    {
        Ok(BitRow {
            words: self.words.to_vec(alloc)?,
        })
    }

    /// The words, borrowed.
    ///
    /// Source: own choice ("Closed rows").
    pub fn words(&self) -> &[u64]
        ensures { result.now ≡ self.now }
    {
        &self.words
    }

    /// Whether the bit of that number is set.
    ///
    /// Source: own choice ("Closed rows").
    pub fn has(&self, number: usize) -> bool
        ensures { result ≡ bit self.now number }
    {
        has_bit(&self.words, number)
    }

    /// Sets the bit of that number. A word holds 64 bits, and the number must be below that of the bits of all words.
    ///
    /// Source: own choice ("Closed rows").
    pub fn put(&mut self, number: usize)
        requires { number < 64 * length self.old }
        ensures len { length self.new ≡ length self.old }
        ensures put { (v : ℕ) → bit self.new v ≡ (nat_eq v number || bit self.old v) }
    {
        put_bit(&mut self.words, number);
    }

    /// Adds the bits of the other row, which has as many words.
    ///
    /// Source: own choice ("Closed rows").
    pub fn join(&mut self, other: &BitRow)
        requires { length self.old ≡ length other.now }
        ensures len { length self.new ≡ length self.old }
        ensures joined { (v : ℕ) → bit self.new v ≡ (bit self.old v || bit other.now v) }
    {
        join_words(&mut self.words, &other.words);
    }
}
