//! Sets of pairs of units.
ghost use Rattle.std.specs.Prelude.{◌≡◌, ◌*◌, ◌<◌, ◌≤◌, ◌&&◌, ◌||◌, ℕ, nat_eq, IfOk, OnOk, length, replicate};
ghost use Rattle.m51_cells.specs.declared.limits.TheConstants.{MOST_UNITS};
ghost use Rattle.m51_relations.specs.Bits.{bit, words_for};
ghost use Rattle.m51_relations.specs.Rows.{AreRows, AreWide, closed_below, no_pair, pair_at, pairs, passed_below};
ghost use Rattle.m51_relations.specs.Rows.{with_pair};

use crate::bit_row::BitRow;
use m51_cells::NoMemory;
use std::alloc::Global;
use std::marker::Model;

/// A set of pairs of units, a row of bits for each first unit, which contracts see as the number of units and a test.
///
/// Source: own choice ("Closed rows").
#[derive(Drop)]
pub struct BitRows {
    count: usize,
    rows: Vec<BitRow>,
}

impl Model for BitRows {
    ghost use Rattle.m51_relations.specs.Rows.{AreRows, BitTable};

    ghost Value = { BitTable };

    ghost view = { λ s. record { count = s.count; rows = s.rows.items } };

    ghost invariant = { λ s. AreRows s.count s.rows.items };
}

// `count` rows of `words` words each, no bit of them set.
fn blank_rows(alloc: Global, count: usize, words: usize) -> Result<Vec<BitRow>, NoMemory>
    ensures { IfOk result (λ rows. rows.items ≡ replicate count (replicate words 0)) }
{
    let mut rows = Vec::new(alloc);
    for _ in 0..count {
        rows.push(BitRow::blank(alloc, words)?)?;
    }
    Ok(rows)
}

// Adds the other row, if this one has the bit.
fn pass_row(row: &mut BitRow, through: &BitRow, k: usize)
    requires { length row.old ≡ length through.now }
    ensures len { length row.new ≡ length row.old }
    ensures joined { (v : ℕ) → bit row.new v ≡ (bit row.old v || (bit row.old k && bit through.now v)) }
{
    if row.has(k) {
        row.join(through);
    }
}

// Adds the row to each of those that have the bit.
fn pass(rows: &mut [BitRow], through: &BitRow, k: usize)
    requires { AreWide (length through.now) rows.old }
    ensures len { length rows.new ≡ length rows.old }
    ensures wide { AreWide (length through.now) rows.new }
    ensures joined { (u v : ℕ) → pair_at rows.new u v
        ≡ (pair_at rows.old u v || (pair_at rows.old u k && bit through.now v)) }
{
    for row in rows.iter_mut() {
        pass_row(row, through, k);
    }
}

// Adds to the rows the pairs that walks along them join: for each unit its row to those that have its bit.
fn close_rows(alloc: Global, rows: &mut [BitRow]) -> Result<(), NoMemory>
    requires { AreRows (length rows.old) rows.old }
    ensures rows { AreRows (length rows.old) rows.new }
    ensures closed { OnOk result (pair_at rows.new ≡ closed_below (length rows.old) (pair_at rows.old)) }
{
    for k in 0..rows.len() {
        let through = rows[k].copy(alloc)?;
        pass(rows, &through, k);
    }
    Ok(())
}

// Whether the row of the first unit has the bit of the second.
#[tactic(auto, using(crate::proofs::BitLaws::pair_past))]
fn has_pair(rows: &[BitRow], from: usize, to: usize) -> bool
    ensures { result ≡ pair_at rows.now from to }
{
    match rows.get(from) {
        Some(row) => row.has(to),
        None => false,
    }
}

// Adds the other row if `holds`.
fn join_if(row: &mut BitRow, through: &BitRow, holds: bool)
    requires { length row.old ≡ length through.now }
    ensures len { length row.new ≡ length row.old }
    ensures joined { (v : ℕ) → bit row.new v ≡ (bit row.old v || (holds && bit through.now v)) }
{
    if holds {
        row.join(through);
    }
}

// Adds the row to each of those whose row among the tests has the bit.
fn pass_tested(rows: &mut [BitRow], tests: &[BitRow], through: &BitRow, k: usize)
    requires { AreWide (length through.now) rows.old }
    ensures len { length rows.new ≡ length rows.old }
    ensures wide { AreWide (length through.now) rows.new }
    ensures joined { (u v : ℕ) → u < length rows.old → pair_at rows.new u v
        ≡ (pair_at rows.old u v || (pair_at tests.now u k && bit through.now v)) }
{
    for (u, row) in rows.iter_mut().enumerate() {
        join_if(row, through, has_pair(tests, u, k));
    }
}

// Adds to each row the others that its row among the tests has.
fn pass_all(rows: &mut [BitRow], tests: &[BitRow], others: &[BitRow])
    requires others { AreRows (length others.now) others.now }
    requires wide { AreWide (words_for (length others.now)) rows.old }
    ensures len { length rows.new ≡ length rows.old }
    ensures wide { AreWide (words_for (length others.now)) rows.new }
    ensures passed { (u v : ℕ) → u < length rows.old → pair_at rows.new u v
        ≡ passed_below (pair_at tests.now) (pair_at others.now) (pair_at rows.old) (length others.now) u v }
{
    for k in 0..others.len() {
        pass_tested(rows, tests, &others[k], k);
    }
}

// Rows with the same bits.
fn copy_rows(alloc: Global, rows: &[BitRow]) -> Result<Vec<BitRow>, NoMemory>
    ensures { IfOk result (λ copies. copies.items ≡ rows.now) }
{
    let mut copies = Vec::new(alloc);
    for row in rows {
        copies.push(row.copy(alloc)?)?;
    }
    Ok(copies)
}

impl BitRows {
    /// The set of units, at most 1,000, without a pair. Error: out of memory.
    ///
    /// Source: own choice ("Closed rows").
    pub fn none(alloc: Global, count: usize) -> Result<BitRows, NoMemory>
        requires { count ≤ MOST_UNITS }
        ensures count { IfOk result (λ set. set.count ≡ count) }
        ensures pairs { IfOk result (λ set. pairs set ≡ no_pair) }
    {
        Ok(BitRows {
            count,
            rows: blank_rows(alloc, count, (count + 63) / 64)?,
        })
    }

    /// The number of units.
    ///
    /// Source: own choice ("Closed rows").
    pub fn count(&self) -> u16
        ensures count { result ≡ self.now.count }
        ensures few { self.now.count ≤ MOST_UNITS }
    {
        self.count as u16
    }

    /// Whether the pair is in the set.
    ///
    /// Source: own choice ("Closed rows").
    pub fn has(&self, from: u16, to: u16) -> bool
        ensures { result ≡ pairs self.now from to }
    {
        has_pair(&self.rows, usize::from(from), usize::from(to))
    }

    /// Adds the pair. Both must be units of the set.
    ///
    /// Source: own choice ("Closed rows").
    pub fn put(&mut self, from: u16, to: u16)
        requires from { from < self.old.count }
        requires to { to < self.old.count }
        ensures count { self.new.count ≡ self.old.count }
        ensures pairs { pairs self.new ≡ with_pair from to (pairs self.old) }
    {
        self.rows[usize::from(from)].put(usize::from(to));
    }

    /// The row of `from`, which must be a unit of the set, borrowed: bit v is set exactly if the set has the pair of
    /// `from` and v. There are as many words as hold a bit for each unit.
    ///
    /// Source: own choice ("Closed rows").
    pub fn row(&self, from: u16) -> &[u64]
        requires { from < self.now.count }
        ensures words { length result.now ≡ words_for self.now.count }
        ensures bits { (v : ℕ) → bit result.now v ≡ pairs self.now from v }
    {
        self.rows[usize::from(from)].words()
    }

    /// Adds all pairs that walks along its pairs join. If memory runs out, some of these may be in the set.
    ///
    /// Source: own choice ("Closed rows").
    pub fn close(&mut self, alloc: Global) -> Result<(), NoMemory>
        ensures count { self.new.count ≡ self.old.count }
        ensures pairs { OnOk result (pairs self.new ≡ closed_below self.old.count (pairs self.old)) }
    {
        close_rows(alloc, &mut self.rows)
    }

    /// Adds the pair if `holds`. Both must be units of the set.
    ///
    /// Source: own choice ("Closed rows").
    pub fn put_if(&mut self, from: u16, to: u16, holds: bool)
        requires from { from < self.old.count }
        requires to { to < self.old.count }
        ensures count { self.new.count ≡ self.old.count }
        ensures pairs { (u v : ℕ) → pairs self.new u v
            ≡ ((nat_eq u from && nat_eq v to && holds) || pairs self.old u v) }
    {
        if holds {
            self.put(from, to);
        }
    }

    /// The pairs of this set, and those joined by a pair of the tests and then one of the other set, which must
    /// have the same number of units.
    /// Error: out of memory.
    ///
    /// Source: own choice ("Closed rows").
    pub fn passed(
        &self,
        alloc: Global,
        tests: &BitRows,
        others: &BitRows,
    ) -> Result<BitRows, NoMemory>
        requires { others.now.count ≡ self.now.count }
        ensures count { IfOk result (λ set. set.count ≡ self.now.count) }
        ensures pairs { IfOk result (λ set. (u v : ℕ) → u < self.now.count → pairs set u v
            ≡ passed_below (pairs tests.now) (pairs others.now) (pairs self.now) self.now.count u v) }
    {
        let mut rows = copy_rows(alloc, &self.rows)?;
        pass_all(&mut rows, &tests.rows, &others.rows);
        Ok(BitRows {
            count: self.count,
            rows,
        })
    }
}
