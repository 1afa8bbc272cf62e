//! How often each instruction began, and how many cycles it took.
ghost use Rattle.std.specs.Prelude.{◌≡◌, ◌<◌, ℕ, IfOk, length, slice_index};
ghost use Rattle.m51_sim.specs.Effects.{attempt_of};
ghost use Rattle.m51_steps.specs.Counts.{IsAdded, IsBlank, place_of};

use m51_cells::NoMemory;
use m51_sim::{Attempt, Board};
use std::alloc::Global;
use std::marker::Model;

// How many addresses there are, and the places of the vectorings and of the idle steps.
const ADDRESSES: u32 = 65_536;

const IDLE: u32 = 65_542;

// How many places there are.
const PLACES: usize = 65_543;

/// The counts of a run: at each place how many steps began there, and how many cycles passed in them. The places are
/// the addresses of instructions, then the six sources of interrupts, and then one for idle steps. It takes as much
/// memory for ten million steps as for one.
///
/// Source: own choice ("The trace of a run").
#[derive(Drop)]
pub struct Counts {
    times: Vec<u32>,
    cycles: Vec<u64>,
}

impl Model for Counts {
    ghost use Rattle.std.specs.Prelude.{◌≡◌, length};
    ghost use Rattle.m51_steps.specs.Counts.{Kept};

    ghost Value = { Kept };

    ghost view = { λ c. record { times = c.times.items; cycles = c.cycles.items } };

    ghost invariant = { λ c. (length c.times.items ≡ 65543) × (length c.cycles.items ≡ 65543) };
}

// This many numbers that are 0.
fn no_times(alloc: Global, count: usize) -> Result<Vec<u32>, NoMemory>
    ensures len { IfOk result (λ v. length v.items ≡ count) }
    ensures each { IfOk result (λ v. (n : ℕ) → n < count → slice_index v.items n ≡ 0) }
{
    Ok(vec![in alloc; 0u32; count]?)
}

// The same for cycles.
fn no_cycles(alloc: Global, count: usize) -> Result<Vec<u64>, NoMemory>
    ensures len { IfOk result (λ v. length v.items ≡ count) }
    ensures each { IfOk result (λ v. (n : ℕ) → n < count → slice_index v.items n ≡ 0) }
{
    Ok(vec![in alloc; 0u64; count]?)
}

// Where the next step is counted.
#[tactic(auto, using(crate::proofs::Places::few_vectors))]
pub(crate) fn place_of(board: &Board) -> u32
    ensures place { result ≡ place_of (attempt_of board.now.chip.image board.now.chip.cpu) board.now.chip.cpu.pc }
    ensures bound { result < 65543 }
{
    match board.attempt() {
        Attempt::Vectoring(source) => ADDRESSES + u32::from(source.vector() / 8),
        Attempt::Idling => IDLE,
        Attempt::Executing(_) => u32::from(board.cpu().pc),
        Attempt::Refusing => u32::from(board.cpu().pc),
    }
}

impl Counts {
    /// Nothing is counted. Error: out of memory.
    ///
    /// Source: own choice ("The trace of a run").
    pub fn make(alloc: Global) -> Result<Counts, NoMemory>
        ensures { IfOk result IsBlank }
    {
        let times = no_times(alloc, PLACES)?;
        let cycles = no_cycles(alloc, PLACES)?;
        Ok(Counts { times, cycles })
    }

    // Counts a step.
    pub(crate) fn add(&mut self, place: u32, cycles: u64)
        requires { place < 65543 }
        ensures { IsAdded self.old self.new place cycles }
    {
        let at = place as usize;
        self.times[at] = self.times[at].saturating_add(1);
        self.cycles[at] = self.cycles[at].saturating_add(cycles);
    }

    // How many steps began at a place.
    pub(crate) fn times(&self, place: u32) -> u32
        requires { place < 65543 }
        ensures { result ≡ slice_index self.now.times place }
    {
        self.times[place as usize]
    }

    // How many cycles passed in them.
    pub(crate) fn cycles(&self, place: u32) -> u64
        requires { place < 65543 }
        ensures { result ≡ slice_index self.now.cycles place }
    {
        self.cycles[place as usize]
    }
}
