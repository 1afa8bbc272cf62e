//! The answer of a stack bound, and its refusals.
use crate::{Start, Starts};
use m51_cells::{ListOf, NoMemory};

/// A procedure or an interrupt, and how many bytes of stack it takes from its entry on.
///
/// Source: own choice ("Stack bound").
#[derive(Clone, Copy, Debug, PartialEq, Eq)]
pub struct Proc {
    /// Where it begins.
    pub at: u16,
    /// The unit that covers that address.
    pub unit: u16,
    /// In bytes, the return address of its own call left out.
    pub depth: u16,
}

/// Procedures by their addresses.
///
/// Source: own choice ("Lists in types").
pub type Procs = ListOf<Proc>;

/// A root, the depth of the stack under it, and the starts on a path of that depth.
///
/// Source: own choice ("Stack bound").
#[derive(Drop)]
pub struct RootDepth {
    /// The unit that the root is.
    pub root: u16,
    /// The most over all paths through the program, those that no run takes among them: for the reset the value of SP,
    /// for an interrupt the bytes above its return address.
    pub depth: u16,
    /// The starts from the root's own on, each of which calls the next.
    pub path: Starts,
}

/// Roots by their vectors.
///
/// Source: own choice ("Lists in types").
pub type RootDepths = ListOf<RootDepth>;

/// The stack bound of a program.
///
/// Source: own choice ("Stack bound").
#[derive(Drop)]
pub struct StackBound {
    /// The starts other than the reset.
    pub procs: Procs,
    pub roots: RootDepths,
    /// A value that SP does not pass before an event: the depth of the reset, plus the most that up to two different
    /// handlers add. A handler adds 2, for its return address, and its depth.
    pub total: u8,
}

/// Why a program has no stack bound. Of several the first of this list is given, and then the least start, the reset
/// before all others, and the least address.
///
/// Source: own choice ("Stack bound").
#[derive(Clone, Copy, Debug, PartialEq, Eq)]
pub enum StackError {
    /// The instruction there writes SP by an operand, and is not `MOV SP,#data` under the reset.
    K1 { start: Start, at: u16 },
    /// The instruction is `JMP @A+DPTR`.
    K2 { start: Start, at: u16 },
    /// The instruction is POP at height 0.
    K3 { start: Start, at: u16 },
    /// The start calls itself, directly or through others.
    K4 { start: Start },
    /// The address there has two heights.
    K5 { start: Start, at: u16 },
    /// There is a PUSH at height 255, or the total is above 255.
    K6,
    /// There are more than 1,000,000 points. It comes before K1 to K6.
    Limit,
    /// Out of memory.
    Memory,
}

impl From<NoMemory> for StackError {
    ghost use Rattle.std.specs.Prelude.{◌≡◌};
    ghost use Rattle.m51_module.specs.declared.stack_bound.StackError.TheVariants.{Memory};

    ghost from_gives = { λ _ error. error ≡ Memory };

    fn from(_error: NoMemory) -> StackError {
        StackError::Memory
    }
}
