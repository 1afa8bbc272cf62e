//! What a link returns besides a layout and an image: runs, chains and refusals.
use crate::Units;
use m51_cells::{ListOf, Name, Names, NoMemory};

/// Consecutive bytes of the image, all of them filled by content.
///
/// Source: own choice ("Runs").
#[derive(Clone, Copy, Debug, PartialEq, Eq)]
pub struct Run {
    /// The address of the first byte.
    pub first: u16,
    /// How many bytes there are: 1 to 65,536.
    pub len: u32,
}

/// The runs of an image, in ascending order.
///
/// Source: own choice ("Lists in types").
pub type Runs = ListOf<Run>;

/// A walk from a root, and the bytes of overlaid DATA that its units have.
///
/// Source: own choice ("Heaviest chains").
#[derive(Drop)]
pub struct Chain {
    /// The unit that the root is.
    pub root: u16,
    /// The sum of the sizes of the overlaid DATA segments of type UNIT whose units the walk names, in bytes.
    pub bytes: u32,
    /// The units of the walk, the root first.
    pub units: Units,
}

/// What a limit is of.
///
/// Source: own choice ("Limits").
#[derive(Clone, Copy, Debug, PartialEq, Eq)]
pub enum Quantity {
    /// The files of one run of the program: at most 64.
    Files,
    /// The bytes of a file that is read: at most 1,048,576.
    Bytes,
    /// The lines of a file of control lines: at most 1,000.
    ControlLines,
    /// The lines of a script: at most 65,536.
    ScriptLines,
    /// The modules of a link: at most 255.
    Modules,
    /// The joined segments of a link: at most 2,000.
    Segments,
    /// The units of a link: at most 1,000.
    Units,
    /// The parts of a disassembly: at most 254 units of one byte or more.
    Parts,
    /// The lines of a disassembly: at most 65,535.
    Lines,
    /// The points of a stack bound: at most 1,000,000.
    Points,
}

/// Why a link is refused.
///
/// Source: RL51 guide.
#[derive(Drop)]
pub enum Refusal {
    /// Two chosen modules define this public.
    L1 { name: Name },
    /// No chosen module defines this external.
    L2 { name: Name },
    /// The kinds of this external and of its public do not agree.
    L3 { name: Name },
    /// Parts of the segment of this name differ in kind, type, OVERLAYABLE or ARGUMENT.
    L4 { name: Name },
    /// The joined segment of this name is too large.
    L5 { name: Name },
    /// The segment of this name is marked OVERLAYABLE, and is neither a local nor the argument segment of a unit of the
    /// program.
    L6 { name: Name },
    /// The control line of this number does not fit the program.
    L7 { line: u32 },
    /// No absolute code segment begins at 0000H.
    L8,
    /// Two fixed extents share a cell.
    L9 { one: Name, two: Name },
    /// Some units reach themselves: all of them, in order.
    L10 { units: Names },
    /// A unit with an overlaid local or argument segment lies under two roots.
    L11 { unit: Name, one: Name, two: Name },
    /// There is no base for the segment of this name.
    L12 { name: Name },
    /// The rule of a fixup fails: the segment of the field, and the field's offset in it.
    L13 { name: Name, offset: u16 },
    /// There are more of these than a link takes.
    Limit { what: Quantity },
    /// Out of memory.
    Memory,
}

impl From<NoMemory> for Refusal {
    ghost use Rattle.std.specs.Prelude.{◌≡◌};
    ghost use Rattle.m51_module.specs.declared.linked.Refusal.TheVariants.{Memory};

    ghost from_gives = { λ _ refusal. refusal ≡ Memory };

    fn from(_error: NoMemory) -> Refusal {
        Refusal::Memory
    }
}
