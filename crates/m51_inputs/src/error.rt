//! Why the files of a program are refused.
use m51_cells::{ListOf, NoMemory};
use m51_control::ControlError;
use m51_module::{Faults, LibError, ObjError};
use m51_script::ScriptError;

/// The faults of a source.
///
/// Source: own choice ("Inputs").
#[derive(Drop)]
pub struct SourceFaults {
    /// The index of the source's file argument, counted from 0.
    pub file: usize,
    /// Its faults: one or more.
    pub faults: Faults,
}

/// The sources that have faults, in the order given.
///
/// Source: own choice ("Lists in types").
pub type FaultySources = ListOf<SourceFaults>;

/// Why the files of a program are refused. A file is known by the index of its argument, counted from 0.
///
/// Source: own choice ("Inputs").
#[derive(Drop)]
pub enum InputError {
    /// Sources have faults: each that has some, in the order given.
    Sources(FaultySources),
    /// The first object or library that is refused is an object.
    Object { file: usize, error: ObjError },
    /// The first object or library that is refused is a library.
    Library { file: usize, error: LibError },
    /// The control file is refused.
    Control(ControlError),
    /// The script is refused.
    Script(ScriptError),
    /// Out of memory.
    Memory,
}

impl From<NoMemory> for InputError {
    ghost use Rattle.std.specs.Prelude.{◌≡◌};
    ghost use Rattle.m51_inputs.specs.declared.error.InputError.TheVariants.{Memory};

    ghost from_gives = { λ _ error. error ≡ Memory };

    fn from(_error: NoMemory) -> InputError {
        InputError::Memory
    }
}
