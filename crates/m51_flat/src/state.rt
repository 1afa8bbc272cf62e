//! The processor's state, what an instruction changes, and its outcome.
ghost use Rattle.std.specs.Prelude.{◌≡◌};
ghost use Rattle.m51_flat.specs.Meaning.{still};
ghost use Rattle.m51_flat.specs.Outcome.{outcome_by};
ghost use Rattle.m51_flat.specs.Vectors.{vector_of};

use m51_cells::Cell;

/// A write to memory.
///
/// Source: own choice ("Effects").
#[derive(Clone, Copy, Debug, PartialEq, Eq)]
pub enum Put {
    /// No write.
    Nothing,
    /// A byte of internal RAM: its eight cells.
    Byte { address: u8, value: u8 },
    /// A bit of internal RAM by its bit address, 00H to 7FH: one cell.
    Bit { address: u8, value: bool },
    /// A byte of external data memory: one cell.
    Xbyte { address: u16, value: u8 },
}

/// What a read of a store answers.
///
/// Source: own choice ("Stores of cells").
#[derive(Clone, Copy, Debug, PartialEq, Eq)]
pub enum Seen {
    /// The value; that of a bit is 0 or 1.
    Value(u8),
    /// The lowest cell of the read without a value is outside the store.
    Outside(Cell),
    /// The lowest cell of the read without a value was never written.
    Unset(Cell),
}

/// The levels that the outside gives the pins of ports 0 to 3, a bit for each pin.
///
/// Source: family manual.
#[derive(Clone, Copy, Debug, PartialEq, Eq)]
pub struct Pins {
    /// The eight levels of each port, by its number.
    pub p: [u8; 4],
}

/// The program counter, the special function registers, and what the interrupt system keeps.
///
/// Source: family manual.
#[derive(Clone, Copy, Debug, PartialEq, Eq)]
pub struct Cpu {
    /// The address of the next instruction.
    pub pc: u16,
    /// The register at 80H and above by its address less 80H: of a port its latch, of SBUF the received byte.
    pub regs: [u8; 128],
    /// An interrupt of the low level is in progress.
    pub low: bool,
    /// An interrupt of the high level is in progress.
    pub high: bool,
    /// The step before was RETI or wrote IE or IP, so no interrupt is taken.
    pub held: bool,
}

/// A level of interrupts.
///
/// Source: family manual.
#[derive(Clone, Copy, Debug, PartialEq, Eq)]
pub enum Level {
    /// The level of a source whose bit of IP is 0.
    Low,
    /// The level of a source whose bit of IP is 1.
    High,
}

/// A source of interrupts, in their order.
///
/// Source: family manual.
#[derive(Clone, Copy, Debug, PartialEq, Eq)]
pub enum Source {
    /// External interrupt 0, at 0003H.
    Ie0,
    /// Overflow of timer 0, at 000BH.
    Tf0,
    /// External interrupt 1, at 0013H.
    Ie1,
    /// Overflow of timer 1, at 001BH.
    Tf1,
    /// The serial port, at 0023H.
    Serial,
    /// Timer 2, at 002BH.
    Timer2,
}

impl Source {
    /// The address of its handler.
    ///
    /// Source: family manual.
    #[tactic(auto, unfolding(crate::specs::Vectors::vector_of))]
    pub fn vector(self) -> u16
        ensures { result ≡ vector_of self }
    {
        match self {
            Source::Ie0 => 0x0003,
            Source::Tf0 => 0x000B,
            Source::Ie1 => 0x0013,
            Source::Tf1 => 0x001B,
            Source::Serial => 0x0023,
            Source::Timer2 => 0x002B,
        }
    }
}

/// How control continues.
///
/// Source: own choice ("Effects").
#[derive(Clone, Copy, Debug, PartialEq, Eq)]
pub enum Transfer {
    /// To the next instruction.
    Next,
    /// To the target of a jump or of a taken branch.
    Jump,
    /// To the target of a call.
    Call,
    /// To the address that RET took from the stack.
    Ret,
    /// To the address that RETI took from the stack.
    Reti,
    /// To the vector of an interrupt.
    Vector(Source),
}

/// All that a step changes.
///
/// Source: own choice ("Effects").
#[derive(Clone, Copy, Debug, PartialEq, Eq)]
pub struct Effect {
    /// The processor afterwards.
    pub cpu: Cpu,
    /// The write that comes first.
    pub first: Put,
    /// The write that comes second.
    pub second: Put,
    /// How control continues.
    pub transfer: Transfer,
    /// The number of the port whose latch was written, 0 to 3.
    pub port: Option<u8>,
    /// The byte that was written to SBUF.
    pub sbuf: Option<u8>,
    /// Machine cycles, 1 to 4.
    pub cycles: u8,
}

impl Effect {
    /// That of a step of no machine cycle that changes nothing, and after which interrupts are not held off. A call
    /// that fills an effect begins with it.
    ///
    /// Source: own choice ("Effects").
    pub fn none(cpu: &Cpu) -> Effect
        ensures { result ≡ still cpu.now 0 }
    {
        Effect {
            cpu: Cpu {
                held: false,
                ..*cpu
            },
            first: Put::Nothing,
            second: Put::Nothing,
            transfer: Transfer::Next,
            port: None,
            sbuf: None,
            cycles: 0,
        }
    }
}

/// The outcome of a step over a store: its effect, or why it has none.
///
/// Source: own choice ("Effects").
#[derive(Clone, Copy, Debug, PartialEq, Eq)]
pub enum Outcome {
    /// This effect.
    Done(Effect),
    /// It would read this cell, which is outside the store, or write it, which it may not.
    Outside(Cell),
    /// It would read this cell, which was never written.
    Unset(Cell),
    /// It would set the power-down bit of PCON.
    PowerDown,
}

impl Outcome {
    /// That of a call which leaves its effect in a variable of its caller.
    ///
    /// Source: own choice ("Effects").
    pub fn of(answer: Result<(), NoEffect>, effect: &Effect) -> Outcome
        ensures { result ≡ outcome_by answer effect.now }
    {
        match answer {
            Ok(()) => Outcome::Done(*effect),
            Err(NoEffect::Outside(cell)) => Outcome::Outside(cell),
            Err(NoEffect::Unset(cell)) => Outcome::Unset(cell),
            Err(NoEffect::PowerDown) => Outcome::PowerDown,
        }
    }
}

/// Why an instruction has no effect.
///
/// Source: own choice ("Effects").
#[derive(Clone, Copy, Debug, PartialEq, Eq)]
pub enum NoEffect {
    /// It would read this cell, which is outside the store, or write it, which it may not.
    Outside(Cell),
    /// It would read this cell, which was never written.
    Unset(Cell),
    /// It would set the power-down bit of PCON.
    PowerDown,
}
