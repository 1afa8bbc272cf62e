//! What holds of every instruction. Each law is the contract of a function that does nothing.
ghost use Rattle.m51_flat.specs.BitLaws.{BitsAreTurned, FlagsAreWritten, OneBitIsReplaced};
ghost use Rattle.m51_flat.specs.DeviceLaws.{CallsAreMade, FlagsKeepTheRest, PcIsStacked, RegistersAreWritten};
ghost use Rattle.m51_flat.specs.DeviceLaws.{StoresKeepTheRest};
ghost use Rattle.m51_flat.specs.Laws.{AccessesAgree, FlowIsKept, ReadingsAgree};
ghost use Rattle.m51_flat.specs.LevelLaws.{LevelsAreKept};
ghost use Rattle.m51_flat.specs.OutcomeLaws.{EffectsAreDone, PowerGoesDown};

/// Whatever is read, control continues by the flow of the instruction: a branch jumps or does not, a call calls, and so
/// on.
///
/// Source: family manual.
#[tactic(auto, using(crate::proofs::Flows::flow_is_kept))]
pub fn flow_is_kept()
    ensures { FlowIsKept }
{}

/// Over a store, the answer of reads is their result over any map that agrees with it, or that of the first of them
/// that has no value.
///
/// Source: own choice ("Two readings of an instruction").
pub fn readings_agree()
    ensures { ReadingsAgree }
{}

/// The reads up to the first that has no value are the same for all maps that agree with the store.
///
/// Source: own choice ("Two readings of an instruction").
pub fn accesses_agree()
    ensures { AccessesAgree }
{}

/// Of a byte with one bit replaced that bit is new, and all others stay.
///
/// Source: own choice ("Flags bit by bit").
#[tactic(auto, using(crate::proofs::BitLaws::one_bit_is_replaced))]
pub fn one_bit_is_replaced()
    ensures { OneBitIsReplaced }
{}

/// A sum writes CY, AC and OV, and no other bit of PSW.
///
/// Source: family manual.
pub fn flags_are_written()
    ensures { FlagsAreWritten }
{}

/// Where each bit of A and CY comes from after a rotation, an exchange of digits and a complement.
///
/// Source: family manual.
pub fn bits_are_turned()
    ensures { BitsAreTurned }
{}

/// A register that a device stores to holds the value, and every other one is as before.
///
/// Source: family manual.
#[tactic(auto, using(crate::proofs::RegisterLaws::registers_are_written))]
pub fn registers_are_written()
    ensures { RegistersAreWritten }
{}

/// A device that stores a register leaves all others, PC, the levels in progress and what holds interrupts off as
/// they were, and the parity where the register is neither PSW nor ACC.
///
/// Source: own choice ("Devices and registers").
pub fn stores_keep_the_rest()
    ensures { StoresKeepTheRest }
{}

/// So does a device that writes one bit of a register.
///
/// Source: own choice ("Devices and registers").
pub fn flags_keep_the_rest()
    ensures { FlagsKeepTheRest }
{}

/// `stack_pc` stores the two bytes of PC above the stack, and raises SP by two; the levels in progress and the parity
/// stay.
///
/// Source: family manual.
pub fn pc_is_stacked()
    ensures { PcIsStacked }
{}

/// `call` is a call from any effect, and keeps the parity.
///
/// Source: family manual.
#[tactic(auto, using(crate::proofs::Devices::calls_are_made))]
pub fn calls_are_made()
    ensures { CallsAreMade }
{}

/// Whatever is read, RETI ends the higher level in progress and every other instruction leaves both. Interrupts are
/// held off exactly after RETI and after an instruction that writes IE, IP or a bit of them; JBC writes its bit only
/// where it is 1.
///
/// Source: family manual.
#[tactic(auto, using(crate::proofs::Levels::levels_are_kept))]
pub fn levels_are_kept()
    ensures { LevelsAreKept }
{}

/// Where the outcome of an instruction is an effect, both puts may be written, PCON bit 1 is 0, and over each map that
/// agrees with the store the effect is the same.
///
/// Source: own choice ("Two readings of an instruction").
pub fn effects_are_done()
    ensures { EffectsAreDone }
{}

/// Where the outcome of an instruction is power-down, it is so over each map that agrees with the store.
///
/// Source: own choice ("Two readings of an instruction").
#[tactic(auto, using(crate::proofs::Done::power_goes_down))]
pub fn power_goes_down()
    ensures { PowerGoesDown }
{}
