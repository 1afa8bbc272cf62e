//! What the tables of predefined names promise. Each law is the contract of a function that does nothing.
ghost use Rattle.m51_predefined.specs.Laws.{NamesAreFree, RowsAreRead};
ghost use Rattle.m51_predefined.specs.Laws.{ReservedStandForNothing, BytesHaveBits, NamesAreRegisters};

/// Each predefined name is one that a source can write, and no reserved word, so that a module may define it.
///
/// Source: own choice ("Predefined names").
pub fn names_are_free()
    ensures { NamesAreFree }
{}

/// Each register is its direct address, and each named bit its bit address.
///
/// Source: family manual.
#[tactic(auto, using(crate::proofs::RowLaws::rows_are_read))]
pub fn rows_are_read()
    ensures { RowsAreRead }
{}

/// No reserved word is predefined, nor `AR0` to `AR7`.
///
/// Source: own choice ("Predefined names").
#[tactic(auto, using(crate::proofs::RowLaws::reserved_stand_for_nothing))]
pub fn reserved_words_stand_for_nothing()
    ensures { ReservedStandForNothing }
{}

/// Each register at a multiple of 8 has eight bits with addresses, from its own upward; the numbers of its named bits
/// are below 8, and the name of a bit is what the dot gives.
///
/// Source: family manual.
pub fn bytes_have_bits()
    ensures { BytesHaveBits }
{}

/// The machine has a register at the address of each predefined name, and at that of the byte of each named bit; and
/// each register of the machine has a predefined name.
///
/// Source: family manual.
#[tactic(auto, using(crate::proofs::NameLaws::names_are_registers))]
pub fn names_are_registers()
    ensures { NamesAreRegisters }
{}
