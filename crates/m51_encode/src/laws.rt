//! What the code of an instruction promises. Each law is the contract of a function that does nothing.
ghost use Rattle.m51_encode.specs.Meaning.{CodedStandsForLine};
ghost use Rattle.m51_encode.specs.Lengths.{FormsHaveRows};
ghost use Rattle.m51_encode.specs.OutcomeLaws.{OutcomesTell, OperandsFailByFive};

/// The bytes that are coded are those of an instruction that the line means: with its mnemonic, the same registers, and
/// in its fields the numbers that the values of the operands give there. What a value leaves to the linker lies at the
/// byte where its field begins, in the form of the field, and there is no other reference.
///
/// Source: family manual.
#[tactic(auto, using(crate::proofs::Standing::coded_stands_for_line))]
pub fn coded_stands_for_line()
    ensures { CodedStandsForLine }
{}

/// Each mnemonic with operands that it may have has the length of a row of the instruction table, in any form of a
/// generic jump; its code is that of the row with its operands, so none is E11 for lack of a row, and has as many bytes
/// as the row.
///
/// Source: own choice ("Instructions of a source").
pub fn forms_have_rows()
    ensures { FormsHaveRows }
{}

/// Each mnemonic with operands that it may have has a fault exactly if one of them has, and that of the leftmost.
///
/// Source: own choice ("Faults of instructions").
#[tactic(auto, using(crate::proofs::ToldOutcomes::outcomes_tell))]
pub fn outcomes_tell()
    ensures { OutcomesTell }
{}

/// Each mnemonic with operands that it may have has E7 to E10 or E14, or no fault: so it is never E11.
///
/// Source: own choice ("Faults of instructions").
#[tactic(auto, using(crate::proofs::OperandFaults::operands_fail_by_five))]
pub fn operands_fail_by_five()
    ensures { OperandsFailByFive }
{}
