//! What the table promises of decoding and encoding, and its texts. Each law is the contract of a function that does
//! nothing.
ghost use Rattle.m51_isa.specs.Laws.{OneRow, NoneReserved, OthersDecode, RowsDecode, RowsAreShort, CodesDecode};
ghost use Rattle.m51_isa.specs.Laws.{FrontsAgree};
ghost use Rattle.m51_isa.specs.MnemonicLaws.{MnemonicsAreOfRows};
ghost use Rattle.m51_isa.specs.TextLaws.{TextsAreRows};

/// No bytes begin with two rows.
///
/// Source: family manual.
#[tactic(auto, using(crate::proofs::Distinct::one_row))]
pub fn rows_are_distinct()
    ensures { OneRow }
{}

/// No row begins with a reserved opcode, and each other opcode begins one.
///
/// Source: family manual.
#[tactic(auto, using(crate::proofs::Opcodes::none_reserved, crate::proofs::Opcodes::others_decode))]
pub fn none_is_reserved()
    ensures none { NoneReserved }
    ensures others { OthersDecode }
{}

/// Bytes that begin with a row are decoded as its instruction.
///
/// Source: own choice ("Decoding and encoding").
#[tactic(auto, using(crate::proofs::Distinct::rows_decode))]
pub fn rows_decode()
    ensures { RowsDecode }
{}

/// Each row has one to three bytes.
///
/// Source: family manual.
pub fn rows_are_short()
    ensures { RowsAreShort }
{}

/// What is encoded is decoded again.
///
/// Source: own choice ("Decoding and encoding").
#[tactic(auto, using(crate::proofs::Codes::codes_decode))]
pub fn codes_decode()
    ensures { CodesDecode }
{}

/// The bytes that an instruction is decoded from are those that it is encoded as, up to its length.
///
/// Source: own choice ("Decoding and encoding").
pub fn fronts_agree()
    ensures { FrontsAgree }
{}

/// Each row is found by its own text, and with the numbers of the text, which its fields have room for, it is the row;
/// so two rows that are written alike are one. What is found is written so, and what a generic jump means is written
/// with the mnemonic of its form; no row is written as a generic jump. Numbers that are put into the fields of a row
/// change only the numbers of its text, and not its length.
///
/// Source: family manual.
#[tactic(auto, using(crate::proofs::RowsFilled::texts_are_rows))]
pub fn texts_are_rows()
    ensures { TextsAreRows }
{}

/// The mnemonic of each row is one that `is_mnemonic` knows; and each of those but the generic `CALL` is that of a row.
///
/// Source: family manual.
#[tactic(auto, using(crate::proofs::FoundMnemonics::mnemonics_are_of_rows))]
pub fn mnemonics_are_of_rows()
    ensures { MnemonicsAreOfRows }
{}
