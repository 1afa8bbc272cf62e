//! Laws of content, as contracts of functions that do nothing.
ghost use Rattle.m51_emit.specs.ContentLaws.{ReferencesLie, InstructionsAreCoded, InstructionsFill, BytesFill};
ghost use Rattle.m51_emit.specs.ContentLaws.{WordsFill, ContentFailsBySix};
ghost use Rattle.m51_emit.specs.GatheringLaws.{RunsGrow, ContentGrows};

/// The fields of the references of a line lie in its bytes, in ascending order, and none overlaps the next.
///
/// Source: own choice ("Content of a line").
pub fn references_lie()
    ensures { ReferencesLie }
{}

/// An instruction whose mnemonic may have its operands, and of which no operand has a fault, has bytes.
///
/// Source: own choice ("Content of a line").
pub fn instructions_are_coded()
    ensures { InstructionsAreCoded }
{}

/// Such an instruction has as many bytes as its row.
///
/// Source: own choice ("Content of a line").
pub fn instructions_fill()
    ensures { InstructionsFill }
{}

/// DB without a fault has a byte for each value, and the characters of its texts.
///
/// Source: own choice ("Content of a line").
pub fn bytes_fill()
    ensures { BytesFill }
{}

/// DW of values without a fault has two bytes for each.
///
/// Source: own choice ("Content of a line").
pub fn words_fill()
    ensures { WordsFill }
{}

/// The fault of the content of a line is one of 7 to 10, 14 and 19.
///
/// Source: own choice ("Content of a line").
pub fn content_fails_by_six()
    ensures { ContentFailsBySix }
{}

/// Runs that grow at their end, bytes by bytes, are those that are joined from the last bytes back.
///
/// Source: own choice ("Content of a module").
pub fn runs_grow()
    ensures { RunsGrow }
{}

/// A segment to which lines are added one by one has what they give together.
///
/// Source: own choice ("Content of a module").
pub fn content_grows()
    ensures { ContentGrows }
{}
