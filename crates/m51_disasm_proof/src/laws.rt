//! What is promised of disassemblies. Each law is the contract of a function that does nothing.
ghost use Rattle.m51_disasm_proof.specs.Laws.{LinesReadBack, TextsReadBack, LinesStand, StatementsStand};
ghost use Rattle.m51_disasm_proof.specs.Laws.{StatementsCodeBack, LabelsStand, StatementsGiveBytes};
ghost use Rattle.m51_disasm_proof.specs.Laws.{NoLineHasFault, ImagesAreAssembled};

/// Each line of a disassembly is read as the statement that is meant, with its label.
///
/// Source: own choice ("Disassembly").
#[tactic(auto, using(crate::proofs::StatementsRead::line_read))]
pub fn lines_read_back()
    ensures { LinesReadBack }
{}

/// The text of a layout and its image, where they have one, is read as the lines that are meant: as a source without
/// includes it has no fault of the form or the place of a line.
///
/// Source: own choice ("Disassembly").
#[tactic(auto, using(crate::proofs::TextRead::disassembly_read))]
pub fn texts_read_back()
    ensures { TextsReadBack }
{}

/// Under each assignment that fits the lines of a disassembly, each line is in its spot: `CSEG` begins a segment of
/// `CODE` at its base, and a statement is after the bytes of those before it.
///
/// Source: own choice ("Disassembly").
#[tactic(auto, using(crate::proofs::Reassembled::spot_is))]
pub fn lines_stand()
    ensures { LinesStand }
{}

/// Under each assignment that fits them, each statement of a part is at its address, in the segment of `CODE` that
/// begins at the base of the part.
///
/// Source: own choice ("Disassembly").
#[tactic(auto, using(crate::proofs::Reassembled::statement_spot))]
pub fn statements_stand()
    ensures { StatementsStand }
{}

/// What is decoded is coded to the same bytes: the statement at an address of a segment of `CODE`, where the label that
/// it names has the value of its address, gives the bytes of the image there, without a fault or a fixup.
///
/// Source: own choice ("Disassembly").
pub fn statements_code_back()
    ensures { StatementsCodeBack }
{}

/// Under each assignment that fits the lines of a disassembly, a label is defined once: it has at each line the value
/// of its address, in the segment that begins at the base of its part.
///
/// Source: own choice ("Disassembly").
#[tactic(auto, using(crate::proofs::Reassembled::label_is))]
pub fn labels_stand()
    ensures { LabelsStand }
{}

/// Under each assignment that fits them, each statement of a part gives the bytes of the image at its address, without
/// a fault or a fixup.
///
/// Source: own choice ("Disassembly").
pub fn statements_give_bytes()
    ensures { StatementsGiveBytes }
{}

/// Under each assignment that fits the lines of a disassembly, no line has a fault by the lines above it, nor one in
/// its content.
///
/// Source: own choice ("Disassembly").
pub fn no_line_has_fault()
    ensures { NoLineHasFault }
{}

/// A disassembly is assembled to the image: the answer for its text is a module, with an absolute segment of `CODE` for
/// each part, whose pieces are exactly the bytes of the image, without fixups, publics or externals.
///
/// Source: own choice ("Disassembly").
#[tactic(auto, using(crate::proofs::Reassembled::image_back))]
pub fn images_are_assembled()
    ensures { ImagesAreAssembled }
{}
