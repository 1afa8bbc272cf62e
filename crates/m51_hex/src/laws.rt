//! Two laws of the format, which hold of its definitions.
ghost use Rattle.m51_hex.specs.Laws.{LinesAreRecords, WrittenIsRead};

/// A line is accepted as a record exactly if it is the text of that record, whatever the case of its letters: what
/// is read is what is written.
///
/// Source: Intel HEX.
pub fn each_line_is_a_record()
    ensures { LinesAreRecords }
{}

/// What is written of an image whose bytes outside its runs are FFH is read, and is that image.
///
/// Source: Intel HEX.
#[tactic(auto, using(crate::proofs::RoundTrip::written_is_read))]
pub fn what_is_written_is_read()
    ensures { WrittenIsRead }
{}
