//! What holds of every script. Each law is the contract of a function that does nothing.
ghost use Rattle.m51_script.specs.Laws.{LastLineCounts, ReadAsWritten};

/// A line is read as a form exactly if it is written so: parts with one or more blanks between them, and none before
/// the first or after the last.
///
/// Source: own choice ("Scripts").
pub fn a_line_is_read_as_it_is_written()
    ensures { ReadAsWritten }
{}

/// After some PIN lines each port has the levels of its last line, and FFH where it has none.
///
/// Source: own choice ("Scripts").
#[tactic(auto, using(crate::proofs::LastLevel::last_line_counts))]
pub fn the_last_line_of_a_port_counts()
    ensures { LastLineCounts }
{}
