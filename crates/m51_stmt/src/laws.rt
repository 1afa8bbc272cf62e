//! What the grammar of lines promises of printed statements. Each law is the contract of a function that does nothing.
ghost use Rattle.m51_stmt.specs.Laws.{PrintedReadsBack};

/// Each statement that a line writes is the one that its printed text writes: whatever is printed reads back, as a line
/// where it has at most 255 bytes.
///
/// Source: own choice ("Printed statements").
pub fn printed_reads_back()
    ensures { PrintedReadsBack }
{}
