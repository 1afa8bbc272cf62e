//! What is promised of texts and of their lines. Each law is the contract of a function that does nothing.
ghost use Rattle.m51_text.specs.Laws.{LinesAreOfFiles};
ghost use Rattle.m51_text.specs.Rows.{StatementsHaveRows};

/// Each line of a text is of the source or of one of the includes, and its number is that of a line of that file.
///
/// Source: own choice ("The text of a source").
pub fn lines_are_of_files()
    ensures { LinesAreOfFiles }
{}

/// Each instruction that a line of bytes writes has the length of a row of the instruction table, in any form of a
/// generic jump; its code is that of the row with its operands, so none is E11 for lack of a row, and has as many bytes
/// as the row.
///
/// Source: own choice ("Instructions of a source").
pub fn statements_have_rows()
    ensures { StatementsHaveRows }
{}
