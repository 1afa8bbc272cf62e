//! Texts: the lines of a source and of its includes.
use m51_cells::ListOf;
use m51_module::Faults;
use m51_stmt::Stmt;

/// A line of a text, with its statement.
///
/// Source: own choice ("The text of a source").
#[derive(Drop)]
pub struct Line {
    /// The file of the line: 0 for the source, k for the k-th include.
    pub file: u16,
    /// The line in that file, counted from 1.
    pub line: u32,
    /// What the line says.
    pub stmt: Stmt,
}

/// The lines of a text, each include line with the lines of its include after it.
///
/// Source: own choice ("Lists in types").
pub type Lines = ListOf<Line>;

/// What a source and its includes give.
///
/// Source: own choice ("The text of a source").
#[derive(Drop)]
pub enum Text {
    /// The lines, at most 65,535. None of them has a fault.
    Lines(Lines),
    /// The faults that lines have by themselves, at least one: E1 to E6, E11, E12, E16 to E19.
    Faults(Faults),
}
