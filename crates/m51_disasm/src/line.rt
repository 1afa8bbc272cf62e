//! Lines of a disassembly.
use crate::statement::Content;

/// How the target of a jump, branch or call is written.
///
/// Source: own choice ("Disassembly").
#[derive(Clone, Copy)]
pub enum Target {
    /// There is none.
    Nowhere,
    /// By the label of this address.
    Label(u16),
    /// By its number.
    Number(u16),
}

/// The line of a statement.
///
/// Source: own choice ("Disassembly").
#[derive(Clone, Copy)]
pub struct StatementLine {
    /// The address of its label, if it has one.
    pub label: Option<u16>,
    /// What it says.
    pub content: Content,
    /// Where its instruction leads.
    pub target: Target,
}

/// A line.
///
/// Source: own choice ("Disassembly").
#[derive(Clone, Copy)]
pub enum SourceLine {
    /// `$NOMOD51`
    Nomod51,
    /// `CSEG AT` and this base.
    Segment(u16),
    /// A statement.
    Statement(StatementLine),
    /// `END`
    End,
}
