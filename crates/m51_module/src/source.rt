//! Source files, the rows of their listing, and their faults.
use m51_cells::{Bytes, ListOf};

/// A source file or an include.
///
/// Source: own choice ("Files").
#[derive(Drop)]
pub struct SourceFile {
    pub name: Bytes,
    pub bytes: Bytes,
}

/// What a line of a source gives.
///
/// Source: own choice ("Listing").
#[derive(Clone, Copy, Debug, PartialEq, Eq)]
pub struct Row {
    /// The file of the line: 0 for the source, k for the k-th include.
    pub file: u16,
    /// The line in that file, counted from 1.
    pub line: u32,
    /// The address of what the line gives, modulo 65,536, if it has one.
    pub place: Option<u16>,
    /// How many of the bytes count: 0 to 3.
    pub count: u8,
    /// The first bytes that the line gives.
    pub bytes: [u8; 3],
    /// A fixup lies in the statement.
    pub marked: bool,
}

/// The rows of a source, in line order.
///
/// Source: own choice ("Lists in types").
pub type Rows = ListOf<Row>;

/// A fault of a line.
///
/// Source: own choice ("Faults of a source").
#[derive(Clone, Copy, Debug, PartialEq, Eq)]
pub struct Fault {
    /// The file of the line: 0 for the source, k for the k-th include.
    pub file: u16,
    /// The line in that file, counted from 1.
    pub line: u32,
    /// The number that is printed after E.
    pub number: u8,
}

/// The faults of a source, in line order.
///
/// Source: own choice ("Lists in types").
pub type Faults = ListOf<Fault>;
