//! The numbers of the faults of a line, from 6 on: those below are of the tokens of a line.

/// No expression or operand where one is needed.
///
/// Source: own choice ("Faults of a source").
pub const NO_EXPRESSION: u8 = 6;

/// A name without a value.
///
/// Source: own choice ("Faults of a source").
pub const UNKNOWN_NAME: u8 = 7;

/// A base that is not allowed.
///
/// Source: own choice ("Faults of a source").
pub const BASE_NOT_ALLOWED: u8 = 8;

/// Division by 0.
///
/// Source: own choice ("Faults of a source").
pub const DIVISION_BY_ZERO: u8 = 9;

/// A bit number over 7, or a byte without bits.
///
/// Source: own choice ("Faults of a source").
pub const NO_BIT: u8 = 10;

/// No such instruction, or no such operands.
///
/// Source: own choice ("Faults of a source").
pub const NO_INSTRUCTION: u8 = 11;

/// A directive or control with a syntax error or in a wrong segment, or a reserved word that is defined.
///
/// Source: own choice ("Faults of a source").
pub const BAD_FORM: u8 = 12;

/// A name that is defined twice.
///
/// Source: own choice ("Faults of a source").
pub const DEFINED_TWICE: u8 = 13;

/// An operand out of its range or class.
///
/// Source: own choice ("Faults of a source").
pub const OUT_OF_RANGE: u8 = 14;

/// An address past the end of the memory.
///
/// Source: own choice ("Faults of a source").
pub const PAST_THE_END: u8 = 15;

/// No END, END in an included file, or text after END.
///
/// Source: own choice ("Faults of a source").
pub const MISPLACED_END: u8 = 16;

/// A file to include that is not given, or that is nested over 8 deep.
///
/// Source: own choice ("Faults of a source").
pub const BAD_INCLUDE: u8 = 17;

/// A byte that is no tab, line end or 20H to 7EH.
///
/// Source: own choice ("Faults of a source").
pub const BAD_BYTE: u8 = 18;

/// Too many segments, externals, fixups or lines.
///
/// Source: own choice ("Faults of a source").
pub const TOO_MANY: u8 = 19;
