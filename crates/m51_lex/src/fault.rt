//! The numbers of the faults of a line.

/// A character that begins no token.
///
/// Source: own choice ("Faults of a line").
pub const BAD_CHARACTER: u8 = 1;

/// A text that is not closed.
///
/// Source: own choice ("Faults of a line").
pub const UNCLOSED_TEXT: u8 = 2;

/// A number over 16 bits, or with a character that is no digit of its base.
///
/// Source: own choice ("Faults of a line").
pub const BAD_NUMBER: u8 = 3;

/// A name over 31 characters.
///
/// Source: own choice ("Faults of a line").
pub const LONG_NAME: u8 = 4;

/// A line over 255 bytes.
///
/// Source: own choice ("Faults of a line").
pub const LONG_LINE: u8 = 5;
