//! What all crates share: cells, kinds, names, events, lists, lines, blanks, digits, limits and the numbers of faults.
#![tactic(auto)]

mod blanks;
mod cell;
mod citing;
mod cutting;
mod event;
mod extent;
mod fault;
mod hex;
mod kind;
mod limits;
mod list;
mod memory;
mod name;

pub use blanks::{are_blanks, blank_len, is_blank, is_skipped, word_len};
pub use cell::{Cell, Space};
pub use citing::cite;
pub use cutting::{first_line, line_count, lines};
pub use event::{Entry, Event, Why};
pub use extent::{Extent, cells_of, fits, meets};
pub use fault::{
    BAD_BYTE, BAD_FORM, BAD_INCLUDE, BASE_NOT_ALLOWED, DEFINED_TWICE, DIVISION_BY_ZERO,
    MISPLACED_END, NO_BIT, NO_EXPRESSION, NO_INSTRUCTION, OUT_OF_RANGE, PAST_THE_END, TOO_MANY,
    UNKNOWN_NAME,
};
pub use hex::{digit_value, hex_digit, hex2, hex4};
pub use kind::{
    Base, Kind, Reloc, allows, is_absolute, is_code, largest, may_overlay, most_of, same_kind,
    same_reloc,
};
pub use limits::{
    MOST_CONTROL_LINES, MOST_EXTERNALS, MOST_FILE_BYTES, MOST_FILES, MOST_FIXUPS,
    MOST_INCLUDE_LEVELS, MOST_LINE_BYTES, MOST_MODULE_SEGMENTS, MOST_MODULES, MOST_PIECE_BYTES,
    MOST_POINTS, MOST_RETURN_RECORDS, MOST_SCRIPT_LINES, MOST_SEGMENTS, MOST_SOURCE_LINES,
    MOST_STEPS, MOST_UNITS,
};
pub use list::{Bytes, ListOf, Names, copy_of};
pub use memory::NoMemory;
pub use name::{LONGEST, Name, is_name_byte};
