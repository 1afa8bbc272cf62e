//! How large things may be: each limit of this project, once.

/// The most files of one run of the program.
///
/// Source: own choice ("Limits").
pub const MOST_FILES: usize = 64;

/// The most bytes of a file that is read.
///
/// Source: own choice ("Limits").
pub const MOST_FILE_BYTES: usize = 1_048_576;

/// The most lines of a source, those of included files among them.
///
/// Source: own choice ("Limits").
pub const MOST_SOURCE_LINES: usize = 65_535;

/// The most bytes of a line of a source or of a file of control lines, without its end.
///
/// Source: own choice ("Limits").
pub const MOST_LINE_BYTES: usize = 255;

/// How many levels deep a file may be included: the source's own lines include at level 1.
///
/// Source: own choice ("Limits").
pub const MOST_INCLUDE_LEVELS: usize = 8;

/// The most segments of a module.
///
/// Source: own choice ("Limits").
pub const MOST_MODULE_SEGMENTS: usize = 254;

/// The most externals of a module.
///
/// Source: own choice ("Limits").
pub const MOST_EXTERNALS: usize = 255;

/// The most fixups of a module.
///
/// Source: own choice ("Limits").
pub const MOST_FIXUPS: usize = 65_535;

/// The most bytes of a piece of content.
///
/// Source: own choice ("Limits").
pub const MOST_PIECE_BYTES: usize = 1_024;

/// The most modules of a link.
///
/// Source: own choice ("Limits").
pub const MOST_MODULES: usize = 255;

/// The most joined segments of a link.
///
/// Source: own choice ("Limits").
pub const MOST_SEGMENTS: usize = 2_000;

/// The most units of a link.
///
/// Source: own choice ("Limits").
pub const MOST_UNITS: usize = 1_000;

/// The most lines of a file of control lines.
///
/// Source: own choice ("Limits").
pub const MOST_CONTROL_LINES: usize = 1_000;

/// The most lines of a script.
///
/// Source: own choice ("Limits").
pub const MOST_SCRIPT_LINES: usize = 65_536;

/// The most steps of a run.
///
/// Source: own choice ("Limits").
pub const MOST_STEPS: u32 = 10_000_000;

/// The most records of returns that a run keeps.
///
/// Source: own choice ("Limits").
pub const MOST_RETURN_RECORDS: usize = 128;

/// The most points of a stack bound.
///
/// Source: own choice ("Limits").
pub const MOST_POINTS: usize = 1_000_000;
