//! The types of the records of an object: its first byte says what a record holds.

/// The first record of a module: its name, and the version of the object.
pub(crate) const HEADER: u8 = 0x02;

/// The last record of a module.
pub(crate) const END: u8 = 0x04;

/// A piece of content.
pub(crate) const CONTENT: u8 = 0x06;

/// A field that the linker fills.
pub(crate) const FIXUP: u8 = 0x08;

/// A segment.
pub(crate) const SEGMENT: u8 = 0x0E;

/// A public.
pub(crate) const PUBLIC: u8 = 0x16;

/// An external.
pub(crate) const EXTERNAL: u8 = 0x18;

/// The first record of a library: how many modules it has.
///
/// Source: OMF-51.
pub const LIBRARY_HEADER: u8 = 0x2C;
