//! The segments of a module.
ghost use Rattle.std.specs.Prelude.{◌≡◌};
ghost use Rattle.m51_module.specs.Arguments.{is_argument_name};

use m51_cells::{Kind, ListOf, Name, Reloc};

/// A segment: bytes of one memory that stay together.
///
/// Source: own choice ("Valid modules").
#[derive(Clone, Copy, Debug, PartialEq, Eq)]
pub struct Segment {
    /// The name of a relocatable segment; an absolute one has none.
    pub name: Name,
    pub kind: Kind,
    pub reloc: Reloc,
    /// OVERLAYABLE: the segment holds locals or arguments of a unit.
    pub overlay: bool,
    /// ARGUMENT: the segment holds the arguments of a unit, which its callers fill. It is OVERLAYABLE DATA then, and
    /// its name begins with `?AG?`.
    pub argument: bool,
    /// The base of an absolute segment, in bytes, for BIT in bits; 0 else.
    pub base: u16,
    /// The size, in bytes, for BIT in bits.
    pub size: u16,
}

/// The segments of a module, counted from 1.
///
/// Source: own choice ("Lists in types").
pub type Segments = ListOf<Segment>;

/// Whether a segment of this name may hold arguments: the name begins with `?AG?`.
///
/// Source: own choice ("Argument segments").
pub fn is_argument_name(name: &Name) -> bool
    ensures { result ≡ is_argument_name name.now }
{
    name.bytes().starts_with(b"?AG?")
}
