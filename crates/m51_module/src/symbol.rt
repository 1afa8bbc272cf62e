//! The names that modules give to one another.
use m51_cells::{Base, Kind, ListOf, Name};

/// A name that other modules may use.
///
/// Source: own choice ("Valid modules").
#[derive(Clone, Copy, Debug, PartialEq, Eq)]
pub struct Public {
    pub name: Name,
    pub kind: Kind,
    /// The segment that the number counts from, or none.
    pub base: Base,
    /// The value: an address, a bit address or a number; from the base of its segment in the module, if it has one.
    pub number: u16,
}

/// A name that another module defines.
///
/// Source: own choice ("Valid modules").
#[derive(Clone, Copy, Debug, PartialEq, Eq)]
pub struct External {
    pub name: Name,
    pub kind: Kind,
}

/// The publics of a module.
///
/// Source: own choice ("Lists in types").
pub type Publics = ListOf<Public>;

/// The externals of a module, counted from 1.
///
/// Source: own choice ("Lists in types").
pub type ExternalList = ListOf<External>;
