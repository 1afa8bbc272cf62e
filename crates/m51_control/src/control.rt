//! What a control line says.
ghost use Rattle.std.specs.Prelude.{◌≡◌, ◌↔◌, IsTrue};
ghost use Rattle.m51_control.specs.Classes.{class_of, same_class};

use m51_cells::{Kind, Name, Names, Reloc, Space};

/// A class of segments, as an order names it.
///
/// Source: own choice ("Control lines").
#[derive(Clone, Copy, Debug, PartialEq, Eq)]
pub enum Class {
    /// DATA segments whose bits have addresses.
    Bitaddressable,
    /// BIT.
    Bits,
    /// DATA that is not BITADDRESSABLE.
    Direct,
    /// IDATA.
    Idata,
    /// XDATA.
    Xdata,
    /// CODE.
    Code,
}

/// What a control line says. A unit is named by its segment's name, or by the title of an absolute segment.
///
/// Source: RL51 guide.
#[derive(Drop)]
pub enum Control {
    /// `OVERLAY(u > v, w)`: the first unit calls each of the others.
    Add(Name, Names),
    /// `OVERLAY(u ~ v, w)`: the first unit calls none of the others, though it refers to them.
    Cut(Name, Names),
    /// `NOOVERLAY(u)`: the locals and arguments of the unit share no cell with any other segment.
    NoOverlay(Name),
    /// `RESERVE(DATA(lo-hi))` or `RESERVE(XDATA(lo-hi))`: no relocatable segment lies in these bytes of internal RAM or
    /// external data memory, the first and the last among them.
    Reserve(Space, u16, u16),
    /// `ORDER(class, s, t)`: of the segments of the class that share no cell, these are placed first, in this order.
    Order(Class, Names),
}

/// The class of a segment of this kind and type: none where the segment is absolute, or has no kind.
///
/// Source: own choice ("Control lines").
pub fn class_of(kind: Kind, reloc: Reloc) -> Option<Class>
    ensures { result ≡ class_of kind reloc }
{
    match (kind, reloc) {
        (_, Reloc::Abs) => None,
        (Kind::Direct, Reloc::Bitaddressable) => Some(Class::Bitaddressable),
        (Kind::Direct, _) => Some(Class::Direct),
        (Kind::Bits, _) => Some(Class::Bits),
        (Kind::Idata, _) => Some(Class::Idata),
        (Kind::Xdata, _) => Some(Class::Xdata),
        (Kind::Code, _) => Some(Class::Code),
        (Kind::Number, _) => None,
    }
}

/// Whether the classes are the same.
///
/// Source: own choice ("Control lines").
pub fn same_class(one: Class, two: Class) -> bool
    ensures word { result ≡ same_class one two }
    ensures same { IsTrue result ↔ one ≡ two }
{
    one == two
}
