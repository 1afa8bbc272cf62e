//! Which names are allowed in an order of which class.
ghost use Rattle.std.specs.Prelude.{◌≡◌, ◌||◌, ℕ, List, false, IfOk, OnOk, length};
ghost use Rattle.std.specs.Option.{option_map_or};
ghost use Rattle.m51_control.specs.declared.control.Class.{Class};
ghost use Rattle.m51_graph.specs.Ordering.{adds_order, class_number, order_has, order_key, orders_have, same_key};

use indexmap::IndexSet;
use m51_cells::{Name, NoMemory};
use m51_control::{Class, class_of};
use m51_resolve::JoinedSegment;
use std::alloc::Global;

// The names that may be in orders, each with the number of its class.
pub(crate) type OrderNames = IndexSet<(u8, Name)>;

// A number for each class.
fn class_number(class: Class) -> u8
    ensures { result ≡ class_number class }
{
    match class {
        Class::Bitaddressable => 0,
        Class::Bits => 1,
        Class::Direct => 2,
        Class::Idata => 3,
        Class::Xdata => 4,
        Class::Code => 5,
    }
}

// What a segment with this own unit, if it is overlaid, adds to the set: nothing where it is overlaid or absolute.
fn order_key(own: Option<u16>, segment: &JoinedSegment) -> Option<(u8, Name)>
    ensures { result ≡ order_key own segment.now }
{
    if own.is_some() {
        return None;
    }
    match class_of(segment.kind, segment.reloc) {
        Some(class) => Some((class_number(class), segment.title)),
        None => None,
    }
}

// Adds the key, if there is one.
fn add_key(names: &mut OrderNames, found: Option<(u8, Name)>) -> Result<(), NoMemory>
    ensures { OnOk result ((class : Class) (name : List ℕ) → order_has names.new.keys class name
        ≡ (option_map_or (λ key. same_key key (class_number class, name)) found false
        || order_has names.old.keys class name)) }
{
    if let Some(key) = found {
        names.insert(key)?;
    }
    Ok(())
}

// The names that may be in orders: those of relocatable segments that are not overlaid. The own unit of each segment
// that is overlaid is in the other list.
pub(crate) fn order_names(
    alloc: Global,
    own: &[Option<u16>],
    segments: &[JoinedSegment],
) -> Result<OrderNames, NoMemory>
    requires { length own.now ≡ length segments.now }
    ensures { IfOk result (λ names. order_has names.keys ≡ orders_have own.now segments.now) }
{
    let mut names = IndexSet::new(alloc);
    for (number, segment) in segments.iter().enumerate() {
        add_key(&mut names, order_key(own[number], segment))?;
    }
    Ok(names)
}

// Whether a segment that has that name may be in an order of the class.
pub(crate) fn may_order(names: &OrderNames, class: Class, name: &Name) -> bool
    ensures { result ≡ order_has names.now.keys class name.now }
{
    names.contains(&(class_number(class), *name))
}
