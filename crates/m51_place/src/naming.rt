//! The names that control lines order.
ghost use Rattle.std.specs.Prelude.{◌≡◌, position, IfOk};
ghost use Rattle.std.specs.Str.{bytes_eq};
ghost use Rattle.m51_place.specs.Naming.{AreNamings};
ghost use Rattle.m51_place.specs.Order.{names_ordered_by, naming_of, ordered_names};

use m51_cells::{Name, NoMemory};
use m51_control::{Class, Control, class_of, same_class};
use m51_resolve::JoinedSegment;
use std::alloc::Global;

/// The names that lines order of each class, in the order of lines and names.
///
/// Source: RL51 guide.
#[derive(Drop)]
pub struct Namings {
    pub bitaddressable: Vec<Name>,
    pub bits: Vec<Name>,
    pub direct: Vec<Name>,
    pub idata: Vec<Name>,
    pub xdata: Vec<Name>,
    pub code: Vec<Name>,
    /// What has no class: none.
    pub other: Vec<Name>,
}

// The names that a line orders of this class.
fn names_ordered_by(class: Option<Class>, control: &Control) -> &[Name]
    ensures { result.now ≡ names_ordered_by class control.now }
{
    match (class, control) {
        (Some(class), Control::Order(other, names)) if same_class(class, *other) =>
            names.as_slice(),
        _ => &[],
    }
}

// The names that lines order of this class.
fn ordered_names(
    alloc: Global,
    controls: &[(u32, Control)],
    class: Option<Class>,
) -> Result<Vec<Name>, NoMemory>
    ensures { IfOk result (λ names. names.items ≡ ordered_names controls.now class) }
{
    let mut names = Vec::new(alloc);
    for line in controls {
        names.extend_from_slice(names_ordered_by(class, &line.1))?;
    }
    Ok(names)
}

// The names that lines order, each class once.
pub(crate) fn class_namings(alloc: Global, controls: &[(u32, Control)]) -> Result<Namings, NoMemory>
    ensures { IfOk result (λ namings. AreNamings controls.now namings) }
{
    Ok(Namings {
        bitaddressable: ordered_names(alloc, controls, Some(Class::Bitaddressable))?,
        bits: ordered_names(alloc, controls, Some(Class::Bits))?,
        direct: ordered_names(alloc, controls, Some(Class::Direct))?,
        idata: ordered_names(alloc, controls, Some(Class::Idata))?,
        xdata: ordered_names(alloc, controls, Some(Class::Xdata))?,
        code: ordered_names(alloc, controls, Some(Class::Code))?,
        other: ordered_names(alloc, controls, None)?,
    })
}

// The names of this class.
fn names_of<'a>(
    namings: &'a Namings,
    controls: &[(u32, Control)],
    class: Option<Class>,
) -> &'a [Name]
    requires { AreNamings controls.now namings.now }
    ensures { result.now ≡ ordered_names controls.now class }
{
    match class {
        Some(Class::Bitaddressable) => &namings.bitaddressable,
        Some(Class::Bits) => &namings.bits,
        Some(Class::Direct) => &namings.direct,
        Some(Class::Idata) => &namings.idata,
        Some(Class::Xdata) => &namings.xdata,
        Some(Class::Code) => &namings.code,
        None => &namings.other,
    }
}

// The first of the names that is the segment's.
fn first_naming(names: &[Name], segment: &JoinedSegment) -> Option<usize>
    ensures { result ≡ position (λ name. bytes_eq segment.now.title name) names.now }
{
    names
        .iter()
        .position(|name| segment.title.bytes() == name.bytes())
}

// The first naming of the segment among those of its class, if a line orders it.
pub(crate) fn naming_of(
    namings: &Namings,
    controls: &[(u32, Control)],
    segment: &JoinedSegment,
) -> Option<usize>
    requires { AreNamings controls.now namings.now }
    ensures { result ≡ naming_of controls.now segment.now }
{
    let class = class_of(segment.kind, segment.reloc);
    first_naming(names_of(namings, controls, class), segment)
}
