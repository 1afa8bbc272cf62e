//! Locals and argument segments of units, and which segments are overlaid.
ghost use Rattle.std.specs.Prelude.{◌≡◌, ◌≤◌, ◌<◌, ◌*◌, ◌++◌, ◌||◌, ℕ, false, nat_eq, length, map};
ghost use Rattle.std.specs.Prelude.{IfOk, IfSome, option_and_then, option_map, position};
ghost use Rattle.std.specs.Option.{option_map_or};
ghost use Rattle.std.specs.Str.{bytes_eq};
ghost use Rattle.m51_cells.specs.declared.limits.TheConstants.{MOST_UNITS};
ghost use Rattle.m51_relations.specs.Bits.{bit};
ghost use Rattle.m51_graph.specs.Locals.{unit_prefix, is_apart, is_lost, keeps_apart, local_front, lost_segment};
ghost use Rattle.m51_graph.specs.Locals.{overlaid_unless, own_name, own_unit, own_units, unit_front, unit_name};
ghost use Rattle.m51_graph.specs.Units.{named};

use crate::unit_names::UnitNames;
use crate::units::as_unit;
use m51_cells::{Kind, Name, NoMemory};
use m51_control::Control;
use m51_relations::BitRow;
use m51_resolve::JoinedSegment;
use std::alloc::{AllocError, Global};

// How the names of units begin that may have locals and an argument segment.
const UNIT_FRONT: [u8; 4] = *b"?PR?";

// How the names of the locals of each kind begin.
fn local_front(kind: Kind) -> Option<[u8; 4]>
    ensures { result ≡ local_front kind }
{
    match kind {
        Kind::Direct => Some(*b"?DT?"),
        Kind::Idata => Some(*b"?ID?"),
        Kind::Bits => Some(*b"?BI?"),
        Kind::Xdata => Some(*b"?XD?"),
        Kind::Code => None,
        Kind::Number => None,
    }
}

// How the name of the segment begins where it is that of a unit.
fn unit_prefix(segment: &JoinedSegment) -> Option<[u8; 4]>
    ensures { result ≡ unit_prefix segment.now }
{
    if segment.argument {
        return Some(*b"?AG?");
    }
    local_front(segment.kind)
}

// What follows this beginning of the name, if it has it.
fn after_front(name: &[u8], front: [u8; 4]) -> Option<&[u8]>
    ensures { option_map (λ rest. unit_front ++ rest.now) result ≡ unit_name name.now front }
{
    if !name.starts_with(&front) {
        return None;
    }
    Some(&name[4..])
}

// Whether the title is ?PR? and then these bytes.
#[tactic(auto, using(crate::proofs::NamedUnits::front_split))]
fn is_unit_of(title: &[u8], rest: &[u8]) -> bool
    ensures { result ≡ bytes_eq title.now (unit_front ++ rest.now) }
{
    if !title.starts_with(&UNIT_FRONT) {
        return false;
    }
    title[4..] == rest[..]
}

// The index of the first title that is ?PR? and then these bytes.
fn place_of(titles: &[Name], rest: &[u8]) -> Option<usize>
    ensures index { result ≡ position (λ title. bytes_eq title (unit_front ++ rest.now)) titles.now }
    ensures inside { IfSome result (λ index. index < length titles.now) }
{
    titles
        .iter()
        .position(|title| is_unit_of(title.bytes(), rest))
}

// The first unit with the title that is ?PR? and then these bytes.
fn unit_of(titles: &[Name], rest: &[u8]) -> Option<u16>
    requires { length titles.now ≤ MOST_UNITS }
    ensures { result ≡ position (λ title. bytes_eq title (unit_front ++ rest.now)) titles.now }
{
    as_unit(place_of(titles, rest))
}

// The unit whose name is this one with `?PR?` in place of the prefix `front`.
fn named_with(titles: &[Name], name: &[u8], front: [u8; 4]) -> Option<u16>
    requires { length titles.now ≤ MOST_UNITS }
    ensures { result ≡ option_and_then (named titles.now) (unit_name name.now front) }
{
    match after_front(name, front) {
        Some(rest) => unit_of(titles, rest),
        None => None,
    }
}

// The unit whose local or argument segment it is.
fn own_unit(titles: &[Name], segment: &JoinedSegment) -> Option<u16>
    requires { length titles.now ≤ MOST_UNITS }
    ensures { result ≡ own_unit titles.now segment.now }
{
    match unit_prefix(segment) {
        Some(front) => named_with(titles, segment.title.bytes(), front),
        None => None,
    }
}

// Whether the segment is marked OVERLAYABLE and is neither a local nor the argument segment of a unit.
fn is_lost(titles: &[Name], segment: &JoinedSegment) -> bool
    requires { length titles.now ≤ MOST_UNITS }
    ensures { result ≡ is_lost titles.now segment.now }
{
    segment.overlay && own_unit(titles, segment).is_none()
}

// The first segment that is marked OVERLAYABLE and is neither a local nor the argument segment of a unit.
pub(crate) fn lost_segment(titles: &[Name], segments: &[JoinedSegment]) -> Option<Name>
    requires { length titles.now ≤ MOST_UNITS }
    ensures { result ≡ lost_segment titles.now segments.now }
{
    segments
        .iter()
        .find(|segment| is_lost(titles, segment))
        .map(|segment| segment.title)
}

// Puts the named unit into the row, if there is one.
fn put_named(row: &mut BitRow, titles: &UnitNames, name: &Name)
    requires { length titles.now ≤ 64 * length row.old }
    ensures len { length row.new ≡ length row.old }
    ensures put { (unit : ℕ) → bit row.new unit
        ≡ (option_map_or (nat_eq unit) (named titles.now name.now) false || bit row.old unit) }
{
    if let Some(unit) = titles.named(name) {
        row.put(usize::from(unit));
    }
}

// Puts the unit into the row whose segments the line keeps apart, if there is one.
fn put_apart(row: &mut BitRow, titles: &UnitNames, control: &Control)
    requires { length titles.now ≤ 64 * length row.old }
    ensures len { length row.new ≡ length row.old }
    ensures put { (unit : ℕ) → bit row.new unit ≡ (keeps_apart titles.now unit control.now || bit row.old unit) }
{
    if let Control::NoOverlay(name) = control {
        put_named(row, titles, name);
    }
}

// The units whose segments lines keep apart.
fn apart_units(
    alloc: Global,
    titles: &UnitNames,
    controls: &[(u32, Control)],
) -> Result<BitRow, NoMemory>
    ensures { IfOk result (λ row. bit row ≡ is_apart titles.now controls.now) }
{
    let mut row = BitRow::blank(alloc, (titles.titles().len() + 63) / 64)?;
    for line in controls {
        put_apart(&mut row, titles, &line.1);
    }
    Ok(row)
}

// The own unit of a segment that is overlaid: one that is marked OVERLAYABLE, unless lines keep the segments of its own
// unit apart.
fn overlaid_unless(apart: &BitRow, titles: &[Name], segment: &JoinedSegment) -> Option<u16>
    requires { length titles.now ≤ MOST_UNITS }
    ensures { result ≡ overlaid_unless (bit apart.now) titles.now segment.now }
{
    if !segment.overlay {
        return None;
    }
    match own_unit(titles, segment) {
        Some(unit) if !apart.has(usize::from(unit)) => Some(unit),
        _ => None,
    }
}

// The own unit of each of the segments that is overlaid.
fn each_own(
    alloc: Global,
    apart: &BitRow,
    titles: &[Name],
    segments: &[JoinedSegment],
) -> Result<Vec<Option<u16>>, AllocError>
    requires { length titles.now ≤ MOST_UNITS }
    ensures { IfOk result (λ own. own.items ≡ map (overlaid_unless (bit apart.now) titles.now) segments.now) }
{
    segments
        .iter()
        .map(|segment| overlaid_unless(apart, titles, segment))
        .collect(alloc)
}

// The own unit of each joined segment that is overlaid.
pub(crate) fn own_units(
    alloc: Global,
    titles: &UnitNames,
    controls: &[(u32, Control)],
    segments: &[JoinedSegment],
) -> Result<Vec<Option<u16>>, NoMemory>
    ensures { IfOk result (λ own. own.items ≡ own_units titles.now controls.now segments.now) }
{
    let apart = apart_units(alloc, titles, controls)?;
    Ok(each_own(alloc, &apart, titles.titles(), segments)?)
}

// Whether each of the segments has the argument mark.
fn each_mark(alloc: Global, segments: &[JoinedSegment]) -> Result<Vec<bool>, AllocError>
    ensures { IfOk result (λ marks. marks.items ≡ map (λ j. j.argument) segments.now) }
{
    segments
        .iter()
        .map(|segment| segment.argument)
        .collect(alloc)
}

// Whether each joined segment has the argument mark.
pub(crate) fn argument_marks(
    alloc: Global,
    segments: &[JoinedSegment],
) -> Result<Vec<bool>, NoMemory>
    ensures { IfOk result (λ marks. marks.items ≡ map (λ j. j.argument) segments.now) }
{
    Ok(each_mark(alloc, segments)?)
}
