//! The order in which relocatable segments are placed.
ghost use Rattle.std.specs.Prelude.{◌≡◌, ◌<◌, ◌≤◌, ◌||◌, ◌&&◌, [], codes, nat_eq, nat_lt, position, unwrap_or, Some};
ghost use Rattle.std.specs.Prelude.{IfOk, IfSome, OnOk, length, slice_get};
ghost use Rattle.std.specs.List.{position_or_len};
ghost use Rattle.std.specs.Str.{bytes_eq};
ghost use Rattle.m51_cells.specs.declared.limits.TheConstants.{MOST_SEGMENTS};
ghost use Rattle.m51_module.specs.Roots.{vectors};
ghost use Rattle.m51_graph.specs.Graphs.{lies_under};
ghost use Rattle.m51_graph.specs.Leading.{leads};
ghost use Rattle.m51_place.specs.Naming.{AreNamings};
ghost use Rattle.m51_place.specs.Order.{before_by, class_number, comes_before, first_sort_key, group_before};
ghost use Rattle.m51_place.specs.Order.{group_number};
ghost use Rattle.m51_place.specs.Order.{group_of, is_idata, is_stack, order_of, own_at, group_unless_overlaid, put};
ghost use Rattle.m51_place.specs.Order.{put_all};
ghost use Rattle.m51_place.specs.Order.{rank_of, ranked_of, ranked_from, root_number, second_sort_key};

use crate::naming::{Namings, class_namings, naming_of};
use crate::{Group, Rank, Ranked};
use m51_cells::{Kind, NoMemory, is_absolute};
use m51_control::{Class, Control, class_of};
use m51_graph::Graph;
use m51_resolve::JoinedSegment;
use std::alloc::Global;

// The index of the class in the order of classes; a segment without one comes last.
fn class_number(class: Option<Class>) -> usize
    ensures { result ≡ class_number class }
{
    match class {
        Some(Class::Bitaddressable) => 0,
        Some(Class::Bits) => 1,
        Some(Class::Direct) => 2,
        Some(Class::Idata) => 3,
        Some(Class::Xdata) => 4,
        Some(Class::Code) => 5,
        None => 6,
    }
}

// The number of the group in its class.
fn group_number(group: Group) -> usize
    ensures { result ≡ group_number group }
{
    match group {
        Group::Named { naming: _ } => 0,
        Group::Plain => 1,
        Group::Overlaid { root: _, level: _ } => 2,
        Group::Stack => 3,
    }
}

// The first key within a group: the naming of a named segment, the root of an overlaid one.
fn first_sort_key(group: Group) -> usize
    ensures { result ≡ first_sort_key group }
{
    match group {
        Group::Named { naming } => naming,
        Group::Overlaid { root, level: _ } => root,
        Group::Plain | Group::Stack => 0,
    }
}

// The second key within a group: the level of the unit of an overlaid segment.
fn second_sort_key(group: Group) -> u16
    ensures { result ≡ second_sort_key group }
{
    match group {
        Group::Overlaid { root: _, level } => level,
        Group::Named { naming: _ } | Group::Plain | Group::Stack => 0,
    }
}

// Whether the kind is IDATA.
fn is_idata(kind: Kind) -> bool
    ensures { result ≡ is_idata kind }
{
    match kind {
        Kind::Idata => true,
        _ => false,
    }
}

// Whether the segment is the stack.
fn is_stack(segment: &JoinedSegment) -> bool
    ensures { result ≡ is_stack segment.now }
{
    is_idata(segment.kind) && segment.title.bytes() == b"?STACK".as_slice()
}

// The group of a segment that is not overlaid: by its naming, if a line orders it.
fn group_unless_overlaid(segment: &JoinedSegment, naming: Option<usize>) -> Group
    ensures { result ≡ group_unless_overlaid segment.now naming }
{
    match naming {
        Some(naming) => Group::Named { naming },
        None if is_stack(segment) => Group::Stack,
        None => Group::Plain,
    }
}

// The index among the vectors of the first root above the unit; 7 where there is none.
fn root_number(graph: &Graph, unit: u16) -> usize
    requires { unit < length graph.now.units }
    ensures { result ≡ root_number graph.now unit }
{
    let mut bits = graph.roots_of(unit);
    for index in 0..7 {
        if bits % 2 == 1 {
            return index;
        }
        bits /= 2;
    }
    7
}

// Whether the first number is less, or it is the same and what follows decides.
fn before_by(one: usize, two: usize, next: bool) -> bool
    ensures { result ≡ before_by one two next }
{
    one < two || (one == two && next)
}

// Whether the one group comes before the other, or they are alike and what follows decides.
fn group_before(one: Group, two: Group, next: bool) -> bool
    ensures { result ≡ group_before one two next }
{
    let by_second = before_by(
        usize::from(second_sort_key(one)),
        usize::from(second_sort_key(two)),
        next,
    );
    let by_first = before_by(first_sort_key(one), first_sort_key(two), by_second);
    before_by(group_number(one), group_number(two), by_first)
}

// Whether the one rank comes before the other.
fn comes_before(one: &Rank, two: &Rank) -> bool
    ensures { result ≡ comes_before one.now two.now }
{
    let by_group = group_before(one.group, two.group, one.number < two.number);
    before_by(class_number(one.class), class_number(two.class), by_group)
}

// The index of the first segment in the order that one of this rank comes before.
fn first_after(order: &[Ranked], rank: &Rank) -> Option<usize>
    ensures index { result ≡ position (λ t. comes_before rank.now t.rank) order.now }
    ensures inside { IfSome result (λ index. index < length order.now) }
{
    order
        .iter()
        .position(|ranked| comes_before(rank, &ranked.rank))
}

// The index in the order for one of this rank: the end, where it comes before none.
fn index_for(order: &[Ranked], rank: &Rank) -> usize
    ensures index { result ≡ unwrap_or (position (λ t. comes_before rank.now t.rank) order.now) (length order.now) }
    ensures inside { result ≤ length order.now }
{
    match first_after(order, rank) {
        Some(index) => index,
        None => order.len(),
    }
}

// Puts one more segment into the order.
fn put(order: &mut Vec<Ranked>, ranked: &Ranked) -> Result<(), NoMemory>
    ensures { OnOk result (order.new.items ≡ put ranked.now order.old.items) }
{
    let index = index_for(order, &ranked.rank);
    order.insert(index, *ranked)?;
    Ok(())
}

// The group of a segment; `own` is its unit if it is overlaid.
fn group_of(
    graph: &Graph,
    namings: &Namings,
    controls: &[(u32, Control)],
    segment: &JoinedSegment,
    own: Option<u16>,
) -> Group
    requires namings { AreNamings controls.now namings.now }
    requires own { IfSome own (λ unit. unit < length graph.now.units) }
    ensures { result ≡ group_of graph.now controls.now segment.now own }
{
    match own {
        Some(unit) => Group::Overlaid {
            root: root_number(graph, unit),
            level: graph.level(unit),
        },
        None => group_unless_overlaid(segment, naming_of(namings, controls, segment)),
    }
}

// A segment with its rank.
fn ranked_of(
    graph: &Graph,
    namings: &Namings,
    controls: &[(u32, Control)],
    number: u16,
    segment: &JoinedSegment,
) -> Ranked
    requires namings { AreNamings controls.now namings.now }
    requires number { number < length graph.now.own }
    ensures { result ≡ ranked_of graph.now controls.now number segment.now }
{
    let own = graph.owner(number);
    Ranked {
        number,
        segment: *segment,
        own,
        rank: Rank {
            class: class_of(segment.kind, segment.reloc),
            group: group_of(graph, namings, controls, segment, own),
            number,
        },
    }
}

// The relocatable segments, in joined order.
fn ranked_segments(
    alloc: Global,
    graph: &Graph,
    controls: &[(u32, Control)],
    segments: &[JoinedSegment],
) -> Result<Vec<Ranked>, NoMemory>
    requires few { length segments.now ≤ MOST_SEGMENTS }
    requires own { length graph.now.own ≡ length segments.now }
    ensures { IfOk result (λ ranked. ranked.items ≡ ranked_from graph.now controls.now 0 segments.now) }
{
    let namings = class_namings(alloc, controls)?;
    let mut ranked = Vec::new(alloc);
    for (number, segment) in segments.iter().enumerate() {
        if !is_absolute(segment.reloc) {
            ranked.push(ranked_of(graph, &namings, controls, number as u16, segment))?;
        }
    }
    Ok(ranked)
}

// These segments in the order of their ranks.
fn in_order(alloc: Global, ranked: &[Ranked]) -> Result<Vec<Ranked>, NoMemory>
    ensures { IfOk result (λ order. order.items ≡ put_all [] ranked.now) }
{
    let mut order = Vec::new(alloc);
    for next in ranked {
        put(&mut order, next)?;
    }
    Ok(order)
}

/// The relocatable segments in the order in which they are placed.
///
/// Error: out of memory.
///
/// Source: RL51 guide; own choice ("Order of placing").
pub(crate) fn order(
    alloc: Global,
    graph: &Graph,
    controls: &[(u32, Control)],
    segments: &[JoinedSegment],
) -> Result<Vec<Ranked>, NoMemory>
    requires few { length segments.now ≤ MOST_SEGMENTS }
    requires own { length graph.now.own ≡ length segments.now }
    ensures { IfOk result (λ order. order.items ≡ order_of graph.now controls.now segments.now) }
{
    let ranked = ranked_segments(alloc, graph, controls, segments)?;
    in_order(alloc, &ranked)
}
