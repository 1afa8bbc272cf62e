//! Which control lines fit the joined segments.
ghost use Rattle.std.specs.Prelude.{◌≡◌, IfOk, is_some};
ghost use Rattle.std.specs.List.{list_all};
ghost use Rattle.m51_graph.specs.Drawing.{edge_named};
ghost use Rattle.m51_graph.specs.Lines.{bad_line, bad_line_by, fits_by, is_made};
ghost use Rattle.m51_graph.specs.Locals.{own_units};
ghost use Rattle.m51_graph.specs.Ordering.{order_has};

use crate::drawing::edge_named;
use crate::edge_list::EdgeList;
use crate::ordering::{OrderNames, may_order, order_names};
use crate::unit_names::UnitNames;
use m51_cells::{Name, NoMemory};
use m51_control::{Class, Control};
use m51_resolve::JoinedSegment;
use std::alloc::Global;

// Whether each of the names may be in an order of the class.
fn are_ordered(orders: &OrderNames, class: Class, names: &[Name]) -> bool
    ensures { result ≡ list_all (order_has orders.now.keys class) names.now }
{
    names.iter().all(|name| may_order(orders, class, name))
}

// Whether each of these names is that of a unit, other than the first.
fn are_others(titles: &UnitNames, from: &Name, names: &[Name]) -> bool
    ensures { result ≡ list_all (λ name. is_some (edge_named titles.now from.now name)) names.now }
{
    names
        .iter()
        .all(|name| edge_named(titles, from, name).is_some())
}

// Whether the edge exists, and fixups make it.
fn is_made(made: &EdgeList, edge: Option<(u16, u16)>) -> bool
    ensures { result ≡ is_made made.now.list edge }
{
    match edge {
        Some(edge) => made.has(edge),
        None => false,
    }
}

// Whether fixups make the edges from the named unit to each of these.
fn are_made(titles: &UnitNames, made: &EdgeList, from: &Name, names: &[Name]) -> bool
    ensures { result ≡ list_all (λ name. is_made made.now.list (edge_named titles.now from.now name)) names.now }
{
    names
        .iter()
        .all(|name| is_made(made, edge_named(titles, from, name)))
}

// Whether the line fits: it names units that exist, adds edges between different ones, cuts edges that fixups make,
// and orders segments of its class.
fn fits(titles: &UnitNames, orders: &OrderNames, made: &EdgeList, control: &Control) -> bool
    ensures { result ≡ fits_by (order_has orders.now.keys) titles.now made.now.list control.now }
{
    match control {
        Control::Add(from, names) => {
            titles.named(from).is_some() && are_others(titles, from, names.as_slice())
        }
        Control::Cut(from, names) => {
            titles.named(from).is_some() && are_made(titles, made, from, names.as_slice())
        }
        Control::NoOverlay(name) => titles.named(name).is_some(),
        Control::Reserve(_, _, _) => true,
        Control::Order(class, names) => are_ordered(orders, *class, names.as_slice()),
    }
}

// The number of the first line that does not fit, by the names that may be in orders.
fn bad_line_by(
    titles: &UnitNames,
    orders: &OrderNames,
    controls: &[(u32, Control)],
    made: &EdgeList,
) -> Option<u32>
    ensures { result ≡ bad_line_by (order_has orders.now.keys) titles.now controls.now made.now.list }
{
    controls
        .iter()
        .find(|line| !fits(titles, orders, made, &line.1))
        .map(|line| line.0)
}

// The number of the first line that does not fit. The own unit of each segment that is overlaid is in the list.
pub(crate) fn bad_line(
    alloc: Global,
    titles: &UnitNames,
    segments: &[JoinedSegment],
    own: &[Option<u16>],
    controls: &[(u32, Control)],
    made: &EdgeList,
) -> Result<Option<u32>, NoMemory>
    requires { own.now ≡ own_units titles.now controls.now segments.now }
    ensures { IfOk result (λ found. found ≡ bad_line titles.now segments.now controls.now made.now.list) }
{
    let orders = order_names(alloc, own, segments)?;
    Ok(bad_line_by(titles, &orders, controls, made))
}
