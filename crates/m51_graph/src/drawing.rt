//! The edges between units.
ghost use Rattle.std.specs.Prelude.{◌≡◌, ◌||◌, ℕ, IfOk, IfSome, IsOk, Some, filter, length, not, slice_get};
ghost use Rattle.std.specs.List.{filter_map, list_any};
ghost use Rattle.m51_resolve.specs.Joining.{segments_of};
ghost use Rattle.m51_resolve.specs.Referents.{IsFixupThere};
ghost use Rattle.m51_graph.specs.DrawnEdges.{IsEdgeWithin};
ghost use Rattle.m51_graph.specs.Drawing.{added_by, cuts, edge_between, edge_named, edges_of, fixup_edge, fixup_edges};
ghost use Rattle.m51_graph.specs.Drawing.{is_cut, is_edge, module_edges, with_added, with_edges};
ghost use Rattle.m51_relations.specs.Rows.{pairs};
ghost use Rattle.m51_graph.specs.Units.{units_of};

use crate::edge_list::EdgeList;
use crate::unit_names::UnitNames;
use crate::unit_table::UnitTable;
use m51_cells::{Base, Name, NoMemory};
use m51_control::Control;
use m51_module::{Fixup, Module};
use m51_relations::BitRows;
use m51_resolve::Joined;
use std::alloc::{AllocError, Global};

// The edge from one unit to another: there is none from a unit to itself.
pub(crate) fn edge_between(from: Option<u16>, to: Option<u16>) -> Option<(u16, u16)>
    ensures { result ≡ edge_between from to }
{
    match (from, to) {
        (Some(from), Some(to)) if from != to => Some((from, to)),
        _ => None,
    }
}

// The edge that a fixup makes, whatever its form.
fn fixup_edge(joined: &Joined, units: &UnitTable, module: u8, fixup: &Fixup) -> Option<(u16, u16)>
    requires there { IsFixupThere joined.now «module» fixup.now }
    requires units { units.now ≡ units_of (segments_of joined.now) }
    ensures { result ≡ fixup_edge joined.now «module» fixup.now }
{
    edge_between(
        units.unit_at(joined.referent(module, Base::Segment(fixup.segment))),
        units.unit_at(joined.referent(module, fixup.target)),
    )
}

// Draws the edges that the fixups of these parts make, which are those of the module.
fn draw_fixups(
    edges: &mut EdgeList,
    joined: &Joined,
    units: &UnitTable,
    module: u8,
    parts: &Module,
) -> Result<(), NoMemory>
    requires there { slice_get joined.now «module» ≡ Some parts.now }
    requires units { units.now ≡ units_of (segments_of joined.now) }
    requires count { edges.old.count ≡ length units.now }
    ensures count { edges.new.count ≡ edges.old.count }
    ensures drawn { IsOk result → edges.new.list
        ≡ with_edges edges.old.list (filter_map (fixup_edge joined.now «module») parts.now.fixups) }
{
    for fixup in parts.fixups() {
        edges.draw_found(fixup_edge(joined, units, module, fixup))?;
    }
    Ok(())
}

// Draws the edges that the fixups of the module make.
fn draw_module(
    edges: &mut EdgeList,
    joined: &Joined,
    units: &UnitTable,
    module: u8,
) -> Result<(), NoMemory>
    requires units { units.now ≡ units_of (segments_of joined.now) }
    requires count { edges.old.count ≡ length units.now }
    ensures count { edges.new.count ≡ edges.old.count }
    ensures drawn { IsOk result → edges.new.list ≡ with_edges edges.old.list (module_edges joined.now «module») }
{
    match joined.modules().get(usize::from(module)) {
        Some(parts) => draw_fixups(edges, joined, units, module, parts),
        None => Ok(()),
    }
}

// The edges that fixups make, each once, in order of first sight.
pub(crate) fn fixup_edges(
    alloc: Global,
    joined: &Joined,
    units: &UnitTable,
) -> Result<EdgeList, NoMemory>
    requires { units.now ≡ units_of (segments_of joined.now) }
    ensures { IfOk result (λ edges. edges ≡ record { count = length units.now; list = fixup_edges joined.now }) }
{
    let mut edges = EdgeList::none(alloc, units.count())?;
    for module in 0..joined.modules().len() {
        draw_module(&mut edges, joined, units, module as u8)?;
    }
    Ok(edges)
}

// The edge from the one named unit to the other.
pub(crate) fn edge_named(titles: &UnitNames, from: &Name, to: &Name) -> Option<(u16, u16)>
    ensures { result ≡ edge_named titles.now from.now to.now }
{
    edge_between(titles.named(from), titles.named(to))
}

// Draws the edges from the named unit to these.
fn draw_named(
    edges: &mut EdgeList,
    titles: &UnitNames,
    from: &Name,
    names: &[Name],
) -> Result<(), NoMemory>
    requires { edges.old.count ≡ length titles.now }
    ensures count { edges.new.count ≡ edges.old.count }
    ensures drawn { IsOk result → edges.new.list
        ≡ with_edges edges.old.list (filter_map (edge_named titles.now from.now) names.now) }
{
    for name in names {
        edges.draw_found(edge_named(titles, from, name))?;
    }
    Ok(())
}

// Draws the edges that the line adds.
fn draw_added(edges: &mut EdgeList, titles: &UnitNames, control: &Control) -> Result<(), NoMemory>
    requires { edges.old.count ≡ length titles.now }
    ensures count { edges.new.count ≡ edges.old.count }
    ensures drawn { IsOk result → edges.new.list ≡ with_edges edges.old.list (added_by titles.now control.now) }
{
    match control {
        Control::Add(from, names) => draw_named(edges, titles, from, names.as_slice()),
        _ => Ok(()),
    }
}

// Draws the edges that lines add.
fn draw_lines(
    edges: &mut EdgeList,
    titles: &UnitNames,
    controls: &[(u32, Control)],
) -> Result<(), NoMemory>
    requires { edges.old.count ≡ length titles.now }
    ensures { IsOk result → edges.new.list ≡ with_added titles.now controls.now edges.old.list }
{
    for line in controls {
        draw_added(edges, titles, &line.1)?;
    }
    Ok(())
}

// Puts the edge into the set, if there is one.
fn put_edge(set: &mut BitRows, found: Option<(u16, u16)>)
    requires { IfSome found (λ edge. IsEdgeWithin set.old.count edge) }
    ensures count { set.new.count ≡ set.old.count }
    ensures pairs { (u v : ℕ) → pairs set.new u v ≡ (is_edge (u, v) found || pairs set.old u v) }
{
    if let Some(edge) = found {
        set.put(edge.0, edge.1);
    }
}

// Puts the edges from the named unit to these into the set.
fn put_named(set: &mut BitRows, titles: &UnitNames, from: &Name, names: &[Name])
    requires { set.old.count ≡ length titles.now }
    ensures count { set.new.count ≡ set.old.count }
    ensures pairs { (u v : ℕ) → pairs set.new u v
        ≡ (pairs set.old u v || list_any (λ name. is_edge (u, v) (edge_named titles.now from.now name)) names.now) }
{
    for name in names {
        put_edge(set, edge_named(titles, from, name));
    }
}

// Puts the edges that the line cuts into the set.
fn put_cut(set: &mut BitRows, titles: &UnitNames, control: &Control)
    requires { set.old.count ≡ length titles.now }
    ensures count { set.new.count ≡ set.old.count }
    ensures pairs { (u v : ℕ) → pairs set.new u v ≡ (pairs set.old u v || cuts titles.now (u, v) control.now) }
{
    if let Control::Cut(from, names) = control {
        put_named(set, titles, from, names.as_slice());
    }
}

// The edges that lines cut.
fn cut_rows(
    alloc: Global,
    titles: &UnitNames,
    controls: &[(u32, Control)],
) -> Result<BitRows, NoMemory>
    ensures { IfOk result (λ set. (u v : ℕ) → pairs set u v ≡ is_cut titles.now controls.now (u, v)) }
{
    let mut set = BitRows::none(alloc, titles.titles().len())?;
    for line in controls {
        put_cut(&mut set, titles, &line.1);
    }
    Ok(set)
}

// Those of the edges that are not in the set.
fn outside(
    alloc: Global,
    edges: &[(u16, u16)],
    cut: &BitRows,
) -> Result<Vec<(u16, u16)>, AllocError>
    ensures { IfOk result (λ left. left.items ≡ filter (λ edge. not (pairs cut.now edge.0 edge.1)) edges.now) }
{
    edges
        .iter()
        .copied()
        .filter(|edge| !cut.has(edge.0, edge.1))
        .collect(alloc)
}

// Those of the edges that no line cuts.
fn uncut(
    alloc: Global,
    titles: &UnitNames,
    controls: &[(u32, Control)],
    edges: &[(u16, u16)],
) -> Result<Vec<(u16, u16)>, NoMemory>
    ensures { IfOk result (λ left. left.items ≡ filter (λ edge. not (is_cut titles.now controls.now edge)) edges.now) }
{
    let cut = cut_rows(alloc, titles, controls)?;
    Ok(outside(alloc, edges, &cut)?)
}

// The edges that fixups make or lines add, without those that a line cuts, wherever that line is.
pub(crate) fn edges_of(
    alloc: Global,
    titles: &UnitNames,
    controls: &[(u32, Control)],
    made: EdgeList,
) -> Result<Vec<(u16, u16)>, NoMemory>
    requires { made.count ≡ length titles.now }
    ensures { IfOk result (λ edges. edges.items ≡ edges_of titles.now controls.now made.list) }
{
    let mut edges = made;
    draw_lines(&mut edges, titles, controls)?;
    uncut(alloc, titles, controls, edges.list())
}
