//! The calls of a program from start to start, in a list and in rows by the start that calls.
ghost use Rattle.std.specs.Prelude.{◌≡◌, ◌<◌, ℕ, length, IfOk, OnOk};
ghost use Rattle.m51_module.specs.Kept.{AreEmptyRows};
ghost use Rattle.m51_module.specs.declared.start.Start.TheVariants.{At};
ghost use Rattle.m51_stackbound.specs.Callers.{AreCallsOf, AreRowsOf, call_from, calls_of, with_call};

use crate::following::call_of;
use crate::marks::ADDRESSES;
use crate::point::Point;
use m51_cells::{ListOf, NoMemory};
use m51_module::{Image, Layout, Start};
use std::alloc::Global;

/// The starts that a start calls.
///
/// Source: own choice ("Stack bound").
pub(crate) type Callees = ListOf<u16>;

/// A call of a start.
///
/// Source: own choice ("Stack bound").
#[derive(Clone, Copy, Debug, PartialEq, Eq)]
pub(crate) struct Call {
    /// The start that calls.
    pub from: Start,
    /// The height of the point that calls, 0 to 255.
    pub height: u8,
    /// The start that is called.
    pub to: u16,
}

// The call that a point gives.
fn call_from(point: &Point, called: Option<u16>) -> Option<Call>
    ensures { result ≡ call_from point.now called }
{
    match called {
        Some(to) => Some(Call {
            from: point.start,
            height: point.height,
            to,
        }),
        None => None,
    }
}

// The calls that points give, in the order of the points.
fn calls_in_order(
    alloc: Global,
    layout: &Layout,
    image: &Image,
    points: &[Point],
) -> Result<Vec<Call>, NoMemory>
    ensures { IfOk result (λ calls. calls.items ≡ calls_of layout.now image.now points.now) }
{
    let mut calls = Vec::new(alloc);
    for point in points {
        match call_from(point, call_of(layout, image, point)) {
            Some(call) => calls.push(call)?,
            None => {}
        }
    }
    Ok(calls)
}

/// The calls that points give, the last one first: a search finds a start before those that it calls, and depths rise
/// from these.
pub(crate) fn calls_of(
    alloc: Global,
    layout: &Layout,
    image: &Image,
    points: &[Point],
) -> Result<Vec<Call>, NoMemory>
    ensures { IfOk result (λ calls. AreCallsOf layout.now image.now points.now calls.items) }
{
    let mut calls = calls_in_order(alloc, layout, image, points)?;
    calls.reverse();
    Ok(calls)
}

// Rows, of this number, with nothing in them.
fn no_rows(alloc: Global, count: usize) -> Result<Vec<Callees>, NoMemory>
    ensures { IfOk result (λ rows. AreEmptyRows count rows.items) }
{
    let mut rows = Vec::new(alloc);
    for _ in 0..count {
        rows.push(ListOf::new(alloc))?;
    }
    Ok(rows)
}

// Adds the call to the row of the start that calls. The reset has none.
fn add_to(rows: &mut Vec<Callees>, call: Call) -> Result<(), NoMemory>
    requires { length rows.old.items ≡ 65536 }
    ensures added { OnOk result (rows.new.items ≡ with_call rows.old.items call.from call.to) }
    ensures few { (from : ℕ) → call.from ≡ At from → from < 65536 }
{
    match call.from {
        Start::At(from) => rows[usize::from(from)].push(call.to),
        Start::Reset => Ok(()),
    }
}

/// For each address whom the start there calls.
pub(crate) fn rows_of(alloc: Global, calls: &[Call]) -> Result<Vec<Callees>, NoMemory>
    ensures { IfOk result (λ rows. AreRowsOf calls.now rows.items) }
{
    let mut rows = no_rows(alloc, ADDRESSES)?;
    for call in calls {
        add_to(&mut rows, *call)?;
    }
    Ok(rows)
}
