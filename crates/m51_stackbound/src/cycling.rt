//! Starts that call themselves, directly or through others.
ghost use Rattle.std.specs.Prelude.{◌≡◌, ◌↔◌, IfOk, IsTrue, length};
ghost use Rattle.m51_stackbound.specs.Bounds.{HasFirstCyclic};
ghost use Rattle.m51_stackbound.specs.Callers.{AreCallsOf, AreCleared, Leads};
ghost use Rattle.m51_stackbound.specs.Climb.{AreSettled};
ghost use Rattle.m51_stackbound.specs.Search.{ArePoints};

use crate::calls::{Call, Callees, rows_of};
use crate::climbing::is_too_deep;
use crate::marks::ADDRESSES;
use crate::ordering::order_of;
use crate::point::Point;
use crate::walking::{calls_itself, cleared};
use m51_cells::NoMemory;
use m51_module::{Image, Layout, Start};
use std::alloc::Global;

// Whether the rows lead from the start at this address back to it.
fn is_cyclic(alloc: Global, rows: &[Callees], cleared: &[bool], at: u16) -> Result<bool, NoMemory>
    requires rows { length rows.now ≡ 65536 }
    requires cleared { AreCleared rows.now cleared.now }
    ensures { IfOk result (λ b. IsTrue b ↔ Leads rows.now at at) }
{
    if cleared[usize::from(at)] {
        return Ok(false);
    }
    calls_itself(alloc, rows, at)
}

/// K4: the first start that calls itself, directly or through others. Where no depth is above 255 none does.
pub(crate) fn first_cyclic(
    alloc: Global,
    layout: &Layout,
    image: &Image,
    points: &[Point],
    calls: &[Call],
    depths: &[u16],
) -> Result<Option<Start>, NoMemory>
    requires points { ArePoints layout.now image.now points.now }
    requires calls { AreCallsOf layout.now image.now points.now calls.now }
    requires depths { AreSettled layout.now image.now points.now depths.now }
    ensures { IfOk result (HasFirstCyclic layout.now image.now) }
{
    if !is_too_deep(depths) {
        return Ok(None);
    }
    let rows = rows_of(alloc, calls)?;
    let order = order_of(alloc, calls)?;
    let cleared = cleared(alloc, &rows, &order)?;
    for address in 0..ADDRESSES {
        let at = address as u16;
        if is_cyclic(alloc, &rows, &cleared, at)? {
            return Ok(Some(Start::At(at)));
        }
    }
    Ok(None)
}
