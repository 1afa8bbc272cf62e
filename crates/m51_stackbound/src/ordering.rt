//! The order of starts in which Kosaraju's algorithm finds cycles of calls. No answer depends on the order, only the
//! time that the search for starts that call themselves takes.
ghost use Rattle.std.specs.Prelude.{◌≡◌, length};

use crate::calls::{Call, Callees, rows_of};
use crate::marks::{ADDRESSES, no_marks};
use m51_cells::{MOST_POINTS, NoMemory};
use m51_module::Start;
use std::alloc::Global;

// Each address is entered once and left once, and each call is followed once.
const MOST_STEPS: usize = MOST_POINTS + 2 * ADDRESSES;

// A start that was entered and not left, and how many of its calls were followed.
#[derive(Clone, Copy, Debug, PartialEq, Eq)]
struct Visit {
    start: u16,
    followed: usize,
}

// Enters the start, unless that was done before: it is then the last of the path.
fn enter(path: &mut Vec<Visit>, entered: &mut Vec<bool>, start: u16) -> Result<(), NoMemory>
    requires { length entered.old.items ≡ 65536 }
    ensures { length entered.new.items ≡ 65536 }
{
    if entered[usize::from(start)] {
        return Ok(());
    }
    entered[usize::from(start)] = true;
    path.push(Visit { start, followed: 0 })?;
    Ok(())
}

// Follows the next call of the last start of the path, or leaves that start.
fn follow(
    rows: &[Callees],
    last: Visit,
    path: &mut Vec<Visit>,
    entered: &mut Vec<bool>,
    order: &mut Vec<u16>,
) -> Result<(), NoMemory>
    requires rows { length rows.now ≡ 65536 }
    requires entered { length entered.old.items ≡ 65536 }
    ensures { length entered.new.items ≡ 65536 }
{
    match rows[usize::from(last.start)].as_slice().get(last.followed) {
        Some(callee) => {
            path.push(Visit {
                start: last.start,
                followed: last.followed + 1,
            })?;
            enter(path, entered, *callee)
        }
        None => {
            order.push(last.start)?;
            Ok(())
        }
    }
}

// All addresses, each once, in the order in which a depth-first search over the rows leaves them.
fn left_in_order(alloc: Global, rows: &[Callees]) -> Result<Vec<u16>, NoMemory>
    requires { length rows.now ≡ 65536 }
{
    let mut path = Vec::new(alloc);
    let mut entered = no_marks(alloc, ADDRESSES)?;
    let mut order = Vec::new(alloc);
    let mut first = 0;
    for _ in 0..MOST_STEPS {
        if let Some(last) = path.pop() {
            follow(rows, last, &mut path, &mut entered, &mut order)?;
        } else if first < ADDRESSES {
            enter(&mut path, &mut entered, first as u16)?;
            first += 1;
        } else {
            return Ok(order);
        }
    }
    Ok(order)
}

// The calls, but for those of the reset, from the start that is called to the one that calls.
fn turned(alloc: Global, calls: &[Call]) -> Result<Vec<Call>, NoMemory> {
    let mut turned = Vec::new(alloc);
    for call in calls {
        match call.from {
            Start::At(from) => turned.push(Call {
                from: Start::At(call.to),
                height: call.height,
                to: from,
            })?,
            Start::Reset => {}
        }
    }
    Ok(turned)
}

/// All addresses, each once. What a start calls is before it, unless that leads back to it; and of what the start leads
/// to, only what leads back to it is after it.
pub(crate) fn order_of(alloc: Global, calls: &[Call]) -> Result<Vec<u16>, NoMemory> {
    let turned = turned(alloc, calls)?;
    let rows = rows_of(alloc, &turned)?;
    let mut order = left_in_order(alloc, &rows)?;
    order.reverse();
    Ok(order)
}
