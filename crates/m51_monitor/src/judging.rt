//! Whether a transfer of control is allowed.
ghost use Rattle.std.specs.Prelude.{◌≡◌, ◌<◌, ◌+◌, ℕ, length, IfSome};
ghost use Rattle.std.specs.List.{list_any};
ghost use Rattle.m51_monitor.specs.Frames.{IsTop};
ghost use Rattle.m51_monitor.specs.Found.{root_found, unit_found};
ghost use Rattle.m51_monitor.specs.Transfers.{IsFoundAt, IsRootWanted, jump_or_call};
ghost use Rattle.m51_monitor.specs.Transfers.{is_at, is_by, returns_from};
ghost use Rattle.m51_monitor.specs.Transfers.{is_of_root};

use crate::cause::{Cause, ReturnFrame};
use crate::step::Move;
use m51_cells::Why;
use m51_flat::Transfer;
use m51_module::Layout;

/// The topmost frame.
#[tactic(auto, using(crate::proofs::Framing::no_top, crate::proofs::Framing::last_split))]
pub(crate) fn topmost(frames: &[ReturnFrame]) -> Option<ReturnFrame>
    ensures { IsTop frames.now result }
{
    if frames.is_empty() {
        return None;
    }
    Some(frames[frames.len() - 1])
}

// The record is of an interrupt whose root is at the vector.
fn is_of_root(cause: Cause, vector: u16) -> bool
    ensures { result ≡ is_of_root vector cause }
{
    match cause {
        Cause::Call => false,
        Cause::Interrupt(source) => source.vector() == vector,
    }
}

/// Some frame is of an interrupt whose root is at the vector.
pub(crate) fn any_of_root(frames: &[ReturnFrame], vector: u16) -> bool
    ensures { result ≡ list_any (λ f. is_of_root vector f.cause) frames.now }
{
    frames.iter().any(|frame| is_of_root(frame.cause, vector))
}

/// The unit at the target is this one.
pub(crate) fn is_at(at: Option<u16>, unit: u16) -> bool
    ensures { result ≡ is_at at unit }
{
    match at {
        None => false,
        Some(found) => found == unit,
    }
}

// The record was made by a call, or by an interrupt.
fn is_by(call: bool, cause: Cause) -> bool
    ensures { result ≡ is_by call cause }
{
    match cause {
        Cause::Call => call,
        Cause::Interrupt(_) => !call,
    }
}

/// A jump or a call from the current unit, within it or along an edge.
pub(crate) fn jump_or_call(
    layout: &Layout,
    from: u16,
    sp_below: bool,
    call: bool,
    at: Option<u16>,
) -> Result<Move, Why>
    requires from { from < length layout.now.units }
    requires at { IfSome at (λ u. u < length layout.now.units) }
    ensures { result ≡ jump_or_call layout.now from sp_below call at }
{
    let Some(unit) = at else {
        return Err(Why::NoUnit);
    };
    if unit == from {
        if sp_below {
            return Err(Why::SpBelow);
        }
        return Ok(if call { Move::Local } else { Move::Stay });
    }
    if !layout.edge(from, unit) {
        return Err(Why::NoEdge);
    }
    if sp_below {
        return Err(Why::SpBelow);
    }
    Ok(if call {
        Move::Call(unit)
    } else {
        Move::Jump(unit)
    })
}

/// A return to where the frame says.
pub(crate) fn returns_from(
    frame: &ReturnFrame,
    call: bool,
    sp_before: u8,
    to: u16,
    inside: bool,
) -> Result<Move, Why>
    ensures { result ≡ returns_from frame.now call sp_before to inside }
{
    if !is_by(call, frame.cause) {
        return Err(Why::NotCalled);
    }
    if sp_before != frame.sp {
        return Err(Why::SpMoved);
    }
    if to != frame.return_address {
        return Err(Why::WrongAddress);
    }
    if !inside {
        return Err(Why::PastEnd);
    }
    Ok(Move::Return)
}

/// The unit that covers the address.
#[tactic(auto, using(crate::proofs::Framing::found_at, crate::proofs::Finding::same_unit_found))]
pub(crate) fn unit_found(layout: &Layout, address: u16) -> Option<u16>
    ensures value { result ≡ unit_found layout.now address }
    ensures found { IsFoundAt layout.now address result }
    ensures below { IfSome result (λ u. u < length layout.now.units) }
{
    layout.unit_at(address)
}

/// The root that a vectoring goes to.
pub(crate) fn root_wanted(layout: &Layout, transfer: Transfer) -> Option<u16>
    ensures value { result ≡ root_found layout.now transfer }
    ensures found { IsRootWanted layout.now transfer result }
{
    match transfer {
        Transfer::Vector(source) => layout.root(source.vector()),
        Transfer::Next => None,
        Transfer::Jump => None,
        Transfer::Call => None,
        Transfer::Ret => None,
        Transfer::Reti => None,
    }
}
