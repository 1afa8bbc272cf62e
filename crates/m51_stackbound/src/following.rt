//! The successors of a point, and the start that it calls.
ghost use Rattle.std.specs.Prelude.{◌≡◌, ◌<◌, ◌&&◌, true, false, is_some};
ghost use Rattle.m51_stackbound.specs.Instructions.{is_push, is_pop, sets_sp, next_of};
ghost use Rattle.m51_stackbound.specs.Points.{instruction, entry_at, is_reset, after_call, after_instr, sets_stack};
ghost use Rattle.m51_stackbound.specs.Points.{pops_below, pushes_above, ends_at, height_after, at_next, at_target};
ghost use Rattle.m51_stackbound.specs.Points.{called, follow, follow_by, successors, call_by, call_of};
ghost use Rattle.m51_stackbound.specs.Listed.{listed, listed_two};

use crate::instructions::{
    instr_at, is_call, is_computed, is_jump, is_pop, is_push, is_return, next_of, sets_sp,
    target_of, writes_sp,
};
use crate::point::Point;
use crate::units::{counts, in_one_unit, lie_inside};
use m51_isa::{Instr, length};
use m51_module::{Image, Layout, Start};

/// The instruction at the address, where its bytes lie in the unit that covers the address.
#[tactic(auto, unfolding(crate::specs::Points::instruction))]
pub(crate) fn instruction(layout: &Layout, image: &Image, at: u16) -> Option<Instr>
    ensures { result ≡ instruction layout.now image.now at }
{
    match instr_at(image, at) {
        Some(instr) => {
            if lie_inside(layout, at, length(&instr)) {
                Some(instr)
            } else {
                None
            }
        }
        None => None,
    }
}

// Whether the instruction sets SP as the reset may.
fn resets(point: &Point, instr: &Instr) -> bool
    ensures { result ≡ (is_reset point.now.start && is_some (sets_sp instr.now)) }
{
    match point.start {
        Start::Reset => sets_sp(instr).is_some(),
        Start::At(_) => false,
    }
}

/// K1: whether the instruction writes SP by an operand, and is not `MOV SP,#data` under the reset.
#[tactic(auto, unfolding(crate::specs::Points::sets_stack))]
pub(crate) fn sets_stack(point: &Point, instr: &Instr) -> bool
    ensures { result ≡ sets_stack point.now instr.now }
{
    writes_sp(instr) && !resets(point, instr)
}

/// K3: whether the instruction is POP at height 0.
#[tactic(auto, unfolding(crate::specs::Points::pops_below))]
pub(crate) fn pops_below(point: &Point, instr: &Instr) -> bool
    ensures { result ≡ pops_below point.now instr.now }
{
    is_pop(instr) && point.height == 0
}

/// Whether the instruction is PUSH at height 255.
#[tactic(auto, unfolding(crate::specs::Points::pushes_above))]
pub(crate) fn pushes_above(point: &Point, instr: &Instr) -> bool
    ensures { result ≡ pushes_above point.now instr.now }
{
    is_push(instr) && point.height == 255
}

// Whether the point has no successor.
#[tactic(auto, unfolding(crate::specs::Points::ends_at))]
fn ends_at(point: &Point, instr: &Instr) -> bool
    ensures { result ≡ ends_at point.now instr.now }
{
    is_return(instr)
        || sets_stack(point, instr)
        || is_computed(instr)
        || pops_below(point, instr)
        || pushes_above(point, instr)
}

// The height after an instruction that neither ends the point nor is a call.
#[tactic(auto, unfolding(crate::specs::Points::height_after))]
fn height_after(height: u8, instr: &Instr) -> u8
    requires push { is_push instr.now ≡ true → height < 255 }
    requires pop { is_pop instr.now ≡ true → 0 < height }
    ensures { result ≡ height_after height instr.now }
{
    if is_push(instr) {
        return height + 1;
    }
    if is_pop(instr) {
        return height - 1;
    }
    sets_sp(instr).unwrap_or(height)
}

// Control continues at the next address, in the same unit.
#[tactic(auto, unfolding(crate::specs::Points::at_next))]
fn at_next(layout: &Layout, point: &Point, next: u16, height: u8) -> Option<Point>
    ensures { listed result ≡ at_next layout.now point.now next height }
{
    if in_one_unit(layout, point.address, next) {
        Some(Point {
            start: point.start,
            address: next,
            height,
        })
    } else {
        None
    }
}

// Control goes to a target that counts.
#[tactic(auto, unfolding(crate::specs::Points::at_target))]
fn at_target(layout: &Layout, point: &Point, target: Option<u16>, height: u8) -> Option<Point>
    ensures { listed result ≡ at_target layout.now point.now target height }
{
    match target {
        Some(target) => {
            if counts(layout, point.address, target) {
                Some(Point {
                    start: point.start,
                    address: target,
                    height,
                })
            } else {
                None
            }
        }
        None => None,
    }
}

// The target of a call, where it counts.
#[tactic(auto, unfolding(crate::specs::Points::called))]
fn called(layout: &Layout, point: &Point, target: Option<u16>) -> Option<u16>
    ensures { result ≡ called layout.now point.now target }
{
    match target {
        Some(target) => {
            if counts(layout, point.address, target) {
                Some(target)
            } else {
                None
            }
        }
        None => None,
    }
}

// The point at which a start is entered.
pub(crate) fn entry_at(address: u16) -> Point
    ensures { result ≡ entry_at address }
{
    Point {
        start: Start::At(address),
        address,
        height: 0,
    }
}

// The successors of a call.
fn after_call(
    layout: &Layout,
    point: &Point,
    next: u16,
    target: Option<u16>,
) -> (Option<Point>, Option<Point>)
    ensures { listed_two result ≡ after_call layout.now point.now next target }
{
    match target {
        Some(target) => (
            Some(entry_at(target)),
            at_next(layout, point, next, point.height),
        ),
        None => (None, None),
    }
}

// The successors of an instruction that is no call.
fn after_instr(
    layout: &Layout,
    point: &Point,
    instr: &Instr,
    next: u16,
) -> (Option<Point>, Option<Point>)
    requires { ends_at point.now instr.now ≡ false }
    ensures { listed_two result ≡ after_instr layout.now point.now instr.now next }
{
    let target = target_of(instr, next);
    if is_jump(instr) {
        return (None, at_target(layout, point, target, point.height));
    }
    let height = height_after(point.height, instr);
    (
        at_next(layout, point, next, height),
        at_target(layout, point, target, height),
    )
}

// The successors of a point with this instruction.
fn follow(layout: &Layout, point: &Point, instr: &Instr) -> (Option<Point>, Option<Point>)
    requires { ends_at point.now instr.now ≡ false }
    ensures { listed_two result ≡ follow layout.now point.now instr.now (next_of instr.now point.now.address) }
{
    let next = next_of(instr, point.address);
    if is_call(instr) {
        after_call(
            layout,
            point,
            next,
            called(layout, point, target_of(instr, next)),
        )
    } else {
        after_instr(layout, point, instr, next)
    }
}

/// The successors of a point: there are at most two.
#[tactic(auto, unfolding(crate::specs::Points::follow_by))]
pub(crate) fn successors(
    layout: &Layout,
    image: &Image,
    point: &Point,
) -> (Option<Point>, Option<Point>)
    ensures { listed_two result ≡ successors layout.now image.now point.now }
{
    match instruction(layout, image, point.address) {
        Some(instr) => {
            if ends_at(point, &instr) {
                (None, None)
            } else {
                follow(layout, point, &instr)
            }
        }
        None => (None, None),
    }
}

/// The start that a point calls.
#[tactic(auto, unfolding(crate::specs::Points::call_by))]
pub(crate) fn call_of(layout: &Layout, image: &Image, point: &Point) -> Option<u16>
    ensures { result ≡ call_of layout.now image.now point.now }
{
    match instruction(layout, image, point.address) {
        Some(instr) => {
            if is_call(&instr) {
                called(
                    layout,
                    point,
                    target_of(&instr, next_of(&instr, point.address)),
                )
            } else {
                None
            }
        }
        None => None,
    }
}
