//! The rules that a point may break, and the first reached address at which one is broken.
ghost use Rattle.std.specs.Prelude.{◌≡◌, ◌<◌};
ghost use Rattle.m51_stackbound.specs.Points.{instruction};
ghost use Rattle.m51_stackbound.specs.Rules.{rank, no_later, lesser, breaks, breaks_by, reached_address, IsFirstBreach};

use crate::following::{instruction, pops_below, pushes_above, sets_stack};
use crate::instructions::is_computed;
use crate::point::{Point, ReachedAddress};
use m51_isa::Instr;
use m51_module::{Image, Layout, Start};

/// What a point may not be.
///
/// Source: own choice ("Stack bound").
#[derive(Clone, Copy, Debug, PartialEq, Eq)]
pub(crate) enum Rule {
    /// K1: it writes SP by an operand.
    WritesSp,
    /// K2: it is `JMP @A+DPTR`.
    Computed,
    /// K3: it is POP at height 0.
    PopsBelow,
    /// It is PUSH at height 255.
    PushesAbove,
}

/// The order of starts: the reset, and then the others by their addresses.
pub(crate) fn rank(start: Start) -> u32
    ensures value { result ≡ rank start }
    ensures few { result < 65537 }
{
    match start {
        Start::Reset => 0,
        Start::At(address) => u32::from(address) + 1,
    }
}

// Whether the first reached address is no later than the second.
#[tactic(auto, unfolding(crate::specs::Rules::no_later))]
fn no_later(one: &ReachedAddress, two: &ReachedAddress) -> bool
    ensures { result ≡ no_later one.now two.now }
{
    let (first, second) = (rank(one.start), rank(two.start));
    first < second || (first == second && one.address <= two.address)
}

/// The first of the reached addresses that were met and of one more.
#[tactic(auto, unfolding(crate::specs::Rules::lesser))]
pub(crate) fn lesser(least: Option<ReachedAddress>, reached: ReachedAddress) -> ReachedAddress
    ensures { result ≡ lesser least reached }
{
    match least {
        Some(old) => {
            if no_later(&old, &reached) {
                old
            } else {
                reached
            }
        }
        None => reached,
    }
}

/// The reached address of a point.
pub(crate) fn reached_address(point: &Point) -> ReachedAddress
    ensures { result ≡ reached_address point.now }
{
    ReachedAddress {
        start: point.start,
        address: point.address,
    }
}

// Whether a point with this instruction breaks the rule.
fn breaks(rule: Rule, point: &Point, instr: &Instr) -> bool
    ensures { result ≡ breaks rule point.now instr.now }
{
    match rule {
        Rule::WritesSp => sets_stack(point, instr),
        Rule::Computed => is_computed(instr),
        Rule::PopsBelow => pops_below(point, instr),
        Rule::PushesAbove => pushes_above(point, instr),
    }
}

// Whether the point breaks the rule.
#[tactic(auto, unfolding(crate::specs::Rules::breaks_by))]
fn breaks_at(layout: &Layout, image: &Image, rule: Rule, point: &Point) -> bool
    ensures { result ≡ breaks_by rule point.now (instruction layout.now image.now point.now.address) }
{
    match instruction(layout, image, point.address) {
        Some(instr) => breaks(rule, point, &instr),
        None => false,
    }
}

/// The first reached address at which one of the points breaks the rule.
pub(crate) fn first_breach(
    layout: &Layout,
    image: &Image,
    rule: Rule,
    points: &[Point],
) -> Option<ReachedAddress>
    ensures { IsFirstBreach layout.now image.now rule points.now result }
{
    let mut least = None;
    for point in points {
        if breaks_at(layout, image, rule, point) {
            least = Some(lesser(least, reached_address(point)));
        }
    }
    least
}
