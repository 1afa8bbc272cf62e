//! The stack bound of a layout and its image.
ghost use Rattle.std.specs.Prelude.{◌≡◌, ℕ, IfOk};
ghost use Rattle.m51_module.specs.Plan.{IsRootAt};
ghost use Rattle.m51_module.specs.Sound.{IsSound};
ghost use Rattle.m51_stackbound.specs.Above.{AreLow, HasLists, IsAbove, IsTangle};
ghost use Rattle.m51_stackbound.specs.Bounds.{Answers, Breaks, HasTwoHeights, IsBreach, KeepsApart, KeepsHeights};
ghost use Rattle.m51_stackbound.specs.Bounds.{KeepsRules};
ghost use Rattle.m51_stackbound.specs.Callers.{AreCallsOf};
ghost use Rattle.m51_stackbound.specs.Climb.{AreSettled};
ghost use Rattle.m51_stackbound.specs.Rules.{IsLeast};
ghost use Rattle.m51_stackbound.specs.Search.{ArePoints};
ghost use Rattle.m51_stackbound.specs.Units.{handlers};

use crate::calls::{Call, calls_of};
use crate::climbing::{depths_of, is_too_deep};
use crate::cycling::first_cyclic;
use crate::doubling::first_twice;
use crate::judging::{Rule, first_breach};
use crate::listing::{procs_of, roots_of, starts_of};
use crate::paths::nexts_of;
use crate::point::{Point, ReachedAddress};
use crate::searching::points_of;
use crate::totals::total_of;
use crate::units::handlers;
use m51_cells::{ListOf, NoMemory, cite};
use m51_module::{Image, Layout, StackBound, StackError};
use std::alloc::Global;

// The first reached address at which a point of the program breaks the rule.
#[tactic(auto, using(crate::proofs::Leasts::first_of_points))]
fn first_broken(
    layout: &Layout,
    image: &Image,
    rule: Rule,
    points: &[Point],
) -> Option<ReachedAddress>
    requires { ArePoints layout.now image.now points.now }
    ensures { IsLeast (Breaks layout.now image.now rule) result }
{
    first_breach(layout, image, rule, points)
}

// K1 to K3: the first rule that a point breaks, and the first reached address where it does.
fn breach(layout: &Layout, image: &Image, points: &[Point]) -> Option<StackError>
    requires { ArePoints layout.now image.now points.now }
    ensures { IsBreach layout.now image.now result }
{
    match first_broken(layout, image, Rule::WritesSp, points) {
        Some(reached) => Some(StackError::K1 {
            start: reached.start,
            at: reached.address,
        }),
        None => match first_broken(layout, image, Rule::Computed, points) {
            Some(reached) => Some(StackError::K2 {
                start: reached.start,
                at: reached.address,
            }),
            None => match first_broken(layout, image, Rule::PopsBelow, points) {
                Some(reached) => Some(StackError::K3 {
                    start: reached.start,
                    at: reached.address,
                }),
                None => None,
            },
        },
    }
}

// K5: the first reached address at which the program has two heights.
fn first_doubled(
    alloc: Global,
    layout: &Layout,
    image: &Image,
    points: &[Point],
) -> Result<Option<ReachedAddress>, NoMemory>
    requires { ArePoints layout.now image.now points.now }
    ensures { IfOk result (IsLeast (HasTwoHeights layout.now image.now)) }
{
    first_twice(alloc, points)
}

// Whether PUSH is at height 255, or a depth is above 255.
fn is_above(layout: &Layout, image: &Image, points: &[Point], depths: &[u16]) -> bool
    requires points { ArePoints layout.now image.now points.now }
    requires depths { AreSettled layout.now image.now points.now depths.now }
    ensures { IsAbove layout.now image.now depths.now result }
{
    match first_broken(layout, image, Rule::PushesAbove, points) {
        Some(_) => true,
        None => is_too_deep(depths),
    }
}

// The bound where no depth is above 255, with this total.
fn listed(
    alloc: Global,
    layout: &Layout,
    image: &Image,
    points: &[Point],
    depths: &[u16],
    vectors: &[u16],
    total: u8,
) -> Result<StackBound, NoMemory>
    requires sound { IsSound layout.now }
    requires reset { (unit : ℕ) × IsRootAt layout.now 0 unit }
    requires points { ArePoints layout.now image.now points.now }
    requires depths { AreSettled layout.now image.now points.now depths.now }
    requires low { AreLow depths.now }
    requires vectors { vectors.now ≡ handlers layout.now }
    ensures { IfOk result (HasLists layout.now image.now total) }
{
    let nexts = nexts_of(alloc, layout, image, points, depths)?;
    let starts = starts_of(alloc, points)?;
    let procs = procs_of(alloc, layout, &starts, depths)?;
    let roots = roots_of(alloc, layout, depths, &nexts, vectors)?;
    Ok(StackBound {
        procs: ListOf::of(procs),
        roots: ListOf::of(roots),
        total,
    })
}

// The bound of a program in which each address of a start has one height: K6, or the bound.
fn bound_by(
    alloc: Global,
    layout: &Layout,
    image: &Image,
    points: &[Point],
    depths: &[u16],
) -> Result<StackBound, StackError>
    requires sound { IsSound layout.now }
    requires reset { (unit : ℕ) × IsRootAt layout.now 0 unit }
    requires points { ArePoints layout.now image.now points.now }
    requires depths { AreSettled layout.now image.now points.now depths.now }
    requires heights { KeepsHeights layout.now image.now }
    ensures { Answers layout.now image.now result }
{
    let above = is_above(layout, image, points, depths);
    if above {
        return Err(StackError::K6);
    }
    let vectors = handlers(alloc, layout)?;
    let total = total_of(depths, &vectors);
    if total > 255 {
        return Err(StackError::K6);
    }
    let bound = listed(alloc, layout, image, points, depths, &vectors, total as u8)?;
    Ok(bound)
}

// K5, if it comes.
fn twice(
    alloc: Global,
    layout: &Layout,
    image: &Image,
    points: &[Point],
) -> Result<Option<StackError>, NoMemory>
    requires points { ArePoints layout.now image.now points.now }
    requires apart { KeepsApart layout.now image.now }
    ensures { IfOk result (IsTangle layout.now image.now) }
{
    let doubled = first_doubled(alloc, layout, image, points)?;
    match doubled {
        Some(reached) => Ok(Some(StackError::K5 {
            start: reached.start,
            at: reached.address,
        })),
        None => Ok(None),
    }
}

// K4 and K5: the first of them that comes, if one does.
fn tangle(
    alloc: Global,
    layout: &Layout,
    image: &Image,
    points: &[Point],
    calls: &[Call],
    depths: &[u16],
) -> Result<Option<StackError>, NoMemory>
    requires points { ArePoints layout.now image.now points.now }
    requires calls { AreCallsOf layout.now image.now points.now calls.now }
    requires depths { AreSettled layout.now image.now points.now depths.now }
    requires rules { KeepsRules layout.now image.now }
    ensures { IfOk result (IsTangle layout.now image.now) }
{
    let cyclic = first_cyclic(alloc, layout, image, points, calls, depths)?;
    match cyclic {
        Some(start) => Ok(Some(StackError::K4 { start })),
        None => twice(alloc, layout, image, points),
    }
}

// The bound of these points, none of which breaks K1 to K3.
fn bound_of(
    alloc: Global,
    layout: &Layout,
    image: &Image,
    points: &[Point],
) -> Result<StackBound, StackError>
    requires sound { IsSound layout.now }
    requires reset { (unit : ℕ) × IsRootAt layout.now 0 unit }
    requires points { ArePoints layout.now image.now points.now }
    requires rules { KeepsRules layout.now image.now }
    ensures { Answers layout.now image.now result }
{
    let calls = calls_of(alloc, layout, image, points)?;
    let depths = depths_of(alloc, layout, image, points, &calls)?;
    let refusal = tangle(alloc, layout, image, points, &calls, &depths)?;
    match refusal {
        Some(error) => Err(error),
        None => bound_by(alloc, layout, image, points, &depths),
    }
}

// The bound of these points.
fn judged(
    alloc: Global,
    layout: &Layout,
    image: &Image,
    points: &[Point],
) -> Result<StackBound, StackError>
    requires sound { IsSound layout.now }
    requires reset { (unit : ℕ) × IsRootAt layout.now 0 unit }
    requires points { ArePoints layout.now image.now points.now }
    ensures { Answers layout.now image.now result }
{
    match breach(layout, image, points) {
        Some(refusal) => Err(refusal),
        None => bound_of(alloc, layout, image, points),
    }
}

/// The stack bound of a layout with a root at 0000H and of its image. The refusals, in their order: Limit, K1 to K6;
/// each names the least start, the reset before all others, and then the least address. Memory may come in place of any
/// answer.
///
/// Source: own choice ("Stack bound").
pub fn bound(alloc: Global, layout: &Layout, image: &Image) -> Result<StackBound, StackError>
    requires { (unit : ℕ) × IsRootAt layout.now 0 unit }
    ensures { Answers layout.now image.now result }
{
    cite(layout.units());
    let found = points_of(alloc, layout, image)?;
    match found {
        Some(points) => judged(alloc, layout, image, points.as_slice()),
        None => Err(StackError::Limit),
    }
}
