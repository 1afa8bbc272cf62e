//! Which interrupt is taken.
ghost use Rattle.std.specs.Prelude.{◌≡◌, IsTrue, None, option_copied, if◌then◌else◌};
ghost use Rattle.std.specs.List.{find};
ghost use Rattle.m51_flat.specs.declared.state.Level.TheVariants.{High, Low};
ghost use Rattle.m51_irq.specs.Choice.{asks_at, chosen, first_asking, none_asks};

use crate::sources::{asks, level_of};
use m51_flat::{Cpu, Level, Source};
use m51_sfr::addresses::{IE, IP};
use m51_sfr::bits::EA;

// The sources, in their order.
const SOURCES: [Source; 6] = [
    Source::Ie0,
    Source::Tf0,
    Source::Ie1,
    Source::Tf1,
    Source::Serial,
    Source::Timer2,
];

// A source of this level asks.
fn asks_at(cpu: &Cpu, level: Level, source: Source) -> bool
    ensures { result ≡ asks_at cpu.now level source }
{
    asks(cpu, source) && level_of(cpu, source) == level
}

// The first of these sources that asks and has this level.
fn first_among<'a>(cpu: &Cpu, level: Level, sources: &'a [Source]) -> Option<&'a Source>
    ensures { option_copied result ≡ find (asks_at cpu.now level) sources.now }
{
    sources.iter().find(|source| asks_at(cpu, level, **source))
}

// The first source of this level that asks.
fn first_asking(cpu: &Cpu, level: Level) -> Option<Source>
    ensures { result ≡ first_asking cpu.now level }
{
    let first = first_among(cpu, level, &SOURCES)?;
    Some(*first)
}

// The first source of the low level that asks, where the low level is not in progress; else none.
fn first_low(cpu: &Cpu) -> Option<Source>
    ensures { result ≡ (if cpu.now.low then None else first_asking cpu.now Low) }
{
    if cpu.low {
        None
    } else {
        first_asking(cpu, Level::Low)
    }
}

// No bit of IP is 1, so no source has the high level.
#[tactic(auto, using(crate::proofs::Disabled::none_high))]
#[inline(always)]
fn are_all_low(cpu: &Cpu) -> bool
    ensures { IsTrue result → first_asking cpu.now High ≡ None }
{
    match cpu.latch(IP) {
        0 => true,
        _ => false,
    }
}

// A source of the low level is in progress, and all have that level, so none may interrupt it.
#[tactic(auto, using(crate::proofs::Disabled::none_over_low))]
#[inline(always)]
fn none_may_interrupt(cpu: &Cpu) -> bool
    ensures { IsTrue result → chosen cpu.now ≡ None }
{
    cpu.low && are_all_low(cpu)
}

// The first source of the high level that asks.
fn first_high(cpu: &Cpu) -> Option<Source>
    ensures { result ≡ first_asking cpu.now High }
{
    if are_all_low(cpu) {
        None
    } else {
        first_asking(cpu, Level::High)
    }
}

// No source asks, which is so in most steps.
#[inline(always)]
fn none_asks(cpu: &Cpu) -> bool
    ensures { result ≡ none_asks cpu.now }
{
    !asks(cpu, Source::Ie0)
        && !asks(cpu, Source::Tf0)
        && !asks(cpu, Source::Ie1)
        && !asks(cpu, Source::Tf1)
        && !asks(cpu, Source::Serial)
        && !asks(cpu, Source::Timer2)
}

// The interrupt that is to be taken, where all may be enabled.
#[tactic(auto, using(crate::proofs::Disabled::none_asked))]
#[inline(never)]
fn choose_enabled(cpu: &Cpu) -> Option<Source>
    ensures { result ≡ chosen cpu.now }
{
    if none_asks(cpu) {
        None
    } else {
        choose_asking(cpu)
    }
}

// The same, where a source may ask.
#[tactic(auto, unfolding(crate::specs::Choice::chosen))]
#[inline(never)]
fn choose_asking(cpu: &Cpu) -> Option<Source>
    ensures { result ≡ chosen cpu.now }
{
    if cpu.held {
        return None;
    }
    if cpu.high {
        return None;
    }
    match first_high(cpu) {
        Some(source) => Some(source),
        None => first_low(cpu),
    }
}

/// The interrupt that is to be taken: of the sources that ask and that the levels in progress allow, the first of those
/// with the higher level. It is none while interrupts are held off, which they are for the step after RETI and after a
/// write of IE or IP.
///
/// Source: family manual.
#[tactic(auto, using(crate::proofs::Disabled::none_enabled))]
#[inline(always)]
pub fn choose(cpu: &Cpu) -> Option<Source>
    ensures { result ≡ chosen cpu.now }
{
    if !cpu.flag(IE, EA) || none_may_interrupt(cpu) {
        None
    } else {
        choose_enabled(cpu)
    }
}
