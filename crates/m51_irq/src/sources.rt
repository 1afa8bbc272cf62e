//! The sources of interrupts.
ghost use Rattle.std.specs.Prelude.{◌≡◌, ◌<◌};
ghost use Rattle.m51_irq.specs.Sources.{asks, has_flag, is_enabled, level_of, enable_bit};

use m51_flat::{Cpu, Level, Source};
use m51_sfr::addresses::{IE, IP, SCON, T2CON, TCON};
use m51_sfr::bits::{EA, EXF2, IE0, IE1, RI, TF0, TF1, TF2, TI};

// The bit of IE that enables a source, and of IP that gives it the high level.
fn number(source: Source) -> u8
    ensures value { result ≡ enable_bit source }
    ensures bit { result < 6 }
{
    match source {
        Source::Ie0 => 0,
        Source::Tf0 => 1,
        Source::Ie1 => 2,
        Source::Tf1 => 3,
        Source::Serial => 4,
        Source::Timer2 => 5,
    }
}

// The flag of a source is 1, or one of its two flags.
#[tactic(auto, unfolding(crate::specs::Sources::has_flag))]
fn has_flag(cpu: &Cpu, source: Source) -> bool
    ensures { result ≡ has_flag cpu.now source }
{
    match source {
        Source::Ie0 => cpu.flag(TCON, IE0),
        Source::Tf0 => cpu.flag(TCON, TF0),
        Source::Ie1 => cpu.flag(TCON, IE1),
        Source::Tf1 => cpu.flag(TCON, TF1),
        Source::Serial => cpu.flag(SCON, RI) || cpu.flag(SCON, TI),
        Source::Timer2 => cpu.flag(T2CON, TF2) || cpu.flag(T2CON, EXF2),
    }
}

// A source is enabled by its bit of IE, and all are by EA.
fn is_enabled(cpu: &Cpu, source: Source) -> bool
    ensures { result ≡ is_enabled cpu.now source }
{
    cpu.flag(IE, EA) && cpu.flag(IE, number(source))
}

// A source asks: its flag is 1, and it is enabled.
#[tactic(auto, unfolding(crate::specs::Sources::asks))]
pub(crate) fn asks(cpu: &Cpu, source: Source) -> bool
    ensures { result ≡ asks cpu.now source }
{
    has_flag(cpu, source) && is_enabled(cpu, source)
}

// The level that a source has by IP.
#[tactic(auto, unfolding(crate::specs::Sources::level_of))]
pub(crate) fn level_of(cpu: &Cpu, source: Source) -> Level
    ensures { result ≡ level_of cpu.now source }
{
    if cpu.flag(IP, number(source)) {
        Level::High
    } else {
        Level::Low
    }
}
