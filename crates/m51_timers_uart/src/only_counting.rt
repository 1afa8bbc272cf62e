//! Machine cycles in which the devices only count.
ghost use Rattle.std.specs.Prelude.{◌≡◌, ◌≤◌, ◌&&◌, true, length, nat_le};
ghost use Rattle.m51_flat.specs.Sfr.{latch};
ghost use Rattle.m51_timers_uart.specs.Counting.{mode_of};
ghost use Rattle.m51_timers_uart.specs.OnlyCounting.{counted_on, counts_each, line_waits, low0_after, low1_after};
ghost use Rattle.m51_timers_uart.specs.OnlyCounting.{low2_after, low_after, timer0_is_plain, timer1_is_plain};
ghost use Rattle.m51_timers_uart.specs.OnlyCounting.{timer2_is_plain};
ghost use Rattle.m51_timers_uart.specs.Tick.{clocks_ticked};
ghost use Rattle.m51_timers_uart.specs.Timer2.{timer2_ticked};
ghost use Rattle.m51_timers_uart.specs.Timers.{timer0_ticked, timer1_ticked, timers_ticked};

use crate::levels::Levels;
use crate::periph::{Periph, Sent};
use crate::sending::{last, tick_sending};
use crate::timer2::{rates, tick_timer2};
use crate::timers::{count_timer0, count_timer1, splits, timer0_mode};
use m51_flat::Cpu;
use m51_sfr::addresses::{T2CON, TCON, TL0, TL1, TL2, TMOD};
use m51_sfr::bits::{CT2, EXEN2, TR0, TR1, TR2};

/// In modes 1 and 2, with GATE and C/T 0, a timer counts each cycle while it runs.
#[inline(always)]
fn counts_each(gate: bool, ct: bool, m1: bool, m0: bool) -> bool
    ensures { result ≡ counts_each gate ct (mode_of m1 m0) }
{
    let whole = if m1 { !m0 } else { m0 };
    !gate && !ct && whole
}

/// Timer 0 counts each cycle, or it does not run and is not in mode 3.
#[tactic(auto, unfolding(crate::specs::OnlyCounting::timer0_is_plain))]
#[inline(always)]
pub(crate) fn is_timer0_plain(cpu: &Cpu) -> bool
    ensures { result ≡ timer0_is_plain cpu.now }
{
    if cpu.flag(TCON, TR0) {
        counts_each(
            cpu.flag(TMOD, 3),
            cpu.flag(TMOD, 2),
            cpu.flag(TMOD, 1),
            cpu.flag(TMOD, 0),
        )
    } else {
        !splits(timer0_mode(cpu))
    }
}

/// Timer 1 counts each cycle, or it does not run.
#[tactic(auto, unfolding(crate::specs::OnlyCounting::timer1_is_plain))]
#[inline(always)]
pub(crate) fn is_timer1_plain(cpu: &Cpu) -> bool
    ensures { result ≡ timer1_is_plain cpu.now }
{
    if cpu.flag(TCON, TR1) {
        counts_each(
            cpu.flag(TMOD, 7),
            cpu.flag(TMOD, 6),
            cpu.flag(TMOD, 5),
            cpu.flag(TMOD, 4),
        )
    } else {
        true
    }
}

/// Timer 2 counts each cycle once, or it does not run; no fall of T2EX matters.
#[tactic(auto, unfolding(crate::specs::OnlyCounting::timer2_is_plain))]
#[inline(always)]
pub(crate) fn is_timer2_plain(cpu: &Cpu) -> bool
    ensures { result ≡ timer2_is_plain cpu.now }
{
    if cpu.flag(T2CON, EXEN2) {
        return false;
    }
    if cpu.flag(T2CON, TR2) {
        let counter = cpu.flag(T2CON, CT2);
        let rates = rates(cpu);
        !counter && !rates
    } else {
        true
    }
}

/// No byte is on its way, or its bit time is not over and waits for the overflow of a timer.
#[tactic(auto, unfolding(crate::specs::OnlyCounting::line_waits))]
#[inline(always)]
pub(crate) fn waits(periph: &Periph, cpu: &Cpu) -> bool
    ensures { result ≡ line_waits cpu.now periph.now }
{
    if periph.left == 0 {
        return true;
    }
    let takes = last(cpu, periph.mode);
    (periph.mode == 1 || periph.mode == 3) && !(takes <= periph.count)
}

/// What is added to a low byte in this number of cycles.
#[inline(always)]
fn added(count: u8, runs: bool) -> u8
    ensures { result ≡ low_after count runs 0 }
{
    if runs { count } else { 0 }
}

/// A low byte does not reach its end in this number of cycles.
#[inline(always)]
fn fits(count: u8, runs: bool, low: u8) -> bool
    ensures { result ≡ nat_le (low_after count runs low) 255 }
{
    added(count, runs) <= 0xFF - low
}

/// A low byte after this number of cycles.
#[inline(always)]
fn add_where(count: u8, runs: bool, low: u8) -> u8
    requires { nat_le (low_after count runs low) 255 ≡ true }
    ensures { result ≡ low_after count runs low }
{
    low + added(count, runs)
}

/// No timer that runs reaches the end of its low byte in this number of cycles.
#[inline(always)]
pub(crate) fn all_fit(count: u8, cpu: &Cpu) -> bool
    ensures { result ≡ (nat_le (low0_after count cpu.now) 255 && nat_le (low1_after count cpu.now) 255
        && nat_le (low2_after count cpu.now) 255) }
{
    let timer0 = fits(count, cpu.flag(TCON, TR0), cpu.latch(TL0));
    let timer1 = fits(count, cpu.flag(TCON, TR1), cpu.latch(TL1));
    let timer2 = fits(count, cpu.flag(T2CON, TR2), cpu.latch(TL2));
    timer0 && timer1 && timer2
}

/// Passes this number of machine cycles at once in which the devices only count: it is added to the low byte of each
/// timer that runs.
///
/// Source: own choice ("Cycles in which nothing happens").
#[tactic(auto, unfolding(crate::specs::OnlyCounting::counted_on))]
#[inline(always)]
pub fn count_on(count: u8, cpu: &mut Cpu)
    requires low0 { nat_le (low0_after count cpu.old) 255 ≡ true }
    requires low1 { nat_le (low1_after count cpu.old) 255 ≡ true }
    requires low2 { nat_le (low2_after count cpu.old) 255 ≡ true }
    ensures { cpu.new ≡ counted_on count cpu.old }
{
    let timer0 = add_where(count, cpu.flag(TCON, TR0), cpu.latch(TL0));
    let timer1 = add_where(count, cpu.flag(TCON, TR1), cpu.latch(TL1));
    let timer2 = add_where(count, cpu.flag(T2CON, TR2), cpu.latch(TL2));
    cpu.set_latch(TL0, timer0);
    cpu.set_latch(TL1, timer1);
    cpu.set_latch(TL2, timer2);
}

/// Timer 0 in a cycle, where it counts each cycle or does not run: most counts only add one to its low byte.
#[tactic(auto, using(crate::proofs::CountsOn::timer0_counts, crate::proofs::CountsOn::timer0_runs))]
#[inline(always)]
fn pass_timer0(cpu: &mut Cpu, levels: &Levels)
    requires { timer0_is_plain cpu.old ≡ true }
    ensures { cpu.new ≡ timer0_ticked levels.now cpu.old }
{
    let runs = cpu.flag(TCON, TR0);
    let low = cpu.latch(TL0);
    if fits(1, runs, low) {
        cpu.set_latch(TL0, add_where(1, runs, low));
    } else {
        count_timer0(cpu);
    }
}

/// Timer 1 in a cycle: whether it overflowed.
#[tactic(auto, using(crate::proofs::CountsOn::timer1_counts, crate::proofs::CountsOn::timer1_runs))]
#[inline(always)]
fn pass_timer1(cpu: &mut Cpu, levels: &Levels) -> bool
    requires timer0 { timer0_is_plain cpu.old ≡ true }
    requires timer1 { timer1_is_plain cpu.old ≡ true }
    ensures { record { cpu = cpu.new; overflow = result } ≡ timer1_ticked levels.now cpu.old }
{
    let runs = cpu.flag(TCON, TR1);
    let low = cpu.latch(TL1);
    if fits(1, runs, low) {
        cpu.set_latch(TL1, add_where(1, runs, low));
        return false;
    }
    count_timer1(cpu)
}

/// Timer 2 in a cycle: how many of its counts were overflows.
#[tactic(auto, using(crate::proofs::CountsOn::timer2_counts))]
#[inline(always)]
fn pass_timer2(cpu: &mut Cpu, levels: &Levels) -> u8
    requires { timer2_is_plain cpu.old ≡ true }
    ensures value { record { cpu = cpu.new; overflows = result } ≡ timer2_ticked levels.now cpu.old }
    ensures most { result ≤ 6 }
{
    let runs = cpu.flag(T2CON, TR2);
    let low = cpu.latch(TL2);
    if fits(1, runs, low) {
        cpu.set_latch(TL2, add_where(1, runs, low));
        return 0;
    }
    tick_timer2(cpu, levels)
}

/// Timers 0 and 1 in a cycle, where each counts each cycle or does not run: whether timer 1 overflowed.
#[tactic(auto, using(crate::proofs::CountsOn::kept0, crate::proofs::CountsOn::kept1, crate::proofs::CountsOn::no_th0))]
#[inline(always)]
fn pass_timers(cpu: &mut Cpu, levels: &Levels) -> bool
    requires registers { length cpu.old.regs ≡ 128 }
    requires timer0 { timer0_is_plain cpu.old ≡ true }
    requires timer1 { timer1_is_plain cpu.old ≡ true }
    ensures { record { cpu = cpu.new; overflow = result } ≡ timers_ticked levels.now cpu.old }
{
    pass_timer0(cpu, levels);
    pass_timer1(cpu, levels)
}

/// The timers and sending in a cycle in which each timer that runs counts.
#[inline(always)]
pub(crate) fn count_clocks(periph: &mut Periph, cpu: &mut Cpu, levels: &Levels) -> Option<Sent>
    requires registers { length cpu.old.regs ≡ 128 }
    requires timer0 { timer0_is_plain cpu.old ≡ true }
    requires timer1 { timer1_is_plain cpu.old ≡ true }
    requires timer2 { timer2_is_plain cpu.old ≡ true }
    ensures { record { cpu = cpu.new; periph = periph.new; sent = result }
        ≡ clocks_ticked levels.now cpu.old periph.old }
{
    let timer1 = pass_timers(cpu, levels);
    let timer2 = pass_timer2(cpu, levels);
    tick_sending(periph, cpu, timer1, timer2)
}
