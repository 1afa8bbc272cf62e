//! Timers 0 and 1.
ghost use Rattle.std.specs.Prelude.{◌≡◌, ◌<◌};
ghost use Rattle.m51_flat.specs.Sfr.{th0, th1, tl0, tl1};
ghost use Rattle.m51_timers_uart.specs.Counting.{counted_in, mode_of};
ghost use Rattle.m51_timers_uart.specs.Timers.{bytes_at, counted0, counted1, counts0, counts1, flagged, is_split};
ghost use Rattle.m51_timers_uart.specs.Timers.{counts_in_cycle, is_open};
ghost use Rattle.m51_timers_uart.specs.Timers.{mode0};
ghost use Rattle.m51_timers_uart.specs.Timers.{mode1, th0_ticked, timer0_ticked, timer1_ticked, timers_rest};
ghost use Rattle.m51_timers_uart.specs.Timers.{timers_ticked};
ghost use Rattle.m51_timers_uart.specs.Timers.{with_bytes};

use crate::counting::{TimerBytes, TimerMode, count_in};
use crate::levels::{Input, Levels};
use m51_flat::Cpu;
use m51_sfr::addresses::{TCON, TH0, TH1, TL0, TL1, TMOD};
use m51_sfr::bits::{TF0, TF1, TR0, TR1};

/// The mode by M1 and M0.
fn mode_by(m1: bool, m0: bool) -> TimerMode
    ensures { result ≡ mode_of m1 m0 }
{
    match (m1, m0) {
        (false, false) => TimerMode::ThirteenBits,
        (false, true) => TimerMode::SixteenBits,
        (true, false) => TimerMode::Reloaded,
        (true, true) => TimerMode::Split,
    }
}

/// The mode of timer 0, in bits 1 and 0 of TMOD.
pub(crate) fn timer0_mode(cpu: &Cpu) -> TimerMode
    ensures { result ≡ mode0 cpu.now }
{
    mode_by(cpu.flag(TMOD, 1), cpu.flag(TMOD, 0))
}

/// The mode of timer 1, in bits 5 and 4 of TMOD.
fn timer1_mode(cpu: &Cpu) -> TimerMode
    ensures { result ≡ mode1 cpu.now }
{
    mode_by(cpu.flag(TMOD, 5), cpu.flag(TMOD, 4))
}

/// Mode 3.
pub(crate) fn splits(mode: TimerMode) -> bool
    ensures { result ≡ is_split mode }
{
    mode == TimerMode::Split
}

/// TR lets a timer run, and with GATE the level of INT does.
fn opens(tr: bool, gate: bool, int: bool) -> bool
    ensures { result ≡ is_open tr gate int }
{
    tr && (!gate || int)
}

/// Each cycle is counted, and with C/T each fall of T.
fn meets(ct: bool, fall: bool) -> bool
    ensures { result ≡ counts_in_cycle ct fall }
{
    !ct || fall
}

/// Timer 0 counts in this cycle.
#[tactic(auto, unfolding(crate::specs::Timers::counts0))]
fn counts_timer0(levels: &Levels, cpu: &Cpu) -> bool
    ensures { result ≡ counts0 levels.now cpu.now }
{
    let open = opens(
        cpu.flag(TCON, TR0),
        cpu.flag(TMOD, 3),
        levels.is_high(Input::Int0),
    );
    let met = meets(cpu.flag(TMOD, 2), levels.falls(Input::T0));
    open && met
}

/// Timer 1 counts in this cycle; while timer 0 is in mode 3, TR1, GATE and INT1 do not matter.
#[tactic(auto, unfolding(crate::specs::Timers::counts1))]
fn counts_timer1(levels: &Levels, cpu: &Cpu) -> bool
    ensures { result ≡ counts1 levels.now cpu.now }
{
    let stands = splits(timer1_mode(cpu));
    let free = splits(timer0_mode(cpu));
    let open = opens(
        cpu.flag(TCON, TR1),
        cpu.flag(TMOD, 7),
        levels.is_high(Input::Int1),
    );
    let met = meets(cpu.flag(TMOD, 6), levels.falls(Input::T1));
    !stands && (free || open) && met
}

/// The two bytes of a timer.
pub(crate) fn read_bytes(cpu: &Cpu, high: u8, low: u8) -> TimerBytes
    ensures { result ≡ bytes_at high low cpu.now }
{
    TimerBytes {
        high: cpu.latch(high),
        low: cpu.latch(low),
    }
}

/// The two bytes of a timer are written.
pub(crate) fn write_bytes(cpu: &mut Cpu, high: u8, low: u8, bytes: TimerBytes)
    ensures { cpu.new ≡ with_bytes high low bytes cpu.old }
{
    cpu.set_latch(high, bytes.high);
    cpu.set_latch(low, bytes.low);
}

/// A flag of TCON is set where the test holds.
#[tactic(auto, unfolding(crate::specs::Timers::flagged))]
fn set_where(cpu: &mut Cpu, test: bool, bit: u8)
    requires { bit < 8 }
    ensures { cpu.new ≡ flagged test bit cpu.old }
{
    if test {
        cpu.set_flag(TCON, bit, true);
    }
}

/// One count of timer 0: an overflow sets TF0.
#[inline(always)]
pub(crate) fn count_timer0(cpu: &mut Cpu)
    ensures { cpu.new ≡ counted0 (counted_in (mode0 cpu.old) (bytes_at th0 tl0 cpu.old)) cpu.old }
{
    let counted = count_in(timer0_mode(cpu), read_bytes(cpu, TH0, TL0));
    write_bytes(cpu, TH0, TL0, counted.bytes);
    set_where(cpu, counted.overflow, TF0);
}

/// Timer 0 in a cycle.
#[tactic(auto, unfolding(crate::specs::Timers::timer0_ticked))]
fn tick_timer0(cpu: &mut Cpu, levels: &Levels)
    ensures { cpu.new ≡ timer0_ticked levels.now cpu.old }
{
    if counts_timer0(levels, cpu) {
        count_timer0(cpu);
    }
}

/// TH0 beside timer 0 in mode 3: it counts each cycle where TR1 is 1, and an overflow sets TF1.
#[tactic(auto, unfolding(crate::specs::Timers::th0_ticked))]
fn tick_th0(cpu: &mut Cpu)
    ensures { cpu.new ≡ th0_ticked cpu.old }
{
    if splits(timer0_mode(cpu)) && cpu.flag(TCON, TR1) {
        let high = cpu.latch(TH0);
        cpu.set_latch(TH0, high.wrapping_add(1));
        set_where(cpu, high == 0xFF, TF1);
    }
}

/// One count of timer 1: whether it overflowed, which sets TF1 but where timer 0 is in mode 3.
#[inline(always)]
pub(crate) fn count_timer1(cpu: &mut Cpu) -> bool
    ensures { record { cpu = cpu.new; overflow = result }
        ≡ counted1 (counted_in (mode1 cpu.old) (bytes_at th1 tl1 cpu.old)) cpu.old }
{
    let shown = !splits(timer0_mode(cpu));
    let counted = count_in(timer1_mode(cpu), read_bytes(cpu, TH1, TL1));
    write_bytes(cpu, TH1, TL1, counted.bytes);
    set_where(cpu, counted.overflow && shown, TF1);
    counted.overflow
}

/// Timer 1 in a cycle: whether it overflowed.
#[tactic(auto, unfolding(crate::specs::Timers::timer1_ticked))]
fn tick_timer1(cpu: &mut Cpu, levels: &Levels) -> bool
    ensures { record { cpu = cpu.new; overflow = result } ≡ timer1_ticked levels.now cpu.old }
{
    if !counts_timer1(levels, cpu) {
        return false;
    }
    count_timer1(cpu)
}

/// TR0 and TR1 are 0 and timer 0 is not in mode 3, so neither timer counts, whatever the pins do.
#[tactic(auto, unfolding(crate::specs::Timers::timers_rest))]
pub(crate) fn timers_rest(cpu: &Cpu) -> bool
    ensures { result ≡ timers_rest cpu.now }
{
    let runs0 = cpu.flag(TCON, TR0);
    let runs1 = cpu.flag(TCON, TR1);
    let split = splits(timer0_mode(cpu));
    !runs0 && !runs1 && !split
}

/// Timers 0 and 1, and whether timer 1 overflowed.
pub(crate) fn tick_timers(cpu: &mut Cpu, levels: &Levels) -> bool
    ensures { record { cpu = cpu.new; overflow = result } ≡ timers_ticked levels.now cpu.old }
{
    tick_timer0(cpu, levels);
    tick_th0(cpu);
    tick_timer1(cpu, levels)
}
