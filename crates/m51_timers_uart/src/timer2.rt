//! Timer 2.
ghost use Rattle.std.specs.Prelude.{◌≡◌, ◌≤◌, ◌+◌};
ghost use Rattle.m51_alu.specs.Arithmetic.{bit_of};
ghost use Rattle.m51_timers_uart.specs.declared.counting.TimerMode.TheVariants.{SixteenBits};
ghost use Rattle.m51_timers_uart.specs.Counting.{counter_value};
ghost use Rattle.m51_timers_uart.specs.Timer2.{captured, counted_times, exchanged2, gives_rate, once_more, reload2};
ghost use Rattle.m51_timers_uart.specs.Timer2.{reloaded, t2ex_heeded, timer2_rests, timer2_ticked, times2};

use crate::counting::{TimerBytes, count_sixteen};
use crate::levels::{Input, Levels};
use crate::timers::{read_bytes, write_bytes};
use m51_flat::Cpu;
use m51_sfr::addresses::{RCAP2H, RCAP2L, T2CON, TH2, TL2};
use m51_sfr::bits::{CPRL2, CT2, EXEN2, EXF2, RCLK, TCLK, TF2, TR2};

/// Timer 2 gives the rate of the serial line.
#[tactic(auto, unfolding(crate::specs::Timer2::gives_rate))]
pub(crate) fn rates(cpu: &Cpu) -> bool
    ensures { result ≡ gives_rate cpu.now }
{
    let receives = cpu.flag(T2CON, RCLK);
    let sends = cpu.flag(T2CON, TCLK);
    receives || sends
}

/// What the number continues from after an overflow.
#[tactic(auto, unfolding(crate::specs::Timer2::reload2))]
fn reload(cpu: &Cpu) -> TimerBytes
    ensures { counter_value SixteenBits result ≡ reload2 cpu.now }
{
    let rates = rates(cpu);
    let captures = cpu.flag(T2CON, CPRL2);
    if rates || !captures {
        read_bytes(cpu, RCAP2H, RCAP2L)
    } else {
        TimerBytes { high: 0, low: 0 }
    }
}

/// One count: whether it was an overflow, which sets TF2 but where timer 2 gives the rate.
#[tactic(auto, unfolding(crate::specs::Timer2::once_more))]
fn count_once(cpu: &mut Cpu, overflows: u8) -> u8
    requires { overflows ≤ 5 }
    ensures value { record { cpu = cpu.new; overflows = result }
        ≡ once_more (record { cpu = cpu.old; overflows = overflows }) }
    ensures most { result ≤ overflows + 1 }
{
    let shown = !rates(cpu);
    let counted = count_sixteen(read_bytes(cpu, TH2, TL2), reload(cpu));
    write_bytes(cpu, TH2, TL2, counted.bytes);
    if counted.overflow && shown {
        cpu.set_flag(T2CON, TF2, true);
    }
    overflows + u8::from(counted.overflow)
}

/// How often timer 2 counts in this cycle.
#[tactic(auto, unfolding(crate::specs::Timer2::times2))]
fn times(levels: &Levels, cpu: &Cpu) -> u8
    ensures value { result ≡ times2 levels.now cpu.now }
    ensures most { result ≤ 6 }
{
    if !cpu.flag(T2CON, TR2) {
        return 0;
    }
    if cpu.flag(T2CON, CT2) {
        return u8::from(levels.falls(Input::T2));
    }
    if rates(cpu) { 6 } else { 1 }
}

/// Counts this number of times, and answers how many of the counts were overflows.
fn count_times(cpu: &mut Cpu, times: u8) -> u8
    requires { times ≤ 6 }
    ensures value { record { cpu = cpu.new; overflows = result } ≡ counted_times times cpu.old }
    ensures most { result ≤ 6 }
{
    let mut overflows = 0;
    for _ in 0..times {
        overflows = count_once(cpu, overflows);
    }
    overflows
}

/// Timer 2 is captured into RCAP2.
fn capture(cpu: &mut Cpu)
    ensures { cpu.new ≡ captured cpu.old }
{
    let bytes = read_bytes(cpu, TH2, TL2);
    write_bytes(cpu, RCAP2H, RCAP2L, bytes);
}

/// Timer 2 is reloaded from RCAP2.
fn restore(cpu: &mut Cpu)
    ensures { cpu.new ≡ reloaded cpu.old }
{
    let bytes = read_bytes(cpu, RCAP2H, RCAP2L);
    write_bytes(cpu, TH2, TL2, bytes);
}

/// Where timer 2 does not give the rate, it is captured or reloaded by CP/RL2.
#[tactic(auto, unfolding(crate::specs::Timer2::exchanged2))]
fn exchange(cpu: &mut Cpu)
    ensures { cpu.new ≡ exchanged2 cpu.old }
{
    if rates(cpu) {
        return;
    }
    if cpu.flag(T2CON, CPRL2) {
        capture(cpu);
    } else {
        restore(cpu);
    }
}

/// A fall of T2EX with EXEN2 sets EXF2, and captures or reloads.
#[tactic(auto, unfolding(crate::specs::Timer2::t2ex_heeded))]
fn heed_t2ex(cpu: &mut Cpu, levels: &Levels)
    ensures { cpu.new ≡ t2ex_heeded levels.now cpu.old }
{
    let enabled = cpu.flag(T2CON, EXEN2);
    let fell = levels.falls(Input::T2ex);
    if enabled && fell {
        cpu.set_flag(T2CON, EXF2, true);
        exchange(cpu);
    }
}

/// TR2 and EXEN2 are 0, so timer 2 does not count, and no fall of T2EX matters.
#[tactic(auto, unfolding(crate::specs::Timer2::timer2_rests))]
pub(crate) fn timer2_rests(cpu: &Cpu) -> bool
    ensures { result ≡ timer2_rests cpu.now }
{
    let runs = cpu.flag(T2CON, TR2);
    let heeds = cpu.flag(T2CON, EXEN2);
    !runs && !heeds
}

/// Timer 2, and how many of its counts were overflows.
pub(crate) fn tick_timer2(cpu: &mut Cpu, levels: &Levels) -> u8
    ensures value { record { cpu = cpu.new; overflows = result } ≡ timer2_ticked levels.now cpu.old }
    ensures most { result ≤ 6 }
{
    let times = times(levels, cpu);
    let overflows = count_times(cpu, times);
    heed_t2ex(cpu, levels);
    overflows
}
