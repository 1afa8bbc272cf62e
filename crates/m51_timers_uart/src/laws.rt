//! What holds of every machine cycle. Each law is the contract of a function that does nothing.
ghost use Rattle.m51_timers_uart.specs.CountLaws.{TimersCountUp};
ghost use Rattle.m51_timers_uart.specs.KeptLaws.{TheRestIsKept, TimerZeroIsTold};
ghost use Rattle.m51_timers_uart.specs.LineLaws.{LineIsBounded, NinthBitsAreApart, OneBitPasses, OneByteIsSent};
ghost use Rattle.m51_timers_uart.specs.OnlyCounting.{DevicesCountOn};
ghost use Rattle.m51_timers_uart.specs.RateLaws.{ModeOneIsSentInTime};
ghost use Rattle.m51_timers_uart.specs.RowLaws.{ModeOneIsSentAtItsCycle, TimerOneCountsCycles};

/// A timer overflows at the count that reaches its size and at none before, and then continues from its reload value:
/// in mode 1 after 65,536 counts less its number, in mode 2 after 256 less TL, and from TH.
///
/// Source: family manual.
pub fn timers_count_up()
    ensures { TimersCountUp }
{}

/// Timer 1 in modes 0 to 2, while it runs free: TR1 is 1, GATE and C/T are 0. Each cycle counts by one. In the cycle in
/// which the number reaches its size, 65,536 less it in mode 1 and 256 less TL1 in mode 2, TF1 is set, and the number
/// is its reload value; in the cycles before it TF1 stays. The cycles come one after another; what runs between two
/// ticks does not write TH1, TL1, TMOD and TR1, and timer 0 is not in mode 3 in the last of them.
///
/// Source: family manual.
pub fn timer_1_counts_cycles()
    ensures { TimerOneCountsCycles }
{}

/// In a tick at most one bit time passes, and what is sent is the byte on its way, when its last bit time passes.
///
/// Source: family manual.
pub fn one_bit_passes()
    ensures { OneBitPasses }
{}

/// From one write to SBUF to the next at most one byte is sent, so a step of the processor sends at most one.
///
/// Source: family manual.
#[tactic(auto, using(crate::proofs::Lines::one_byte_is_sent))]
pub fn one_byte_is_sent()
    ensures { OneByteIsSent }
{}

/// From a byte that was sent to the next one with a ninth bit there are at least nine machine cycles between.
///
/// Source: family manual.
#[tactic(auto, using(crate::proofs::Lines::ninth_bits_are_apart))]
pub fn ninth_bits_are_apart()
    ensures { NinthBitsAreApart }
{}

/// A write to SBUF in mode 1, by what the line gets: while TCLK is 0 and SMOD stays, the byte is sent in the tick in
/// which timer 1 overflows for the last time of its nine bit times, each of 32 overflows or with SMOD 16, and in none
/// before. What makes timer 1 overflow does not matter.
///
/// Source: family manual; own choice ("Bit times").
pub fn mode_1_is_sent_in_time()
    ensures { ModeOneIsSentInTime }
{}

/// A write to SBUF in mode 1, while timer 1 runs free in mode 2 and gives the rate: the byte is sent, and TI set, in
/// the cycle in which timer 1 overflows for the last time of its nine bit times, each of 32 overflows or with SMOD
/// 16. That is 256 less TL1 cycles to the first overflow and 256 less TH1 to each later one. In no cycle before it is
/// anything sent, nor TI changed. The cycles come one after another; what runs between two ticks does not write TH1,
/// TL1, TMOD, TR1, TCLK, SMOD and SBUF.
///
/// Source: family manual; own choice ("Bit times").
pub fn mode_1_is_sent_at_its_cycle()
    ensures { ModeOneIsSentAtItsCycle }
{}

/// At most ten bit times are left, the mode is 0 to 3, and less has passed than the longest bit time: after a reset,
/// after a write to SBUF, and after each tick from such a state.
///
/// Source: own choice ("Bit times").
#[tactic(auto, using(crate::proofs::Lines::line_is_bounded))]
pub fn line_is_bounded()
    ensures { LineIsBounded }
{}

/// A tick leaves PC, the levels in progress and every register that is not a device's as they are.
///
/// Source: family manual.
pub fn the_rest_is_kept()
    ensures { TheRestIsKept }
{}

/// Where timer 0 is not in mode 3, TH0 and TL0 after a tick are those of its count, or as before where it does not
/// count: no later part of the tick writes them.
///
/// Source: family manual.
#[tactic(auto, using(crate::proofs::Running::timer_0_is_told))]
pub fn timer_0_is_told()
    ensures { TimerZeroIsTold }
{}

/// Machine cycles in which the devices only count: the tick of each adds one to the low byte of each timer that runs,
/// changes nothing else and sends nothing.
///
/// Source: family manual; own choice ("Cycles in which nothing happens").
pub fn devices_count_on()
    ensures { DevicesCountOn }
{}
