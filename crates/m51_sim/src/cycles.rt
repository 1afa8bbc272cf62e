//! The machine cycles of a step.
ghost use Rattle.std.specs.Prelude.{◌≡◌, ◌≤◌, ◌+◌, ◌-◌, ◌^◌, [], ◌∷◌, ◌++◌, length, take, min, IfSome, IsTrue};
ghost use Rattle.std.specs.Prelude.{if◌then◌else◌};
ghost use Rattle.m51_sim.specs.Cycles.{AreFew, Counts, IsPaced, Rests, cycle_passed, cycles_passed, first_sent};
ghost use Rattle.m51_sim.specs.Cycles.{frames_in, inputs_of};
ghost use Rattle.m51_sim.specs.Cycles.{next_cycle, sent_in, with_extra};
ghost use Rattle.m51_timers_uart.specs.Tick.{ticked};

use m51_cells::Entry;
use m51_flat::{Cpu, Pins};
use m51_script::Script;
use m51_timers_uart::{Frame, Periph, Sent};

/// A frame that arrives in a cycle.
///
/// Source: own choice ("Frames of other boards").
#[derive(Clone, Copy, Debug, PartialEq, Eq)]
pub struct Timed {
    /// The number of the machine cycle.
    pub cycle: u64,
    /// The frame.
    pub frame: Frame,
}

// The most frames of one cycle that do not come from the script.
const MOST_EXTRA: usize = 7;

// How the devices go where the script has no lines: they rest, or they count.
#[derive(Clone, Copy)]
pub(crate) enum Pace {
    Resting,
    Counting,
}

// The levels that the outside gives the pins before the first PIN line.
pub(crate) const ALL_HIGH: Pins = Pins { p: [0xFF; 4] };

// The processor and the devices between two cycles of a step, the number of the cycle, and the byte that was sent in
// the step.
#[derive(Drop)]
pub(crate) struct Passing {
    pub(crate) cpu: Cpu,
    pub(crate) periph: Periph,
    pub(crate) cycle: u64,
    pub(crate) sent: Option<Entry>,
}

// The frames of one cycle: the first `count` of these.
#[derive(Drop)]
struct Batch {
    frames: [Frame; MOST_EXTRA],
    count: usize,
}

// One more frame, if it arrives in this cycle.
fn add(batch: &mut Batch, timed: Timed, cycle: u64)
    requires { batch.old.count + length (frames_in cycle (timed ∷ [])) ≤ 7 }
    ensures frames { take batch.new.count batch.new.frames
        ≡ take batch.old.count batch.old.frames ++ frames_in cycle (timed ∷ []) }
    ensures count { batch.new.count ≡ batch.old.count + length (frames_in cycle (timed ∷ [])) }
{
    if timed.cycle == cycle {
        batch.frames[batch.count] = timed.frame;
        batch.count += 1;
    }
}

// The frames among these that arrive in a cycle.
#[inline(always)]
fn batch_at(extra: &[Timed], cycle: u64) -> Batch
    requires { AreFew extra.now }
    ensures within { result.count ≤ 7 }
    ensures frames { take result.count result.frames ≡ frames_in cycle extra.now }
{
    let none = Frame {
        byte: 0,
        ninth: false,
    };
    let mut batch = Batch {
        frames: [none; MOST_EXTRA],
        count: 0,
    };
    for timed in extra {
        add(&mut batch, *timed, cycle);
    }
    batch
}

// The number of the next cycle.
#[inline(always)]
fn next_cycle(cycle: u64) -> u64
    ensures { result ≡ next_cycle cycle }
{
    cycle.saturating_add(1)
}

// The entry of a byte whose sending ends with this cycle.
#[inline(always)]
fn sent_in(cycle: u64, sent: Option<Sent>) -> Option<Entry>
    ensures { result ≡ sent_in cycle sent }
{
    match sent {
        None => None,
        Some(sent) => Some(Entry::Sent {
            cycle,
            byte: sent.byte,
            ninth: sent.ninth,
        }),
    }
}

// Keeps the byte whose sending ends with this cycle, if none was sent before.
#[inline(always)]
fn keep_sent(kept: &mut Option<Entry>, cycle: u64, sent: Option<Sent>)
    ensures { kept.new ≡ first_sent kept.old (sent_in cycle sent) }
{
    match *kept {
        Some(_) => {}
        None => match sent {
            None => {}
            Some(_) => *kept = sent_in(cycle, sent),
        },
    }
}

// A tick with the frames of the script and then with the others of its cycle.
#[tactic(auto, using(crate::proofs::Quiet::none_arrive))]
#[inline(always)]
fn tick(
    script: &Script,
    extra: &[Timed],
    cycle: u64,
    cpu: &mut Cpu,
    periph: &mut Periph,
) -> Option<Sent>
    requires { AreFew extra.now }
    ensures { record { cpu = cpu.new; periph = periph.new; sent = result } ≡ ticked cpu.old
        ((inputs_of script.now).pins cycle) ((inputs_of script.now).frames cycle ++ frames_in cycle extra.now)
        periph.old }
{
    let pins = script.pins_at(cycle);
    let frames = script.frames_at(cycle);
    if extra.is_empty() {
        return periph.tick(cpu, &pins, frames, &[]);
    }
    let batch = batch_at(extra, cycle);
    periph.tick(cpu, &pins, frames, &batch.frames[..batch.count])
}

// One machine cycle, with the frames of the script and then with the others of the cycle that it ends with.
#[tactic(auto, unfolding(crate::specs::Cycles::cycle_passed))]
#[inline(always)]
fn pass_cycle(script: &Script, extra: &[Timed], passing: &mut Passing)
    requires { AreFew extra.now }
    ensures { passing.new ≡ cycle_passed (with_extra extra.now (inputs_of script.now)) passing.old }
{
    let cycle = next_cycle(passing.cycle);
    let sent = tick(script, extra, cycle, &mut passing.cpu, &mut passing.periph);
    passing.cycle = cycle;
    keep_sent(&mut passing.sent, cycle, sent);
}

// Whether the script has no lines, and the devices rest.
#[inline(always)]
fn comes_to_rest(script: &Script, passing: &Passing) -> bool
    ensures { IsTrue result → Rests script.now passing.now }
{
    script.is_silent() && passing.periph.rests(&passing.cpu, &ALL_HIGH)
}

// Whether the next cycles change nothing but their number: no further frame comes, and the devices come to rest.
#[inline(always)]
fn are_idle(script: &Script, extra: &[Timed], passing: &Passing) -> bool
    ensures alone { IsTrue result → length extra.now ≡ 0 }
    ensures rests { IsTrue result → Rests script.now passing.now }
{
    if !extra.is_empty() {
        return false;
    }
    comes_to_rest(script, passing)
}

// This number of machine cycles, which change nothing but the number of the cycle.
#[inline(always)]
fn skip_cycles(count: u8, passing: &mut Passing)
    ensures passed { passing.new ≡ record passing.old { cycle = min (passing.old.cycle + count) (2 ^ 64 - 1) } }
    ensures before { passing.old.cycle ≤ 2 ^ 64 - 1 }
{
    passing.cycle = passing.cycle.saturating_add(u64::from(count));
}

// A processor has 128 registers, which proofs need.
#[inline(always)]
pub(crate) fn cite_registers(cpu: &Cpu)
    ensures { length cpu.now.regs ≡ 128 }
{
    let _first = cpu.regs[0];
}

// Whether the script has no lines, and the devices count.
#[inline(always)]
fn comes_to_count(script: &Script, passing: &Passing) -> bool
    ensures { IsTrue result → Counts script.now passing.now }
{
    script.is_silent() && passing.periph.counts(&passing.cpu, &ALL_HIGH)
}

// One machine cycle in which the devices count, the script has no lines and no further frame comes.
#[inline(always)]
fn count_cycle(script: &Script, extra: &[Timed], passing: &mut Passing)
    requires alone { length extra.now ≡ 0 }
    requires counts { Counts script.now passing.old }
    ensures passed { passing.new ≡ cycle_passed (with_extra extra.now (inputs_of script.now)) passing.old }
    ensures counts { Counts script.now passing.new }
{
    cite_registers(&passing.cpu);
    let cycle = next_cycle(passing.cycle);
    let sent = passing.periph.count_cycle(&mut passing.cpu, &ALL_HIGH);
    passing.cycle = cycle;
    keep_sent(&mut passing.sent, cycle, sent);
}

// This number of machine cycles in which the devices count, the script has no lines and no further frame comes.
#[tactic(auto, unfolding(crate::specs::Cycles::cycles_passed))]
#[inline(always)]
fn count_cycles(script: &Script, extra: &[Timed], cycles: u8, passing: &mut Passing)
    requires alone { length extra.now ≡ 0 }
    requires counts { Counts script.now passing.old }
    ensures passed { passing.new ≡ cycles_passed (with_extra extra.now (inputs_of script.now)) cycles passing.old }
    ensures counts { Counts script.now passing.new }
{
    for _ in 0..cycles {
        count_cycle(script, extra, passing);
    }
}

// Whether the devices count, the script has no lines and no further frame comes.
#[inline(always)]
fn are_counted(script: &Script, extra: &[Timed], passing: &Passing) -> bool
    ensures alone { IsTrue result → length extra.now ≡ 0 }
    ensures counts { IsTrue result → Counts script.now passing.now }
{
    if !extra.is_empty() {
        return false;
    }
    comes_to_count(script, passing)
}

// This number of machine cycles, one by one.
#[tactic(auto, unfolding(crate::specs::Cycles::cycles_passed))]
#[inline(always)]
fn pass_each(script: &Script, extra: &[Timed], count: u8, passing: &mut Passing)
    requires { AreFew extra.now }
    ensures { passing.new ≡ cycles_passed (with_extra extra.now (inputs_of script.now)) count passing.old }
{
    for _ in 0..count {
        pass_cycle(script, extra, passing);
    }
}

// This number of machine cycles. It answers how the devices go after them, where that is known; `counted` says that
// they are known to count before.
#[tactic(auto, using(crate::proofs::Quiet::rest_passes, crate::proofs::Quiet::rest_lasts))]
#[inline(always)]
pub(crate) fn pass_cycles(
    script: &Script,
    extra: &[Timed],
    count: u8,
    passing: &mut Passing,
    counted: bool,
) -> Option<Pace>
    requires few { AreFew extra.now }
    requires alone { IsTrue counted → length extra.now ≡ 0 }
    requires counts { IsTrue counted → Counts script.now passing.old }
    ensures passed { passing.new ≡ cycles_passed (with_extra extra.now (inputs_of script.now)) count passing.old }
    ensures pace { IfSome result (λ pace. IsPaced pace script.now passing.new) }
{
    if !counted && are_idle(script, extra, passing) {
        skip_cycles(count, passing);
        return Some(Pace::Resting);
    }
    if counted || are_counted(script, extra, passing) {
        count_cycles(script, extra, count, passing);
        return Some(Pace::Counting);
    }
    pass_each(script, extra, count, passing);
    if comes_to_count(script, passing) {
        return Some(Pace::Counting);
    }
    None
}
