//! The monitor: which units are active, and what a step changes.
ghost use Rattle.std.specs.Prelude.{◌≡◌, ◌≢◌, ◌<◌, ◌≤◌, ◌+◌, ◌%◌, ◌∷◌, ℕ, [], ◌++◌, vec_capacity, None, Some, Ok};
ghost use Rattle.std.specs.Prelude.{IfNone, IfOk, IfSome, false, length, reverse, true};
ghost use Rattle.std.specs.List.{Contains};
ghost use Rattle.m51_module.specs.Plan.{IsRootAt, IsUnitAt};
ghost use Rattle.m51_flat.specs.States.{shut_of};
ghost use Rattle.m51_flat.specs.Sfr.{latch, sp};
ghost use Rattle.m51_monitor.specs.Frames.{IsPast, top_of};
ghost use Rattle.m51_monitor.specs.Monitored.{AnswersAt, AreNumbers, HasAddress, HasLevel, MonitorStandsFor, IsStart};
ghost use Rattle.m51_monitor.specs.Monitored.{StandsAfter, AreActivations, WasJudged};
ghost use Rattle.m51_monitor.specs.Monitored.{live_in, stores_after, stores_changed};
ghost use Rattle.m51_monitor.specs.Records.{current};
ghost use Rattle.m51_monitor.specs.Resolved.{outside_of, resolved_cells};
ghost use Rattle.m51_monitor.specs.Shared.{shared_barred, shared_cells};
ghost use Rattle.m51_monitor.specs.Stores.{Stores, put_into};
ghost use Rattle.m51_monitor.specs.Transfers.{byte_put, jumped, moved, return_pushed, return_address_of, without_top};

use crate::activity::Activity;
use crate::cause::{Cause, ReturnFrame};
use crate::judging::topmost;
use crate::shared::SharedRam;
use crate::step::Move;
use m51_cells::{Cell, MOST_RETURN_RECORDS, NoMemory, cite};
use m51_flat::{Cpu, Effect, Put};
use m51_module::Layout;
use std::alloc::Global;
use std::marker::Model;

// The index of SP among the registers.
const SP: usize = 0x01;

/// A layout, the memory of its segments, and the records of what is active.
///
/// Source: own choice ("Activations").
#[derive(Drop)]
pub struct Monitor {
    pub(crate) activity: Activity,
    pub(crate) frames: Vec<ReturnFrame>,
    // The current unit, the address after it, and SP of the topmost frame or 0: each step compares with them, and few
    // change them.
    unit: u16,
    end: u32,
    pub(crate) top: u8,
}

impl Model for Monitor {
    ghost use Rattle.std.specs.Prelude.{◌≤◌, vec_capacity};
    ghost use Rattle.m51_monitor.specs.Frames.{AreAtHand, AreFrames, records_of};
    ghost use Rattle.m51_cells.specs.declared.limits.TheConstants.{MOST_RETURN_RECORDS};
    ghost use Rattle.m51_monitor.specs.Monitored as monitored;

    ghost Value = { monitored.Monitored };

    ghost view = { λ m. record {
      layout = m.activity.layout;
      records = records_of m.frames.items m.activity.units;
      store = m.activity.store;
    } };

    ghost invariant = { λ m. AreFrames m.frames.items m.activity.units
        × monitored.AreActivations m.activity.layout (records_of m.frames.items m.activity.units)
        × (MOST_RETURN_RECORDS ≤ vec_capacity m.frames)
        × AreAtHand m.activity.layout m.frames.items m.activity.units m.unit m.end m.top };
}

// The byte that a put stores. Where a record is made, both puts are bytes.
fn byte_put(put: &Put) -> u8
    ensures { result ≡ byte_put put.now }
{
    match *put {
        Put::Byte { value, .. } => value,
        Put::Nothing => 0,
        Put::Bit { .. } => 0,
        Put::Xbyte { .. } => 0,
    }
}

// The return address that an effect stores.
fn return_address_of(effect: &Effect) -> u16
    ensures { result ≡ return_address_of effect.now }
{
    u16::from(byte_put(&effect.first)) + 256 * u16::from(byte_put(&effect.second))
}

/// SP.
#[tactic(auto, unfolding(m51_flat::specs::Sfr::latch, m51_flat::specs::Sfr::has_register))]
pub(crate) fn stack_pointer(cpu: &Cpu) -> u8
    ensures value { result ≡ latch cpu.now sp }
    ensures byte { latch cpu.now sp < 256 }
{
    cpu.regs[SP]
}

// The return record of these, but for its units.
fn frame(cause: Cause, return_address: u16, sp_after: u8, start: usize) -> ReturnFrame
    ensures { result ≡ record { cause = cause; return_address = return_address; sp = sp_after; start = start } }
{
    ReturnFrame {
        cause,
        return_address,
        sp: sp_after,
        start,
    }
}

// Puts a frame on top, for which there is room.
fn add(frames: &mut Vec<ReturnFrame>, frame: ReturnFrame)
    requires { length frames.old.items < vec_capacity frames.old }
    ensures items { frames.new.items ≡ frames.old.items ++ frame ∷ [] }
    ensures capacity { vec_capacity frames.old ≤ vec_capacity frames.new }
{
    match frames.push(frame) {
        Ok(()) => {}
        // There is room.
        Err(_) => unreachable!(),
    }
}

// SP of the topmost frame, or 0.
#[tactic(auto, using(crate::proofs::Framing::top_none, crate::proofs::Framing::top_some))]
fn top_of(frames: &[ReturnFrame]) -> u8
    ensures { result ≡ top_of (reverse frames.now) }
{
    match topmost(frames) {
        None => 0,
        Some(frame) => frame.sp,
    }
}

impl Monitor {
    /// At the reset, of a layout with a root at 0000H: that root is active, plain segments and the common cells have
    /// the fill, and overlaid segments are unset. Error: out of memory.
    ///
    /// Source: own choice ("Activations").
    pub fn start(alloc: Global, layout: Layout, fill: u8) -> Result<Monitor, NoMemory>
        requires { (root : ℕ) × IsRootAt layout 0 root }
        ensures { IfOk result (λ monitor. IsStart layout fill monitor) }
    {
        match layout.root(0) {
            Some(root) => Monitor::start_at(alloc, layout, fill, root),
            // There always is a root.
            None => unreachable!(),
        }
    }

    // The same, where the root is known.
    fn start_at(alloc: Global, layout: Layout, fill: u8, root: u16) -> Result<Monitor, NoMemory>
        requires { IsRootAt layout 0 root }
        ensures { IfOk result (λ monitor. IsStart layout fill monitor) }
    {
        let frames = Vec::with_capacity(alloc, MOST_RETURN_RECORDS)?;
        let mut activity = Activity::start(alloc, layout, fill)?;
        activity.is_sound();
        activity.enter(root);
        let end = activity.last_end();
        Ok(Monitor {
            activity,
            frames,
            unit: root,
            end,
            top: 0,
        })
    }

    /// The layout.
    ///
    /// Source: own choice ("Layouts").
    pub fn layout(&self) -> &Layout
        ensures { result.now ≡ self.now.layout }
    {
        self.activity.layout()
    }

    /// The memory of the segments. It answers as the separate stores that it represents, and there are such; the cells
    /// that may not be written are those that are outside.
    ///
    /// Source: own choice ("Stores of segments").
    pub fn store(&self) -> &SharedRam
        ensures store { result.now ≡ self.now.store }
        ensures stands { (s : Stores) × MonitorStandsFor self.now s }
        ensures answers { (s : Stores) → MonitorStandsFor self.now s → shared_cells result.now
            ≡ resolved_cells self.now.layout (live_in self.now.layout self.now.records) s }
        ensures barred { shared_barred result.now ≡ outside_of (shared_cells result.now) }
    {
        self.activity.is_sound();
        self.activity.store()
    }

    /// The current unit, below the number of units of the layout: the last one of the topmost record that has one.
    ///
    /// Source: own choice ("Activations").
    #[tactic(auto, using(crate::proofs::Framing::current_is))]
    pub fn current(&self) -> u16
        ensures value { result ≡ current self.now.records }
        ensures unit { result < length self.now.layout.units }
    {
        self.activity.is_sound();
        self.unit
    }

    /// Whether `count` bytes from an address in the current unit on lie in that unit.
    ///
    /// Source: own choice ("Units").
    #[inline(always)]
    pub fn holds(&self, from: u16, count: u8) -> bool
        requires { IsUnitAt self.now.layout from (current self.now.records) }
        ensures inside { result ≡ true → (n : ℕ) → n < count
            → IsUnitAt self.now.layout ((from + n) % 65536) (current self.now.records) }
        ensures outside { result ≡ false → IsPast self.now.layout from count (current self.now.records) }
    {
        self.activity.is_sound();
        u32::from(from) + u32::from(count) <= self.end
    }

    /// The number of return records, 0 to 128. Their units form walks, SP of each is at least two above that of the
    /// one below, and at most two are of interrupts.
    ///
    /// Source: own choice ("Activations").
    #[tactic(auto, using(crate::proofs::Framing::depth_is))]
    pub fn depth(&self) -> u8
        ensures value { result ≡ length self.now.records.returns }
        ensures most { result ≤ MOST_RETURN_RECORDS }
        ensures records { AreActivations self.now.layout self.now.records }
    {
        self.frames.len() as u8
    }

    // What holds of the records at every moment.
    fn are_activations(&self)
        ensures { AreActivations self.now.layout self.now.records }
    {
        cite(&self.frames);
    }

    // Writes the cells of a put.
    #[inline(always)]
    fn put(&mut self, put: &Put)
        requires { shut_of (shared_barred self.old.store) put.now ≡ None }
        ensures layout { self.new.layout ≡ self.old.layout }
        ensures records { self.new.records ≡ self.old.records }
        ensures barred { shared_barred self.new.store ≡ shared_barred self.old.store }
        ensures keeps { StandsAfter (put_into self.old.layout
            (live_in self.old.layout self.old.records) put.now) self.old self.new }
    {
        self.activity.put(put);
    }

    // Appends a unit to the top record.
    fn jump(&mut self, unit: u16)
        requires { AreActivations self.old.layout (jumped self.old.records.reset self.old.records.returns unit) }
        ensures layout { self.new.layout ≡ self.old.layout }
        ensures records { self.new.records ≡ jumped self.old.records.reset self.old.records.returns unit }
        ensures keeps { StandsAfter (stores_changed self.new.layout self.new.records) self.old self.new }
    {
        self.activity.is_sound();
        self.activity.enter(unit);
        self.unit = unit;
        self.end = self.activity.last_end();
    }

    // Puts the record of a call within the current unit on top.
    fn push(&mut self, return_address: u16, sp_after: u8)
        requires { AreActivations self.old.layout
            (return_pushed self.old.records Cause.Call return_address sp_after []) }
        ensures layout { self.new.layout ≡ self.old.layout }
        ensures records { self.new.records ≡ return_pushed self.old.records Cause.Call return_address sp_after [] }
        ensures keeps { StandsAfter (stores_changed self.new.layout self.new.records) self.old self.new }
    {
        let start = self.activity.count();
        add(
            &mut self.frames,
            frame(Cause::Call, return_address, sp_after, start),
        );
        self.top = sp_after;
    }

    // Puts a record with a unit on top.
    fn push_unit(&mut self, cause: Cause, return_address: u16, sp_after: u8, unit: u16)
        requires { AreActivations self.old.layout
            (return_pushed self.old.records cause return_address sp_after (unit ∷ [])) }
        ensures layout { self.new.layout ≡ self.old.layout }
        ensures records { self.new.records ≡ return_pushed self.old.records cause return_address sp_after (unit ∷ []) }
        ensures keeps { StandsAfter (stores_changed self.new.layout self.new.records) self.old self.new }
    {
        self.activity.is_sound();
        let start = self.activity.count();
        add(
            &mut self.frames,
            frame(cause, return_address, sp_after, start),
        );
        self.activity.enter(unit);
        self.unit = unit;
        self.end = self.activity.last_end();
        self.top = sp_after;
    }

    // Takes the top record away.
    fn pop(&mut self)
        requires { AreActivations self.old.layout
            (record { reset = self.old.records.reset; returns = without_top self.old.records.returns }) }
        ensures layout { self.new.layout ≡ self.old.layout }
        ensures records { self.new.records
            ≡ record { reset = self.old.records.reset; returns = without_top self.old.records.returns } }
        ensures keeps { StandsAfter (stores_changed self.new.layout self.new.records) self.old self.new }
    {
        if let Some(top) = self.frames.pop() {
            self.activity.leave_to(top.start);
            self.unit = self.activity.last();
            self.end = self.activity.last_end();
            self.top = top_of(&self.frames);
        }
    }

    // Changes the records.
    #[inline(always)]
    fn change(&mut self, effect: &Effect, step: Move)
        requires { AreActivations self.old.layout (moved self.old.records effect.now step) }
        ensures layout { self.new.layout ≡ self.old.layout }
        ensures records { self.new.records ≡ moved self.old.records effect.now step }
        ensures keeps { StandsAfter (stores_changed self.new.layout self.new.records) self.old self.new }
    {
        match step {
            Move::Stay => {}
            Move::Jump(unit) => self.jump(unit),
            Move::Local => self.push(return_address_of(effect), stack_pointer(&effect.cpu)),
            Move::Call(unit) => self.push_unit(
                Cause::Call,
                return_address_of(effect),
                stack_pointer(&effect.cpu),
                unit,
            ),
            Move::Interrupt(source, unit) => self.push_unit(
                Cause::Interrupt(source),
                return_address_of(effect),
                stack_pointer(&effect.cpu),
                unit,
            ),
            Move::Return => self.pop(),
        }
    }

    /// Writes the cells of the first put of an effect and then of the second, and changes the records by the move that
    /// `judge` answered on this effect. No cell of either put is barred (`store().shut` answers none). Where the move
    /// makes a record, the two puts are the bytes of its return address, the low byte first; where it is an interrupt,
    /// at most one interrupt has a record before. It allocates nothing.
    ///
    /// Source: own choice ("Activations").
    #[inline(always)]
    pub fn commit(&mut self, effect: &Effect, step: Move)
        requires judged { WasJudged self.old effect.now step }
        requires first { shut_of (shared_barred self.old.store) effect.now.first ≡ None }
        requires second { shut_of (shared_barred self.old.store) effect.now.second ≡ None }
        requires address { HasAddress effect.now step }
        requires level { HasLevel self.old step }
        ensures layout { self.new.layout ≡ self.old.layout }
        ensures records { self.new.records ≡ moved self.old.records effect.now step }
        ensures stores { StandsAfter
            (stores_after self.old.layout self.old.records self.new.records effect.now) self.old self.new }
    {
        self.are_activations();
        cite(stack_pointer(&effect.cpu));
        // Read before the first is written.
        let second = effect.second;
        self.put(&effect.first);
        self.put(&second);
        self.change(effect, step);
    }

    /// The live segment to which the cell resolves, by its index in `layout().placed()`, if there is one. No cell of
    /// program memory resolves to a segment.
    ///
    /// Source: own choice ("Stores of segments").
    pub fn segment_at(&self, cell: Cell) -> Option<u16>
        ensures some { IfSome result (λ t. AnswersAt self.now cell t) }
        ensures only { (t : ℕ) → AnswersAt self.now cell t → result ≡ Some t }
    {
        self.activity.is_sound();
        self.are_activations();
        self.activity.segment_at(cell)
    }

    /// For each unit, in their order, how many records name it, 0 to 3.
    ///
    /// Source: own choice ("Activations").
    pub fn named(&self) -> &[u8]
        ensures { AreNumbers self.now result.now }
    {
        self.activity.is_sound();
        self.activity.numbers()
    }
}
