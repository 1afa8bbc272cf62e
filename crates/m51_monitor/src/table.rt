//! The table of transfers: what a monitor says of a step.
ghost use Rattle.std.specs.Prelude.{◌≡◌, ◌<◌, None, IfSome, length};
ghost use Rattle.m51_monitor.specs.Found.{root_found, unit_found};
ghost use Rattle.m51_monitor.specs.Judgement.{judge_of};
ghost use Rattle.m51_monitor.specs.Transfers.{IsMoveOrEvent, Judges, interrupts_to, is_busy, is_sp_below, judged};
ghost use Rattle.m51_monitor.specs.Transfers.{judged_as};
ghost use Rattle.m51_monitor.specs.Transfers.{return_move};

use crate::judging::{
    any_of_root, is_at, jump_or_call, returns_from, root_wanted, topmost, unit_found,
};
use crate::monitor::{Monitor, stack_pointer};
use crate::step::Move;
use m51_cells::{Event, Why};
use m51_flat::{Cpu, Effect, Source, Transfer};

impl Monitor {
    // SP is less than that of the top record plus this number.
    fn is_sp_below(&self, more: u8, sp_after: u8) -> bool
        ensures { result ≡ is_sp_below self.now.records.returns more sp_after }
    {
        match topmost(&self.frames) {
            None => false,
            Some(frame) => u16::from(sp_after) < u16::from(frame.sp) + u16::from(more),
        }
    }

    // SP is less than that of the top record.
    #[tactic(auto, using(crate::proofs::Framing::below_top))]
    fn is_below_top(&self, sp_after: u8) -> bool
        ensures { result ≡ is_sp_below self.now.records.returns 0 sp_after }
    {
        sp_after < self.top
    }

    // To the next instruction.
    #[inline(always)]
    fn next(&self, sp_after: u8, at: Option<u16>) -> Result<Move, Why>
        ensures { result ≡ judged_as self.now.layout self.now.records 0 sp_after 0 Transfer.Next at None }
    {
        if !is_at(at, self.current()) {
            return Err(Why::PastEnd);
        }
        if self.is_below_top(sp_after) {
            return Err(Why::SpBelow);
        }
        Ok(Move::Stay)
    }

    // Back to where the top record says.
    fn return_move(&self, call: bool, sp_before: u8, to: u16, at: Option<u16>) -> Result<Move, Why>
        ensures { result ≡ return_move self.now.records.reset self.now.records.returns call sp_before to at }
    {
        match topmost(&self.frames) {
            None => Err(Why::NotCalled),
            Some(frame) => returns_from(
                &frame,
                call,
                sp_before,
                to,
                is_at(at, self.activity.unit(frame.start)),
            ),
        }
    }

    // Whether a record is of the root at the vector.
    fn is_busy(&self, vector: u16) -> bool
        ensures { result ≡ is_busy self.now.records.returns vector }
    {
        any_of_root(&self.frames, vector)
    }

    // To the root of an interrupt.
    fn interrupts_to(&self, source: Source, sp_after: u8, root: Option<u16>) -> Result<Move, Why>
        ensures { result
            ≡ interrupts_to self.now.records source (is_sp_below self.now.records.returns 2 sp_after) root }
    {
        let Some(unit) = root else {
            return Err(Why::NoHandler);
        };
        if self.is_busy(source.vector()) {
            return Err(Why::RootBusy);
        }
        if self.is_sp_below(2, sp_after) {
            return Err(Why::SpBelow);
        }
        Ok(Move::Interrupt(source, unit))
    }

    // The table, where the unit at the target and the root are known.
    #[inline(always)]
    fn judged(
        &self,
        cpu: &Cpu,
        effect: &Effect,
        at: Option<u16>,
        root: Option<u16>,
    ) -> Result<Move, Why>
        requires { IfSome at (λ u. u < length self.now.layout.units) }
        ensures { result ≡ judged self.now.layout self.now.records cpu.now effect.now at root }
    {
        let sp_before = stack_pointer(cpu);
        let sp_after = stack_pointer(&effect.cpu);
        match effect.transfer {
            Transfer::Next => self.next(sp_after, at),
            Transfer::Jump => jump_or_call(
                self.layout(),
                self.current(),
                self.is_below_top(sp_after),
                false,
                at,
            ),
            Transfer::Call => jump_or_call(
                self.layout(),
                self.current(),
                self.is_sp_below(2, sp_after),
                true,
                at,
            ),
            Transfer::Ret => self.return_move(true, sp_before, effect.cpu.pc, at),
            Transfer::Reti => self.return_move(false, sp_before, effect.cpu.pc, at),
            Transfer::Vector(source) => self.interrupts_to(source, sp_after, root),
        }
    }

    // What the table says, with the unit at the target and the root looked up.
    #[inline(always)]
    fn answer(&self, cpu: &Cpu, effect: &Effect) -> Result<Move, Why>
        ensures value { result
            ≡ judged self.now.layout self.now.records cpu.now effect.now
            (unit_found self.now.layout effect.now.cpu.pc) (root_found self.now.layout effect.now.transfer) }
        ensures judges { Judges self.now.layout self.now.records cpu.now effect.now result }
    {
        let at = unit_found(self.layout(), effect.cpu.pc);
        let root = root_wanted(self.layout(), effect.transfer);
        self.judged(cpu, effect, at, root)
    }

    /// How a step with this effect changes the records, from the processor before it.
    ///
    /// Transfer: the transfer of control is undeclared; it names the first cause that holds, PC before the step, and
    /// the target. The causes are, in their order: PastEnd, SpBelow to the next instruction; NoUnit, NoEdge, SpBelow of
    /// a jump or a call; NotCalled, SpMoved, WrongAddress, PastEnd of RET and RETI; NoHandler, RootBusy, SpBelow of a
    /// vectoring. Whether the instruction's own bytes lie in the current unit is not tested here.
    ///
    /// Source: own choice ("Activations").
    #[inline(always)]
    pub fn judge(&self, cpu: &Cpu, effect: &Effect) -> Result<Move, Event>
        ensures value { result ≡ judge_of self.now.layout self.now.records cpu.now effect.now }
        ensures answers { IsMoveOrEvent self.now.layout self.now.records cpu.now effect.now result }
    {
        match self.answer(cpu, effect) {
            Ok(step) => Ok(step),
            Err(why) => Err(Event::Transfer {
                why,
                from: cpu.pc,
                to: effect.cpu.pc,
            }),
        }
    }
}
