//! What is kept of the lines above a line, and how it grows with the line.
ghost use Rattle.std.specs.Prelude.{◌≡◌, ◌<◌, ◌≤◌, ◌+◌, ℕ, suc, None, Some, List, false, map, slice_get, OnOk, IfOk};
ghost use Rattle.m51_stmt.specs.Statement.{body_tree};
ghost use Rattle.m51_text.specs.Answer.{LineTree, line_tree};
ghost use Rattle.m51_asm.specs.Assignment.{Assignment, body_at};
ghost use Rattle.m51_asm.specs.Fitting.{externals_in, Fits, mod51};
ghost use Rattle.m51_asm.specs.Repeats.{is_repeated};
ghost use Rattle.m51_expr.specs.Located.{located_value};
ghost use Rattle.m51_asm.specs.OpenSegments.{text_segment};
ghost use Rattle.m51_asm.specs.Placing.{IsTableOf, IsAt, AreLineFacts, AreSmall, IsCounted, here_of};
ghost use Rattle.m51_asm.specs.PlacedFaults.{placed_fault};

use crate::counts::Counts;
use crate::definitions::definitions_in;
use crate::forms::form_of;
use crate::giving::{Giving, take_in};
use crate::line_facts::{LineFacts, facts_from, named_by};
use crate::names_at::{NamedText, NamesAt};
use crate::segments::{OpenSegment, SegmentsAbove};
use crate::valuation::Values;
use m51_cells::NoMemory;
use m51_expr::{Located, Origin, Part};
use m51_text::Line;
use std::alloc::Global;

/// What is kept of the lines above a line.
#[derive(Drop)]
pub(crate) struct PassOneState {
    /// The values that they give to names.
    pub(crate) values: Values,
    pub(crate) segments: SegmentsAbove,
    /// The bank of the last USING.
    pub(crate) bank: u8,
    /// How many segments have a number.
    pub(crate) numbered: u8,
    /// How many externals are declared.
    pub(crate) externals: u8,
}

/// The place of a statement, from the size of its segment before it.
pub(crate) fn here_of(segment: OpenSegment, before: u16) -> Located<u32>
    ensures { located_value result ≡ here_of (text_segment segment) before }
{
    Located {
        number: segment.base.wrapping_add(before),
        class: segment.kind,
        origin: Origin::Segment(segment.id),
        part: Part::Whole,
    }
}

/// What follows for line k from the state after the lines above it.
pub(crate) fn facts_of(
    text: &NamedText<'_>,
    k: usize,
    placing: &PassOneState,
    line: &Line,
) -> LineFacts
    requires within { k < 65536 }
    requires line { slice_get (map line_tree text.now.lines.now) k ≡ Some (line_tree line.now) }
    requires names { IsTableOf (map line_tree text.now.lines.now) text.now.names.now }
    requires predefined { text.now.mod51 ≡ mod51 (map line_tree text.now.lines.now) }
    ensures { (a : Assignment) → Fits (map line_tree text.now.lines.now) a
        → is_repeated (map line_tree text.now.lines.now) k ≡ false
        → IsAt (map line_tree text.now.lines.now) a k placing.now
        → AreLineFacts (map line_tree text.now.lines.now) a k result }
{
    let segments = &placing.segments;
    let here = here_of(segments.current(), segments.table.size(segments.current));
    let names = NamesAt {
        text: *text,
        segments: &segments.table,
        kept: &placing.values,
        set: &placing.values,
        bank: placing.bank,
        here,
        numbers: &[],
        label: None,
    };
    let labelled = NamesAt {
        label: line.stmt.label,
        ..names
    };
    let body = &line.stmt.body;
    let form = form_of(&labelled, body);
    let named = named_by(text.names, k, body);
    facts_from(k, &names, form, segments, named, body)
}

impl PassOneState {
    /// Before the first line of a text. The only error is out of memory.
    pub(crate) fn start(alloc: Global, lines: &[Line]) -> Result<PassOneState, NoMemory>
        ensures { let lines = map line_tree lines.now in
            IfOk result (λ start. (a : Assignment) → Fits lines a → IsAt lines a 0 start) }
    {
        Ok(PassOneState {
            values: Values::new(alloc),
            segments: SegmentsAbove::start(alloc, lines)?,
            bank: 0,
            numbered: 0,
            externals: 0,
        })
    }

    /// Takes in line k, which has no fault, by what follows for it from the state before it. The only error is out of
    /// memory.
    pub(crate) fn take_in(
        &mut self,
        alloc: Global,
        k: usize,
        line: &Line,
        facts: &LineFacts,
        counts: &Counts,
    ) -> Result<(), NoMemory>
        requires within { k < 65536 }
        requires small { AreSmall counts.now }
        requires declared { self.old.externals + externals_in (body_tree line.now.stmt.body) ≤ 255 }
        ensures { OnOk result ((lines : List LineTree) (a : Assignment) → Fits lines a
            → slice_get lines k ≡ Some (line_tree line.now) → placed_fault lines a k ≡ None
            → IsAt lines a k self.old → AreLineFacts lines a k facts.now → IsCounted lines a k counts.now
            → IsAt lines a (suc k) self.new) }
    {
        let defined = definitions_in(alloc, &line.stmt)?;
        let giving = Giving {
            here: facts.here,
            expression: facts.operand.given(),
            line: k,
            externals: self.externals,
        };
        take_in(alloc, &mut self.values, &giving, &defined)?;
        self.segments.leave_open(facts.next, counts.next as u16);
        self.bank = facts.operand.bank(self.bank);
        self.numbered = counts.segments as u8;
        self.externals = counts.externals as u8;
        Ok(())
    }
}
