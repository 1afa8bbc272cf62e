//! Pass 2 over the lines of a text: what each gives, and the faults of their content.
ghost use Rattle.std.specs.Prelude.{◌≡◌, ◌++◌, ℕ, suc, Some, List, [], length, map, slice_get, OnOk, IfOk};
ghost use Rattle.m51_text.specs.Answer.{LineTree, line_tree};
ghost use Rattle.m51_asm.specs.Assignment.{Assignment, here_at};
ghost use Rattle.m51_asm.specs.ContentFaults.{if_fault};
ghost use Rattle.m51_asm.specs.Fitting.{Fits};
ghost use Rattle.m51_asm.specs.Placing.{IsPlaceOf};
ghost use Rattle.m51_asm.specs.AnswerRows.{listing_row, place_of};
ghost use Rattle.m51_asm.specs.PlacedText.{IsAssignedText};
ghost use Rattle.m51_asm.specs.Pieces.{content_at};
ghost use Rattle.m51_asm.specs.Contents.{nothing_given, IsGivenTo};
ghost use Rattle.m51_asm.specs.Gathering.{IsText, gathered_before};

use crate::gathering::{gather_line, nothing_gathered};
use crate::instruction_rows::row_of_code;
use crate::names_at::NamesAt;
use crate::numbering::PlacedText;
use crate::outcome::fault_of_line;
use crate::placing::here_of;
use crate::publishing::{or_next, publish};
use crate::repeats::publics_in;
use crate::setting::take_set;
use crate::stepping::LinePlace;
use crate::valuation::Values;
use m51_cells::{ListOf, NoMemory};
use m51_emit::{EmittedContent, SegmentContent, line_content, place_of, row_of};
use m51_module::{Faults, Publics, Row, Rows};
use m51_text::Line;
use std::alloc::Global;

/// What is kept of the lines above a line.
#[derive(Drop)]
pub(crate) struct Contents {
    /// The values that their SET statements give.
    pub(crate) set: Values,
    /// How many fixups they make.
    pub(crate) made: usize,
    pub(crate) faults: Faults,
    pub(crate) publics: Publics,
    pub(crate) rows: Rows,
}

/// What the lines of a text give.
#[derive(Drop)]
pub(crate) struct TextContents {
    pub(crate) contents: Contents,
    /// The bytes and references, by segment of the module. They count only where no line has a fault.
    pub(crate) gathered: Vec<SegmentContent>,
}

// The fault of a line, if it has one, after others.
fn push_fault(faults: &mut Faults, line: &Line, fault: Option<u8>) -> Result<(), NoMemory>
    ensures { OnOk result (faults.new ≡ faults.old ++ if_fault (line_tree line.now) fault []) }
{
    if let Some(number) = fault {
        faults.push(fault_of_line(line, number))?;
    }
    Ok(())
}

// The row of a line, by the number of its place.
#[tactic(auto, using(crate::proofs::GatheredLines::row_is))]
fn row_at(line: &Line, here: u16, content: &EmittedContent) -> Row
    ensures { (a : Assignment) (k : ℕ) → here ≡ (here_at a k).number
        → result ≡ listing_row (line_tree line.now) (place_of a k (line_tree line.now)) content.now }
{
    let at = place_of(&line.stmt, u64::from(here));
    row_of(line.file, line.line, at, content)
}

// Before the first of this number of lines.
fn nothing_given(alloc: Global, lines: usize) -> Result<Contents, NoMemory>
    ensures { IfOk result (λ contents. contents ≡ nothing_given) }
{
    Ok(Contents {
        set: Values::new(alloc),
        made: 0,
        faults: ListOf::new(alloc),
        publics: ListOf::new(alloc),
        rows: Rows::of(Vec::with_capacity(alloc, lines)?),
    })
}

// What a line gives, after what the lines above it give: its content is the answer.
fn give_line(
    alloc: Global,
    text: &PlacedText<'_>,
    line: &Line,
    place: &LinePlace,
    contents: &mut Contents,
) -> Result<EmittedContent, NoMemory>
    ensures given { IfOk result (λ content. (lines : List LineTree) (a : Assignment) (k : ℕ)
        → IsAssignedText lines a text.now → slice_get lines k ≡ Some (line_tree line.now)
        → IsPlaceOf lines a k place.now → IsGivenTo lines a k contents.old
        → (content ≡ content_at lines a k) × IsGivenTo lines a (suc k) contents.new) }
    ensures faults { OnOk result (contents.new.faults ≡ [] → contents.old.faults ≡ []) }
{
    let segments = &text.end.segments.table;
    let here = here_of(segments.segment(place.segment), place.offset);
    let names = NamesAt {
        text: text.text,
        segments,
        kept: &text.end.values,
        set: &contents.set,
        bank: place.bank,
        here,
        numbers: text.numbering.numbers.as_slice(),
        label: None,
    };
    let body = &line.stmt.body;
    let row = row_of_code(place.code);
    let emitted = line_content(alloc, &names, row, body, contents.made)?;
    let unpublished = publish(&names, &mut contents.publics, publics_in(body))?;
    contents.made = emitted.made;
    push_fault(
        &mut contents.faults,
        line,
        or_next(emitted.fault, unpublished),
    )?;
    contents
        .rows
        .push(row_at(line, here.number, &emitted.content))?;
    take_set(alloc, &mut contents.set, line, place)?;
    Ok(emitted.content)
}

/// What all lines of a text give. The only error is out of memory.
pub(crate) fn give_lines(alloc: Global, text: &PlacedText<'_>) -> Result<TextContents, NoMemory>
    requires text { IsText (map line_tree text.now.text.lines.now) }
    requires places { length text.now.places.now ≡ length text.now.text.lines.now }
    requires ready { (a : Assignment) → Fits (map line_tree text.now.text.lines.now) a
        → IsAssignedText (map line_tree text.now.text.lines.now) a text.now }
    ensures given { let lines = map line_tree text.now.text.lines.now in
        IfOk result (λ all. (a : Assignment) → Fits lines a → IsGivenTo lines a (length lines) all.contents) }
    ensures gathered { let lines = map line_tree text.now.text.lines.now in
        IfOk result (λ all. all.contents.faults ≡ [] → (a : Assignment) → Fits lines a
        → all.gathered.items ≡ gathered_before lines a (length lines)) }
{
    let lines = text.text.lines;
    let mut contents = nothing_given(alloc, lines.len())?;
    let mut gathered = nothing_gathered(alloc, text.numbering.segments.len())?;
    for (k, line) in lines.iter().enumerate() {
        let place = &text.places[k];
        let content = give_line(alloc, text, line, place, &mut contents)?;
        let is_clean = contents.faults.is_empty();
        gather_line(alloc, &mut gathered, text, is_clean, place, &content)?;
    }
    Ok(TextContents { contents, gathered })
}
