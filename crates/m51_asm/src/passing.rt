//! Pass 1 over the lines of a text: the first one that has a fault by what is above it, or where each line is.
ghost use Rattle.std.specs.Prelude.{◌≡◌, ◌≤◌, ℕ, length, map, IfOk};
ghost use Rattle.m51_text.specs.Answer.{line_tree};
ghost use Rattle.m51_asm.specs.Assignment.{Assignment, body_at};
ghost use Rattle.m51_asm.specs.Fitting.{Fits, mod51};
ghost use Rattle.m51_asm.specs.Repeats.{IsFirstRepeat};
ghost use Rattle.m51_asm.specs.Placing.{IsTableOf};
ghost use Rattle.m51_asm.specs.Passing.{is_reached, IsPassed};

use crate::names_at::NamedText;
use crate::placing::PassOneState;
use crate::stepping::{LineOutcome, LinePlace, step};
use m51_cells::{DEFINED_TWICE, ListOf, NoMemory};
use std::alloc::Global;

/// What pass 1 finds of a text.
#[derive(Drop)]
pub(crate) enum Passed {
    /// The first line that has a fault, counted from 0, and the number of the fault.
    Fault(usize, u8),
    /// No line has one: where each is, and what is kept of them all.
    Placed(ListOf<LinePlace>, PassOneState),
}

// Whether the first line that repeats is line k or above it.
fn is_reached(repeated: Option<usize>, k: usize) -> bool
    ensures { result ≡ is_reached repeated k }
{
    match repeated {
        Some(first) => first <= k,
        None => false,
    }
}

/// What pass 1 finds of a text, given its first line that repeats. The only error is out of memory.
pub(crate) fn place_lines(
    alloc: Global,
    text: &NamedText<'_>,
    repeated: Option<usize>,
) -> Result<Passed, NoMemory>
    requires few { length text.now.lines.now ≤ 65536 }
    requires names { IsTableOf (map line_tree text.now.lines.now) text.now.names.now }
    requires predefined { text.now.mod51 ≡ mod51 (map line_tree text.now.lines.now) }
    requires repeated { IsFirstRepeat (map line_tree text.now.lines.now) repeated }
    ensures { IfOk result (λ passed. (a : Assignment) → Fits (map line_tree text.now.lines.now) a
        → IsPassed (map line_tree text.now.lines.now) a passed) }
{
    let lines = text.lines;
    let mut places = ListOf::of(Vec::with_capacity(alloc, lines.len())?);
    let mut placing = PassOneState::start(alloc, lines)?;
    for (k, line) in lines.iter().enumerate() {
        if is_reached(repeated, k) {
            return Ok(Passed::Fault(k, DEFINED_TWICE));
        }
        match step(alloc, text, k, &mut placing, line)? {
            LineOutcome::Fault(number) => return Ok(Passed::Fault(k, number)),
            LineOutcome::Placed(place) => places.push(place)?,
        }
    }
    Ok(Passed::Placed(places, placing))
}
