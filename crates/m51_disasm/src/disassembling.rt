//! The text of a layout and its image.
ghost use Rattle.std.specs.Prelude.{◌≡◌, ◌≤◌, length, All};
ghost use Rattle.m51_cells.specs.Outcome.{Gives};
ghost use Rattle.m51_disasm.specs.Answer.{exceeded_quantity, text_within, text_by, disassembled};
ghost use Rattle.m51_disasm.specs.Lines.{lines_of};
ghost use Rattle.m51_disasm.specs.Parts.{IsInside};

use crate::error::DisError;
use crate::listing::{line_count, text_of};
use crate::part::CodeRange;
use crate::parting::code_ranges;
use m51_cells::{MOST_MODULE_SEGMENTS, MOST_SOURCE_LINES};
use m51_module::{Image, Layout, Quantity};
use std::alloc::Global;

// The text of parts, of which there are not too many.
#[tactic(auto, unfolding(crate::specs::Answer::text_within))]
fn text_within(alloc: Global, image: &[u8], parts: &[CodeRange]) -> Result<Vec<u8>, DisError>
    requires whole { length image.now ≡ 65536 }
    requires inside { All IsInside parts.now }
    requires few { length parts.now ≤ 254 }
    ensures { Gives (λ text. text.items) exceeded_quantity result (text_within (lines_of image.now parts.now)) }
{
    if line_count(alloc, image, parts)? > MOST_SOURCE_LINES {
        return Err(DisError::Limit {
            what: Quantity::Lines,
        });
    }
    Ok(text_of(alloc, image, parts)?)
}

// The text of parts, or the limit that it passes.
#[tactic(auto, unfolding(crate::specs::Answer::text_by))]
fn text_by(alloc: Global, image: &[u8], parts: &[CodeRange]) -> Result<Vec<u8>, DisError>
    requires whole { length image.now ≡ 65536 }
    requires inside { All IsInside parts.now }
    ensures { Gives (λ text. text.items) exceeded_quantity result (text_by image.now parts.now) }
{
    if parts.len() > MOST_MODULE_SEGMENTS {
        return Err(DisError::Limit {
            what: Quantity::Parts,
        });
    }
    text_within(alloc, image, parts)
}

/// The text of a layout and its image: `$NOMOD51`, then for each unit of one byte or more, by ascending base, `CSEG AT`
/// with its base and its statements, then `END`; each line ends in a line feed. A statement is the instruction of the
/// image where one can be written, and else `DB` with one byte.
///
/// Errors: `Limit` of `Parts` where more than 254 units have a byte; else `Limit` of `Lines` where the text has more
/// than 65,535 lines; `Memory` where there is no memory.
///
/// Source: own choice ("Disassembly").
#[tactic(auto, unfolding(crate::specs::Answer::disassembled))]
pub fn disassemble(alloc: Global, layout: &Layout, image: &Image) -> Result<Vec<u8>, DisError>
    ensures { Gives (λ text. text.items) exceeded_quantity result (disassembled layout.now image.now) }
{
    let parts = code_ranges(alloc, layout)?;
    text_by(alloc, image.bytes(), &parts)
}
