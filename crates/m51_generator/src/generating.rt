//! Makes the source of a program with many units.
ghost use Rattle.std.specs.Prelude.{◌≡◌, ◌≤◌, IfOk};
ghost use Rattle.m51_generator.specs.Lines.{program_text, generated};

use crate::drawing::draw_units;
use crate::procedures::push_handler;
use crate::texts::{push_closing, push_main, push_opening};
use crate::unit::DrawnUnit;
use crate::unit_lines::{push_calls, push_units};
use m51_cells::{Bytes, NoMemory};
use m51_module::SourceFile;
use std::alloc::Global;

// The text of a program with these units.
#[tactic(auto, unfolding(crate::specs::Lines::program_text))]
fn program_text(alloc: Global, units: &[DrawnUnit]) -> Result<Vec<u8>, NoMemory>
    ensures { IfOk result (λ text. text.items ≡ program_text units.now) }
{
    let mut text = Vec::new(alloc);
    push_opening(&mut text)?;
    push_units(&mut text, alloc, units)?;
    push_handler(&mut text, alloc, "HA", "VA", "P0")?;
    push_handler(&mut text, alloc, "HB", "VB", "P2")?;
    push_main(&mut text)?;
    push_calls(&mut text, alloc, 0, units)?;
    push_closing(&mut text)?;
    Ok(text)
}

/// The source `gen.a51` of a program with `units` units, 1 to 100, by draws from this start. Each unit has a procedure
/// and overlayable data. The loop of MAIN calls the first unit; the caller of each other one is drawn, and no unit is
/// deeper than 8 calls. Two timer interrupts run beside them.
///
/// Error: out of memory.
///
/// Source: own choice ("Generated programs").
pub fn generate(alloc: Global, units: u8, start: u32) -> Result<SourceFile, NoMemory>
    requires some { 1 ≤ units }
    requires most { units ≤ 100 }
    ensures { IfOk result (λ source. source ≡ generated units start) }
{
    let drawn = draw_units(alloc, units, start)?;
    let text = program_text(alloc, &drawn)?;
    Ok(SourceFile {
        name: Bytes::of(b"gen.a51".to_vec(alloc)?),
        bytes: Bytes::of(text),
    })
}
