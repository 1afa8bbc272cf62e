//! The lines of units.
ghost use Rattle.std.specs.Prelude.{◌≡◌, [], ◌∷◌, ◌++◌, IfOk, OnOk, string_bytes};
ghost use Rattle.std.specs.Fmt.{decimal};
ghost use Rattle.m51_generator.specs.Lines.{lines_as_text, call_line, calls, unit_tail, unit_text, units_from};

use crate::procedures::{load_line, push_entry};
use crate::texts::push_lines;
use crate::unit::DrawnUnit;
use m51_cells::NoMemory;
use std::alloc::Global;

// A letter and a number.
fn numbered(alloc: Global, letter: &str, number: usize) -> Result<String, NoMemory>
    ensures { IfOk result (λ name. string_bytes name ≡ letter.now ++ decimal number) }
{
    Ok(format!(in alloc; "{letter}{number}")?)
}

// Appends a call of the procedure of a unit.
fn push_call(text: &mut Vec<u8>, alloc: Global, number: usize) -> Result<(), NoMemory>
    ensures { OnOk result (text.new.items ≡ text.old.items ++ lines_as_text (call_line number ∷ [])) }
{
    let line = numbered(alloc, "LCALL F", number)?;
    push_lines(text, &[line.as_str()])
}

// Appends the calls of the units with this parent.
#[tactic(auto, unfolding(crate::specs::Lines::lines_as_text))]
pub(crate) fn push_calls(
    text: &mut Vec<u8>,
    alloc: Global,
    parent: usize,
    units: &[DrawnUnit],
) -> Result<(), NoMemory>
    ensures { OnOk result (text.new.items ≡ text.old.items ++ lines_as_text (calls parent units.now)) }
{
    for (index, unit) in units.iter().enumerate() {
        if unit.parent == parent {
            push_call(text, alloc, index + 1)?;
        }
    }
    Ok(())
}

// Appends the end of the procedure of a unit.
#[tactic(auto, unfolding(crate::specs::Lines::unit_tail))]
fn push_tail(text: &mut Vec<u8>, alloc: Global, local: &str) -> Result<(), NoMemory>
    ensures { OnOk result (text.new.items ≡ text.old.items ++ lines_as_text (unit_tail local.now)) }
{
    let load = load_line(alloc, local)?;
    push_lines(text, &[load.as_str(), "INC A", "MOV P1,A", "RET"])
}

// Appends the lines of a unit.
#[tactic(auto, unfolding(crate::specs::Lines::unit_text))]
fn push_unit(
    text: &mut Vec<u8>,
    alloc: Global,
    units: &[DrawnUnit],
    number: usize,
    size: u8,
) -> Result<(), NoMemory>
    ensures { OnOk result (text.new.items ≡ text.old.items ++ unit_text units.now number size) }
{
    let unit = numbered(alloc, "U", number)?;
    let local = numbered(alloc, "L", number)?;
    let label = numbered(alloc, "F", number)?;
    push_entry(
        text,
        alloc,
        unit.as_str(),
        local.as_str(),
        size,
        label.as_str(),
    )?;
    push_calls(text, alloc, number, units)?;
    push_tail(text, alloc, local.as_str())
}

// Appends the lines of the units.
pub(crate) fn push_units(
    text: &mut Vec<u8>,
    alloc: Global,
    units: &[DrawnUnit],
) -> Result<(), NoMemory>
    ensures { OnOk result (text.new.items ≡ text.old.items ++ units_from units.now 1 units.now) }
{
    for (index, unit) in units.iter().enumerate() {
        push_unit(text, alloc, units, index + 1, unit.size)?;
    }
    Ok(())
}
