//! Reads a file of control lines.
ghost use Rattle.std.specs.Prelude.{◌≡◌, ◌↔◌, ◌≤◌, ℕ, List, Some, length};
ghost use Rattle.std.specs.Str.Lines.{lines};
ghost use Rattle.m51_cells.specs.declared.limits.TheConstants.{MOST_CONTROL_LINES};
ghost use Rattle.m51_cells.specs.Outcome.{Gives};
ghost use Rattle.m51_control.specs.declared.control.Control.{Control};
ghost use Rattle.m51_control.specs.Grammar.{control_of};
ghost use Rattle.m51_control.specs.Written.{SpellsLine};
ghost use Rattle.m51_control.specs.Controls.{controls_from, controls_of, control_refusal};

use crate::controls::Controls;
use crate::error::ControlError;
use crate::forms::control_of;
use m51_cells::{MOST_CONTROL_LINES, first_line, is_skipped, line_count};
use std::alloc::Global;

// The controls of at most 1,000 lines.
fn read_lines(alloc: Global, bytes: &[u8]) -> Result<Controls, ControlError>
    requires { length (lines bytes.now) ≤ MOST_CONTROL_LINES }
    ensures { Gives (λ controls. controls) control_refusal result (controls_from 1 (lines bytes.now)) }
{
    let mut controls = Vec::new(alloc);
    let mut rest = bytes;
    let mut number = 0;
    while let Some((line, after)) = first_line(rest) {
        number += 1;
        rest = after;
        if is_skipped(line) {
            continue;
        }
        match control_of(alloc, line)? {
            Some(control) => controls.push((number, control))?,
            None => return Err(ControlError::C1 { line: number }),
        }
    }
    Ok(Controls::of(controls))
}

/// Reads a file of control lines. A line ends in LF or CR LF, which the last may lack. A line that is empty, holds only
/// blanks or begins with `;` is skipped, and counts.
///
/// Errors: `Limit` for over 1,000 lines, or else `C1` with the first line that is neither skipped nor a control,
/// counted from 1 with the skipped ones; out of memory.
///
/// Source: own choice ("Control lines").
pub fn read_controls(alloc: Global, bytes: &[u8]) -> Result<Controls, ControlError>
    // The controls of the lines, or which refusal it is.
    ensures gives { Gives (λ controls. controls) control_refusal result (controls_of bytes.now) }
    // A line is read as a control exactly if it writes that control.
    ensures grammar { (line : List ℕ) (control : Control) → (control_of line ≡ Some control) ↔ SpellsLine line control }
{
    if line_count(bytes) > MOST_CONTROL_LINES {
        return Err(ControlError::Limit);
    }
    read_lines(alloc, bytes)
}
