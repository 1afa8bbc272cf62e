//! Reads a board script.
ghost use Rattle.std.specs.Prelude.{◌≡◌, ◌≤◌, ◌<◌, IfOk, length};
ghost use Rattle.m51_cells.specs.declared.limits.TheConstants.{MOST_SCRIPT_LINES};
ghost use Rattle.m51_cells.specs.Outcome.{Gives};
ghost use Rattle.std.specs.Str.Lines.{lines as lines_of};
ghost use Rattle.m51_script.specs.Timing.{Ascends, latest_cycle, with_timed_line};
ghost use Rattle.m51_script.specs.Reading.{IsRead, with_fill, pinned, script_from, received_in, script_refusal};
ghost use Rattle.m51_script.specs.Reading.{script_of};
ghost use Rattle.m51_script.specs.Reading.{unread, with_form, with_text};

use crate::error::ScriptError;
use crate::forms::{LineForm, line_form};
use crate::frame_lines::FrameLines;
use crate::pin_lines::{Change, PinLines};
use crate::script::Script;
use crate::timing::LATEST_CYCLE;
use m51_cells::{MOST_SCRIPT_LINES, NoMemory, first_line, is_skipped, line_count};
use m51_timers_uart::Frame;
use std::alloc::Global;

// What is read of a script.
#[derive(Drop)]
pub(crate) struct Reading {
    // What the lines say.
    pub(crate) script: Script,
    // There was a FILL or a timed line.
    pub(crate) begun: bool,
    // The cycle of the last timed line, and 0 before the first.
    pub(crate) latest: u32,
}

// Nothing is read.
fn unread(alloc: Global) -> Result<Reading, NoMemory>
    ensures value { IfOk result (λ r. r ≡ unread) }
    ensures kept { IfOk result IsRead }
{
    Ok(Reading {
        script: Script::plain(alloc)?,
        begun: false,
        latest: 0,
    })
}

// After `FILL hh`.
#[tactic(auto, unfolding(crate::specs::Reading::with_fill))]
fn fill(reading: Reading, number: u32, byte: u64) -> Result<Reading, ScriptError>
    requires { IsRead reading }
    ensures value { Gives (λ r. r) script_refusal result (with_fill number reading byte) }
    ensures kept { IfOk result IsRead }
{
    if reading.begun {
        return Err(ScriptError::S1 { line: number });
    }
    if byte > 0xFF {
        return Err(ScriptError::S3 { line: number });
    }
    let Reading {
        script,
        begun: _,
        latest,
    } = reading;
    let Script {
        fill: _,
        pins,
        frames,
    } = script;
    Ok(Reading {
        script: Script {
            fill: byte as u8,
            pins,
            frames,
        },
        begun: true,
        latest,
    })
}

// Adds a PIN line.
fn with_pins(script: Script, cycle: u32, change: Change) -> Result<Script, NoMemory>
    requires order { Ascends 0 cycle script.pins.cycles }
    requires range { cycle ≤ latest_cycle }
    requires port { change.port < 4 }
    ensures { IfOk result (λ s. s ≡ record script { pins = with_timed_line cycle change script.pins }) }
{
    let Script { fill, pins, frames } = script;
    let pins = pins.with(cycle, change)?;
    Ok(Script { fill, pins, frames })
}

// Adds an RX line.
fn with_frame(script: Script, cycle: u32, frame: Frame) -> Result<Script, NoMemory>
    requires order { Ascends 0 cycle script.frames.cycles }
    requires range { cycle ≤ latest_cycle }
    ensures { IfOk result (λ s. s ≡ record script { frames = with_timed_line cycle frame script.frames }) }
{
    let Script { fill, pins, frames } = script;
    let frames = frames.with(cycle, frame)?;
    Ok(Script { fill, pins, frames })
}

// After `PIN cycle Pn hh`.
#[tactic(auto, unfolding(crate::specs::Reading::pinned))]
fn pin(
    reading: Reading,
    number: u32,
    cycle: u64,
    port: u64,
    level: u64,
) -> Result<Reading, ScriptError>
    requires { IsRead reading }
    ensures value { Gives (λ r. r) script_refusal result (pinned number reading cycle port level) }
    ensures kept { IfOk result IsRead }
{
    if cycle > LATEST_CYCLE {
        return Err(ScriptError::S3 { line: number });
    }
    if port > 3 {
        return Err(ScriptError::S3 { line: number });
    }
    if level > 0xFF {
        return Err(ScriptError::S3 { line: number });
    }
    if cycle < u64::from(reading.latest) {
        return Err(ScriptError::S2 { line: number });
    }
    let change = Change {
        port: port as u8,
        level: level as u8,
    };
    let Reading { script, .. } = reading;
    let script = with_pins(script, cycle as u32, change)?;
    Ok(Reading {
        script,
        begun: true,
        latest: cycle as u32,
    })
}

// After `RX cycle hh b`.
#[tactic(auto, unfolding(crate::specs::Reading::received_in))]
fn receive(
    reading: Reading,
    number: u32,
    cycle: u64,
    byte: u64,
    bit: u64,
) -> Result<Reading, ScriptError>
    requires { IsRead reading }
    ensures value { Gives (λ r. r) script_refusal result (received_in number reading cycle byte bit) }
    ensures kept { IfOk result IsRead }
{
    if cycle == 0 {
        return Err(ScriptError::S3 { line: number });
    }
    if cycle > LATEST_CYCLE {
        return Err(ScriptError::S3 { line: number });
    }
    if byte > 0xFF {
        return Err(ScriptError::S3 { line: number });
    }
    if bit > 1 {
        return Err(ScriptError::S3 { line: number });
    }
    if cycle < u64::from(reading.latest) {
        return Err(ScriptError::S2 { line: number });
    }
    let frame = Frame {
        byte: byte as u8,
        ninth: bit == 1,
    };
    let Reading { script, .. } = reading;
    let script = with_frame(script, cycle as u32, frame)?;
    Ok(Reading {
        script,
        begun: true,
        latest: cycle as u32,
    })
}

// After a line with this form, if it has one.
fn with_form(reading: Reading, number: u32, form: Option<LineForm>) -> Result<Reading, ScriptError>
    requires { IsRead reading }
    ensures value { Gives (λ r. r) script_refusal result (with_form number reading form) }
    ensures kept { IfOk result IsRead }
{
    match form {
        None => Err(ScriptError::S1 { line: number }),
        Some(LineForm::Fill(byte)) => fill(reading, number, byte),
        Some(LineForm::Pin(cycle, port, level)) => pin(reading, number, cycle, port, level),
        Some(LineForm::Receive(cycle, byte, bit)) => receive(reading, number, cycle, byte, bit),
    }
}

// After a line.
fn with_text(reading: Reading, number: u32, line: &[u8]) -> Result<Reading, ScriptError>
    requires { IsRead reading }
    ensures value { Gives (λ r. r) script_refusal result (with_text number reading line.now) }
    ensures kept { IfOk result IsRead }
{
    if is_skipped(line) {
        Ok(reading)
    } else {
        with_form(reading, number, line_form(line))
    }
}

// The script of at most 65,536 lines.
fn read_lines(alloc: Global, bytes: &[u8]) -> Result<Script, ScriptError>
    requires { length (lines_of bytes.now) ≤ MOST_SCRIPT_LINES }
    ensures { Gives (λ script. script) script_refusal result (script_from 1 unread (lines_of bytes.now)) }
{
    let mut reading = unread(alloc)?;
    let mut rest = bytes;
    let mut number = 0;
    while let Some((line, after)) = first_line(rest) {
        number += 1;
        reading = with_text(reading, number, line)?;
        rest = after;
    }
    let Reading { script, .. } = reading;
    Ok(script)
}

/// Reads a board script. A line ends in LF or CR LF, which the last may lack. A line that is empty, holds only blanks
/// or begins with `;` is skipped, and counts. The others are `FILL hh`, `PIN cycle Pn hh`, `RX cycle hh` and
/// `RX cycle hh b`: a cycle has 1 to 10 decimal digits, hh 1 to 4 hexadecimal ones, and n and b one decimal digit each.
///
/// Errors: `Limit` for over 65,536 lines; else, of the first refused line, counted from 1, the first of these; or out
/// of memory:
///
/// - `S1`: it has no such form, or is a FILL after another or after a timed line.
/// - `S3`: its cycle is above 99,999,999, or 0 in an RX; hh is above FFH, n above 3 or b above 1.
/// - `S2`: its cycle is below that of an earlier line.
///
/// Source: own choice ("Scripts").
pub fn read_script(alloc: Global, bytes: &[u8]) -> Result<Script, ScriptError>
    ensures { Gives (λ script. script) script_refusal result (script_of bytes.now) }
{
    if line_count(bytes) > MOST_SCRIPT_LINES {
        return Err(ScriptError::Limit);
    }
    read_lines(alloc, bytes)
}
