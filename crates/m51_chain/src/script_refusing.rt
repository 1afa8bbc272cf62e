//! Refusals of scripts and of control files, with their texts.
ghost use Rattle.std.specs.Prelude.{◌≡◌, IfOk, Some};
ghost use Rattle.m51_chain.specs.Outcome.{stopped};
ghost use Rattle.m51_chain.specs.ScriptRefusals.{control_outcome, script_outcome, script_refused};

use crate::refusing::refuse;
use crate::work::{Reason, Stop};
use m51_cells::NoMemory;
use m51_control::ControlError;
use m51_script::ScriptError;
use std::alloc::Global;

// A line of a script is refused by this rule.
fn refuse_line(alloc: Global, rule: &[u8], line: u32) -> Result<Stop, NoMemory>
    ensures { IfOk result (λ stop. stopped stop ≡ Some (script_refused rule.now line)) }
{
    let beginning = format!(in alloc; "SCRIPT LINE {line}: ")?;
    refuse(alloc, Reason::Script, &[beginning.as_bytes(), rule, b"\n"])
}

// A script is refused.
pub(crate) fn refuse_script(alloc: Global, error: &ScriptError) -> Result<Stop, NoMemory>
    ensures { IfOk result (λ stop. stopped stop ≡ Some (script_outcome error.now)) }
{
    match error {
        ScriptError::S1 { line } => refuse_line(alloc, b"S1", *line),
        ScriptError::S2 { line } => refuse_line(alloc, b"S2", *line),
        ScriptError::S3 { line } => refuse_line(alloc, b"S3", *line),
        ScriptError::Limit => refuse(alloc, Reason::Limit, &[b"LIMIT SCRIPTLINES 65536\n"]),
        ScriptError::Memory => refuse(alloc, Reason::Script, &[b""]),
    }
}

// A control file is refused.
pub(crate) fn refuse_control(alloc: Global, error: &ControlError) -> Result<Stop, NoMemory>
    ensures { IfOk result (λ stop. stopped stop ≡ Some (control_outcome error.now)) }
{
    match error {
        ControlError::C1 { line } => {
            let text = format!(in alloc; "CONTROL LINE {line}: C1\n")?;
            refuse(alloc, Reason::Script, &[text.as_bytes()])
        }
        ControlError::Limit => refuse(alloc, Reason::Limit, &[b"LIMIT CONTROLLINES 1000\n"]),
        ControlError::Memory => refuse(alloc, Reason::Script, &[b""]),
    }
}
