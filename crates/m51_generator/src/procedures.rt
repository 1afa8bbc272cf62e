//! The lines of procedures.
ghost use Rattle.std.specs.Prelude.{◌≡◌, ◌++◌, IfOk, OnOk, codes, string_bytes};
ghost use Rattle.std.specs.Fmt.{decimal};
ghost use Rattle.m51_generator.specs.Lines.{lines_as_text, entry_lines, handler_tail, handler_text};

use crate::texts::push_lines;
use m51_cells::NoMemory;
use std::alloc::Global;

// The line of a unit's segment in CODE.
fn code_line(alloc: Global, unit: &str) -> Result<String, NoMemory>
    ensures { IfOk result (λ line. string_bytes line ≡ codes "?PR?" ++ unit.now ++ codes " SEGMENT CODE") }
{
    Ok(format!(in alloc; "?PR?{unit} SEGMENT CODE")?)
}

// The line of a unit's segment in DATA.
fn data_line(alloc: Global, unit: &str) -> Result<String, NoMemory>
    ensures { IfOk result (λ line.
        string_bytes line ≡ codes "?DT?" ++ unit.now ++ codes " SEGMENT DATA OVERLAYABLE") }
{
    Ok(format!(in alloc; "?DT?{unit} SEGMENT DATA OVERLAYABLE")?)
}

// The line that continues a segment of a unit.
fn segment_line(alloc: Global, segment: &str, unit: &str) -> Result<String, NoMemory>
    ensures { IfOk result (λ line. string_bytes line ≡ codes "RSEG " ++ segment.now ++ unit.now) }
{
    Ok(format!(in alloc; "RSEG {segment}{unit}")?)
}

// The line of a local.
fn local_line(alloc: Global, local: &str, size: u8) -> Result<String, NoMemory>
    ensures { IfOk result (λ line. string_bytes line ≡ local.now ++ codes ": DS " ++ decimal size) }
{
    Ok(format!(in alloc; "{local}: DS {size}")?)
}

// The first instruction of a procedure.
fn label_line(alloc: Global, label: &str, local: &str) -> Result<String, NoMemory>
    ensures { IfOk result (λ line. string_bytes line ≡ label.now ++ codes ": MOV " ++ local.now ++ codes ",A") }
{
    Ok(format!(in alloc; "{label}: MOV {local},A")?)
}

// The instruction that loads a local into ACC.
pub(crate) fn load_line(alloc: Global, local: &str) -> Result<String, NoMemory>
    ensures { IfOk result (λ line. string_bytes line ≡ codes "MOV A," ++ local.now) }
{
    Ok(format!(in alloc; "MOV A,{local}")?)
}

// The instruction that counts at a port.
fn count_line(alloc: Global, port: &str) -> Result<String, NoMemory>
    ensures { IfOk result (λ line. string_bytes line ≡ codes "INC " ++ port.now) }
{
    Ok(format!(in alloc; "INC {port}")?)
}

// Appends the beginning of a procedure.
#[tactic(auto, unfolding(crate::specs::Lines::entry_lines))]
pub(crate) fn push_entry(
    text: &mut Vec<u8>,
    alloc: Global,
    unit: &str,
    local: &str,
    size: u8,
    label: &str,
) -> Result<(), NoMemory>
    ensures { OnOk result (text.new.items
        ≡ text.old.items ++ lines_as_text (entry_lines unit.now local.now size label.now)) }
{
    let code = code_line(alloc, unit)?;
    let data = data_line(alloc, unit)?;
    let data_again = segment_line(alloc, "?DT?", unit)?;
    let reserved = local_line(alloc, local, size)?;
    let code_again = segment_line(alloc, "?PR?", unit)?;
    let first = label_line(alloc, label, local)?;
    push_lines(
        text,
        &[
            code.as_str(),
            data.as_str(),
            data_again.as_str(),
            reserved.as_str(),
            code_again.as_str(),
            first.as_str(),
        ],
    )
}

// Appends the end of a handler.
#[tactic(auto, unfolding(crate::specs::Lines::handler_tail))]
fn push_handler_tail(
    text: &mut Vec<u8>,
    alloc: Global,
    local: &str,
    port: &str,
) -> Result<(), NoMemory>
    ensures { OnOk result (text.new.items ≡ text.old.items ++ lines_as_text (handler_tail local.now port.now)) }
{
    let count = count_line(alloc, port)?;
    let load = load_line(alloc, local)?;
    push_lines(text, &[count.as_str(), load.as_str(), "RETI"])
}

// Appends a handler with this label and this local, which counts at this port.
pub(crate) fn push_handler(
    text: &mut Vec<u8>,
    alloc: Global,
    label: &str,
    local: &str,
    port: &str,
) -> Result<(), NoMemory>
    ensures { OnOk result (text.new.items ≡ text.old.items ++ handler_text label.now local.now port.now) }
{
    push_entry(text, alloc, label, local, 1, label)?;
    push_handler_tail(text, alloc, local, port)
}
