//! The lines of a disassembly, with their labels.
ghost use Rattle.std.specs.Prelude.{◌≡◌, ◌<◌, ◌≤◌, ◌+◌, ◌++◌, ◌∷◌, [], map, flat_map, IfOk, OnOk, length, All};
ghost use Rattle.std.specs.List.{filter_map};
ghost use Rattle.m51_disasm.specs.Lines.{beginnings, targets, is_among, written_target, label_at, line_of};
ghost use Rattle.m51_disasm.specs.Lines.{statement_lines, part_lines, lines_of};
ghost use Rattle.m51_disasm.specs.Parts.{IsInside};
ghost use Rattle.m51_disasm.specs.Statements.{statement_at, statements_of, statement_target};
ghost use Rattle.m51_disasm.specs.Texts.{text_of_lines};

use crate::address_set::AddressSet;
use crate::instructions::statement_target;
use crate::line::{SourceLine, StatementLine, Target};
use crate::part::CodeRange;
use crate::statement::Statement;
use crate::statements::{beginnings_of, statement_at, target_at};
use crate::writing::push_ended;
use m51_cells::NoMemory;
use std::alloc::{AllocError, Global};

// Where the statements at these addresses lead.
fn targets_of(alloc: Global, image: &[u8], end: u32, at: &[u16]) -> Result<Vec<u16>, AllocError>
    requires { length image.now ≡ 65536 }
    ensures { IfOk result
        (λ found. found.items ≡ filter_map (λ a. statement_target (statement_at image.now end a)) at.now) }
{
    at.iter()
        .filter_map(|a| target_at(image, end, *a))
        .collect(alloc)
}

// How the target is written, where statements begin at these addresses.
fn written_target(begins: &AddressSet, target: Option<u16>) -> Target
    ensures { result ≡ written_target begins.now target }
{
    match target {
        None => Target::Nowhere,
        Some(address) if begins.contains(address) => Target::Label(address),
        Some(address) => Target::Number(address),
    }
}

// The label of the address, where these are the targets.
fn label_at(led: &AddressSet, address: u16) -> Option<u16>
    ensures { result ≡ label_at led.now address }
{
    if led.contains(address) {
        Some(address)
    } else {
        None
    }
}

// The line of a statement, where statements begin at the first addresses and lead to the others.
fn line_of(begins: &AddressSet, led: &AddressSet, statement: &Statement) -> SourceLine
    ensures { result ≡ line_of begins.now led.now statement.now }
{
    SourceLine::Statement(StatementLine {
        label: label_at(led, statement.at),
        content: statement.content,
        target: written_target(begins, statement_target(statement)),
    })
}

// Puts the line of the statement at the address at the end of the text.
fn push_line_at(
    text: &mut Vec<u8>,
    image: &[u8],
    end: u32,
    begins: &AddressSet,
    led: &AddressSet,
    at: u16,
) -> Result<(), NoMemory>
    requires { at < length image.now }
    ensures { OnOk result (text.new.items
        ≡ text.old.items ++ text_of_lines (line_of begins.now led.now (statement_at image.now end at) ∷ [])) }
{
    push_ended(text, &line_of(begins, led, &statement_at(image, end, at)))
}

// Puts the lines of the statements at these addresses at the end of the text.
#[tactic(auto, using(crate::proofs::Written::line_written))]
fn push_lines_at(
    text: &mut Vec<u8>,
    image: &[u8],
    end: u32,
    begins: &AddressSet,
    led: &AddressSet,
    at: &[u16],
) -> Result<(), NoMemory>
    requires { length image.now ≡ 65536 }
    ensures { OnOk result (text.new.items
        ≡ text.old.items
        ++ text_of_lines (map (λ a. line_of begins.now led.now (statement_at image.now end a)) at.now)) }
{
    for a in at {
        push_line_at(text, image, end, begins, led, *a)?;
    }
    Ok(())
}

// Puts the lines of the statements of a part at the end of the text.
fn push_statements(
    alloc: Global,
    text: &mut Vec<u8>,
    image: &[u8],
    part: CodeRange,
) -> Result<(), NoMemory>
    requires whole { length image.now ≡ 65536 }
    requires inside { IsInside part }
    ensures { OnOk result (text.new.items
        ≡ text.old.items ++ text_of_lines (statement_lines (statements_of image.now part))) }
{
    let end = u32::from(part.base) + u32::from(part.size);
    let begins = AddressSet::of(alloc, beginnings_of(alloc, image, part)?)?;
    let led = AddressSet::of(alloc, targets_of(alloc, image, end, begins.addresses())?)?;
    push_lines_at(text, image, end, &begins, &led, begins.addresses())
}

// Puts the lines of a part at the end of the text.
#[tactic(auto, using(crate::proofs::Written::part_written))]
fn push_part(
    alloc: Global,
    text: &mut Vec<u8>,
    image: &[u8],
    part: CodeRange,
) -> Result<(), NoMemory>
    requires whole { length image.now ≡ 65536 }
    requires inside { IsInside part }
    ensures { OnOk result (text.new.items ≡ text.old.items ++ text_of_lines (part_lines image.now part)) }
{
    push_ended(text, &SourceLine::Segment(part.base))?;
    push_statements(alloc, text, image, part)
}

// Puts the lines of parts at the end of the text.
#[tactic(auto, using(crate::proofs::Written::one_part_written))]
fn push_parts(
    alloc: Global,
    text: &mut Vec<u8>,
    image: &[u8],
    parts: &[CodeRange],
) -> Result<(), NoMemory>
    requires whole { length image.now ≡ 65536 }
    requires inside { All IsInside parts.now }
    ensures { OnOk result (text.new.items
        ≡ text.old.items ++ text_of_lines (flat_map (part_lines image.now) parts.now)) }
{
    for part in parts {
        push_part(alloc, text, image, *part)?;
    }
    Ok(())
}

/// The text of parts.
#[tactic(auto, using(crate::proofs::Written::all_written))]
pub(crate) fn text_of(alloc: Global, image: &[u8], parts: &[CodeRange]) -> Result<Vec<u8>, NoMemory>
    requires whole { length image.now ≡ 65536 }
    requires inside { All IsInside parts.now }
    ensures { IfOk result (λ text. text.items ≡ text_of_lines (lines_of image.now parts.now)) }
{
    let mut text = Vec::new(alloc);
    push_ended(&mut text, &SourceLine::Nomod51)?;
    push_parts(alloc, &mut text, image, parts)?;
    push_ended(&mut text, &SourceLine::End)?;
    Ok(text)
}

/// How many lines the text of parts has.
#[tactic(auto, using(crate::proofs::Written::one_counted))]
pub(crate) fn line_count(
    alloc: Global,
    image: &[u8],
    parts: &[CodeRange],
) -> Result<usize, NoMemory>
    requires whole { length image.now ≡ 65536 }
    requires inside { All IsInside parts.now }
    requires few { length parts.now ≤ 254 }
    ensures { IfOk result (λ count. count ≡ length (lines_of image.now parts.now)) }
{
    let mut count = 2;
    for part in parts {
        count += 1 + beginnings_of(alloc, image, *part)?.len();
    }
    Ok(count)
}
