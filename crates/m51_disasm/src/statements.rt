//! The statements of a part.
ghost use Rattle.std.specs.Prelude.{◌≡◌, ◌<◌, ◌≤◌, ◌+◌, IfOk, length, vec_len};
ghost use Rattle.m51_disasm.specs.Lines.{beginnings};
ghost use Rattle.m51_disasm.specs.Parts.{IsInside};
ghost use Rattle.m51_disasm.specs.Statements.{content_of, length_in, statement_at, statements_of, statement_target};

use crate::instructions::{can_stand, instr_in_image, length_of, statement_target};
use crate::part::CodeRange;
use crate::statement::{Content, Statement};
use m51_cells::NoMemory;
use std::alloc::Global;

/// The statement at the address of a unit with this end.
#[tactic(auto, unfolding(crate::specs::Statements::statement_at))]
pub(crate) fn statement_at(image: &[u8], end: u32, at: u16) -> Statement
    requires { at < length image.now }
    ensures { result ≡ statement_at image.now end at }
{
    let byte = image[usize::from(at)];
    let content = match instr_in_image(image, at) {
        Some(instr) if can_stand(end, at, &instr) => Content::Code(instr),
        _ => Content::Byte(byte),
    };
    Statement { at, content }
}

// How many bytes the content has, 1 to 3.
fn length_in(content: &Content) -> u32
    ensures value { result ≡ length_in content.now }
    ensures some { 1 ≤ result }
    ensures few { result ≤ 3 }
{
    match content {
        Content::Byte(_) => 1,
        Content::Code(instr) => length_of(instr),
    }
}

// How many bytes the statement at the address has.
fn length_at(image: &[u8], end: u32, at: u16) -> u32
    requires { at < length image.now }
    ensures value { result ≡ length_in (statement_at image.now end at).content }
    ensures some { 1 ≤ result }
    ensures few { result ≤ 3 }
{
    length_in(&statement_at(image, end, at).content)
}

/// The target of the statement at the address.
pub(crate) fn target_at(image: &[u8], end: u32, at: u16) -> Option<u16>
    requires { at < length image.now }
    ensures { result ≡ statement_target (statement_at image.now end at) }
{
    statement_target(&statement_at(image, end, at))
}

/// Where the statements of a part begin.
pub(crate) fn beginnings_of(
    alloc: Global,
    image: &[u8],
    part: CodeRange,
) -> Result<Vec<u16>, NoMemory>
    requires whole { length image.now ≡ 65536 }
    requires inside { IsInside part }
    ensures value { IfOk result (λ addresses. addresses.items ≡ beginnings (statements_of image.now part)) }
    ensures few { IfOk result (λ addresses. vec_len addresses ≤ 65538) }
{
    let end = u32::from(part.base) + u32::from(part.size);
    let mut addresses = Vec::new(alloc);
    let mut at = u32::from(part.base);
    'walk: while at < end {
        addresses.push(at as u16)?;
        at += length_at(image, end, at as u16);
    }
    Ok(addresses)
}
