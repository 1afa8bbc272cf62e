//! Reads ranges of memory that a control line keeps free.
ghost use Rattle.std.specs.Prelude.{◌≡◌, Ok, IfOk, IfSome, IsTrue, option_map};
ghost use Rattle.std.specs.Char.{is_ascii_alphanumeric};
ghost use Rattle.std.specs.List.{list_all};
ghost use Rattle.m51_control.specs.Controls.{IsAllowed};
ghost use Rattle.m51_control.specs.Reserve.{number_of_tokens, assembler_number, trimmed_number, bounds_of, space_of};
ghost use Rattle.m51_control.specs.Reserve.{is_range};
ghost use Rattle.m51_control.specs.Reserve.{IsRange, reserve_of, until_closing, reserved_memory, reserve};

use crate::Control;
use crate::parts::{cut_at, single_part, word_in};
use m51_cells::{NoMemory, Space, are_blanks};
use m51_lex::{LexError, Token, What, tokens};
use std::alloc::Global;

// Whether each byte is a letter or a digit.
fn is_run(text: &[u8]) -> bool
    ensures { result ≡ list_all is_ascii_alphanumeric text.now }
{
    text.iter().all(|byte| byte.is_ascii_alphanumeric())
}

// The number that a run of letters and digits writes in the assembler's language.
fn assembler_number(alloc: Global, run: &[u8]) -> Result<Option<u16>, NoMemory>
    ensures { IfOk result (λ number. number ≡ assembler_number run.now) }
{
    if !is_run(run) {
        return Ok(None);
    }
    let Ok(text) = str::from_utf8(run) else {
        return Ok(None);
    };
    match tokens(alloc, text) {
        Ok(found) => Ok(number_of_tokens(found.as_slice())),
        Err(LexError::Fault { .. }) => Ok(None),
        Err(LexError::Memory) => Err(NoMemory),
    }
}

// The number that is the one token.
fn number_of_tokens(tokens: &[Token]) -> Option<u16>
    ensures { result ≡ number_of_tokens (Ok tokens.now) }
{
    match tokens {
        [
            Token {
                what: What::Number(number),
                ..
            },
        ] => Some(*number),
        _ => None,
    }
}

// The number of a text, with blanks before and after it.
fn trimmed_number(alloc: Global, text: &[u8]) -> Result<Option<u16>, NoMemory>
    ensures { IfOk result (λ number. number ≡ trimmed_number text.now) }
{
    match single_part(text) {
        Some(part) => assembler_number(alloc, part),
        None => Ok(None),
    }
}

// The first and the last address, with a hyphen between them.
fn bounds_of(alloc: Global, text: &[u8]) -> Result<Option<(u16, u16)>, NoMemory>
    ensures { IfOk result (λ bounds. bounds ≡ bounds_of text.now) }
{
    let Some((low, high)) = cut_at(b'-', text) else {
        return Ok(None);
    };
    let Some(low) = trimmed_number(alloc, low)? else {
        return Ok(None);
    };
    let Some(high) = trimmed_number(alloc, high)? else {
        return Ok(None);
    };
    Ok(Some((low, high)))
}

// The memory that a word names.
#[tactic(auto, unfolding(crate::specs::Reserve::space_of))]
fn space_of(word: &[u8]) -> Option<Space>
    ensures { result ≡ space_of word.now }
{
    if word == b"DATA".as_slice() {
        Some(Space::Ram)
    } else if word == b"XDATA".as_slice() {
        Some(Space::Xram)
    } else {
        None
    }
}

// Whether the addresses are a range of the memory, with at most 65,535 bytes.
fn is_range(space: Space, low: u16, high: u16) -> bool
    ensures test { result ≡ is_range space low high }
    ensures fact { IsTrue result → IsRange space low high }
{
    if low > high {
        return false;
    }
    match space {
        Space::Ram => high <= 0xFF,
        Space::Xram => high - low < 65535,
        Space::Code => false,
    }
}

// The reserve of these addresses, where they are a range.
fn reserve_of(space: Space, low: u16, high: u16) -> Option<Control>
    ensures control { result ≡ reserve_of space (low, high) }
    ensures allowed { IfSome result IsAllowed }
{
    if is_range(space, low, high) {
        Some(Control::Reserve(space, low, high))
    } else {
        None
    }
}

// The text in parentheses, from after the opening one; only blanks follow the closing one.
fn until_closing(text: &[u8]) -> Option<&[u8]>
    ensures { option_map (λ inside. inside.now) result ≡ until_closing text.now }
{
    let (inside, after) = cut_at(b')', text)?;
    if are_blanks(after) {
        Some(inside)
    } else {
        None
    }
}

// The memory of a reserve, and the text in its parentheses.
fn reserved_memory(text: &[u8]) -> Option<(Space, &[u8])>
    ensures { option_map (λ m. (m.0, m.1.now)) result ≡ reserved_memory text.now }
{
    let (before, after) = cut_at(b'(', text)?;
    let word = word_in(before)?;
    let space = space_of(word.bytes())?;
    Some((space, until_closing(after)?))
}

// The reserve that a text writes: the memory, and in parentheses the first and the last address.
pub(crate) fn reserve(alloc: Global, text: &[u8]) -> Result<Option<Control>, NoMemory>
    ensures control { IfOk result (λ control. control ≡ reserve text.now) }
    ensures allowed { IfOk result (λ control. IfSome control IsAllowed) }
{
    let Some((space, inside)) = reserved_memory(text) else {
        return Ok(None);
    };
    let Some((low, high)) = bounds_of(alloc, inside)? else {
        return Ok(None);
    };
    Ok(reserve_of(space, low, high))
}
