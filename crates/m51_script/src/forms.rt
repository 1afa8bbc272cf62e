//! The forms of a script's lines.
ghost use Rattle.std.specs.Prelude.{◌≡◌, option_map};
ghost use Rattle.m51_script.specs.Grammar.{form_by_word, fill_of, line_form, pin_of, port_of, received, receive_of};

use crate::digits::{decimal, hexadecimal};
use crate::parts::cut;

// The form of a line, with its numbers as they are written.
#[derive(Clone, Copy)]
pub(crate) enum LineForm {
    /// `FILL hh`.
    Fill(u64),
    /// `PIN cycle Pn hh`.
    Pin(u64, u64, u64),
    /// `RX cycle hh b`, where b is 1 if it is missing.
    Receive(u64, u64, u64),
}

// What follows FILL.
fn fill_of(text: &[u8]) -> Option<LineForm>
    ensures { result ≡ fill_of text.now }
{
    let byte = hexadecimal(text)?;
    Some(LineForm::Fill(byte))
}

// The number of a port, after its P.
fn port_of(part: &[u8]) -> Option<u64>
    ensures { result ≡ port_of part.now }
{
    match part {
        [b'P', digit @ ..] => decimal(1, digit),
        _ => None,
    }
}

// What follows PIN.
fn pin_of(text: &[u8]) -> Option<LineForm>
    ensures { result ≡ pin_of text.now }
{
    let (cycle, rest) = cut(text)?;
    let cycle = decimal(10, cycle)?;
    let (port, level) = cut(rest)?;
    let port = port_of(port)?;
    let level = hexadecimal(level)?;
    Some(LineForm::Pin(cycle, port, level))
}

// A byte, and its ninth or stop bit, which is 1 where it is missing.
fn received(text: &[u8]) -> Option<(u64, u64)>
    ensures { result ≡ received text.now }
{
    match cut(text) {
        None => {
            let byte = hexadecimal(text)?;
            Some((byte, 1))
        }
        Some((byte, bit)) => {
            let byte = hexadecimal(byte)?;
            let bit = decimal(1, bit)?;
            Some((byte, bit))
        }
    }
}

// What follows RX.
fn receive_of(text: &[u8]) -> Option<LineForm>
    ensures { result ≡ receive_of text.now }
{
    let (cycle, frame) = cut(text)?;
    let cycle = decimal(10, cycle)?;
    let (byte, bit) = received(frame)?;
    Some(LineForm::Receive(cycle, byte, bit))
}

// What a word says with what follows it.
#[tactic(auto, unfolding(crate::specs::Grammar::form_by_word))]
fn form_by_word(word: &[u8], text: &[u8]) -> Option<LineForm>
    ensures { result ≡ form_by_word word.now text.now }
{
    if word == b"FILL".as_slice() {
        fill_of(text)
    } else if word == b"PIN".as_slice() {
        pin_of(text)
    } else if word == b"RX".as_slice() {
        receive_of(text)
    } else {
        None
    }
}

// The form of a line, if it has one.
pub(crate) fn line_form(line: &[u8]) -> Option<LineForm>
    ensures { result ≡ line_form line.now }
{
    let (word, rest) = cut(line)?;
    form_by_word(word, rest)
}
