//! The forms of control lines.
ghost use Rattle.std.specs.Prelude.{◌≡◌, IfOk, IfSome, option_map};
ghost use Rattle.std.specs.List.{list_any};
ghost use Rattle.m51_control.specs.Controls.{IsAllowed};
ghost use Rattle.m51_control.specs.Parts.{is_sign};
ghost use Rattle.m51_control.specs.Grammar.{add, cut, overlay, no_overlay, class_named, ordered_of, order, by_word};
ghost use Rattle.m51_control.specs.Grammar.{call_of, control_of};

use crate::naming::{Role, names_in, trimmed_name};
use crate::parts::{before_blanks, before_last, cut_at, word_in};
use crate::reserving::reserve;
use crate::{Class, Control};
use m51_cells::{MOST_LINE_BYTES, Name, NoMemory};
use std::alloc::Global;

// Whether this sign is in the text.
fn has_sign(sign: u8, text: &[u8]) -> bool
    ensures { result ≡ list_any (is_sign sign) text.now }
{
    text.iter().any(|byte| *byte == sign)
}

// Calls that are added.
fn add(alloc: Global, inside: &[u8]) -> Result<Option<Control>, NoMemory>
    ensures control { IfOk result (λ control. control ≡ add inside.now) }
    ensures allowed { IfOk result (λ control. IfSome control IsAllowed) }
{
    let Some((from, to)) = cut_at(b'>', inside) else {
        return Ok(None);
    };
    let Some(from) = trimmed_name(Role::Unit, from) else {
        return Ok(None);
    };
    match names_in(alloc, Role::Unit, to)? {
        Some(to) => Ok(Some(Control::Add(from, to))),
        None => Ok(None),
    }
}

// Calls that are cut.
fn cut(alloc: Global, inside: &[u8]) -> Result<Option<Control>, NoMemory>
    ensures control { IfOk result (λ control. control ≡ cut inside.now) }
    ensures allowed { IfOk result (λ control. IfSome control IsAllowed) }
{
    let Some((from, to)) = cut_at(b'~', inside) else {
        return Ok(None);
    };
    let Some(from) = trimmed_name(Role::Unit, from) else {
        return Ok(None);
    };
    match names_in(alloc, Role::Unit, to)? {
        Some(to) => Ok(Some(Control::Cut(from, to))),
        None => Ok(None),
    }
}

// The control that the text in the parentheses of OVERLAY writes.
fn overlay(alloc: Global, inside: &[u8]) -> Result<Option<Control>, NoMemory>
    ensures control { IfOk result (λ control. control ≡ overlay inside.now) }
    ensures allowed { IfOk result (λ control. IfSome control IsAllowed) }
{
    if has_sign(b'>', inside) {
        add(alloc, inside)
    } else {
        cut(alloc, inside)
    }
}

// The control that the text in the parentheses of NOOVERLAY writes.
fn no_overlay(inside: &[u8]) -> Option<Control>
    ensures { result ≡ no_overlay inside.now }
{
    Some(Control::NoOverlay(trimmed_name(Role::Unit, inside)?))
}

// The class that a word names.
#[tactic(auto, unfolding(crate::specs::Grammar::class_named))]
fn class_named(word: &[u8]) -> Option<Class>
    ensures { result ≡ class_named word.now }
{
    if word == b"BITADDRESSABLE".as_slice() {
        Some(Class::Bitaddressable)
    } else if word == b"BIT".as_slice() {
        Some(Class::Bits)
    } else if word == b"DATA".as_slice() {
        Some(Class::Direct)
    } else if word == b"IDATA".as_slice() {
        Some(Class::Idata)
    } else if word == b"XDATA".as_slice() {
        Some(Class::Xdata)
    } else if word == b"CODE".as_slice() {
        Some(Class::Code)
    } else {
        None
    }
}

// The class of an order, and the text after its comma.
fn ordered_of(inside: &[u8]) -> Option<(Class, &[u8])>
    ensures { option_map (λ o. (o.0, o.1.now)) result ≡ ordered_of inside.now }
{
    let (class, segments) = cut_at(b',', inside)?;
    let class = word_in(class)?;
    Some((class_named(class.bytes())?, segments))
}

// The control that the text in the parentheses of ORDER writes.
fn order(alloc: Global, inside: &[u8]) -> Result<Option<Control>, NoMemory>
    ensures { IfOk result (λ control. control ≡ order inside.now) }
{
    let Some((class, segments)) = ordered_of(inside) else {
        return Ok(None);
    };
    match names_in(alloc, Role::Segment, segments)? {
        Some(segments) => Ok(Some(Control::Order(class, segments))),
        None => Ok(None),
    }
}

// The control of a word and of the text in its parentheses.
#[tactic(auto, unfolding(crate::specs::Grammar::by_word))]
fn by_word(alloc: Global, word: &[u8], inside: &[u8]) -> Result<Option<Control>, NoMemory>
    ensures control { IfOk result (λ control. control ≡ by_word word.now inside.now) }
    ensures allowed { IfOk result (λ control. IfSome control IsAllowed) }
{
    if word == b"OVERLAY".as_slice() {
        overlay(alloc, inside)
    } else if word == b"NOOVERLAY".as_slice() {
        Ok(no_overlay(inside))
    } else if word == b"RESERVE".as_slice() {
        reserve(alloc, inside)
    } else if word == b"ORDER".as_slice() {
        order(alloc, inside)
    } else {
        Ok(None)
    }
}

// The word of a line, and the text in its parentheses.
fn call_of(line: &[u8]) -> Option<(Name, &[u8])>
    ensures { option_map (λ c. (c.0, c.1.now)) result ≡ call_of line.now }
{
    let (before, after) = cut_at(b'(', line)?;
    let word = Name::of(before_blanks(before)?)?;
    Some((word, before_last(b')', after)?))
}

// The control of a line, if the line is in the grammar.
pub(crate) fn control_of(alloc: Global, line: &[u8]) -> Result<Option<Control>, NoMemory>
    ensures control { IfOk result (λ control. control ≡ control_of line.now) }
    ensures allowed { IfOk result (λ control. IfSome control IsAllowed) }
{
    if line.len() > MOST_LINE_BYTES {
        return Ok(None);
    }
    match call_of(line) {
        Some((word, inside)) => by_word(alloc, word.bytes(), inside),
        None => Ok(None),
    }
}
