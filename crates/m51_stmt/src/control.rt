//! Reads control lines.
ghost use Rattle.std.specs.Prelude.{◌≡◌, ◌≤◌, drop, length, option_map};
ghost use Rattle.std.specs.List.{prefix_len};
ghost use Rattle.m51_cells.specs.Outcome.{Gives};
ghost use Rattle.m51_stmt.specs.Statement.{body_tree};
ghost use Rattle.m51_stmt.specs.Answer.{fault_of};
ghost use Rattle.m51_stmt.specs.Control.{is_inside, behind_blanks, ends, behind_sign, parenthesized, alone};
ghost use Rattle.m51_stmt.specs.Control.{include, title, is_ignored_word, body_by_word, control};

use crate::fault::{OUT_OF_FORM, StmtError};
use crate::statement::Body;
use crate::words::is_among;
use m51_cells::{Bytes, Name, blank_len};
use m51_lex::alphanumeric_len;
use std::alloc::Global;

// Whether a byte may be between the parentheses of a control.
fn is_inside(byte: u8) -> bool
    ensures { result ≡ is_inside byte }
{
    byte != b')' && byte != b';'
}

fn inside_len(rest: &[u8]) -> usize
    ensures len { result ≡ prefix_len is_inside rest.now }
    ensures within { result ≤ length rest.now }
{
    rest.iter().take_while(|byte| is_inside(**byte)).count()
}

fn behind_blanks(rest: &[u8]) -> &[u8]
    ensures { result.now ≡ behind_blanks rest.now }
{
    &rest[blank_len(rest)..]
}

// Whether the rest is only blanks and a comment.
fn ends(rest: &[u8]) -> bool
    ensures { result ≡ ends rest.now }
{
    match behind_blanks(rest) {
        [] => true,
        [first, ..] => *first == b';',
    }
}

// What follows this sign, if it is the first byte.
fn behind_sign(sign: u8, rest: &[u8]) -> Option<&[u8]>
    ensures { option_map (λ s. s.now) result ≡ behind_sign sign rest.now }
{
    match rest {
        [first, more @ ..] if *first == sign => Some(more),
        _ => None,
    }
}

// One or more bytes between parentheses, followed by only blanks and a comment.
fn parenthesized(rest: &[u8]) -> Option<&[u8]>
    ensures { option_map (λ s. s.now) result ≡ parenthesized rest.now }
{
    let inner = behind_sign(b'(', behind_blanks(rest))?;
    let len = inside_len(inner);
    if len == 0 {
        return None;
    }
    let behind = behind_sign(b')', &inner[len..])?;
    if ends(behind) {
        Some(&inner[..len])
    } else {
        None
    }
}

// A control without an operand.
fn alone(rest: &[u8], body: Body) -> Result<Body, StmtError>
    ensures { Gives body_tree fault_of result (alone rest.now (body_tree body)) }
{
    if ends(rest) {
        Ok(body)
    } else {
        Err(OUT_OF_FORM)
    }
}

fn include(alloc: Global, rest: &[u8]) -> Result<Body, StmtError>
    ensures { Gives body_tree fault_of result (include rest.now) }
{
    match parenthesized(rest) {
        Some(name) => Ok(Body::Include(Bytes::of(name.to_vec(alloc)?))),
        None => Err(OUT_OF_FORM),
    }
}

fn title(rest: &[u8]) -> Result<Body, StmtError>
    ensures { Gives body_tree fault_of result (title rest.now) }
{
    if ends(rest) {
        return Ok(Body::Ignored);
    }
    match parenthesized(rest) {
        Some(_) => Ok(Body::Ignored),
        None => Err(OUT_OF_FORM),
    }
}

const IGNORED: [&[u8]; 5] = [b"LIST", b"NOLIST", b"DEBUG", b"NODEBUG", b"EJECT"];

#[tactic(auto, unfolding(crate::specs::Control::is_ignored_word))]
fn is_ignored_word(word: &[u8]) -> bool
    ensures { result ≡ is_ignored_word word.now }
{
    is_among(word, &IGNORED)
}

#[tactic(auto, unfolding(crate::specs::Control::body_by_word))]
fn body_by_word(alloc: Global, word: &[u8], rest: &[u8]) -> Result<Body, StmtError>
    ensures { Gives body_tree fault_of result (body_by_word word.now rest.now) }
{
    if word == b"INCLUDE".as_slice() {
        include(alloc, rest)
    } else if word == b"TITLE".as_slice() {
        title(rest)
    } else if word == b"MOD51".as_slice() {
        alone(rest, Body::Mod51(true))
    } else if word == b"NOMOD51".as_slice() {
        alone(rest, Body::Mod51(false))
    } else if is_ignored_word(word) {
        alone(rest, Body::Ignored)
    } else {
        Err(OUT_OF_FORM)
    }
}

/// What a control line says, from the bytes after its $, or E12.
pub(crate) fn control(alloc: Global, rest: &[u8]) -> Result<Body, StmtError>
    ensures { Gives body_tree fault_of result (control rest.now) }
{
    let len = alphanumeric_len(rest);
    match Name::of(&rest[..len]) {
        Some(word) => body_by_word(alloc, word.bytes(), &rest[len..]),
        None => Err(OUT_OF_FORM),
    }
}
