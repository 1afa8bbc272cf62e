//! What the rest of a line begins with.
ghost use Rattle.std.specs.Prelude.{◌≡◌, ◌≤◌, ◌<◌, length, slice_index, IfSome, IsTrue};
ghost use Rattle.std.specs.Char.{is_ascii_alphanumeric};
ghost use Rattle.std.specs.List.{prefix_len};
ghost use Rattle.m51_lex.specs.Characters.{is_name_byte, is_sign};
ghost use Rattle.m51_lex.specs.Lexeme.{text_len, number_lexeme, name_lexeme, text_lexeme, lexeme_of, FitsLength};

use crate::fault::{BAD_CHARACTER, BAD_NUMBER, LONG_NAME, UNCLOSED_TEXT};
use crate::number::number_of;
use crate::token::What;

/// What the rest of a line begins with: a blank, a comment up to the line's end, a token with its length
/// in bytes, or a fault by its number.
pub(crate) enum Lexeme {
    Blank,
    Comment,
    Token(What, usize),
    Fault(u8),
}

fn is_name_byte(byte: u8) -> bool
    ensures { result ≡ is_name_byte byte }
{
    byte.is_ascii_alphanumeric() || byte == b'?' || byte == b'_'
}

fn is_sign(byte: u8) -> bool
    ensures { result ≡ is_sign byte }
{
    match byte {
        b',' | b':' | b'+' | b'-' | b'*' | b'/' | b'(' | b')' | b'#' | b'@' | b'.' | b'$' => true,
        _ => false,
    }
}

/// How many letters and digits come before the first other byte: all bytes where there is none.
///
/// Source: ASM51 guide.
pub fn alphanumeric_len(rest: &[u8]) -> usize
    ensures len { result ≡ prefix_len is_ascii_alphanumeric rest.now }
    ensures within { result ≤ length rest.now }
{
    rest.iter()
        .take_while(|byte| byte.is_ascii_alphanumeric())
        .count()
}

// How many bytes of a name come first.
fn name_len(rest: &[u8]) -> usize
    ensures len { result ≡ prefix_len is_name_byte rest.now }
    ensures within { result ≤ length rest.now }
{
    rest.iter().take_while(|byte| is_name_byte(**byte)).count()
}

// How many bytes of a text follow its first quote, the last quote among them, or none where it is not closed.
fn text_len(rest: &[u8]) -> Option<usize>
    ensures len { result ≡ text_len rest.now }
    ensures within { IfSome result (λ len. len ≤ length rest.now) }
{
    match rest {
        [] => None,
        [b'\'', b'\'', more @ ..] => Some(2 + text_len(more)?),
        [b'\'', ..] => Some(1),
        [_, more @ ..] => Some(1 + text_len(more)?),
    }
}

fn number_lexeme(rest: &[u8]) -> Lexeme
    requires { IsTrue (is_ascii_alphanumeric (slice_index rest.now 0)) }
    ensures lexeme { result ≡ number_lexeme rest.now }
    ensures fits { FitsLength result (length rest.now) }
{
    let len = alphanumeric_len(rest);
    match number_of(&rest[..len]) {
        Some(value) => Lexeme::Token(What::Number(value), len),
        None => Lexeme::Fault(BAD_NUMBER),
    }
}

fn name_lexeme(rest: &[u8]) -> Lexeme
    requires { IsTrue (is_name_byte (slice_index rest.now 0)) }
    ensures lexeme { result ≡ name_lexeme rest.now }
    ensures fits { FitsLength result (length rest.now) }
{
    let len = name_len(rest);
    if len > 31 {
        return Lexeme::Fault(LONG_NAME);
    }
    Lexeme::Token(What::Name, len)
}

fn text_lexeme(rest: &[u8]) -> Lexeme
    requires { 0 < length rest.now }
    ensures lexeme { result ≡ text_lexeme rest.now }
    ensures fits { FitsLength result (length rest.now) }
{
    match text_len(&rest[1..]) {
        Some(len) => Lexeme::Token(What::Text, 1 + len),
        None => Lexeme::Fault(UNCLOSED_TEXT),
    }
}

/// What the rest of a line, which is not empty, begins with.
#[tactic(auto, unfolding(crate::specs::Lexeme::lexeme_of))]
pub(crate) fn lexeme_of(rest: &[u8]) -> Lexeme
    requires { 0 < length rest.now }
    ensures lexeme { result ≡ lexeme_of rest.now }
    ensures fits { FitsLength result (length rest.now) }
{
    let byte = rest[0];
    if byte == b' ' || byte == b'\t' {
        Lexeme::Blank
    } else if byte == b';' {
        Lexeme::Comment
    } else if byte.is_ascii_digit() {
        number_lexeme(rest)
    } else if is_name_byte(byte) {
        name_lexeme(rest)
    } else if byte == b'\'' {
        text_lexeme(rest)
    } else if is_sign(byte) {
        Lexeme::Token(What::Sign(byte), 1)
    } else {
        Lexeme::Fault(BAD_CHARACTER)
    }
}
