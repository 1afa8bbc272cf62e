//! The parts of a control line.
ghost use Rattle.std.specs.Prelude.{◌≡◌, ◌≤◌, ◌<◌, IfSome, MatchOption, length, option_map};
ghost use Rattle.std.specs.List.{position_or_len};
ghost use Rattle.m51_control.specs.Parts.{IsOnePart, SplitsInto, is_sign, cut_at, before_last, before_blanks};
ghost use Rattle.m51_control.specs.Parts.{single_part, word_in};

use m51_cells::{Name, are_blanks, blank_len, word_len};

// How many bytes come before the first of these signs.
fn sign_place(sign: u8, text: &[u8]) -> usize
    ensures len { result ≡ position_or_len (is_sign sign) text.now }
    ensures within { result ≤ length text.now }
{
    text.iter().take_while(|byte| **byte != sign).count()
}

// The text before the first of these signs, and the text after it.
pub(crate) fn cut_at(sign: u8, text: &[u8]) -> Option<(&[u8], &[u8])>
    ensures cut { option_map (λ cut. (cut.0.now, cut.1.now)) result ≡ cut_at sign text.now }
    ensures parts { MatchOption result (IsOnePart sign text.now) (λ cut. SplitsInto sign text.now cut.0.now cut.1.now) }
    ensures shorter { IfSome result (λ cut. length cut.1.now < length text.now) }
{
    let position = sign_place(sign, text);
    if position < text.len() {
        Some((&text[..position], &text[position + 1..]))
    } else {
        None
    }
}

// The text before this sign, where that is the last byte.
pub(crate) fn before_last(sign: u8, text: &[u8]) -> Option<&[u8]>
    ensures { option_map (λ front. front.now) result ≡ before_last sign text.now }
{
    let len = text.len();
    if len > 0 && text[len - 1] == sign {
        Some(&text[..len - 1])
    } else {
        None
    }
}

// The part that comes first, with only blanks after it.
pub(crate) fn before_blanks(text: &[u8]) -> Option<&[u8]>
    ensures { option_map (λ part. part.now) result ≡ before_blanks text.now }
{
    let len = word_len(text);
    if are_blanks(&text[len..]) {
        Some(&text[..len])
    } else {
        None
    }
}

// The one part of a text, with blanks before and after it.
pub(crate) fn single_part(text: &[u8]) -> Option<&[u8]>
    ensures { option_map (λ part. part.now) result ≡ single_part text.now }
{
    before_blanks(&text[blank_len(text)..])
}

// The word or name of a text, with blanks before and after it.
pub(crate) fn word_in(text: &[u8]) -> Option<Name>
    ensures { result ≡ word_in text.now }
{
    Name::of(single_part(text)?)
}
