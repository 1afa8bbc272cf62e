//! The parts of a line, with blanks between them.
ghost use Rattle.std.specs.Prelude.{◌≡◌, drop, option_map};
ghost use Rattle.std.specs.List.{prefix_len};
ghost use Rattle.m51_cells.specs.Blanks.{is_blank};
ghost use Rattle.m51_script.specs.Parts.{cut};

use m51_cells::{blank_len, word_len};

// What follows the blanks that come first.
fn after_blanks(text: &[u8]) -> &[u8]
    ensures { result.now ≡ drop (prefix_len is_blank text.now) text.now }
{
    &text[blank_len(text)..]
}

// The part before the first blank, and what follows that blank and those right after it. It is none where there is no
// blank.
pub(crate) fn cut(text: &[u8]) -> Option<(&[u8], &[u8])>
    ensures { option_map (λ c. (c.0.now, c.1.now)) result ≡ cut text.now }
{
    let len = word_len(text);
    if len < text.len() {
        Some((&text[..len], after_blanks(&text[len..])))
    } else {
        None
    }
}
