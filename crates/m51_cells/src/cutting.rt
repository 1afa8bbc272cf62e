//! The lines of a text, each without its end.
ghost use Rattle.std.specs.Prelude.{◌≡◌, ◌<◌, ◌≤◌, ◌∷◌, [], length, map, option_map, IfOk, IfSome, MatchOption};
ghost use Rattle.std.specs.List.{position_or_len};
ghost use Rattle.std.specs.Str.Lines.{lines, strip_carriage_return};
ghost use Rattle.m51_cells.specs.Lines.{first_line, is_line_feed};

use crate::NoMemory;
use std::alloc::Global;

// A line that a line feed ends, without the carriage return before that.
fn without_return(line: &[u8]) -> &[u8]
    ensures { result.now ≡ strip_carriage_return line.now }
{
    match line {
        [front @ .., b'\r'] => front,
        _ => line,
    }
}

// How many bytes come before the first line feed: all of them where there is none.
fn count_before_feed(text: &[u8]) -> usize
    ensures count { result ≡ position_or_len is_line_feed text.now }
    ensures within { result ≤ length text.now }
{
    text.iter().take_while(|byte| **byte != b'\n').count()
}

/// The first line of a text, without its end, and what follows that end; `None` exactly if the text is empty.
///
/// A line ends in a line feed, or in a carriage return and a line feed; the last may lack its end. Any other carriage
/// return is a byte of its line.
///
/// Source: own choice ("Lines").
pub fn first_line(text: &[u8]) -> Option<(&[u8], &[u8])>
    // This line, and this rest of the text.
    ensures is { option_map (λ cut. (cut.0.now, cut.1.now)) result ≡ first_line text.now }
    // The lines of the text are this line, and those of the rest.
    ensures lines { MatchOption result (text.now ≡ []) (λ cut. lines text.now ≡ cut.0.now ∷ lines cut.1.now) }
    ensures shorter { IfSome result (λ cut. length cut.1.now < length text.now) }
{
    if text.is_empty() {
        return None;
    }
    let count = count_before_feed(text);
    if count == text.len() {
        return Some((text, &[]));
    }
    Some((without_return(&text[..count]), &text[count + 1..]))
}

/// The lines of a text in order, each without its end. Line `k`, counted from 1, has index `k - 1`.
///
/// Error: out of memory.
///
/// Source: own choice ("Lines").
pub fn lines<'a>(alloc: Global, text: &'a [u8]) -> Result<Vec<&'a [u8]>, NoMemory>
    ensures { IfOk result (λ found. map (λ line. line.now) found.items ≡ lines text.now) }
{
    let mut found = Vec::new(alloc);
    let mut rest = text;
    while let Some((line, after)) = first_line(rest) {
        found.push(line)?;
        rest = after;
    }
    Ok(found)
}

/// How many lines a text has.
///
/// Source: own choice ("Lines").
pub fn line_count(text: &[u8]) -> usize
    ensures { result ≡ length (lines text.now) }
{
    let mut count = 0;
    let mut rest = text;
    while let Some((_line, after)) = first_line(rest) {
        count += 1;
        rest = after;
    }
    count
}
