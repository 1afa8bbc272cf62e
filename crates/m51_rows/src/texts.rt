//! Texts as bytes: parts between marks, numbers, and bytes that are written by their numbers. It is one reader for all
//! tables, since each other way to search costs its own proof.
use std::alloc::{AllocError, Global};
use std::io;
use std::io::ErrorKind;

/// The error of a table that is not in its form.
pub(crate) fn not_in_form() -> io::Error {
    io::Error::new(
        ErrorKind::InvalidData,
        "a row of a table is not in its form",
    )
}

/// The text before the first mark, and the one after it.
pub(crate) fn cut<'a>(text: &'a [u8], mark: &[u8]) -> Option<(&'a [u8], &'a [u8])> {
    for at in 0..text.len() {
        let (front, rest) = text.split_at(at);
        if let Some(rest) = rest.strip_prefix(mark) {
            return Some((front, rest));
        }
    }
    None
}

/// The parts of a text between the marks: one more than there are marks.
pub(crate) fn parts_of<'a>(
    alloc: Global,
    text: &'a [u8],
    mark: &[u8],
) -> Result<Vec<&'a [u8]>, AllocError> {
    let mut parts = Vec::new(alloc);
    let mut rest = text;
    for _ in 0..text.len() {
        let Some((part, more)) = cut(rest, mark) else {
            break;
        };
        parts.push(part)?;
        rest = more;
    }
    parts.push(rest)?;
    Ok(parts)
}

/// The text before the first mark; all of it where there is none.
pub(crate) fn before<'a>(text: &'a [u8], mark: &[u8]) -> &'a [u8] {
    match cut(text, mark) {
        Some((front, _)) => front,
        None => text,
    }
}

/// The text after the first mark; nothing where there is none.
pub(crate) fn after<'a>(text: &'a [u8], mark: &[u8]) -> &'a [u8] {
    match cut(text, mark) {
        Some((_, rest)) => rest,
        None => b"",
    }
}

/// Whether the mark is in the text.
pub(crate) fn has(text: &[u8], mark: &[u8]) -> bool {
    match cut(text, mark) {
        Some(_) => true,
        None => false,
    }
}

/// The number of these decimal digits.
pub(crate) fn number(digits: &[u8]) -> Option<u32> {
    u32::from_str_radix(str::from_utf8(digits).ok()?, 10).ok()
}

/// The number of these hexadecimal digits.
pub(crate) fn hex_number(digits: &[u8]) -> Option<u32> {
    u32::from_str_radix(str::from_utf8(digits).ok()?, 16).ok()
}

/// The byte of these hexadecimal digits.
pub(crate) fn byte(digits: &[u8]) -> Option<u8> {
    u8::from_str_radix(str::from_utf8(digits).ok()?, 16).ok()
}

// The byte whose two hexadecimal digits a text begins with.
fn first_byte(text: &[u8]) -> Option<u8> {
    byte(text.get(..2)?)
}

// The text after its first two bytes.
fn after_two(text: &[u8]) -> &[u8] {
    match text.get(2..) {
        Some(rest) => rest,
        None => b"",
    }
}

/// Puts the bytes of hexadecimal digits to those before. Any other text is an error.
pub(crate) fn put_digits(to: &mut Vec<u8>, digits: &[u8]) -> io::Result<()> {
    let mut rest = digits;
    for _ in digits {
        if rest.is_empty() {
            break;
        }
        let Some(byte) = first_byte(rest) else {
            return Err(not_in_form());
        };
        to.extend_from_slice(&[byte])?;
        rest = after_two(rest);
    }
    Ok(())
}

// Puts a part that came after `\x`: a byte by its digits, and the rest.
fn put_part(to: &mut Vec<u8>, part: &[u8]) -> Result<(), AllocError> {
    match first_byte(part) {
        Some(byte) => {
            to.extend_from_slice(&[byte])?;
            to.extend_from_slice(after_two(part))
        }
        None => to.extend_from_slice(part),
    }
}

/// Puts the bytes of a text to those before, with `\x` and two digits for a byte.
pub(crate) fn put_bytes(alloc: Global, to: &mut Vec<u8>, text: &[u8]) -> Result<(), AllocError> {
    to.extend_from_slice(before(text, b"\\x"))?;
    for part in parts_of(alloc, after(text, b"\\x"), b"\\x")?.iter() {
        put_part(to, *part)?;
    }
    Ok(())
}

/// What is between the braces of a text, as `32*A`; nothing where there are none.
pub(crate) fn braced(text: &[u8]) -> &[u8] {
    before(after(text, b"{"), b"}")
}

// The word of a text in which bytes are written by their numbers; '' is the empty word. One that is not UTF-8 is an
// error.
fn word_of(alloc: Global, text: &[u8]) -> io::Result<String> {
    let mut bytes = Vec::new(alloc);
    if text != b"''".as_slice() {
        put_bytes(alloc, &mut bytes, text)?;
    }
    String::from_utf8(bytes).map_err(|_| not_in_form())
}

// Puts one word, or the same word some times, to those before.
fn put_words(alloc: Global, to: &mut Vec<String>, part: &[u8]) -> io::Result<()> {
    let piece = braced(part);
    let Some(count) = number(before(piece, b"*")) else {
        to.push(word_of(alloc, part)?)?;
        return Ok(());
    };
    for _ in 0..count {
        to.push(word_of(alloc, after(piece, b"*"))?)?;
    }
    Ok(())
}

/// The words of a text, with marks between them.
pub(crate) fn words_of(alloc: Global, text: &[u8], mark: &[u8]) -> io::Result<Vec<String>> {
    let mut words = Vec::new(alloc);
    for part in parts_of(alloc, text, mark)?.iter() {
        if !part.is_empty() {
            put_words(alloc, &mut words, *part)?;
        }
    }
    Ok(words)
}

/// Whether a line of a table is a row: neither empty nor a comment.
pub(crate) fn is_row(line: &[u8]) -> bool {
    match line.strip_prefix(b"#") {
        Some(_) => false,
        None => !line.is_empty(),
    }
}
