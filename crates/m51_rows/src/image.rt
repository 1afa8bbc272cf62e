//! Bytes of an image in Intel HEX lines.
use crate::texts::{cut, hex_number, not_in_form, parts_of, put_digits};
use std::alloc::Global;
use std::io;

// The byte at an address that a line holds.
fn byte_in(line: &[u8], address: u32) -> Option<u32> {
    let digits = line.strip_prefix(b":")?;
    let count = hex_number(digits.get(..2)?)?;
    let offset = address.checked_sub(hex_number(digits.get(2..6)?)?)?;
    if offset >= count {
        return None;
    }
    let at = (offset as usize).saturating_mul(2).saturating_add(8);
    hex_number(digits.get(at..at.saturating_add(2))?)
}

// Whether a line holds this byte at an address.
fn holds(lines: &[&[u8]], address: u32, byte: u8) -> bool {
    for line in lines {
        if let Some(held) = byte_in(*line, address) {
            return held == u32::from(byte);
        }
    }
    false
}

// Whether the lines hold the bytes of a part such as 0000:7455.
fn has_part(alloc: Global, lines: &[&[u8]], part: &[u8]) -> io::Result<bool> {
    let Some((at, digits)) = cut(part, b":") else {
        return Ok(false);
    };
    let mut bytes = Vec::new(alloc);
    put_digits(&mut bytes, digits)?;
    let Some(mut address) = hex_number(at) else {
        return Err(not_in_form());
    };
    for byte in bytes.iter() {
        if !holds(lines, address, *byte) {
            return Ok(false);
        }
        address = address.saturating_add(1);
    }
    Ok(!bytes.is_empty())
}

/// Whether the lines of a HEX file hold all parts such as 0000:7455, with commas between them.
pub(crate) fn has_parts(alloc: Global, text: &[u8], parts: &[u8]) -> io::Result<bool> {
    let lines = parts_of(alloc, text, b"\n")?;
    for part in parts_of(alloc, parts, b",")?.iter() {
        if !has_part(alloc, &lines, *part)? {
            return Ok(false);
        }
    }
    Ok(true)
}
