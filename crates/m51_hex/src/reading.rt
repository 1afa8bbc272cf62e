//! Reads a HEX file.
ghost use Rattle.std.specs.Prelude.{◌≡◌, ◌+◌, ◌≤◌, ◌<◌, ◌^◌, length, IfOk, Ok};
ghost use Rattle.m51_cells.specs.Outcome.{Gives};
ghost use Rattle.m51_hex.specs.Memory.{memory_in};
ghost use Rattle.m51_hex.specs.Line.{bytes_in, record_in};
ghost use Rattle.m51_hex.specs.Reading.{line_read, memory_from, image_refusal, with_memory};
ghost use Rattle.m51_hex.specs.Record.{seen};

use crate::HexError;
use crate::digits::{are_hex_digits, bytes_of_digits};
use crate::records::{HexRecord, RecordType, has_form, low_sum, record_from};
use crate::storing::store;
use m51_cells::first_line;
use m51_module::Image;
use std::alloc::Global;

// The bytes that a line writes.
#[tactic(auto, unfolding(crate::specs::Line::bytes_in))]
fn bytes_in(alloc: Global, line: u32, text: &[u8]) -> Result<Vec<u8>, HexError>
    ensures { Gives (λ bytes. bytes.items) image_refusal result (bytes_in line text.now) }
{
    let [b':', digits @ ..] = text else {
        return Err(HexError::H1 { line });
    };
    if !are_hex_digits(digits) {
        return Err(HexError::H2 { line });
    }
    if digits.len() % 2 != 0 {
        return Err(HexError::H3 { line });
    }
    Ok(bytes_of_digits(alloc, digits)?)
}

// The record that the bytes of a line write.
#[tactic(auto, unfolding(crate::specs::Line::record_in))]
fn record_in(line: u32, bytes: &[u8]) -> Result<HexRecord<'_>, HexError>
    ensures gives { Gives seen image_refusal result (record_in line bytes.now) }
    ensures within { IfOk result (λ r. r.address + length r.bytes.now ≤ 0x10000) }
{
    if !has_form(bytes) {
        return Err(HexError::H3 { line });
    }
    if low_sum(bytes) != 0 {
        return Err(HexError::H4 { line });
    }
    Ok(record_from(bytes))
}

// Reads a line, and puts the data of its record into the image. Returns the type of the record.
#[tactic(auto, unfolding(crate::specs::Line::hex_record_of, crate::specs::Reading::line_read))]
fn read_line(
    alloc: Global,
    image: &mut Image,
    line: u32,
    text: &[u8],
) -> Result<RecordType, HexError>
    requires { length image.old ≡ 0x10000 }
    ensures gives { Gives (with_memory image.new) image_refusal result (line_read (memory_in image.old) line text.now) }
    ensures whole { length image.new ≡ 0x10000 }
{
    let bytes = bytes_in(alloc, line, text)?;
    let record = record_in(line, &bytes)?;
    store(image, &record);
    Ok(record.kind)
}

/// The image that a HEX file describes: the data of its records, of which later bytes replace earlier ones, and FFH at
/// each address that no record has. Lines end in a line feed, or in a carriage return and a line feed; the last may
/// lack its end. Digits are of either case. What follows a record of type 01 is ignored.
///
/// Condition: the file has fewer than 4,294,967,296 bytes.
///
/// Errors: the first line that fails a test, by the first test that it fails, H1 to H4; H5 where no line is a record of
/// type 01; or out of memory.
///
/// Source: Intel HEX.
pub fn read_hex(alloc: Global, bytes: &[u8]) -> Result<Image, HexError>
    requires { length bytes.now < 2 ^ 32 }
    ensures { Gives memory_in image_refusal result (memory_from bytes.now) }
{
    let mut image = Image::blank(alloc)?;
    let mut line = 0;
    let mut rest = bytes;
    while let Some((text, after)) = first_line(rest) {
        line += 1;
        rest = after;
        match read_line(alloc, &mut image, line, text)? {
            RecordType::Data => {}
            RecordType::EndOfFile => return Ok(image),
        }
    }
    Err(HexError::H5)
}
