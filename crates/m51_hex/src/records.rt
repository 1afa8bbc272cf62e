//! Records: what the bytes of one say, and the line of one.
ghost use Rattle.std.specs.Prelude.{◌≡◌, ◌+◌, ◌<◌, ◌≤◌, ◌%◌, ◌++◌, length, sum, IsTrue, OnOk};
ghost use Rattle.m51_hex.specs.Line.{has_form, record_from};
ghost use Rattle.m51_hex.specs.Record.{type_byte, fields_of, checksum_of, line_of_record, seen};

use crate::digits::{push_byte, push_bytes};
use m51_cells::NoMemory;

// The type of a record.
#[derive(Clone, Copy, Debug, PartialEq, Eq)]
pub(crate) enum RecordType {
    // Type 00: bytes of the image.
    Data,
    // Type 01: the file ends here.
    EndOfFile,
}

// A record: consecutive bytes of the image, or the end of the file.
#[derive(Clone, Copy)]
pub(crate) struct HexRecord<'a> {
    // Its type.
    pub(crate) kind: RecordType,
    // The address of the first byte of the data.
    pub(crate) address: u16,
    // The data: 0 to 255 bytes.
    pub(crate) bytes: &'a [u8],
}

// The byte that says the type.
fn type_byte(kind: RecordType) -> u8
    ensures { result ≡ type_byte kind }
{
    match kind {
        RecordType::Data => 0,
        RecordType::EndOfFile => 1,
    }
}

// The low byte of the sum of bytes.
pub(crate) fn low_sum(bytes: &[u8]) -> u8
    ensures { result ≡ sum bytes.now % 256 }
{
    let mut total = 0u8;
    for byte in bytes {
        total = total.wrapping_add(*byte);
    }
    total
}

// Whether bytes have the form of a record.
#[tactic(auto, unfolding(crate::specs::Line::has_form))]
pub(crate) fn has_form(bytes: &[u8]) -> bool
    ensures { result ≡ has_form bytes.now }
{
    if bytes.len() < 5 {
        return false;
    }
    let count = usize::from(bytes[0]);
    let address = 256 * usize::from(bytes[1]) + usize::from(bytes[2]);
    if bytes.len() != count + 5 {
        return false;
    }
    match bytes[3] {
        0 => address + count <= 0x10000,
        1 => count == 0,
        _ => false,
    }
}

// The record that bytes of that form write.
#[tactic(auto, unfolding(crate::specs::Line::has_form, crate::specs::Line::record_from))]
pub(crate) fn record_from(bytes: &[u8]) -> HexRecord<'_>
    requires { IsTrue (has_form bytes.now) }
    ensures is { seen result ≡ record_from bytes.now }
    ensures within { result.address + length result.bytes.now ≤ 0x10000 }
{
    let kind = if bytes[3] == 0 {
        RecordType::Data
    } else {
        RecordType::EndOfFile
    };
    HexRecord {
        kind,
        address: u16::from_be_bytes([bytes[1], bytes[2]]),
        bytes: &bytes[4..4 + usize::from(bytes[0])],
    }
}

// The count, the address and the type of a record, which come before its data.
#[tactic(auto, unfolding(crate::specs::Record::fields_of))]
fn front_of(record: &HexRecord<'_>) -> [u8; 4]
    requires { length «record».now.bytes.now < 256 }
    ensures { result ++ «record».now.bytes.now ≡ fields_of (seen «record».now) }
{
    let [high, low] = record.address.to_be_bytes();
    let count = record.bytes.len() as u8;
    [count, high, low, type_byte(record.kind)]
}

// The checksum of fields, which are these two parts.
fn checksum_of(front: &[u8], bytes: &[u8]) -> u8
    ensures { result ≡ checksum_of (front.now ++ bytes.now) }
{
    let total = low_sum(front).wrapping_add(low_sum(bytes));
    total.wrapping_neg()
}

// Appends the line of a record.
pub(crate) fn push_record(text: &mut Vec<u8>, record: &HexRecord<'_>) -> Result<(), NoMemory>
    requires { length «record».now.bytes.now < 256 }
    ensures { OnOk result (text.new.items ≡ text.old.items ++ line_of_record (seen «record».now)) }
{
    let front = front_of(record);
    let checksum = checksum_of(&front, record.bytes);
    text.push(b':')?;
    push_bytes(text, &front)?;
    push_bytes(text, record.bytes)?;
    push_byte(text, checksum)?;
    text.push(b'\n')?;
    Ok(())
}
