//! The frame of a record around its contents: type, length and checksum.
ghost use Rattle.std.specs.Prelude.{◌≡◌, ◌<◌, ◌++◌, ◌∷◌, ◌+◌, ◌*◌, [], length, OnOk, IfOk};
ghost use Rattle.m51_frame.specs.Fields.{Reads};
ghost use Rattle.m51_frame.specs.Frame.{checksum_of, record_of, begins, summed, framed_record, lengthed, record_at};
ghost use Rattle.m51_frame.specs.Frame.{checksum_place};

use crate::fields::{broken, offset_of, put_pair};
use byteorder::{ByteOrder, LittleEndian};
use m51_cells::NoMemory;
use m51_module::ObjError;
use std::alloc::Global;

// The byte that makes the sum of all bytes 0 modulo 256.
fn checksum(bytes: &[u8]) -> u8
    requires { length bytes.now < 65600 }
    ensures { result ≡ checksum_of bytes.now }
{
    let sum: u32 = bytes.iter().map(|byte| u32::from(*byte)).sum();
    ((256 - sum % 256) % 256) as u8
}

/// Whether the bytes begin with a record of the type.
///
/// Source: OMF-51.
pub fn begins(record_type: u8, bytes: &[u8]) -> bool
    ensures { result ≡ begins record_type bytes.now }
{
    match bytes {
        [] => false,
        [first, ..] => *first == record_type,
    }
}

// The contents, and the bytes after the record. `front` is the record without its checksum, `rest` what follows that.
fn summed<'a>(
    total: u32,
    number: u32,
    front: &'a [u8],
    rest: &'a [u8],
) -> Result<(&'a [u8], &'a [u8]), ObjError>
    requires few { length front.now < 65600 }
    requires some { 2 < length front.now }
    ensures value { Reads (λ x. (x.0.now, x.1.now)) result (summed total number front.now rest.now) }
    ensures shorter { IfOk result (λ x. length x.1.now < length rest.now) }
{
    match rest {
        [] => Err(ObjError::O1 { at: total }),
        [found, after @ ..] => {
            let needed = checksum(front);
            if *found == needed {
                Ok((&front[3..], after))
            } else {
                Err(ObjError::O2 {
                    record_no: number,
                    found: *found,
                    needed,
                })
            }
        }
    }
}

// The contents of a record of that length of contents and checksum, and what follows it.
#[tactic(auto, unfolding(crate::specs::Frame::framed_record))]
fn framed_record(
    total: u32,
    number: u32,
    len: u16,
    bytes: &[u8],
) -> Result<(&[u8], &[u8]), ObjError>
    requires { 0 < len }
    ensures value { Reads (λ x. (x.0.now, x.1.now)) result (framed_record total number len bytes.now) }
    ensures shorter { IfOk result (λ x. length x.1.now < length bytes.now) }
{
    let end = 2 + usize::from(len);
    if bytes.len() < end {
        return Err(ObjError::O1 { at: total });
    }
    let (front, rest) = bytes.split_at(end);
    summed(total, number, front, rest)
}

// The contents of a record of any type, and what follows it.
#[tactic(auto, unfolding(crate::specs::Frame::lengthed))]
fn lengthed(total: u32, number: u32, bytes: &[u8]) -> Result<(&[u8], &[u8]), ObjError>
    ensures value { Reads (λ x. (x.0.now, x.1.now)) result (lengthed total number bytes.now) }
    ensures shorter { IfOk result (λ x. length x.1.now < length bytes.now) }
{
    match bytes {
        [_, low, high, ..] => {
            let len = LittleEndian::read_u16(&[*low, *high]);
            if len == 0 {
                return Err(broken(total, &bytes[1..]));
            }
            framed_record(total, number, len, bytes)
        }
        _ => Err(ObjError::O1 { at: total }),
    }
}

/// The contents of the record of that type at the beginning of the bytes, and the bytes after it. They end with the
/// file, at its total length; the record has that number.
///
/// Errors, in this order: O1 where there is no byte, O3 where the type is another, O1 where the length is cut off, O4
/// where it is 0, O1 where a later byte is missing, O2 where the checksum is wrong.
///
/// Source: OMF-51.
#[tactic(auto, unfolding(crate::specs::Frame::record_at))]
pub fn record_at(
    record_type: u8,
    total: u32,
    number: u32,
    bytes: &[u8],
) -> Result<(&[u8], &[u8]), ObjError>
    ensures value { Reads (λ x. (x.0.now, x.1.now)) result (record_at record_type total number bytes.now) }
    ensures shorter { IfOk result (λ x. length x.1.now < length bytes.now) }
{
    match bytes {
        [] => Err(ObjError::O1 { at: total }),
        [first, ..] => {
            if *first == record_type {
                lengthed(total, number, bytes)
            } else {
                Err(ObjError::O3 {
                    at: offset_of(total, bytes),
                })
            }
        }
    }
}

/// Where the contents of a record end: at its checksum. The bytes after the record are given.
///
/// Source: own choice ("Places in object files").
pub fn checksum_place(total: u32, after: &[u8]) -> u32
    ensures { result ≡ checksum_place total after.now }
{
    offset_of(total, after).saturating_sub(1)
}

/// Appends a record of the type with these contents, which must be fewer than 65,535 bytes. Error: out of memory;
/// the bytes are unspecified then.
///
/// Source: OMF-51.
pub fn put_record(out: &mut Vec<u8>, record_type: u8, contents: &[u8]) -> Result<(), NoMemory>
    requires { length contents.now < 65535 }
    ensures { OnOk result (out.new.items ≡ out.old.items ++ record_of record_type contents.now) }
{
    let from = out.len();
    out.push(record_type)?;
    put_pair(out, contents.len() as u16 + 1)?;
    out.extend_from_slice(contents)?;
    let sum = checksum(&out[from..]);
    out.push(sum)?;
    Ok(())
}

/// The bytes of a record of the type with these contents, which must be fewer than 65,535 bytes: the type, the length
/// of what follows it in two bytes, the contents and the checksum. Error: out of memory.
///
/// Source: OMF-51.
pub fn record_bytes(alloc: Global, record_type: u8, contents: &[u8]) -> Result<Vec<u8>, NoMemory>
    requires { length contents.now < 65535 }
    ensures { IfOk result (λ bytes. bytes.items ≡ record_of record_type contents.now) }
{
    let mut out = Vec::new(alloc);
    put_record(&mut out, record_type, contents)?;
    Ok(out)
}
