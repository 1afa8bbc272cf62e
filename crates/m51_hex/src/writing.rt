//! Writes the HEX file of an image.
ghost use Rattle.std.specs.Prelude.{◌≡◌, ◌<◌, ◌++◌, All, flat_map, length, IfOk, OnOk};
ghost use Rattle.m51_hex.specs.Record.{line_of_record, seen};
ghost use Rattle.m51_hex.specs.Writing.{IsRunWithin, count_of_records, record_at, records_of, hex_of};

use crate::records::{HexRecord, RecordType, push_record};
use m51_cells::NoMemory;
use m51_module::{Image, Run, Runs};
use std::alloc::Global;

// The record of that number of a run.
#[tactic(auto, unfolding(crate::specs::Writing::record_at))]
fn record_at<'a>(image: &'a [u8], run: &Run, number: u32) -> HexRecord<'a>
    requires whole { length image.now ≡ 0x10000 }
    requires within { IsRunWithin run.now }
    requires number { number < count_of_records run.now }
    ensures is { seen result ≡ record_at image.now run.now number }
    ensures short { length result.bytes.now < 256 }
{
    let first = u32::from(run.first) + 16 * number;
    let end = u32::from(run.first) + run.len;
    let bytes = &image[first as usize..end.min(first + 16) as usize];
    HexRecord {
        kind: RecordType::Data,
        address: first as u16,
        bytes,
    }
}

// Appends the lines of a run.
#[tactic(auto, using(crate::proofs::Spelling::first_lines_more), unfolding(crate::specs::Writing::records_of))]
fn push_run(text: &mut Vec<u8>, image: &[u8], run: &Run) -> Result<(), NoMemory>
    requires whole { length image.now ≡ 0x10000 }
    requires within { IsRunWithin run.now }
    ensures { OnOk result (text.new.items ≡ text.old.items ++ flat_map line_of_record (records_of image.now run.now)) }
{
    for number in 0..run.len.div_ceil(16) {
        push_record(text, &record_at(image, run, number))?;
    }
    Ok(())
}

/// The HEX file of an image: each run is cut into records of 16 bytes from its start, of which the last may have fewer,
/// and a record of type 01 ends the file. Digits are upper case, and each line ends in a line feed.
///
/// Bytes outside the runs are not written. Runs are written as they are given, whether or not they ascend or meet.
///
/// Condition: each run ends at 10000H or below.
///
/// Error: out of memory.
///
/// Source: Intel HEX.
#[tactic(auto, unfolding(crate::specs::Writing::hex_of))]
pub fn write_hex(alloc: Global, image: &Image, written: &Runs) -> Result<Vec<u8>, NoMemory>
    requires { All IsRunWithin written.now }
    ensures { IfOk result (λ text. text.items ≡ hex_of image.now written.now) }
{
    let mut text = Vec::new(alloc);
    let bytes = image.bytes();
    for run in written.as_slice() {
        push_run(&mut text, bytes, run)?;
    }
    let last = HexRecord {
        kind: RecordType::EndOfFile,
        address: 0,
        bytes: &[],
    };
    push_record(&mut text, &last)?;
    Ok(text)
}
