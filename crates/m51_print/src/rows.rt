//! The line of a row of a listing.
ghost use Rattle.std.specs.Prelude.{◌≡◌, ◌≤◌, ◌+◌, ◌*◌, ◌++◌, OnOk, flat_map, length, take};
ghost use Rattle.std.specs.Fmt.{decimal};
ghost use Rattle.m51_cells.specs.Hex.{hex2};
ghost use Rattle.m51_print.specs.Listing.{blanks, right_in, left_in, place_text, fixup_sign, content, row_front};
ghost use Rattle.m51_print.specs.Listing.{row_line};

use crate::pushing::push_text;
use crate::putting::{put, put_decimal, put_hex2, put_hex4};
use m51_cells::NoMemory;
use m51_module::Row;

// Puts up to 6 blanks.
#[tactic(auto, using(crate::proofs::Columns::blanks_of))]
fn put_blanks(into: &mut [u8; 128], at: usize, count: usize) -> usize
    requires room { at + count ≤ 128 }
    requires few { count ≤ 6 }
    ensures end { result ≡ at + count }
    ensures written { take result into.new ≡ take at into.old ++ blanks count }
{
    put(into, at, &b"      "[..count])
}

// Puts a word at the start, right-aligned in 5 columns, and a longer one whole.
#[tactic(auto, unfolding(crate::specs::Listing::right_in))]
fn put_right(into: &mut [u8; 128], word: &[u8]) -> usize
    requires { length word.now ≤ 20 }
    ensures bound { result ≤ 20 }
    ensures written { take result into.new ≡ right_in 5 word.now }
{
    let at = put_blanks(into, 0, 5usize.saturating_sub(word.len()));
    put(into, at, word)
}

// Puts the number of a line at the start.
fn put_number(into: &mut [u8; 128], line: u32) -> usize
    ensures bound { result ≤ 20 }
    ensures written { take result into.new ≡ right_in 5 (decimal line) }
{
    let mut digits = [0; 128];
    let end = put_decimal(&mut digits, 0, u64::from(line));
    put_right(into, &digits[..end])
}

// Puts a place, or blanks.
fn put_place(into: &mut [u8; 128], at: usize, place: Option<u16>) -> usize
    requires { at + 4 ≤ 128 }
    ensures end { result ≡ at + 4 }
    ensures written { take result into.new ≡ take at into.old ++ place_text place }
{
    match place {
        None => put_blanks(into, at, 4),
        Some(place) => put_hex4(into, at, place),
    }
}

// Puts the digits of bytes.
fn put_bytes(into: &mut [u8; 128], at: usize, bytes: &[u8]) -> usize
    requires { at + 2 * length bytes.now ≤ 128 }
    ensures end { result ≡ at + 2 * length bytes.now }
    ensures written { take result into.new ≡ take at into.old ++ flat_map hex2 bytes.now }
{
    let mut end = at;
    for byte in bytes {
        end = put_hex2(into, end, *byte);
    }
    end
}

// Puts up to three bytes, left-aligned in 6 columns.
#[tactic(auto, using(crate::proofs::Columns::in_places))]
fn put_content(into: &mut [u8; 128], at: usize, bytes: &[u8]) -> usize
    requires room { at + 6 ≤ 128 }
    requires few { length bytes.now ≤ 3 }
    ensures end { result ≡ at + 6 }
    ensures written { take result into.new ≡ take at into.old ++ left_in 6 (flat_map hex2 bytes.now) }
{
    let end = put_bytes(into, at, bytes);
    put_blanks(into, end, 6 - 2 * bytes.len())
}

// The bytes of a row that count.
fn content(row: &Row) -> &[u8]
    requires { row.now.count ≤ 3 }
    ensures bytes { result.now ≡ content row.now }
    ensures few { length result.now ≤ 3 }
{
    &row.bytes[..usize::from(row.count)]
}

// The sign of a statement in which a fixup lies.
fn fixup_sign(marked: bool) -> &'static [u8]
    ensures sign { result.now ≡ fixup_sign marked }
    ensures len { length result.now ≡ 1 }
{
    if marked { b"*" } else { b" " }
}

// Puts the columns before the text of the line at the start.
#[tactic(auto, unfolding(crate::specs::Listing::row_front))]
fn put_columns(into: &mut [u8; 128], row: &Row) -> usize
    requires { row.now.count ≤ 3 }
    ensures bound { result ≤ 128 }
    ensures written { take result into.new ≡ row_front row.now }
{
    let at = put_number(into, row.line);
    let at = put(into, at, b" ");
    let at = put_place(into, at, row.place);
    let at = put(into, at, b" ");
    let at = put_content(into, at, content(row));
    let at = put(into, at, fixup_sign(row.marked));
    put(into, at, b" ")
}

/// Appends the line of a row, whose line has this text.
#[tactic(auto, unfolding(crate::specs::Listing::row_line))]
pub(crate) fn push_row(text: &mut Vec<u8>, row: &Row, line: &[u8]) -> Result<(), NoMemory>
    requires { row.now.count ≤ 3 }
    ensures { OnOk result (text.new.items ≡ text.old.items ++ row_line row.now line.now) }
{
    let mut columns = [0; 128];
    let end = put_columns(&mut columns, row);
    push_text(text, &columns[..end])?;
    push_text(text, line)?;
    push_text(text, b"\n")
}
