//! The listing of a source: its lines and those of its includes, and the rows that name them.
ghost use Rattle.std.specs.Prelude.{◌≡◌, ◌<◌, ◌≤◌, ◌-◌, ◌++◌, [], OnOk, IfOk, All, map, flat_map, length};
ghost use Rattle.std.specs.List.{slice_index_or};
ghost use Rattle.std.specs.Str.Lines.{lines};
ghost use Rattle.m51_print.specs.Lent.{texts, file_texts};
ghost use Rattle.m51_print.specs.Listing.{lines_of_files, line_text, listed_row, listing_of, IsRowOf, AreOf};

use crate::rows::push_row;
use m51_cells::{NoMemory, lines};
use m51_module::{Row, Rows, SourceFile};
use std::alloc::Global;

// The lines of a file.
fn lines_of_file<'a>(alloc: Global, file: &'a SourceFile) -> Result<Vec<&'a [u8]>, NoMemory>
    ensures { IfOk result (λ found. file_texts found ≡ lines file.now.bytes) }
{
    lines(alloc, file.bytes.as_slice())
}

// The lines of each file, the source first.
fn lines_of_files<'a>(
    alloc: Global,
    source: &'a SourceFile,
    includes: &'a [SourceFile],
) -> Result<Vec<Vec<&'a [u8]>>, NoMemory>
    ensures { IfOk result (λ files. map file_texts files.items ≡ lines_of_files source.now includes.now) }
{
    let mut files = Vec::new(alloc);
    files.push(lines_of_file(alloc, source)?)?;
    for include in includes {
        files.push(lines_of_file(alloc, include)?)?;
    }
    Ok(files)
}

// The lines of the file of that number.
fn file_lines<'b, 'a>(files: &'b [Vec<&'a [u8]>], file: u16) -> &'b [&'a [u8]]
    requires { file < length files.now }
    ensures { texts result.now ≡ slice_index_or (map file_texts files.now) file [] }
{
    files[usize::from(file)].as_slice()
}

// The line of that number, counted from 1.
#[tactic(auto, using(crate::proofs::Columns::text_at))]
fn numbered<'a>(lines: &[&'a [u8]], number: u32) -> &'a [u8]
    requires first { 0 < number }
    requires last { number ≤ length lines.now }
    ensures { result.now ≡ slice_index_or (texts lines.now) (number - 1) [] }
{
    lines[number as usize - 1]
}

// The text of the line that a row names.
fn line_text<'a>(files: &[Vec<&'a [u8]>], row: &Row) -> &'a [u8]
    requires { IsRowOf (map file_texts files.now) row.now }
    ensures { result.now ≡ line_text (map file_texts files.now) row.now }
{
    numbered(file_lines(files, row.file), row.line)
}

// Appends the line of a row of these files.
#[tactic(auto, unfolding(crate::specs::Listing::listed_row))]
fn push_listed(text: &mut Vec<u8>, files: &[Vec<&[u8]>], row: &Row) -> Result<(), NoMemory>
    requires { IsRowOf (map file_texts files.now) row.now }
    ensures { OnOk result (text.new.items ≡ text.old.items ++ listed_row (map file_texts files.now) row.now) }
{
    push_row(text, row, line_text(files, row))
}

// Appends the lines of rows.
fn push_rows(text: &mut Vec<u8>, files: &[Vec<&[u8]>], rows: &[Row]) -> Result<(), NoMemory>
    requires { All (IsRowOf (map file_texts files.now)) rows.now }
    ensures { OnOk result (text.new.items
        ≡ text.old.items ++ flat_map (listed_row (map file_texts files.now)) rows.now) }
{
    for row in rows {
        push_listed(text, files, row)?;
    }
    Ok(())
}

/// The listing of a source: a line for each row, which ends in a line feed. It has the number of the row's line
/// right-aligned in 5 columns, the place in four hexadecimal digits or 4 blanks, the bytes that count left-aligned in 6
/// columns, `*` where a fixup lies in the statement, and the text of the line; a blank follows the number, the place
/// and the sign.
///
/// A row of file 0 is of the source, a row of file `k` of the `k`-th include. Condition: each row names a given file
/// and a line of it, and has 0 to 3 bytes. Error: out of memory.
///
/// Source: own choice ("Listing").
#[tactic(auto, unfolding(crate::specs::Listing::listing_of))]
pub fn listing(
    alloc: Global,
    source: &SourceFile,
    includes: &[SourceFile],
    rows: &Rows,
) -> Result<Vec<u8>, NoMemory>
    requires { AreOf source.now includes.now rows.now }
    ensures { IfOk result (λ text. text.items ≡ listing_of source.now includes.now rows.now) }
{
    let files = lines_of_files(alloc, source, includes)?;
    let mut text = Vec::new(alloc);
    push_rows(&mut text, &files, rows.as_slice())?;
    Ok(text)
}
