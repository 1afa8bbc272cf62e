//! Reads a module: its records in their order.
ghost use Rattle.std.specs.Prelude.{◌≡◌, ◌<◌, ◌≤◌, ◌+◌, ◌-◌, ◌^◌, ◌++◌, ℕ, List, IfOk, Ok, length, take, drop};
ghost use Rattle.m51_module.specs.declared.parts.ModuleParts.{ModuleParts};
ghost use Rattle.m51_module.specs.Validity.{IsValid};
ghost use Rattle.m51_frame.specs.Fields.{Reads};
ghost use Rattle.m51_records.specs.Reading.{segments_at, externals_at, publics_at, pieces_at, fixups_at, module_at};
ghost use Rattle.m51_records.specs.Reading.{read_of};
ghost use Rattle.m51_records.specs.Spelling.{bytes_of, records_in};

use crate::end::read_end;
use crate::external::ExternalReader;
use crate::fixup::FixupReader;
use crate::header::read_header;
use crate::piece::PieceReader;
use crate::public::PublicReader;
use crate::record::read_records;
use crate::seen::SeenNames;
use crate::segment::SegmentReader;
use crate::types::{CONTENT, END, EXTERNAL, FIXUP, HEADER, PUBLIC, SEGMENT};
use m51_cells::ListOf;
use m51_frame::{checksum_place, record_at};
use m51_module::{External, Fixup, Module, ModuleParts, ObjError, Piece, Public, Segment};
use std::alloc::Global;

// The segments of a module of that version at the beginning of the bytes, and the bytes after them. Bytes end with the
// file, at its total length, and the first record has that number.
fn segments_at(
    alloc: Global,
    version: u8,
    total: u32,
    number: u32,
    bytes: &[u8],
) -> Result<(Vec<Segment>, &[u8]), ObjError>
    requires { number + length bytes.now < 2 ^ 32 }
    ensures value { Reads (λ x. (x.0.items, x.1.now)) result (segments_at version total number bytes.now) }
    ensures few { IfOk result (λ x. length x.0.items + length x.1.now ≤ length bytes.now) }
{
    read_records(
        alloc,
        SEGMENT,
        SegmentReader { version },
        total,
        number,
        bytes,
    )
}

// The externals, in the same way.
fn externals_at(
    alloc: Global,
    total: u32,
    number: u32,
    bytes: &[u8],
) -> Result<(Vec<External>, &[u8]), ObjError>
    requires { number + length bytes.now < 2 ^ 32 }
    ensures value { Reads (λ x. (x.0.items, x.1.now)) result (externals_at total number bytes.now) }
    ensures few { IfOk result (λ x. length x.0.items + length x.1.now ≤ length bytes.now) }
{
    let reader = ExternalReader {
        seen: SeenNames::new(alloc),
    };
    read_records(alloc, EXTERNAL, reader, total, number, bytes)
}

// The publics of a module with these segments.
fn publics_at<'a>(
    alloc: Global,
    segments: &[Segment],
    total: u32,
    number: u32,
    bytes: &'a [u8],
) -> Result<(Vec<Public>, &'a [u8]), ObjError>
    requires { number + length bytes.now < 2 ^ 32 }
    ensures value { Reads (λ x. (x.0.items, x.1.now)) result (publics_at segments.now total number bytes.now) }
    ensures few { IfOk result (λ x. length x.0.items + length x.1.now ≤ length bytes.now) }
{
    let reader = PublicReader {
        segments,
        seen: SeenNames::new(alloc),
    };
    read_records(alloc, PUBLIC, reader, total, number, bytes)
}

// The pieces of a module with these segments.
fn pieces_at<'a>(
    alloc: Global,
    segments: &[Segment],
    total: u32,
    number: u32,
    bytes: &'a [u8],
) -> Result<(Vec<Piece>, &'a [u8]), ObjError>
    requires { number + length bytes.now < 2 ^ 32 }
    ensures value { Reads (λ x. (x.0.items, x.1.now)) result (pieces_at segments.now total number bytes.now) }
    ensures few { IfOk result (λ x. length x.0.items + length x.1.now ≤ length bytes.now) }
{
    read_records(
        alloc,
        CONTENT,
        PieceReader { segments },
        total,
        number,
        bytes,
    )
}

// The fixups of a module with these segments, externals and pieces.
fn fixups_at<'a>(
    alloc: Global,
    segments: &[Segment],
    externals: &[External],
    pieces: &[Piece],
    total: u32,
    number: u32,
    bytes: &'a [u8],
) -> Result<(Vec<Fixup>, &'a [u8]), ObjError>
    requires { number + length bytes.now < 2 ^ 32 }
    ensures value { Reads (λ x. (x.0.items, x.1.now)) result
        (fixups_at segments.now externals.now pieces.now total number bytes.now) }
    ensures few { IfOk result (λ x. length x.0.items + length x.1.now ≤ length bytes.now) }
{
    let reader = FixupReader {
        segments,
        externals,
        pieces,
        passed: 0,
    };
    read_records(alloc, FIXUP, reader, total, number, bytes)
}

// The parts of the module at the beginning of the bytes, the number of the record after it, and the bytes after it.
#[tactic(auto, unfolding(crate::specs::Reading::module_at, crate::specs::Reading::one_at))]
fn parts_at(
    alloc: Global,
    total: u32,
    number: u32,
    bytes: &[u8],
) -> Result<(ModuleParts, u32, &[u8]), ObjError>
    requires { number + length bytes.now < 2 ^ 32 }
    ensures value { Reads (λ x. (x.0, x.2.now)) result (module_at total number bytes.now) }
    ensures counted { IfOk result (λ x. x.1 ≡ number + records_in x.0) }
    ensures few { IfOk result (λ x. x.1 + length x.2.now ≤ number + length bytes.now) }
    ensures shorter { IfOk result (λ x. length x.2.now < length bytes.now) }
{
    let (contents, rest) = record_at(HEADER, total, number, bytes)?;
    let (name, version) = read_header(checksum_place(total, rest), contents)?;
    let number = number + 1;
    let (segments, rest) = segments_at(alloc, version, total, number, rest)?;
    let number = number + segments.len() as u32;
    let (externals, rest) = externals_at(alloc, total, number, rest)?;
    let number = number + externals.len() as u32;
    let (publics, rest) = publics_at(alloc, &segments, total, number, rest)?;
    let number = number + publics.len() as u32;
    let (pieces, rest) = pieces_at(alloc, &segments, total, number, rest)?;
    let number = number + pieces.len() as u32;
    let (fixups, rest) = fixups_at(alloc, &segments, &externals, &pieces, total, number, rest)?;
    let number = number + fixups.len() as u32;
    let (contents, rest) = record_at(END, total, number, rest)?;
    let banks = read_end(&name, checksum_place(total, rest), contents)?;
    let parts = ModuleParts {
        name,
        version,
        segments: ListOf::of(segments),
        publics: ListOf::of(publics),
        externals: ListOf::of(externals),
        pieces: ListOf::of(pieces),
        fixups: ListOf::of(fixups),
        banks,
    };
    Ok((parts, number + 1, rest))
}

/// The module at the beginning of the bytes, the bytes after it, and the number of the record after it. The bytes end
/// with the file, at its total length, and the first record of the module has that number. The number and the length of
/// the bytes must add up to less than 4,294,967,296.
///
/// Errors: the first test that fails, record by record and in a record field by field, with its offset in the file.
/// `O1` where the bytes end inside a record or before one that must come; `O2` where a checksum is wrong; `O3` where a
/// record of another type must come; `O4` where a field is cut off, out of range or against a rule; `O5` where a field
/// names a segment or an external that does not exist. `Memory` is the only other error.
///
/// Source: own choice ("Object records").
pub fn module_at(
    alloc: Global,
    total: u32,
    number: u32,
    bytes: &[u8],
) -> Result<(Module, &[u8], u32), ObjError>
    requires { number + length bytes.now < 2 ^ 32 }
    // The module and the bytes after it, or the first refusal.
    ensures value { Reads (λ x. (x.0, x.1.now)) result (module_at total number bytes.now) }
    // What is read is spelled so.
    ensures spelled { IfOk result (λ x. IsValid x.0 × (bytes.now ≡ bytes_of x.0 ++ x.1.now)) }
    // The number grows by the records of the module, and a record has more than one byte.
    ensures next { IfOk result (λ x. x.2 ≡ number + records_in x.0) }
    ensures few { IfOk result (λ x. x.2 + length x.1.now ≤ number + length bytes.now) }
    ensures shorter { IfOk result (λ x. length x.1.now < length bytes.now) }
{
    let (parts, next, rest) = parts_at(alloc, total, number, bytes)?;
    Ok((Module::make(parts), rest, next))
}

// The module at the beginning of a file, and the length of its spelling.
fn front_of(alloc: Global, bytes: &[u8]) -> Result<(Module, usize), ObjError>
    requires { length bytes.now < 2 ^ 32 }
    ensures exact { Reads (λ x. x) result (read_of bytes.now) }
    ensures found { IfOk result (λ x. IsValid x.0 × (take x.1 bytes.now ≡ bytes_of x.0)) }
{
    let (module, rest, _) = module_at(alloc, bytes.len() as u32, 0, bytes)?;
    Ok((module, bytes.len() - rest.len()))
}

/// The module at the beginning of an object file, and the length of its spelling; bytes may follow it. The file must
/// have fewer than 4,294,967,296 bytes.
///
/// Errors: the first test that fails, record by record and in a record field by field. `O1` where the bytes end inside
/// a record or before one that must come; `O2` where a checksum is wrong; `O3` where a record of another type must
/// come; `O4` where a field is cut off, out of range or against a rule; `O5` where a field names a segment or an
/// external that does not exist. `Memory` is the only other error.
///
/// Source: own choice ("Object records").
#[tactic(auto, using(crate::proofs::ModuleLaws::read_again))]
pub fn read_module(alloc: Global, bytes: &[u8]) -> Result<(Module, usize), ObjError>
    requires { length bytes.now < 2 ^ 32 }
    // The module and the length of its spelling, or the first refusal.
    ensures exact { Reads (λ x. x) result (read_of bytes.now) }
    // What is read is spelled so.
    ensures found { IfOk result (λ x. IsValid x.0 × (take x.1 bytes.now ≡ bytes_of x.0)) }
    // What is spelled so is read.
    ensures only { (m : ModuleParts) (rest : List ℕ) → IsValid m → bytes.now ≡ bytes_of m ++ rest
        → Reads (λ x. x) result
        (Ok (m, length (bytes_of m))) }
{
    front_of(alloc, bytes)
}
