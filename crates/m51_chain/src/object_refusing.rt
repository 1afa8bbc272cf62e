//! Refusals of objects, libraries and edits, with their texts.
ghost use Rattle.std.specs.Prelude.{◌≡◌, ◌++◌, IfOk, Some, decimal, option_map};
ghost use Rattle.m51_module.specs.Library.{refusal_of as library_refusal};
ghost use Rattle.m51_frame.specs.Fields.{record_refusal as object_refusal};
ghost use Rattle.m51_chain.specs.Outcome.{stopped};
ghost use Rattle.m51_chain.specs.Refusals.{edit_outcome, edit_refused, file_refused, full, library_outcome};
ghost use Rattle.m51_chain.specs.Refusals.{object_outcome, object_words};

use crate::refusing::{bytes_of, joined_texts, refuse};
use crate::work::{Reason, Stop};
use m51_cells::{Bytes, Name, NoMemory, hex2};
use m51_module::{LibError, ObjError};
use std::alloc::Global;

// A file is refused, for this.
pub(crate) fn refuse_file(alloc: Global, file: &str, words: &[u8]) -> Result<Stop, NoMemory>
    ensures { IfOk result (λ stop. stopped stop ≡ Some (file_refused file.now words.now)) }
{
    refuse(
        alloc,
        Reason::Object,
        &[b"OBJECT ", file.as_bytes(), b": ", words, b"\n"],
    )
}

// An edit is refused, for this.
fn refuse_edit_for(alloc: Global, words: &[u8]) -> Result<Stop, NoMemory>
    ensures { IfOk result (λ stop. stopped stop ≡ Some (edit_refused words.now)) }
{
    refuse(alloc, Reason::Object, &[b"LIBRARY ", words, b"\n"])
}

// A library is full.
fn refuse_full(alloc: Global) -> Result<Stop, NoMemory>
    ensures { IfOk result (λ stop. stopped stop ≡ Some full) }
{
    refuse(alloc, Reason::Limit, &[b"LIMIT MODULES 255\n"])
}

// A rule and a number.
pub(crate) fn numbered(alloc: Global, rule: &str, number: u32) -> Result<Bytes, NoMemory>
    ensures { IfOk result (λ words. words ≡ rule.now ++ decimal number) }
{
    let text = format!(in alloc; "{rule}{number}")?;
    bytes_of(alloc, text.as_bytes())
}

// A wrong checksum.
fn checksum_words(alloc: Global, record_no: u32, found: u8, needed: u8) -> Result<Bytes, NoMemory>
    ensures { IfOk result (λ words. words ≡ object_words (ObjError.O2 record_no found needed)) }
{
    let rule = numbered(alloc, "O2 RECORD ", record_no)?;
    let found = hex2(found);
    let needed = hex2(needed);
    joined_texts(
        alloc,
        &[rule.as_slice(), b" FOUND ", &found, b" NEEDED ", &needed],
    )
}

// What is wrong with an object, and where.
fn object_words(alloc: Global, error: &ObjError) -> Result<Bytes, NoMemory>
    ensures { IfOk result (λ words. words ≡ object_words error.now) }
{
    match error {
        ObjError::O1 { at } => numbered(alloc, "O1 AT ", *at),
        ObjError::O2 {
            record_no,
            found,
            needed,
        } => checksum_words(alloc, *record_no, *found, *needed),
        ObjError::O3 { at } => numbered(alloc, "O3 AT ", *at),
        ObjError::O4 { at } => numbered(alloc, "O4 AT ", *at),
        ObjError::O5 { at } => numbered(alloc, "O5 AT ", *at),
        ObjError::Memory => Ok(Bytes::new(alloc)),
    }
}

// The object of this name is refused.
pub(crate) fn object_refused(alloc: Global, file: &str, error: &ObjError) -> Result<Stop, NoMemory>
    ensures { IfOk result (λ stop. stopped stop ≡ Some (object_outcome file.now error.now)) }
{
    let words = object_words(alloc, error)?;
    refuse_file(alloc, file, words.as_slice())
}

// The same, where out of memory is no refusal.
pub(crate) fn refuse_object(alloc: Global, file: &str, error: &ObjError) -> Result<Stop, NoMemory>
    ensures { IfOk result (λ stop. stopped stop ≡ option_map (object_outcome file.now) (object_refusal error.now)) }
{
    match error {
        ObjError::Memory => Ok(Stop::Memory),
        _ => object_refused(alloc, file, error),
    }
}

// A file is refused at a name.
fn refuse_file_at(alloc: Global, file: &str, rule: &[u8], name: &Name) -> Result<Stop, NoMemory>
    ensures { IfOk result (λ stop. stopped stop ≡ Some (file_refused file.now (rule.now ++ name.now))) }
{
    let words = joined_texts(alloc, &[rule, name.bytes()])?;
    refuse_file(alloc, file, words.as_slice())
}

// The library of this name is refused.
pub(crate) fn library_refused(alloc: Global, file: &str, error: &LibError) -> Result<Stop, NoMemory>
    ensures { IfOk result (λ stop. stopped stop ≡ Some (library_outcome file.now error.now)) }
{
    match error {
        LibError::B1 { name } => refuse_file_at(alloc, file, b"B1 ", name),
        LibError::B2 { name } => refuse_file_at(alloc, file, b"B2 ", name),
        LibError::B3 { name } => refuse_file_at(alloc, file, b"B3 ", name),
        LibError::Object(error) => object_refused(alloc, file, error),
        LibError::Full | LibError::Memory => refuse_full(alloc),
    }
}

// The same, where out of memory is no refusal.
pub(crate) fn refuse_library(alloc: Global, file: &str, error: &LibError) -> Result<Stop, NoMemory>
    ensures { IfOk result (λ stop. stopped stop ≡ option_map (library_outcome file.now) (library_refusal error.now)) }
{
    match error {
        LibError::Memory => Ok(Stop::Memory),
        _ => library_refused(alloc, file, error),
    }
}

// An edit is refused at a name.
fn refuse_edit_at(alloc: Global, rule: &[u8], name: &Name) -> Result<Stop, NoMemory>
    ensures { IfOk result (λ stop. stopped stop ≡ Some (edit_refused (rule.now ++ name.now))) }
{
    let words = joined_texts(alloc, &[rule, name.bytes()])?;
    refuse_edit_for(alloc, words.as_slice())
}

// An edit of a library is refused.
pub(crate) fn refuse_edit(alloc: Global, error: &LibError) -> Result<Stop, NoMemory>
    ensures { IfOk result (λ stop. stopped stop ≡ option_map edit_outcome (library_refusal error.now)) }
{
    match error {
        LibError::B1 { name } => refuse_edit_at(alloc, b"B1 ", name),
        LibError::B2 { name } => refuse_edit_at(alloc, b"B2 ", name),
        LibError::B3 { name } => refuse_edit_at(alloc, b"B3 ", name),
        LibError::Full => refuse_full(alloc),
        LibError::Object(error) => {
            let words = object_words(alloc, error)?;
            refuse_edit_for(alloc, words.as_slice())
        }
        LibError::Memory => Ok(Stop::Memory),
    }
}
