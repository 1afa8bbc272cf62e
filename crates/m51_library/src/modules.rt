//! The modules of a library's bytes.
ghost use Rattle.std.specs.Prelude.{◌≡◌, ◌<◌, ◌+◌, ◌^◌, [], ◌∷◌, ◌++◌, length, IfOk, OnOk};
ghost use Rattle.std.specs.List.{flat_map};
ghost use Rattle.m51_frame.specs.Fields.{Reads};
ghost use Rattle.m51_records.specs.Spelling.{bytes_of};
ghost use Rattle.m51_records.specs.Reading.{one_at};
ghost use Rattle.m51_library.specs.Spelling.{library_bytes};
ghost use Rattle.m51_library.specs.Reading.{count_in, modules_at, at_end, modules_of};

use m51_cells::MOST_MODULES;
use m51_module::{Module, ObjError};
use m51_records::{
    LIBRARY_HEADER, broken, checksum_place, module_at, offset_of, pair_at, record_at,
};
use std::alloc::Global;

// The number of modules, from the contents of the first record: they end at that offset. O4 where it is over 255, or
// where the contents end before it or continue after it.
#[tactic(auto, unfolding(crate::specs::Reading::count_in))]
fn read_count(end: u32, contents: &[u8]) -> Result<u16, ObjError>
    ensures { Reads (λ count. count) result (count_in end contents.now) }
{
    let (count, rest) = pair_at(end, contents)?;
    if usize::from(count) > MOST_MODULES {
        return Err(broken(end, contents));
    }
    match rest {
        [] => Ok(count),
        _ => Err(broken(end, rest)),
    }
}

// The number of modules, and the bytes after the first record. They end with the file, at its total length.
#[tactic(auto, unfolding(m51_records::specs::Reading::one_at))]
fn count_at(total: u32, bytes: &[u8]) -> Result<(u16, &[u8]), ObjError>
    ensures value { Reads (λ x. (x.0, x.1.now)) result (one_at LIBRARY_HEADER count_in total 0 bytes.now) }
    ensures shorter { IfOk result (λ x. length x.1.now < length bytes.now) }
{
    let (contents, rest) = record_at(LIBRARY_HEADER, total, 0, bytes)?;
    let count = read_count(checksum_place(total, rest), contents)?;
    Ok((count, rest))
}

// `count` modules, one after another, and the bytes after them. They end with the file, at its total length, and the
// next record has that number.
fn modules_at(
    alloc: Global,
    count: u16,
    total: u32,
    number: u32,
    bytes: &[u8],
) -> Result<(Vec<Module>, &[u8]), ObjError>
    requires { number + length bytes.now < 2 ^ 32 }
    ensures value { Reads (λ x. (x.0.items, x.1.now)) result (modules_at count total number bytes.now) }
    ensures so_many { IfOk result (λ x. length x.0.items ≡ count) }
    ensures spelled { IfOk result (λ x. bytes.now ≡ flat_map bytes_of x.0.items ++ x.1.now) }
{
    let mut modules = Vec::new(alloc);
    let mut next = number;
    let mut rest = bytes;
    for _index in 0..count {
        let (member, after, following) = module_at(alloc, total, next, rest)?;
        modules.push(member)?;
        next = following;
        rest = after;
    }
    Ok((modules, rest))
}

// The modules, where nothing follows them; else O3 at the first byte that does.
fn at_end(total: u32, rest: &[u8], modules: Vec<Module>) -> Result<Vec<Module>, ObjError>
    ensures value { Reads (λ modules. modules.items) result (at_end total rest.now modules.items) }
    ensures nothing { IfOk result (λ kept. (kept.items ≡ modules.items) × (rest.now ≡ [])) }
{
    match rest {
        [] => Ok(modules),
        _ => Err(ObjError::O3 {
            at: offset_of(total, rest),
        }),
    }
}

/// The modules of a file: the first record gives their number, and nothing follows them.
///
/// Errors: those of the bytes, in their order: O1, O2 and O3 of the first record, O4 where its number is over 255, cut
/// off or followed by a byte of its contents; those of each module; O3 at the first byte after the last one. Out of
/// memory.
///
/// Source: own choice ("Library files").
#[tactic(auto, unfolding(crate::specs::Reading::modules_of))]
pub(crate) fn modules_of(alloc: Global, bytes: &[u8]) -> Result<Vec<Module>, ObjError>
    requires { length bytes.now < 2 ^ 32 }
    // The modules, or the first refusal.
    ensures value { Reads (λ modules. modules.items) result (modules_of bytes.now) }
    // What is read is spelled so.
    ensures found { IfOk result (λ modules. bytes.now ≡ library_bytes modules.items) }
{
    let total = bytes.len() as u32;
    let (count, rest) = count_at(total, bytes)?;
    let (modules, rest) = modules_at(alloc, count, total, 1, rest)?;
    at_end(total, rest, modules)
}
