//! What the records of segments, externals, publics, pieces and fixups have in common: one loop reads them, one writes
//! them.
ghost use Rattle.std.specs.Prelude.{◌≡◌, ◌<◌, ◌≤◌, ◌+◌, ◌^◌, ◌++◌, ◌∷◌, [], ℕ, List, Result, IfOk, OnOk, length};
ghost use Rattle.std.specs.List.{All, flat_map};
ghost use Rattle.m51_module.specs.declared.object_error.ObjError.{ObjError};
ghost use Rattle.m51_frame.specs.Fields.{Reads};
ghost use Rattle.m51_frame.specs.Frame.{record_of};
ghost use Rattle.m51_records.specs.Reading.{all_at};

use m51_cells::NoMemory;
use m51_frame::{begins, checksum_place, put_record, record_at};
use m51_module::ObjError;
use std::alloc::Global;

/// What has a record of its own.
///
/// Source: own choice ("Object records").
pub(crate) trait Record: Drop {
    ghost TYPE: { ℕ };

    ghost spelled: { Self → List ℕ };

    ghost is_short: { Self → Type 0 };

    /// The type of the record.
    const TYPE: u8;

    /// The contents of its record.
    fn contents(&self, alloc: Global) -> Result<Vec<u8>, NoMemory>
        requires { is_short self.now }
        ensures value { IfOk result (λ contents. contents.items ≡ spelled self.now) }
        ensures short { IfOk result (λ contents. length contents.items < 65535) };
}

/// Reads the records of one type, one after another: it has what they may name, and keeps what it must know of those
/// before.
///
/// Source: own choice ("Object records").
pub(crate) trait Reader: Drop {
    type Item: Record;

    ghost reads: { Self → List Self.Item → ℕ → List ℕ → Result Self.Item ObjError };

    ghost knows: { Self → List Self.Item → Type 0 };

    /// The item whose record has these contents: they end at that offset, and these items come before it.
    fn read(
        &mut self,
        alloc: Global,
        before: &[Self::Item],
        end: u32,
        contents: &[u8],
    ) -> Result<Self::Item, ObjError>
        requires { knows self.old before.now }
        ensures value { Reads (λ x. x) result (reads self.old before.now end contents.now) }
        ensures same { IfOk result (λ x. reads self.new ≡ reads self.old) }
        ensures knows { IfOk result (λ x. knows self.new (before.now ++ x ∷ [])) };
}

// Appends an item.
fn push<T: Drop>(items: &mut Vec<T>, item: T) -> Result<(), NoMemory>
    ensures { OnOk result (items.new.items ≡ items.old.items ++ item ∷ []) }
{
    items.push(item)?;
    Ok(())
}

/// The items whose records of that type come first in the bytes, and the bytes after them. They end with the
/// file, at its total length; the first record has that number.
///
/// Errors: those of the frame of a record and of its fields; out of memory.
pub(crate) fn read_records<R: Reader>(
    alloc: Global,
    record_type: u8,
    reader: R,
    total: u32,
    number: u32,
    bytes: &[u8],
) -> Result<(Vec<R::Item>, &[u8]), ObjError>
    requires fits { number + length bytes.now < 2 ^ 32 }
    requires knows { R.knows reader [] }
    ensures value { Reads (λ x. (x.0.items, x.1.now)) result
        (all_at record_type (R.reads reader) total number bytes.now) }
    ensures few { IfOk result (λ x. length x.0.items + length x.1.now ≤ length bytes.now) }
{
    let mut state = reader;
    let mut items = Vec::new(alloc);
    let mut rest = bytes;
    while begins(record_type, rest) {
        let record_no = number + items.len() as u32;
        let (contents, after) = record_at(record_type, total, record_no, rest)?;
        let end = checksum_place(total, after);
        let item = state.read(alloc, &items, end, contents)?;
        push(&mut items, item)?;
        rest = after;
    }
    Ok((items, rest))
}

// Appends the record of an item.
fn write_record<T: Record>(alloc: Global, out: &mut Vec<u8>, item: &T) -> Result<(), NoMemory>
    requires { T.is_short item.now }
    ensures { OnOk result (out.new.items ≡ out.old.items ++ record_of T.TYPE (T.spelled item.now)) }
{
    let contents = item.contents(alloc)?;
    put_record(out, T::TYPE, &contents)
}

/// Appends the record of each item. Error: out of memory.
///
/// Source: own choice ("Object records").
pub(crate) fn write_records<T: Record>(
    alloc: Global,
    out: &mut Vec<u8>,
    items: &[T],
) -> Result<(), NoMemory>
    requires { All T.is_short items.now }
    ensures { OnOk result (out.new.items ≡ out.old.items ++ flat_map (λ x. record_of T.TYPE (T.spelled x)) items.now) }
{
    for item in items {
        write_record(alloc, out, item)?;
    }
    Ok(())
}
