//! What the items of DB and DW give.
ghost use Rattle.std.specs.Prelude.{◌≡◌, ◌++◌, map, IfOk, OnOk};
ghost use Rattle.m51_expr.specs.Operand.{item_tree};
ghost use Rattle.m51_encode.specs.Items.{item_field};
ghost use Rattle.m51_emit.specs.Content.{item_outcome, references_in, item_given, item_content, later};
ghost use Rattle.m51_emit.specs.Content.{followed_by, joined};
ghost use Rattle.m51_emit.specs.Counting.{counted};
ghost use Rattle.m51_emit.specs.Lines.{given};
ghost use Rattle.m51_emit.specs.Growing.{content_in};

use crate::content::{EmittedContent, LineContent, ReferenceAt, References};
use crate::counting::{FixupCount, counted, none_of};
use m51_cells::{Bytes, NoMemory};
use m51_encode::{CodingError, FieldValue, Numbered, OperandOutcome, Width, item_field, push_item};
use m51_expr::Item;
use std::alloc::Global;

/// What a line gives, as it grows item by item.
#[derive(Drop)]
pub(crate) struct GrowingContent {
    bytes: Vec<u8>,
    references: Vec<ReferenceAt>,
    count: FixupCount,
}

// The outcome of an item with this field.
fn item_outcome(field: &Result<Option<FieldValue>, CodingError>) -> OperandOutcome
    ensures { result ≡ item_outcome field.now }
{
    match field {
        Ok(Some(FieldValue::Linked(_))) => OperandOutcome::Fixes,
        Ok(_) => OperandOutcome::Stands,
        Err(error) => OperandOutcome::Faulty(error.number),
    }
}

// The reference of a field that begins at this byte, if it has one.
fn push_reference(
    references: &mut Vec<ReferenceAt>,
    byte: usize,
    held: Option<FieldValue>,
) -> Result<(), NoMemory>
    ensures { OnOk result (references.new.items ≡ references.old.items ++ map (later byte) (references_in held)) }
{
    if let Some(FieldValue::Linked(reference)) = held {
        references.push((byte, reference))?;
    }
    Ok(())
}

// What an item gives whose field is this one.
fn push_given(
    growing: &mut GrowingContent,
    width: Width,
    item: &Item,
    field: Result<Option<FieldValue>, CodingError>,
) -> Result<(), NoMemory>
    ensures content { OnOk result (content_in growing.new
        ≡ followed_by (content_in growing.old) (item_given width (item_tree item.now) field)) }
    ensures count { OnOk result (growing.new.count ≡ growing.old.count) }
{
    if let Ok(held) = field {
        push_reference(&mut growing.references, growing.bytes.len(), held)?;
        push_item(&mut growing.bytes, width, item, held)?;
    }
    Ok(())
}

// Appends what one more item gives.
fn push<N: Numbered>(
    growing: &mut GrowingContent,
    names: &N,
    width: Width,
    item: &Item,
) -> Result<(), NoMemory>
    ensures content { OnOk result (content_in growing.new
        ≡ followed_by (content_in growing.old) (item_content (N.meanings names.now) width (item_tree item.now))) }
    ensures count { OnOk result (growing.new.count
        ≡ counted growing.old.count (item_outcome (item_field (N.meanings names.now) width (item_tree item.now)))) }
{
    let field = item_field(names, width, item);
    growing.count = counted(growing.count, item_outcome(&field));
    push_given(growing, width, item, field)
}

// What the line gives with the items so far.
fn line_of(growing: GrowingContent) -> LineContent
    ensures { result ≡ record {
      content = content_in growing;
      fault = growing.count.fault;
      made = growing.count.made;
    } }
{
    let GrowingContent {
        bytes,
        references,
        count,
    } = growing;
    LineContent {
        content: EmittedContent {
            bytes: Bytes::of(bytes),
            references: References::of(references),
        },
        fault: count.fault,
        made: count.made,
    }
}

/// What the items of DB or DW give, with `made` fixups before them.
pub(crate) fn items_content<N: Numbered>(
    alloc: Global,
    names: &N,
    width: Width,
    items: &[Item],
    made: usize,
) -> Result<LineContent, NoMemory>
    ensures { let names = N.meanings names.now in let items = map item_tree items.now in
        IfOk result (λ line. line ≡ given (joined (map (item_content names width) items)) made
        (map (λ item. item_outcome (item_field names width item)) items)) }
{
    let mut growing = GrowingContent {
        bytes: Vec::new(alloc),
        references: Vec::new(alloc),
        count: none_of(made),
    };
    for item in items {
        push(&mut growing, names, width, item)?;
    }
    Ok(line_of(growing))
}
