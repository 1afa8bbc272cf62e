//! The items of DB and DW.
ghost use Rattle.std.specs.Prelude.{◌≡◌, ◌++◌, OnOk};
ghost use Rattle.m51_expr.specs.Operand.{item_tree};
ghost use Rattle.m51_encode.specs.Items.{field_of_width, item_field, number_bytes, field_bytes, item_bytes};

use crate::bases::Numbered;
use crate::filling::{CodingError, expression_field};
use crate::reference::FieldValue;
use m51_cells::NoMemory;
use m51_expr::Item;
use m51_isa::Field;

/// How wide the values of a list are.
///
/// Source: ASM51 guide.
#[derive(Clone, Copy, Debug, PartialEq, Eq)]
pub enum Width {
    /// 8 bits: `DB`.
    Byte,
    /// 16 bits: `DW`, the high byte first.
    Word,
}

// The field of a value.
fn field_of_width(width: Width) -> Field
    ensures { result ≡ field_of_width width }
{
    match width {
        Width::Byte => Field::Data,
        Width::Word => Field::Data16,
    }
}

/// What an item gives in its field: a number, or what the linker fills in; none for a text, which has no field. It
/// allocates nothing.
///
/// Errors: E7 to E10 where the item has no value, as [`m51_expr::ExprError`] has them, E14 where its value is out of
/// range.
///
/// Source: own choice ("Fields").
pub fn item_field<N: Numbered>(
    names: &N,
    width: Width,
    item: &Item,
) -> Result<Option<FieldValue>, CodingError>
    ensures { result ≡ item_field (N.meanings names.now) width (item_tree item.now) }
{
    match item {
        Item::Value(expr) => {
            let held = expression_field(names, field_of_width(width), 0, expr)?;
            Ok(Some(held))
        }
        Item::Text(_) => Ok(None),
    }
}

// Appends a number.
fn push_number(out: &mut Vec<u8>, width: Width, number: u16) -> Result<(), NoMemory>
    ensures { OnOk result (out.new.items ≡ out.old.items ++ number_bytes width number) }
{
    match width {
        Width::Byte => out.push((number % 256) as u8)?,
        Width::Word => out.extend_from_slice(&[(number / 256) as u8, (number % 256) as u8])?,
    }
    Ok(())
}

// Appends a field, 0 where the linker fills it in.
fn push_field(out: &mut Vec<u8>, width: Width, held: FieldValue) -> Result<(), NoMemory>
    ensures { OnOk result (out.new.items ≡ out.old.items ++ field_bytes width held) }
{
    match held {
        FieldValue::Number(number) => push_number(out, width, number),
        FieldValue::Linked(_) => push_number(out, width, 0),
    }
}

/// Appends the bytes of an item that gives this in its field, as [`item_field`] has it: of a field one byte or two, 0
/// where the linker fills it in; of a text its characters.
///
/// Error: out of memory.
///
/// Source: ASM51 guide.
pub fn push_item(
    out: &mut Vec<u8>,
    width: Width,
    item: &Item,
    held: Option<FieldValue>,
) -> Result<(), NoMemory>
    ensures { OnOk result (out.new.items ≡ out.old.items ++ item_bytes width (item_tree item.now) held) }
{
    match (item, held) {
        (Item::Text(characters), _) => {
            out.extend_from_slice(characters.as_slice())?;
            Ok(())
        }
        (Item::Value(_), Some(held)) => push_field(out, width, held),
        (Item::Value(_), None) => Ok(()),
    }
}
