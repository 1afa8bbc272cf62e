//! How many bytes lines give.
ghost use Rattle.std.specs.Prelude.{◌≡◌, ℕ, ◌*◌, length, map, option_map, unwrap_or};
ghost use Rattle.m51_expr.specs.Meanings.{Meanings};
ghost use Rattle.m51_expr.specs.Operand.{item_tree};
ghost use Rattle.m51_stmt.specs.Statement.{body_tree};
ghost use Rattle.m51_isa.specs.declared.generics.Jump.{Jump};
ghost use Rattle.m51_isa.specs.Table.{length_of};
ghost use Rattle.m51_emit.specs.Lines.{row_by};
ghost use Rattle.m51_emit.specs.Sizes.{item_size, items_size};
ghost use Rattle.m51_asm.specs.SegmentTable.{saturated};
ghost use Rattle.m51_asm.specs.Fitting.{size_by};
ghost use Rattle.m51_asm.specs.Operands.{operand_number};

use m51_expr::Item;
use m51_isa::{Instr, length};
use m51_stmt::Body;

fn item_size(item: &Item) -> usize
    ensures { result ≡ item_size (item_tree item.now) }
{
    match item {
        Item::Value(_) => 1,
        Item::Text(characters) => characters.as_slice().len(),
    }
}

// How many bytes the items of DB give.
fn items_size(items: &[Item]) -> u64
    ensures { result ≡ saturated (items_size (map item_tree items.now)) }
{
    match items {
        [first, rest @ ..] => (item_size(first) as u64).saturating_add(items_size(rest)),
        [] => 0,
    }
}

// The length of a row, 0 where there is none.
fn row_len(row: &Option<Instr>) -> u64
    ensures { result ≡ saturated (unwrap_or (option_map length_of row.now) 0) }
{
    match row {
        Some(row) => u64::from(length(row)),
        None => 0,
    }
}

/// How many bytes a line gives, in BIT bits. The row is that of its instruction, the number that of its operand.
#[tactic(auto, unfolding(m51_encode::specs::Coding::length_of))]
pub(crate) fn size_by(row: &Option<Instr>, number: u16, body: &Body) -> u64
    ensures { (names : Meanings) (form : Jump) → row.now ≡ row_by form (body_tree body.now)
        → number ≡ operand_number names (body_tree body.now)
        → result ≡ saturated (size_by names form (body_tree body.now)) }
{
    match body {
        Body::Code(_, _) => row_len(row),
        Body::Db(items) => items_size(items.as_slice()),
        Body::Dw(items) => (items.as_slice().len() as u64).saturating_mul(2),
        Body::Ds(_) | Body::Dbit(_) => u64::from(number),
        _ => 0,
    }
}
