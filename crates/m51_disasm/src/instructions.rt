//! Instructions at addresses: which can be written, and where they lead.
ghost use Rattle.std.specs.Prelude.{◌≡◌, ◌<◌, ◌≤◌, ◌+◌, ◌%◌, length, slice_index, true, IfSome};
ghost use Rattle.m51_isa.specs.Table.{length_of};
ghost use Rattle.m51_isa.specs.Targets.{target_of as target_by_row};
ghost use Rattle.m51_isa.specs.Spelling.{text_in, text_of, field_in};
ghost use Rattle.m51_disasm.specs.Statements.{instr_in_image, ends_inside, leads_inside};
ghost use Rattle.m51_disasm.specs.Statements.{stays_inside, all_inside, can_stand};
ghost use Rattle.m51_disasm.specs.Statements.{statement_target};

use crate::statement::{Content, Statement};
use m51_isa::{
    Field, FieldSlot, Instr, Slot, Spelling, decode, length, next_of, spelling_of,
    target_of as target_of_row,
};

// The addresses of program memory.
const ADDRESSES: u32 = 65536;

// The byte at the address; 0 past the end.
fn byte_at(image: &[u8], at: usize) -> u8
    ensures { result ≡ slice_index image.now at }
{
    image.get(at).copied().unwrap_or(0)
}

/// The instruction that begins at the address.
#[tactic(auto, unfolding(crate::specs::Statements::instr_in_image))]
pub(crate) fn instr_in_image(image: &[u8], at: u16) -> Option<Instr>
    ensures { result ≡ instr_in_image image.now at }
{
    let at = usize::from(at);
    decode([
        byte_at(image, at),
        byte_at(image, at + 1),
        byte_at(image, at + 2),
    ])
}

// Whether the distance leads to an address of program memory.
fn ends_inside(next: u32, rel: u32) -> bool
    requires next { next ≤ 65538 }
    requires rel { rel < 65536 }
    ensures { result ≡ ends_inside next rel }
{
    if rel < 128 {
        next + rel < ADDRESSES
    } else {
        256 <= next + rel
    }
}

// Whether a field can be written with this next address.
#[tactic(auto, unfolding(crate::specs::Statements::leads_inside))]
fn leads_inside(next: u32, field: &FieldSlot) -> bool
    requires { next ≤ 65538 }
    ensures { result ≡ leads_inside next field.now.field field.now.number }
{
    match field.field {
        Field::Rel => next < ADDRESSES && ends_inside(next, u32::from(field.number)),
        Field::Addr11 => next < ADDRESSES,
        Field::Data | Field::Data16 | Field::Direct | Field::Bit | Field::Addr16 => true,
    }
}

// The same of an operand, where it has a field.
fn stays_inside(next: u32, slot: &Slot) -> bool
    requires { next ≤ 65538 }
    ensures { result ≡ stays_inside next (field_in slot.now) }
{
    match slot.field() {
        Some(field) => leads_inside(next, &field),
        None => true,
    }
}

// The same of all operands.
fn all_inside(next: u32, spelling: &Spelling) -> bool
    requires { next ≤ 65538 }
    ensures { result ≡ all_inside next (text_in spelling.now) }
{
    stays_inside(next, &spelling.first)
        && stays_inside(next, &spelling.second)
        && stays_inside(next, &spelling.third)
}

/// How many bytes an instruction has, 1 to 3.
pub(crate) fn length_of(instr: &Instr) -> u32
    ensures value { result ≡ length_of instr.now }
    ensures some { 1 ≤ result }
    ensures few { result ≤ 3 }
{
    u32::from(length(instr))
}

/// Whether the instruction at the address of a unit with this end can be written.
#[tactic(auto, unfolding(crate::specs::Statements::can_stand))]
pub(crate) fn can_stand(end: u32, at: u16, instr: &Instr) -> bool
    ensures { result ≡ can_stand end at instr.now }
{
    let next = u32::from(at) + length_of(instr);
    next <= end && all_inside(next, &spelling_of(instr))
}

// The target of an instruction with this next address.
fn target_after(instr: &Instr, next: u16) -> Option<u16>
    ensures value { result ≡ target_by_row instr.now next }
    ensures fits { IfSome result (λ target. target < 65536) }
{
    target_of_row(instr, next)
}

/// The target of a statement; a byte has none.
#[tactic(auto, unfolding(crate::specs::Statements::statement_target))]
pub(crate) fn statement_target(statement: &Statement) -> Option<u16>
    ensures { result ≡ statement_target statement.now }
{
    match &statement.content {
        Content::Byte(_) => None,
        Content::Code(instr) => {
            let next = next_of(instr, statement.at);
            target_after(instr, next)
        }
    }
}
