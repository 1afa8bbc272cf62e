//! How lines are written.
ghost use Rattle.std.specs.Prelude.{◌≡◌, ◌++◌, ◌∷◌, [], OnOk};
ghost use Rattle.m51_isa.specs.Spelling.{text_in};
ghost use Rattle.m51_disasm.specs.Texts.{target_text, data_text, plain_text, operand_text, operand_after, spelled};
ghost use Rattle.m51_disasm.specs.Texts.{content_text, label_front, statement_text, line_text, text_of_lines};

use crate::line::{SourceLine, StatementLine, Target};
use crate::pushing::{push_byte, push_label, push_register, push_short, push_text, push_word};
use crate::statement::Content;
use m51_cells::NoMemory;
use m51_isa::{Field, FieldSlot, Slot, Spelling, spelling_of};

// A target.
#[tactic(auto, unfolding(crate::specs::Texts::target_text))]
fn push_target(text: &mut Vec<u8>, target: Target) -> Result<(), NoMemory>
    ensures { OnOk result (text.new.items ≡ text.old.items ++ target_text target) }
{
    match target {
        Target::Nowhere => Ok(()),
        Target::Label(address) => push_label(text, address),
        Target::Number(address) => push_word(text, address),
    }
}

// Data after their sign.
#[tactic(auto, unfolding(crate::specs::Texts::data_text))]
fn push_data(text: &mut Vec<u8>, field: &FieldSlot) -> Result<(), NoMemory>
    ensures { OnOk result (text.new.items ≡ text.old.items ++ data_text field.now.field field.now.number) }
{
    match field.field {
        Field::Data16 => push_word(text, field.number),
        _ => push_short(text, field.number),
    }
}

// An address of one byte, or the target.
#[tactic(auto, unfolding(crate::specs::Texts::plain_text))]
fn push_plain(text: &mut Vec<u8>, target: Target, field: &FieldSlot) -> Result<(), NoMemory>
    ensures { OnOk result (text.new.items ≡ text.old.items ++ plain_text target field.now.field field.now.number) }
{
    match field.field {
        Field::Direct | Field::Bit => push_short(text, field.number),
        _ => push_target(text, target),
    }
}

// An operand.
#[tactic(auto, unfolding(crate::specs::Texts::operand_text))]
fn push_operand(text: &mut Vec<u8>, target: Target, slot: &Slot) -> Result<(), NoMemory>
    ensures { OnOk result (text.new.items ≡ text.old.items ++ operand_text target slot.now) }
{
    match slot {
        Slot::Nothing => Ok(()),
        Slot::A => push_text(text, b"A"),
        Slot::Ab => push_text(text, b"AB"),
        Slot::C => push_text(text, b"C"),
        Slot::Dptr => push_text(text, b"DPTR"),
        Slot::APc => push_text(text, b"@A+PC"),
        Slot::ADptr => push_text(text, b"@A+DPTR"),
        Slot::AtDptr => push_text(text, b"@DPTR"),
        Slot::R(register) => push_register(text, b"R", register.number()),
        Slot::AtR(pointer) => push_register(text, b"@R", pointer.number()),
        Slot::Imm(field) => {
            push_text(text, b"#")?;
            push_data(text, field)
        }
        Slot::Plain(field) => push_plain(text, target, field),
        Slot::NotBit(field) => {
            push_text(text, b"/")?;
            push_short(text, field.number)
        }
    }
}

// An operand after a sign, if there is one.
#[tactic(auto, unfolding(crate::specs::Texts::operand_after))]
fn push_after(text: &mut Vec<u8>, sign: &[u8], target: Target, slot: &Slot) -> Result<(), NoMemory>
    ensures { OnOk result (text.new.items ≡ text.old.items ++ operand_after sign.now target slot.now) }
{
    match slot {
        Slot::Nothing => Ok(()),
        _ => {
            push_text(text, sign)?;
            push_operand(text, target, slot)
        }
    }
}

// An instruction.
#[tactic(auto, unfolding(crate::specs::Texts::spelled))]
fn push_spelled(text: &mut Vec<u8>, target: Target, spelling: &Spelling) -> Result<(), NoMemory>
    ensures { OnOk result (text.new.items ≡ text.old.items ++ spelled target (text_in spelling.now)) }
{
    push_text(text, spelling.mnemonic)?;
    push_after(text, b" ", target, &spelling.first)?;
    push_after(text, b",", target, &spelling.second)?;
    push_after(text, b",", target, &spelling.third)
}

// What a statement says.
#[tactic(auto, unfolding(crate::specs::Texts::content_text))]
fn push_content(text: &mut Vec<u8>, target: Target, content: &Content) -> Result<(), NoMemory>
    ensures { OnOk result (text.new.items ≡ text.old.items ++ content_text target content.now) }
{
    match content {
        Content::Byte(byte) => {
            push_text(text, b"DB ")?;
            push_byte(text, *byte)
        }
        Content::Code(instr) => push_spelled(text, target, &spelling_of(instr)),
    }
}

// A label before a statement.
#[tactic(auto, unfolding(crate::specs::Texts::label_front))]
fn push_front(text: &mut Vec<u8>, label: Option<u16>) -> Result<(), NoMemory>
    ensures { OnOk result (text.new.items ≡ text.old.items ++ label_front label) }
{
    match label {
        None => Ok(()),
        Some(address) => {
            push_label(text, address)?;
            push_text(text, b": ")
        }
    }
}

// A statement.
#[tactic(auto, unfolding(crate::specs::Texts::statement_text))]
fn push_statement(text: &mut Vec<u8>, statement: &StatementLine) -> Result<(), NoMemory>
    ensures { OnOk result (text.new.items ≡ text.old.items ++ statement_text statement.now) }
{
    push_front(text, statement.label)?;
    push_content(text, statement.target, &statement.content)
}

// A line, without its end.
#[tactic(auto, unfolding(crate::specs::Texts::line_text))]
fn push_line(text: &mut Vec<u8>, line: &SourceLine) -> Result<(), NoMemory>
    ensures { OnOk result (text.new.items ≡ text.old.items ++ line_text line.now) }
{
    match line {
        SourceLine::Nomod51 => push_text(text, b"$NOMOD51"),
        SourceLine::Segment(base) => {
            push_text(text, b"CSEG AT ")?;
            push_word(text, *base)
        }
        SourceLine::Statement(statement) => push_statement(text, statement),
        SourceLine::End => push_text(text, b"END"),
    }
}

/// A line, with a line feed.
pub(crate) fn push_ended(text: &mut Vec<u8>, line: &SourceLine) -> Result<(), NoMemory>
    ensures { OnOk result (text.new.items ≡ text.old.items ++ text_of_lines (line.now ∷ [])) }
{
    push_line(text, line)?;
    push_text(text, b"\n")
}
