//! The lines of refusals.
ghost use Rattle.std.specs.Prelude.{◌≡◌, ◌≢◌, ◌++◌, OnOk, IfOk, flat_map};
ghost use Rattle.m51_print.specs.Refusals.{after_blank, quantity_word, most_of, limit_text};
ghost use Rattle.m51_print.specs.Refusals.{refusal_words, refusal_text};

use crate::pushing::{push_decimal, push_hex4, push_text};
use m51_cells::{
    MOST_CONTROL_LINES, MOST_FILE_BYTES, MOST_FILES, MOST_MODULE_SEGMENTS, MOST_MODULES,
    MOST_POINTS, MOST_SCRIPT_LINES, MOST_SEGMENTS, MOST_SOURCE_LINES, MOST_UNITS, Name, NoMemory,
};
use m51_module::{Quantity, Refusal};
use std::alloc::Global;

// Appends a name after a blank.
fn push_name(text: &mut Vec<u8>, name: &Name) -> Result<(), NoMemory>
    ensures { OnOk result (text.new.items ≡ text.old.items ++ after_blank name.now) }
{
    push_text(text, b" ")?;
    push_text(text, name.bytes())
}

// Appends each name after a blank.
fn push_names(text: &mut Vec<u8>, names: &[Name]) -> Result<(), NoMemory>
    ensures { OnOk result (text.new.items ≡ text.old.items ++ flat_map after_blank names.now) }
{
    for name in names {
        push_name(text, name)?;
    }
    Ok(())
}

// What a limit is of.
fn quantity_word(what: Quantity) -> &'static [u8]
    ensures { result.now ≡ quantity_word what }
{
    match what {
        Quantity::Files => b"FILES",
        Quantity::Bytes => b"BYTES",
        Quantity::ControlLines => b"CONTROLLINES",
        Quantity::ScriptLines => b"SCRIPTLINES",
        Quantity::Modules => b"MODULES",
        Quantity::Segments => b"SEGMENTS",
        Quantity::Units => b"UNITS",
        Quantity::Parts => b"PARTS",
        Quantity::Lines => b"LINES",
        Quantity::Points => b"POINTS",
    }
}

// The number of a limit.
fn most_of(what: Quantity) -> usize
    ensures { result ≡ most_of what }
{
    match what {
        Quantity::Files => MOST_FILES,
        Quantity::Bytes => MOST_FILE_BYTES,
        Quantity::ControlLines => MOST_CONTROL_LINES,
        Quantity::ScriptLines => MOST_SCRIPT_LINES,
        Quantity::Modules => MOST_MODULES,
        Quantity::Segments => MOST_SEGMENTS,
        Quantity::Units => MOST_UNITS,
        Quantity::Parts => MOST_MODULE_SEGMENTS,
        Quantity::Lines => MOST_SOURCE_LINES,
        Quantity::Points => MOST_POINTS,
    }
}

// Appends what a limit is of, and its number.
fn push_quantity(text: &mut Vec<u8>, what: Quantity) -> Result<(), NoMemory>
    ensures { OnOk result (text.new.items ≡ text.old.items ++ limit_text what) }
{
    push_text(text, quantity_word(what))?;
    push_text(text, b" ")?;
    push_decimal(text, most_of(what) as u64)
}

// Appends a rule of linking and a name.
fn push_named(text: &mut Vec<u8>, rule: &[u8], name: &Name) -> Result<(), NoMemory>
    ensures { OnOk result (text.new.items ≡ text.old.items ++ rule.now ++ after_blank name.now) }
{
    push_text(text, rule)?;
    push_name(text, name)
}

// Appends the control line that does not fit.
fn push_control_line(text: &mut Vec<u8>, line: u32) -> Result<(), NoMemory>
    ensures { OnOk result (text.new.items ≡ text.old.items ++ refusal_words (Refusal.L7 line)) }
{
    push_text(text, b"LINK L7 LINE ")?;
    push_decimal(text, u64::from(line))
}

// Appends the two extents that meet.
fn push_meeting(text: &mut Vec<u8>, one: &Name, two: &Name) -> Result<(), NoMemory>
    ensures { OnOk result (text.new.items ≡ text.old.items ++ refusal_words (Refusal.L9 one.now two.now)) }
{
    push_named(text, b"LINK L9", one)?;
    push_name(text, two)
}

// Appends the units that reach themselves.
fn push_cycle(text: &mut Vec<u8>, units: &[Name]) -> Result<(), NoMemory>
    ensures { OnOk result (text.new.items ≡ text.old.items ++ refusal_words (Refusal.L10 units.now)) }
{
    push_text(text, b"LINK L10")?;
    push_names(text, units)
}

// Appends the unit that lies under two roots, and them.
fn push_shared(text: &mut Vec<u8>, unit: &Name, one: &Name, two: &Name) -> Result<(), NoMemory>
    ensures { OnOk result (text.new.items ≡ text.old.items ++ refusal_words (Refusal.L11 unit.now one.now two.now)) }
{
    push_named(text, b"LINK L11", unit)?;
    push_name(text, one)?;
    push_name(text, two)
}

// Appends the segment of the field whose fixup fails, and the field's offset in it.
fn push_field(text: &mut Vec<u8>, name: &Name, offset: u16) -> Result<(), NoMemory>
    ensures { OnOk result (text.new.items ≡ text.old.items ++ refusal_words (Refusal.L13 name.now offset)) }
{
    push_named(text, b"LINK L13", name)?;
    push_text(text, b" ")?;
    push_hex4(text, offset)
}

/// Appends a limit.
pub(crate) fn push_limit(text: &mut Vec<u8>, what: Quantity) -> Result<(), NoMemory>
    ensures { OnOk result (text.new.items ≡ text.old.items ++ refusal_words (Refusal.Limit what)) }
{
    push_text(text, b"LIMIT ")?;
    push_quantity(text, what)
}

// Appends the words of a refusal.
fn push_refusal(text: &mut Vec<u8>, refusal: &Refusal) -> Result<(), NoMemory>
    requires { refusal.now ≢ Refusal.Memory }
    ensures { OnOk result (text.new.items ≡ text.old.items ++ refusal_words refusal.now) }
{
    match refusal {
        Refusal::L1 { name } => push_named(text, b"LINK L1", name),
        Refusal::L2 { name } => push_named(text, b"LINK L2", name),
        Refusal::L3 { name } => push_named(text, b"LINK L3", name),
        Refusal::L4 { name } => push_named(text, b"LINK L4", name),
        Refusal::L5 { name } => push_named(text, b"LINK L5", name),
        Refusal::L6 { name } => push_named(text, b"LINK L6", name),
        Refusal::L7 { line } => push_control_line(text, *line),
        Refusal::L8 => push_text(text, b"LINK L8"),
        Refusal::L9 { one, two } => push_meeting(text, one, two),
        Refusal::L10 { units } => push_cycle(text, units.as_slice()),
        Refusal::L11 { unit, one, two } => push_shared(text, unit, one, two),
        Refusal::L12 { name } => push_named(text, b"LINK L12", name),
        Refusal::L13 { name, offset } => push_field(text, name, *offset),
        Refusal::Limit { what } => push_limit(text, *what),
        Refusal::Memory => unreachable!(),
    }
}

/// The line of a refusal, line feed included: for a rule of linking its number and the names, and for a limit what it
/// is of and its number. Out of memory is no such refusal. Error: out of memory.
///
/// Source: own choice ("Texts").
pub fn refusal_text(alloc: Global, refusal: &Refusal) -> Result<Vec<u8>, NoMemory>
    requires { refusal.now ≢ Refusal.Memory }
    ensures { IfOk result (λ text. text.items ≡ refusal_text refusal.now) }
{
    let mut text = Vec::new(alloc);
    push_refusal(&mut text, refusal)?;
    push_text(&mut text, b"\n")?;
    Ok(text)
}
