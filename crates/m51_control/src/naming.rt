//! How control lines name units and segments.
ghost use Rattle.std.specs.Prelude.{◌≡◌, IfOk, option_map};
ghost use Rattle.m51_control.specs.Naming.{hex4_value, absolute_title, unit_of, name_as, trimmed_name, names_in};

use crate::parts::{cut_at, single_part};
use m51_cells::{Name, Names, NoMemory, digit_value};
use std::alloc::Global;

// What a name in a control line means.
#[derive(Clone, Copy)]
pub(crate) enum Role {
    // A unit, which may be written by the title of an absolute segment.
    Unit,
    // A segment.
    Segment,
}

// The number of four hexadecimal digits.
fn hex4_value(a: u8, b: u8, c: u8, d: u8) -> Option<u16>
    ensures { result ≡ hex4_value a b c d }
{
    let a = u16::from(digit_value(a)?);
    let b = u16::from(digit_value(b)?);
    let c = u16::from(digit_value(c)?);
    let d = u16::from(digit_value(d)?);
    Some(a * 4096 + b * 256 + c * 16 + d)
}

// The title of an absolute segment that a text writes.
fn absolute_title(text: &[u8]) -> Option<Name>
    ensures { result ≡ absolute_title text.now }
{
    match text {
        [b'@', a, b, c, d] => Some(Name::at(hex4_value(*a, *b, *c, *d)?)),
        _ => None,
    }
}

// The name of a unit that a part writes.
fn unit_of(part: &[u8]) -> Option<Name>
    ensures { result ≡ unit_of part.now }
{
    match part {
        [] => None,
        [b'@', ..] => absolute_title(part),
        _ => Name::of(part),
    }
}

// The name that a part writes.
fn name_as(role: Role, part: &[u8]) -> Option<Name>
    ensures { result ≡ name_as role part.now }
{
    match role {
        Role::Unit => unit_of(part),
        Role::Segment => Name::of(part),
    }
}

// The name of a text, with blanks before and after it.
pub(crate) fn trimmed_name(role: Role, text: &[u8]) -> Option<Name>
    ensures { result ≡ trimmed_name role text.now }
{
    name_as(role, single_part(text)?)
}

// One or more names, with commas between them, if the text is that.
pub(crate) fn names_in(alloc: Global, role: Role, text: &[u8]) -> Result<Option<Names>, NoMemory>
    ensures { IfOk result (λ names. names ≡ names_in role text.now) }
{
    let mut names = Vec::new(alloc);
    let mut rest = text;
    while let Some((first, after)) = cut_at(b',', rest) {
        match trimmed_name(role, first) {
            Some(name) => names.push(name)?,
            None => return Ok(None),
        }
        rest = after;
    }
    match trimmed_name(role, rest) {
        Some(name) => names.push(name)?,
        None => return Ok(None),
    }
    Ok(Some(Names::of(names)))
}
