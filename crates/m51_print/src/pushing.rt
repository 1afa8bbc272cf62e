//! Texts and numbers appended to a text.
ghost use Rattle.std.specs.Prelude.{◌≡◌, ◌++◌, OnOk};
ghost use Rattle.std.specs.Fmt.{decimal};
ghost use Rattle.m51_cells.specs.Hex.{hex2, hex4};

use crate::putting::{put_decimal, put_hex2, put_hex4};
use m51_cells::NoMemory;

/// Appends bytes.
pub(crate) fn push_text(text: &mut Vec<u8>, more: &[u8]) -> Result<(), NoMemory>
    ensures { OnOk result (text.new.items ≡ text.old.items ++ more.now) }
{
    text.extend_from_slice(more)?;
    Ok(())
}

/// Appends a number in decimal.
pub(crate) fn push_decimal(text: &mut Vec<u8>, number: u64) -> Result<(), NoMemory>
    ensures { OnOk result (text.new.items ≡ text.old.items ++ decimal number) }
{
    let mut digits = [0; 128];
    let end = put_decimal(&mut digits, 0, number);
    push_text(text, &digits[..end])
}

/// Appends the two digits of a byte.
pub(crate) fn push_hex2(text: &mut Vec<u8>, byte: u8) -> Result<(), NoMemory>
    ensures { OnOk result (text.new.items ≡ text.old.items ++ hex2 byte) }
{
    let mut digits = [0; 128];
    let end = put_hex2(&mut digits, 0, byte);
    push_text(text, &digits[..end])
}

/// Appends the four digits of an address or a size.
pub(crate) fn push_hex4(text: &mut Vec<u8>, number: u16) -> Result<(), NoMemory>
    ensures { OnOk result (text.new.items ≡ text.old.items ++ hex4 number) }
{
    let mut digits = [0; 128];
    let end = put_hex4(&mut digits, 0, number);
    push_text(text, &digits[..end])
}
