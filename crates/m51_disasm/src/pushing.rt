//! Texts and numbers put at the end of a text.
ghost use Rattle.std.specs.Prelude.{◌≡◌, ◌++◌, ◌<◌, OnOk};
ghost use Rattle.m51_disasm.specs.Texts.{byte_text, short_text, word_text, label_text, digit_text};

use m51_cells::{NoMemory, hex2, hex4};

/// Bytes.
pub(crate) fn push_text(text: &mut Vec<u8>, more: &[u8]) -> Result<(), NoMemory>
    ensures { OnOk result (text.new.items ≡ text.old.items ++ more.now) }
{
    text.extend_from_slice(more)?;
    Ok(())
}

/// A number of one byte.
pub(crate) fn push_byte(text: &mut Vec<u8>, byte: u8) -> Result<(), NoMemory>
    ensures { OnOk result (text.new.items ≡ text.old.items ++ byte_text byte) }
{
    push_text(text, b"0")?;
    push_text(text, &hex2(byte))?;
    push_text(text, b"H")
}

/// The number of a field of one byte, which is its low byte.
pub(crate) fn push_short(text: &mut Vec<u8>, number: u16) -> Result<(), NoMemory>
    ensures { OnOk result (text.new.items ≡ text.old.items ++ short_text number) }
{
    push_byte(text, (number % 256) as u8)
}

/// A number of two bytes.
pub(crate) fn push_word(text: &mut Vec<u8>, number: u16) -> Result<(), NoMemory>
    ensures { OnOk result (text.new.items ≡ text.old.items ++ word_text number) }
{
    push_text(text, b"0")?;
    push_text(text, &hex4(number))?;
    push_text(text, b"H")
}

/// The label of an address.
pub(crate) fn push_label(text: &mut Vec<u8>, address: u16) -> Result<(), NoMemory>
    ensures { OnOk result (text.new.items ≡ text.old.items ++ label_text address) }
{
    push_text(text, b"L")?;
    push_text(text, &hex4(address))
}

/// The digit of a register, after what comes before it.
pub(crate) fn push_register(text: &mut Vec<u8>, sign: &[u8], number: u8) -> Result<(), NoMemory>
    requires { number < 8 }
    ensures { OnOk result (text.new.items ≡ text.old.items ++ (sign.now ++ digit_text number)) }
{
    push_text(text, sign)?;
    push_text(text, &[b'0' + number])
}
