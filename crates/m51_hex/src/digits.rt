//! Hexadecimal digits, two for each byte.
ghost use Rattle.std.specs.Prelude.{◌≡◌, ◌<◌, ◌++◌, flat_map, IsTrue, IfOk, OnOk};
ghost use Rattle.std.specs.Char.{digit_value};
ghost use Rattle.std.specs.List.{list_all};
ghost use Rattle.m51_cells.specs.Hex.{hex2, is_hex_digit};
ghost use Rattle.m51_hex.specs.Line.{bytes_of_digits};

use m51_cells::{NoMemory, digit_value, hex2};
use std::alloc::Global;

// Appends the two digits of a byte, in upper case.
pub(crate) fn push_byte(text: &mut Vec<u8>, byte: u8) -> Result<(), NoMemory>
    ensures { OnOk result (text.new.items ≡ text.old.items ++ hex2 byte) }
{
    let [high, low] = hex2(byte);
    text.push(high)?;
    text.push(low)?;
    Ok(())
}

// Appends the digits of each byte.
pub(crate) fn push_bytes(text: &mut Vec<u8>, bytes: &[u8]) -> Result<(), NoMemory>
    ensures { OnOk result (text.new.items ≡ text.old.items ++ flat_map hex2 bytes.now) }
{
    for byte in bytes {
        push_byte(text, *byte)?;
    }
    Ok(())
}

// Whether a character is a hexadecimal digit of either case.
fn is_hex_digit(character: u8) -> bool
    ensures { result ≡ is_hex_digit character }
{
    digit_value(character).is_some()
}

// Whether each character is a hexadecimal digit of either case.
pub(crate) fn are_hex_digits(text: &[u8]) -> bool
    ensures { result ≡ list_all is_hex_digit text.now }
{
    text.iter().all(|character| is_hex_digit(*character))
}

// The value of a digit.
fn value_of(digit: u8) -> u8
    requires { IsTrue (is_hex_digit digit) }
    ensures value { result ≡ digit_value digit }
    ensures small { result < 16 }
{
    match digit_value(digit) {
        Some(value) => value,
        None => unreachable!(),
    }
}

// The bytes that digits write; a last one that is single writes none.
pub(crate) fn bytes_of_digits(alloc: Global, digits: &[u8]) -> Result<Vec<u8>, NoMemory>
    requires { IsTrue (list_all is_hex_digit digits.now) }
    ensures { IfOk result (λ bytes. bytes.items ≡ bytes_of_digits digits.now) }
{
    let mut bytes = Vec::new(alloc);
    let mut rest = digits;
    while let [high, low, more @ ..] = rest {
        bytes.push(16 * value_of(*high) + value_of(*low))?;
        rest = more;
    }
    Ok(bytes)
}
