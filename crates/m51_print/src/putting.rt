//! Texts and numbers put into the array of a line.
ghost use Rattle.std.specs.Prelude.{◌≡◌, ◌≤◌, ◌+◌, ◌++◌, ◌<◌, length, take};
ghost use Rattle.std.specs.Fmt.{decimal};
ghost use Rattle.m51_cells.specs.Hex.{hex2, hex4};

use m51_cells::{hex2, hex4};

/// Puts the bytes after the first `at` of the line, of which there are at most 128, and returns where they end.
///
/// Source: own choice ("Texts").
pub fn put(into: &mut [u8; 128], at: usize, bytes: &[u8]) -> usize
    requires { at + length bytes.now ≤ 128 }
    ensures end { result ≡ at + length bytes.now }
    ensures written { take result into.new ≡ take at into.old ++ bytes.now }
{
    let end = at + bytes.len();
    into[at..end].copy_from_slice(bytes);
    end
}

// Writes the digits of the number, its last one after those of the number divided by 10.
#[tactic(auto, using(std::proofs::lemmas::Fmt::decimal_digit))]
fn put_digits(into: &mut [u8; 128], at: usize, number: u64) -> usize
    requires { at + length (decimal number) ≤ 128 }
    ensures end { result ≡ at + length (decimal number) }
    ensures written { take result into.new ≡ take at into.old ++ decimal number }
{
    if number < 10 {
        return put(into, at, &[b'0' + number as u8]);
    }
    let front = put_digits(into, at, number / 10);
    put(into, front, &[b'0' + (number % 10) as u8])
}

/// Puts a number in decimal, which has up to 20 digits.
///
/// Source: own choice ("Texts").
pub fn put_decimal(into: &mut [u8; 128], at: usize, number: u64) -> usize
    requires { at + 20 ≤ 128 }
    ensures bound { result ≤ at + 20 }
    ensures written { take result into.new ≡ take at into.old ++ decimal number }
{
    put_digits(into, at, number)
}

/// Puts a number below 10.
#[tactic(auto, using(std::proofs::lemmas::Fmt::decimal_digit))]
pub(crate) fn put_digit(into: &mut [u8; 128], at: usize, digit: u8) -> usize
    requires digit { digit < 10 }
    requires room { at + 1 ≤ 128 }
    ensures end { result ≡ at + 1 }
    ensures written { take result into.new ≡ take at into.old ++ decimal digit }
{
    put(into, at, &[b'0' + digit])
}

/// Puts the two hexadecimal digits of a byte.
///
/// Source: own choice ("Texts").
pub fn put_hex2(into: &mut [u8; 128], at: usize, byte: u8) -> usize
    requires { at + 2 ≤ 128 }
    ensures end { result ≡ at + 2 }
    ensures written { take result into.new ≡ take at into.old ++ hex2 byte }
{
    put(into, at, &hex2(byte))
}

/// Puts the four hexadecimal digits of an address.
///
/// Source: own choice ("Texts").
pub fn put_hex4(into: &mut [u8; 128], at: usize, number: u16) -> usize
    requires { at + 4 ≤ 128 }
    ensures end { result ≡ at + 4 }
    ensures written { take result into.new ≡ take at into.old ++ hex4 number }
{
    put(into, at, &hex4(number))
}
