//! Hexadecimal digits.
ghost use Rattle.std.specs.Prelude.{◌≡◌, ◌<◌, true};
ghost use Rattle.std.specs.Fmt.{digit_glyph};
ghost use Rattle.m51_cells.specs.Hex.{digit_value, hex2, hex4};

/// The digit of a number below 16, in upper case.
///
/// Source: Intel HEX.
pub fn hex_digit(number: u8) -> u8
    requires { number < 16 }
    ensures { result ≡ digit_glyph true number }
{
    if number < 10 {
        b'0' + number
    } else {
        b'A' + (number - 10)
    }
}

/// The two digits of a byte, in upper case.
///
/// Source: Intel HEX.
pub fn hex2(byte: u8) -> [u8; 2]
    ensures { result ≡ hex2 byte }
{
    [hex_digit(byte / 16), hex_digit(byte % 16)]
}

/// The four digits of a number, in upper case.
///
/// Source: Intel HEX.
pub fn hex4(number: u16) -> [u8; 4]
    ensures { result ≡ hex4 number }
{
    let high = (number / 256) as u8;
    let low = (number % 256) as u8;
    [
        hex_digit(high / 16),
        hex_digit(high % 16),
        hex_digit(low / 16),
        hex_digit(low % 16),
    ]
}

/// The value of a digit in either case, below 16; `None` exactly if the byte is no digit.
///
/// Source: Intel HEX.
pub fn digit_value(byte: u8) -> Option<u8>
    ensures { result ≡ digit_value byte }
{
    match char::from(byte).to_digit(16) {
        Some(value) => Some(value as u8),
        None => None,
    }
}
