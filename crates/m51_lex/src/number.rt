//! The number that a run of letters and digits writes.
ghost use Rattle.std.specs.Prelude.{◌≡◌, ◌≤◌, ◌<◌, length};
ghost use Rattle.m51_lex.specs.Number.{suffix_radix, digits_of, of_16_bits, value_in, number_of};

// The base that the last character of a run names.
fn suffix_radix(last: u8) -> u32
    ensures base { result ≡ suffix_radix last }
    ensures range { (2 ≤ result) × (result ≤ 16) }
{
    match last {
        b'H' | b'h' => 16,
        b'B' | b'b' => 2,
        b'O' | b'o' | b'Q' | b'q' => 8,
        _ => 10,
    }
}

// The digits of a run, without the letter that names the base.
fn digits_of(run: &[u8]) -> &[u8]
    requires { 0 < length run.now }
    ensures { result.now ≡ digits_of run.now }
{
    match run[run.len() - 1] {
        b'H' | b'h' | b'B' | b'b' | b'D' | b'd' | b'O' | b'o' | b'Q' | b'q' => {
            &run[..run.len() - 1]
        }
        _ => run,
    }
}

// The value of digits, if it has 16 bits.
fn value_in(base: u32, digits: &[u8]) -> Option<u16>
    requires { (2 ≤ base) × (base ≤ 16) }
    ensures { result ≡ of_16_bits (value_in base 0 digits.now) }
{
    let mut value = 0;
    for digit in digits.iter() {
        match char::from(*digit).to_digit(base) {
            Some(digit) if value * base + digit <= 65535 => value = value * base + digit,
            _ => return None,
        }
    }
    Some(value as u16)
}

/// The number that a run writes, or none where a digit is wrong or the number has more than 16 bits.
#[tactic(auto, unfolding(crate::specs::Number::number_of))]
pub(crate) fn number_of(run: &[u8]) -> Option<u16>
    requires { 0 < length run.now }
    ensures { result ≡ number_of run.now }
{
    value_in(suffix_radix(run[run.len() - 1]), digits_of(run))
}
