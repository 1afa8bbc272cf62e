//! Numbers of a few digits.
ghost use Rattle.std.specs.Prelude.{◌≡◌, ◌≤◌, length};
ghost use Rattle.m51_lex.specs.Number.{value_in};
ghost use Rattle.m51_script.specs.Digits.{decimal, hexadecimal, number_in_base};

// The value of at most ten digits.
fn value_in(base: u32, digits: &[u8]) -> Option<u64>
    requires base { (2 ≤ base) × (base ≤ 16) }
    requires few { length digits.now ≤ 10 }
    ensures { result ≡ value_in base 0 digits.now }
{
    let mut value = 0;
    for digit in digits.iter() {
        match char::from(*digit).to_digit(base) {
            Some(digit) => value = value * u64::from(base) + u64::from(digit),
            None => return None,
        }
    }
    Some(value)
}

// The number of one digit or more, at most `most` of them.
fn number_in_base(base: u32, most: usize, text: &[u8]) -> Option<u64>
    requires base { (2 ≤ base) × (base ≤ 16) }
    requires few { most ≤ 10 }
    ensures { result ≡ number_in_base base most text.now }
{
    if text.is_empty() {
        return None;
    }
    if text.len() > most {
        return None;
    }
    value_in(base, text)
}

// The number of one to `most` decimal digits, where `most` is ten or less.
pub(crate) fn decimal(most: usize, text: &[u8]) -> Option<u64>
    requires few { most ≤ 10 }
    ensures { result ≡ decimal most text.now }
{
    number_in_base(10, most, text)
}

// The number of one to four hexadecimal digits, in either case.
pub(crate) fn hexadecimal(text: &[u8]) -> Option<u64>
    ensures { result ≡ hexadecimal text.now }
{
    number_in_base(16, 4, text)
}
