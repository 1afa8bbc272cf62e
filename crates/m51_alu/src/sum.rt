//! Sums and differences of two bytes.
ghost use Rattle.std.specs.Prelude.{◌≡◌};
ghost use Rattle.m51_alu.specs.Arithmetic.{difference_of, sum_of};

/// A sum or a difference, with its flags.
///
/// Source: family manual.
#[derive(Clone, Copy, Debug, PartialEq, Eq)]
pub struct Sum {
    /// The result modulo 256.
    pub value: u8,
    /// Carry out of bit 7, or a borrow into it.
    pub cy: bool,
    /// Carry out of bit 3, or a borrow into it.
    pub ac: bool,
    /// Signed overflow: the result in two's complement is no byte.
    pub ov: bool,
}

/// `ADD` and `ADDC`: the sum of two bytes and a carry.
///
/// Source: family manual.
pub fn add(a: u8, b: u8, carry: bool) -> Sum
    ensures { result ≡ sum_of a b carry }
{
    let sum = u16::from(a) + u16::from(b) + u16::from(carry);
    let value = (sum % 256) as u8;
    Sum {
        value,
        cy: sum >= 256,
        ac: a % 16 + b % 16 + u8::from(carry) >= 16,
        ov: (a < 128) == (b < 128) && (a < 128) != (value < 128),
    }
}

/// `SUBB`: a byte less another and a borrow.
///
/// Source: family manual.
pub fn subb(a: u8, b: u8, borrow: bool) -> Sum
    ensures { result ≡ difference_of a b borrow }
{
    let taken = u16::from(b) + u16::from(borrow);
    let value = ((256 + u16::from(a) - taken) % 256) as u8;
    Sum {
        value,
        cy: u16::from(a) < taken,
        ac: a % 16 < b % 16 + u8::from(borrow),
        ov: (a < 128) != (b < 128) && (a < 128) != (value < 128),
    }
}
