//! Products, quotients and the parity of a byte.
ghost use Rattle.std.specs.Prelude.{◌≡◌};
ghost use Rattle.m51_alu.specs.Arithmetic.{parity_of, product_of, quotient_of};

/// `MUL AB`: A, B and OV afterwards. A is the low byte of the product, B the high byte, and OV says that it exceeds
/// 255.
///
/// Source: family manual.
pub fn mul(a: u8, b: u8) -> (u8, u8, bool)
    ensures { result ≡ product_of a b }
{
    let product = u16::from(a) * u16::from(b);
    ((product % 256) as u8, (product / 256) as u8, product > 255)
}

/// `DIV AB`: A, B and OV afterwards. A is the quotient and B the remainder. Where B was 0, OV is set and both stay.
///
/// Source: family manual; own choice ("Division by 0").
pub fn div(a: u8, b: u8) -> (u8, u8, bool)
    ensures { result ≡ quotient_of a b }
{
    if b == 0 {
        return (a, b, true);
    }
    (a / b, a % b, false)
}

/// Whether the byte has an odd number of ones.
///
/// Source: family manual.
pub fn parity(a: u8) -> bool
    ensures { result ≡ parity_of a }
{
    a.count_ones() % 2 == 1
}
