//! Decimal correction of a sum.
ghost use Rattle.std.specs.Prelude.{◌≡◌};
ghost use Rattle.m51_alu.specs.Arithmetic.{adjusted};
ghost use Rattle.m51_alu.specs.Decimal.{DecimalSum};

/// `DA A`: A and CY afterwards, for A, CY and AC after an addition of two decimal numbers. CY is never cleared.
///
/// Source: family manual.
pub fn da(a: u8, cy: bool, ac: bool) -> (u8, bool)
    ensures { result ≡ adjusted a cy ac }
{
    let low = if a % 16 > 9 || ac { 6 } else { 0 };
    let carry = cy || a > 0x99;
    let high = if carry { 0x60 } else { 0 };
    (((u16::from(a) + low + high) % 256) as u8, carry)
}

/// Law: `ADD` and then `DA` add any two numbers below 100, each held as two decimal digits, and CY says that the sum
/// reaches 100.
///
/// Source: family manual.
pub fn decimal_sum()
    ensures { DecimalSum }
{}
