//! What the definitions of arithmetic mean as numbers.
ghost use Rattle.m51_alu.specs.Laws.{SumsAreExact, DifferencesAreExact, ProductsAreExact, QuotientsAreExact};
ghost use Rattle.m51_alu.specs.Laws.{ParityIsEven};

/// Law: after `ADD` and `ADDC` the byte and 256 for CY are the sum of the bytes and the carry; the low digit and 16 for
/// AC are that of the low digits; OV is set exactly if the signed sum is below -128 or above 127, and where it is clear
/// the byte in two's complement is that sum.
///
/// Source: family manual.
pub fn sums_are_exact()
    ensures { SumsAreExact }
{}

/// Law: after `SUBB` the byte, the subtrahend and the borrow are the minuend and 256 for CY; likewise the low digits
/// and 16 for AC; OV is set exactly if the signed difference is below -128 or above 127, and where it is clear the byte
/// in two's complement is that difference.
///
/// Source: family manual.
pub fn differences_are_exact()
    ensures { DifferencesAreExact }
{}

/// Law: after `MUL` A and 256 for each of B are the product, and OV is set exactly if B is not 0.
///
/// Source: family manual.
pub fn products_are_exact()
    ensures { ProductsAreExact }
{}

/// Law: after `DIV` by a number that is not 0 the quotient times the divisor and the remainder are the dividend, the
/// remainder is below the divisor, and OV is clear.
///
/// Source: family manual.
pub fn quotients_are_exact()
    ensures { QuotientsAreExact }
{}

/// Law: the number of ones in A and P is even.
///
/// Source: family manual.
pub fn parity_is_even()
    ensures { ParityIsEven }
{}
