//! The family manual's examples, and this project's own where it has none: a quotient by 0, and a parity.
use m51_alu::{Sum, add, da, div, mul, parity, subb};

// A sum or difference with overflow and without an auxiliary carry.
fn overflow(value: u8, cy: bool) -> Sum {
    Sum {
        value,
        cy,
        ac: false,
        ov: true,
    }
}

// Whether the two sums and the difference are the manual's.
fn sums() -> [bool; 3] {
    [
        add(0xC3, 0xAA, false) == overflow(0x6D, true),
        add(0xC3, 0xAA, true) == overflow(0x6E, true),
        subb(0xC9, 0x54, true) == overflow(0x74, false),
    ]
}

// The sum of two decimal numbers, before it is adjusted and after.
fn decimal_sum() -> (u8, (u8, bool)) {
    let decimal = add(0x56, 0x67, true);
    (decimal.value, da(decimal.value, decimal.cy, decimal.ac))
}

// The product, and the quotients by 12H and by 0.
fn products() -> [(u8, u8, bool); 3] {
    [mul(0x50, 0xA0), div(0xFB, 0x12), div(0xFB, 0)]
}

#[test]
fn sums_and_differences_are_the_manuals(rt: HostRuntime) {
    let sums = sums();
    assert!(rt; sums == [true; 3], "{sums:?}");
    assert!(rt; decimal_sum() == (0xBE, (0x24, true)));
}

#[test]
fn products_quotients_and_a_parity(rt: HostRuntime) {
    let products = products();
    assert!(rt;
        products == [(0x00, 0x32, true), (0x0D, 0x11, false), (0xFB, 0, true)],
        "{products:?}"
    );
    assert!(rt; parity(0x13));
}
