//! The special function registers and their named bits as the manual's two maps show them.
use m51_sfr::{bit_named, is_register, register_named};

// Eight addresses a line, from 80H.
const REGISTERS: &str = "
P0    SP   DPL    DPH    -   -   - PCON
TCON  TMOD TL0    TL1    TH0 TH1 - -
P1    -    -      -      -   -   - -
SCON  SBUF -      -      -   -   - -
P2    -    -      -      -   -   - -
IE    -    -      -      -   -   - -
P3    -    -      -      -   -   - -
IP    -    -      -      -   -   - -
-     -    -      -      -   -   - -
T2CON -    RCAP2L RCAP2H TL2 TH2 - -
PSW   -    -      -      -   -   - -
-     -    -      -      -   -   - -
ACC   -    -      -      -   -   - -
-     -    -      -      -   -   - -
B     -    -      -      -   -   - -
-     -    -      -      -   -   - -
";

// Eight bit addresses a line, from 80H.
const BITS: &str = "
-   -    -    -     -    -    -    -
IT0 IE0  IT1  IE1   TR0  TF0  TR1  TF1
T2  T2EX -    -     -    -    -    -
RI  TI   RB8  TB8   REN  SM2  SM1  SM0
-   -    -    -     -    -    -    -
EX0 ET0  EX1  ET1   ES   ET2  -    EA
RXD TXD  INT0 INT1  T0   T1   WR   RD
PX0 PT0  PX1  PT1   PS   PT2  -    -
-   -    -    -     -    -    -    -
-   -    TR2  EXEN2 TCLK RCLK EXF2 TF2
P   -    OV   RS0   RS1  F0   AC   CY
-   -    -    -     -    -    -    -
-   -    -    -     -    -    -    -
-   -    -    -     -    -    -    -
-   -    -    -     -    -    -    -
-   -    -    -     -    -    -    -
";

// Whether the table has what the map of registers shows at this address.
fn is_shown(word: &str, address: u8) -> bool {
    if word == "-" {
        !is_register(address)
    } else {
        is_register(address) && register_named(word.as_bytes()) == Some(address)
    }
}

// Whether the table has what the map of bits shows at this bit address.
fn is_bit_shown(word: &str, address: u8) -> bool {
    word == "-" || bit_named(word.as_bytes()) == Some(u16::from(address))
}

#[test]
fn the_registers_are_those_of_the_map(rt: HostRuntime) {
    let mut count = 0u8;
    for word in REGISTERS.split_whitespace() {
        assert!(rt; count < 128, "too many words");
        assert!(rt; is_shown(word, 0x80 + count), "at {word}");
        count += 1;
    }
    assert!(rt; count == 128, "too few words");
}

#[test]
fn the_bits_are_those_of_the_map(rt: HostRuntime) {
    let mut count = 0u8;
    for word in BITS.split_whitespace() {
        assert!(rt; count < 128, "too many words");
        assert!(rt; is_bit_shown(word, 0x80 + count), "at {word}");
        count += 1;
    }
    assert!(rt; count == 128, "too few words");
}

#[test]
fn no_register_is_below_80h(rt: HostRuntime) {
    for address in 0..128 {
        assert!(rt; !is_register(address), "at {address}");
    }
}
