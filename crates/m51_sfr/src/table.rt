//! The table of the registers.
use crate::addresses::{
    ACC, B, DPH, DPL, IE, IP, P0, P1, P2, P3, PCON, PSW, RCAP2H, RCAP2L, SBUF, SCON, SP, T2CON,
    TCON, TH0, TH1, TH2, TL0, TL1, TL2, TMOD,
};
use crate::bits::{
    AC, CY, EA, ES, ET0, ET1, ET2, EX0, EX1, EXEN2, EXF2, F0, IDL, IE0, IE1, INT0, INT1, IT0, IT1,
    OV, P, PD, PS, PT0, PT1, PT2, PX0, PX1, RB8, RCLK, RD, REN, RI, RS0, RS1, RXD, SM0, SM1, SM2,
    SMOD, T0, T1, T2, T2EX, TB8, TCLK, TF0, TF1, TF2, TI, TR0, TR1, TR2, TXD, WR,
};

/// A name of a bit, and its number.
pub(crate) type Bit = (&'static [u8], u8);

/// A name of a register, its address, and its named bits, from bit 0 upward.
pub(crate) type RegisterRow = (&'static [u8], u8, &'static [Bit]);

/// The registers, by ascending addresses.
///
/// The names of the bits 0 and 1 of T2CON hold a sign, so no source can write them, and they are not here.
///
/// Source: family manual.
pub(crate) const REGISTERS: [RegisterRow; 26] = [
    (b"P0", P0, &[]),
    (b"SP", SP, &[]),
    (b"DPL", DPL, &[]),
    (b"DPH", DPH, &[]),
    (
        b"PCON",
        PCON,
        &[(b"IDL", IDL), (b"PD", PD), (b"SMOD", SMOD)],
    ),
    (
        b"TCON",
        TCON,
        &[
            (b"IT0", IT0),
            (b"IE0", IE0),
            (b"IT1", IT1),
            (b"IE1", IE1),
            (b"TR0", TR0),
            (b"TF0", TF0),
            (b"TR1", TR1),
            (b"TF1", TF1),
        ],
    ),
    (b"TMOD", TMOD, &[]),
    (b"TL0", TL0, &[]),
    (b"TL1", TL1, &[]),
    (b"TH0", TH0, &[]),
    (b"TH1", TH1, &[]),
    (b"P1", P1, &[(b"T2", T2), (b"T2EX", T2EX)]),
    (
        b"SCON",
        SCON,
        &[
            (b"RI", RI),
            (b"TI", TI),
            (b"RB8", RB8),
            (b"TB8", TB8),
            (b"REN", REN),
            (b"SM2", SM2),
            (b"SM1", SM1),
            (b"SM0", SM0),
        ],
    ),
    (b"SBUF", SBUF, &[]),
    (b"P2", P2, &[]),
    (
        b"IE",
        IE,
        &[
            (b"EX0", EX0),
            (b"ET0", ET0),
            (b"EX1", EX1),
            (b"ET1", ET1),
            (b"ES", ES),
            (b"ET2", ET2),
            (b"EA", EA),
        ],
    ),
    (
        b"P3",
        P3,
        &[
            (b"RXD", RXD),
            (b"TXD", TXD),
            (b"INT0", INT0),
            (b"INT1", INT1),
            (b"T0", T0),
            (b"T1", T1),
            (b"WR", WR),
            (b"RD", RD),
        ],
    ),
    (
        b"IP",
        IP,
        &[
            (b"PX0", PX0),
            (b"PT0", PT0),
            (b"PX1", PX1),
            (b"PT1", PT1),
            (b"PS", PS),
            (b"PT2", PT2),
        ],
    ),
    (
        b"T2CON",
        T2CON,
        &[
            (b"TR2", TR2),
            (b"EXEN2", EXEN2),
            (b"TCLK", TCLK),
            (b"RCLK", RCLK),
            (b"EXF2", EXF2),
            (b"TF2", TF2),
        ],
    ),
    (b"RCAP2L", RCAP2L, &[]),
    (b"RCAP2H", RCAP2H, &[]),
    (b"TL2", TL2, &[]),
    (b"TH2", TH2, &[]),
    (
        b"PSW",
        PSW,
        &[
            (b"P", P),
            (b"OV", OV),
            (b"RS0", RS0),
            (b"RS1", RS1),
            (b"F0", F0),
            (b"AC", AC),
            (b"CY", CY),
        ],
    ),
    (b"ACC", ACC, &[]),
    (b"B", B, &[]),
];
