//! The addresses of the special function registers.
//!
//! Source: family manual.

/// The latch of port 0.
pub const P0: u8 = 0x80;
/// The stack pointer.
pub const SP: u8 = 0x81;
/// The low byte of DPTR.
pub const DPL: u8 = 0x82;
/// The high byte of DPTR.
pub const DPH: u8 = 0x83;
/// Power and the rate of the serial line.
pub const PCON: u8 = 0x87;
/// Control of timers 0 and 1, and the external interrupts.
pub const TCON: u8 = 0x88;
/// The modes of timers 0 and 1.
pub const TMOD: u8 = 0x89;
/// The low byte of timer 0.
pub const TL0: u8 = 0x8A;
/// The low byte of timer 1.
pub const TL1: u8 = 0x8B;
/// The high byte of timer 0.
pub const TH0: u8 = 0x8C;
/// The high byte of timer 1.
pub const TH1: u8 = 0x8D;
/// The latch of port 1.
pub const P1: u8 = 0x90;
/// Control of the serial line.
pub const SCON: u8 = 0x98;
/// The received byte.
pub const SBUF: u8 = 0x99;
/// The latch of port 2.
pub const P2: u8 = 0xA0;
/// The enables of the interrupts.
pub const IE: u8 = 0xA8;
/// The latch of port 3.
pub const P3: u8 = 0xB0;
/// The priorities of the interrupts.
pub const IP: u8 = 0xB8;
/// Control of timer 2.
pub const T2CON: u8 = 0xC8;
/// The low byte that timer 2 reloads from, or captures into.
pub const RCAP2L: u8 = 0xCA;
/// The high byte that timer 2 reloads from, or captures into.
pub const RCAP2H: u8 = 0xCB;
/// The low byte of timer 2.
pub const TL2: u8 = 0xCC;
/// The high byte of timer 2.
pub const TH2: u8 = 0xCD;
/// The flags.
pub const PSW: u8 = 0xD0;
/// The accumulator.
pub const ACC: u8 = 0xE0;
/// The second register of MUL and DIV.
pub const B: u8 = 0xF0;
