//! The named bits of the special function registers, each counted from bit 0 of its register.
//!
//! Source: family manual.

/// PCON.0: idle.
pub const IDL: u8 = 0;
/// PCON.1: power-down.
pub const PD: u8 = 1;
/// PCON.7: the serial line runs at twice the rate.
pub const SMOD: u8 = 7;
/// TCON.0: external interrupt 0 comes at a fall, and not at a low level.
pub const IT0: u8 = 0;
/// TCON.1: external interrupt 0 asks.
pub const IE0: u8 = 1;
/// TCON.2: external interrupt 1 comes at a fall, and not at a low level.
pub const IT1: u8 = 2;
/// TCON.3: external interrupt 1 asks.
pub const IE1: u8 = 3;
/// TCON.4: timer 0 runs.
pub const TR0: u8 = 4;
/// TCON.5: timer 0 overflowed.
pub const TF0: u8 = 5;
/// TCON.6: timer 1 runs.
pub const TR1: u8 = 6;
/// TCON.7: timer 1 overflowed.
pub const TF1: u8 = 7;
/// P1.0: the input that timer 2 counts.
pub const T2: u8 = 0;
/// P1.1: the input that makes timer 2 capture or reload.
pub const T2EX: u8 = 1;
/// SCON.0: a byte was received.
pub const RI: u8 = 0;
/// SCON.1: a byte was sent.
pub const TI: u8 = 1;
/// SCON.2: the ninth bit that was received; in mode 1 the stop bit.
pub const RB8: u8 = 2;
/// SCON.3: the ninth bit to be sent.
pub const TB8: u8 = 3;
/// SCON.4: bytes are received.
pub const REN: u8 = 4;
/// SCON.5: frames whose ninth bit is 0 are lost.
pub const SM2: u8 = 5;
/// SCON.6: the lower bit of the mode.
pub const SM1: u8 = 6;
/// SCON.7: the higher bit of the mode.
pub const SM0: u8 = 7;
/// IE.0: external interrupt 0 is enabled.
pub const EX0: u8 = 0;
/// IE.1: the interrupt of timer 0 is enabled.
pub const ET0: u8 = 1;
/// IE.2: external interrupt 1 is enabled.
pub const EX1: u8 = 2;
/// IE.3: the interrupt of timer 1 is enabled.
pub const ET1: u8 = 3;
/// IE.4: the interrupt of the serial line is enabled.
pub const ES: u8 = 4;
/// IE.5: the interrupt of timer 2 is enabled.
pub const ET2: u8 = 5;
/// IE.7: interrupts are enabled.
pub const EA: u8 = 7;
/// P3.0: the input of the serial line.
pub const RXD: u8 = 0;
/// P3.1: the output of the serial line.
pub const TXD: u8 = 1;
/// P3.2: external interrupt 0.
pub const INT0: u8 = 2;
/// P3.3: external interrupt 1.
pub const INT1: u8 = 3;
/// P3.4: the input that timer 0 counts.
pub const T0: u8 = 4;
/// P3.5: the input that timer 1 counts.
pub const T1: u8 = 5;
/// P3.6: the write strobe of external data memory.
pub const WR: u8 = 6;
/// P3.7: the read strobe of external data memory.
pub const RD: u8 = 7;
/// IP.0: external interrupt 0 has the high level.
pub const PX0: u8 = 0;
/// IP.1: the interrupt of timer 0 has the high level.
pub const PT0: u8 = 1;
/// IP.2: external interrupt 1 has the high level.
pub const PX1: u8 = 2;
/// IP.3: the interrupt of timer 1 has the high level.
pub const PT1: u8 = 3;
/// IP.4: the interrupt of the serial line has the high level.
pub const PS: u8 = 4;
/// IP.5: the interrupt of timer 2 has the high level.
pub const PT2: u8 = 5;
/// T2CON.0: timer 2 captures, and does not reload (CP/RL2).
pub const CPRL2: u8 = 0;
/// T2CON.1: timer 2 counts falls of T2 (C/T2).
pub const CT2: u8 = 1;
/// T2CON.2: timer 2 runs.
pub const TR2: u8 = 2;
/// T2CON.3: falls of T2EX are heeded.
pub const EXEN2: u8 = 3;
/// T2CON.4: timer 2 gives the rate of sending.
pub const TCLK: u8 = 4;
/// T2CON.5: timer 2 gives the rate of receiving.
pub const RCLK: u8 = 5;
/// T2CON.6: T2EX fell.
pub const EXF2: u8 = 6;
/// T2CON.7: timer 2 overflowed.
pub const TF2: u8 = 7;
/// PSW.0: the parity of ACC.
pub const P: u8 = 0;
/// PSW.2: overflow.
pub const OV: u8 = 2;
/// PSW.3: the lower bit of the register bank's number.
pub const RS0: u8 = 3;
/// PSW.4: the higher bit of the register bank's number.
pub const RS1: u8 = 4;
/// PSW.5: a flag for the program.
pub const F0: u8 = 5;
/// PSW.6: carry out of bit 3.
pub const AC: u8 = 6;
/// PSW.7: carry.
pub const CY: u8 = 7;
