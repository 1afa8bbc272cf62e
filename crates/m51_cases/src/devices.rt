//! Tables of the devices and of interrupts, with values from the family manual.
use m51_cells::digit_value;
use m51_flat::{Cpu, Pins, Source, reset};
use m51_irq::choose;
use m51_sfr::addresses::{
    IE, IP, PCON, RCAP2H, RCAP2L, SBUF, SCON, T2CON, TCON, TH0, TH1, TH2, TL0, TL1, TL2, TMOD,
};
use m51_timers_uart::{Frame, Periph};

// Timer, TMOD, TCON, TH, TL, port 3 at the last tick and now; then TH, TL and TCON.
const TIMERS: &str = "00 00 10 00 1F FF FF 01 00 10
00 00 10 00 FF FF FF 01 E0 10
00 00 10 FF 1F FF FF 00 00 30
00 01 10 00 FF FF FF 01 00 10
00 01 10 FF FF FF FF 00 00 30
00 02 10 38 FE FF FF 38 FF 10
00 02 10 38 FF FF FF 38 38 30
00 03 10 38 FF FF FF 38 00 30
00 03 40 FF 12 FF FF 00 12 C0
00 01 00 00 05 FF FF 00 05 00
00 09 10 00 05 FB FB 00 05 12
00 09 10 00 05 FF FF 00 06 10
00 05 10 00 05 FF EF 00 06 10
00 05 10 00 05 EF FF 00 05 10
00 05 10 00 05 EF EF 00 05 10
00 06 10 38 FF FF EF 38 38 30
00 0B 10 38 05 FB FB 38 05 12
00 0B 10 38 05 FF FF 38 06 10
00 0B 10 38 FF FF FF 38 00 30
00 0B 50 FF 05 FB FB 00 05 d2
00 07 10 38 05 FF EF 38 06 10
00 07 10 38 05 FF FF 38 05 10
00 07 50 38 05 FF FF 39 05 50
00 33 50 38 05 FF FF 39 06 50
01 00 40 00 1F FF FF 01 00 40
01 00 40 FF 1F FF FF 00 00 C0
01 10 40 FF FF FF FF 00 00 C0
01 20 40 38 FF FF FF 38 38 C0
01 30 40 00 05 FF FF 00 05 40
01 90 40 00 05 F7 F7 00 05 48
01 90 40 00 05 FF FF 00 06 40
01 50 40 00 05 FF DF 00 06 40
01 33 40 00 05 FF FF 00 05 40
01 03 00 00 1F FF FF 01 00 00
01 03 00 FF 1F FF FF 00 00 00
01 13 00 00 FF FF FF 01 00 00
01 13 00 FF FF FF FF 00 00 00
01 23 00 38 FF FF FF 38 38 00
01 A3 00 38 05 F7 F7 38 06 08
01 63 00 38 05 FF FF 38 05 00
01 63 00 38 05 FF DF 38 06 00";

// T2CON, TH2, TL2, RCAP2H, RCAP2L, port 1 at the last tick and now; then TH2, TL2, RCAP2H, RCAP2L and T2CON.
const TIMER_2: &str = "00 12 34 56 78 FF FF 12 34 56 78 00
04 00 FF 56 78 FF FF 01 00 56 78 04
04 FF FF 56 78 FF FF 56 78 56 78 84
05 FF FF 56 78 FF FF 00 00 56 78 85
06 00 05 56 78 FF FE 00 06 56 78 06
06 00 05 56 78 FE FE 00 05 56 78 06
06 00 05 56 78 FE FF 00 05 56 78 06
0D 12 34 00 00 FF FD 12 35 12 35 4D
0C 12 34 56 78 FF FD 56 78 56 78 4C
04 12 34 56 78 FF FD 12 35 56 78 04
08 12 34 56 78 FF FD 56 78 56 78 48
24 FF FC 00 10 FF FF 00 12 00 10 24
14 00 00 12 34 FF FF 00 06 12 34 14
2C 00 00 12 34 FF FD 00 06 12 34 6C
16 00 05 12 34 FF FE 00 06 12 34 16
16 00 05 12 34 FF FF 00 05 12 34 16";

// SCON, the byte and the ninth bit of a frame; then SBUF and SCON.
const FRAMES: &str = "10 41 00 41 11
10 41 01 41 11
14 41 00 41 15
30 41 00 41 31
50 41 01 41 55
50 41 00 41 51
70 41 00 00 70
70 41 01 41 75
90 41 01 41 95
90 41 00 41 91
B0 41 00 00 B0
B0 41 01 41 B5
d0 41 01 41 d5
f0 41 00 00 f0
f0 41 01 41 f5
51 41 01 00 51
40 41 01 00 40
54 41 00 41 51";

// TCON, port 3 at the last tick and now; then TCON.
const EXTERNALS: &str = "01 FF FB 03
01 FB FB 01
03 FB FF 03
00 FF FB 02
02 FB FF 00
04 FF F7 0C
0C F7 FF 0C
00 FF F7 08
08 F7 FF 00";

// Which of timer 0 and the serial port is chosen, which both ask: bit 0 of the index is ET0, bit 1 ES, bit 2 EA,
// bit 3 PT0, bit 4 PS, and bit 5 the low level in progress.
const CHOICES: &[u8] = b"-----TST-----TST-----TSS-----TST-------------T-T------SS-----TST";

// The value of the digit at a position of a row; 0 where there is none.
fn digit(row: &[u8], position: usize) -> u8 {
    match row.get(position) {
        Some(byte) => digit_value(*byte).unwrap_or(0),
        None => 0,
    }
}

// The byte of that index of a table's row, in which each byte is two hexadecimal digits with a blank after them.
fn at(row: &[u8], index: usize) -> u8 {
    let position = index.saturating_mul(3);
    let high = digit(row, position);
    let low = digit(row, position.saturating_add(1));
    high.wrapping_mul(16).wrapping_add(low)
}

// The levels of the ports, where all pins but these are high.
fn pins(port_1: u8, port_3: u8) -> Pins {
    Pins {
        p: [0xFF, port_1, 0xFF, port_3],
    }
}

// The processor at the reset, but that the registers at these addresses hold these bytes.
fn cpu_with(latches: &[(u8, u8)]) -> Cpu {
    let mut cpu = reset();
    for (address, value) in latches {
        cpu.set_latch(*address, *value);
    }
    cpu
}

// Whether the registers at these addresses hold these bytes.
fn holds(cpu: &Cpu, latches: &[(u8, u8)]) -> bool {
    latches
        .iter()
        .all(|(address, value)| cpu.latch(*address) == *value)
}

// One tick from these levels to those.
fn tick(cpu: &mut Cpu, before: Pins, now: Pins) {
    let mut periph = Periph::reset(&before);
    periph.tick(cpu, &now, &[], &[]);
}

// Whether timer 0 or 1 does what its row says.
fn timer_is(row: &[u8]) -> bool {
    let (high, low) = if at(row, 0) == 1 {
        (TH1, TL1)
    } else {
        (TH0, TL0)
    };
    let mut cpu = cpu_with(&[
        (TMOD, at(row, 1)),
        (TCON, at(row, 2)),
        (high, at(row, 3)),
        (low, at(row, 4)),
    ]);
    tick(&mut cpu, pins(0xFF, at(row, 5)), pins(0xFF, at(row, 6)));
    let latches = [(high, at(row, 7)), (low, at(row, 8)), (TCON, at(row, 9))];
    holds(&cpu, &latches)
}

// Whether timer 2 does.
fn timer_2_is(row: &[u8]) -> bool {
    let mut cpu = cpu_with(&[
        (T2CON, at(row, 0)),
        (TH2, at(row, 1)),
        (TL2, at(row, 2)),
        (RCAP2H, at(row, 3)),
        (RCAP2L, at(row, 4)),
    ]);
    tick(&mut cpu, pins(at(row, 5), 0xFF), pins(at(row, 6), 0xFF));
    let latches = [
        (TH2, at(row, 7)),
        (TL2, at(row, 8)),
        (RCAP2H, at(row, 9)),
        (RCAP2L, at(row, 10)),
        (T2CON, at(row, 11)),
    ];
    holds(&cpu, &latches)
}

// Whether the frame is taken as its row says.
fn frame_is(row: &[u8]) -> bool {
    let mut cpu = cpu_with(&[(SCON, at(row, 0))]);
    let high = pins(0xFF, 0xFF);
    let frame = Frame {
        byte: at(row, 1),
        ninth: at(row, 2) == 1,
    };
    let mut periph = Periph::reset(&high);
    periph.tick(&mut cpu, &high, &[frame], &[]);
    holds(&cpu, &[(SBUF, at(row, 3)), (SCON, at(row, 4))])
}

// Whether the pins ask as their row says.
fn external_is(row: &[u8]) -> bool {
    let mut cpu = cpu_with(&[(TCON, at(row, 0))]);
    tick(&mut cpu, pins(0xFF, at(row, 1)), pins(0xFF, at(row, 2)));
    cpu.latch(TCON) == at(row, 3)
}

#[test]
fn each_mode_of_timers_0_and_1_is_the_manuals(rt: HostRuntime) {
    for line in TIMERS.lines() {
        assert!(rt; timer_is(line.as_bytes()), "at {line}");
    }
}

#[test]
fn timer_2_counts_captures_reloads_and_gives_rates(rt: HostRuntime) {
    for line in TIMER_2.lines() {
        assert!(rt; timer_2_is(line.as_bytes()), "at {line}");
    }
}

#[test]
fn frames_are_taken_by_mode_and_sm2(rt: HostRuntime) {
    for line in FRAMES.lines() {
        assert!(rt; frame_is(line.as_bytes()), "at {line}");
    }
}

#[test]
fn external_interrupts_ask_by_edge_or_level(rt: HostRuntime) {
    for line in EXTERNALS.lines() {
        assert!(rt; external_is(line.as_bytes()), "at {line}");
    }
}

// The ticks until a byte that begins at once is sent, up to 2,000; 0 where it is not.
fn ticks_to_send(scon: u8, pcon: u8, t2con: u8) -> u16 {
    let mut cpu = cpu_with(&[
        (SCON, scon),
        (PCON, pcon),
        (T2CON, t2con),
        (TMOD, 0x20),
        (TCON, 0x40),
        (TH1, 0xFF),
        (TL1, 0xFF),
        (RCAP2H, 0xFF),
        (RCAP2L, 0xFF),
        (TH2, 0xFF),
        (TL2, 0xFF),
    ]);
    let high = pins(0xFF, 0xFF);
    let mut periph = Periph::reset(&high);
    periph.begin(&cpu, 0x41);
    for tick in 1..2000 {
        if periph.tick(&mut cpu, &high, &[], &[]).is_some() {
            return tick;
        }
    }
    0
}

#[test]
fn a_byte_takes_its_bit_times_at_each_rate(rt: HostRuntime) {
    for (scon, pcon, t2con, ticks) in [
        // Timer 1 overflows in each cycle: nine bit times of 32, or with SMOD of 16; mode 3 has ten.
        (0x40, 0x00, 0x00, 288),
        (0x40, 0x80, 0x00, 144),
        (0xC0, 0x00, 0x00, 320),
        (0xC0, 0x80, 0x00, 160),
        // Timer 2 gives the rate of sending by TCLK, where SMOD does not matter, and by RCLK only that of receiving.
        (0xC0, 0x00, 0x14, 27),
        (0xC0, 0x80, 0x14, 27),
        (0x40, 0x80, 0x14, 24),
        (0x40, 0x00, 0x24, 288),
        // Mode 0 has eight cycles; mode 2 ten bit times of 64 periods, or with SMOD of 32, at twelve a cycle.
        (0x00, 0x00, 0x00, 8),
        (0x80, 0x00, 0x00, 54),
        (0x80, 0x80, 0x00, 27),
    ] {
        assert!(rt;
            ticks_to_send(scon, pcon, t2con) == ticks,
            "at SCON {scon}, PCON {pcon} and T2CON {t2con}"
        );
    }
}

// Which of two sources that ask is chosen, by the bits of the index.
fn choice_of(index: u8) -> u8 {
    let enables = (if index & 0x01 != 0 { 0x02 } else { 0 })
        | (if index & 0x02 != 0 { 0x10 } else { 0 });
    let all = if index & 0x04 != 0 { 0x80 } else { 0 };
    let priorities = (if index & 0x08 != 0 { 0x02 } else { 0 })
        | (if index & 0x10 != 0 { 0x10 } else { 0 });
    let mut cpu = cpu_with(&[
        (TCON, 0x20),
        (SCON, 0x01),
        (IE, enables | all),
        (IP, priorities),
    ]);
    cpu.low = index & 0x20 != 0;
    match choose(&cpu) {
        None => b'-',
        Some(Source::Tf0) => b'T',
        Some(Source::Serial) => b'S',
        Some(_) => b'?',
    }
}

#[test]
fn all_enables_and_priorities_of_two_sources(rt: HostRuntime) {
    for index in 0..64u8 {
        let want = CHOICES.get(usize::from(index)).copied();
        assert!(rt; want == Some(choice_of(index)), "at {index}");
    }
}
