//! What no clause says: worked choices.
use m51_flat::{Cpu, Source, reset};
use m51_irq::choose;

/// The processor after a reset, with these registers.
fn processor(tcon: u8, scon: u8, ie: u8, ip: u8, t2con: u8) -> Cpu {
    let mut cpu = reset();
    cpu.regs[0x08] = tcon;
    cpu.regs[0x18] = scon;
    cpu.regs[0x28] = ie;
    cpu.regs[0x38] = ip;
    cpu.regs[0x48] = t2con;
    cpu
}

/// The source that is chosen where TCON, SCON, IE, IP and T2CON are these, by whether an interrupt of the low level is
/// in progress, one of the high level is, and interrupts are held off.
fn chosen(registers: [u8; 5], low: bool, high: bool, held: bool) -> Option<Source> {
    let [tcon, scon, ie, ip, t2con] = registers;
    let mut cpu = processor(tcon, scon, ie, ip, t2con);
    cpu.low = low;
    cpu.high = high;
    cpu.held = held;
    choose(&cpu)
}

// Timer 0 asks, with high priority.
const TIMER_0: [u8; 5] = [0x20, 0x00, 0x82, 0x02, 0x00];

#[test]
fn one_is_chosen_by_flags_enables_and_priorities(rt: HostRuntime) {
    for (registers, low, high, held, want) in [
        // All ask: those of high priority come first, and the others wait for the end of a low one.
        (
            [0xAA, 0x02, 0xBF, 0x18, 0x40],
            false,
            false,
            false,
            Some(Source::Tf1),
        ),
        (
            [0xAA, 0x02, 0xBF, 0x18, 0x40],
            true,
            false,
            false,
            Some(Source::Tf1),
        ),
        ([0xAA, 0x02, 0xBF, 0x00, 0x40], true, false, false, None),
        (
            [0xAA, 0x02, 0xBF, 0x00, 0x40],
            false,
            false,
            false,
            Some(Source::Ie0),
        ),
        // None is taken after RETI, over the high level, or while EA is 0.
        (TIMER_0, false, false, false, Some(Source::Tf0)),
        (TIMER_0, false, false, true, None),
        (TIMER_0, false, true, false, None),
        ([0x20, 0x00, 0x02, 0x02, 0x00], false, false, false, None),
        // The serial port and timer 2 have two flags.
        (
            [0x00, 0x01, 0x90, 0x00, 0x00],
            false,
            false,
            false,
            Some(Source::Serial),
        ),
        (
            [0x00, 0x02, 0x90, 0x00, 0x00],
            false,
            false,
            false,
            Some(Source::Serial),
        ),
        (
            [0x00, 0x00, 0xA0, 0x00, 0x80],
            false,
            false,
            false,
            Some(Source::Timer2),
        ),
        (
            [0x00, 0x00, 0xA0, 0x00, 0x40],
            false,
            false,
            false,
            Some(Source::Timer2),
        ),
    ] {
        assert!(rt;
            chosen(registers, low, high, held) == want,
            "at {registers:?}, low {low}, high {high}, held {held}"
        );
    }
}
