//! Transfers of control for which two or three rules of the table fail, and which of them comes first.
use crate::monitor_run::{Act, MonitorRun, PcAndSp};
use m51_cells::{Event, NoMemory, Why, digit_value};
use m51_flat::Source;
use std::alloc::Global;

// Each row: the record on top (only that of the reset, that of a call to the unit at 50H, or that of the interrupt at
// 0003H; SP of the last two is 42H, and their return address 0000H), PC and SP before the step, what it does, the
// target and SP there, the rule that is named, and those that fail after it. The steps tick and lost are the
// interrupts at 0003H and 001BH, of which the second has no root.
const ROWS: &str = "C 5F 42 next 60 41 PastEnd SpBelow
C 5F 42 next 30 00 PastEnd SpBelow
I 05 42 next 06 41 PastEnd SpBelow
C 50 42 jump 90 41 NoUnit SpBelow
I 03 42 jump 90 41 NoUnit SpBelow
C 50 42 jump 30 41 NoEdge SpBelow
I 03 42 jump 0B 41 NoEdge SpBelow
C 50 42 call 90 43 NoUnit SpBelow
I 03 42 call 90 43 NoUnit SpBelow
C 50 42 call 30 43 NoEdge SpBelow
I 03 42 call 0B 43 NoEdge SpBelow
R 00 42 ret_ 90 40 NotCalled PastEnd
I 03 43 ret_ 00 41 NotCalled SpMoved
I 03 42 ret_ 02 40 NotCalled WrongAddress
I 03 42 ret_ 90 40 NotCalled WrongAddress PastEnd
C 50 43 ret_ 02 41 SpMoved WrongAddress
C 50 41 ret_ 90 3F SpMoved WrongAddress PastEnd
C 50 42 ret_ 90 40 WrongAddress PastEnd
R 00 42 reti 90 40 NotCalled PastEnd
C 50 43 reti 00 41 NotCalled SpMoved
C 50 42 reti 02 40 NotCalled WrongAddress
C 50 42 reti 90 40 NotCalled WrongAddress PastEnd
I 03 43 reti 02 41 SpMoved WrongAddress
I 03 41 reti 90 3F SpMoved WrongAddress PastEnd
I 03 42 reti 90 40 WrongAddress PastEnd
C 50 42 lost 1B 43 NoHandler SpBelow
I 03 42 lost 1B 43 NoHandler SpBelow
I 03 42 tick 03 43 RootBusy SpBelow";

// The byte of a row.
fn at(row: &[u8], index: usize) -> u8 {
    row.get(index).copied().unwrap_or(0)
}

// The byte of two digits of a table's row.
fn byte(row: &[u8], index: usize) -> u8 {
    let high = digit_value(at(row, index)).unwrap_or(0);
    let low = digit_value(at(row, index.saturating_add(1))).unwrap_or(0);
    high.wrapping_mul(16).wrapping_add(low)
}

// An address and SP of a table's row.
fn spot(row: &[u8], index: usize) -> PcAndSp {
    PcAndSp {
        pc: byte(row, index),
        sp: byte(row, index.saturating_add(3)),
    }
}

// What the step of a row does.
fn act(row: &[u8]) -> Act {
    match (at(row, 8), at(row, 11)) {
        (b'n', _) => Act::Next,
        (b'j', _) => Act::Jump,
        (b'c', _) => Act::Call,
        (b'l', _) => Act::Vector(Source::Tf1),
        (b't', _) => Act::Vector(Source::Ie0),
        (_, b'i') => Act::Reti,
        _ => Act::Ret,
    }
}

// The rule that a row names, by its first and third letters.
fn why(row: &[u8]) -> Option<Why> {
    match (at(row, 19), at(row, 21)) {
        (b'P', b's') => Some(Why::PastEnd),
        (b'N', b'U') => Some(Why::NoUnit),
        (b'N', b'E') => Some(Why::NoEdge),
        (b'N', b't') => Some(Why::NotCalled),
        (b'S', b'M') => Some(Why::SpMoved),
        (b'W', b'o') => Some(Why::WrongAddress),
        (b'N', b'H') => Some(Why::NoHandler),
        (b'R', b'o') => Some(Why::RootBusy),
        _ => None,
    }
}

// The cause of an event of a transfer between these addresses.
fn cause(event: Event, from: u8, to: u8) -> Option<Why> {
    match event {
        Event::Transfer {
            why,
            from: pc,
            to: target,
        } => (pc == u16::from(from) && target == u16::from(to)).then_some(why),
        _ => None,
    }
}

// The rule that fails first is the one that the row names.
fn holds(run: &MonitorRun, row: &[u8]) -> bool {
    let (from, to) = (spot(row, 2), spot(row, 13));
    match run.judge(from, act(row), to) {
        Ok(_) => false,
        Err(event) => why(row).is_some() && cause(event, from.pc, to.pc) == why(row),
    }
}

// A monitor with that record on top.
fn with_top(alloc: Global, letter: u8) -> Result<MonitorRun, NoMemory> {
    let mut run = MonitorRun::start(alloc)?;
    let (act, to) = match letter {
        b'C' => (Act::Call, PcAndSp { pc: 0x50, sp: 0x42 }),
        b'I' => (Act::Vector(Source::Ie0), PcAndSp { pc: 3, sp: 0x42 }),
        _ => (Act::Next, PcAndSp { pc: 0, sp: 0x40 }),
    };
    let _step = run.go(PcAndSp { pc: 0, sp: 0x40 }, act, to);
    Ok(run)
}

// The row holds for a monitor with the record on top that it names.
fn row_holds(alloc: Global, row: &[u8]) -> bool {
    match with_top(alloc, at(row, 0)) {
        Ok(run) => holds(&run, row),
        Err(_) => false,
    }
}

#[test]
fn of_two_rules_that_fail_the_first_is_named(rt: HostRuntime) {
    assert!(rt; ROWS.lines().count() == 28);
    for row in ROWS.lines() {
        assert!(rt; row_holds(rt.alloc(), row.as_bytes()), "at {row}");
    }
}
