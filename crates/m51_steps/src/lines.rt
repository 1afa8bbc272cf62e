//! The line of a state.
ghost use Rattle.std.specs.Prelude.{◌≡◌, ◌≤◌, ◌+◌, ◌++◌, length, take, OnOk, OnErr, codes, slice_index};
ghost use Rattle.std.specs.Io.KnownBytes.{Appends};
ghost use Rattle.m51_cells.specs.Outside.{AppendsFront, HasCause};
ghost use Rattle.m51_sim.specs.Boards.{separate_of};
ghost use Rattle.m51_sim.specs.Effects.{instr_at};
ghost use Rattle.m51_steps.specs.Lines.{attempt_text, byte_if, bytes_text, front_text, instr_text, registers_text};
ghost use Rattle.m51_steps.specs.Lines.{short_name, state_line, state_text};
ghost use Rattle.m51_steps.specs.Lines.{bytes_of_cpu, field_text, pointer_text};
ghost use Rattle.m51_isa.specs.Spelling.{text_of};
ghost use Rattle.m51_monitor.specs.Records.{current};
ghost use Rattle.m51_print.specs.Map.{unit_title};

use crate::writing::write_front;
use m51_flat::Cpu;
use m51_isa::{Code, Instr, decode, encode, spelling_of};
use m51_print::{put, put_decimal, put_hex2, put_hex4, unit_title};
use m51_sfr::addresses::{ACC, B, DPH, DPL, PSW, SP};
use m51_shelf::{Failed, Sink};
use m51_sim::{Attempt, Board};

// Puts the number of steps, the cycle and PC at the start of the line.
fn put_front(into: &mut [u8; 128], steps: u32, cycle: u64, pc: u16) -> usize
    ensures bound { result ≤ 47 }
    ensures written { take result into.new ≡ front_text steps cycle pc }
{
    let at = put_decimal(into, 0, u64::from(steps));
    let at = put(into, at, b"\t");
    let at = put_decimal(into, at, cycle);
    let at = put(into, at, b"\t");
    let at = put_hex4(into, at, pc);
    put(into, at, b"\t")
}

// Puts a byte, if it is one of the instruction.
fn put_byte_if(into: &mut [u8; 128], at: usize, is: bool, byte: u8) -> usize
    requires { at + 2 ≤ 128 }
    ensures bound { result ≤ at + 2 }
    ensures written { take result into.new ≡ take at into.old ++ byte_if is byte }
{
    if is { put_hex2(into, at, byte) } else { at }
}

// Puts the first bytes of three.
fn put_bytes(into: &mut [u8; 128], at: usize, code: &Code) -> usize
    requires { at + 6 ≤ 128 }
    ensures bound { result ≤ at + 6 }
    ensures written { take result into.new ≡ take at into.old ++ bytes_text code.now.bytes code.now.len }
{
    let at = put_hex2(into, at, code.bytes[0]);
    let at = put_byte_if(into, at, code.len > 1, code.bytes[1]);
    put_byte_if(into, at, code.len > 2, code.bytes[2])
}

// Puts a mnemonic, of which no more than eight letters are written.
fn put_name(into: &mut [u8; 128], at: usize, name: &[u8]) -> usize
    requires { at + 8 ≤ 128 }
    ensures bound { result ≤ at + 8 }
    ensures written { take result into.new ≡ take at into.old ++ short_name name.now }
{
    put(into, at, &name[..name.len().min(8)])
}

// The mnemonic of an instruction.
fn name_of(instr: &Instr) -> &'static [u8]
    ensures { result.now ≡ (text_of instr.now).mnemonic }
{
    spelling_of(instr).mnemonic
}

// Puts a mnemonic and the bytes of the instruction.
#[tactic(auto, unfolding(crate::specs::Lines::instr_text))]
pub(crate) fn put_instr(into: &mut [u8; 128], at: usize, instr: &Instr) -> usize
    requires { at + 15 ≤ 128 }
    ensures bound { result ≤ at + 15 }
    ensures written { take result into.new ≡ take at into.old ++ instr_text instr.now }
{
    let at = put_name(into, at, name_of(instr));
    let at = put(into, at, b" ");
    put_bytes(into, at, &encode(instr))
}

// The byte at an address.
fn byte(image: &[u8], address: u16) -> u8
    requires { length image.now ≡ 65536 }
    ensures { result ≡ slice_index image.now address }
{
    image[usize::from(address)]
}

// The instruction that begins at an address.
#[tactic(auto, unfolding(m51_sim::specs::Effects::instr_at))]
pub(crate) fn instr_at(image: &[u8], at: u16) -> Option<Instr>
    requires { length image.now ≡ 65536 }
    ensures { result ≡ instr_at image.now at }
{
    decode([
        byte(image, at),
        byte(image, at.wrapping_add(1)),
        byte(image, at.wrapping_add(2)),
    ])
}

// Puts what the next step is.
fn put_attempt(into: &mut [u8; 128], at: usize, attempt: &Attempt) -> usize
    requires { at + 15 ≤ 128 }
    ensures bound { result ≤ at + 15 }
    ensures written { take result into.new ≡ take at into.old ++ attempt_text attempt.now }
{
    match attempt {
        Attempt::Vectoring(source) => {
            let at = put(into, at, b"VECTOR ");
            put_hex4(into, at, source.vector())
        }
        Attempt::Idling => put(into, at, b"IDLE"),
        Attempt::Executing(instr) => put_instr(into, at, instr),
        Attempt::Refusing => put(into, at, b"RESERVED A5"),
    }
}

// Puts a tab and a byte.
#[tactic(auto, unfolding(crate::specs::Lines::field_text))]
fn put_field(into: &mut [u8; 128], at: usize, byte: u8) -> usize
    requires { at + 3 ≤ 128 }
    ensures end { result ≡ at + 3 }
    ensures written { take result into.new ≡ take at into.old ++ field_text byte }
{
    let at = put(into, at, b"\t");
    put_hex2(into, at, byte)
}

// Puts A, B, PSW and SP.
#[tactic(auto, unfolding(crate::specs::Lines::bytes_of_cpu))]
fn put_bytes_of_cpu(into: &mut [u8; 128], at: usize, cpu: &Cpu) -> usize
    requires { at + 12 ≤ 128 }
    ensures end { result ≡ at + 12 }
    ensures written { take result into.new ≡ take at into.old ++ bytes_of_cpu cpu.now }
{
    let at = put_field(into, at, cpu.latch(ACC));
    let at = put_field(into, at, cpu.latch(B));
    let at = put_field(into, at, cpu.latch(PSW));
    put_field(into, at, cpu.latch(SP))
}

// Puts DPTR, with a tab after it.
#[tactic(auto, unfolding(crate::specs::Lines::pointer_text))]
fn put_pointer(into: &mut [u8; 128], at: usize, cpu: &Cpu) -> usize
    requires { at + 6 ≤ 128 }
    ensures end { result ≡ at + 6 }
    ensures written { take result into.new ≡ take at into.old ++ pointer_text cpu.now }
{
    let at = put_field(into, at, cpu.latch(DPH));
    let at = put_hex2(into, at, cpu.latch(DPL));
    put(into, at, b"\t")
}

// Puts the registers.
fn put_registers(into: &mut [u8; 128], at: usize, cpu: &Cpu) -> usize
    requires { at + 18 ≤ 128 }
    ensures bound { result ≤ at + 18 }
    ensures written { take result into.new ≡ take at into.old ++ registers_text cpu.now }
{
    let at = put_bytes_of_cpu(into, at, cpu);
    put_pointer(into, at, cpu)
}

// The title of the current unit.
fn current_title(board: &Board) -> &[u8]
    ensures title { result.now ≡ unit_title board.now.monitor.layout (current board.now.monitor.records) }
    ensures most { length result.now ≤ 31 }
{
    let monitor = board.monitor();
    unit_title(monitor.layout(), monitor.current()).bytes()
}

// Puts the line of the state after this number of steps, without its end, at the start of the array.
#[tactic(auto, unfolding(crate::specs::Lines::state_text))]
fn put_state(into: &mut [u8; 128], board: &Board, steps: u32) -> usize
    ensures bound { result ≤ 112 }
    ensures written { take result into.new
        ≡ state_text board.now.monitor.layout board.now.chip.image steps (separate_of board.now) }
{
    let at = put_front(into, steps, board.cycle(), board.cpu().pc);
    let at = put_attempt(into, at, &board.attempt());
    let at = put_registers(into, at, board.cpu());
    put(into, at, current_title(board))
}

// Writes the line of the state after this number of steps.
pub(crate) fn write_state_line<S: Sink>(
    out: &mut S,
    board: &Board,
    steps: u32,
) -> Result<(), Failed>
    ensures whole { OnOk result (Appends (S.state out.old).text (S.state out.new).text
        (state_line board.now.monitor.layout board.now.chip.image steps (separate_of board.now))) }
    ensures front { OnErr result (AppendsFront (S.state out.old).text (S.state out.new).text
        (state_line board.now.monitor.layout board.now.chip.image steps (separate_of board.now))) }
    ensures cause { HasCause (S.state out.old).faults (S.state out.new).faults result }
{
    let mut line = [0u8; 128];
    let at = put_state(&mut line, board, steps);
    let len = put(&mut line, at, b"\n");
    write_front(out, &line[..len])
}

// Writes the state after this number of steps, without the end of its line.
pub(crate) fn write_state<S: Sink>(out: &mut S, board: &Board, steps: u32) -> Result<(), Failed>
    ensures whole { OnOk result (Appends (S.state out.old).text (S.state out.new).text
        (state_text board.now.monitor.layout board.now.chip.image steps (separate_of board.now))) }
    ensures front { OnErr result (AppendsFront (S.state out.old).text (S.state out.new).text
        (state_text board.now.monitor.layout board.now.chip.image steps (separate_of board.now))) }
    ensures cause { HasCause (S.state out.old).faults (S.state out.new).faults result }
{
    let mut line = [0u8; 128];
    let len = put_state(&mut line, board, steps);
    write_front(out, &line[..len])
}
