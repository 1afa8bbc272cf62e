//! The special function registers.
ghost use Rattle.std.specs.Prelude.{◌≡◌, ◌-◌, ◌≤◌, ◌<◌, IfSome};
ghost use Rattle.m51_flat.specs.Sfr.{port_of, with_bit, with_parity, with_sfr};

use crate::state::Effect;
use m51_alu::parity;
use m51_sfr::addresses::{ACC, IE, IP, P0, P1, P2, P3, PSW, SBUF};
use m51_sfr::is_register;

/// The index of a register in the list of registers.
pub(crate) fn index(address: u8) -> usize
    requires { 128 ≤ address }
    ensures value { result ≡ address - 0x80 }
    ensures in_range { result < 128 }
{
    usize::from(address - 0x80)
}

/// The number of the port whose latch is at this address.
#[tactic(auto, unfolding(crate::specs::Sfr::port_of))]
pub(crate) fn port_at(address: u8) -> Option<u8>
    ensures value { result ≡ port_of address }
    ensures number { IfSome result (λ k. k < 4) }
{
    match address {
        P0 => Some(0),
        P1 => Some(1),
        P2 => Some(2),
        P3 => Some(3),
        _ => None,
    }
}

/// A byte with one bit replaced.
#[tactic(auto, unfolding(crate::specs::Sfr::with_bit))]
pub(crate) fn replace_bit(byte: u8, number: u8, bit: bool) -> u8
    requires { number < 8 }
    ensures { result ≡ with_bit byte number bit }
{
    if bit {
        byte | 1 << number
    } else {
        byte & !(1 << number)
    }
}

/// Makes bit 0 of PSW the parity of ACC.
#[tactic(auto, unfolding(crate::specs::Sfr::with_parity))]
fn set_parity(regs: &mut [u8; 128])
    ensures { regs.new ≡ with_parity regs.old }
{
    let acc = regs[index(ACC)];
    let psw = regs[index(PSW)];
    regs[index(PSW)] = replace_bit(psw, 0, parity(acc));
}

/// Writes a register.
#[tactic(auto, unfolding(crate::specs::Sfr::with_sfr))]
pub(crate) fn write_sfr(effect: &mut Effect, address: u8, value: u8)
    ensures { effect.new ≡ with_sfr address value effect.old }
{
    if address == SBUF {
        effect.sbuf = Some(value);
    } else if is_register(address) {
        effect.cpu.regs[index(address)] = value;
        set_parity(&mut effect.cpu.regs);
        effect.cpu.held = effect.cpu.held || address == IE || address == IP;
        effect.port = port_at(address).or(effect.port);
    }
}
