//! The registers as devices and interrupts see them.
ghost use Rattle.std.specs.Prelude.{◌≡◌, ◌<◌};
ghost use Rattle.m51_flat.specs.Sfr.{flag, found, latch, with_flag, with_latch};

use crate::sfr::{index, port_at, replace_bit};
use crate::state::{Cpu, Pins};
use m51_sfr::is_register;

impl Cpu {
    /// What the register at an address holds: of a port its latch, of SBUF the received byte; 0 where there is no
    /// register.
    ///
    /// Source: family manual; own choice ("Registers that are not there").
    #[tactic(auto, unfolding(crate::specs::Sfr::latch))]
    pub fn latch(&self, address: u8) -> u8
        ensures { result ≡ latch self.now address }
    {
        if is_register(address) {
            self.regs[index(address)]
        } else {
            0
        }
    }

    /// Whether a bit of a register is 1: bit 0 is the lowest, and `bit` is 0 to 7.
    ///
    /// Source: family manual.
    #[tactic(auto, unfolding(crate::specs::Sfr::flag))]
    pub fn flag(&self, address: u8, bit: u8) -> bool
        requires { bit < 8 }
        ensures { result ≡ flag self.now address bit }
    {
        self.latch(address) >> bit & 1 == 1
    }

    /// What a read of the register finds: of a port the levels of its pins.
    ///
    /// Source: family manual.
    #[tactic(auto, unfolding(crate::specs::Sfr::found))]
    pub fn found(&self, ext: &Pins, address: u8) -> u8
        ensures { result ≡ found self.now ext.now address }
    {
        let latch = self.latch(address);
        match port_at(address) {
            Some(port) => latch & ext.p[usize::from(port)],
            None => latch,
        }
    }

    /// Stores a byte in the register at an address, as a device does: no port is reported, nothing sent, no interrupt
    /// is held off, and PSW keeps its bit 0. An address without a register ignores it.
    ///
    /// Source: family manual; own choice ("Devices and registers").
    #[tactic(auto, unfolding(crate::specs::Sfr::with_latch))]
    pub fn set_latch(&mut self, address: u8, value: u8)
        ensures { self.new ≡ with_latch self.old address value }
    {
        if is_register(address) {
            self.regs[index(address)] = value;
        }
    }

    /// Writes one bit, 0 to 7, of the register at an address, as a device does: the other seven stay, and all else is
    /// as for `set_latch`.
    ///
    /// Source: family manual; own choice ("Devices and registers").
    #[tactic(auto, unfolding(crate::specs::Sfr::with_flag))]
    pub fn set_flag(&mut self, address: u8, bit: u8, value: bool)
        requires { bit < 8 }
        ensures { self.new ≡ with_flag self.old address bit value }
    {
        let byte = self.latch(address);
        self.set_latch(address, replace_bit(byte, bit, value));
    }
}
