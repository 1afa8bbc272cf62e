//! The bytes of program memory, and the instruction at each address.
ghost use Rattle.std.specs.Prelude.{◌≡◌, length, not, slice_index, IfOk};
ghost use Rattle.m51_sim.specs.Effects.{instr_at};
ghost use Rattle.m51_sim.specs.Plain.{is_other, is_plain, leaves_others};
ghost use Rattle.m51_sim.specs.Rows.{AreDecodedRows};

use m51_cells::NoMemory;
use m51_isa::{Instr, Written, decode, written_of};
use m51_module::Image;
use m51_sfr::addresses::{ACC, B, DPH, DPL, PSW, SP};
use std::alloc::Global;
use std::marker::Model;

/// The instruction that begins at an address, none at the reserved opcode, and whether it is plain: it writes no
/// register by its operands but A, B, PSW, SP and DPTR, which no device looks at.
#[derive(Clone, Copy)]
pub(crate) struct Row {
    pub(crate) instr: Option<Instr>,
    pub(crate) plain: bool,
}

/// The bytes of program memory, and the row of each address. No step writes program memory, so each address is decoded
/// once.
#[derive(Drop)]
pub(crate) struct Program {
    image: Image,
    rows: Vec<Row>,
}

impl Model for Program {
    ghost use Rattle.std.specs.Prelude.{ℕ, List};
    ghost use Rattle.m51_sim.specs.Rows.{AreDecodedRows};

    ghost Value = { List ℕ };

    ghost view = { λ p. p.image };

    ghost invariant = { λ p. AreDecodedRows p.image p.rows.items 65536 };
}

// The byte of the image at an address.
fn byte(image: &Image, address: u16) -> u8
    ensures { result ≡ slice_index image.now address }
{
    image.bytes()[usize::from(address)]
}

// The instruction that begins at an address.
#[tactic(auto, unfolding(crate::specs::Effects::instr_at))]
fn instr_at(image: &Image, at: u16) -> Option<Instr>
    ensures { result ≡ instr_at image.now at }
{
    decode([
        byte(image, at),
        byte(image, at.wrapping_add(1)),
        byte(image, at.wrapping_add(2)),
    ])
}

// The address is that of a register other than A, B, PSW, SP and DPTR.
fn is_other(address: u8) -> bool
    ensures { result ≡ is_other address }
{
    let own = address == SP
        || address == DPL
        || address == DPH
        || address == PSW
        || address == ACC
        || address == B;
    128 <= address && !own
}

// What is written at the address of an operand is no other register, and no bit of one.
fn leaves_others(written: Written) -> bool
    ensures { result ≡ leaves_others written }
{
    match written {
        Written::Nothing => true,
        Written::Direct(address) => !is_other(address),
        Written::Bit(bit) | Written::BitIfSet(bit) => !is_other(bit - bit % 8),
    }
}

// Whether an instruction is plain.
fn is_plain(instr: &Option<Instr>) -> bool
    ensures { result ≡ is_plain instr.now }
{
    match instr {
        None => false,
        Some(instr) => leaves_others(written_of(instr)),
    }
}

// The row of each address.
#[tactic(auto, using(crate::proofs::Decoded::no_rows, crate::proofs::Decoded::one_row))]
fn rows(alloc: Global, image: &Image) -> Result<Vec<Row>, NoMemory>
    ensures { IfOk result (λ rows. AreDecodedRows image.now rows.items 65536) }
{
    let mut rows = Vec::with_capacity(alloc, 65_536)?;
    for at in 0..65_536_usize {
        let instr = instr_at(image, at as u16);
        let plain = is_plain(&instr);
        rows.push(Row { instr, plain })?;
    }
    Ok(rows)
}

impl Program {
    /// The program of this image. Error: out of memory.
    pub(crate) fn make(alloc: Global, image: Image) -> Result<Program, NoMemory>
        ensures { IfOk result (λ program. program ≡ image) }
    {
        let rows = rows(alloc, &image)?;
        Ok(Program { image, rows })
    }

    /// The bytes.
    pub(crate) fn bytes(&self) -> &[u8]
        ensures list { result.now ≡ self.now }
        ensures whole { length result.now ≡ 65536 }
    {
        self.image.bytes()
    }

    /// The instruction that begins at an address.
    #[inline(always)]
    pub(crate) fn instr(&self, at: u16) -> Option<Instr>
        ensures { result ≡ instr_at self.now at }
    {
        self.rows[usize::from(at)].instr
    }

    /// Whether it is plain.
    #[inline(always)]
    pub(crate) fn is_plain(&self, at: u16) -> bool
        ensures { result ≡ is_plain (instr_at self.now at) }
    {
        self.rows[usize::from(at)].plain
    }
}
