//! Puts the content of modules where it is placed.
ghost use Rattle.std.specs.Prelude.{◌≡◌, IfOk, Some, length, slice_get};
ghost use Rattle.m51_linker.specs.Image.{content_of, module_content};
ghost use Rattle.m51_linker.specs.Memory.{HoldsStretches, AreWritten, held_at};
ghost use Rattle.m51_linker.specs.Ready.{ArePlaced};

use crate::addresses::address_of;
use crate::memory::{empty_memory, put};
use m51_cells::NoMemory;
use m51_module::Module;
use m51_place::Placing;
use m51_resolve::Joined;
use std::alloc::Global;

// Puts the pieces of these parts, which are those of the module.
fn fill_module(
    memory: &mut [Option<u8>],
    joined: &Joined,
    placing: &Placing,
    module: u8,
    parts: &Module,
)
    requires placed { ArePlaced joined.now placing.now }
    requires there { slice_get joined.now «module» ≡ Some parts.now }
    requires whole { length memory.old ≡ 65536 }
    ensures { AreWritten (module_content joined.now placing.now «module»)
        (held_at memory.old) (held_at memory.new) }
{
    for piece in parts.pieces() {
        let at = address_of(joined, placing, module, piece.segment, piece.offset);
        put(memory, at, piece.bytes.as_slice());
    }
}

// Puts the content of the modules.
fn fill(memory: &mut [Option<u8>], joined: &Joined, placing: &Placing)
    requires placed { ArePlaced joined.now placing.now }
    requires whole { length memory.old ≡ 65536 }
    ensures { AreWritten (content_of joined.now placing.now) (held_at memory.old) (held_at memory.new) }
{
    for (module, parts) in joined.modules().iter().enumerate() {
        fill_module(memory, joined, placing, module as u8, parts);
    }
}

// The content of the modules, by address.
pub(crate) fn content_of(
    alloc: Global,
    joined: &Joined,
    placing: &Placing,
) -> Result<Vec<Option<u8>>, NoMemory>
    requires { ArePlaced joined.now placing.now }
    ensures { IfOk result (λ memory. HoldsStretches (content_of joined.now placing.now) memory.items) }
{
    let mut memory = empty_memory(alloc)?;
    fill(&mut memory, joined, placing);
    Ok(memory)
}
