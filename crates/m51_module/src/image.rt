//! Images of program memory.
ghost use Rattle.std.specs.Prelude.{◌≡◌, length, slice_set, IfOk};
ghost use Rattle.m51_module.specs.Image.{IsErased, IsBlank};

use m51_cells::NoMemory;
use std::alloc::{AllocError, Global};
use std::marker::Model;

/// How many bytes program memory has.
///
/// Source: own choice ("Images").
pub const IMAGE_LEN: usize = 65536;

/// An image of program memory: a byte for each of its 65,536 addresses, which contracts see as the list of them.
///
/// Source: own choice ("Images").
#[derive(Drop)]
pub struct Image {
    bytes: Vec<u8>,
}

impl Model for Image {
    ghost use Rattle.std.specs.Prelude.{◌≡◌, ℕ, List, length};
    ghost use Rattle.m51_module.specs.declared.image.TheConstants.{IMAGE_LEN};

    ghost Value = { List ℕ };

    ghost view = { λ i. i.bytes.items };

    ghost invariant = { λ i. length i.bytes.items ≡ IMAGE_LEN };
}

// `count` bytes, each FFH.
#[tactic(auto, using(crate::proofs::Erased::erased))]
fn erased(alloc: Global, count: usize) -> Result<Vec<u8>, AllocError>
    ensures { IfOk result (λ bytes. IsErased count bytes.items) }
{
    vec![in alloc; 0xFF; count]
}

impl Image {
    /// The image of a memory that is erased: all bytes are FFH. Error: out of memory.
    ///
    /// Source: own choice ("Images").
    pub fn blank(alloc: Global) -> Result<Image, NoMemory>
        ensures { IfOk result (λ image. IsBlank image) }
    {
        let bytes = erased(alloc, IMAGE_LEN)?;
        Ok(Image { bytes })
    }

    /// Writes the byte at the address.
    ///
    /// Source: own choice ("Images").
    pub fn set(&mut self, address: u16, byte: u8)
        ensures { self.new ≡ slice_set self.old address byte }
    {
        self.bytes[usize::from(address)] = byte;
    }

    /// The bytes, by address.
    ///
    /// Source: own choice ("Images").
    pub fn bytes(&self) -> &[u8]
        ensures list { result.now ≡ self.now }
        ensures whole { length result.now ≡ IMAGE_LEN }
    {
        &self.bytes
    }
}
