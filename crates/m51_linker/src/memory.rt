//! Program memory while it is filled: the bytes of content, which some addresses lack, and the image.
ghost use Rattle.std.specs.Prelude.{◌≡◌, ◌+◌, ◌≤◌, ℕ, [], ◌∷◌, IfOk, None, length, slice_index_or, unwrap_or, vec_len};
ghost use Rattle.m51_fields.specs.Fields.{bytes_of_field};
ghost use Rattle.m51_linker.specs.Stretches.{stretch_at};
ghost use Rattle.m51_linker.specs.Memory.{HoldsStretches, AreWritten, IsErasedBut, held_at, image_at};

use m51_cells::{NoMemory, cite};
use m51_fields::FieldBytes;
use m51_module::{IMAGE_LEN, Image};
use std::alloc::{AllocError, Global};

// A memory of `count` addresses, none of them with a byte.
fn nothing(alloc: Global, count: usize) -> Result<Vec<Option<u8>>, AllocError>
    ensures len { IfOk result (λ memory. vec_len memory ≡ count) }
    ensures none { IfOk result (λ memory. (address : ℕ) → slice_index_or memory.items address None ≡ None) }
{
    vec![in alloc; None; count]
}

// Program memory with no byte in it.
pub(crate) fn empty_memory(alloc: Global) -> Result<Vec<Option<u8>>, NoMemory>
    ensures { IfOk result (λ memory. HoldsStretches [] memory.items) }
{
    Ok(nothing(alloc, IMAGE_LEN)?)
}

// Puts the bytes from the address on.
pub(crate) fn put(memory: &mut [Option<u8>], at: usize, bytes: &[u8])
    requires { at + length bytes.now ≤ length memory.old }
    ensures { AreWritten ((record { at = at; bytes = bytes.now }) ∷ []) (held_at memory.old) (held_at memory.new) }
{
    for (index, byte) in bytes.iter().enumerate() {
        memory[at + index] = Some(*byte);
    }
}

// The byte at the address, FFH where the memory has none.
pub(crate) fn byte_or_erased(memory: &[Option<u8>], address: usize) -> u8
    ensures { result ≡ unwrap_or (held_at memory.now address) 0xFF }
{
    match memory.get(address) {
        Some(Some(byte)) => *byte,
        _ => 0xFF,
    }
}

// The image of the memory: FFH where the memory has no byte.
pub(crate) fn image_of(alloc: Global, memory: &[Option<u8>]) -> Result<Image, NoMemory>
    requires { length memory.now ≡ IMAGE_LEN }
    ensures { IfOk result (λ image. IsErasedBut memory.now IMAGE_LEN image) }
{
    let mut image = Image::blank(alloc)?;
    for (address, byte) in memory.iter().enumerate() {
        image.set(address as u16, byte.unwrap_or(0xFF));
    }
    Ok(image)
}

// Puts the bytes into the image from the address on.
fn put_bytes(image: &mut Image, at: usize, bytes: &[u8])
    requires { at + length bytes.now ≤ IMAGE_LEN }
    ensures { AreWritten ((record { at = at; bytes = bytes.now }) ∷ []) (image_at image.old) (image_at image.new) }
{
    // For the proof only: reading the image exposes its length.
    cite(image.bytes());
    for (index, byte) in bytes.iter().enumerate() {
        image.set((at + index) as u16, *byte);
    }
}

// Puts the bytes of a field into the image at the address.
pub(crate) fn put_field(image: &mut Image, at: usize, field: FieldBytes)
    requires { at + length (bytes_of_field field) ≤ IMAGE_LEN }
    ensures { AreWritten (stretch_at at field ∷ []) (image_at image.old) (image_at image.new) }
{
    match field {
        FieldBytes::One(byte) => put_bytes(image, at, &[byte]),
        FieldBytes::Two(first, second) => put_bytes(image, at, &[first, second]),
    }
}
