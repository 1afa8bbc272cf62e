//! The data of a record put into an image.
ghost use Rattle.std.specs.Prelude.{◌≡◌, ◌+◌, ◌≤◌, length};
ghost use Rattle.m51_hex.specs.Memory.{memory_in, stored};
ghost use Rattle.m51_hex.specs.Record.{seen};

use crate::records::HexRecord;
use m51_module::Image;

// Puts the data of a record at its address, over the bytes that were there.
pub(crate) fn store(image: &mut Image, record: &HexRecord<'_>)
    requires whole { length image.old ≡ 0x10000 }
    requires within { «record».now.address + length «record».now.bytes.now ≤ 0x10000 }
    ensures memory { memory_in image.new ≡ stored (memory_in image.old) (seen «record».now) }
    ensures whole { length image.new ≡ 0x10000 }
{
    for (offset, byte) in record.bytes.iter().enumerate() {
        image.set(record.address + offset as u16, *byte);
    }
}
