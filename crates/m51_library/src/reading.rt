//! Reads a library.
ghost use Rattle.std.specs.Prelude.{◌≡◌, ◌≢◌, ◌<◌, ◌^◌, List, length, All, IfOk, IfErr, Ok};
ghost use Rattle.m51_cells.specs.Outcome.{Gives};
ghost use Rattle.m51_module.specs.declared.parts.ModuleParts.{ModuleParts};
ghost use Rattle.m51_module.specs.Library.{IsLibrary, refusal_of};
ghost use Rattle.m51_module.specs.Validity.{IsValid};
ghost use Rattle.m51_library.specs.Spelling.{library_bytes};
ghost use Rattle.m51_library.specs.Reading.{refused_by, library_of};

use crate::modules::modules_of;
use m51_module::{LibError, Library, ObjError, build};
use std::alloc::Global;

// What refuses the bytes refuses the library; out of memory stays what it is.
fn refusal(error: ObjError) -> LibError
    ensures { result ≡ refused_by error }
{
    match error {
        ObjError::Memory => LibError::Memory,
        _ => LibError::Object(error),
    }
}

// The library whose bytes these are.
fn library_of(alloc: Global, bytes: &[u8]) -> Result<Library, LibError>
    requires { length bytes.now < 2 ^ 32 }
    ensures answer { Gives (λ library. library) refusal_of result (library_of bytes.now) }
    ensures found { IfOk result (λ library. bytes.now ≡ library_bytes library) }
    ensures memory { IfErr result (λ error. error ≢ LibError.Object ObjError.Memory) }
{
    match modules_of(alloc, bytes) {
        Ok(modules) => build(alloc, modules),
        Err(error) => Err(refusal(error)),
    }
}

/// The library whose bytes these are: fewer than 4,294,967,296 of them.
///
/// Errors: `Object` with the first refusal of the bytes, `O1` to `O5`, where offsets count from the first byte and
/// record numbers from the first record, which is 0: the first record must say how many modules follow, at most 255,
/// and nothing may follow them. Then, for each module in order, `B1` where one before it has its name, else `B3` with
/// its first public that one before it has. `Memory` is the only other error; `Object` never holds it.
///
/// Source: own choice ("Library files").
pub fn read_library(alloc: Global, bytes: &[u8]) -> Result<Library, LibError>
    requires { length bytes.now < 2 ^ 32 }
    // The library, or the first refusal: those of the bytes come before B1 and B3.
    ensures answer { Gives (λ library. library) refusal_of result (library_of bytes.now) }
    // What is read is spelled so.
    ensures found { IfOk result (λ library. bytes.now ≡ library_bytes library) }
    // What is spelled so is read.
    ensures only { (modules : List ModuleParts) → IsLibrary modules → All IsValid modules
        → bytes.now ≡ library_bytes modules → Gives (λ library. library) refusal_of result (Ok modules) }
    // `Object` never holds out of memory.
    ensures memory { IfErr result (λ error. error ≢ LibError.Object ObjError.Memory) }
{
    library_of(alloc, bytes)
}
