//! Reads an object.
ghost use Rattle.std.specs.Prelude.{◌<◌, ◌^◌, length};
ghost use Rattle.m51_frame.specs.Fields.{Reads};
ghost use Rattle.m51_library.specs.Reading.{at_end, module_in};

use m51_module::{Module, ObjError};
use m51_records::{module_at, offset_of};
use std::alloc::Global;

// The module, where nothing follows it; else O3 at the first byte that does.
fn at_end(total: u32, rest: &[u8], module: Module) -> Result<Module, ObjError>
    ensures { Reads (λ m. m) result (at_end total rest.now «module») }
{
    match rest {
        [] => Ok(module),
        _ => Err(ObjError::O3 {
            at: offset_of(total, rest),
        }),
    }
}

/// The module of an object file, of fewer than 4,294,967,296 bytes.
///
/// Errors: the first refusal, record by record and in a record field by field, as `module_at` of m51_records gives it;
/// then O3 at the first byte that follows the module. `Memory` is the only other error.
///
/// Source: own choice ("Object records").
#[tactic(auto, unfolding(crate::specs::Reading::module_in))]
pub fn read_object(alloc: Global, bytes: &[u8]) -> Result<Module, ObjError>
    requires { length bytes.now < 2 ^ 32 }
    ensures { Reads (λ m. m) result (module_in bytes.now) }
{
    let total = bytes.len() as u32;
    let (module, rest, _) = module_at(alloc, total, 0, bytes)?;
    at_end(total, rest, module)
}
