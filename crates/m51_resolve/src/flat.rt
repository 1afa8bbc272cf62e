//! The segments and the externals of all modules in one list, and where those of each module begin.
ghost use Rattle.std.specs.Prelude.{◌≡◌, ◌*◌, ◌≤◌, All, IfOk, OnOk, length};
ghost use Rattle.m51_cells.specs.declared.limits.TheConstants.{MOST_MODULE_SEGMENTS};
ghost use Rattle.m51_module.specs.Validity.{IsValid};
ghost use Rattle.m51_resolve.specs.Joining.{all_segments};
ghost use Rattle.m51_resolve.specs.Kept.{AreStarts};
ghost use Rattle.m51_resolve.specs.Publics.{all_externals};

use m51_cells::NoMemory;
use m51_module::{External, Module, Segment};
use std::alloc::Global;

// The items of all modules in module order, and for each module how many the modules before it have.
#[derive(Drop)]
pub(crate) struct Flat<T> {
    pub items: Vec<T>,
    pub starts: Vec<usize>,
}

// The segments of the modules: each has at most MOST_MODULE_SEGMENTS.
pub(crate) fn all_segments(alloc: Global, modules: &[Module]) -> Result<Flat<Segment>, NoMemory>
    ensures all { IfOk result (λ all. all.items.items ≡ all_segments modules.now) }
    ensures starts { IfOk result (λ all. AreStarts (λ m. m.segments) modules.now all.starts.items) }
    ensures few { IfOk result (λ all. length all.items.items ≤ MOST_MODULE_SEGMENTS * length modules.now) }
    ensures valid { OnOk result (All IsValid modules.now) }
{
    let mut items = Vec::new(alloc);
    let mut starts = Vec::new(alloc);
    for module in modules {
        starts.push(items.len())?;
        items.extend_from_slice(module.segments())?;
    }
    Ok(Flat { items, starts })
}

// The externals of the modules.
pub(crate) fn all_externals(alloc: Global, modules: &[Module]) -> Result<Flat<External>, NoMemory>
    ensures all { IfOk result (λ all. all.items.items ≡ all_externals modules.now) }
    ensures starts { IfOk result (λ all. AreStarts (λ m. m.externals) modules.now all.starts.items) }
{
    let mut items = Vec::new(alloc);
    let mut starts = Vec::new(alloc);
    for module in modules {
        starts.push(items.len())?;
        items.extend_from_slice(module.externals())?;
    }
    Ok(Flat { items, starts })
}
