//! The starts of a program other than the reset, and its roots.
ghost use Rattle.std.specs.Prelude.{◌≡◌, ◌<◌, ℕ, [], true, IfOk, length};
ghost use Rattle.std.specs.List.{Contains};
ghost use Rattle.m51_module.specs.Plan.{IsRootAt, IsUnitAt};
ghost use Rattle.m51_module.specs.declared.start.Start.TheVariants.{At};
ghost use Rattle.m51_stackbound.specs.Listing.{AreListed, AreStarts, is_noted, with_start};
ghost use Rattle.m51_stackbound.specs.Nexts.{AreRootRows, AreTables};

use crate::climbing::depth_in;
use crate::marks::{ADDRESSES, no_marks};
use crate::paths::{Next, root_depth};
use crate::point::Point;
use crate::units::{root_number, unit_number};
use m51_cells::NoMemory;
use m51_module::{Layout, Proc, RootDepth, Start};
use std::alloc::Global;

// Notes a start other than the reset.
fn note_start(starts: &mut [bool], start: Start)
    requires { length starts.old ≡ 65536 }
    ensures noted { starts.new ≡ with_start starts.old start }
    ensures few { (at : ℕ) → start ≡ At at → at < 65536 }
{
    match start {
        Start::At(at) => starts[usize::from(at)] = true,
        Start::Reset => {}
    }
}

// Notes the start of each point.
fn note_starts(points: &[Point], starts: &mut [bool])
    requires { AreStarts [] starts.old }
    ensures { AreStarts points.now starts.new }
{
    for point in points {
        note_start(starts, point.start);
    }
}

/// For each address whether it is that of a start.
pub(crate) fn starts_of(alloc: Global, points: &[Point]) -> Result<Vec<bool>, NoMemory>
    ensures { IfOk result (λ starts. AreStarts points.now starts.items) }
{
    let mut starts = no_marks(alloc, ADDRESSES)?;
    note_starts(points, &mut starts);
    Ok(starts)
}

/// The starts other than the reset, with their units and depths, by their addresses.
pub(crate) fn procs_of(
    alloc: Global,
    layout: &Layout,
    starts: &[bool],
    depths: &[u16],
) -> Result<Vec<Proc>, NoMemory>
    requires starts { length starts.now ≡ 65536 }
    requires covered { (at : ℕ) → is_noted starts.now at ≡ true → (unit : ℕ) × IsUnitAt layout.now at unit }
    requires depths { length depths.now ≡ 65537 }
    ensures { IfOk result (λ procs. AreListed layout.now starts.now depths.now 65536 procs.items) }
{
    let mut procs = Vec::new(alloc);
    for address in 0..ADDRESSES {
        if starts[address] {
            let at = address as u16;
            procs.push(Proc {
                at,
                unit: unit_number(layout, at),
                depth: depth_in(depths, Start::At(at)),
            })?;
        }
    }
    Ok(procs)
}

/// The depths and the paths of the root at 0000H and of the roots at these vectors.
pub(crate) fn roots_of(
    alloc: Global,
    layout: &Layout,
    depths: &[u16],
    nexts: &[Next],
    vectors: &[u16],
) -> Result<Vec<RootDepth>, NoMemory>
    requires reset { (unit : ℕ) × IsRootAt layout.now 0 unit }
    requires handlers { (v : ℕ) → Contains vectors.now v → (unit : ℕ) × IsRootAt layout.now v unit }
    requires tables { AreTables depths.now nexts.now }
    ensures { IfOk result (λ roots. AreRootRows layout.now depths.now nexts.now vectors.now roots.items) }
{
    let mut roots = Vec::new(alloc);
    let reset = root_depth(alloc, depths, nexts, root_number(layout, 0), Start::Reset)?;
    roots.push(reset)?;
    for vector in vectors {
        let root = root_number(layout, *vector);
        let handler = root_depth(alloc, depths, nexts, root, Start::At(*vector))?;
        roots.push(handler)?;
    }
    Ok(roots)
}
