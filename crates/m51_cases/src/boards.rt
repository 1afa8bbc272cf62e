//! Boards of one unit.
ghost use Rattle.std.specs.Prelude.{◌≡◌, ◌<◌, ◌≤◌, [], IfOk, length};
ghost use Rattle.m51_cells.specs.Name.{title_at};
ghost use Rattle.m51_cases.specs.OneUnit.{one_unit};
ghost use Rattle.m51_sim.specs.Boards.{IsStarted};

use m51_cells::{Kind, ListOf, Name, NoMemory, Reloc};
use m51_module::{Image, Layout, LayoutParts, Mark, Placed};
use m51_script::Script;
use m51_sim::Board;
use std::alloc::Global;

// An image whose first bytes are these.
fn image(alloc: Global, bytes: &[u8]) -> Result<Image, NoMemory>
    requires { length bytes.now ≤ 100 }
{
    let mut image = Image::blank(alloc)?;
    for index in 0..bytes.len() {
        image.set(index as u16, bytes[index]);
    }
    Ok(image)
}

// One unit of this size at 0000H, and a byte of DATA at 08H.
fn parts(alloc: Global, size: u16) -> Result<LayoutParts, NoMemory>
    ensures { IfOk result (λ parts. parts ≡ one_unit (title_at 0) [] size) }
{
    let unit = Placed {
        title: Name::at(0),
        kind: Kind::Code,
        reloc: Reloc::Abs,
        mark: Mark::Absolute,
        base: 0,
        size,
    };
    let byte = Placed {
        title: Name::none(),
        kind: Kind::Direct,
        reloc: Reloc::Unit,
        mark: Mark::Plain,
        base: 8,
        size: 1,
    };
    Ok(LayoutParts {
        placed: ListOf::of(vec![in alloc; unit, byte]?),
        units: ListOf::of(vec![in alloc; 0u16]?),
        edges: ListOf::of(Vec::new(alloc)),
        owners: ListOf::of(Vec::new(alloc)),
    })
}

/// A board of that layout, not stepped, with an image whose first bytes are these, and this script.
pub(crate) fn board(
    alloc: Global,
    size: u16,
    bytes: &[u8],
    script: Script,
) -> Result<Board, NoMemory>
    requires some { 0 < size }
    requires few { length bytes.now ≤ 100 }
    ensures { IfOk result (λ b. IsStarted b.monitor.layout b.chip.image b.chip.script b) }
{
    let parts = parts(alloc, size)?;
    let layout = Layout::make(alloc, parts)?;
    let image = image(alloc, bytes)?;
    Board::make(alloc, layout, image, script)
}
