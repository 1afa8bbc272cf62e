//! A layout with three roots.
ghost use Rattle.std.specs.Prelude.{◌≡◌, [], IfOk};
ghost use Rattle.m51_cases.specs.Layouts.{local, root, three_roots, unit};

use m51_cells::{Kind, ListOf, Name, NoMemory, Reloc};
use m51_module::{Layout, LayoutParts, Mark, Placed};
use m51_monitor::Monitor;
use std::alloc::Global;

// A root of three bytes.
fn root(base: u16) -> Placed
    ensures { result ≡ root base }
{
    Placed {
        title: Name::none(),
        kind: Kind::Code,
        reloc: Reloc::Abs,
        mark: Mark::Absolute,
        base,
        size: 3,
    }
}

// A unit of sixteen bytes.
fn unit(base: u16) -> Placed
    ensures { result ≡ unit base }
{
    Placed {
        title: Name::none(),
        kind: Kind::Code,
        reloc: Reloc::Unit,
        mark: Mark::Plain,
        base,
        size: 16,
    }
}

// An overlaid segment.
fn local(kind: Kind, base: u16, size: u16) -> Placed
    ensures { result ≡ local kind base size }
{
    Placed {
        title: Name::none(),
        kind,
        reloc: Reloc::Unit,
        mark: Mark::Overlaid,
        base,
        size,
    }
}

// The parts of that layout.
fn three_roots(alloc: Global) -> Result<LayoutParts, NoMemory>
    ensures { IfOk result (λ parts. parts ≡ three_roots) }
{
    let placed = vec![in alloc;
        root(0x00),
        root(0x03),
        root(0x0B),
        unit(0x30),
        unit(0x40),
        unit(0x50),
        unit(0x60),
        unit(0x70),
        local(Kind::Direct, 0x20, 1),
        local(Kind::Bits, 0, 2),
        local(Kind::Direct, 0x08, 1),
        local(Kind::Direct, 0x09, 1),
        local(Kind::Direct, 0x0A, 1),
        local(Kind::Direct, 0x0B, 1),
        local(Kind::Direct, 0x0C, 1),
        local(Kind::Direct, 0x0D, 1),
    ]?;
    let units = vec![in alloc; 0u16, 1, 2, 3, 4, 5, 6, 7]?;
    let edges = vec![in alloc; (0u16, 3u16), (0, 4), (0, 5), (5, 6), (1, 7)]?;
    let owners = vec![in alloc;
        (8u16, 3u16),
        (9, 4),
        (10, 3),
        (10, 0),
        (11, 5),
        (12, 6),
        (13, 7),
        (14, 1),
        (15, 2),
    ]?;
    Ok(LayoutParts {
        placed: ListOf::of(placed),
        units: ListOf::of(units),
        edges: ListOf::of(edges),
        owners: ListOf::of(owners),
    })
}

/// A monitor of that layout at the reset, in which no interrupt is in progress.
pub(crate) fn monitor(alloc: Global) -> Result<Monitor, NoMemory>
    ensures { IfOk result (λ monitor. monitor.records.returns ≡ []) }
{
    let parts = three_roots(alloc)?;
    let layout = Layout::make(alloc, parts)?;
    Monitor::start(alloc, layout, 0)
}
