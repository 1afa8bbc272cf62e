//! A sound layout and valid modules, which show that there are such. The tests of this crate begin with them.
ghost use Rattle.std.specs.Prelude.{◌≡◌, [], IfOk, Some, true, map};
ghost use Rattle.std.specs.Char.{to_ascii_uppercase};
ghost use Rattle.m51_cells.specs.Name.{is_name, title_at, IsWritten};
ghost use Rattle.m51_cases.specs.Sample.{code, overlaid, field, sample_layout, sample_module, public_module};

use m51_cells::{Base, Bytes, Kind, ListOf, Name, NoMemory, Reloc};
use m51_module::{
    External, Fixup, Form, Layout, LayoutParts, Mark, Module, ModuleParts, Piece, Placed, Public,
    Segment,
};
use std::alloc::Global;

// A segment of program memory of one byte.
fn code(title: Name, reloc: Reloc, mark: Mark, base: u16) -> Placed
    ensures { result ≡ code title reloc mark base }
{
    Placed {
        title,
        kind: Kind::Code,
        reloc,
        mark,
        base,
        size: 1,
    }
}

// An overlaid byte of DATA.
fn overlaid(title: Name, base: u16) -> Placed
    ensures { result ≡ overlaid title base }
{
    Placed {
        title,
        kind: Kind::Direct,
        reloc: Reloc::Unit,
        mark: Mark::Overlaid,
        base,
        size: 1,
    }
}

// The parts of that layout.
fn layout_parts(alloc: Global) -> Result<LayoutParts, NoMemory>
    ensures { IfOk result (λ parts. parts ≡ sample_layout (title_at 0)) }
{
    let root = code(Name::at(0), Reloc::Abs, Mark::Absolute, 0);
    let first = code(Name::none(), Reloc::Unit, Mark::Plain, 1);
    let second = code(Name::none(), Reloc::Unit, Mark::Plain, 2);
    let placed = vec![in alloc;
        root,
        first,
        second,
        overlaid(Name::none(), 8),
        overlaid(Name::none(), 8),
        overlaid(Name::none(), 9),
    ]?;
    let units = vec![in alloc; 0u16, 1, 2]?;
    let edges = vec![in alloc; (0u16, 1u16), (0, 2)]?;
    let owners = vec![in alloc; (3u16, 1u16), (4, 2), (5, 1), (5, 0)]?;
    Ok(LayoutParts {
        placed: ListOf::of(placed),
        units: ListOf::of(units),
        edges: ListOf::of(edges),
        owners: ListOf::of(owners),
    })
}

/// A layout of three units: one that begins at the reset's vector, and two that it calls, whose locals share the byte
/// at 08H. The byte at 09H is an argument of the second unit, and belongs to the first one too. The only error is out
/// of memory.
///
/// Source: own choice ("Samples").
pub(crate) fn layout(alloc: Global) -> Result<Layout, NoMemory>
    ensures { IfOk result (λ layout. layout ≡ sample_layout (title_at 0)) }
{
    let parts = layout_parts(alloc)?;
    Layout::make(alloc, parts)
}

/// The name that the text writes, in upper case.
///
/// Source: own choice ("Samples").
pub(crate) fn name(text: &[u8]) -> Name
    requires { is_name text.now ≡ true }
    ensures { result ≡ map to_ascii_uppercase text.now }
{
    match Name::of(text) {
        Some(name) => name,
        None => unreachable!(),
    }
}

// A field of one byte in the first segment.
fn field(offset: u16, target: Base) -> Fixup
    ensures { result ≡ field offset target }
{
    Fixup {
        segment: 1,
        offset,
        form: Form::Byte,
        bit: 0,
        target,
        addend: 0,
    }
}

// The parts of that module.
fn module_parts(alloc: Global) -> Result<ModuleParts, NoMemory>
    ensures { IfOk result (λ parts. parts ≡ sample_module) }
{
    let code = Segment {
        name: Name::none(),
        kind: Kind::Code,
        reloc: Reloc::Abs,
        overlay: false,
        argument: false,
        base: 0,
        size: 3,
    };
    let data = Segment {
        name: name(b"?AG?F"),
        kind: Kind::Direct,
        reloc: Reloc::Unit,
        overlay: true,
        argument: true,
        base: 0,
        size: 1,
    };
    let public = Public {
        name: name(b"D"),
        kind: Kind::Direct,
        base: Base::Segment(2),
        number: 0,
    };
    let external = External {
        name: name(b"X"),
        kind: Kind::Direct,
    };
    let piece = Piece {
        segment: 1,
        offset: 0,
        bytes: Bytes::of(vec![in alloc; 0x85u8, 0, 0]?),
    };
    let fields = vec![in alloc; field(1, Base::External(1)), field(2, Base::Segment(2))]?;
    Ok(ModuleParts {
        name: name(b"M"),
        version: 2,
        segments: ListOf::of(vec![in alloc; code, data]?),
        publics: ListOf::of(vec![in alloc; public]?),
        externals: ListOf::of(vec![in alloc; external]?),
        pieces: ListOf::of(vec![in alloc; piece]?),
        fixups: ListOf::of(fields),
        banks: 1,
    })
}

/// A module in version 2, with one instruction of three bytes, whose operands are an external and an argument of its
/// own. The only error is out of memory.
///
/// Source: own choice ("Samples").
pub(crate) fn module(alloc: Global) -> Result<Module, NoMemory>
    ensures { IfOk result (λ made. made ≡ sample_module) }
{
    let parts = module_parts(alloc)?;
    Ok(Module::make(parts))
}

/// A module in version 1 without segments, with one public, the number 0. The only error is out of memory.
///
/// Source: own choice ("Samples").
pub(crate) fn module_with(alloc: Global, name: Name, public: Name) -> Result<Module, NoMemory>
    requires name { IsWritten name }
    requires public { IsWritten public }
    ensures { IfOk result (λ made. made ≡ public_module name public) }
{
    let public = Public {
        name: public,
        kind: Kind::Number,
        base: Base::None,
        number: 0,
    };
    let publics = ListOf::of(vec![in alloc; public]?);
    Ok(Module::make(ModuleParts {
        name,
        version: 1,
        segments: ListOf::of(Vec::new(alloc)),
        publics,
        externals: ListOf::of(Vec::new(alloc)),
        pieces: ListOf::of(Vec::new(alloc)),
        fixups: ListOf::of(Vec::new(alloc)),
        banks: 1,
    }))
}
