//! Valid modules.
ghost use Rattle.std.specs.Prelude.{◌≡◌};
ghost use Rattle.m51_module.specs.Arguments.{raised};
ghost use Rattle.m51_module.specs.Validity.{IsValid};

use crate::raising::raised_parts;
use crate::{External, Fixup, ModuleParts, Piece, Public, Segment};
use m51_cells::{ListOf, Name};
use std::alloc::Global;
use std::marker::Model;
use std::mem;

/// A valid module, which contracts see as its parts: what one source gives, and what an object file holds.
///
/// Source: own choice ("Valid modules").
#[derive(Drop)]
pub struct Module {
    parts: ModuleParts,
}

impl Model for Module {
    ghost use Rattle.m51_module.specs.declared.parts.ModuleParts.{ModuleParts};
    ghost use Rattle.m51_module.specs.Validity.{IsValid};

    ghost Value = { ModuleParts };

    ghost view = { λ m. m.parts };

    ghost invariant = { λ m. IsValid m.parts };
}

impl Module {
    /// The module of these parts, which must be valid. It allocates nothing.
    ///
    /// Source: own choice ("Valid modules").
    pub fn make(parts: ModuleParts) -> Module
        requires { IsValid parts }
        ensures { result ≡ parts }
    {
        Module { parts }
    }

    /// The name of the module.
    ///
    /// Source: own choice ("Valid modules").
    pub fn name(&self) -> Name
        ensures { result ≡ self.now.name }
    {
        self.parts.name
    }

    /// The version of the object that holds the module: 1 or 2.
    ///
    /// Source: own choice ("Argument segments").
    pub fn version(&self) -> u8
        ensures version { result ≡ self.now.version }
        ensures valid { IsValid self.now }
    {
        self.parts.version
    }

    /// The segments, counted from 1.
    ///
    /// Source: own choice ("Valid modules").
    pub fn segments(&self) -> &[Segment]
        ensures list { result.now ≡ self.now.segments }
        ensures valid { IsValid self.now }
    {
        self.parts.segments.as_slice()
    }

    /// The publics, in the order in which the module names them.
    ///
    /// Source: own choice ("Valid modules").
    pub fn publics(&self) -> &[Public]
        ensures list { result.now ≡ self.now.publics }
        ensures valid { IsValid self.now }
    {
        self.parts.publics.as_slice()
    }

    /// The externals, counted from 1.
    ///
    /// Source: own choice ("Valid modules").
    pub fn externals(&self) -> &[External]
        ensures list { result.now ≡ self.now.externals }
        ensures valid { IsValid self.now }
    {
        self.parts.externals.as_slice()
    }

    /// The content of the segments of program memory, in ascending order.
    ///
    /// Source: own choice ("Valid modules").
    pub fn pieces(&self) -> &[Piece]
        ensures list { result.now ≡ self.now.pieces }
        ensures valid { IsValid self.now }
    {
        self.parts.pieces.as_slice()
    }

    /// The fields that the linker fills, in ascending order.
    ///
    /// Source: own choice ("Valid modules").
    pub fn fixups(&self) -> &[Fixup]
        ensures list { result.now ≡ self.now.fixups }
        ensures valid { IsValid self.now }
    {
        self.parts.fixups.as_slice()
    }

    /// The register banks that the module uses: bit k for bank k, 0 to 3; bit 0 is always set.
    ///
    /// Source: own choice ("Valid modules").
    pub fn banks(&self) -> u8
        ensures banks { result ≡ self.now.banks }
        ensures valid { IsValid self.now }
    {
        self.parts.banks
    }

    /// The module in version 2: each OVERLAYABLE DATA segment whose name begins with `?AG?` has the argument mark, and
    /// all else is the same. It allocates nothing.
    ///
    /// Source: own choice ("Argument segments").
    pub fn raise(self) -> Module
        ensures { result ≡ raised self }
    {
        let Module { parts } = self;
        Module {
            parts: raised_parts(parts),
        }
    }

    // The same with the module where it is.
    pub(crate) fn raise_in_place(&mut self, alloc: Global)
        ensures { self.new ≡ raised self.old }
    {
        let parts = mem::replace(&mut self.parts, no_parts(alloc));
        self.parts = raised_parts(parts);
    }
}

// Empty parts, for which nothing is allocated. No module has them.
fn no_parts(alloc: Global) -> ModuleParts {
    ModuleParts {
        name: Name::none(),
        version: 1,
        segments: ListOf::new(alloc),
        publics: ListOf::new(alloc),
        externals: ListOf::new(alloc),
        pieces: ListOf::new(alloc),
        fixups: ListOf::new(alloc),
        banks: 1,
    }
}
