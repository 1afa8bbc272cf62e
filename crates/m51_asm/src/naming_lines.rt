//! The name that a text gives to its module, and the externals that it declares.
ghost use Rattle.std.specs.Prelude.{◌≡◌, ◌++◌, map, IfOk, OnOk};
ghost use Rattle.m51_stmt.specs.Statement.{body_tree};
ghost use Rattle.m51_text.specs.Answer.{line_tree};
ghost use Rattle.m51_asm.specs.Parts.{external, externals_by, externals, name_in};

use m51_cells::{Kind, ListOf, Name, NoMemory};
use m51_module::{External, ExternalList};
use m51_stmt::Body;
use m51_text::Line;
use std::alloc::Global;

/// The name that NAME gives to the module, or else this one.
pub(crate) fn name_in(other: Name, lines: &[Line]) -> Name
    ensures { result ≡ name_in other (map line_tree lines.now) }
{
    for line in lines {
        if let Body::ModuleName(name) = &line.stmt.body {
            return *name;
        }
    }
    other
}

// The externals of a list of EXTRN.
fn push_all(externals: &mut ExternalList, declared: &[(Name, Kind)]) -> Result<(), NoMemory>
    ensures { OnOk result (externals.new ≡ externals.old ++ map external declared.now) }
{
    for (name, kind) in declared {
        externals.push(External {
            name: *name,
            kind: *kind,
        })?;
    }
    Ok(())
}

// The externals that a line declares.
fn push_by(externals: &mut ExternalList, body: &Body) -> Result<(), NoMemory>
    ensures { OnOk result (externals.new ≡ externals.old ++ externals_by (body_tree body.now)) }
{
    match body {
        Body::Extrn(declared) => push_all(externals, declared.as_slice()),
        _ => Ok(()),
    }
}

/// The externals of a text, in the order of EXTRN. The only error is out of memory.
pub(crate) fn externals(alloc: Global, lines: &[Line]) -> Result<ExternalList, NoMemory>
    ensures { IfOk result (λ list. list ≡ externals (map line_tree lines.now)) }
{
    let mut list = ListOf::new(alloc);
    for line in lines {
        push_by(&mut list, &line.stmt.body)?;
    }
    Ok(list)
}
