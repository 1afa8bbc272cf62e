//! The values that SET statements give, for pass 2.
ghost use Rattle.std.specs.Prelude.{◌≡◌, ℕ, suc, Some, List, slice_get, OnOk};
ghost use Rattle.m51_stmt.specs.Statement.{body_tree};
ghost use Rattle.m51_text.specs.Answer.{LineTree, line_tree};
ghost use Rattle.m51_asm.specs.Assignment.{Assignment};
ghost use Rattle.m51_asm.specs.Placing.{IsPlaceOf};
ghost use Rattle.m51_asm.specs.ValuesAt.{IsSetAt, set_in, PutsIf};

use crate::names_at::is_label;
use crate::stepping::LinePlace;
use crate::valuation::Values;
use m51_cells::{Name, NoMemory};
use m51_expr::Located;
use m51_stmt::Body;
use m51_text::Line;
use std::alloc::Global;

// The name that a line defines by SET.
fn set_in(label: &Option<Name>, body: &Body) -> Option<Name>
    ensures { result ≡ set_in label.now (body_tree body.now) }
{
    match body {
        Body::Set(name, _) => {
            if is_label(label, name) {
                None
            } else {
                Some(*name)
            }
        }
        _ => None,
    }
}

// Puts in the value of this name, if there is one.
fn put_if(
    alloc: Global,
    set: &mut Values,
    name: Option<Name>,
    value: Option<Located<u32>>,
) -> Result<(), NoMemory>
    ensures { OnOk result (PutsIf set.old set.new name value) }
{
    match name {
        Some(name) => set.put(alloc, &name, value),
        None => Ok(()),
    }
}

/// Takes in what a line gives by SET. The only error is out of memory.
pub(crate) fn take_set(
    alloc: Global,
    set: &mut Values,
    line: &Line,
    place: &LinePlace,
) -> Result<(), NoMemory>
    ensures { OnOk result ((lines : List LineTree) (a : Assignment) (k : ℕ)
        → slice_get lines k ≡ Some (line_tree line.now) → IsPlaceOf lines a k place.now
        → IsSetAt lines a k set.old → IsSetAt lines a (suc k) set.new) }
{
    let name = set_in(&line.stmt.label, &line.stmt.body);
    put_if(alloc, set, name, place.given)?;
    Ok(())
}
