//! Which unit each joined segment is.
ghost use Rattle.std.specs.Prelude.{◌≡◌, ◌≤◌, IfOk, length};
ghost use Rattle.m51_cells.specs.declared.limits.TheConstants.{MOST_UNITS, MOST_SEGMENTS};
ghost use Rattle.m51_graph.specs.Numbered.{units_by_segment};
ghost use Rattle.m51_graph.specs.Units.{unit_at, units_of};

use crate::units::unit_numbers;
use m51_cells::{NoMemory, is_code};
use m51_relations::item_or;
use m51_resolve::{JoinedSegment, Referent};
use std::alloc::Global;
use std::marker::Model;

// The joined number of each unit, with the unit of each joined number, which contracts see as the list of the first.
#[derive(Drop)]
pub(crate) struct UnitTable {
    units: Vec<u16>,
    by_segment: Vec<Option<u16>>,
}

impl Model for UnitTable {
    ghost use Rattle.std.specs.Prelude.{List, ℕ};
    ghost use Rattle.m51_graph.specs.Numbered.{IsUnitTable};

    ghost Value = { List ℕ };

    ghost view = { λ t. t.units.items };

    ghost invariant = { λ t. IsUnitTable t.units.items t.by_segment.items };
}

// For each joined segment which unit it is, if it is one.
fn units_by_segment(alloc: Global, segments: &[JoinedSegment]) -> Result<Vec<Option<u16>>, NoMemory>
    requires { length segments.now ≤ MOST_SEGMENTS }
    ensures { IfOk result (λ table. table.items ≡ units_by_segment 0 segments.now) }
{
    let mut table = Vec::new(alloc);
    let mut unit = 0;
    for segment in segments {
        if is_code(segment.kind) {
            table.push(Some(unit))?;
            unit += 1;
        } else {
            table.push(None)?;
        }
    }
    Ok(table)
}

impl UnitTable {
    // The units among joined segments.
    #[tactic(auto, using(crate::proofs::NamedUnits::unit_table))]
    pub(crate) fn of(alloc: Global, segments: &[JoinedSegment]) -> Result<UnitTable, NoMemory>
        requires segments { length segments.now ≤ MOST_SEGMENTS }
        requires few { length (units_of segments.now) ≤ MOST_UNITS }
        ensures { IfOk result (λ units. units ≡ units_of segments.now) }
    {
        let units = unit_numbers(alloc, segments)?;
        let by_segment = units_by_segment(alloc, segments)?;
        Ok(UnitTable { units, by_segment })
    }

    // How many units there are.
    pub(crate) fn count(&self) -> usize
        ensures count { result ≡ length self.now }
        ensures few { length self.now ≤ MOST_UNITS }
    {
        self.units.len()
    }

    // The unit in which the part lies to which is referred, if that is of program memory.
    pub(crate) fn unit_at(&self, referent: Referent) -> Option<u16>
        ensures { result ≡ unit_at self.now referent }
    {
        let (segment, _) = referent.part?;
        item_or(&self.by_segment, usize::from(segment.get()), None)
    }
}
