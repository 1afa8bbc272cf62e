//! The titles of units, and which unit a name names.
ghost use Rattle.std.specs.Prelude.{◌≡◌, ◌≤◌, ◌<◌, bytes_eq, IfOk, IfSome, OnOk, Some, length, unwrap_or};
ghost use Rattle.indexmap.specs.IndexMap.{Updates};
ghost use Rattle.m51_cells.specs.declared.limits.TheConstants.{MOST_UNITS};
ghost use Rattle.m51_graph.specs.Numbered.{AreNumbers, number_by_name};
ghost use Rattle.m51_graph.specs.Units.{named, unit_titles};

use crate::units::unit_titles;
use indexmap::IndexMap;
use m51_cells::{Name, NoMemory};
use m51_resolve::JoinedSegment;
use std::alloc::Global;
use std::marker::Model;

// The titles of units with the first unit of each title, which contracts see as the list of the titles.
#[derive(Drop)]
pub(crate) struct UnitNames {
    titles: Vec<Name>,
    numbers: IndexMap<Name, u16>,
}

impl Model for UnitNames {
    ghost use Rattle.std.specs.Prelude.{List, ℕ};
    ghost use Rattle.m51_graph.specs.Numbered.{AreNumbers};

    ghost Value = { List (List ℕ) };

    ghost view = { λ n. n.titles.items };

    ghost invariant = { λ n. AreNumbers n.titles.items n.numbers.entries };
}

// Gives the title this unit, unless it has one.
fn note(numbers: &mut IndexMap<Name, u16>, title: &Name, unit: u16) -> Result<(), NoMemory>
    ensures { let first = unwrap_or (number_by_name numbers.old.entries title.now) unit in
        OnOk result (Updates bytes_eq numbers.old numbers.new title.now (Some first)) }
{
    let first = numbers.get(title).copied().unwrap_or(unit);
    numbers.insert(*title, first)?;
    Ok(())
}

// The first unit of each of the titles.
fn numbers_of(alloc: Global, titles: &[Name]) -> Result<IndexMap<Name, u16>, NoMemory>
    requires { length titles.now ≤ MOST_UNITS }
    ensures { IfOk result (λ numbers. AreNumbers titles.now numbers.entries) }
{
    let mut numbers = IndexMap::new(alloc);
    for (unit, title) in titles.iter().enumerate() {
        note(&mut numbers, title, unit as u16)?;
    }
    Ok(numbers)
}

impl UnitNames {
    // The titles of the units among joined segments.
    pub(crate) fn of(alloc: Global, segments: &[JoinedSegment]) -> Result<UnitNames, NoMemory>
        requires { length (unit_titles segments.now) ≤ MOST_UNITS }
        ensures { IfOk result (λ names. names ≡ unit_titles segments.now) }
    {
        let titles = unit_titles(alloc, segments)?;
        let numbers = numbers_of(alloc, &titles)?;
        Ok(UnitNames { titles, numbers })
    }

    // The titles, borrowed.
    pub(crate) fn titles(&self) -> &[Name]
        ensures titles { result.now ≡ self.now }
        ensures few { length self.now ≤ MOST_UNITS }
    {
        &self.titles
    }

    // The first unit of that title.
    pub(crate) fn named(&self, name: &Name) -> Option<u16>
        ensures { result ≡ named self.now name.now }
    {
        self.numbers.get(name).copied()
    }
}
