//! The rows that a layout keeps: the owners of each placed extent, and the locals of each unit. Each list is gone over
//! once.
ghost use Rattle.std.specs.Prelude.{◌≡◌, ◌<◌, [], ◌∷◌, ◌++◌, length, slice_set, slice_index_or, IfOk, OnOk};
ghost use Rattle.std.specs.List.{All};
ghost use Rattle.m51_module.specs.Kept.{AreOwnerRows, AreLocalRows, AreEmptyRows, IsRowAlong, HaveRows, IsAddedAt};

use crate::Units;
use m51_cells::{ListOf, NoMemory};
use std::alloc::Global;

// `count` empty rows.
fn empty_rows(alloc: Global, count: usize) -> Result<Vec<Units>, NoMemory>
    ensures { IfOk result (λ rows. AreEmptyRows count rows.items) }
{
    let mut rows = Vec::new(alloc);
    for _ in 0..count {
        rows.push(ListOf::new(alloc))?;
    }
    Ok(rows)
}

// Adds the number to the row at that index.
fn add_to(rows: &mut Vec<Units>, index: usize, number: u16) -> Result<(), NoMemory>
    requires { index < length rows.old.items }
    ensures { OnOk result (rows.new.items
        ≡ slice_set rows.old.items index (slice_index_or rows.old.items index [] ++ number ∷ [])) }
{
    rows[index].push(number)
}

/// The owners of each of `count` segments.
pub(crate) fn owner_rows(
    alloc: Global,
    owners: &[(u16, u16)],
    count: usize,
) -> Result<Vec<Units>, NoMemory>
    requires { HaveRows count owners.now }
    ensures { IfOk result (λ rows. AreOwnerRows owners.now count rows.items) }
{
    let mut rows = empty_rows(alloc, count)?;
    for pair in owners {
        add_to(&mut rows, usize::from(pair.0), pair.1)?;
    }
    Ok(rows)
}

// Adds the segment to the row of each of these units.
fn add_local(rows: &mut Vec<Units>, owners: &[u16], segment: u16) -> Result<(), NoMemory>
    requires { IsRowAlong (length rows.old.items) owners.now }
    ensures { OnOk result (IsAddedAt owners.now segment rows.old.items rows.new.items) }
{
    for unit in owners {
        add_to(rows, usize::from(*unit), segment)?;
    }
    Ok(())
}

/// The segments of each of `count` units.
pub(crate) fn local_rows(
    alloc: Global,
    rows: &[Units],
    count: usize,
) -> Result<Vec<Units>, NoMemory>
    requires segments { length rows.now < 65536 }
    requires rows { All (IsRowAlong count) rows.now }
    ensures { IfOk result (λ locals. AreLocalRows rows.now count (length rows.now) locals.items) }
{
    let mut locals = empty_rows(alloc, count)?;
    for (segment, row) in rows.iter().enumerate() {
        add_local(&mut locals, row.as_slice(), segment as u16)?;
    }
    Ok(locals)
}
