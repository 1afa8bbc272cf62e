//! Walks over calls: what starts call, directly or through others.
ghost use Rattle.std.specs.Prelude.{◌≡◌, ◌<◌, ◌≤◌, ◌↔◌, [], ◌∷◌, length, slice_index, IfOk, IsTrue, OnOk};
ghost use Rattle.std.specs.List.{Contains};
ghost use Rattle.m51_stackbound.specs.Callers.{AreCleared, Clears, GoesOn, IsClosed, Leads, Walks, with_clear};

use crate::calls::Callees;
use crate::marks::{ADDRESSES, no_marks};
use m51_cells::NoMemory;
use std::alloc::Global;
use std::marker::Model;

// Starts that a walk found, each once, which contracts see as a list; and for each address whether it is one of them.
#[derive(Drop)]
struct Found {
    starts: Vec<u16>,
    marks: Vec<bool>,
}

impl Model for Found {
    ghost use Rattle.std.specs.Prelude.{List, ℕ};
    ghost use Rattle.m51_stackbound.specs.Callers.{AreMarked};

    ghost Value = { List ℕ };

    ghost view = { λ f. f.starts.items };

    ghost invariant = { λ f. AreMarked f.starts.items f.marks.items };
}

impl Found {
    // No start yet.
    fn none(alloc: Global) -> Result<Found, NoMemory>
        ensures { IfOk result (λ found. found ≡ []) }
    {
        let marks = no_marks(alloc, ADDRESSES)?;
        Ok(Found {
            starts: Vec::new(alloc),
            marks,
        })
    }

    // How many there are.
    fn len(&self) -> usize
        ensures value { result ≡ length self.now }
        ensures few { result ≤ 65536 }
    {
        self.starts.len()
    }

    // The start that was found at that index.
    fn at(&self, index: usize) -> u16
        requires { index < length self.now }
        ensures { result ≡ slice_index self.now index }
    {
        self.starts[index]
    }

    // Whether the start was found.
    fn has(&self, start: u16) -> bool
        ensures { IsTrue result ↔ Contains self.now start }
    {
        self.marks[usize::from(start)]
    }

    // Adds a start, unless it was found before. Out of memory is the only error.
    fn note(&mut self, start: u16) -> Result<(), NoMemory>
        ensures { OnOk result (GoesOn self.old (start ∷ []) self.new) }
    {
        if self.has(start) {
            return Ok(());
        }
        self.starts.push(start)?;
        self.marks[usize::from(start)] = true;
        Ok(())
    }

    // Adds these starts, each unless it was found before.
    fn note_all(&mut self, starts: &[u16]) -> Result<(), NoMemory>
        ensures { OnOk result (GoesOn self.old starts.now self.new) }
    {
        for start in starts {
            self.note(*start)?;
        }
        Ok(())
    }
}

// What the start calls and was not found before, directly or through others, is found. Each such start is looked at
// once.
fn walk(rows: &[Callees], found: &mut Found, from: u16) -> Result<(), NoMemory>
    requires { length rows.now ≡ 65536 }
    ensures { OnOk result (Walks rows.now from found.old found.new) }
{
    let mut next = found.len();
    found.note_all(rows[usize::from(from)].as_slice())?;
    while next < found.len() {
        let via = found.at(next);
        found.note_all(rows[usize::from(via)].as_slice())?;
        next += 1;
    }
    Ok(())
}

/// Whether the start at this address calls itself, directly or through others.
pub(crate) fn calls_itself(alloc: Global, rows: &[Callees], at: u16) -> Result<bool, NoMemory>
    requires { length rows.now ≡ 65536 }
    ensures { IfOk result (λ b. IsTrue b ↔ Leads rows.now at at) }
{
    let mut found = Found::none(alloc)?;
    walk(rows, &mut found, at)?;
    Ok(found.has(at))
}

// Finds a start and all that it calls. Whether it is new, and all that it calls was found before: then it does not call
// itself, since none of these calls it.
fn clear(rows: &[Callees], found: &mut Found, start: u16) -> Result<bool, NoMemory>
    requires rows { length rows.now ≡ 65536 }
    requires closed { IsClosed rows.now found.old }
    ensures { IfOk result (Clears rows.now start found.new) }
{
    if found.has(start) {
        return Ok(false);
    }
    let before = found.len();
    walk(rows, found, start)?;
    let is_clear = found.len() == before;
    found.note(start)?;
    Ok(is_clear)
}

// Marks the start if it is clear.
fn mark_if(cleared: &mut Vec<bool>, start: u16, is_clear: bool)
    requires { length cleared.old.items ≡ 65536 }
    ensures marked { cleared.new.items ≡ with_clear cleared.old.items start is_clear }
    ensures few { start < 65536 }
{
    if is_clear {
        cleared[usize::from(start)] = true;
    }
}

/// For each address whether it is known that the start there does not call itself. In the order of `order_of` it is
/// known of all that do not.
pub(crate) fn cleared(alloc: Global, rows: &[Callees], order: &[u16]) -> Result<Vec<bool>, NoMemory>
    requires { length rows.now ≡ 65536 }
    ensures { IfOk result (λ cleared. AreCleared rows.now cleared.items) }
{
    let mut found = Found::none(alloc)?;
    let mut cleared = no_marks(alloc, ADDRESSES)?;
    for start in order {
        let is_clear = clear(rows, &mut found, *start)?;
        mark_if(&mut cleared, *start, is_clear);
    }
    Ok(cleared)
}
