//! The units that are active, and the memory of their segments.
ghost use Rattle.std.specs.Prelude.{◌≡◌, ◌≢◌, ◌+◌, ◌<◌, ◌≤◌, ◌∷◌, ◌↔◌, ℕ, IsTrue, true, false, List, [], IfOk, None};
ghost use Rattle.std.specs.Prelude.{Some, IfSome, IfNone, length, nat_eq, slice_index, slice_get, reverse, drop, ◌-◌};
ghost use Rattle.std.specs.List.{Contains};
ghost use Rattle.m51_cells.specs.declared.cell.Cell.{Cell};
ghost use Rattle.m51_module.specs.Plan.{IsPlaced};
ghost use Rattle.m51_module.specs.Sound.{IsSound, IsFit};
ghost use Rattle.m51_flat.specs.States.{Absent, shut_of};
ghost use Rattle.m51_monitor.specs.Activity.{Activity, AreHolders, AreTimes, MayEnter, KeepsStores, answers_in};
ghost use Rattle.m51_monitor.specs.Activity.{times};
ghost use Rattle.m51_monitor.specs.declared.activity.TheConstants.{MOST_NAMED};
ghost use Rattle.m51_monitor.specs.Frames.{EndsAt};
ghost use Rattle.m51_monitor.specs.Records.{first_or, one_more_where};
ghost use Rattle.m51_monitor.specs.Resolved.{outside_of};
ghost use Rattle.m51_monitor.specs.Shared.{Shared, shared_barred, shared_cells, turned_to};
ghost use Rattle.m51_monitor.specs.Stores.{Stores, StandsFor, filled_stores, has_cell, live_by, put_into};
ghost use Rattle.m51_monitor.specs.Turning.{AreTurned, IsOverlaidAmong, IsLocalAmong, IsLocalOf};

use crate::covering::{is_data, is_over, is_overlaid};
use crate::shared::SharedRam;
use m51_cells::{Cell, NoMemory, cite};
use m51_flat::{CellStore, Put};
use m51_module::{Layout, Placed};
use std::alloc::Global;
use std::marker::Model;

/// The room of the list of units that records name, which is taken at the start: there are at most three walks at
/// once, and no unit is twice in one of them.
///
/// Source: own choice ("Activations").
pub const MOST_NAMED: usize = 3_000;

/// The units that the records name, how many records name each unit, how many of the named units own each segment, and
/// the memory.
#[derive(Drop)]
pub(crate) struct Activity {
    layout: Layout,
    store: SharedRam,
    units: Vec<u16>,
    numbers: Vec<u8>,
    // With these an entry or a return costs the segments of its unit, and not their owners.
    holders: Vec<u16>,
}

impl Model for Activity {
    ghost use Rattle.std.specs.Prelude.{◌≤◌, vec_capacity, reverse};
    ghost use Rattle.m51_monitor.specs.Activity as active;
    ghost use Rattle.m51_monitor.specs.declared.activity.TheConstants.{MOST_NAMED};

    ghost Value = { active.Activity };

    ghost view = { λ a. record { layout = a.layout; units = reverse a.units.items; store = a.store } };

    ghost invariant = { λ a. active.IsActivity a.layout (reverse a.units.items) a.numbers.items a.holders.items
        a.store × (MOST_NAMED ≤ vec_capacity a.units) };
}

// A placed extent, which is as a sound layout has it.
#[tactic(auto, using(crate::proofs::Placing::placed_at, crate::proofs::Placing::fit_at))]
fn placed_at(layout: &Layout, segment: usize) -> &Placed
    requires { segment < length layout.now.placed }
    ensures placed { IsPlaced layout.now segment result.now }
    ensures fit { IsFit result.now }
{
    &layout.placed()[segment]
}

// The address after the last byte of a unit.
#[tactic(auto, using(m51_module::proofs::Units::unit_place, m51_module::proofs::Units::unit_at_place))]
fn end_of(layout: &Layout, unit: u16) -> u32
    requires { unit < length layout.now.units }
    ensures { EndsAt layout.now unit result }
{
    cite(layout.placed());
    let placed = placed_at(layout, usize::from(layout.units()[usize::from(unit)]));
    u32::from(placed.base) + u32::from(placed.size)
}

// Turns the segment of this index in the list live and unset, or outside, where nothing holds it.
#[tactic(auto, using(crate::proofs::Placing::turned, crate::proofs::Placing::stays, crate::proofs::Placing::item_is))]
fn turn_local(
    store: &mut SharedRam,
    layout: &Layout,
    holders: &[u16],
    locals: &[u16],
    index: usize,
    live: bool,
)
    requires index { index < length locals.now }
    requires locals { (t : ℕ) → Contains locals.now t → t < length layout.now.placed }
    requires holders { length holders.now ≡ length layout.now.placed }
    ensures { (old : Shared)
        → AreTurned layout.now (IsLocalAmong holders.now locals.now index) (turned_to live) old store.old
        → AreTurned layout.now (IsLocalAmong holders.now locals.now (index + 1)) (turned_to live) old store.new }
{
    let segment = locals[index];
    if holders[usize::from(segment)] == 0 {
        store.turn(placed_at(layout, usize::from(segment)).cells(), live);
    }
}

// Turns the segments that the unit owns live and unset, or outside, but for those that something holds.
#[tactic(auto, using(crate::proofs::Placing::none, crate::proofs::Placing::turned_all, crate::proofs::Placing::below))]
fn turn_locals(store: &mut SharedRam, layout: &Layout, holders: &[u16], unit: u16, live: bool)
    requires unit { unit < length layout.now.units }
    requires holders { length holders.now ≡ length layout.now.placed }
    ensures turned { AreTurned layout.now (IsLocalOf layout.now holders.now unit) (turned_to live) store.old store.new }
    ensures sound { IsSound layout.now }
{
    cite(layout.placed());
    let locals = layout.locals(unit);
    for index in 0..locals.len() {
        turn_local(store, layout, holders, locals, index, live);
    }
}

// Counts one holder more of the segment.
#[tactic(auto, using(crate::proofs::Entering::set_more))]
fn add_one(holders: &mut [u16], segment: u16)
    requires inside { segment < length holders.old }
    requires room { slice_index holders.old segment < 65535 }
    ensures len { length holders.new ≡ length holders.old }
    ensures number { (t : ℕ) → slice_index holders.new t
        ≡ slice_index holders.old t + one_more_where (nat_eq segment t) 0 }
{
    holders[usize::from(segment)] += 1;
}

// Counts one holder less of the segment.
#[tactic(auto, using(crate::proofs::Entering::set_less))]
fn take_one(holders: &mut [u16], segment: u16)
    requires inside { segment < length holders.old }
    requires some { 0 < slice_index holders.old segment }
    ensures len { length holders.new ≡ length holders.old }
    ensures number { (t : ℕ) → slice_index holders.new t + one_more_where (nat_eq segment t) 0
        ≡ slice_index holders.old t }
{
    holders[usize::from(segment)] -= 1;
}

// Counts one holder more of each of these segments.
fn count_more(holders: &mut [u16], locals: &[u16])
    requires inside { (t : ℕ) → Contains locals.now t → t < length holders.old }
    requires room { (t : ℕ) → t < length holders.old → slice_index holders.old t + times locals.now t < 65536 }
    ensures len { length holders.new ≡ length holders.old }
    ensures number { (t : ℕ) → slice_index holders.new t ≡ slice_index holders.old t + times locals.now t }
{
    for index in 0..locals.len() {
        add_one(holders, locals[index]);
    }
}

// Counts one holder less of each of these segments.
fn count_less(holders: &mut [u16], locals: &[u16])
    requires inside { (t : ℕ) → Contains locals.now t → t < length holders.old }
    requires some { (t : ℕ) → t < length holders.old → times locals.now t ≤ slice_index holders.old t }
    ensures len { length holders.new ≡ length holders.old }
    ensures number { (t : ℕ) → slice_index holders.new t + times locals.now t ≡ slice_index holders.old t }
{
    for index in 0..locals.len() {
        take_one(holders, locals[index]);
    }
}

// Counts the unit among the holders of its segments.
fn hold(holders: &mut Vec<u16>, layout: &Layout, unit: u16)
    requires unit { unit < length layout.now.units }
    requires some { (units : List ℕ) × AreHolders layout.now units holders.old.items × (length units < MOST_NAMED) }
    ensures { (units : List ℕ) → AreHolders layout.now units holders.old.items
        → AreHolders layout.now (unit ∷ units) holders.new.items }
{
    cite(layout.placed());
    count_more(holders, layout.locals(unit));
}

// Counts the unit no longer among the holders of its segments.
fn release(holders: &mut Vec<u16>, layout: &Layout, unit: u16)
    requires unit { unit < length layout.now.units }
    requires some { (units : List ℕ) × AreHolders layout.now (unit ∷ units) holders.old.items }
    ensures { (units : List ℕ) → AreHolders layout.now (unit ∷ units) holders.old.items
        → AreHolders layout.now units holders.new.items }
{
    cite(layout.placed());
    count_less(holders, layout.locals(unit));
}

// Turns the segment outside if it is overlaid.
#[tactic(auto, using(crate::proofs::Starting::overlaid_turned, crate::proofs::Starting::plain_stays))]
fn turn_if_overlaid(store: &mut SharedRam, layout: &Layout, segment: usize)
    requires { segment < length layout.now.placed }
    ensures { (old : Shared) → AreTurned layout.now (IsOverlaidAmong layout.now segment) Absent old store.old
        → AreTurned layout.now (IsOverlaidAmong layout.now (segment + 1)) Absent old store.new }
{
    let placed = placed_at(layout, segment);
    if is_overlaid(placed.mark) {
        store.turn(placed.cells(), false);
    }
}

// Turns all overlaid segments outside.
#[tactic(auto, using(crate::proofs::Starting::none_overlaid))]
fn turn_overlaid(store: &mut SharedRam, layout: &Layout)
    ensures { AreTurned layout.now (IsOverlaidAmong layout.now (length layout.now.placed)) Absent store.old store.new }
{
    for segment in 0..layout.placed().len() {
        turn_if_overlaid(store, layout, segment);
    }
}

// A list for this number of units, none of which a record names.
fn unnamed(alloc: Global, count: usize) -> Result<Vec<u8>, NoMemory>
    ensures len { IfOk result (λ numbers. length numbers.items ≡ count) }
    ensures each { IfOk result (λ numbers. (n : ℕ) → n < count → slice_index numbers.items n ≡ 0) }
{
    Ok(vec![in alloc; 0; count]?)
}

// A list for this number of segments, none of which has a holder.
fn unheld(alloc: Global, count: usize) -> Result<Vec<u16>, NoMemory>
    ensures len { IfOk result (λ holders. length holders.items ≡ count) }
    ensures each { IfOk result (λ holders. (n : ℕ) → n < count → slice_index holders.items n ≡ 0) }
{
    Ok(vec![in alloc; 0; count]?)
}

// Whether the segment is live.
fn is_live(layout: &Layout, holders: &[u16], segment: usize) -> bool
    requires segment { segment < length layout.now.placed }
    requires holders { length holders.now ≡ length layout.now.placed }
    ensures { (units : List ℕ) → AreHolders layout.now units holders.now → result ≡ live_by layout.now units segment }
{
    !is_overlaid(placed_at(layout, segment).mark) || holders[segment] > 0
}

// Whether the segment covers the cell of data memory.
fn has_cell(layout: &Layout, segment: usize, cell: Cell) -> bool
    requires { segment < length layout.now.placed }
    ensures { result ≡ has_cell layout.now segment cell }
{
    is_data(cell) && is_over(placed_at(layout, segment), cell)
}

// Whether the segment is live and over the cell.
fn answers(layout: &Layout, holders: &[u16], segment: usize, cell: Cell) -> bool
    requires segment { segment < length layout.now.placed }
    requires holders { length holders.now ≡ length layout.now.placed }
    ensures { (units : List ℕ) → AreHolders layout.now units holders.now → result
        ≡ answers_in layout.now units cell segment }
{
    is_live(layout, holders, segment) && has_cell(layout, segment, cell)
}

impl Activity {
    /// No unit is active: plain segments and the common cells have the fill, and overlaid segments are outside.
    pub(crate) fn start(alloc: Global, layout: Layout, fill: u8) -> Result<Activity, NoMemory>
        ensures layout { IfOk result (λ activity. activity.layout ≡ layout) }
        ensures units { IfOk result (λ activity. activity.units ≡ []) }
        ensures stands { IfOk result (λ activity. StandsFor layout (live_by layout []) activity.store
            (filled_stores layout fill)) }
    {
        let mut store = SharedRam::filled(alloc, fill)?;
        let units = Vec::with_capacity(alloc, MOST_NAMED)?;
        let numbers = unnamed(alloc, layout.units().len())?;
        let holders = unheld(alloc, layout.placed().len())?;
        turn_overlaid(&mut store, &layout);
        Ok(Activity {
            layout,
            store,
            units,
            numbers,
            holders,
        })
    }

    /// How many records name each unit.
    pub(crate) fn numbers(&self) -> &[u8]
        ensures { AreTimes self.now.layout self.now.units result.now }
    {
        &self.numbers
    }

    /// The first live segment over the cell.
    pub(crate) fn segment_at(&self, cell: Cell) -> Option<u16>
        ensures some { IfSome result (λ t. answers_in self.now.layout self.now.units cell t ≡ true) }
        ensures none { IfNone result ((t : ℕ) → t < length self.now.layout.placed
            → answers_in self.now.layout self.now.units cell t ≡ false) }
    {
        for segment in 0..self.layout.placed().len() {
            if answers(&self.layout, &self.holders, segment, cell) {
                return Some(segment as u16);
            }
        }
        None
    }

    /// The layout.
    pub(crate) fn layout(&self) -> &Layout
        ensures { result.now ≡ self.now.layout }
    {
        &self.layout
    }

    /// The layout is sound.
    pub(crate) fn is_sound(&self)
        ensures { IsSound self.now.layout }
    {
        cite(self.layout.placed());
    }

    /// The memory.
    pub(crate) fn store(&self) -> &SharedRam
        ensures store { result.now ≡ self.now.store }
        ensures stands { (s : Stores)
            × StandsFor self.now.layout (live_by self.now.layout self.now.units) self.now.store s }
        ensures barred { shared_barred result.now ≡ outside_of (shared_cells result.now) }
    {
        self.store.bars();
        &self.store
    }

    /// How many units are named.
    pub(crate) fn count(&self) -> usize
        ensures { result ≡ length self.now.units }
    {
        self.units.len()
    }

    /// The last of the units.
    #[tactic(auto, using(crate::proofs::Lists::last_is))]
    pub(crate) fn last(&self) -> u16
        requires { 0 < length self.now.units }
        ensures { result ≡ first_or self.now.units 0 }
    {
        self.units[self.units.len() - 1]
    }

    /// The address after the bytes of the last of the units.
    pub(crate) fn last_end(&self) -> u32
        requires { 0 < length self.now.units }
        ensures { EndsAt self.now.layout (first_or self.now.units 0) result }
    {
        end_of(&self.layout, self.last())
    }

    /// The unit that was last when this number of units was named.
    #[tactic(auto, using(crate::proofs::Lists::unit_is))]
    pub(crate) fn unit(&self, count: usize) -> u16
        requires some { 0 < count }
        requires below { count ≤ length self.now.units }
        ensures { result ≡ first_or (drop (length self.now.units - count) self.now.units) 0 }
    {
        self.units[count - 1]
    }

    /// Writes the cells of a put.
    #[inline(always)]
    pub(crate) fn put(&mut self, put: &Put)
        requires { shut_of (shared_barred self.old.store) put.now ≡ None }
        ensures layout { self.new.layout ≡ self.old.layout }
        ensures units { self.new.units ≡ self.old.units }
        ensures barred { shared_barred self.new.store ≡ shared_barred self.old.store }
        ensures keeps { (s : Stores)
            → StandsFor self.old.layout (live_by self.old.layout self.old.units) self.old.store s
            → StandsFor self.old.layout (live_by self.old.layout self.old.units) self.new.store
            (put_into self.old.layout (live_by self.old.layout self.old.units) put.now s) }
    {
        self.store.put(put);
    }

    /// One more record names the unit.
    pub(crate) fn enter(&mut self, unit: u16)
        requires { MayEnter self.old.layout self.old.units unit }
        ensures layout { self.new.layout ≡ self.old.layout }
        ensures units { self.new.units ≡ unit ∷ self.old.units }
        ensures keeps { KeepsStores self.old self.new }
    {
        turn_locals(&mut self.store, &self.layout, &self.holders, unit, true);
        hold(&mut self.holders, &self.layout, unit);
        self.numbers[usize::from(unit)] += 1;
        match self.units.push(unit) {
            Ok(()) => {}
            // There is room.
            Err(_) => unreachable!(),
        }
    }

    /// A record less names the unit that is last.
    pub(crate) fn leave(&mut self)
        requires { self.old.units ≢ [] }
        ensures layout { self.new.layout ≡ self.old.layout }
        ensures units { self.new.units ≡ drop 1 self.old.units }
        ensures keeps { KeepsStores self.old self.new }
    {
        if let Some(unit) = self.units.pop() {
            self.numbers[usize::from(unit)] -= 1;
            release(&mut self.holders, &self.layout, unit);
            turn_locals(&mut self.store, &self.layout, &self.holders, unit, false);
        }
    }

    /// Only the first units, up to this count, stay named.
    pub(crate) fn leave_to(&mut self, count: usize)
        requires { count ≤ length self.old.units }
        ensures layout { self.new.layout ≡ self.old.layout }
        ensures units { self.new.units ≡ drop (length self.old.units - count) self.old.units }
        ensures keeps { KeepsStores self.old self.new }
    {
        for _ in count..self.count() {
            self.leave();
        }
    }
}
