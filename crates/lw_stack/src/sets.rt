// A region for each of many slots, of which few have pixels.

ghost use Rattle.std.specs.Prelude.{◌≡◌, ℕ, ◌<◌, ◌==◌, ◌&&◌, ◌||◌, [], length, ℤ, OnOk};
ghost use Rattle.std.specs.List.{slice_index_or};
ghost use Rattle.lw_region.specs.Bands.{covers};
ghost use Rattle.lw_stack.specs.Sets.{set_of, sets_of, AreOfSlots, IsPlaceOf};

use lw_region::{Region, or_region};
use std::alloc::{AllocError, Global};
use std::marker::Model;

/// A slot with its region.
#[derive(Debug, Drop)]
pub struct SlotSet {
    pub slot: u32,
    pub set: Region,
}

/// A region for each of so many slots. Only slots to which pixels were added take memory and time: of many slots few are live.
#[derive(Debug, Drop)]
pub struct SlotSets {
    count: usize,
    parts: Vec<SlotSet>,
    // What each other slot has.
    none: Region,
}

impl Model for SlotSets {
    ghost use Rattle.std.specs.Prelude.{◌≡◌, []};
    ghost use Rattle.lw_stack.specs.Sets.{SetsView, sets_of, AreOfSlots};

    ghost Value = { SetsView };

    ghost view = { λ s. record { items = sets_of s.count s.parts.items } };

    ghost invariant = { λ s. AreOfSlots s.count s.parts.items × (s.none ≡ []) };
}

impl SlotSets {
    // An empty region for each of so many slots. It takes no memory.
    pub(crate) fn new(alloc: Global, count: usize) -> SlotSets
        ensures many { length result.items ≡ count }
        ensures none { (s : ℕ) → slice_index_or result.items s [] ≡ [] }
    {
        SlotSets {
            count,
            parts: Vec::new(alloc),
            none: Region::new(alloc),
        }
    }

    /// The region of a slot.
    pub fn get(&self, slot: u32) -> &Region
        ensures { result.now ≡ slice_index_or self.now.items slot [] }
    {
        region_of(self.parts.as_slice(), &self.none, slot)
    }

    /// The regions of the slots that have some, each with its number, and maybe of others. Each slot stands there once at most.
    pub fn parts(&self) -> &[SlotSet]
        ensures slots { AreOfSlots (length self.now.items) result.now }
        ensures sets { self.now.items ≡ sets_of (length self.now.items) result.now }
    {
        self.parts.as_slice()
    }

    // Adds the pixels of a region to those of a slot.
    pub(crate) fn add(&mut self, alloc: Global, slot: u32, region: Region) -> Result<(), AllocError>
        requires { slot < length self.old.items }
        ensures many { length self.new.items ≡ length self.old.items }
        ensures sets { OnOk result ((s : ℕ) (x y : ℤ) →
            covers (slice_index_or self.new.items s []) x y
            ≡ (covers (slice_index_or self.old.items s []) x y || (covers region x y && (slot == s)))) }
    {
        add_to(alloc, &mut self.parts, slot, region)
    }
}

// The slot's region, or the other one where it has none.
fn region_of<'a>(parts: &'a [SlotSet], none: &'a Region, slot: u32) -> &'a Region
    requires { none.now ≡ [] }
    ensures { result.now ≡ set_of parts.now slot }
{
    let place = place_of(parts, slot);
    if place < parts.len() {
        return &parts[place].set;
    }
    none
}

// Adds the pixels of a region to those of a slot.
fn add_to(
    alloc: Global,
    parts: &mut Vec<SlotSet>,
    slot: u32,
    region: Region,
) -> Result<(), AllocError>
    ensures slots { (n : ℕ) → slot < n → AreOfSlots n parts.old.items → AreOfSlots n parts.new.items }
    ensures sets { OnOk result ((s : ℕ) (x y : ℤ) →
        covers (set_of parts.new.items s) x y ≡ (covers (set_of parts.old.items s) x y || (covers region x y && (slot == s)))) }
{
    let place = place_of(parts.as_slice(), slot);
    if place < parts.len() {
        return add_at(alloc, &mut parts[place], &region);
    }
    parts.push(SlotSet { slot, set: region })?;
    Ok(())
}

// The place of the slot's region, or the list's length where it has none.
fn place_of(parts: &[SlotSet], slot: u32) -> usize
    ensures { IsPlaceOf slot parts.now result }
{
    for index in 0..parts.len() {
        if is_of(&parts[index], slot) {
            return index;
        }
    }
    parts.len()
}

fn is_of(part: &SlotSet, slot: u32) -> bool
    ensures { result ≡ (part.now.slot == slot) }
{
    part.slot == slot
}

// Adds the pixels of a region to those of the part.
fn add_at(alloc: Global, part: &mut SlotSet, region: &Region) -> Result<(), AllocError>
    ensures slot { part.new.slot ≡ part.old.slot }
    ensures set { OnOk result ((x y : ℤ) → covers part.new.set x y ≡ (covers part.old.set x y || covers region.now x y)) }
{
    or_region(alloc, region, &mut part.set)
}
