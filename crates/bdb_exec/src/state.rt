// How far a run has come.
ghost use Rattle.std.specs.Prelude.{◌≡◌, IfOk, Option, slice_set};
ghost use Rattle.std.specs.Option.{option_map};
ghost use Rattle.bdb_base.specs.declared.tuple.Tuple.{Tuple};
ghost use Rattle.bdb_queries.specs.Slots.{slot_at, known_operand};
ghost use Rattle.bdb_plan.specs.Running.{start_of, with_world, with_slot, with_value};

use crate::shared::Shared;
use bdb_base::{Exact, List, Operand, Tuple, Value};
use bdb_queries::known_operand;
use std::alloc::{AllocError, Global};
use std::marker::Model;
use std::mem;

/// How far a run has come: the world at which the last walk stands, and what is chosen for each item.
#[derive(Drop)]
pub struct State {
    world: u32,
    slots: Vec<Option<Shared>>,
}

impl Model for State {
    ghost use Rattle.bdb_plan.specs.Running.{Reached};

    ghost Value = { Reached };

    ghost view = { λ s. record { world = s.world; slots = s.slots.items } };
}

impl State {
    /// Nothing is chosen for any of so many items, and the walk is at the empty path.
    pub fn start(alloc: Global, items: u32) -> Result<Self, AllocError>
        ensures { IfOk result (λ s. s ≡ start_of items) }
    {
        let mut slots = Vec::new(alloc);
        for _item in 0..items {
            slots.push(None)?;
        }
        Ok(State { world: 0, slots })
    }

    /// The world at which the last walk stands.
    pub fn world(&self) -> u32
        ensures { result ≡ self.now.world }
    {
        self.world
    }

    /// What is chosen for each item.
    pub fn slots(&self) -> &[Option<Shared>]
        ensures { result.now ≡ self.now.slots }
    {
        self.slots.as_slice()
    }

    /// The same, at another world.
    pub fn at(self, world: u32) -> Self
        ensures { result ≡ with_world self world }
    {
        let State { slots, .. } = self;
        State { world, slots }
    }

    /// The same, with a tuple for an item.
    pub fn with(self, item: u32, tuple: Shared) -> Self
        ensures { result ≡ with_slot self item tuple }
    {
        let State { world, mut slots } = self;
        if (item as usize) < slots.len() {
            slots[item as usize] = Some(tuple);
        }
        State { world, slots }
    }

    /// A copy, with a tuple for an item.
    pub fn copy_with(&self, alloc: Global, item: u32, tuple: Shared) -> Result<Self, AllocError>
        ensures { IfOk result (λ s. s ≡ with_slot self.now item tuple) }
    {
        let slots = copied_slots(alloc, self.slots.as_slice())?;
        let copy = State {
            world: self.world,
            slots,
        };
        Ok(copy.with(item, tuple))
    }

    /// The same with nothing chosen for an item, and what was chosen for it.
    pub fn taken(self, item: u32) -> (Self, Option<Shared>)
        ensures found { result.1 ≡ slot_at self.slots item }
        ensures world { result.0.world ≡ self.world }
        ensures again { (t : Tuple) → with_slot result.0 item t ≡ with_slot self item t }
    {
        let State { world, mut slots } = self;
        let found = take_slot(&mut slots, item as usize);
        (State { world, slots }, found)
    }

    /// The same, with one more value bound of an item; none where the value isn't known.
    pub fn bound(
        self,
        alloc: Global,
        item: u32,
        right: &Operand,
    ) -> Result<Option<Self>, AllocError>
        ensures { IfOk result
            (λ next. next ≡ option_map
            (λ v. with_slot self item (with_value (slot_at self.slots item) v))
            (known_operand self.slots right.now)) }
    {
        let value = match known_operand(self.slots.as_slice(), right) {
            Some(value) => value.try_clone(alloc)?,
            None => return Ok(None),
        };
        let (state, before) = self.taken(item);
        let tuple = with_value(alloc, before, value)?;
        Ok(Some(state.with(item, tuple)))
    }
}

// Takes what is chosen for an item.
fn take_slot(slots: &mut Vec<Option<Shared>>, at: usize) -> Option<Shared>
    ensures found { result ≡ slot_at slots.old.items at }
    ensures again { (x : Option Tuple) → slice_set slots.new.items at x
        ≡ slice_set slots.old.items at x }
{
    if at < slots.len() {
        return mem::replace(&mut slots[at], None);
    }
    None
}

// A copy of what is chosen.
fn copied_slots(alloc: Global, slots: &[Option<Shared>]) -> Result<Vec<Option<Shared>>, AllocError>
    ensures { IfOk result (λ copy. copy.items ≡ slots.now) }
{
    let mut copy = Vec::with_capacity(alloc, slots.len())?;
    for slot in slots {
        copy.push(copied_slot(alloc, slot)?)?;
    }
    Ok(copy)
}

// A copy of what is chosen for one item.
fn copied_slot(alloc: Global, slot: &Option<Shared>) -> Result<Option<Shared>, AllocError>
    ensures { IfOk result (λ copy. copy ≡ slot.now) }
{
    match slot {
        Some(shared) => {
            let copy = shared.try_clone(alloc)?;
            Ok(Some(copy))
        }
        None => Ok(None),
    }
}

// What is bound of an item's tuple, with one more value.
fn with_value(alloc: Global, bound: Option<Shared>, value: Value) -> Result<Shared, AllocError>
    ensures { IfOk result (λ t. t ≡ with_value bound value) }
{
    match bound {
        Some(shared) => {
            let Tuple { rel, mut vals } = shared.into_tuple(alloc)?;
            vals.push(value)?;
            let tuple = Shared::new(alloc, Tuple { rel, vals })?;
            Ok(tuple)
        }
        None => {
            let mut vals = List::new(alloc);
            vals.push(value)?;
            let tuple = Shared::new(alloc, Tuple { rel: 0, vals })?;
            Ok(tuple)
        }
    }
}
