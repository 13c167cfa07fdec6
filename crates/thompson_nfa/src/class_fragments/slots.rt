//! A table of slots that forgets all that is stored in it in one step.
ghost use Rattle.std.specs.Prelude.{◌≡◌, ◌<◌, None, Some, IfOk, OnOk, OnErr, IsOk, IsTrue, MatchOption, length, replicate, map};
ghost use Rattle.thompson_nfa.specs.SlotTables.{is_ready, held_at, unready_table, empty_table, with_held};

use search_core::StateID;
use std::alloc::{AllocError, Global};
use std::marker::Model;

/// A key and the state that is stored with it, at the version that the table had then.
#[derive(Drop)]
pub(crate) struct Slot<K> {
    version: u16,
    pub(crate) key: K,
    pub(crate) id: StateID,
}

/// A table of slots. Slots of an earlier version hold nothing.
#[derive(Drop)]
pub(crate) struct Slots<K> {
    capacity: usize,
    version: u16,
    slots: Vec<Option<Slot<K>>>,
}

impl<K> Model for Slots<K> {
    ghost use Rattle.std.specs.Prelude.{map, All};
    ghost use Rattle.thompson_nfa.specs.SlotTables.{SlotTable, table_code};

    ghost Value = { SlotTable K };

    ghost coded = { table_code K.code };

    ghost use Rattle.thompson_nfa.specs.Slots.{current, IsUpTo};

    ghost view = { λ s. record { capacity = s.capacity; places = map (current s.version) s.slots.items } };

    ghost invariant = { λ s. All (IsUpTo s.version) s.slots.items };
}

impl<K: Drop> Slots<K> {
    pub(crate) fn new(alloc: Global, capacity: usize) -> Slots<K>
        ensures { result ≡ unready_table capacity }
    {
        Slots {
            capacity,
            version: 0,
            slots: Vec::new(alloc),
        }
    }

    /// Whether the slots are allocated.
    pub(crate) fn is_ready(&self) -> bool
        ensures { result ≡ is_ready self.now }
    {
        self.slots.len() == self.capacity
    }

    pub(crate) fn capacity(&self) -> usize
        ensures { result ≡ self.now.capacity }
    {
        self.capacity
    }

    /// Forgets all that is stored. The first call allocates the slots; after an error the table is as before.
    pub(crate) fn clear(&mut self) -> Result<(), AllocError>
        ensures ok { OnOk result (self.new ≡ empty_table self.old.capacity) }
        ensures err { OnErr result (self.new ≡ self.old) }
        ensures succeeds { IsTrue (is_ready self.old) → IsOk result }
    {
        if self.slots.len() != self.capacity {
            self.slots = empty_slots(*self.slots.allocator(), self.capacity)?;
        } else if self.version < u16::MAX {
            self.version += 1;
        } else {
            self.version = 0;
            forget_slots(&mut self.slots);
        }
        Ok(())
    }

    /// The slot at index `place`, if it holds something.
    pub(crate) fn at(&self, place: usize) -> Option<&Slot<K>>
        requires { place < length self.now.places }
        ensures { MatchOption result (held_at self.now place ≡ None) (λ s. held_at self.now place ≡ Some (s.now.key, s.now.id)) }
    {
        match &self.slots[place] {
            Some(slot) if slot.version == self.version => Some(slot),
            _ => None,
        }
    }

    /// Stores a key and a state at index `place`, instead of what was held there.
    pub(crate) fn set(&mut self, place: usize, key: K, id: StateID)
        requires { place < length self.old.places }
        ensures { self.new ≡ with_held self.old place key id }
    {
        self.slots[place] = Some(Slot {
            version: self.version,
            key,
            id,
        });
    }
}

fn empty_slots<K: Drop>(alloc: Global, count: usize) -> Result<Vec<Option<Slot<K>>>, AllocError>
    ensures { IfOk result (λ v. v.items ≡ replicate count None) }
{
    let mut slots = Vec::new(alloc);
    for _ in 0..count {
        slots.push(None)?;
    }
    Ok(slots)
}

fn forget_slots<K: Drop>(slots: &mut [Option<Slot<K>>])
    ensures { slots.new ≡ replicate (length slots.old) None }
{
    for slot in slots.iter_mut() {
        *slot = None;
    }
}
