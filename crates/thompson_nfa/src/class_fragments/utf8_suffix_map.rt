ghost use Rattle.std.specs.Prelude.{◌≡◌, ◌<◌, OnOk, OnErr, IsOk, IsTrue};
ghost use Rattle.thompson_nfa.specs.SlotTables.{is_ready, unready_table, empty_table, with_held, IsStored};

use crate::class_fragments::fnv::{START, mixed, offset_of};
use crate::class_fragments::slots::Slots;
use search_core::StateID;
use std::alloc::{AllocError, Global};
use std::marker::Model;

/// A range of bytes, from `start` to `end`, and the state to which it leads.
///
/// As `regex_automata::nfa::thompson::map::Utf8SuffixKey`.
#[derive(Clone, Copy, PartialEq, Eq, Debug)]
pub struct Utf8SuffixKey {
    pub from: StateID,
    pub start: u8,
    pub end: u8,
}

/// The states that were made for ranges, as far as a table of bounded size keeps them: a slot keeps what was
/// stored in it last. A contract sees what the slots hold.
///
/// As `regex_automata::nfa::thompson::map::Utf8SuffixMap`.
#[derive(Drop)]
pub struct Utf8SuffixMap {
    slots: Slots<Utf8SuffixKey>,
}

impl Model for Utf8SuffixMap {
    ghost use Rattle.thompson_nfa.specs.declared.class_fragments.utf8_suffix_map.Utf8SuffixKey.{Utf8SuffixKey};
    ghost use Rattle.thompson_nfa.specs.SlotTables.{SlotTable};

    ghost Value = { SlotTable Utf8SuffixKey };

    ghost view = { λ m. m.slots };
}

impl Utf8SuffixMap {
    /// A map with `capacity` slots, which [`Utf8SuffixMap::clear`] allocates.
    pub fn new(alloc: Global, capacity: usize) -> Utf8SuffixMap
        ensures { result ≡ unready_table capacity }
    {
        Utf8SuffixMap {
            slots: Slots::new(alloc, capacity),
        }
    }

    /// Whether the slots are allocated.
    pub fn is_ready(&self) -> bool
        ensures { result ≡ is_ready self.now }
    {
        self.slots.is_ready()
    }

    /// Forgets all states. The first call allocates the slots, and fails if there is no memory for them. Then
    /// the map is as before.
    pub fn clear(&mut self) -> Result<(), AllocError>
        ensures ok { OnOk result (self.new ≡ empty_table self.old.capacity) }
        ensures err { OnErr result (self.new ≡ self.old) }
        ensures succeeds { IsTrue (is_ready self.old) → IsOk result }
    {
        self.slots.clear()
    }

    /// The index of the key's slot. A map without slots has none.
    pub fn hash(&self, key: &Utf8SuffixKey) -> usize
        requires { 0 < self.now.capacity }
        ensures { result < self.now.capacity }
    {
        let mut hash = mixed(START, key.from.as_u64());
        hash = mixed(hash, u64::from(key.start));
        hash = mixed(hash, u64::from(key.end));
        offset_of(hash, self.slots.capacity())
    }

    /// The state that is kept for the key in the slot at `hash`.
    pub fn get(&self, key: &Utf8SuffixKey, hash: usize) -> Option<StateID>
        requires ready { IsTrue (is_ready self.now) }
        requires below { hash < self.now.capacity }
        ensures { IsStored self.now hash key.now result }
    {
        match self.slots.at(hash) {
            Some(slot) if slot.key == *key => Some(slot.id),
            _ => None,
        }
    }

    /// Keeps a state for the key in the slot at `hash`, and nothing else there.
    pub fn set(&mut self, key: Utf8SuffixKey, hash: usize, id: StateID)
        requires ready { IsTrue (is_ready self.old) }
        requires below { hash < self.old.capacity }
        ensures { self.new ≡ with_held self.old hash key id }
    {
        self.slots.set(hash, key, id);
    }
}
