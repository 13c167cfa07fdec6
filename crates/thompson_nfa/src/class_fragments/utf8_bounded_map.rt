ghost use Rattle.std.specs.Prelude.{◌≡◌, ◌<◌, ◌↔◌, OnOk, OnErr, IsOk, IsTrue};
ghost use Rattle.thompson_nfa.specs.SlotTables.{is_ready, unready_table, empty_table, with_held, IsStored};

use crate::class_fragments::fnv::{START, mixed, offset_of};
use crate::class_fragments::slots::Slots;
use nfa_core::Transition;
use search_core::StateID;
use std::alloc::{AllocError, Global};
use std::marker::Model;

/// The states that were made for lists of transitions, as far as a table of bounded size keeps them: a slot
/// keeps what was stored in it last. A contract sees what the slots hold.
///
/// As `regex_automata::nfa::thompson::map::Utf8BoundedMap`.
#[derive(Drop)]
pub struct Utf8BoundedMap {
    slots: Slots<Vec<Transition>>,
}

impl Model for Utf8BoundedMap {
    ghost use Rattle.std.specs.Prelude.{List, map};
    ghost use Rattle.std.specs.Option.{option_map};
    ghost use Rattle.nfa_core.specs.declared.transition.Transition.{Transition};
    ghost use Rattle.thompson_nfa.specs.SlotTables.{SlotTable};

    ghost Value = { SlotTable (List Transition) };

    ghost view = { λ m. record { capacity = m.slots.capacity; places = map (option_map (λ e. (e.0.items, e.1))) m.slots.places } };
}

impl Utf8BoundedMap {
    /// A map with `capacity` slots, which [`Utf8BoundedMap::clear`] allocates.
    pub fn new(alloc: Global, capacity: usize) -> Utf8BoundedMap
        ensures { result ≡ unready_table capacity }
    {
        Utf8BoundedMap {
            slots: Slots::new(alloc, capacity),
        }
    }

    /// Whether the slots are allocated.
    pub fn is_ready(&self) -> bool
        ensures { result ≡ is_ready self.now }
    {
        self.slots.is_ready()
    }

    /// Forgets all states. The first call allocates the slots, and fails if there is no memory for them. Then
    /// the map is as before.
    pub fn clear(&mut self) -> Result<(), AllocError>
        ensures ok { OnOk result (self.new ≡ empty_table self.old.capacity) }
        ensures err { OnErr result (self.new ≡ self.old) }
        ensures succeeds { IsTrue (is_ready self.old) → IsOk result }
    {
        self.slots.clear()
    }

    /// The index of the key's slot. A map without slots has none.
    pub fn hash(&self, key: &[Transition]) -> usize
        requires { 0 < self.now.capacity }
        ensures { result < self.now.capacity }
    {
        let mut hash = START;
        for transition in key {
            hash = mixed(hash, u64::from(transition.start));
            hash = mixed(hash, u64::from(transition.end));
            hash = mixed(hash, transition.next.as_u64());
        }
        offset_of(hash, self.slots.capacity())
    }

    /// The state that is kept for the key in the slot at `hash`.
    pub fn get(&self, key: &[Transition], hash: usize) -> Option<StateID>
        requires ready { IsTrue (is_ready self.now) }
        requires below { hash < self.now.capacity }
        ensures { IsStored self.now hash key.now result }
    {
        match self.slots.at(hash) {
            Some(slot) if is_same(&slot.key, key) => Some(slot.id),
            _ => None,
        }
    }

    /// Keeps a state for the key in the slot at `hash`, and nothing else there.
    pub fn set(&mut self, key: Vec<Transition>, hash: usize, id: StateID)
        requires ready { IsTrue (is_ready self.old) }
        requires below { hash < self.old.capacity }
        ensures { self.new ≡ with_held self.old hash key.items id }
    {
        self.slots.set(hash, key, id);
    }
}

fn is_same(stored: &[Transition], key: &[Transition]) -> bool
    ensures { IsTrue result ↔ (stored.now ≡ key.now) }
{
    stored == key
}
