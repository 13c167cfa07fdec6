ghost use Rattle.std.specs.Prelude.{◌≡◌, ℕ, ◌+◌, ◌<◌, ◌≤◌, length, take, IfOk, IsOk};
ghost use Rattle.search_core.specs.Index.{greatest_index};
ghost use Rattle.nfa_core.specs.NameSets.{empty_below, is_in};
ghost use Rattle.nfa_core.specs.Paired.{IsPaired};

use crate::name_sets::name_set::NameSet;
use crate::steps::Steps;
use search_core::StateID;
use std::alloc::{AllocError, Global};
use std::marker::Model;
use std::sync::ledger::Ledger;

/// A set of numbers of states below a capacity, in the order in which they were inserted. It is a list, and a table with the position of
/// each number in the list. [`clear`](NameSet::clear) is one step, whatever the set has.
#[derive(Drop)]
pub struct PairSet {
    dense: Vec<StateID>,
    places: Vec<StateID>,
    len: usize,
}

impl Model for PairSet {
    ghost use Rattle.std.specs.Prelude.{take, length};
    ghost use Rattle.search_core.specs.Index.{greatest_index};
    ghost use Rattle.nfa_core.specs.NameSets.{NameSetValue, empty_below};
    ghost use Rattle.nfa_core.specs.Paired.{IsPaired};

    ghost Value = { NameSetValue };

    ghost view = { λ s. record { names = take s.len s.dense.items; bound = length s.places.items } };

    ghost invariant = { λ s. IsPaired s.dense.items s.places.items s.len };
}

impl PairSet {
    /// An empty set for the numbers below the capacity. Returns an error if an allocation fails.
    pub fn new(alloc: Global, capacity: usize) -> Result<PairSet, AllocError>
        requires { capacity ≤ greatest_index + 1 }
        ensures empty { IfOk result (λ s. s ≡ empty_below capacity) }
        ensures none { capacity ≡ 0 → IsOk result }
    {
        Ok(PairSet {
            dense: table(alloc, capacity)?,
            places: table(alloc, capacity)?,
            len: 0,
        })
    }
}

fn table(alloc: Global, len: usize) -> Result<Vec<StateID>, AllocError>
    ensures len { IfOk result (λ v. length v.items ≡ len) }
    ensures none { len ≡ 0 → IsOk result }
{
    let mut table = Vec::new(alloc);
    table.resize(len, StateID::ZERO)?;
    Ok(table)
}

// A number that is not in the list may have any position in the table, so this also compares the number at that position of the list.
#[inline(always)]
fn is_held(dense: &[StateID], places: &[StateID], len: usize, name: StateID) -> bool
    requires paired { IsPaired dense.now places.now len }
    requires inside { name < length places.now }
    ensures { result ≡ is_in name (take len dense.now) }
{
    let place = places[name.as_usize()].as_usize();
    place < len && dense[place] == name
}

impl NameSet for PairSet {
    ghost names = { λ s. s.names };

    ghost bound = { λ s. s.bound };

    fn capacity(&self) -> usize {
        self.places.len()
    }

    fn len(&self) -> usize {
        self.len
    }

    fn contains(&self, name: StateID) -> bool {
        is_held(&self.dense, &self.places, self.len, name)
    }

    fn insert<L: Ledger>(&mut self, name: StateID, steps: &mut Steps<L>) -> bool {
        steps.tick();
        if self.contains(name) {
            return false;
        }
        self.dense[self.len] = name;
        self.places[name.as_usize()] = StateID::must(self.len);
        self.len += 1;
        true
    }

    fn clear(&mut self) {
        self.len = 0;
    }

    fn name(&self, k: usize) -> StateID {
        self.dense[k]
    }
}
