ghost use Rattle.std.specs.Prelude.{◌≡◌, ℕ, ◌+◌, ◌*◌, ◌<◌, ◌≤◌, List, [], length, IfOk, IsOk, OnOk, OnErr};
ghost use Rattle.std.specs.Bool.{nat_eq};
ghost use Rattle.search_core.specs.Index.{greatest_index};
ghost use Rattle.nfa_core.specs.NameSets.{empty_below};

use crate::name_sets::marks::Marks;
use crate::name_sets::name_set::NameSet;
use crate::name_sets::sparse_set_iter::SparseSetIter;
use crate::steps::Steps;
use search_core::StateID;
use std::alloc::{AllocError, Global};
use std::marker::Model;
use std::sync::ledger::Ledger;

/// A set of numbers of states below a capacity, in the order in which they were inserted. It is a list whose memory is reserved, and a
/// table with a bit for each number. So a test and an insertion read one word, and [`clear`](NameSet::clear) costs as much as the numbers
/// in the set, not as the capacity. As `regex_automata::util::sparse_set::SparseSet`.
#[derive(Drop)]
pub struct SparseSet {
    names: Vec<StateID>,
    marks: Marks,
    capacity: usize,
}

impl Model for SparseSet {
    ghost use Rattle.std.specs.Prelude.{◌≤◌, vec_capacity};
    ghost use Rattle.nfa_core.specs.NameSets.{NameSetValue};
    ghost use Rattle.nfa_core.specs.Marked.{IsMarked};

    ghost Value = { NameSetValue };

    ghost view = { λ s. record { names = s.names.items; bound = s.capacity } };

    ghost invariant = { λ s. IsMarked s.names.items s.marks.words.items s.capacity × (s.capacity ≤ vec_capacity s.names) };
}

impl SparseSet {
    /// An empty set for the numbers below the capacity. Returns an error if an allocation fails.
    pub fn new(alloc: Global, capacity: usize) -> Result<SparseSet, AllocError>
        requires { capacity ≤ greatest_index + 1 }
        ensures empty { IfOk result (λ s. s ≡ empty_below capacity) }
        ensures none { capacity ≡ 0 → IsOk result }
    {
        let names = Vec::with_capacity(alloc, capacity)?;
        let marks = Marks::new(alloc, capacity)?;
        Ok(SparseSet {
            names,
            marks,
            capacity,
        })
    }

    /// Empties the set and gives it another capacity. If an allocation fails, the call returns an error, and the set is empty and keeps its
    /// capacity. The call can't fail if the new capacity isn't greater than the old one.
    pub fn resize(&mut self, capacity: usize) -> Result<(), AllocError>
        requires { capacity ≤ greatest_index + 1 }
        ensures ok { OnOk result (self.new ≡ empty_below capacity) }
        ensures err { OnErr result (self.new ≡ empty_below self.old.bound) }
        ensures shrinks { capacity ≤ self.old.bound → IsOk result }
    {
        self.clear();
        self.names.reserve(capacity)?;
        self.marks.resize(capacity)?;
        self.capacity = capacity;
        Ok(())
    }

    /// Whether no number is in the set.
    pub fn is_empty(&self) -> bool
        ensures { result ≡ nat_eq (length self.now.names) 0 }
    {
        self.names.is_empty()
    }

    /// The numbers of the set, in the order of insertion.
    pub fn iter(&self) -> SparseSetIter<'_>
        ensures { result ≡ self.now.names }
    {
        SparseSetIter::new(&self.names)
    }

    /// The bytes that the set counts for itself on the heap: 8 for each number of the capacity, as the two
    /// tables of the Rust crate's `SparseSet` take. The list and the bits of a large set take about half of that.
    pub fn memory_usage(&self) -> usize
        ensures usage { result ≡ 2 * self.now.bound * 4 }
        ensures in_range { self.now.bound ≤ greatest_index + 1 }
    {
        2 * self.capacity * StateID::SIZE
    }
}

impl NameSet for SparseSet {
    ghost names = { λ s. s.names };

    ghost bound = { λ s. s.bound };

    fn capacity(&self) -> usize {
        self.capacity
    }

    fn len(&self) -> usize {
        self.names.len()
    }

    #[inline(always)]
    fn contains(&self, name: StateID) -> bool {
        self.marks.is_marked(name.as_usize())
    }

    #[inline(always)]
    fn insert<L: Ledger>(&mut self, name: StateID, steps: &mut Steps<L>) -> bool {
        steps.tick();
        if self.contains(name) {
            return false;
        }
        self.marks.mark(name.as_usize());
        self.names.push_reserved(name);
        true
    }

    fn clear(&mut self) {
        self.marks.unmark(&self.names);
        self.names.clear();
    }

    fn name(&self, k: usize) -> StateID {
        self.names[k]
    }
}
