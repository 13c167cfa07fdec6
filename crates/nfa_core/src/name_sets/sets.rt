ghost use Rattle.std.specs.Prelude.{◌≡◌, ◌⊎◌, ◌+◌, ◌*◌, ◌≤◌, [], IfOk, IsOk, OnOk, OnErr};
ghost use Rattle.search_core.specs.Index.{greatest_index};
ghost use Rattle.nfa_core.specs.NameSets.{empty_below};

use crate::name_sets::name_set::NameSet;
use crate::name_sets::sparse_set::SparseSet;
use std::alloc::{AllocError, Global};
use std::mem;

/// Two sets, as a search over the states needs them: one for the states at this offset of the input, and one for those at the next offset.
/// As `regex_automata::util::sparse_set::SparseSets`.
#[derive(Drop)]
pub struct Sets<S: NameSet> {
    pub set1: S,
    pub set2: S,
}

/// The two sets that the Rust crate's `SparseSets` has.
pub type SparseSets = Sets<SparseSet>;

impl<S: NameSet> Sets<S> {
    /// Removes each number from both sets.
    pub fn clear(&mut self)
        ensures names1 { S.names self.new.set1 ≡ [] }
        ensures names2 { S.names self.new.set2 ≡ [] }
        ensures bound1 { S.bound self.new.set1 ≡ S.bound self.old.set1 }
        ensures bound2 { S.bound self.new.set2 ≡ S.bound self.old.set2 }
    {
        self.set1.clear();
        self.set2.clear();
    }

    /// Exchanges the two sets.
    pub fn swap(&mut self)
        ensures set1 { self.new.set1 ≡ self.old.set2 }
        ensures set2 { self.new.set2 ≡ self.old.set1 }
    {
        mem::swap(&mut self.set1, &mut self.set2);
    }
}

impl Sets<SparseSet> {
    /// Two empty sets for the numbers below the capacity. Returns an error if an allocation fails.
    pub fn new(alloc: Global, capacity: usize) -> Result<Sets<SparseSet>, AllocError>
        requires { capacity ≤ greatest_index + 1 }
        ensures empty { IfOk result (λ s. (s.set1 ≡ empty_below capacity) × (s.set2 ≡ empty_below capacity)) }
        ensures none { capacity ≡ 0 → IsOk result }
    {
        Ok(Sets {
            set1: SparseSet::new(alloc, capacity)?,
            set2: SparseSet::new(alloc, capacity)?,
        })
    }

    /// Empties both sets and gives them another capacity. If an allocation fails, the call returns an error. Either the first set fails,
    /// and the second one is left as it was, or the second set fails.
    pub fn resize(&mut self, capacity: usize) -> Result<(), AllocError>
        requires { capacity ≤ greatest_index + 1 }
        ensures set1 { OnOk result (self.new.set1 ≡ empty_below capacity) }
        ensures set2 { OnOk result (self.new.set2 ≡ empty_below capacity) }
        ensures err { OnErr result (((self.new.set1 ≡ empty_below self.old.set1.bound) × (self.new.set2 ≡ self.old.set2)) ⊎
            ((self.new.set1 ≡ empty_below capacity) × (self.new.set2 ≡ empty_below self.old.set2.bound))) }
        ensures shrinks { capacity ≤ self.old.set1.bound → capacity ≤ self.old.set2.bound → IsOk result }
    {
        self.set1.resize(capacity)?;
        self.set2.resize(capacity)?;
        Ok(())
    }

    /// The bytes that both sets count for themselves on the heap, by [`SparseSet::memory_usage`].
    pub fn memory_usage(&self) -> usize
        ensures { result ≡ 2 * self.now.set1.bound * 4 + 2 * self.now.set2.bound * 4 }
    {
        self.set1.memory_usage() + self.set2.memory_usage()
    }
}
