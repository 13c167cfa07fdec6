ghost use Rattle.std.specs.Prelude.{◌≡◌, ℕ, ◌+◌, ◌<◌, ◌≤◌, ◌++◌, List, [], ◌∷◌, length, not, slice_index, All, if◌then◌else◌};
ghost use Rattle.std.specs.List.{IsDistinct};
ghost use Rattle.std.specs.Bool.{nat_eq};
ghost use Rattle.nfa_core.specs.NameSets.{is_in};

use crate::steps::Steps;
use search_core::StateID;
use std::sync::ledger::Ledger;

/// A set of numbers of states that keeps the order of insertion. Its memory is allocated once, so no insertion fails.
pub trait NameSet {
    /// The numbers in the set, in the order of insertion.
    ghost names: { Self → List ℕ };

    /// Each number that the set may hold is below it.
    ghost bound: { Self → ℕ };

    /// How many numbers the set may hold; each of them is below this.
    fn capacity(&self) -> usize
        ensures { result ≡ bound self.now };

    /// How many numbers are in the set.
    fn len(&self) -> usize
        ensures len { result ≡ length (names self.now) }
        ensures distinct { IsDistinct nat_eq (names self.now) }
        ensures below { All (λ x. x < bound self.now) (names self.now) }
        ensures fits { length (names self.now) ≤ bound self.now };

    /// Whether the number is in the set.
    fn contains(&self, name: StateID) -> bool
        requires { name < bound self.now }
        ensures { result ≡ is_in name (names self.now) };

    /// Appends the number unless it is in the set, and returns whether it was absent. Each call counts as a step.
    fn insert<L: Ledger>(&mut self, name: StateID, steps: &mut Steps<L>) -> bool
        requires { name < bound self.old }
        ensures fresh { result ≡ not (is_in name (names self.old)) }
        ensures names { names self.new ≡ (if result then names self.old ++ name ∷ [] else names self.old) }
        ensures bound { bound self.new ≡ bound self.old }
        ensures fits { length (names self.new) ≤ bound self.new }
        ensures cost { steps.new ≡ steps.old + 1 };

    /// Removes each number from the set.
    fn clear(&mut self)
        ensures names { names self.new ≡ [] }
        ensures bound { bound self.new ≡ bound self.old };

    /// The number that was inserted as number `k`, counted from 0.
    fn name(&self, k: usize) -> StateID
        requires { k < length (names self.now) }
        ensures { result ≡ slice_index (names self.now) k };
}
