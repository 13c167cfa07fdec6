//! Laws of how the bytes of a cache are counted. Each function has no code: its contract is the law.
//! ```rust
//! pub fn a_state_more()
//!     ensures { (m : Measures) (vs : List StateValue) (v : StateValue) →
//!         measured_usage m (vs ++ v ∷ []) ≡ measured_usage m vs + state_cost m.stride (length (encoded v)) }
//! {
//!     states_add_to_the_usage();
//! }
//! ```
ghost use Rattle.std.specs.Prelude.{◌≡◌, ◌≤◌, ◌+◌, ◌^◌, ◌++◌, ℕ, Bool, true, List, [], ◌∷◌, length};
ghost use Rattle.search_core.specs.Classes.{alphabet_size, IsLeastExponent};
ghost use Rattle.determinize_core.specs.States.{StateValue};
ghost use Rattle.determinize_core.specs.StateBytes.{encoded};
ghost use Rattle.lazy_dfa.specs.Accounting.{Measures, stride_of, longest_state, state_cost, fresh_usage, measured_usage, least_capacity};
ghost use Rattle.lazy_dfa.specs.Accounting.{effective_capacity};

use determinize_core::state_laws::states_are_short;

/// A state has as many transitions as the least power of two that is at least the number of classes.
pub fn strides_are_least_powers_of_two()
    ensures { (classes : List ℕ) (k : ℕ) → IsLeastExponent k (alphabet_size classes) → k ≤ 9 → stride_of classes ≡ 2 ^ k }
{}

/// A cache without states is counted to need what a fresh one does. Each state adds its row, its entry in the map and its bytes.
pub fn states_add_to_the_usage()
    ensures none { (m : Measures) → measured_usage m [] ≡ fresh_usage m }
    ensures more { (m : Measures) (held : List StateValue) (v : StateValue) →
        measured_usage m (held ++ v ∷ []) ≡ measured_usage m held + state_cost m.stride (length (encoded v)) }
{}

/// A state lists each pattern and each state of the automaton at most once, so it has no more bytes than the longest state.
pub fn states_are_no_longer_than_the_longest()
    ensures { (m : Measures) (v : StateValue) → length v.matches ≤ m.patterns → length v.ids ≤ m.states →
        length (encoded v) ≤ longest_state m }
{
    states_are_short();
}

/// The least capacity has room for two states, whatever they are.
pub fn the_least_capacity_has_room_for_two_states()
    ensures { (m : Measures) (v w : StateValue) → length (encoded v) ≤ longest_state m → length (encoded w) ≤ longest_state m →
        measured_usage m (v ∷ w ∷ []) ≤ least_capacity m }
{}

/// If the given capacity is at least the minimum, it is the capacity in effect. The capacity in effect is never below the given
/// one. If the check is skipped, it is never below the minimum either.
pub fn capacities_are_raised_to_the_least_one()
    ensures enough { (m : Measures) (skips : Bool) (given : ℕ) → least_capacity m ≤ given → effective_capacity m skips given ≡ given }
    ensures given { (m : Measures) (skips : Bool) (given : ℕ) → given ≤ effective_capacity m skips given }
    ensures least { (m : Measures) (given : ℕ) → least_capacity m ≤ effective_capacity m true given }
{}
