//! Laws of where an automaton leads. Each function has no code: its contract is the law.
//! ```rust
//! pub fn ends_are_joined()
//!     ensures { (a : Automaton) (t : Text) (p : ℕ × ℕ) → IsWellFormed a → IsPairOf a t p → IsLeftForGood a t p → matched a p ≡ None →
//!         ends_from a t p ≡ distinct same_pair (flat_map (ends_from a t) (ways a t p)) }
//! {
//!     ends_come_by_the_ways();
//! }
//! ```
ghost use Rattle.std.specs.Prelude.{◌≡◌, ◌<◌, ℕ, List, length, None};
ghost use Rattle.std.specs.List.{flat_map};
ghost use Rattle.nfa_core.specs.BuilderStates.{Assembly, draft_at};
ghost use Rattle.nfa_core.specs.CanBuild.{CanBuild};
ghost use Rattle.nfa_core.specs.Drafted.{table_ways};
ghost use Rattle.nfa_core.specs.Nfa.{Automaton, IsWellFormed};
ghost use Rattle.nfa_core.specs.Places.{same_pair};
ghost use Rattle.nfa_core.specs.Renaming.{stands_for, new_name, automaton_of};
ghost use Rattle.nfa_core.specs.Returns.{IsLeftForGood};
ghost use Rattle.nfa_core.specs.Runs.{IsChain, last_or};
ghost use Rattle.nfa_core.specs.Walks.{distinct};
ghost use Rattle.nfa_core.specs.Ways.{Text, IsPairOf, ways, matched, ends_from};

/// Let a pair match nothing, and let nothing lead back to it. Then the ends of runs from it are those from where it leads, one after the
/// other, with repeats dropped. Loops elsewhere that consume nothing make no difference.
pub fn ends_come_by_the_ways()
    ensures { (a : Automaton) (t : Text) (p : ℕ × ℕ) → IsWellFormed a → IsPairOf a t p → IsLeftForGood a t p → matched a p ≡ None →
        ends_from a t p ≡ distinct same_pair (flat_map (ends_from a t) (ways a t p)) }
{}

/// A chain of what is built that reaches a kept state comes from a chain of the builder's own states that reaches that state.
pub fn chains_come_from_the_builders_states()
    ensures { (b : Assembly) (x y : ℕ) → CanBuild b x y → (t : Text) (c : ℕ) → c < length b.drafts →
        stands_for (draft_at b.drafts c) ≡ None →
        (q i : ℕ) (s : List (ℕ × ℕ)) → q < length b.drafts → IsChain same_pair (ways (automaton_of b x y) t) (i, new_name b.drafts q) s →
        (last_or (i, new_name b.drafts q) s).1 ≡ new_name b.drafts c →
        (r : List (ℕ × ℕ)) × IsChain same_pair (table_ways b.reverse t (draft_at b.drafts)) (i, q) r × ((last_or (i, q) r).1 ≡ c) }
{}
