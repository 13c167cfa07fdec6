//! Laws of the runs of an automaton. Each function has no code: its contract is the law. The lemmas from which they follow are in `proofs/`
//! and hold for any graph.
//! ```rust
//! pub fn matches_have_no_way()
//!     ensures { (a : Automaton) (t : Text) (p e : ℕ × ℕ) → matched a p ≡ Some e → ways a t p ≡ [] }
//! {
//!     matches_lead_nowhere();
//! }
//! ```
ghost use Rattle.std.specs.Prelude.{◌≡◌, ◌⊎◌, ℕ, suc, List, [], ◌∷◌, ◌++◌, Bool, true, false, Option, Some};
ghost use Rattle.std.specs.List.{filter};
ghost use Rattle.nfa_core.specs.Walks.{Has, HasNoneTwice, distinct, Visits, Lists};
ghost use Rattle.nfa_core.specs.Runs.{IsRun, IsChain, last_or, IsPreferred, IsMostPreferred, answers, wanted_answer};
ghost use Rattle.nfa_core.specs.Places.{same_pair, first};
ghost use Rattle.nfa_core.specs.Nfa.{Automaton, IsWellFormed};
ghost use Rattle.nfa_core.specs.Ways.{Text, whole, reads, with_offset, ways, matched, IsPairOf, ends_from};
ghost use Rattle.search_core.specs.Text.{byte_at};
ghost use Rattle.look_core.specs.Terminators.{Terminator};

/// If a haystack is searched as a whole, each offset at which it has a byte is read.
pub fn whole_texts_are_read()
    ensures is_forward { (t : Terminator) (h : List ℕ) (i : ℕ) → reads false (whole t h) i ≡ with_offset (suc i) (byte_at h i) }
    ensures is_reverse { (t : Terminator) (h : List ℕ) (i : ℕ) → reads true (whole t h) (suc i) ≡ with_offset i (byte_at h i) }
{}

/// A match leads nowhere.
pub fn matches_lead_nowhere()
    ensures { (a : Automaton) (t : Text) (p e : ℕ × ℕ) → matched a p ≡ Some e → ways a t p ≡ [] }
{}

/// Of two runs from a pair that differ, one is preferred to the other, and not the other way round.
pub fn preference_orders_runs()
    ensures either { (steps : ℕ × ℕ → List (ℕ × ℕ)) (p : ℕ × ℕ) (r s : List (ℕ × ℕ)) → IsChain same_pair steps p r →
        (r ≡ s) ⊎ (IsPreferred same_pair steps p r s ⊎ IsPreferred same_pair steps p s r) }
    ensures one { (steps : ℕ × ℕ → List (ℕ × ℕ)) (p : ℕ × ℕ) (r s : List (ℕ × ℕ)) → IsPreferred same_pair steps p r s →
        IsPreferred same_pair steps p s r → ⊥ }
{}

/// The first end of an automaton's runs from a pair is that of the most preferred run. If there is no run, there is no end. This also holds
/// among the runs to ends that are wanted.
pub fn the_first_end_is_the_most_preferred()
    ensures all { (a : Automaton) (t : Text) (p : ℕ × ℕ) → IsWellFormed a → IsPairOf a t p →
        IsMostPreferred same_pair (ways a t) (matched a) p (first (ends_from a t p)) }
    ensures wanted { (a : Automaton) (t : Text) (p : ℕ × ℕ) (wanted : ℕ × ℕ → Bool) → IsWellFormed a → IsPairOf a t p →
        IsMostPreferred same_pair (ways a t) (λ q. wanted_answer wanted (matched a q)) p (first (filter wanted (ends_from a t p))) }
{}

/// Each listed end is that of a run, the end of each run is listed, and none twice.
pub fn the_ends_are_those_of_runs()
    ensures listed { (a : Automaton) (t : Text) (p e : ℕ × ℕ) → IsWellFormed a → IsPairOf a t p → Has same_pair e (ends_from a t p) →
        (r : List (ℕ × ℕ)) × IsRun same_pair (ways a t) (matched a) p r e }
    ensures all { (a : Automaton) (t : Text) (p e : ℕ × ℕ) (r : List (ℕ × ℕ)) → IsWellFormed a → IsPairOf a t p →
        IsRun same_pair (ways a t) (matched a) p r e → Has same_pair e (ends_from a t p) }
    ensures once { (a : Automaton) (t : Text) (p : ℕ × ℕ) → HasNoneTwice same_pair (ends_from a t p) }
{}

/// A chain that returns to a pair finds no other ends: what any chain finds is listed.
pub fn chains_find_listed_ends()
    ensures { (a : Automaton) (t : Text) (p e : ℕ × ℕ) (r : List (ℕ × ℕ)) → IsWellFormed a → IsPairOf a t p →
        IsChain same_pair (ways a t) p r → matched a (last_or p r) ≡ Some e → Has same_pair e (ends_from a t p) }
{}

/// The matches that a depth-first search over pairs with one set meets are the ends of runs, in order.
pub fn walks_meet_the_ends_of_runs()
    ensures { (a : Automaton) (t : Text) (p : ℕ × ℕ) (after : List (ℕ × ℕ)) → IsWellFormed a → IsPairOf a t p →
        Visits same_pair (ways a t) (p ∷ []) [] after → distinct same_pair (answers (matched a) after) ≡ ends_from a t p }
{}

/// The search of a stack lists what the searches of its parts list, one after the other, and nothing else.
pub fn stacks_are_walked_part_by_part()
    ensures joined { (steps : ℕ × ℕ → List (ℕ × ℕ)) (answer : ℕ × ℕ → Option (ℕ × ℕ)) (xs ys l m : List (ℕ × ℕ)) →
        Lists steps answer xs l → Lists steps answer ys m → Lists steps answer (xs ++ ys) (l ++ m) }
    ensures split { (steps : ℕ × ℕ → List (ℕ × ℕ)) (answer : ℕ × ℕ → Option (ℕ × ℕ)) (xs ys l : List (ℕ × ℕ)) →
        Lists steps answer (xs ++ ys) l →
        (a : List (ℕ × ℕ)) × (b : List (ℕ × ℕ)) × (l ≡ a ++ b) × Lists steps answer xs a × Lists steps answer ys b }
    ensures one { (steps : ℕ × ℕ → List (ℕ × ℕ)) (answer : ℕ × ℕ → Option (ℕ × ℕ)) (stack l m : List (ℕ × ℕ)) →
        Lists steps answer stack l → Lists steps answer stack m → l ≡ m }
{}

/// If the search of a stack comes to its end, what it lists are the ends of runs, with repeats dropped.
pub fn stacks_list_the_ends_of_runs()
    ensures { (a : Automaton) (t : Text) (p : ℕ × ℕ) (l : List (ℕ × ℕ)) → IsWellFormed a → IsPairOf a t p →
        Lists (ways a t) (matched a) (p ∷ []) l → ends_from a t p ≡ distinct same_pair l }
{}
