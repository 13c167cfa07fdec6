//! Laws of the lists of states that a search makes position by position. Each function has no code: its contract is the law.
//! ```rust
//! pub fn lists_are_joined()
//!     ensures { (eps step : ℕ → ℕ → List ℕ) (n len q : ℕ) (ls : ℕ → List ℕ) → IsGraph eps step n len → q < n →
//!         AreStepLists eps step (λ k xs. xs) len q ls → (k : ℕ) → k ≤ len → ls k ≡ join nat_eq [] (arrivals eps step n q k) }
//! {
//!     lists_join_what_arrives();
//! }
//! ```
ghost use Rattle.std.specs.Prelude.{◌≡◌, ℕ, ◌<◌, ◌≤◌, List, [], ◌∷◌, length};
ghost use Rattle.std.specs.Bool.{nat_eq};
ghost use Rattle.std.specs.List.{filter};
ghost use Rattle.nfa_core.specs.Walks.{join, distinct};
ghost use Rattle.nfa_core.specs.Places.{same_pair, arrivals, AreStepLists, IsGraph, before_answer, answers_at, first, latest};
ghost use Rattle.nfa_core.specs.Nfa.{Automaton, IsWellFormed};
ghost use Rattle.nfa_core.specs.Ways.{Text, IsPairOf, AreLists, matched_after, bytes_left, offset_of, ends_from};

/// The list at each position is the join of what arrives there.
pub fn lists_join_what_arrives()
    ensures { (eps step : ℕ → ℕ → List ℕ) (n len start : ℕ) (lists : ℕ → List ℕ) → IsGraph eps step n len → start < n →
        AreStepLists eps step (λ k xs. xs) len start lists → (k : ℕ) → k ≤ len → lists k ≡ join nat_eq [] (arrivals eps step n start k) }
{}

/// Let each list be cut after its first match before its states read a byte. Then the latest match is the first end of runs, that of the
/// most preferred run.
pub fn cut_lists_end_with_the_first_run()
    ensures { (a : Automaton) (t : Text) (i q : ℕ) (lists : ℕ → List ℕ) → IsWellFormed a → IsPairOf a t (i, q) →
        AreLists a t (i, q) (λ k xs. before_answer (λ x. matched_after a i (k, x)) xs) lists →
        latest (matched_after a i) lists (bytes_left a.reverse t i) 0 ≡ first (ends_from a t (i, q)) }
{}

/// If lists are not cut, the matches of each are the ends of all runs to its position, in order of preference.
pub fn uncut_lists_have_all_ends()
    ensures { (a : Automaton) (t : Text) (i q : ℕ) (lists : ℕ → List ℕ) → IsWellFormed a → IsPairOf a t (i, q) →
        AreLists a t (i, q) (λ k xs. xs) lists → (k : ℕ) → k ≤ bytes_left a.reverse t i →
        distinct same_pair (answers_at (matched_after a i) k (lists k)) ≡
        filter (λ e. nat_eq e.0 (offset_of a.reverse i k)) (ends_from a t (i, q)) }
{}
