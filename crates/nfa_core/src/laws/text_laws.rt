//! Laws of the offsets that runs reach, and of inputs that are alike as far as runs read. Each function has no code: its contract is the
//! law.
//! ```rust
//! pub fn ends_lie_behind_their_start()
//!     ensures { (a : Automaton) (t : Text) (i q : ℕ) (e : ℕ × ℕ) → IsWellFormed a → IsPairOf a t (i, q) → a.reverse ≡ false →
//!         Has same_pair e (ends_from a t (i, q)) → i ≤ e.0 }
//! {
//!     ends_lie_inside();
//! }
//! ```
ghost use Rattle.std.specs.Prelude.{◌≡◌, ◌≢◌, ℕ, ◌+◌, ◌≤◌, List, Bool, true, false};
ghost use Rattle.std.specs.Bool.{nat_eq};
ghost use Rattle.look_core.specs.LookSets.{has_look};
ghost use Rattle.look_core.specs.declared.look.Look.{Look};
ghost use Rattle.nfa_core.specs.Walks.{Has};
ghost use Rattle.nfa_core.specs.Places.{same_pair, before_answer, first};
ghost use Rattle.nfa_core.specs.Nfa.{Automaton, IsWellFormed};
ghost use Rattle.nfa_core.specs.NfaValue.{IsSound, looks_of, has_empty};
ghost use Rattle.nfa_core.specs.Reaches.{read_by, IsWithinReach, LeadAlike, LeadsNoFurther};
ghost use Rattle.nfa_core.specs.Ways.{Text, is_satisfied, offset_of, bytes_left, IsPairOf, AreLists, matched_after, ends_from};

/// Runs end at offsets that are reached by reading bytes of the input. These are within the input, and not before the offset where the run
/// begins.
pub fn ends_lie_inside()
    ensures reached { (a : Automaton) (t : Text) (i q : ℕ) (e : ℕ × ℕ) → IsWellFormed a → IsPairOf a t (i, q) →
        Has same_pair e (ends_from a t (i, q)) → IsWithinReach a.reverse i (bytes_left a.reverse t i) e.0 }
    ensures is_forward { (a : Automaton) (t : Text) (i q : ℕ) (e : ℕ × ℕ) → IsWellFormed a → IsPairOf a t (i, q) → a.reverse ≡ false →
        Has same_pair e (ends_from a t (i, q)) → (i ≤ e.0) × (e.0 ≤ t.end) }
    ensures is_reverse { (a : Automaton) (t : Text) (i q : ℕ) (e : ℕ × ℕ) → IsWellFormed a → IsPairOf a t (i, q) →
        a.reverse ≡ true → t.start ≤ i →
        Has same_pair e (ends_from a t (i, q)) → (t.start ≤ e.0) × (e.0 ≤ i) }
{}

/// If no pattern may match the empty string, no run from a pattern's start ends at the offset where it begins.
pub fn no_run_is_empty()
    ensures { (a : Automaton) (t : Text) (i q : ℕ) (e : ℕ × ℕ) → IsSound a → has_empty a ≡ false → Has nat_eq q a.start_pattern →
        IsPairOf a t (i, q) → Has same_pair e (ends_from a t (i, q)) → e.0 ≢ i }
{}

/// If the search is over after d bytes, the first end of runs is the same in every input that is alike up to there.
pub fn first_ends_depend_on_what_was_read()
    ensures { (a : Automaton) (t u : Text) (i q d : ℕ) (lists : ℕ → List ℕ) → LeadAlike a t u i d →
        AreLists a t (i, q) (λ k xs. before_answer (λ x. matched_after a i (k, x)) xs) lists →
        LeadsNoFurther a t i d (before_answer (λ x. matched_after a i (d, x)) (lists d)) → IsWellFormed a → IsPairOf a t (i, q) →
        first (ends_from a t (i, q)) ≡ first (ends_from a u (i, q)) }
{}

/// Inputs in one haystack are alike as far as the looks of the states are read alike.
pub fn texts_are_alike_by_the_looks_of_states()
    ensures either { (a : Automaton) (f g : Look → ℕ → Bool) (h : List ℕ) (start end i d : ℕ) →
        ((l : Look) (k : ℕ) → has_look (looks_of a.states) l ≡ true → k ≤ d →
        is_satisfied a.reverse (read_by f h start end) l (offset_of a.reverse i k) ≡
        is_satisfied a.reverse (read_by g h start end) l (offset_of a.reverse i k)) →
        LeadAlike a (read_by f h start end) (read_by g h start end) i d }
    ensures is_forward { (a : Automaton) (f g : Look → ℕ → Bool) (h : List ℕ) (start end i d : ℕ) → a.reverse ≡ false →
        ((l : Look) (j : ℕ) → has_look (looks_of a.states) l ≡ true → i ≤ j → j ≤ i + d → f l j ≡ g l j) →
        LeadAlike a (read_by f h start end) (read_by g h start end) i d }
{}
