//! Laws of sequences of powerset states, by the runs of the automaton. Each function has no code: its contract is the law.
//! ```rust
//! pub fn walks_make_lists()
//!     ensures { (k : MatchKind) (a : Automaton) (t : Text) (i q : ℕ) → IsWellFormed a → q < length a.states →
//!         AreLists a t (i, q) (cut_of k a i) (lists_along k a t i q) }
//! {
//!     walked_lists_are_lists();
//! }
//! ```
ghost use Rattle.std.specs.Prelude.{◌≡◌, ◌+◌, ◌<◌, ◌≤◌, ℕ, suc, List, [], ◌∷◌, map, length, Option, Some, None};
ghost use Rattle.std.specs.Bool.{nat_eq};
ghost use Rattle.std.specs.List.{filter, slice_get};
ghost use Rattle.look_core.specs.Terminators.{Terminator};
ghost use Rattle.search_types.specs.declared.match_kind.MatchKind.{MatchKind};
ghost use Rattle.search_types.specs.declared.match_kind.MatchKind.TheVariants.{All as AllMatches, LeftmostFirst};
ghost use Rattle.nfa_core.specs.Runs.{IsMostPreferred};
ghost use Rattle.nfa_core.specs.Places.{same_pair, first};
ghost use Rattle.nfa_core.specs.Nfa.{Automaton, IsWellFormed};
ghost use Rattle.nfa_core.specs.Ways.{Text, span, ways, matched, AreLists, bytes_left, offset_of, ends_from};
ghost use Rattle.determinize_core.specs.States.{StateValue};
ghost use Rattle.determinize_core.specs.Starts.{start_of};
ghost use Rattle.determinize_core.specs.Steps.{kept_among, ids_before, patterns_in, start_value, unit_at, unit_before, value_after};
ghost use Rattle.determinize_core.specs.Walked.{cut_of, lists_along, latest_listed};
ghost use Rattle.determinize_core.specs.WalkLists.{walked, units_of, haystack_of, starting_index, text_of};

/// The states that a search under all looks is in, offset by offset, are the lists of one depth-first search for each offset.
pub fn walked_lists_are_lists()
    ensures { (kind : MatchKind) (a : Automaton) (text : Text) (i q : ℕ) → IsWellFormed a → q < length a.states →
        AreLists a text (i, q) (cut_of kind a i) (lists_along kind a text i q) }
{}

/// A powerset state's states, closed again under what the unit after them decides, are the states of the search under all looks, except
/// captures. So the state after the unit lists the patterns that match in these.
pub fn states_are_those_of_the_walk_under_all_looks()
    ensures states { (kind : MatchKind) (a : Automaton) (t : Terminator) (h : List ℕ) (s i e q k : ℕ) →
        IsWellFormed a → i ≤ e → e ≤ length h →
        q < length a.states → k ≤ bytes_left a.reverse (span t h s e) i →
        kept_among a (ids_before a t (value_after a t kind h i q k) (unit_at a.reverse h (offset_of a.reverse i k))) ≡
        kept_among a (lists_along kind a (span t h s e) i q k) }
    ensures matches { (kind : MatchKind) (a : Automaton) (t : Terminator) (h : List ℕ) (s i e q k : ℕ) →
        IsWellFormed a → i ≤ e → e ≤ length h →
        q < length a.states → k ≤ bytes_left a.reverse (span t h s e) i →
        (value_after a t kind h i q (suc k)).matches ≡ patterns_in kind a (lists_along kind a (span t h s e) i q k) }
{}

/// If all matches are asked for, each state lists the patterns of all ends of runs at the offset before its unit, those of the preferred
/// runs first.
pub fn all_ends_are_listed()
    ensures { (a : Automaton) (t : Terminator) (h : List ℕ) (s i e q k : ℕ) → IsWellFormed a → i ≤ e → e ≤ length h →
        q < length a.states → k ≤ bytes_left a.reverse (span t h s e) i →
        (value_after a t AllMatches h i q (suc k)).matches ≡
        map (λ (x : ℕ × ℕ). x.1) (filter (λ x. nat_eq x.0 (offset_of a.reverse i k)) (ends_from a (span t h s e) (i, q))) }
{}

/// Under leftmost-first, the last state that lists a match gives the first end of runs, which is that of the most preferred one.
pub fn the_last_listed_match_is_the_first_end()
    ensures preferred { (a : Automaton) (t : Terminator) (h : List ℕ) (s i e q : ℕ) → IsWellFormed a → i ≤ e →
        e ≤ length h → q < length a.states →
        IsMostPreferred same_pair (ways a (span t h s e)) (matched a) (i, q)
        (latest_listed (value_after a t LeftmostFirst h i q) (offset_of a.reverse i) (bytes_left a.reverse (span t h s e) i) 0) }
    ensures first { (a : Automaton) (t : Terminator) (h : List ℕ) (s i e q : ℕ) → IsWellFormed a → i ≤ e →
        e ≤ length h → q < length a.states →
        latest_listed (value_after a t LeftmostFirst h i q) (offset_of a.reverse i) (bytes_left a.reverse (span t h s e) i) 0 ≡
        first (ends_from a (span t h s e) (i, q)) }
{}

/// Under leftmost-first, a state lists at most one pattern. If there is a run, the state after the unit at the end of the most preferred
/// one lists its pattern, and no later state lists any. If there is no run, no state lists a pattern.
pub fn one_state_tells_of_the_first_end()
    ensures one { (a : Automaton) (t : Terminator) (h : List ℕ) (i q k : ℕ) → length (value_after a t LeftmostFirst h i q k).matches ≤ 1 }
    ensures some { (a : Automaton) (t : Terminator) (h : List ℕ) (s i e q : ℕ) → IsWellFormed a → i ≤ e →
        e ≤ length h → q < length a.states →
        (j p : ℕ) → first (ends_from a (span t h s e) (i, q)) ≡ Some (j, p) →
        (k : ℕ) × (k ≤ bytes_left a.reverse (span t h s e) i) × (j ≡ offset_of a.reverse i k) ×
        ((value_after a t LeftmostFirst h i q (suc k)).matches ≡ p ∷ []) ×
        ((m : ℕ) → k < m → m ≤ bytes_left a.reverse (span t h s e) i → (value_after a t LeftmostFirst h i q (suc m)).matches ≡ []) }
    ensures none { (a : Automaton) (t : Terminator) (h : List ℕ) (s i e q : ℕ) → IsWellFormed a → i ≤ e →
        e ≤ length h → q < length a.states →
        first (ends_from a (span t h s e) (i, q)) ≡ None →
        (k : ℕ) → k ≤ bytes_left a.reverse (span t h s e) i → (value_after a t LeftmostFirst h i q (suc k)).matches ≡ [] }
{}

/// A sequence of states depends only on the units that are read, and on the unit just before the first offset in the order of the search.
pub fn walks_depend_on_what_they_read()
    ensures { (a : Automaton) (t : Terminator) (kind : MatchKind) (h g : List ℕ) (i j q k : ℕ) →
        unit_before a.reverse h i ≡ unit_before a.reverse g j →
        ((m : ℕ) → m < k → unit_at a.reverse h (offset_of a.reverse i m) ≡ unit_at a.reverse g (offset_of a.reverse j m)) →
        value_after a t kind h i q k ≡ value_after a t kind g j q k }
{}

/// Let bytes follow a byte, or the haystack's edge. The sequence of states over them is the one over a haystack that has them there and
/// nothing else. It begins at the offset where the bytes begin for a search forward or in reverse.
pub fn walks_go_over_haystacks()
    ensures states { (a : Automaton) (t : Terminator) (kind : MatchKind) (q : ℕ) (behind : Option ℕ) (bytes : List ℕ) (k : ℕ) →
        k ≤ length bytes + 1 →
        slice_get (walked a t kind (start_value a t (start_of t behind) q) (units_of bytes)) k ≡
        Some (value_after a t kind (haystack_of a.reverse behind bytes) (starting_index a.reverse behind bytes) q k) }
    ensures len { (a : Automaton) (t : Terminator) (kind : MatchKind) (q : ℕ) (behind : Option ℕ) (bytes : List ℕ) →
        length (walked a t kind (start_value a t (start_of t behind) q) (units_of bytes)) ≡ length bytes + 2 }
{}

/// The sequence of states over bytes shows what runs find in them. If all matches are asked for, each state but the first lists the
/// patterns of all ends of runs at the offset before its unit, those of the preferred runs first.
///
/// Under leftmost-first, a state lists at most one pattern. If there is a run, the state after the unit at the end of the most preferred
/// one lists its pattern, and no later state lists any. If there is no run, no state lists a pattern.
pub fn walks_list_what_runs_find()
    ensures all { (a : Automaton) (t : Terminator) (q : ℕ) (behind : Option ℕ) (bytes : List ℕ) (states : List StateValue) →
        IsWellFormed a → q < length a.states →
        states ≡ walked a t AllMatches (start_value a t (start_of t behind) q) (units_of bytes) →
        (k : ℕ) (v : StateValue) → slice_get states (suc k) ≡ Some v →
        v.matches ≡ map (λ (x : ℕ × ℕ). x.1) (filter (λ x. nat_eq x.0 (offset_of a.reverse (starting_index a.reverse behind bytes) k))
        (ends_from a (text_of a.reverse t behind bytes) (starting_index a.reverse behind bytes, q))) }
    ensures one { (a : Automaton) (t : Terminator) (q : ℕ) (behind : Option ℕ) (bytes : List ℕ) (states : List StateValue) →
        states ≡ walked a t LeftmostFirst (start_value a t (start_of t behind) q) (units_of bytes) →
        (k : ℕ) (v : StateValue) → slice_get states k ≡ Some v → length v.matches ≤ 1 }
    ensures some { (a : Automaton) (t : Terminator) (q : ℕ) (behind : Option ℕ) (bytes : List ℕ) (states : List StateValue) →
        IsWellFormed a → q < length a.states →
        states ≡ walked a t LeftmostFirst (start_value a t (start_of t behind) q) (units_of bytes) →
        (j p : ℕ) → first (ends_from a (text_of a.reverse t behind bytes) (starting_index a.reverse behind bytes, q)) ≡ Some (j, p) →
        (k : ℕ) × (v : StateValue) × (j ≡ offset_of a.reverse (starting_index a.reverse behind bytes) k) ×
        (slice_get states (suc k) ≡ Some v) × (v.matches ≡ p ∷ []) ×
        ((m : ℕ) (w : StateValue) → k < m → slice_get states (suc m) ≡ Some w → w.matches ≡ []) }
    ensures none { (a : Automaton) (t : Terminator) (q : ℕ) (behind : Option ℕ) (bytes : List ℕ) (states : List StateValue) →
        IsWellFormed a → q < length a.states →
        states ≡ walked a t LeftmostFirst (start_value a t (start_of t behind) q) (units_of bytes) →
        first (ends_from a (text_of a.reverse t behind bytes) (starting_index a.reverse behind bytes, q)) ≡ None →
        (k : ℕ) (v : StateValue) → slice_get states (suc k) ≡ Some v → v.matches ≡ [] }
{}
