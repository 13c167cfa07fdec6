//! Laws of states that have no room. Each function has no code: its contract is the law.
//! ```rust
//! pub fn a_state_that_is_held_has_room()
//!     ensures { (d : Dfa) (v : CacheValue) (s : StateValue) → HasRowOf v s → has_no_room d v s ≡ true → ⊥ }
//! {
//!     held_states_have_room();
//! }
//! ```
ghost use Rattle.std.specs.Prelude.{◌≡◌, ℕ, ◌≤◌, Bool, List, true};
ghost use Rattle.determinize_core.specs.States.{StateValue};
ghost use Rattle.search_types.specs.declared.anchored.Anchored.{Anchored};
ghost use Rattle.search_types.specs.declared.match_error.MatchErrorKind.TheVariants.{GaveUp};
ghost use Rattle.search_types.specs.Inputs.{Search};
ghost use Rattle.lazy_dfa.specs.Caches.{CacheValue, has_no_room};
ghost use Rattle.lazy_dfa.specs.Dfas.{Dfa, reader};
ghost use Rattle.lazy_dfa.specs.LeftProgress.{HasRowOf, LeavesScan};
ghost use Rattle.lazy_dfa.specs.Scans.{first_value};
ghost use Rattle.lazy_dfa.specs.HalfSearchLaws.{begins_at};
ghost use Rattle.lazy_dfa.specs.SearchAnswers.{ProgressValue, progress_of};
ghost use Rattle.lazy_dfa.specs.OverlappingAnswers.{LeavesCall};
ghost use Rattle.lazy_dfa.specs.declared.overlapping.overlapping_state.OverlappingPosition.TheVariants.{Fresh};

/// A state that is held always has room. So the two cases of a search that gives up exclude each other: at its start the first
/// state isn't held, and at the first unit it is.
pub fn held_states_have_room()
    ensures { (d : Dfa) (v : CacheValue) (s : StateValue) → HasRowOf v s → has_no_room d v s ≡ true → ⊥ }
{}

/// If the first state of a scan has no room and nothing was cleared, the scan gives up and reports no progress. Precondition: a
/// scan in reverse covers at most as many bytes as lie before its position.
pub fn passes_that_give_up_at_their_start_report_nothing()
    ensures { (d : Dfa) (v : CacheValue) (mode : Anchored) (earliest : Bool) (h : List ℕ) (n i : ℕ) (t : ProgressValue) →
        (d.nfa.automaton.reverse ≡ true → n ≤ i) →
        has_no_room d v (first_value (reader d) mode h i) ≡ true → LeavesScan d mode earliest h (n, i) (GaveUp i) t v → progress_of v ≡ t }
{}

/// If the first state of an overlapping search has no room and nothing was cleared, its first call gives up and reports no
/// progress.
pub fn calls_that_give_up_at_their_start_report_nothing()
    ensures { (d : Dfa) (v : CacheValue) (q : Search) (t : ProgressValue) →
        has_no_room d v (first_value (reader d) q.anchored q.haystack (begins_at (reader d) q)) ≡ true →
        LeavesCall d q Fresh (GaveUp (begins_at (reader d) q)) t v → progress_of v ≡ t }
{}
