//! Laws of the definitions. Each function has no code: its contract is the law.
//! ```rust
//! pub fn preferred_ends_go_forward()
//!     ensures { (f : Looks) (h : List ℕ) (x : Tree) (i j : ℕ) → Has (preferred_ends f h x i) j → i ≤ j }
//! {
//!     preferred_ends_are_meant();
//!     spans_stay_in_the_haystack();
//! }
//! ```
ghost use Rattle.std.specs.Prelude.{◌≡◌, ◌≤◌, ℕ, suc, length, Bool, List, [], ◌∷◌, Some, None};
ghost use Rattle.std.specs.List.{flat_map};
ghost use Rattle.hir_core.specs.Tree.{Tree, repetition};
ghost use Rattle.hir_core.specs.Means.{Looks, Means};
ghost use Rattle.hir_core.specs.PreferredEnds.{preferred_ends, in_order, exactly, Has};
ghost use Rattle.hir_core.specs.Facts.{minimum_len, IsAboveZero, IsAtLeast};

/// Each end that a tree prefers is the end of a span that it matches.
#[tactic(auto, using(crate::proofs::PreferredEndsLemmas::preferred_ends_sound))]
pub fn preferred_ends_are_meant()
    ensures { (looks : Looks) (h : List ℕ) (x : Tree) (i j : ℕ) → Has (preferred_ends looks h x i) j → Means looks h x i j }
{}

/// Each span that a tree matches is among its preferred ends, also if it has empty loops.
#[tactic(auto, using(crate::proofs::PreferredEndsLemmas::preferred_ends_complete))]
pub fn meant_ends_are_preferred()
    ensures { (looks : Looks) (h : List ℕ) (x : Tree) (i j : ℕ) → Means looks h x i j → Has (preferred_ends looks h x i) j }
{}

/// A span goes forward. If it starts at an offset of the haystack, it stays within the haystack.
#[tactic(auto, using(crate::proofs::SpanLemmas::span_forward, crate::proofs::SpanLemmas::span_within))]
pub fn spans_stay_in_the_haystack()
    ensures forward { (looks : Looks) (h : List ℕ) (x : Tree) (i j : ℕ) → Means looks h x i j → i ≤ j }
    ensures within { (looks : Looks) (h : List ℕ) (x : Tree) (i j : ℕ) → i ≤ length h → Means looks h x i j → j ≤ length h }
{}

/// No span is shorter than the minimum length. If that is `None`, there is no span.
#[tactic(auto, using(crate::proofs::MinimumLenLemmas::minimum_len_sound))]
pub fn spans_have_the_minimum_len()
    ensures { (looks : Looks) (h : List ℕ) (x : Tree) (i j : ℕ) → Means looks h x i j → IsAtLeast (minimum_len x) i j }
{}

/// While fewer than the minimum number of rounds are made, a repetition is one round followed by the
/// repetition with both bounds less by one.
#[tactic(auto, using(crate::proofs::RepetitionLemmas::repetition_owed, crate::proofs::RepetitionLemmas::repetition_owed_bounded))]
pub fn owed_rounds_come_first()
    ensures unbounded { (looks : Looks) (h : List ℕ) (greedy : Bool) (x : Tree) (min i : ℕ) →
        preferred_ends looks h (repetition (suc min) None greedy x) i
        ≡ flat_map (preferred_ends looks h (repetition min None greedy x)) (preferred_ends looks h x i) }
    ensures bounded { (looks : Looks) (h : List ℕ) (greedy : Bool) (x : Tree) (min most i : ℕ) →
        preferred_ends looks h (repetition (suc min) (Some (suc most)) greedy x) i
        ≡ flat_map (preferred_ends looks h (repetition min (Some most) greedy x)) (preferred_ends looks h x i) }
{}

/// If both bounds are equal, a repetition is exactly so many rounds, greedy or lazy alike.
#[tactic(auto, using(crate::proofs::RepetitionLemmas::repetition_exact))]
pub fn equal_bounds_are_exact()
    ensures { (looks : Looks) (h : List ℕ) (greedy : Bool) (x : Tree) (n i : ℕ) →
        preferred_ends looks h (repetition n (Some n) greedy x) i ≡ exactly (preferred_ends looks h x) n i }
{}

/// If both bounds are 0, a repetition stops.
#[tactic(auto, using(crate::proofs::RepetitionLemmas::repetition_stopped))]
pub fn no_rounds_stop()
    ensures { (looks : Looks) (h : List ℕ) (greedy : Bool) (x : Tree) (i : ℕ) →
        preferred_ends looks h (repetition 0 (Some 0) greedy x) i ≡ i ∷ [] }
{}

/// If the minimum number of rounds is 0, a repetition has two choices: one more round followed by itself, and
/// to stop. A greedy repetition prefers them in this order, and a lazy one in the other. Precondition without
/// an upper bound: each round consumes at least one byte.
#[tactic(auto, using(crate::proofs::RepetitionLemmas::repetition_more, crate::proofs::RepetitionLemmas::repetition_more_bounded))]
pub fn more_rounds_or_stop()
    ensures unbounded { (looks : Looks) (h : List ℕ) (greedy : Bool) (x : Tree) (i : ℕ) → IsAboveZero (minimum_len x) →
        preferred_ends looks h (repetition 0 None greedy x) i
        ≡ in_order greedy (flat_map (preferred_ends looks h (repetition 0 None greedy x)) (preferred_ends looks h x i)) i }
    ensures bounded { (looks : Looks) (h : List ℕ) (greedy : Bool) (x : Tree) (most i : ℕ) →
        preferred_ends looks h (repetition 0 (Some (suc most)) greedy x) i
        ≡ in_order greedy (flat_map (preferred_ends looks h (repetition 0 (Some most) greedy x)) (preferred_ends looks h x i)) i }
{}
