//! Laws of where spans lie, and of what they depend on. Each function has no code: its contract is the law.
//! ```rust
//! pub fn spans_start_at_boundaries()
//!     ensures { (f : Looks) (h : List ℕ) (x : Tree) (i j : ℕ) → IsValidText h → is_utf8_tree x ≡ true → Means f h x i j → i < j →
//!         j ≤ length h → is_boundary h i ≡ true }
//! {
//!     spans_of_utf8_trees_stand_at_boundaries();
//! }
//! ```
ghost use Rattle.std.specs.Prelude.{◌≡◌, ◌≤◌, ◌<◌, ℕ, length, List, [], take, drop, true};
ghost use Rattle.search_core.specs.Utf8.{IsValidText, is_boundary};
ghost use Rattle.hir_core.specs.Tree.{Tree};
ghost use Rattle.hir_core.specs.Means.{Looks, Means};
ghost use Rattle.hir_core.specs.PreferredEnds.{preferred_ends};
ghost use Rattle.hir_core.specs.Facts.{is_utf8_tree};
ghost use Rattle.hir_core.specs.Agree.{AgreeFrom, all_hold};

/// Take a tree of which the facts say that it is UTF-8. In valid UTF-8, each of its spans that isn't empty starts and ends at
/// boundaries.
#[tactic(auto, using(crate::proofs::BoundedSpanLemmas::span_start_bounded, crate::proofs::BoundedSpanLemmas::span_end_bounded))]
pub fn spans_of_utf8_trees_stand_at_boundaries()
    ensures start { (looks : Looks) (h : List ℕ) (x : Tree) (i j : ℕ) → IsValidText h → is_utf8_tree x ≡ true →
        Means looks h x i j → i < j → j ≤ length h → is_boundary h i ≡ true }
    ensures end { (looks : Looks) (h : List ℕ) (x : Tree) (i j : ℕ) → IsValidText h → is_utf8_tree x ≡ true →
        Means looks h x i j → i < j → j ≤ length h → is_boundary h j ≡ true }
{}

/// The ends that a tree prefers from an offset depend on how its looks are read from there to the end of the bytes, and nowhere
/// else.
pub fn ends_depend_on_the_looks_from_their_start()
    ensures { (f g : Looks) (h : List ℕ) (s : ℕ) (x : Tree) → AgreeFrom f g s (length h) x → (i : ℕ) → s ≤ i → i ≤ length h →
        preferred_ends f h x i ≡ preferred_ends g h x i }
{}

/// If a haystack is read only up to e, ends and spans depend on how looks are read from the start to e.
pub fn meaning_depends_on_the_looks_that_are_read()
    ensures ends { (f g : Looks) (h : List ℕ) (s e : ℕ) → e ≤ length h → (x : Tree) → AgreeFrom f g s e x →
        (i : ℕ) → s ≤ i → i ≤ e → preferred_ends f (take e h) x i ≡ preferred_ends g (take e h) x i }
    ensures spans { (f g : Looks) (h : List ℕ) (s e : ℕ) → e ≤ length h → (x : Tree) → AgreeFrom f g s e x →
        (i j : ℕ) → s ≤ i → i ≤ e → j ≤ e → Means f h x i j → Means g h x i j }
{}

/// Which spans from i to j a tree matches depends on the bytes from s to e around them, and on how its looks are read there. Two
/// haystacks that agree there have the same spans there.
pub fn spans_depend_on_what_stands_there()
    ensures { (f g : Looks) (h k : List ℕ) (s e : ℕ) → e ≤ length h → e ≤ length k → drop s (take e h) ≡ drop s (take e k) →
        (x : Tree) → AgreeFrom f g s e x → (i j : ℕ) → s ≤ i → i ≤ e → j ≤ e → Means f h x i j → Means g k x i j }
{}

/// If a tree matches an empty span anywhere, it matches the empty haystack if each look holds.
#[tactic(auto, using(crate::proofs::EmptyLemmas::empty_span_there))]
pub fn empty_spans_need_no_bytes()
    ensures { (looks : Looks) (h : List ℕ) (x : Tree) (i : ℕ) → Means looks h x i i → Means all_hold [] x 0 0 }
{}
