//! Laws of the facts of trees. Each function has no code: its contract is the law.
//! ```rust
//! pub fn spans_are_empty()
//!     ensures { (f : Looks) (h : List ℕ) (x : Tree) (i j : ℕ) → maximum_len x ≡ Some 0 → Means f h x i j → i ≡ j }
//! {
//!     spans_of_no_length_are_empty();
//! }
//! ```
ghost use Rattle.std.specs.Prelude.{◌≡◌, ◌≤◌, ◌<◌, ◌^◌, ℕ, length, List, Some, true, slice_range};
ghost use Rattle.search_core.specs.Utf8.{IsValidText};
ghost use Rattle.look_core.specs.declared.look.Look.{Look};
ghost use Rattle.look_core.specs.LookSets.{has_look};
ghost use Rattle.hir_core.specs.Tree.{Tree};
ghost use Rattle.hir_core.specs.Means.{Looks, Means};
ghost use Rattle.hir_core.specs.PreferredEnds.{preferred_ends};
ghost use Rattle.hir_core.specs.StandsIn.{StandsIn};
ghost use Rattle.hir_core.specs.Facts.{maximum_len, IsAtMost, is_utf8_tree, look_set, look_set_prefix, look_set_suffix, looks_used};

/// No span of a haystack that fits in memory is longer than the maximum length.
#[tactic(auto, using(crate::proofs::MaximumLenLemmas::maximum_len_sound))]
pub fn spans_have_the_maximum_len()
    ensures { (looks : Looks) (h : List ℕ) (x : Tree) (i j : ℕ) → length h < 2 ^ 64 → i ≤ length h → Means looks h x i j →
        IsAtMost (maximum_len x) i j }
{}

/// If the maximum length is 0, each span is empty.
#[tactic(auto, using(crate::proofs::MaximumLenLemmas::empty_sound))]
pub fn spans_of_no_length_are_empty()
    ensures { (looks : Looks) (h : List ℕ) (x : Tree) (i j : ℕ) → maximum_len x ≡ Some 0 → Means looks h x i j → i ≡ j }
{}

/// If the facts say that a tree is UTF-8, each of its spans is a sequence of spellings. The empty span is one, too.
#[tactic(auto, using(crate::proofs::ValidSpanLemmas::utf8_sound))]
pub fn spans_of_utf8_trees_are_valid()
    ensures { (looks : Looks) (h : List ℕ) (x : Tree) (i j : ℕ) → is_utf8_tree x ≡ true → Means looks h x i j →
        IsValidText (slice_range h i j) }
{}

/// Each prefix look holds at the start of each span, and each suffix look at its end.
#[tactic(auto, using(crate::proofs::LookFactLemmas::prefix_sound, crate::proofs::LookFactLemmas::suffix_sound))]
pub fn looks_at_the_ends_hold()
    ensures prefix { (looks : Looks) (h : List ℕ) (l : Look) (x : Tree) (i j : ℕ) → Means looks h x i j →
        has_look (look_set_prefix x) l ≡ true → looks l i ≡ true }
    ensures suffix { (looks : Looks) (h : List ℕ) (l : Look) (x : Tree) (i j : ℕ) → Means looks h x i j →
        has_look (look_set_suffix x) l ≡ true → looks l j ≡ true }
{}

/// The set of a tree's looks has each look in the tree, and no other.
#[tactic(auto, using(crate::proofs::LookFactLemmas::look_set_sound, crate::proofs::LookFactLemmas::look_set_exact))]
pub fn look_sets_have_what_stands_there()
    ensures has { (l : Look) (x : Tree) → StandsIn l x → has_look (look_set x) l ≡ true }
    ensures only { (l : Look) (x : Tree) → has_look (look_set x) l ≡ true → StandsIn l x }
{}

/// If two readings agree on the looks that a tree uses, the tree matches the same spans and prefers the same ends.
#[tactic(auto, using(crate::proofs::LooksUsedLemmas::same_meaning, crate::proofs::LooksUsedLemmas::same_ends))]
pub fn meaning_depends_on_the_looks_used()
    ensures meaning { (f g : Looks) (h : List ℕ) (x : Tree) → ((l : Look) → has_look (looks_used x) l ≡ true → (i : ℕ) → f l i ≡ g l i) →
        (i j : ℕ) → Means f h x i j → Means g h x i j }
    ensures ends { (f g : Looks) (h : List ℕ) (x : Tree) → ((l : Look) → has_look (looks_used x) l ≡ true → (i : ℕ) → f l i ≡ g l i) →
        (i : ℕ) → preferred_ends f h x i ≡ preferred_ends g h x i }
{}
