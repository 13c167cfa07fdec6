//! Laws of trees on a haystack that is cut at an offset, with looks read on the whole haystack. Each function has
//! no code: its contract is the law.
//! ```rust
//! pub fn spans_end_within()
//!     ensures { (f : Looks) (h : List ℕ) (e : ℕ) (x : Tree) (i j : ℕ) → i ≤ e → Means f (take e h) x i j → j ≤ e }
//! {
//!     cut_haystacks_have_the_spans_within();
//! }
//! ```
ghost use Rattle.std.specs.Prelude.{◌≡◌, ◌≤◌, ℕ, List, take, nat_le};
ghost use Rattle.std.specs.List.{filter};
ghost use Rattle.hir_core.specs.Tree.{Tree};
ghost use Rattle.hir_core.specs.Means.{Looks, Means};
ghost use Rattle.hir_core.specs.PreferredEnds.{preferred_ends};
ghost use Rattle.hir_core.specs.Facts.{LoopsRead};

/// Cut the haystack at e. From an offset up to e, a tree matches in the part before e exactly those spans of the
/// whole haystack that end at e or before.
#[tactic(auto, using(crate::proofs::CutLemmas::cut_to_whole, crate::proofs::CutLemmas::whole_to_cut))]
pub fn cut_haystacks_have_the_spans_within()
    ensures whole { (looks : Looks) (h : List ℕ) (e : ℕ) (x : Tree) (i j : ℕ) → i ≤ e →
        Means looks (take e h) x i j → Means looks h x i j × (j ≤ e) }
    ensures cut { (looks : Looks) (h : List ℕ) (e : ℕ) (x : Tree) (i j : ℕ) → j ≤ e →
        Means looks h x i j → Means looks (take e h) x i j }
{}

/// Cut the haystack at e. If each round of an unbounded repetition of the tree consumes at least one byte, the tree
/// prefers the same ends in the part before e, without those above e, and in the same order.
#[tactic(auto, using(crate::proofs::CutLemmas::cut_ends))]
pub fn cut_haystacks_prefer_the_ends_within()
    ensures { (looks : Looks) (h : List ℕ) (e : ℕ) (x : Tree) (i : ℕ) → LoopsRead x → i ≤ e →
        preferred_ends looks (take e h) x i ≡ filter (λ j. nat_le j e) (preferred_ends looks h x i) }
{}
