//! Laws of a class of scalars as a tree of byte ranges (`BySequences.antt`). Each function has no code: its
//! contract is the law.
//! ```rust
//! pub fn sequences_are_no_loops()
//!     ensures { (ranges : List (ℕ × ℕ)) → LoopsRead (by_sequences ranges) }
//! {
//!     sequence_trees_read();
//! }
//! ```
ghost use Rattle.std.specs.Prelude.{◌≡◌, ℕ, List, length, true};
ghost use Rattle.hir_core.specs.Tree.{char_class};
ghost use Rattle.hir_core.specs.Means.{Looks, Means};
ghost use Rattle.hir_core.specs.PreferredEnds.{preferred_ends};
ghost use Rattle.hir_core.specs.Facts.{is_ascending, sequence_count, LoopsRead};
ghost use Rattle.hir_core.specs.BySequences.{sequences_of, by_sequences};

/// A class of scalars matches the spans that its sequences match, whatever its ranges are.
#[tactic(auto, using(crate::proofs::SequenceTreeLemmas::class_to_sequences, crate::proofs::SequenceTreeLemmas::sequences_to_class))]
pub fn scalar_classes_mean_their_sequences()
    ensures sequences { (looks : Looks) (h : List ℕ) (ranges : List (ℕ × ℕ)) (i j : ℕ) →
        Means looks h (char_class ranges) i j → Means looks h (by_sequences ranges) i j }
    ensures class { (looks : Looks) (h : List ℕ) (ranges : List (ℕ × ℕ)) (i j : ℕ) →
        Means looks h (by_sequences ranges) i j → Means looks h (char_class ranges) i j }
{}

/// If its ranges are ascending, a class of scalars prefers the ends that its sequences prefer: one, or none.
#[tactic(auto, using(crate::proofs::SequenceTreeLemmas::class_ends))]
pub fn scalar_classes_end_as_their_sequences()
    ensures { (looks : Looks) (h : List ℕ) (ranges : List (ℕ × ℕ)) (i : ℕ) → is_ascending ranges ≡ true →
        preferred_ends looks h (char_class ranges) i ≡ preferred_ends looks h (by_sequences ranges) i }
{}

/// The tree of the sequences has no repetition.
#[tactic(auto, using(crate::proofs::SequenceTreeLemmas::sequences_read))]
pub fn sequence_trees_read()
    ensures { (ranges : List (ℕ × ℕ)) → LoopsRead (by_sequences ranges) }
{}

/// The number of sequences is the one that the count of states uses.
#[tactic(auto, using(crate::proofs::SequenceTreeLemmas::sequences_counted))]
pub fn counted()
    ensures { (ranges : List (ℕ × ℕ)) → length (sequences_of ranges) ≡ sequence_count ranges }
{}
