//! Laws of the classes by marks. Each function has no code: its contract is the law.
//! ```rust
//! pub fn no_class_is_above_the_last()
//!     ensures { (cs : List ℕ) (b : ℕ) → IsRising cs → b < 256 → slice_index cs b ≤ slice_index cs 255 }
//! {
//!     classes_that_rise_are_numbered_by_the_last();
//! }
//! ```
ghost use Rattle.std.specs.Prelude.{◌≡◌, ℕ, ◌+◌, ◌<◌, ◌≤◌, ◌⊎◌, ◌↔◌, Bool, List, length, slice_index};
ghost use Rattle.std.specs.List.{All};
ghost use Rattle.search_core.specs.Classes.{IsRising};
ghost use Rattle.search_core.specs.Marks.{marks_below, recorded, IsUnmarked, IsRangeBelow, IsIn, HoldsAllOrNone, HasMarks};

/// Classes by marks start at 0, and rise by at most one from byte to byte.
#[tactic(auto, using(crate::proofs::MarkLemmas::below_zero, crate::proofs::MarkLemmas::below_next))]
pub fn classes_rise_by_one()
    ensures start { (marks : List Bool) → marks_below marks 0 ≡ 0 }
    ensures next { (marks : List Bool) (b : ℕ) → b < length marks →
        (marks_below marks (b + 1) ≡ marks_below marks b) ⊎ (marks_below marks (b + 1) ≡ marks_below marks b + 1) }
{}

/// If classes start at 0 and rise by at most one from byte to byte, their numbers are those up to that of the
/// last byte: each is the class of a byte, and no byte has a greater one. If that number is 255, each byte is
/// in a class of its own.
pub fn classes_that_rise_are_numbered_by_the_last()
    ensures met { (classes : List ℕ) (c : ℕ) → IsRising classes → c ≤ slice_index classes 255 →
        (b : ℕ) × (b < 256) × (slice_index classes b ≡ c) }
    ensures most { (classes : List ℕ) (b : ℕ) → IsRising classes → b < 256 → slice_index classes b ≤ slice_index classes 255 }
    ensures own { (classes : List ℕ) (b : ℕ) → IsRising classes → slice_index classes 255 ≡ 255 → b < 256 → slice_index classes b ≡ b }
{}

/// By the marks of ranges, two bytes are in one class exactly if each range has all bytes from one to the
/// other, or none of them.
#[tactic(auto, using(crate::proofs::MarkLemmas::same_class_from_ranges))]
pub fn classes_tell_ranges_apart()
    ensures reports { (marks : List Bool) (ranges : List (ℕ × ℕ)) (a b : ℕ) → IsUnmarked marks → a ≤ b → b < length marks →
        marks_below (recorded marks ranges) a ≡ marks_below (recorded marks ranges) b → All (HoldsAllOrNone a b) ranges }
    ensures only { (marks : List Bool) (ranges : List (ℕ × ℕ)) (a b : ℕ) → IsUnmarked marks → All (IsRangeBelow (length marks)) ranges →
        a ≤ b → b < length marks → All (HoldsAllOrNone a b) ranges →
        marks_below (recorded marks ranges) a ≡ marks_below (recorded marks ranges) b }
{}

/// The classes are the coarsest ones that distinguish the marked ranges. Take any numbering of the bytes that
/// never decreases, in which two bytes with the same number are always both inside or both outside of each
/// range. Then two bytes with the same number are in the same class.
pub fn classes_are_the_coarsest()
    ensures { (marks : List Bool) (ranges : List (ℕ × ℕ)) (f : ℕ → ℕ) → IsUnmarked marks → All (IsRangeBelow (length marks)) ranges →
        ((a b : ℕ) → a ≤ b → b < length marks → f a ≤ f b) →
        ((a b : ℕ) → a < length marks → b < length marks → f a ≡ f b → All (λ r. IsIn r a ↔ IsIn r b) ranges) →
        (a b : ℕ) → a < length marks → b < length marks → f a ≡ f b →
        marks_below (recorded marks ranges) a ≡ marks_below (recorded marks ranges) b }
{}

/// Marks that contain others make finer classes: two bytes in one class of the marks are also in one class of
/// the fewer marks. Marking more ranges keeps the marks that are there.
#[tactic(auto, using(crate::proofs::MarkLemmas::same_class_of_finer, crate::proofs::MarkLemmas::own_marks))]
pub fn more_marks_make_finer_classes()
    ensures finer { (marks others : List Bool) (a b : ℕ) → HasMarks marks others → a < length marks → b < length marks →
        marks_below marks a ≡ marks_below marks b → marks_below others a ≡ marks_below others b }
    ensures own { (marks : List Bool) → HasMarks marks marks }
    ensures more { (marks others : List Bool) (ranges : List (ℕ × ℕ)) → HasMarks marks others → HasMarks (recorded marks ranges) others }
{}
