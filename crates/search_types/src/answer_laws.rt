//! Laws of the answers of a search and of the offsets that it considers. Each function has no code: its contract is the law.
//! ```rust
//! pub fn answers_are_computed()
//!     ensures { (at : ℕ → List (ℕ × ℕ)) (m : Mode) (s e : ℕ) (o : Option Found) → IsAnswer at m s e o → o ≡ leftmost_answer at m s e }
//! {
//!     the_computed_answer_is_the_leftmost();
//!     a_search_has_one_answer();
//! }
//! ```
ghost use Rattle.std.specs.Prelude.{◌≡◌, ◌≤◌, ◌⊎◌, ◌↔◌, ℕ, Bool, true, false, List, Option, length};
ghost use Rattle.search_core.specs.Utf8.{IsSplit, IsValidText};
ghost use Rattle.search_types.specs.declared.anchored.Anchored.{Anchored};
ghost use Rattle.search_types.specs.declared.anchored.Anchored.TheVariants.{No, Yes, Pattern};
ghost use Rattle.search_types.specs.Modes.{may_start};
ghost use Rattle.search_types.specs.Places.{counts};
ghost use Rattle.search_types.specs.Found.{Found};
ghost use Rattle.search_types.specs.LeftmostAnswer.{leftmost_answer, IsAnswer};

/// The computed answer is the first choice at the least offset that has one, of those at which the search may start. If no such offset
/// has a choice, there is no answer.
#[tactic(auto, using(crate::proofs::AnswerLemmas::computed_is_answer))]
pub fn the_computed_answer_is_the_leftmost()
    ensures { (choices_at : ℕ → List (ℕ × ℕ)) (mode : Anchored) (s e : ℕ) →
        IsAnswer choices_at mode s e (leftmost_answer choices_at mode s e) }
{}

/// A search has one answer.
#[tactic(auto, using(crate::proofs::AnswerLemmas::one_answer))]
pub fn a_search_has_one_answer()
    ensures { (choices_at : ℕ → List (ℕ × ℕ)) (mode : Anchored) (s e : ℕ) (o p : Option Found) →
        IsAnswer choices_at mode s e o → IsAnswer choices_at mode s e p → o ≡ p }
{}

/// A search that isn't anchored may start at each offset of its span, its end included. An anchored one may start at the span's start
/// alone.
#[tactic(auto, using(crate::proofs::ModeLemmas::unanchored_starts, crate::proofs::ModeLemmas::anchored_starts, crate::proofs::ModeLemmas::pattern_starts))]
pub fn searches_start_in_the_span()
    ensures unanchored { (s e i : ℕ) → (may_start No s e i ≡ true) ↔ ((s ≤ i) × (i ≤ e)) }
    ensures anchored { (s e i : ℕ) → (may_start Yes s e i ≡ true) ↔ ((i ≡ s) × (s ≤ e)) }
    ensures pattern { (p s e i : ℕ) → (may_start (Pattern p) s e i ≡ true) ↔ ((i ≡ s) × (s ≤ e)) }
{}

/// In valid UTF-8, an offset up to the length counts exactly if UTF-8 mode is off or no spelling is split there.
#[tactic(auto, using(crate::proofs::ModeLemmas::place_counts))]
pub fn places_that_count_split_nothing()
    ensures { (utf8 : Bool) (h : List ℕ) (j : ℕ) → IsValidText h → j ≤ length h →
        (counts utf8 h j ≡ true) ↔ ((utf8 ≡ false) ⊎ (¬ (IsSplit h j))) }
{}
