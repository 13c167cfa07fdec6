//! Laws of what trees define. Each function has no code: its contract is the law.
//! ```rust
//! pub fn answers_rise()
//!     ensures { (q : Query) (s : ℕ) → EndsRise None (answers_of q s) }
//! {
//!     ends_of_answers_rise();
//! }
//! ```
ghost use Rattle.std.specs.Prelude.{◌≡◌, ◌≤◌, ◌+◌, ◌-◌, ℕ, true, All, length, slice_get, Some, None};
ghost use Rattle.hir_core.specs.Tree.{Tree};
ghost use Rattle.hir_core.specs.Means.{Means};
ghost use Rattle.hir_core.specs.Facts.{LoopsRead};
ghost use Rattle.search_types.specs.AllAnswers.{AnswersWithin, EndsRise};
ghost use Rattle.search_types.specs.Found.{Found};
ghost use Rattle.search_types.specs.Places.{counts};
ghost use Rattle.hir_regex.specs.Choices.{Query, answer_from, answers_of};
ghost use Rattle.hir_regex.specs.Loops.{loops_read};

/// An answer over trees is a span that the tree of its number means.
#[tactic(auto, using(crate::proofs::AnswerLemmas::answer_is_meant))]
pub fn an_answer_is_meant()
    ensures { (q : Query) (s : ℕ) (f : Found) → answer_from q s ≡ Some f →
        (x : Tree) × (slice_get q.patterns f.pattern ≡ Some x) × Means q.looks q.haystack x f.start f.end }
{}

/// Answers start at or after the offset that is asked for, and end between their start and the end of what is searched.
#[tactic(auto, using(crate::proofs::AnswerLemmas::answers_within))]
pub fn answers_over_trees_stay_within()
    ensures { (q : Query) → AnswersWithin (answer_from q) q.end }
{}

/// The test for repetitions returns whether the body of every unbounded one consumes at least one byte.
#[tactic(auto, using(crate::proofs::LoopLemmas::loops_read_sound, crate::proofs::LoopLemmas::loops_read_complete))]
pub fn loops_read_tells()
    ensures sound { (x : Tree) → loops_read x ≡ true → LoopsRead x }
    ensures complete { (x : Tree) → LoopsRead x → loops_read x ≡ true }
{}

/// The ends of all answers rise, so there is at most one answer for each offset.
#[tactic(auto, using(crate::proofs::AnswerLemmas::answers_rise, crate::proofs::AnswerLemmas::few_answers))]
pub fn ends_of_answers_rise()
    ensures ends { (q : Query) (s : ℕ) → EndsRise None (answers_of q s) }
    ensures few { (q : Query) (s : ℕ) → length (answers_of q s) ≤ q.end + 1 - s }
{}

/// In UTF-8 mode no answer starts or ends inside a character.
pub fn answers_start_and_end_where_it_counts()
    ensures one { (q : Query) (s : ℕ) (f : Found) → answer_from q s ≡ Some f →
        (counts q.utf8 q.haystack f.start ≡ true) × (counts q.utf8 q.haystack f.end ≡ true) }
    ensures all { (q : Query) (s : ℕ) →
        All (λ f. (counts q.utf8 q.haystack f.start ≡ true) × (counts q.utf8 q.haystack f.end ≡ true)) (answers_of q s) }
{}
