//! Laws of the list of all answers, for any function that answers from an offset. Each function has no code: its contract
//! is the law.
//! ```rust
//! pub fn no_end_comes_twice()
//!     ensures { (answer : ℕ → Option Found) (s e : ℕ) → AnswersWithin answer e → EndsRise None (all_answers answer s e) }
//! {
//!     ends_rise();
//! }
//! ```
ghost use Rattle.std.specs.Prelude.{◌≡◌, ◌≤◌, ℕ, suc, ◌+◌, ◌-◌, ◌∷◌, ◌++◌, [], Bool, true, List, Option, Some, None};
ghost use Rattle.std.specs.List.{All, flat_map};
ghost use Rattle.search_types.specs.Found.{Found};
ghost use Rattle.search_types.specs.AllAnswers.{next_answer, answers_from, all_answers, AnswersWithin, EndsRise};
ghost use Rattle.search_types.specs.Chains.{IsTakenList, IsWholeTakenList, ReportsResults};
ghost use Rattle.search_types.specs.FirstFound.{first_of, offsets_from, IsFirstOffer};

/// In the list of all answers, each end is above the one before, and each span lies between the start and the end.
#[tactic(auto, using(crate::proofs::AllAnswersLemmas::ends_rise, crate::proofs::AllAnswersLemmas::spans_within))]
pub fn ends_rise()
    ensures ends { (answer : ℕ → Option Found) (s e : ℕ) → AnswersWithin answer e → EndsRise None (all_answers answer s e) }
    ensures spans { (answer : ℕ → Option Found) (s e : ℕ) → AnswersWithin answer e →
        All (λ f. (s ≤ f.start) × (f.start ≤ f.end) × (f.end ≤ e)) (all_answers answer s e) }
{}

/// The list of all answers ends only because there is no further answer: no greater bound makes it longer.
#[tactic(auto, using(crate::proofs::AllAnswersLemmas::no_answer_is_cut_off))]
pub fn no_answer_is_cut_off()
    ensures { (answer : ℕ → Option Found) (s e n : ℕ) → AnswersWithin answer e → e + 2 - s ≤ n →
        answers_from answer n None s ≡ all_answers answer s e }
{}

/// How the list of all answers is written step by step. If there is a further answer, it is written, and the rest goes on
/// from its end. If there is none, what is written is all.
pub fn the_list_goes_by_steps()
    ensures more { (answer : ℕ → Option Found) (written : List Found) (n : ℕ) (last : Option ℕ) (at : ℕ) (f : Found) →
        next_answer answer last at ≡ Some f →
        written ++ answers_from answer (suc n) last at ≡ (written ++ f ∷ []) ++ answers_from answer n (Some f.end) f.end }
    ensures done { (answer : ℕ → Option Found) (written : List Found) (n : ℕ) (last : Option ℕ) (at : ℕ) →
        next_answer answer last at ≡ None → written ++ answers_from answer n last at ≡ written }
{}

/// Suppose a test accepts only what a function answers. Then answers that are taken one after the other by this test are
/// the beginning of the list of all answers. If nothing more is answered, they are all of it.
pub fn chains_are_the_list()
    ensures begins { (reported : ℕ → Option Found → Bool) (answer : ℕ → Option Found) (low s e : ℕ) (fs : List Found) →
        ReportsResults (λ k o. reported k o ≡ true) answer low e → AnswersWithin answer e → low ≤ s → s ≤ e + 1 →
        IsTakenList (λ k o. reported k o ≡ true) None s fs → (rest : List Found) × (all_answers answer s e ≡ fs ++ rest) }
    ensures whole { (reported : ℕ → Option Found → Bool) (answer : ℕ → Option Found) (low s e : ℕ) (fs : List Found) →
        ReportsResults (λ k o. reported k o ≡ true) answer low e → AnswersWithin answer e → low ≤ s → s ≤ e + 1 →
        IsWholeTakenList (λ k o. reported k o ≡ true) None s fs → all_answers answer s e ≡ fs }
{}

/// If offsets each offer a list, the first of all offers, in the order of the offsets, is the first offer of the least
/// offset that has one.
#[tactic(auto, using(crate::proofs::FirstLemmas::first_found))]
pub fn the_first_of_joined_offers_is_of_the_least_place()
    ensures { (offers : ℕ → List (ℕ × ℕ)) (i n : ℕ) → IsFirstOffer offers i n (first_of (flat_map offers (offsets_from i n))) }
{}
