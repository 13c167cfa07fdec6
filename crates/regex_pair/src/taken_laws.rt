//! Laws of matches that are taken one after the other from an iterator. Each function has no code: its contract is the law.
//!
//! A loop over [`FindMatches`](crate::regex::FindMatches) keeps what it has taken (`AreTaken`): nothing at first, and after each
//! step that returns a match this one more. If a step returns nothing, these are all matches. If it fails, they are the first
//! ones of all matches. After both, nothing follows.
//! ```rust
//! pub fn loops_begin_with_nothing()
//!     ensures { (p : Pair) (q : Search) (it : FindMatches) → finds_from it ≡ finding_all q → AreTaken p q [] (finds_from it) }
//! {
//!     nothing_is_taken_at_first();
//! }
//! ```
ghost use Rattle.std.specs.Prelude.{◌≡◌, ◌≤◌, ℕ, ◌+◌, [], ◌∷◌, ◌++◌, true, List, Option, Some, None, Result, Ok, Err};
ghost use Rattle.search_types.specs.declared.match_error.MatchErrorKind.{MatchErrorKind};
ghost use Rattle.search_types.specs.AllAnswers.{all_answers};
ghost use Rattle.search_types.specs.Chains.{IsTakenList, IsWholeTakenList};
ghost use Rattle.search_types.specs.Found.{Found};
ghost use Rattle.search_types.specs.Inputs.{Search};
ghost use Rattle.regex_pair.specs.declared.find_matches.FindMatches.{FindMatches};
ghost use Rattle.regex_pair.specs.Finding.{AnswersAt, Finding, IsAskedAt, finding_all, search_at};
ghost use Rattle.regex_pair.specs.FindSteps.{FindsNext, caches_of, finds_from, searches_by};
ghost use Rattle.regex_pair.specs.PairAnswers.{AnswersPair};
ghost use Rattle.regex_pair.specs.PairLaws.{answer_at};
ghost use Rattle.regex_pair.specs.Pairs.{Pair};
ghost use Rattle.regex_pair.specs.Taken.{AreTaken};

/// Nothing is taken of an iterator that was just made.
#[tactic(auto, using(crate::proofs::TakenLemmas::none_by_begin))]
pub fn nothing_is_taken_at_first()
    ensures { (p : Pair) (q : Search) (it : FindMatches) → finds_from it ≡ finding_all q → AreTaken p q [] (finds_from it) }
{}

/// A step that returns a match appends it to those that were taken.
pub fn a_step_takes_one_more()
    ensures { (p : Pair) (q : Search) (fs : List Found) (old new : FindMatches) (f : Found) → searches_by old ≡ p →
        AreTaken p q fs (finds_from old) → FindsNext old (Some (Ok f)) new → AreTaken p q (fs ++ f ∷ []) (finds_from new) }
{}

/// What was taken is a chain of answers to the search, each the next one after the last, and the beginning of the list of all.
pub fn what_was_taken_begins_the_list()
    ensures chain { (p : Pair) (q : Search) (fs : List Found) (at : Finding) → AreTaken p q fs at →
        IsTakenList (AnswersAt p q) None q.start fs }
    ensures begins { (p : Pair) (q : Search) (fs : List Found) (at : Finding) → q.start ≤ q.end + 1 → AreTaken p q fs at →
        (rest : List Found) × (all_answers (answer_at p q) q.start q.end ≡ fs ++ rest) }
{}

/// If a step returns nothing, what was taken is the whole list.
pub fn what_was_taken_at_the_end_is_the_list()
    ensures chain { (p : Pair) (q : Search) (fs : List Found) (old new : FindMatches) → searches_by old ≡ p →
        AreTaken p q fs (finds_from old) → FindsNext old None new → IsWholeTakenList (AnswersAt p q) None q.start fs }
    ensures all { (p : Pair) (q : Search) (fs : List Found) (old new : FindMatches) → q.start ≤ q.end + 1 → searches_by old ≡ p →
        AreTaken p q fs (finds_from old) → FindsNext old None new → all_answers (answer_at p q) q.start q.end ≡ fs }
{}

/// A step fails with an error that a search from the offset of the next match returns. This offset isn't before the start of the
/// whole search.
pub fn a_step_is_refused_as_a_search_is()
    ensures { (p : Pair) (q : Search) (fs : List Found) (old new : FindMatches) (e : MatchErrorKind) → searches_by old ≡ p →
        AreTaken p q fs (finds_from old) → FindsNext old (Some (Err e)) new →
        (k : ℕ) × IsAskedAt p (finds_from old) k × (q.start ≤ k) × AnswersPair p (caches_of new) (search_at q k) (Err e) }
{}

/// After a step that returns nothing, and after an error, nothing follows, and the caches stay as they are.
#[tactic(auto, using(crate::proofs::TakenLemmas::ends_by_step, crate::proofs::TakenLemmas::fails_by_step, crate::proofs::TakenLemmas::rests_by_step))]
pub fn nothing_comes_behind_an_end()
    ensures end { (old new : FindMatches) → FindsNext old None new → (finds_from new).is_over ≡ true }
    ensures rejection { (old new : FindMatches) (e : MatchErrorKind) → FindsNext old (Some (Err e)) new → (finds_from new).is_over ≡ true }
    ensures rest { (old new : FindMatches) (item : Option (Result Found MatchErrorKind)) → (finds_from old).is_over ≡ true →
        FindsNext old item new → (item ≡ None) × (finds_from new ≡ finds_from old) × (caches_of new ≡ caches_of old) }
{}
