//! Laws of searches over two automata, as functions of values. Each function has no code: its contract is the law.
//! ```rust
//! pub fn matches_end_within()
//!     ensures { (p : Pair) (q : Search) (f : Found) → joined p q ≡ Ok (Some f) → f.end ≤ q.end }
//! {
//!     matches_lie_in_their_span();
//! }
//! ```
ghost use Rattle.std.specs.Prelude.{◌≡◌, ◌<◌, ◌≤◌, ℕ, ◌+◌, ◌++◌, Bool, false, List, length, Option, Some, Result, Ok};
ghost use Rattle.search_types.specs.declared.match_error.MatchErrorKind.{MatchErrorKind};
ghost use Rattle.search_types.specs.AllAnswers.{AnswersWithin, EndsRise, all_answers};
ghost use Rattle.search_types.specs.Chains.{IsTakenList, IsWholeTakenList};
ghost use Rattle.search_types.specs.Found.{Found};
ghost use Rattle.search_types.specs.Inputs.{Search, with_earliest};
ghost use Rattle.nfa_core.specs.Nfa.{IsWellFormed};
ghost use Rattle.lazy_dfa.specs.Dfas.{reader};
ghost use Rattle.lazy_dfa.specs.Scans.{start_name};
ghost use Rattle.lazy_dfa.specs.Readers.{found};
ghost use Rattle.lazy_dfa.specs.HalfSearches.{half_search};
ghost use Rattle.lazy_dfa.specs.HalfSearchLaws.{Agree};
ghost use Rattle.lazy_dfa.specs.SearchAnswers.{reported};
ghost use Rattle.lazy_dfa.specs.SearchPromises.{ReportsHalf};
ghost use Rattle.regex_pair.specs.Finding.{AnswersAt};
ghost use Rattle.regex_pair.specs.Joined.{joined, back_from};
ghost use Rattle.regex_pair.specs.Matching.{has_match, is_some_match, match_search};
ghost use Rattle.regex_pair.specs.PairAnswers.{GoesBack};
ghost use Rattle.regex_pair.specs.PairLaws.{answer_at, AreSetAlike, IsInPairReach};
ghost use Rattle.regex_pair.specs.PairProgress.{ReportsMatch, ReportsPair};
ghost use Rattle.regex_pair.specs.Pairs.{Pair, PairCache, IsPair};
ghost use Rattle.regex_pair.specs.Reach.{HasPairReach};

/// A match that is found starts in the span, and ends there, not before its start.
pub fn matches_lie_in_their_span()
    ensures { (p : Pair) (q : Search) (f : Found) → joined p q ≡ Ok (Some f) → (q.start ≤ f.start) × (f.start ≤ f.end) × (f.end ≤ q.end) }
{}

/// Answers one after the other are the beginning of the list of all answers. If nothing more is found, they are all of it.
#[tactic(auto, using(crate::proofs::JoinedLemmas::answers_within, crate::proofs::JoinedLemmas::chain_begins, crate::proofs::JoinedLemmas::chain_is_whole))]
pub fn matches_one_after_the_other_are_the_list()
    ensures within { (p : Pair) (q : Search) → AnswersWithin (answer_at p q) q.end }
    ensures begins { (p : Pair) (q : Search) (fs : List Found) → q.start ≤ q.end + 1 → IsTakenList (AnswersAt p q) None q.start fs →
        (rest : List Found) × (all_answers (answer_at p q) q.start q.end ≡ fs ++ rest) }
    ensures whole { (p : Pair) (q : Search) (fs : List Found) → q.start ≤ q.end + 1 → IsWholeTakenList (AnswersAt p q) None q.start fs →
        all_answers (answer_at p q) q.start q.end ≡ fs }
{}

/// An answer depends only on the bytes in its reach: those of the search for an end and, if there is one, those of the search back.
#[tactic(auto, using(crate::proofs::JoinedLemmas::joined_by_reach))]
pub fn answers_depend_on_their_reach()
    ensures { (p : Pair) (q : Search) (g : List ℕ) → q.end ≤ length q.haystack → q.end ≤ length g → Agree q.haystack g (IsInPairReach p q) →
        joined p q ≡ joined p (record q { haystack = g }) }
{}

/// If the test for a match returns an answer, and a half search for the preferred end returns an end or none, the two agree: a run
/// has an earliest end exactly if it has an end at all.
#[tactic(auto, using(crate::proofs::MatchingLemmas::match_is_told))]
pub fn a_match_is_told_where_its_end_is_found()
    ensures { (p : Pair) (q : Search) (b : Bool) (o : Option (ℕ × ℕ)) → IsWellFormed (reader p.forward).automaton →
        q.end ≤ length q.haystack →
        ((name : ℕ) → start_name (reader p.forward).automaton q.anchored ≡ Some name →
        name < length (reader p.forward).automaton.states) →
        has_match p q ≡ Ok b → half_search (reader p.forward) (with_earliest false q) ≡ found o → b ≡ is_some_match o }
{}

/// In the list of all answers of a pair each end is above the one before.
#[tactic(auto, using(crate::proofs::JoinedLemmas::ends_of_all_rise))]
pub fn ends_of_matches_rise()
    ensures { (p : Pair) (q : Search) → EndsRise None (all_answers (answer_at p q) q.start q.end) }
{}

/// A search that answers has an offset up to which it read. This offset is after the end of its match, and at most one past the byte
/// right after the span. From the byte before the span up to there, no byte is a quit byte. Over each haystack with the same bytes
/// there, the answer is the same.
pub fn joins_reach_a_place()
    ensures { (p : Pair) (q : Search) (o : Option Found) → IsPair p → q.end ≤ length q.haystack → joined p q ≡ Ok o → HasPairReach p q o }
{}

/// Pairs over the same two NFAs with the same kinds of matches and quit bytes answer alike in each mode in which both can search.
/// The other settings don't change an answer: the capacity of the caches, when these are cleared, the byte classes, and whether
/// starts are tagged.
#[tactic(auto, using(crate::proofs::AlikeLemmas::joined_alike, crate::proofs::AlikeLemmas::told_alike))]
pub fn settings_of_caches_do_not_show()
    ensures answer { (p r : Pair) (q : Search) → AreSetAlike p r q.anchored → joined p q ≡ joined r q }
    ensures reported { (p r : Pair) (q : Search) → AreSetAlike p r q.anchored → has_match p q ≡ has_match r q }
{}

/// The answer determines what a search records in its caches of how far it came. If the answer is the joined one, the half search
/// for an end records what its scan does. So does the search back, if there is one. If there is none, the second cache stays as it
/// is, whatever the answer. A test for a match records what its one half search does.
pub fn answers_know_what_was_told()
    ensures end { (p : Pair) (q : Search) (old new : PairCache) (result : Result (Option Found) MatchErrorKind) → result ≡ joined p q →
        ReportsPair p q old new result → ReportsHalf p.forward q old.forward new.forward (reported (half_search (reader p.forward) q)) }
    ensures start { (p : Pair) (q : Search) (old new : PairCache) (result : Result (Option Found) MatchErrorKind) → result ≡ joined p q →
        ReportsPair p q old new result → (e : ℕ × ℕ) → GoesBack p q e →
        ReportsHalf p.reverse (back_from q e.0) old.reverse new.reverse (reported (half_search (reader p.reverse) (back_from q e.0))) }
    ensures untouched { (p : Pair) (q : Search) (old new : PairCache) (result : Result (Option Found) MatchErrorKind) →
        ReportsPair p q old new result → ((e : ℕ × ℕ) → GoesBack p q e → ⊥) → new.reverse ≡ old.reverse }
    ensures is_match { (p : Pair) (q : Search) (old new : PairCache) (result : Result Bool MatchErrorKind) → result ≡ has_match p q →
        ReportsMatch p q old new result → ReportsHalf p.forward (match_search (reader p.forward) q) old.forward new.forward
        (reported (half_search (reader p.forward) (match_search (reader p.forward) q))) }
{}
