//! Laws of searches over two automata that are compiled from trees: they return what the trees define. Each function has no code:
//! its contract is the law.
//! ```rust
//! pub fn joined_answers_are_defined()
//!     ensures { (xs : List Tree) (u : Bool) (t : Terminator) (p : Pair) → IsRegexOf xs u t p → (q : Search) →
//!         IsSearchOf xs u q → (w : ℕ → Bool) →
//!         IsWordSet w → All LoopsRead xs → (o : Option Found) → joined p q ≡ Ok o →
//!         o ≡ answer_from (query_of xs u (holds w t q.haystack) q) q.start }
//! {
//!     answers_are_those_of_the_trees();
//! }
//! ```
ghost use Rattle.std.specs.Prelude.{◌≡◌, ◌≤◌, ◌+◌, ◌++◌, ℕ, Bool, true, false, List, All, Option, None, Ok, Err, is_some};
ghost use Rattle.std.specs.List.{list_any};
ghost use Rattle.look_core.specs.Looks.{holds, IsWordSet};
ghost use Rattle.look_core.specs.Terminators.{Terminator};
ghost use Rattle.hir_core.specs.Facts.{LoopsRead};
ghost use Rattle.hir_core.specs.Tree.{Tree};
ghost use Rattle.search_types.specs.declared.anchored.Anchored.{Anchored};
ghost use Rattle.search_types.specs.declared.match_error.MatchErrorKind.TheVariants.{Quit, UnsupportedAnchored, NotAPair};
ghost use Rattle.search_types.specs.declared.match_kind.MatchKind.TheVariants.{LeftmostFirst};
ghost use Rattle.search_types.specs.Chains.{IsTakenList, IsWholeTakenList};
ghost use Rattle.search_types.specs.Found.{Found};
ghost use Rattle.search_types.specs.Inputs.{Search, with_earliest};
ghost use Rattle.search_types.specs.Modes.{is_supported};
ghost use Rattle.nfa_core.specs.NfaValue.{Nfa, is_capture};
ghost use Rattle.thompson_nfa.specs.Compilations.{IsCompiled};
ghost use Rattle.thompson_nfa.specs.Configs.{Options, utf8_of, reverse_of, terminator_of};
ghost use Rattle.lazy_dfa.specs.ConfigValue.{DfaOptions};
ghost use Rattle.lazy_dfa.specs.ConfigValue.{kind_of};
ghost use Rattle.lazy_dfa.specs.Dfas.{IsDfa, reader};
ghost use Rattle.lazy_dfa.specs.Readers.{quit, unsupported};
ghost use Rattle.lazy_dfa.specs.HalfSearchLaws.{HasNoQuitNear};
ghost use Rattle.lazy_dfa.specs.HalfSearches.{half_search};
ghost use Rattle.regex_pair.specs.Finding.{AnswersAt};
ghost use Rattle.regex_pair.specs.Joined.{joined};
ghost use Rattle.regex_pair.specs.Matching.{has_match};
ghost use Rattle.regex_pair.specs.Pairs.{Pair, pair_built};
ghost use Rattle.hir_regex.specs.Choices.{answer_from, answers_of};
ghost use Rattle.hir_regex.specs.LooseAnswers.{IsLooseAnswer};
ghost use Rattle.hir_regex.specs.Regexes.{IsRegexOf, IsSearchOf, query_of};

/// Two automata are compiled from the trees: one that reads forward, without captures, and one that reads in reverse. What is
/// built of them is two automata of these trees if it finds the most preferred match.
pub fn built_pairs_are_of_the_trees()
    ensures { (o r : Options) (xs : List Tree) (n m : Nfa) → IsCompiled o xs n → IsCompiled r xs m →
        reverse_of o ≡ false → reverse_of r ≡ true →
        (utf8 : Bool) (t : Terminator) → utf8_of o ≡ utf8 → utf8_of r ≡ utf8 → terminator_of o ≡ t → terminator_of r ≡ t →
        list_any is_capture n.automaton.states ≡ false → (c : DfaOptions) → kind_of c ≡ LeftmostFirst → (p : Pair) →
        pair_built n m c ≡ Ok p → IsDfa p.forward → IsDfa p.reverse → IsRegexOf xs utf8 t p }
{}

/// A search over two automata of the trees that returns `Ok` returns what the trees define, for every set of words. That is the
/// leftmost match, and the most preferred one there. Precondition: the body of every unbounded repetition in the trees consumes
/// at least one byte.
pub fn answers_are_those_of_the_trees()
    ensures { (xs : List Tree) (utf8 : Bool) (t : Terminator) (p : Pair) → IsRegexOf xs utf8 t p →
        (q : Search) → IsSearchOf xs utf8 q →
        (words : ℕ → Bool) → IsWordSet words → All LoopsRead xs → (o : Option Found) → joined p q ≡ Ok o →
        o ≡ answer_from (query_of xs utf8 (holds words t q.haystack) q) q.start }
{}

/// From an end that the forward search found, the reverse search finds a start: it meets no quit byte, and its mode is supported.
/// So a search fails where the forward search does, and only there.
pub fn the_reverse_half_finds_a_start()
    ensures pair { (xs : List Tree) (utf8 : Bool) (t : Terminator) (p : Pair) → IsRegexOf xs utf8 t p →
        (q : Search) → IsSearchOf xs utf8 q →
        joined p q ≡ Err NotAPair → ⊥ }
    ensures quits { (xs : List Tree) (utf8 : Bool) (t : Terminator) (p : Pair) → IsRegexOf xs utf8 t p →
        (q : Search) → IsSearchOf xs utf8 q →
        (b x : ℕ) → joined p q ≡ Err (Quit b x) → half_search (reader p.forward) q ≡ quit b x }
    ensures unsupported { (xs : List Tree) (utf8 : Bool) (t : Terminator) (p : Pair) → IsRegexOf xs utf8 t p →
        (q : Search) → IsSearchOf xs utf8 q →
        (mode : Anchored) → joined p q ≡ Err (UnsupportedAnchored mode) → half_search (reader p.forward) q ≡ unsupported mode }
{}

/// If no quit byte is in the span or next to it, and the mode is supported, a search returns `Ok`.
pub fn searches_answer()
    ensures { (xs : List Tree) (utf8 : Bool) (t : Terminator) (p : Pair) → IsRegexOf xs utf8 t p →
        (q : Search) → IsSearchOf xs utf8 q →
        is_supported (reader p.forward).starts_for_each_pattern q.anchored ≡ true →
        HasNoQuitNear (reader p.forward) q.haystack q.start q.end → (o : Option Found) × (joined p q ≡ Ok o) }
{}

/// Answers one after the other are a beginning of the list of all answers that the trees define. They are all of it if there is
/// no further answer.
pub fn lists_are_those_of_the_trees()
    ensures whole { (xs : List Tree) (utf8 : Bool) (t : Terminator) (p : Pair) → IsRegexOf xs utf8 t p →
        (q : Search) → IsSearchOf xs utf8 q →
        (words : ℕ → Bool) → IsWordSet words → All LoopsRead xs → q.start ≤ q.end + 1 → (fs : List Found) →
        IsWholeTakenList (AnswersAt p q) None q.start fs →
        fs ≡ answers_of (query_of xs utf8 (holds words t q.haystack) q) q.start }
    ensures begins { (xs : List Tree) (utf8 : Bool) (t : Terminator) (p : Pair) → IsRegexOf xs utf8 t p →
        (q : Search) → IsSearchOf xs utf8 q →
        (words : ℕ → Bool) → IsWordSet words → All LoopsRead xs → q.start ≤ q.end + 1 → (fs : List Found) →
        IsTakenList (AnswersAt p q) None q.start fs →
        (rest : List Found) × (answers_of (query_of xs utf8 (holds words t q.haystack) q) q.start ≡ fs ++ rest) }
{}

/// The test for a match returns whether the trees define an answer, also if the earliest end is asked for.
pub fn matches_are_told()
    ensures { (xs : List Tree) (utf8 : Bool) (t : Terminator) (p : Pair) → IsRegexOf xs utf8 t p → (q : Search) →
        IsSearchOf xs utf8 (with_earliest false q) → (words : ℕ → Bool) → IsWordSet words → All LoopsRead xs → (b : Bool) →
        has_match p q ≡ Ok b → b ≡ is_some (answer_from (query_of xs utf8 (holds words t q.haystack) q) q.start) }
{}

/// Whatever the bodies of repetitions consume, the answer has the least start of a match, the first pattern that matches there,
/// and an end that this pattern means.
pub fn answers_are_leftmost_whatever_the_loops()
    ensures { (xs : List Tree) (utf8 : Bool) (t : Terminator) (p : Pair) → IsRegexOf xs utf8 t p →
        (q : Search) → IsSearchOf xs utf8 q →
        (words : ℕ → Bool) → IsWordSet words → (o : Option Found) → joined p q ≡ Ok o →
        IsLooseAnswer (query_of xs utf8 (holds words t q.haystack) q) q.start o }
{}
