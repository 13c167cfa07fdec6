//! The headline: what searches return over a regex that is built of trees, by what the calls of
//! [`Regex`](regex_pair::regex::Regex) promise. Each function has no code: its contract is the law.
//!
//! The laws hold for every list of trees, every setting, haystack and span, and whatever the caches hold. A search that returns
//! `Ok` gives the match that the trees define. An iterator gives the list of these matches. Both do answer if no quit byte is in
//! the span or next to it.
//! ```rust
//! pub fn answers_are_defined()
//!     ensures { (xs : List Tree) (s : SettingsValue) (p : Pair) → IsBuilt xs s p → FindsFirst s → (q : Search) →
//!         IsSearchOf xs s.utf8 q → All LoopsRead xs →
//!         (c : PairCache) (o : Option Found) → AnswersPair p c q (Ok o) → (w : ℕ → Bool) → IsWordSet w → o ≡ answer_to w xs s q }
//! {
//!     searches_answer_what_trees_define();
//! }
//! ```
ghost use Rattle.std.specs.Prelude.{◌≡◌, ◌≤◌, ◌+◌, ◌++◌, ℕ, Bool, true, false, List, All, Option, Some, None, Ok, Err, is_some};
ghost use Rattle.look_core.specs.Looks.{IsWordSet};
ghost use Rattle.hir_core.specs.Facts.{LoopsRead};
ghost use Rattle.hir_core.specs.Tree.{Tree};
ghost use Rattle.search_types.specs.declared.match_error.MatchErrorKind.{MatchErrorKind};
ghost use Rattle.search_types.specs.declared.match_error.MatchErrorKind.TheVariants.{NoMemory, NotAPair, Quit};
ghost use Rattle.search_types.specs.Found.{Found};
ghost use Rattle.search_types.specs.Inputs.{Search, with_earliest};
ghost use Rattle.search_types.specs.Modes.{is_supported};
ghost use Rattle.lazy_dfa.specs.Accounting.{effective_capacity};
ghost use Rattle.lazy_dfa.specs.Building.{measures_with};
ghost use Rattle.lazy_dfa.specs.Caches.{usage};
ghost use Rattle.lazy_dfa.specs.ConfigValue.{capacity_of, clears_of, skips_check, starts_each_of};
ghost use Rattle.lazy_dfa.specs.Dfas.{reader};
ghost use Rattle.lazy_dfa.specs.Readers.{quit};
ghost use Rattle.lazy_dfa.specs.HalfSearches.{half_search};
ghost use Rattle.regex_pair.specs.declared.find_matches.FindMatches.{FindMatches};
ghost use Rattle.regex_pair.specs.Finding.{Finding};
ghost use Rattle.regex_pair.specs.FindSteps.{FindsNext, MayGoOn, finds_from, searches_by};
ghost use Rattle.regex_pair.specs.Matching.{AnswersMatch};
ghost use Rattle.regex_pair.specs.PairAnswers.{AnswersPair};
ghost use Rattle.regex_pair.specs.Pairs.{Pair, PairCache, AreCachesOf};
ghost use Rattle.regex_pair.specs.Taken.{AreTaken};
ghost use Rattle.hir_regex.specs.declared.settings.Settings.{Settings};
ghost use Rattle.hir_regex.specs.Built.{IsBuilt, FindsFirst, quit_bytes_for};
ghost use Rattle.hir_regex.specs.Headline.{answer_to, answers_to, query_by, IsQuiet, IsQuitNextTo};
ghost use Rattle.hir_regex.specs.LooseAnswers.{IsLooseAnswer};
ghost use Rattle.hir_regex.specs.Regexes.{IsRegexOf, IsSearchOf};

/// What is built of trees is a regex of them if it is set to find the leftmost-first match. Its quit bytes are those of the trees
/// and the settings.
pub fn built_regexes_are_of_the_trees()
    ensures regex { (xs : List Tree) (s : Settings) (p : Pair) → IsBuilt xs s p → FindsFirst s → IsRegexOf xs s.utf8 s.line_terminator p }
    ensures quits { (xs : List Tree) (s : Settings) (p : Pair) → IsBuilt xs s p →
        (p.forward.quits ≡ quit_bytes_for xs s.dfa) × (p.reverse.quits ≡ quit_bytes_for xs s.dfa) }
{}

/// A search that returns `Ok` returns what the trees define, pattern included, for every set of words at once. It returns no
/// match only if the trees have none. Precondition: the body of every unbounded repetition in the trees consumes at least one
/// byte.
pub fn searches_answer_what_trees_define()
    ensures { (xs : List Tree) (s : Settings) (p : Pair) → IsBuilt xs s p → FindsFirst s → (q : Search) → IsSearchOf xs s.utf8 q →
        All LoopsRead xs → (c : PairCache) (o : Option Found) → AnswersPair p c q (Ok o) →
        (words : ℕ → Bool) → IsWordSet words → o ≡ answer_to words xs s q }
{}

/// Whatever the bodies of repetitions consume, the answer has the least start of a match, the first pattern that matches there,
/// and an end that this pattern means.
pub fn searches_answer_leftmost_whatever_the_loops()
    ensures { (xs : List Tree) (s : Settings) (p : Pair) → IsBuilt xs s p → FindsFirst s → (q : Search) → IsSearchOf xs s.utf8 q →
        (c : PairCache) (o : Option Found) → AnswersPair p c q (Ok o) →
        (words : ℕ → Bool) → IsWordSet words → IsLooseAnswer (query_by words xs s q) q.start o }
{}

/// The matches that an iterator returned are a beginning of the list of all answers. They are all of it once the iterator has
/// ended.
pub fn iterators_list_the_answers()
    ensures begins { (xs : List Tree) (s : Settings) (p : Pair) → IsBuilt xs s p → FindsFirst s → (q : Search) → IsSearchOf xs s.utf8 q →
        All LoopsRead xs → q.start ≤ q.end + 1 → (fs : List Found) (at : Finding) → AreTaken p q fs at →
        (words : ℕ → Bool) → IsWordSet words → (rest : List Found) × (answers_to words xs s q ≡ fs ++ rest) }
    ensures whole { (xs : List Tree) (s : Settings) (p : Pair) → IsBuilt xs s p → FindsFirst s → (q : Search) → IsSearchOf xs s.utf8 q →
        All LoopsRead xs → q.start ≤ q.end + 1 → (fs : List Found) (old new : FindMatches) → searches_by old ≡ p →
        AreTaken p q fs (finds_from old) → FindsNext old None new →
        (words : ℕ → Bool) → IsWordSet words → answers_to words xs s q ≡ fs }
{}

/// The test for a match returns what the trees define, also if the earliest end is asked for.
pub fn matches_are_told_as_trees_define()
    ensures { (xs : List Tree) (s : Settings) (p : Pair) → IsBuilt xs s p → FindsFirst s → (q : Search) →
        IsSearchOf xs s.utf8 (with_earliest false q) →
        All LoopsRead xs → (c : PairCache) (b : Bool) → AnswersMatch p c q (Ok b) →
        (words : ℕ → Bool) → IsWordSet words → b ≡ is_some (answer_to words xs s (with_earliest false q)) }
{}

/// Suppose that no quit byte is in the span or next to it, that no number of clears is set, and that the mode is supported. Then
/// a search has no error but that it is out of memory. This also holds for the test for a match and for each step of an iterator.
pub fn searches_answer_where_no_byte_quits()
    ensures search { (xs : List Tree) (s : Settings) (p : Pair) → IsBuilt xs s p → FindsFirst s → clears_of s.dfa ≡ None →
        (q : Search) → IsSearchOf xs s.utf8 q → is_supported (starts_each_of s.dfa) q.anchored ≡ true →
        IsQuiet (quit_bytes_for xs s.dfa) q →
        (c : PairCache) (e : MatchErrorKind) → AnswersPair p c q (Err e) → e ≡ NoMemory }
    ensures is_match { (xs : List Tree) (s : Settings) (p : Pair) → IsBuilt xs s p → clears_of s.dfa ≡ None →
        (q : Search) → is_supported (starts_each_of s.dfa) q.anchored ≡ true → IsQuiet (quit_bytes_for xs s.dfa) q →
        (c : PairCache) (e : MatchErrorKind) → AnswersMatch p c q (Err e) → e ≡ NoMemory }
    ensures step { (xs : List Tree) (s : Settings) (p : Pair) → IsBuilt xs s p → FindsFirst s → clears_of s.dfa ≡ None →
        (q : Search) → IsSearchOf xs s.utf8 q → is_supported (starts_each_of s.dfa) q.anchored ≡ true →
        IsQuiet (quit_bytes_for xs s.dfa) q →
        (fs : List Found) (old new : FindMatches) (e : MatchErrorKind) → MayGoOn old → searches_by old ≡ p →
        AreTaken p q fs (finds_from old) → FindsNext old (Some (Err e)) new → e ≡ NoMemory }
{}

/// A search quits where its forward search does, and only there: at a quit byte in the span or next to it. It never returns the
/// error that the automata are no pair.
pub fn searches_quit_forward_alone()
    ensures quits { (xs : List Tree) (s : Settings) (p : Pair) → IsBuilt xs s p → FindsFirst s → (q : Search) → IsSearchOf xs s.utf8 q →
        (c : PairCache) (b x : ℕ) → AnswersPair p c q (Err (Quit b x)) →
        (half_search (reader p.forward) q ≡ quit b x) × IsQuitNextTo (quit_bytes_for xs s.dfa) q b x }
    ensures pair { (xs : List Tree) (s : Settings) (p : Pair) → IsBuilt xs s p → FindsFirst s → (q : Search) → IsSearchOf xs s.utf8 q →
        (c : PairCache) → AnswersPair p c q (Err NotAPair) → ⊥ }
{}

/// Each cache of the regex takes no more than its effective capacity, as it is counted. Each call leaves the caches the regex's
/// own.
pub fn caches_stay_within_their_capacity()
    ensures { (xs : List Tree) (s : Settings) (p : Pair) → IsBuilt xs s p → (c : PairCache) → AreCachesOf p c →
        (usage c.forward ≤ effective_capacity (measures_with p.forward.nfa s.dfa) (skips_check s.dfa) (capacity_of s.dfa))
        × (usage c.reverse ≤ effective_capacity (measures_with p.reverse.nfa s.dfa) (skips_check s.dfa) (capacity_of s.dfa)) }
{}

/// Settings of capacities, clears, classes, tagged starts, quit bytes and shrinking don't show in what is found. Searches over
/// regexes that differ in these alone give the same result if both return `Ok`.
pub fn settings_do_not_show()
    ensures { (xs : List Tree) (s t : Settings) (p r : Pair) → IsBuilt xs s p → IsBuilt xs t r → FindsFirst s → FindsFirst t →
        s.utf8 ≡ t.utf8 → s.line_terminator ≡ t.line_terminator → (q : Search) → IsSearchOf xs s.utf8 q → All LoopsRead xs →
        (c d : PairCache) (o u : Option Found) → AnswersPair p c q (Ok o) → AnswersPair r d q (Ok u) → o ≡ u }
{}
