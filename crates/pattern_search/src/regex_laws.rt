//! Laws of regexes that are built of the trees of patterns. The body of each function calls the laws on which its own law rests, and
//! does nothing else.
//! ```rust
//! pub fn regexes_find_what_is_written()
//!     ensures { (c : Options) (texts : List (List ℕ)) (xs : List Tree) → AllMean c texts xs → (s : Settings) (p : Pair) →
//!         IsBuilt xs s p → FindsFirst s → s.line_terminator ≡ one_of 10 → AnswersWhatIsWritten c texts xs s p }
//! {
//!     regexes_answer_what_is_written();
//! }
//! ```
ghost use Rattle.std.specs.Prelude.{◌≡◌, ℕ, Bool, false, List, Ok, length, replicate};
ghost use Rattle.regex_hir.specs.Re.{Re};
ghost use Rattle.regex_syntax.specs.declared.Config.{Config};
ghost use Rattle.look_core.specs.Terminators.{one_of};
ghost use Rattle.hir_core.specs.Tree.{Tree};
ghost use Rattle.search_types.specs.declared.match_kind.MatchKind.TheVariants.{All as AllMatches};
ghost use Rattle.lazy_dfa.specs.Caches.{CacheValue};
ghost use Rattle.lazy_dfa.specs.ConfigValue.{kind_of};
ghost use Rattle.lazy_dfa.specs.OverlappingAnswers.{AnswersWhich};
ghost use Rattle.regex_pair.specs.Pairs.{Pair};
ghost use Rattle.hir_regex.specs.declared.settings.Settings.{Settings};
ghost use Rattle.hir_regex.specs.Built.{IsBuilt, FindsFirst};
ghost use Rattle.hir_regex.specs.Regexes.{IsSearchOf};
ghost use Rattle.pattern_text.specs.SameEnds.{AreSameEnds, AreSameSpans};
ghost use Rattle.pattern_search.specs.RegexAnswers.{AnswersAsRead};
ghost use Rattle.pattern_search.specs.Searches.{whole_search, which_match};
ghost use Rattle.pattern_search.specs.Texts.{AllMean, AreReadAs};
ghost use Rattle.pattern_search.specs.Written.{AnswersWhatIsWritten};

use hir_regex::headline::{
    iterators_list_the_answers, matches_are_told_as_trees_define,
    searches_answer_leftmost_whatever_the_loops, searches_answer_what_trees_define,
};
use hir_regex::tree_walk_laws::{built_automata_are_walked, sets_get_the_patterns_of_spans};

/// Take a regex that is built of the trees of patterns and whose lines end at a line feed. It answers what the toolchain's matcher
/// finds for the patterns.
pub fn regexes_answer_what_patterns_say()
    ensures { (res : List Re) (xs : List Tree) → AreSameEnds res xs → AreSameSpans res xs → (s : Settings) (p : Pair) →
        IsBuilt xs s p → FindsFirst s → s.line_terminator ≡ one_of 10 → AnswersAsRead res xs s p }
{
    searches_answer_what_trees_define();
    searches_answer_leftmost_whatever_the_loops();
    matches_are_told_as_trees_define();
    iterators_list_the_answers();
}

/// Take a regex that is built of the trees that [`parse_all`](crate::parse_all) made of patterns, and whose lines end at a line feed.
/// It answers what these patterns match.
pub fn regexes_answer_what_is_written()
    ensures { (config : Config) (texts : List (List ℕ)) (xs : List Tree) → AllMean config texts xs → (s : Settings) (p : Pair) →
        IsBuilt xs s p → FindsFirst s → s.line_terminator ≡ one_of 10 → AnswersWhatIsWritten config texts xs s p }
{
    regexes_answer_what_patterns_say();
}

/// Take a regex that looks for all matches and whose lines end at a line feed, and a call for the patterns of all ends. If the call
/// began with an empty set and returns `Ok`, the set is exact: it has the patterns of which the toolchain's matcher finds a match in
/// the haystack, and no others. This also holds with empty loops.
pub fn overlapping_searches_find_which_patterns_match()
    ensures { (res : List Re) (xs : List Tree) → AreSameSpans res xs → (s : Settings) (p : Pair) →
        IsBuilt xs s p → kind_of s.dfa ≡ AllMatches → s.line_terminator ≡ one_of 10 → (h : List ℕ) →
        IsSearchOf xs s.utf8 (whole_search h 0) →
        (v : CacheValue) (set : List Bool) → AnswersWhich p.forward v (whole_search h 0) (replicate (length xs) false) set (Ok tt) →
        set ≡ which_match s.utf8 res h }
{
    built_automata_are_walked();
    sets_get_the_patterns_of_spans();
}

/// Take a regex that looks for all matches, whose lines end at a line feed, and whose trees [`parse_all`](crate::parse_all) made of
/// patterns. Take a call for the patterns of all ends. If the call began with an empty set and returns `Ok`, the set is exact: it has
/// the patterns of which the toolchain's matcher finds a match in the haystack, and no others.
pub fn overlapping_searches_find_which_texts_match()
    ensures { (config : Config) (texts : List (List ℕ)) (xs : List Tree) → AllMean config texts xs → (s : Settings) (p : Pair) →
        IsBuilt xs s p → kind_of s.dfa ≡ AllMatches → s.line_terminator ≡ one_of 10 → (h : List ℕ) →
        IsSearchOf xs s.utf8 (whole_search h 0) →
        (v : CacheValue) (set : List Bool) → AnswersWhich p.forward v (whole_search h 0) (replicate (length xs) false) set (Ok tt) →
        (res : List Re) × AreReadAs config texts res × (set ≡ which_match s.utf8 res h) }
{
    overlapping_searches_find_which_patterns_match();
}
