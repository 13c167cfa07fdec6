//! Laws of searches for several patterns. Each function has no code: its contract is the law.
//! ```rust
//! pub fn trees_find_what_is_written()
//!     ensures { (c : Options) (texts : List (List ℕ)) (xs : List Tree) → AllMean c texts xs → FindsWhatIsWritten c texts xs }
//! {
//!     searches_find_what_is_written();
//! }
//! ```
ghost use Rattle.std.specs.Prelude.{ℕ, Bool, List, All};
ghost use Rattle.regex_hir.specs.Re.{Re};
ghost use Rattle.regex_syntax.specs.declared.Config.{Config};
ghost use Rattle.hir_core.specs.Facts.{LoopsRead};
ghost use Rattle.hir_core.specs.Tree.{Tree};
ghost use Rattle.pattern_text.specs.SameEnds.{AreSameEnds, AreSameSpans};
ghost use Rattle.hir_regex.specs.Choices.{Query, answer_from};
ghost use Rattle.hir_regex.specs.LooseAnswers.{IsLooseAnswer};
ghost use Rattle.pattern_search.specs.Searches.{SpansAsRead, StartsAsRead, FindsAsRead, ListsAsRead};
ghost use Rattle.pattern_search.specs.Texts.{AllMean};
ghost use Rattle.pattern_search.specs.Written.{FindsWhatIsWritten};

/// The answer that trees define has the least start of a match, the first pattern that matches there, and an end of a span that this
/// pattern's tree matches. This also holds with empty loops.
#[tactic(auto, using(crate::proofs::ChoiceLemmas::answer_is_loose))]
pub fn the_answer_is_leftmost_whatever_the_loops()
    ensures { (q : Query) (s : ℕ) → IsLooseAnswer q s (answer_from q s) }
{}

/// What a search for the trees of patterns finds is what the toolchain's matcher finds for the patterns.
#[tactic(auto, using(crate::proofs::FindLemmas::finds_as_read))]
pub fn searches_find_what_patterns_say()
    ensures { (res : List Re) (xs : List Tree) → AreSameEnds res xs → All LoopsRead xs → (utf8 : Bool) → FindsAsRead utf8 res xs }
{}

/// All answers, one after the other, are all matches of the matcher's iteration, by the rule of the iteration on empty matches.
#[tactic(auto, using(crate::proofs::AllMatchLemmas::lists_as_read))]
pub fn lists_are_what_patterns_say()
    ensures { (res : List Re) (xs : List Tree) → AreSameEnds res xs → All LoopsRead xs → (utf8 : Bool) → ListsAsRead utf8 res xs }
{}

/// Trees match the spans that patterns match. What a search finds has the start that the matcher finds, and is of the first pattern
/// that matches there. If the matcher finds none, so does the search. This also holds with empty loops.
#[tactic(auto, using(crate::proofs::StartLemmas::starts_as_read))]
pub fn spans_and_starts_are_what_patterns_say()
    ensures spans { (res : List Re) (xs : List Tree) → AreSameSpans res xs → SpansAsRead res xs }
    ensures starts { (res : List Re) (xs : List Tree) → AreSameSpans res xs → (utf8 : Bool) → StartsAsRead utf8 res xs }
{}

/// Searches for the trees that [`parse_all`](crate::parse_all) made of patterns find what these patterns match.
#[tactic(auto, using(crate::proofs::ReadLemmas::finds_what_is_written))]
pub fn searches_find_what_is_written()
    ensures { (config : Config) (texts : List (List ℕ)) (xs : List Tree) → AllMean config texts xs → FindsWhatIsWritten config texts xs }
{}
