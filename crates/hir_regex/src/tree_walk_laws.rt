//! Laws of overlapping searches over an automaton that is compiled from trees: they report what the trees mean. Each function has
//! no code: its contract is the law.
//!
//! An overlapping search that reads forward reports the ends of all spans of the trees that a search may find, each with its
//! pattern. One that reads in reverse reports their starts. It reports no other offsets, and each pair once.
//! ```rust
//! pub fn starts_can_be_walked()
//!     ensures { (xs : List Tree) (s : SettingsValue) (p : Pair) → IsBuilt xs s p →
//!         IsOverlappingDfa xs true s.utf8 s.line_terminator p.reverse }
//! {
//!     built_automata_are_walked();
//! }
//! ```
ghost use Rattle.std.specs.Prelude.{◌≡◌, ◌⊎◌, ℕ, ◌<◌, ◌↔◌, Bool, true, false, List, [], length, slice_get, None, Ok};
ghost use Rattle.search_core.specs.ByteSets.{has};
ghost use Rattle.look_core.specs.Looks.{IsWordSet};
ghost use Rattle.look_core.specs.Terminators.{Terminator};
ghost use Rattle.hir_core.specs.Tree.{Tree};
ghost use Rattle.search_types.specs.declared.anchored.Anchored.TheVariants.{Pattern};
ghost use Rattle.search_types.specs.declared.match_kind.MatchKind.TheVariants.{All as AllMatches};
ghost use Rattle.search_types.specs.Inputs.{Search, with_earliest};
ghost use Rattle.search_types.specs.Modes.{is_supported};
ghost use Rattle.nfa_core.specs.Places.{same_pair};
ghost use Rattle.nfa_core.specs.Walks.{Has, HasNoneTwice};
ghost use Rattle.lazy_dfa.specs.Caches.{CacheValue};
ghost use Rattle.lazy_dfa.specs.ConfigValue.{kind_of};
ghost use Rattle.lazy_dfa.specs.Dfas.{Dfa, reader};
ghost use Rattle.lazy_dfa.specs.HalfSearchLaws.{HasNoQuitNear};
ghost use Rattle.lazy_dfa.specs.Overlapping.{whole_rest};
ghost use Rattle.lazy_dfa.specs.OverlappingAnswers.{AnswersWhich};
ghost use Rattle.lazy_dfa.specs.OverlappingLaws.{IsInReadingOrder};
ghost use Rattle.regex_pair.specs.Pairs.{Pair};
ghost use Rattle.hir_regex.specs.declared.settings.Settings.{Settings};
ghost use Rattle.hir_regex.specs.Built.{IsBuilt};
ghost use Rattle.hir_regex.specs.Regexes.{IsSearchOf};
ghost use Rattle.hir_regex.specs.OverlappingTrees.{IsOverlappingDfa, IsReportedAscii, IsReportedWith};

/// These laws apply to the automata of a regex that is built of trees: always to the one that reads in reverse, and to the one
/// that reads forward if it is set to find all matches.
pub fn built_automata_are_walked()
    ensures is_reverse { (xs : List Tree) (s : Settings) (p : Pair) → IsBuilt xs s p →
        IsOverlappingDfa xs true s.utf8 s.line_terminator p.reverse }
    ensures is_forward { (xs : List Tree) (s : Settings) (p : Pair) → IsBuilt xs s p → kind_of s.dfa ≡ AllMatches →
        IsOverlappingDfa xs false s.utf8 s.line_terminator p.forward }
{}

/// An overlapping search without an error reports exactly the offsets and patterns of the spans that the trees mean and that the
/// search may find. This holds for every set of words, and also if looks for words by characters are read by the bytes of ASCII.
/// There is no error if no quit byte is in the span or next to it, and the mode is supported.
pub fn walks_tell_what_trees_mean()
    ensures ascii { (xs : List Tree) (reverse utf8 : Bool) (t : Terminator) (d : Dfa) → IsOverlappingDfa xs reverse utf8 t d →
        (q : Search) → IsSearchOf xs utf8 (with_earliest false q) → (whole_rest (reader d) q).rejection ≡ None → (x : ℕ × ℕ) →
        Has same_pair x (whole_rest (reader d) q).ends ↔ IsReportedAscii xs reverse utf8 t q x }
    ensures words { (xs : List Tree) (reverse utf8 : Bool) (t : Terminator) (d : Dfa) → IsOverlappingDfa xs reverse utf8 t d →
        (q : Search) → IsSearchOf xs utf8 (with_earliest false q) → (whole_rest (reader d) q).rejection ≡ None →
        (words : ℕ → Bool) → IsWordSet words → (x : ℕ × ℕ) →
        Has same_pair x (whole_rest (reader d) q).ends ↔ IsReportedWith words xs reverse utf8 t q x }
    ensures quiet { (xs : List Tree) (reverse utf8 : Bool) (t : Terminator) (d : Dfa) → IsOverlappingDfa xs reverse utf8 t d →
        (q : Search) → IsSearchOf xs utf8 (with_earliest false q) →
        is_supported (reader d).starts_for_each_pattern q.anchored ≡ true → HasNoQuitNear (reader d) q.haystack q.start q.end →
        (words : ℕ → Bool) → IsWordSet words → (x : ℕ × ℕ) →
        Has same_pair x (whole_rest (reader d) q).ends ↔ IsReportedWith words xs reverse utf8 t q x }
{}

/// What an overlapping search reports before an error is meant by the trees too.
pub fn refused_walks_tell_nothing_else()
    ensures ascii { (xs : List Tree) (reverse utf8 : Bool) (t : Terminator) (d : Dfa) → IsOverlappingDfa xs reverse utf8 t d →
        (q : Search) → IsSearchOf xs utf8 (with_earliest false q) → (x : ℕ × ℕ) →
        Has same_pair x (whole_rest (reader d) q).ends → IsReportedAscii xs reverse utf8 t q x }
    ensures words { (xs : List Tree) (reverse utf8 : Bool) (t : Terminator) (d : Dfa) → IsOverlappingDfa xs reverse utf8 t d →
        (q : Search) → IsSearchOf xs utf8 (with_earliest false q) → (words : ℕ → Bool) → IsWordSet words → (x : ℕ × ℕ) →
        Has same_pair x (whole_rest (reader d) q).ends → IsReportedWith words xs reverse utf8 t q x }
{}

/// An overlapping search reports each pair once, and its offsets in reading order.
pub fn walks_over_trees_tell_each_once()
    ensures once { (xs : List Tree) (reverse utf8 : Bool) (t : Terminator) (d : Dfa) → IsOverlappingDfa xs reverse utf8 t d →
        (q : Search) → IsSearchOf xs utf8 (with_earliest false q) → (whole_rest (reader d) q).rejection ≡ None →
        HasNoneTwice same_pair (whole_rest (reader d) q).ends }
    ensures ordered { (xs : List Tree) (reverse utf8 : Bool) (t : Terminator) (d : Dfa) → IsOverlappingDfa xs reverse utf8 t d →
        (q : Search) → IsSearchOf xs utf8 (with_earliest false q) → (whole_rest (reader d) q).rejection ≡ None →
        IsInReadingOrder reverse (whole_rest (reader d) q).ends }
{}

/// Nothing is reported if the span's start is after its end, or if the pattern that is asked for has no tree.
pub fn walks_over_trees_may_have_nothing_to_tell()
    ensures done { (xs : List Tree) (reverse utf8 : Bool) (t : Terminator) (d : Dfa) → IsOverlappingDfa xs reverse utf8 t d →
        (q : Search) → q.end < q.start → (whole_rest (reader d) q).ends ≡ [] }
    ensures no_tree { (xs : List Tree) (reverse utf8 : Bool) (t : Terminator) (d : Dfa) → IsOverlappingDfa xs reverse utf8 t d →
        (q : Search) (p : ℕ) → q.anchored ≡ Pattern p → slice_get xs p ≡ None → (whole_rest (reader d) q).ends ≡ [] }
{}

/// Suppose that a call for the patterns of all ends returns `Ok`. Then it has added to its set exactly the patterns that the set
/// has room for and of which an end is to be reported.
pub fn sets_get_the_patterns_of_spans()
    ensures ascii { (xs : List Tree) (utf8 : Bool) (t : Terminator) (d : Dfa) → IsOverlappingDfa xs false utf8 t d →
        (q : Search) → IsSearchOf xs utf8 q →
        (v : CacheValue) (old new : List Bool) → AnswersWhich d v q old new (Ok tt) → (p : ℕ) →
        (has new p ≡ true) ↔ ((has old p ≡ true) ⊎ ((p < length old) × ((j : ℕ) × IsReportedAscii xs false utf8 t q (j, p)))) }
    ensures words { (xs : List Tree) (utf8 : Bool) (t : Terminator) (d : Dfa) → IsOverlappingDfa xs false utf8 t d →
        (q : Search) → IsSearchOf xs utf8 q →
        (v : CacheValue) (old new : List Bool) → AnswersWhich d v q old new (Ok tt) →
        (words : ℕ → Bool) → IsWordSet words → (p : ℕ) →
        (has new p ≡ true) ↔ ((has old p ≡ true) ⊎ ((p < length old) × ((j : ℕ) × IsReportedWith words xs false utf8 t q (j, p)))) }
{}
