//! Laws of searches forward for the earliest end, over a regex that is built of trees. No function does anything: its contract is the
//! law.
ghost use Rattle.std.specs.Prelude.{◌≡◌, ◌≤◌, ◌<◌, ℕ, Bool, false, List, All, length, Option, Ok, Err};
ghost use Rattle.look_core.specs.Looks.{holds, IsWordSet};
ghost use Rattle.look_core.specs.Terminators.{Terminator};
ghost use Rattle.hir_core.specs.Tree.{Tree};
ghost use Rattle.search_types.specs.declared.anchored.Anchored.{Anchored};
ghost use Rattle.search_types.specs.declared.match_error.MatchErrorKind.{MatchErrorKind};
ghost use Rattle.search_types.specs.Found.{HalfFound};
ghost use Rattle.lazy_dfa.specs.Caches.{CacheValue};
ghost use Rattle.lazy_dfa.specs.Dfas.{reader};
ghost use Rattle.lazy_dfa.specs.Readers.{Reader, found, quit, unsupported};
ghost use Rattle.lazy_dfa.specs.HalfSearches.{half_search};
ghost use Rattle.lazy_dfa.specs.SearchAnswers.{Answers, half_of};
ghost use Rattle.regex_pair.specs.Pairs.{Pair};
ghost use Rattle.hir_regex.specs.declared.settings.Settings.{Settings};
ghost use Rattle.hir_regex.specs.Built.{IsBuilt, FindsFirst};
ghost use Rattle.hir_regex.specs.Regexes.{IsRegexOf};
ghost use Rattle.growing_regex.specs.Earliest.{NoneEndsBefore, IsEarliest, IsEarliestError, earliest_search, looks_by};

use hir_regex::headline::built_regexes_are_of_the_trees;

/// Take two automata that are compiled from the trees and not in UTF-8 mode. A search forward for the earliest end finds the least end
/// of the spans that any of the trees matches, whichever starts first and whichever is preferred. If none of them matches a span, it
/// finds none. At a quit byte, none has ended yet. All this holds for every set of word characters, and for trees with empty loops, too.
pub fn the_earliest_end_is_the_least()
    ensures found { (xs : List Tree) (t : Terminator) (p : Pair) → IsRegexOf xs false t p → (h : List ℕ) → All (λ byte. byte < 256) h →
        (words : ℕ → Bool) → IsWordSet words → (s e : ℕ) → e ≤ length h → (o : Option (ℕ × ℕ)) →
        half_search (reader p.forward) (earliest_search h s e) ≡ found o → IsEarliest xs (holds words t h) h s e (half_of o) }
    ensures quits { (xs : List Tree) (t : Terminator) (p : Pair) → IsRegexOf xs false t p → (h : List ℕ) → All (λ byte. byte < 256) h →
        (words : ℕ → Bool) → IsWordSet words → (s e : ℕ) → e ≤ length h → (b x : ℕ) →
        half_search (reader p.forward) (earliest_search h s e) ≡ quit b x → NoneEndsBefore xs (holds words t h) h s e x }
    ensures never { (r : Reader) (h : List ℕ) (s e : ℕ) (mode : Anchored) → half_search r (earliest_search h s e) ≡ unsupported mode → ⊥ }
{}

/// What a call of the half search answers, whatever the cache holds: the least end, or an error. If the error is a quit byte, no span
/// ends before that byte.
pub fn calls_report_the_least_end()
    ensures found { (xs : List Tree) (s : Settings) (p : Pair) → IsBuilt xs s p → FindsFirst s → s.utf8 ≡ false →
        (h : List ℕ) → All (λ byte. byte < 256) h → (words : ℕ → Bool) → IsWordSet words →
        (at : ℕ) (v : CacheValue) (o : Option HalfFound) →
        Answers p.forward v (earliest_search h at (length h)) (Ok o) → IsEarliest xs (looks_by words s h) h at (length h) o }
    ensures refused { (xs : List Tree) (s : Settings) (p : Pair) → IsBuilt xs s p → FindsFirst s → s.utf8 ≡ false →
        (h : List ℕ) → All (λ byte. byte < 256) h → (words : ℕ → Bool) → IsWordSet words → (at : ℕ) (v : CacheValue) (e : MatchErrorKind) →
        Answers p.forward v (earliest_search h at (length h)) (Err e) → IsEarliestError words xs s h at e }
{
    built_regexes_are_of_the_trees();
}
