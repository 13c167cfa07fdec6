//! Laws of streams over patterns. Their bodies call the laws on which they rest, and do nothing else.
ghost use Rattle.std.specs.Prelude.{◌≡◌, ◌<◌, ◌↔◌, ℕ, List, All, None, false, true};
ghost use Rattle.regex_hir.specs.Re.{Re};
ghost use Rattle.search_core.specs.Utf8.{IsValidText};
ghost use Rattle.nfa_core.specs.Places.{same_pair};
ghost use Rattle.nfa_core.specs.Walks.{Has, HasNoneTwice};
ghost use Rattle.lazy_dfa.specs.Dfas.{Dfa};
ghost use Rattle.lazy_dfa.specs.OverlappingLaws.{IsInReadingOrder};
ghost use Rattle.pattern_search.specs.Texts.{AreReadAs};
ghost use Rattle.streams.specs.Lines.{lines_in, rest_of_lines};
ghost use Rattle.streams.specs.Overlapping.{rest_of_stream};
ghost use Rattle.streams.specs.Streams.{fresh_stream};
ghost use Rattle.stream_regex.specs.Meaning.{IsEndOf, IsEndOfLine};
ghost use Rattle.stream_regex.specs.StreamRegexes.{IsStreamRegexOf};
ghost use Rattle.stream_regex.specs.declared.options.Options.{Options};

use hir_regex::tree_walk_laws::{
    built_automata_are_walked, walks_over_trees_tell_each_once, walks_tell_what_trees_mean,
};
use lazy_dfa::walk_laws::walks_are_refused_by_quit_bytes_and_modes_alone;
use streams::laws::{lines_are_searched_by_themselves, streams_are_overlapping_searches};

/// Take a stream over patterns that is fed a whole input, in pieces or not, and closed. The pairs that it reports are exactly those of an
/// offset and a pattern such that the pattern matches a span of the input that ends there. Each pair is reported once, with offsets
/// ascending. The stream doesn't fail at any byte. If the options require UTF-8, so does this law.
pub fn streams_report_the_ends_of_matches()
    ensures exactly { (o : Options) (texts : List (List ℕ)) (d : Dfa) → IsStreamRegexOf o texts d → (h : List ℕ) → All (λ b. b < 256) h →
        (o.syntax.utf8 ≡ true → IsValidText h) → (res : List Re) → AreReadAs o.syntax texts res → (end pattern : ℕ) →
        Has same_pair (end, pattern) (rest_of_stream d fresh_stream h).ends ↔ IsEndOf o.syntax.utf8 res h end pattern }
    ensures once { (o : Options) (texts : List (List ℕ)) (d : Dfa) → IsStreamRegexOf o texts d → (h : List ℕ) → All (λ b. b < 256) h →
        (o.syntax.utf8 ≡ true → IsValidText h) → HasNoneTwice same_pair (rest_of_stream d fresh_stream h).ends }
    ensures ordered { (o : Options) (texts : List (List ℕ)) (d : Dfa) → IsStreamRegexOf o texts d → (h : List ℕ) → All (λ b. b < 256) h →
        (o.syntax.utf8 ≡ true → IsValidText h) → IsInReadingOrder false (rest_of_stream d fresh_stream h).ends }
    ensures quiet { (o : Options) (texts : List (List ℕ)) (d : Dfa) → IsStreamRegexOf o texts d → (h : List ℕ) →
        (rest_of_stream d fresh_stream h).rejection ≡ None }
{
    streams_are_overlapping_searches();
    built_automata_are_walked();
    walks_tell_what_trees_mean();
    walks_over_trees_tell_each_once();
    walks_are_refused_by_quit_bytes_and_modes_alone();
}

/// Take a stream over patterns that is fed a whole input line by line, in pieces or not, and closed. The pairs that it reports are exactly those
/// of an offset and a pattern such that the pattern matches a span of a line that ends there, where each line is a haystack of its own. The
/// stream doesn't fail at any byte. If the options require UTF-8, so does this law of each line.
pub fn streams_report_the_ends_of_matches_in_lines()
    ensures exactly { (o : Options) (texts : List (List ℕ)) (d : Dfa) → IsStreamRegexOf o texts d → (h : List ℕ) → All (λ b. b < 256) h →
        (o.syntax.utf8 ≡ true → All (λ l. IsValidText l.1) (lines_in 10 h)) → (res : List Re) → AreReadAs o.syntax texts res →
        (end pattern : ℕ) →
        Has same_pair (end, pattern) (rest_of_lines d 10 fresh_stream h).ends ↔ IsEndOfLine o.syntax.utf8 res h end pattern }
    ensures quiet { (o : Options) (texts : List (List ℕ)) (d : Dfa) → IsStreamRegexOf o texts d → (h : List ℕ) →
        (rest_of_lines d 10 fresh_stream h).rejection ≡ None }
{
    lines_are_searched_by_themselves();
    streams_report_the_ends_of_matches();
}
