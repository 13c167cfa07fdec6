//! Laws of queries that are printed. The body of each function calls the laws on which its own rests, and does nothing.
ghost use Rattle.std.specs.Prelude.{◌↔◌, ◌++◌, ℕ, Bool, List, IsTrue, length, map};
ghost use Rattle.regex_hir.specs.Re.{Re};
ghost use Rattle.regex_syntax.specs.declared.Config.{Config};
ghost use Rattle.hir_core.specs.Facts.{LoopsRead, is_utf8_tree};
ghost use Rattle.hir_core.specs.Tree.{Tree};
ghost use Rattle.hirscan.specs.Reads.{Reads};
ghost use Rattle.hirscan.specs.Takes.{at_first};
ghost use Rattle.pattern_search.specs.Texts.{AllMean};
ghost use Rattle.pattern_text.specs.SameEnds.{SameEnds, SameSpans};
ghost use Rattle.hirhead.specs.HasLines.{HasLines, AllFit};
ghost use Rattle.hirhead.specs.Queries.{AllMatch, read_of};
ghost use Rattle.hirhead.specs.Lines.{query_text};
ghost use Rattle.hirhead.specs.Written.{printed_tree};

use hirscan::reading_laws::classes_have_their_items_bytes;
use hirscan::word_laws::{bytes_are_read, scalar_classes_have_their_items};

/// The query of trees that fit into it is read up to its end, whatever haystack comes after it. Its patterns are the trees that
/// the printed lines make.
pub fn queries_are_read()
    ensures { (utf8 : Bool) (xs : List Tree) → AllFit 250 xs → (haystack : List ℕ) →
        Reads (query_text utf8 xs ++ haystack) at_first (read_of utf8 xs) (length (query_text utf8 xs)) }
{
    bytes_are_read();
}

/// The tree that the printed lines of a tree make matches as that tree does. It prefers the same ends and has the same spans, and
/// it is UTF-8 if that tree is. The body of every unbounded repetition in it consumes at least one byte exactly if this holds in
/// that tree.
pub fn written_trees_match_alike()
    ensures ends { (re : Re) (x : Tree) → HasLines 0 x → SameEnds re x → SameEnds re (printed_tree x) }
    ensures spans { (re : Re) (x : Tree) → SameSpans re x → SameSpans re (printed_tree x) }
    ensures utf8 { (x : Tree) → IsTrue (is_utf8_tree x) → IsTrue (is_utf8_tree (printed_tree x)) }
    ensures loops { (x : Tree) → HasLines 0 x → LoopsRead x ↔ LoopsRead (printed_tree x) }
{
    classes_have_their_items_bytes();
    scalar_classes_have_their_items();
}

/// So the patterns of a query match as those from whose trees it is printed.
pub fn queries_match_as_their_patterns()
    ensures { (config : Config) (texts : List (List ℕ)) (xs : List Tree) → AllMean config texts xs → AllFit 250 xs →
        AllMatch config texts (map printed_tree xs) }
{
    classes_have_their_items_bytes();
    scalar_classes_have_their_items();
}
