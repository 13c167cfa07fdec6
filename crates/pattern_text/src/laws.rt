//! Laws of the definitions. Each function has no code: its contract is the law.
//! ```rust
//! pub fn ends_tell_spans()
//!     ensures { (a : Re) (x : Tree) → LoopsRead x → SameEnds a x → SameSpans a x }
//! {
//!     same_ends_are_same_spans();
//! }
//! ```
ghost use Rattle.std.specs.Prelude.{◌≡◌, ◌<◌, ◌≤◌, List, [], length, All, Option, Some, None, ℕ, Bool, IsTrue, true};
ghost use Rattle.std.specs.Char.{IsScalar};
ghost use Rattle.std.specs.Option.{ForSome};
ghost use Rattle.regex_class.specs.Ranges.{in_ranges};
ghost use Rattle.regex_hir.specs.Meaning.{meaning, repeat, cat_all, alt_all};
ghost use Rattle.regex_hir.specs.Re.{Re};
ghost use Rattle.regex_hir.specs.Re as re;
ghost use Rattle.regex_hir.specs.declared.hir.Hir.{Hir as Pattern};
ghost use Rattle.regex_hir.specs.Find.{Match, find};
ghost use Rattle.regex_syntax.specs.Grammar.{Names};
ghost use Rattle.regex_syntax.specs.WellFormed.{IsWellFormed};
ghost use Rattle.hir_core.specs.Facts.{LoopsRead, is_utf8_tree};
ghost use Rattle.hir_core.specs.Means.{is_member};
ghost use Rattle.hir_core.specs.PreferredEnds.{preferred_ends};
ghost use Rattle.hir_core.specs.Tree.{Tree, concat, alternation};
ghost use Rattle.hir_core.specs.Tree as tree;
ghost use Rattle.pattern_text.specs.Translated.{translated};
ghost use Rattle.pattern_text.specs.FirstSpan.{IsFirstSpan};
ghost use Rattle.pattern_text.specs.SameEnds.{pattern_looks, SameEnds, SameSpans, AreSameEnds, AreSameSpans, HasNames};

/// The tree of a pattern has the same spans as the pattern, also if it has empty loops. If the body of each
/// of its unbounded repetitions consumes at least one byte, it prefers the ends that the pattern does. Its
/// groups have the names at their indices.
pub fn trees_mean_what_patterns_do()
    ensures ends { (names : Names) (p : Pattern) → SameEnds (meaning p) (translated names p) }
    ensures spans { (names : Names) (p : Pattern) → SameSpans (meaning p) (translated names p) }
    ensures named { (names : Names) (p : Pattern) → HasNames names (translated names p) }
{}

/// If a pattern matches only UTF-8, the facts of its tree say so.
pub fn trees_of_utf8_patterns_are_utf8()
    ensures { (names : Names) (p : Pattern) → IsWellFormed true p → IsTrue (is_utf8_tree (translated names p)) }
{}

/// If the body of every unbounded repetition of a tree consumes at least one byte, the same ends mean the
/// same spans.
#[tactic(auto, using(crate::proofs::SpanLemmas::spans_of_ends))]
pub fn same_ends_are_same_spans()
    ensures { (a : Re) (x : Tree) → LoopsRead x → SameEnds a x → SameSpans a x }
{}

/// If parts prefer the same ends, so do the wholes made of them.
#[tactic(auto, using(crate::proofs::SameEndsLemmas::same_literal, crate::proofs::SameEndsLemmas::same_bytes, crate::proofs::CharLemmas::same_chars, crate::proofs::SameEndsLemmas::same_cat, crate::proofs::SameEndsLemmas::same_alt, crate::proofs::SameEndsLemmas::same_group, crate::proofs::LoopLemmas::same_repetition))]
pub fn parts_agree()
    ensures literal { (bytes : List ℕ) → SameEnds (re.literal bytes) (tree.literal bytes) }
    ensures bytes { (ranges : List (ℕ × ℕ)) → SameEnds (re.byte_in ranges) (tree.byte_class ranges) }
    ensures chars { (rs ranges : List (ℕ × ℕ)) → ((c : ℕ) → IsScalar c → in_ranges rs c ≡ is_member ranges c) →
        SameEnds (re.char_in rs) (tree.char_class ranges) }
    ensures cat { (a b : Re) (x y : Tree) → SameEnds a x → SameEnds b y → SameEnds (re.cat a b) (tree.cat x y) }
    ensures alt { (a b : Re) (x y : Tree) → SameEnds a x → SameEnds b y → SameEnds (re.alt a b) (tree.alt x y) }
    ensures group { (n index : ℕ) (name : Option (List ℕ)) (a : Re) (x : Tree) → SameEnds a x →
        SameEnds (re.group n a) (tree.capture index name x) }
    ensures repetition { (min : ℕ) (max : Option ℕ) (greedy : Bool) (a : Re) (x : Tree) → ForSome max (λ most. min ≤ most) → SameEnds a x →
        SameEnds (repeat min max greedy a) (tree.repetition min max greedy x) }
{}

/// If parts have the same spans, so do the wholes made of them, also if rounds are empty.
#[tactic(auto, using(crate::proofs::SpanLemmas::spans_cat, crate::proofs::SpanLemmas::spans_alt, crate::proofs::SpanLemmas::spans_group, crate::proofs::RoundLemmas::spans_repetition))]
pub fn spans_of_parts_agree()
    ensures cat { (a b : Re) (x y : Tree) → SameSpans a x → SameSpans b y → SameSpans (re.cat a b) (tree.cat x y) }
    ensures alt { (a b : Re) (x y : Tree) → SameSpans a x → SameSpans b y → SameSpans (re.alt a b) (tree.alt x y) }
    ensures group { (n index : ℕ) (name : Option (List ℕ)) (a : Re) (x : Tree) → SameSpans a x →
        SameSpans (re.group n a) (tree.capture index name x) }
    ensures repetition { (min : ℕ) (max : Option ℕ) (greedy : Bool) (a : Re) (x : Tree) → ForSome max (λ most. min ≤ most) → SameSpans a x →
        SameSpans (repeat min max greedy a) (tree.repetition min max greedy x) }
{}

/// Lists of parts, one after the other or as a choice, agree if each part does. So several patterns are one
/// tree: the alternation of their trees.
#[tactic(auto, using(crate::proofs::ListLemmas::same_concat, crate::proofs::ListLemmas::same_alternation, crate::proofs::ListLemmas::spans_concat, crate::proofs::ListLemmas::spans_alternation))]
pub fn lists_of_parts_agree()
    ensures concat { (rs : List Re) (xs : List Tree) → AreSameEnds rs xs → SameEnds (cat_all rs) (concat xs) }
    ensures alternation { (rs : List Re) (xs : List Tree) → AreSameEnds rs xs → SameEnds (alt_all rs) (alternation xs) }
    ensures concat_spans { (rs : List Re) (xs : List Tree) → AreSameSpans rs xs → SameSpans (cat_all rs) (concat xs) }
    ensures alternation_spans { (rs : List Re) (xs : List Tree) → AreSameSpans rs xs → SameSpans (alt_all rs) (alternation xs) }
{}

/// Precondition: the body of every unbounded repetition consumes at least one byte. Then the toolchain's
/// search finds the first offset at which the tree has a span, and there the end that the tree prefers. If
/// the tree has no span, the search finds none.
pub fn searches_find_the_first_preferred_span()
    ensures found { (re : Re) (x : Tree) → SameEnds re x → (h : List ℕ) → All (λ b. b < 256) h → LoopsRead x →
        (s : ℕ) (m : Match) → find re h s ≡ Some m → IsFirstSpan h x s m.start m.trace.end }
    ensures none { (re : Re) (x : Tree) → SameEnds re x → (h : List ℕ) → All (λ b. b < 256) h → LoopsRead x →
        (s : ℕ) → find re h s ≡ None → (k : ℕ) → s ≤ k → k ≤ length h → preferred_ends (pattern_looks h) h x k ≡ [] }
{}
