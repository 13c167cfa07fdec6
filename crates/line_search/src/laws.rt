//! Laws of the definitions. Each function has no code: its contract is the law.
ghost use Rattle.std.specs.Prelude.{◌≡◌, ◌↔◌, ◌≤◌, ℕ, List, length, is_some, true};
ghost use Rattle.regex_hir.specs.Find.{find};
ghost use Rattle.regex_hir.specs.Matches.{Matches};
ghost use Rattle.regex_hir.specs.Re.{Re};
ghost use Rattle.line_search.specs.Bounded.{HasKeptSpan, bounded, span_counts, line_pattern};
ghost use Rattle.line_search.specs.declared.patterns.PatternOptions.{PatternOptions};

/// What is put around a pattern keeps those of its spans that are the whole line, or whose ends pass the tests for words. It adds no spans.
/// This holds for every pattern, whatever flags it sets and however it ends.
#[tactic(auto, using(crate::proofs::BoundedLemmas::kept_spans))]
pub fn bounds_keep_the_spans_that_count()
    ensures { (how : PatternOptions) (re : Re) (line : List ℕ) (i j : ℕ) → i ≤ length line →
        Matches line (bounded how re) i j ↔ ((span_counts how line i j ≡ true) × Matches line re i j) }
{}

/// A line has a match if and only if some pattern matches a span of it that counts.
#[tactic(auto, using(crate::proofs::BoundedLemmas::has_kept_span))]
pub fn lines_match_by_a_span_that_counts()
    ensures { (how : PatternOptions) (res : List Re) (line : List ℕ) →
        (is_some (find (line_pattern how res) line 0) ≡ true) ↔ HasKeptSpan how res line }
{}
