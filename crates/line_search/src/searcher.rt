//! Searches of lines, and why none can be built.
ghost use Rattle.std.specs.Prelude.{◌≡◌, IfOk, map, option_map};
ghost use Rattle.pattern_search.specs.Searches.{span_of_found};
ghost use Rattle.line_search.specs.LineMatchers.{span_pair};

use lazy_dfa::BuildError;
use pattern_search::PatternError;
use search_types::{Match, Span};
use std::alloc::{AllocError, Global};

/// Why no searcher can be built.
#[derive(Debug, Drop)]
pub enum SearcherError {
    /// A pattern can't be parsed, or memory ran out.
    Text(PatternError),
    /// The pattern with this number, counted from 0, has an unbounded repetition whose body can match the empty string, and matches are
    /// asked for.
    EmptyLoop(usize),
    /// No regex can be built from the tree of the patterns: it is too large, or memory ran out.
    Build(BuildError),
}

/// The span of a match.
pub(crate) fn span_of(found: Option<Match>) -> Option<Span>
    ensures { option_map span_pair result ≡ option_map span_of_found found }
{
    match found {
        Some(it) => Some(it.span()),
        None => None,
    }
}

/// The spans of matches.
pub(crate) fn spans_of(alloc: Global, all: &[Match]) -> Result<Vec<Span>, AllocError>
    ensures { IfOk result (λ spans. map span_pair spans.items ≡ map span_of_found all.now) }
{
    let mut spans = Vec::new(alloc);
    for found in all {
        spans.push(found.span())?;
    }
    Ok(spans)
}
