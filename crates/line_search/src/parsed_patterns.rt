//! Patterns that are parsed, as one tree.
ghost use Rattle.std.specs.Prelude.{◌≡◌, IfErr, IfNone, IfOk, IfSome, None, Some, map, true};
ghost use Rattle.hir_core.specs.Facts.{LoopsRead};
ghost use Rattle.line_search.specs.BoundedTrees.{IsTreeOf, bounded_tree};
ghost use Rattle.line_search.specs.Joined.{joined};
ghost use Rattle.line_search.specs.Searchers.{IsSearcherError};

use crate::bounded::bounded_tree;
use crate::joining::joined;
use crate::patterns::PatternOptions;
use crate::plain_patterns::parse_each;
use crate::searcher::SearcherError;
use hir_core::Hir;
use hir_regex::first_empty_loop;
use lazy_dfa::BuildError;
use pattern_search::PatternError;
use std::alloc::{AllocError, Global};
use std::marker::Model;

/// Patterns, and the one tree of them. Each pattern is parsed once, by itself.
#[derive(Drop)]
pub(crate) struct ParsedPatterns<'t> {
    texts: &'t [&'t str],
    how: PatternOptions,
    /// There is none if a pattern is rejected or memory ran out.
    tree: Option<Hir>,
    /// Why the first rejected pattern is rejected.
    rejected: Option<PatternError>,
    /// The number of the first pattern with an unbounded repetition whose body can match the empty string.
    empty_loop: Option<usize>,
}

impl<'t> Model for ParsedPatterns<'t> {
    ghost use Rattle.std.specs.Prelude.{◌≡◌, ℕ, List, IfSome, None, Some, map};
    ghost use Rattle.hir_core.specs.Facts.{LoopsRead};
    ghost use Rattle.hir_core.specs.Tree.{Tree};
    ghost use Rattle.hir_regex.specs.Loops.{first_empty_loop};
    ghost use Rattle.pattern_search.specs.Texts.{AllMean, IsFirstFault};
    ghost use Rattle.line_search.specs.BoundedTrees.{IsTreeOf};
    ghost use Rattle.line_search.specs.Meant.{line_config};
    ghost use Rattle.line_search.specs.declared.patterns.PatternOptions.{PatternOptions};

    ghost Value = { PatternOptions × List (List ℕ) };

    ghost view = { λ p. (p.how, map (λ t. t.now) p.texts.now) };

    ghost invariant = { λ p. IfSome p.tree (λ x. IsTreeOf p.how (map (λ t. t.now) p.texts.now) x × (p.empty_loop ≡ None → LoopsRead x))
        × IfSome p.rejected (λ e. IsFirstFault (line_config p.how) (map (λ t. t.now) p.texts.now) e.number e.error)
        × IfSome p.empty_loop (λ n. (xs : List Tree) × AllMean (line_config p.how) (map (λ t. t.now) p.texts.now) xs
        × (first_empty_loop xs ≡ Some n)) };
}

/// If matches are asked for, the number of the first pattern of which they can't be reported.
fn refused_loop(empty_loop: Option<usize>, with_matches: bool) -> Option<usize>
    ensures none { IfNone result (with_matches ≡ true → empty_loop ≡ None) }
    ensures some { IfSome result (λ number. (with_matches ≡ true) × (empty_loop ≡ Some number)) }
{
    if with_matches { empty_loop } else { None }
}

/// The tree that lines are searched for, from the trees of the patterns. They are joined, and the result is bounded as `how` asks.
fn whole_tree(alloc: Global, how: &PatternOptions, parsed: Vec<Hir>) -> Result<Hir, AllocError>
    ensures { IfOk result (λ x. x ≡ bounded_tree how.now (joined parsed.items)) }
{
    let tree = joined(alloc, parsed)?;
    let whole = bounded_tree(alloc, how, tree)?;
    Ok(whole)
}

/// That tree, if memory suffices.
fn tree_of(alloc: Global, how: &PatternOptions, parsed: Vec<Hir>) -> Option<Hir>
    ensures { IfSome result (λ x. x ≡ bounded_tree how.now (joined parsed.items)) }
{
    match whole_tree(alloc, how, parsed) {
        Ok(tree) => Some(tree),
        Err(_) => None,
    }
}

impl<'t> ParsedPatterns<'t> {
    /// Parses patterns. No error is returned: [`tree`](ParsedPatterns::tree) returns it.
    pub(crate) fn new(
        alloc: Global,
        texts: &'t [&'t str],
        how: &PatternOptions,
    ) -> ParsedPatterns<'t>
        ensures { result ≡ (how.now, map (λ t. t.now) texts.now) }
    {
        let parsed = match parse_each(alloc, texts, how) {
            Ok(parsed) => parsed,
            Err(error) => {
                return ParsedPatterns {
                    texts,
                    how: *how,
                    tree: None,
                    rejected: Some(error),
                    empty_loop: None,
                };
            }
        };
        let empty_loop = first_empty_loop(&parsed);
        ParsedPatterns {
            texts,
            how: *how,
            tree: tree_of(alloc, how, parsed),
            rejected: None,
            empty_loop,
        }
    }

    /// The patterns.
    pub(crate) fn texts(&self) -> &'t [&'t str]
        ensures { map (λ t. t.now) result.now ≡ self.now.1 }
    {
        self.texts
    }

    /// How they are interpreted.
    pub(crate) fn how(&self) -> PatternOptions
        ensures { result ≡ self.now.0 }
    {
        self.how
    }

    /// The tree that lines are searched for.
    ///
    /// The call returns the first of these errors that applies:
    /// - A pattern can't be parsed. The error is that of the first such pattern.
    /// - Matches are asked for, and a pattern has an unbounded repetition whose body can match the empty string.
    /// - Memory ran out.
    pub(crate) fn tree(&self, with_matches: bool) -> Result<&Hir, SearcherError>
        ensures tree { IfOk result (λ x. IsTreeOf self.now.0 self.now.1 x.now) }
        ensures loops { with_matches ≡ true → IfOk result (λ x. LoopsRead x.now) }
        ensures refused { IfErr result (IsSearcherError self.now.0 self.now.1 with_matches) }
    {
        if let Some(error) = self.rejected {
            return Err(SearcherError::Text(error));
        }
        if let Some(number) = refused_loop(self.empty_loop, with_matches) {
            return Err(SearcherError::EmptyLoop(number));
        }
        match &self.tree {
            Some(tree) => Ok(tree),
            None => Err(SearcherError::Build(BuildError::NoMemory)),
        }
    }
}
