//! Parses patterns. One that is the escape of a text becomes the literal of that text, without the parser.
ghost use Rattle.std.specs.Prelude.{◌≡◌, ◌++◌, ◌∷◌, [], IfErr, IfOk, IfSome, OnOk, map, string_bytes};
ghost use Rattle.regex_syntax.specs.Verdict.{ReadsAsText};
ghost use Rattle.hir_core.specs.Tree.{Tree};
ghost use Rattle.pattern_text.specs.Patterns.{MeansText, IsFault};
ghost use Rattle.pattern_search.specs.Texts.{AllMean, IsFirstFault};
ghost use Rattle.line_search.specs.Meant.{line_config};

use crate::patterns::{PatternOptions, config_of};
use hir_core::Hir;
use pattern_search::PatternError;
use pattern_text::laws::parts_agree;
use pattern_text::{ParseError, parse};
use std::alloc::{AllocError, Global};

/// The pattern without the backslashes that escape a character. Nothing is promised of it: it is a draft of a text of which the pattern may
/// be the escape.
fn unescaped(alloc: Global, pattern: &str) -> Result<String, AllocError> {
    let mut text = String::with_capacity(alloc, pattern.len())?;
    let mut is_escaped = false;
    for c in pattern.chars() {
        if c == '\\' && !is_escaped {
            is_escaped = true;
        } else {
            text.push(c)?;
            is_escaped = false;
        }
    }
    Ok(text)
}

/// The text of which a pattern is the escape, if there is one and memory suffices.
fn plain_text(alloc: Global, pattern: &str) -> Option<String>
    ensures { IfSome result (λ t. ReadsAsText pattern.now (string_bytes t)) }
{
    let Ok(text) = unescaped(alloc, pattern) else {
        return None;
    };
    let Ok(escaped) = regex_syntax::escape(alloc, text.as_str()) else {
        return None;
    };
    if escaped.as_str() == pattern {
        Some(text)
    } else {
        None
    }
}

/// The literal that is the tree of a pattern, if the pattern is the escape of a text and letters match in their own case alone.
fn plain_tree(alloc: Global, pattern: &str, how: &PatternOptions) -> Option<Hir>
    ensures { IfSome result (λ x. MeansText (line_config how.now) pattern.now x) }
{
    if how.ignore_case {
        return None;
    }
    let Some(text) = plain_text(alloc, pattern) else {
        return None;
    };
    parts_agree();
    Some(Hir::literal(text.into_bytes()))
}

/// The tree of a pattern.
fn tree_of(alloc: Global, pattern: &str, how: &PatternOptions) -> Result<Hir, ParseError>
    ensures means { IfOk result (λ x. MeansText (line_config how.now) pattern.now x) }
    ensures refused { IfErr result (λ e. IsFault (line_config how.now) pattern.now e) }
{
    if let Some(tree) = plain_tree(alloc, pattern, how) {
        return Ok(tree);
    }
    match parse(alloc, pattern, &config_of(how)) {
        Ok(tree) => Ok(tree),
        Err(error) => Err(error),
    }
}

/// Appends the tree of a pattern.
fn push_tree(
    alloc: Global,
    trees: &mut Vec<Hir>,
    pattern: &str,
    how: &PatternOptions,
) -> Result<(), ParseError>
    ensures pushed { OnOk result ((x : Tree) × (trees.new.items ≡ trees.old.items ++ x ∷ []) × MeansText (line_config how.now) pattern.now x) }
    ensures refused { IfErr result (λ e. IsFault (line_config how.now) pattern.now e) }
{
    let tree = tree_of(alloc, pattern, how)?;
    match trees.push(tree) {
        Ok(()) => Ok(()),
        Err(_) => Err(ParseError::NoMemory),
    }
}

/// The trees of patterns, one for each and in their order. If a pattern is rejected, the error is that of the first rejected one, with its
/// number, counted from 0.
pub(crate) fn parse_each(
    alloc: Global,
    texts: &[&str],
    how: &PatternOptions,
) -> Result<Vec<Hir>, PatternError>
    ensures means { IfOk result (λ xs. AllMean (line_config how.now) (map (λ t. t.now) texts.now) xs.items) }
    ensures refused { IfErr result (λ e. IsFirstFault (line_config how.now) (map (λ t. t.now) texts.now) e.number e.error) }
{
    let mut trees = Vec::new(alloc);
    for (number, text) in texts.iter().enumerate() {
        match push_tree(alloc, &mut trees, text, how) {
            Ok(()) => {}
            Err(error) => return Err(PatternError { number, error }),
        }
    }
    Ok(trees)
}
