//! What is put around a parsed pattern if a match has to be a whole line or whole words: as a tree for the automata, and as one for the
//! toolchain's engines. Both are built from the parsed pattern, so nothing in the text of a pattern can affect them.
ghost use Rattle.std.specs.Prelude.{◌≡◌, ◌∷◌, [], IfOk};
ghost use Rattle.regex_hir.specs.Meaning.{meaning, cat_all, alt_all};
ghost use Rattle.regex_hir.specs.Re.{look as assertion};
ghost use Rattle.hir_core.specs.Tree.{look, concat, alternation};
ghost use Rattle.line_search.specs.Bounded.{bounded, end_look, start_look};
ghost use Rattle.line_search.specs.BoundedTrees.{bounded_tree};
ghost use Rattle.pattern_text.specs.Translated.{translated_look};

use crate::patterns::PatternOptions;
use hir_core::Hir;
use look_core::Look;
use regex_hir::{Hir as Pattern, Look as Assertion};
use std::alloc::{AllocError, Global};

/// The look-around assertion at the start of what has to be a whole line.
fn start_look(how: &PatternOptions) -> Assertion
    ensures { result ≡ start_look how.now }
{
    if !how.text {
        return Assertion::Start;
    }
    if how.crlf {
        return Assertion::StartCrlf;
    }
    Assertion::StartLf
}

/// The look-around assertion at the end of what has to be a whole line.
fn end_look(how: &PatternOptions) -> Assertion
    ensures { result ≡ end_look how.now }
{
    if !how.text {
        return Assertion::End;
    }
    if how.crlf {
        return Assertion::EndCrlf;
    }
    Assertion::EndLf
}

/// The look-around assertion at the start of what has to be a whole line, for a tree.
fn start_in_tree(how: &PatternOptions) -> Look
    ensures { result ≡ translated_look (start_look how.now) }
{
    if !how.text {
        return Look::Start;
    }
    if how.crlf {
        return Look::StartCRLF;
    }
    Look::StartLF
}

/// The look-around assertion at the end of what has to be a whole line, for a tree.
fn end_in_tree(how: &PatternOptions) -> Look
    ensures { result ≡ translated_look (end_look how.now) }
{
    if !how.text {
        return Look::End;
    }
    if how.crlf {
        return Look::EndCRLF;
    }
    Look::EndLF
}

/// The alternation of two look-around assertions, as a tree.
fn either(alloc: Global, first: Look, second: Look) -> Result<Hir, AllocError>
    ensures { IfOk result (λ x. x ≡ alternation (look first ∷ look second ∷ [])) }
{
    let mut looks = Vec::new(alloc);
    looks.push(Hir::look(first))?;
    looks.push(Hir::look(second))?;
    Ok(Hir::alternation(looks))
}

/// The concatenation of a tree with one before it and one after it.
fn between(alloc: Global, before: Hir, tree: Hir, after: Hir) -> Result<Hir, AllocError>
    ensures { IfOk result (λ x. x ≡ concat (before ∷ tree ∷ after ∷ [])) }
{
    let mut parts = Vec::new(alloc);
    parts.push(before)?;
    parts.push(tree)?;
    parts.push(after)?;
    Ok(Hir::concat(parts))
}

/// The tree that lines are searched for, from the tree of parsed patterns.
pub(crate) fn bounded_tree(
    alloc: Global,
    how: &PatternOptions,
    tree: Hir,
) -> Result<Hir, AllocError>
    ensures { IfOk result (λ x. x ≡ bounded_tree how.now tree) }
{
    if how.lines {
        let start = Hir::look(start_in_tree(how));
        let end = Hir::look(end_in_tree(how));
        let whole = between(alloc, start, tree, end)?;
        return Ok(whole);
    }
    if how.words {
        let before = either(alloc, Look::WordStartUnicode, Look::WordStartHalfUnicode)?;
        let after = either(alloc, Look::WordEndUnicode, Look::WordEndHalfUnicode)?;
        let whole = between(alloc, before, tree, after)?;
        return Ok(whole);
    }
    Ok(tree)
}

/// The alternation of two look-around assertions, as a pattern of the toolchain.
fn either_assertion(
    alloc: Global,
    first: Assertion,
    second: Assertion,
) -> Result<Pattern, AllocError>
    ensures { IfOk result (λ p. meaning p ≡ alt_all (assertion first ∷ assertion second ∷ [])) }
{
    let mut looks = Vec::new(alloc);
    looks.push(Pattern::Look(first))?;
    looks.push(Pattern::Look(second))?;
    Ok(Pattern::Alternation(looks))
}

/// The concatenation of a pattern of the toolchain with one before it and one after it.
fn between_patterns(
    alloc: Global,
    before: Pattern,
    pattern: Pattern,
    after: Pattern,
) -> Result<Pattern, AllocError>
    ensures { IfOk result (λ p. meaning p ≡ cat_all (meaning before ∷ meaning pattern ∷ meaning after ∷ [])) }
{
    let mut parts = Vec::new(alloc);
    parts.push(before)?;
    parts.push(pattern)?;
    parts.push(after)?;
    Ok(Pattern::Concat(parts))
}

/// The pattern of the toolchain that lines are searched for, from a parsed one.
pub(crate) fn bounded_pattern(
    alloc: Global,
    how: &PatternOptions,
    pattern: Pattern,
) -> Result<Pattern, AllocError>
    ensures { IfOk result (λ p. meaning p ≡ bounded how.now (meaning pattern)) }
{
    if how.lines {
        let start = Pattern::Look(start_look(how));
        let end = Pattern::Look(end_look(how));
        let whole = between_patterns(alloc, start, pattern, end)?;
        return Ok(whole);
    }
    if how.words {
        let (whole, half) = (Assertion::WordStartUnicode, Assertion::WordStartHalfUnicode);
        let before = either_assertion(alloc, whole, half)?;
        let (whole, half) = (Assertion::WordEndUnicode, Assertion::WordEndHalfUnicode);
        let after = either_assertion(alloc, whole, half)?;
        let whole = between_patterns(alloc, before, pattern, after)?;
        return Ok(whole);
    }
    Ok(pattern)
}
