//! Parts of patterns that are literals and greedy rounds of classes, one after the other, as `struct\s+\w+\s*\{`: what is read of them,
//! without automata.
//!
//! A literal has one end. Of rounds, the preferred end is the end of the run of bytes of the class. If what follows a part has no end there, it
//! has none at the part's other ends, since a byte of the class follows each, with which nothing that follows begins. So each
//! part is read once. Of a class of characters, rounds are read in ASCII alone.
ghost use Rattle.std.specs.Prelude.{◌≡◌, ◌+◌, ◌≤◌, ◌<◌, false, get_or, length, true};
ghost use Rattle.search_core.specs.ByteSets.{has};
ghost use Rattle.hir_core.specs.Means.{stands};
ghost use Rattle.hir_core.specs.Tree.{Tree};
ghost use Rattle.meta_regex.specs.Parts.{AreDecided, AreParts, AllowsMore, IsReadWithin, ReadsAll, ReadsLiteral, ReadsOneOf, ReadsPart, ReadsRounds, IsStretch};

use crate::runs::{Run, skip_members, stands_at};
use hir_regex::see_bytes;

/// A part of a pattern.
#[derive(Drop)]
pub(crate) enum Part {
    /// These bytes, one after the other.
    Literal(Vec<u8>),
    /// Rounds of a class, of which more are preferred: at least as many as the run says, and at most so many if there is a bound.
    Rounds { run: Run, most: Option<usize> },
    /// One of these strings, an earlier one preferred. Nothing follows it.
    OneOf(Vec<Vec<u8>>),
}

/// What is read from an offset on.
#[derive(Clone, Copy)]
pub(crate) enum Read {
    /// All of it. The preferred end is here.
    To(usize),
    /// It isn't there. The bytes up to this offset were read.
    Missing(usize),
    /// A byte was read that may begin a character of a class.
    GaveUp,
}

/// Whether the haystack has these bytes at this offset.
#[inline(always)]
fn stands(bytes: &[u8], haystack: &[u8], at: usize) -> bool
    requires { at ≤ length haystack.now }
    ensures same { result ≡ stands haystack.now at bytes.now }
    ensures within { result ≡ true → at + length bytes.now ≤ length haystack.now }
{
    let (_, rest) = haystack.split_at(at);
    rest.starts_with(bytes)
}

/// Reads a literal.
#[inline(always)]
fn read_literal(bytes: &[u8], haystack: &[u8], at: usize) -> Read
    requires { at ≤ length haystack.now }
    ensures within { IsReadWithin haystack.now at result }
    ensures read { ReadsLiteral bytes.now haystack.now at result }
{
    if stands(bytes, haystack, at) {
        return Read::To(at + bytes.len());
    }
    Read::Missing(at)
}

/// The end of the rounds that begin at this offset and are a byte each.
#[inline(always)]
fn end_of_rounds(run: &Run, most: Option<usize>, haystack: &[u8], at: usize) -> usize
    requires { at ≤ length haystack.now }
    ensures { IsStretch run.now most haystack.now at result }
{
    see_bytes(haystack);
    match most {
        Some(most) => {
            skip_members(
                &run.members,
                haystack,
                at,
                haystack.len().min(at.saturating_add(most)),
            )
        }
        None => run.run_end(haystack, at),
    }
}

/// Whether a byte follows with which another round may begin.
#[inline(always)]
fn may_go_on(run: &Run, most: Option<usize>, haystack: &[u8], at: usize, end: usize) -> bool
    requires { at ≤ end }
    ensures { result ≡ false → AllowsMore most at end → end < length haystack.now → has run.now.first (get_or haystack.now end 0) ≡ false }
{
    if let Some(most) = most {
        if most <= end - at {
            return false;
        }
    }
    stands_at(&run.first, haystack, end)
}

/// Reads rounds of a class.
#[inline(always)]
fn read_rounds(run: &Run, most: Option<usize>, haystack: &[u8], at: usize) -> Read
    requires { at ≤ length haystack.now }
    ensures within { IsReadWithin haystack.now at result }
    ensures read { ReadsRounds run.now most haystack.now at result }
{
    let end = end_of_rounds(run, most, haystack, at);
    if may_go_on(run, most, haystack, at, end) {
        return Read::GaveUp;
    }
    if end - at < run.least {
        return Read::Missing(end);
    }
    Read::To(end)
}

/// Reads the first of these strings that stands there.
#[inline(always)]
fn read_one_of(texts: &[Vec<u8>], haystack: &[u8], at: usize) -> Read
    requires { at ≤ length haystack.now }
    ensures within { IsReadWithin haystack.now at result }
    ensures read { ReadsOneOf texts.now haystack.now at result }
{
    for text in texts {
        if stands(text, haystack, at) {
            return Read::To(at + text.len());
        }
    }
    Read::Missing(at)
}

/// Reads one part.
#[inline(always)]
pub(crate) fn read_part(part: &Part, haystack: &[u8], at: usize) -> Read
    requires { at ≤ length haystack.now }
    ensures within { IsReadWithin haystack.now at result }
    ensures read { ReadsPart part.now haystack.now at result }
{
    match part {
        Part::Literal(bytes) => read_literal(bytes, haystack, at),
        Part::Rounds { run, most } => read_rounds(run, *most, haystack, at),
        Part::OneOf(texts) => read_one_of(texts, haystack, at),
    }
}

/// Reads all parts, one after the other.
pub(crate) fn read_parts(parts: &[Part], haystack: &[u8], from: usize) -> Read
    requires { from ≤ length haystack.now }
    ensures within { IsReadWithin haystack.now from result }
    ensures read { (x : Tree) → AreParts parts.now x → AreDecided parts.now → ReadsAll x haystack.now from result }
{
    see_bytes(haystack);
    let mut left = parts;
    let mut at = from;
    while let Some((part, others)) = left.split_first() {
        at = match read_part(part, haystack, at) {
            Read::To(end) => end,
            Read::Missing(end) => return Read::Missing(end),
            Read::GaveUp => return Read::GaveUp,
        };
        left = others;
    }
    Read::To(at)
}
