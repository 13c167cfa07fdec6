//! Skips the parts of a haystack in which no match starts, by the literals or bytes that matches begin with, or the literals that they
//! contain.
ghost use Rattle.std.specs.Prelude.{◌≡◌, ◌-◌, ◌≤◌, ◌<◌, IfSome, Some, length, slice_get};
ghost use Rattle.hir_core.specs.Tree.{Tree, alternation};
ghost use Rattle.literal_search.specs.Searches.{IsBegunBy, IsNextStart};
ghost use Rattle.meta_regex.specs.FirstBytes.{AreFirstBytes};
ghost use Rattle.meta_regex.specs.Starts.{DescribesStarts, IsInLine};

use crate::first_bytes::{MOST_SCANNED, begins_often, next_of, set_of_first_bytes};
use hir_core::Hir;
use line_trees::laws::a_match_that_reads_no_feed_lies_in_one_line;
use line_trees::reads_feed;
use literal_search::{CandidateFinder, Effort};
use search_core::ByteSet;
use std::alloc::Global;

/// What it costs, in skipped bytes, if no match may start within the bytes that are examined one by one.
const SCARCE: usize = 1024;

/// What literals and first bytes say of where matches start.
#[derive(Drop)]
pub(crate) enum LiteralStarts {
    /// No useful literals are known.
    Unknown,
    /// Each match begins with one of these.
    Begins(CandidateFinder),
    /// Each match contains one of these, and no line feed.
    InLine(CandidateFinder),
    /// Each match begins with one of these bytes, which are common.
    FirstByte(ByteSet),
}

/// Finds the literals with which the spans of these trees begin, if there are useful ones and memory suffices.
fn beginnings(alloc: Global, trees: &[Hir]) -> Option<CandidateFinder>
    ensures { IfSome result (λ f. IsBegunBy f (alternation trees.now)) }
{
    match CandidateFinder::beginnings_of_all(alloc, trees) {
        Ok(finder) => finder,
        Err(_) => None,
    }
}

/// Finds literals that the spans of this tree contain, if these have no line feed, there are useful literals, and memory suffices.
fn inside_lines(alloc: Global, tree: &Hir) -> Option<CandidateFinder>
    ensures { IfSome result (λ f. IsInLine f tree.now) }
{
    if reads_feed(tree) {
        return None;
    }
    match CandidateFinder::inside(alloc, tree) {
        Ok(finder) => finder,
        Err(_) => None,
    }
}

/// [`inside_lines`] of the only tree, if there is one tree.
fn inside_only(alloc: Global, trees: &[Hir]) -> Option<CandidateFinder>
    ensures { IfSome result (λ f. IsInLine f (alternation trees.now)) }
{
    let Some((tree, others)) = trees.split_first() else {
        return None;
    };
    if !others.is_empty() {
        return None;
    }
    let Some(finder) = inside_lines(alloc, tree) else {
        return None;
    };
    Some(finder)
}

/// The bytes with which the spans of these trees begin, if there is no empty span and typical text has many of these bytes.
fn common_first_bytes(trees: &[Hir]) -> Option<ByteSet>
    ensures { IfSome result (λ set. AreFirstBytes set (alternation trees.now)) }
{
    if !begins_often(trees) {
        return None;
    }
    set_of_first_bytes(trees)
}

/// The next offset at which a span may start that begins with one of these bytes, or a later one than `from` before which none starts.
fn next_byte(set: &ByteSet, effort: &mut Effort, haystack: &[u8], from: usize) -> Option<usize>
    requires { from ≤ length haystack.now }
    ensures { (x : Tree) → AreFirstBytes set.now x → IsNextStart x haystack.now from result }
{
    let next = next_of(set, haystack, from);
    match next {
        Some(at) => {
            if MOST_SCANNED <= at.saturating_sub(from) {
                effort.charge(SCARCE);
            }
        }
        None => {}
    }
    next
}

/// The start of the line of an offset, or `from` if that is later.
fn line_start(haystack: &[u8], from: usize, offset: usize) -> usize
    requires { from ≤ length haystack.now }
    ensures from { from ≤ result }
    ensures within { result ≤ length haystack.now }
    ensures before { from < result → result ≤ offset }
    ensures feed { from < result → slice_get haystack.now (result - 1) ≡ Some 10 }
{
    let mut start = offset.min(haystack.len());
    while from < start {
        if haystack[start - 1] == b'\n' {
            return start;
        }
        start -= 1;
    }
    from
}

/// The start of the next line with a literal, or `from` if that is later. The spans of a tree contain a literal each, and no line feed, so
/// none starts before it.
fn next_line(
    finder: &CandidateFinder,
    effort: &mut Effort,
    haystack: &[u8],
    from: usize,
) -> Option<usize>
    requires { from ≤ length haystack.now }
    ensures { (x : Tree) → IsInLine finder.now x → IsNextStart x haystack.now from result }
{
    a_match_that_reads_no_feed_lies_in_one_line();
    let Some(end) = finder.next_end(effort, haystack, from) else {
        return None;
    };
    Some(line_start(haystack, from, end))
}

impl LiteralStarts {
    /// What literals and first bytes say of the spans of these trees. First bytes are only asked for if `short` is true.
    pub(crate) fn of(alloc: Global, trees: &[Hir], short: bool) -> LiteralStarts
        ensures { DescribesStarts result (alternation trees.now) }
    {
        if let Some(finder) = beginnings(alloc, trees) {
            return LiteralStarts::Begins(finder);
        }
        if let Some(finder) = inside_only(alloc, trees) {
            return LiteralStarts::InLine(finder);
        }
        if !short {
            return LiteralStarts::Unknown;
        }
        match common_first_bytes(trees) {
            Some(set) => LiteralStarts::FirstByte(set),
            None => LiteralStarts::Unknown,
        }
    }

    /// The next offset at which a span of the trees may start: none starts between `from` and that offset. If it returns `None`, none starts
    /// at `from` or after it.
    pub(crate) fn next_start(
        &self,
        effort: &mut Effort,
        haystack: &[u8],
        from: usize,
    ) -> Option<usize>
        requires { from ≤ length haystack.now }
        ensures { (x : Tree) → DescribesStarts self.now x → IsNextStart x haystack.now from result }
    {
        match self {
            LiteralStarts::Unknown => Some(from),
            LiteralStarts::Begins(finder) => finder.next_start(effort, haystack, from),
            LiteralStarts::InLine(finder) => next_line(finder, effort, haystack, from),
            LiteralStarts::FirstByte(set) => next_byte(set, effort, haystack, from),
        }
    }
}
