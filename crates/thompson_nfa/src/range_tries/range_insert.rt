//! Insertion into a trie of ranges. It makes new nodes along the path of the ranges, and changes none.
ghost use Rattle.std.specs.Prelude.{◌≡◌, ◌≤◌, ◌+◌, ◌↔◌, IfOk, IsTrue, length, map};
ghost use Rattle.hir_core.specs.Sequences.{bytes_of};
ghost use Rattle.thompson_nfa.specs.RangeTries.{AreRanges, IsApart, IsWith};
ghost use Rattle.thompson_nfa.specs.TrieNodes.{following, IsInside, IsLater};
ghost use Rattle.thompson_nfa.specs.TrieSteps.{IsCover, LiesWithin};

use crate::range_tries::range_cover::cover;
use crate::range_tries::trie_nodes::{Edge, Next, Nodes};
use hir_core::Utf8Range;
use std::alloc::{AllocError, Global};

/// The edges of what follows, divided at both ends of the range, with one for each gap in it.
fn pieces(
    nodes: &Nodes,
    alloc: Global,
    next: Next,
    range: Utf8Range,
) -> Result<Vec<Edge>, AllocError>
    requires inside { IsInside (length nodes.now) next }
    requires ordered { range.start ≤ range.end }
    ensures { IfOk result (λ v. IsCover nodes.now next range.start (range.end + 1) v.items) }
{
    match next {
        Next::Nothing => cover(alloc, &[], range),
        Next::End => cover(alloc, &[], range),
        Next::Node(number) => cover(alloc, nodes.edges(number), range),
    }
}

/// Whether the edge lies in the range.
fn is_within(edge: &Edge, range: &Utf8Range) -> bool
    ensures { IsTrue result ↔ LiesWithin range.now.start (range.now.end + 1) edge.now }
{
    range.start <= edge.range.start && edge.range.end <= range.end
}

/// Returns what emits the strings of the ranges in addition to those of `next`.
pub(crate) fn insert_below(
    nodes: &mut Nodes,
    alloc: Global,
    next: Next,
    ranges: &[Utf8Range],
) -> Result<Next, AllocError>
    requires inside { IsInside (length nodes.old) next }
    requires ordered { AreRanges (map bytes_of ranges.now) }
    requires apart { IsApart (following nodes.old next) (map bytes_of ranges.now) }
    ensures later { IsLater nodes.old nodes.new }
    ensures inside { IfOk result (λ n. IsInside (length nodes.new) n) }
    ensures more { IfOk result (λ n. IsWith (following nodes.old next) (map bytes_of ranges.now) (following nodes.new n)) }
{
    let Some((first, rest)) = ranges.split_first() else {
        return Ok(Next::End);
    };
    let pieces = pieces(nodes, alloc, next, *first)?;
    let mut edges = Vec::with_capacity(alloc, pieces.len())?;
    for piece in &pieces {
        let next = if is_within(piece, first) {
            insert_below(nodes, alloc, piece.next, rest)?
        } else {
            piece.next
        };
        edges.push(Edge {
            range: piece.range,
            next,
        })?;
    }
    nodes.push(edges)
}
