//! The edges of a node, divided at both ends of a range.
ghost use Rattle.std.specs.Prelude.{◌≡◌, ◌≤◌, ◌+◌, ◌++◌, IfOk, OnOk};
ghost use Rattle.thompson_nfa.specs.RangeCovers.{piece, cut_edge, cover_from};

use crate::range_tries::trie_nodes::{Edge, Next};
use hir_core::Utf8Range;
use std::alloc::{AllocError, Global};

/// Adds an edge, unless it has no byte.
fn push_piece(pieces: &mut Vec<Edge>, start: u16, stop: u16, next: Next) -> Result<(), AllocError>
    requires { stop ≤ 256 }
    ensures { OnOk result (pieces.new.items ≡ pieces.old.items ++ piece start stop next) }
{
    if start < stop {
        pieces.push(Edge {
            range: Utf8Range {
                start: start as u8,
                end: (stop - 1) as u8,
            },
            next,
        })?;
    }
    Ok(())
}

/// Adds the gap before an edge and the parts of the edge.
fn push_cut(
    pieces: &mut Vec<Edge>,
    from: u16,
    start: u16,
    stop: u16,
    edge: Edge,
) -> Result<(), AllocError>
    requires { stop ≤ 256 }
    ensures { OnOk result (pieces.new.items ≡ pieces.old.items ++ cut_edge from start stop edge) }
{
    let low = u16::from(edge.range.start);
    let high = u16::from(edge.range.end) + 1;
    push_piece(pieces, from.max(start), low.min(stop), Next::Nothing)?;
    push_piece(pieces, low, high.min(start), edge.next)?;
    push_piece(pieces, low.max(start), high.min(stop), edge.next)?;
    push_piece(pieces, low.max(stop), high, edge.next)
}

/// The edges, divided at both ends of the range and with one that leads to no string for each gap in it.
pub(crate) fn cover(
    alloc: Global,
    edges: &[Edge],
    range: Utf8Range,
) -> Result<Vec<Edge>, AllocError>
    ensures { IfOk result (λ v. v.items ≡ cover_from 0 range.start (range.end + 1) edges.now) }
{
    let start = u16::from(range.start);
    let stop = u16::from(range.end) + 1;
    let mut pieces = Vec::new(alloc);
    let mut from = 0;
    for edge in edges {
        push_cut(&mut pieces, from, start, stop, *edge)?;
        from = u16::from(edge.range.end) + 1;
    }
    push_piece(&mut pieces, from.max(start), stop, Next::Nothing)?;
    Ok(pieces)
}
