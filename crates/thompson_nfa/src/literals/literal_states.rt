//! The states of a trie's nodes.
ghost use Rattle.std.specs.Prelude.{◌≡◌, ◌≤◌, ◌<◌, ◌+◌, ◌*◌, ◌++◌, [], ◌∷◌, length, map, All, IfOk, IfErr, MatchResult};
ghost use Rattle.nfa_core.specs.BuilderStates.{sparse_draft, union_draft};
ghost use Rattle.nfa_core.specs.Transitions.{range_of};
ghost use Rattle.thompson_nfa.specs.Added.{AddsDraft};
ghost use Rattle.thompson_nfa.specs.LiteralGroups.{Ascends, LeadWithin};
ghost use Rattle.thompson_nfa.specs.LiteralStates.{edge_ranges, AddsItem, AddsNode};
ghost use Rattle.thompson_nfa.specs.LiteralTries.{edges_in, chunks_in, matches_in, AreChunks};
ghost use Rattle.thompson_nfa.specs.Refusals.{Stays, Quits, ExceedsLimit};

use crate::literals::literal_groups::Edge;
use nfa_core::{BuildError, Builder, Transition};
use search_core::StateID;
use std::alloc::{AllocError, Global};

/// A transition by the byte of each edge, to the state of the node to which it leads.
fn transitions(
    alloc: Global,
    edges: &[Edge],
    names: &[StateID],
) -> Result<Vec<Transition>, AllocError>
    requires { LeadWithin 0 (length names.now) edges.now }
    ensures { IfOk result (λ v. map range_of v.items ≡ edge_ranges names.now edges.now) }
{
    let mut all = Vec::new(alloc);
    for edge in edges {
        all.push(Transition {
            start: edge.byte,
            end: edge.byte,
            next: names[edge.next],
        })?;
    }
    Ok(all)
}

/// Adds a state that leads on by the bytes of the edges.
fn add_chunk(
    builder: &mut Builder,
    alloc: Global,
    edges: &[Edge],
    names: &[StateID],
) -> Result<StateID, BuildError>
    requires inside { LeadWithin 0 (length names.now) edges.now }
    requires ascending { Ascends 0 edges.now 256 }
    ensures added { IfOk result (λ id. AddsDraft builder.old builder.new id
        (sparse_draft (edge_ranges names.now edges.now)) builder.old.groups) }
    ensures refused { IfErr result (λ e. Stays builder.old builder.new 1 (24 + 8 * length edges.now) e) }
{
    let all = transitions(alloc, edges, names)?;
    let id = builder.add_sparse(all)?;
    Ok(id)
}

/// Adds a state for the item, unless it is a match, which is the common end.
fn add_item(
    builder: &mut Builder,
    alloc: Global,
    item: &[Edge],
    names: &[StateID],
    end: StateID,
) -> Result<StateID, BuildError>
    requires inside { LeadWithin 0 (length names.now) item.now }
    requires ascending { Ascends 0 item.now 256 }
    ensures added { IfOk result (λ id. AddsItem builder.old builder.new names.now end item.now id) }
    ensures refused { IfErr result (λ e. (1 ≤ length item.now) × Stays builder.old builder.new 1 (24 + 8 * length item.now) e) }
{
    if item.is_empty() {
        return Ok(end);
    }
    let id = add_chunk(builder, alloc, item, names)?;
    Ok(id)
}

/// Adds a state that leads to each of these, the preferred first.
#[tactic(auto, using(crate::proofs::Steps::StepLemmas::added_of, crate::proofs::Steps::StepLemmas::add_refused))]
fn add_ways(builder: &mut Builder, ways: Vec<StateID>) -> Result<StateID, BuildError>
    ensures { MatchResult result (λ id. AddsDraft builder.old builder.new id (union_draft ways.items) builder.old.groups)
        (λ e. Stays builder.old builder.new 1 (24 + 4 * length ways.items) e) }
{
    builder.add_union(ways)
}

fn push_way(ways: &mut Vec<StateID>, id: StateID) -> Result<(), AllocError>
    ensures { IfOk result (λ _. ways.new.items ≡ ways.old.items ++ id ∷ []) }
{
    ways.push(id)?;
    Ok(())
}

/// Adds the states of a node: one for each item that is no match, and a union of more items than one.
pub(crate) fn add_node(
    builder: &mut Builder,
    alloc: Global,
    items: &[Vec<Edge>],
    names: &[StateID],
    end: StateID,
) -> Result<StateID, BuildError>
    requires end { end < length builder.old.drafts }
    requires names { All (λ q. q < length builder.old.drafts) names.now }
    requires chunks { AreChunks 0 (length names.now) (map (λ x. x.items) items.now) }
    requires some { 1 ≤ length items.now }
    requires few { length items.now ≤ 2 * chunks_in (map (λ x. x.items) items.now) + 1 }
    requires parted { length items.now ≤ 2 * matches_in (map (λ x. x.items) items.now) + 1 }
    ensures added { IfOk result (λ id. AddsNode builder.old builder.new names.now end (map (λ x. x.items) items.now) id) }
    ensures refused { IfErr result (λ e. Quits builder.old builder.new (2 * edges_in (map (λ x. x.items) items.now)) e) }
    ensures passed { IfErr result (λ e. ExceedsLimit builder.old
        (32 * edges_in (map (λ x. x.items) items.now) + 36 * matches_in (map (λ x. x.items) items.now)) e) }
{
    let mut ways = Vec::new(alloc);
    for item in items {
        let id = add_item(builder, alloc, item, names, end)?;
        push_way(&mut ways, id)?;
    }
    if ways.len() == 1 {
        return Ok(ways[0]);
    }
    let id = add_ways(builder, ways)?;
    Ok(id)
}
