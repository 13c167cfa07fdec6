//! Copies of the nodes of a trie of ranges: those that can be reached from its root, and no others.
ghost use Rattle.std.specs.Prelude.{◌≡◌, ◌≤◌, length, map, IfOk, OnErr};
ghost use Rattle.thompson_nfa.specs.NodeCopies.{AreCopies, AreNone};
ghost use Rattle.thompson_nfa.specs.TrieNodes.{following, IsInside, IsLater};

use crate::range_tries::trie_nodes::{Edge, Next, Nodes};
use std::alloc::{AllocError, Global};

/// Returns a list of `len` entries, one for each node: none has a copy.
fn no_copies(alloc: Global, len: usize) -> Result<Vec<Next>, AllocError>
    ensures { IfOk result (λ v. AreNone len v.items) }
{
    let mut names = Vec::new(alloc);
    for _index in 0..len {
        names.push(Next::Nothing)?;
    }
    Ok(names)
}

/// Copies what follows an edge, unless it has a copy. `names` has the copy of each node that has one.
fn copy_below(
    nodes: &Nodes,
    alloc: Global,
    next: Next,
    copy: &mut Nodes,
    names: &mut Vec<Next>,
) -> Result<Next, AllocError>
    requires inside { IsInside (length nodes.now) next }
    requires copies { AreCopies nodes.now copy.old names.old.items }
    ensures later { IsLater copy.old copy.new }
    ensures copies { IfOk result (λ _. AreCopies nodes.now copy.new names.new.items) }
    ensures inside { IfOk result (λ n. IsInside (length copy.new) n) }
    ensures same { IfOk result (λ n. following copy.new n ≡ following nodes.now next) }
{
    let Next::Node(number) = next else {
        return Ok(next);
    };
    if let Next::Node(made) = names[number] {
        return Ok(Next::Node(made));
    }
    let old = nodes.edges(number);
    let mut edges = Vec::with_capacity(alloc, old.len())?;
    for edge in old {
        let next = copy_below(nodes, alloc, edge.next, copy, names)?;
        edges.push(Edge {
            range: edge.range,
            next,
        })?;
    }
    let made = copy.push(edges)?;
    names[number] = made;
    Ok(made)
}

/// Drops all nodes but those that follow the edge, and returns what follows it then.
pub(crate) fn keep_below(nodes: &mut Nodes, alloc: Global, next: Next) -> Result<Next, AllocError>
    requires { IsInside (length nodes.old) next }
    ensures inside { IfOk result (λ n. IsInside (length nodes.new) n) }
    ensures same { IfOk result (λ n. following nodes.new n ≡ following nodes.old next) }
    ensures err { OnErr result (nodes.new ≡ nodes.old) }
{
    let mut copy = Nodes::new(alloc);
    let mut names = no_copies(alloc, nodes.len())?;
    let kept = copy_below(nodes, alloc, next, &mut copy, &mut names)?;
    *nodes = copy;
    Ok(kept)
}
