//! The sequences that a trie of ranges emits, as a list.
ghost use Rattle.std.specs.Prelude.{◌≡◌, ◌++◌, ◌∷◌, [], IfOk, IfErr, OnOk, map, length};
ghost use Rattle.thompson_nfa.specs.RangeCalls.{CallsAll, CallsUpTo};
ghost use Rattle.hir_core.specs.Sequences.{bytes_of};
ghost use Rattle.thompson_nfa.specs.TrieNodes.{following, IsInside};
ghost use Rattle.thompson_nfa.specs.RangeWalks.{paths_of, path_then};

use crate::range_tries::trie_nodes::{Edge, Next, Nodes};
use hir_core::Utf8Range;
use std::alloc::{AllocError, Global};

/// A path with one more range.
fn longer(alloc: Global, path: &[Utf8Range], range: Utf8Range) -> Result<Vec<Utf8Range>, AllocError>
    ensures { IfOk result (λ v. v.items ≡ path.now ++ range ∷ []) }
{
    let mut ranges = Vec::new(alloc);
    ranges.extend_from_slice(path)?;
    ranges.push(range)?;
    Ok(ranges)
}

/// Adds the path with each of the sequences that follow it.
pub(crate) fn emit(
    nodes: &Nodes,
    alloc: Global,
    next: Next,
    path: &[Utf8Range],
    paths: &mut Vec<Vec<Utf8Range>>,
) -> Result<(), AllocError>
    requires { IsInside (length nodes.now) next }
    ensures { OnOk result (paths_of paths.new.items ≡
        paths_of paths.old.items ++ path_then (map bytes_of path.now) (following nodes.now next)) }
{
    match next {
        Next::Nothing => Ok(()),
        Next::End => {
            let mut whole = Vec::new(alloc);
            whole.extend_from_slice(path)?;
            paths.push(whole)?;
            Ok(())
        }
        Next::Node(number) => {
            for edge in nodes.edges(number) {
                let path = longer(alloc, path, edge.range)?;
                emit(nodes, alloc, edge.next, &path, paths)?;
            }
            Ok(())
        }
    }
}

/// Calls the closure for each path, in order, up to its first error.
pub(crate) fn call_each<E, F: FnMut(&[Utf8Range]) -> Result<(), E>>(
    mut f: F,
    paths: &[Vec<Utf8Range>],
) -> Result<(), E>
    requires { F.IsAlwaysCallable f }
    ensures ok { OnOk result (CallsAll F.step f (paths_of paths.now)) }
    ensures err { IfErr result (λ e. CallsUpTo F.step f (paths_of paths.now) e) }
{
    let mut rest = paths;
    while let Some((path, others)) = rest.split_first() {
        match f(path) {
            Ok(()) => rest = others,
            Err(error) => return Err(error),
        }
    }
    Ok(())
}
