//! Which trees are their own line trees.
ghost use Rattle.std.specs.Prelude.{◌≡◌};
ghost use Rattle.hir_core.specs.Tree.{concat, alternation};
ghost use Rattle.line_search.specs.Edges.{is_edge, asks_for_edge};

use hir_core::{Hir, HirKind};
use look_core::Look;

/// Whether another look stands for this one in a block of lines.
fn is_edge(look: Look) -> bool
    ensures { result ≡ is_edge look }
{
    match look {
        Look::Start | Look::End | Look::EndLF => true,
        _ => false,
    }
}

/// Whether the tree asks for an edge of the haystack or for the end of a line. If it doesn't, it is its own line tree, so one regex of it
/// searches lines and blocks of lines.
#[cycle(asks_for_edge)]
pub(crate) fn asks_for_edge(tree: &Hir) -> bool
    ensures { result ≡ asks_for_edge tree.now }
{
    match tree.kind() {
        HirKind::Empty | HirKind::Literal(_) | HirKind::Bytes(_) | HirKind::Chars(_) => false,
        HirKind::Look(look) => is_edge(*look),
        HirKind::Repetition { sub, .. } => asks_for_edge(sub),
        HirKind::Capture { sub, .. } => asks_for_edge(sub),
        HirKind::Concat(subs) => any_asks_for_edge(subs),
        HirKind::Alternation(subs) => any_asks_for_edge(subs),
    }
}

/// Whether one of the trees does.
#[cycle(asks_for_edge)]
fn any_asks_for_edge(trees: &[Hir]) -> bool
    ensures concat { result ≡ asks_for_edge (concat trees.now) }
    ensures alternation { result ≡ asks_for_edge (alternation trees.now) }
{
    for tree in trees {
        if asks_for_edge(tree) {
            return true;
        }
    }
    false
}
