//! One tree for several patterns: the alternation of their parts.
//!
//! Nobody asks which of the patterns a line matches, so one tree is enough. The compiler makes a trie of an alternation whose parts are
//! all literals. Nested alternations are flattened, so that it sees such an alternation wherever there is one.
ghost use Rattle.std.specs.Prelude.{◌≡◌, ◌∷◌, ◌++◌, [], IfOk, OnOk};
ghost use Rattle.hir_core.specs.Tree.{alternation};
ghost use Rattle.line_search.specs.Joined.{has_parts, parts_of, one_or_all, joined};

use hir_core::{Hir, HirKind};
use std::alloc::{AllocError, Global};

/// Whether the tree is an alternation or a capture, so that other trees are its parts.
#[tactic(auto, using(crate::proofs::JoinedLemmas::concat_whole, crate::proofs::JoinedLemmas::alternation_parted))]
fn has_parts(tree: &Hir) -> bool
    ensures { result ≡ has_parts tree.now }
{
    match tree.kind() {
        HirKind::Empty | HirKind::Literal(_) | HirKind::Bytes(_) | HirKind::Chars(_) => false,
        HirKind::Look(_) | HirKind::Repetition { .. } => false,
        HirKind::Capture { .. } => true,
        HirKind::Concat(_) => false,
        HirKind::Alternation(_) => true,
    }
}

/// Appends copies of the parts of a tree.
#[cycle(add_parts)]
fn add_parts(alloc: Global, parts: &mut Vec<Hir>, tree: &Hir) -> Result<(), AllocError>
    ensures { OnOk result (parts.new.items ≡ parts.old.items ++ parts_of tree.now) }
{
    match tree.kind() {
        HirKind::Empty | HirKind::Literal(_) | HirKind::Bytes(_) | HirKind::Chars(_) => {
            add_copy(alloc, parts, tree)
        }
        HirKind::Look(_) | HirKind::Repetition { .. } => add_copy(alloc, parts, tree),
        HirKind::Capture { sub, .. } => add_parts(alloc, parts, sub),
        HirKind::Concat(_) => add_copy(alloc, parts, tree),
        HirKind::Alternation(subs) => add_all_parts(alloc, parts, subs),
    }
}

/// Appends copies of the parts of these trees, in their order.
#[cycle(add_parts)]
fn add_all_parts(alloc: Global, parts: &mut Vec<Hir>, trees: &[Hir]) -> Result<(), AllocError>
    ensures { OnOk result (parts.new.items ≡ parts.old.items ++ parts_of (alternation trees.now)) }
{
    for tree in trees {
        add_parts(alloc, parts, tree)?;
    }
    Ok(())
}

/// Appends a copy of a tree.
fn add_copy(alloc: Global, parts: &mut Vec<Hir>, tree: &Hir) -> Result<(), AllocError>
    ensures { OnOk result (parts.new.items ≡ parts.old.items ++ tree.now ∷ []) }
{
    parts.push(tree.try_clone(alloc)?)?;
    Ok(())
}

/// Appends the parts of a tree. The tree is copied only if it is an alternation or a capture.
fn add(alloc: Global, parts: &mut Vec<Hir>, tree: Hir) -> Result<(), AllocError>
    ensures { OnOk result (parts.new.items ≡ parts.old.items ++ parts_of tree) }
{
    if has_parts(&tree) {
        add_parts(alloc, parts, &tree)?;
        return Ok(());
    }
    parts.push(tree)?;
    Ok(())
}

/// The parts of trees, in their order.
fn parts_of(alloc: Global, trees: Vec<Hir>) -> Result<Vec<Hir>, AllocError>
    ensures { IfOk result (λ parts. parts.items ≡ parts_of (alternation trees.items)) }
{
    let mut parts = Vec::new(alloc);
    for tree in trees {
        add(alloc, &mut parts, tree)?;
    }
    Ok(parts)
}

/// The alternation of the parts. If there is one part, it is that part.
pub(crate) fn one_or_all(mut parts: Vec<Hir>) -> Hir
    ensures { result ≡ one_or_all parts.items }
{
    if parts.len() != 1 {
        return Hir::alternation(parts);
    }
    match parts.pop() {
        Some(part) => part,
        None => Hir::alternation(parts),
    }
}

/// One tree for several. If there is one tree, it is that tree as it is.
pub(crate) fn joined(alloc: Global, trees: Vec<Hir>) -> Result<Hir, AllocError>
    ensures { IfOk result (λ x. x ≡ joined trees.items) }
{
    if trees.len() == 1 {
        return Ok(one_or_all(trees));
    }
    let parts = parts_of(alloc, trees)?;
    Ok(one_or_all(parts))
}
