//! Trees without looks at words by characters.
ghost use Rattle.std.specs.Prelude.{◌≡◌, IfOk, map};
ghost use Rattle.look_core.specs.Codes.{is_word_unicode};
ghost use Rattle.hir_core.specs.Tree.{look};
ghost use Rattle.line_trees.specs.WordlessTrees.{wordless_tree};

use crate::trees::copied;
use hir_core::{Hir, HirKind};
use look_core::Look;
use std::alloc::{AllocError, Global};

/// Whether the look reads words by characters, whose bytes may be above ASCII.
fn reads_words(look: Look) -> bool
    ensures { result ≡ is_word_unicode look }
{
    match look {
        Look::WordUnicode | Look::WordUnicodeNegate => true,
        Look::WordStartUnicode | Look::WordEndUnicode => true,
        Look::WordStartHalfUnicode | Look::WordEndHalfUnicode => true,
        _ => false,
    }
}

/// The look as a tree, or the empty tree if it reads words by characters.
fn wordless_look(asked: Look) -> Hir
    ensures { result ≡ wordless_tree (look asked) }
{
    if reads_words(asked) {
        Hir::empty()
    } else {
        Hir::look(asked)
    }
}

/// The tree without its looks at words by characters. It matches each span that the tree matches, and may match more
/// ([`a_wordless_tree_matches_as_much`](crate::laws::a_wordless_tree_matches_as_much)). The only error is a failed allocation.
#[cycle(wordless_tree)]
pub fn wordless_tree(alloc: Global, x: &Hir) -> Result<Hir, AllocError>
    ensures { IfOk result (λ y. y ≡ wordless_tree x.now) }
{
    match x.kind() {
        HirKind::Empty | HirKind::Literal(_) | HirKind::Bytes(_) | HirKind::Chars(_) => {
            let y = x.try_clone(alloc)?;
            Ok(y)
        }
        HirKind::Look(look) => Ok(wordless_look(*look)),
        HirKind::Repetition {
            min,
            max,
            greedy,
            sub,
        } => {
            let body = wordless_tree(alloc, sub)?;
            let y = Hir::repetition(alloc, *min, *max, *greedy, body)?;
            Ok(y)
        }
        HirKind::Capture { index, name, sub } => {
            let body = wordless_tree(alloc, sub)?;
            let y = Hir::capture(alloc, *index, copied(alloc, name)?, body)?;
            Ok(y)
        }
        HirKind::Concat(subs) => Ok(Hir::concat(all_wordless_trees(alloc, subs)?)),
        HirKind::Alternation(subs) => Ok(Hir::alternation(all_wordless_trees(alloc, subs)?)),
    }
}

/// These trees without their looks at words by characters, in their order.
#[cycle(wordless_tree)]
pub fn all_wordless_trees(alloc: Global, xs: &[Hir]) -> Result<Vec<Hir>, AllocError>
    ensures { IfOk result (λ ys. ys.items ≡ map wordless_tree xs.now) }
{
    let mut ys = Vec::new(alloc);
    for x in xs {
        ys.push(wordless_tree(alloc, x)?)?;
    }
    Ok(ys)
}
