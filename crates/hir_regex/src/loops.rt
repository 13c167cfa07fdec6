//! The test for unbounded repetitions whose body may be empty.
ghost use Rattle.std.specs.Prelude.{◌≡◌, ◌↔◌, All, IsTrue};
ghost use Rattle.hir_core.specs.Facts.{LoopsRead};
ghost use Rattle.hir_core.specs.Tree.{concat, alternation};
ghost use Rattle.thompson_nfa.specs.Compiled.{is_above_zero};
ghost use Rattle.hir_regex.specs.Loops.{loops_read, first_empty_loop};

use hir_core::{Hir, HirKind};

/// The number of the first pattern with an unbounded repetition whose body may be empty.
pub fn first_empty_loop(patterns: &[Hir]) -> Option<usize>
    ensures { result ≡ first_empty_loop patterns.now }
{
    patterns.iter().position(|x| !loops_read(x))
}

/// Whether the body of every unbounded repetition in these trees consumes at least one byte, as the laws on preferred matches
/// require ([`headline`](crate::headline)).
pub fn all_loops_read(trees: &[Hir]) -> bool
    ensures { IsTrue result ↔ All LoopsRead trees.now }
{
    all_read(trees)
}

fn is_above_zero(len: Option<usize>) -> bool
    ensures { result ≡ is_above_zero len }
{
    match len {
        None => false,
        Some(n) => n > 0,
    }
}

/// Whether the body of every unbounded repetition in the tree consumes at least one byte.
#[cycle(loops_read)]
fn loops_read(x: &Hir) -> bool
    ensures { result ≡ loops_read x.now }
{
    match x.kind() {
        HirKind::Empty
        | HirKind::Literal(_)
        | HirKind::Bytes(_)
        | HirKind::Chars(_)
        | HirKind::Look(_) => true,
        HirKind::Repetition { max, sub, .. } => match max {
            None => is_above_zero(sub.properties().minimum_len()) && loops_read(sub),
            Some(_) => loops_read(sub),
        },
        HirKind::Capture { sub, .. } => loops_read(sub),
        HirKind::Concat(subs) => all_read(subs),
        HirKind::Alternation(subs) => all_read(subs),
    }
}

#[cycle(loops_read)]
fn all_read(subs: &[Hir]) -> bool
    ensures concat { result ≡ loops_read (concat subs.now) }
    ensures alternation { result ≡ loops_read (alternation subs.now) }
{
    for sub in subs {
        if !loops_read(sub) {
            return false;
        }
    }
    true
}
