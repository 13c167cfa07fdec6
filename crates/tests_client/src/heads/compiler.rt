ghost use Rattle.std.specs.Prelude.{◌≡◌, ◌≤◌, ◌<◌, ℕ, List, All, length, false};
ghost use Rattle.look_core.specs.Terminators.{Terminator};
ghost use Rattle.hir_core.specs.Facts.{count};
ghost use Rattle.hir_core.specs.Tree.{Tree};
ghost use Rattle.nfa_core.specs.Ways.{span};
ghost use Rattle.thompson_nfa.specs.Compilations.{IsPlainText};
ghost use Rattle.thompson_nfa.specs.Room.{room};

use hir_core::Hir;
use nfa_core::{BuildError, NFA};
use std::alloc::Global;
use thompson_nfa::Compiler;
use thompson_nfa::compile_laws::spans_have_edges_that_are_read_as_they_are;
use thompson_nfa::room_laws::plain_compiles_take_what_trees_count;

pub fn automaton_of(alloc: Global, trees: &[Hir]) -> Result<NFA, BuildError> {
    let mut compiler = Compiler::new(alloc);
    compiler.build_many_from_hir(trees)
}

pub fn spans_are_texts()
    ensures { (t : Terminator) (h : List ℕ) (s e : ℕ) → e ≤ length h → All (λ b. b < 256) h → IsPlainText (span t h s e) }
{
    spans_have_edges_that_are_read_as_they_are();
}

pub fn rooms_are_counted()
    ensures { (x : Tree) → room false x ≡ count x }
{
    plain_compiles_take_what_trees_count();
}
