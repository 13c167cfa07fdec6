//! Alternations of literals.
ghost use Rattle.std.specs.Prelude.{◌≡◌, true, [], length, IfOk, IfErr};
ghost use Rattle.hir_core.specs.Facts.{count};
ghost use Rattle.hir_core.specs.Tree.{alternation};
ghost use Rattle.thompson_nfa.specs.ByteRoom.{choice_bytes};
ghost use Rattle.thompson_nfa.specs.Compiled.{Makes, TakesBytes, Does};
ghost use Rattle.thompson_nfa.specs.LiteralParts.{is_literal, are_literals, bytes_of_literal};
ghost use Rattle.thompson_nfa.specs.Refusals.{Quits, ExceedsLimit};

mod literal_groups;
mod literal_nodes;
mod literal_states;
mod literal_stems;
mod literal_texts;
mod literal_trie;

use crate::compiling::Fragment;
use crate::literals::literal_trie::LiteralTrie;
use hir_core::{Hir, HirKind};
use nfa_core::{BuildError, Builder};
use std::alloc::Global;

fn is_literal(x: &Hir) -> bool
    ensures { result ≡ is_literal x.now }
{
    match x.kind() {
        HirKind::Literal(_) => true,
        _ => false,
    }
}

/// Whether there are two parts or more, and all are literals.
pub(crate) fn all_literals(subs: &[Hir]) -> bool
    ensures { result ≡ are_literals subs.now }
{
    if subs.len() < 2 {
        return false;
    }
    for sub in subs {
        if !is_literal(sub) {
            return false;
        }
    }
    true
}

/// The bytes of a literal.
fn bytes_of_literal(x: &Hir) -> &[u8]
    ensures { result.now ≡ bytes_of_literal x.now }
{
    match x.kind() {
        HirKind::Literal(bytes) => bytes,
        _ => &[],
    }
}

fn empty_trie(alloc: Global, reverse: bool) -> LiteralTrie
    ensures { result ≡ record { reverse = reverse; strings = [] } }
{
    if reverse {
        LiteralTrie::reverse(alloc)
    } else {
        LiteralTrie::forward(alloc)
    }
}

/// A fragment for one of the literals, an earlier one preferred, by a trie of them.
pub(crate) fn compile_literals(
    builder: &mut Builder,
    alloc: Global,
    subs: &[Hir],
) -> Result<Fragment, BuildError>
    requires { are_literals subs.now ≡ true }
    ensures made { IfOk result (λ f. Makes builder.old builder.new f.start f.end (count (alternation subs.now))) }
    ensures denotes { IfOk result (λ f. Does builder.old builder.new f.start f.end (alternation subs.now)) }
    ensures weighs { IfOk result (λ f. TakesBytes builder.old builder.new f.end 0 (choice_bytes (alternation subs.now))) }
    ensures passed { IfErr result (λ e. ExceedsLimit builder.old (choice_bytes (alternation subs.now)) e) }
    ensures groups { IfOk result (λ _. builder.new.groups ≡ builder.old.groups) }
    ensures refused { IfErr result (λ e. Quits builder.old builder.new (count (alternation subs.now)) e) }
{
    let mut trie = empty_trie(alloc, builder.get_reverse());
    for sub in subs {
        trie.add(alloc, bytes_of_literal(sub))?;
    }
    let all = trie.compile(builder, alloc)?;
    Ok(all)
}
