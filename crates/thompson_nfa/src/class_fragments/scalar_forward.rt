//! Fragments of classes of scalars for automata that read forward: their sequences share states.
ghost use Rattle.std.specs.Prelude.{◌≡◌, ◌≤◌, ◌+◌, ◌*◌, ◌++◌, ◌∷◌, [], ℕ, List, true, false, length, IfOk, IfErr};
ghost use Rattle.hir_core.specs.Facts.{count, is_ascending};
ghost use Rattle.hir_core.specs.BySequences.{sequences_of};
ghost use Rattle.hir_core.specs.Sequences.{ranges_of_sequence, utf8_sequences};
ghost use Rattle.hir_core.specs.Tree.{char_class};
ghost use Rattle.nfa_core.specs.BuilderStates.{Assembly};
ghost use Rattle.thompson_nfa.specs.ByteRoom.{sequence_bytes};
ghost use Rattle.thompson_nfa.specs.Compiled.{Makes, Weighs, Does, sum_of_bytes};
ghost use Rattle.thompson_nfa.specs.Refusals.{Quits, ExceedsLimit};
ghost use Rattle.thompson_nfa.specs.Utf8Stacks.{path_of, StagesRise, AreBytes, ComesAfter, left_bytes, Keeps};
ghost use Rattle.thompson_nfa.specs.Utf8Compiles.{IsCompiling, IsBeingCompiled, CanFollow};

use crate::class_fragments::utf8_compiler::{add, begin, finish};
use crate::class_fragments::utf8_state::Utf8State;
use crate::compiling::Fragment;
use hir_core::{Utf8Sequence, Utf8Sequences};
use nfa_core::{BuildError, Builder};
use std::alloc::Global;

/// Adds one sequence.
fn add_sequence(
    builder: &mut Builder,
    alloc: Global,
    state: &mut Utf8State,
    sequence: &Utf8Sequence,
) -> Result<(), BuildError>
    requires some { 1 ≤ length (ranges_of_sequence sequence.now) }
    requires few { length (ranges_of_sequence sequence.now) ≤ 4 }
    requires bytes { AreBytes (ranges_of_sequence sequence.now) }
    requires after { ComesAfter (path_of state.old.nodes.items) (ranges_of_sequence sequence.now) }
    requires rising { StagesRise state.old.nodes.items }
    requires keeps { Keeps builder.old state.old.end state.old.compiled }
    ensures added { IfOk result (λ _. (old : Assembly) (qs : List (List (ℕ × ℕ))) →
        IsCompiling old builder.old state.old.end state.old.compiled state.old.nodes.items qs →
        IsCompiling old builder.new state.new.end state.new.compiled state.new.nodes.items (qs ++ ranges_of_sequence sequence.now ∷ [])) }
    ensures weighs { IfOk result (λ _. sum_of_bytes builder.new + left_bytes state.new.nodes.items ≤
        sum_of_bytes builder.old + left_bytes state.old.nodes.items + (24 * length (ranges_of_sequence sequence.now) + 8)) }
    ensures refused { IfErr result (λ e. (old : Assembly) (qs : List (List (ℕ × ℕ))) →
        IsCompiling old builder.old state.old.end state.old.compiled state.old.nodes.items qs →
        Quits old builder.new (2 + 4 * length qs) e) }
    ensures passed { IfErr result (λ e. ExceedsLimit builder.old (left_bytes state.old.nodes.items) e) }
{
    add(builder, alloc, state, sequence.as_slice())?;
    Ok(())
}

/// Adds the sequences of the characters from `first` to `last`.
fn add_sequences(
    builder: &mut Builder,
    alloc: Global,
    state: &mut Utf8State,
    first: char,
    last: char,
) -> Result<(), BuildError>
    requires begun { IsBeingCompiled builder.old state.old.end state.old.compiled state.old.nodes.items }
    requires order { CanFollow (path_of state.old.nodes.items) (utf8_sequences first last) }
    ensures added { IfOk result (λ _. (old : Assembly) (qs : List (List (ℕ × ℕ))) →
        IsCompiling old builder.old state.old.end state.old.compiled state.old.nodes.items qs →
        IsCompiling old builder.new state.new.end state.new.compiled state.new.nodes.items (qs ++ utf8_sequences first last)) }
    ensures weighs { IfOk result (λ _. sum_of_bytes builder.new + left_bytes state.new.nodes.items ≤
        sum_of_bytes builder.old + left_bytes state.old.nodes.items + sequence_bytes (utf8_sequences first last)) }
    ensures refused { IfErr result (λ e. (old : Assembly) (qs : List (List (ℕ × ℕ))) →
        IsCompiling old builder.old state.old.end state.old.compiled state.old.nodes.items qs →
        Quits old builder.new (2 + 4 * length (qs ++ utf8_sequences first last)) e) }
    ensures passed { IfErr result (λ e. ExceedsLimit builder.old
        (left_bytes state.old.nodes.items + sequence_bytes (utf8_sequences first last)) e) }
{
    for sequence in Utf8Sequences::new(first, last) {
        add_sequence(builder, alloc, state, &sequence)?;
    }
    Ok(())
}

/// The states of a class of scalars, shared where sequences begin or end alike.
pub(crate) fn compile_scalars_forward(
    builder: &mut Builder,
    alloc: Global,
    state: &mut Utf8State,
    ranges: &[(char, char)],
) -> Result<Fragment, BuildError>
    requires ascending { is_ascending ranges.now ≡ true }
    requires forward { builder.old.reverse ≡ false }
    ensures made { IfOk result (λ f. Makes builder.old builder.new f.start f.end (count (char_class ranges.now))) }
    ensures does { IfOk result (λ f. Does builder.old builder.new f.start f.end (char_class ranges.now)) }
    ensures weighs { IfOk result (λ _. Weighs builder.old builder.new (48 + sequence_bytes (sequences_of ranges.now))) }
    ensures passed { IfErr result (λ e. ExceedsLimit builder.old (48 + sequence_bytes (sequences_of ranges.now)) e) }
    ensures groups { IfOk result (λ _. builder.new.groups ≡ builder.old.groups) }
    ensures refused { IfErr result (λ e. Quits builder.old builder.new (count (char_class ranges.now)) e) }
{
    begin(builder, state)?;
    for range in ranges {
        add_sequences(builder, alloc, state, range.0, range.1)?;
    }
    let whole = finish(builder, alloc, state)?;
    Ok(whole)
}
