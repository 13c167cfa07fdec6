//! Classes as sequences of byte ranges, compiled one after the other to states that are shared.
ghost use Rattle.std.specs.Prelude.{◌≡◌, ◌<◌, ◌≤◌, ◌+◌, ◌*◌, ◌++◌, [], ◌∷◌, ℕ, List, length, map, drop, IfOk, IfErr, IsTrue};
ghost use Rattle.hir_core.specs.Sequences.{bytes_of};
ghost use Rattle.nfa_core.specs.BuilderStates.{Assembly, sparse_draft};
ghost use Rattle.nfa_core.specs.Transitions.{range_of};
ghost use Rattle.nfa_core.specs.declared.build_error.BuildError.TheVariants.{NoMemory};
ghost use Rattle.thompson_nfa.specs.Added.{AddsDraft};
ghost use Rattle.thompson_nfa.specs.Compiled.{Makes, Weighs, Does, sum_of_bytes};
ghost use Rattle.thompson_nfa.specs.Refusals.{Quits, Stays, ExceedsLimit};
ghost use Rattle.thompson_nfa.specs.Shared.{read_tree};
ghost use Rattle.thompson_nfa.specs.Utf8Compiles.{IsCompiling};
ghost use Rattle.hir_core.specs.Tree.{alternation};
ghost use Rattle.thompson_nfa.specs.RangeTries.{IsBefore};
ghost use Rattle.thompson_nfa.specs.Utf8Stacks.{fresh, path_of, RisesIn, StagesRise, AreBytes, ComesAfter, open_bytes, left_bytes};
ghost use Rattle.thompson_nfa.specs.Utf8Stacks.{Keeps, Compiles, MakesTop, Pops, PopsUntil, Turns, PartsAt};

use crate::class_fragments::utf8_state::{Utf8Node, Utf8State};
use crate::compiling::Fragment;
use crate::drafts::add_empty;
use hir_core::Utf8Range;
use nfa_core::{BuildError, Builder, Transition};
use search_core::StateID;
use std::alloc::Global;

/// Adds a state with these transitions. It can't be led on.
#[tactic(auto, using(crate::proofs::Classes::StackLemmas::rises_ascends, crate::proofs::Classes::StackLemmas::few_bytes, crate::proofs::Steps::StepLemmas::added_of, crate::proofs::Steps::StepLemmas::add_refused))]
fn add_state(builder: &mut Builder, trans: Vec<Transition>) -> Result<StateID, BuildError>
    requires { RisesIn 0 (map range_of trans.items) }
    ensures added { IfOk result (λ id. AddsDraft builder.old builder.new id (sparse_draft (map range_of trans.items)) builder.old.groups) }
    ensures refused { IfErr result (λ e. Stays builder.old builder.new 1 2072 e) }
    ensures passed { IfErr result (λ e. ExceedsLimit builder.old (24 + 8 * length (map range_of trans.items)) e) }
{
    let id = builder.add_sparse(trans)?;
    Ok(id)
}

/// A state with these transitions: one that was made before, if it is kept, or a new one.
fn compile(
    builder: &mut Builder,
    state: &mut Utf8State,
    trans: Vec<Transition>,
) -> Result<StateID, BuildError>
    requires rising { RisesIn 0 (map range_of trans.items) }
    requires keeps { Keeps builder.old state.old.end state.old.compiled }
    ensures compiled { IfOk result (λ id. Compiles builder.old builder.new state.old.end (map range_of trans.items) id) }
    ensures keeps { IfOk result (λ _. Keeps builder.new state.old.end state.new.compiled) }
    ensures nodes { state.new.nodes.items ≡ state.old.nodes.items }
    ensures end { state.new.end ≡ state.old.end }
    ensures refused { IfErr result (λ e. Stays builder.old builder.new 1 2072 e) }
    ensures passed { IfErr result (λ e. ExceedsLimit builder.old (24 + 8 * length (map range_of trans.items)) e) }
{
    let hash = state.compiled.hash(&trans);
    if let Some(id) = state.compiled.get(&trans, hash) {
        return Ok(id);
    }
    let key = trans.clone()?;
    let id = add_state(builder, trans)?;
    state.compiled.set(key, hash, id);
    Ok(id)
}

/// Makes the state of the path's top node, whose last range leads to the next state.
#[tactic(auto, using(crate::proofs::Classes::StackLemmas::top_rises, crate::proofs::Classes::StackLemmas::rest_rises, crate::proofs::Classes::StackLemmas::top_made))]
fn compile_top(
    builder: &mut Builder,
    state: &mut Utf8State,
    next: StateID,
) -> Result<StateID, BuildError>
    requires some { 0 < length state.old.nodes.items }
    requires rising { StagesRise state.old.nodes.items }
    requires keeps { Keeps builder.old state.old.end state.old.compiled }
    ensures top { IfOk result (λ id. MakesTop builder.old builder.new state.old.end state.old.nodes.items state.new.nodes.items next id) }
    ensures rising { IfOk result (λ _. StagesRise state.new.nodes.items) }
    ensures keeps { IfOk result (λ _. Keeps builder.new state.old.end state.new.compiled) }
    ensures end { state.new.end ≡ state.old.end }
    ensures refused { IfErr result (λ e. Stays builder.old builder.new 1 2072 e) }
    ensures passed { IfErr result (λ e. ExceedsLimit builder.old (open_bytes state.old.nodes.items) e) }
{
    let Some(node) = state.nodes.pop() else {
        // Not reached: there is a node.
        return Ok(next);
    };
    let trans = node.freeze(next)?;
    let id = compile(builder, state, trans)?;
    Ok(id)
}

/// Makes the states of the path's nodes from the top down to index `from`, and returns the state to which the
/// last range of the node below leads.
fn compile_from(
    builder: &mut Builder,
    state: &mut Utf8State,
    from: usize,
) -> Result<StateID, BuildError>
    requires below { from ≤ length state.old.nodes.items }
    requires rising { StagesRise state.old.nodes.items }
    requires keeps { Keeps builder.old state.old.end state.old.compiled }
    ensures pops { IfOk result (λ next. Pops state.old.end builder.old state.old.nodes.items builder.new state.new.nodes.items next) }
    ensures left { IfOk result (λ _. length state.new.nodes.items ≡ from) }
    ensures rising { IfOk result (λ _. StagesRise state.new.nodes.items) }
    ensures keeps { IfOk result (λ _. Keeps builder.new state.old.end state.new.compiled) }
    ensures end { state.new.end ≡ state.old.end }
    ensures refused { IfErr result (λ e. PopsUntil state.old.end builder.old builder.new state.old.nodes.items e) }
    ensures passed { IfErr result (λ e. ExceedsLimit builder.old (open_bytes state.old.nodes.items) e) }
{
    let mut next = state.end;
    for _count in from..state.nodes.len() {
        next = compile_top(builder, state, next)?;
    }
    Ok(next)
}

/// Makes the states of the nodes above index `from`. Then lets the last range of the node at that index lead
/// on, and adds the new range after it.
#[tactic(auto, using(crate::proofs::Classes::StackLemmas::turned, crate::proofs::Classes::StackLemmas::one_shorter))]
fn turn(
    builder: &mut Builder,
    state: &mut Utf8State,
    from: usize,
    range: Utf8Range,
) -> Result<(), BuildError>
    requires below { from < length state.old.nodes.items }
    requires rising { StagesRise state.old.nodes.items }
    requires keeps { Keeps builder.old state.old.end state.old.compiled }
    ensures turns { IfOk result (λ _. Turns state.old.end builder.old builder.new state.old.nodes.items
        state.new.nodes.items (bytes_of range) from) }
    ensures keeps { IfOk result (λ _. Keeps builder.new state.old.end state.new.compiled) }
    ensures end { state.new.end ≡ state.old.end }
    ensures refused { IfErr result (λ e. PopsUntil state.old.end builder.old builder.new state.old.nodes.items e) }
    ensures passed { IfErr result (λ e. ExceedsLimit builder.old (open_bytes state.old.nodes.items) e) }
{
    let next = compile_from(builder, state, from + 1)?;
    let Some(mut node) = state.nodes.pop() else {
        // Not reached: the node at index `from` is left.
        return Ok(());
    };
    node.advance(next, range)?;
    state.nodes.push(node)?;
    Ok(())
}

/// Adds a node on top of the path for each of the ranges from index `from` on.
fn push_nodes(
    alloc: Global,
    state: &mut Utf8State,
    ranges: &[Utf8Range],
    from: usize,
) -> Result<(), BuildError>
    ensures nodes { IfOk result (λ _. state.new.nodes.items ≡ state.old.nodes.items ++ map fresh (drop from (map bytes_of ranges.now))) }
    ensures memory { IfErr result (λ e. e ≡ NoMemory) }
    ensures compiled { state.new.compiled ≡ state.old.compiled }
    ensures end { state.new.end ≡ state.old.end }
{
    for i in from..ranges.len() {
        state.nodes.push(Utf8Node::new(alloc, ranges[i]))?;
    }
    Ok(())
}

/// The first index at which the ranges aren't those of the path.
fn first_difference(state: &Utf8State, ranges: &[Utf8Range]) -> usize
    requires some { 0 < length state.now.nodes.items }
    requires rising { StagesRise state.now.nodes.items }
    requires after { IsBefore (path_of state.now.nodes.items) (map bytes_of ranges.now) }
    ensures parts { PartsAt (path_of state.now.nodes.items) (map bytes_of ranges.now) result }
    ensures below { result < length state.now.nodes.items }
    ensures inside { result < length ranges.now }
{
    for i in 0..state.nodes.len() {
        if !state.nodes[i].ends_in(ranges[i]) {
            return i;
        }
    }
    // Not reached: the sequence leaves the path somewhere.
    0
}

/// Begins a class: adds the state that is its end, to which all its sequences lead.
///
/// As `regex_automata::nfa::thompson::compiler::Utf8Compiler::new`.
#[tactic(auto, using(crate::proofs::Classes::PathEndLemmas::compile_begun, crate::proofs::Classes::SequenceBytes::begun_weighs, crate::proofs::Steps::ProgressLemmas::first_quits))]
pub(crate) fn begin(builder: &mut Builder, state: &mut Utf8State) -> Result<(), BuildError>
    ensures begun { IfOk result (λ _. IsCompiling builder.old builder.new state.new.end state.new.compiled state.new.nodes.items []) }
    ensures weighs { IfOk result (λ _. sum_of_bytes builder.new + left_bytes state.new.nodes.items ≤ sum_of_bytes builder.old + 48) }
    ensures refused { IfErr result (λ e. Quits builder.old builder.new 1 e) }
    ensures passed { IfErr result (λ e. ExceedsLimit builder.old 24 e) }
{
    state.compiled.clear()?;
    state.nodes.clear();
    let end = add_empty(builder)?;
    state.end = end;
    Ok(())
}

/// Adds a sequence after those that were added. At the first range in which it differs from the last one, its
/// range lies above the last one's.
///
/// As `regex_automata::nfa::thompson::compiler::Utf8Compiler::add`.
pub(crate) fn add(
    builder: &mut Builder,
    alloc: Global,
    state: &mut Utf8State,
    ranges: &[Utf8Range],
) -> Result<(), BuildError>
    requires some { 1 ≤ length ranges.now }
    requires few { length ranges.now ≤ 4 }
    requires bytes { AreBytes (map bytes_of ranges.now) }
    requires after { ComesAfter (path_of state.old.nodes.items) (map bytes_of ranges.now) }
    requires rising { StagesRise state.old.nodes.items }
    requires keeps { Keeps builder.old state.old.end state.old.compiled }
    ensures added { IfOk result (λ _. (old : Assembly) (qs : List (List (ℕ × ℕ))) →
        IsCompiling old builder.old state.old.end state.old.compiled state.old.nodes.items qs →
        IsCompiling old builder.new state.new.end state.new.compiled state.new.nodes.items (qs ++ map bytes_of ranges.now ∷ [])) }
    ensures weighs { IfOk result (λ _. sum_of_bytes builder.new + left_bytes state.new.nodes.items ≤
        sum_of_bytes builder.old + left_bytes state.old.nodes.items + (24 * length (map bytes_of ranges.now) + 8)) }
    ensures refused { IfErr result (λ e. (old : Assembly) (qs : List (List (ℕ × ℕ))) →
        IsCompiling old builder.old state.old.end state.old.compiled state.old.nodes.items qs →
        Quits old builder.new (2 + 4 * length qs) e) }
    ensures passed { IfErr result (λ e. ExceedsLimit builder.old (left_bytes state.old.nodes.items) e) }
{
    if state.nodes.is_empty() {
        push_nodes(alloc, state, ranges, 0)?;
        return Ok(());
    }
    let from = first_difference(state, ranges);
    turn(builder, state, from, ranges[from])?;
    push_nodes(alloc, state, ranges, from + 1)?;
    Ok(())
}

/// Makes the states that aren't made yet, and returns the fragment of all sequences.
///
/// As `regex_automata::nfa::thompson::compiler::Utf8Compiler::finish`.
pub(crate) fn finish(
    builder: &mut Builder,
    alloc: Global,
    state: &mut Utf8State,
) -> Result<Fragment, BuildError>
    requires rising { StagesRise state.old.nodes.items }
    requires keeps { Keeps builder.old state.old.end state.old.compiled }
    ensures closed { IfOk result (λ f. (old : Assembly) (qs : List (List (ℕ × ℕ))) →
        IsCompiling old builder.old state.old.end state.old.compiled state.old.nodes.items qs →
        Makes old builder.new f.start f.end (2 + 4 * length qs) ×
        Does old builder.new f.start f.end (alternation (map (read_tree old.reverse) qs)) × (builder.new.groups ≡ old.groups)) }
    ensures weighs { IfOk result (λ _. Weighs builder.old builder.new (left_bytes state.old.nodes.items)) }
    ensures refused { IfErr result (λ e. (old : Assembly) (qs : List (List (ℕ × ℕ))) →
        IsCompiling old builder.old state.old.end state.old.compiled state.old.nodes.items qs →
        Quits old builder.new (2 + 4 * length qs) e) }
    ensures passed { IfErr result (λ e. ExceedsLimit builder.old (left_bytes state.old.nodes.items) e) }
{
    let end = state.end;
    if state.nodes.is_empty() {
        let start = compile(builder, state, Vec::new(alloc))?;
        return Ok(Fragment { start, end });
    }
    let start = compile_from(builder, state, 0)?;
    Ok(Fragment { start, end })
}
