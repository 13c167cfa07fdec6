ghost use Rattle.std.specs.Prelude.{◌≡◌, ◌+◌, ◌*◌, ◌<◌, ◌≤◌, ℕ, [], ◌∷◌, ◌++◌, drop, length, All, OnOk, IfOk, Some};
ghost use Rattle.std.specs.Bool.{nat_eq};
ghost use Rattle.std.specs.List.{IsDistinct};
ghost use Rattle.search_core.specs.Units.{unit_byte};
ghost use Rattle.determinize_core.specs.Costs.{free_ways};
ghost use Rattle.determinize_core.specs.StepRoom.{AreSetsFor, AreStatesOf};
ghost use Rattle.determinize_core.specs.States.{StateValue};
ghost use Rattle.determinize_core.specs.Starts.{start_of};
ghost use Rattle.determinize_core.specs.Steps.{start_value, step_value};
ghost use Rattle.determinize_core.specs.WalkLists.{walked, units_of};

use crate::next_state::next;
use crate::start::Start;
use crate::start_map::start_of_byte;
use crate::starting::start_state;
use crate::state::State;
use crate::state_builder::StateBuilderEmpty;
use nfa_core::{NFA, NameSet, Sets, SparseSets, Steps};
use search_core::{StateID, Unit};
use search_types::MatchKind;
use std::alloc::{AllocError, Global};
use std::marker::Brand;
use std::sync::ledger::{Blank, Ledger};

/// The sequence of states over bytes, which come in the order in which they are read. The first state is the one in which a search starts
/// from a state of the automaton, with the given byte just before. Then come the state after each byte, and the state after the end of the
/// input.
///
/// Returns an error if an allocation fails. [`walks_list_what_runs_find`](crate::walk_theorem::walks_list_what_runs_find) says what these
/// states list.
pub fn walk(
    alloc: Global,
    nfa: &NFA,
    kind: MatchKind,
    start: StateID,
    look_behind: Option<u8>,
    bytes: &[u8],
) -> Result<Vec<State>, AllocError>
    requires { start < length nfa.now.automaton.states }
    ensures { IfOk result (λ states. states.items ≡ walked nfa.now.automaton nfa.now.terminator kind
        (start_value nfa.now.automaton nfa.now.terminator (start_of nfa.now.terminator look_behind) start) (units_of bytes.now)) }
{
    walk_counted::<Brand>(alloc, nfa, kind, start, look_behind, bytes, Blank::new(1))
}

/// Returns what [`walk`] returns, and counts the steps.
fn walk_counted<L: Ledger>(
    alloc: Global,
    nfa: &NFA,
    kind: MatchKind,
    start: StateID,
    look_behind: Option<u8>,
    bytes: &[u8],
    blank: Blank,
) -> Result<Vec<State>, AllocError>
    requires inside { start < length nfa.now.automaton.states }
    requires name { blank.name ≡ L.name }
    requires parts { blank.parts ≡ L.parts }
    requires some { 0 < blank.parts }
    ensures { IfOk result (λ states. states.items ≡ walked nfa.now.automaton nfa.now.terminator kind
        (start_value nfa.now.automaton nfa.now.terminator (start_of nfa.now.terminator look_behind) start) (units_of bytes.now)) }
{
    nfa.is_sound();
    let mut steps = Steps::<L>::new(blank);
    let mut sets = SparseSets::new(alloc, nfa.states().len())?;
    let states = walk_with(
        alloc,
        nfa,
        kind,
        &mut sets,
        start,
        look_behind,
        bytes,
        &mut steps,
    );
    drop(sets);
    states
}

/// Returns what [`walk`] returns, with the given sets for the states of the automaton, which keep their bounds. It counts the steps, also
/// if it fails: at most those of the start and of one step for each byte and the end.
pub fn walk_with<S: NameSet, L: Ledger>(
    alloc: Global,
    nfa: &NFA,
    kind: MatchKind,
    sets: &mut Sets<S>,
    start: StateID,
    look_behind: Option<u8>,
    bytes: &[u8],
    steps: &mut Steps<L>,
) -> Result<Vec<State>, AllocError>
    requires inside { start < length nfa.now.automaton.states }
    requires bound1 { S.bound sets.old.set1 ≡ length nfa.now.automaton.states }
    requires bound2 { S.bound sets.old.set2 ≡ length nfa.now.automaton.states }
    ensures states { IfOk result (λ states. states.items ≡ walked nfa.now.automaton nfa.now.terminator kind
        (start_value nfa.now.automaton nfa.now.terminator (start_of nfa.now.terminator look_behind) start) (units_of bytes.now)) }
    ensures bound1 { S.bound sets.new.set1 ≡ S.bound sets.old.set1 }
    ensures bound2 { S.bound sets.new.set2 ≡ S.bound sets.old.set2 }
    ensures cost { steps.new ≤ steps.old + (1 + free_ways nfa.now.automaton)
        + (length bytes.now + 1) * (3 * length nfa.now.automaton.states + 2 * free_ways nfa.now.automaton) }
{
    nfa.is_sound();
    let mut stack = Vec::new(alloc);
    let first = first_state(
        alloc,
        nfa,
        start,
        look_behind,
        &mut sets.set1,
        &mut stack,
        steps,
    )?;
    let states = walk_from(alloc, nfa, kind, sets, &mut stack, first, bytes, steps)?;
    Ok(states)
}

/// The state with which a sequence starts.
fn first_state<S: NameSet, L: Ledger>(
    alloc: Global,
    nfa: &NFA,
    start: StateID,
    look_behind: Option<u8>,
    set: &mut S,
    stack: &mut Vec<StateID>,
    steps: &mut Steps<L>,
) -> Result<State, AllocError>
    requires inside { start < length nfa.now.automaton.states }
    requires bound { S.bound set.old ≡ length nfa.now.automaton.states }
    requires empty { stack.old.items ≡ [] }
    ensures value { IfOk result (λ first. first ≡
        start_value nfa.now.automaton nfa.now.terminator (start_of nfa.now.terminator look_behind) start) }
    ensures stack { OnOk result (stack.new.items ≡ []) }
    ensures bound { S.bound set.new ≡ length nfa.now.automaton.states }
    ensures cost { steps.new ≤ steps.old + 1 + free_ways nfa.now.automaton }
{
    let begin = start_behind(nfa, look_behind);
    let empty = StateBuilderEmpty::new(alloc);
    let built = start_state(nfa, begin, start, set, stack, empty, steps)?;
    let first = built.to_state(alloc)?;
    Ok(first)
}

/// The sequence of states over bytes from a state.
fn walk_from<S: NameSet, L: Ledger>(
    alloc: Global,
    nfa: &NFA,
    kind: MatchKind,
    sets: &mut Sets<S>,
    stack: &mut Vec<StateID>,
    first: State,
    bytes: &[u8],
    steps: &mut Steps<L>,
) -> Result<Vec<State>, AllocError>
    requires bound1 { S.bound sets.old.set1 ≡ length nfa.now.automaton.states }
    requires bound2 { S.bound sets.old.set2 ≡ length nfa.now.automaton.states }
    requires below { All (λ q. q < length nfa.now.automaton.states) first.ids }
    requires once { IsDistinct nat_eq first.ids }
    requires empty { stack.old.items ≡ [] }
    ensures states { IfOk result (λ states. states.items ≡ walked nfa.now.automaton nfa.now.terminator kind first (units_of bytes.now)) }
    ensures bound1 { S.bound sets.new.set1 ≡ length nfa.now.automaton.states }
    ensures bound2 { S.bound sets.new.set2 ≡ length nfa.now.automaton.states }
    ensures cost { steps.new ≤ steps.old
        + (length bytes.now + 1) * (3 * length nfa.now.automaton.states + 2 * free_ways nfa.now.automaton) }
{
    let mut states = Vec::new(alloc);
    walk_on(
        alloc,
        nfa,
        kind,
        sets,
        stack,
        &mut states,
        first,
        bytes,
        steps,
    )?;
    Ok(states)
}

/// Appends the sequence of states over bytes from a state to others.
fn walk_on<S: NameSet, L: Ledger>(
    alloc: Global,
    nfa: &NFA,
    kind: MatchKind,
    sets: &mut Sets<S>,
    stack: &mut Vec<StateID>,
    states: &mut Vec<State>,
    first: State,
    bytes: &[u8],
    steps: &mut Steps<L>,
) -> Result<(), AllocError>
    requires bound1 { S.bound sets.old.set1 ≡ length nfa.now.automaton.states }
    requires bound2 { S.bound sets.old.set2 ≡ length nfa.now.automaton.states }
    requires below { All (λ q. q < length nfa.now.automaton.states) first.ids }
    requires once { IsDistinct nat_eq first.ids }
    requires empty { stack.old.items ≡ [] }
    ensures states { OnOk result (states.new.items ≡
        states.old.items ++ walked nfa.now.automaton nfa.now.terminator kind first (units_of bytes.now)) }
    ensures bound1 { S.bound sets.new.set1 ≡ length nfa.now.automaton.states }
    ensures bound2 { S.bound sets.new.set2 ≡ length nfa.now.automaton.states }
    ensures cost { steps.new ≤ steps.old
        + (length bytes.now + 1) * (3 * length nfa.now.automaton.states + 2 * free_ways nfa.now.automaton) }
{
    nfa.is_sound();
    let mut last = first;
    for k in 0..bytes.len() {
        let unit = Unit::u8(bytes[k]);
        let behind = step_on(alloc, nfa, kind, sets, stack, states, last, unit, steps)?;
        last = behind;
    }
    let unit = Unit::eoi(256);
    let end = step_on(alloc, nfa, kind, sets, stack, states, last, unit, steps)?;
    states.push(end)?;
    Ok(())
}

/// Appends a state to others, and returns the state that follows it by a unit.
fn step_on<S: NameSet, L: Ledger>(
    alloc: Global,
    nfa: &NFA,
    kind: MatchKind,
    sets: &mut Sets<S>,
    stack: &mut Vec<StateID>,
    states: &mut Vec<State>,
    last: State,
    unit: Unit,
    steps: &mut Steps<L>,
) -> Result<State, AllocError>
    requires sets { AreSetsFor (length nfa.now.automaton.states) (S.bound sets.old.set1) (S.bound sets.old.set2) }
    requires state { AreStatesOf (length nfa.now.automaton.states) last.ids }
    requires empty { stack.old.items ≡ [] }
    ensures value { IfOk result (λ behind. behind ≡ step_value nfa.now.automaton nfa.now.terminator kind last (unit_byte unit)) }
    ensures states { OnOk result (states.new.items ≡ states.old.items ++ last ∷ []) }
    ensures stack { OnOk result (stack.new.items ≡ []) }
    ensures sets { AreSetsFor (length nfa.now.automaton.states) (S.bound sets.new.set1) (S.bound sets.new.set2) }
    ensures cost { steps.new ≤ steps.old + 3 * length nfa.now.automaton.states + 2 * free_ways nfa.now.automaton }
{
    let behind = state_after(alloc, nfa, kind, sets, stack, &last, unit, steps)?;
    states.push(last)?;
    Ok(behind)
}

/// The state after a unit.
fn state_after<S: NameSet, L: Ledger>(
    alloc: Global,
    nfa: &NFA,
    kind: MatchKind,
    sets: &mut Sets<S>,
    stack: &mut Vec<StateID>,
    state: &State,
    unit: Unit,
    steps: &mut Steps<L>,
) -> Result<State, AllocError>
    requires bound1 { S.bound sets.old.set1 ≡ length nfa.now.automaton.states }
    requires bound2 { S.bound sets.old.set2 ≡ length nfa.now.automaton.states }
    requires below { All (λ q. q < length nfa.now.automaton.states) state.now.ids }
    requires once { IsDistinct nat_eq state.now.ids }
    requires empty { stack.old.items ≡ [] }
    ensures value { IfOk result (λ behind. behind ≡ step_value nfa.now.automaton nfa.now.terminator kind state.now (unit_byte unit)) }
    ensures stack { OnOk result (stack.new.items ≡ []) }
    ensures bound1 { S.bound sets.new.set1 ≡ length nfa.now.automaton.states }
    ensures bound2 { S.bound sets.new.set2 ≡ length nfa.now.automaton.states }
    ensures cost { steps.new ≤ steps.old + 3 * length nfa.now.automaton.states + 2 * free_ways nfa.now.automaton }
{
    let empty = StateBuilderEmpty::new(alloc);
    let built = next(nfa, kind, sets, stack, state, unit, empty, steps)?;
    let behind = built.to_state(alloc)?;
    Ok(behind)
}

/// The start if this byte, or none, comes before the offset.
fn start_behind(nfa: &NFA, look_behind: Option<u8>) -> Start
    ensures { result ≡ start_of nfa.now.terminator look_behind }
{
    match look_behind {
        Some(byte) => start_of_byte(nfa.look_matcher().get_line_terminator(), byte),
        None => Start::Text,
    }
}
