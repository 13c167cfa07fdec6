// The states that the patterns' starts reach without a byte.
ghost use Rattle.std.specs.Prelude.{◌≡◌, ◌<◌, ◌++◌, length, map, get_or, reverse, true, IfOk, OnOk};
ghost use Rattle.std.specs.Bool.{nat_eq};
ghost use Rattle.nfa_core.specs.Nfa.{fail_node};
ghost use Rattle.nfa_core.specs.NfaParts.{automaton_in};
ghost use Rattle.nfa_core.specs.NfaValue.{IsSound, reached_freely};
ghost use Rattle.nfa_core.specs.Reached.{AreBelow};
ghost use Rattle.nfa_core.specs.States.{node_of};
ghost use Rattle.nfa_core.specs.Walks.{distinct};
ghost use Rattle.nfa_core.specs.Ways.{on_nothing};
ghost use Rattle.search_core.specs.Index.{greatest_index};

use crate::name_sets::sparse_set::SparseSet;
use crate::nfa_parts::Parts;
use crate::stack::{next_fresh, push, push_all};
use crate::state::State;
use crate::steps::Steps;
use search_core::StateID;
use std::alloc::{AllocError, Global};
use std::marker::Brand;
use std::sync::ledger::{Blank, Ledger};

/// The states that the patterns' starts reach without a byte, each once. They are in the order of a depth-first search that takes each look
/// as passed.
pub(crate) fn reached(alloc: Global, parts: &Parts) -> Result<SparseSet, AllocError>
    requires { IsSound (automaton_in parts.now) }
    ensures names { IfOk result (λ set. set.names ≡ distinct nat_eq (reached_freely (automaton_in parts.now))) }
    ensures below { IfOk result (λ set. AreBelow (length parts.now.states.items) set.names) }
{
    walk::<Brand>(alloc, parts, Blank::new(1))
}

/// Finds the states that [`reached`] returns, and counts the steps.
fn walk<L: Ledger>(alloc: Global, parts: &Parts, blank: Blank) -> Result<SparseSet, AllocError>
    requires sound { IsSound (automaton_in parts.now) }
    requires name { blank.name ≡ L.name }
    requires parts { blank.parts ≡ L.parts }
    requires some { 0 < blank.parts }
    ensures names { IfOk result (λ set. set.names ≡ distinct nat_eq (reached_freely (automaton_in parts.now))) }
    ensures below { IfOk result (λ set. AreBelow (length parts.now.states.items) set.names) }
{
    let mut steps = Steps::<L>::new(blank);
    let mut set = SparseSet::new(alloc, parts.states.len())?;
    let mut stack = Vec::new(alloc);
    push_all(&mut stack, &parts.start_pattern)?;
    while let Some(id) = next_fresh(&mut stack, &mut set, &mut steps) {
        push_ways(&mut stack, state_at(&parts.states, id))?;
    }
    Ok(set)
}

/// The state with this number.
#[tactic(auto, using(crate::proofs::ReachedLemmas::node_of_item))]
pub(crate) fn state_at(states: &[State], id: StateID) -> &State
    requires { id < length states.now }
    ensures { node_of result.now ≡ get_or (map node_of states.now) id fail_node }
{
    &states[id.as_usize()]
}

/// Puts the states to which a state leads without a byte on a stack, the preferred one on top.
fn push_ways(stack: &mut Vec<StateID>, state: &State) -> Result<(), AllocError>
    ensures { OnOk result (reverse stack.new.items ≡ on_nothing (node_of state.now) (λ l. true) ++ reverse stack.old.items) }
{
    match state {
        State::Look { next, .. } => push(stack, *next),
        State::Capture { next, .. } => push(stack, *next),
        State::Union { alternates } => push_all(stack, alternates),
        State::BinaryUnion { alt1, alt2 } => {
            push(stack, *alt2)?;
            push(stack, *alt1)
        }
        State::ByteRange { .. } | State::Sparse(_) | State::Dense(_) => Ok(()),
        State::Fail | State::Match { .. } => Ok(()),
    }
}
