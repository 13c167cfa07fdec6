ghost use Rattle.std.specs.Prelude.{◌≡◌, ℕ, ◌+◌, ◌<◌, ◌≤◌, List, [], ◌∷◌, ◌++◌, length, drop, reverse, All, OnOk, IfSome};
ghost use Rattle.std.specs.Bool.{nat_eq};
ghost use Rattle.std.specs.List.{IsDistinct};
ghost use Rattle.look_core.specs.LookSets.{has_look};
ghost use Rattle.nfa_core.specs.Reached.{AreBelow, Meets};
ghost use Rattle.nfa_core.specs.States.{node_of};
ghost use Rattle.nfa_core.specs.Walks.{Visits};
ghost use Rattle.nfa_core.specs.Ways.{on_nothing};
ghost use Rattle.determinize_core.specs.Closing.{AddsLeaves, VisitsLeaves, GoesPast};
ghost use Rattle.determinize_core.specs.Costs.{known_ways};
ghost use Rattle.determinize_core.specs.Steps.{known_steps};

use look_core::LookSet;
use nfa_core::stack::{next_fresh, push, push_all};
use nfa_core::{NFA, NameSet, State, Steps};
use search_core::StateID;
use std::alloc::AllocError;
use std::sync::ledger::Ledger;

/// Puts a state, and all states that it reaches without a byte under the looks that are known to hold, into a set. The state itself comes
/// first, and the order is that of a depth-first search, as in `regex_automata::util::determinize::epsilon_closure`. States that the set
/// held already aren't followed. If an allocation for the stack fails, the call returns an error, and the steps up to there were counted.
pub fn epsilon_closure<S: NameSet, L: Ledger>(
    nfa: &NFA,
    start: StateID,
    look_have: LookSet,
    stack: &mut Vec<StateID>,
    set: &mut S,
    steps: &mut Steps<L>,
) -> Result<(), AllocError>
    requires inside { start < length nfa.now.automaton.states }
    requires bound { S.bound set.old ≡ length nfa.now.automaton.states }
    requires empty { stack.old.items ≡ [] }
    ensures visits { OnOk result (Visits nat_eq (known_steps nfa.now.automaton look_have)
        (start ∷ []) (S.names set.old) (S.names set.new)) }
    ensures stack { OnOk result (stack.new.items ≡ []) }
    ensures bound { S.bound set.new ≡ S.bound set.old }
    ensures grows { (more : List ℕ) × (S.names set.new ≡ S.names set.old ++ more) }
    ensures once { IsDistinct nat_eq (S.names set.new) }
    ensures below { All (λ q. q < length nfa.now.automaton.states) (S.names set.new) }
    ensures cost { steps.new ≤ steps.old + 1 + known_ways nfa.now.automaton look_have (drop (length (S.names set.old)) (S.names set.new)) }
{
    // The numbers of a set fit its bound, which bounds the search.
    let _ = set.len();
    nfa.is_sound();
    push(stack, start)?;
    while let Some(id) = next_fresh(stack, set, steps) {
        follow(nfa, id, look_have, stack, set, steps)?;
    }
    Ok(())
}

/// Continues after a state that was met, with the states to which it leads without a byte under the looks that are known to hold. Puts them
/// on a stack, the preferred one on top. The first states of a union are put into the set at once, up to one that leads on.
fn follow<S: NameSet, L: Ledger>(
    nfa: &NFA,
    id: StateID,
    look_have: LookSet,
    stack: &mut Vec<StateID>,
    set: &mut S,
    steps: &mut Steps<L>,
) -> Result<(), AllocError>
    requires inside { id < length nfa.now.automaton.states }
    requires bound { S.bound set.old ≡ length nfa.now.automaton.states }
    ensures goes { OnOk result (GoesPast nfa.now.automaton look_have id (reverse stack.old.items) (S.names set.old) steps.old
        (reverse stack.new.items) (S.names set.new) steps.new) }
    ensures bound { S.bound set.new ≡ S.bound set.old }
    ensures fits { length (S.names set.new) ≤ S.bound set.new }
    ensures grows { AddsLeaves nfa.now.automaton look_have (S.names set.old) (S.names set.new) }
    ensures once { IsDistinct nat_eq (S.names set.new) }
    ensures below { All (λ q. q < S.bound set.new) (S.names set.new) }
    ensures cost { steps.new ≤ steps.old + length (known_steps nfa.now.automaton look_have id) }
{
    nfa.is_sound();
    let _ = set.len();
    let state = nfa.state(id);
    if let State::Union { alternates } = state {
        let names = alternates.as_slice();
        let met = meet_leaves(nfa, names, set, steps);
        push_all(stack, &names[met..])?;
        return Ok(());
    }
    push_ways(state, look_have, stack)?;
    Ok(())
}

/// Puts the states of a list into a set, up to the first that leads on without a byte. Returns how many these were.
fn meet_leaves<S: NameSet, L: Ledger>(
    nfa: &NFA,
    ids: &[StateID],
    set: &mut S,
    steps: &mut Steps<L>,
) -> usize
    requires below { AreBelow (length nfa.now.automaton.states) ids.now }
    requires bound { S.bound set.old ≡ length nfa.now.automaton.states }
    ensures within { result ≤ length ids.now }
    ensures passes { (looks : ℕ) → VisitsLeaves nfa.now.automaton looks ids.now result (S.names set.old) (S.names set.new) }
    ensures bound { S.bound set.new ≡ S.bound set.old }
    ensures fits { length (S.names set.new) ≤ S.bound set.new }
    ensures once { IsDistinct nat_eq (S.names set.new) }
    ensures all_below { All (λ q. q < S.bound set.new) (S.names set.new) }
    ensures cost { steps.new ≡ steps.old + result }
{
    for k in 0..ids.len() {
        let id = ids[k];
        if nfa.state(id).is_epsilon() {
            let _ = set.len();
            return k;
        }
        set.insert(id, steps);
    }
    let _ = set.len();
    ids.len()
}

/// Puts the states to which a state leads without a byte, under the looks that are known to hold, on a stack, the preferred one on top.
fn push_ways(state: &State, look_have: LookSet, stack: &mut Vec<StateID>) -> Result<(), AllocError>
    ensures { OnOk result (reverse stack.new.items ≡ on_nothing (node_of state.now) (has_look look_have) ++ reverse stack.old.items) }
{
    match state {
        State::Look { look, next } => {
            if !look_have.contains(*look) {
                return Ok(());
            }
            push(stack, *next)
        }
        State::Capture { next, .. } => push(stack, *next),
        State::Union { alternates } => push_all(stack, alternates),
        State::BinaryUnion { alt1, alt2 } => {
            push(stack, *alt2)?;
            push(stack, *alt1)
        }
        State::ByteRange { .. } | State::Sparse(_) | State::Dense(_) => Ok(()),
        State::Fail | State::Match { .. } => Ok(()),
    }
}
