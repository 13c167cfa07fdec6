ghost use Rattle.std.specs.Prelude.{◌≡◌, ◌<◌, ◌++◌, ◌∷◌, [], length, OnOk};
ghost use Rattle.nfa_core.specs.NfaValue.{look_of, is_capture};
ghost use Rattle.nfa_core.specs.States.{node_of};
ghost use Rattle.determinize_core.specs.Steps.{kept_among, looks_with, with_states};

use crate::state_builder_nfa::StateBuilderNFA;
use look_core::LookSet;
use nfa_core::{NFA, NameSet, State};
use search_core::StateID;
use std::alloc::AllocError;

/// Adds the states of a set, except captures, and their looks to a state under construction, as
/// `regex_automata::util::determinize::add_nfa_states`. Looks that hold are kept only if the states depend on some. Returns an error if an
/// allocation fails.
pub fn add_nfa_states<S: NameSet>(
    nfa: &NFA,
    set: &S,
    builder: &mut StateBuilderNFA,
) -> Result<(), AllocError>
    requires { S.bound set.now ≡ length nfa.now.automaton.states }
    ensures { OnOk result (builder.new ≡ with_states nfa.now.automaton (S.names set.now) builder.old) }
{
    add_looks(nfa, set, builder);
    add_kept(nfa, set, builder)?;
    if builder.look_need().is_empty() {
        builder.write_have(LookSet::empty());
    }
    Ok(())
}

/// Adds the looks of the states of a set. If the automaton has no looks, no state is read.
fn add_looks<S: NameSet>(nfa: &NFA, set: &S, builder: &mut StateBuilderNFA)
    requires { S.bound set.now ≡ length nfa.now.automaton.states }
    ensures { builder.new ≡ record builder.old { look_need = looks_with nfa.now.automaton builder.old.look_need (S.names set.now) } }
{
    if nfa.look_set_any().is_empty() {
        return;
    }
    let looks = looks_with(nfa, set, builder.look_need());
    builder.write_need(looks);
}

/// The looks of the states of a set, with these.
fn looks_with<S: NameSet>(nfa: &NFA, set: &S, looks: LookSet) -> LookSet
    requires { S.bound set.now ≡ length nfa.now.automaton.states }
    ensures { result ≡ looks_with nfa.now.automaton looks (S.names set.now) }
{
    let mut all = looks;
    for k in 0..set.len() {
        all = all.union(look_of(nfa.state(set.name(k))));
    }
    all
}

/// Adds the states of a set, except captures. If the automaton has no captures, no state is read.
fn add_kept<S: NameSet>(nfa: &NFA, set: &S, builder: &mut StateBuilderNFA) -> Result<(), AllocError>
    requires { S.bound set.now ≡ length nfa.now.automaton.states }
    ensures { OnOk result (builder.new ≡ record builder.old { ids = builder.old.ids ++ kept_among nfa.now.automaton (S.names set.now) }) }
{
    if !nfa.has_capture() {
        add_all(set, builder)?;
        return Ok(());
    }
    for k in 0..set.len() {
        add_state(nfa, set.name(k), builder)?;
    }
    Ok(())
}

/// Adds all states of a set.
fn add_all<S: NameSet>(set: &S, builder: &mut StateBuilderNFA) -> Result<(), AllocError>
    ensures { OnOk result (builder.new ≡ record builder.old { ids = builder.old.ids ++ S.names set.now }) }
{
    for k in 0..set.len() {
        builder.add_nfa_state_id(set.name(k))?;
    }
    Ok(())
}

/// Adds a state, unless it is a capture.
fn add_state(nfa: &NFA, id: StateID, builder: &mut StateBuilderNFA) -> Result<(), AllocError>
    requires { id < length nfa.now.automaton.states }
    ensures { OnOk result (builder.new ≡ record builder.old { ids = builder.old.ids ++ kept_among nfa.now.automaton (id ∷ []) }) }
{
    if is_capture(nfa.state(id)) {
        return Ok(());
    }
    builder.add_nfa_state_id(id)
}

/// The look of a state, if it has one.
fn look_of(state: &State) -> LookSet
    ensures { result ≡ look_of (node_of state.now) }
{
    match state {
        State::Look { look, .. } => LookSet::singleton(*look),
        _ => LookSet::empty(),
    }
}

/// Whether the state stores the offset in a slot.
pub(crate) fn is_capture(state: &State) -> bool
    ensures { result ≡ is_capture (node_of state.now) }
{
    match state {
        State::Capture { .. } => true,
        _ => false,
    }
}
