// What an NFA stores about its automaton in addition to the states.
ghost use Rattle.std.specs.Prelude.{◌≡◌, ℕ, ◌<◌, ◌≤◌, All, map, length, IfOk, get_or};
ghost use Rattle.std.specs.List.{list_any};
ghost use Rattle.search_core.specs.Marks.{recorded};
ghost use Rattle.look_core.specs.Terminators.{Terminator};
ghost use Rattle.nfa_core.specs.Alike.{marks_of};
ghost use Rattle.nfa_core.specs.Nfa.{fail_node};
ghost use Rattle.nfa_core.specs.NfaParts.{automaton_in, AreFacts};
ghost use Rattle.nfa_core.specs.NfaValue.{IsSound, IsNodeOf, ranges_apart_by, look_of, looks_of, is_capture, is_match, memory_of};
ghost use Rattle.nfa_core.specs.Reached.{AreBelow};
ghost use Rattle.nfa_core.specs.States.{node_of};
ghost use Rattle.nfa_core.specs.Transitions.{range_of};
ghost use Rattle.nfa_core.specs.BuilderStates.{AscendsFrom};

use crate::name_sets::sparse_set::SparseSet;
use crate::nfa_parts::Parts;
use crate::reached::{reached, state_at};
use crate::state::State;
use crate::transition::Transition;
use look_core::{AsciiWord, LookMatcher, LookSet};
use search_core::{ByteClassSet, ByteClasses};
use std::alloc::{AllocError, Global};

/// What an NFA stores about its automaton, so that no call has to loop over the states.
#[derive(Drop)]
pub(crate) struct Facts {
    pub(crate) has_capture: bool,
    /// Whether a pattern may match the empty string.
    pub(crate) has_empty: bool,
    pub(crate) look_set_any: LookSet,
    /// The looks that may be met before a byte is read.
    pub(crate) look_set_prefix_any: LookSet,
    pub(crate) byte_class_set: ByteClassSet,
    pub(crate) byte_classes: ByteClasses,
    /// The bytes of all states, or [`usize::MAX`] if that is less.
    pub(crate) memory: usize,
}

impl Facts {
    /// The facts of an automaton. Returns an error if an allocation fails.
    pub(crate) fn new(alloc: Global, parts: &Parts) -> Result<Facts, AllocError>
        requires { IsSound (automaton_in parts.now) }
        ensures { IfOk result (λ facts. AreFacts parts.now.look_matcher.terminator (automaton_in parts.now) facts) }
    {
        let reached = reached(alloc, parts)?;
        let byte_class_set = class_set(&parts.states, &parts.look_matcher);
        Ok(Facts {
            has_capture: has_capture(&parts.states),
            has_empty: has_match(&parts.states, &reached),
            look_set_any: looks(&parts.states),
            look_set_prefix_any: looks_among(&parts.states, &reached),
            byte_class_set,
            byte_classes: byte_class_set.byte_classes(),
            memory: memory(&parts.states),
        })
    }
}

/// Whether one of the states captures.
fn has_capture(states: &[State]) -> bool
    ensures { result ≡ list_any is_capture (map node_of states.now) }
{
    for state in states {
        if let State::Capture { .. } = state {
            return true;
        }
    }
    false
}

/// Whether the state is a match.
fn is_match(state: &State) -> bool
    ensures { result ≡ is_match (node_of state.now) }
{
    match state {
        State::Match { .. } => true,
        _ => false,
    }
}

/// Whether one of the states in the set is a match.
fn has_match(states: &[State], set: &SparseSet) -> bool
    requires { AreBelow (length states.now) set.now.names }
    ensures { result ≡ list_any (λ q. is_match (get_or (map node_of states.now) q fail_node)) set.now.names }
{
    for id in set.iter() {
        if is_match(state_at(states, id)) {
            return true;
        }
    }
    false
}

/// The look of a state, if it has one.
fn look_of(state: &State) -> LookSet
    ensures { result ≡ look_of (node_of state.now) }
{
    match state {
        State::Look { look, .. } => LookSet::singleton(*look),
        _ => LookSet::empty(),
    }
}

/// The looks of states.
fn looks(states: &[State]) -> LookSet
    ensures { result ≡ looks_of (map node_of states.now) }
{
    let mut looks = LookSet::empty();
    for state in states {
        looks = looks.union(look_of(state));
    }
    looks
}

/// The looks of the states in the set.
fn looks_among(states: &[State], set: &SparseSet) -> LookSet
    requires { AreBelow (length states.now) set.now.names }
    ensures { result ≡ looks_of (map (λ q. get_or (map node_of states.now) q fail_node) set.now.names) }
{
    let mut looks = LookSet::empty();
    for id in set.iter() {
        looks = looks.union(look_of(state_at(states, id)));
    }
    looks
}

/// The marks that separate the bytes which states distinguish.
fn class_set(states: &[State], matcher: &LookMatcher<AsciiWord>) -> ByteClassSet
    requires { (patterns : ℕ) × All (IsNodeOf patterns) (map node_of states.now) }
    ensures { result ≡ marks_of matcher.now.terminator (map node_of states.now) }
{
    let mut set = ByteClassSet::empty();
    for state in states {
        add_told(state, matcher, &mut set);
    }
    set
}

/// Marks the byte ranges that a state distinguishes from other bytes.
fn add_told(state: &State, matcher: &LookMatcher<AsciiWord>, set: &mut ByteClassSet)
    requires { (patterns : ℕ) × IsNodeOf patterns (node_of state.now) }
    ensures { set.new ≡ recorded set.old (ranges_apart_by matcher.now.terminator (node_of state.now)) }
{
    match state {
        State::ByteRange { trans } => set.set_range(trans.start, trans.end),
        State::Sparse(sparse) => add_ranges(&sparse.transitions, set),
        State::Look { look, .. } => matcher.add_to_byteset(*look, set),
        _ => {}
    }
}

/// Marks the ranges of a list.
fn add_ranges(transitions: &[Transition], set: &mut ByteClassSet)
    requires { All (λ t. t.start ≤ t.end) transitions.now }
    ensures { set.new ≡ recorded set.old (map (λ r. (r.0, r.1)) (map range_of transitions.now)) }
{
    for transition in transitions {
        set.set_range(transition.start, transition.end);
    }
}

/// The bytes of all states, or [`usize::MAX`] if that is less.
fn memory(states: &[State]) -> usize
    ensures { result ≡ memory_of (map node_of states.now) }
{
    let mut memory = 0usize;
    for state in states {
        memory = memory.saturating_add(state.memory_usage());
    }
    memory
}
