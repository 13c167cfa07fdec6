ghost use Rattle.std.specs.Prelude.{◌≡◌, ℕ, ◌+◌, ◌<◌, ◌≤◌, map, length, slice_get, slice_index, IfOk};
ghost use Rattle.std.specs.Bool.{nat_eq};
ghost use Rattle.std.specs.List.{list_any};
ghost use Rattle.search_core.specs.Index.{greatest_index};
ghost use Rattle.search_core.specs.Marks.{marks_below};
ghost use Rattle.nfa_core.specs.Alike.{marks_of};
ghost use Rattle.nfa_core.specs.Nfa.{node_at};
ghost use Rattle.nfa_core.specs.NfaParts.{automaton_in, nfa_in, numbered_from, always_matching, never_matching};
ghost use Rattle.nfa_core.specs.NfaValue.{IsSound, looks_of, is_capture, has_empty, prefix_looks, memory_of};
ghost use Rattle.nfa_core.specs.States.{node_of};

use crate::nfa_facts::Facts;
use crate::nfa_parts::Parts;
use crate::pattern_iter::PatternIter;
use crate::reached::state_at;
use crate::state::State;
use look_core::{AsciiWord, LookMatcher, LookSet};
use search_core::{ByteClassSet, ByteClasses, PatternID, SmallIndex, StateID};
use search_types::GroupInfo;
use std::alloc::{AllocError, Global};
use std::marker::Model;

/// A byte automaton that is ready for searches, as `regex_automata::nfa::thompson::NFA`. A contract sees its states, where it starts, its
/// groups and its settings.
#[derive(Drop)]
pub struct NFA {
    parts: Parts,
    facts: Facts,
}

impl Model for NFA {
    ghost use Rattle.nfa_core.specs.NfaValue.{Nfa, IsSound};
    ghost use Rattle.nfa_core.specs.NfaParts.{automaton_in, nfa_in, AreFacts};

    ghost Value = { Nfa };

    ghost view = { λ n. nfa_in n.parts };

    ghost invariant = { λ n. IsSound (automaton_in n.parts) × AreFacts n.parts.look_matcher.terminator (automaton_in n.parts) n.facts };
}

impl NFA {
    /// The NFA of these parts. Returns an error if an allocation fails.
    pub(crate) fn from_parts(alloc: Global, parts: Parts) -> Result<NFA, AllocError>
        requires { IsSound (automaton_in parts) }
        ensures { IfOk result (λ n. n ≡ nfa_in parts) }
    {
        let facts = Facts::new(alloc, &parts)?;
        Ok(NFA { parts, facts })
    }

    /// A copy, from which a second automaton is built over the same states with other settings. Returns an error only if an allocation
    /// fails. Rust's `NFA` is shared by its `Clone`, and copies nothing.
    pub fn try_clone(&self, alloc: Global) -> Result<NFA, AllocError>
        ensures { IfOk result (λ n. n ≡ self.now) }
    {
        let parts = clone_parts(alloc, &self.parts)?;
        let nfa = NFA::from_parts(alloc, parts)?;
        Ok(nfa)
    }

    /// The numbers of the patterns, ascending, as `NFA::patterns`.
    pub fn patterns(&self) -> PatternIter
        ensures { result ≡ numbered_from 0 (length self.now.automaton.start_pattern) }
    {
        PatternIter::new(self.pattern_len())
    }

    /// How many patterns there are, as `NFA::pattern_len`.
    pub fn pattern_len(&self) -> usize
        ensures value { result ≡ length self.now.automaton.start_pattern }
        ensures in_range { result ≤ greatest_index + 1 }
    {
        self.parts.start_pattern.len()
    }

    /// The state in which an anchored search starts, as `NFA::start_anchored`.
    #[inline]
    pub fn start_anchored(&self) -> StateID
        ensures value { result ≡ self.now.automaton.start_anchored }
        ensures in_range { result < length self.now.automaton.states }
    {
        self.parts.start_anchored
    }

    /// The state in which an unanchored search starts, as `NFA::start_unanchored`.
    #[inline]
    pub fn start_unanchored(&self) -> StateID
        ensures value { result ≡ self.now.automaton.start_unanchored }
        ensures in_range { result < length self.now.automaton.states }
    {
        self.parts.start_unanchored
    }

    /// The state in which an anchored search for one pattern starts, as `NFA::start_pattern`; `None` if there is no such pattern.
    pub fn start_pattern(&self, pid: PatternID) -> Option<StateID>
        ensures { result ≡ slice_get self.now.automaton.start_pattern pid }
    {
        self.parts.start_pattern.get(pid.as_usize()).copied()
    }

    /// The classes of bytes that the states don't distinguish, as `NFA::byte_classes`.
    pub fn byte_classes(&self) -> &ByteClasses
        ensures len { length result.now ≡ 256 }
        ensures classes { (b : ℕ) → b < 256 →
            slice_index result.now b ≡ marks_below (marks_of self.now.terminator self.now.automaton.states) b }
    {
        &self.facts.byte_classes
    }

    /// The marks from which these classes are made, as `NFA::byte_class_set`.
    pub fn byte_class_set(&self) -> &ByteClassSet
        ensures { result.now ≡ marks_of self.now.terminator self.now.automaton.states }
    {
        &self.facts.byte_class_set
    }

    /// The state with this number, as `NFA::state`.
    #[inline]
    pub fn state(&self, id: StateID) -> &State
        requires { id < length self.now.automaton.states }
        ensures { node_of result.now ≡ node_at self.now.automaton id }
    {
        state_at(&self.parts.states, id)
    }

    /// The states in order of their numbers, as `NFA::states`.
    #[inline]
    pub fn states(&self) -> &[State]
        ensures { map node_of result.now ≡ self.now.automaton.states }
    {
        self.parts.states.as_slice()
    }

    /// The groups of the patterns, as `NFA::group_info`.
    #[inline]
    pub fn group_info(&self) -> &GroupInfo
        ensures { result.now ≡ self.now.groups }
    {
        &self.parts.group_info
    }

    /// Whether a state captures, as `NFA::has_capture`.
    #[inline]
    pub fn has_capture(&self) -> bool
        ensures { result ≡ list_any is_capture self.now.automaton.states }
    {
        self.facts.has_capture
    }

    /// Whether a pattern may match the empty string if each look counts as passed, as `NFA::has_empty`.
    #[inline]
    pub fn has_empty(&self) -> bool
        ensures { result ≡ has_empty self.now.automaton }
    {
        self.facts.has_empty
    }

    /// Whether an empty match counts only between characters, as `NFA::is_utf8`.
    #[inline]
    pub fn is_utf8(&self) -> bool
        ensures { result ≡ self.now.utf8 }
    {
        self.parts.utf8
    }

    /// Whether the automaton reads from the end of a haystack to its start, as `NFA::is_reverse`.
    #[inline]
    pub fn is_reverse(&self) -> bool
        ensures { result ≡ self.now.automaton.reverse }
    {
        self.parts.reverse
    }

    /// Whether each search starts in the same state, as `NFA::is_always_start_anchored`. An unanchored search then finds no other matches
    /// than an anchored one.
    #[inline]
    pub fn is_always_start_anchored(&self) -> bool
        ensures { result ≡ nat_eq self.now.automaton.start_anchored self.now.automaton.start_unanchored }
    {
        self.start_anchored() == self.start_unanchored()
    }

    /// The matcher that decides where looks hold, as `NFA::look_matcher`.
    #[inline]
    pub fn look_matcher(&self) -> &LookMatcher<AsciiWord>
        ensures { result.now.terminator ≡ self.now.terminator }
    {
        &self.parts.look_matcher
    }

    /// The looks of all states, as `NFA::look_set_any`.
    #[inline]
    pub fn look_set_any(&self) -> LookSet
        ensures { result ≡ looks_of self.now.automaton.states }
    {
        self.facts.look_set_any
    }

    /// The looks of the states that patterns reach without a byte, as `NFA::look_set_prefix_any`.
    #[inline]
    pub fn look_set_prefix_any(&self) -> LookSet
        ensures { result ≡ prefix_looks self.now.automaton }
    {
        self.facts.look_set_prefix_any
    }

    /// The bytes that the states are taken to need, as `NFA::memory_usage`: 24 for each, and those of its list. A number above
    /// [`usize::MAX`] is returned as [`usize::MAX`].
    #[inline]
    pub fn memory_usage(&self) -> usize
        ensures { result ≡ memory_of self.now.automaton.states }
    {
        self.facts.memory
    }

    /// Each name that the automaton has is of one of its states or patterns, ranges of bytes ascend, and no
    /// state is a table.
    pub fn is_sound(&self)
        ensures { IsSound self.now.automaton }
    {
        let _ = &self.parts;
    }
}

/// Copies of the parts.
fn clone_parts(alloc: Global, parts: &Parts) -> Result<Parts, AllocError>
    ensures { IfOk result (λ copy. nfa_in copy ≡ nfa_in parts.now) }
{
    let states = clone_states(alloc, &parts.states)?;
    Ok(Parts {
        states,
        start_anchored: parts.start_anchored,
        start_unanchored: parts.start_unanchored,
        start_pattern: parts.start_pattern.to_vec(alloc)?,
        group_info: parts.group_info.try_clone(alloc)?,
        utf8: parts.utf8,
        reverse: parts.reverse,
        look_matcher: parts.look_matcher.clone()?,
    })
}

/// Copies of states.
fn clone_states(alloc: Global, states: &[State]) -> Result<Vec<State>, AllocError>
    ensures { IfOk result (λ copies. map node_of copies.items ≡ map node_of states.now) }
{
    let mut copies = Vec::with_capacity(alloc, states.len())?;
    for state in states {
        copies.push(clone_state(state)?)?;
    }
    Ok(copies)
}

/// A copy of a state.
fn clone_state(state: &State) -> Result<State, AllocError>
    ensures { IfOk result (λ copy. node_of copy ≡ node_of state.now) }
{
    let copy = state.clone()?;
    Ok(copy)
}

/// NFAs that are made by hand.
impl NFA {
    /// The NFA of one pattern that matches the empty string at each offset, as `NFA::always_match`. Returns an error if an allocation
    /// fails.
    pub fn always_match(alloc: Global) -> Result<NFA, AllocError>
        ensures { IfOk result (λ n. n ≡ always_matching) }
    {
        let mut start_pattern = Vec::new(alloc);
        start_pattern.push(StateID::ZERO)?;
        NFA::from_parts(
            alloc,
            Parts {
                states: always_states(alloc)?,
                start_anchored: StateID::ZERO,
                start_unanchored: StateID::ZERO,
                start_pattern,
                group_info: one_group(alloc)?,
                utf8: true,
                reverse: false,
                look_matcher: LookMatcher::new(AsciiWord),
            },
        )
    }

    /// The NFA of no pattern, as `NFA::never_match`. Returns an error if an allocation fails.
    pub fn never_match(alloc: Global) -> Result<NFA, AllocError>
        ensures { IfOk result (λ n. n ≡ never_matching) }
    {
        let mut states = Vec::new(alloc);
        states.push(State::Fail)?;
        NFA::from_parts(
            alloc,
            Parts {
                states,
                start_anchored: StateID::ZERO,
                start_unanchored: StateID::ZERO,
                start_pattern: Vec::new(alloc),
                group_info: GroupInfo::empty(alloc),
                utf8: true,
                reverse: false,
                look_matcher: LookMatcher::new(AsciiWord),
            },
        )
    }
}

/// The states of an automaton that records where its match starts and ends, and matches.
fn always_states(alloc: Global) -> Result<Vec<State>, AllocError>
    ensures { IfOk result (λ states. map node_of states.items ≡ always_matching.automaton.states) }
{
    let mut states = Vec::new(alloc);
    states.push(State::Capture {
        next: StateID::must(1),
        pattern_id: PatternID::ZERO,
        group_index: SmallIndex::ZERO,
        slot: SmallIndex::ZERO,
    })?;
    states.push(State::Capture {
        next: StateID::must(2),
        pattern_id: PatternID::ZERO,
        group_index: SmallIndex::ZERO,
        slot: SmallIndex::must(1),
    })?;
    states.push(State::Match {
        pattern_id: PatternID::ZERO,
    })?;
    Ok(states)
}

/// One pattern with one group. These groups break no rule, so the only error is a failed allocation.
fn one_group(alloc: Global) -> Result<GroupInfo, AllocError>
    ensures { IfOk result (λ groups. groups ≡ always_matching.groups) }
{
    let mut names = Vec::new(alloc);
    names.push(None)?;
    match GroupInfo::new(alloc, &[names]) {
        Ok(groups) => Ok(groups),
        Err(_) => Err(AllocError),
    }
}
