ghost use Rattle.std.specs.Prelude.{◌≡◌, ◌+◌, ◌*◌, ◌<◌, ◌≤◌, ◌&&◌, ◌||◌, [], length, All, OnOk, IfOk};
ghost use Rattle.std.specs.Prelude.{ℕ, List, ◌++◌, drop, IfSome, Some, option_to_list};
ghost use Rattle.std.specs.Bool.{nat_eq};
ghost use Rattle.std.specs.Int.{is_in_range};
ghost use Rattle.std.specs.List.{IsDistinct, flat_map};
ghost use Rattle.search_core.specs.Units.{unit_byte};
ghost use Rattle.look_core.specs.Looks.{byte_side, is_word, is_byte};
ghost use Rattle.determinize_core.specs.Costs.{free_ways, known_ways};
ghost use Rattle.determinize_core.specs.StepRoom.{AreSetsFor, AreStatesOf};
ghost use Rattle.determinize_core.specs.Steps.{families, first_half, gains, ids_before, known_before, states_after, begun, step_value};
ghost use Rattle.determinize_core.specs.Steps.{closed, is_some_kept, known_steps, pattern_at, patterns_in, reading, unit_steps};
ghost use Rattle.nfa_core.specs.Walks.{distinct, Visits};
ghost use Rattle.determinize_core.specs.Added.{listed_with, stops};
ghost use Rattle.nfa_core.specs.States.{node_of};
ghost use Rattle.nfa_core.specs.Ways.{on_byte};

use crate::closure::epsilon_closure;
use crate::known::{first_half, gains, is_byte, known_after, known_before};
use crate::lookbehind::{Families, set_flags};
use crate::nfa_states::{add_nfa_states, is_capture};
use crate::state::State;
use crate::state_builder::StateBuilderEmpty;
use crate::state_builder_matches::StateBuilderMatches;
use crate::state_builder_nfa::StateBuilderNFA;
use look_core::LookSet;
use nfa_core::{NFA, NameSet, Sets, State as NfaState, Steps};
use search_core::{PatternID, StateID, Unit};
use search_types::MatchKind;
use std::alloc::AllocError;
use std::sync::ledger::Ledger;

/// The state after a unit, as `regex_automata::util::determinize::next`. It lists what matched before the unit. If an allocation fails, the
/// call returns an error, and the bound on its steps holds then too.
pub fn next<S: NameSet, L: Ledger>(
    nfa: &NFA,
    kind: MatchKind,
    sets: &mut Sets<S>,
    stack: &mut Vec<StateID>,
    state: &State,
    unit: Unit,
    builder: StateBuilderEmpty,
    steps: &mut Steps<L>,
) -> Result<StateBuilderNFA, AllocError>
    requires bound1 { S.bound sets.old.set1 ≡ length nfa.now.automaton.states }
    requires bound2 { S.bound sets.old.set2 ≡ length nfa.now.automaton.states }
    requires below { All (λ q. q < length nfa.now.automaton.states) state.now.ids }
    requires once { IsDistinct nat_eq state.now.ids }
    requires empty { stack.old.items ≡ [] }
    ensures value { IfOk result (λ built. built ≡ step_value nfa.now.automaton nfa.now.terminator kind state.now (unit_byte unit)) }
    ensures stack { OnOk result (stack.new.items ≡ []) }
    ensures bound1 { S.bound sets.new.set1 ≡ length nfa.now.automaton.states }
    ensures bound2 { S.bound sets.new.set2 ≡ length nfa.now.automaton.states }
    ensures cost { steps.new ≤ steps.old + 3 * length nfa.now.automaton.states + 2 * free_ways nfa.now.automaton }
{
    let mut builder = builder.into_matches()?;
    let looks = known_after(nfa, unit);
    builder.write_have(looks);
    step_all(
        nfa,
        kind,
        sets,
        stack,
        state,
        unit,
        looks,
        &mut builder,
        steps,
    )?;
    report_unit(nfa, unit, some_kept(nfa, &sets.set2), &mut builder);
    let mut built = builder.into_nfa();
    add_nfa_states(nfa, &sets.set2, &mut built)?;
    Ok(built)
}

/// Lists the patterns that match in the states at the offset of a state before the unit. Puts the states to which these lead by the unit
/// into the second set, closed under the looks that are known to hold. States that aren't closed again are read from the state, and put
/// into no set.
fn step_all<S: NameSet, L: Ledger>(
    nfa: &NFA,
    kind: MatchKind,
    sets: &mut Sets<S>,
    stack: &mut Vec<StateID>,
    state: &State,
    unit: Unit,
    looks: LookSet,
    builder: &mut StateBuilderMatches,
    steps: &mut Steps<L>,
) -> Result<(), AllocError>
    requires sets { AreSetsFor (length nfa.now.automaton.states) (S.bound sets.old.set1) (S.bound sets.old.set2) }
    requires state { AreStatesOf (length nfa.now.automaton.states) state.now.ids }
    requires empty { stack.old.items ≡ [] }
    requires matches { builder.old.matches ≡ [] }
    ensures matches { OnOk result (builder.new ≡ record builder.old {
      matches = patterns_in kind nfa.now.automaton (ids_before nfa.now.automaton nfa.now.terminator state.now (unit_byte unit));
    }) }
    ensures closed { OnOk result (S.names sets.new.set2 ≡
        closed nfa.now.automaton looks (flat_map (unit_steps nfa.now.automaton (unit_byte unit))
        (reading kind nfa.now.automaton (ids_before nfa.now.automaton nfa.now.terminator state.now (unit_byte unit))))) }
    ensures stack { OnOk result (stack.new.items ≡ []) }
    ensures sets { AreSetsFor (length nfa.now.automaton.states) (S.bound sets.new.set1) (S.bound sets.new.set2) }
    ensures cost { steps.new ≤ steps.old + 3 * length nfa.now.automaton.states + 2 * free_ways nfa.now.automaton }
{
    if !asks_anew(nfa, state, unit) {
        sets.set2.clear();
        step_ids(
            nfa,
            kind,
            state,
            unit,
            looks,
            stack,
            &mut sets.set2,
            builder,
            steps,
        )?;
        return Ok(());
    }
    states_before(nfa, sets, stack, state, unit, steps)?;
    step_each(
        nfa,
        kind,
        &sets.set1,
        unit,
        looks,
        stack,
        &mut sets.set2,
        builder,
        steps,
    )?;
    Ok(())
}

/// Whether the unit decides a look that some of the states at the offset before it depend on.
fn asks_anew(nfa: &NFA, state: &State, unit: Unit) -> bool
    ensures { result ≡ gains state.now (known_before nfa.now.automaton.reverse nfa.now.terminator state.now (unit_byte unit)) }
{
    if state.look_need().is_empty() {
        return false;
    }
    gains(state, known_before(nfa, state, unit))
}

/// Puts the states at the offset of a state before the unit into the first set, and empties the second set. If the unit decides a look that
/// some of the states depend on, they are closed again.
fn states_before<S: NameSet, L: Ledger>(
    nfa: &NFA,
    sets: &mut Sets<S>,
    stack: &mut Vec<StateID>,
    state: &State,
    unit: Unit,
    steps: &mut Steps<L>,
) -> Result<(), AllocError>
    requires sets { AreSetsFor (length nfa.now.automaton.states) (S.bound sets.old.set1) (S.bound sets.old.set2) }
    requires state { AreStatesOf (length nfa.now.automaton.states) state.now.ids }
    requires empty { stack.old.items ≡ [] }
    ensures ids { OnOk result (S.names sets.new.set1 ≡ ids_before nfa.now.automaton nfa.now.terminator state.now (unit_byte unit)) }
    ensures none { OnOk result (S.names sets.new.set2 ≡ []) }
    ensures stack { OnOk result (stack.new.items ≡ []) }
    ensures sets { AreSetsFor (length nfa.now.automaton.states) (S.bound sets.new.set1) (S.bound sets.new.set2) }
    ensures cost { steps.new ≤ steps.old + 2 * length nfa.now.automaton.states + free_ways nfa.now.automaton }
{
    sets.clear();
    put_ids(state, &mut sets.set1, steps);
    if state.look_need().is_empty() {
        return Ok(());
    }
    let looks = known_before(nfa, state, unit);
    if !gains(state, looks) {
        return Ok(());
    }
    close_all(nfa, &sets.set1, looks, stack, &mut sets.set2, steps)?;
    sets.swap();
    sets.set2.clear();
    Ok(())
}

/// Records in a state under construction the kind of the unit before its offset. If the offset has no states, nothing is recorded.
fn report_unit(nfa: &NFA, unit: Unit, is_some: bool, builder: &mut StateBuilderMatches)
    ensures { builder.new ≡ record builder.old {
      is_from_word = builder.old.is_from_word || ((families nfa.now.automaton).words && (is_word (byte_side (unit_byte unit)) && is_some));
      is_half_crlf = builder.old.is_half_crlf
          || ((families nfa.now.automaton).crlf && (is_byte (first_half nfa.now.automaton.reverse) (unit_byte unit) && is_some));
    } }
{
    let families = Families::of(nfa.look_set_any());
    let is_word = families.words && (unit.is_word_byte() && is_some);
    let is_half = families.crlf && (is_byte(unit, first_half(nfa.is_reverse())) && is_some);
    set_flags(is_word, is_half, builder);
}

/// Puts the states of a powerset state into an empty set.
pub(crate) fn put_ids<S: NameSet, L: Ledger>(state: &State, set: &mut S, steps: &mut Steps<L>)
    requires below { All (λ q. q < S.bound set.old) state.now.ids }
    requires empty { S.names set.old ≡ [] }
    ensures names { S.names set.new ≡ distinct nat_eq state.now.ids }
    ensures bound { S.bound set.new ≡ S.bound set.old }
    ensures cost { steps.new ≡ steps.old + length state.now.ids }
{
    for id in state.iter_nfa_state_ids() {
        set.insert(id, steps);
    }
}

/// Puts the states of a set, and all states that they reach without a byte under the looks that are known to hold, into an empty set.
pub(crate) fn close_all<S: NameSet, L: Ledger>(
    nfa: &NFA,
    from: &S,
    looks: LookSet,
    stack: &mut Vec<StateID>,
    set: &mut S,
    steps: &mut Steps<L>,
) -> Result<(), AllocError>
    requires from { S.bound from.now ≡ length nfa.now.automaton.states }
    requires bound { S.bound set.old ≡ length nfa.now.automaton.states }
    requires none { S.names set.old ≡ [] }
    requires empty { stack.old.items ≡ [] }
    ensures closed { OnOk result (S.names set.new ≡ closed nfa.now.automaton looks (S.names from.now)) }
    ensures stack { OnOk result (stack.new.items ≡ []) }
    ensures bound { S.bound set.new ≡ S.bound set.old }
    ensures cost { steps.new ≤ steps.old + length (S.names from.now) + free_ways nfa.now.automaton }
{
    nfa.is_sound();
    for k in 0..from.len() {
        epsilon_closure(nfa, from.name(k), looks, stack, set, steps)?;
    }
    Ok(())
}

/// Whether the set has a state that a powerset state keeps.
pub(crate) fn some_kept<S: NameSet>(nfa: &NFA, set: &S) -> bool
    requires { S.bound set.now ≡ length nfa.now.automaton.states }
    ensures { result ≡ is_some_kept nfa.now.automaton (S.names set.now) }
{
    for k in 0..set.len() {
        if !is_capture(nfa.state(set.name(k))) {
            return true;
        }
    }
    false
}

/// Lists the patterns that match in the states of a set. Puts the states to which these lead by the unit into an empty set, closed under
/// the looks that are known to hold. Under leftmost-first, the search stops at the first match.
pub(crate) fn step_each<S: NameSet, L: Ledger>(
    nfa: &NFA,
    kind: MatchKind,
    from: &S,
    unit: Unit,
    looks: LookSet,
    stack: &mut Vec<StateID>,
    set: &mut S,
    builder: &mut StateBuilderMatches,
    steps: &mut Steps<L>,
) -> Result<(), AllocError>
    requires from { S.bound from.now ≡ length nfa.now.automaton.states }
    requires bound { S.bound set.old ≡ length nfa.now.automaton.states }
    requires none { S.names set.old ≡ [] }
    requires empty { stack.old.items ≡ [] }
    requires matches { builder.old.matches ≡ [] }
    ensures matches { OnOk result (builder.new ≡ record builder.old { matches = patterns_in kind nfa.now.automaton (S.names from.now) }) }
    ensures closed { OnOk result (S.names set.new ≡
        closed nfa.now.automaton looks (flat_map (unit_steps nfa.now.automaton (unit_byte unit))
        (reading kind nfa.now.automaton (S.names from.now)))) }
    ensures stack { OnOk result (stack.new.items ≡ []) }
    ensures bound { S.bound set.new ≡ S.bound set.old }
    ensures cost { steps.new ≤ steps.old + length nfa.now.automaton.states + free_ways nfa.now.automaton }
{
    nfa.is_sound();
    for k in 0..from.len() {
        let id = from.name(k);
        // A set has each of its numbers once, and below its bound.
        let _ = set.len();
        let last = list_match(nfa, kind, id, builder)?;
        if last {
            return Ok(());
        }
        close_target(nfa, id, unit, looks, stack, set, steps)?;
    }
    Ok(())
}

/// Lists the patterns that match in the states of a powerset state, and puts the states to which these lead by the unit into an empty set,
/// as [`step_each`] does for a set. The states are below the automaton's, none of them twice.
fn step_ids<S: NameSet, L: Ledger>(
    nfa: &NFA,
    kind: MatchKind,
    state: &State,
    unit: Unit,
    looks: LookSet,
    stack: &mut Vec<StateID>,
    set: &mut S,
    builder: &mut StateBuilderMatches,
    steps: &mut Steps<L>,
) -> Result<(), AllocError>
    requires state { AreStatesOf (length nfa.now.automaton.states) state.now.ids }
    requires bound { S.bound set.old ≡ length nfa.now.automaton.states }
    requires none { S.names set.old ≡ [] }
    requires empty { stack.old.items ≡ [] }
    requires matches { builder.old.matches ≡ [] }
    ensures matches { OnOk result (builder.new ≡ record builder.old { matches = patterns_in kind nfa.now.automaton state.now.ids }) }
    ensures closed { OnOk result (S.names set.new ≡
        closed nfa.now.automaton looks (flat_map (unit_steps nfa.now.automaton (unit_byte unit))
        (reading kind nfa.now.automaton state.now.ids))) }
    ensures stack { OnOk result (stack.new.items ≡ []) }
    ensures bound { S.bound set.new ≡ S.bound set.old }
    ensures cost { steps.new ≤ steps.old + length nfa.now.automaton.states + free_ways nfa.now.automaton }
{
    nfa.is_sound();
    for id in state.iter_nfa_state_ids() {
        // A set has each of its numbers once, and below its bound.
        let _ = set.len();
        let last = list_match(nfa, kind, id, builder)?;
        if last {
            return Ok(());
        }
        close_target(nfa, id, unit, looks, stack, set, steps)?;
    }
    Ok(())
}

/// Lists the pattern that matches in a state, if there is one and it isn't listed yet. Returns whether no state after it reads the unit.
#[inline(always)]
fn list_match(
    nfa: &NFA,
    kind: MatchKind,
    id: StateID,
    builder: &mut StateBuilderMatches,
) -> Result<bool, AllocError>
    requires { id < length nfa.now.automaton.states }
    ensures listed { OnOk result (builder.new ≡
        record builder.old { matches = listed_with (pattern_at nfa.now.automaton id) builder.old.matches }) }
    ensures stops { IfOk result (λ last. last ≡ stops kind (pattern_at nfa.now.automaton id)) }
{
    let Some(pattern) = pattern_at(nfa, id) else {
        return Ok(false);
    };
    list_pattern(pattern, builder)?;
    Ok(kind == MatchKind::LeftmostFirst)
}

/// Lists a pattern, unless it is listed already.
#[inline(never)]
fn list_pattern(pattern: PatternID, builder: &mut StateBuilderMatches) -> Result<(), AllocError>
    ensures { OnOk result (builder.new ≡ record builder.old { matches = listed_with (Some pattern) builder.old.matches }) }
{
    if !builder.has_match_pattern_id(pattern) {
        builder.add_match_pattern_id(pattern)?;
    }
    Ok(())
}

/// Puts the state to which a state leads by the unit into a set, closed under the looks that are known to hold.
#[inline(always)]
fn close_target<S: NameSet, L: Ledger>(
    nfa: &NFA,
    id: StateID,
    unit: Unit,
    looks: LookSet,
    stack: &mut Vec<StateID>,
    set: &mut S,
    steps: &mut Steps<L>,
) -> Result<(), AllocError>
    requires inside { id < length nfa.now.automaton.states }
    requires bound { S.bound set.old ≡ length nfa.now.automaton.states }
    requires empty { stack.old.items ≡ [] }
    ensures visits { OnOk result (Visits nat_eq (known_steps nfa.now.automaton looks) (unit_steps nfa.now.automaton (unit_byte unit) id)
        (S.names set.old) (S.names set.new)) }
    ensures stack { OnOk result (stack.new.items ≡ []) }
    ensures bound { S.bound set.new ≡ S.bound set.old }
    ensures grows { (more : List ℕ) × (S.names set.new ≡ S.names set.old ++ more) }
    ensures once { IsDistinct nat_eq (S.names set.new) }
    ensures below { All (λ q. q < length nfa.now.automaton.states) (S.names set.new) }
    ensures cost { steps.new ≤ steps.old + 1 + known_ways nfa.now.automaton looks (drop (length (S.names set.old)) (S.names set.new)) }
{
    let _ = set.len();
    let Some(next) = target(nfa, id, unit) else {
        return Ok(());
    };
    epsilon_closure(nfa, next, looks, stack, set, steps)
}

// ---- Where a state of an automaton leads by a unit, and the pattern that matches in it.

/// The state to which a state leads by the unit. The end of the input leads nowhere.
pub(crate) fn target(nfa: &NFA, id: StateID, unit: Unit) -> Option<StateID>
    requires { id < length nfa.now.automaton.states }
    ensures ways { option_to_list result ≡ unit_steps nfa.now.automaton (unit_byte unit) id }
    ensures inside { IfSome result (λ q. q < length nfa.now.automaton.states) }
{
    nfa.is_sound();
    match unit {
        Unit::Byte(byte) => target_by(nfa.state(id), byte),
        Unit::End(_) => None,
    }
}

/// The state to which a state leads by the byte.
fn target_by(state: &NfaState, byte: u8) -> Option<StateID>
    ensures { option_to_list result ≡ on_byte (node_of state.now) byte }
{
    match state {
        NfaState::ByteRange { trans } => {
            if is_within(trans.start, trans.end, byte) {
                return Some(trans.next);
            }
            None
        }
        NfaState::Sparse(sparse) => sparse.matches_byte(byte),
        NfaState::Dense(dense) => dense.matches_byte(byte),
        NfaState::Look { .. } | NfaState::Capture { .. } => None,
        NfaState::Union { .. } | NfaState::BinaryUnion { .. } => None,
        NfaState::Fail | NfaState::Match { .. } => None,
    }
}

/// Whether a byte lies in a range. Both ends are tested at once. Over many ranges, each end alone is often met and often not, which a
/// processor can't predict; both together are seldom met.
#[inline(always)]
fn is_within(start: u8, end: u8, byte: u8) -> bool
    ensures { result ≡ is_in_range start end byte }
{
    let from_start = 256 + u32::from(byte) - u32::from(start);
    let to_end = 256 + u32::from(end) - u32::from(byte);
    from_start.min(to_end) >= 256
}

/// The pattern that matches in a state.
pub(crate) fn pattern_at(nfa: &NFA, id: StateID) -> Option<PatternID>
    requires { id < length nfa.now.automaton.states }
    ensures { result ≡ pattern_at nfa.now.automaton id }
{
    match nfa.state(id) {
        NfaState::Match { pattern_id } => Some(*pattern_id),
        _ => None,
    }
}
