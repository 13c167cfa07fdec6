//! The states in which searches start.
ghost use Rattle.std.specs.Prelude.{◌≡◌, ◌+◌, ◌<◌, ◌≤◌, false, length, IfOk, None, Some};
ghost use Rattle.lazy_dfa.specs.Dfas.{IsStateOf, is_dead, start_in, first_state};
ghost use Rattle.lazy_dfa.specs.Caches.{IsCacheOf, row_holding, slot_of_start};
ghost use Rattle.lazy_dfa.specs.RoomPromises.{AddsAlone, AnswersSlot, ChangesSlot, ClearsAll, FindsRoom, LeavesRoom, MakesSlot, NamesStart};
ghost use Rattle.lazy_dfa.specs.Steps.{most_inserts};

use crate::automaton::dfa::{Cache, DFA};
use crate::automaton::measures::START_KINDS;
use crate::cache_error::CacheError;
use crate::lazy_id::LazyStateID;
use crate::steps::stepping::{fits, is_dead_state, refuses_clear};
use crate::work::Work;
use determinize_core::{Start, State};
use search_core::StateID;
use std::alloc::AllocError;
use std::sync::ledger::Ledger;

/// Makes room for a state that isn't held. If there is no room, it clears the whole cache.
fn room_alone(dfa: &DFA, cache: &mut Cache, state: &State) -> Result<(), CacheError>
    requires own { IsCacheOf dfa.now cache.old }
    requires is { IsStateOf dfa.now state.now }
    requires alive { is_dead state.now ≡ false }
    requires fresh { row_holding state.now cache.old.states ≡ None }
    ensures own { IsCacheOf dfa.now cache.new }
    ensures room { LeavesRoom dfa.now state.now cache.new result }
    ensures changes { ClearsAll dfa.now state.now cache.old cache.new result }
    ensures outcome { FindsRoom dfa.now state.now cache.old result }
{
    dfa.is_made();
    if fits(dfa, cache, state) {
        return Ok(());
    }
    if refuses_clear(dfa, cache) {
        return Err(CacheError::GaveUp);
    }
    cache.clear();
    Ok(())
}

/// The ID of a state in which a search starts. The state is added if it isn't held.
#[inline(never)]
pub(crate) fn place_start(
    dfa: &DFA,
    cache: &mut Cache,
    state: State,
) -> Result<LazyStateID, CacheError>
    requires own { IsCacheOf dfa.now cache.old }
    requires is { IsStateOf dfa.now state }
    ensures own { IsCacheOf dfa.now cache.new }
    ensures start { IfOk result (λ id. NamesStart dfa.now state cache.old cache.new id) }
    ensures changes { AddsAlone dfa.now state cache.old cache.new result }
    ensures outcome { FindsRoom dfa.now state cache.old result }
{
    dfa.is_made();
    let stride = cache.stride();
    if is_dead_state(&state) {
        return Ok(LazyStateID::dead(stride));
    }
    if let Some(j) = cache.find(&state) {
        let id = cache.id(j);
        return Ok(id);
    }
    room_alone(dfa, cache, &state)?;
    // A capacity is a 64-bit number, so the count doesn't overflow.
    let _capacity = dfa.capacity();
    let id = cache.add_state(state, dfa.specializes())?;
    Ok(id)
}

/// The state in which a search starts from a state of the NFA.
#[inline(never)]
fn first_of<L: Ledger, M: Ledger>(
    dfa: &DFA,
    cache: &mut Cache,
    name: StateID,
    start: Start,
    work: &mut Work<L, M>,
) -> Result<State, AllocError>
    requires own { IsCacheOf dfa.now cache.old }
    requires below { name < length dfa.now.nfa.automaton.states }
    ensures value { IfOk result (λ s. s ≡ first_state dfa.now start name) }
    ensures is { IfOk result (λ s. IsStateOf dfa.now s) }
    ensures same { cache.new ≡ cache.old }
    ensures determinized { work.new.determinized ≡ work.old.determinized + 1 }
    ensures inserted { work.new.inserted ≤ work.old.inserted + most_inserts dfa.now }
{
    dfa.is_made();
    let nfa = dfa.get_nfa();
    let state = cache.first(nfa, start, name, work)?;
    Ok(state)
}

/// The ID of the state in which a search starts in a mode, from the NFA's state for that mode. Mode 0 is that of unanchored
/// searches and mode 1 that of anchored ones. The others are those of patterns.
#[inline(always)]
pub(crate) fn start_in_mode<L: Ledger, M: Ledger>(
    dfa: &DFA,
    cache: &mut Cache,
    mode: usize,
    name: StateID,
    start: Start,
    work: &mut Work<L, M>,
) -> Result<LazyStateID, CacheError>
    requires own { IsCacheOf dfa.now cache.old }
    requires inside { slot_of_start mode start < length cache.old.starts }
    requires named { start_in dfa.now mode ≡ Some name }
    requires below { name < length dfa.now.nfa.automaton.states }
    ensures own { IsCacheOf dfa.now cache.new }
    ensures answer { AnswersSlot dfa.now (slot_of_start mode start) (first_state dfa.now start name) cache.old cache.new result }
    ensures changes { ChangesSlot dfa.now (slot_of_start mode start) (first_state dfa.now start name) cache.old cache.new result }
    ensures made { MakesSlot dfa.now (slot_of_start mode start) cache.old work.old.determinized work.new.determinized work.old.inserted
        work.new.inserted }
{
    dfa.is_made();
    let i = mode * START_KINDS + start.as_usize();
    let known = cache.start(i);
    if !known.is_not_known() {
        return Ok(known);
    }
    let state = first_of(dfa, cache, name, start, work)?;
    match place_start(dfa, cache, state) {
        Ok(id) => {
            cache.set_start(i, id);
            Ok(id)
        }
        Err(e) => Err(e),
    }
}
