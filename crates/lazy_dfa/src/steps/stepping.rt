//! Steps from state to state over a cache.
ghost use Rattle.std.specs.Prelude.{◌≡◌, ◌+◌, ◌<◌, ◌≤◌, false, length, IfOk, None};
ghost use Rattle.search_core.specs.Units.{unit_byte};
ghost use Rattle.lazy_dfa.specs.Dfas.{IsStateOf, IsUnit, after, class_of, is_dead};
ghost use Rattle.lazy_dfa.specs.Ids.{unknown_id};
ghost use Rattle.lazy_dfa.specs.Caches.{IsCacheOf, HeldAt, IsRow, fits, is_clear_denied, row_holding, state_at};
ghost use Rattle.lazy_dfa.specs.ConfigValue.{clears_of, minimum_bytes_of};
ghost use Rattle.lazy_dfa.specs.Readers.{is_quit, is_quit as is_quit_unit};
ghost use Rattle.lazy_dfa.specs.RoomPromises.{AddsBeside, ClearsBeside, FindsRoom, LeavesRoom, NamesStep};
ghost use Rattle.lazy_dfa.specs.StepPromises.{MakesStep};
ghost use Rattle.lazy_dfa.specs.Steps.{IsHeld, noted, most_inserts};

use crate::automaton::dfa::{Cache, DFA};
use crate::cache_error::CacheError;
use crate::lazy_id::LazyStateID;
use crate::work::Work;
use determinize_core::State;
use search_core::Unit;
use std::alloc::AllocError;
use std::sync::ledger::Ledger;

/// Whether the state is the dead one.
pub(crate) fn is_dead_state(state: &State) -> bool
    ensures { result ≡ is_dead state.now }
{
    let mut ids = state.iter_nfa_state_ids();
    if let Some(_id) = ids.next() {
        return false;
    }
    if state.is_match() {
        return false;
    }
    if !state.look_have().is_empty() {
        return false;
    }
    if !state.look_need().is_empty() {
        return false;
    }
    if state.is_from_word() {
        return false;
    }
    !state.is_half_crlf()
}

/// Whether there is room for the state.
pub(crate) fn fits(dfa: &DFA, cache: &Cache, state: &State) -> bool
    ensures { result ≡ fits dfa.now.capacity state.now cache.now }
{
    cache.fits(state, dfa.capacity())
}

/// Whether no further clear is allowed.
pub(crate) fn refuses_clear(dfa: &DFA, cache: &Cache) -> bool
    ensures { result ≡ is_clear_denied (clears_of dfa.now.options) (minimum_bytes_of dfa.now.options) cache.now }
{
    cache.refuses_clear(dfa.least_clears(), dfa.least_bytes())
}

/// Makes room for a state that isn't held, and returns the ID of the row's state. If there is no room, it clears the cache.
fn make_room(
    dfa: &DFA,
    cache: &mut Cache,
    k: usize,
    state: &State,
) -> Result<LazyStateID, CacheError>
    requires own { IsCacheOf dfa.now cache.old }
    requires row { k < length cache.old.states }
    requires is { IsStateOf dfa.now state.now }
    requires alive { is_dead state.now ≡ false }
    requires fresh { row_holding state.now cache.old.states ≡ None }
    ensures own { IsCacheOf dfa.now cache.new }
    ensures from { IfOk result (λ id. HeldAt cache.new id (state_at cache.old k)) }
    ensures room { LeavesRoom dfa.now state.now cache.new result }
    ensures changes { ClearsBeside dfa.now k state.now cache.old cache.new result }
    ensures outcome { FindsRoom dfa.now state.now cache.old result }
{
    dfa.is_made();
    cache.stride();
    if fits(dfa, cache, state) {
        let id = cache.id(k);
        return Ok(id);
    }
    if refuses_clear(dfa, cache) {
        return Err(CacheError::GaveUp);
    }
    let id = cache.clear_keeping(k)?;
    Ok(id)
}

/// The IDs of the state stepped from and of the one stepped to.
#[derive(Clone, Copy)]
struct Rows {
    from: LazyStateID,
    to: LazyStateID,
}

/// The ID of a state, which is added if it isn't held, and the ID of the row's state.
fn place(dfa: &DFA, cache: &mut Cache, k: usize, state: State) -> Result<Rows, CacheError>
    requires own { IsCacheOf dfa.now cache.old }
    requires row { k < length cache.old.states }
    requires is { IsStateOf dfa.now state }
    ensures own { IsCacheOf dfa.now cache.new }
    ensures rows { IfOk result (λ rows. NamesStep k state cache.old cache.new rows.from rows.to) }
    ensures changes { AddsBeside dfa.now k state cache.old cache.new result }
    ensures outcome { FindsRoom dfa.now state cache.old result }
{
    dfa.is_made();
    let stride = cache.stride();
    if is_dead_state(&state) {
        return Ok(Rows {
            from: cache.id(k),
            to: LazyStateID::dead(stride),
        });
    }
    if let Some(j) = cache.find(&state) {
        let to = cache.id(j);
        return Ok(Rows {
            from: cache.id(k),
            to,
        });
    }
    let from = make_room(dfa, cache, k, &state)?;
    // A capacity is a 64-bit number, so the count doesn't overflow.
    let _capacity = dfa.capacity();
    let to = cache.add_state(state, false)?;
    Ok(Rows { from, to })
}

/// The state after a unit, from the state of a row.
fn state_after<L: Ledger, M: Ledger>(
    dfa: &DFA,
    cache: &mut Cache,
    k: usize,
    unit: Unit,
    work: &mut Work<L, M>,
) -> Result<State, AllocError>
    requires own { IsCacheOf dfa.now cache.old }
    requires row { k < length cache.old.states }
    ensures value { IfOk result (λ s. s ≡ after dfa.now (state_at cache.old k) (unit_byte unit)) }
    ensures is { IfOk result (λ s. IsStateOf dfa.now s) }
    ensures same { cache.new ≡ cache.old }
    ensures determinized { work.new.determinized ≡ work.old.determinized + 1 }
    ensures inserted { work.new.inserted ≤ work.old.inserted + most_inserts dfa.now }
{
    dfa.is_made();
    let nfa = dfa.get_nfa();
    let state = cache.behind(nfa, dfa.kind(), k, unit, work)?;
    Ok(state)
}

/// Computes a step that isn't known yet, and records it.
fn fill<L: Ledger, M: Ledger>(
    dfa: &DFA,
    cache: &mut Cache,
    id: LazyStateID,
    unit: Unit,
    class: usize,
    work: &mut Work<L, M>,
) -> Result<LazyStateID, CacheError>
    requires own { IsCacheOf dfa.now cache.old }
    requires row { IsRow cache.old id }
    requires unit { IsUnit (unit_byte unit) }
    requires no_quit { is_quit dfa.now.quits (unit_byte unit) ≡ false }
    requires class { class ≡ class_of dfa.now.classes (unit_byte unit) }
    requires unknown { noted dfa.now cache.old id (unit_byte unit) ≡ unknown_id }
    ensures own { IsCacheOf dfa.now cache.new }
    ensures step { MakesStep dfa.now id (unit_byte unit) cache.old cache.new work.old.determinized work.new.determinized
        work.old.inserted work.new.inserted result }
    ensures determinized { work.new.determinized ≡ work.old.determinized + 1 }
{
    dfa.is_made();
    let k = cache.row(id);
    let state = state_after(dfa, cache, k, unit, work)?;
    match place(dfa, cache, k, state) {
        Ok(rows) => {
            let to = rows.to;
            cache.set_cell(rows.from, class, to);
            Ok(to)
        }
        Err(e) => Err(e),
    }
}

/// The step from an ID by a unit. Its class is known, and so is whether it is a quit byte.
pub(crate) fn step<L: Ledger, M: Ledger>(
    dfa: &DFA,
    cache: &mut Cache,
    current: LazyStateID,
    unit: Unit,
    class: usize,
    is_quit: bool,
    work: &mut Work<L, M>,
) -> Result<LazyStateID, CacheError>
    requires own { IsCacheOf dfa.now cache.old }
    requires held { IsHeld cache.old current }
    requires unit { IsUnit (unit_byte unit) }
    requires class { class ≡ class_of dfa.now.classes (unit_byte unit) }
    requires quit { is_quit ≡ is_quit_unit dfa.now.quits (unit_byte unit) }
    ensures own { IsCacheOf dfa.now cache.new }
    ensures step { MakesStep dfa.now current (unit_byte unit) cache.old cache.new work.old.determinized work.new.determinized
        work.old.inserted work.new.inserted result }
{
    dfa.is_made();
    let stride = cache.stride();
    if current.is_sentinel() {
        return Ok(current);
    }
    let cell = cache.cell(current, class);
    if !cell.is_not_known() {
        return Ok(cell);
    }
    if is_quit {
        let quit = LazyStateID::quit(stride);
        cache.set_cell(current, class, quit);
        return Ok(quit);
    }
    fill(dfa, cache, current, unit, class, work)
}
