//! Turns of a scan: what is done with one unit.
ghost use Rattle.std.specs.Prelude.{◌≡◌, ℕ, List, IfOk};
ghost use Rattle.determinize_core.specs.Steps.{unit_at};
ghost use Rattle.lazy_dfa.specs.Caches.{IsCacheOf, IsRow};
ghost use Rattle.lazy_dfa.specs.Dfas.{IsUnit, class_of};
ghost use Rattle.lazy_dfa.specs.Points.{point};
ghost use Rattle.lazy_dfa.specs.SearchAnswers.{pair_of};
ghost use Rattle.lazy_dfa.specs.StepPromises.{MakesStep};
ghost use Rattle.lazy_dfa.specs.Steps.{IsHeld};
ghost use Rattle.lazy_dfa.specs.ScanSteps.{IsTurn, Sees};

use crate::automaton::dfa::{Cache, DFA};
use crate::cache_error::CacheError;
use crate::lazy_id::LazyStateID;
use crate::work::Work;
use search_types::HalfMatch;
use std::sync::ledger::Ledger;

/// The result of a turn.
#[derive(Clone, Copy)]
pub(crate) enum Turn {
    /// The scan goes on, from a state that isn't dead.
    GoesOn,
    /// The scan ends.
    Ends,
    /// The unit is a quit byte.
    Quits,
}

/// A turn, with the state to which it led and the match that was recorded last.
#[derive(Clone, Copy)]
pub(crate) struct Seen {
    pub(crate) turn: Turn,
    pub(crate) id: LazyStateID,
    pub(crate) best: Option<HalfMatch>,
}

/// The step by a unit: a byte, or the end of the input.
#[inline(never)]
fn step_by<L: Ledger, M: Ledger>(
    dfa: &DFA,
    cache: &mut Cache,
    current: LazyStateID,
    unit: Option<u8>,
    work: &mut Work<L, M>,
) -> Result<LazyStateID, CacheError>
    requires own { IsCacheOf dfa.now cache.old }
    requires held { IsHeld cache.old current }
    ensures own { IsCacheOf dfa.now cache.new }
    ensures held { IfOk result (λ to. IsHeld cache.new to) }
    ensures step { MakesStep dfa.now current unit cache.old cache.new work.old.determinized work.new.determinized work.old.inserted
        work.new.inserted result }
{
    match unit {
        Some(byte) => dfa.next_state(cache, current, byte, work),
        None => dfa.next_eoi_state(cache, current, work),
    }
}

/// The class of a unit.
#[inline(always)]
fn class_of_unit(dfa: &DFA, unit: Option<u8>) -> usize
    ensures unit { IsUnit unit }
    ensures class { result ≡ class_of dfa.now.classes unit }
{
    match unit {
        Some(byte) => dfa.class(byte),
        None => dfa.end_class(),
    }
}

/// The step by a unit from a state that isn't dead. If it is known, it is read from the cache. Otherwise it is computed.
#[inline(always)]
fn step_row<L: Ledger, M: Ledger>(
    dfa: &DFA,
    cache: &mut Cache,
    current: LazyStateID,
    unit: Option<u8>,
    work: &mut Work<L, M>,
) -> Result<LazyStateID, CacheError>
    requires own { IsCacheOf dfa.now cache.old }
    requires row { IsRow cache.old current }
    ensures own { IsCacheOf dfa.now cache.new }
    ensures held { IfOk result (λ to. IsHeld cache.new to) }
    ensures step { MakesStep dfa.now current unit cache.old cache.new work.old.determinized work.new.determinized work.old.inserted
        work.new.inserted result }
{
    dfa.is_made();
    let class = class_of_unit(dfa, unit);
    let cell = cache.cell(current, class);
    if !cell.is_not_known() {
        return Ok(cell);
    }
    step_by(dfa, cache, current, unit, work)
}

/// The effect on a scan of the state to which the unit at `place` led.
#[inline(always)]
fn see(
    dfa: &DFA,
    cache: &Cache,
    id: LazyStateID,
    place: usize,
    best: Option<HalfMatch>,
    earliest: bool,
) -> Seen
    requires own { IsCacheOf dfa.now cache.now }
    requires held { IsHeld cache.now id }
    ensures { Sees cache.now id place (pair_of best) earliest result }
{
    let mut seen = Seen {
        turn: Turn::GoesOn,
        id,
        best,
    };
    if !id.is_tagged() {
        return seen;
    }
    if id.is_dead() {
        seen.turn = Turn::Ends;
        return seen;
    }
    if id.is_quit() {
        seen.turn = Turn::Quits;
        return seen;
    }
    if !id.is_match() {
        return seen;
    }
    let pattern = dfa.match_pattern(cache, id, 0);
    seen.best = Some(HalfMatch::new(pattern, place));
    if earliest {
        seen.turn = Turn::Ends;
    }
    seen
}

/// Reads the unit at `place`, from a state that isn't dead.
#[inline(always)]
pub(crate) fn make_turn<L: Ledger, M: Ledger>(
    dfa: &DFA,
    cache: &mut Cache,
    current: LazyStateID,
    unit: Option<u8>,
    place: usize,
    best: Option<HalfMatch>,
    earliest: bool,
    work: &mut Work<L, M>,
) -> Result<Seen, CacheError>
    requires own { IsCacheOf dfa.now cache.old }
    requires row { IsRow cache.old current }
    ensures own { IsCacheOf dfa.now cache.new }
    ensures turn { (h : List ℕ) → unit ≡ unit_at dfa.now.nfa.automaton.reverse h place →
        IsTurn dfa.now earliest h unit (point cache.old work.old.determinized work.old.inserted place current (pair_of best)) cache.new
        work.new.determinized work.new.inserted result }
{
    let id = match step_row(dfa, cache, current, unit, work) {
        Ok(id) => id,
        Err(e) => return Err(e),
    };
    Ok(see(dfa, cache, id, place, best, earliest))
}
