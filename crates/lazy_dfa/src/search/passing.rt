//! A single scan of a half search.
ghost use Rattle.std.specs.Prelude.{◌≡◌, ◌≢◌, ◌&&◌, ℕ, ◌+◌, ◌-◌, ◌<◌, ◌≤◌, Bool, false, true, None, Option, Some, IsSome};
ghost use Rattle.nfa_core.specs.Ways.{offset_of};
ghost use Rattle.determinize_core.specs.States.{StateValue};
ghost use Rattle.determinize_core.specs.Steps.{unit_at};
ghost use Rattle.lazy_dfa.specs.Caches.{IsCacheOf, IsRow, HeldAt};
ghost use Rattle.lazy_dfa.specs.Linked.{IsMoved};
ghost use Rattle.lazy_dfa.specs.MadeScans.{span_len, MakesScan};
ghost use Rattle.lazy_dfa.specs.Scans.{index_at};
ghost use Rattle.lazy_dfa.specs.Points.{point};
ghost use Rattle.lazy_dfa.specs.HalfSearches.{first_offset};
ghost use Rattle.lazy_dfa.specs.SearchAnswers.{pair_of, progress_of};
ghost use Rattle.lazy_dfa.specs.ScanOffsets.{IsWithinSpan, last_offset, left_at, reports, finished_where, error_of, progress_begun};
ghost use Rattle.lazy_dfa.specs.ScanOffsets.{progress_past};
ghost use Rattle.lazy_dfa.specs.ScanOffsets.{BeginsFirst, GoesBetween, TurnsTo, RunsOn, StartsScan};

use crate::automaton::dfa::{Cache, DFA};
use crate::cache_error::CacheError;
use crate::lazy_id::LazyStateID;
use crate::search::match_loop::linger;
use crate::search::position::Position;
use crate::search::runs::{run, see_bytes};
use crate::search::scan_steps::{Turn, make_turn};
use crate::work::Work;
use search_types::{HalfMatch, Input, MatchError, MatchErrorKind};
use std::sync::ledger::Ledger;

/// The result of a turn in a span. Either the scan goes on from a position, or it has ended with the match that was recorded
/// last.
#[derive(Clone, Copy)]
pub(crate) struct Turned {
    position: Position,
    has_ended: bool,
}

// ---- positions

/// The position where a search that reads forward or in reverse through the span begins.
#[inline(always)]
pub(crate) fn first_offset(input: &Input<'_>, is_reverse: bool) -> usize
    ensures { result ≡ first_offset is_reverse input.now.start input.now.end }
{
    if is_reverse {
        return input.end();
    }
    input.start()
}

/// The position where such a search ends.
#[inline(always)]
pub(crate) fn last_offset(input: &Input<'_>, is_reverse: bool) -> usize
    ensures { result ≡ last_offset is_reverse input.now }
{
    if is_reverse {
        return input.start();
    }
    input.end()
}

/// The index of the byte that is read next at a position.
#[inline(always)]
pub(crate) fn index_at(at: usize, is_reverse: bool) -> usize
    ensures { result ≡ index_at is_reverse at }
{
    if is_reverse { at.saturating_sub(1) } else { at }
}

/// The position after the byte at a position, in reading order.
#[inline(always)]
pub(crate) fn next_offset(at: usize, is_reverse: bool) -> usize
    requires { at < 0xFFFF_FFFF_FFFF_FFFF }
    ensures { result ≡ offset_of is_reverse at 1 }
{
    if is_reverse {
        at.saturating_sub(1)
    } else {
        at + 1
    }
}

/// The unit at a position: a byte, or none at the end of the input.
#[inline(always)]
pub(crate) fn unit_at(haystack: &[u8], at: usize, is_reverse: bool) -> Option<u8>
    ensures { result ≡ unit_at is_reverse haystack.now at }
{
    if !is_reverse {
        return haystack.get(at).copied();
    }
    if at == 0 {
        return None;
    }
    haystack.get(at - 1).copied()
}

/// Whether a scan reports to its cache how far it comes.
#[inline(always)]
fn reports(input: &Input<'_>, is_reverse: bool) -> bool
    ensures { result ≡ reports is_reverse input.now }
{
    !(is_reverse && input.end() <= input.start())
}

/// Whether a scan reports this before its last turn. In reverse it does, if it reports anything, since its last byte is read by
/// then.
#[inline(always)]
fn tells_before(input: &Input<'_>, is_reverse: bool) -> bool
    ensures { result ≡ is_reverse && reports is_reverse input.now }
{
    is_reverse && reports(input, is_reverse)
}

/// If wanted, ends the search in progress at this position.
#[inline(always)]
pub(crate) fn finish_where(cache: &mut Cache, at: usize, wanted: bool)
    requires { wanted ≡ true → IsSome cache.old.progress }
    ensures { cache.new ≡ finished_where wanted at cache.old }
{
    if wanted {
        cache.search_finish(at);
    }
}

/// The error of a search whose step failed.
pub(crate) fn rejection(err: CacheError, place: usize) -> MatchError
    ensures { result ≡ error_of place err }
{
    match err {
        CacheError::GaveUp => MatchError::gave_up(place),
        CacheError::NoMemory => MatchError::new(MatchErrorKind::NoMemory),
    }
}

// ---- turns

/// Follows known steps after a turn: while no state has a tag, and then through matching states too. This is rarely needed. It is
/// a function of its own, so that a scan's code has the loops of runs just once.
#[inline(never)]
fn run_further(
    dfa: &DFA,
    cache: &mut Cache,
    input: &Input<'_>,
    is_reverse: bool,
    position: Position,
) -> Position
    requires own { IsCacheOf dfa.now cache.old }
    requires is_reverse { is_reverse ≡ dfa.now.nfa.automaton.reverse }
    requires row { IsRow cache.old position.id }
    requires within { IsWithinSpan input.now position.at }
    ensures same { cache.new ≡ cache.old }
    ensures row { IsRow cache.old result.id }
    ensures within { IsWithinSpan input.now result.at }
    ensures closer { left_at is_reverse input.now result.at ≤ left_at is_reverse input.now position.at }
    ensures goes { (m n : ℕ) → GoesBetween dfa.now input.now.earliest input.now.haystack
        (point cache.old m n position.at position.id (pair_of position.best))
        (point cache.old m n result.at result.id (pair_of result.best))
        (left_at is_reverse input.now position.at - left_at is_reverse input.now result.at) }
{
    dfa.is_made();
    see_bytes(input.haystack());
    let next = run(dfa, cache, input, is_reverse, position);
    linger(dfa, cache, input, is_reverse, next)
}

/// A turn by a byte of the span, wherever it leads.
#[inline(never)]
fn living_turn<L: Ledger, M: Ledger>(
    dfa: &DFA,
    cache: &mut Cache,
    input: &Input<'_>,
    is_reverse: bool,
    position: Position,
    work: &mut Work<L, M>,
) -> Result<Turned, MatchError>
    requires own { IsCacheOf dfa.now cache.old }
    requires is_reverse { is_reverse ≡ dfa.now.nfa.automaton.reverse }
    requires row { IsRow cache.old position.id }
    requires within { IsWithinSpan input.now position.at }
    requires left { position.at ≢ last_offset is_reverse input.now }
    requires running { IsSome cache.old.progress }
    ensures own { IsCacheOf dfa.now cache.new }
    ensures turn { TurnsTo dfa.now input.now
        (point cache.old work.old.determinized work.old.inserted position.at position.id (pair_of position.best)) cache.new
        work.new.determinized work.new.inserted result }
{
    let haystack = input.haystack();
    let index = index_at(position.at, is_reverse);
    let byte = haystack[index];
    cache.search_update(index);
    let seen = match make_turn(
        dfa,
        cache,
        position.id,
        Some(byte),
        position.at,
        position.best,
        input.get_earliest(),
        work,
    ) {
        Ok(seen) => seen,
        Err(e) => return Err(rejection(e, index)),
    };
    let next = Position {
        at: next_offset(position.at, is_reverse),
        id: seen.id,
        best: seen.best,
    };
    match seen.turn {
        Turn::GoesOn => Ok(Turned {
            position: next,
            has_ended: false,
        }),
        Turn::Ends => {
            cache.search_finish(index);
            Ok(Turned {
                position: next,
                has_ended: true,
            })
        }
        Turn::Quits => {
            cache.search_finish(index);
            Err(MatchError::quit(byte, index))
        }
    }
}

/// A turn by a byte of the span. If it is known to lead to the dead state, as at the end of most scans, the cache is updated just
/// once.
#[inline(always)]
fn byte_turn<L: Ledger, M: Ledger>(
    dfa: &DFA,
    cache: &mut Cache,
    input: &Input<'_>,
    is_reverse: bool,
    position: Position,
    work: &mut Work<L, M>,
) -> Result<Turned, MatchError>
    requires own { IsCacheOf dfa.now cache.old }
    requires is_reverse { is_reverse ≡ dfa.now.nfa.automaton.reverse }
    requires row { IsRow cache.old position.id }
    requires within { IsWithinSpan input.now position.at }
    requires left { position.at ≢ last_offset is_reverse input.now }
    requires running { IsSome cache.old.progress }
    ensures own { IsCacheOf dfa.now cache.new }
    ensures turn { TurnsTo dfa.now input.now
        (point cache.old work.old.determinized work.old.inserted position.at position.id (pair_of position.best)) cache.new
        work.new.determinized work.new.inserted result }
{
    dfa.is_made();
    let haystack = input.haystack();
    see_bytes(haystack);
    let here = index_at(position.at, is_reverse);
    let next = cache.cell(position.id, dfa.class(haystack[here]));
    if !next.is_dead_cell() {
        return living_turn(dfa, cache, input, is_reverse, position, work);
    }
    cache.search_finish(here);
    Ok(Turned {
        position,
        has_ended: true,
    })
}

/// The last turn, by the unit after the span.
#[inline(always)]
fn last_turn<L: Ledger, M: Ledger>(
    dfa: &DFA,
    cache: &mut Cache,
    input: &Input<'_>,
    is_reverse: bool,
    position: Position,
    work: &mut Work<L, M>,
) -> Result<Turned, MatchError>
    requires own { IsCacheOf dfa.now cache.old }
    requires is_reverse { is_reverse ≡ dfa.now.nfa.automaton.reverse }
    requires row { IsRow cache.old position.id }
    requires last { position.at ≡ last_offset is_reverse input.now }
    requires begun { input.now.start ≤ input.now.end }
    requires running { reports is_reverse input.now ≡ true → IsSome cache.old.progress }
    ensures own { IsCacheOf dfa.now cache.new }
    ensures turn { TurnsTo dfa.now input.now
        (point cache.old work.old.determinized work.old.inserted position.at position.id (pair_of position.best)) cache.new
        work.new.determinized work.new.inserted result }
{
    let unit = unit_at(input.haystack(), position.at, is_reverse);
    let earliest = input.get_earliest();
    finish_where(cache, position.at, tells_before(input, is_reverse));
    let seen = match make_turn(
        dfa,
        cache,
        position.id,
        unit,
        position.at,
        position.best,
        earliest,
        work,
    ) {
        Ok(seen) => seen,
        Err(e) => return Err(rejection(e, position.at)),
    };
    if let Turn::Quits = seen.turn {
        let Some(byte) = unit else { unreachable!() };
        return Err(MatchError::quit(byte, index_at(position.at, is_reverse)));
    }
    finish_where(cache, position.at, !is_reverse);
    let last = Position {
        at: position.at,
        id: seen.id,
        best: seen.best,
    };
    Ok(Turned {
        position: last,
        has_ended: true,
    })
}

/// A turn by the unit at a position.
#[inline(always)]
fn turn_at<L: Ledger, M: Ledger>(
    dfa: &DFA,
    cache: &mut Cache,
    input: &Input<'_>,
    is_reverse: bool,
    position: Position,
    work: &mut Work<L, M>,
) -> Result<Turned, MatchError>
    requires own { IsCacheOf dfa.now cache.old }
    requires is_reverse { is_reverse ≡ dfa.now.nfa.automaton.reverse }
    requires row { IsRow cache.old position.id }
    requires within { IsWithinSpan input.now position.at }
    requires running { reports is_reverse input.now ≡ true → IsSome cache.old.progress }
    ensures own { IsCacheOf dfa.now cache.new }
    ensures turn { TurnsTo dfa.now input.now
        (point cache.old work.old.determinized work.old.inserted position.at position.id (pair_of position.best)) cache.new
        work.new.determinized work.new.inserted result }
{
    if position.at == last_offset(input, is_reverse) {
        last_turn(dfa, cache, input, is_reverse, position, work)
    } else {
        byte_turn(dfa, cache, input, is_reverse, position, work)
    }
}

// ---- scans

/// The scan from its first state on, which isn't dead.
#[inline(always)]
fn go_on<L: Ledger, M: Ledger>(
    dfa: &DFA,
    cache: &mut Cache,
    input: &Input<'_>,
    is_reverse: bool,
    id: LazyStateID,
    work: &mut Work<L, M>,
) -> Result<Option<HalfMatch>, MatchError>
    requires own { IsCacheOf dfa.now cache.old }
    requires is_reverse { is_reverse ≡ dfa.now.nfa.automaton.reverse }
    requires row { IsRow cache.old id }
    requires begun { input.now.start ≤ input.now.end }
    requires running { BeginsFirst is_reverse input.now cache.old }
    ensures own { IsCacheOf dfa.now cache.new }
    ensures runs { (s : StateValue) → HeldAt cache.old id s → RunsOn dfa.now input.now s
        (point cache.old work.old.determinized work.old.inserted (first_offset is_reverse input.now.start input.now.end) id None) cache.new
        work.new.determinized work.new.inserted result }
{
    dfa.is_made();
    see_bytes(input.haystack());
    let first = Position {
        at: first_offset(input, is_reverse),
        id,
        best: None,
    };
    let next = run(dfa, cache, input, is_reverse, first);
    let mut position = linger(dfa, cache, input, is_reverse, next);
    loop {
        let turned = match turn_at(dfa, cache, input, is_reverse, position, work) {
            Ok(turned) => turned,
            Err(e) => return Err(e),
        };
        if turned.has_ended {
            return Ok(turned.position.best);
        }
        position = run_further(dfa, cache, input, is_reverse, turned.position);
    }
}

/// Returns the ID of the state in which a scan starts.
#[inline(always)]
pub(crate) fn start_of_pass<L: Ledger, M: Ledger>(
    dfa: &DFA,
    cache: &mut Cache,
    input: &Input<'_>,
    is_reverse: bool,
    work: &mut Work<L, M>,
) -> Result<LazyStateID, MatchError>
    requires own { IsCacheOf dfa.now cache.old }
    requires is_reverse { is_reverse ≡ dfa.now.nfa.automaton.reverse }
    ensures own { IsCacheOf dfa.now cache.new }
    ensures start { StartsScan dfa.now input.now cache.old cache.new work.old.determinized work.new.determinized work.old.inserted
        work.new.inserted result }
{
    if is_reverse {
        dfa.start_state_reverse(cache, input, work)
    } else {
        dfa.start_state_forward(cache, input, work)
    }
}

/// Reports to a cache where a scan begins.
#[inline(always)]
fn begin_at_first(cache: &mut Cache, input: &Input<'_>, is_reverse: bool)
    ensures moved { IsMoved cache.old cache.new }
    ensures reported { progress_of cache.new ≡ progress_begun is_reverse input.now (progress_of cache.old) }
    ensures running { BeginsFirst is_reverse input.now cache.new }
{
    if !reports(input, is_reverse) {
        return;
    }
    cache.search_start(index_at(first_offset(input, is_reverse), is_reverse));
}

/// Reports to a cache that a scan begins and reads nothing.
#[inline(always)]
fn end_at_first(cache: &mut Cache, input: &Input<'_>, is_reverse: bool)
    ensures moved { IsMoved cache.old cache.new }
    ensures reported { progress_of cache.new ≡ progress_past is_reverse (span_len input.now) (progress_begun is_reverse input.now
        (progress_of
        cache.old)) 0 }
{
    if !reports(input, is_reverse) {
        return;
    }
    let index = index_at(first_offset(input, is_reverse), is_reverse);
    cache.search_start(index);
    cache.search_finish(index);
}

/// A scan forward over a whole span. Its code never tests the direction in which it reads.
#[inline(never)]
pub(crate) fn scan_forward<L: Ledger, M: Ledger>(
    dfa: &DFA,
    cache: &mut Cache,
    input: &Input<'_>,
    work: &mut Work<L, M>,
) -> Result<Option<HalfMatch>, MatchError>
    requires own { IsCacheOf dfa.now cache.old }
    requires is_forward { dfa.now.nfa.automaton.reverse ≡ false }
    requires begun { input.now.start ≤ input.now.end }
    ensures own { IsCacheOf dfa.now cache.new }
    ensures scan { MakesScan dfa.now input.now cache.old cache.new work.old.determinized work.new.determinized work.old.inserted
        work.new.inserted result }
{
    dfa.is_made();
    let id = match start_of_pass(dfa, cache, input, false, work) {
        Ok(id) => id,
        Err(e) => return Err(e),
    };
    if id.is_dead() {
        end_at_first(cache, input, false);
        return Ok(None);
    }
    begin_at_first(cache, input, false);
    go_on(dfa, cache, input, false, id, work)
}

/// A scan in reverse over a whole span. Its code never tests the direction in which it reads.
#[inline(never)]
pub(crate) fn scan_reverse<L: Ledger, M: Ledger>(
    dfa: &DFA,
    cache: &mut Cache,
    input: &Input<'_>,
    work: &mut Work<L, M>,
) -> Result<Option<HalfMatch>, MatchError>
    requires own { IsCacheOf dfa.now cache.old }
    requires is_reverse { dfa.now.nfa.automaton.reverse ≡ true }
    requires begun { input.now.start ≤ input.now.end }
    ensures own { IsCacheOf dfa.now cache.new }
    ensures scan { MakesScan dfa.now input.now cache.old cache.new work.old.determinized work.new.determinized work.old.inserted
        work.new.inserted result }
{
    dfa.is_made();
    let id = match start_of_pass(dfa, cache, input, true, work) {
        Ok(id) => id,
        Err(e) => return Err(e),
    };
    if id.is_dead() {
        end_at_first(cache, input, true);
        return Ok(None);
    }
    begin_at_first(cache, input, true);
    go_on(dfa, cache, input, true, id, work)
}

/// A scan over a whole span, in the direction of the automaton.
#[inline(always)]
pub(crate) fn scan<L: Ledger, M: Ledger>(
    dfa: &DFA,
    cache: &mut Cache,
    input: &Input<'_>,
    is_reverse: bool,
    work: &mut Work<L, M>,
) -> Result<Option<HalfMatch>, MatchError>
    requires own { IsCacheOf dfa.now cache.old }
    requires is_reverse { is_reverse ≡ dfa.now.nfa.automaton.reverse }
    requires begun { input.now.start ≤ input.now.end }
    ensures own { IsCacheOf dfa.now cache.new }
    ensures scan { MakesScan dfa.now input.now cache.old cache.new work.old.determinized work.new.determinized work.old.inserted
        work.new.inserted result }
{
    if is_reverse {
        scan_reverse(dfa, cache, input, work)
    } else {
        scan_forward(dfa, cache, input, work)
    }
}
