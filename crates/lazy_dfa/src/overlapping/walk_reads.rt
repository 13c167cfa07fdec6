//! How overlapping searches read on, up to the next end that counts.
ghost use Rattle.std.specs.Prelude.{◌≡◌, ◌+◌, ◌&&◌, true, slice_index, Some, None, IsSome};
ghost use Rattle.search_types.specs.Places.{counts};
ghost use Rattle.lazy_dfa.specs.Caches.{IsCacheOf, IsRow, HeldAt};
ghost use Rattle.lazy_dfa.specs.Dfas.{reader};
ghost use Rattle.lazy_dfa.specs.Ids.{has_tag, match_tag};
ghost use Rattle.lazy_dfa.specs.Points.{point};
ghost use Rattle.lazy_dfa.specs.SearchAnswers.{half_of, pair_of};
ghost use Rattle.lazy_dfa.specs.ScanOffsets.{IsWithinSpan, gave_up_at};
ghost use Rattle.lazy_dfa.specs.Overlapping.{StopsAt, value_past};
ghost use Rattle.lazy_dfa.specs.OverlappingAnswers.{ReadsOn, value_before, lists_more};
ghost use Rattle.lazy_dfa.specs.OverlappingTurns.{is_over, stopped, StepsAt, ReadsTo};
ghost use Rattle.lazy_dfa.specs.declared.overlapping.overlapping_state.OverlappingPosition.TheVariants.{Stopped};

use crate::automaton::dfa::{Cache, DFA};
use crate::lazy_id::LazyStateID;
use crate::overlapping::overlapping_state::{OverlappingPosition, OverlappingState, Stop};
use crate::search::passing::{
    finish_where, index_at, last_offset, next_offset, rejection, unit_at,
};
use crate::search::position::Position;
use crate::search::runs::{run, see_bytes};
use crate::search::scan_steps::{Seen, Turn, make_turn};
use crate::search::searching::is_between_characters;
use crate::work::Work;
use search_types::{HalfMatch, Input, MatchError};
use std::sync::ledger::Ledger;

/// The result of reading a unit. Either the search reads on from a position, or the call ends there and reports the end that was
/// recorded, or none.
#[derive(Clone, Copy)]
pub(crate) struct Read {
    position: Position,
    is_over: bool,
    reports: bool,
}

/// The progress of a call that is to read the unit at a position: the index of the next byte, or the last position of the span.
pub(crate) fn progress_at(input: &Input<'_>, is_reverse: bool, at: usize) -> usize
    ensures { result ≡ gave_up_at is_reverse input.now at }
{
    if at == last_offset(input, is_reverse) {
        return at;
    }
    index_at(at, is_reverse)
}

/// Whether an end at an offset counts.
fn counts_at(dfa: &DFA, input: &Input<'_>, at: usize) -> bool
    ensures { result ≡ counts (reader dfa.now).between_characters input.now.haystack at }
{
    !is_between_characters(dfa) || input.is_char_boundary(at)
}

/// Whether the state at which an overlapping search stopped lists more.
pub(crate) fn lists_more(
    dfa: &DFA,
    cache: &Cache,
    input: &Input<'_>,
    id: LazyStateID,
    index: usize,
    at: usize,
) -> bool
    requires own { IsCacheOf dfa.now cache.now }
    requires stops { StopsAt dfa.now cache.now input.now (record { id = id; index = index; at = at }) }
    ensures { result ≡ lists_more (reader dfa.now) input.now (record { id = id; index = index; at = at }) }
{
    counts_at(dfa, input, at) && index < dfa.match_len(cache, id)
}

/// Reports the end at the index of a stop, and stops after it.
pub(crate) fn tell(
    dfa: &DFA,
    cache: &Cache,
    input: &Input<'_>,
    id: LazyStateID,
    index: usize,
    at: usize,
) -> OverlappingState
    requires own { IsCacheOf dfa.now cache.now }
    requires stops { StopsAt dfa.now cache.now input.now (record { id = id; index = index; at = at }) }
    requires more { lists_more (reader dfa.now) input.now (record { id = id; index = index; at = at }) ≡ true }
    ensures found { result.found ≡ half_of (Some (at, slice_index (value_past (reader dfa.now) input.now at).matches index)) }
    ensures walk { result.walk ≡ Stopped (record { id = id; index = index + 1; at = at }) }
{
    // There are no more patterns than a `usize` counts.
    let _len = dfa.match_len(cache, id);
    let pattern = dfa.match_pattern(cache, id, index);
    OverlappingState {
        found: Some(HalfMatch::new(pattern, at)),
        walk: OverlappingPosition::Stopped(Stop {
            id,
            index: index + 1,
            at,
        }),
    }
}

/// Whether the state of an ID lists an end that counts at an offset.
fn tells_at(dfa: &DFA, input: &Input<'_>, id: LazyStateID, at: usize) -> bool
    ensures { result ≡ has_tag match_tag id && counts (reader dfa.now).between_characters input.now.haystack at }
{
    id.is_match() && counts_at(dfa, input, at)
}

/// Whether a call ends after a unit.
fn is_over(turn: Turn, reports: bool, is_last: bool) -> bool
    ensures { result ≡ is_over turn reports is_last }
{
    match turn {
        Turn::GoesOn => reports || is_last,
        Turn::Ends => true,
        Turn::Quits => true,
    }
}

/// The state of the search after the last unit that a call reads.
fn stopped(position: Position, reports: bool) -> OverlappingState
    ensures { result ≡ stopped reports position.id position.at position.best }
{
    if !reports {
        return OverlappingState::ended();
    }
    OverlappingState {
        found: position.best,
        walk: OverlappingPosition::Stopped(Stop {
            id: position.id,
            index: 1,
            at: position.at,
        }),
    }
}

// ---- units

/// The step by the unit at a position. If it gives up or memory runs out, the search in progress ends only if this is the last
/// unit. At a quit byte it always ends.
fn step_at<L: Ledger, M: Ledger>(
    dfa: &DFA,
    cache: &mut Cache,
    input: &Input<'_>,
    is_reverse: bool,
    position: Position,
    work: &mut Work<L, M>,
) -> Result<Seen, MatchError>
    requires own { IsCacheOf dfa.now cache.old }
    requires is_reverse { is_reverse ≡ dfa.now.nfa.automaton.reverse }
    requires row { IsRow cache.old position.id }
    requires running { IsSome cache.old.progress }
    ensures own { IsCacheOf dfa.now cache.new }
    ensures step { StepsAt dfa.now input.now
        (point cache.old work.old.determinized work.old.inserted position.at position.id (pair_of position.best)) cache.new
        work.new.determinized work.new.inserted result }
{
    let place = progress_at(input, is_reverse, position.at);
    let unit = unit_at(input.haystack(), position.at, is_reverse);
    cache.search_update(place);
    let seen = match make_turn(
        dfa,
        cache,
        position.id,
        unit,
        position.at,
        position.best,
        false,
        work,
    ) {
        Ok(seen) => seen,
        Err(e) => {
            finish_where(cache, place, position.at == last_offset(input, is_reverse));
            return Err(rejection(e, place));
        }
    };
    if let Turn::Quits = seen.turn {
        let Some(byte) = unit else { unreachable!() };
        cache.search_finish(place);
        return Err(MatchError::quit(byte, index_at(position.at, is_reverse)));
    }
    Ok(seen)
}

/// Reads the unit at a position. Matches at offsets that don't count are skipped.
fn read_at<L: Ledger, M: Ledger>(
    dfa: &DFA,
    cache: &mut Cache,
    input: &Input<'_>,
    is_reverse: bool,
    position: Position,
    work: &mut Work<L, M>,
) -> Result<Read, MatchError>
    requires own { IsCacheOf dfa.now cache.old }
    requires is_reverse { is_reverse ≡ dfa.now.nfa.automaton.reverse }
    requires row { IsRow cache.old position.id }
    requires within { IsWithinSpan input.now position.at }
    requires running { IsSome cache.old.progress }
    ensures own { IsCacheOf dfa.now cache.new }
    ensures read { ReadsTo dfa.now input.now
        (point cache.old work.old.determinized work.old.inserted position.at position.id (pair_of position.best)) cache.new
        work.new.determinized work.new.inserted result }
{
    let at = position.at;
    // A haystack is shorter than the greatest `usize`, so there is an offset after each byte.
    let _len = input.haystack().len();
    let is_last = at == last_offset(input, is_reverse);
    let seen = match step_at(dfa, cache, input, is_reverse, position, work) {
        Ok(seen) => seen,
        Err(e) => return Err(e),
    };
    let id = seen.id;
    let turn = seen.turn;
    let reports = tells_at(dfa, input, id, at);
    if is_over(turn, reports, is_last) {
        cache.search_finish(progress_at(input, is_reverse, at));
        let here = Position {
            at,
            id,
            best: seen.best,
        };
        return Ok(Read {
            position: here,
            is_over: true,
            reports,
        });
    }
    let next = Position {
        at: next_offset(at, is_reverse),
        id,
        best: seen.best,
    };
    Ok(Read {
        position: next,
        is_over: false,
        reports,
    })
}

/// Reads on from a state that isn't dead, up to the next end that counts.
pub(crate) fn read_on<L: Ledger, M: Ledger>(
    dfa: &DFA,
    cache: &mut Cache,
    input: &Input<'_>,
    is_reverse: bool,
    first: Position,
    work: &mut Work<L, M>,
) -> Result<OverlappingState, MatchError>
    requires own { IsCacheOf dfa.now cache.old }
    requires is_reverse { is_reverse ≡ dfa.now.nfa.automaton.reverse }
    requires row { IsRow cache.old first.id }
    requires within { IsWithinSpan input.now first.at }
    requires state { HeldAt cache.old first.id (value_before (reader dfa.now) input.now first.at) }
    ensures own { IsCacheOf dfa.now cache.new }
    ensures reads { ReadsOn dfa.now input.now first.at cache.old cache.new work.old.determinized work.new.determinized work.old.inserted
        work.new.inserted result }
{
    dfa.is_made();
    see_bytes(input.haystack());
    cache.search_start(progress_at(input, is_reverse, first.at));
    let mut position = run(dfa, cache, input, is_reverse, first);
    loop {
        let read = match read_at(dfa, cache, input, is_reverse, position, work) {
            Ok(read) => read,
            Err(e) => return Err(e),
        };
        if read.is_over {
            return Ok(stopped(read.position, read.reports));
        }
        position = run(dfa, cache, input, is_reverse, read.position);
    }
}
