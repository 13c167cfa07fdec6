//! Loops over known steps, through matching states and others. They only read. Of all matches on their way, they look at the last
//! one alone. So in a long match, a search spends no more time on a byte than elsewhere.
ghost use Rattle.std.specs.Prelude.{◌≡◌, ◌≢◌, ℕ, ◌-◌, ◌<◌, ◌≤◌, false, true, length};
ghost use Rattle.determinize_core.specs.States.{StateValue};
ghost use Rattle.lazy_dfa.specs.Caches.{IsCacheOf, IsRow, HeldAt};
ghost use Rattle.lazy_dfa.specs.Ids.{tag, has_tag, match_tag, unknown_id};
ghost use Rattle.lazy_dfa.specs.MatchLoops.{Lingers};
ghost use Rattle.lazy_dfa.specs.Scans.{best_recorded};
ghost use Rattle.lazy_dfa.specs.Points.{point};
ghost use Rattle.lazy_dfa.specs.SearchAnswers.{pair_of};
ghost use Rattle.lazy_dfa.specs.ScanOffsets.{IsWithinSpan, left_at, GoesBetween};

use crate::automaton::dfa::{Cache, DFA};
use crate::lazy_id::LazyStateID;
use crate::search::position::Position;
use search_types::{HalfMatch, Input};

/// The ID of a matching state, with the position from which its unit was read. If there was none, this is the unknown ID.
#[derive(Clone, Copy)]
struct Met {
    id: LazyStateID,
    last: usize,
}

/// How far a loop came, to which state, and which matching state it met last.
#[derive(Clone, Copy)]
struct Lingered {
    at: usize,
    id: LazyStateID,
    met: Met,
}

/// How far a loop stayed in a state, and which matching state it met last.
#[derive(Clone, Copy)]
struct Stayed {
    at: usize,
    met: Met,
}

/// The matching state that was met last, if the unit at a position leads to this state.
#[inline(always)]
fn meet(met: Met, next: LazyStateID, at: usize) -> Met
    ensures matching { tag ≤ next → (result.id ≡ next) × (result.last ≡ at) }
    ensures plain { next < tag → (result.id ≡ met.id) × (result.last ≡ met.last) }
{
    if next.is_tagged() {
        Met { id: next, last: at }
    } else {
        met
    }
}

/// Follows known steps forward while each leads back to the state.
///
/// A search waits for no step here: which cell is read next doesn't depend on the cell that was read before.
#[inline(always)]
fn stay_forward(
    dfa: &DFA,
    cache: &Cache,
    haystack: &[u8],
    id: LazyStateID,
    met: Met,
    from: usize,
    end: usize,
) -> Stayed
    requires own { IsCacheOf dfa.now cache.now }
    requires is_forward { dfa.now.nfa.automaton.reverse ≡ false }
    requires row { IsRow cache.now id }
    requires fits { from ≤ end }
    requires within { end ≤ length haystack.now }
    ensures past { from ≤ result.at }
    ensures within { result.at ≤ end }
    ensures lingers { (start first : ℕ) → start ≤ from → IsRow cache.now first →
        Lingers dfa.now haystack.now cache.now start first from id met.id met.last (from - start) →
        Lingers dfa.now haystack.now cache.now start first result.at id result.met.id result.met.last (result.at - start) }
{
    dfa.is_made();
    let mut at = from;
    let mut now = met;
    while at < end {
        let next = cache.cell(id, dfa.class(haystack[at]));
        let stays = next == id;
        if !stays {
            return Stayed { at, met: now };
        }
        if !next.is_of_row() {
            return Stayed { at, met: now };
        }
        now = meet(now, id, at);
        at += 1;
    }
    Stayed { at, met: now }
}

/// Follows known steps forward while each leads to a state that isn't dead.
#[inline(always)]
fn linger_forward(
    dfa: &DFA,
    cache: &Cache,
    haystack: &[u8],
    id: LazyStateID,
    from: usize,
    end: usize,
) -> Lingered
    requires own { IsCacheOf dfa.now cache.now }
    requires is_forward { dfa.now.nfa.automaton.reverse ≡ false }
    requires row { IsRow cache.now id }
    requires fits { from ≤ end }
    requires within { end ≤ length haystack.now }
    ensures row { IsRow cache.now result.id }
    ensures past { from ≤ result.at }
    ensures within { result.at ≤ end }
    ensures lingers { Lingers dfa.now haystack.now cache.now from id result.at result.id result.met.id result.met.last (result.at - from) }
{
    dfa.is_made();
    let mut at = from;
    let mut sid = id;
    let mut met = Met {
        id: LazyStateID::unknown(),
        last: from,
    };
    while at < end {
        let next = cache.cell(sid, dfa.class(haystack[at]));
        if !next.is_of_row() {
            return Lingered { at, id: sid, met };
        }
        let now = meet(met, next, at);
        if next == sid {
            let stayed = stay_forward(dfa, cache, haystack, sid, now, at + 1, end);
            met = stayed.met;
            at = stayed.at;
        } else {
            met = now;
            sid = next;
            at += 1;
        }
    }
    Lingered { at, id: sid, met }
}

/// Follows known steps in reverse while each leads back to the state.
///
/// A search waits for no step here: which cell is read next doesn't depend on the cell that was read before.
#[inline(always)]
fn stay_reverse(
    dfa: &DFA,
    cache: &Cache,
    haystack: &[u8],
    id: LazyStateID,
    met: Met,
    from: usize,
    end: usize,
) -> Stayed
    requires own { IsCacheOf dfa.now cache.now }
    requires is_reverse { dfa.now.nfa.automaton.reverse ≡ true }
    requires row { IsRow cache.now id }
    requires fits { end ≤ from }
    requires within { from ≤ length haystack.now }
    ensures past { result.at ≤ from }
    ensures within { end ≤ result.at }
    ensures lingers { (start first : ℕ) → from ≤ start → IsRow cache.now first →
        Lingers dfa.now haystack.now cache.now start first from id met.id met.last (start - from) →
        Lingers dfa.now haystack.now cache.now start first result.at id result.met.id result.met.last (start - result.at) }
{
    dfa.is_made();
    let mut at = from;
    let mut now = met;
    while at > end {
        let next = cache.cell(id, dfa.class(haystack[at - 1]));
        let stays = next == id;
        if !stays {
            return Stayed { at, met: now };
        }
        if !next.is_of_row() {
            return Stayed { at, met: now };
        }
        now = meet(now, id, at);
        at -= 1;
    }
    Stayed { at, met: now }
}

/// Follows known steps in reverse while each leads to a state that isn't dead.
#[inline(always)]
fn linger_reverse(
    dfa: &DFA,
    cache: &Cache,
    haystack: &[u8],
    id: LazyStateID,
    from: usize,
    end: usize,
) -> Lingered
    requires own { IsCacheOf dfa.now cache.now }
    requires is_reverse { dfa.now.nfa.automaton.reverse ≡ true }
    requires row { IsRow cache.now id }
    requires fits { end ≤ from }
    requires within { from ≤ length haystack.now }
    ensures row { IsRow cache.now result.id }
    ensures past { result.at ≤ from }
    ensures within { end ≤ result.at }
    ensures lingers { Lingers dfa.now haystack.now cache.now from id result.at result.id result.met.id result.met.last (from - result.at) }
{
    dfa.is_made();
    let mut at = from;
    let mut sid = id;
    let mut met = Met {
        id: LazyStateID::unknown(),
        last: from,
    };
    while at > end {
        let next = cache.cell(sid, dfa.class(haystack[at - 1]));
        if !next.is_of_row() {
            return Lingered { at, id: sid, met };
        }
        let now = meet(met, next, at);
        if next == sid {
            let stayed = stay_reverse(dfa, cache, haystack, sid, now, at - 1, end);
            met = stayed.met;
            at = stayed.at;
        } else {
            met = now;
            sid = next;
            at -= 1;
        }
    }
    Lingered { at, id: sid, met }
}

/// The match that is recorded after a loop, by the state that it met last.
#[inline(always)]
fn best_after(dfa: &DFA, cache: &Cache, best: Option<HalfMatch>, met: Met) -> Option<HalfMatch>
    requires own { IsCacheOf dfa.now cache.now }
    requires row { met.id < unknown_id → IsRow cache.now met.id }
    requires matches { met.id < unknown_id → has_tag match_tag met.id ≡ true }
    ensures still { unknown_id ≤ met.id → pair_of result ≡ pair_of best }
    ensures last { met.id < unknown_id → (s : StateValue) → HeldAt cache.now met.id s →
        pair_of result ≡ best_recorded met.last s (pair_of best) }
{
    if met.id.is_not_known() {
        return best;
    }
    let pattern = dfa.match_pattern(cache, met.id, 0);
    Some(HalfMatch::new(pattern, met.last))
}

/// Follows known steps up to the last position of the span, while none leads to the dead state. If the earliest end is asked for,
/// the scan stays where it is.
#[inline(always)]
pub(crate) fn linger(
    dfa: &DFA,
    cache: &Cache,
    input: &Input<'_>,
    is_reverse: bool,
    position: Position,
) -> Position
    requires own { IsCacheOf dfa.now cache.now }
    requires is_reverse { is_reverse ≡ dfa.now.nfa.automaton.reverse }
    requires row { IsRow cache.now position.id }
    requires within { IsWithinSpan input.now position.at }
    ensures row { IsRow cache.now result.id }
    ensures within { IsWithinSpan input.now result.at }
    ensures closer { left_at is_reverse input.now result.at ≤ left_at is_reverse input.now position.at }
    ensures goes { (m n : ℕ) → GoesBetween dfa.now input.now.earliest input.now.haystack
        (point cache.now m n position.at position.id (pair_of position.best))
        (point cache.now m n result.at result.id (pair_of result.best))
        (left_at is_reverse input.now position.at - left_at is_reverse input.now result.at) }
{
    if input.get_earliest() {
        return position;
    }
    let haystack = input.haystack();
    if is_reverse {
        let run = linger_reverse(
            dfa,
            cache,
            haystack,
            position.id,
            position.at,
            input.start(),
        );
        return Position {
            at: run.at,
            id: run.id,
            best: best_after(dfa, cache, position.best, run.met),
        };
    }
    let run = linger_forward(dfa, cache, haystack, position.id, position.at, input.end());
    Position {
        at: run.at,
        id: run.id,
        best: best_after(dfa, cache, position.best, run.met),
    }
}
