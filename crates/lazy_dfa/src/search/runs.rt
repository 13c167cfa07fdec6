//! Loops over known steps, in which searches spend their time. They only read.
ghost use Rattle.std.specs.Prelude.{◌≡◌, ℕ, ◌+◌, ◌-◌, ◌<◌, ◌≤◌, Bool, false, true, length, slice_index_or};
ghost use Rattle.lazy_dfa.specs.Caches.{IsCacheOf, IsRow};
ghost use Rattle.lazy_dfa.specs.Ids.{tag};
ghost use Rattle.lazy_dfa.specs.Points.{point};
ghost use Rattle.lazy_dfa.specs.ScanOffsets.{GoesBetween, IsWithinSpan, left_at};
ghost use Rattle.lazy_dfa.specs.SearchAnswers.{pair_of};
ghost use Rattle.lazy_dfa.specs.Stretches.{MovesBackTo, MovesTo};

use crate::accel::accel_rounds::skip_over;
use crate::accel::skip::REST;
use crate::automaton::dfa::{Cache, DFA};
use crate::lazy_id::LazyStateID;
use crate::search::bytewise::{walk_both, walk_forward};
use crate::search::position::Position;
use search_types::Input;

/// The number of bytes that are read before a search skips bytes or runs two loops: a match is often as near as that.
const FEW: usize = 4;

/// The number of bytes that the second of two loops has to read before it counts.
const LEAD: usize = 8;

/// The number of bytes that each of them reads apart from those.
const HALF: usize = 48;

/// The elements of a haystack are bytes.
pub(crate) fn see_bytes(bytes: &[u8])
    ensures { (at : ℕ) → slice_index_or bytes.now at 0 < 256 }
{}

/// How far a loop came, and to which state.
#[derive(Clone, Copy)]
pub(crate) struct Moved {
    pub(crate) at: usize,
    pub(crate) id: LazyStateID,
}

/// Follows known steps forward while no state has a tag. Skips bytes that don't change the state to stop at.
#[inline(never)]
fn skip_forward(
    dfa: &DFA,
    cache: &mut Cache,
    haystack: &[u8],
    id: LazyStateID,
    from: usize,
    end: usize,
) -> Moved
    requires own { IsCacheOf dfa.now cache.old }
    requires is_forward { dfa.now.nfa.automaton.reverse ≡ false }
    requires row { IsRow cache.old id }
    requires untagged { id < tag }
    requires fits { from ≤ end }
    requires within { end ≤ length haystack.now }
    ensures same { cache.new ≡ cache.old }
    ensures moves { MovesTo dfa.now cache.old haystack.now (record { at = from; id = id }) end result }
{
    dfa.is_made();
    let mut at = from;
    let mut sid = id;
    loop {
        let limit = cache.stretch_end(at, end);
        let walked = walk_forward(dfa, cache, haystack, sid, at, limit, cache.stop());
        sid = walked.id;
        if !walked.pauses {
            return Moved {
                at: walked.at,
                id: sid,
            };
        }
        at = skip_over(dfa, cache, haystack, sid, walked.at, end);
    }
}

/// How far a stretch was read, and whether the next step has a tag or isn't known.
#[derive(Clone, Copy)]
struct Stretch {
    moved: Moved,
    has_stopped: bool,
}

/// Reads up to an offset in one loop.
#[inline(always)]
fn read_alone(dfa: &DFA, cache: &Cache, haystack: &[u8], moved: Moved, limit: usize) -> Stretch
    requires own { IsCacheOf dfa.now cache.now }
    requires is_forward { dfa.now.nfa.automaton.reverse ≡ false }
    requires row { IsRow cache.now moved.id }
    requires untagged { moved.id < tag }
    requires fits { moved.at ≤ limit }
    requires within { limit ≤ length haystack.now }
    ensures reads { MovesTo dfa.now cache.now haystack.now moved limit result.moved }
    ensures further { result.has_stopped ≡ false → result.moved.at ≡ limit }
{
    let unknown = LazyStateID::unknown();
    let walked = walk_forward(dfa, cache, haystack, moved.id, moved.at, limit, unknown);
    let moved = Moved {
        at: walked.at,
        id: walked.id,
    };
    Stretch {
        moved,
        has_stopped: walked.at < limit,
    }
}

/// Reads a stretch in two loops at once.
#[inline(always)]
fn read_stretch(dfa: &DFA, cache: &Cache, haystack: &[u8], moved: Moved, end: usize) -> Stretch
    requires own { IsCacheOf dfa.now cache.now }
    requires is_forward { dfa.now.nfa.automaton.reverse ≡ false }
    requires row { IsRow cache.now moved.id }
    requires untagged { moved.id < tag }
    requires fits { moved.at + 104 ≤ end }
    requires within { end ≤ length haystack.now }
    ensures reads { MovesTo dfa.now cache.now haystack.now moved end result.moved }
    ensures further { result.has_stopped ≡ false → moved.at < result.moved.at }
{
    dfa.is_made();
    let begin = moved.at + HALF;
    let join = begin + LEAD;
    let lead = walk_both(
        dfa, cache, haystack, moved.id, moved.at, moved.id, begin, LEAD,
    );
    let led = Moved {
        at: moved.at + lead.count,
        id: lead.first,
    };
    if lead.count < LEAD {
        return read_alone(dfa, cache, haystack, led, join);
    }
    let both = walk_both(
        dfa,
        cache,
        haystack,
        lead.first,
        led.at,
        lead.second,
        join,
        HALF,
    );
    let first = Moved {
        at: led.at + both.count,
        id: both.first,
    };
    let rest = read_alone(dfa, cache, haystack, first, join);
    if rest.has_stopped || rest.moved.id != lead.second {
        return rest;
    }
    let second = Moved {
        at: join + both.count,
        id: both.second,
    };
    Stretch {
        moved: second,
        has_stopped: both.count < HALF,
    }
}

/// Follows known steps forward while no state has a tag, in two loops at once as long as enough bytes are left. The loops are in
/// a function of their own, since their speed depends on the address of their code.
#[inline(never)]
fn read_forward(
    dfa: &DFA,
    cache: &Cache,
    haystack: &[u8],
    id: LazyStateID,
    from: usize,
    end: usize,
) -> Moved
    requires own { IsCacheOf dfa.now cache.now }
    requires is_forward { dfa.now.nfa.automaton.reverse ≡ false }
    requires row { IsRow cache.now id }
    requires untagged { id < tag }
    requires fits { from ≤ end }
    requires within { end ≤ length haystack.now }
    ensures { MovesTo dfa.now cache.now haystack.now (record { at = from; id = id }) end result }
{
    dfa.is_made();
    let mut moved = Moved { at: from, id };
    'stretch: while end - moved.at >= 2 * HALF + LEAD {
        let stretch = read_stretch(dfa, cache, haystack, moved, end);
        if stretch.has_stopped {
            return stretch.moved;
        }
        moved = stretch.moved;
    }
    read_alone(dfa, cache, haystack, moved, end).moved
}

/// Follows known steps while no state has a tag, up to the last position of the span. A search forward first reads a few bytes. Then,
/// unless it is anchored, it skips bytes if that paid off. If it doesn't skip, it stops after `REST` bytes, so that a search of a long span
/// may try skips again.
#[inline(always)]
pub(crate) fn run(
    dfa: &DFA,
    cache: &mut Cache,
    input: &Input<'_>,
    is_reverse: bool,
    position: Position,
) -> Position
    requires own { IsCacheOf dfa.now cache.old }
    requires is_reverse { is_reverse ≡ dfa.now.nfa.automaton.reverse }
    requires row { IsRow cache.old position.id }
    requires within { IsWithinSpan input.now position.at }
    ensures same { cache.new ≡ cache.old }
    ensures row { IsRow cache.old result.id }
    ensures within { IsWithinSpan input.now result.at }
    ensures closer { left_at is_reverse input.now result.at ≤ left_at is_reverse input.now position.at }
    ensures goes { (earliest : Bool) (m n : ℕ) → GoesBetween dfa.now earliest input.now.haystack
        (point cache.old m n position.at position.id (pair_of position.best))
        (point cache.old m n result.at result.id (pair_of result.best))
        (left_at is_reverse input.now position.at - left_at is_reverse input.now result.at) }
{
    if position.id.is_tagged() {
        return position;
    }
    let haystack = input.haystack();
    let id = position.id;
    let at = position.at;
    if is_reverse {
        let moved = run_reverse(dfa, cache, haystack, id, at, input.start());
        return Position {
            at: moved.at,
            id: moved.id,
            best: position.best,
        };
    }
    dfa.is_made();
    see_bytes(haystack);
    let end = input.end();
    let near = at + (end - at).min(FEW);
    let first = walk_forward(dfa, cache, haystack, id, at, near, LazyStateID::unknown());
    if first.at < near {
        return Position {
            at: first.at,
            id: first.id,
            best: position.best,
        };
    }
    if input.get_anchored().is_anchored() || cache.reads_all() {
        let limit = first.at + (end - first.at).min(REST);
        let moved = read_forward(dfa, cache, haystack, first.id, first.at, limit);
        cache.rest(moved.at - first.at);
        return Position {
            at: moved.at,
            id: moved.id,
            best: position.best,
        };
    }
    let moved = skip_forward(dfa, cache, haystack, first.id, first.at, end);
    Position {
        at: moved.at,
        id: moved.id,
        best: position.best,
    }
}

/// Follows known steps in reverse while no state has a tag.
fn run_reverse(
    dfa: &DFA,
    cache: &Cache,
    haystack: &[u8],
    id: LazyStateID,
    from: usize,
    end: usize,
) -> Moved
    requires own { IsCacheOf dfa.now cache.now }
    requires is_reverse { dfa.now.nfa.automaton.reverse ≡ true }
    requires row { IsRow cache.now id }
    requires untagged { id < tag }
    requires fits { end ≤ from }
    requires within { from ≤ length haystack.now }
    ensures { MovesBackTo dfa.now cache.now haystack.now (record { at = from; id = id }) end result }
{
    dfa.is_made();
    let mut at = from;
    let mut sid = id;
    while at > end {
        let next = cache.cell_of_untagged(sid, dfa.class(haystack[at - 1]));
        if next.is_tagged() {
            return Moved { at, id: sid };
        }
        sid = next;
        at -= 1;
    }
    Moved { at, id: sid }
}
