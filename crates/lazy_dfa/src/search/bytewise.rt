//! Byte loops over known steps: one loop alone, or two at once.
//!
//! A byte loop waits for one load per byte, and another load could run meanwhile. So a second loop starts further on, in any
//! state. After a few bytes it is usually in the state that the first loop will reach there, since few bytes decide which state
//! an unanchored search reaches. If the first loop does reach that state, both loops count. Otherwise the first one alone counts.
ghost use Rattle.std.specs.Prelude.{◌≡◌, ◌+◌, ◌<◌, ◌≤◌, false, true, length};
ghost use Rattle.lazy_dfa.specs.Caches.{IsCacheOf, IsRow};
ghost use Rattle.lazy_dfa.specs.Ids.{tag};
ghost use Rattle.lazy_dfa.specs.Stretches.{MovesTo};

use crate::automaton::dfa::{Cache, DFA};
use crate::lazy_id::LazyStateID;

/// How far a byte loop came, to which state, and whether it pauses there. It pauses at the state to stop at, and at the end of a
/// stretch.
#[derive(Clone, Copy)]
pub(crate) struct Walked {
    pub(crate) at: usize,
    pub(crate) id: LazyStateID,
    pub(crate) pauses: bool,
}

/// Follows known steps forward byte by byte while no state has a tag, up to a limit or the state to stop at.
#[inline(always)]
pub(crate) fn walk_forward(
    dfa: &DFA,
    cache: &Cache,
    haystack: &[u8],
    id: LazyStateID,
    from: usize,
    limit: usize,
    stop: LazyStateID,
) -> Walked
    requires own { IsCacheOf dfa.now cache.now }
    requires is_forward { dfa.now.nfa.automaton.reverse ≡ false }
    requires row { IsRow cache.now id }
    requires untagged { id < tag }
    requires fits { from ≤ limit }
    requires within { limit ≤ length haystack.now }
    ensures moves { MovesTo dfa.now cache.now haystack.now (record { at = from; id = id }) limit
        (record { at = result.at; id = result.id }) }
    ensures further { result.pauses ≡ true → from < result.at }
{
    dfa.is_made();
    let mut at = from;
    let mut sid = id;
    while at < limit {
        let next = cache.cell_of_untagged(sid, dfa.class(haystack[at]));
        if next.is_tagged() {
            return Walked {
                at,
                id: sid,
                pauses: false,
            };
        }
        sid = next;
        at += 1;
        if sid == stop {
            return Walked {
                at,
                id: sid,
                pauses: true,
            };
        }
    }
    Walked {
        at,
        id: sid,
        pauses: at > from,
    }
}

/// The states that two byte loops reached, after `count` bytes each.
#[derive(Clone, Copy)]
pub(crate) struct Both {
    pub(crate) first: LazyStateID,
    pub(crate) second: LazyStateID,
    pub(crate) count: usize,
}

/// Follows known steps forward in two byte loops while neither is in a state with a tag.
#[inline(always)]
pub(crate) fn walk_both(
    dfa: &DFA,
    cache: &Cache,
    haystack: &[u8],
    first: LazyStateID,
    from: usize,
    second: LazyStateID,
    further: usize,
    count: usize,
) -> Both
    requires own { IsCacheOf dfa.now cache.now }
    requires is_forward { dfa.now.nfa.automaton.reverse ≡ false }
    requires row { IsRow cache.now first }
    requires untagged { first < tag }
    requires second_row { IsRow cache.now second }
    requires second_untagged { second < tag }
    requires fits { from + count ≤ length haystack.now }
    requires within { further + count ≤ length haystack.now }
    ensures first { MovesTo dfa.now cache.now haystack.now (record { at = from; id = first }) (from + count)
        (record { at = from + result.count; id = result.first }) }
    ensures second { MovesTo dfa.now cache.now haystack.now (record { at = further; id = second }) (further + count)
        (record { at = further + result.count; id = result.second }) }
{
    dfa.is_made();
    let mut one = first;
    let mut other = second;
    let mut read = 0;
    'both: while read < count {
        let next = cache.cell_of_untagged(one, dfa.class(haystack[from + read]));
        let other_next = cache.cell_of_untagged(other, dfa.class(haystack[further + read]));
        if next.is_tagged() || other_next.is_tagged() {
            return Both {
                first: one,
                second: other,
                count: read,
            };
        }
        one = next;
        other = other_next;
        read += 1;
    }
    Both {
        first: one,
        second: other,
        count: read,
    }
}
