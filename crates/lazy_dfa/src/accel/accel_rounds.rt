//! Rounds: bytes that lead from the state to stop at back to it.
//!
//! If few bytes leave a state, most of them begin nothing: the next byte leads back. So after each byte that leaves, the next one
//! is tried before bytes are read one by one.
ghost use Rattle.std.specs.Prelude.{◌≡◌, ℕ, ◌+◌, ◌-◌, ◌<◌, ◌≤◌, false, true, length, slice_index_or, Option};
ghost use Rattle.lazy_dfa.specs.ByteTests.{in_halves};
ghost use Rattle.lazy_dfa.specs.Caches.{IsCacheOf, IsRow};
ghost use Rattle.lazy_dfa.specs.Ids.{tag};
ghost use Rattle.lazy_dfa.specs.Points.{GoesTo, point};
ghost use Rattle.lazy_dfa.specs.AccelBytes.{leaves};
ghost use Rattle.lazy_dfa.specs.Skips.{cell_by, AreSkipped, IsSkip};
ghost use Rattle.lazy_dfa.specs.Stretches.{SkipsTo};

use crate::accel::accel_bytes::Leaving;
use crate::accel::byte_tests::{ByteTest, Either, OneByte, find_by};
use crate::accel::half_tables::HalfTables;
use crate::accel::pairs::find_pair;
use crate::accel::skip::{Skip, is_used_up, paid};
use crate::automaton::dfa::{Cache, DFA};
use crate::lazy_id::LazyStateID;

/// How far rounds came, and the credit after them.
#[derive(Clone, Copy)]
struct Circled {
    at: usize,
    credit: usize,
}

/// Whether a byte leads from a state to another one without a tag, and the byte after it leads back.
#[inline(always)]
fn comes_back(
    dfa: &DFA,
    cache: &Cache,
    haystack: &[u8],
    id: LazyStateID,
    at: usize,
    end: usize,
) -> bool
    requires own { IsCacheOf dfa.now cache.now }
    requires is_forward { dfa.now.nfa.automaton.reverse ≡ false }
    requires row { IsRow cache.now id }
    requires untagged { id < tag }
    requires fits { at ≤ end }
    requires within { end ≤ length haystack.now }
    ensures within { result ≡ true → at + 2 ≤ end }
    ensures goes { result ≡ true → (m n : ℕ) (best : Option (ℕ × ℕ)) →
        GoesTo dfa.now haystack.now (point cache.now m n at id best) (point cache.now m n (at + 2) id best) 2 }
{
    dfa.is_made();
    if end - at < 2 {
        return false;
    }
    let next = cache.cell_of_untagged(id, dfa.class(haystack[at]));
    if next.is_tagged() {
        return false;
    }
    let back = cache.cell_of_untagged(next, dfa.class(haystack[at + 1]));
    back == id
}

/// Skips bytes that don't leave a state, which are those that fail a test. Each time the next two bytes lead back to the state,
/// it skips these too.
#[inline(always)]
fn circle<T: ByteTest>(
    dfa: &DFA,
    cache: &Cache,
    test: &T,
    haystack: &[u8],
    id: LazyStateID,
    from: usize,
    end: usize,
    credit: usize,
) -> Circled
    requires own { IsCacheOf dfa.now cache.now }
    requires is_forward { dfa.now.nfa.automaton.reverse ≡ false }
    requires row { IsRow cache.now id }
    requires untagged { id < tag }
    requires fits { from ≤ end }
    requires within { end ≤ length haystack.now }
    requires stays { (byte : ℕ) → byte < 256 → T.passes test.now byte ≡ false → cell_by cache.now.cells cache.now.classes id byte ≡ id }
    ensures { SkipsTo dfa.now cache.now haystack.now id from end result.at }
{
    dfa.is_made();
    let mut at = from;
    let mut credit = credit;
    'round: loop {
        let to = find_by(test, haystack, at, end);
        credit = paid(credit, to - at);
        if is_used_up(credit) || !comes_back(dfa, cache, haystack, id, to, end) {
            return Circled { at: to, credit };
        }
        at = to + 2;
    }
}

/// Returns the offset of the last byte before `to` if that byte passes, and otherwise `to`.
#[inline(always)]
fn before_last<T: ByteTest>(test: &T, haystack: &[u8], from: usize, to: usize) -> usize
    requires fits { from ≤ to }
    requires within { to ≤ length haystack.now }
    ensures past { from ≤ result }
    ensures most { result ≤ to }
    ensures fails { result ≡ to → from < to → T.passes test.now (slice_index_or haystack.now (to - 1) 0) ≡ false }
    ensures passes { result < to → T.passes test.now (slice_index_or haystack.now result 0) ≡ true }
{
    if from < to && test.passes(haystack[to - 1]) {
        return to - 1;
    }
    to
}

/// Skips bytes that don't leave a state. Each time the second of two bytes fails a test, both lead back, and it skips them too.
#[inline(always)]
fn circle_by_pairs<T: ByteTest>(
    dfa: &DFA,
    cache: &Cache,
    test: &T,
    behind: &HalfTables,
    haystack: &[u8],
    id: LazyStateID,
    from: usize,
    end: usize,
    credit: usize,
) -> Circled
    requires own { IsCacheOf dfa.now cache.now }
    requires is_forward { dfa.now.nfa.automaton.reverse ≡ false }
    requires row { IsRow cache.now id }
    requires untagged { id < tag }
    requires fits { from ≤ end }
    requires within { end ≤ length haystack.now }
    requires pairs { AreSkipped cache.now.cells cache.now.classes id (T.passes test.now) (in_halves behind.now.low behind.now.high) }
    ensures { SkipsTo dfa.now cache.now haystack.now id from end result.at }
{
    dfa.is_made();
    let to = find_pair(test, behind, haystack, from, end);
    let at = before_last(test, haystack, from, to);
    Circled {
        at,
        credit: paid(credit, at - from),
    }
}

/// Skips bytes by the test of the byte after one that leaves, if one is noted. Otherwise it skips them as `circle` does.
#[inline(always)]
fn circle_few<T: ByteTest>(
    dfa: &DFA,
    cache: &Cache,
    test: &T,
    skip: &Skip,
    haystack: &[u8],
    id: LazyStateID,
    from: usize,
    end: usize,
) -> Circled
    requires own { IsCacheOf dfa.now cache.now }
    requires is_forward { dfa.now.nfa.automaton.reverse ≡ false }
    requires row { IsRow cache.now id }
    requires untagged { id < tag }
    requires fits { from ≤ end }
    requires within { end ≤ length haystack.now }
    requires stop { skip.now.stop ≡ id }
    requires noted { IsSkip cache.now.cells cache.now.classes skip.now }
    requires same { (byte : ℕ) → T.passes test.now byte ≡ leaves skip.now.leaving byte }
    ensures { SkipsTo dfa.now cache.now haystack.now id from end result.at }
{
    match &skip.behind {
        Some(behind) => circle_by_pairs(
            dfa,
            cache,
            test,
            behind,
            haystack,
            id,
            from,
            end,
            skip.credit,
        ),
        None => circle(dfa, cache, test, haystack, id, from, end, skip.credit),
    }
}

/// The rounds from the state to stop at, by the test of the bytes that leave it.
#[inline(always)]
fn circle_by(
    dfa: &DFA,
    cache: &Cache,
    haystack: &[u8],
    id: LazyStateID,
    from: usize,
    end: usize,
) -> Circled
    requires own { IsCacheOf dfa.now cache.now }
    requires is_forward { dfa.now.nfa.automaton.reverse ≡ false }
    requires row { IsRow cache.now id }
    requires untagged { id < tag }
    requires fits { from ≤ end }
    requires within { end ≤ length haystack.now }
    ensures { SkipsTo dfa.now cache.now haystack.now id from end result.at }
{
    dfa.is_made();
    let skip = cache.skip();
    let credit = skip.credit;
    if id != skip.stop {
        return Circled { at: from, credit };
    }
    match &skip.leaving {
        Leaving::Never => Circled { at: end, credit },
        Leaving::One(a) => circle_few(dfa, cache, &OneByte(*a), skip, haystack, id, from, end),
        Leaving::Two(a, b) => {
            let two = Either(OneByte(*a), OneByte(*b));
            circle_few(dfa, cache, &two, skip, haystack, id, from, end)
        }
        Leaving::Three(a, b, c) => {
            let three = Either(OneByte(*a), Either(OneByte(*b), OneByte(*c)));
            circle_few(dfa, cache, &three, skip, haystack, id, from, end)
        }
        Leaving::Range(a) => circle(dfa, cache, a, haystack, id, from, end, credit),
        Leaving::Ranges(a, b) => {
            let two = Either(*a, *b);
            circle(dfa, cache, &two, haystack, id, from, end, credit)
        }
        Leaving::Halves(tables) => circle(dfa, cache, tables, haystack, id, from, end, credit),
        Leaving::Rows(tables) => circle(dfa, cache, tables, haystack, id, from, end, credit),
    }
}

/// Returns the offset where a search goes on that pauses in a state. If this is the state to stop at, it is the offset after
/// bytes that lead from the state back to it.
#[inline(always)]
pub(crate) fn skip_over(
    dfa: &DFA,
    cache: &mut Cache,
    haystack: &[u8],
    id: LazyStateID,
    from: usize,
    end: usize,
) -> usize
    requires own { IsCacheOf dfa.now cache.old }
    requires is_forward { dfa.now.nfa.automaton.reverse ≡ false }
    requires row { IsRow cache.old id }
    requires untagged { id < tag }
    requires fits { from ≤ end }
    requires within { end ≤ length haystack.now }
    ensures same { cache.new ≡ cache.old }
    ensures skips { SkipsTo dfa.now cache.old haystack.now id from end result }
{
    if from == end {
        return end;
    }
    if id != cache.stop() {
        cache.look(id, haystack[from]);
    }
    if id != cache.stop() {
        return from;
    }
    let circled = circle_by(dfa, cache, haystack, id, from, end);
    cache.pay(circled.credit);
    circled.at
}
