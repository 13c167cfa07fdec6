//! Rows of ends, into which a stream writes what it reports.
ghost use Rattle.std.specs.Prelude.{◌≡◌, ◌+◌, ◌<◌, ◌≤◌, ◌++◌, ◌∷◌, [], IfNone, IfSome, None, Some, length, map, slice_set, take};
ghost use Rattle.determinize_core.specs.States.{StateValue};
ghost use Rattle.lazy_dfa.specs.Caches.{HeldAt, IsCacheOf, IsRow};
ghost use Rattle.lazy_dfa.specs.Dfas.{reader};
ghost use Rattle.streams.specs.Reading.{Appends};
ghost use Rattle.streams.specs.Streams.{begins_character, counts_before, stream_end, counted_ends};

use crate::stream::StreamMatch;
use lazy_dfa::LazyStateID;
use lazy_dfa::dfa::{Cache, DFA};

/// Whether an end right before this byte counts.
fn counts(dfa: &DFA, byte: u8) -> bool
    ensures { result ≡ counts_before dfa.now byte }
{
    let nfa = dfa.get_nfa();
    if !(nfa.is_utf8() && nfa.has_empty()) {
        return true;
    }
    byte <= 0x7F || 0xC0 <= byte
}

/// Writes the ends of the patterns that a state lists, after the first `count` rows. Returns how many rows are used then, or `None` if
/// there is no room for them.
pub(crate) fn write_ends(
    dfa: &DFA,
    cache: &Cache,
    id: LazyStateID,
    end: usize,
    rows: &mut [StreamMatch],
    count: usize,
) -> Option<usize>
    requires own { IsCacheOf dfa.now cache.now }
    requires row { IsRow cache.now id }
    requires count { count ≤ length rows.old }
    ensures fits { (s : StateValue) → HeldAt cache.now id s →
        IfSome result (λ n. Appends rows.old rows.new count n (map (stream_end end) s.matches)) }
    ensures full { (s : StateValue) → HeldAt cache.now id s →
        IfNone result (length rows.old < count + length (map (stream_end end) s.matches)) }
    ensures same { IfNone result (rows.new ≡ rows.old) }
    ensures length { length rows.new ≡ length rows.old }
{
    let n = dfa.match_len(cache, id);
    if rows.len() - count < n {
        return None;
    }
    for k in 0..n {
        let pattern = dfa.match_pattern(cache, id, k).as_usize();
        rows[count + k] = StreamMatch { pattern, end };
    }
    Some(count + n)
}

/// Writes the ends that the state after a byte lists, if an end counts before that byte.
pub(crate) fn write_counted(
    dfa: &DFA,
    cache: &Cache,
    id: LazyStateID,
    byte: u8,
    end: usize,
    rows: &mut [StreamMatch],
    count: usize,
) -> Option<usize>
    requires own { IsCacheOf dfa.now cache.now }
    requires row { IsRow cache.now id }
    requires count { count ≤ length rows.old }
    ensures fits { (s : StateValue) → HeldAt cache.now id s →
        IfSome result (λ n. Appends rows.old rows.new count n (counted_ends (counts_before dfa.now byte) end s.matches)) }
    ensures full { (s : StateValue) → HeldAt cache.now id s →
        IfNone result (length rows.old < count + length (counted_ends (counts_before dfa.now byte) end s.matches)) }
    ensures same { IfNone result (rows.new ≡ rows.old) }
    ensures length { length rows.new ≡ length rows.old }
{
    if !counts(dfa, byte) {
        return Some(count);
    }
    write_ends(dfa, cache, id, end, rows, count)
}
