//! Items of a text that are printed as JSON events, and the statistics of a text.
ghost use Rattle.std.specs.Prelude.{◌≡◌, ◌<◌, ◌+◌, ◌++◌, ℕ, List, IfOk, None, OnOk, Some, length, map, true, if◌then◌else◌};
ghost use Rattle.line_search.specs.LineMatchers.{span_pair};
ghost use Rattle.line_search.specs.Searchers.{SearchesFor, found_by};
ghost use Rattle.json_events.specs.Events.{as_line, lines_event};
ghost use Rattle.grep_core.specs.Printing.{has_marks};
ghost use Rattle.grep_core.specs.declared.role.Role.TheVariants.{Beside, Selected};
ghost use Rattle.text_report.specs.Events.{EventItem, full_stats, no_stats, printed, with_event};
ghost use Rattle.text_report.specs.EventCourse.{IsEventItem};

use grep_core::{OutputOptions, Role, may_select, searched};
use json_events::{Elapsed, Kind, Lines, Stats, push_lines};
use line_search::{Fault, Finder};
use search_types::Span;
use std::alloc::{AllocError, Global};

/// How many lines and matches are selected, and the offset after the last line that is printed, or 0.
#[derive(Clone, Copy)]
pub(crate) struct Counts {
    pub lines: u64,
    pub matches: u64,
    pub end: u64,
}

/// What one event has: a line, or adjacent lines.
#[derive(Clone, Copy)]
pub(crate) struct Item<'a> {
    /// The number of the first line, counted from 1.
    pub number: u64,
    /// The offset of the first byte.
    pub place: u64,
    /// The bytes, with the byte that ends each line.
    pub bytes: &'a [u8],
    /// The matches that are shown, as offsets in these bytes.
    pub found: &'a [Span],
    /// How many lines there are.
    pub lines: u64,
}

/// A sum, unless it is too large.
pub(crate) fn sum(a: u64, b: u64) -> Result<u64, Fault>
    ensures { IfOk result (λ n. n ≡ a + b) }
{
    match a.checked_add(b) {
        Some(n) => Ok(n),
        None => Err(Fault::TooLong),
    }
}

/// Appends the event of an item.
fn push_event(
    alloc: Global,
    out: &mut Vec<u8>,
    what: &OutputOptions<'_>,
    name: &[u8],
    kind: Kind,
    item: Item<'_>,
) -> Result<(), AllocError>
    ensures { OnOk result (out.new.items ≡ out.old.items ++ as_line (lines_event name.now kind (if what.now.numbers then Some item.entry.number else None)
        item.entry.place item.entry.bytes.now (map span_pair item.entry.found.now))) }
{
    let lines = Lines {
        kind,
        number: if what.numbers {
            Some(item.number)
        } else {
            None
        },
        place: item.place,
        bytes: item.bytes,
        found: item.found,
    };
    push_lines(alloc, out, name, lines)
}

/// Appends the event of an item that is a context line, and counts it.
fn push_context(
    alloc: Global,
    out: &mut Vec<u8>,
    what: &OutputOptions<'_>,
    name: &[u8],
    item: Item<'_>,
    counts: Counts,
) -> Result<Counts, Fault>
    ensures kept { IfOk result (λ new. 0 < length item.entry.bytes.now → new.end ≡ 0 → counts.end ≡ 0) }
    ensures reported { IfOk result (λ new. (it : EventItem) → IsEventItem what.now Beside item.entry it →
        printed out.new.items new ≡ with_event what.now name.now Beside it (printed out.old.items counts)) }
{
    let end = match sum(item.place, item.bytes.len() as u64) {
        Ok(end) => end,
        Err(e) => return Err(e),
    };
    match push_event(alloc, out, what, name, Kind::Context, item) {
        Ok(()) => Ok(Counts {
            lines: counts.lines,
            matches: counts.matches,
            end,
        }),
        Err(_) => Err(Fault::NoMemory),
    }
}

/// Appends the event of an item that is selected, and counts it.
fn push_selected(
    alloc: Global,
    out: &mut Vec<u8>,
    what: &OutputOptions<'_>,
    name: &[u8],
    item: Item<'_>,
    counts: Counts,
) -> Result<Counts, Fault>
    ensures kept { IfOk result (λ new. 0 < length item.entry.bytes.now → new.end ≡ 0 → counts.end ≡ 0) }
    ensures reported { IfOk result (λ new. (it : EventItem) → IsEventItem what.now Selected item.entry it →
        printed out.new.items new ≡ with_event what.now name.now Selected it (printed out.old.items counts)) }
{
    let end = match sum(item.place, item.bytes.len() as u64) {
        Ok(end) => end,
        Err(e) => return Err(e),
    };
    let lines = match sum(counts.lines, item.lines) {
        Ok(lines) => lines,
        Err(e) => return Err(e),
    };
    let matches = match sum(counts.matches, item.found.len() as u64) {
        Ok(matches) => matches,
        Err(e) => return Err(e),
    };
    match push_event(alloc, out, what, name, Kind::Match, item) {
        Ok(()) => Ok(Counts {
            lines,
            matches,
            end,
        }),
        Err(_) => Err(Fault::NoMemory),
    }
}

/// Appends the event of an item in this role, if it is printed, and counts it.
pub(crate) fn push_item(
    alloc: Global,
    out: &mut Vec<u8>,
    what: &OutputOptions<'_>,
    name: &[u8],
    role: Role,
    item: Item<'_>,
    counts: Counts,
) -> Result<Counts, Fault>
    ensures kept { IfOk result (λ new. 0 < length item.entry.bytes.now → new.end ≡ 0 → counts.end ≡ 0) }
    ensures reported { IfOk result (λ new. (it : EventItem) → IsEventItem what.now role item.entry it →
        printed out.new.items new ≡ with_event what.now name.now role it (printed out.old.items counts)) }
{
    match role {
        Role::Hidden => Ok(counts),
        Role::Beside => push_context(alloc, out, what, name, item, counts),
        Role::Selected => push_selected(alloc, out, what, name, item, counts),
    }
}

/// Whether the matches of a line in this role are shown.
pub(crate) fn has_marks(what: &OutputOptions<'_>, role: Role) -> bool
    ensures { result ≡ has_marks what.now role }
{
    match role {
        Role::Selected => !what.invert,
        _ => what.invert,
    }
}

/// All matches of a line.
pub(crate) fn matches_of(
    alloc: Global,
    finder: &mut Finder<'_>,
    bytes: &[u8],
    is_ended: bool,
) -> Result<Vec<Span>, Fault>
    ensures same { finder.new ≡ finder.old }
    ensures found { IfOk result (λ found. (by : SearchesFor finder.old true) →
        map span_pair found.items ≡ (found_by by).spans (record { bytes = bytes.now; is_ended = is_ended })) }
{
    let line = searched(finder.crlf(), bytes, is_ended);
    match finder.matches(alloc, line) {
        Ok(found) => Ok(found),
        Err(e) => Err(e),
    }
}

/// The statistics of a text of this size, of which so many bytes are printed before the event at the end.
pub(crate) fn stats_of(
    what: &OutputOptions<'_>,
    time: Elapsed,
    size: usize,
    bytes_printed: u64,
    counts: Counts,
) -> Stats
    ensures { (bytes : List ℕ) → bytes_printed ≡ length bytes → result ≡ full_stats what.now time size (printed bytes counts) }
{
    let searched = if may_select(what, counts.lines) {
        size as u64
    } else {
        counts.end
    };
    Stats {
        elapsed: time,
        searches: 1,
        searches_with_match: if counts.lines > 0 { 1 } else { 0 },
        bytes_searched: searched,
        bytes_printed,
        matched_lines: counts.lines,
        matches: counts.matches,
    }
}

/// The statistics of no text.
pub(crate) fn no_stats() -> Stats
    ensures { result ≡ no_stats }
{
    Stats {
        elapsed: Elapsed { secs: 0, nanos: 0 },
        searches: 0,
        searches_with_match: 0,
        bytes_searched: 0,
        bytes_printed: 0,
        matched_lines: 0,
        matches: 0,
    }
}
