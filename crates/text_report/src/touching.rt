//! Which lines of a text a match touches, and the part of it that is in a line.
ghost use Rattle.std.specs.Prelude.{◌≡◌, ◌++◌, ◌∷◌, ◌≤◌, [], ℕ, Bool, OnOk, drop, map};
ghost use Rattle.std.specs.List.{filter, list_any};
ghost use Rattle.line_search.specs.LineMatchers.{span_pair};
ghost use Rattle.text_report.specs.Touching.{StartInOrder, begins_between, counts_at, part_at, touches_at};

use search_types::Span;
use std::alloc::AllocError;

/// Whether a match begins in a line that is at these offsets, without the byte that ends it.
pub fn begins_between(start: usize, end: usize, span: Span) -> bool
    ensures { result ≡ begins_between start end (span_pair span) }
{
    start <= span.start && span.start <= end
}

/// Whether a match touches such a line: one of its bytes is a byte of the line or the one that ends it, or it is empty and begins in the line.
pub fn touches_at(start: usize, end: usize, span: Span) -> bool
    ensures { result ≡ touches_at start end (span_pair span) }
{
    if span.start < span.end {
        return span.start <= end && start < span.end;
    }
    begins_between(start, end, span)
}

/// Whether a match counts for such a line: it begins in the line, or if that isn't asked for, it touches the line.
pub fn counts_at(begun: bool, start: usize, end: usize, span: Span) -> bool
    ensures { result ≡ counts_at begun start end (span_pair span) }
{
    if begun {
        return begins_between(start, end, span);
    }
    touches_at(start, end, span)
}

/// The part of a match that is in such a line, as offsets in the line, of which so many bytes are searched. A part after these is empty.
pub fn part_at(start: usize, end: usize, size: usize, span: Span) -> Span
    ensures { span_pair result ≡ part_at start end size (span_pair span) }
{
    let first = span
        .start
        .saturating_sub(start)
        .min(end.saturating_sub(start));
    let last = first.max(span.end.saturating_sub(start).min(size));
    Span {
        start: first,
        end: last,
    }
}

/// The index of the first match, from this one on, that isn't before each line from an offset on.
pub fn first_touching(found: &[Span], from: usize, place: usize) -> usize
    ensures { (begun : Bool) (start end : ℕ) → place ≤ start →
        filter (counts_at begun start end) (map span_pair (drop from found.now))
        ≡ filter (counts_at begun start end) (map span_pair (drop result found.now)) }
{
    let mut at = from;
    while at < found.len() {
        if place <= found[at].start || place < found[at].end {
            return at;
        }
        at += 1;
    }
    at
}

/// Whether one of these matches, which are in order, counts for such a line. It stops at the first one after the line.
pub fn has_one(found: &[Span], begun: bool, start: usize, end: usize) -> bool
    ensures { StartInOrder (map span_pair found.now) → result ≡ list_any (counts_at begun start end) (map span_pair found.now) }
{
    for span in found {
        if end < span.start {
            return false;
        }
        if counts_at(begun, start, end, *span) {
            return true;
        }
    }
    false
}

/// The matches from an index on.
pub fn from_index(found: &[Span], first: usize) -> &[Span]
    ensures { result.now ≡ drop first found.now }
{
    if first > found.len() {
        return &[];
    }
    &found[first..]
}

/// Appends the part of a match that is in such a line, if the match counts for it.
fn push_part(
    parts: &mut Vec<Span>,
    begun: bool,
    start: usize,
    end: usize,
    size: usize,
    span: Span,
) -> Result<(), AllocError>
    ensures { OnOk result (map span_pair parts.new.items ≡ map span_pair parts.old.items
        ++ map (part_at start end size) (filter (counts_at begun start end) (span_pair span ∷ []))) }
{
    if !counts_at(begun, start, end, span) {
        return Ok(());
    }
    parts.push(part_at(start, end, size, span))?;
    Ok(())
}

/// Appends the parts of these matches, which are in order, that are in such a line. It stops at the first match after the line.
pub fn push_parts(
    parts: &mut Vec<Span>,
    found: &[Span],
    begun: bool,
    start: usize,
    end: usize,
    size: usize,
) -> Result<(), AllocError>
    ensures { OnOk result (StartInOrder (map span_pair found.now) → map span_pair parts.new.items ≡ map span_pair parts.old.items
        ++ map (part_at start end size) (filter (counts_at begun start end) (map span_pair found.now))) }
{
    for span in found {
        if end < span.start {
            return Ok(());
        }
        push_part(parts, begun, start, end, size, *span)?;
    }
    Ok(())
}
