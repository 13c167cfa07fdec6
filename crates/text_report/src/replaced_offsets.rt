//! Where parts of a text are after its matches were replaced.
ghost use Rattle.std.specs.Prelude.{◌≡◌, ◌≤◌, ◌+◌, ◌-◌, drop, length, map, nat_le, slice_range, take, IfOk};
ghost use Rattle.std.specs.List.{position};
ghost use Rattle.line_search.specs.LineMatchers.{span_pair};
ghost use Rattle.text_report.specs.ReplacedText.{begun_before, end_of_first};

use line_search::Fault;
use search_types::Span;

/// The index of the first match that begins at an offset or after it.
fn first_from(found: &[Span], at: usize) -> Option<usize>
    ensures { result ≡ position (λ s. nat_le at s.start) found.now }
{
    found.iter().position(|span| at <= span.start)
}

/// How many matches begin before an offset, if so many of them begin before an offset that isn't after it.
pub(crate) fn begun_before(found: &[Span], from: usize, at: usize) -> usize
    requires { from ≤ length found.now }
    ensures counted { result ≡ from + begun_before (map span_pair (drop from found.now)) at }
    ensures within { result ≤ length found.now }
{
    match first_from(&found[from..], at) {
        Some(n) => from + n,
        None => found.len(),
    }
}

/// The offset after the last one of the first n spans, or 0.
fn end_of_first(spans: &[Span], n: usize) -> usize
    ensures { result ≡ end_of_first (map span_pair spans.now) n }
{
    if n == 0 {
        return 0;
    }
    match spans.get(n - 1) {
        Some(span) => span.end,
        None => 0,
    }
}

/// The offset in the replaced text of what is at an offset of the text, before which so many matches begin.
pub(crate) fn offset_after(
    found: &[Span],
    spans: &[Span],
    n: usize,
    at: usize,
) -> Result<usize, Fault>
    ensures { IfOk result (λ new.
        new ≡ end_of_first (map span_pair spans.now) n + (at - end_of_first (map span_pair found.now) n)) }
{
    let left = at.saturating_sub(end_of_first(found, n));
    match end_of_first(spans, n).checked_add(left) {
        Some(new) => Ok(new),
        None => Err(Fault::TooLong),
    }
}

/// The first bytes of a text, or all if it has fewer.
pub(crate) fn front(text: &[u8], len: usize) -> &[u8]
    ensures { result.now ≡ take len text.now }
{
    if len >= text.len() {
        return text;
    }
    &text[..len]
}

/// The spans from one index to another.
pub(crate) fn spans_between(spans: &[Span], first: usize, past: usize) -> &[Span]
    ensures { result.now ≡ slice_range spans.now first past }
{
    let past = past.min(spans.len());
    if first >= past {
        return &[];
    }
    &spans[first..past]
}
