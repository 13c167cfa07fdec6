ghost use Rattle.std.specs.Prelude.{◌≡◌, ◌+◌, ◌-◌, ◌<◌, ◌≤◌, ◌^◌, ◌↔◌, IsTrue};

use std::ops::Range;

/// A part of a haystack, as the offsets of its two ends in bytes. The byte at `end` is outside. A start above
/// the end is allowed, and such a span is empty. As `regex_automata::Span`.
#[derive(Clone, Copy, Debug, PartialEq, Eq, Hash)]
pub struct Span {
    pub start: usize,
    pub end: usize,
}

impl Span {
    /// The two ends as a range.
    pub fn range(&self) -> Range<usize>
        ensures start { result.start ≡ self.now.start }
        ensures end { result.end ≡ self.now.end }
    {
        self.start..self.end
    }

    /// Whether there is no byte between the start and the end.
    pub fn is_empty(&self) -> bool
        ensures { IsTrue result ↔ (self.now.end ≤ self.now.start) }
    {
        self.start >= self.end
    }

    /// How many bytes the span has, or 0 if the start is above the end.
    pub fn len(&self) -> usize
        ensures { result ≡ self.now.end - self.now.start }
    {
        self.end.saturating_sub(self.start)
    }

    /// Whether the byte at this offset is in the span. The one at the end isn't.
    pub fn contains(&self, at: usize) -> bool
        ensures { IsTrue result ↔ ((self.now.start ≤ at) × (at < self.now.end)) }
    {
        self.start <= at && at < self.end
    }

    /// The span that lies so many bytes further on.
    pub fn offset(&self, by: usize) -> Span
        requires start_fits { self.now.start + by < 2 ^ 64 }
        requires end_fits { self.now.end + by < 2 ^ 64 }
        ensures start { result.start ≡ self.now.start + by }
        ensures end { result.end ≡ self.now.end + by }
    {
        Span {
            start: self.start + by,
            end: self.end + by,
        }
    }
}
