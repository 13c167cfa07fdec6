ghost use Rattle.std.specs.Prelude.{◌≡◌, ◌+◌, ◌<◌, ◌↔◌, IsTrue, false, length};
ghost use Rattle.search_core.specs.Utf8.{is_boundary};
ghost use Rattle.search_types.specs.declared.anchored.Anchored.TheVariants.{No};
ghost use Rattle.search_types.specs.Inputs.{IsSpanOf, IsWithin, with_span, with_anchored, with_earliest};

use crate::anchored::Anchored;
use crate::span::Span;
use search_core::utf8;
use std::marker::Model;
use std::ops::Range;

/// The parameters of a search: a haystack, the span of it that is searched, the mode, and whether the search
/// may stop at the first end of a match that it finds.
///
/// Looks at the ends of a match also read the bytes outside the span. The span's end is at most the
/// haystack's length, and its start at most one above its end. With a start above the end, the search is
/// done. [`Input::fits`] returns whether a span obeys these rules.
#[derive(Clone, Debug, Drop)]
pub struct Input<'h> {
    haystack: &'h [u8],
    span: Span,
    anchored: Anchored,
    earliest: bool,
}

impl<'h> Model for Input<'h> {
    ghost use Rattle.search_types.specs.Inputs.{Search, IsSpanOf};

    ghost Value = { Search };

    ghost view = { λ i. record {
      haystack = i.haystack.now;
      start = i.span.start;
      end = i.span.end;
      anchored = i.anchored;
      earliest = i.earliest;
    } };

    ghost invariant = { λ i. IsSpanOf i.haystack.now i.span.start i.span.end };
}

impl<'h> Input<'h> {
    /// A search of the whole haystack, not anchored, for the match that the kind of match prefers.
    pub fn new(haystack: &'h [u8]) -> Input<'h>
        ensures { result ≡ record { haystack = haystack.now; start = 0; end = length haystack.now; anchored = No; earliest = false } }
    {
        Input {
            haystack,
            span: Span {
                start: 0,
                end: haystack.len(),
            },
            anchored: Anchored::No,
            earliest: false,
        }
    }

    /// Returns this search with this span.
    pub fn span(self, span: Span) -> Input<'h>
        requires { IsSpanOf self.haystack span.start span.end }
        ensures { result ≡ with_span span.start span.end self.entry }
    {
        Input { span, ..self }
    }

    /// Returns this search with this range as its span.
    pub fn range(self, range: Range<usize>) -> Input<'h>
        requires { IsSpanOf self.haystack range.start range.end }
        ensures { result ≡ with_span range.start range.end self.entry }
    {
        self.span(Span {
            start: range.start,
            end: range.end,
        })
    }

    /// Returns this search in this mode.
    pub fn anchored(self, mode: Anchored) -> Input<'h>
        ensures { result ≡ with_anchored mode self.entry }
    {
        Input {
            anchored: mode,
            ..self
        }
    }

    /// Returns this search with this flag: whether it may stop at the first end that it finds.
    pub fn earliest(self, yes: bool) -> Input<'h>
        ensures { result ≡ with_earliest yes self.entry }
    {
        Input {
            earliest: yes,
            ..self
        }
    }

    /// Sets the span.
    pub fn set_span(&mut self, span: Span)
        requires { IsSpanOf self.old.haystack span.start span.end }
        ensures { self.new ≡ with_span span.start span.end self.old }
    {
        self.span = span;
    }

    /// Sets the span by a range.
    pub fn set_range(&mut self, range: Range<usize>)
        requires { IsSpanOf self.old.haystack range.start range.end }
        ensures { self.new ≡ with_span range.start range.end self.old }
    {
        self.set_span(Span {
            start: range.start,
            end: range.end,
        });
    }

    /// Sets the span's start and leaves its end.
    pub fn set_start(&mut self, start: usize)
        requires { IsSpanOf self.old.haystack start self.old.end }
        ensures { self.new ≡ with_span start self.old.end self.old }
    {
        self.span.start = start;
    }

    /// Sets the span's end and leaves its start.
    pub fn set_end(&mut self, end: usize)
        requires { IsSpanOf self.old.haystack self.old.start end }
        ensures { self.new ≡ with_span self.old.start end self.old }
    {
        self.span.end = end;
    }

    /// Sets the mode.
    pub fn set_anchored(&mut self, mode: Anchored)
        ensures { self.new ≡ with_anchored mode self.old }
    {
        self.anchored = mode;
    }

    /// Sets whether the search may stop at the first end that it finds.
    pub fn set_earliest(&mut self, yes: bool)
        ensures { self.new ≡ with_earliest yes self.old }
    {
        self.earliest = yes;
    }

    /// The whole haystack, also outside the span.
    pub fn haystack(&self) -> &'h [u8]
        ensures value { result.now ≡ self.now.haystack }
        ensures within { IsWithin self.now }
    {
        self.haystack
    }

    /// The span's start.
    pub fn start(&self) -> usize
        ensures value { result ≡ self.now.start }
        ensures within { IsWithin self.now }
    {
        self.span.start
    }

    /// The span's end.
    pub fn end(&self) -> usize
        ensures value { result ≡ self.now.end }
        ensures within { IsWithin self.now }
    {
        self.span.end
    }

    /// The span that is searched.
    pub fn get_span(&self) -> Span
        ensures value { result ≡ record { start = self.now.start; end = self.now.end } }
        ensures within { IsWithin self.now }
    {
        self.span
    }

    /// The span that is searched, as a range.
    pub fn get_range(&self) -> Range<usize>
        ensures value { result ≡ record { start = self.now.start; end = self.now.end } }
        ensures within { IsWithin self.now }
    {
        self.span.range()
    }

    /// The mode.
    pub fn get_anchored(&self) -> Anchored
        ensures { result ≡ self.now.anchored }
    {
        self.anchored
    }

    /// Whether the search may stop at the first end that it finds.
    pub fn get_earliest(&self) -> bool
        ensures { result ≡ self.now.earliest }
    {
        self.earliest
    }

    /// Whether there is nothing left to search: the start is above the end. An empty span is still
    /// searched.
    pub fn is_done(&self) -> bool
        ensures { IsTrue result ↔ (self.now.end < self.now.start) }
    {
        self.span.start > self.span.end
    }

    /// Whether UTF-8 may be cut at this offset of the haystack. Above the haystack's length the result is
    /// false.
    pub fn is_char_boundary(&self, at: usize) -> bool
        ensures { result ≡ is_boundary self.now.haystack at }
    {
        utf8::is_boundary(self.haystack, at)
    }

    /// Whether this may be the span of a search of the haystack.
    pub fn fits(&self, span: Span) -> bool
        ensures { IsTrue result ↔ IsSpanOf self.now.haystack span.start span.end }
    {
        span.end <= self.haystack.len() && span.start <= span.end + 1
    }
}
