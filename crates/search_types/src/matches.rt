ghost use Rattle.std.specs.Prelude.{◌≡◌, ◌-◌, ◌≤◌, ◌↔◌, IsTrue};
ghost use Rattle.search_core.specs.Index.{greatest_index};

use crate::span::Span;
use search_core::PatternID;
use std::marker::Model;
use std::ops::Range;

/// A match: which pattern it is of, and its span, whose start is never above its end. A contract sees it as a
/// `Found`. As `regex_automata::Match`.
#[derive(Clone, Copy, Debug, PartialEq, Eq, Hash)]
pub struct Match {
    pattern: PatternID,
    span: Span,
}

impl Model for Match {
    ghost use Rattle.std.specs.Prelude.{◌≤◌};
    ghost use Rattle.search_types.specs.Found.{Found};

    ghost Value = { Found };

    ghost view = { λ m. record { pattern = m.pattern; start = m.span.start; end = m.span.end } };

    ghost invariant = { λ m. m.span.start ≤ m.span.end };

    ghost inverse = { λ f. record { pattern = f.pattern; span = record { start = f.start; end = f.end } } };
}

impl Match {
    /// A match of this pattern over this span.
    pub fn new(pattern: PatternID, span: Span) -> Match
        requires { span.start ≤ span.end }
        ensures { result ≡ record { pattern = pattern; start = span.start; end = span.end } }
    {
        Match { pattern, span }
    }

    /// A match of the pattern with this number over this span.
    pub fn must(pattern: usize, span: Span) -> Match
        requires index { pattern ≤ greatest_index }
        requires forward { span.start ≤ span.end }
        ensures { result ≡ record { pattern = pattern; start = span.start; end = span.end } }
    {
        Match::new(PatternID::must(pattern), span)
    }

    /// The pattern that matched.
    pub fn pattern(&self) -> PatternID
        ensures { result ≡ self.now.pattern }
    {
        self.pattern
    }

    /// Where the match starts.
    pub fn start(&self) -> usize
        ensures value { result ≡ self.now.start }
        ensures forward { self.now.start ≤ self.now.end }
    {
        self.span.start
    }

    /// Where the match ends: the offset right after its last byte.
    pub fn end(&self) -> usize
        ensures value { result ≡ self.now.end }
        ensures forward { self.now.start ≤ self.now.end }
    {
        self.span.end
    }

    /// The match's span as a range.
    pub fn range(&self) -> Range<usize>
        ensures value { result ≡ record { start = self.now.start; end = self.now.end } }
        ensures forward { self.now.start ≤ self.now.end }
    {
        self.span.range()
    }

    /// The match's span.
    pub fn span(&self) -> Span
        ensures value { result ≡ record { start = self.now.start; end = self.now.end } }
        ensures forward { self.now.start ≤ self.now.end }
    {
        self.span
    }

    /// Whether the match is empty.
    pub fn is_empty(&self) -> bool
        ensures { IsTrue result ↔ (self.now.start ≡ self.now.end) }
    {
        self.span.is_empty()
    }

    /// How many bytes the match has.
    pub fn len(&self) -> usize
        ensures value { result ≡ self.now.end - self.now.start }
        ensures forward { self.now.start ≤ self.now.end }
    {
        self.span.len()
    }
}

/// One end of a match: its pattern, and the offset that the search reached. That is the match's end for a
/// forward search and its start for a reverse one. A contract sees it as a `HalfFound`. As
/// `regex_automata::HalfMatch`.
#[derive(Clone, Copy, Debug, PartialEq, Eq, Hash)]
pub struct HalfMatch {
    pattern: PatternID,
    offset: usize,
}

impl Model for HalfMatch {
    ghost use Rattle.search_types.specs.Found.{HalfFound};

    ghost Value = { HalfFound };

    ghost view = { λ m. record { pattern = m.pattern; offset = m.offset } };

    ghost inverse = { λ f. record { pattern = f.pattern; offset = f.offset } };
}

impl HalfMatch {
    /// One end of a match of this pattern.
    pub fn new(pattern: PatternID, offset: usize) -> HalfMatch
        ensures { result ≡ record { pattern = pattern; offset = offset } }
    {
        HalfMatch { pattern, offset }
    }

    /// A half match of the pattern with this number at this offset.
    pub fn must(pattern: usize, offset: usize) -> HalfMatch
        requires { pattern ≤ greatest_index }
        ensures { result ≡ record { pattern = pattern; offset = offset } }
    {
        HalfMatch::new(PatternID::must(pattern), offset)
    }

    /// The pattern that matched.
    pub fn pattern(&self) -> PatternID
        ensures { result ≡ self.now.pattern }
    {
        self.pattern
    }

    /// The offset that the search reached, in bytes from the haystack's start.
    pub fn offset(&self) -> usize
        ensures { result ≡ self.now.offset }
    {
        self.offset
    }
}
