ghost use Rattle.std.specs.Prelude.{◌≡◌, [], ◌∷◌, MatchOption};
ghost use Rattle.std.specs.Iterator.{YieldsFirst, item_count};
ghost use Rattle.search_types.specs.CapturesValue.{group_spans, known_spans, match_spans};

use crate::captures::Captures;
use crate::span::Span;
use std::iter::FusedIterator;
use std::marker::Model;

/// The spans of the groups of the matched pattern in order, `None` for a group without one. A contract
/// sees it as the list of those that are left. As `regex_automata::util::captures::CapturesPatternIter`.
#[derive(Drop)]
pub struct CapturesPatternIter<'a> {
    captures: &'a Captures,
    next: usize,
    end: usize,
}

impl<'a> Model for CapturesPatternIter<'a> {
    ghost use Rattle.std.specs.Prelude.{◌-◌, List, Option};
    ghost use Rattle.search_types.specs.declared.span.Span.{Span as GroupSpan};
    ghost use Rattle.search_types.specs.CapturesValue.{spans_from};

    ghost Value = { List (Option GroupSpan) };

    ghost view = { λ it. spans_from it.captures.now it.next (it.end - it.next) };
}

impl<'a> CapturesPatternIter<'a> {
    pub(crate) fn new(captures: &'a Captures) -> CapturesPatternIter<'a>
        ensures { result ≡ group_spans captures.now }
    {
        CapturesPatternIter {
            captures,
            next: 0,
            end: captures.group_len(),
        }
    }

    /// The overall span, which comes first, if it is there.
    pub(crate) fn next_overall(&mut self) -> Option<Span>
        ensures { MatchOption result (match_spans self.old ≡ []) (λ span. match_spans self.old ≡ span ∷ known_spans self.new) }
    {
        self.next()?
    }

    /// The next span of a group that took part in the match.
    pub(crate) fn next_known(&mut self) -> Option<Span>
        ensures { MatchOption result (known_spans self.old ≡ []) (λ span. known_spans self.old ≡ span ∷ known_spans self.new) }
    {
        while let Some(span) = self.next() {
            if span.is_some() {
                return span;
            }
        }
        None
    }
}

impl<'a> Iterator for CapturesPatternIter<'a> {
    type Item = Option<Span>;

    ghost next_gives = { YieldsFirst (λ rest. rest) };

    ghost remaining = { item_count (λ rest. rest) };

    fn next(&mut self) -> Option<Option<Span>> {
        if self.next >= self.end {
            return None;
        }
        let span = self.captures.get_group(self.next);
        self.next += 1;
        Some(span)
    }
}

impl<'a> FusedIterator for CapturesPatternIter<'a> {}
