//! Matches one after the other.
ghost use Rattle.std.specs.Prelude.{◌≡◌, ◌+◌, ◌<◌, ◌≤◌, false, None, Ok};
ghost use Rattle.std.specs.Iterator.{at_most};
ghost use Rattle.search_types.specs.AllAnswers.{is_repeat};
ghost use Rattle.search_types.specs.Inputs.{IsSpanOf};
ghost use Rattle.lazy_dfa.specs.Blanks.{FitsLedger};
ghost use Rattle.regex_pair.specs.Finding.{finding_all, search_at, IsNextAnswer, KeepsTwice};
ghost use Rattle.regex_pair.specs.FindSteps.{searches_by, finds_from, caches_of, borrow_name_of, items_left, MayGoOn, FindsNext};
ghost use Rattle.regex_pair.specs.Pairs.{AreCachesOf};
ghost use Rattle.regex_pair.specs.StepSearches.{SearchesNext, SearchesUncounted};

use crate::regex::{Cache, Regex};
use lazy_dfa::Work;
use search_types::{Anchored, Input, Match, MatchError, Span};
use std::marker::Brand;
use std::sync::ledger::{Blank, Ledger};

/// A search, with a count of its work that is made for this call.
#[inline(always)]
fn search_counted<L: Ledger, M: Ledger>(
    re: &Regex,
    cache: &mut Cache,
    input: &Input<'_>,
    first: Blank,
    second: Blank,
) -> Result<Option<Match>, MatchError>
    requires own { AreCachesOf re.now cache.old }
    requires first { FitsLedger first.name first.parts L.name L.parts }
    requires second { FitsLedger second.name second.parts M.name M.parts }
    ensures { SearchesUncounted re.now input.now cache.old cache.new result }
{
    let mut work = Work::<L, M>::new(first, second);
    re.try_search(cache, input, &mut work)
}

/// A search whose work nobody counts, with the errors of [`Regex::try_search`]. If the span's start is after its end, it returns `Ok(None)`
/// and leaves the caches as they were.
#[inline(always)]
pub fn search_once(
    re: &Regex,
    cache: &mut Cache,
    input: &Input<'_>,
) -> Result<Option<Match>, MatchError>
    requires own { AreCachesOf re.now cache.old }
    ensures { SearchesUncounted re.now input.now cache.old cache.new result }
{
    let first = Blank::new(1);
    let second = Blank::new(1);
    search_counted::<Brand, Brand>(re, cache, input, first, second)
}

/// One more search, as [`search_once`] makes it. It is rarely needed.
#[inline(never)]
fn search_once_more(
    re: &Regex,
    cache: &mut Cache,
    input: &Input<'_>,
) -> Result<Option<Match>, MatchError>
    requires own { AreCachesOf re.now cache.old }
    ensures { SearchesUncounted re.now input.now cache.old cache.new result }
{
    search_once(re, cache, input)
}

/// Whether an answer is empty at the end of the last match.
#[inline(always)]
fn is_repeat(last: Option<usize>, found: &Option<Match>) -> bool
    ensures { result ≡ is_repeat last found.now }
{
    let Some(last) = last else {
        return false;
    };
    let Some(found) = found else {
        return false;
    };
    found.start() == found.end() && found.end() == last
}

/// A search, by its parts.
#[inline(always)]
fn search_over<'h>(haystack: &'h [u8], span: Span, anchored: Anchored, earliest: bool) -> Input<'h>
    requires { IsSpanOf haystack.now span.start span.end }
    ensures { result ≡ record { haystack = haystack.now; start = span.start; end = span.end; anchored = anchored; earliest = earliest } }
{
    let mut input = Input::new(haystack);
    input.set_span(span);
    input.set_anchored(anchored);
    input.set_earliest(earliest);
    input
}

/// This search from the next offset on.
fn one_further<'h>(input: &Input<'h>) -> Input<'h>
    requires { input.now.start ≤ input.now.end }
    ensures { result ≡ search_at input.now (input.now.start + 1) }
{
    let mut further = Input::new(input.haystack());
    further.set_span(Span {
        start: input.start() + 1,
        end: input.end(),
    });
    further.set_anchored(input.get_anchored());
    further.set_earliest(input.get_earliest());
    further
}

/// The next answer: that of the search or, if this is a repeat, that of the search from the next offset on.
#[inline(always)]
fn next_answer(
    re: &Regex,
    cache: &mut Cache,
    input: &Input<'_>,
    last: Option<usize>,
) -> Result<Option<Match>, MatchError>
    requires own { AreCachesOf re.now cache.old }
    ensures own { AreCachesOf re.now cache.new }
    ensures answer { IsNextAnswer re.now (record { search = input.now; last = last; is_over = false }) cache.new result }
    ensures done { input.now.end < input.now.start → (result ≡ Ok None) × (cache.new ≡ cache.old) }
    ensures kept { KeepsTwice re.now cache.old cache.new }
    ensures searches { SearchesNext re.now (record { search = input.now; last = last; is_over = false }) cache.old cache.new result }
{
    let found = match search_once(re, cache, input) {
        Ok(found) => found,
        Err(e) => return Err(e),
    };
    if !is_repeat(last, &found) {
        return Ok(found);
    }
    let further = one_further(input);
    match search_once_more(re, cache, &further) {
        Ok(found) => Ok(found),
        Err(e) => Err(e),
    }
}

/// An iterator over the matches of a regex in a span, none of which overlap, as `regex_automata::hybrid::regex::FindMatches`.
///
/// Each item is the next match. An empty match at the end of the last match is skipped. An error is the last item, where the
/// iterator of the Rust crate panics. After an error and after the end, the iterator returns `None` for good.
///
/// After each step, whatever it returned, the caches still belong to the regex. They keep what they have unless they were cleared,
/// and they record how far searches came, as in [`try_search`](Regex::try_search). Over a done span they stay as they are.
///
/// When the iterator is dropped, the borrowed caches belong to the regex. For this, the invariant of a loop says that the iterator
/// may go on (`MayGoOn`). It also says that the regex (`searches_by`) and the name of the reference (`borrow_name_of`) are those with
/// which the loop began. The laws of what the loop took are in [`taken_laws`](crate::taken_laws).
#[derive(Drop)]
pub struct FindMatches<'r, 'c, 'h> {
    cache: &'c mut Cache,
    re: &'r Regex,
    // the parts of the input: with an `Input` as a field, callers wouldn't know the caches after the iterator is dropped
    haystack: &'h [u8],
    start: usize,
    end: usize,
    anchored: Anchored,
    earliest: bool,
    last: Option<usize>,
    is_over: bool,
}

impl Regex {
    /// The matches in a span one after the other, as `Regex::find_iter`. The iterator has made no search yet. The work of its
    /// searches isn't counted.
    pub fn find_iter<'r, 'c, 'h>(
        &'r self,
        cache: &'c mut Cache,
        input: Input<'h>,
    ) -> FindMatches<'r, 'c, 'h>
        requires own { AreCachesOf self.now cache.old }
        ensures regex { searches_by result ≡ self.now }
        ensures from { finds_from result ≡ finding_all input.entry }
        ensures caches { caches_of result ≡ cache.old }
        ensures same_reference { borrow_name_of result ≡ cache.entry.ghost_name }
        ensures goes_on { MayGoOn result }
    {
        FindMatches {
            cache,
            re: self,
            haystack: input.haystack(),
            start: input.start(),
            end: input.end(),
            anchored: input.get_anchored(),
            earliest: input.get_earliest(),
            last: None,
            is_over: false,
        }
    }
}

impl<'r, 'c, 'h> Iterator for FindMatches<'r, 'c, 'h> {
    type Item = Result<Match, MatchError>;

    ghost can_next = { λ it. MayGoOn it };

    ghost next_gives = { λ old item new. FindsNext old item new };

    ghost remaining = { λ it. at_most (items_left it) };

    fn next(&mut self) -> Option<Result<Match, MatchError>> {
        if self.is_over {
            return None;
        }
        let span = Span {
            start: self.start,
            end: self.end,
        };
        let input = search_over(self.haystack, span, self.anchored, self.earliest);
        match next_answer(self.re, self.cache, &input, self.last) {
            Ok(Some(found)) => {
                let end = found.end();
                self.start = end;
                self.last = Some(end);
                Some(Ok(found))
            }
            Ok(None) => {
                self.is_over = true; // after the end
                None
            }
            Err(e) => {
                self.is_over = true; // after an error
                Some(Err(e))
            }
        }
    }
}
