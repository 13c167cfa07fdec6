//! Searches over two automata.
ghost use Rattle.std.specs.Prelude.{◌≡◌, ◌<◌, ◌≤◌, false, None, Ok};
ghost use Rattle.search_types.specs.Inputs.{IsWithin};
ghost use Rattle.lazy_dfa.specs.Caches.{IsCacheOf};
ghost use Rattle.lazy_dfa.specs.Dfas.{reader};
ghost use Rattle.lazy_dfa.specs.SearchPromises.{MakesHalf};
ghost use Rattle.regex_pair.specs.Joined.{back_from, is_start_known};
ghost use Rattle.regex_pair.specs.MadeSearches.{MakesBack, FindsEnd, MakesMatch, MakesPair, SearchesMatch, SearchesPair};
ghost use Rattle.regex_pair.specs.Matching.{match_search};
ghost use Rattle.regex_pair.specs.Pairs.{AreCachesOf, IsPair};

use crate::regex::{Cache, Regex};
use lazy_dfa::{Work, dfa};
use search_types::{Anchored, HalfMatch, Input, Match, MatchError, MatchErrorKind, Span};
use std::sync::ledger::Ledger;

/// Whether the start of a match that ends there is known without a search back.
#[inline(always)]
fn is_start_known(re: &Regex, input: &Input<'_>, end: usize) -> bool
    ensures { result ≡ is_start_known (reader re.now.forward) input.now end }
{
    if end == input.start() || input.get_anchored().is_anchored() {
        return true;
    }
    re.forward().get_nfa().is_always_start_anchored()
}

/// The match of the pattern of an end, from an offset on.
#[inline(always)]
fn match_between(start: usize, end: HalfMatch) -> Match
    requires { start ≤ end.offset }
    ensures { result ≡ record { pattern = end.pattern; start = start; end = end.offset } }
{
    let span = Span {
        start,
        end: end.offset(),
    };
    Match::new(end.pattern(), span)
}

/// The search back from an end.
#[inline(always)]
fn back_input<'h>(input: &Input<'h>, end: usize) -> Input<'h>
    requires from { input.now.start ≤ end }
    requires within { end ≤ input.now.end }
    ensures { result ≡ back_from input.now end }
{
    let mut back = Input::new(input.haystack());
    back.set_span(Span {
        start: input.start(),
        end,
    });
    back.set_anchored(Anchored::Yes);
    back
}

/// The search that finds out whether there is a match.
fn match_input<'h>(re: &Regex, input: &Input<'h>) -> Input<'h>
    ensures { result ≡ match_search (reader re.now.forward) input.now }
{
    let nfa = re.forward().get_nfa();
    let is_between_characters = nfa.is_utf8() && nfa.has_empty();
    let mut search = Input::new(input.haystack());
    search.set_span(input.get_span());
    search.set_anchored(input.get_anchored());
    search.set_earliest(!is_between_characters);
    search
}

/// A half search for an end.
#[inline(always)]
fn search_end<L: Ledger, M: Ledger>(
    re: &Regex,
    cache: &mut dfa::Cache,
    input: &Input<'_>,
    work: &mut Work<L, M>,
) -> Result<Option<HalfMatch>, MatchError>
    requires own { IsCacheOf re.now.forward cache.old }
    ensures own { IsCacheOf re.now.forward cache.new }
    ensures search { MakesHalf re.now.forward input.now cache.old cache.new work.old.determinized work.new.determinized work.old.inserted
        work.new.inserted result }
{
    re.forward().try_search_fwd(cache, input, work)
}

/// A half search for a start.
#[inline(always)]
fn search_start<L: Ledger, M: Ledger>(
    re: &Regex,
    cache: &mut dfa::Cache,
    input: &Input<'_>,
    work: &mut Work<L, M>,
) -> Result<Option<HalfMatch>, MatchError>
    requires own { IsCacheOf re.now.reverse cache.old }
    ensures own { IsCacheOf re.now.reverse cache.new }
    ensures search { MakesHalf re.now.reverse input.now cache.old cache.new work.old.determinized work.new.determinized work.old.inserted
        work.new.inserted result }
{
    re.reverse().try_search_rev(cache, input, work)
}

/// The match with an end, by the search back from there.
#[inline(always)]
fn search_back<L: Ledger, M: Ledger>(
    re: &Regex,
    cache: &mut dfa::Cache,
    input: &Input<'_>,
    end: HalfMatch,
    work: &mut Work<L, M>,
) -> Result<Option<Match>, MatchError>
    requires own { IsCacheOf re.now.reverse cache.old }
    requires from { input.now.start ≤ end.offset }
    requires within { end.offset ≤ input.now.end }
    ensures own { IsCacheOf re.now.reverse cache.new }
    ensures search { MakesBack re.now input.now end cache.old cache.new work.old.determinized work.new.determinized work.old.inserted
        work.new.inserted result }
{
    let back = back_input(input, end.offset());
    let start = match search_start(re, cache, &back, work) {
        Ok(start) => start,
        Err(e) => return Err(e),
    };
    let Some(start) = start else {
        return Err(MatchError::new(MatchErrorKind::NotAPair));
    };
    Ok(Some(match_between(start.offset(), end)))
}

/// What is known of a regex and of an input: one automaton reads forward, the other one reads in reverse, and the span lies in
/// the haystack.
#[inline(always)]
fn see_pair(re: &Regex, input: &Input<'_>)
    ensures pair { IsPair re.now }
    ensures within { IsWithin input.now }
{
    let _forward = re.forward();
    let _start = input.start();
}

/// A search over both automata.
#[inline(always)]
fn search<L: Ledger, M: Ledger>(
    re: &Regex,
    cache: &mut Cache,
    input: &Input<'_>,
    work: &mut Work<L, M>,
) -> Result<Option<Match>, MatchError>
    requires own { AreCachesOf re.now cache.old }
    ensures own { AreCachesOf re.now cache.new }
    ensures search { MakesPair re.now input.now cache.old cache.new work.old.determinized work.new.determinized work.old.inserted
        work.new.inserted result }
{
    let end = match search_end(re, &mut cache.forward, input, work) {
        Ok(end) => end,
        Err(e) => return Err(e), // no search back
    };
    let Some(end) = end else {
        return Ok(None);
    };
    if is_start_known(re, input, end.offset()) {
        return Ok(Some(match_between(input.start(), end)));
    }
    search_back(re, &mut cache.reverse, input, end, work)
}

/// A search over both automata. For a done span no search is made.
#[inline(always)]
fn search_span<L: Ledger, M: Ledger>(
    re: &Regex,
    cache: &mut Cache,
    input: &Input<'_>,
    work: &mut Work<L, M>,
) -> Result<Option<Match>, MatchError>
    requires own { AreCachesOf re.now cache.old }
    ensures pair { IsPair re.now }
    ensures within { IsWithin input.now }
    ensures own { AreCachesOf re.now cache.new }
    ensures done { input.now.end < input.now.start → (result ≡ Ok None) × (cache.new ≡ cache.old) × (work.new ≡ work.old) }
    ensures search { MakesPair re.now input.now cache.old cache.new work.old.determinized work.new.determinized work.old.inserted
        work.new.inserted result }
{
    see_pair(re, input);
    if input.is_done() {
        return Ok(None); // over no byte
    }
    search(re, cache, input, work)
}

/// Whether a half search finds an end.
fn finds_end<L: Ledger, M: Ledger>(
    re: &Regex,
    cache: &mut dfa::Cache,
    input: &Input<'_>,
    work: &mut Work<L, M>,
) -> Result<bool, MatchError>
    requires own { IsCacheOf re.now.forward cache.old }
    ensures own { IsCacheOf re.now.forward cache.new }
    ensures search { FindsEnd re.now.forward input.now cache.old cache.new work.old.determinized work.new.determinized work.old.inserted
        work.new.inserted result }
{
    let end = match search_end(re, cache, input, work) {
        Ok(end) => end,
        Err(e) => return Err(e),
    };
    Ok(end.is_some())
}

/// A search that finds out whether there is a match.
fn search_match<L: Ledger, M: Ledger>(
    re: &Regex,
    cache: &mut Cache,
    input: &Input<'_>,
    work: &mut Work<L, M>,
) -> Result<bool, MatchError>
    requires own { AreCachesOf re.now cache.old }
    ensures own { AreCachesOf re.now cache.new }
    ensures search { MakesMatch re.now input.now cache.old cache.new work.old.determinized work.new.determinized work.old.inserted
        work.new.inserted result }
{
    let search = match_input(re, input);
    finds_end(re, &mut cache.forward, &search, work)
}

/// A search that finds out whether there is a match. For a done span no search is made.
fn match_span<L: Ledger, M: Ledger>(
    re: &Regex,
    cache: &mut Cache,
    input: &Input<'_>,
    work: &mut Work<L, M>,
) -> Result<bool, MatchError>
    requires own { AreCachesOf re.now cache.old }
    ensures { SearchesMatch re.now input.now cache.old cache.new work.old.determinized work.new.determinized work.old.inserted
        work.new.inserted (work.new ≡ work.old) result }
{
    if input.is_done() {
        return Ok(false);
    }
    search_match(re, cache, input, work)
}

impl Regex {
    /// The match in a span that leftmost-first prefers, or none, as `Regex::try_search`. The automaton that reads forward finds
    /// its end. From there, the one that reads in reverse finds its start, unless that is known.
    ///
    /// The answer is that of two half searches, joined, whatever the caches hold and whatever was done with them before.
    /// Otherwise the search is out of memory, or one of both half searches gave up. If one of both reads a quit byte, the answer
    /// is an error that names it. A mode that isn't supported is an error. If the second finds no start for the end that the
    /// first found, the error is that the automata aren't a pair. The caches are usable after each answer.
    ///
    /// The search returns `Ok` if no quit byte is in or next to the span, no minimum number of clears is set, the mode is
    /// supported, memory suffices and the automata are a pair. If the caches aren't cleared during the search, all its steps are
    /// known afterwards. A search whose steps are known makes no states and allocates nothing. For a done span no search is made,
    /// and the caches stay as they are.
    ///
    /// The caches record how far their searches came, whatever the answer is, as in
    /// [`try_search_fwd`](lazy_dfa::dfa::DFA::try_search_fwd) and [`try_search_rev`](lazy_dfa::dfa::DFA::try_search_rev). If no
    /// search goes back, the cache of the second automaton stays as it is.
    ///
    /// A match, or none, comes with an offset up to which the first automaton read. From the byte before the span up to there, no
    /// byte is one of its quit bytes. Over each haystack with the same bytes there, the answer is the same.
    #[inline(always)]
    pub fn try_search<L: Ledger, M: Ledger>(
        &self,
        cache: &mut Cache,
        input: &Input<'_>,
        work: &mut Work<L, M>,
    ) -> Result<Option<Match>, MatchError>
        requires own { AreCachesOf self.now cache.old }
        ensures { SearchesPair self.now input.now cache.old cache.new work.old.determinized work.new.determinized work.old.inserted
            work.new.inserted (work.new ≡ work.old) result }
    {
        search_span(self, cache, input, work)
    }

    /// Searches as [`try_search`](Regex::try_search) does, under the name of `Regex::find`.
    pub fn find<L: Ledger, M: Ledger>(
        &self,
        cache: &mut Cache,
        input: &Input<'_>,
        work: &mut Work<L, M>,
    ) -> Result<Option<Match>, MatchError>
        requires own { AreCachesOf self.now cache.old }
        ensures { SearchesPair self.now input.now cache.old cache.new work.old.determinized work.new.determinized work.old.inserted
            work.new.inserted (work.new ≡ work.old) result }
    {
        self.try_search(cache, input, work)
    }

    /// Whether there is a match in a span, as `Regex::is_match`. Only the automaton that reads forward searches. So the other's
    /// cache stays as it is, and two automata that aren't a pair are no error. If an end may split a character, the search looks
    /// for the end that leftmost-first prefers, otherwise for the earliest one, whatever the input asks for.
    ///
    /// It fails as the first half search does: at a quit byte, in a mode that isn't supported, if the cache gives up, and if
    /// memory runs out. Its cache records how far that search came. For a done span no search is made, and the cache stays as it
    /// is.
    pub fn is_match<L: Ledger, M: Ledger>(
        &self,
        cache: &mut Cache,
        input: &Input<'_>,
        work: &mut Work<L, M>,
    ) -> Result<bool, MatchError>
        requires own { AreCachesOf self.now cache.old }
        ensures { SearchesMatch self.now input.now cache.old cache.new work.old.determinized work.new.determinized work.old.inserted
            work.new.inserted (work.new ≡ work.old) result }
    {
        match_span(self, cache, input, work)
    }
}
