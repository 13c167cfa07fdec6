//! Half searches: one scan, or several in turn.
ghost use Rattle.std.specs.Prelude.{◌≡◌, false, true};
ghost use Rattle.search_types.specs.Inputs.{IsWithin};
ghost use Rattle.lazy_dfa.specs.Caches.{IsCacheOf};
ghost use Rattle.lazy_dfa.specs.Dfas.{IsDfa, reader};
ghost use Rattle.lazy_dfa.specs.MadeScans.{MakesSearch};
ghost use Rattle.lazy_dfa.specs.SearchAnswers.{FindsDownTo, FindsUpTo};
ghost use Rattle.lazy_dfa.specs.SearchPromises.{AnswersHalf, CountsHalf, LeavesCache, ReportsHalf};

use crate::automaton::dfa::{Cache, DFA};
use crate::search::passing::{scan, scan_forward, scan_reverse};
use crate::search::runs::see_bytes;
use crate::work::Work;
use search_types::{HalfMatch, Input, MatchError};
use std::sync::ledger::Ledger;

/// Returns a copy of the input.
fn same_input<'h>(input: &Input<'h>) -> Input<'h>
    ensures { result ≡ input.now }
{
    let mut same = Input::new(input.haystack());
    same.set_span(input.get_span());
    same.set_anchored(input.get_anchored());
    same.set_earliest(input.get_earliest());
    same
}

/// Whether the automaton reads in reverse.
pub(crate) fn is_reverse(dfa: &DFA) -> bool
    ensures { result ≡ (reader dfa.now).automaton.reverse }
{
    dfa.get_nfa().is_reverse()
}

/// Whether an end inside a character doesn't count.
pub(crate) fn is_between_characters(dfa: &DFA) -> bool
    ensures { result ≡ (reader dfa.now).between_characters }
{
    let nfa = dfa.get_nfa();
    nfa.is_utf8() && nfa.has_empty()
}

/// A half search whose ends may not count: while the end of a scan doesn't, another scan follows over a byte less. It makes no scan if
/// it is done.
#[inline(never)]
fn search_again<L: Ledger, M: Ledger>(
    dfa: &DFA,
    cache: &mut Cache,
    input: &Input<'_>,
    work: &mut Work<L, M>,
) -> Result<Option<HalfMatch>, MatchError>
    requires { IsCacheOf dfa.now cache.old }
    ensures made { IsDfa dfa.now }
    ensures within { IsWithin input.now }
    ensures own { IsCacheOf dfa.now cache.new }
    ensures search { MakesSearch dfa.now input.now cache.old cache.new work.old.determinized work.new.determinized work.old.inserted
        work.new.inserted result }
{
    dfa.is_made();
    see_bytes(input.haystack());
    let is_reverse = is_reverse(dfa);
    let between_characters = is_between_characters(dfa);
    let mut rest = same_input(input);
    while !rest.is_done() {
        let found = match scan(dfa, cache, &rest, is_reverse, work) {
            Ok(found) => found,
            Err(e) => return Err(e),
        };
        let Some(half) = found else {
            return Ok(None);
        };
        if !between_characters {
            return Ok(Some(half));
        }
        if rest.is_char_boundary(half.offset()) {
            return Ok(Some(half));
        }
        if rest.get_anchored().is_anchored() {
            return Ok(None);
        }
        if is_reverse {
            if rest.end() == 0 {
                return Ok(None);
            }
            rest.set_end(rest.end() - 1);
        } else {
            let _len = rest.haystack().len();
            rest.set_start(rest.start() + 1);
        }
    }
    Ok(None)
}

impl DFA {
    /// Returns the end of the match in a span that the match kind prefers, or none, as `DFA::try_search_fwd`. The automaton reads
    /// forward.
    ///
    /// The answer is that of [`half_search`](crate::laws::scan_laws) over the automaton and the input, whatever the cache holds and whatever
    /// was done with it before. Otherwise the call returns an error for one of two reasons. If a state has no room and no clear
    /// is allowed, the search gives up, and the error has the offset of the byte to be read. The other reason is that memory ran
    /// out. The cache is usable after that too.
    ///
    /// The search adds no states but those on its way, at most one for each scan and one for each unit. It clears the cache only
    /// if one of these isn't held and has no room. [`change_laws`](crate::laws::change_laws) state when it never clears the cache. A
    /// clear keeps at most the state from which the clearing step started, and none if a start state clears the cache.
    ///
    /// If no quit byte is in the span or next to it, no minimum count of clears is set, and the mode is supported, the search
    /// succeeds unless memory runs out. If the cache isn't cleared during the search, it knows all steps of the search
    /// afterwards. A search whose steps are known builds no states and allocates no memory.
    ///
    /// If nothing was cleared, the cache records exactly how far the search came, after an error too. After a quit byte in the
    /// span, the search has ended. If it gave up at a byte, it is still in progress and at that byte. A scan that fails at its
    /// start records nothing. After an error at the unit after the span, a forward search is still in progress, and one in
    /// reverse ended at the span's start. Running out of memory has no offset, so the progress is then that of a failed start or
    /// of some unit of the search. If the cache was cleared, what was searched before the last clear doesn't count. The search in
    /// progress then began at the byte where it was at that clear.
    ///
    /// If the search returns a match or none, the clause `found` says which, by the ends of the automaton's runs alone. If the
    /// earliest end is asked for, the search finds the nearest one. Otherwise it finds the end of the most preferred run under
    /// leftmost-first, and the last end if all matches are asked for. If that end splits a character and so doesn't count, the
    /// next starting offset decides. A search for a pattern that doesn't exist finds nothing, as does one over a done span.
    ///
    /// A match, or none, comes with an offset up to which the search read. From the byte before the span up to this offset there
    /// is no quit byte. Under leftmost-first, the result is the first end for each interpretation of looks that agrees with the
    /// one by ASCII bytes up to there. Any haystack with the same bytes there gives the same answer
    /// ([`scans_reach_a_place`](crate::laws::reach_laws::scans_reach_a_place)).
    pub fn try_search_fwd<L: Ledger, M: Ledger>(
        &self,
        cache: &mut Cache,
        input: &Input<'_>,
        work: &mut Work<L, M>,
    ) -> Result<Option<HalfMatch>, MatchError>
        requires own { IsCacheOf self.now cache.old }
        requires is_forward { self.now.nfa.automaton.reverse ≡ false }
        ensures own { IsCacheOf self.now cache.new }
        ensures found { FindsUpTo (reader self.now) input.now result }
        ensures answer { AnswersHalf self.now input.now cache.old cache.new result }
        ensures cache { LeavesCache self.now input.now cache.old cache.new result }
        ensures work { CountsHalf self.now input.now cache.old work.old.determinized work.new.determinized work.old.inserted
            work.new.inserted }
        ensures progress { ReportsHalf self.now input.now cache.old cache.new result }
    {
        self.is_made();
        see_bytes(input.haystack());
        if is_between_characters(self) || input.is_done() {
            return search_again(self, cache, input, work);
        }
        scan_forward(self, cache, input, work)
    }

    /// Returns the start of the match in a span that the match kind prefers, or none, as `DFA::try_search_rev`. The automaton
    /// reads in reverse, from the span's end. The nearest end is the greatest one then, and the last end is the least one. A match,
    /// or none, comes with an offset down to which the search read, from the byte after the span on. Everything else is as for
    /// [`try_search_fwd`](DFA::try_search_fwd).
    #[inline(always)]
    pub fn try_search_rev<L: Ledger, M: Ledger>(
        &self,
        cache: &mut Cache,
        input: &Input<'_>,
        work: &mut Work<L, M>,
    ) -> Result<Option<HalfMatch>, MatchError>
        requires own { IsCacheOf self.now cache.old }
        requires is_reverse { self.now.nfa.automaton.reverse ≡ true }
        ensures own { IsCacheOf self.now cache.new }
        ensures found { FindsDownTo (reader self.now) input.now result }
        ensures answer { AnswersHalf self.now input.now cache.old cache.new result }
        ensures cache { LeavesCache self.now input.now cache.old cache.new result }
        ensures work { CountsHalf self.now input.now cache.old work.old.determinized work.new.determinized work.old.inserted
            work.new.inserted }
        ensures progress { ReportsHalf self.now input.now cache.old cache.new result }
    {
        self.is_made();
        see_bytes(input.haystack());
        if is_between_characters(self) || input.is_done() {
            return search_again(self, cache, input, work);
        }
        scan_reverse(self, cache, input, work)
    }
}
