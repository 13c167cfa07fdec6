//! Overlapping searches, which report all ends of matches one by one.
ghost use Rattle.std.specs.Prelude.{◌≡◌, false, true, Ok, Err, IfOk, IfErr};
ghost use Rattle.search_types.specs.Inputs.{IsWithin};
ghost use Rattle.lazy_dfa.specs.Caches.{IsCacheOf};
ghost use Rattle.lazy_dfa.specs.Dfas.{IsDfa, reader};
ghost use Rattle.lazy_dfa.specs.Overlapping.{CanContinue, StopsAt};
ghost use Rattle.lazy_dfa.specs.OverlappingAnswers.{MakesCall, failed_by};
ghost use Rattle.lazy_dfa.specs.OverlappingFound.{FindsNextLeft};
ghost use Rattle.lazy_dfa.specs.OverlappingPromises.{AnswersCall, CallLeavesCache, CountsCall, ReportsCall};
ghost use Rattle.lazy_dfa.specs.declared.overlapping.overlapping_state.OverlappingPosition.TheVariants.{Fresh, Stopped};

pub(crate) mod overlapping_state;
mod walk_reads;
mod which_patterns;

use crate::automaton::dfa::{Cache, DFA};
use crate::overlapping::overlapping_state::{OverlappingPosition, OverlappingState, Stop};
use crate::overlapping::walk_reads::{lists_more, progress_at, read_on, tell};
use crate::search::passing::{first_offset, last_offset, next_offset, start_of_pass};
use crate::search::position::Position;
use crate::search::searching::is_reverse;
use crate::work::Work;
use search_types::{Input, MatchError};
use std::sync::ledger::Ledger;

/// The first call of an overlapping search.
fn begin<L: Ledger, M: Ledger>(
    dfa: &DFA,
    cache: &mut Cache,
    input: &Input<'_>,
    is_reverse: bool,
    work: &mut Work<L, M>,
) -> Result<OverlappingState, MatchError>
    requires own { IsCacheOf dfa.now cache.old }
    requires is_reverse { is_reverse ≡ dfa.now.nfa.automaton.reverse }
    ensures own { IsCacheOf dfa.now cache.new }
    ensures call { IfOk result (λ reported. MakesCall dfa.now input.now cache.old cache.new work.old.determinized work.new.determinized
        work.old.inserted work.new.inserted Fresh reported (Ok tt)) }
    ensures err { IfErr result (λ e. MakesCall dfa.now input.now cache.old cache.new work.old.determinized work.new.determinized
        work.old.inserted work.new.inserted Fresh (failed_by e) (Err e)) }
{
    dfa.is_made();
    if input.is_done() {
        return Ok(OverlappingState::ended());
    }
    let id = match start_of_pass(dfa, cache, input, is_reverse, work) {
        Ok(id) => id,
        Err(e) => return Err(e),
    };
    let at = first_offset(input, is_reverse);
    if id.is_dead() {
        let index = progress_at(input, is_reverse, at);
        cache.search_start(index);
        cache.search_finish(index);
        return Ok(OverlappingState::ended());
    }
    let first = Position { at, id, best: None };
    read_on(dfa, cache, input, is_reverse, first, work)
}

/// A call of an overlapping search that stopped.
fn resume<L: Ledger, M: Ledger>(
    dfa: &DFA,
    cache: &mut Cache,
    input: &Input<'_>,
    is_reverse: bool,
    stop: Stop,
    work: &mut Work<L, M>,
) -> Result<OverlappingState, MatchError>
    requires own { IsCacheOf dfa.now cache.old }
    requires is_reverse { is_reverse ≡ dfa.now.nfa.automaton.reverse }
    requires stops { StopsAt dfa.now cache.old input.now stop }
    ensures own { IsCacheOf dfa.now cache.new }
    ensures call { IfOk result (λ reported. MakesCall dfa.now input.now cache.old cache.new work.old.determinized work.new.determinized
        work.old.inserted work.new.inserted (Stopped stop) reported (Ok tt)) }
    ensures err { IfErr result (λ e. MakesCall dfa.now input.now cache.old cache.new work.old.determinized work.new.determinized
        work.old.inserted work.new.inserted (Stopped stop) (failed_by e) (Err e)) }
{
    dfa.is_made();
    // An offset that isn't the last one lies before the end of the haystack, so it isn't the greatest `usize`.
    let _len = input.haystack().len();
    if lists_more(dfa, cache, input, stop.id, stop.index, stop.at) {
        return Ok(tell(dfa, cache, input, stop.id, stop.index, stop.at));
    }
    if stop.at == last_offset(input, is_reverse) {
        return Ok(OverlappingState::ended());
    }
    let next = Position {
        at: next_offset(stop.at, is_reverse),
        id: stop.id,
        best: None,
    };
    read_on(dfa, cache, input, is_reverse, next, work)
}

/// The result of a call: the state of the search after it, or an error.
fn go_on<L: Ledger, M: Ledger>(
    dfa: &DFA,
    cache: &mut Cache,
    input: &Input<'_>,
    walk: OverlappingPosition,
    work: &mut Work<L, M>,
) -> Result<OverlappingState, MatchError>
    requires own { IsCacheOf dfa.now cache.old }
    requires walk { CanContinue dfa.now cache.old input.now walk }
    ensures own { IsCacheOf dfa.now cache.new }
    ensures call { IfOk result (λ reported. MakesCall dfa.now input.now cache.old cache.new work.old.determinized work.new.determinized
        work.old.inserted work.new.inserted walk reported (Ok tt)) }
    ensures err { IfErr result (λ e. MakesCall dfa.now input.now cache.old cache.new work.old.determinized work.new.determinized
        work.old.inserted work.new.inserted walk (failed_by e) (Err e)) }
{
    let is_reverse = is_reverse(dfa);
    match walk {
        OverlappingPosition::Fresh => begin(dfa, cache, input, is_reverse, work),
        OverlappingPosition::Ended => Ok(OverlappingState::ended()),
        OverlappingPosition::Failed(kind) => Err(MatchError::new(kind)),
        OverlappingPosition::Stopped(stop) => resume(dfa, cache, input, is_reverse, stop, work),
    }
}

/// A call of an overlapping search.
pub(crate) fn call<L: Ledger, M: Ledger>(
    dfa: &DFA,
    cache: &mut Cache,
    input: &Input<'_>,
    state: &mut OverlappingState,
    work: &mut Work<L, M>,
) -> Result<(), MatchError>
    requires own { IsCacheOf dfa.now cache.old }
    requires walk { CanContinue dfa.now cache.old input.now state.old.walk }
    ensures made { IsDfa dfa.now }
    ensures within { IsWithin input.now }
    ensures own { IsCacheOf dfa.now cache.new }
    ensures call { MakesCall dfa.now input.now cache.old cache.new work.old.determinized work.new.determinized work.old.inserted
        work.new.inserted state.old.walk state.new result }
{
    dfa.is_made();
    let _haystack = input.haystack();
    let reported = match go_on(dfa, cache, input, state.walk, work) {
        Ok(reported) => reported,
        Err(e) => {
            *state = OverlappingState::failed(*e.kind());
            return Err(e);
        }
    };
    *state = reported;
    Ok(())
}

impl DFA {
    /// Finds the next end of an overlapping search, which reports all ends in a span, as `DFA::try_search_overlapping_fwd`. The
    /// automaton reads forward. [`OverlappingState::get_match`] returns the end, or none if nothing is left.
    ///
    /// An overlapping search reports what the states on its way list, offset by offset. If the automaton is in UTF-8 mode and can
    /// match the empty string, the search skips ends that split a character. Under [`MatchKind::All`](search_types::MatchKind),
    /// the ends are those of all runs, each once, as [`walk_laws`](crate::laws::walk_laws) state. Whether the earliest end is enough
    /// makes no difference.
    ///
    /// Under [`MatchKind::All`](search_types::MatchKind), if no quit byte is in the span or next to it, the clause `found` says which
    /// end a call reports, by the ends of the automaton's runs alone. It is the next one in reading order; at one offset, the end of
    /// the most preferred run comes first.
    ///
    /// Precondition: the search hasn't begun, or it can go on in this cache. Between its calls, other calls may use the cache
    /// only if they clear nothing.
    ///
    /// The call returns an error at a quit byte, in a mode in which the automaton can't search, if a state has no room and no
    /// clear is allowed, and if memory runs out. After an error, the search has failed: each later call returns the error again.
    /// The cache is usable after that.
    ///
    /// The call adds no states but those on its way. It clears the cache only if one of these isn't held and has no room
    /// ([`change_laws`](crate::laws::change_laws)). A clear keeps at most the state from which the clearing step started.
    ///
    /// If nothing was cleared, the cache records exactly how far a call came that succeeds, quits or gives up. A search that
    /// fails at its start records nothing. Running out of memory has no offset: the progress is then that of a failed start or of
    /// some unit.
    pub fn try_search_overlapping_fwd<L: Ledger, M: Ledger>(
        &self,
        cache: &mut Cache,
        input: &Input<'_>,
        state: &mut OverlappingState,
        work: &mut Work<L, M>,
    ) -> Result<(), MatchError>
        requires own { IsCacheOf self.now cache.old }
        requires is_forward { self.now.nfa.automaton.reverse ≡ false }
        requires walk { CanContinue self.now cache.old input.now state.old.walk }
        ensures own { IsCacheOf self.now cache.new }
        ensures walk { CanContinue self.now cache.new input.now state.new.walk }
        ensures found { FindsNextLeft (reader self.now) input.now state.old.walk state.new result }
        ensures answer { AnswersCall self.now input.now cache.new state.old.walk state.new result }
        ensures cache { CallLeavesCache self.now input.now state.old.walk cache.old cache.new }
        ensures work { CountsCall self.now input.now state.old.walk work.old.determinized work.new.determinized work.old.inserted
            work.new.inserted }
        ensures progress { ReportsCall self.now input.now state.old.walk cache.old cache.new result }
    {
        call(self, cache, input, state, work)
    }

    /// Finds the next start of an overlapping search, which reports all starts in a span, as `DFA::try_search_overlapping_rev`.
    /// The automaton reads in reverse, from the span's end. All patterns that match at one offset are reported with this offset.
    /// Everything else is as for [`try_search_overlapping_fwd`](DFA::try_search_overlapping_fwd).
    pub fn try_search_overlapping_rev<L: Ledger, M: Ledger>(
        &self,
        cache: &mut Cache,
        input: &Input<'_>,
        state: &mut OverlappingState,
        work: &mut Work<L, M>,
    ) -> Result<(), MatchError>
        requires own { IsCacheOf self.now cache.old }
        requires is_reverse { self.now.nfa.automaton.reverse ≡ true }
        requires walk { CanContinue self.now cache.old input.now state.old.walk }
        ensures own { IsCacheOf self.now cache.new }
        ensures walk { CanContinue self.now cache.new input.now state.new.walk }
        ensures found { FindsNextLeft (reader self.now) input.now state.old.walk state.new result }
        ensures answer { AnswersCall self.now input.now cache.new state.old.walk state.new result }
        ensures cache { CallLeavesCache self.now input.now state.old.walk cache.old cache.new }
        ensures work { CountsCall self.now input.now state.old.walk work.old.determinized work.new.determinized work.old.inserted
            work.new.inserted }
        ensures progress { ReportsCall self.now input.now state.old.walk cache.old cache.new result }
    {
        call(self, cache, input, state, work)
    }
}
