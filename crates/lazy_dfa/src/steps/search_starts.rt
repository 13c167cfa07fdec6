//! The start states of searches over an input.
ghost use Rattle.std.specs.Prelude.{◌≡◌, ◌-◌, Err};
ghost use Rattle.lazy_dfa.specs.Caches.{IsCacheOf};
ghost use Rattle.search_types.specs.declared.match_error.MatchErrorKind.TheVariants.{GaveUp as SearchGaveUp};
ghost use Rattle.lazy_dfa.specs.SearchStarts.{AnswersStart, MakesStart, error_at, forward_start, reverse_start};

use crate::automaton::dfa::{Cache, DFA};
use crate::lazy_id::LazyStateID;
use crate::start_error::StartError;
use crate::work::Work;
use determinize_core::Config as StartConfig;
use search_types::{Input, MatchError, MatchErrorKind};
use std::sync::ledger::Ledger;

/// The error of a search whose start failed.
fn match_error(err: StartError, quit_place: usize, place: usize) -> MatchError
    ensures { result ≡ error_at quit_place place err }
{
    match err {
        StartError::Cache { .. } => MatchError::gave_up(place),
        StartError::Quit { byte } => MatchError::quit(byte, quit_place),
        StartError::UnsupportedAnchored { mode } => MatchError::unsupported_anchored(mode),
        StartError::NoMemory => MatchError::new(MatchErrorKind::NoMemory),
    }
}

/// The start state of a search at `place`, or the error of the search.
#[inline(always)]
fn start_at<L: Ledger, M: Ledger>(
    dfa: &DFA,
    cache: &mut Cache,
    config: &StartConfig,
    quit_place: usize,
    place: usize,
    work: &mut Work<L, M>,
) -> Result<LazyStateID, MatchError>
    requires { IsCacheOf dfa.now cache.old }
    ensures own { IsCacheOf dfa.now cache.new }
    ensures answer { AnswersStart dfa.now cache.old cache.new config.now quit_place place result }
    ensures gave_up { result ≡ Err (SearchGaveUp place) → cache.new ≡ cache.old }
    ensures start { MakesStart dfa.now config.now cache.old cache.new work.old.determinized work.new.determinized work.old.inserted
        work.new.inserted result }
{
    match dfa.start_state(cache, config, work) {
        Ok(id) => Ok(id),
        Err(e) => {
            let reported = match_error(e, quit_place, place);
            Err(reported)
        }
    }
}

impl DFA {
    /// Returns the ID of the state in which a forward search over the input starts, as `DFA::start_state_forward`. The call fails
    /// if [`start_state`](DFA::start_state) fails. The error of a quit byte has the offset just before the span's start. The
    /// error of a search that gives up has the span's start.
    #[inline(always)]
    pub fn start_state_forward<L: Ledger, M: Ledger>(
        &self,
        cache: &mut Cache,
        input: &Input<'_>,
        work: &mut Work<L, M>,
    ) -> Result<LazyStateID, MatchError>
        requires { IsCacheOf self.now cache.old }
        ensures own { IsCacheOf self.now cache.new }
        ensures answer { AnswersStart self.now cache.old cache.new (forward_start input.now) (input.now.start - 1) input.now.start result }
        ensures gave_up { result ≡ Err (SearchGaveUp input.now.start) → cache.new ≡ cache.old }
        ensures start { MakesStart self.now (forward_start input.now) cache.old cache.new work.old.determinized work.new.determinized
            work.old.inserted work.new.inserted result }
    {
        let place = input.start();
        let quit_place = place.saturating_sub(1);
        let config = StartConfig::from_input_forward(input);
        start_at(self, cache, &config, quit_place, place, work)
    }

    /// Returns the ID of the state in which a search in reverse over the input starts, as `DFA::start_state_reverse`. The call
    /// fails if [`start_state`](DFA::start_state) fails. The error of a quit byte has the span's end as its offset, and so has
    /// the error of a search that gives up.
    #[inline(always)]
    pub fn start_state_reverse<L: Ledger, M: Ledger>(
        &self,
        cache: &mut Cache,
        input: &Input<'_>,
        work: &mut Work<L, M>,
    ) -> Result<LazyStateID, MatchError>
        requires { IsCacheOf self.now cache.old }
        ensures own { IsCacheOf self.now cache.new }
        ensures answer { AnswersStart self.now cache.old cache.new (reverse_start input.now) input.now.end input.now.end result }
        ensures gave_up { result ≡ Err (SearchGaveUp input.now.end) → cache.new ≡ cache.old }
        ensures start { MakesStart self.now (reverse_start input.now) cache.old cache.new work.old.determinized work.new.determinized
            work.old.inserted work.new.inserted result }
    {
        let place = input.end();
        let config = StartConfig::from_input_reverse(input);
        start_at(self, cache, &config, place, place, work)
    }
}
