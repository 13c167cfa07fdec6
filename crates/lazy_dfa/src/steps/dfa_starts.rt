//! The start states of searches over a DFA.
ghost use Rattle.std.specs.Prelude.{◌≡◌, ◌<◌, ◌≤◌, None, Some, Ok, Err, IfOk, IfErr, MatchOption, IfSome, length, ⊤};
ghost use Rattle.determinize_core.specs.Starts.{start_of};
ghost use Rattle.lazy_dfa.specs.Caches.{IsCacheOf};
ghost use Rattle.lazy_dfa.specs.Dfas.{start_in};
ghost use Rattle.lazy_dfa.specs.declared.cache_error.CacheError.TheVariants.{GaveUp};
ghost use Rattle.lazy_dfa.specs.declared.start_error.StartError.TheVariants.{Cache as CacheRefusal};
ghost use Rattle.lazy_dfa.specs.StartCalls.{mode_of, rejected_by_byte, rejected_mode, rejected_start, start_error_of, IsStart};
ghost use Rattle.lazy_dfa.specs.StartCalls.{IsStartCause};
ghost use Rattle.lazy_dfa.specs.SearchStarts.{MakesStart};

use crate::automaton::dfa::{Cache, DFA};
use crate::cache_error::CacheError;
use crate::lazy_id::LazyStateID;
use crate::start_error::StartError;
use crate::steps::starting::start_in_mode;
use crate::work::Work;
use determinize_core::{Config as StartConfig, Start};
use search_core::StateID;
use search_types::Anchored;
use std::sync::ledger::Ledger;

/// The error of a start that fails whatever the cache holds.
#[inline(always)]
fn check_start(dfa: &DFA, look_behind: Option<u8>, mode: Anchored) -> Option<StartError>
    ensures { result ≡ rejected_by_byte dfa.now look_behind (rejected_mode dfa.now mode) }
{
    if let Some(byte) = look_behind {
        if dfa.is_quit(byte) {
            return Some(StartError::Quit { byte });
        }
    }
    let is_supported = match mode {
        Anchored::Pattern(_) => dfa.starts_for_each_pattern(),
        _ => true,
    };
    if is_supported {
        None
    } else {
        Some(StartError::UnsupportedAnchored { mode })
    }
}

/// The kind of start state, by the look-behind byte.
#[inline(always)]
fn start_behind(dfa: &DFA, look_behind: Option<u8>) -> Start
    ensures { result ≡ start_of dfa.now.nfa.terminator look_behind }
{
    match look_behind {
        Some(byte) => dfa.start_behind(byte),
        None => Start::Text,
    }
}

/// The number of a mode.
#[inline(always)]
fn mode_number(mode: Anchored) -> usize
    ensures value { result ≡ mode_of mode }
    ensures in_range { result ≤ 0x8000_0000 }
{
    match mode {
        Anchored::No => 0,
        Anchored::Yes => 1,
        Anchored::Pattern(pattern) => pattern.as_usize() + 2,
    }
}

/// The state of the NFA in which a search in a mode starts, or `None` if the pattern of the mode doesn't exist.
#[inline(always)]
fn name_of(dfa: &DFA, mode: Anchored) -> Option<StateID>
    ensures name { result ≡ start_in dfa.now (mode_of mode) }
    ensures below { IfSome result (λ q. q < length dfa.now.nfa.automaton.states) }
{
    dfa.is_made();
    let nfa = dfa.get_nfa();
    match mode {
        Anchored::No => Some(nfa.start_unanchored()),
        Anchored::Yes => Some(nfa.start_anchored()),
        Anchored::Pattern(pattern) => nfa.start_pattern(pattern),
    }
}

/// The error of a start whose state can't be added.
fn start_error(err: CacheError) -> StartError
    ensures { result ≡ start_error_of err }
{
    match err {
        CacheError::GaveUp => StartError::Cache { err },
        CacheError::NoMemory => StartError::NoMemory,
    }
}

impl DFA {
    /// Returns the ID of the state in which a search starts, as `DFA::start_state`. For a pattern that doesn't exist, this is the
    /// dead state.
    ///
    /// If the look-behind byte is a quit byte, the call returns an error. Otherwise, if there are no start states for the mode,
    /// it returns an error. Otherwise, it returns an error if the state has no room and no clear is allowed, which leaves the
    /// cache as it was, and if memory runs out.
    ///
    /// The cache is cleared only if the start isn't known and its state isn't held and has no room. After a clear, the start
    /// state is the only state that is held. For earlier IDs, [`holds_id`](DFA::holds_id) reports whether they are still held. A
    /// start that is known is returned at once.
    #[inline(always)]
    pub fn start_state<L: Ledger, M: Ledger>(
        &self,
        cache: &mut Cache,
        config: &StartConfig,
        work: &mut Work<L, M>,
    ) -> Result<LazyStateID, StartError>
        requires { IsCacheOf self.now cache.old }
        ensures own { IsCacheOf self.now cache.new }
        ensures refused { MatchOption (rejected_start self.now config.now) ⊤ (λ e. result ≡ Err e) }
        ensures start { rejected_start self.now config.now ≡ None → IfOk result (λ id. IsStart self.now cache.new config.now id) }
        ensures err { rejected_start self.now config.now ≡ None → IfErr result (λ e. IsStartCause self.now cache.old config.now e) }
        ensures gave_up { result ≡ Err (CacheRefusal GaveUp) → cache.new ≡ cache.old }
        ensures made { MakesStart self.now config.now cache.old cache.new work.old.determinized work.new.determinized work.old.inserted
            work.new.inserted result }
    {
        self.is_made();
        let look_behind = config.get_look_behind();
        if let Some(e) = check_start(self, look_behind, config.get_anchored()) {
            return Err(e);
        }
        let start = start_behind(self, look_behind);
        let Some(name) = name_of(self, config.get_anchored()) else {
            let stride = cache.stride();
            return Ok(LazyStateID::dead(stride));
        };
        let number = mode_number(config.get_anchored());
        match start_in_mode(self, cache, number, name, start, work) {
            Ok(id) => Ok(id),
            Err(e) => {
                let reported = start_error(e);
                Err(reported)
            }
        }
    }
}
