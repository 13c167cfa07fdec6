//! The steps of a DFA, of which searches consist.
ghost use Rattle.std.specs.Prelude.{◌≡◌, ◌⊎◌, ◌↔◌, ◌<◌, true, length, slice_index, IfOk, None, Some};
ghost use Rattle.determinize_core.specs.States.{StateValue};
ghost use Rattle.lazy_dfa.specs.Ids.{tag, unknown_id};
ghost use Rattle.lazy_dfa.specs.Caches.{IsCacheOf, HeldAt, IsRow};
ghost use Rattle.lazy_dfa.specs.StepPromises.{MakesStep};
ghost use Rattle.lazy_dfa.specs.Steps.{IsHeld, noted};

use crate::automaton::dfa::{Cache, DFA};
use crate::cache_error::CacheError;
use crate::lazy_id::LazyStateID;
use crate::steps::stepping::step;
use crate::work::Work;
use search_core::{PatternID, Unit};
use std::sync::ledger::Ledger;

impl DFA {
    /// Returns the ID of the state after a byte, as `DFA::next_state`. A sentinel leads to itself. From the other states, a quit
    /// byte leads to the quit sentinel. This builds no state and never fails. Any other byte leads to the state that lists what
    /// matched before this byte. A state that wasn't held doesn't get the tag of start states.
    ///
    /// The cache is cleared only if the step isn't known and its state isn't held and has no room. After a clear, the returned ID
    /// is held. For other IDs, [`holds_id`](DFA::holds_id) reports whether they are still held.
    ///
    /// The call returns an error if a state has no room and no clear is allowed, and if memory runs out. The cache is usable
    /// after that too. If a clear isn't allowed, the cache is as it was.
    pub fn next_state<L: Ledger, M: Ledger>(
        &self,
        cache: &mut Cache,
        current: LazyStateID,
        input: u8,
        work: &mut Work<L, M>,
    ) -> Result<LazyStateID, CacheError>
        requires own { IsCacheOf self.now cache.old }
        requires held { IsHeld cache.old current }
        ensures own { IsCacheOf self.now cache.new }
        ensures held { IfOk result (λ to. IsHeld cache.new to) }
        ensures step { MakesStep self.now current (Some input) cache.old cache.new work.old.determinized work.new.determinized
            work.old.inserted work.new.inserted result }
    {
        let class = self.class(input);
        let is_quit = self.is_quit(input);
        step(self, cache, current, Unit::u8(input), class, is_quit, work)
    }

    /// Returns the ID of the state after the end of the input, as `DFA::next_eoi_state`. It is as
    /// [`next_state`](DFA::next_state), but the end is never a quit byte.
    pub fn next_eoi_state<L: Ledger, M: Ledger>(
        &self,
        cache: &mut Cache,
        current: LazyStateID,
        work: &mut Work<L, M>,
    ) -> Result<LazyStateID, CacheError>
        requires own { IsCacheOf self.now cache.old }
        requires held { IsHeld cache.old current }
        ensures own { IsCacheOf self.now cache.new }
        ensures held { IfOk result (λ to. IsHeld cache.new to) }
        ensures step { MakesStep self.now current None cache.old cache.new work.old.determinized work.new.determinized work.old.inserted
            work.new.inserted result }
    {
        let class = self.end_class();
        step(self, cache, current, Unit::eoi(class), class, false, work)
    }

    /// Returns what is known of the step from an untagged ID by a byte, as `DFA::next_state_untagged`. This is the ID to which it
    /// leads, or an unknown one.
    #[inline(always)]
    pub fn next_state_untagged(&self, cache: &Cache, current: LazyStateID, input: u8) -> LazyStateID
        requires own { IsCacheOf self.now cache.now }
        requires row { IsRow cache.now current }
        requires untagged { current < tag }
        ensures { result ≡ noted self.now cache.now current (Some input) }
    {
        self.is_made();
        cache.cell_of_untagged(current, self.class(input))
    }

    /// Returns the number of patterns that the state of an ID lists, as `DFA::match_len`.
    pub fn match_len(&self, cache: &Cache, id: LazyStateID) -> usize
        requires own { IsCacheOf self.now cache.now }
        requires row { IsRow cache.now id }
        ensures { (s : StateValue) → HeldAt cache.now id s → result ≡ length s.matches }
    {
        let k = cache.row(id);
        cache.state(k).match_len()
    }

    /// Returns the pattern at an index among those that the state of an ID lists, as `DFA::match_pattern`. They are in order of
    /// preference. If the automaton has one pattern, the call needn't read the state.
    pub fn match_pattern(&self, cache: &Cache, id: LazyStateID, index: usize) -> PatternID
        requires own { IsCacheOf self.now cache.now }
        requires row { IsRow cache.now id }
        requires inside { (s : StateValue) → HeldAt cache.now id s → index < length s.matches }
        ensures { (s : StateValue) → HeldAt cache.now id s → result ≡ slice_index s.matches index }
    {
        if self.pattern_len() == 1 {
            return PatternID::ZERO;
        }
        let k = cache.row(id);
        cache.state(k).match_pattern(index)
    }

    /// Whether the ID, tags included, is that of a state that the cache holds, or of one of its three sentinels.
    pub fn holds_id(&self, cache: &Cache, id: LazyStateID) -> bool
        requires { IsCacheOf self.now cache.now }
        ensures { (result ≡ true) ↔ ((id ≡ unknown_id) ⊎ IsHeld cache.now id) }
    {
        let stride = cache.stride();
        let unknown = LazyStateID::unknown();
        if id == unknown {
            return true;
        }
        let dead = LazyStateID::dead(stride);
        if id == dead {
            return true;
        }
        let quit = LazyStateID::quit(stride);
        if id == quit {
            return true;
        }
        cache.has_row(id)
    }
}
