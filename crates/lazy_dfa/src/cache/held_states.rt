//! States that are kept outside of a cache, by whoever searches an input that comes in pieces.
ghost use Rattle.std.specs.Prelude.{◌≡◌, ◌⊎◌, IfErr, IfOk, OnOk, Err, None, false, true};
ghost use Rattle.lazy_dfa.specs.Caches.{HeldAt, IsCacheOf, IsRow, Names, has_no_room, needs_clear};
ghost use Rattle.lazy_dfa.specs.ConfigValue.{specializes};
ghost use Rattle.lazy_dfa.specs.Dfas.{IsStateOf};
ghost use Rattle.lazy_dfa.specs.Steps.{Added, ComesTo, IsCause, IsHeld};
ghost use Rattle.lazy_dfa.specs.declared.cache_error.CacheError.TheVariants.{GaveUp};

use crate::automaton::dfa::{Cache, DFA};
use crate::cache_error::CacheError;
use crate::lazy_id::LazyStateID;
use crate::steps::starting::place_start;
use determinize_core::State;
use std::alloc::AllocError;

impl DFA {
    /// Returns the state of an ID that isn't one of a sentinel. It shares its bytes with the cache, and is the same state after the
    /// cache was cleared. If memory runs out, the call returns an error.
    pub fn state_of(&self, cache: &Cache, id: LazyStateID) -> Result<State, AllocError>
        requires own { IsCacheOf self.now cache.now }
        requires row { IsRow cache.now id }
        ensures state { IfOk result (λ s. HeldAt cache.now id s) }
        ensures is { IfOk result (λ s. IsStateOf self.now s) }
    {
        self.is_made();
        let k = cache.row(id);
        cache.state(k).clone()
    }

    /// Returns the ID of a state of this automaton, which is added to the cache if it isn't held. A state that is added gets the tag of
    /// start states if the automaton specializes them, since a search may go on from it. The ID of the dead state is that of its
    /// sentinel.
    ///
    /// The cache is cleared only if the state isn't held and has no room. After a clear, it is the only state that is held.
    ///
    /// The call returns an error if the state has no room and no clear is allowed, which leaves the cache as it was, and if memory runs
    /// out.
    pub fn hold_state(&self, cache: &mut Cache, state: &State) -> Result<LazyStateID, CacheError>
        requires own { IsCacheOf self.now cache.old }
        requires is { IsStateOf self.now state.now }
        ensures own { IsCacheOf self.now cache.new }
        ensures to { IfOk result (λ id. Names cache.new id state.now) }
        ensures held { IfOk result (λ id. IsHeld cache.new id) }
        ensures cause { Added cache.old cache.new ⊎ (needs_clear self.now cache.old state.now ≡ true) }
        ensures adds { ComesTo (Added cache.old cache.new) self.now (specializes self.now.options) None state.now cache.old cache.new }
        ensures gave_up { result ≡ Err GaveUp → cache.new ≡ cache.old }
        ensures ok { OnOk result (has_no_room self.now cache.old state.now ≡ false) }
        ensures err { IfErr result (λ e. IsCause self.now cache.old state.now e) }
    {
        self.is_made();
        let _shape = cache.stride();
        let copy = state.clone()?;
        place_start(self, cache, copy)
    }
}
