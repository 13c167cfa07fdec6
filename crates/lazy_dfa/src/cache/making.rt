//! How caches are created and reset.
ghost use Rattle.std.specs.Prelude.{◌≡◌, IfOk};
ghost use Rattle.lazy_dfa.specs.Accounting.{fresh_usage};
ghost use Rattle.lazy_dfa.specs.Caches.{IsCacheOf, ResetsTo, made_for};

use crate::automaton::dfa::{Cache, DFA};
use std::alloc::{AllocError, Global};

impl Cache {
    /// Creates a cache for the automaton that holds no states, as `Cache::new`. If memory runs out, the call returns an
    /// error.
    pub fn new(alloc: Global, dfa: &DFA) -> Result<Cache, AllocError>
        ensures value { IfOk result (λ c. c ≡ made_for dfa.now) }
        ensures own { IfOk result (λ c. IsCacheOf dfa.now c) }
    {
        dfa.is_made();
        let measures = dfa.measures();
        let cache = Cache::empty(
            alloc,
            measures.stride,
            measures.fresh_usage(),
            measures.starts,
            measures.states,
            dfa.byte_classes(),
        )?;
        Ok(cache)
    }

    /// Resets the cache to one for the automaton as [`new`](Cache::new) creates it, as `Cache::reset`. If memory runs
    /// out, the call returns an error and leaves the cache as it was.
    pub fn reset(&mut self, dfa: &DFA) -> Result<(), AllocError>
        ensures { ResetsTo dfa.now self.old self.new result }
    {
        let alloc = *self.cells.allocator();
        let cache = Cache::new(alloc, dfa)?;
        *self = cache;
        Ok(())
    }
}

impl DFA {
    /// Creates a cache for the automaton, as `DFA::create_cache`. If memory runs out, the call returns an error.
    pub fn create_cache(&self, alloc: Global) -> Result<Cache, AllocError>
        ensures value { IfOk result (λ c. c ≡ made_for self.now) }
        ensures own { IfOk result (λ c. IsCacheOf self.now c) }
    {
        let cache = Cache::new(alloc, self)?;
        Ok(cache)
    }

    /// Resets the cache to a new one for the automaton, as `DFA::reset_cache`. If memory runs out, the call returns an
    /// error and leaves the cache as it was.
    pub fn reset_cache(&self, cache: &mut Cache) -> Result<(), AllocError>
        ensures { ResetsTo self.now cache.old cache.new result }
    {
        cache.reset(self)?;
        Ok(())
    }
}
