ghost use Rattle.std.specs.Prelude.{◌≡◌, IfOk};
ghost use Rattle.std.specs.Borrow.{sem};
ghost use Rattle.lazy_dfa.specs.Caches.{IsCacheOf};
ghost use Rattle.regex_pair.specs.Borrowing.{BorrowsForward, BorrowsReverse};
ghost use Rattle.regex_pair.specs.Pairs.{AreCachesOf, Pair, ResetsPair, pair_made_for, pair_usage};

use crate::regex::Regex;
use lazy_dfa::dfa;
use std::alloc::{AllocError, Global};
use std::marker::Model;
use std::mem;

/// The caches of both automata of a regex, as `regex_automata::hybrid::regex::Cache`. They are usable only with the regex for
/// which they were made, or to which they were [`reset`](Cache::reset).
#[derive(Drop)]
pub struct Cache {
    pub(crate) forward: dfa::Cache,
    pub(crate) reverse: dfa::Cache,
    alloc: Global,
}

impl Model for Cache {
    ghost use Rattle.regex_pair.specs.Pairs.{PairCache};

    ghost Value = { PairCache };

    ghost view = { λ c. record { forward = c.forward; reverse = c.reverse } };
}

impl Cache {
    /// Caches for both automata that hold no states, as `Cache::new`. The call fails if it is out of memory.
    pub fn new(alloc: Global, re: &Regex) -> Result<Cache, AllocError>
        ensures value { IfOk result (λ c. c ≡ pair_made_for re.now) }
        ensures own { IfOk result (λ c. AreCachesOf re.now c) }
    {
        let forward = re.forward().create_cache(alloc)?;
        let reverse = re.reverse().create_cache(alloc)?;
        Ok(Cache {
            forward,
            reverse,
            alloc,
        })
    }

    /// Resets both caches to what [`new`](Cache::new) makes for this regex, as `Cache::reset`. The call fails if it is out of
    /// memory, and both are then left as they were.
    pub fn reset(&mut self, re: &Regex) -> Result<(), AllocError>
        ensures { ResetsPair re.now self.old self.new result }
    {
        let made = Cache::new(self.alloc, re)?;
        let old = mem::replace(self, made);
        drop(old);
        Ok(())
    }

    /// The cache of the automaton that finds ends, as `Cache::forward`.
    pub fn forward(&self) -> &dfa::Cache
        ensures value { result.now ≡ self.now.forward }
        ensures own { (p : Pair) → AreCachesOf p self.now → IsCacheOf p.forward result.now }
    {
        &self.forward
    }

    /// The cache of the automaton that finds starts, as `Cache::reverse`.
    pub fn reverse(&self) -> &dfa::Cache
        ensures value { result.now ≡ self.now.reverse }
        ensures own { (p : Pair) → AreCachesOf p self.now → IsCacheOf p.reverse result.now }
    {
        &self.reverse
    }

    /// The cache of the automaton that finds ends, as `Cache::forward_mut`. The other stays as it is. If the caller leaves a
    /// cache of its automaton here, both caches are still those of the regex.
    pub fn forward_mut(&mut self) -> &mut dfa::Cache
        ensures* lends { sem 𝓛 (BorrowsForward self.entry result) }
        ensures value { result.now ≡ self.old.forward }
        ensures own { (p : Pair) → AreCachesOf p self.old → IsCacheOf p.forward result.now }
    {
        &mut self.forward
    }

    /// The cache of the automaton that finds starts, as `Cache::reverse_mut`. The other stays as it is. If the caller leaves a
    /// cache of its automaton here, both caches are still those of the regex.
    pub fn reverse_mut(&mut self) -> &mut dfa::Cache
        ensures* lends { sem 𝓛 (BorrowsReverse self.entry result) }
        ensures value { result.now ≡ self.old.reverse }
        ensures own { (p : Pair) → AreCachesOf p self.old → IsCacheOf p.reverse result.now }
    {
        &mut self.reverse
    }

    /// Both caches, as `Cache::as_parts`: that of the automaton that finds ends first.
    pub fn as_parts(&self) -> (&dfa::Cache, &dfa::Cache)
        ensures forward { result.0.now ≡ self.now.forward }
        ensures reverse { result.1.now ≡ self.now.reverse }
        ensures own { (p : Pair) → AreCachesOf p self.now → IsCacheOf p.forward result.0.now × IsCacheOf p.reverse result.1.now }
    {
        (&self.forward, &self.reverse)
    }

    /// Both caches, as `Cache::as_parts_mut`: that of the automaton that finds ends first. A caller who has to know what both are
    /// afterwards calls [`forward_mut`](Cache::forward_mut) and [`reverse_mut`](Cache::reverse_mut), one after the other.
    pub fn as_parts_mut(&mut self) -> (&mut dfa::Cache, &mut dfa::Cache)
        ensures forward { result.0.now ≡ self.old.forward }
        ensures reverse { result.1.now ≡ self.old.reverse }
        ensures own { (p : Pair) → AreCachesOf p self.old → IsCacheOf p.forward result.0.now × IsCacheOf p.reverse result.1.now }
    {
        (&mut self.forward, &mut self.reverse)
    }

    /// The number of bytes that both caches are taken to need, as `Cache::memory_usage`: the sum, or the greatest number if the
    /// sum is above it.
    pub fn memory_usage(&self) -> usize
        ensures { result ≡ pair_usage self.now }
    {
        self.forward
            .memory_usage()
            .saturating_add(self.reverse.memory_usage())
    }
}

impl Regex {
    /// Caches for the regex, as `Regex::create_cache`. The call fails if it is out of memory.
    pub fn create_cache(&self, alloc: Global) -> Result<Cache, AllocError>
        ensures value { IfOk result (λ c. c ≡ pair_made_for self.now) }
        ensures own { IfOk result (λ c. AreCachesOf self.now c) }
    {
        let cache = Cache::new(alloc, self)?;
        Ok(cache)
    }

    /// Resets the caches to ones for this regex, as `Regex::reset_cache`. The call fails if it is out of memory, and both are
    /// then left as they were.
    pub fn reset_cache(&self, cache: &mut Cache) -> Result<(), AllocError>
        ensures { ResetsPair self.now cache.old cache.new result }
    {
        cache.reset(self)?;
        Ok(())
    }
}
