//! The automaton of a set with its cache, which is enlarged if it is cleared too soon.
ghost use Rattle.std.specs.Prelude.{◌≡◌, ◌≤◌, ◌<◌, IfOk, IfSome};
ghost use Rattle.std.specs.Option.{unwrap_or};
ghost use Rattle.lazy_dfa.specs.Caches.{IsCacheOf};
ghost use Rattle.streams.specs.Streams.{IsStreamOf};
ghost use Rattle.growing_regex.specs.Growing.{largest_for};
ghost use Rattle.stream_regex.specs.Capacities.{IsGrown, IsOrigin, most_usage};
ghost use Rattle.stream_regex.specs.Sets.{IsClosedIn, IsFedIn};

use crate::calls::{close_in, feed_in};
use crate::regex::StreamRegex;
use crate::resizing::resized;
use growing_regex::Size;
use lazy_dfa::dfa::{Cache, DFA};
use std::alloc::{AllocError, Global};
use std::marker::Model;
use streams::laws::capacities_make_no_difference;
use streams::{Fed, Stream, StreamError, StreamMatch};

/// The automaton of patterns with a cache. If that is cleared too soon, streams go on with a copy of the automaton that has a larger cache.
/// Nothing is parsed or compiled for that, and what streams report doesn't depend on it. If memory doesn't suffice, the cache stays as it is.
///
/// A stream holds its own state, so it goes on over the copy as it is.
#[derive(Drop)]
pub(crate) struct GrowingDfa {
    /// The automaton as it was made.
    origin: StreamRegex,
    /// A copy of it that has a larger cache, if the first one was cleared too soon.
    larger: Option<DFA>,
    /// The cache of the copy, or of the automaton as it was made.
    cache: Cache,
    size: Size,
    /// The largest capacity in bytes to which the cache is enlarged.
    largest: usize,
    alloc: Global,
}

impl Model for GrowingDfa {
    ghost use Rattle.std.specs.Option.{unwrap_or};
    ghost use Rattle.lazy_dfa.specs.Caches.{IsCacheOf};
    ghost use Rattle.lazy_dfa.specs.Dfas.{Dfa};
    ghost use Rattle.stream_regex.specs.Capacities.{IsGrown, IsOrigin};

    ghost Value = { Dfa };

    ghost view = { λ g. g.origin };

    ghost invariant = { λ g. IsOrigin g.origin g.largest × IsGrown g.origin (unwrap_or g.larger g.origin) ×
        IsCacheOf (unwrap_or g.larger g.origin) g.cache };
}

/// The automaton over which streams go on: the copy, or the one that was made.
#[inline(always)]
fn present<'a>(origin: &'a StreamRegex, larger: &'a Option<DFA>) -> &'a DFA
    ensures { result.now ≡ unwrap_or larger.now origin.now }
{
    match larger {
        Some(copy) => copy,
        None => origin.automaton(),
    }
}

impl GrowingDfa {
    /// The automaton with an empty cache, which is enlarged to at most this capacity in bytes. If it is 0, the cache is never enlarged.
    pub(crate) fn new(
        alloc: Global,
        origin: StreamRegex,
        largest: usize,
    ) -> Result<GrowingDfa, AllocError>
        requires { IsOrigin origin largest }
        ensures { IfOk result (λ g. g ≡ origin) }
    {
        let cache = origin.create_cache(alloc)?;
        let size = Size::of(origin.automaton().get_config().get_cache_capacity());
        Ok(GrowingDfa {
            origin,
            larger: None,
            cache,
            size,
            largest,
            alloc,
        })
    }

    /// How often caches were cleared, those included that have been replaced. The greatest number stands for any number above it.
    pub(crate) fn clear_count(&self) -> usize {
        self.size.clear_count(self.cache.clear_count())
    }

    /// The bytes that the present cache is estimated to need.
    pub(crate) fn memory_usage(&self) -> usize
        ensures { result ≤ most_usage self.now }
    {
        present(&self.origin, &self.larger).is_made();
        self.cache.memory_usage()
    }

    /// Replaces the automaton and its cache by larger ones.
    fn replace(&mut self, copy: DFA, cache: Cache, capacity: usize)
        requires grown { IsGrown self.old copy }
        requires own { IsCacheOf copy cache }
        ensures { self.new ≡ self.old }
    {
        self.size = self.size.enlarged(capacity, self.cache.clear_count());
        self.larger = Some(copy);
        self.cache = cache;
    }

    /// A copy of the automaton that has a cache of this capacity in bytes, if memory suffices.
    fn copied(&self, capacity: usize) -> Option<DFA>
        requires some { 0 < capacity }
        requires within { capacity ≤ largest_for self.now.options.cache_capacity }
        ensures { IfSome result (IsGrown self.now) }
    {
        let Some(copy) = resized(self.alloc, self.origin.automaton(), capacity) else {
            return None;
        };
        Some(copy)
    }

    /// Records that the cache was cleared. If that was too soon, it enlarges the cache, as far as that is allowed and memory suffices. It isn't
    /// inlined, since it is called rarely.
    #[inline(never)]
    fn enlarge(&mut self)
        ensures { self.new ≡ self.old }
    {
        let clears = self.cache.clear_count();
        let Some(capacity) = self.size.larger(clears, self.largest) else {
            return;
        };
        let Some(copy) = self.copied(capacity) else {
            return;
        };
        let Ok(cache) = Cache::new(self.alloc, &copy) else {
            return;
        };
        self.replace(copy, cache, capacity);
    }

    /// Records that this many bytes were read.
    #[inline(always)]
    fn note(&mut self, bytes: usize)
        ensures { self.new ≡ self.old }
    {
        self.size.pass(bytes);
        if self.cache.clear_count() != self.size.clears {
            self.enlarge();
        }
    }

    /// Feeds a stream, line by line or not.
    pub(crate) fn feed(
        &mut self,
        lines: bool,
        stream: &mut Stream,
        bytes: &[u8],
        rows: &mut [StreamMatch],
    ) -> (Fed, Result<(), StreamError>)
        requires { IsStreamOf self.old stream.old }
        ensures same { self.new ≡ self.old }
        ensures stream { IsStreamOf self.old stream.new }
        ensures fed { IsFedIn lines self.old stream.old stream.new bytes.now rows.old rows.new result.0 result.1 }
    {
        capacities_make_no_difference();
        let dfa = present(&self.origin, &self.larger);
        let (fed, result) = feed_in(lines, dfa, &mut self.cache, stream, bytes, rows);
        self.note(fed.taken);
        (fed, result)
    }

    /// Closes a stream whose input was read line by line or not.
    pub(crate) fn close(
        &mut self,
        lines: bool,
        stream: &mut Stream,
        rows: &mut [StreamMatch],
    ) -> (usize, Result<(), StreamError>)
        requires { IsStreamOf self.old stream.old }
        ensures same { self.new ≡ self.old }
        ensures stream { IsStreamOf self.old stream.new }
        ensures closed { IsClosedIn lines self.old stream.old stream.new rows.old rows.new result.0 result.1 }
    {
        capacities_make_no_difference();
        let dfa = present(&self.origin, &self.larger);
        let (count, result) = close_in(lines, dfa, &mut self.cache, stream, rows);
        self.note(0);
        (count, result)
    }
}
