//! Many streams over one automaton and one cache.
ghost use Rattle.std.specs.Prelude.{◌≡◌, ◌≤◌, [], IfErr, IfOk, map};
ghost use Rattle.stream_regex.specs.Capacities.{IsOrigin, most_usage};
ghost use Rattle.stream_regex.specs.Sets.{IsNewSet, SetValue};
ghost use Rattle.stream_regex.specs.StreamRegexes.{IsNewError};

use crate::errors::NewError;
use crate::growing::GrowingDfa;
use crate::options::Options;
use crate::regex::StreamRegex;
use growing_regex::largest_for;
use std::alloc::{AllocError, Global};
use std::marker::Model;
use streams::Stream;

/// An automaton of patterns, a cache, and streams that share both. A stream is known by its number, which [`open`](StreamSet::open) returns.
/// The number of a stream that was removed may be used again.
///
/// If the options set no capacity, a cache that is cleared too soon is enlarged, up to 256 MiB. A capacity that is set is never exceeded. What
/// streams report doesn't depend on it.
#[derive(Drop)]
pub struct StreamSet {
    pub(crate) automaton: GrowingDfa,
    pub(crate) streams: Vec<Option<Stream>>,
    /// Numbers that no stream has.
    pub(crate) free: Vec<usize>,
    /// Whether each line of the input is searched by itself.
    pub(crate) lines: bool,
}

impl Model for StreamSet {
    ghost use Rattle.stream_regex.specs.Sets.{AreStreamsOf, SetValue};

    ghost Value = { SetValue };

    ghost view = { λ s. record { dfa = s.automaton; streams = s.streams.items; lines = s.lines } };

    ghost invariant = { λ s. AreStreamsOf s.automaton s.streams.items };
}

/// A set of no streams, over a regex. Its cache is enlarged to at most this capacity in bytes.
fn set_of(
    alloc: Global,
    regex: StreamRegex,
    largest: usize,
    lines: bool,
) -> Result<StreamSet, AllocError>
    requires { IsOrigin regex largest }
    ensures { IfOk result (λ v. v ≡ record { dfa = regex; streams = []; lines = lines }) }
{
    let automaton = GrowingDfa::new(alloc, regex, largest)?;
    Ok(StreamSet {
        automaton,
        streams: Vec::new(alloc),
        free: Vec::new(alloc),
        lines,
    })
}

impl StreamSet {
    /// Makes a set of no streams over patterns.
    pub fn new(alloc: Global, texts: &[&str], options: &Options) -> Result<StreamSet, NewError>
        ensures made { IfOk result (IsNewSet options.now (map (λ t. t.now) texts.now)) }
        ensures refused { IfErr result (IsNewError options.now (map (λ t. t.now) texts.now)) }
    {
        let regex = match StreamRegex::new(alloc, texts, options) {
            Ok(regex) => regex,
            Err(e) => return Err(e),
        };
        match set_of(
            alloc,
            regex,
            largest_for(options.cache_capacity),
            options.lines,
        ) {
            Ok(set) => Ok(set),
            Err(_) => Err(NewError::NoMemory),
        }
    }

    /// How often caches were cleared, those included that larger ones have replaced. The greatest number stands for any number above it.
    pub fn clear_count(&self) -> usize {
        self.automaton.clear_count()
    }

    /// The bytes that the cache is estimated to need. These are at most the capacity that the options set, or 256 MiB if they set none. A
    /// capacity that is too small for the automaton counts as the least possible one.
    pub fn memory_usage(&self) -> usize
        ensures { result ≤ most_usage self.now.dfa }
    {
        self.automaton.memory_usage()
    }
}
