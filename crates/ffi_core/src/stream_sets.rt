//! Streams for callers from outside: a set of them over patterns, with options and errors as numbers.
ghost use Rattle.std.specs.Prelude.{◌≡◌, ◌<◌, IfErr, IfOk};
ghost use Rattle.stream_regex.specs.Sets.{IsNewSet};
ghost use Rattle.ffi_core.specs.Failures.{without_cause};
ghost use Rattle.ffi_core.specs.Streams.{IsStreamsFailure, failure_of_set, failure_of_stream, stream_options_of};
ghost use Rattle.ffi_core.specs.Texts.{cut};

use crate::failure::{
    BAD_ARGUMENT, CAPACITY_TOO_SMALL, CLOSED, Failure, NO_MEMORY, NewError, OUTPUT_TOO_SMALL,
    TOO_LARGE, UNSUPPORTED,
};
use crate::options::Options;
use crate::texts::{accepts, patterns_of};
use std::alloc::Global;
use stream_regex::StreamSet;
use streams::StreamError;

/// The options of streams for which a caller's numbers stand. Flags that only concern other searches have no effect.
fn stream_options(options: &Options) -> stream_regex::Options
    ensures { result ≡ stream_options_of options.now }
{
    let engine = options.options();
    stream_regex::Options {
        syntax: engine.syntax,
        byte_classes: engine.byte_classes,
        skip_cache_capacity_check: engine.skip_cache_capacity_check,
        size_limit: engine.size_limit,
        cache_capacity: engine.cache_capacity,
        lines: options.reads_lines(),
    }
}

/// Why no set of streams is made, in numbers.
fn failure_of_set(error: stream_regex::NewError) -> Failure
    ensures value { without_cause result ≡ failure_of_set error }
    ensures fails { 0 < result.status }
{
    match error {
        stream_regex::NewError::NoMemory => Failure::plain(NO_MEMORY),
        stream_regex::NewError::Text(e) => NewError::Text(e).failure(),
        stream_regex::NewError::WordLook(pattern) => Failure {
            pattern,
            ..Failure::plain(UNSUPPORTED)
        },
        stream_regex::NewError::Build(e) => NewError::Build(e).failure(),
    }
}

/// Makes a set of no streams over patterns that follow one another in a buffer. Arguments are checked before all else.
pub fn streams_of(
    alloc: Global,
    texts: &[u8],
    lengths: &[usize],
    options: &Options,
) -> Result<StreamSet, Failure>
    ensures made { IfOk result (IsNewSet (stream_options_of options.now) (cut lengths.now texts.now)) }
    ensures refused { IfErr result (IsStreamsFailure options.now lengths.now texts.now) }
    ensures fails { IfErr result (λ f. 0 < f.status) }
{
    if !accepts(texts, lengths, options) {
        return Err(Failure::plain(BAD_ARGUMENT));
    }
    let texts = match patterns_of(alloc, texts, lengths) {
        Ok(texts) => texts,
        Err(e) => return Err(e.failure()),
    };
    match StreamSet::new(alloc, &texts, &stream_options(options)) {
        Ok(set) => Ok(set),
        Err(e) => Err(failure_of_set(e)),
    }
}

impl Failure {
    /// The error of a stream in numbers.
    pub fn of_stream(error: &StreamError) -> Failure
        ensures value { result ≡ failure_of_stream error.now }
        ensures fails { 0 < result.status }
    {
        match error {
            StreamError::Quit { offset, .. } => Failure {
                start: *offset,
                ..Failure::plain(UNSUPPORTED)
            },
            StreamError::Closed => Failure::plain(CLOSED),
            StreamError::GaveUp => Failure::plain(CAPACITY_TOO_SMALL),
            StreamError::NoMemory => Failure::plain(NO_MEMORY),
            StreamError::TooLong => Failure::plain(TOO_LARGE),
            StreamError::NoRoom => Failure::plain(OUTPUT_TOO_SMALL),
        }
    }
}
