//! The calls with streams: searches of input that comes in pieces.
//!
//! A handle holds a set of streams over one automaton and one cache. A stream of it is known by its number.
ghost use Rattle.std.specs.Prelude.{◌≡◌, ◌≢◌, ◌<◌, Some, None, IfSome, IfErr, IfOk, false};
ghost use Rattle.stream_regex.specs.Sets.{IsNewSet};
ghost use Rattle.streams.specs.Streams.{fresh_stream};
ghost use Rattle.ffi_core.specs.Compiled.{are_arguments};
ghost use Rattle.ffi_core.specs.Failures.{plain};
ghost use Rattle.ffi_core.specs.Streams.{IsStreamsFailure, stream_options_of};
ghost use Rattle.ffi_core.specs.Texts.{cut};
ghost use Rattle.hanneddois.specs.StreamAnswers.{AnswersChange, AnswersClose, AnswersCopy, AnswersFeed, AnswersOpen, Becomes};
ghost use Rattle.hanneddois.specs.StreamAnswers.{RejectsStreams, failure_of_outcome};

use crate::apart::boxed;
use crate::stream_handle::StreamHandle;
use crate::{BAD_ARGUMENT, NO_MEMORY, OK, end, refuse};
use ffi_core::{Failure, Options, accepts, streams_of};
use std::alloc::Global;
use stream_regex::StreamSet;
use streams::{StreamError, StreamMatch};

/// A set of streams in a memory block of its own.
fn made(
    alloc: Global,
    texts: &[u8],
    lengths: &[usize],
    options: &Options,
) -> Result<Box<StreamSet>, Failure>
    ensures made { IfOk result (λ b. IsNewSet (stream_options_of options.now) (cut lengths.now texts.now) b.value) }
    ensures refused { IfErr result (IsStreamsFailure options.now lengths.now texts.now) }
    ensures fails { IfErr result (λ f. 0 < f.status) }
{
    let set = match streams_of(alloc, texts, lengths, options) {
        Ok(set) => set,
        Err(failure) => return Err(failure),
    };
    match boxed(alloc, set) {
        Ok(inside) => Ok(inside),
        Err(_) => Err(Failure::plain(NO_MEMORY)),
    }
}

/// Reports how a call with a stream ended.
fn report(outcome: Result<(), StreamError>, error: &mut Failure) -> u32
    ensures status { result ≡ error.new.status }
    ensures reported { error.new ≡ failure_of_outcome outcome }
{
    match outcome {
        Ok(()) => end(OK, error),
        Err(e) => refuse(Failure::of_stream(&e), error),
    }
}

/// Makes a set of no streams over patterns and returns the status 0, or returns an error. The errors are those of
/// [`hanneddois_new`](crate::hanneddois_new) without 7, and 10: a pattern has a Unicode word boundary.
#[unsafe(no_mangle)]
pub extern "C" fn hanneddois_streams_new(
    alloc: Global,
    streams: &mut StreamHandle,
    texts: &[u8],
    lengths: &[usize],
    options: &Options,
    error: &mut Failure,
) -> u32
    ensures reported { error.new.status ≡ result }
    ensures holds { result ≡ 0 → streams.new.value ≢ None }
    ensures made { IfSome streams.new.value (IsNewSet (stream_options_of options.now) (cut lengths.now texts.now)) }
    ensures empty { result ≢ 0 → streams.new.value ≡ None }
    ensures plain { result ≡ 0 → error.new ≡ plain 0 }
    ensures argument { are_arguments options.now lengths.now texts.now ≡ false → error.new ≡ plain 2 }
    ensures refused { RejectsStreams options.now lengths.now texts.now error.new }
{
    drop(streams.take(alloc));
    if !accepts(texts, lengths, options) {
        return end(BAD_ARGUMENT, error);
    }
    match made(alloc, texts, lengths, options) {
        Ok(inside) => {
            streams.put(alloc, inside);
            end(OK, error)
        }
        Err(failure) => refuse(failure, error),
    }
}

/// Frees a set with all its streams.
#[unsafe(no_mangle)]
pub extern "C" fn hanneddois_streams_free(alloc: Global, streams: &mut StreamHandle)
    ensures { streams.new.value ≡ None }
{
    drop(streams.take(alloc));
}

/// The bytes that the cache of a set is estimated to need.
#[unsafe(no_mangle)]
pub extern "C" fn hanneddois_streams_memory_usage(
    alloc: Global,
    streams: &mut StreamHandle,
) -> usize
    ensures same { streams.new.value ≡ streams.old.value }
{
    let Some(inside) = streams.take(alloc) else {
        return 0;
    };
    let bytes = inside.memory_usage();
    streams.put(alloc, inside);
    bytes
}

/// Adds a stream that has read nothing, writes its number and returns the status 0. Otherwise no stream was added, the number is 0, and the
/// status is 2 for an empty handle, or 3 if memory ran out.
#[unsafe(no_mangle)]
pub extern "C" fn hanneddois_stream_new(
    alloc: Global,
    streams: &mut StreamHandle,
    stream: &mut usize,
) -> u32
    ensures opened { Becomes streams.old.value streams.new.value (λ v w. AnswersOpen v w stream.new result) }
    ensures empty { streams.old.value ≡ None → (result ≡ 2) × (stream.new ≡ 0) }
{
    *stream = 0;
    let Some(mut inside) = streams.take(alloc) else {
        return BAD_ARGUMENT;
    };
    let opened = inside.open();
    streams.put(alloc, inside);
    match opened {
        Ok(number) => {
            *stream = number;
            OK
        }
        Err(_) => NO_MEMORY,
    }
}

/// Adds a copy of the stream with a number, as it is now. Writes the copy's number and returns the status 0. Otherwise no stream was added, the
/// number is 0, and the status is 2 if there is no such stream or the handle is empty, or 3 if memory ran out.
#[unsafe(no_mangle)]
pub extern "C" fn hanneddois_stream_clone(
    alloc: Global,
    streams: &mut StreamHandle,
    from: usize,
    to: &mut usize,
) -> u32
    ensures copied { Becomes streams.old.value streams.new.value (λ v w. AnswersCopy v w from to.new result) }
    ensures empty { streams.old.value ≡ None → (result ≡ 2) × (to.new ≡ 0) }
{
    *to = 0;
    let Some(mut inside) = streams.take(alloc) else {
        return BAD_ARGUMENT;
    };
    let copied = inside.copy(from);
    streams.put(alloc, inside);
    match copied {
        Ok(Some(number)) => {
            *to = number;
            OK
        }
        Ok(None) => BAD_ARGUMENT,
        Err(_) => NO_MEMORY,
    }
}

/// Feeds a piece to the stream with a number, which reads lines if the set was made with that flag. Writes how many of its bytes were
/// taken, and how many ends were written to the first rows. The status is 0, or an error:
///
/// - 2: there is no such stream, or the handle is empty.
/// - 3: memory ran out.
/// - 8: the stream would be longer than offsets can be.
/// - 14: the stream is closed.
///
/// With the status 0 and fewer bytes taken than there are, the ends before the next byte have no room.
#[unsafe(no_mangle)]
pub extern "C" fn hanneddois_stream_feed(
    alloc: Global,
    streams: &mut StreamHandle,
    stream: usize,
    bytes: &[u8],
    ends: &mut [StreamMatch],
    taken: &mut usize,
    count: &mut usize,
    error: &mut Failure,
) -> u32
    ensures reported { error.new.status ≡ result }
    ensures fed { Becomes streams.old.value streams.new.value
        (λ v w. AnswersFeed v w stream bytes.now ends.old ends.new taken.new count.new error.new) }
    ensures empty { streams.old.value ≡ None → (error.new ≡ plain 2) × (taken.new ≡ 0) × (count.new ≡ 0) × (ends.new ≡ ends.old) }
{
    *taken = 0;
    *count = 0;
    let Some(mut inside) = streams.take(alloc) else {
        return end(BAD_ARGUMENT, error);
    };
    let result = inside.feed(stream, bytes, ends);
    streams.put(alloc, inside);
    let Some((fed, outcome)) = result else {
        return end(BAD_ARGUMENT, error);
    };
    *taken = fed.taken;
    *count = fed.count;
    report(outcome, error)
}

/// Reads the end of the input of the stream with a number: it is closed after that, and takes no more bytes until it is reset. Writes how many
/// ends lie there, and these to the first rows. The status is 0, or an error, after which the stream is as it was. The errors are those of
/// [`hanneddois_stream_feed`], and 13: the rows have no room for so many ends.
#[unsafe(no_mangle)]
pub extern "C" fn hanneddois_stream_close(
    alloc: Global,
    streams: &mut StreamHandle,
    stream: usize,
    ends: &mut [StreamMatch],
    count: &mut usize,
    error: &mut Failure,
) -> u32
    ensures reported { error.new.status ≡ result }
    ensures closed { Becomes streams.old.value streams.new.value (λ v w. AnswersClose v w stream ends.old ends.new count.new error.new) }
    ensures empty { streams.old.value ≡ None → (error.new ≡ plain 2) × (count.new ≡ 0) × (ends.new ≡ ends.old) }
{
    *count = 0;
    let Some(mut inside) = streams.take(alloc) else {
        return end(BAD_ARGUMENT, error);
    };
    let result = inside.close(stream, ends);
    streams.put(alloc, inside);
    let Some((written, outcome)) = result else {
        return end(BAD_ARGUMENT, error);
    };
    *count = written;
    report(outcome, error)
}

/// Makes the stream with a number one that has read nothing, and returns the status 0. It is 2 if there is no such stream, or if the handle is
/// empty.
#[unsafe(no_mangle)]
pub extern "C" fn hanneddois_stream_reset(
    alloc: Global,
    streams: &mut StreamHandle,
    stream: usize,
) -> u32
    ensures changed { Becomes streams.old.value streams.new.value (λ v w. AnswersChange v w stream (Some fresh_stream) result) }
    ensures empty { streams.old.value ≡ None → result ≡ 2 }
{
    let Some(mut inside) = streams.take(alloc) else {
        return BAD_ARGUMENT;
    };
    let is_there = inside.reset(stream);
    streams.put(alloc, inside);
    if is_there { OK } else { BAD_ARGUMENT }
}

/// Removes the stream with a number, which may be used again, and returns the status 0. It is 2 if there is no such stream, or if the handle
/// is empty.
#[unsafe(no_mangle)]
pub extern "C" fn hanneddois_stream_free(
    alloc: Global,
    streams: &mut StreamHandle,
    stream: usize,
) -> u32
    ensures changed { Becomes streams.old.value streams.new.value (λ v w. AnswersChange v w stream None result) }
    ensures empty { streams.old.value ≡ None → result ≡ 2 }
{
    let Some(mut inside) = streams.take(alloc) else {
        return BAD_ARGUMENT;
    };
    let was_there = inside.remove(stream);
    streams.put(alloc, inside);
    if was_there { OK } else { BAD_ARGUMENT }
}
