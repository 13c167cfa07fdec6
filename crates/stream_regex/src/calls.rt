//! Calls of a stream that reads its input line by line or not.
ghost use Rattle.lazy_dfa.specs.Caches.{IsCacheOf};
ghost use Rattle.streams.specs.Streams.{IsStreamOf};
ghost use Rattle.stream_regex.specs.Sets.{IsClosedIn, IsFedIn};

use lazy_dfa::dfa::{Cache, DFA};
use streams::{Fed, Stream, StreamError, StreamMatch};

/// What ends a line.
const LINE_FEED: u8 = 10;

/// Feeds a stream, line by line or not.
pub(crate) fn feed_in(
    lines: bool,
    dfa: &DFA,
    cache: &mut Cache,
    stream: &mut Stream,
    bytes: &[u8],
    rows: &mut [StreamMatch],
) -> (Fed, Result<(), StreamError>)
    requires own { IsCacheOf dfa.now cache.old }
    requires stream { IsStreamOf dfa.now stream.old }
    ensures own { IsCacheOf dfa.now cache.new }
    ensures stream { IsStreamOf dfa.now stream.new }
    ensures fed { IsFedIn lines dfa.now stream.old stream.new bytes.now rows.old rows.new result.0 result.1 }
{
    if lines {
        stream.feed_lines(dfa, cache, LINE_FEED, bytes, rows)
    } else {
        stream.feed(dfa, cache, bytes, rows)
    }
}

/// Closes a stream whose input was read line by line or not.
pub(crate) fn close_in(
    lines: bool,
    dfa: &DFA,
    cache: &mut Cache,
    stream: &mut Stream,
    rows: &mut [StreamMatch],
) -> (usize, Result<(), StreamError>)
    requires own { IsCacheOf dfa.now cache.old }
    requires stream { IsStreamOf dfa.now stream.old }
    ensures own { IsCacheOf dfa.now cache.new }
    ensures stream { IsStreamOf dfa.now stream.new }
    ensures closed { IsClosedIn lines dfa.now stream.old stream.new rows.old rows.new result.0 result.1 }
{
    if lines {
        stream.close_lines(dfa, cache, rows)
    } else {
        stream.close(dfa, cache, rows)
    }
}
