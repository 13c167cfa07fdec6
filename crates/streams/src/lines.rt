//! Input that is read line by line.
//!
//! The bytes of a line are fed as any other ones. At its end the stream is closed, and goes on as a fresh one at the offset of the next line.
ghost use Rattle.std.specs.Prelude.{◌≡◌, ◌==◌, ◌+◌, ◌<◌, ◌≤◌, Some, length, slice_get, take};
ghost use Rattle.std.specs.List.{position};
ghost use Rattle.lazy_dfa.specs.Caches.{IsCacheOf};
ghost use Rattle.streams.specs.Feeding.{IsOpenPoint};
ghost use Rattle.streams.specs.LineCalls.{AreLinesClosed, AreLinesFed, HasNoEnd, IsLineEnded, IsLineFed};
ghost use Rattle.streams.specs.Lines.{is_fresh};
ghost use Rattle.streams.specs.Streams.{IsStreamOf};

use crate::errors::StreamError;
use crate::feeding::Fed;
use crate::stream::{Point, Stream, StreamMatch};
use lazy_dfa::dfa::{Cache, DFA};

/// At most so many bytes of a line are fed at once. So few bytes are searched for a terminator once more if the rows are full.
const PART: usize = 4096;

/// Where the first terminator is.
fn first_end(bytes: &[u8], terminator: u8) -> Option<usize>
    ensures { result ≡ position (λ b. b == terminator) bytes.now }
{
    bytes.iter().position(|b| *b == terminator)
}

/// How many bytes of a line are fed next. With 0 there is a terminator.
fn part_length(bytes: &[u8], terminator: u8) -> usize
    ensures within { result ≤ length bytes.now }
    ensures free { HasNoEnd terminator (take result bytes.now) }
    ensures ends { result ≡ 0 → 0 < length bytes.now → slice_get bytes.now 0 ≡ Some terminator }
{
    let most = bytes.len().min(PART);
    match first_end(&bytes[..most], terminator) {
        Some(n) => n,
        None => most,
    }
}

impl Stream {
    /// Whether no byte of the line was read.
    fn is_fresh(&self) -> bool
        ensures { result ≡ is_fresh self.now.point }
    {
        match &self.point {
            Point::Fresh => true,
            _ => false,
        }
    }

    /// Reads the end of a line: writes the ends there, and goes on at the start of the next line.
    fn end_line(
        &mut self,
        dfa: &DFA,
        cache: &mut Cache,
        rows: &mut [StreamMatch],
    ) -> (Fed, Result<(), StreamError>)
        requires own { IsCacheOf dfa.now cache.old }
        requires stream { IsStreamOf dfa.now self.old }
        requires is_open { IsOpenPoint self.old.point }
        requires room { self.old.offset < 0xFFFF_FFFF_FFFF_FFFF }
        ensures own { IsCacheOf dfa.now cache.new }
        ensures stream { IsStreamOf dfa.now self.new }
        ensures ended { IsLineEnded dfa.now self.old self.new rows.old rows.new result.0 result.1 }
    {
        let none = Fed { taken: 0, count: 0 };
        let (count, result) = self.close(dfa, cache, rows);
        match result {
            Ok(()) => {
                self.point = Point::Fresh;
                self.offset += 1;
                (Fed { taken: 1, count }, Ok(()))
            }
            Err(StreamError::NoRoom) => (none, Ok(())),
            Err(error) => (none, Err(error)),
        }
    }

    /// Reads bytes of a line, or its end.
    fn feed_line(
        &mut self,
        dfa: &DFA,
        cache: &mut Cache,
        terminator: u8,
        bytes: &[u8],
        rows: &mut [StreamMatch],
    ) -> (Fed, Result<(), StreamError>)
        requires own { IsCacheOf dfa.now cache.old }
        requires stream { IsStreamOf dfa.now self.old }
        requires is_open { IsOpenPoint self.old.point }
        requires room { self.old.offset + length bytes.now ≤ 0xFFFF_FFFF_FFFF_FFFF }
        requires some { 0 < length bytes.now }
        ensures own { IsCacheOf dfa.now cache.new }
        ensures stream { IsStreamOf dfa.now self.new }
        ensures fed { IsLineFed dfa.now terminator self.old self.new bytes.now rows.old rows.new result.0 result.1 }
    {
        let n = part_length(bytes, terminator);
        if n == 0 {
            return self.end_line(dfa, cache, rows);
        }
        self.feed(dfa, cache, &bytes[..n], rows)
    }

    /// Reads a piece of the input line by line, and writes the ends that these bytes decide, as [`feed`](Stream::feed) does. Each line is
    /// searched by itself: `^` and `$` are its start and its end, and no match goes beyond it. The terminator ends a line and is no part of
    /// it. Offsets are those of the whole input. The ends at the end of a line are known once its terminator is read.
    ///
    /// Precondition: as that of [`feed`](Stream::feed). All pieces are fed by this call, with one terminator.
    pub fn feed_lines(
        &mut self,
        dfa: &DFA,
        cache: &mut Cache,
        terminator: u8,
        bytes: &[u8],
        rows: &mut [StreamMatch],
    ) -> (Fed, Result<(), StreamError>)
        requires own { IsCacheOf dfa.now cache.old }
        requires stream { IsStreamOf dfa.now self.old }
        ensures own { IsCacheOf dfa.now cache.new }
        ensures stream { IsStreamOf dfa.now self.new }
        ensures fed { AreLinesFed dfa.now terminator self.old self.new bytes.now rows.old rows.new result.0 result.1 }
    {
        let mut taken = 0;
        let mut count = 0;
        match self.check(bytes.len()) {
            Ok(()) => {}
            Err(error) => return (Fed { taken, count }, Err(error)),
        }
        while taken < bytes.len() {
            let (line, result) = self.feed_line(
                dfa,
                cache,
                terminator,
                &bytes[taken..],
                &mut rows[count..],
            );
            taken += line.taken;
            count += line.count;
            match result {
                Ok(()) => {}
                Err(error) => return (Fed { taken, count }, Err(error)),
            }
            if line.taken == 0 {
                return (Fed { taken, count }, Ok(()));
            }
        }
        (Fed { taken, count }, Ok(()))
    }

    /// Reads the end of an input that was read line by line, as [`close`](Stream::close) does. If no byte follows the last terminator, there is
    /// no line, and no end is reported.
    pub fn close_lines(
        &mut self,
        dfa: &DFA,
        cache: &mut Cache,
        rows: &mut [StreamMatch],
    ) -> (usize, Result<(), StreamError>)
        requires own { IsCacheOf dfa.now cache.old }
        requires stream { IsStreamOf dfa.now self.old }
        ensures own { IsCacheOf dfa.now cache.new }
        ensures stream { IsStreamOf dfa.now self.new }
        ensures closed { AreLinesClosed dfa.now self.old self.new rows.old rows.new result.0 result.1 }
    {
        if self.is_fresh() {
            self.point = Point::Closed;
            return (0, Ok(()));
        }
        self.close(dfa, cache, rows)
    }
}
