//! Calls that feed a stream, and the one that closes it.
ghost use Rattle.std.specs.Prelude.{◌≡◌, ◌+◌, ◌<◌, ◌≤◌, IfErr, IfOk, IfSome, length, map};
ghost use Rattle.lazy_dfa.specs.Blanks.{FitsLedger};
ghost use Rattle.lazy_dfa.specs.Caches.{IsCacheOf, IsRow};
ghost use Rattle.lazy_dfa.specs.Dfas.{Dfa};
ghost use Rattle.streams.specs.Errors.{IsStreamError};
ghost use Rattle.streams.specs.Feeding.{IsStreamClosed, IsEntered, IsFed, IsLast, IsLastError, IsNamed, IsOpenPoint, begun_stream, outcome_of, settled};
ghost use Rattle.streams.specs.Reading.{Appends, IsPieceRead, IsStepError};
ghost use Rattle.streams.specs.Streams.{IsPointOf, IsStreamOf, stream_end, last_at};

use crate::errors::{StreamError, of_start, of_step};
use crate::reading::{Read, read_piece};
use crate::rows::write_ends;
use crate::stream::{Point, Stream, StreamMatch};
use determinize_core::Config as StartConfig;
use lazy_dfa::dfa::{Cache, DFA};
use lazy_dfa::{LazyStateID, Work};
use std::marker::Brand;
use std::sync::ledger::{Blank, Ledger};

/// What a call took and wrote.
#[derive(Clone, Copy, Debug, PartialEq, Eq)]
pub struct Fed {
    /// How many bytes were read.
    pub taken: usize,
    /// How many ends were written, to the first rows.
    pub count: usize,
}

/// The ID of the state in which a stream reads on, or `None` if it is in no state.
fn state_id<L: Ledger, M: Ledger>(
    dfa: &DFA,
    cache: &mut Cache,
    point: &Point,
    work: &mut Work<L, M>,
) -> Result<Option<LazyStateID>, StreamError>
    requires own { IsCacheOf dfa.now cache.old }
    requires point { IsPointOf dfa.now point.now }
    ensures own { IsCacheOf dfa.now cache.new }
    ensures named { IfOk result (IsNamed dfa.now cache.new point.now) }
    ensures err { IfErr result (IsStepError dfa.now) }
{
    match point {
        Point::Fresh => match dfa.start_state(cache, &StartConfig::new(), work) {
            Ok(id) => Ok(Some(id)),
            Err(error) => Err(of_start(error)),
        },
        Point::Within(state) => match dfa.hold_state(cache, state) {
            Ok(id) => Ok(Some(id)),
            Err(error) => Err(of_step(error)),
        },
        _ => Ok(None),
    }
}

/// The ID of the state in which a stream reads on, or `None` if it is in no state or in the dead one.
fn enter<L: Ledger, M: Ledger>(
    dfa: &DFA,
    cache: &mut Cache,
    point: &Point,
    work: &mut Work<L, M>,
) -> Result<Option<LazyStateID>, StreamError>
    requires own { IsCacheOf dfa.now cache.old }
    requires point { IsPointOf dfa.now point.now }
    ensures own { IsCacheOf dfa.now cache.new }
    ensures row { IfOk result (λ o. IfSome o (λ id. IsRow cache.new id)) }
    ensures entered { IfOk result (IsEntered dfa.now cache.new point.now) }
    ensures err { IfErr result (IsStepError dfa.now) }
{
    match state_id(dfa, cache, point, work) {
        Ok(Some(id)) => { if id.is_dead() { Ok(None) } else { Ok(Some(id)) } }
        Ok(None) => Ok(None),
        Err(error) => Err(error),
    }
}

/// Reads a piece from where an open stream is.
fn read_open<L: Ledger, M: Ledger>(
    dfa: &DFA,
    cache: &mut Cache,
    point: &Point,
    offset: usize,
    bytes: &[u8],
    rows: &mut [StreamMatch],
    first: Blank,
    second: Blank,
) -> Result<Read, StreamError>
    requires own { IsCacheOf dfa.now cache.old }
    requires point { IsPointOf dfa.now point.now }
    requires is_open { IsOpenPoint point.now }
    requires room { offset + length bytes.now ≤ 0xFFFF_FFFF_FFFF_FFFF }
    requires first { FitsLedger first.name first.parts L.name L.parts }
    requires second { FitsLedger second.name second.parts M.name M.parts }
    ensures own { IsCacheOf dfa.now cache.new }
    ensures read { IfOk result (IsPieceRead dfa.now (begun_stream dfa.now point.now offset) bytes.now rows.old rows.new) }
    ensures err { IfErr result (IsStepError dfa.now) }
{
    let mut work = Work::<L, M>::new(first, second);
    let id = match enter(dfa, cache, point, &mut work) {
        Ok(Some(id)) => id,
        Ok(None) => {
            return Ok(Read {
                stream: Stream {
                    point: Point::Dead,
                    offset: offset + bytes.len(),
                },
                taken: bytes.len(),
                count: 0,
                error: None,
            });
        }
        Err(error) => return Err(error),
    };
    match read_piece(dfa, cache, id, offset, bytes, rows, &mut work) {
        Ok(read) => Ok(read),
        Err(_) => Err(StreamError::NoMemory),
    }
}

/// The result of a call, from the error of what it read.
fn outcome(error: Option<StreamError>) -> Result<(), StreamError>
    ensures { result ≡ outcome_of error }
{
    match error {
        Some(error) => Err(error),
        None => Ok(()),
    }
}

impl Stream {
    /// Why the stream takes no bytes, whatever these are.
    pub(crate) fn check(&self, n: usize) -> Result<(), StreamError>
        ensures ok { IfOk result (λ _. IsOpenPoint self.now.point × (self.now.offset + n ≤ 0xFFFF_FFFF_FFFF_FFFF)) }
        ensures err { (d : Dfa) → IfErr result (IsStreamError d self.now self.now n) }
    {
        match &self.point {
            Point::Failed(byte) => {
                return Err(StreamError::Quit {
                    byte: *byte,
                    offset: self.offset,
                });
            }
            Point::Closed => return Err(StreamError::Closed),
            _ => {}
        }
        if n > usize::MAX - self.offset {
            return Err(StreamError::TooLong);
        }
        Ok(())
    }

    /// Takes over what was read.
    fn settle(&mut self, read: Read) -> (Fed, Result<(), StreamError>)
        ensures stream { self.new ≡ settled self.old read }
        ensures fed { result.0 ≡ record { taken = read.taken; count = read.count } }
        ensures outcome { result.1 ≡ outcome_of read.error }
    {
        let fed = Fed {
            taken: read.taken,
            count: read.count,
        };
        let result = outcome(read.error);
        if fed.taken == 0 {
            return (fed, result);
        }
        *self = read.stream;
        (fed, result)
    }

    /// Reads a piece of the input, and writes the ends that these bytes decide to the first rows: ends ascending, each with its pattern,
    /// at one offset in the automaton's order of preference. An end is known once the byte after it is read.
    ///
    /// Reading stops before a byte whose ends have no room in the rows. With as many rows as patterns, each call reads a byte at least.
    /// After an error the bytes that were taken were read, and their ends written; the others can be fed again unless the byte at which
    /// the automaton gives up was read. Rows after the ends have no meaning.
    ///
    /// Precondition: automaton and cache belong together, and every piece is fed with this automaton. Another cache may be used for each
    /// piece.
    pub fn feed(
        &mut self,
        dfa: &DFA,
        cache: &mut Cache,
        bytes: &[u8],
        rows: &mut [StreamMatch],
    ) -> (Fed, Result<(), StreamError>)
        requires own { IsCacheOf dfa.now cache.old }
        requires stream { IsStreamOf dfa.now self.old }
        ensures own { IsCacheOf dfa.now cache.new }
        ensures stream { IsStreamOf dfa.now self.new }
        ensures fed { IsFed dfa.now self.old self.new bytes.now rows.old rows.new result.0 result.1 }
    {
        let none = Fed { taken: 0, count: 0 };
        match self.check(bytes.len()) {
            Ok(()) => {}
            Err(error) => return (none, Err(error)),
        }
        if bytes.is_empty() {
            return (none, Ok(()));
        }
        let first = Blank::new(1);
        let second = Blank::new(1);
        match read_open::<Brand, Brand>(
            dfa,
            cache,
            &self.point,
            self.offset,
            bytes,
            rows,
            first,
            second,
        ) {
            Ok(read) => self.settle(read),
            Err(error) => (none, Err(error)),
        }
    }
}

/// The ID of the state after the end of the input, or `None` if no pattern matches there.
fn last<L: Ledger, M: Ledger>(
    dfa: &DFA,
    cache: &mut Cache,
    point: &Point,
    work: &mut Work<L, M>,
) -> Result<Option<LazyStateID>, StreamError>
    requires own { IsCacheOf dfa.now cache.old }
    requires point { IsPointOf dfa.now point.now }
    ensures own { IsCacheOf dfa.now cache.new }
    ensures row { IfOk result (λ o. IfSome o (λ id. IsRow cache.new id)) }
    ensures last { IfOk result (IsLast dfa.now cache.new point.now) }
    ensures err { IfErr result (IsStepError dfa.now) }
{
    let id = match enter(dfa, cache, point, work) {
        Ok(Some(id)) => id,
        Ok(None) => return Ok(None),
        Err(error) => return Err(error),
    };
    let to = match dfa.next_eoi_state(cache, id, work) {
        Ok(to) => to,
        Err(error) => return Err(of_step(error)),
    };
    if to.is_dead() {
        return Ok(None);
    }
    Ok(Some(to))
}

/// Writes the ends at the end of the input of an open stream. Returns how many there are.
fn write_last<L: Ledger, M: Ledger>(
    dfa: &DFA,
    cache: &mut Cache,
    point: &Point,
    offset: usize,
    rows: &mut [StreamMatch],
    first: Blank,
    second: Blank,
) -> (usize, Result<(), StreamError>)
    requires own { IsCacheOf dfa.now cache.old }
    requires point { IsPointOf dfa.now point.now }
    requires first { FitsLedger first.name first.parts L.name L.parts }
    requires second { FitsLedger second.name second.parts M.name M.parts }
    ensures own { IsCacheOf dfa.now cache.new }
    ensures ends { IfOk result.1 (λ _. Appends rows.old rows.new 0 result.0 (map (stream_end offset) (last_at dfa.now point.now))) }
    ensures err { IfErr result.1 (IsLastError dfa.now (map (stream_end offset) (last_at dfa.now point.now)) (length rows.old) result.0) }
{
    let mut work = Work::<L, M>::new(first, second);
    let id = match last(dfa, cache, point, &mut work) {
        Ok(Some(id)) => id,
        Ok(None) => return (0, Ok(())),
        Err(error) => return (0, Err(error)),
    };
    match write_ends(dfa, cache, id, offset, rows, 0) {
        Some(count) => (count, Ok(())),
        None => (dfa.match_len(cache, id), Err(StreamError::NoRoom)),
    }
}

impl Stream {
    /// Reads the end of the input, and writes the ends that lie there to the first rows. The stream is closed after that: it takes no more
    /// bytes until it is reset. If the rows have no room for the ends, the call returns an error with their number, and the stream is as
    /// it was; so it is after each error.
    pub fn close(
        &mut self,
        dfa: &DFA,
        cache: &mut Cache,
        rows: &mut [StreamMatch],
    ) -> (usize, Result<(), StreamError>)
        requires own { IsCacheOf dfa.now cache.old }
        requires stream { IsStreamOf dfa.now self.old }
        ensures own { IsCacheOf dfa.now cache.new }
        ensures stream { IsStreamOf dfa.now self.new }
        ensures closed { IsStreamClosed dfa.now self.old self.new rows.old rows.new result.0 result.1 }
    {
        match self.check(0) {
            Ok(()) => {}
            Err(error) => return (0, Err(error)),
        }
        let first = Blank::new(1);
        let second = Blank::new(1);
        let (count, result) = write_last::<Brand, Brand>(
            dfa,
            cache,
            &self.point,
            self.offset,
            rows,
            first,
            second,
        );
        match result {
            Ok(()) => {
                self.point = Point::Closed;
                (count, Ok(()))
            }
            Err(error) => (count, Err(error)),
        }
    }
}
