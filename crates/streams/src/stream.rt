//! What a stream keeps between two pieces of its input.
ghost use Rattle.std.specs.Prelude.{◌≡◌, IfOk, IfSome, None};
ghost use Rattle.lazy_dfa.specs.Dfas.{Dfa};
ghost use Rattle.streams.specs.Streams.{IsStreamOf, fresh_stream};
ghost use Rattle.streams.specs.declared.stream.Stream.{Stream as StreamValue};

use determinize_core::State;
use std::alloc::AllocError;

/// An end of a match of a pattern.
#[repr(C)]
#[derive(Clone, Copy, Debug, PartialEq, Eq)]
pub struct StreamMatch {
    /// The number of the pattern.
    pub pattern: usize,
    /// The offset in bytes at which the match ends, counted from the begin of the stream.
    pub end: usize,
}

/// Where a stream is.
#[derive(Drop)]
pub(crate) enum Point {
    /// Nothing was read.
    Fresh,
    /// In a state from which a match may be found.
    Within(State),
    /// No match can follow, whatever the input is.
    Dead,
    /// This byte was read, at which the automaton gives up.
    Failed(u8),
    /// The end of the input was read.
    Closed,
}

/// A search of input that comes in pieces, between two of these. It has the state after the bytes that it read, which shares its bytes with
/// caches, and how many bytes it read.
#[derive(Drop)]
pub struct Stream {
    pub(crate) point: Point,
    pub(crate) offset: usize,
}

impl Stream {
    /// Returns a stream that has read nothing.
    pub fn new() -> Stream
        ensures is { result ≡ fresh_stream }
        ensures own { (d : Dfa) → IsStreamOf d result }
    {
        Stream {
            point: Point::Fresh,
            offset: 0,
        }
    }

    /// Makes it a stream that has read nothing.
    pub fn reset(&mut self)
        ensures is { self.new ≡ fresh_stream }
        ensures own { (d : Dfa) → IsStreamOf d self.new }
    {
        self.point = Point::Fresh;
        self.offset = 0;
    }

    /// Returns a second stream that goes on from here.
    pub fn try_clone(&self) -> Result<Stream, AllocError>
        ensures { IfOk result (λ s. s ≡ self.now) }
    {
        let point = match &self.point {
            Point::Fresh => Point::Fresh,
            Point::Within(state) => Point::Within(state.clone()?),
            Point::Dead => Point::Dead,
            Point::Failed(byte) => Point::Failed(*byte),
            Point::Closed => Point::Closed,
        };
        Ok(Stream {
            point,
            offset: self.offset,
        })
    }

    /// How many bytes were read. A byte at which the automaton gave up isn't counted.
    pub fn position(&self) -> usize
        ensures { result ≡ self.now.offset }
    {
        self.offset
    }
}
