//! Calls with a stream of a set.
ghost use Rattle.std.specs.Prelude.{◌≡◌, ◌<◌, ℕ, IfErr, IfOk, IfSome, None, Some, length, option_map, slice_set, true};
ghost use Rattle.streams.specs.Streams.{IsStreamOf, fresh_stream};
ghost use Rattle.stream_regex.specs.Sets.{ChangesAt, ClosesAt, CopiesAt, FeedsAt, IsAdded, IsSameSet, stream_at};

use crate::set::StreamSet;
use std::alloc::AllocError;
use std::mem;
use streams::{Fed, Stream, StreamError, StreamMatch};

/// Takes out the stream with a number, if there is one.
fn take_at(streams: &mut Vec<Option<Stream>>, number: usize) -> Option<Stream>
    ensures taken { result ≡ stream_at streams.old.items number }
    ensures left { streams.new.items ≡ slice_set streams.old.items number None }
{
    if number >= streams.len() {
        return None;
    }
    mem::replace(&mut streams[number], None)
}

/// Gives a stream this number, if there is room for it.
fn put_at(streams: &mut Vec<Option<Stream>>, number: usize, stream: Stream)
    ensures { streams.new.items ≡ slice_set streams.old.items number (Some stream) }
{
    if number < streams.len() {
        streams[number] = Some(stream);
    }
}

/// Whether no stream has this number, and there is room for one.
fn is_free(streams: &[Option<Stream>], number: usize) -> bool
    ensures { result ≡ true → (number < length streams.now) × (stream_at streams.now number ≡ None) }
{
    if number >= streams.len() {
        return false;
    }
    streams[number].is_none()
}

/// A number that no stream has, with room for one.
fn free_number(
    streams: &mut Vec<Option<Stream>>,
    free: &mut Vec<usize>,
) -> Result<usize, AllocError>
    ensures free { IfOk result (λ n. (n < length streams.new.items) × (stream_at streams.new.items n ≡ None)) }
    ensures same { (m : ℕ) → stream_at streams.new.items m ≡ stream_at streams.old.items m }
{
    if let Some(number) = free.pop() {
        if is_free(streams, number) {
            return Ok(number);
        }
    }
    streams.push(None)?;
    Ok(streams.len() - 1)
}

/// Notes a number that is free. If memory runs out, the number isn't used again.
fn note(free: &mut Vec<usize>, number: usize) {
    match free.push(number) {
        Ok(()) => {}
        Err(_) => {}
    }
}

impl StreamSet {
    /// Gives a stream a number that no other one has.
    fn add(&mut self, stream: Stream) -> Result<usize, AllocError>
        requires { IsStreamOf self.old.dfa stream }
        ensures added { IfOk result (IsAdded self.old self.new stream) }
        ensures same { IfErr result (λ _. IsSameSet self.old self.new) }
    {
        let number = free_number(&mut self.streams, &mut self.free)?;
        put_at(&mut self.streams, number, stream);
        Ok(number)
    }

    /// A copy of the stream with a number, if there is one.
    fn copy_of(&self, number: usize) -> Result<Option<Stream>, AllocError>
        ensures copied { IfOk result (λ o. o ≡ stream_at self.now.streams number) }
        ensures own { IfOk result (λ o. IfSome o (IsStreamOf self.now.dfa)) }
    {
        if number >= self.streams.len() {
            return Ok(None);
        }
        match &self.streams[number] {
            Some(stream) => {
                let copy = stream.try_clone()?;
                Ok(Some(copy))
            }
            None => Ok(None),
        }
    }

    /// Adds a stream that has read nothing, and returns its number. If memory runs out, nothing changed.
    pub fn open(&mut self) -> Result<usize, AllocError>
        ensures added { IfOk result (IsAdded self.old self.new fresh_stream) }
        ensures same { IfErr result (λ _. IsSameSet self.old self.new) }
    {
        let number = self.add(Stream::new())?;
        Ok(number)
    }

    /// Adds a copy of the stream with a number, as it is now, and returns the copy's number. `None`: no stream has that number. If memory
    /// runs out, nothing changed.
    pub fn copy(&mut self, number: usize) -> Result<Option<usize>, AllocError>
        ensures copied { IfOk result (CopiesAt self.old self.new number) }
        ensures same { IfErr result (λ _. IsSameSet self.old self.new) }
    {
        match self.copy_of(number)? {
            Some(stream) => {
                let copy = self.add(stream)?;
                Ok(Some(copy))
            }
            None => Ok(None),
        }
    }

    /// Feeds a piece to the stream with a number, as [`Stream::feed`] does, or [`Stream::feed_lines`] if the set reads lines. `None`: no stream has
    /// that number, and nothing changed.
    pub fn feed(
        &mut self,
        number: usize,
        bytes: &[u8],
        rows: &mut [StreamMatch],
    ) -> Option<(Fed, Result<(), StreamError>)>
        ensures { FeedsAt self.old self.new number bytes.now rows.old rows.new result }
    {
        let Some(mut stream) = take_at(&mut self.streams, number) else {
            return None;
        };
        let (fed, result) = self.automaton.feed(self.lines, &mut stream, bytes, rows);
        put_at(&mut self.streams, number, stream);
        Some((fed, result))
    }

    /// Closes the stream with a number, as [`Stream::close`] does, or [`Stream::close_lines`] if the set reads lines. `None`: no stream has that
    /// number, and nothing changed.
    pub fn close(
        &mut self,
        number: usize,
        rows: &mut [StreamMatch],
    ) -> Option<(usize, Result<(), StreamError>)>
        ensures { ClosesAt self.old self.new number rows.old rows.new result }
    {
        let Some(mut stream) = take_at(&mut self.streams, number) else {
            return None;
        };
        let (count, result) = self.automaton.close(self.lines, &mut stream, rows);
        put_at(&mut self.streams, number, stream);
        Some((count, result))
    }

    /// Makes the stream with a number one that has read nothing. Returns whether there is one.
    pub fn reset(&mut self, number: usize) -> bool
        ensures { ChangesAt self.old self.new number (Some fresh_stream) result }
    {
        let Some(_) = take_at(&mut self.streams, number) else {
            return false;
        };
        put_at(&mut self.streams, number, Stream::new());
        true
    }

    /// Removes the stream with a number. Returns whether there was one. The number may be used again.
    pub fn remove(&mut self, number: usize) -> bool
        ensures { ChangesAt self.old self.new number None result }
    {
        let Some(_) = take_at(&mut self.streams, number) else {
            return false;
        };
        note(&mut self.free, number);
        true
    }

    /// How many bytes the stream with a number has read, if there is one.
    pub fn position(&self, number: usize) -> Option<usize>
        ensures { result ≡ option_map (λ s. s.offset) (stream_at self.now.streams number) }
    {
        if number >= self.streams.len() {
            return None;
        }
        match &self.streams[number] {
            Some(stream) => Some(stream.position()),
            None => None,
        }
    }
}
