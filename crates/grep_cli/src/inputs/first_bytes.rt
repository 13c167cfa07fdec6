//! The first bytes of an input, which decide whether it is binary, and what is searched of a binary one.
ghost use Rattle.std.specs.Prelude.{◌≡◌, ◌<◌, ◌≤◌, ◌+◌, IfOk, IfSome, drop, length, map, take};
ghost use Rattle.std.specs.Io.KnownBytes.{Consumes, IsAtEnd};
ghost use Rattle.grep_cli.specs.Inputs.{first_len, has_zero, read_ahead, with_feeds, zero_as_feed};
ghost use Rattle.std.specs.Io.{ReadsAtMost};
ghost use Rattle.std.specs.Io.KnownBytes.{ReadConsumes};

use crate::inputs::binary::Binary;
use std::alloc::{AllocError, Global};
use std::io;
use std::io::Read;

/// How many bytes at the beginning of an input decide whether it is binary.
pub const FIRST: usize = 98304;

/// Reads once into a buffer from an offset on. Returns how many bytes were read.
fn read_at<R: Read>(reader: &mut R, buffer: &mut Vec<u8>, at: usize) -> io::Result<usize>
    requires { at < length buffer.old.items }
    ensures before { take at buffer.new.items ≡ take at buffer.old.items }
    ensures long { length buffer.new.items ≡ length buffer.old.items }
    ensures some { IfOk result (λ n. at + n ≤ length buffer.new.items) }
    ensures read { IfOk result (λ n. Consumes (R.remaining reader.old) (R.remaining reader.new) (take n (drop at buffer.new.items))) }
    ensures end { IfOk result (λ n. n ≡ 0 → IsAtEnd (R.remaining reader.new)) }
{
    match reader.read(&mut buffer[at..]) {
        Ok(n) => Ok(n),
        Err(e) => Err(e),
    }
}

/// Reads until a buffer is full, or the reader is at its end. Returns how many bytes were read.
fn fill<R: Read>(reader: &mut R, buffer: &mut Vec<u8>) -> io::Result<usize>
    ensures long { length buffer.new.items ≡ length buffer.old.items }
    ensures most { IfOk result (λ n. n ≤ length buffer.new.items) }
    ensures read { IfOk result (λ n. Consumes (R.remaining reader.old) (R.remaining reader.new) (take n buffer.new.items)) }
    ensures end { IfOk result (λ n. n < length buffer.new.items → IsAtEnd (R.remaining reader.new)) }
{
    let mut done = 0usize;
    while done < buffer.len() {
        let n = read_at(reader, buffer, done)?;
        if n == 0 {
            return Ok(done);
        }
        done += n;
    }
    Ok(done)
}

/// A buffer of this length.
fn buffer_of(alloc: Global, len: usize) -> Result<Vec<u8>, AllocError>
    ensures { IfOk result (λ buffer. length buffer.items ≡ len) }
{
    let mut buffer = Vec::new(alloc);
    buffer.resize(len, 0)?;
    Ok(buffer)
}

/// The first bytes of a reader: as many as decide whether an input is binary, or all if there are fewer.
fn read_first<R: Read>(alloc: Global, reader: &mut R) -> io::Result<Vec<u8>>
    ensures read { IfOk result (λ first. Consumes (R.remaining reader.old) (R.remaining reader.new) first.items) }
    ensures first { IfOk result (λ first. IfSome (R.remaining reader.old) (λ text. first.items ≡ take first_len text)) }
{
    let mut first = buffer_of(alloc, FIRST)?;
    let n = fill(reader, &mut first)?;
    first.truncate(n);
    Ok(first)
}

/// The first bytes of a reader, if they decide what is printed. If every input is text, nothing is read.
pub fn read_ahead<R: Read>(alloc: Global, binary: Binary, reader: &mut R) -> io::Result<Vec<u8>>
    ensures read { IfOk result (λ first. Consumes (R.remaining reader.old) (R.remaining reader.new) first.items) }
    ensures first { IfOk result (λ first. IfSome (R.remaining reader.old) (λ text. first.items ≡ read_ahead binary text)) }
{
    if binary == Binary::AsText {
        return Ok(Vec::new(alloc));
    }
    read_first(alloc, reader)
}

/// Whether a byte is zero.
pub fn has_zero(bytes: &[u8]) -> bool
    ensures { result ≡ has_zero bytes.now }
{
    bytes.contains(&0)
}

/// A line feed for a zero byte.
fn zero_as_feed(byte: u8) -> u8
    ensures { result ≡ zero_as_feed byte }
{
    if byte == 0 { b'\n' } else { byte }
}

/// Makes zero bytes line feeds.
fn put_feeds(bytes: &mut [u8])
    ensures { bytes.new ≡ map zero_as_feed bytes.old }
{
    for at in 0..bytes.len() {
        let byte = zero_as_feed(bytes[at]);
        bytes[at] = byte;
    }
}

/// What is searched of the input of a reader, given whether its first bytes have a zero byte.
#[derive(Drop)]
pub struct Searched<R> {
    reader: R,
    binary: Binary,
    zero: bool,
}

impl<R> Searched<R> {
    /// What is searched of the input of a reader. `zero` says whether a zero byte is among its first bytes.
    pub fn new(reader: R, binary: Binary, zero: bool) -> Searched<R>
        ensures reader { result.reader ≡ reader }
        ensures binary { result.binary ≡ binary }
        ensures zero { result.zero ≡ zero }
    {
        Searched {
            reader,
            binary,
            zero,
        }
    }
}

impl<R: Read> Read for Searched<R> {
    ghost use Rattle.std.specs.Prelude.{◌≡◌, option_map};
    ghost use Rattle.std.specs.Io.{ReadsAtMost};
    ghost use Rattle.std.specs.Io.KnownBytes.{ReadConsumes};
    ghost use Rattle.grep_cli.specs.Inputs.{remaining_of};

    ghost remaining = { λ s. remaining_of s.binary s.zero (R.remaining s.reader) };

    fn read(&mut self, buf: &mut [u8]) -> io::Result<usize>
        ensures bound { ReadsAtMost result buf.new }
        ensures bytes { ReadConsumes (remaining_of self.old.binary self.old.zero (R.remaining self.old.reader))
            (remaining_of self.new.binary self.new.zero (R.remaining self.new.reader)) result buf.new }
    {
        match self.binary {
            Binary::NoMatch if self.zero => Ok(0),
            Binary::Notice if self.zero => read_feeds(&mut self.reader, buf),
            _ => self.reader.read(buf),
        }
    }
}

/// Reads once, with line feeds for zero bytes.
fn read_feeds<R: Read>(reader: &mut R, buf: &mut [u8]) -> io::Result<usize>
    ensures bound { ReadsAtMost result buf.new }
    ensures bytes { ReadConsumes (with_feeds (R.remaining reader.old)) (with_feeds (R.remaining reader.new)) result buf.new }
{
    match reader.read(buf) {
        Ok(n) => {
            put_feeds(&mut buf[..n]);
            Ok(n)
        }
        Err(e) => Err(e),
    }
}
