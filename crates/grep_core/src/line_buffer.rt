//! Buffered input: what was read and isn't processed yet.
ghost use Rattle.std.specs.Prelude.{◌≡◌, ℕ, ◌+◌, ◌-◌, ◌<◌, ◌≤◌, [], length, take, drop, IfOk, OnOk};
ghost use Rattle.std.specs.Io.KnownBytes.{Consumes, IsAtEnd};
ghost use Rattle.hirscan.specs.Runs.{ReadsSome};

use line_search::Fault;
use std::alloc::{AllocError, Global};
use std::io::Read;
use std::marker::Model;
use std::mem;

/// The greatest number of bytes that one read asks for.
const BLOCK: usize = 65536;

/// The greatest number of bytes that the first reads ask for. They ask for less so that caches that are too small are enlarged before much
/// is searched.
const FIRST_BLOCK: usize = 4096;

/// How many reads ask for the smaller number.
const FIRST_BLOCKS: u64 = 16;

/// Room for more bytes isn't kept for the next input.
const KEPT: usize = 1 << 20;

/// Buffered input: what was read and isn't processed yet. It is the first `len` bytes of a buffer; the rest of the buffer is room for the
/// next read. So bytes that are processed with the block in which they were read are never copied. Nothing is allocated once there is room
/// for a block and a line. One buffer serves all inputs, so it counts the reads of the earlier ones too.
#[derive(Drop)]
pub(crate) struct LineBuffer {
    buffer: Vec<u8>,
    len: usize,
    /// How many reads there were.
    reads: u64,
}

impl Model for LineBuffer {
    ghost use Rattle.std.specs.Prelude.{◌≤◌, ℕ, List, length, take};

    ghost Value = { List ℕ };

    ghost view = { λ h. take h.len h.buffer.items };

    ghost invariant = { λ h. h.len ≤ length h.buffer.items };
}

/// How many bytes the next read asks for, after this many reads.
fn block_len(reads: u64) -> usize
    ensures some { 0 < result }
    ensures most { result ≤ 65536 }
{
    if reads < FIRST_BLOCKS {
        return FIRST_BLOCK;
    }
    BLOCK
}

/// Extends a buffer to this length, if it is shorter.
fn make_room(buffer: &mut Vec<u8>, end: usize) -> Result<(), AllocError>
    ensures kept { (at : ℕ) → at ≤ length buffer.old.items → take at buffer.new.items ≡ take at buffer.old.items }
    ensures longer { length buffer.old.items ≤ length buffer.new.items }
    ensures room { OnOk result (end ≤ length buffer.new.items) }
{
    if buffer.len() < end {
        buffer.resize(end, 0)?;
    }
    Ok(())
}

/// Reads once into the part of a buffer between two offsets. Returns the number of bytes that were read.
fn read_into<R: Read>(
    reader: &mut R,
    buffer: &mut Vec<u8>,
    at: usize,
    end: usize,
) -> Result<usize, Fault>
    requires room { at < end }
    requires within { end ≤ length buffer.old.items }
    ensures before { take at buffer.new.items ≡ take at buffer.old.items }
    ensures long { length buffer.new.items ≡ length buffer.old.items }
    ensures some { IfOk result (λ n. at + n ≤ end) }
    ensures read { IfOk result (λ n. Consumes (R.remaining reader.old) (R.remaining reader.new) (take n (drop at buffer.new.items))) }
    ensures end { IfOk result (λ n. n ≡ 0 → IsAtEnd (R.remaining reader.new)) }
{
    match reader.read(&mut buffer[at..end]) {
        Ok(n) => Ok(n),
        Err(e) => Err(Fault::Read(e.kind())),
    }
}

/// Moves the bytes between two offsets to the front of a buffer.
fn move_down(buffer: &mut Vec<u8>, from: usize, end: usize)
    requires low { from ≤ end }
    requires within { end ≤ length buffer.old.items }
    ensures moved { take (end - from) buffer.new.items ≡ take (end - from) (drop from buffer.old.items) }
    ensures long { length buffer.new.items ≡ length buffer.old.items }
{
    buffer.copy_within(from..end, 0);
}

impl LineBuffer {
    /// Begins to read an input into this room, into which there were so many reads.
    pub(crate) fn over(room: Vec<u8>, reads: u64) -> LineBuffer
        ensures { result ≡ [] }
    {
        LineBuffer {
            buffer: room,
            len: 0,
            reads,
        }
    }

    /// How many reads there were.
    pub(crate) fn reads(&self) -> u64 {
        self.reads
    }

    /// Takes the room for the next input, and leaves nothing. Room that became large for a long line is freed.
    pub(crate) fn take_room(&mut self, alloc: Global) -> Vec<u8>
        ensures { self.new ≡ [] }
    {
        self.len = 0;
        let room = mem::replace(&mut self.buffer, Vec::new(alloc));
        if room.len() > KEPT {
            return Vec::new(alloc);
        }
        room
    }

    pub(crate) fn bytes(&self) -> &[u8]
        ensures { result.now ≡ self.now }
    {
        &self.buffer[..self.len]
    }

    /// Appends the bytes of one read. Returns their number; 0 means that the reader is at its end.
    pub(crate) fn read_some<R: Read>(&mut self, reader: &mut R) -> Result<usize, Fault>
        ensures { IfOk result (λ n. ReadsSome (R.remaining reader.old) (R.remaining reader.new) self.old self.new n) }
    {
        let Some(end) = self.len.checked_add(block_len(self.reads)) else {
            return Err(Fault::TooLong);
        };
        make_room(&mut self.buffer, end)?;
        let n = read_into(reader, &mut self.buffer, self.len, end)?;
        self.len += n;
        self.reads = self.reads.saturating_add(1);
        Ok(n)
    }

    /// Removes the first bytes.
    pub(crate) fn forget(&mut self, done: usize)
        requires { done ≤ length self.old }
        ensures { self.new ≡ drop done self.old }
    {
        move_down(&mut self.buffer, done, self.len);
        self.len -= done;
    }
}
