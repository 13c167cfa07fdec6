//! Standard input that may be left right after a line.
ghost use Rattle.std.specs.Prelude.{◌≤◌, length};
ghost use Rattle.std.specs.Io.{ReadsAtMost};

use grep_cli::{FIRST, has_zero};
use line_search::feed_at;
use std::collections::VecDeque;
use std::io;
use std::io::{BufRead, ErrorKind, Lock, Read, Stdin, StdinLock};
use std::rt::Runtime;

/// Into how many blocks the position may be set back, if lines after the last selected one are read. A block has at most 4096 bytes.
const MOST_BLOCKS: usize = 256;

/// Standard input. If it is read by lines, each read returns bytes of one line, and what was read ahead is given back in the end.
#[derive(Drop)]
pub struct LineInput {
    stdin: Stdin,
    by_lines: bool,
    /// How many blocks are kept.
    most: usize,
    /// The last blocks that were read. They set the position back by what isn't consumed of them when they are dropped.
    blocks: VecDeque<StdinLock<'static>>,
    /// How many bytes of the last block were returned.
    given: usize,
    /// How many bytes the last block has.
    len: usize,
    /// The end was reached.
    ended: bool,
}

fn no_memory() -> io::Error {
    io::Error::from(ErrorKind::OutOfMemory)
}

/// Copies bytes of one line, from an offset in a block on. Returns how many.
fn copy_line(block: &[u8], from: usize, buf: &mut [u8]) -> usize
    ensures { result ≤ length buf.new }
{
    let Some(rest) = block.get(from..) else {
        return 0;
    };
    let len = match feed_at(rest) {
        Some(at) => at + 1,
        None => rest.len(),
    };
    let len = len.min(buf.len());
    buf[..len].copy_from_slice(&rest[..len]);
    len
}

/// How many of the first bytes of a block are left if so many lines after them are given back, or none if all are. The number of lines is
/// reduced by those that the block ends.
fn kept_len(bytes: &[u8], lines: &mut u64) -> Option<usize> {
    for at in (0..bytes.len()).rev() {
        if bytes[at] != b'\n' {
            continue;
        }
        if *lines == 0 {
            return Some(at + 1);
        }
        *lines -= 1;
    }
    None
}

/// The first bytes of a block, at most so many.
fn first_of<'a>(block: &'a mut StdinLock<'_>, most: usize) -> &'a [u8] {
    match block.fill_buf() {
        Ok(bytes) => &bytes[..most.min(bytes.len())],
        Err(_) => &[],
    }
}

impl LineInput {
    /// Standard input. If it is read by lines, and `goes_back` is set, lines may be given back in the end.
    pub fn new(rt: &HostRuntime, stdin: Stdin, by_lines: bool, goes_back: bool) -> LineInput {
        LineInput {
            stdin,
            by_lines,
            most: if goes_back { MOST_BLOCKS } else { 1 },
            blocks: VecDeque::new(rt.alloc()),
            given: 0,
            len: 0,
            ended: false,
        }
    }

    /// Drops the first block if there are as many as are kept.
    fn make_room(&mut self) {
        if self.blocks.len() < self.most {
            return;
        }
        if let Some(mut block) = self.blocks.pop_front() {
            block.consume(usize::MAX);
        }
    }

    /// Reads the next block. Returns false at the end.
    fn next_block(&mut self) -> io::Result<bool> {
        let mut block = self.stdin.lock();
        let len = block.fill_buf()?.len();
        if len == 0 {
            self.ended = true;
            return Ok(false);
        }
        self.make_room();
        match self.blocks.push_back(block) {
            Ok(()) => {}
            Err(_) => return Err(no_memory()),
        }
        self.given = 0;
        self.len = len;
        Ok(true)
    }

    /// Reads bytes of one line.
    fn read_line(&mut self, buf: &mut [u8]) -> io::Result<usize>
        ensures { ReadsAtMost result buf.new }
    {
        if self.given >= self.len && !self.next_block()? {
            return Ok(0);
        }
        let Some(block) = self.blocks.back_mut() else {
            return Ok(0);
        };
        let n = copy_line(block.fill_buf()?, self.given, buf);
        self.given = self.given.saturating_add(n);
        Ok(n)
    }

    /// Leaves standard input after the bytes that were read, without their last `lines` lines unless the end was reached. More blocks than are
    /// kept aren't given back.
    pub fn leave(&mut self, lines: u64) {
        if !self.ended {
            self.give_back(lines);
        }
        for _blocks in 0..MOST_BLOCKS {
            let Some(mut block) = self.blocks.pop_front() else {
                return;
            };
            block.consume(usize::MAX);
        }
    }

    /// Gives back what wasn't returned, and so many lines of what was. The blocks before them are left.
    fn give_back(&mut self, lines: u64) {
        let mut lines = lines;
        let mut given = self.given;
        for _blocks in 0..MOST_BLOCKS {
            let Some(mut block) = self.blocks.pop_back() else {
                return;
            };
            if let Some(len) = kept_len(first_of(&mut block, given), &mut lines) {
                block.consume(len);
                return;
            }
            given = usize::MAX;
        }
    }
}

impl Read for LineInput {
    ghost use Rattle.std.specs.Io.{ReadsAtMost};

    fn read(&mut self, buf: &mut [u8]) -> io::Result<usize>
        ensures bound { ReadsAtMost result buf.new }
    {
        if self.by_lines {
            return self.read_line(buf);
        }
        self.stdin.read(buf)
    }
}

/// Whether a byte among the first ones of standard input is zero, so many as decide whether it is binary. Its position stays.
pub fn begins_with_zero(rt: &HostRuntime, stdin: Stdin) -> io::Result<bool> {
    let mut blocks = Vec::new(rt.alloc());
    let mut left = FIRST;
    for _blocks in 0..FIRST {
        if left == 0 {
            return Ok(false);
        }
        let mut block = stdin.lock();
        let bytes = first_of(&mut block, left);
        if bytes.is_empty() {
            return Ok(false);
        }
        if has_zero(bytes) {
            return Ok(true);
        }
        left = left.saturating_sub(bytes.len());
        match blocks.push(block) {
            Ok(()) => {}
            Err(_) => return Err(no_memory()),
        }
    }
    Ok(false)
}
