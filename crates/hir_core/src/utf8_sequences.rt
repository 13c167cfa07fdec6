//! Ranges of characters as sequences of byte ranges, for an automaton that reads bytes.
//!
//! As `regex_syntax::utf8` divides them.
ghost use Rattle.std.specs.Prelude.{◌≡◌, ◌≤◌, ◌<◌, ◌+◌, length, reverse};
ghost use Rattle.std.specs.Int.{is_in_range};
ghost use Rattle.std.specs.Iterator.{YieldsFirstBy, item_count};
ghost use Rattle.hir_core.specs.Sequences.{scalar_from, row_end, block_end, piece_end, byte_ranges, utf8_sequences};
ghost use Rattle.hir_core.specs.Sequences.{ranges_in, ranges_of_sequence, begins_in_ranges};

use std::marker::Model;

/// A range of bytes, with both ends. As `regex_syntax::utf8::Utf8Range`.
#[derive(Clone, Copy, Debug, PartialEq, Eq)]
pub struct Utf8Range {
    pub start: u8,
    pub end: u8,
}

impl Utf8Range {
    /// Whether the byte is in the range.
    pub fn matches(&self, byte: u8) -> bool
        ensures { result ≡ is_in_range self.now.start self.now.end byte }
    {
        self.start <= byte && byte <= self.end
    }
}

/// A range for each byte of a spelling. Its strings are those that have each byte in its range. As
/// `regex_syntax::utf8::Utf8Sequence`.
#[derive(Clone, Copy, Debug, PartialEq, Eq)]
pub enum Utf8Sequence {
    One(Utf8Range),
    Two([Utf8Range; 2]),
    Three([Utf8Range; 3]),
    Four([Utf8Range; 4]),
}

impl Utf8Sequence {
    /// The ranges, first to last.
    pub fn as_slice(&self) -> &[Utf8Range]
        ensures { result.now ≡ ranges_in self.now }
    {
        match self {
            Utf8Sequence::One(range) => std::slice::from_ref(range),
            Utf8Sequence::Two(ranges) => &ranges[..],
            Utf8Sequence::Three(ranges) => &ranges[..],
            Utf8Sequence::Four(ranges) => &ranges[..],
        }
    }

    /// How many bytes each string has, one to four.
    pub fn len(&self) -> usize
        ensures { result ≡ length (ranges_of_sequence self.now) }
    {
        self.as_slice().len()
    }

    /// Whether the bytes begin with one of the strings.
    #[tactic(auto, using(crate::proofs::SequenceSteps::begins_past, crate::proofs::SequenceSteps::begins_ended, crate::proofs::SequenceSteps::begins_more))]
    pub fn matches(&self, bytes: &[u8]) -> bool
        ensures { result ≡ begins_in_ranges (ranges_of_sequence self.now) bytes.now }
    {
        let ranges = self.as_slice();
        for i in 0..ranges.len() {
            match bytes.get(i) {
                Some(byte) if ranges[i].matches(*byte) => {}
                _ => return false,
            }
        }
        true
    }

    /// Reverses the order of the ranges, for an automaton that reads in reverse.
    #[tactic(auto, using(crate::proofs::SequenceSteps::ranges_turned))]
    pub fn reverse(&mut self)
        ensures { ranges_of_sequence self.new ≡ reverse (ranges_of_sequence self.old) }
    {
        match self {
            Utf8Sequence::One(_) => {}
            Utf8Sequence::Two(ranges) => ranges.reverse(),
            Utf8Sequence::Three(ranges) => ranges.reverse(),
            Utf8Sequence::Four(ranges) => ranges.reverse(),
        }
    }
}

/// The sequences of the characters from one to another, ascending. Each character's spelling is a string of
/// exactly one of them. A contract sees those that are left. As `regex_syntax::utf8::Utf8Sequences`.
#[derive(Drop)]
pub struct Utf8Sequences {
    next: u32,
    end: u32,
}

impl Model for Utf8Sequences {
    ghost use Rattle.std.specs.Prelude.{ℕ, List, ◌≤◌};
    ghost use Rattle.hir_core.specs.Sequences.{utf8_sequences};

    ghost Value = { List (List (ℕ × ℕ)) };

    ghost view = { λ s. utf8_sequences s.next s.end };

    ghost invariant = { λ s. s.end ≤ 0x10FFFF };
}

impl Utf8Sequences {
    /// The sequences of the characters from `start` to `end`, both included. If `start` is above `end`, there
    /// are none.
    pub fn new(start: char, end: char) -> Utf8Sequences
        ensures { result ≡ utf8_sequences start end }
    {
        Utf8Sequences {
            next: u32::from(start),
            end: u32::from(end),
        }
    }
}

impl Iterator for Utf8Sequences {
    type Item = Utf8Sequence;

    ghost next_gives = { YieldsFirstBy ranges_of_sequence (λ rest. rest) };

    ghost remaining = { item_count (λ rest. rest) };

    #[tactic(auto, using(crate::proofs::SequenceSteps::sequences_step, crate::proofs::SequenceSteps::sequences_none))]
    fn next(&mut self) -> Option<Utf8Sequence> {
        let first = scalar_from(self.next);
        if first > self.end {
            return None;
        }
        let last = piece_end(first, self.end);
        self.next = last + 1;
        Some(sequence(first, last))
    }
}

fn scalar_from(number: u32) -> u32
    ensures { result ≡ scalar_from number }
{
    if (0xD800..=0xDFFF).contains(&number) {
        0xE000
    } else {
        number
    }
}

fn row_end(first: u32) -> u32
    ensures { result ≡ row_end first }
{
    match first {
        0..=0x7F => 0x7F,
        0x80..=0x7FF => 0x7FF,
        0x800..=0xD7FF => 0xD7FF,
        0xD800..=0xFFFF => 0xFFFF,
        _ => 0x10FFFF,
    }
}

fn piece_end(first: u32, end: u32) -> u32
    requires ordered { first ≤ end }
    requires in_range { end ≤ 0x10FFFF }
    ensures value { result ≡ piece_end first end }
    ensures low { first ≤ result }
    ensures high { result ≤ end }
{
    if first <= 0x7F {
        return end.min(0x7F);
    }
    let mut last = end.min(row_end(first));
    last = block_end(64, first, last);
    last = block_end(4096, first, last);
    block_end(262_144, first, last)
}

#[tactic(auto, using(crate::proofs::SequenceSteps::block_below, crate::proofs::SequenceSteps::block_above))]
fn block_end(size: u32, first: u32, end: u32) -> u32
    requires some { 0 < size }
    requires most { size ≤ 262144 }
    requires ordered { first ≤ end }
    requires in_range { end ≤ 0x10FFFF }
    ensures value { result ≡ block_end size first end }
    ensures low { first ≤ result }
    ensures high { result ≤ end }
{
    if first / size == end / size {
        end
    } else if first % size != 0 {
        first - first % size + (size - 1)
    } else if end % size != size - 1 {
        end - end % size - 1
    } else {
        end
    }
}

// The spellings of both are of one length.
fn sequence(first: u32, last: u32) -> Utf8Sequence
    requires ordered { first ≤ last }
    requires one_row { last ≤ row_end first }
    ensures { ranges_of_sequence result ≡ byte_ranges (first, last) }
{
    if first <= 0x7F {
        Utf8Sequence::One(range(0, first, last))
    } else if first <= 0x7FF {
        Utf8Sequence::Two([
            range(0xC0, first / 64, last / 64),
            range(0x80, first % 64, last % 64),
        ])
    } else if first <= 0xFFFF {
        Utf8Sequence::Three([
            range(0xE0, first / 4096, last / 4096),
            range(0x80, first / 64 % 64, last / 64 % 64),
            range(0x80, first % 64, last % 64),
        ])
    } else {
        Utf8Sequence::Four([
            range(0xF0, first / 262_144, last / 262_144),
            range(0x80, first / 4096 % 64, last / 4096 % 64),
            range(0x80, first / 64 % 64, last / 64 % 64),
            range(0x80, first % 64, last % 64),
        ])
    }
}

fn range(marker: u32, start: u32, end: u32) -> Utf8Range
    requires start_fits { marker + start < 256 }
    requires end_fits { marker + end < 256 }
    ensures start { result.start ≡ marker + start }
    ensures end { result.end ≡ marker + end }
{
    Utf8Range {
        start: (marker + start) as u8,
        end: (marker + end) as u8,
    }
}
