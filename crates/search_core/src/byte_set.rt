ghost use Rattle.std.specs.Prelude.{◌≡◌, ℕ, ◌+◌, ◌<◌, ◌≤◌, ◌↔◌, IsTrue, true, false, length, slice_set};
ghost use Rattle.search_core.specs.ByteSets.{has, IsFirstWhere, starts_range, range_end, ranges_of, members_of};

use crate::byte_set_iter::{ByteSetIter, ByteSetRangeIter};
use std::marker::Model;

/// A set of bytes. As `regex_automata::util::alphabet::ByteSet`.
#[derive(Clone, Copy, Debug)]
pub struct ByteSet {
    bytes: [bool; 256],
}

impl Model for ByteSet {
    ghost use Rattle.std.specs.Prelude.{List, Bool};

    ghost Value = { List Bool };

    ghost view = { λ s. s.bytes };

    ghost inverse = { λ v. record { bytes = v } };
}

impl ByteSet {
    /// A set without bytes.
    pub fn empty() -> ByteSet
        ensures len { length result ≡ 256 }
        ensures none { (b : ℕ) → b < 256 → has result b ≡ false }
    {
        ByteSet {
            bytes: [false; 256],
        }
    }

    /// Adds a byte to the set.
    pub fn add(&mut self, byte: u8)
        ensures { self.new ≡ slice_set self.old byte true }
    {
        self.bytes[usize::from(byte)] = true;
    }

    /// Removes a byte from the set.
    pub fn remove(&mut self, byte: u8)
        ensures { self.new ≡ slice_set self.old byte false }
    {
        self.bytes[usize::from(byte)] = false;
    }

    /// Whether the byte is in the set.
    pub fn contains(&self, byte: u8) -> bool
        ensures { result ≡ has self.now byte }
    {
        self.bytes[usize::from(byte)]
    }

    /// Whether each byte from `start` to `end` is in the set. If `start` is above `end`, the result is true.
    pub fn contains_range(&self, start: u8, end: u8) -> bool
        ensures { IsTrue result ↔ ((b : ℕ) → start ≤ b → b ≤ end → has self.now b ≡ true) }
    {
        for byte in start..=end {
            if !self.contains(byte) {
                return false;
            }
        }
        true
    }

    /// Whether no byte is in the set.
    pub fn is_empty(&self) -> bool
        ensures { IsTrue result ↔ ((b : ℕ) → b < 256 → has self.now b ≡ false) }
    {
        self.next_member(0).is_none()
    }

    /// The bytes of the set, ascending.
    pub fn iter(&self) -> ByteSetIter<'_>
        ensures { result ≡ members_of self.now }
    {
        ByteSetIter::new(self)
    }

    /// The ranges of bytes that are in the set, none of which touches another: the first byte and the
    /// last of each, ascending.
    pub fn iter_ranges(&self) -> ByteSetRangeIter<'_>
        ensures { result ≡ ranges_of self.now }
    {
        ByteSetRangeIter::new(self)
    }

    /// The first byte of the set from a byte on.
    pub(crate) fn next_member(&self, from: usize) -> Option<u8>
        ensures { IsFirstWhere (has self.now) from 256 result }
    {
        for byte in from..256 {
            if self.bytes[byte] {
                return Some(byte as u8);
            }
        }
        None
    }

    /// The first byte from a byte on that starts a range of the set.
    pub(crate) fn next_start(&self, from: usize) -> Option<u8>
        ensures { IsFirstWhere (starts_range self.now) from 256 result }
    {
        for byte in from..256 {
            if self.bytes[byte] && !(byte > 0 && self.bytes[byte - 1]) {
                return Some(byte as u8);
            }
        }
        None
    }

    /// The last byte of the range that starts at a byte.
    pub(crate) fn range_end(&self, start: u8) -> u8
        ensures { result ≡ range_end self.now start }
    {
        let mut end = start;
        while end < u8::MAX && self.bytes[usize::from(end) + 1] {
            end += 1;
        }
        end
    }
}

impl Default for ByteSet {
    fn default() -> ByteSet
        ensures len { length result ≡ 256 }
        ensures none { (b : ℕ) → b < 256 → has result b ≡ false }
    {
        ByteSet::empty()
    }
}
