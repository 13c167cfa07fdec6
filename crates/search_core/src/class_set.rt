ghost use Rattle.std.specs.Prelude.{◌≡◌, ℕ, ◌<◌, ◌≤◌, false, length, slice_index, slice_index_or};
ghost use Rattle.search_core.specs.Marks.{marks_below, mark_range, recorded};
ghost use Rattle.search_core.specs.ByteSets.{ranges_of};
ghost use Rattle.search_core.specs.Classes.{IsRising};

use crate::byte_set::ByteSet;
use crate::classes::ByteClasses;
use std::marker::Model;

/// Marks on bytes, by which byte classes are made: a byte with a mark and the byte after it are in
/// different classes. As `regex_automata::util::alphabet::ByteClassSet`.
#[derive(Clone, Copy, Debug)]
pub struct ByteClassSet {
    marks: [bool; 256],
}

impl Model for ByteClassSet {
    ghost use Rattle.std.specs.Prelude.{List, Bool};

    ghost Value = { List Bool };

    ghost view = { λ s. s.marks };

    ghost inverse = { λ v. record { marks = v } };
}

impl ByteClassSet {
    /// No marks: all bytes are in one class.
    pub fn empty() -> ByteClassSet
        ensures len { length result ≡ 256 }
        ensures none { (b : ℕ) → b < 256 → slice_index_or result b false ≡ false }
    {
        ByteClassSet {
            marks: [false; 256],
        }
    }

    /// Distinguishes the bytes from `start` to `end`, both included, from all others.
    pub fn set_range(&mut self, start: u8, end: u8)
        requires { start ≤ end }
        ensures { self.new ≡ mark_range self.old start end }
    {
        if start > 0 {
            self.marks[usize::from(start) - 1] = true;
        }
        self.marks[usize::from(end)] = true;
    }

    /// Distinguishes the bytes of each range of a set from all others. This also distinguishes the bytes of
    /// the set from those outside.
    pub fn add_set(&mut self, set: &ByteSet)
        ensures { self.new ≡ recorded self.old (ranges_of set.now) }
    {
        for (start, end) in set.iter_ranges() {
            self.set_range(start, end);
        }
    }

    /// The classes by the marks: the class of a byte is the number of marks below it. So they rise from 0
    /// by at most one from byte to byte.
    pub fn byte_classes(&self) -> ByteClasses
        ensures len { length result ≡ 256 }
        ensures numbered { (b : ℕ) → b < 256 → slice_index result b ≡ marks_below self.now b }
        ensures rising { IsRising result }
    {
        let mut classes = ByteClasses::empty();
        let mut class = 0u8;
        for byte in 0..u8::MAX {
            classes.set(byte, class);
            if self.marks[usize::from(byte)] {
                class += 1;
            }
        }
        // a mark on the last byte has no byte after it
        classes.set(u8::MAX, class);
        classes
    }
}

impl Default for ByteClassSet {
    fn default() -> ByteClassSet
        ensures len { length result ≡ 256 }
        ensures none { (b : ℕ) → b < 256 → slice_index_or result b false ≡ false }
    {
        ByteClassSet::empty()
    }
}
