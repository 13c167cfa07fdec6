ghost use Rattle.std.specs.Prelude.{◌≡◌, ℕ, ◌+◌, ◌<◌, ◌≤◌, ◌↔◌, ◌==◌, IsTrue, length, slice_set, slice_index};
ghost use Rattle.search_core.specs.Classes.{unit_class, alphabet_size, IsRising, IsLeastExponent, all_units, elements_of};
ghost use Rattle.search_core.specs.Classes.{representatives_of, is_first, range_limit};
ghost use Rattle.search_core.specs.ByteSets.{IsFirstWhere};

use crate::class_iter::{ByteClassElements, ByteClassIter, ByteClassRepresentatives};
use crate::unit::Unit;
use std::marker::Model;

/// A class for each byte. A searcher treats the bytes of one class alike, so its table needs one column for
/// each class. As `regex_automata::util::alphabet::ByteClasses`.
#[derive(Clone, Copy, Debug)]
pub struct ByteClasses {
    classes: [u8; 256],
}

impl Model for ByteClasses {
    ghost use Rattle.std.specs.Prelude.{List, ℕ};

    ghost Value = { List ℕ };

    ghost view = { λ c. c.classes };

    ghost inverse = { λ v. record { classes = v } };
}

impl ByteClasses {
    /// Every byte in class 0.
    pub fn empty() -> ByteClasses
        ensures len { length result ≡ 256 }
        ensures zero { (b : ℕ) → b < 256 → slice_index result b ≡ 0 }
    {
        ByteClasses { classes: [0; 256] }
    }

    /// Each byte in a class of its own.
    pub fn singletons() -> ByteClasses
        ensures len { length result ≡ 256 }
        ensures own { (b : ℕ) → b < 256 → slice_index result b ≡ b }
    {
        let mut classes = [0; 256];
        for byte in 0..=255u8 {
            classes[usize::from(byte)] = byte;
        }
        ByteClasses { classes }
    }

    /// Puts a byte in a class.
    pub fn set(&mut self, byte: u8, class: u8)
        ensures { self.new ≡ slice_set self.old byte class }
    {
        self.classes[usize::from(byte)] = class;
    }

    /// The class of a byte.
    #[inline]
    pub fn get(&self, byte: u8) -> u8
        ensures { result ≡ slice_index self.now byte }
    {
        self.classes[usize::from(byte)]
    }

    /// The class of a byte, or the number of the end of the input.
    pub fn get_by_unit(&self, unit: Unit) -> usize
        ensures { result ≡ unit_class self.now unit }
    {
        match unit {
            Unit::Byte(byte) => usize::from(self.get(byte)),
            Unit::End(number) => usize::from(number),
        }
    }

    /// The end of the input. Its number is one above the class of the last byte.
    pub fn eoi(&self) -> Unit
        ensures { result ≡ Unit.End (slice_index self.now 255 + 1) }
    {
        Unit::eoi(self.alphabet_len() - 1)
    }

    /// The number of units: a class for each number up to that of the last byte, and the end of the
    /// input.
    pub fn alphabet_len(&self) -> usize
        ensures count { result ≡ alphabet_size self.now }
        ensures most { result ≤ 257 }
    {
        usize::from(self.get(255)) + 2
    }

    /// The exponent of the least power of two that isn't below the number of units: the length of a row
    /// with a column for each.
    pub fn stride2(&self) -> usize
        ensures least { IsLeastExponent result (alphabet_size self.now) }
        ensures most { result ≤ 9 }
    {
        let len = self.alphabet_len();
        let mut exponent = 0;
        let mut stride = 1;
        while stride < len {
            stride *= 2;
            exponent += 1;
        }
        exponent
    }

    /// Returns whether the last byte is in class 255. If classes rise from 0 by at most one from byte to
    /// byte, as those of a [`ByteClassSet`](crate::ByteClassSet) do, the result is true exactly if each byte
    /// is in a class of its own. If classes were set one by one, the result says nothing about other bytes.
    #[tactic(auto, using(crate::proofs::RisingLemmas::singletons_by_last))]
    pub fn is_singleton(&self) -> bool
        ensures last { IsTrue result ↔ (slice_index self.now 255 ≡ 255) }
        ensures own { IsRising self.now → IsTrue result ↔ ((b : ℕ) → b < 256 → slice_index self.now b ≡ b) }
    {
        self.alphabet_len() == 257
    }

    /// A unit for each number from 0 to the class of the last byte, ascending, and then the end of the input.
    /// If classes rise from 0 by at most one from byte to byte, these are the classes, each once. If classes
    /// were set one by one, a number may be the class of no byte, and a greater class is left out.
    pub fn iter(&self) -> ByteClassIter
        ensures { result ≡ all_units self.now }
    {
        ByteClassIter::new(self.alphabet_len() - 1)
    }

    /// The bytes of the class with this number, ascending, wherever they are. For the end of the input, only
    /// the end itself.
    pub fn elements(&self, class: Unit) -> ByteClassElements<'_>
        ensures { result ≡ elements_of self.now class }
    {
        ByteClassElements::new(self, class)
    }

    /// The first unit of each class that is met from `lo` to `hi`, or to the end of the input: `lo`, and
    /// each later byte that is in another class than the byte before it.
    pub fn representatives(&self, lo: u8, hi: Option<u8>) -> ByteClassRepresentatives<'_>
        ensures { result ≡ representatives_of self.now lo hi }
    {
        ByteClassRepresentatives::new(self, lo, hi)
    }

    /// The first byte of a class from a byte on.
    pub(crate) fn next_in_class(&self, class: u8, from: usize) -> Option<u8>
        ensures { IsFirstWhere (λ b. slice_index self.now b == class) from 256 result }
    {
        for byte in from..256 {
            if self.classes[byte] == class {
                return Some(byte as u8);
            }
        }
        None
    }

    /// The first byte of the range from a byte on that is `lo` or in another class than the byte before
    /// it.
    pub(crate) fn next_first(&self, lo: u8, hi: Option<u8>, from: usize) -> Option<u8>
        ensures { IsFirstWhere (is_first self.now lo) from (range_limit hi) result }
    {
        let end = match hi {
            Some(hi) => usize::from(hi) + 1,
            None => 256,
        };
        for byte in from..end {
            // no byte is before 0, which is only asked for where it is `lo`
            if byte == usize::from(lo)
                || self.classes[byte] != self.classes[byte.saturating_sub(1)]
            {
                return Some(byte as u8);
            }
        }
        None
    }
}

impl Default for ByteClasses {
    fn default() -> ByteClasses
        ensures len { length result ≡ 256 }
        ensures own { (b : ℕ) → b < 256 → slice_index result b ≡ b }
    {
        ByteClasses::singletons()
    }
}
