ghost use Rattle.std.specs.Prelude.{◌≡◌, ◌↔◌, IsTrue, ℕ, length, Ok};
ghost use Rattle.std.specs.List.{list_any};
ghost use Rattle.look_core.specs.Codes.{repr, is_anchor, is_anchor_haystack, is_anchor_line, is_anchor_lf, is_anchor_crlf};
ghost use Rattle.look_core.specs.Codes.{is_word_look, is_word_unicode, is_word_ascii};
ghost use Rattle.look_core.specs.LookSets.{IsLookSet, has_look, full_set, with_look, without_look, union_of, shared_by};
ghost use Rattle.look_core.specs.LookSets.{without, members, has_any, IsFirstLook};

use crate::look::Look;
use crate::look_set_iter::LookSetIter;
use crate::unicode_error::UnicodeWordBoundaryError;
use std::marker::Model;

/// A set of looks, as `regex_automata::util::look::LookSet`. A contract sees it as a number with a bit for each
/// member, below 2 to the power of 18.
#[derive(Clone, Copy, Debug, PartialEq, Eq)]
pub struct LookSet {
    bits: u32,
}

impl Model for LookSet {
    ghost Value = { ℕ };

    ghost view = { λ s. s.bits };

    ghost invariant = { λ s. IsLookSet s.bits };

    ghost inverse = { λ n. record { bits = n } };
}

impl LookSet {
    /// The empty set.
    pub fn empty() -> LookSet
        ensures { result ≡ 0 }
    {
        LookSet { bits: 0 }
    }

    /// The set of all eighteen looks. It has their bits and no others, whereas `regex_automata` sets all 32.
    pub fn full() -> LookSet
        ensures { result ≡ full_set }
    {
        LookSet { bits: 0x3FFFF }
    }

    /// The set of one look.
    pub fn singleton(look: Look) -> LookSet
        ensures { result ≡ repr look }
    {
        LookSet::empty().insert(look)
    }

    /// The number of the set, with a bit for each member: the sum of what [`Look::as_repr`] returns for them.
    pub fn bits(self) -> u32
        ensures value { result ≡ self }
        ensures in_range { IsLookSet result }
    {
        self.bits
    }

    /// The set of a number, as [`bits`](LookSet::bits) returns it.
    pub fn from_bits(bits: u32) -> LookSet
        requires { IsLookSet bits }
        ensures { result ≡ bits }
    {
        LookSet { bits }
    }

    /// How many looks are in the set.
    pub fn len(self) -> usize
        ensures { result ≡ length (members self) }
    {
        self.bits.count_ones() as usize
    }

    /// Whether no look is in the set.
    pub fn is_empty(self) -> bool
        ensures { IsTrue result ↔ (self ≡ 0) }
    {
        self.bits == 0
    }

    /// Whether the look is in the set.
    pub fn contains(self, look: Look) -> bool
        ensures { result ≡ has_look self look }
    {
        self.bits & look.as_repr() != 0
    }

    /// The members, ascending by their numbers.
    pub fn iter(self) -> LookSetIter
        ensures { result ≡ members self }
    {
        LookSetIter::new(self)
    }

    /// Always `Ok`: the table of word characters, which some looks need, is there.
    pub fn available(self) -> Result<(), UnicodeWordBoundaryError>
        ensures { result ≡ Ok tt }
    {
        UnicodeWordBoundaryError::check()
    }

    /// The member with the least number.
    pub(crate) fn first(self) -> Option<Look>
        ensures { IsFirstLook self result }
    {
        if self.is_empty() {
            return None;
        }
        Look::from_repr(1 << self.bits.trailing_zeros())
    }
}

/// Whether the set has a look of a family.
impl LookSet {
    /// Whether it has a look of the haystack's edges or of lines.
    pub fn contains_anchor(self) -> bool
        ensures { result ≡ has_any is_anchor self }
    {
        self.contains_anchor_haystack() || self.contains_anchor_line()
    }

    /// Whether it has a look of the haystack's edges.
    pub fn contains_anchor_haystack(self) -> bool
        ensures { result ≡ has_any is_anchor_haystack self }
    {
        self.contains_any(&[Look::Start, Look::End])
    }

    /// Whether it has a look of lines.
    pub fn contains_anchor_line(self) -> bool
        ensures { result ≡ has_any is_anchor_line self }
    {
        self.contains_anchor_lf() || self.contains_anchor_crlf()
    }

    /// Whether it has a look of lines that the line terminator ends.
    pub fn contains_anchor_lf(self) -> bool
        ensures { result ≡ has_any is_anchor_lf self }
    {
        self.contains_any(&[Look::StartLF, Look::EndLF])
    }

    /// Whether it has a look of lines that carriage return and line feed end.
    pub fn contains_anchor_crlf(self) -> bool
        ensures { result ≡ has_any is_anchor_crlf self }
    {
        self.contains_any(&[Look::StartCRLF, Look::EndCRLF])
    }

    /// Whether it has a look of words.
    pub fn contains_word(self) -> bool
        ensures { result ≡ has_any is_word_look self }
    {
        self.contains_word_unicode() || self.contains_word_ascii()
    }

    /// Whether it has a look of words that are characters.
    pub fn contains_word_unicode(self) -> bool
        ensures { result ≡ has_any is_word_unicode self }
    {
        self.contains_any(&[
            Look::WordUnicode,
            Look::WordUnicodeNegate,
            Look::WordStartUnicode,
            Look::WordEndUnicode,
            Look::WordStartHalfUnicode,
            Look::WordEndHalfUnicode,
        ])
    }

    /// Whether it has a look of words that are bytes of ASCII.
    pub fn contains_word_ascii(self) -> bool
        ensures { result ≡ has_any is_word_ascii self }
    {
        self.contains_any(&[
            Look::WordAscii,
            Look::WordAsciiNegate,
            Look::WordStartAscii,
            Look::WordEndAscii,
            Look::WordStartHalfAscii,
            Look::WordEndHalfAscii,
        ])
    }

    /// Whether it has one of these looks.
    fn contains_any(self, looks: &[Look]) -> bool
        ensures { result ≡ list_any (has_look self) looks.now }
    {
        for look in looks {
            if self.contains(*look) {
                return true;
            }
        }
        false
    }
}

/// Sets that are made from others.
impl LookSet {
    /// The set with this look added.
    pub fn insert(self, look: Look) -> LookSet
        ensures { result ≡ with_look self look }
    {
        LookSet {
            bits: self.bits | look.as_repr(),
        }
    }

    /// The set with this look removed.
    pub fn remove(self, look: Look) -> LookSet
        ensures { result ≡ without_look self look }
    {
        LookSet {
            bits: self.bits & !look.as_repr(),
        }
    }

    /// The members that the other set doesn't have.
    pub fn subtract(self, other: LookSet) -> LookSet
        ensures { result ≡ without self other }
    {
        LookSet {
            bits: self.bits & !other.bits,
        }
    }

    /// The members of either set.
    pub fn union(self, other: LookSet) -> LookSet
        ensures { result ≡ union_of self other }
    {
        LookSet {
            bits: self.bits | other.bits,
        }
    }

    /// The members of both sets.
    pub fn intersect(self, other: LookSet) -> LookSet
        ensures { result ≡ shared_by self other }
    {
        LookSet {
            bits: self.bits & other.bits,
        }
    }

    /// Adds the look to the set.
    pub fn set_insert(&mut self, look: Look)
        ensures { self.new ≡ with_look self.old look }
    {
        *self = self.insert(look);
    }

    /// Removes the look from the set.
    pub fn set_remove(&mut self, look: Look)
        ensures { self.new ≡ without_look self.old look }
    {
        *self = self.remove(look);
    }

    /// Removes the other set's members.
    pub fn set_subtract(&mut self, other: LookSet)
        ensures { self.new ≡ without self.old other }
    {
        *self = self.subtract(other);
    }

    /// Adds the other set's members.
    pub fn set_union(&mut self, other: LookSet)
        ensures { self.new ≡ union_of self.old other }
    {
        *self = self.union(other);
    }

    /// Keeps only the members that the other set has, too.
    pub fn set_intersect(&mut self, other: LookSet)
        ensures { self.new ≡ shared_by self.old other }
    {
        *self = self.intersect(other);
    }
}

impl Default for LookSet {
    /// The empty set.
    fn default() -> LookSet
        ensures { result ≡ 0 }
    {
        LookSet::empty()
    }
}
