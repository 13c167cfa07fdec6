ghost use Rattle.std.specs.Prelude.{◌≡◌, List, length};
ghost use Rattle.hir_core.specs.Tree.{empty, literal, byte_class, char_class, look, concat, alternation};
ghost use Rattle.hir_core.specs.Facts.{facts, times, times_most, if_owed};

use crate::class_facts::{are_ascii, is_utf8, least_spelling, longest_spelling};
use crate::facts::{
    alternation_maximum_len, alternation_minimum_len, are_utf8, concat_maximum_len,
    concat_minimum_len, times, times_most,
};
use crate::hir::Hir;
use crate::look_facts::{
    all_looks, alternation_look_set_prefix, alternation_look_set_suffix, concat_look_set_prefix,
    concat_look_set_suffix, if_owed,
};
use look_core::{Look, LookSet};
use std::marker::Model;

/// What is known of a tree without a haystack, after `regex_syntax::hir::Properties`. Each fact is sound, and
/// none is complete.
#[derive(Clone, Copy, Debug, PartialEq, Eq)]
pub struct Properties {
    minimum_len: Option<usize>,
    maximum_len: Option<usize>,
    is_utf8: bool,
    look_set: LookSet,
    look_set_prefix: LookSet,
    look_set_suffix: LookSet,
}

impl Model for Properties {
    ghost use Rattle.look_core.specs.LookSets.{IsLookSet};
    ghost use Rattle.hir_core.specs.Facts.{Facts};

    ghost Value = { Facts };

    ghost view = { λ a. record {
      minimum_len = a.minimum_len;
      maximum_len = a.maximum_len;
      is_utf8 = a.is_utf8;
      look_set = a.look_set;
      look_set_prefix = a.look_set_prefix;
      look_set_suffix = a.look_set_suffix;
    } };

    ghost invariant = { λ a. IsLookSet a.look_set × IsLookSet a.look_set_prefix × IsLookSet a.look_set_suffix };

    ghost inverse = { λ f. record {
      minimum_len = f.minimum_len;
      maximum_len = f.maximum_len;
      is_utf8 = f.is_utf8;
      look_set = f.look_set;
      look_set_prefix = f.look_set_prefix;
      look_set_suffix = f.look_set_suffix;
    } };
}

impl Properties {
    /// A number of bytes that no span of the tree is shorter than. If it is `None`, the tree matches no span.
    /// Sums and products stop at `usize::MAX`.
    pub fn minimum_len(&self) -> Option<usize>
        ensures { result ≡ self.now.minimum_len }
    {
        self.minimum_len
    }

    /// A number of bytes that no span of the tree is longer than. If it is `None`, no bound is stated. Sums
    /// and products stop at `usize::MAX`.
    pub fn maximum_len(&self) -> Option<usize>
        ensures { result ≡ self.now.maximum_len }
    {
        self.maximum_len
    }

    /// Whether the facts say that each span of the tree that isn't empty is UTF-8.
    pub fn is_utf8(&self) -> bool
        ensures { result ≡ self.now.is_utf8 }
    {
        self.is_utf8
    }

    /// All looks in the tree.
    pub fn look_set(&self) -> LookSet
        ensures { result ≡ self.now.look_set }
    {
        self.look_set
    }

    /// Looks that hold at the start of each span. Those of a concatenation are those of its parts up to the
    /// first that may consume a byte, this one included. Those of an alternation are those that all its parts
    /// have.
    pub fn look_set_prefix(&self) -> LookSet
        ensures { result ≡ self.now.look_set_prefix }
    {
        self.look_set_prefix
    }

    /// Looks that hold at the end of each span. Those of a concatenation are those of its parts from the last
    /// that may consume a byte, this one included. Those of an alternation are those that all its parts have.
    pub fn look_set_suffix(&self) -> LookSet
        ensures { result ≡ self.now.look_set_suffix }
    {
        self.look_set_suffix
    }
}

/// The facts of each kind of tree, of a node from those of its parts.
impl Properties {
    /// The facts of a tree without looks.
    fn without_looks(
        minimum_len: Option<usize>,
        maximum_len: Option<usize>,
        is_utf8: bool,
    ) -> Properties
        ensures { result ≡ record {
          minimum_len = minimum_len;
          maximum_len = maximum_len;
          is_utf8 = is_utf8;
          look_set = 0;
          look_set_prefix = 0;
          look_set_suffix = 0;
        } }
    {
        Properties {
            minimum_len,
            maximum_len,
            is_utf8,
            look_set: LookSet::empty(),
            look_set_prefix: LookSet::empty(),
            look_set_suffix: LookSet::empty(),
        }
    }

    pub(crate) fn of_empty() -> Properties
        ensures { result ≡ facts empty }
    {
        Properties::without_looks(Some(0), Some(0), true)
    }

    pub(crate) fn of_literal(bytes: &[u8]) -> Properties
        ensures { result ≡ facts (literal bytes.now) }
    {
        let len = Some(bytes.len());
        Properties::without_looks(len, len, is_utf8(bytes))
    }

    pub(crate) fn of_bytes(ranges: &[(u8, u8)]) -> Properties
        ensures { result ≡ facts (byte_class ranges.now) }
    {
        let len = if ranges.is_empty() { None } else { Some(1) };
        Properties::without_looks(len, len, are_ascii(ranges))
    }

    pub(crate) fn of_chars(ranges: &[(char, char)]) -> Properties
        ensures { result ≡ facts (char_class ranges.now) }
    {
        Properties::without_looks(least_spelling(ranges), longest_spelling(ranges), true)
    }

    pub(crate) fn of_look(assertion: Look) -> Properties
        ensures { result ≡ facts (look assertion) }
    {
        let looks = LookSet::singleton(assertion);
        Properties {
            look_set: looks,
            look_set_prefix: looks,
            look_set_suffix: looks,
            ..Properties::of_empty()
        }
    }

    /// The facts of so many rounds of a body with these facts.
    pub(crate) fn repeated(self, min: u32, max: Option<u32>) -> Properties
        ensures { result ≡ record self {
          minimum_len = times min self.minimum_len;
          maximum_len = times_most max self.maximum_len;
          look_set_prefix = if_owed min self.look_set_prefix;
          look_set_suffix = if_owed min self.look_set_suffix;
        } }
    {
        Properties {
            minimum_len: times(min as usize, self.minimum_len),
            maximum_len: times_most(max, self.maximum_len),
            look_set_prefix: if_owed(min, self.look_set_prefix),
            look_set_suffix: if_owed(min, self.look_set_suffix),
            ..self
        }
    }

    pub(crate) fn of_concat(subs: &[Hir]) -> Properties
        ensures { result ≡ facts (concat subs.now) }
    {
        Properties {
            minimum_len: concat_minimum_len(subs),
            maximum_len: concat_maximum_len(subs),
            is_utf8: are_utf8(subs),
            look_set: all_looks(subs),
            look_set_prefix: concat_look_set_prefix(subs),
            look_set_suffix: concat_look_set_suffix(subs),
        }
    }

    pub(crate) fn of_alternation(subs: &[Hir]) -> Properties
        ensures { result ≡ facts (alternation subs.now) }
    {
        Properties {
            minimum_len: alternation_minimum_len(subs),
            maximum_len: alternation_maximum_len(subs),
            is_utf8: are_utf8(subs),
            look_set: all_looks(subs),
            look_set_prefix: alternation_look_set_prefix(subs),
            look_set_suffix: alternation_look_set_suffix(subs),
        }
    }
}
