ghost use Rattle.std.specs.Prelude.{◌≡◌};
ghost use Rattle.std.specs.Iterator.{YieldsFirst, item_count};
ghost use Rattle.search_core.specs.ByteSets.{members_of, ranges_of};

use crate::byte_set::ByteSet;
use std::marker::Model;

/// The bytes of a set, ascending. As `regex_automata::util::alphabet::ByteSetIter`.
#[derive(Drop)]
pub struct ByteSetIter<'a> {
    set: &'a ByteSet,
    from: usize,
}

impl<'a> Model for ByteSetIter<'a> {
    ghost use Rattle.std.specs.Prelude.{List, ℕ};
    ghost use Rattle.search_core.specs.ByteSets.{has, bytes_where};

    ghost Value = { List ℕ };

    ghost view = { λ s. bytes_where (has s.set.now) s.from 256 };
}

impl<'a> ByteSetIter<'a> {
    pub(crate) fn new(set: &'a ByteSet) -> ByteSetIter<'a>
        ensures { result ≡ members_of set.now }
    {
        ByteSetIter { set, from: 0 }
    }
}

impl<'a> Iterator for ByteSetIter<'a> {
    type Item = u8;

    ghost next_gives = { YieldsFirst (λ rest. rest) };

    ghost remaining = { item_count (λ rest. rest) };

    fn next(&mut self) -> Option<u8> {
        let byte = self.set.next_member(self.from)?;
        self.from = usize::from(byte) + 1;
        Some(byte)
    }
}

/// The ranges of a set, ascending. As `regex_automata::util::alphabet::ByteSetRangeIter`.
#[derive(Drop)]
pub struct ByteSetRangeIter<'a> {
    set: &'a ByteSet,
    from: usize,
}

impl<'a> Model for ByteSetRangeIter<'a> {
    ghost use Rattle.std.specs.Prelude.{List, ℕ};
    ghost use Rattle.search_core.specs.ByteSets.{ranges_from};

    ghost Value = { List (ℕ × ℕ) };

    ghost view = { λ s. ranges_from s.set.now s.from };
}

impl<'a> ByteSetRangeIter<'a> {
    pub(crate) fn new(set: &'a ByteSet) -> ByteSetRangeIter<'a>
        ensures { result ≡ ranges_of set.now }
    {
        ByteSetRangeIter { set, from: 0 }
    }
}

impl<'a> Iterator for ByteSetRangeIter<'a> {
    type Item = (u8, u8);

    ghost next_gives = { YieldsFirst (λ rest. rest) };

    ghost remaining = { item_count (λ rest. rest) };

    fn next(&mut self) -> Option<(u8, u8)> {
        let start = self.set.next_start(self.from)?;
        self.from = usize::from(start) + 1;
        Some((start, self.set.range_end(start)))
    }
}
