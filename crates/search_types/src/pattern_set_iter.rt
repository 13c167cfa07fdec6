ghost use Rattle.std.specs.Prelude.{◌≡◌, ◌≤◌, ◌+◌, length};
ghost use Rattle.std.specs.Iterator.{YieldsFirst, YieldsLast, item_count};
ghost use Rattle.search_core.specs.Index.{greatest_index};
ghost use Rattle.search_types.specs.PatternSets.{members_of};

use search_core::PatternID;
use std::iter::FusedIterator;
use std::marker::Model;

/// The patterns of a set, ascending, from both ends. A contract sees it as the list of those that are
/// left. As `regex_automata::PatternSetIter`.
#[derive(Drop)]
pub struct PatternSetIter<'a> {
    // A test for each pattern that is still to be looked at, and the first one's number.
    which: &'a [bool],
    first: usize,
}

impl<'a> Model for PatternSetIter<'a> {
    ghost use Rattle.std.specs.Prelude.{◌≤◌, ◌+◌, List, ℕ, length};
    ghost use Rattle.search_core.specs.Index.{greatest_index};
    ghost use Rattle.search_types.specs.PatternSets.{members_from};

    ghost Value = { List ℕ };

    ghost view = { λ it. members_from it.first it.which.now };

    ghost invariant = { λ it. it.first + length it.which.now ≤ greatest_index + 1 };
}

impl<'a> PatternSetIter<'a> {
    pub(crate) fn new(which: &'a [bool]) -> PatternSetIter<'a>
        requires { length which.now ≤ greatest_index + 1 }
        ensures { result ≡ members_of which.now }
    {
        PatternSetIter { which, first: 0 }
    }
}

impl<'a> Iterator for PatternSetIter<'a> {
    type Item = PatternID;

    ghost next_gives = { YieldsFirst (λ rest. rest) };

    ghost remaining = { item_count (λ rest. rest) };

    fn next(&mut self) -> Option<PatternID> {
        while let Some((is_member, rest)) = self.which.split_first() {
            let index = self.first;
            self.which = rest;
            self.first = index + 1;
            if *is_member {
                return Some(PatternID::must(index));
            }
        }
        None
    }
}

impl<'a> DoubleEndedIterator for PatternSetIter<'a> {
    ghost next_back_gives = { YieldsLast (λ rest. rest) };

    fn next_back(&mut self) -> Option<PatternID> {
        while let Some((is_member, rest)) = self.which.split_last() {
            self.which = rest;
            if *is_member {
                return Some(PatternID::must(self.first + rest.len()));
            }
        }
        None
    }
}

impl<'a> FusedIterator for PatternSetIter<'a> {}
