ghost use Rattle.std.specs.Prelude.{◌≡◌};
ghost use Rattle.std.specs.Iterator.{YieldsFirst, item_count};

use search_core::StateID;
use std::marker::Model;

/// The numbers of a set, in the order of insertion. A contract sees those that are left. As
/// `regex_automata::util::sparse_set::SparseSetIter`.
#[derive(Drop)]
pub struct SparseSetIter<'a> {
    rest: &'a [StateID],
}

impl<'a> Model for SparseSetIter<'a> {
    ghost use Rattle.std.specs.Prelude.{List, ℕ};

    ghost Value = { List ℕ };

    ghost view = { λ s. s.rest.now };
}

impl<'a> SparseSetIter<'a> {
    pub(crate) fn new(names: &'a [StateID]) -> SparseSetIter<'a>
        ensures { result ≡ names.now }
    {
        SparseSetIter { rest: names }
    }
}

impl<'a> Iterator for SparseSetIter<'a> {
    type Item = StateID;

    ghost next_gives = { YieldsFirst (λ rest. rest) };

    ghost remaining = { item_count (λ rest. rest) };

    fn next(&mut self) -> Option<StateID> {
        let (first, rest) = self.rest.split_first()?;
        self.rest = rest;
        Some(*first)
    }
}
