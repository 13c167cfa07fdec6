ghost use Rattle.std.specs.Prelude.{◌≡◌, ◌≤◌, ◌+◌};
ghost use Rattle.std.specs.Iterator.{YieldsFirst, item_count};
ghost use Rattle.search_core.specs.Index.{greatest_index};
ghost use Rattle.nfa_core.specs.NfaParts.{numbered_from};

use search_core::PatternID;
use std::marker::Model;

/// The numbers of an automaton's patterns, ascending. A contract sees those that are left.
/// As `regex_automata::nfa::thompson::PatternIter`.
#[derive(Drop)]
pub struct PatternIter {
    next: usize,
    /// How many are left.
    left: usize,
}

impl Model for PatternIter {
    ghost use Rattle.std.specs.Prelude.{List, ℕ, ◌≤◌, ◌+◌};
    ghost use Rattle.search_core.specs.Index.{greatest_index};
    ghost use Rattle.nfa_core.specs.NfaParts.{numbered_from};

    ghost Value = { List ℕ };

    ghost view = { λ it. numbered_from it.next it.left };

    ghost invariant = { λ it. it.next + it.left ≤ greatest_index + 1 };
}

impl PatternIter {
    pub(crate) fn new(len: usize) -> PatternIter
        requires { len ≤ greatest_index + 1 }
        ensures { result ≡ numbered_from 0 len }
    {
        PatternIter { next: 0, left: len }
    }
}

impl Iterator for PatternIter {
    type Item = PatternID;

    ghost next_gives = { YieldsFirst (λ rest. rest) };

    ghost remaining = { item_count (λ rest. rest) };

    fn next(&mut self) -> Option<PatternID> {
        if self.left == 0 {
            return None;
        }
        let number = self.next;
        self.next = number + 1;
        self.left -= 1;
        Some(PatternID::must(number))
    }
}
