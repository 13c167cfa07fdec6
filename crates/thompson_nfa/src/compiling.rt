//! What the compile of a tree is given, and the fragment that it returns.

use crate::class_fragments::utf8_state::Utf8State;
use crate::class_fragments::utf8_suffix_map::Utf8SuffixMap;
use crate::range_tries::range_trie::RangeTrie;
use crate::which_captures::WhichCaptures;
use search_core::StateID;
use std::alloc::Global;
use std::marker::Model;

/// How trees are compiled.
#[derive(Clone, Copy)]
pub(crate) struct How {
    /// For which groups there are states.
    pub(crate) which: WhichCaptures,
    /// Whether the automaton reads in reverse and classes of characters are made smaller.
    pub(crate) shrink: bool,
}

/// A part of an automaton that is being built: the state in which it starts, and the state that is led on
/// later.
///
/// As `regex_automata::nfa::thompson::compiler::ThompsonRef`.
#[derive(Clone, Copy)]
pub(crate) struct Fragment {
    pub(crate) start: StateID,
    pub(crate) end: StateID,
}

/// How many states the map of suffixes keeps.
const SUFFIXES: usize = 1_000;

/// The memory that all classes of scalars use, one after the other. Each of them clears what it uses, so a
/// contract sees nothing of it.
#[derive(Drop)]
pub(crate) struct Shared {
    pub(crate) utf8: Utf8State,
    pub(crate) suffixes: Utf8SuffixMap,
    pub(crate) trie: RangeTrie,
}

impl Model for Shared {
    ghost use Rattle.std.specs.Prelude.{◌<◌};

    ghost Value = { Unit {0} };

    ghost view = { λ _. tt };

    ghost invariant = { λ s. 0 < s.suffixes.capacity };
}

impl Shared {
    pub(crate) fn new(alloc: Global) -> Shared {
        Shared {
            utf8: Utf8State::new(alloc),
            suffixes: Utf8SuffixMap::new(alloc, SUFFIXES),
            trie: RangeTrie::new(alloc),
        }
    }
}
