//! A regex over two automata that are made as they are used, as `regex_automata::hybrid::regex`.
//! ```rust
//! pub fn bytes_of_both(cache: &Cache) -> usize {
//!     cache.memory_usage()
//! }
//! ```
ghost use Rattle.std.specs.Prelude.{◌≡◌, ◌+◌, ◌≤◌, length};
ghost use Rattle.search_core.specs.Index.{greatest_index};
ghost use Rattle.lazy_dfa.specs.ConfigValue.{no_dfa_options};
ghost use Rattle.regex_pair.specs.Pairs.{IsPair};

pub use crate::builder::Builder;
pub use crate::cache::Cache;
pub use crate::find_matches::{FindMatches, search_once};
use lazy_dfa::dfa::DFA;
use std::marker::Model;

/// Two automata that search as one, as `regex_automata::hybrid::regex::Regex`: the forward one finds the end of a match, and the
/// reverse one its start. They needn't be compiled from an expression tree.
#[derive(Drop)]
pub struct Regex {
    pub(crate) forward: DFA,
    pub(crate) reverse: DFA,
}

impl Model for Regex {
    ghost use Rattle.regex_pair.specs.Pairs.{Pair, IsPair};

    ghost Value = { Pair };

    ghost view = { λ r. record { forward = r.forward; reverse = r.reverse } };

    ghost invariant = { λ r. IsPair (record { forward = r.forward; reverse = r.reverse }) };
}

impl Regex {
    /// A builder with no option set, as `Regex::builder`.
    pub fn builder() -> Builder
        ensures { result ≡ no_dfa_options }
    {
        Builder::new()
    }

    /// The automaton that finds ends, as `Regex::forward`.
    pub fn forward(&self) -> &DFA
        ensures value { result.now ≡ self.now.forward }
        ensures pair { IsPair self.now }
    {
        &self.forward
    }

    /// The automaton that finds starts, as `Regex::reverse`.
    pub fn reverse(&self) -> &DFA
        ensures value { result.now ≡ self.now.reverse }
        ensures pair { IsPair self.now }
    {
        &self.reverse
    }

    /// How many patterns it searches for, as `Regex::pattern_len`: those of the automaton that finds ends.
    pub fn pattern_len(&self) -> usize
        ensures value { result ≡ length self.now.forward.nfa.automaton.start_pattern }
        ensures in_range { result ≤ greatest_index + 1 }
    {
        self.forward.pattern_len()
    }
}
