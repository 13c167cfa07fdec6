//! Lazy DFAs, as `regex_automata::hybrid::dfa`.
//! ```rust
//! pub fn least_capacity(nfa: &NFA) -> Result<usize, BuildError> {
//!     Config::new().get_minimum_cache_capacity(nfa)
//! }
//! ```
ghost use Rattle.std.specs.Prelude.{◌≡◌, ◌+◌, ◌≤◌, Some, None, length};
ghost use Rattle.search_core.specs.Index.{greatest_index};
ghost use Rattle.determinize_core.specs.Starts.{IsStartTable, start_of};
ghost use Rattle.lazy_dfa.specs.ConfigValue.{kind_of, clears_of, minimum_bytes_of, specializes, starts_each_of};
ghost use Rattle.lazy_dfa.specs.Dfas.{IsDfa, class_of};
ghost use Rattle.lazy_dfa.specs.Readers.{is_quit};

pub use crate::automaton::builder::Builder;
pub use crate::automaton::config::Config;
use crate::automaton::measures::Measures;
pub use crate::cache::Cache;
pub use crate::overlapping::overlapping_state::OverlappingState;
use determinize_core::{Start, StartByteMap};
use nfa_core::NFA;
use search_core::{ByteClasses, ByteSet};
use search_types::MatchKind;
use std::marker::Model;

/// An automaton whose powerset states are built when searches first need them, as `regex_automata::hybrid::dfa::DFA`. The states
/// are kept in a [`Cache`], which each call takes.
#[derive(Drop)]
pub struct DFA {
    pub(crate) nfa: NFA,
    pub(crate) config: Config,
    pub(crate) classes: ByteClasses,
    pub(crate) quits: ByteSet,
    pub(crate) start_map: StartByteMap,
    pub(crate) measures: Measures,
    /// The number of bytes that a cache may take.
    pub(crate) capacity: usize,
}

impl Model for DFA {
    ghost use Rattle.determinize_core.specs.Starts.{IsStartTable};
    ghost use Rattle.lazy_dfa.specs.Dfas.{Dfa, IsDfa};

    ghost Value = { Dfa };

    ghost view = { λ d. record {
      nfa = d.nfa;
      options = d.config;
      classes = d.classes;
      quits = d.quits;
      measures = d.measures;
      capacity = d.capacity;
    } };

    ghost invariant = { λ d. IsDfa (record {
      nfa = d.nfa;
      options = d.config;
      classes = d.classes;
      quits = d.quits;
      measures = d.measures;
      capacity = d.capacity;
    }) × IsStartTable d.nfa.terminator d.start_map };
}

/// The parts of the automaton.
impl DFA {
    /// Returns the number of patterns that the automaton searches for, as `DFA::pattern_len`.
    pub fn pattern_len(&self) -> usize
        ensures value { result ≡ length self.now.nfa.automaton.start_pattern }
        ensures in_range { result ≤ greatest_index + 1 }
    {
        self.nfa.pattern_len()
    }

    /// Returns the classes of bytes that share transitions, as `DFA::byte_classes`.
    pub fn byte_classes(&self) -> &ByteClasses
        ensures { result.now ≡ self.now.classes }
    {
        &self.classes
    }

    /// Returns the options as they were given, as `DFA::get_config`. A capacity that was raised is returned as it was given.
    pub fn get_config(&self) -> &Config
        ensures { result.now ≡ self.now.options }
    {
        &self.config
    }

    /// Returns the NFA, as `DFA::get_nfa`.
    pub fn get_nfa(&self) -> &NFA
        ensures { result.now ≡ self.now.nfa }
    {
        &self.nfa
    }

    /// Returns the number of bytes that the automaton takes in addition to its own size and its NFA's, as `DFA::memory_usage`.
    /// This is 0.
    pub fn memory_usage(&self) -> usize
        ensures { result ≡ 0 }
    {
        0
    }

    /// States the invariant of each automaton.
    pub fn is_made(&self)
        ensures { IsDfa self.now }
    {
        let _ = &self.nfa;
    }
}

/// What steps need of the automaton.
impl DFA {
    pub(crate) fn kind(&self) -> MatchKind
        ensures { result ≡ kind_of self.now.options }
    {
        self.config.get_match_kind()
    }

    pub(crate) fn capacity(&self) -> usize
        ensures { result ≡ self.now.capacity }
    {
        self.capacity
    }

    pub(crate) fn least_clears(&self) -> Option<usize>
        ensures { result ≡ clears_of self.now.options }
    {
        self.config.get_minimum_cache_clear_count()
    }

    pub(crate) fn least_bytes(&self) -> Option<usize>
        ensures { result ≡ minimum_bytes_of self.now.options }
    {
        self.config.get_minimum_bytes_per_state()
    }

    /// Whether a search may name the pattern that it looks for.
    pub(crate) fn starts_for_each_pattern(&self) -> bool
        ensures { result ≡ starts_each_of self.now.options }
    {
        self.config.get_starts_for_each_pattern()
    }

    /// Whether the IDs of states in which searches start are tagged.
    pub(crate) fn specializes(&self) -> bool
        ensures { result ≡ specializes self.now.options }
    {
        self.config.get_specialize_start_states()
    }

    /// The numbers from which the bytes of a cache are computed.
    pub(crate) fn measures(&self) -> Measures
        ensures { result ≡ self.now.measures }
    {
        self.measures
    }

    /// The class of a byte.
    #[inline(always)]
    pub(crate) fn class(&self, byte: u8) -> usize
        ensures { result ≡ class_of self.now.classes (Some byte) }
    {
        usize::from(self.classes.get(byte))
    }

    /// The class of the end of the input.
    #[inline(always)]
    pub(crate) fn end_class(&self) -> usize
        ensures value { result ≡ class_of self.now.classes None }
        ensures in_range { result ≤ 256 }
    {
        usize::from(self.classes.get(255)) + 1
    }

    /// Whether a search gives up at the byte.
    #[inline(always)]
    pub(crate) fn is_quit(&self, byte: u8) -> bool
        ensures { result ≡ is_quit self.now.quits (Some byte) }
    {
        self.quits.contains(byte)
    }

    /// The kind of start state after a byte.
    #[inline(always)]
    pub(crate) fn start_behind(&self, byte: u8) -> Start
        ensures { result ≡ start_of self.now.nfa.terminator (Some byte) }
    {
        self.start_map.get(byte)
    }
}
