ghost use Rattle.std.specs.Prelude.{◌≡◌, ◌&&◌, not, nat_lt, max, if◌then◌else◌, MatchResult};
ghost use Rattle.nfa_core.specs.NfaParts.{always_matching, never_matching};
ghost use Rattle.lazy_dfa.specs.Accounting.{stride_of};
ghost use Rattle.lazy_dfa.specs.Building.{built, dfa_of, least_for, classes_of, quits_of, measures_with};
ghost use Rattle.lazy_dfa.specs.ConfigValue.{no_dfa_options, changed_dfa_options};

use crate::automaton::dfa::{Config, DFA};
use crate::automaton::measures::{Measures, START_KINDS};
use crate::automaton::quits::{is_unsupported, quit_bytes};
use crate::build_error::BuildError;
use determinize_core::StartByteMap;
use nfa_core::NFA;
use search_core::{ByteClasses, ByteSet};
use std::alloc::Global;
use std::marker::Model;

/// Builds lazy DFAs, as `regex_automata::hybrid::dfa::Builder`. In contracts, a builder is the options that are set.
#[derive(Clone, Copy)]
pub struct Builder {
    config: Config,
}

impl Model for Builder {
    ghost use Rattle.lazy_dfa.specs.ConfigValue.{DfaOptions};

    ghost Value = { DfaOptions };

    ghost view = { λ b. b.config };

    ghost inverse = { λ o. record { config = o } };
}

impl Builder {
    /// Returns a builder with no option set.
    pub fn new() -> Builder
        ensures { result ≡ no_dfa_options }
    {
        Builder {
            config: Config::new(),
        }
    }

    /// Sets each option that the configuration has set, and keeps the others.
    pub fn configure(&mut self, config: Config) -> &mut Builder
        ensures same { result.ghost_name ≡ self.entry.ghost_name }
        ensures value { result.now ≡ changed_dfa_options self.old config }
    {
        self.config = self.config.overwrite(config);
        self
    }

    /// Builds the DFA of an NFA. If the NFA has Unicode word boundaries and searches aren't set to give up at the bytes
    /// above 0x7F, the call returns an error. Otherwise, if the capacity of caches is below the minimum and isn't to be
    /// raised, it returns an error too.
    pub fn build_from_nfa(&self, nfa: NFA) -> Result<DFA, BuildError>
        ensures { result ≡ built nfa self.now }
    {
        nfa.is_sound();
        let config = self.config;
        if is_unsupported(&nfa, &config) {
            return Err(BuildError::Unsupported);
        }
        let quits = quit_bytes(&nfa, &config);
        let classes = classes_of(&nfa, &config, &quits);
        let measures = measures_of(&nfa, &classes, &config);
        let minimum = measures.least_capacity();
        let given = config.get_cache_capacity();
        let skips = config.get_skip_cache_capacity_check();
        if is_clear_denied(skips, given, minimum) {
            return Err(BuildError::InsufficientCacheCapacity { minimum, given });
        }
        let capacity = capacity_for(skips, given, minimum);
        let start_map = StartByteMap::new(nfa.look_matcher());
        Ok(DFA {
            nfa,
            config,
            classes,
            quits,
            start_map,
            measures,
            capacity,
        })
    }
}

impl Config {
    /// Returns the least capacity that caches for the NFA may have, as `Config::get_minimum_cache_capacity`. If the NFA
    /// can't be searched with these options, the call returns an error.
    pub fn get_minimum_cache_capacity(&self, nfa: &NFA) -> Result<usize, BuildError>
        ensures { result ≡ least_for nfa.now self.now }
    {
        nfa.is_sound();
        if is_unsupported(nfa, self) {
            return Err(BuildError::Unsupported);
        }
        let quits = quit_bytes(nfa, self);
        let classes = classes_of(nfa, self, &quits);
        let measures = measures_of(nfa, &classes, self);
        Ok(measures.least_capacity())
    }
}

/// DFAs that are built with the default options.
impl DFA {
    /// Returns a configuration with no option set, as `DFA::config`.
    pub fn config() -> Config
        ensures { result ≡ no_dfa_options }
    {
        Config::new()
    }

    /// Returns a builder with no option set, as `DFA::builder`.
    pub fn builder() -> Builder
        ensures { result ≡ no_dfa_options }
    {
        Builder::new()
    }

    /// Builds the DFA of one pattern that matches the empty string at every offset, as `DFA::always_match`. If memory
    /// runs out, the call returns an error.
    pub fn always_match(alloc: Global) -> Result<DFA, BuildError>
        ensures { MatchResult result (λ d. d ≡ dfa_of always_matching no_dfa_options) (λ e. e ≡ BuildError.NoMemory) }
    {
        match NFA::always_match(alloc) {
            Ok(nfa) => Builder::new().build_from_nfa(nfa),
            Err(_) => Err(BuildError::NoMemory),
        }
    }

    /// Builds the DFA of no pattern, as `DFA::never_match`. If memory runs out, the call returns an error.
    pub fn never_match(alloc: Global) -> Result<DFA, BuildError>
        ensures { MatchResult result (λ d. d ≡ dfa_of never_matching no_dfa_options) (λ e. e ≡ BuildError.NoMemory) }
    {
        match NFA::never_match(alloc) {
            Ok(nfa) => Builder::new().build_from_nfa(nfa),
            Err(_) => Err(BuildError::NoMemory),
        }
    }
}

/// Whether a capacity is rejected.
fn is_clear_denied(skips: bool, given: usize, minimum: usize) -> bool
    ensures { result ≡ not skips && nat_lt given minimum }
{
    !skips && given < minimum
}

/// The capacity in effect, for a capacity that isn't rejected.
fn capacity_for(skips: bool, given: usize, minimum: usize) -> usize
    ensures { result ≡ if skips then max minimum given else given }
{
    if skips { minimum.max(given) } else { given }
}

/// The classes of bytes that share transitions.
fn classes_of(nfa: &NFA, config: &Config, quits: &ByteSet) -> ByteClasses
    requires { quits.now ≡ quits_of nfa.now config.now }
    ensures { result ≡ classes_of nfa.now config.now }
{
    if !config.get_byte_classes() {
        return ByteClasses::singletons();
    }
    let mut marks = *nfa.byte_class_set();
    marks.add_set(quits);
    marks.byte_classes()
}

/// The number of transitions that a state has.
fn stride_of(classes: &ByteClasses) -> usize
    ensures { result ≡ stride_of classes.now }
{
    let exponent = classes.stride2();
    let mut stride = 1usize;
    for _index in 0..exponent {
        stride *= 2;
    }
    stride
}

/// The numbers from which the bytes of a cache are computed.
fn measures_of(nfa: &NFA, classes: &ByteClasses, config: &Config) -> Measures
    requires { classes.now ≡ classes_of nfa.now config.now }
    ensures { result ≡ measures_with nfa.now config.now }
{
    let patterns = nfa.pattern_len();
    let starts = if config.get_starts_for_each_pattern() {
        2 * START_KINDS + START_KINDS * patterns
    } else {
        2 * START_KINDS
    };
    Measures {
        states: nfa.states().len(),
        patterns,
        stride: stride_of(classes),
        starts,
    }
}
