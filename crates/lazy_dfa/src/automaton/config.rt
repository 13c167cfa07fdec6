ghost use Rattle.std.specs.Prelude.{◌≡◌, ◌<◌, ◌⊎◌, ℕ, Bool, true, false, Some, IsSome, slice_set};
ghost use Rattle.search_core.specs.ByteSets.{has};
ghost use Rattle.lazy_dfa.specs.ConfigValue.{no_dfa_options, changed_dfa_options, no_bytes, kind_of, starts_each_of, classes_on};
ghost use Rattle.lazy_dfa.specs.ConfigValue.{word_boundary_of, by_hand, specializes, capacity_of, skips_check, clears_of, minimum_bytes_of};

use search_core::ByteSet;
use search_types::MatchKind;
use std::marker::Model;

/// How a DFA is built and how its caches behave, as `regex_automata::hybrid::dfa::Config`. An option that isn't set has
/// its default.
#[derive(Clone, Copy)]
pub struct Config {
    match_kind: Option<MatchKind>,
    starts_for_each_pattern: Option<bool>,
    byte_classes: Option<bool>,
    unicode_word_boundary: Option<bool>,
    quit_set: Option<ByteSet>,
    specialize_start_states: Option<bool>,
    cache_capacity: Option<usize>,
    skip_cache_capacity_check: Option<bool>,
    minimum_cache_clear_count: Option<Option<usize>>,
    minimum_bytes_per_state: Option<Option<usize>>,
}

impl Model for Config {
    ghost use Rattle.lazy_dfa.specs.ConfigValue.{DfaOptions};

    ghost Value = { DfaOptions };

    ghost view = { λ c. record {
      match_kind = c.match_kind;
      starts_for_each_pattern = c.starts_for_each_pattern;
      byte_classes = c.byte_classes;
      unicode_word_boundary = c.unicode_word_boundary;
      quit_set = c.quit_set;
      specialize_start_states = c.specialize_start_states;
      cache_capacity = c.cache_capacity;
      skip_cache_capacity_check = c.skip_cache_capacity_check;
      minimum_cache_clear_count = c.minimum_cache_clear_count;
      minimum_bytes_per_state = c.minimum_bytes_per_state;
    } };

    ghost inverse = { λ o. record {
      match_kind = o.match_kind;
      starts_for_each_pattern = o.starts_for_each_pattern;
      byte_classes = o.byte_classes;
      unicode_word_boundary = o.unicode_word_boundary;
      quit_set = o.quit_set;
      specialize_start_states = o.specialize_start_states;
      cache_capacity = o.cache_capacity;
      skip_cache_capacity_check = o.skip_cache_capacity_check;
      minimum_cache_clear_count = o.minimum_cache_clear_count;
      minimum_bytes_per_state = o.minimum_bytes_per_state;
    } };
}

impl Config {
    /// Returns a configuration in which no option is set.
    pub fn new() -> Config
        ensures { result ≡ no_dfa_options }
    {
        Config {
            match_kind: None,
            starts_for_each_pattern: None,
            byte_classes: None,
            unicode_word_boundary: None,
            quit_set: None,
            specialize_start_states: None,
            cache_capacity: None,
            skip_cache_capacity_check: None,
            minimum_cache_clear_count: None,
            minimum_bytes_per_state: None,
        }
    }

    /// Sets which matches are reported. The default is the leftmost-first ones.
    pub fn match_kind(self, kind: MatchKind) -> Config
        ensures { result ≡ record self { match_kind = Some kind } }
    {
        Config {
            match_kind: Some(kind),
            ..self
        }
    }

    /// Sets whether a search may name the pattern that it looks for. Off by default.
    pub fn starts_for_each_pattern(self, yes: bool) -> Config
        ensures { result ≡ record self { starts_for_each_pattern = Some yes } }
    {
        Config {
            starts_for_each_pattern: Some(yes),
            ..self
        }
    }

    /// Sets whether bytes that the automaton doesn't distinguish share their transitions. On by default.
    pub fn byte_classes(self, yes: bool) -> Config
        ensures { result ≡ record self { byte_classes = Some yes } }
    {
        Config {
            byte_classes: Some(yes),
            ..self
        }
    }

    /// Sets whether Unicode word boundaries are accepted. If so, searches of patterns that have them give up at bytes
    /// above 0x7F. Off by default.
    pub fn unicode_word_boundary(self, yes: bool) -> Config
        ensures { result ≡ record self { unicode_word_boundary = Some yes } }
    {
        Config {
            unicode_word_boundary: Some(yes),
            ..self
        }
    }

    /// Sets whether searches give up at this byte. By default no byte is set. With
    /// [`unicode_word_boundary`](Config::unicode_word_boundary) on, bytes above 0x7F can't be removed again.
    pub fn quit(self, byte: u8, yes: bool) -> Config
        requires { (yes ≡ true) ⊎ (byte < 128) ⊎ (word_boundary_of self ≡ false) }
        ensures { result ≡ record self { quit_set = Some (slice_set (by_hand self) byte yes) } }
    {
        let mut quits = self.quits();
        if yes {
            quits.add(byte);
        } else {
            quits.remove(byte);
        }
        Config {
            quit_set: Some(quits),
            ..self
        }
    }

    /// Sets whether the IDs of states in which searches start are tagged. Off by default.
    pub fn specialize_start_states(self, yes: bool) -> Config
        ensures { result ≡ record self { specialize_start_states = Some yes } }
    {
        Config {
            specialize_start_states: Some(yes),
            ..self
        }
    }

    /// Sets how many bytes a cache may take, as they are counted. The default is 2097152.
    pub fn cache_capacity(self, bytes: usize) -> Config
        ensures { result ≡ record self { cache_capacity = Some bytes } }
    {
        Config {
            cache_capacity: Some(bytes),
            ..self
        }
    }

    /// Sets whether a capacity below the minimum is raised to it. If not, such a capacity is an error. Off by default.
    pub fn skip_cache_capacity_check(self, yes: bool) -> Config
        ensures { result ≡ record self { skip_cache_capacity_check = Some yes } }
    {
        Config {
            skip_cache_capacity_check: Some(yes),
            ..self
        }
    }

    /// Sets the number of clears of a cache after which a further clear may fail. With `None`, which is the default, no
    /// clear ever fails.
    pub fn minimum_cache_clear_count(self, min: Option<usize>) -> Config
        ensures { result ≡ record self { minimum_cache_clear_count = Some min } }
    {
        Config {
            minimum_cache_clear_count: Some(min),
            ..self
        }
    }

    /// Sets how many bytes have to be searched for each state that was built since the last clear. If that many were searched, a
    /// further clear doesn't fail. With `None`, which is the default, the clear fails however much was searched. This concerns
    /// the clears that may fail by [`minimum_cache_clear_count`](Config::minimum_cache_clear_count).
    pub fn minimum_bytes_per_state(self, min: Option<usize>) -> Config
        ensures { result ≡ record self { minimum_bytes_per_state = Some min } }
    {
        Config {
            minimum_bytes_per_state: Some(min),
            ..self
        }
    }

    /// See [`match_kind`](Config::match_kind).
    pub fn get_match_kind(&self) -> MatchKind
        ensures { result ≡ kind_of self.now }
    {
        self.match_kind.unwrap_or(MatchKind::LeftmostFirst)
    }

    /// See [`starts_for_each_pattern`](Config::starts_for_each_pattern).
    pub fn get_starts_for_each_pattern(&self) -> bool
        ensures { result ≡ starts_each_of self.now }
    {
        self.starts_for_each_pattern.unwrap_or(false)
    }

    /// See [`byte_classes`](Config::byte_classes).
    pub fn get_byte_classes(&self) -> bool
        ensures { result ≡ classes_on self.now }
    {
        self.byte_classes.unwrap_or(true)
    }

    /// See [`unicode_word_boundary`](Config::unicode_word_boundary).
    pub fn get_unicode_word_boundary(&self) -> bool
        ensures { result ≡ word_boundary_of self.now }
    {
        self.unicode_word_boundary.unwrap_or(false)
    }

    /// Whether the byte was set by [`quit`](Config::quit) as one at which searches give up.
    pub fn get_quit(&self, byte: u8) -> bool
        ensures { result ≡ has (by_hand self.now) byte }
    {
        self.quits().contains(byte)
    }

    /// See [`specialize_start_states`](Config::specialize_start_states).
    pub fn get_specialize_start_states(&self) -> bool
        ensures { result ≡ specializes self.now }
    {
        self.specialize_start_states.unwrap_or(false)
    }

    /// See [`cache_capacity`](Config::cache_capacity).
    pub fn get_cache_capacity(&self) -> usize
        ensures { result ≡ capacity_of self.now }
    {
        self.cache_capacity.unwrap_or(2097152)
    }

    /// See [`skip_cache_capacity_check`](Config::skip_cache_capacity_check).
    pub fn get_skip_cache_capacity_check(&self) -> bool
        ensures { result ≡ skips_check self.now }
    {
        self.skip_cache_capacity_check.unwrap_or(false)
    }

    /// See [`minimum_cache_clear_count`](Config::minimum_cache_clear_count).
    pub fn get_minimum_cache_clear_count(&self) -> Option<usize>
        ensures { result ≡ clears_of self.now }
    {
        self.minimum_cache_clear_count.unwrap_or(None)
    }

    /// See [`minimum_bytes_per_state`](Config::minimum_bytes_per_state).
    pub fn get_minimum_bytes_per_state(&self) -> Option<usize>
        ensures { result ≡ minimum_bytes_of self.now }
    {
        self.minimum_bytes_per_state.unwrap_or(None)
    }

    /// The bytes that were set by [`quit`](Config::quit).
    pub(crate) fn quits(&self) -> ByteSet
        ensures { result ≡ by_hand self.now }
    {
        match self.quit_set {
            Some(quits) => quits,
            None => no_bytes(),
        }
    }

    /// Returns this configuration, changed in each option that the other one has set.
    pub(crate) fn overwrite(self, other: Config) -> Config
        ensures { result ≡ changed_dfa_options self other }
    {
        Config {
            match_kind: other.match_kind.or(self.match_kind),
            starts_for_each_pattern: other
                .starts_for_each_pattern
                .or(self.starts_for_each_pattern),
            byte_classes: other.byte_classes.or(self.byte_classes),
            unicode_word_boundary: other.unicode_word_boundary.or(self.unicode_word_boundary),
            quit_set: other.quit_set.or(self.quit_set),
            specialize_start_states: other
                .specialize_start_states
                .or(self.specialize_start_states),
            cache_capacity: other.cache_capacity.or(self.cache_capacity),
            skip_cache_capacity_check: other
                .skip_cache_capacity_check
                .or(self.skip_cache_capacity_check),
            minimum_cache_clear_count: other
                .minimum_cache_clear_count
                .or(self.minimum_cache_clear_count),
            minimum_bytes_per_state: other
                .minimum_bytes_per_state
                .or(self.minimum_bytes_per_state),
        }
    }
}

impl Default for Config {
    fn default() -> Config
        ensures { result ≡ no_dfa_options }
    {
        Config::new()
    }
}

/// The set with no bytes.
fn no_bytes() -> ByteSet
    ensures { result ≡ no_bytes }
{
    ByteSet::empty()
}
