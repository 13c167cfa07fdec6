//! How patterns are searched for in pieces.
ghost use Rattle.std.specs.Prelude.{◌≡◌};
ghost use Rattle.stream_regex.specs.StreamRegexes.{dfa_options_of, settings_of};

use hir_regex::Settings;
use lazy_dfa::dfa;
use pattern_text::Config;
use search_types::MatchKind;

/// How patterns are parsed, and how their automaton is built and searched.
#[derive(Clone, Copy)]
pub struct Options {
    /// How patterns are parsed. If this requires UTF-8, the input has to be UTF-8.
    pub syntax: Config,
    /// Whether the automaton groups bytes that all its states treat alike.
    pub byte_classes: bool,
    /// Whether a cache capacity that is too small is raised to the least possible one. Otherwise it is an error.
    pub skip_cache_capacity_check: bool,
    /// How many bytes each NFA may take; `None` means any number.
    pub size_limit: Option<usize>,
    /// How many bytes the cache may take. `None` means the default of [`lazy_dfa`] at first; a cache that is cleared too soon is then
    /// enlarged, up to 256 MiB.
    pub cache_capacity: Option<usize>,
    /// Whether the streams of a set search each line of their input by itself. A line feed ends a line.
    pub lines: bool,
}

impl Options {
    /// The options of the automaton, which finds all matches.
    fn dfa(&self) -> dfa::Config
        ensures { result ≡ dfa_options_of self.now }
    {
        let config = dfa::Config::new()
            .match_kind(MatchKind::All)
            .byte_classes(self.byte_classes)
            .skip_cache_capacity_check(self.skip_cache_capacity_check);
        match self.cache_capacity {
            Some(capacity) => config.cache_capacity(capacity),
            None => config,
        }
    }

    /// How the automaton is built.
    pub(crate) fn settings(&self) -> Settings
        ensures { result ≡ settings_of self.now }
    {
        Settings {
            utf8: self.syntax.options().utf8,
            size_limit: self.size_limit,
            dfa: self.dfa(),
            ..Settings::new()
        }
    }
}
