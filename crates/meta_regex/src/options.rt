//! How a regex is made, and how its caches behave.
ghost use Rattle.std.specs.Prelude.{◌≡◌};
ghost use Rattle.meta_regex.specs.Options.{dfa_options_of, settings_of};

use hir_regex::Settings;
use lazy_dfa::dfa;
use pattern_text::Config;
use search_types::MatchKind;

/// How patterns are parsed, and how their automata are built and searched.
#[derive(Clone, Copy)]
pub struct Options {
    /// How patterns are parsed. If this requires UTF-8, haystacks have to be UTF-8.
    pub syntax: Config,
    /// Whether patterns may have unbounded repetitions whose bodies can match the empty string.
    pub empty_loops: bool,
    /// Whether the automata group bytes that all their states treat alike.
    pub byte_classes: bool,
    /// Whether a cache capacity that is too small is raised to the least possible one. Otherwise it is an error.
    pub skip_cache_capacity_check: bool,
    /// Whether the automaton that finds starts shares states of classes, which takes longer to compile.
    pub shrink: bool,
    /// How many bytes each of both NFAs may take; `None` means any number.
    pub size_limit: Option<usize>,
    /// How many bytes each of both caches may take. A capacity that is set is never exceeded, unless `skip_cache_capacity_check` raises it.
    /// `None` means the default of [`lazy_dfa`], 2 MiB, at first. If searches clear a cache too soon, it is enlarged, up to 256 MiB.
    pub cache_capacity: Option<usize>,
}

impl Options {
    /// The options of both automata, which find matches of this kind.
    pub(crate) fn dfa(&self, kind: MatchKind) -> dfa::Config
        ensures { result ≡ dfa_options_of self.now kind }
    {
        let config = dfa::Config::new()
            .match_kind(kind)
            .unicode_word_boundary(true)
            .byte_classes(self.byte_classes)
            .skip_cache_capacity_check(self.skip_cache_capacity_check);
        match self.cache_capacity {
            Some(capacity) => config.cache_capacity(capacity),
            None => config,
        }
    }

    /// How regexes that find matches of this kind are built.
    pub(crate) fn settings(&self, kind: MatchKind) -> Settings
        ensures { result ≡ settings_of self.now kind }
    {
        Settings {
            utf8: self.syntax.options().utf8,
            shrink: self.shrink,
            size_limit: self.size_limit,
            dfa: self.dfa(kind),
            ..Settings::new()
        }
    }
}
