//! What searches change.
ghost use Rattle.std.specs.Prelude.{◌≡◌, IfErr, IfOk, IfSome, ℕ, List};
ghost use Rattle.regex_syntax.specs.declared.Config.{Config as TextConfig};
ghost use Rattle.growing_regex.specs.Growing.{IsBuiltWith};
ghost use Rattle.search_types.specs.declared.match_kind.MatchKind.TheVariants.{All as AllMatches, LeftmostFirst};
ghost use Rattle.meta_regex.specs.Caches.{AreReportersOf, AreWordlessAutomataOf, IsCacheOf, KeepsCapacity};
ghost use Rattle.meta_regex.specs.Fallbacks.{AreFallbacksOf};
ghost use Rattle.meta_regex.specs.Options.{dfa_options_of};
ghost use Rattle.meta_regex.specs.Regexes.{IsSearchError, config_by};

use crate::compiled::Regex;
use crate::errors::SearchError;
use crate::fallback::{Fallbacks, fallbacks_of};
use crate::wordless::wordless_pair;
use growing_regex::{GrowingRegex, largest_for, shared, with_options};
use literal_search::Effort;
use search_types::MatchKind;
use std::alloc::{AllocError, Global};
use std::mem;

/// The caches of a regex's automata, and what its searches made later. It is usable only with a regex of the same patterns and options as the
/// one for which it was made.
///
/// If the options set no capacity, caches that searches clear too soon are enlarged, up to 256 MiB each. If they set one, caches are never
/// enlarged.
///
/// Other parts are made once a search needs them: the automaton that reports which patterns match, the automata without looks at words,
/// and the toolchain's programs.
#[derive(Drop)]
pub struct Cache {
    pub(crate) automata: GrowingRegex,
    pub(crate) overlapping: Option<GrowingRegex>,
    pub(crate) fallbacks: Option<Fallbacks>,
    pub(crate) wordless: Option<GrowingRegex>,
    pub(crate) wordless_overlapping: Option<GrowingRegex>,
    /// Whether searches for literals pay.
    pub(crate) effort: Effort,
}

/// How often the caches of these automata were cleared, if they were made.
fn clears_of(automata: &Option<GrowingRegex>) -> usize {
    match automata {
        Some(it) => it.clear_count(),
        None => 0,
    }
}

/// The bytes that the caches of these automata are estimated to need, if they were made.
fn usage_of(automata: &Option<GrowingRegex>) -> usize {
    match automata {
        Some(it) => it.memory_usage(),
        None => 0,
    }
}

impl Cache {
    /// How often the caches of the automata were cleared, also those that larger ones have replaced. The greatest number stands for any number
    /// above it.
    pub fn clear_count(&self) -> usize {
        self.automata
            .clear_count()
            .saturating_add(clears_of(&self.overlapping))
            .saturating_add(clears_of(&self.wordless))
            .saturating_add(clears_of(&self.wordless_overlapping))
    }

    /// The bytes that the caches of the automata are estimated to need.
    pub fn memory_usage(&self) -> usize {
        self.automata
            .memory_usage()
            .saturating_add(usage_of(&self.overlapping))
            .saturating_add(usage_of(&self.wordless))
            .saturating_add(usage_of(&self.wordless_overlapping))
    }
}

impl Regex {
    /// A cache for this regex, which holds no states. Its automata are those of the regex.
    pub fn create_cache(&self, alloc: Global) -> Result<Cache, AllocError>
        ensures { IfOk result (IsCacheOf self.now) }
    {
        let pair = self.pair()?;
        let automata = GrowingRegex::new(alloc, pair, largest_for(self.options().cache_capacity))?;
        Ok(Cache {
            automata,
            overlapping: None,
            fallbacks: None,
            wordless: None,
            wordless_overlapping: None,
            effort: Effort::with_price(self.candidate_price()),
        })
    }

    /// These automata with empty caches, which are enlarged as far as the options allow.
    fn growing(&self, alloc: Global, pair: regex_pair::regex::Regex) -> Option<GrowingRegex>
        ensures same { IfSome result (λ g. g.pair ≡ pair) }
        ensures capacity { IfSome result (KeepsCapacity self.now) }
    {
        let Ok(regex) = shared(alloc, pair) else {
            return None;
        };
        match GrowingRegex::new(alloc, regex, largest_for(self.options().cache_capacity)) {
            Ok(growing) => Some(growing),
            Err(_) => None,
        }
    }

    /// Copies of these automata that find all matches, with empty caches, if they can be made. Nothing is compiled.
    fn reporting(&self, alloc: Global, pair: &regex_pair::regex::Regex) -> Option<GrowingRegex>
        ensures built { IfSome result (λ g. IsBuiltWith (dfa_options_of self.now.options AllMatches) pair.now g.pair) }
        ensures capacity { IfSome result (KeepsCapacity self.now) }
    {
        let Some(copies) = with_options(alloc, pair, self.options().dfa(MatchKind::All)) else {
            return None;
        };
        match self.growing(alloc, copies) {
            Some(automata) => Some(automata),
            None => None,
        }
    }

    /// The automata that report which patterns match, if they can be made.
    fn reporters(&self, alloc: Global) -> Option<GrowingRegex>
        ensures { IfSome result (AreReportersOf self.now) }
    {
        let Ok(pair) = self.pair() else {
            return None;
        };
        match self.reporting(alloc, &pair) {
            Some(automata) => Some(automata),
            None => None,
        }
    }

    /// The automata of the patterns without their looks at words, if they can be made.
    fn wordless_automata(&self, alloc: Global) -> Option<GrowingRegex>
        ensures { IfSome result (AreWordlessAutomataOf self.now LeftmostFirst) }
    {
        let Some(trees) = self.trees() else {
            return None;
        };
        let Some(pair) = wordless_pair(alloc, trees, &self.options()) else {
            return None;
        };
        match self.growing(alloc, pair) {
            Some(automata) => Some(automata),
            None => None,
        }
    }

    /// The automata that report which patterns match without looks at words, if the cache has automata without these.
    fn wordless_reporters(&self, alloc: Global, cache: &Cache) -> Option<GrowingRegex>
        requires { IsCacheOf self.now cache.now }
        ensures { IfSome result (AreWordlessAutomataOf self.now AllMatches) }
    {
        let Some(wordless) = &cache.wordless else {
            return None;
        };
        let Ok(pair) = wordless.regex() else {
            return None;
        };
        match self.reporting(alloc, &pair) {
            Some(automata) => Some(automata),
            None => None,
        }
    }

    /// Makes the automaton that reports which patterns match, if there is none yet and it can be made. The first call of
    /// [`matching_patterns`](Regex::matching_patterns) does so too.
    pub fn prepare_matching_patterns(&self, alloc: Global, cache: &mut Cache)
        requires { IsCacheOf self.now cache.old }
        ensures { IsCacheOf self.now cache.new }
    {
        if cache.overlapping.is_none() {
            cache.overlapping = self.reporters(alloc);
        }
    }

    /// Makes what finds the least start of a match without looks at words, if there is none yet and it can be made.
    pub(crate) fn prepare_wordless(&self, alloc: Global, cache: &mut Cache)
        requires { IsCacheOf self.now cache.old }
        ensures { IsCacheOf self.now cache.new }
    {
        if cache.wordless.is_none() {
            let made = self.wordless_automata(alloc);
            drop(mem::replace(&mut cache.wordless, made));
        }
    }

    /// Makes the automaton that reports which patterns match without looks at words, if there is none yet and it can be made.
    pub(crate) fn prepare_wordless_overlapping(&self, alloc: Global, cache: &mut Cache)
        requires { IsCacheOf self.now cache.old }
        ensures { IsCacheOf self.now cache.new }
    {
        if cache.wordless_overlapping.is_some() {
            return;
        }
        self.prepare_wordless(alloc, cache);
        let made = self.wordless_reporters(alloc, cache);
        drop(mem::replace(&mut cache.wordless_overlapping, made));
    }

    /// Takes the toolchain's programs out of the cache. They are made if there are none yet.
    pub(crate) fn take_fallbacks(
        &self,
        alloc: Global,
        cache: &mut Cache,
    ) -> Result<Fallbacks, SearchError>
        requires own { IsCacheOf self.now cache.old }
        ensures own { IsCacheOf self.now cache.new }
        ensures made { IfOk result (AreFallbacksOf (config_by self.now) self.now.texts) }
        ensures refused { IfErr result (λ e. (config : TextConfig) → (h : List ℕ) → IsSearchError config h e) }
    {
        if let Some(fallbacks) = cache.fallbacks.take() {
            return Ok(fallbacks);
        }
        match fallbacks_of(alloc, self.texts(), &self.options().syntax) {
            Ok(fallbacks) => Ok(fallbacks),
            Err(e) => Err(e),
        }
    }
}
