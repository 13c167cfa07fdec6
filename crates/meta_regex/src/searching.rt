//! Searches for one match.
ghost use Rattle.std.specs.Prelude.{◌≡◌, ◌≤◌, IfErr, IfOk, IfSome, length, option_map, true};
ghost use Rattle.regex_syntax.specs.declared.Config.{Config as TextConfig};
ghost use Rattle.search_core.specs.Utf8.{IsValidText};
ghost use Rattle.meta_regex.specs.Caches.{IsCacheOf};
ghost use Rattle.meta_regex.specs.Starts.{SeeksFrom, StepsFrom, sought_of};
ghost use Rattle.meta_regex.specs.Wordless.{MayBeginAt};
ghost use Rattle.meta_regex.specs.Regexes.{FindsFrom, HasFoundStart, HasFoundSpan, IsSearchError, ReportsAnyMatch, config_by, row_of};

use crate::anchored::{Sought, Step, step_of};
use crate::cache::Cache;
use crate::compiled::Regex;
use crate::errors::SearchError;
use crate::fallback::find_match;
use crate::found_match::FoundMatch;
use crate::runs::NextRun;
use crate::wordless::least_start;
use growing_regex::lacks_memory;
use hir_regex::see_bytes;
use pattern_search::regex_laws::regexes_answer_what_is_written;
use pattern_search::search_from;
use search_types::{Match, MatchError};
use std::alloc::Global;

/// Converts a match to three numbers.
fn row(found: Option<Match>) -> Option<FoundMatch>
    ensures { result ≡ option_map row_of found }
{
    match found {
        Some(it) => Some(FoundMatch::of(&it)),
        None => None,
    }
}

/// Returns an error if the haystack has to be UTF-8 and isn't.
fn check_text(haystack: &[u8], utf8: bool) -> Result<(), SearchError>
    ensures text { IfOk result (λ _. utf8 ≡ true → IsValidText haystack.now) }
    ensures refused { (config : TextConfig) → utf8 ≡ config.utf8 → IfErr result (IsSearchError config haystack.now) }
{
    if !utf8 {
        return Ok(());
    }
    match str::from_utf8(haystack) {
        Ok(_) => Ok(()),
        Err(e) => Err(SearchError::NotUtf8(e.valid_up_to())),
    }
}

/// What a search without automata found.
#[inline(always)]
fn sought_of(next: NextRun) -> Sought
    ensures { result ≡ sought_of next }
{
    match next {
        NextRun::Found(start, end) => Sought::Found(FoundMatch {
            pattern: 0,
            start,
            end,
        }),
        NextRun::Missing => Sought::Missing,
        NextRun::From(start) => Sought::From(start),
    }
}

/// About how many bytes a search from this offset on examined. If it failed, none count.
fn searched_len(
    found: &Result<Option<FoundMatch>, SearchError>,
    haystack: &[u8],
    start: usize,
) -> usize {
    match found {
        Ok(Some(it)) => it.end.saturating_sub(start),
        Ok(None) => haystack.len().saturating_sub(start),
        Err(_) => 0,
    }
}

impl Regex {
    /// Returns an error if the haystack isn't UTF-8 and the options require it.
    pub fn check(&self, haystack: &[u8]) -> Result<(), SearchError>
        ensures text { IfOk result (λ _. (config_by self.now).utf8 ≡ true → IsValidText haystack.now) }
        ensures refused { IfErr result (IsSearchError (config_by self.now) haystack.now) }
    {
        match check_text(haystack, self.options().syntax.options().utf8) {
            Ok(()) => Ok(()),
            Err(e) => Err(e),
        }
    }

    /// A search by the automata.
    fn find_by_automata(
        &self,
        cache: &mut Cache,
        haystack: &[u8],
        from: usize,
    ) -> Result<Option<FoundMatch>, MatchError>
        requires own { IsCacheOf self.now cache.old }
        requires within { from ≤ length haystack.now }
        requires valid { (config_by self.now).utf8 ≡ true → IsValidText haystack.now }
        ensures own { IsCacheOf self.now cache.new }
        ensures found { IfOk result (HasFoundStart (config_by self.now) self.now.texts haystack.now from) }
        ensures preferred { self.now.loops ≡ true → IfOk result (HasFoundSpan (config_by self.now) self.now.texts haystack.now from) }
    {
        see_bytes(haystack);
        regexes_answer_what_is_written();
        let found = cache.automata.find(&search_from(haystack, from))?;
        Ok(row(found))
    }

    /// A search by the toolchain's programs.
    fn find_by_fallbacks(
        &self,
        alloc: Global,
        cache: &mut Cache,
        haystack: &[u8],
        from: usize,
    ) -> Result<Option<FoundMatch>, SearchError>
        requires own { IsCacheOf self.now cache.old }
        requires within { from ≤ length haystack.now }
        ensures own { IsCacheOf self.now cache.new }
        ensures finds { FindsFrom (config_by self.now) self.now.texts self.now.loops haystack.now from result }
    {
        let fallbacks = match self.take_fallbacks(alloc, cache) {
            Ok(fallbacks) => fallbacks,
            Err(e) => return Err(e),
        };
        let utf8 = self.options().syntax.options().utf8;
        let reported = find_match(alloc, &fallbacks, haystack, from, utf8);
        cache.fallbacks = Some(fallbacks);
        match reported {
            Ok(found) => Ok(found),
            Err(_) => Err(SearchError::NoMemory),
        }
    }

    /// An offset at which a search may begin instead, because no match starts before it. If there is none, there is no match.
    fn next_start(
        &self,
        alloc: Global,
        cache: &mut Cache,
        haystack: &[u8],
        from: usize,
    ) -> Option<usize>
        requires own { IsCacheOf self.now cache.old }
        requires within { from ≤ length haystack.now }
        ensures own { IsCacheOf self.now cache.new }
        ensures begins { MayBeginAt (config_by self.now) self.now.texts haystack.now from result }
    {
        self.prepare_wordless(alloc, cache);
        let Some(searcher) = &mut cache.wordless else {
            return Some(from);
        };
        match least_start(searcher, haystack, from) {
            Ok(start) => start,
            Err(_) => Some(from),
        }
    }

    /// A search by the automata or, if they give up, by the toolchain's programs.
    fn find_by_either(
        &self,
        alloc: Global,
        cache: &mut Cache,
        haystack: &[u8],
        from: usize,
    ) -> Result<Option<FoundMatch>, SearchError>
        requires own { IsCacheOf self.now cache.old }
        requires within { from ≤ length haystack.now }
        requires valid { (config_by self.now).utf8 ≡ true → IsValidText haystack.now }
        ensures own { IsCacheOf self.now cache.new }
        ensures finds { FindsFrom (config_by self.now) self.now.texts self.now.loops haystack.now from result }
    {
        let error = match self.find_by_automata(cache, haystack, from) {
            Ok(found) => return Ok(found),
            Err(error) => error,
        };
        if lacks_memory(&error) {
            return Err(SearchError::NoMemory);
        }
        self.find_by_fallbacks(alloc, cache, haystack, from)
    }

    /// A search of a haystack in which the automata gave up. It begins at the first match without looks at words. The automata are tried
    /// again only if that is at a later offset.
    #[inline(never)]
    fn find_later(
        &self,
        alloc: Global,
        cache: &mut Cache,
        haystack: &[u8],
        from: usize,
    ) -> Result<Option<FoundMatch>, SearchError>
        requires own { IsCacheOf self.now cache.old }
        requires within { from ≤ length haystack.now }
        requires valid { (config_by self.now).utf8 ≡ true → IsValidText haystack.now }
        ensures own { IsCacheOf self.now cache.new }
        ensures finds { FindsFrom (config_by self.now) self.now.texts self.now.loops haystack.now from result }
    {
        let Some(start) = self.next_start(alloc, cache, haystack, from) else {
            return Ok(None);
        };
        if start == from {
            return self.find_by_fallbacks(alloc, cache, haystack, from);
        }
        self.find_by_either(alloc, cache, haystack, start)
    }

    /// The offset of the next literal or byte with which a match may begin: a search may begin there instead. If there is none, there is no match.
    pub(crate) fn next_literal(
        &self,
        cache: &mut Cache,
        haystack: &[u8],
        from: usize,
    ) -> Option<usize>
        requires own { IsCacheOf self.now cache.old }
        requires within { from ≤ length haystack.now }
        ensures own { IsCacheOf self.now cache.new }
        ensures from { IfSome result (λ start. from ≤ start) }
        ensures begins { MayBeginAt (config_by self.now) self.now.texts haystack.now from result }
    {
        see_bytes(haystack);
        self.starts().next_start(&mut cache.effort, haystack, from)
    }

    /// A search without literals or first bytes.
    fn search_on(
        &self,
        alloc: Global,
        cache: &mut Cache,
        haystack: &[u8],
        from: usize,
    ) -> Result<Option<FoundMatch>, SearchError>
        requires own { IsCacheOf self.now cache.old }
        requires within { from ≤ length haystack.now }
        requires valid { (config_by self.now).utf8 ≡ true → IsValidText haystack.now }
        ensures own { IsCacheOf self.now cache.new }
        ensures finds { FindsFrom (config_by self.now) self.now.texts self.now.loops haystack.now from result }
    {
        let error = match self.find_by_automata(cache, haystack, from) {
            Ok(found) => return Ok(found),
            Err(error) => error,
        };
        if lacks_memory(&error) {
            return Err(SearchError::NoMemory);
        }
        self.find_later(alloc, cache, haystack, from)
    }

    /// A search without literals or first bytes, which counts the bytes that it examined.
    fn search_counted(
        &self,
        alloc: Global,
        cache: &mut Cache,
        haystack: &[u8],
        from: usize,
    ) -> Result<Option<FoundMatch>, SearchError>
        requires own { IsCacheOf self.now cache.old }
        requires within { from ≤ length haystack.now }
        requires valid { (config_by self.now).utf8 ≡ true → IsValidText haystack.now }
        ensures own { IsCacheOf self.now cache.new }
        ensures finds { FindsFrom (config_by self.now) self.now.texts self.now.loops haystack.now from result }
    {
        let found = self.search_on(alloc, cache, haystack, from);
        cache.effort.pass(searched_len(&found, haystack, from));
        found
    }

    /// Where a search has to begin by the literals or first bytes of matches, or the match that is found by them.
    fn sought_start(&self, cache: &mut Cache, haystack: &[u8], from: usize) -> Sought
        requires own { IsCacheOf self.now cache.old }
        requires within { from ≤ length haystack.now }
        requires valid { (config_by self.now).utf8 ≡ true → IsValidText haystack.now }
        ensures own { IsCacheOf self.now cache.new }
        ensures seeks { SeeksFrom (config_by self.now) self.now.texts self.now.loops haystack.now from result }
    {
        if self.tries_starts() {
            return self.try_starts(cache, haystack, from);
        }
        match self.next_literal(cache, haystack, from) {
            Some(start) => Sought::From(start),
            None => Sought::Missing,
        }
    }

    /// A search by automata, which begins where literals or first bytes of matches say.
    #[inline(never)]
    fn search_by_automata(
        &self,
        alloc: Global,
        cache: &mut Cache,
        haystack: &[u8],
        from: usize,
    ) -> Result<Option<FoundMatch>, SearchError>
        requires own { IsCacheOf self.now cache.old }
        requires within { from ≤ length haystack.now }
        requires valid { (config_by self.now).utf8 ≡ true → IsValidText haystack.now }
        ensures own { IsCacheOf self.now cache.new }
        ensures finds { FindsFrom (config_by self.now) self.now.texts self.now.loops haystack.now from result }
    {
        if !self.knows_starts() {
            return self.search_on(alloc, cache, haystack, from);
        }
        if !cache.effort.pays() {
            return self.search_counted(alloc, cache, haystack, from);
        }
        let start = match self.sought_start(cache, haystack, from) {
            Sought::Found(found) => return Ok(Some(found)),
            Sought::Missing => return Ok(None),
            Sought::From(start) => start,
        };
        self.search_counted(alloc, cache, haystack, start)
    }

    /// The next match, if it is found without automata. Otherwise it returns where a search has to begin.
    #[inline(always)]
    fn sought_directly(&self, cache: &mut Cache, haystack: &[u8], from: usize) -> Sought
        requires own { IsCacheOf self.now cache.old }
        requires within { from ≤ length haystack.now }
        requires valid { (config_by self.now).utf8 ≡ true → IsValidText haystack.now }
        ensures own { IsCacheOf self.now cache.new }
        ensures seeks { SeeksFrom (config_by self.now) self.now.texts self.now.loops haystack.now from result }
    {
        see_bytes(haystack);
        let (way, starts) = self.way();
        sought_of(way.next(starts, &mut cache.effort, haystack, from))
    }

    /// One step of a search without automata. Where a sequence gave up, automata try that offset alone.
    #[inline(always)]
    fn step_directly(&self, cache: &mut Cache, haystack: &[u8], at: usize) -> Step
        requires own { IsCacheOf self.now cache.old }
        requires within { at ≤ length haystack.now }
        requires valid { (config_by self.now).utf8 ≡ true → IsValidText haystack.now }
        ensures own { IsCacheOf self.now cache.new }
        ensures steps { StepsFrom (config_by self.now) self.now.texts self.now.loops haystack.now at result }
    {
        let start = match self.sought_directly(cache, haystack, at) {
            Sought::Found(found) => return Step::Done(Sought::Found(found)),
            Sought::Missing => return Step::Done(Sought::Missing),
            Sought::From(start) => start,
        };
        if start < at || !self.is_sequence() || !cache.effort.pays() {
            return Step::Done(Sought::From(start));
        }
        let tried = self.try_there(cache, haystack, start);
        step_of(tried, haystack, start)
    }

    /// A search without automata, as long as that pays.
    fn sought_by_steps(&self, cache: &mut Cache, haystack: &[u8], from: usize) -> Sought
        requires own { IsCacheOf self.now cache.old }
        requires within { from ≤ length haystack.now }
        requires valid { (config_by self.now).utf8 ≡ true → IsValidText haystack.now }
        ensures own { IsCacheOf self.now cache.new }
        ensures seeks { SeeksFrom (config_by self.now) self.now.texts self.now.loops haystack.now from result }
    {
        let mut at = from;
        loop {
            match self.step_directly(cache, haystack, at) {
                Step::Done(sought) => return sought,
                Step::Next(next) => at = next,
            }
        }
    }

    /// The rest of a search where no match was found without automata.
    #[inline(never)]
    fn search_further(
        &self,
        alloc: Global,
        cache: &mut Cache,
        haystack: &[u8],
        from: usize,
    ) -> Result<Option<FoundMatch>, SearchError>
        requires own { IsCacheOf self.now cache.old }
        requires within { from ≤ length haystack.now }
        requires valid { (config_by self.now).utf8 ≡ true → IsValidText haystack.now }
        ensures own { IsCacheOf self.now cache.new }
        ensures finds { FindsFrom (config_by self.now) self.now.texts self.now.loops haystack.now from result }
    {
        let start = match self.sought_by_steps(cache, haystack, from) {
            Sought::Found(found) => return Ok(Some(found)),
            Sought::Missing => return Ok(None),
            Sought::From(start) => start,
        };
        if !cache.effort.pays() {
            return self.search_counted(alloc, cache, haystack, start);
        }
        self.search_by_automata(alloc, cache, haystack, start)
    }

    /// A search without automata, as far as one is known.
    #[inline(always)]
    fn search_directly(
        &self,
        alloc: Global,
        cache: &mut Cache,
        haystack: &[u8],
        from: usize,
    ) -> Result<Option<FoundMatch>, SearchError>
        requires own { IsCacheOf self.now cache.old }
        requires within { from ≤ length haystack.now }
        requires valid { (config_by self.now).utf8 ≡ true → IsValidText haystack.now }
        ensures own { IsCacheOf self.now cache.new }
        ensures finds { FindsFrom (config_by self.now) self.now.texts self.now.loops haystack.now from result }
    {
        let start = match self.sought_directly(cache, haystack, from) {
            Sought::Found(found) => return Ok(Some(found)),
            Sought::Missing => return Ok(None),
            Sought::From(start) => start,
        };
        self.search_further(alloc, cache, haystack, start)
    }

    /// A search of a haystack that is UTF-8 if the options require it, which [`check`](Regex::check) tests. It is
    /// [`find_at`](Regex::find_at) without that test, for several searches of one haystack.
    pub fn search(
        &self,
        alloc: Global,
        cache: &mut Cache,
        haystack: &[u8],
        from: usize,
    ) -> Result<Option<FoundMatch>, SearchError>
        requires own { IsCacheOf self.now cache.old }
        requires within { from ≤ length haystack.now }
        requires valid { (config_by self.now).utf8 ≡ true → IsValidText haystack.now }
        ensures own { IsCacheOf self.now cache.new }
        ensures finds { FindsFrom (config_by self.now) self.now.texts self.now.loops haystack.now from result }
    {
        if self.needs_automata() {
            return self.search_by_automata(alloc, cache, haystack, from);
        }
        self.search_directly(alloc, cache, haystack, from)
    }

    /// The leftmost match from an offset on, and of several that start there the preferred one. Look-around assertions see what precedes
    /// the offset.
    pub fn find_at(
        &self,
        alloc: Global,
        cache: &mut Cache,
        haystack: &[u8],
        from: usize,
    ) -> Result<Option<FoundMatch>, SearchError>
        requires own { IsCacheOf self.now cache.old }
        requires within { from ≤ length haystack.now }
        ensures own { IsCacheOf self.now cache.new }
        ensures finds { FindsFrom (config_by self.now) self.now.texts self.now.loops haystack.now from result }
    {
        match self.check(haystack) {
            Ok(()) => {}
            Err(e) => return Err(e),
        }
        self.search(alloc, cache, haystack, from)
    }

    /// Whether there is a match.
    pub fn is_match(
        &self,
        alloc: Global,
        cache: &mut Cache,
        haystack: &[u8],
    ) -> Result<bool, SearchError>
        requires { IsCacheOf self.now cache.old }
        ensures own { IsCacheOf self.now cache.new }
        ensures reports { ReportsAnyMatch (config_by self.now) self.now.texts haystack.now result }
    {
        let found = match self.find_at(alloc, cache, haystack, 0) {
            Ok(found) => found,
            Err(e) => return Err(e),
        };
        Ok(found.is_some())
    }
}
