//! Which patterns match.
ghost use Rattle.std.specs.Prelude.{◌≡◌, IfErr, IfOk, IfSome, length, map, replicate, slice_set, true};
ghost use Rattle.search_core.specs.Utf8.{IsValidText};
ghost use Rattle.meta_regex.specs.declared.errors.SearchError.TheVariants.{NoMemory as NoneFree};
ghost use Rattle.meta_regex.specs.Caches.{IsCacheOf};
ghost use Rattle.meta_regex.specs.Wordless.{MayMatch};
ghost use Rattle.meta_regex.specs.Regexes.{AreWhich, MarksWhich, SaysWhich, config_by, hits, mark, overlaid};

use crate::cache::Cache;
use crate::compiled::Regex;
use crate::errors::SearchError;
use crate::fallback::have_each;
use crate::overlapping::tests_by;
use std::alloc::{AllocError, Global};

fn mark(test: bool) -> u8
    ensures { result ≡ mark test }
{
    if test { 1 } else { 0 }
}

/// Writes a mark at this index, if there is one.
fn put(marks: &mut [u8], at: usize, mark: u8)
    ensures { marks.new ≡ slice_set marks.old at mark }
{
    if at < marks.len() {
        marks[at] = mark;
    }
}

/// Writes the mark of each test at its index.
fn write_marks(tests: &[bool], marks: &mut [u8])
    ensures { marks.new ≡ overlaid (map mark tests.now) marks.old }
{
    for (at, test) in tests.iter().enumerate() {
        put(marks, at, mark(*test));
    }
}

/// The number of tests that are true.
fn hits(tests: &[bool]) -> usize
    ensures { result ≡ hits tests.now }
{
    let mut count = 0;
    for test in tests {
        if *test {
            count += 1;
        }
    }
    count
}

/// This many tests, each of them true.
fn all_true(alloc: Global, count: usize) -> Result<Vec<bool>, AllocError>
    ensures { IfOk result (λ tests. tests.items ≡ replicate count true) }
{
    let mut tests = Vec::new(alloc);
    tests.resize(count, true)?;
    Ok(tests)
}

impl Regex {
    /// For each pattern, whether it matches, by the automaton if it can answer.
    fn matching_by_automaton(
        &self,
        alloc: Global,
        cache: &mut Cache,
        haystack: &[u8],
    ) -> Option<Vec<bool>>
        requires own { IsCacheOf self.now cache.old }
        requires valid { (config_by self.now).utf8 ≡ true → IsValidText haystack.now }
        ensures own { IsCacheOf self.now cache.new }
        ensures reported { IfSome result (λ reported. AreWhich (config_by self.now) self.now.texts haystack.now reported.items) }
    {
        let Some(automata) = &mut cache.overlapping else {
            return None;
        };
        tests_by(alloc, automata, haystack, self.pattern_count())
    }

    /// For each pattern, whether it may match, by the automaton without looks at words if it can be made.
    fn may_match_by_automaton(
        &self,
        alloc: Global,
        cache: &mut Cache,
        haystack: &[u8],
    ) -> Option<Vec<bool>>
        requires { IsCacheOf self.now cache.old }
        ensures own { IsCacheOf self.now cache.new }
        ensures may { IfSome result (λ may. MayMatch (config_by self.now) self.now.texts haystack.now may.items) }
        ensures long { IfSome result (λ may. length may.items ≡ length self.now.texts) }
    {
        self.prepare_wordless_overlapping(alloc, cache);
        let Some(automata) = &mut cache.wordless_overlapping else {
            return None;
        };
        tests_by(alloc, automata, haystack, self.pattern_count())
    }

    /// For each pattern, whether it may match.
    fn may_match(
        &self,
        alloc: Global,
        cache: &mut Cache,
        haystack: &[u8],
    ) -> Result<Vec<bool>, SearchError>
        requires { IsCacheOf self.now cache.old }
        ensures own { IsCacheOf self.now cache.new }
        ensures may { IfOk result (λ may. MayMatch (config_by self.now) self.now.texts haystack.now may.items) }
        ensures long { IfOk result (λ may. length may.items ≡ length self.now.texts) }
        ensures refused { IfErr result (λ e. e ≡ NoneFree) }
    {
        if let Some(may) = self.may_match_by_automaton(alloc, cache, haystack) {
            return Ok(may);
        }
        match all_true(alloc, self.pattern_count()) {
            Ok(may) => Ok(may),
            Err(_) => Err(SearchError::NoMemory),
        }
    }

    /// For each pattern, whether it matches, by the toolchain's programs of those that may match.
    fn matching_by_fallbacks(
        &self,
        alloc: Global,
        cache: &mut Cache,
        haystack: &[u8],
    ) -> Result<Vec<bool>, SearchError>
        requires { IsCacheOf self.now cache.old }
        ensures own { IsCacheOf self.now cache.new }
        ensures says { SaysWhich (config_by self.now) self.now.texts haystack.now result }
    {
        let may = match self.may_match(alloc, cache, haystack) {
            Ok(may) => may,
            Err(e) => return Err(e),
        };
        let fallbacks = match self.take_fallbacks(alloc, cache) {
            Ok(fallbacks) => fallbacks,
            Err(e) => return Err(e),
        };
        let utf8 = self.options().syntax.options().utf8;
        let reported = have_each(alloc, &fallbacks, haystack, &may, utf8);
        cache.fallbacks = Some(fallbacks);
        match reported {
            Ok(tests) => Ok(tests),
            Err(_) => Err(SearchError::NoMemory),
        }
    }

    /// For each pattern, whether it matches.
    fn which_match(
        &self,
        alloc: Global,
        cache: &mut Cache,
        haystack: &[u8],
    ) -> Result<Vec<bool>, SearchError>
        requires own { IsCacheOf self.now cache.old }
        requires valid { (config_by self.now).utf8 ≡ true → IsValidText haystack.now }
        ensures own { IsCacheOf self.now cache.new }
        ensures says { SaysWhich (config_by self.now) self.now.texts haystack.now result }
    {
        self.prepare_matching_patterns(alloc, cache);
        if let Some(tests) = self.matching_by_automaton(alloc, cache, haystack) {
            return Ok(tests);
        }
        let reported = match self.matching_by_fallbacks(alloc, cache, haystack) {
            Ok(reported) => reported,
            Err(e) => return Err(e),
        };
        Ok(reported)
    }

    /// For each pattern, writes 1 at its index if it matches anywhere, and 0 if it doesn't. Returns how many patterns match. There has to
    /// be one mark for each pattern. On an error all marks are 0.
    pub fn matching_patterns(
        &self,
        alloc: Global,
        cache: &mut Cache,
        haystack: &[u8],
        marks: &mut [u8],
    ) -> Result<usize, SearchError>
        requires { IsCacheOf self.now cache.old }
        ensures own { IsCacheOf self.now cache.new }
        ensures marks { MarksWhich (config_by self.now) self.now.texts haystack.now marks.old marks.new result }
    {
        marks.fill(0);
        if marks.len() != self.pattern_count() {
            return Err(SearchError::WrongMarkCount);
        }
        match self.check(haystack) {
            Ok(()) => {}
            Err(e) => return Err(e),
        }
        let tests = match self.which_match(alloc, cache, haystack) {
            Ok(tests) => tests,
            Err(e) => return Err(e),
        };
        write_marks(&tests, marks);
        Ok(hits(&tests))
    }
}
