//! All matches of a haystack.
ghost use Rattle.std.specs.Prelude.{◌≡◌, ◌==◌, IfErr, IfOk, slice_set, true};
ghost use Rattle.regex_hir.specs.Text.{is_some_and};
ghost use Rattle.search_core.specs.Utf8.{IsValidText};
ghost use Rattle.meta_regex.specs.Caches.{IsCacheOf};
ghost use Rattle.meta_regex.specs.Regexes.{HasPattern, IsNext, IsSearchError, config_by};
ghost use Rattle.meta_regex.specs.Lists.{IsNextListed, ListsAll};

use crate::cache::Cache;
use crate::compiled::Regex;
use crate::errors::SearchError;
use crate::found_match::FoundMatch;
use std::alloc::Global;

/// Writes a match into the row with this number, if there is one.
fn put(rows: &mut [FoundMatch], number: usize, found: FoundMatch)
    ensures { rows.new ≡ slice_set rows.old number found }
{
    if number < rows.len() {
        rows[number] = found;
    }
}

/// Whether there is a match, and it ends at this offset.
fn ends_at(next: Option<FoundMatch>, end: usize) -> bool
    ensures { result ≡ is_some_and next (λ f. f.end == end) }
{
    match next {
        Some(found) => found.end == end,
        None => false,
    }
}

impl Regex {
    /// The match that follows one that ended at this offset.
    fn find_next(
        &self,
        alloc: Global,
        cache: &mut Cache,
        haystack: &[u8],
        end: usize,
    ) -> Result<Option<FoundMatch>, SearchError>
        requires own { IsCacheOf self.now cache.old }
        requires valid { (config_by self.now).utf8 ≡ true → IsValidText haystack.now }
        ensures own { IsCacheOf self.now cache.new }
        ensures next { self.now.loops ≡ true → IfOk result (IsNext (config_by self.now) self.now.texts haystack.now end) }
        ensures pattern { IfOk result (HasPattern (config_by self.now) self.now.texts haystack.now) }
        ensures listed { IfOk result (IsNextListed (config_by self.now) self.now.texts haystack.now end) }
        ensures refused { IfErr result (IsSearchError (config_by self.now) haystack.now) }
    {
        if haystack.len() < end {
            return Ok(None);
        }
        let next = match self.search(alloc, cache, haystack, end) {
            Ok(next) => next,
            Err(e) => return Err(e),
        };
        if !ends_at(next, end) {
            return Ok(next);
        }
        if haystack.len() == end {
            return Ok(None);
        }
        let later = match self.search(alloc, cache, haystack, end + 1) {
            Ok(later) => later,
            Err(e) => return Err(e),
        };
        Ok(later)
    }

    /// Writes the first of all matches into the rows.
    fn list(
        &self,
        alloc: Global,
        cache: &mut Cache,
        haystack: &[u8],
        rows: &mut [FoundMatch],
    ) -> (usize, Result<(), SearchError>)
        requires own { IsCacheOf self.now cache.old }
        requires valid { (config_by self.now).utf8 ≡ true → IsValidText haystack.now }
        ensures own { IsCacheOf self.now cache.new }
        ensures lists { ListsAll (config_by self.now) self.now.texts self.now.loops haystack.now rows.old rows.new result }
    {
        let mut next = match self.search(alloc, cache, haystack, 0) {
            Ok(next) => next,
            Err(e) => return (0, Err(e)),
        };
        let most = haystack.len() + 1;
        for count in 0..most {
            let Some(found) = next else {
                return (count, Ok(()));
            };
            put(rows, count, found);
            next = match self.find_next(alloc, cache, haystack, found.end) {
                Ok(next) => next,
                Err(e) => return (count + 1, Err(e)),
            };
        }
        (most, Ok(()))
    }

    /// Writes the first of all matches, from left to right, into the rows, as many as these have room for. Returns how many matches there
    /// are in all. On an error, the number counts the matches that were found before the search that failed, and these are written as far
    /// as there is room.
    pub fn find_all(
        &self,
        alloc: Global,
        cache: &mut Cache,
        haystack: &[u8],
        rows: &mut [FoundMatch],
    ) -> (usize, Result<(), SearchError>)
        requires { IsCacheOf self.now cache.old }
        ensures own { IsCacheOf self.now cache.new }
        ensures lists { ListsAll (config_by self.now) self.now.texts self.now.loops haystack.now rows.old rows.new result }
    {
        match self.check(haystack) {
            Ok(()) => self.list(alloc, cache, haystack, rows),
            Err(e) => (0, Err(e)),
        }
    }
}
