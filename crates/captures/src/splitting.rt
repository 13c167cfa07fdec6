//! Splitting haystacks at matches.
ghost use Rattle.std.specs.Prelude.{◌≡◌, ◌≢◌, Some, None, ◌<◌, ◌^◌, slice_set, true};
ghost use Rattle.search_core.specs.Utf8.{IsValidText};
ghost use Rattle.meta_regex.specs.Caches.{IsCacheOf};
ghost use Rattle.meta_regex.specs.Regexes.{config_by};
ghost use Rattle.captures.specs.Replacing.{most_cuts};

use crate::errors::CapturesError;
use crate::groups::Groups;
use meta_regex::{Cache, Regex};
use std::alloc::Global;

/// Writes a span into the row with this number, if there is one.
fn put(rows: &mut [(usize, usize)], number: usize, span: (usize, usize))
    ensures { rows.new ≡ slice_set rows.old number span }
{
    if number < rows.len() {
        rows[number] = span;
    }
}

/// How many matches at most a haystack of this length is split at, if there may be so many pieces.
fn most_cuts(limit: Option<usize>, len: usize) -> usize
    requires { len < 2 ^ 63 }
    ensures { result ≡ most_cuts limit len }
{
    match limit {
        Some(limit) => limit.saturating_sub(1).min(len + 1),
        None => len + 1,
    }
}

impl Groups {
    ghost use Rattle.captures.specs.Groups.{AreGroupsOf};
    ghost use Rattle.captures.specs.Promises.{ListsPieces};

    /// Writes the spans of the first pieces into the rows. There is at least one.
    fn split_matches(
        &mut self,
        alloc: Global,
        regex: &Regex,
        cache: &mut Cache,
        haystack: &[u8],
        limit: Option<usize>,
        rows: &mut [(usize, usize)],
    ) -> (usize, Result<(), CapturesError>)
        requires own { IsCacheOf regex.now cache.old }
        requires groups { AreGroupsOf regex.now.options regex.now.texts self.old }
        requires valid { (config_by regex.now).utf8 ≡ true → IsValidText haystack.now }
        requires some { limit ≢ Some 0 }
        ensures { ListsPieces regex.now cache.new self.new haystack.now limit rows.old rows.new result }
    {
        let most = most_cuts(limit, haystack.len());
        let mut last: Option<usize> = None;
        for count in 0..most {
            let next = match self.find_after(alloc, regex, cache, haystack, last) {
                Ok(next) => next,
                Err(error) => return (count, Err(error)),
            };
            let Some(found) = next else {
                put(rows, count, (last.unwrap_or(0), haystack.len()));
                return (count + 1, Ok(()));
            };
            put(rows, count, (last.unwrap_or(0), found.start));
            last = Some(found.end);
        }
        put(rows, most, (last.unwrap_or(0), haystack.len()));
        (most + 1, Ok(()))
    }

    /// Splits a haystack, if it is UTF-8 or need not be.
    fn split_limited(
        &mut self,
        alloc: Global,
        regex: &Regex,
        cache: &mut Cache,
        haystack: &[u8],
        limit: Option<usize>,
        rows: &mut [(usize, usize)],
    ) -> (usize, Result<(), CapturesError>)
        requires own { IsCacheOf regex.now cache.old }
        requires groups { AreGroupsOf regex.now.options regex.now.texts self.old }
        ensures { ListsPieces regex.now cache.new self.new haystack.now limit rows.old rows.new result }
    {
        match regex.check(haystack) {
            Ok(()) => {}
            Err(error) => return (0, Err(CapturesError::Search(error))),
        }
        if let Some(0) = limit {
            return (0, Ok(()));
        }
        self.split_matches(alloc, regex, cache, haystack, limit, rows)
    }

    /// Splits a haystack at its matches, and returns how many pieces there are between them, however many there is room for. The last piece is
    /// what follows the last match. A haystack without a match is one piece, also if it is empty.
    ///
    /// `rows` get the spans of the first pieces, as many as they have room for: the start and the end, as offsets in bytes. Rows after the
    /// last piece are unchanged. After an error, the pieces that end before the search that failed are counted and written.
    pub fn split(
        &mut self,
        alloc: Global,
        regex: &Regex,
        cache: &mut Cache,
        haystack: &[u8],
        rows: &mut [(usize, usize)],
    ) -> (usize, Result<(), CapturesError>)
        requires own { IsCacheOf regex.now cache.old }
        requires groups { AreGroupsOf regex.now.options regex.now.texts self.old }
        ensures { ListsPieces regex.now cache.new self.new haystack.now None rows.old rows.new result }
    {
        self.split_limited(alloc, regex, cache, haystack, None, rows)
    }

    /// Splits a haystack at its first matches, as [`split`](Groups::split) does, so that there are at most `limit` pieces. The last of them is
    /// what follows the match before it. A limit of 0 gives no piece, without a search.
    pub fn splitn(
        &mut self,
        alloc: Global,
        regex: &Regex,
        cache: &mut Cache,
        haystack: &[u8],
        limit: usize,
        rows: &mut [(usize, usize)],
    ) -> (usize, Result<(), CapturesError>)
        requires own { IsCacheOf regex.now cache.old }
        requires groups { AreGroupsOf regex.now.options regex.now.texts self.old }
        ensures { ListsPieces regex.now cache.new self.new haystack.now (Some limit) rows.old rows.new result }
    {
        self.split_limited(alloc, regex, cache, haystack, Some(limit), rows)
    }
}
