//! Matches from an offset on, with their groups.
ghost use Rattle.std.specs.Prelude.{◌≡◌, ◌<◌, ◌≤◌, ◌^◌, true};
ghost use Rattle.search_core.specs.Utf8.{IsValidText};
ghost use Rattle.meta_regex.specs.Caches.{IsCacheOf};
ghost use Rattle.meta_regex.specs.Regexes.{HasFoundSpan, config_by};
ghost use Rattle.captures.specs.NextMatches.{after_span};

use crate::errors::CapturesError;
use crate::groups::Groups;
use meta_regex::{Cache, FoundMatch, Regex};
use std::alloc::Global;

/// Where the search after a match begins in a haystack of this length: at its end, or one byte after that if the match is empty.
#[inline(always)]
fn after(found: FoundMatch, len: usize) -> usize
    requires { len < 2 ^ 63 }
    ensures { found.end ≤ len → result ≡ after_span found.start found.end }
{
    if found.start == found.end {
        found.end.saturating_add(1)
    } else {
        found.end
    }
}

impl Groups {
    ghost use Rattle.captures.specs.Groups.{AreGroupsOf};
    ghost use Rattle.captures.specs.Promises.{FindsMatch, ListsNext};

    /// The match from an offset on. There is none after the haystack.
    #[inline(always)]
    fn find_within(
        &mut self,
        alloc: Global,
        regex: &Regex,
        cache: &mut Cache,
        haystack: &[u8],
        from: usize,
    ) -> Result<Option<FoundMatch>, CapturesError>
        requires own { IsCacheOf regex.now cache.old }
        requires groups { AreGroupsOf regex.now.options regex.now.texts self.old }
        requires valid { (config_by regex.now).utf8 ≡ true → IsValidText haystack.now }
        ensures { FindsMatch regex.now cache.new self.new haystack.now (HasFoundSpan (config_by regex.now) regex.now.texts haystack.now from) result }
    {
        if from > haystack.len() {
            return Ok(None);
        }
        self.find(alloc, regex, cache, haystack, from)
    }

    /// Writes the next matches into the rows, and their slots.
    fn list_next(
        &mut self,
        alloc: Global,
        regex: &Regex,
        cache: &mut Cache,
        haystack: &[u8],
        from: &mut usize,
        rows: &mut [FoundMatch],
        slots: &mut [usize],
        width: usize,
    ) -> (usize, Result<(), CapturesError>)
        requires own { IsCacheOf regex.now cache.old }
        requires groups { AreGroupsOf regex.now.options regex.now.texts self.old }
        requires valid { (config_by regex.now).utf8 ≡ true → IsValidText haystack.now }
        ensures { ListsNext regex.now cache.new self.new haystack.now from.old from.new rows.old rows.new slots.old slots.new width result }
    {
        let mut filled = 0usize;
        for count in 0..rows.len() {
            let next = match self.find_within(alloc, regex, cache, haystack, *from) {
                Ok(next) => next,
                Err(error) => return (count, Err(error)),
            };
            let Some(found) = next else {
                return (count, Ok(()));
            };
            filled = match self.write_row(alloc, haystack, found, slots, filled, width) {
                Ok(filled) => filled,
                Err(error) => return (count, Err(error)),
            };
            rows[count] = found;
            *from = after(found, haystack.len());
        }
        (rows.len(), Ok(()))
    }

    /// Finds the next matches from an offset on, with their groups, as many as there are rows. Each is the leftmost one from where the one
    /// before it ends, or from the next offset if that one is empty. So an empty match right at the end of another one is listed, which
    /// [`captures_all`](Groups::captures_all) skips. There is no match after the end of the haystack.
    ///
    /// Returns how many matches there are. `rows` get them, and `slots` get the slots of each, `width` for each match, as
    /// [`captures_all`](Groups::captures_all) writes them. `from` is then the offset from which the next call goes on. If there are fewer matches
    /// than rows, no match follows.
    ///
    /// After an error, the number counts the matches before the search that failed, and `from` is where that search begins. Slots after these
    /// matches are unchanged, except that the next match's slots may hold [`NO_OFFSET`](crate::NO_OFFSET).
    pub fn captures_next(
        &mut self,
        alloc: Global,
        regex: &Regex,
        cache: &mut Cache,
        haystack: &[u8],
        from: &mut usize,
        rows: &mut [FoundMatch],
        slots: &mut [usize],
        width: usize,
    ) -> (usize, Result<(), CapturesError>)
        requires own { IsCacheOf regex.now cache.old }
        requires groups { AreGroupsOf regex.now.options regex.now.texts self.old }
        ensures { ListsNext regex.now cache.new self.new haystack.now from.old from.new rows.old rows.new slots.old slots.new width result }
    {
        match regex.check(haystack) {
            Ok(()) => self.list_next(alloc, regex, cache, haystack, from, rows, slots, width),
            Err(error) => (0, Err(CapturesError::Search(error))),
        }
    }
}
