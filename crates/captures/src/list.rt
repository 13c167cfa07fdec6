//! All matches with their groups.
ghost use Rattle.std.specs.Prelude.{◌≡◌, ◌≤◌, ◌==◌, ◌++◌, ℕ, List, IfErr, IfOk, Some, length, replicate, slice_set, true};
ghost use Rattle.regex_hir.specs.Re.{Re, accept, attempt};
ghost use Rattle.regex_hir.specs.Meaning.{alt_all};
ghost use Rattle.regex_hir.specs.Find.{Match};
ghost use Rattle.regex_hir.specs.Text.{is_some_and};
ghost use Rattle.search_core.specs.Utf8.{IsValidText};
ghost use Rattle.pattern_search.specs.Searches.{span_of_match, IsOfFirstPattern};
ghost use Rattle.pattern_search.specs.Texts.{AreReadAs};
ghost use Rattle.meta_regex.specs.Caches.{IsCacheOf};
ghost use Rattle.meta_regex.specs.Regexes.{IsNext, as_found, config_by, overlaid, span_of_row};
ghost use Rattle.meta_regex.specs.declared.options.Options.{Options};
ghost use Rattle.group_finder.specs.Slots.{no_offset, slots_of};
ghost use Rattle.captures.specs.Rows.{AreFilled};

use crate::errors::CapturesError;
use crate::groups::Groups;
use meta_regex::{Cache, FoundMatch, Regex};
use std::alloc::Global;

/// Writes a match into the row with this number, if there is one.
fn put(rows: &mut [FoundMatch], number: usize, found: FoundMatch)
    ensures { rows.new ≡ slice_set rows.old number found }
{
    if number < rows.len() {
        rows[number] = found;
    }
}

/// Whether there is a match, and it ends at this offset.
fn ends_at(found: Option<FoundMatch>, offset: usize) -> bool
    ensures { result ≡ is_some_and found (λ f. f.end == offset) }
{
    match found {
        Some(it) => it.end == offset,
        None => false,
    }
}

impl Groups {
    ghost use Rattle.captures.specs.Groups.{AreGroupsOf};
    ghost use Rattle.captures.specs.Promises.{FindsMatch, KeepsGroups, ListsCaptured};

    /// The match that follows one that ended at this offset. An empty match right there is skipped. There is none after the haystack.
    pub(crate) fn find_next(
        &mut self,
        alloc: Global,
        regex: &Regex,
        cache: &mut Cache,
        haystack: &[u8],
        end: usize,
    ) -> Result<Option<FoundMatch>, CapturesError>
        requires own { IsCacheOf regex.now cache.old }
        requires groups { AreGroupsOf regex.now.options regex.now.texts self.old }
        requires valid { (config_by regex.now).utf8 ≡ true → IsValidText haystack.now }
        ensures { FindsMatch regex.now cache.new self.new haystack.now (IsNext (config_by regex.now) regex.now.texts haystack.now end) result }
    {
        if haystack.len() < end {
            return Ok(None);
        }
        let next = match self.find(alloc, regex, cache, haystack, end) {
            Ok(next) => next,
            Err(error) => return Err(error),
        };
        if !ends_at(next, end) {
            return Ok(next);
        }
        if haystack.len() == end {
            return Ok(None);
        }
        self.find(alloc, regex, cache, haystack, end + 1)
    }

    /// Writes the slots of a match after those that are filled, as far as there is room, and returns how many are filled then.
    #[inline(always)]
    pub(crate) fn write_row(
        &mut self,
        alloc: Global,
        haystack: &[u8],
        found: FoundMatch,
        slots: &mut [usize],
        filled: usize,
        width: usize,
    ) -> Result<usize, CapturesError>
        ensures written { (o : Options) (texts : List (List ℕ)) → AreGroupsOf o texts self.old → (res : List Re) →
            AreReadAs o.syntax texts res → IsOfFirstPattern res haystack.now (as_found found) → (m : Match) →
            span_of_match m ≡ span_of_row found → m.start ≤ length haystack.now →
            attempt haystack.now (alt_all res) accept m.start ≡ Some m.trace → (done old : List ℕ) → AreFilled done old slots.old filled →
            IfOk result (AreFilled (done ++ slots_of m width) old slots.new) }
        ensures cleared { (done old : List ℕ) → AreFilled done old slots.old filled →
            IfErr result (λ _. slots.new ≡ overlaid (done ++ replicate width no_offset) old) }
        ensures keeps { KeepsGroups self.old self.new result }
    {
        if filled > slots.len() {
            return Ok(filled);
        }
        let (_, rest) = slots.split_at_mut(filled);
        let room = width.min(rest.len());
        if room == 0 {
            return Ok(filled);
        }
        let (row, _) = rest.split_at_mut(room);
        match self.write_slots(alloc, haystack, found, row) {
            Ok(()) => Ok(filled + room),
            Err(error) => Err(error),
        }
    }

    /// Writes the first of all matches into the rows, and their slots.
    fn list(
        &mut self,
        alloc: Global,
        regex: &Regex,
        cache: &mut Cache,
        haystack: &[u8],
        rows: &mut [FoundMatch],
        slots: &mut [usize],
        width: usize,
    ) -> (usize, Result<(), CapturesError>)
        requires own { IsCacheOf regex.now cache.old }
        requires groups { AreGroupsOf regex.now.options regex.now.texts self.old }
        requires valid { (config_by regex.now).utf8 ≡ true → IsValidText haystack.now }
        ensures { ListsCaptured regex.now cache.new self.new haystack.now rows.old rows.new slots.old slots.new width result }
    {
        let mut next = match self.find(alloc, regex, cache, haystack, 0) {
            Ok(next) => next,
            Err(error) => return (0, Err(error)),
        };
        let most = haystack.len() + 1;
        let mut filled = 0usize;
        for count in 0..most {
            let Some(found) = next else {
                return (count, Ok(()));
            };
            filled = match self.write_row(alloc, haystack, found, slots, filled, width) {
                Ok(filled) => filled,
                Err(error) => return (count, Err(error)),
            };
            put(rows, count, found);
            next = match self.find_next(alloc, regex, cache, haystack, found.end) {
                Ok(next) => next,
                Err(error) => return (count + 1, Err(error)),
            };
        }
        (most, Ok(()))
    }

    /// Finds all matches from left to right, with their groups. Returns how many there are, however many there is room for.
    ///
    /// `rows` get the first matches, as many as they have room for. `slots` get the slots of the matches one after the other, `width` for
    /// each match, as [`captures_at`](Groups::captures_at) writes them, as far as there is room. So for as many matches as there are rows,
    /// there have to be `rows.len() * width` slots; with fewer of them, the last match that gets any may get less than `width`. Neither
    /// needs room if it isn't wanted. Rows and slots after the last match are unchanged.
    ///
    /// After an error, the number counts the matches before the search that failed. Their rows and slots are written as far as there is
    /// room. Rows after them are unchanged, and so are slots, except that the next match's slots may hold
    /// [`NO_OFFSET`](crate::NO_OFFSET).
    pub fn captures_all(
        &mut self,
        alloc: Global,
        regex: &Regex,
        cache: &mut Cache,
        haystack: &[u8],
        rows: &mut [FoundMatch],
        slots: &mut [usize],
        width: usize,
    ) -> (usize, Result<(), CapturesError>)
        requires own { IsCacheOf regex.now cache.old }
        requires groups { AreGroupsOf regex.now.options regex.now.texts self.old }
        ensures { ListsCaptured regex.now cache.new self.new haystack.now rows.old rows.new slots.old slots.new width result }
    {
        match regex.check(haystack) {
            Ok(()) => self.list(alloc, regex, cache, haystack, rows, slots, width),
            Err(error) => (0, Err(CapturesError::Search(error))),
        }
    }
}
