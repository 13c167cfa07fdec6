//! Searches for one match with its groups.
ghost use Rattle.std.specs.Prelude.{◌≡◌, ◌<◌, ◌≤◌, ◌∷◌, [], ℕ, List, Some, IfErr, IfOk, false, length, replicate, slice_get, true};
ghost use Rattle.regex_hir.specs.Re.{Re, Trace, accept, attempt};
ghost use Rattle.meta_regex.specs.declared.options.Options.{Options};
ghost use Rattle.search_core.specs.Utf8.{IsValidText};
ghost use Rattle.meta_regex.specs.Caches.{IsCacheOf};
ghost use Rattle.meta_regex.specs.Regexes.{HasFoundSpan, HasFoundStart, HasPattern, config_by};
ghost use Rattle.group_finder.specs.Slots.{no_offset, slots_of};
ghost use Rattle.group_finder.specs.Patterns.{IsParsedAs};
ghost use Rattle.group_finder.specs.Groups.{HasSlots};
ghost use Rattle.captures.specs.Captures.{HasCaptures};
ghost use Rattle.captures.specs.Errors.{IsCapturesError};

use crate::errors::CapturesError;
use crate::groups::Groups;
use group_finder::clear;
use meta_regex::{Cache, FoundMatch, Regex};
use std::alloc::Global;

/// Writes the start of a match into its slots, of which there is at most one.
fn write_start(start: usize, slots: &mut [usize])
    requires { length slots.old < 2 }
    ensures { slots.new ≡ replicate (length slots.old) start }
{
    if slots.len() == 1 {
        slots[0] = start;
    }
}

/// Writes the span of a match into its two slots.
fn write_span(start: usize, end: usize, slots: &mut [usize])
    requires { length slots.old ≡ 2 }
    ensures { slots.new ≡ start ∷ end ∷ [] }
{
    slots[0] = start;
    slots[1] = end;
}

impl Groups {
    ghost use Rattle.captures.specs.Groups.{AreGroupsOf};
    ghost use Rattle.captures.specs.Promises.{FindsMatch, KeepsGroups, WritesSlots};

    /// Finds the match that the pattern with a number has from an offset, and its slots. It ends at or before another offset.
    #[inline]
    fn slots_at(
        &mut self,
        alloc: Global,
        haystack: &[u8],
        pattern: usize,
        start: usize,
        stop: usize,
        slots: &mut [usize],
    ) -> Result<Option<usize>, CapturesError>
        requires { stop ≤ length haystack.now }
        ensures found { (o : Options) (texts : List (List ℕ)) → AreGroupsOf o texts self.old → (text : List ℕ) (a : Re) →
            slice_get texts pattern ≡ Some text → IsParsedAs o.syntax text a → (t : Trace) →
            attempt haystack.now a accept start ≡ Some t → start ≤ t.end → t.end ≤ stop → IfOk result (λ o. HasSlots start t o slots.new) }
        ensures keeps { KeepsGroups self.old self.new result }
        ensures cleared { IfErr result (λ _. slots.new ≡ replicate (length slots.old) no_offset) }
    {
        if pattern >= self.patterns.len() {
            return Ok(None);
        }
        if start > stop {
            return Ok(None);
        }
        self.patterns[pattern].slots_at(
            alloc,
            &self.syntax,
            self.size_limit,
            haystack,
            start,
            stop,
            slots,
        )
    }

    /// Writes the slots of the match that the pattern with a number has between two offsets.
    #[inline]
    fn slots_between(
        &mut self,
        alloc: Global,
        haystack: &[u8],
        pattern: usize,
        start: usize,
        end: usize,
        slots: &mut [usize],
    ) -> Result<(), CapturesError>
        requires { end ≤ length haystack.now }
        ensures written { (o : Options) (texts : List (List ℕ)) → AreGroupsOf o texts self.old → (text : List ℕ) (a : Re) →
            slice_get texts pattern ≡ Some text → IsParsedAs o.syntax text a → (t : Trace) →
            attempt haystack.now a accept start ≡ Some t → start ≤ t.end → t.end ≡ end →
            IfOk result (λ _. slots.new ≡ slots_of (record { start = start; trace = t }) (length slots.old)) }
        ensures keeps { KeepsGroups self.old self.new result }
        ensures cleared { IfErr result (λ _. slots.new ≡ replicate (length slots.old) no_offset) }
    {
        if pattern >= self.patterns.len() {
            return Ok(());
        }
        if start > end {
            return Ok(());
        }
        self.patterns[pattern].slots_between(
            alloc,
            &self.syntax,
            self.size_limit,
            haystack,
            start,
            end,
            slots,
        )
    }

    /// Finds the end that the toolchain's matcher finds of a match of known start. It is a call of its own, since its frame is large and few
    /// regexes need it.
    #[cold]
    #[inline(never)]
    fn find_end(
        &mut self,
        alloc: Global,
        haystack: &[u8],
        row: FoundMatch,
    ) -> Result<Option<FoundMatch>, CapturesError>
        ensures keeps { KeepsGroups self.old self.new result }
        ensures found { (o : Options) (texts : List (List ℕ)) → AreGroupsOf o texts self.old → (from : ℕ) →
            HasFoundStart o.syntax texts haystack.now from (Some row) → IfOk result (HasFoundSpan o.syntax texts haystack.now from) }
        ensures pattern { (o : Options) (texts : List (List ℕ)) → AreGroupsOf o texts self.old → (from : ℕ) →
            HasFoundStart o.syntax texts haystack.now from (Some row) → IfOk result (HasPattern o.syntax texts haystack.now) }
    {
        match self.slots_at(
            alloc,
            haystack,
            row.pattern,
            row.start,
            haystack.len(),
            &mut [],
        ) {
            Ok(Some(end)) => Ok(Some(FoundMatch { end, ..row })),
            Ok(None) => Ok(None),
            Err(error) => Err(error),
        }
    }

    /// Searches a haystack that is UTF-8 if the options require it. The match has the end that the toolchain's matcher finds.
    #[inline(always)]
    pub(crate) fn find(
        &mut self,
        alloc: Global,
        regex: &Regex,
        cache: &mut Cache,
        haystack: &[u8],
        from: usize,
    ) -> Result<Option<FoundMatch>, CapturesError>
        requires own { IsCacheOf regex.now cache.old }
        requires groups { AreGroupsOf regex.now.options regex.now.texts self.old }
        requires within { from ≤ length haystack.now }
        requires valid { (config_by regex.now).utf8 ≡ true → IsValidText haystack.now }
        ensures { FindsMatch regex.now cache.new self.new haystack.now (HasFoundSpan (config_by regex.now) regex.now.texts haystack.now from) result }
    {
        let found = match regex.search(alloc, cache, haystack, from) {
            Ok(found) => found,
            Err(error) => return Err(CapturesError::Search(error)),
        };
        if regex.loops_consume() {
            return Ok(found);
        }
        let Some(row) = found else {
            return Ok(None);
        };
        self.find_end(alloc, haystack, row)
    }

    /// Writes the slots of the match that the pattern with a number has between two offsets, if that has a layout that was made. Returns whether
    /// it has. Otherwise the slots are unchanged.
    #[inline(always)]
    fn write_by_layout(
        &self,
        haystack: &[u8],
        pattern: usize,
        start: usize,
        end: usize,
        slots: &mut [usize],
    ) -> bool
        ensures written { result ≡ true → (o : Options) (texts : List (List ℕ)) → AreGroupsOf o texts self.now → (text : List ℕ) (a : Re) →
            slice_get texts pattern ≡ Some text → IsParsedAs o.syntax text a → (t : Trace) → attempt haystack.now a accept start ≡ Some t →
            start ≤ t.end → t.end ≡ end → slots.new ≡ slots_of (record { start = start; trace = t }) (length slots.old) }
        ensures kept { result ≡ false → slots.new ≡ slots.old }
    {
        if pattern >= self.patterns.len() {
            return false;
        }
        if end > haystack.len() {
            return false;
        }
        if start > end {
            return false;
        }
        self.patterns[pattern].write_by_layout(haystack, start, end, slots)
    }

    /// Writes the slots of a match that was found.
    #[inline(always)]
    pub(crate) fn write_slots(
        &mut self,
        alloc: Global,
        haystack: &[u8],
        found: FoundMatch,
        slots: &mut [usize],
    ) -> Result<(), CapturesError>
        ensures { WritesSlots self.old self.new haystack.now found slots.old slots.new result }
    {
        if self.write_by_layout(haystack, found.pattern, found.start, found.end, slots) {
            return Ok(());
        }
        self.search_slots(alloc, haystack, found, slots)
    }

    /// Writes the slots of a match that was found. Only slots after the first two need a search. It is a call of its own, since its frame is
    /// large, and matches of patterns with layouts don't need it.
    #[inline(never)]
    fn search_slots(
        &mut self,
        alloc: Global,
        haystack: &[u8],
        found: FoundMatch,
        slots: &mut [usize],
    ) -> Result<(), CapturesError>
        ensures { WritesSlots self.old self.new haystack.now found slots.old slots.new result }
    {
        if slots.len() < 2 {
            write_start(found.start, slots);
            return Ok(());
        }
        if slots.len() == 2 {
            write_span(found.start, found.end, slots);
            return Ok(());
        }
        if found.end > haystack.len() {
            return Ok(());
        }
        match self.slots_between(
            alloc,
            haystack,
            found.pattern,
            found.start,
            found.end,
            slots,
        ) {
            Ok(()) => Ok(()),
            Err(error) => Err(error),
        }
    }

    /// The leftmost match from an offset on, and of several that start there the preferred one, as the toolchain's matcher finds it. Look-around
    /// assertions see what precedes the offset.
    ///
    /// `slots` get the offsets of the groups of the match: the start and end of group n in the slots 2n and 2n + 1, or
    /// [`NO_OFFSET`](crate::NO_OFFSET) in both if it took no part. Group 0 is the match. Slots after the last group of the pattern get that
    /// too, as do all slots if there is no match or if the search fails.
    pub fn captures_at(
        &mut self,
        alloc: Global,
        regex: &Regex,
        cache: &mut Cache,
        haystack: &[u8],
        from: usize,
        slots: &mut [usize],
    ) -> Result<Option<FoundMatch>, CapturesError>
        requires own { IsCacheOf regex.now cache.old }
        requires groups { AreGroupsOf regex.now.options regex.now.texts self.old }
        requires within { from ≤ length haystack.now }
        ensures own { IsCacheOf regex.now cache.new }
        ensures groups { AreGroupsOf regex.now.options regex.now.texts self.new }
        ensures found { IfOk result (λ o. HasCaptures (config_by regex.now) regex.now.texts haystack.now from (length slots.old) o slots.new) }
        ensures cleared { IfErr result (λ _. slots.new ≡ replicate (length slots.old) no_offset) }
        ensures refused { IfErr result (IsCapturesError regex.now.options haystack.now) }
    {
        match regex.check(haystack) {
            Ok(()) => {}
            Err(error) => {
                clear(slots);
                return Err(CapturesError::Search(error));
            }
        }
        let found = match self.find(alloc, regex, cache, haystack, from) {
            Ok(Some(found)) => found,
            Ok(None) => {
                clear(slots);
                return Ok(None);
            }
            Err(error) => {
                clear(slots);
                return Err(error);
            }
        };
        match self.write_slots(alloc, haystack, found, slots) {
            Ok(()) => Ok(Some(found)),
            Err(error) => Err(error),
        }
    }
}
