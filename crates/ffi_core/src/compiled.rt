//! A compiled regex.
ghost use Rattle.std.specs.Prelude.{◌≡◌, ◌≤◌, IfErr, IfNone, IfOk, length, map, replicate};
ghost use Rattle.meta_regex.specs.Caches.{IsCacheOf};
ghost use Rattle.meta_regex.specs.Regexes.{AreAll, AreFirstOfAll, FindsFrom, MarksWhich, ReportsAnyMatch};
ghost use Rattle.meta_regex.specs.Lists.{ListsAll};
ghost use Rattle.group_finder.specs.Slots.{no_offset};
ghost use Rattle.captures.specs.Captures.{AreCaptured, AreFirstCaptured};
ghost use Rattle.captures.specs.NextMatches.{AreNext, AreNextBegun, AreNextCaptured, IsFullOrLast};
ghost use Rattle.meta_regex.specs.Regexes.{IsMadeOf as IsEngineMadeOf};
ghost use Rattle.captures.specs.Groups.{AreGroupsOf};
ghost use Rattle.captures.specs.Replacing.{IsReplaced, IsReplacementFor, Said};
ghost use Rattle.ffi_core.specs.Compiled.{IsMadeOf, IsNewError, config_by};
ghost use Rattle.ffi_core.specs.Options.{options_of};
ghost use Rattle.ffi_core.specs.Groups.{FindsGroups, IsGroupCount, IsGroupName, IsGroupSearchError};
ghost use Rattle.ffi_core.specs.Replacing.{said_by};

use crate::failure::NewError;
use crate::groups::{copied_groups, prepared_groups, write_name};
use crate::options::Options;
use crate::replacing::replacement_of;
use captures::{CapturesError, Groups, Replacement};
use group_finder::clear;
use meta_regex::{Cache, FoundMatch, Regex, SearchError};
use std::alloc::{AllocError, Global};
use std::marker::Model;
use std::sync::Arc;

/// A regex made from patterns, the cache of its searches, and the groups of its patterns. Handles that were cloned share the regex.
#[derive(Drop)]
pub struct Compiled {
    regex: Arc<Regex>,
    cache: Cache,
    options: Options,
    groups: Groups,
}

impl Model for Compiled {
    ghost use Rattle.std.specs.Prelude.{◌≡◌};
    ghost use Rattle.meta_regex.specs.Caches.{IsCacheOf};
    ghost use Rattle.captures.specs.Groups.{AreGroupsOf};
    ghost use Rattle.ffi_core.specs.Compiled.{Regexed};
    ghost use Rattle.ffi_core.specs.Options.{options_of};

    ghost Value = { Regexed };

    ghost view = { λ c. record { options = c.options; texts = c.regex.value.texts; loops = c.regex.value.loops } };

    ghost invariant = { λ c. (c.regex.value.options ≡ options_of c.options) × IsCacheOf c.regex.value c.cache
        × AreGroupsOf c.regex.value.options c.regex.value.texts c.groups };
}

/// A new cache. The automaton that reports which patterns match is made at once if the options ask for it.
fn cache_of(alloc: Global, regex: &Regex, options: &Options) -> Result<Cache, AllocError>
    ensures { IfOk result (IsCacheOf regex.now) }
{
    let mut cache = regex.create_cache(alloc)?;
    if !options.asks_which() {
        return Ok(cache);
    }
    regex.prepare_matching_patterns(alloc, &mut cache);
    Ok(cache)
}

/// A regex of patterns, which handles can share.
fn regex_of(alloc: Global, texts: &[&str], options: &Options) -> Result<Arc<Regex>, NewError>
    ensures made { IfOk result (λ r. IsEngineMadeOf (options_of options.now) (map (λ t. t.now) texts.now) r.value) }
    ensures refused { IfErr result (IsNewError options.now (map (λ t. t.now) texts.now)) }
{
    let regex = match Regex::new(alloc, texts, &options.options()) {
        Ok(regex) => regex,
        Err(e) => return Err(NewError::of(e)),
    };
    match Arc::new(alloc, regex) {
        Ok(regex) => Ok(regex),
        Err(_) => Err(NewError::NoMemory),
    }
}

/// A handle of a regex and of its groups, with a new cache.
fn handle_of(
    alloc: Global,
    regex: Arc<Regex>,
    groups: Groups,
    options: &Options,
) -> Result<Compiled, AllocError>
    requires options { regex.value.options ≡ options_of options.now }
    requires groups { AreGroupsOf (options_of options.now) regex.value.texts groups }
    ensures { IfOk result (λ v. v ≡ record { options = options.now; texts = regex.value.texts; loops = regex.value.loops }) }
{
    let cache = cache_of(alloc, &regex, options)?;
    Ok(Compiled {
        regex,
        cache,
        options: *options,
        groups,
    })
}

impl Compiled {
    /// Makes a regex from patterns. Of matches that start at the same offset, the one of the earlier pattern is preferred.
    ///
    /// The automaton that reports which patterns match is made at once if the options ask for it, and else when a call first needs it. So is
    /// what finds the groups of matches.
    pub fn new(alloc: Global, texts: &[&str], options: &Options) -> Result<Compiled, NewError>
        ensures made { IfOk result (IsMadeOf options.now (map (λ t. t.now) texts.now)) }
        ensures refused { IfErr result (IsNewError options.now (map (λ t. t.now) texts.now)) }
    {
        if !options.is_known() {
            return Err(NewError::BadArgument);
        }
        let regex = match regex_of(alloc, texts, options) {
            Ok(regex) => regex,
            Err(e) => return Err(e),
        };
        let groups = match prepared_groups(alloc, texts, options) {
            Ok(groups) => groups,
            Err(e) => return Err(e),
        };
        match handle_of(alloc, regex, groups, options) {
            Ok(compiled) => Ok(compiled),
            Err(_) => Err(NewError::NoMemory),
        }
    }

    /// A second handle of the same regex, with a cache of its own, and its own finders of groups. Both share the regex, so no pattern is
    /// parsed.
    pub fn try_clone(&self, alloc: Global) -> Result<Compiled, AllocError>
        ensures { IfOk result (λ v. v ≡ self.now) }
    {
        let groups = copied_groups(alloc, &self.groups, &self.options)?;
        let regex = Arc::try_clone(&self.regex)?;
        handle_of(alloc, regex, groups, &self.options)
    }

    /// The number of its patterns.
    pub fn pattern_count(&self) -> usize
        ensures { result ≡ length self.now.texts }
    {
        self.regex.pattern_count()
    }

    /// How often the caches of its automata were cleared, also those that larger ones have replaced. The greatest number stands for any number
    /// above it.
    pub fn clear_count(&self) -> usize {
        self.cache.clear_count()
    }

    /// The bytes that the caches of its automata are estimated to need, and what finds groups, as [`Groups`] counts it.
    pub fn memory_usage(&self) -> usize {
        self.cache
            .memory_usage()
            .saturating_add(self.groups.memory_usage())
    }

    /// The number of groups of the pattern with a number, group 0 counted. 0 if there is no such pattern.
    pub fn group_count(&self, pattern: usize) -> usize
        ensures { IsGroupCount self.now pattern result }
    {
        match self.groups.group_count(pattern) {
            Some(count) => count,
            None => 0,
        }
    }

    /// Writes the name of a group of the pattern with a number into the room, as far as it fits. Returns the length of the name in bytes, or 0
    /// if there is no such group or it has no name.
    pub fn write_group_name(&self, pattern: usize, group: usize, room: &mut [u8]) -> usize
        ensures { IsGroupName self.now pattern group room.old room.new result }
    {
        write_name(self.groups.group_name(pattern, group), room)
    }

    /// The leftmost match from an offset on, and of several that start there the preferred one. Look-around assertions see what precedes
    /// the offset.
    pub fn find_at(
        &mut self,
        alloc: Global,
        haystack: &[u8],
        from: usize,
    ) -> Result<Option<FoundMatch>, SearchError>
        requires within { from ≤ length haystack.now }
        ensures same { self.new ≡ self.old }
        ensures finds { FindsFrom (config_by self.old) self.old.texts self.old.loops haystack.now from result }
    {
        self.regex.find_at(alloc, &mut self.cache, haystack, from)
    }

    /// The match that [`captures_at`](Compiled::captures_at) finds, by what goes with the regex.
    #[inline]
    fn find_groups(
        &mut self,
        alloc: Global,
        haystack: &[u8],
        from: usize,
        slots: &mut [usize],
    ) -> Result<Option<FoundMatch>, CapturesError>
        requires within { from ≤ length haystack.now }
        ensures same { self.new ≡ self.old }
        ensures finds { FindsGroups self.old haystack.now from slots.old slots.new result }
    {
        self.groups
            .captures_at(alloc, &self.regex, &mut self.cache, haystack, from, slots)
    }

    /// The leftmost match from an offset on, and of several that start there the preferred one, whatever loops consume. Look-around assertions
    /// see what precedes the offset.
    ///
    /// `slots` get the offsets of the groups of the match: the start and end of group n in the slots 2n and 2n + 1, or
    /// [`NO_OFFSET`](crate::NO_OFFSET) in both if it took no part. Group 0 is the match. Slots after the last group of the pattern get that
    /// too, as do all slots if there is no match or if the search fails.
    pub fn captures_at(
        &mut self,
        alloc: Global,
        haystack: &[u8],
        from: usize,
        slots: &mut [usize],
    ) -> Result<Option<FoundMatch>, CapturesError>
        requires within { from ≤ length haystack.now }
        ensures same { self.new ≡ self.old }
        ensures finds { FindsGroups self.old haystack.now from slots.old slots.new result }
        ensures none { IfOk result (λ o. IfNone o (slots.new ≡ replicate (length slots.old) no_offset)) }
    {
        match self.find_groups(alloc, haystack, from, slots) {
            Ok(Some(found)) => Ok(Some(found)),
            Ok(None) => {
                clear(slots);
                Ok(None)
            }
            Err(error) => Err(error),
        }
    }

    /// Whether there is a match.
    pub fn is_match(&mut self, alloc: Global, haystack: &[u8]) -> Result<bool, SearchError>
        ensures same { self.new ≡ self.old }
        ensures reports { ReportsAnyMatch (config_by self.old) self.old.texts haystack.now result }
    {
        self.regex.is_match(alloc, &mut self.cache, haystack)
    }

    /// Writes the first of all matches, from left to right, into the rows, as many as these have room for. Returns how many matches there
    /// are in all. On an error, the number counts the matches that were found before the search that failed, and these are written as far
    /// as there is room.
    pub fn find_all(
        &mut self,
        alloc: Global,
        haystack: &[u8],
        rows: &mut [FoundMatch],
    ) -> (usize, Result<(), SearchError>)
        ensures same { self.new ≡ self.old }
        ensures lists { ListsAll (config_by self.old) self.old.texts self.old.loops haystack.now rows.old rows.new result }
    {
        self.regex.find_all(alloc, &mut self.cache, haystack, rows)
    }

    /// All matches with their groups, by what goes with the regex. Writes the first of them into the rows, from left to right, as many as these
    /// have room for. Of each it writes `width` slots, as far as there is room. The slots of a match are those of
    /// [`captures_at`](Compiled::captures_at). Returns how many matches there are in all, whatever loops consume. On an error, the number counts
    /// the matches before the search that failed, and these are written as far as there is room. Slots after them are unchanged, or those of the
    /// next match hold no offset.
    pub fn captures_all(
        &mut self,
        alloc: Global,
        haystack: &[u8],
        rows: &mut [FoundMatch],
        slots: &mut [usize],
        width: usize,
    ) -> (usize, Result<(), CapturesError>)
        ensures same { self.new ≡ self.old }
        ensures all { IfOk result.1 (λ _. AreAll (config_by self.old) self.old.texts haystack.now result.0 rows.old rows.new) }
        ensures first { IfErr result.1 (λ _. AreFirstOfAll (config_by self.old) self.old.texts haystack.now result.0 rows.old rows.new) }
        ensures slots { IfOk result.1 (λ _. AreCaptured (config_by self.old) self.old.texts haystack.now width slots.old slots.new) }
        ensures begun { IfErr result.1
            (λ _. AreFirstCaptured (config_by self.old) self.old.texts haystack.now width result.0 slots.old slots.new) }
        ensures refused { IfErr result.1 (IsGroupSearchError self.old haystack.now) }
    {
        self.groups.captures_all(
            alloc,
            &self.regex,
            &mut self.cache,
            haystack,
            rows,
            slots,
            width,
        )
    }

    /// The next matches from an offset on, with their groups, as many as there are rows. Each is the leftmost one from where the one before it
    /// ends, or from the next offset if that one is empty. There is no match after the end of the haystack. Writes `width` slots of each, as
    /// far as there is room, as [`captures_all`](Compiled::captures_all) does. Returns how many matches there are. `from` is then the offset
    /// from which the next call goes on. If there are fewer matches than rows, no match follows. On an error, the number counts the matches
    /// before the search that failed, and `from` is where that search begins. Slots after these matches are unchanged, or those of the next
    /// match hold no offset.
    pub fn captures_next(
        &mut self,
        alloc: Global,
        haystack: &[u8],
        from: &mut usize,
        rows: &mut [FoundMatch],
        slots: &mut [usize],
        width: usize,
    ) -> (usize, Result<(), CapturesError>)
        ensures same { self.new ≡ self.old }
        ensures next { AreNext (config_by self.old) self.old.texts haystack.now from.old result.0 from.new rows.old rows.new }
        ensures all { IfOk result.1
            (λ _. IsFullOrLast (config_by self.old) self.old.texts haystack.now (length rows.old) result.0 from.new) }
        ensures slots { IfOk result.1
            (λ _. AreNextCaptured (config_by self.old) self.old.texts haystack.now from.old width result.0 slots.old slots.new) }
        ensures begun { IfErr result.1
            (λ _. AreNextBegun (config_by self.old) self.old.texts haystack.now from.old width result.0 slots.old slots.new) }
        ensures refused { IfErr result.1 (IsGroupSearchError self.old haystack.now) }
    {
        self.groups.captures_next(
            alloc,
            &self.regex,
            &mut self.cache,
            haystack,
            from,
            rows,
            slots,
            width,
        )
    }

    /// A replacement for the patterns of the regex: bytes that are written as they are, or a template.
    pub(crate) fn replacement(
        &self,
        alloc: Global,
        replacement: &[u8],
        is_literal: bool,
    ) -> Result<Replacement, AllocError>
        ensures { IfOk result (IsReplacementFor (config_by self.now) self.now.texts (said_by (config_by self.now) is_literal replacement.now)) }
    {
        replacement_of(alloc, &self.groups, replacement, is_literal)
    }

    /// Appends to an output the haystack with its first matches replaced, and returns how many were: as many as `limit` at most, or all if that
    /// is 0. If the call fails, the output is as it was.
    pub(crate) fn append_replaced(
        &mut self,
        alloc: Global,
        haystack: &[u8],
        replacement: &Replacement,
        limit: usize,
        output: &mut Vec<u8>,
    ) -> Result<usize, CapturesError>
        ensures same { self.new ≡ self.old }
        ensures replaced { (said : Said) → IsReplacementFor (config_by self.old) self.old.texts said replacement.now → IfOk result
            (IsReplaced (config_by self.old) self.old.texts haystack.now said limit output.old.items output.new.items) }
        ensures refused { IfErr result (IsGroupSearchError self.old haystack.now) }
    {
        self.groups.replacen(
            alloc,
            &self.regex,
            &mut self.cache,
            haystack,
            replacement,
            limit,
            output,
        )
    }

    /// For each pattern, writes 1 at its index if it matches anywhere, and 0 if it doesn't. Returns how many patterns match. There has to
    /// be one mark for each pattern. On an error all marks are 0.
    pub fn matching_patterns(
        &mut self,
        alloc: Global,
        haystack: &[u8],
        marks: &mut [u8],
    ) -> Result<usize, SearchError>
        ensures same { self.new ≡ self.old }
        ensures marks { MarksWhich (config_by self.old) self.old.texts haystack.now marks.old marks.new result }
    {
        self.regex
            .matching_patterns(alloc, &mut self.cache, haystack, marks)
    }
}
