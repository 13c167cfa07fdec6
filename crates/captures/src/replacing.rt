//! Replacing matches.
ghost use Rattle.std.specs.Prelude.{◌≡◌, ◌+◌, ◌*◌, ◌≤◌, ◌==◌, ◌++◌, ℕ, List, IfErr, IfOk, OnErr, OnOk, Some, if◌then◌else◌, length, min, slice_range, true};
ghost use Rattle.std.specs.Prelude.{◌<◌, ◌^◌};
ghost use Rattle.regex_hir.specs.Re.{Re, accept, attempt};
ghost use Rattle.regex_hir.specs.Meaning.{alt_all};
ghost use Rattle.regex_hir.specs.Find.{Match};
ghost use Rattle.search_core.specs.Utf8.{IsValidText};
ghost use Rattle.pattern_search.specs.Searches.{span_of_match, IsOfFirstPattern};
ghost use Rattle.pattern_search.specs.Texts.{AreReadAs};
ghost use Rattle.meta_regex.specs.Caches.{IsCacheOf};
ghost use Rattle.meta_regex.specs.Regexes.{as_found, config_by, span_of_row};
ghost use Rattle.meta_regex.specs.declared.options.Options.{Options};
ghost use Rattle.captures.specs.Errors.{IsCapturesError};
ghost use Rattle.captures.specs.Replacing.{ComesNext, Continues, IsReplaced, IsReplacementFor, Said, written_for};

use crate::errors::CapturesError;
use crate::groups::Groups;
use crate::replacement::Replacement;
use meta_regex::{Cache, FoundMatch, Regex};
use std::alloc::{AllocError, Global};
use templates::bytes_between;

/// Slots of so many groups.
fn slots_for(alloc: Global, groups: usize) -> Result<Vec<usize>, AllocError>
    ensures { IfOk result (λ v. length v.items ≡ 2 * groups) }
{
    let Some(width) = groups.checked_mul(2) else {
        return Err(AllocError);
    };
    let mut slots = Vec::new(alloc);
    slots.resize(width, 0)?;
    Ok(slots)
}

/// How many matches are replaced at most, in a haystack of this length.
pub(crate) fn most_matches(limit: usize, len: usize) -> usize
    requires { len < 2 ^ 63 }
    ensures { result ≡ (if limit == 0 then len + 1 else min limit (len + 1)) }
{
    if limit == 0 {
        len + 1
    } else {
        limit.min(len + 1)
    }
}

/// Appends the bytes of the haystack from one offset to another.
fn append_between(
    haystack: &[u8],
    start: usize,
    end: usize,
    output: &mut Vec<u8>,
) -> Result<(), AllocError>
    ensures appended { OnOk result (output.new.items ≡ output.old.items ++ slice_range haystack.now start end) }
    ensures kept { OnErr result (output.new.items ≡ output.old.items) }
{
    output.extend_from_slice(bytes_between(haystack, start, end))
}

impl Groups {
    ghost use Rattle.captures.specs.Groups.{AreGroupsOf};
    ghost use Rattle.captures.specs.Promises.{FindsMatch, KeepsGroups, ReplacesMatches};

    /// The first match, or the one that follows a match with this end.
    pub(crate) fn find_after(
        &mut self,
        alloc: Global,
        regex: &Regex,
        cache: &mut Cache,
        haystack: &[u8],
        last: Option<usize>,
    ) -> Result<Option<FoundMatch>, CapturesError>
        requires own { IsCacheOf regex.now cache.old }
        requires groups { AreGroupsOf regex.now.options regex.now.texts self.old }
        requires valid { (config_by regex.now).utf8 ≡ true → IsValidText haystack.now }
        ensures { FindsMatch regex.now cache.new self.new haystack.now (ComesNext (config_by regex.now) regex.now.texts haystack.now last) result }
    {
        match last {
            None => self.find(alloc, regex, cache, haystack, 0),
            Some(end) => self.find_next(alloc, regex, cache, haystack, end),
        }
    }

    /// Appends what a replacement says of a match that was found.
    fn append_replaced(
        &mut self,
        alloc: Global,
        haystack: &[u8],
        found: FoundMatch,
        replacement: &Replacement,
        slots: &mut [usize],
        output: &mut Vec<u8>,
    ) -> Result<(), CapturesError>
        requires { length slots.old ≡ 2 * replacement.now.groups }
        ensures appended { (o : Options) (texts : List (List ℕ)) → AreGroupsOf o texts self.old → (said : Said) →
            IsReplacementFor o.syntax texts said replacement.now → (res : List Re) → AreReadAs o.syntax texts res →
            IsOfFirstPattern res haystack.now (as_found found) → (m : Match) → span_of_match m ≡ span_of_row found →
            m.start ≤ length haystack.now → attempt haystack.now (alt_all res) accept m.start ≡ Some m.trace →
            OnOk result (output.new.items ≡ output.old.items ++ written_for texts res haystack.now said m) }
        ensures longer { Continues output.old.items output.new.items }
        ensures keeps { KeepsGroups self.old self.new result }
    {
        match self.write_slots(alloc, haystack, found, slots) {
            Ok(()) => {}
            Err(error) => return Err(error),
        }
        if found.pattern >= replacement.templates.len() {
            return Ok(());
        }
        match replacement.templates[found.pattern].append(haystack, slots, output) {
            Ok(()) => Ok(()),
            Err(_) => Err(CapturesError::NoMemory),
        }
    }

    /// Appends the haystack with its first matches replaced. After an error, a part of that may be appended.
    fn replace_matches(
        &mut self,
        alloc: Global,
        regex: &Regex,
        cache: &mut Cache,
        haystack: &[u8],
        replacement: &Replacement,
        limit: usize,
        slots: &mut [usize],
        output: &mut Vec<u8>,
    ) -> Result<usize, CapturesError>
        requires own { IsCacheOf regex.now cache.old }
        requires groups { AreGroupsOf regex.now.options regex.now.texts self.old }
        requires valid { (config_by regex.now).utf8 ≡ true → IsValidText haystack.now }
        requires width { length slots.old ≡ 2 * replacement.now.groups }
        ensures own { IsCacheOf regex.now cache.new }
        ensures groups { AreGroupsOf regex.now.options regex.now.texts self.new }
        ensures replaced { (said : Said) → IsReplacementFor (config_by regex.now) regex.now.texts said replacement.now →
            IfOk result (IsReplaced (config_by regex.now) regex.now.texts haystack.now said limit output.old.items output.new.items) }
        ensures longer { Continues output.old.items output.new.items }
        ensures refused { IfErr result (IsCapturesError regex.now.options haystack.now) }
    {
        let most = most_matches(limit, haystack.len());
        let mut last: Option<usize> = None;
        for count in 0..most {
            let next = match self.find_after(alloc, regex, cache, haystack, last) {
                Ok(next) => next,
                Err(error) => return Err(error),
            };
            let Some(found) = next else {
                match append_between(haystack, last.unwrap_or(0), haystack.len(), output) {
                    Ok(()) => {}
                    Err(_) => return Err(CapturesError::NoMemory),
                }
                return Ok(count);
            };
            match append_between(haystack, last.unwrap_or(0), found.start, output) {
                Ok(()) => {}
                Err(_) => return Err(CapturesError::NoMemory),
            }
            match self.append_replaced(alloc, haystack, found, replacement, slots, output) {
                Ok(()) => {}
                Err(error) => return Err(error),
            }
            last = Some(found.end);
        }
        match append_between(haystack, last.unwrap_or(0), haystack.len(), output) {
            Ok(()) => Ok(most),
            Err(_) => Err(CapturesError::NoMemory),
        }
    }

    /// Appends the haystack with its first matches replaced, and nothing after an error.
    fn replace_checked(
        &mut self,
        alloc: Global,
        regex: &Regex,
        cache: &mut Cache,
        haystack: &[u8],
        replacement: &Replacement,
        limit: usize,
        output: &mut Vec<u8>,
    ) -> Result<usize, CapturesError>
        requires own { IsCacheOf regex.now cache.old }
        requires groups { AreGroupsOf regex.now.options regex.now.texts self.old }
        requires valid { (config_by regex.now).utf8 ≡ true → IsValidText haystack.now }
        ensures { ReplacesMatches regex.now cache.new self.new haystack.now replacement.now limit output.old.items output.new.items result }
    {
        let mut slots = match slots_for(alloc, replacement.groups) {
            Ok(slots) => slots,
            Err(_) => return Err(CapturesError::NoMemory),
        };
        let before = output.len();
        match self.replace_matches(
            alloc,
            regex,
            cache,
            haystack,
            replacement,
            limit,
            &mut slots,
            output,
        ) {
            Ok(count) => Ok(count),
            Err(error) => {
                output.truncate(before);
                Err(error)
            }
        }
    }

    /// Appends to an output the haystack with its first matches replaced, and returns how many were: as many as `limit` at most, or all if that is
    /// 0. The matches are those that the toolchain's matcher finds, whatever loops consume. An empty match next to the one before it is skipped.
    ///
    /// If the call fails, the output is as it was.
    pub fn replacen(
        &mut self,
        alloc: Global,
        regex: &Regex,
        cache: &mut Cache,
        haystack: &[u8],
        replacement: &Replacement,
        limit: usize,
        output: &mut Vec<u8>,
    ) -> Result<usize, CapturesError>
        requires own { IsCacheOf regex.now cache.old }
        requires groups { AreGroupsOf regex.now.options regex.now.texts self.old }
        ensures { ReplacesMatches regex.now cache.new self.new haystack.now replacement.now limit output.old.items output.new.items result }
    {
        match regex.check(haystack) {
            Ok(()) => {}
            Err(error) => return Err(CapturesError::Search(error)),
        }
        self.replace_checked(alloc, regex, cache, haystack, replacement, limit, output)
    }

    /// Appends to an output the haystack with all matches replaced, as [`replacen`](Groups::replacen) does.
    pub fn replace_all(
        &mut self,
        alloc: Global,
        regex: &Regex,
        cache: &mut Cache,
        haystack: &[u8],
        replacement: &Replacement,
        output: &mut Vec<u8>,
    ) -> Result<usize, CapturesError>
        requires own { IsCacheOf regex.now cache.old }
        requires groups { AreGroupsOf regex.now.options regex.now.texts self.old }
        ensures { ReplacesMatches regex.now cache.new self.new haystack.now replacement.now 0 output.old.items output.new.items result }
    {
        self.replacen(alloc, regex, cache, haystack, replacement, 0, output)
    }

    /// Appends to an output the haystack with its first match replaced, as [`replacen`](Groups::replacen) does.
    pub fn replace(
        &mut self,
        alloc: Global,
        regex: &Regex,
        cache: &mut Cache,
        haystack: &[u8],
        replacement: &Replacement,
        output: &mut Vec<u8>,
    ) -> Result<usize, CapturesError>
        requires own { IsCacheOf regex.now cache.old }
        requires groups { AreGroupsOf regex.now.options regex.now.texts self.old }
        ensures { ReplacesMatches regex.now cache.new self.new haystack.now replacement.now 1 output.old.items output.new.items result }
    {
        self.replacen(alloc, regex, cache, haystack, replacement, 1, output)
    }
}
