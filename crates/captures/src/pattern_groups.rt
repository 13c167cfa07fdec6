//! The groups of one pattern.
ghost use Rattle.std.specs.Prelude.{◌≡◌, ◌≤◌, ℕ, List, IfErr, IfOk, Some, false, length, replicate, true};
ghost use Rattle.regex_hir.specs.Re.{Re, Trace, accept, attempt};
ghost use Rattle.meta_regex.specs.declared.options.Options.{Options};
ghost use Rattle.group_finder.specs.Engines.{counted};
ghost use Rattle.group_finder.specs.Errors.{IsNewError, bytes_allowed};
ghost use Rattle.group_finder.specs.Slots.{no_offset, slots_of};
ghost use Rattle.group_finder.specs.Patterns.{IsParsedAs};
ghost use Rattle.group_finder.specs.Groups.{HasSlots};
ghost use Rattle.captures.specs.Errors.{IsCapturesError};
ghost use Rattle.captures.specs.Groups.{limit_of};
ghost use Rattle.captures.specs.Patterns.{IsPatternGroups, MakesFinder, pattern_bytes};

use crate::errors::{CapturesError, of_new};
use group_finder::{GroupFinder, GroupNames, NewError, clear};
use pattern_text::Config;
use std::alloc::Global;

/// A pattern, the names of its groups and, once a search needed it, what finds them.
#[derive(Drop)]
pub(crate) struct PatternGroups {
    pub(crate) text: String,
    pub(crate) names: GroupNames,
    pub(crate) finder: Option<GroupFinder>,
}

/// The groups of a pattern, without a finder.
pub(crate) fn groups_of(
    alloc: Global,
    text: &str,
    config: &Config,
) -> Result<PatternGroups, NewError>
    ensures made { IfOk result (IsPatternGroups config.now text.now) }
    ensures refused { (limit : ℕ) → IfErr result (IsNewError config.now text.now limit) }
{
    let names = match GroupNames::new(alloc, text, &config.options()) {
        Ok(names) => names,
        Err(error) => return Err(error),
    };
    let text = match String::from_str(alloc, text) {
        Ok(text) => text,
        Err(_) => return Err(NewError::NoMemory),
    };
    Ok(PatternGroups {
        text,
        names,
        finder: None,
    })
}

impl PatternGroups {
    /// The bytes of the pattern, and of what finds its groups.
    pub(crate) fn memory_usage(&self) -> usize
        ensures { result ≡ counted (pattern_bytes self.now) }
    {
        let usage = self.text.len();
        match &self.finder {
            Some(finder) => usage.saturating_add(finder.memory_usage()),
            None => usage,
        }
    }

    /// Makes the finder. It is a call of its own, since its frame is large and few searches need it.
    #[cold]
    #[inline(never)]
    fn make_finder(
        &mut self,
        alloc: Global,
        config: &Config,
        size_limit: usize,
    ) -> Result<(), NewError>
        ensures { MakesFinder config.now size_limit self.old self.new result }
    {
        let finder = match GroupFinder::new(
            alloc,
            self.text.as_str(),
            &config.options(),
            size_limit,
        ) {
            Ok(finder) => finder,
            Err(error) => return Err(error),
        };
        self.finder = Some(finder);
        Ok(())
    }

    /// Makes the finder, if there is none.
    #[inline(always)]
    pub(crate) fn prepare(
        &mut self,
        alloc: Global,
        config: &Config,
        size_limit: usize,
    ) -> Result<(), NewError>
        ensures { MakesFinder config.now size_limit self.old self.new result }
    {
        if self.finder.is_some() {
            return Ok(());
        }
        self.make_finder(alloc, config, size_limit)
    }

    /// Finds the match that the pattern has from an offset, and its slots, as [`GroupFinder::groups_at`] does.
    #[inline]
    pub(crate) fn slots_at(
        &mut self,
        alloc: Global,
        config: &Config,
        size_limit: usize,
        haystack: &[u8],
        start: usize,
        stop: usize,
        slots: &mut [usize],
    ) -> Result<Option<usize>, CapturesError>
        requires ordered { (start ≤ stop) × (stop ≤ length haystack.now) }
        ensures found { (text : List ℕ) (a : Re) → IsPatternGroups config.now text self.old → IsParsedAs config.now text a →
            (t : Trace) → attempt haystack.now a accept start ≡ Some t → t.end ≤ stop → IfOk result (λ o. HasSlots start t o slots.new) }
        ensures own { (text : List ℕ) → IsPatternGroups config.now text self.old → IsPatternGroups config.now text self.new }
        ensures cleared { IfErr result (λ _. slots.new ≡ replicate (length slots.old) no_offset) }
        ensures refused { (text : List ℕ) → IsPatternGroups config.now text self.old → (o : Options) → bytes_allowed size_limit ≡ limit_of o →
            (h : List ℕ) → IfErr result (IsCapturesError o h) }
    {
        match self.prepare(alloc, config, size_limit) {
            Ok(()) => {}
            Err(error) => {
                clear(slots);
                return Err(of_new(error));
            }
        }
        let Some(finder) = &mut self.finder else {
            clear(slots);
            return Ok(None);
        };
        match finder.groups_at(alloc, haystack, start, stop, slots) {
            Ok(end) => Ok(end),
            Err(_) => Err(CapturesError::NoMemory),
        }
    }

    /// Writes the slots of the match that the pattern has between two offsets, if what finds them is made and has a layout. Returns whether it
    /// does.
    #[inline(always)]
    pub(crate) fn write_by_layout(
        &self,
        haystack: &[u8],
        start: usize,
        end: usize,
        slots: &mut [usize],
    ) -> bool
        requires ordered { (start ≤ end) × (end ≤ length haystack.now) }
        ensures written { result ≡ true → (config : Config) (text : List ℕ) (a : Re) → IsPatternGroups config text self.now →
            IsParsedAs config text a → (t : Trace) → attempt haystack.now a accept start ≡ Some t → t.end ≡ end →
            slots.new ≡ slots_of (record { start = start; trace = t }) (length slots.old) }
        ensures kept { result ≡ false → slots.new ≡ slots.old }
    {
        match &self.finder {
            Some(finder) => finder.write_by_layout(haystack, start, end, slots),
            None => false,
        }
    }

    /// Writes the slots of the match that the pattern has between two offsets, as [`GroupFinder::groups_between`] does.
    #[inline]
    pub(crate) fn slots_between(
        &mut self,
        alloc: Global,
        config: &Config,
        size_limit: usize,
        haystack: &[u8],
        start: usize,
        end: usize,
        slots: &mut [usize],
    ) -> Result<(), CapturesError>
        requires ordered { (start ≤ end) × (end ≤ length haystack.now) }
        ensures written { (text : List ℕ) (a : Re) → IsPatternGroups config.now text self.old → IsParsedAs config.now text a →
            (t : Trace) → attempt haystack.now a accept start ≡ Some t → t.end ≡ end →
            IfOk result (λ _. slots.new ≡ slots_of (record { start = start; trace = t }) (length slots.old)) }
        ensures own { (text : List ℕ) → IsPatternGroups config.now text self.old → IsPatternGroups config.now text self.new }
        ensures cleared { IfErr result (λ _. slots.new ≡ replicate (length slots.old) no_offset) }
        ensures refused { (text : List ℕ) → IsPatternGroups config.now text self.old → (o : Options) → bytes_allowed size_limit ≡ limit_of o →
            (h : List ℕ) → IfErr result (IsCapturesError o h) }
    {
        match self.prepare(alloc, config, size_limit) {
            Ok(()) => {}
            Err(error) => {
                clear(slots);
                return Err(of_new(error));
            }
        }
        let Some(finder) = &mut self.finder else {
            clear(slots);
            return Err(CapturesError::NoMemory);
        };
        match finder.groups_between(alloc, haystack, start, end, slots) {
            Ok(()) => Ok(()),
            Err(_) => Err(CapturesError::NoMemory),
        }
    }
}
