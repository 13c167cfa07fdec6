//! The groups of patterns: their names, and which pattern a match is of.
ghost use Rattle.std.specs.Prelude.{◌≡◌, ◌<◌, ◌≤◌, ◌*◌, ℕ, List, IfOk, IfSome, is_some, length, map, slice_get, true};
ghost use Rattle.regex_hir.specs.Re.{Re, accept, attempt};
ghost use Rattle.pattern_search.specs.Texts.{AreReadAs};
ghost use Rattle.line_search.specs.Bounded.{line_pattern};
ghost use Rattle.templates.specs.Expansion.{names_in};
ghost use Rattle.line_search.specs.Meant.{line_config};
ghost use Rattle.line_search.specs.Replacing.{all_names, most_groups, pattern_at};

use crate::fallback::programs_of;
use crate::fault::Fault;
use crate::patterns::{PatternOptions, config_of};
use group_finder::GroupNames;
use pattern_fallback::number_at;
use regex_meta::Program;
use std::alloc::Global;
use std::marker::Model;

/// The greatest size in bytes of a program that finds groups.
pub(crate) const GROUPS_SIZE_LIMIT: usize = 1 << 28;

/// The names of the groups of patterns. If there are several patterns, there is also a program of each, which reports whether a match is of this
/// pattern.
#[derive(Drop)]
pub(crate) struct PatternGroups<'t> {
    texts: &'t [&'t str],
    how: PatternOptions,
    names: Vec<GroupNames>,
    each: Vec<Box<Program>>,
}

impl<'t> Model for PatternGroups<'t> {
    ghost use Rattle.std.specs.Prelude.{◌≡◌, ℕ, List, map};
    ghost use Rattle.line_search.specs.Fallbacks.{AreProgramsOf};
    ghost use Rattle.line_search.specs.Replacing.{all_names};
    ghost use Rattle.line_search.specs.declared.patterns.PatternOptions.{PatternOptions};

    ghost Value = { PatternOptions × List (List ℕ) };

    ghost view = { λ g. (g.how, map (λ t. t.now) g.texts.now) };

    ghost invariant = { λ g. (g.names.items ≡ all_names g.how (map (λ t. t.now) g.texts.now))
        × AreProgramsOf g.how (map (λ t. t.now) g.texts.now) g.each.items };
}

/// The names of the groups of a pattern.
fn names_of(alloc: Global, how: &PatternOptions, text: &str) -> Result<GroupNames, Fault>
    ensures { IfOk result (λ names. names ≡ names_in (line_config how.now) text.now) }
{
    match GroupNames::new(alloc, text, &config_of(how).options()) {
        Ok(names) => Ok(names),
        Err(_) => Err(Fault::NoMemory),
    }
}

/// The names of the groups of each pattern.
fn all_names(alloc: Global, how: &PatternOptions, texts: &[&str]) -> Result<Vec<GroupNames>, Fault>
    ensures { IfOk result (λ v. v.items ≡ all_names how.now (map (λ t. t.now) texts.now)) }
{
    let mut all = Vec::new(alloc);
    for text in texts {
        let names = match names_of(alloc, how, text) {
            Ok(names) => names,
            Err(e) => return Err(e),
        };
        match all.push(names) {
            Ok(()) => {}
            Err(_) => return Err(Fault::NoMemory),
        }
    }
    Ok(all)
}

impl<'t> PatternGroups<'t> {
    /// The groups of these patterns.
    pub(crate) fn new(
        alloc: Global,
        texts: &'t [&'t str],
        how: &PatternOptions,
    ) -> Result<PatternGroups<'t>, Fault>
        ensures { IfOk result (λ g. g ≡ (how.now, map (λ t. t.now) texts.now)) }
    {
        let names = match all_names(alloc, how, texts) {
            Ok(names) => names,
            Err(e) => return Err(e),
        };
        let each = match programs_of(alloc, how, texts, GROUPS_SIZE_LIMIT) {
            Ok(each) => each,
            Err(e) => return Err(e),
        };
        Ok(PatternGroups {
            texts,
            how: *how,
            names,
            each,
        })
    }

    /// The greatest number of groups that one of the patterns has, with group 0.
    pub(crate) fn most_groups(&self) -> usize
        ensures { result ≡ most_groups (all_names self.now.0 self.now.1) }
    {
        let mut most = 0;
        for i in (0..self.names.len()).rev() {
            most = most.max(self.names[i].group_count());
        }
        most
    }

    /// The number of the first pattern that has a match at an offset, if one has.
    pub(crate) fn number_at(&self, alloc: Global, line: &[u8], start: usize) -> Result<usize, Fault>
        requires { start ≤ length line.now }
        ensures { IfOk result (λ k. (res : List Re) → AreReadAs (line_config self.now.0) self.now.1 res →
            is_some (attempt line.now (line_pattern self.now.0 res) accept start) ≡ true → k ≡ pattern_at self.now.0 res line.now start) }
    {
        let number = number_at(alloc, &self.each, line, start)?;
        Ok(number)
    }

    /// The names of the groups of the pattern with this number.
    pub(crate) fn names(&self, number: usize) -> Option<&GroupNames>
        ensures { IfSome result (λ names. slice_get (all_names self.now.0 self.now.1) number ≡ Some names.now) }
    {
        self.names.get(number)
    }
}
