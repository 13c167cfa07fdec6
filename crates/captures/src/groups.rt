//! The groups of the patterns of a regex.
ghost use Rattle.std.specs.Prelude.{◌≡◌, ◌<◌, ◌++◌, ◌∷◌, [], ℕ, List, Some, None, IfErr, IfOk, OnOk, length, map, option_map, slice_get};
ghost use Rattle.meta_regex.specs.declared.options.Options.{Options as RegexOptions};
ghost use Rattle.regex_syntax.specs.Grammar.{Names};
ghost use Rattle.group_finder.specs.Patterns.{IsNamedBy, name_at};
ghost use Rattle.group_finder.specs.Engines.{counted};
ghost use Rattle.captures.specs.Errors.{IsGroupsError};
ghost use Rattle.captures.specs.Patterns.{ArePatternGroups, all_bytes};

use crate::pattern_groups::{PatternGroups, groups_of};
use group_finder::NewError;
use meta_regex::Options;
use pattern_text::Config;
use std::alloc::{AllocError, Global};

/// How many bytes the automaton of a pattern may take if the options set no limit: 16 GiB.
const MOST: usize = 1 << 34;

/// The groups of the patterns of a regex, and what finds them. It is usable only with a regex of the same patterns and options.
///
/// What finds the groups of a pattern is made once a search needs it, or by [`prepare`](Groups::prepare).
#[derive(Drop)]
pub struct Groups {
    pub(crate) patterns: Vec<PatternGroups>,
    pub(crate) syntax: Config,
    pub(crate) size_limit: usize,
}

fn push(groups: &mut Vec<PatternGroups>, group: PatternGroups) -> Result<(), AllocError>
    ensures { OnOk result (groups.new.items ≡ groups.old.items ++ group ∷ []) }
{
    groups.push(group)?;
    Ok(())
}

/// The groups of patterns, without finders.
fn all_groups_of(
    alloc: Global,
    texts: &[&str],
    config: &Config,
) -> Result<Vec<PatternGroups>, NewError>
    ensures made { IfOk result (λ ps. ArePatternGroups config.now (map (λ t. t.now) texts.now) ps.items) }
    ensures refused { IfErr result (IsGroupsError config.now (map (λ t. t.now) texts.now)) }
{
    let mut groups = Vec::new(alloc);
    for text in texts {
        let group = match groups_of(alloc, text, config) {
            Ok(group) => group,
            Err(error) => return Err(error),
        };
        match push(&mut groups, group) {
            Ok(()) => {}
            Err(_) => return Err(NewError::NoMemory),
        }
    }
    Ok(groups)
}

impl Groups {
    ghost use Rattle.captures.specs.Groups.{AreGroupsOf, IsPrepared};
    ghost use Rattle.captures.specs.Promises.{Prepares};

    /// The groups of patterns, without what finds them.
    pub fn new(alloc: Global, texts: &[&str], options: &Options) -> Result<Groups, NewError>
        ensures made { IfOk result (AreGroupsOf options.now (map (λ t. t.now) texts.now)) }
        ensures refused { IfErr result (IsGroupsError options.now.syntax (map (λ t. t.now) texts.now)) }
    {
        let patterns = match all_groups_of(alloc, texts, &options.syntax) {
            Ok(patterns) => patterns,
            Err(error) => return Err(error),
        };
        Ok(Groups {
            patterns,
            syntax: options.syntax,
            size_limit: options.size_limit.unwrap_or(MOST),
        })
    }

    /// Makes what finds the groups of all patterns. Otherwise a search makes it for the pattern of its match. After an error, what was made
    /// stays.
    pub fn prepare(&mut self, alloc: Global) -> Result<(), NewError>
        ensures { Prepares self.old self.new ((n : ℕ) → IsPrepared self.new n) result }
    {
        for pattern in 0..self.patterns.len() {
            match self.prepare_one(alloc, pattern) {
                Ok(()) => {}
                Err(error) => return Err(error),
            }
        }
        Ok(())
    }

    /// Makes what finds the groups of one pattern.
    fn prepare_one(&mut self, alloc: Global, pattern: usize) -> Result<(), NewError>
        requires { pattern < length self.old.patterns.items }
        ensures prepares { Prepares self.old self.new (IsPrepared self.new pattern) result }
        ensures same { length self.new.patterns.items ≡ length self.old.patterns.items }
    {
        self.patterns[pattern].prepare(alloc, &self.syntax, self.size_limit)
    }

    /// The bytes that are counted for the patterns: their own, and those of what finds their groups, as
    /// [`GroupFinder::memory_usage`](group_finder::GroupFinder::memory_usage) counts them. The greatest number stands for any number above
    /// it.
    pub fn memory_usage(&self) -> usize
        ensures { result ≡ counted (all_bytes self.now.patterns.items) }
    {
        let mut usage = 0usize;
        for pattern in 0..self.patterns.len() {
            usage = usage.saturating_add(self.patterns[pattern].memory_usage());
        }
        usage
    }

    /// The number of groups of a pattern, group 0 counted. None if there is no pattern of this number.
    pub fn group_count(&self, pattern: usize) -> Option<usize>
        ensures counted { (o : RegexOptions) (texts : List (List ℕ)) → AreGroupsOf o texts self.now → (text : List ℕ) (names : Names) →
            slice_get texts pattern ≡ Some text → IsNamedBy o.syntax text names → result ≡ Some (length names) }
        ensures none { (o : RegexOptions) (texts : List (List ℕ)) → AreGroupsOf o texts self.now → slice_get texts pattern ≡ None →
            result ≡ None }
    {
        if pattern >= self.patterns.len() {
            return None;
        }
        Some(self.patterns[pattern].names.group_count())
    }

    /// The name of a group of a pattern. None if there is no such group, or if it has no name.
    pub fn group_name(&self, pattern: usize, group: usize) -> Option<&str>
        ensures named { (o : RegexOptions) (texts : List (List ℕ)) → AreGroupsOf o texts self.now → (text : List ℕ) (names : Names) →
            slice_get texts pattern ≡ Some text → IsNamedBy o.syntax text names → option_map (λ t. t.now) result ≡ name_at names group }
        ensures none { (o : RegexOptions) (texts : List (List ℕ)) → AreGroupsOf o texts self.now → slice_get texts pattern ≡ None →
            result ≡ None }
    {
        if pattern >= self.patterns.len() {
            return None;
        }
        self.patterns[pattern].names.group_name(group)
    }
}
