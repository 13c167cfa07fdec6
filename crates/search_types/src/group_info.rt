ghost use Rattle.std.specs.Prelude.{◌≡◌, ◌+◌, ◌*◌, ◌<◌, ◌≤◌, [], length, None, IfOk, MatchResult, MatchOption};
ghost use Rattle.std.specs.Option.{option_copied, option_map};
ghost use Rattle.search_core.specs.Index.{greatest_index};
ghost use Rattle.search_types.specs.Groups.{groups_of, to_index, to_name, slot, slot_len};
ghost use Rattle.search_types.specs.Groups.{implicit_slot_len, explicit_slot_len, all_group_len};
ghost use Rattle.search_types.specs.GroupFaults.{groups_in, names_fault, slots_fault, group_fault};
ghost use Rattle.search_types.specs.GroupPlaces.{all_named, starts_from};
ghost use Rattle.search_types.specs.GroupRefusals.{ReportsFaultOf};

use crate::broken_rules::{broken_rule, error_of};
use crate::group_info_error::GroupInfoError;
use crate::group_names::{GroupInfoAllNames, GroupInfoPatternNames};
use crate::pattern_groups::PatternGroups;
use search_core::{PatternID, SmallIndex};
use std::alloc::{AllocError, Global};
use std::marker::Model;

/// The capture groups of each pattern: their names and their slots. A contract sees the names of each
/// pattern's groups.
///
/// Each pattern has a first group, which is its whole match and has no name. Each group has two slots,
/// for the start and the end of its span. The slots of the first groups come first, pattern by pattern,
/// and then those of the other groups, the explicit ones. As `regex_automata::util::captures::GroupInfo`.
#[derive(Drop)]
pub struct GroupInfo {
    patterns: Vec<PatternGroups>,
    /// The first explicit slot of each pattern.
    starts: Vec<usize>,
    slot_len: SmallIndex,
}

impl Model for GroupInfo {
    ghost use Rattle.search_types.specs.Groups.{Groups};
    ghost use Rattle.search_types.specs.GroupPlaces.{IsLaidOut};

    ghost Value = { Groups };

    ghost view = { λ g. g.patterns.items };

    ghost invariant = { λ g. IsLaidOut g.patterns.items g.starts.items g.slot_len };
}

impl GroupInfo {
    /// Returns the groups of each pattern, by their names, if these break no rule. Otherwise the error
    /// reports the first rule that they break. `GroupInfoError::NoMemory` is possible if no rule is broken,
    /// and for a name that occurs twice, since it is copied into the error. Every other broken rule is
    /// reported however little memory there is.
    ///
    /// Each name is compared with those before it in its pattern, so the time is quadratic in their number.
    pub fn new(alloc: Global, groups: &[Vec<Option<String>>]) -> Result<GroupInfo, GroupInfoError>
        ensures { MatchResult result (λ g. (g ≡ groups_in groups.now) × (group_fault (groups_in groups.now) ≡ None))
            (λ e. ReportsFaultOf e (group_fault (groups_in groups.now))) }
    {
        if let Some(rule) = broken_rule(groups) {
            return Err(error_of(alloc, rule));
        }
        let patterns = take_patterns(alloc, groups)?;
        let (starts, slot_len) = lay_out(alloc, &patterns)?;
        Ok(GroupInfo {
            patterns,
            starts,
            slot_len,
        })
    }

    /// No patterns.
    pub fn empty(alloc: Global) -> GroupInfo
        ensures { result ≡ [] }
    {
        GroupInfo {
            patterns: Vec::new(alloc),
            starts: Vec::new(alloc),
            slot_len: SmallIndex::ZERO,
        }
    }

    /// A copy.
    pub fn try_clone(&self, alloc: Global) -> Result<GroupInfo, AllocError>
        ensures { IfOk result (λ g. g ≡ self.now) }
    {
        let patterns = clone_patterns(alloc, &self.patterns)?;
        let starts = self.starts.to_vec(alloc)?;
        Ok(GroupInfo {
            patterns,
            starts,
            slot_len: self.slot_len,
        })
    }

    /// The index of the group of a pattern with this name, if there is such a pattern and such a group.
    pub fn to_index(&self, pid: PatternID, name: &str) -> Option<usize>
        ensures value { result ≡ to_index self.now pid name.now }
    {
        match self.groups(pid) {
            Some(groups) => groups.index(name),
            None => None,
        }
    }

    /// The name of a group of a pattern, if there is such a group and it has one.
    pub fn to_name(&self, pid: PatternID, group_index: usize) -> Option<&str>
        ensures value { option_copied result ≡ to_name self.now pid group_index }
    {
        match self.groups(pid) {
            Some(groups) => groups.name(group_index),
            None => None,
        }
    }

    /// The names of a pattern's groups in order, `None` for a group without one. If there is no such pattern,
    /// there are none.
    pub fn pattern_names(&self, pid: PatternID) -> GroupInfoPatternNames<'_>
        ensures { result ≡ groups_of self.now pid }
    {
        GroupInfoPatternNames::new(self, pid)
    }

    /// The groups of all patterns, pattern by pattern: the pattern, the group's index and its name, if it
    /// has one.
    pub fn all_names(&self) -> GroupInfoAllNames<'_>
        ensures { result ≡ all_named self.now }
    {
        GroupInfoAllNames::new(self)
    }

    /// The two slots of a group of a pattern, if there is such a group.
    pub fn slots(&self, pid: PatternID, group_index: usize) -> Option<(usize, usize)>
        ensures { result ≡ option_map (λ first. (first, first + 1)) (slot self.now pid group_index) }
    {
        let first = self.slot(pid, group_index)?;
        Some((first, first + 1))
    }

    /// The first slot of a group of a pattern, if there is such a group. The second one comes next.
    pub fn slot(&self, pid: PatternID, group_index: usize) -> Option<usize>
        ensures value { result ≡ slot self.now pid group_index }
    {
        if group_index >= self.group_len(pid) {
            return None;
        }
        if group_index == 0 {
            return Some(pid.as_usize() * 2);
        }
        Some(self.starts[pid.as_usize()] + (group_index - 1) * 2)
    }

    /// The groups of a pattern, if there is such a pattern.
    #[tactic(auto, using(crate::proofs::GroupLemmas::groups_of_past, crate::proofs::GroupLemmas::groups_of_at))]
    fn groups(&self, pid: PatternID) -> Option<&PatternGroups>
        ensures in_range { slot_len self.now ≤ greatest_index }
        ensures value { MatchOption result (groups_of self.now pid ≡ []) (λ groups. groups.now ≡ groups_of self.now pid) }
    {
        self.patterns.get(pid.as_usize())
    }

    /// How many patterns there are.
    pub fn pattern_len(&self) -> usize
        ensures value { result ≡ length self.now }
        ensures in_range { result * 2 ≤ greatest_index }
    {
        self.patterns.len()
    }

    /// How many groups a pattern has, or 0 if there is no such pattern.
    #[tactic(auto, using(crate::proofs::GroupLemmas::group_len_in_slots))]
    pub fn group_len(&self, pid: PatternID) -> usize
        ensures value { result ≡ length (groups_of self.now pid) }
        ensures in_range { result * 2 ≤ greatest_index }
    {
        match self.groups(pid) {
            Some(groups) => groups.len(),
            None => 0,
        }
    }

    /// How many groups all patterns have.
    #[tactic(auto, using(crate::proofs::GroupLemmas::slots_twice))]
    pub fn all_group_len(&self) -> usize
        ensures value { result ≡ all_group_len self.now }
        ensures in_range { result * 2 ≤ greatest_index }
    {
        self.slot_len.as_usize() / 2
    }

    /// How many slots there are, two for each group.
    pub fn slot_len(&self) -> usize
        ensures value { result ≡ slot_len self.now }
        ensures in_range { result ≤ greatest_index }
    {
        self.slot_len.as_usize()
    }

    /// How many slots there are for the patterns' first groups. They come before all others.
    pub fn implicit_slot_len(&self) -> usize
        ensures value { result ≡ implicit_slot_len self.now }
        ensures in_range { result ≤ greatest_index }
    {
        self.pattern_len() * 2
    }

    /// How many slots there are for the other groups.
    pub fn explicit_slot_len(&self) -> usize
        ensures value { result ≡ explicit_slot_len self.now }
        ensures in_range { result ≤ greatest_index }
    {
        self.slot_len() - self.implicit_slot_len()
    }

    /// The groups break no rule.
    pub(crate) fn without_fault(&self)
        ensures { group_fault self.now ≡ None }
    {
        let _ = &self.slot_len;
    }
}

/// Takes the names of each pattern's groups, which break no rule.
fn take_patterns(
    alloc: Global,
    groups: &[Vec<Option<String>>],
) -> Result<Vec<PatternGroups>, AllocError>
    requires { names_fault 0 (groups_in groups.now) ≡ None }
    ensures { IfOk result (λ ps. ps.items ≡ groups_in groups.now) }
{
    let mut patterns = Vec::new(alloc);
    for names in groups {
        patterns.push(PatternGroups::new(alloc, names)?)?;
    }
    Ok(patterns)
}

/// The first explicit slot of each pattern, and how many slots there are in all, which aren't too many.
fn lay_out(
    alloc: Global,
    patterns: &[PatternGroups],
) -> Result<(Vec<usize>, SmallIndex), AllocError>
    requires in_range { length patterns.now ≤ greatest_index + 1 }
    requires sound { slots_fault 0 (implicit_slot_len patterns.now) patterns.now ≡ None }
    ensures { IfOk result (λ laid. (laid.0.items ≡ starts_from (implicit_slot_len patterns.now) patterns.now) ×
        (laid.1 ≡ slot_len patterns.now)) }
{
    let mut starts = Vec::new(alloc);
    let mut end = patterns.len() * 2;
    for groups in patterns {
        starts.push(end)?;
        end += (groups.len() - 1) * 2;
    }
    Ok((starts, SmallIndex::must(end)))
}

/// Copies of the groups of each pattern.
fn clone_patterns(
    alloc: Global,
    patterns: &[PatternGroups],
) -> Result<Vec<PatternGroups>, AllocError>
    ensures { IfOk result (λ copies. copies.items ≡ patterns.now) }
{
    let mut copies = Vec::new(alloc);
    for groups in patterns {
        copies.push(groups.try_clone(alloc)?)?;
    }
    Ok(copies)
}
