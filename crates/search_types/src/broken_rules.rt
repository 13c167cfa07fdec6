//! The first rule that groups break. It is found without an allocation, so it doesn't depend on how much
//! memory there is.
ghost use Rattle.std.specs.Prelude.{◌≡◌, ◌+◌, ◌≤◌, [], length, Some, None, is_some, IfNone};
ghost use Rattle.std.specs.Option.{option_map};
ghost use Rattle.std.specs.String.{string_bytes};
ghost use Rattle.std.specs.List.{position};
ghost use Rattle.search_core.specs.Index.{greatest_index};
ghost use Rattle.search_types.specs.Groups.{is_named, implicit_slot_len};
ghost use Rattle.search_types.specs.GroupFaults.{names_in, groups_in, group_fault_after, fault_after, numbered_fault};
ghost use Rattle.search_types.specs.GroupFaults.{names_fault, slots_fault, group_fault};
ghost use Rattle.search_types.specs.GroupRefusals.{fault_of, ReportsFaultOf};

use crate::group_info_error::GroupInfoError;
use search_core::{PatternID, PatternIDError, SmallIndex};
use std::alloc::Global;

/// A rule that groups break. A name that occurs twice is borrowed from them.
#[derive(Drop)]
pub(crate) enum BrokenRule<'a> {
    TooManyPatterns { err: PatternIDError },
    TooManyGroups { pattern: PatternID, minimum: usize },
    MissingGroups { pattern: PatternID },
    FirstMustBeUnnamed { pattern: PatternID },
    Duplicate { pattern: PatternID, name: &'a str },
}

/// The error that reports a broken rule. It takes memory for a name that occurs twice, and for nothing else.
pub(crate) fn error_of(alloc: Global, rule: BrokenRule<'_>) -> GroupInfoError
    ensures { ReportsFaultOf result (Some (fault_of rule.entry)) }
{
    match rule {
        BrokenRule::TooManyPatterns { err } => GroupInfoError::TooManyPatterns { err },
        BrokenRule::TooManyGroups { pattern, minimum } => {
            GroupInfoError::TooManyGroups { pattern, minimum }
        }
        BrokenRule::MissingGroups { pattern } => GroupInfoError::MissingGroups { pattern },
        BrokenRule::FirstMustBeUnnamed { pattern } => {
            GroupInfoError::FirstMustBeUnnamed { pattern }
        }
        BrokenRule::Duplicate { pattern, name } => match String::from_str(alloc, name) {
            Ok(name) => GroupInfoError::Duplicate { pattern, name },
            Err(_) => GroupInfoError::NoMemory,
        },
    }
}

/// The first rule that groups break.
pub(crate) fn broken_rule(groups: &[Vec<Option<String>>]) -> Option<BrokenRule<'_>>
    ensures { option_map fault_of result ≡ group_fault (groups_in groups.now) }
{
    match broken_by_names(groups) {
        Some(rule) => Some(rule),
        None => broken_by_slots(groups),
    }
}

/// The first rule that the names of groups break, or their number in a pattern.
fn broken_by_names(groups: &[Vec<Option<String>>]) -> Option<BrokenRule<'_>>
    ensures fault { option_map fault_of result ≡ names_fault 0 (groups_in groups.now) }
    ensures in_range { IfNone result (length groups.now ≤ greatest_index + 1) }
{
    for (index, names) in groups.iter().enumerate() {
        if let Some(rule) = broken_by_pattern(index, names) {
            return Some(rule);
        }
    }
    None
}

/// The first rule that the groups of the pattern with this number break.
fn broken_by_pattern(index: usize, names: &[Option<String>]) -> Option<BrokenRule<'_>>
    ensures fault { option_map fault_of result ≡ numbered_fault index (names_in names.now) }
    ensures in_range { IfNone result (index ≤ greatest_index) }
{
    let pattern = match PatternID::new(index) {
        Ok(pattern) => pattern,
        Err(err) => return Some(BrokenRule::TooManyPatterns { err }),
    };
    match names {
        [] => Some(BrokenRule::MissingGroups { pattern }),
        [Some(_), ..] => Some(BrokenRule::FirstMustBeUnnamed { pattern }),
        [None, ..] => broken_by_groups(pattern, names),
    }
}

/// The first rule that the groups of a pattern break, each checked against the ones before it.
fn broken_by_groups(pattern: PatternID, names: &[Option<String>]) -> Option<BrokenRule<'_>>
    ensures { option_map fault_of result ≡ fault_after pattern [] (names_in names.now) }
{
    for (index, name) in names.iter().enumerate() {
        if let Some(rule) = broken_by_group(pattern, &names[..index], name) {
            return Some(rule);
        }
    }
    None
}

/// The rule that a group breaks which comes after these ones.
fn broken_by_group<'a>(
    pattern: PatternID,
    earlier: &[Option<String>],
    name: &'a Option<String>,
) -> Option<BrokenRule<'a>>
    ensures { option_map fault_of result ≡ group_fault_after pattern (names_in earlier.now) (option_map string_bytes name.now) }
{
    let minimum = earlier.len();
    if minimum > SmallIndex::MAX.as_usize() {
        return Some(BrokenRule::TooManyGroups { pattern, minimum });
    }
    let Some(text) = name else {
        return None;
    };
    let name = text.as_str();
    if !has_name(earlier, name) {
        return None;
    }
    Some(BrokenRule::Duplicate { pattern, name })
}

/// Whether one of the groups has this name.
fn has_name(groups: &[Option<String>], name: &str) -> bool
    ensures { result ≡ is_some (position (is_named name.now) (names_in groups.now)) }
{
    for group in groups {
        let Some(text) = group else {
            continue;
        };
        if name == text.as_str() {
            return true;
        }
    }
    false
}

/// The first pattern for whose groups there are too many slots.
fn broken_by_slots(groups: &[Vec<Option<String>>]) -> Option<BrokenRule<'_>>
    requires { length groups.now ≤ greatest_index + 1 }
    ensures { option_map fault_of result ≡ slots_fault 0 (implicit_slot_len (groups_in groups.now)) (groups_in groups.now) }
{
    let mut end = groups.len() * 2;
    for (index, names) in groups.iter().enumerate() {
        let explicit = names.len().saturating_sub(1);
        end = explicit.saturating_mul(2).saturating_add(end);
        if end > SmallIndex::MAX.as_usize() {
            let pattern = PatternID::must(index);
            let minimum = names.len();
            return Some(BrokenRule::TooManyGroups { pattern, minimum });
        }
    }
    None
}
