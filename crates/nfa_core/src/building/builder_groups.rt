ghost use Rattle.std.specs.Prelude.{◌≡◌, ◌<◌, ◌≤◌, true, length, None, Some, MatchResult};
ghost use Rattle.std.specs.Option.{option_map};
ghost use Rattle.std.specs.String.{string_bytes};
ghost use Rattle.search_core.specs.Index.{greatest_index};
ghost use Rattle.search_types.specs.GroupFaults.{names_in, groups_in, TooManyGroups};
ghost use Rattle.nfa_core.specs.declared.build_error.BuildError.TheVariants.{NoMemory};
ghost use Rattle.nfa_core.specs.BuilderStates.{with_name, with_group, up_to_pattern, capture_start_draft, capture_end_draft};
ghost use Rattle.nfa_core.specs.BuilderFaults.{AddsGroup, AddsGroupEnd, ReportsFaultOf, ReportsIndex, index_fault, captures_refused};

use crate::build_error::BuildError;
use crate::builder::Builder;
use crate::building::draft::Draft;
use search_core::{PatternID, SmallIndex, StateID};
use search_types::GroupInfoError;

impl Builder {
    /// Adds a state that records where a group of the current pattern starts. The group's name is that of the first such state. Groups with
    /// lesser indices that have none yet get no name. If the index is above [`SmallIndex::MAX`], the call fails before anything else and
    /// records nothing.
    pub fn add_capture_start(
        &mut self,
        next: StateID,
        group_index: u32,
        name: Option<String>,
    ) -> Result<StateID, BuildError>
        requires { self.old.is_open ≡ true }
        ensures { AddsGroup self.old self.new result (length self.old.starts) group_index (option_map string_bytes name)
            (capture_start_draft (length self.old.starts) group_index next) }
    {
        let pattern_id = self.current_pattern_id();
        let group_index = checked_index(pattern_id, group_index)?;
        note_group(&mut self.groups, pattern_id, group_index, name)?;
        self.add(Draft::CaptureStart {
            pattern_id,
            group_index,
            next,
        })
    }

    /// Adds a state that records where a group of the current pattern ends. If the index is above [`SmallIndex::MAX`], the call fails
    /// before anything else.
    pub fn add_capture_end(
        &mut self,
        next: StateID,
        group_index: u32,
    ) -> Result<StateID, BuildError>
        requires { self.old.is_open ≡ true }
        ensures { AddsGroupEnd self.old self.new result (length self.old.starts) group_index
            (capture_end_draft (length self.old.starts) group_index next) }
    {
        let pattern_id = self.current_pattern_id();
        let group_index = checked_index(pattern_id, group_index)?;
        self.add(Draft::CaptureEnd {
            pattern_id,
            group_index,
            next,
        })
    }
}

/// The index of a group of the pattern. An index above [`SmallIndex::MAX`] is an error.
fn checked_index(pattern: PatternID, index: u32) -> Result<SmallIndex, BuildError>
    ensures { MatchResult result (λ i. (i ≡ index) × (index_fault pattern index ≡ None) × (index ≤ greatest_index))
        (λ e. ReportsFaultOf e (index_fault pattern index) ×
        (index_fault pattern index ≡ Some (captures_refused (TooManyGroups pattern index))) × ReportsIndex e pattern index) }
{
    let minimum = index as usize;
    let Ok(small) = SmallIndex::new(minimum) else {
        let err = GroupInfoError::TooManyGroups { pattern, minimum };
        return Err(BuildError::Captures { err });
    };
    Ok(small)
}

/// Records the name of a pattern's group, unless that group exists.
fn note_group(
    groups: &mut Vec<Vec<Option<String>>>,
    pattern: PatternID,
    index: SmallIndex,
    name: Option<String>,
) -> Result<(), BuildError>
    ensures { MatchResult result (λ _. groups_in groups.new.items ≡
        with_group (groups_in groups.old.items) pattern index (option_map string_bytes name)) (λ e. e ≡ NoMemory) }
{
    fill_patterns(groups, pattern)?;
    note_name(&mut groups[pattern.as_usize()], index, name)?;
    Ok(())
}

/// Adds empty lists of groups until each pattern up to this one has a list.
#[tactic(auto, using(crate::proofs::BuilderLemmas::filled_more, crate::proofs::BuilderLemmas::filled_enough))]
fn fill_patterns(
    groups: &mut Vec<Vec<Option<String>>>,
    pattern: PatternID,
) -> Result<(), BuildError>
    ensures all { MatchResult result (λ _. groups_in groups.new.items ≡ up_to_pattern (groups_in groups.old.items) pattern)
        (λ e. e ≡ NoMemory) }
    ensures len { MatchResult result (λ _. pattern < length groups.new.items) (λ _. Unit {0}) }
{
    let alloc = *groups.allocator();
    while groups.len() <= pattern.as_usize() {
        groups.push(Vec::new(alloc))?;
    }
    Ok(())
}

/// Records the name of a group, unless that group exists.
#[tactic(auto, using(crate::proofs::BuilderLemmas::filled_more, crate::proofs::BuilderLemmas::filled_enough))]
fn note_name(
    names: &mut Vec<Option<String>>,
    index: SmallIndex,
    name: Option<String>,
) -> Result<(), BuildError>
    ensures { MatchResult result (λ _. names_in names.new.items ≡ with_name (names_in names.old.items) index (option_map string_bytes name))
        (λ e. e ≡ NoMemory) }
{
    if index.as_usize() < names.len() {
        return Ok(());
    }
    while names.len() < index.as_usize() {
        names.push(None)?;
    }
    names.push(name)?;
    Ok(())
}
