ghost use Rattle.std.specs.Prelude.{◌≡◌, ◌+◌, ◌<◌, ◌≤◌, [], ◌∷◌, ◌++◌, length, None, IfOk, OnOk, slice_get};
ghost use Rattle.std.specs.Option.{option_and_then, option_copied, option_map};
ghost use Rattle.std.specs.String.{string_bytes};
ghost use Rattle.std.specs.List.{position};
ghost use Rattle.search_core.specs.Index.{greatest_index};
ghost use Rattle.search_types.specs.Groups.{is_named};
ghost use Rattle.search_types.specs.GroupFaults.{names_in, group_fault_after, pattern_fault};
ghost use Rattle.search_types.specs.GroupIndices.{FindsEach};

use search_core::SmallIndex;
use std::alloc::{AllocError, Global};
use std::collections::HashMap;
use std::marker::Model;

/// The groups of one pattern. A contract sees them as their names.
#[derive(Drop)]
pub(crate) struct PatternGroups {
    names: Vec<Option<String>>,
    indices: HashMap<String, SmallIndex>,
}

impl Model for PatternGroups {
    ghost use Rattle.std.specs.Prelude.{List, Option};
    ghost use Rattle.search_types.specs.Groups.{Name};
    ghost use Rattle.search_types.specs.GroupFaults.{names_in};
    ghost use Rattle.search_types.specs.GroupIndices.{IsIndexed};

    ghost Value = { List (Option Name) };

    ghost view = { λ g. names_in g.names.items };

    ghost invariant = { λ g. IsIndexed (names_in g.names.items) g.indices };
}

impl PatternGroups {
    /// Takes the names of a pattern's groups, which break no rule.
    pub(crate) fn new(alloc: Global, groups: &[Option<String>]) -> Result<PatternGroups, AllocError>
        requires { pattern_fault 0 (names_in groups.now) ≡ None }
        ensures { IfOk result (λ g. g ≡ names_in groups.now) }
    {
        let mut names = Vec::new(alloc);
        let mut indices = HashMap::new(alloc);
        for name in groups {
            note_group(alloc, &names, &mut indices, name)?;
            names.push(copy_of(alloc, name)?)?;
        }
        Ok(PatternGroups { names, indices })
    }

    /// How many groups there are.
    pub(crate) fn len(&self) -> usize
        ensures value { result ≡ length self.now }
        ensures some { 0 < result }
        ensures in_range { result ≤ greatest_index + 1 }
    {
        self.names.len()
    }

    /// The name of a group, if there is such a group and it has one.
    pub(crate) fn name(&self, group_index: usize) -> Option<&str>
        ensures { option_copied result ≡ option_and_then (λ name. name) (slice_get self.now group_index) }
    {
        match self.names.get(group_index) {
            Some(Some(name)) => Some(name.as_str()),
            _ => None,
        }
    }

    /// The index of the group with this name, if there is one.
    pub(crate) fn index(&self, name: &str) -> Option<usize>
        ensures { result ≡ position (is_named name.now) self.now }
    {
        match self.indices.get(name) {
            Some(index) => Some(index.as_usize()),
            None => None,
        }
    }

    /// A copy.
    pub(crate) fn try_clone(&self, alloc: Global) -> Result<PatternGroups, AllocError>
        ensures { IfOk result (λ g. g ≡ self.now) }
    {
        PatternGroups::new(alloc, &self.names)
    }
}

/// Notes the index of the next group under its name, if it has one.
fn note_group(
    alloc: Global,
    names: &[Option<String>],
    indices: &mut HashMap<String, SmallIndex>,
    name: &Option<String>,
) -> Result<(), AllocError>
    requires finds { FindsEach (names_in names.now) indices.old }
    requires sound { group_fault_after 0 (names_in names.now) (option_map string_bytes name.now) ≡ None }
    ensures indexed { OnOk result (FindsEach (names_in names.now ++ option_map string_bytes name.now ∷ []) indices.new) }
    ensures in_range { length names.now ≤ greatest_index }
{
    let Some(text) = name else {
        return Ok(());
    };
    let index = SmallIndex::must(names.len());
    indices.insert(String::from_str(alloc, text.as_str())?, index)?;
    Ok(())
}

/// A copy of a name, if there is one.
fn copy_of(alloc: Global, name: &Option<String>) -> Result<Option<String>, AllocError>
    ensures { IfOk result (λ copy. option_map string_bytes copy ≡ option_map string_bytes name.now) }
{
    match name {
        Some(text) => Ok(Some(String::from_str(alloc, text.as_str())?)),
        None => Ok(None),
    }
}
