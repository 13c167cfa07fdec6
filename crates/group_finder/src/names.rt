//! The groups of a pattern and their names.
ghost use Rattle.std.specs.Prelude.{◌≡◌, ◌++◌, ◌∷◌, [], ℕ, List, IfErr, IfOk, OnOk, length, map, option_map, string_bytes};
ghost use Rattle.group_finder.specs.Errors.{IsNewError};
ghost use Rattle.group_finder.specs.Patterns.{IsNamedBy, IsPattern, name_at};

use crate::errors::{NewError, cause_of};
use regex_syntax::{Config, Parsed};
use std::alloc::{AllocError, Global};
use std::marker::Model;

/// The names of the groups of a pattern, by the numbers of the groups. Group 0 is the whole match and has no name.
#[derive(Drop)]
pub struct GroupNames {
    names: Vec<Option<String>>,
}

impl Model for GroupNames {
    ghost use Rattle.std.specs.Prelude.{map, option_map, string_bytes};
    ghost use Rattle.regex_syntax.specs.Grammar.{Names};

    ghost Value = { Names };

    ghost view = { λ g. map (option_map string_bytes) g.names.items };
}

/// The names of the groups that the grammar reads in a pattern.
fn names_of(alloc: Global, text: &str, config: &Config) -> Result<Vec<Option<String>>, NewError>
    ensures made { IfOk result (λ names. IsNamedBy config.now text.now (map (option_map string_bytes) names.items)) }
    ensures pattern { IfOk result (λ _. IsPattern config.now text.now) }
    ensures refused { (limit : ℕ) → IfErr result (IsNewError config.now text.now limit) }
{
    let Parsed { hir: _hir, names } = match regex_syntax::parse(alloc, text, config) {
        Ok(parsed) => parsed,
        Err(error) => return Err(cause_of(error)),
    };
    Ok(names)
}

/// A copy of a name, if there is one.
fn copy_of(alloc: Global, name: &Option<String>) -> Result<Option<String>, AllocError>
    ensures { IfOk result (λ copy. option_map string_bytes copy ≡ option_map string_bytes name.now) }
{
    match name {
        Some(text) => Ok(Some(String::from_str(alloc, text.as_str())?)),
        None => Ok(None),
    }
}

fn push(names: &mut Vec<Option<String>>, name: Option<String>) -> Result<(), AllocError>
    ensures { OnOk result (names.new.items ≡ names.old.items ++ name ∷ []) }
{
    names.push(name)?;
    Ok(())
}

/// Copies of names.
fn copies_of(alloc: Global, names: &[Option<String>]) -> Result<Vec<Option<String>>, AllocError>
    ensures { IfOk result (λ copies. map (option_map string_bytes) copies.items ≡ map (option_map string_bytes) names.now) }
{
    let mut copies = Vec::new(alloc);
    for name in names {
        push(&mut copies, copy_of(alloc, name)?)?;
    }
    Ok(copies)
}

impl GroupNames {
    /// The names of the groups that the grammar reads in a pattern. No error is about a limit.
    pub fn new(alloc: Global, text: &str, config: &Config) -> Result<GroupNames, NewError>
        ensures made { IfOk result (IsNamedBy config.now text.now) }
        ensures pattern { IfOk result (λ _. IsPattern config.now text.now) }
        ensures refused { (limit : ℕ) → IfErr result (IsNewError config.now text.now limit) }
    {
        match names_of(alloc, text, config) {
            Ok(names) => Ok(GroupNames { names }),
            Err(error) => Err(error),
        }
    }

    /// A copy. Nothing is parsed.
    pub fn try_clone(&self, alloc: Global) -> Result<GroupNames, AllocError>
        ensures { IfOk result (λ copy. copy ≡ self.now) }
    {
        let names = copies_of(alloc, &self.names)?;
        Ok(GroupNames { names })
    }

    /// The number of groups, group 0 counted.
    pub fn group_count(&self) -> usize
        ensures { result ≡ length self.now }
    {
        self.names.len()
    }

    /// The name of the group with this number, if there is such a group and it has a name.
    pub fn group_name(&self, group: usize) -> Option<&str>
        ensures { option_map (λ t. t.now) result ≡ name_at self.now group }
    {
        match self.names.get(group) {
            Some(Some(name)) => Some(name.as_str()),
            _ => None,
        }
    }
}
