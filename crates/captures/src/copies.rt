//! Copies of groups, for a second handle of a regex.
ghost use Rattle.std.specs.Prelude.{◌≡◌, ◌++◌, ◌∷◌, [], ℕ, List, IfOk, OnOk};
ghost use Rattle.regex_syntax.specs.declared.Config.{Config as TextConfig};
ghost use Rattle.meta_regex.specs.declared.options.Options.{Options};
ghost use Rattle.captures.specs.Patterns.{IsPatternGroups, ArePatternGroups};

use crate::groups::Groups;
use crate::pattern_groups::PatternGroups;
use std::alloc::{AllocError, Global};

fn push(groups: &mut Vec<PatternGroups>, group: PatternGroups) -> Result<(), AllocError>
    ensures { OnOk result (groups.new.items ≡ groups.old.items ++ group ∷ []) }
{
    groups.push(group)?;
    Ok(())
}

/// The groups of a pattern once more, without a finder.
fn copy_of(alloc: Global, group: &PatternGroups) -> Result<PatternGroups, AllocError>
    ensures { (config : TextConfig) (text : List ℕ) → IsPatternGroups config text group.now → IfOk result (IsPatternGroups config text) }
{
    let text = String::from_str(alloc, group.text.as_str())?;
    let names = group.names.try_clone(alloc)?;
    Ok(PatternGroups {
        text,
        names,
        finder: None,
    })
}

/// The groups of patterns once more, without finders.
fn copies_of(alloc: Global, groups: &[PatternGroups]) -> Result<Vec<PatternGroups>, AllocError>
    ensures { (config : TextConfig) (texts : List (List ℕ)) → ArePatternGroups config texts groups.now →
        IfOk result (λ copies. ArePatternGroups config texts copies.items) }
{
    let mut copies = Vec::new(alloc);
    for group in groups {
        push(&mut copies, copy_of(alloc, group)?)?;
    }
    Ok(copies)
}

impl Groups {
    ghost use Rattle.captures.specs.Groups.{AreGroupsOf};

    /// The groups of the same patterns once more, without what finds them. Nothing is parsed or compiled.
    pub fn try_clone(&self, alloc: Global) -> Result<Groups, AllocError>
        ensures { (o : Options) (texts : List (List ℕ)) → AreGroupsOf o texts self.now → IfOk result (AreGroupsOf o texts) }
    {
        let patterns = copies_of(alloc, &self.patterns)?;
        Ok(Groups {
            patterns,
            syntax: self.syntax,
            size_limit: self.size_limit,
        })
    }
}
