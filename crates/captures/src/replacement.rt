//! Replacements that are read for the patterns of a regex.
ghost use Rattle.std.specs.Prelude.{◌≡◌, ◌≤◌, ◌<◌, ◌⊎◌, ◌++◌, ◌∷◌, [], ℕ, List, IfOk, OnOk};
ghost use Rattle.meta_regex.specs.declared.options.Options.{Options};
ghost use Rattle.templates.specs.Expansion.{template_text};

use crate::groups::Groups;
use std::alloc::{AllocError, Global};
use templates::Template;

/// What is written for matches, read for each pattern of a regex. It is usable only with groups of the same patterns and options.
#[derive(Drop)]
pub struct Replacement {
    pub(crate) templates: Vec<Template>,
    /// How many groups of a match the templates read, group 0 counted. Groups after these are in no pattern.
    pub(crate) groups: usize,
    ghost some: { 1 ≤ groups },
}

fn push(templates: &mut Vec<Template>, template: Template) -> Result<(), AllocError>
    ensures { OnOk result (templates.new.items ≡ templates.old.items ++ template ∷ []) }
{
    templates.push(template)?;
    Ok(())
}

/// How many groups of a match a template reads of the groups of a pattern, group 0 counted.
fn groups_read(template: &Template, group_count: usize) -> usize
    ensures { (a b : ℕ → List ℕ) → ((n : ℕ) → (n < result) ⊎ (group_count ≤ n) → a n ≡ b n) →
        template_text a template.now ≡ template_text b template.now }
{
    let Some(greatest) = template.greatest_group() else {
        return 0;
    };
    if greatest < group_count {
        return greatest + 1;
    }
    group_count
}

fn larger(one: usize, other: usize) -> usize
    ensures first { one ≤ result }
    ensures second { other ≤ result }
{
    if one < other { other } else { one }
}

impl Groups {
    ghost use Rattle.captures.specs.Groups.{AreGroupsOf};
    ghost use Rattle.captures.specs.Replacing.{IsReplacementFor, as_literal, by_template};

    /// Reads a replacement template for each of the patterns, as [`Template::new`](templates::Template::new) does.
    pub fn template(&self, alloc: Global, replacement: &[u8]) -> Result<Replacement, AllocError>
        ensures { IfOk result (λ r. (o : Options) (texts : List (List ℕ)) → AreGroupsOf o texts self.now →
            IsReplacementFor o.syntax texts (by_template o.syntax replacement.now) r) }
    {
        let mut templates = Vec::new(alloc);
        let mut groups = 1;
        for pattern in &self.patterns {
            let template = Template::new(alloc, &pattern.names, replacement)?;
            let read = groups_read(&template, pattern.names.group_count());
            push(&mut templates, template)?;
            groups = larger(groups, read);
        }
        Ok(Replacement { templates, groups })
    }

    /// A replacement that writes bytes as they are. A dollar sign stands for itself.
    pub fn literal(&self, alloc: Global, bytes: &[u8]) -> Result<Replacement, AllocError>
        ensures { IfOk result (λ r. (o : Options) (texts : List (List ℕ)) → AreGroupsOf o texts self.now →
            IsReplacementFor o.syntax texts (as_literal bytes.now) r) }
    {
        let mut templates = Vec::new(alloc);
        for _pattern in &self.patterns {
            let template = Template::literal(alloc, bytes)?;
            push(&mut templates, template)?;
        }
        Ok(Replacement {
            templates,
            groups: 1,
        })
    }
}
