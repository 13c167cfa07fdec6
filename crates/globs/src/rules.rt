//! Rules that choose files: globs in the order in which they were given, of which the last one that matches decides.
ghost use Rattle.std.specs.Prelude.{◌≡◌, ◌++◌, ◌∷◌, [], OnOk, IfOk, MatchOption, None, false, map, IfErr, Some};
ghost use Rattle.std.specs.Str.{chars};
ghost use Rattle.std.specs.List.{list_any};
ghost use Rattle.globs.specs.Matching.{is_slash, sections_of};
ghost use Rattle.globs.specs.Reading.{read};
ghost use Rattle.globs.specs.Ignoring.{ignore_rule};
ghost use Rattle.globs.specs.Rules.{applies, begins, chooses, decided, ends_in_slash, excluded, folder_rule, glob_body, glob_fault, glob_rule, glob_syntax, grep_rule, is_type_glob, rule_of, rule_with, skips, skips_by, type_rule, without_first, without_last_slash};
ghost use Rattle.globs.specs.declared.reading.Syntax.TheVariants.{Globset};

use crate::item::{Item, is_slash};
use crate::matching::{matches, matches_part, may_match};
use crate::paths::{folder_name, without_end_space};
use crate::reading::{Fault, Syntax, read};
use std::alloc::{AllocError, Global};

/// A glob, and what it says of the files that it matches.
#[derive(Drop)]
pub struct Rule {
    glob: Vec<Vec<Vec<Item>>>,
    /// What it matches is chosen, and not left out.
    selects: bool,
    /// It matches folders alone.
    only_folders: bool,
    /// It may match what is after one of the slashes of a name.
    anywhere: bool,
}

pub fn begins(text: &[char], c: char) -> bool
    ensures { result ≡ begins c text.now }
{
    match text.first() {
        Some(first) => *first == c,
        None => false,
    }
}

/// The text without this character, if it begins with it.
pub fn without_first(text: &[char], c: char) -> &[char]
    ensures { result.now ≡ without_first c text.now }
{
    if begins(text, c) {
        return &text[1..];
    }
    text
}

fn ends_in_slash(text: &[char]) -> bool
    ensures { result ≡ ends_in_slash text.now }
{
    !text.is_empty() && is_slash(text[text.len() - 1])
}

fn without_last_slash(text: &[char]) -> &[char]
    ensures { result.now ≡ without_last_slash text.now }
{
    if ends_in_slash(text) {
        return &text[..text.len() - 1];
    }
    text
}

/// The glob in an argument of `--glob`, without what is around it. A fault counts its characters.
pub fn glob_body(text: &[char]) -> &[char]
    ensures { result.now ≡ glob_body text.now }
{
    without_first(without_last_slash(without_first(text, '!')), '/')
}

fn has_slash(text: &[char]) -> bool
    ensures { result ≡ list_any is_slash text.now }
{
    text.iter().any(|c| is_slash(*c))
}

/// The rule of this glob, which was read from the argument.
fn rule_with(glob: Vec<Vec<Vec<Item>>>, text: &[char]) -> Rule
    ensures { rule_of result ≡ rule_with (sections_of glob.items) text.now }
{
    let rest = without_first(text, '!');
    let only_folders = ends_in_slash(rest);
    let anywhere = !has_slash(without_last_slash(rest));
    Rule {
        glob,
        selects: !begins(text, '!'),
        only_folders,
        anywhere,
    }
}

fn glob_syntax(folds: bool) -> Syntax
    ensures { result ≡ glob_syntax folds }
{
    if folds {
        Syntax::Folded
    } else {
        Syntax::Globset
    }
}

/// Whether a glob of a type of files has no fault.
pub fn is_type_glob(alloc: Global, text: &[char]) -> Result<bool, AllocError>
    ensures { IfOk result (λ is. is ≡ is_type_glob text.now) }
{
    let reader = read(alloc, Syntax::Globset, text)?;
    Ok(reader.fault.is_none())
}

impl Rule {
    /// The rule of `--include`, if it selects, or of `--exclude` or `--exclude-dir`.
    pub fn of_grep(alloc: Global, selects: bool, text: &[char]) -> Result<Rule, AllocError>
        ensures { IfOk result (λ r. rule_of r ≡ grep_rule selects text.now) }
    {
        let reader = read(alloc, Syntax::Fnmatch, text)?;
        Ok(Rule {
            glob: reader.sections,
            selects,
            only_folders: false,
            anywhere: false,
        })
    }

    /// The rule of `--exclude-dir`. Slashes at the end of the name don't count.
    pub fn of_folder(alloc: Global, text: &[char]) -> Result<Rule, AllocError>
        ensures { IfOk result (λ r. rule_of r ≡ folder_rule text.now) }
    {
        Rule::of_grep(alloc, false, folder_name(text))
    }

    /// The rule of a glob of a type of files, which selects names or leaves them out. The glob is in the syntax of `--glob` and has no fault.
    pub fn of_type(alloc: Global, selects: bool, text: &[char]) -> Result<Rule, AllocError>
        ensures { IfOk result (λ r. rule_of r ≡ type_rule selects text.now) }
    {
        let reader = read(alloc, Syntax::Globset, text)?;
        Ok(Rule {
            glob: reader.sections,
            selects,
            only_folders: false,
            anywhere: false,
        })
    }

    /// The rule of a line of an ignore file, which selects what is to be ignored. There is none if its glob has a fault.
    pub fn of_ignore(alloc: Global, text: &[char]) -> Result<Option<Rule>, AllocError>
        ensures { IfOk result (λ o. MatchOption o (ignore_rule text.now ≡ []) (λ rule. ignore_rule text.now ≡ rule_of rule ∷ [])) }
    {
        let reader = read(alloc, Syntax::Gitignore, glob_body(text))?;
        match reader.fault {
            Some(_) => Ok(None),
            None => Ok(Some(rule_with(reader.sections, text))),
        }
    }

    /// The rule of `--glob`, or the first fault of its glob. If it folds, letters of ASCII match in either case.
    pub fn of_glob(
        alloc: Global,
        folds: bool,
        text: &[char],
    ) -> Result<Result<Rule, Fault>, AllocError>
        ensures rule { IfOk result (λ r. IfOk r (λ rule. rule_of rule ≡ glob_rule folds text.now)) }
        ensures sound { IfOk result (λ r. IfOk r (λ rule. glob_fault folds text.now ≡ None)) }
        ensures fault { IfOk result (λ r. IfErr r (λ fault. glob_fault folds text.now ≡ Some fault)) }
    {
        let reader = read(alloc, glob_syntax(folds), glob_body(text))?;
        match reader.fault {
            Some(fault) => Ok(Err(fault)),
            None => Ok(Ok(rule_with(reader.sections, text))),
        }
    }

    /// Whether the rule matches a name, of a file or of a folder. With `part` it may match what is after one of the slashes.
    fn applies(
        &self,
        alloc: Global,
        is_folder: bool,
        part: bool,
        name: &[char],
    ) -> Result<bool, AllocError>
        ensures { IfOk result (λ is. is ≡ applies (rule_of self.now) is_folder part name.now) }
    {
        if self.only_folders && !is_folder || !may_match(&self.glob, name) {
            return Ok(false);
        }
        if part || self.anywhere {
            return matches_part(alloc, &self.glob, name);
        }
        matches(alloc, &self.glob, name)
    }
}

/// What the last rule says that matches, or else what was known before.
pub fn decided(
    alloc: Global,
    known: Option<bool>,
    rules: &[Rule],
    is_folder: bool,
    part: bool,
    name: &[char],
) -> Result<Option<bool>, AllocError>
    ensures { IfOk result (λ is. is ≡ decided known (map rule_of rules.now) is_folder part name.now) }
{
    let mut known = known;
    for rule in rules {
        if rule.applies(alloc, is_folder, part, name)? {
            known = Some(rule.selects);
        }
    }
    Ok(known)
}

fn skips_by(known: Option<bool>, rules: &[Rule]) -> bool
    ensures { result ≡ skips_by known (map rule_of rules.now) }
{
    match known {
        Some(selects) => !selects,
        None => match rules.first() {
            Some(rule) => rule.selects,
            None => false,
        },
    }
}

/// Whether `--include`, `--exclude` and `--exclude-from`, or `--exclude-dir`, leave out what has this name. With `part` it is the name of
/// an argument, and not of something in a folder.
pub fn skips(alloc: Global, rules: &[Rule], part: bool, name: &[char]) -> Result<bool, AllocError>
    ensures { IfOk result (λ is. is ≡ skips (map rule_of rules.now) part name.now) }
{
    let known = decided(alloc, None, rules, false, part, name)?;
    Ok(skips_by(known, rules))
}

/// Whether one of the rules chooses what it matches.
pub fn any_selects(rules: &[Rule]) -> bool
    ensures { result ≡ list_any (λ r. r.selects) (map rule_of rules.now) }
{
    for rule in rules {
        if rule.selects {
            return true;
        }
    }
    false
}

/// What the rules of ignore files say of a path, if one matches.
pub fn decides(
    alloc: Global,
    rules: &[Rule],
    is_folder: bool,
    path: &[char],
) -> Result<Option<bool>, AllocError>
    ensures { IfOk result (λ known. known ≡ decided None (map rule_of rules.now) is_folder false path.now) }
{
    decided(alloc, None, rules, is_folder, false, path)
}

/// Whether the rules of `--glob` choose what has this path: a file, or a folder that is to be searched.
pub fn chooses(
    alloc: Global,
    rules: &[Rule],
    is_folder: bool,
    path: &[char],
) -> Result<bool, AllocError>
    ensures { IfOk result (λ is. is ≡ chooses (map rule_of rules.now) is_folder path.now) }
{
    match decided(alloc, None, rules, is_folder, false, path)? {
        Some(selects) => Ok(selects),
        None => Ok(is_folder || !any_selects(rules)),
    }
}

/// Appends the rule of a line of a file of `--exclude-from`. White space at the end of the line doesn't count, and a line of nothing else has
/// no rule.
pub fn push_excluded(alloc: Global, rules: &mut Vec<Rule>, line: &[char]) -> Result<(), AllocError>
    ensures { OnOk result (map rule_of rules.new.items ≡ map rule_of rules.old.items ++ excluded line.now) }
{
    let glob = without_end_space(line);
    if glob.is_empty() {
        return Ok(());
    }
    let rule = Rule::of_grep(alloc, false, glob)?;
    rules.push(rule)?;
    Ok(())
}

/// The characters of a text.
pub fn chars_of(alloc: Global, text: &str) -> Result<Vec<char>, AllocError>
    ensures { IfOk result (λ v. v.items ≡ chars text.now) }
{
    text.chars().collect(alloc)
}
