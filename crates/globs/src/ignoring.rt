//! The rules of ignore files: `.gitignore` and those like it.
ghost use Rattle.std.specs.Prelude.{◌≡◌, ◌≤◌, ◌++◌, None, OnOk, IfOk, drop, false, length, map};
ghost use Rattle.std.specs.List.{list_any};
ghost use Rattle.std.specs.Str.{chars};
ghost use Rattle.globs.specs.Ignoring.{counted_len, counts_git, ends_in_return, git_said, ignore_rule, ignore_rules, ignored, is_bare, is_of_git, known_at, level_of, level_rules, line_rules, line_text};
ghost use Rattle.globs.specs.Ignoring.{no_rules, or_else, said, text_rules, with_text, without_end_spaces, without_end_return};
ghost use Rattle.globs.specs.Rules.{decided, rule_of};
ghost use Rattle.globs.specs.declared.ignoring.IgnoreKind.TheVariants.{Plain};

use crate::paths::from;
use crate::rules::{Rule, begins, chars_of, decided, without_first};
use std::alloc::{AllocError, Global};

/// A file whose rules say what is to be ignored.
#[derive(Clone, Copy, PartialEq, Eq)]
pub enum IgnoreKind {
    /// `.rgignore`
    Ripgrep,
    /// `.ignore`
    Plain,
    /// `.gitignore`
    Git,
    /// `.git/info/exclude`
    Exclude,
}

/// What the ignore files of a folder say.
#[derive(Drop)]
pub struct IgnoreLevel {
    /// How many characters of a path come before what is in the folder.
    base: usize,
    /// It is the root of a work tree of git.
    is_root: bool,
    ripgrep: Vec<Rule>,
    plain: Vec<Rule>,
    git: Vec<Rule>,
    exclude: Vec<Rule>,
}

/// How many characters there are up to the last one that counts.
fn counted_len(line: &[char]) -> usize
    ensures len { result ≡ counted_len false 0 0 line.now }
    ensures within { result ≤ length line.now }
{
    let mut kept = 0;
    let mut escaped = false;
    for (at, c) in line.iter().enumerate() {
        kept = if !escaped && *c == ' ' { kept } else { at + 1 };
        escaped = !escaped && *c == '\\';
    }
    kept
}

fn without_end_spaces(line: &[char]) -> &[char]
    ensures { result.now ≡ without_end_spaces line.now }
{
    &line[..counted_len(line)]
}

fn ends_in_return(line: &[char]) -> bool
    ensures { result ≡ ends_in_return line.now }
{
    !line.is_empty() && line[line.len() - 1] == '\r'
}

fn without_end_return(line: &[char]) -> &[char]
    ensures { result.now ≡ without_end_return line.now }
{
    if ends_in_return(line) {
        return &line[..line.len() - 1];
    }
    line
}

/// What counts of a line.
fn line_text(line: &[char]) -> &[char]
    ensures { result.now ≡ line_text line.now }
{
    without_end_spaces(without_end_return(without_first(line, '\u{feff}')))
}

/// Appends the rule of what counts of a line, if it has one.
fn push_text(alloc: Global, rules: &mut Vec<Rule>, text: &[char]) -> Result<(), AllocError>
    ensures { OnOk result (map rule_of rules.new.items ≡ map rule_of rules.old.items ++ text_rules text.now) }
{
    if text.is_empty() || begins(text, '#') {
        return Ok(());
    }
    match Rule::of_ignore(alloc, text)? {
        Some(rule) => {
            rules.push(rule)?;
            Ok(())
        }
        None => Ok(()),
    }
}

/// Appends the rule of a line of an ignore file, if it has one.
#[tactic(auto, unfolding(crate::specs::Ignoring::line_rules))]
fn push_line(alloc: Global, rules: &mut Vec<Rule>, line: &str) -> Result<(), AllocError>
    ensures { OnOk result (map rule_of rules.new.items ≡ map rule_of rules.old.items ++ line_rules (chars line.now)) }
{
    let chars = chars_of(alloc, line)?;
    push_text(alloc, rules, line_text(&chars))
}

/// Appends the rules in the text of an ignore file.
pub fn push_ignore_rules(alloc: Global, rules: &mut Vec<Rule>, text: &str) -> Result<(), AllocError>
    ensures { OnOk result (map rule_of rules.new.items ≡ map rule_of rules.old.items ++ ignore_rules text.now) }
{
    for line in text.split('\n') {
        push_line(alloc, rules, line)?;
    }
    Ok(())
}

fn is_of_git(kind: IgnoreKind) -> bool
    ensures { result ≡ is_of_git kind }
{
    match kind {
        IgnoreKind::Ripgrep | IgnoreKind::Plain => false,
        IgnoreKind::Git | IgnoreKind::Exclude => true,
    }
}

impl IgnoreLevel {
    /// A folder without ignore files.
    pub fn new(alloc: Global, base: usize, is_root: bool) -> IgnoreLevel
        ensures { level_of result ≡ no_rules base is_root }
    {
        IgnoreLevel {
            base,
            is_root,
            ripgrep: Vec::new(alloc),
            plain: Vec::new(alloc),
            git: Vec::new(alloc),
            exclude: Vec::new(alloc),
        }
    }

    /// Adds the rules in the text of a file of this kind.
    pub fn add(&mut self, alloc: Global, kind: IgnoreKind, text: &str) -> Result<(), AllocError>
        ensures { OnOk result (level_of self.new ≡ with_text kind (level_of self.old) text.now) }
    {
        match kind {
            IgnoreKind::Ripgrep => push_ignore_rules(alloc, &mut self.ripgrep, text),
            IgnoreKind::Plain => push_ignore_rules(alloc, &mut self.plain, text),
            IgnoreKind::Git => push_ignore_rules(alloc, &mut self.git, text),
            IgnoreKind::Exclude => push_ignore_rules(alloc, &mut self.exclude, text),
        }
    }

    fn rules(&self, kind: IgnoreKind) -> &[Rule]
        ensures { map rule_of result.now ≡ level_rules kind (level_of self.now) }
    {
        match kind {
            IgnoreKind::Ripgrep => &self.ripgrep,
            IgnoreKind::Plain => &self.plain,
            IgnoreKind::Git => &self.git,
            IgnoreKind::Exclude => &self.exclude,
        }
    }

    fn known_at(&self, kind: IgnoreKind, known: Option<bool>) -> Option<bool>
        ensures { result ≡ known_at kind (level_of self.now) known }
    {
        if self.is_root && is_of_git(kind) {
            return None;
        }
        known
    }

    /// What is known after the rules of this folder.
    fn known_after(
        &self,
        alloc: Global,
        kind: IgnoreKind,
        known: Option<bool>,
        is_folder: bool,
        path: &[char],
    ) -> Result<Option<bool>, AllocError>
        ensures { IfOk result (λ is. is ≡ decided (known_at kind (level_of self.now) known) (level_rules kind (level_of self.now))
            is_folder false (drop self.now.base path.now)) }
    {
        let known = self.known_at(kind, known);
        decided(
            alloc,
            known,
            self.rules(kind),
            is_folder,
            false,
            from(path, self.base),
        )
    }
}

/// What the rules of this kind say of a path.
fn said(
    alloc: Global,
    kind: IgnoreKind,
    levels: &[IgnoreLevel],
    is_folder: bool,
    path: &[char],
) -> Result<Option<bool>, AllocError>
    ensures { IfOk result (λ known. known ≡ said kind None (map level_of levels.now) is_folder path.now) }
{
    let mut known = None;
    for level in levels {
        known = level.known_after(alloc, kind, known, is_folder, path)?;
    }
    Ok(known)
}

/// Whether git's rules count.
fn counts_git(needs_tree: bool, levels: &[IgnoreLevel]) -> bool
    ensures { result ≡ counts_git needs_tree (map level_of levels.now) }
{
    !needs_tree || is_in_tree(levels)
}

fn is_in_tree(levels: &[IgnoreLevel]) -> bool
    ensures { result ≡ list_any (λ l. l.is_root) (map level_of levels.now) }
{
    for level in levels {
        if level.is_root {
            return true;
        }
    }
    false
}

/// What git's rules say of a path.
fn git_said(
    alloc: Global,
    needs_tree: bool,
    levels: &[IgnoreLevel],
    is_folder: bool,
    path: &[char],
) -> Result<Option<bool>, AllocError>
    ensures { IfOk result (λ known. known ≡ git_said needs_tree (map level_of levels.now) is_folder path.now) }
{
    if !counts_git(needs_tree, levels) {
        return Ok(None);
    }
    match said(alloc, IgnoreKind::Git, levels, is_folder, path)? {
        Some(is) => Ok(Some(is)),
        None => {
            let known = said(alloc, IgnoreKind::Exclude, levels, is_folder, path)?;
            Ok(known)
        }
    }
}

/// What `.ignore` and git's files say of a path.
fn plain_said(
    alloc: Global,
    needs_tree: bool,
    levels: &[IgnoreLevel],
    is_folder: bool,
    path: &[char],
) -> Result<Option<bool>, AllocError>
    ensures { IfOk result (λ known. known ≡ or_else (said Plain None (map level_of levels.now) is_folder path.now)
        (git_said needs_tree (map level_of levels.now) is_folder path.now)) }
{
    match said(alloc, IgnoreKind::Plain, levels, is_folder, path)? {
        Some(is) => Ok(Some(is)),
        None => {
            let known = git_said(alloc, needs_tree, levels, is_folder, path)?;
            Ok(known)
        }
    }
}

/// Whether what is at a path is to be ignored, if a rule says so. The levels are those of the folders of the path, the outermost first. With
/// `needs_tree`, git's rules count only in a work tree of git.
#[tactic(auto, unfolding(crate::specs::Ignoring::ignored))]
pub fn ignored(
    alloc: Global,
    needs_tree: bool,
    levels: &[IgnoreLevel],
    is_folder: bool,
    path: &[char],
) -> Result<Option<bool>, AllocError>
    ensures { IfOk result (λ known. known ≡ ignored needs_tree (map level_of levels.now) is_folder path.now) }
{
    match said(alloc, IgnoreKind::Ripgrep, levels, is_folder, path)? {
        Some(is) => Ok(Some(is)),
        None => {
            let known = plain_said(alloc, needs_tree, levels, is_folder, path)?;
            Ok(known)
        }
    }
}
