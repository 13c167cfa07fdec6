//! Which files are searched, by the options on their names and paths.
ghost use Rattle.std.specs.Prelude.{◌≡◌, ◌⊎◌, ◌++◌, ◌∷◌, [], ℕ, true, false, List, None, IfErr, IfOk, IfSome, OnOk, codes, is_none, is_some, length, map};
ghost use Rattle.std.specs.List.{list_any};
ghost use Rattle.std.specs.Str.{chars};
ghost use Rattle.clap.specs.Words.{first_value, found_of};
ghost use Rattle.globs.specs.Paths.{without_dot};
ghost use Rattle.globs.specs.Rules.{Rule as AnyRule, begins, decided, folder_rule, glob_fault, glob_rule, rule_of};
ghost use Rattle.grep_options.specs.FileOptions.{file_values, given_of};
ghost use Rattle.grep_options.specs.Options.{is_text, values_given};
ghost use Rattle.grep_cli.specs.Selecting.{AreIgnored, IsGiven, are_sound, chosen_by, enters, folder_rules, glob_rules, is_sure, names_rules, rules_for, selection, selection_without_rules, skips_entry};
ghost use Rattle.grep_cli.specs.Selecting.{gives_globs, globs_given, globs_say, ignore_files, is_ignoring, is_git_folder, skips_found, skips_ignored, skips_named, skips_type, skips_unnamed, value_rules, values_rules, with_files, with_folders, with_globs, with_ignored, with_rules, with_types};
ghost use Rattle.grep_cli.specs.Selecting.{gives_size, has_type, ignores_say, is_hidden, is_keeping, is_too_large, size_given, skips_hidden};
ghost use Rattle.grep_cli.specs.Ignores.{ignoring_given};
ghost use Rattle.grep_cli.specs.Selecting.{are_types, gives_types, named_types, types_given};
ghost use Rattle.grep_cli.specs.FileTypes.{TypeRow, is_type, of_type, rows_of, type_rules};
ghost use Rattle.grep_cli.specs.TypeChanges.{chooses_surely, types_in_force};

use crate::files::path_names::{begins_with_dot, is_name};
use crate::files::rule_files::{push_file, push_ignore_files, push_rule};
use crate::options::file_types::{is_type, known_types, push_type};
use crate::options::sizes::{gives_size, is_too_large, size_given};
use crate::options::type_changes::{changes_types, types_changed};
use crate::results::shown::Shown;
use crate::results::stop::Stop;
use clap::ArgMatches;
use globs::{
    Fault, FaultKind, Rule, any_selects, chars_of, chooses, decides, file_name, skips, without_dot,
};
use grep_options::{FileOption, FileValue, file_values, is_set, number};
use std::alloc::{AllocError, Global};
use std::rt::Runtime;

/// Which ignore files of folders are read.
#[derive(Clone, Copy)]
pub struct Ignoring {
    /// Whether any is read.
    pub reads: bool,
    /// `.ignore` and `.rgignore`.
    pub plain: bool,
    /// `.gitignore` and `.git/info/exclude`.
    pub git: bool,
    /// Of these `.git/info/exclude`, too.
    pub exclude: bool,
    /// Those of the folders above the ones that are searched.
    pub parents: bool,
    /// Those of git count in its work trees alone.
    pub needs_tree: bool,
}

/// What chooses files.
#[derive(Drop)]
pub struct Selection {
    /// The rules of `--include`, `--exclude` and `--exclude-from`.
    files: Vec<Rule>,
    /// The rules of `--exclude-dir`.
    folders: Vec<Rule>,
    /// The rules of `--glob` and `--iglob`.
    globs: Vec<Rule>,
    /// The rules of `--type` and `--type-not`.
    types: Vec<Rule>,
    /// The rules of `--ignore-file`.
    ignored: Vec<Rule>,
    /// Which ignore files of folders are read.
    pub ignoring: Ignoring,
    /// What is hidden is left out.
    hides: bool,
    /// How deep folders are searched.
    max_depth: Option<u64>,
    /// How many bytes a file has at most that is searched.
    pub max_size: Option<u64>,
    /// The names of files are printed, and nothing is searched.
    pub lists: bool,
    /// The names in a folder are put in order.
    pub sorts: bool,
}

/// Appends the rules of a value. Returns false if it names a file that can't be read, after reporting the error.
fn push_value(
    rt: &HostRuntime,
    reports_input: bool,
    rules: &mut Vec<Rule>,
    value: FileValue<'_>,
) -> Result<bool, AllocError>
    ensures rules { IfOk result (λ read. read ≡ true → (content : List ℕ)
        × (map rule_of rules.new.items ≡ map rule_of rules.old.items ++ value_rules (given_of value.entry) content)) }
    ensures sure { IfOk result (λ read. names_rules value.entry.option ≡ false → read ≡ true) }
{
    match value.option {
        FileOption::Include => push_rule(rt.alloc(), rules, true, value.text)?,
        FileOption::Exclude => push_rule(rt.alloc(), rules, false, value.text)?,
        FileOption::ExcludeFrom => return push_file(rt, reports_input, rules, value.text),
    }
    Ok(true)
}

/// Appends the rules of values. Returns false if one names a file that can't be read, after reporting the error.
fn push_values(
    rt: &HostRuntime,
    reports_input: bool,
    rules: &mut Vec<Rule>,
    values: &[FileValue<'_>],
) -> Result<bool, AllocError>
    ensures rules { IfOk result (λ read. read ≡ true → (contents : List (List ℕ))
        × (map rule_of rules.new.items ≡ map rule_of rules.old.items ++ values_rules (map given_of values.now) contents)) }
    ensures sure { IfOk result (λ read. list_any (λ v. names_rules v.option) (map given_of values.now) ≡ false → read ≡ true) }
{
    for value in values {
        if !push_value(rt, reports_input, rules, *value)? {
            return Ok(false);
        }
    }
    Ok(true)
}

/// Appends the rule of a folder that isn't searched.
fn push_folder(alloc: Global, rules: &mut Vec<Rule>, text: &str) -> Result<(), AllocError>
    ensures { OnOk result (map rule_of rules.new.items ≡ map rule_of rules.old.items ++ folder_rule (chars text.now) ∷ []) }
{
    let chars = chars_of(alloc, text)?;
    let rule = Rule::of_folder(alloc, &chars)?;
    rules.push(rule)?;
    Ok(())
}

/// Appends the rules of `--exclude-dir`.
fn push_folders(alloc: Global, rules: &mut Vec<Rule>, texts: &[&str]) -> Result<(), AllocError>
    ensures { OnOk result (map rule_of rules.new.items ≡ map rule_of rules.old.items ++ folder_rules (map (λ t. t.now) texts.now)) }
{
    for text in texts {
        push_folder(alloc, rules, text)?;
    }
    Ok(())
}

/// Why a glob is rejected.
fn reason_of(kind: FaultKind) -> &'static str {
    match kind {
        FaultKind::UnclosedSet => "a bracket isn't closed",
        FaultKind::ReversedRange => "a range ends before it begins",
        FaultKind::DanglingEscape => "nothing follows a backslash",
        FaultKind::NestedGroup => "a brace is inside another one",
        FaultKind::UnopenedGroup => "a closing brace has no opening one",
        FaultKind::UnclosedGroup => "a brace isn't closed",
    }
}

/// Reports a fault of a glob.
fn report_fault(rt: &HostRuntime, text: &str, fault: Fault) {
    let at = fault.at.saturating_add(1);
    let reason = reason_of(fault.kind);
    let text = Shown(text);
    let _ = eprintln!(rt; "hirgrep: glob {text}: {reason} (character {at} of the glob)");
}

/// Appends the rule of `--glob`, or of `--iglob` if it folds. Returns false if the glob has a fault, after reporting it.
fn push_glob(
    rt: &HostRuntime,
    rules: &mut Vec<Rule>,
    folds: bool,
    text: &str,
) -> Result<bool, AllocError>
    ensures sound { IfOk result (λ sound. sound ≡ is_none (glob_fault folds (chars text.now))) }
    ensures rule { IfOk result (λ sound. sound ≡ true
        → map rule_of rules.new.items ≡ map rule_of rules.old.items ++ glob_rule folds (chars text.now) ∷ []) }
{
    let chars = chars_of(rt.alloc(), text)?;
    match Rule::of_glob(rt.alloc(), folds, &chars)? {
        Ok(rule) => {
            rules.push(rule)?;
            Ok(true)
        }
        Err(fault) => {
            report_fault(rt, text, fault);
            Ok(false)
        }
    }
}

/// Appends the rules of `--glob`, or of `--iglob` if they fold. Returns false if a glob has a fault, after reporting it.
fn push_globs(
    rt: &HostRuntime,
    rules: &mut Vec<Rule>,
    folds: bool,
    texts: &[&str],
) -> Result<bool, AllocError>
    ensures sound { IfOk result (λ sound. sound ≡ are_sound folds (map (λ t. t.now) texts.now)) }
    ensures rules { IfOk result (λ sound. sound ≡ true
        → map rule_of rules.new.items ≡ map rule_of rules.old.items ++ glob_rules folds (map (λ t. t.now) texts.now)) }
{
    for text in texts {
        if !push_glob(rt, rules, folds, text)? {
            return Ok(false);
        }
    }
    Ok(true)
}

/// Appends the rules of a type, which select its files or leave them out. Returns false if there is no such type, after reporting that.
fn push_named_type(
    rt: &HostRuntime,
    rules: &mut Vec<Rule>,
    types: &[(&str, &str)],
    selects: bool,
    name: &str,
) -> Result<bool, AllocError>
    ensures known { IfOk result (λ known. known ≡ is_type name.now (rows_of types.now)) }
    ensures rules { IfOk result (λ known. known ≡ true → map rule_of rules.new.items
        ≡ map rule_of rules.old.items ++ type_rules selects (of_type name.now (rows_of types.now))) }
{
    if !is_type(types, name) {
        let name = Shown(name);
        let _ = eprintln!(rt; "hirgrep: unrecognized file type: {name}; see hirgrep --type-list");
        return Ok(false);
    }
    push_type(rt.alloc(), rules, types, selects, name)?;
    Ok(true)
}

/// Appends the rules of types. Returns false if one isn't known, after reporting that.
fn push_named_types(
    rt: &HostRuntime,
    rules: &mut Vec<Rule>,
    types: &[(&str, &str)],
    selects: bool,
    names: &[&str],
) -> Result<bool, AllocError>
    ensures known { IfOk result (λ known. known ≡ are_types (rows_of types.now) (map (λ n. n.now) names.now)) }
    ensures rules { IfOk result (λ known. known ≡ true → map rule_of rules.new.items
        ≡ map rule_of rules.old.items ++ named_types selects (rows_of types.now) (map (λ n. n.now) names.now)) }
{
    for name in names {
        if !push_named_type(rt, rules, types, selects, name)? {
            return Ok(false);
        }
    }
    Ok(true)
}

/// Whether the names in a folder are put in order.
fn sorts(matches: &ArgMatches<'_>) -> bool
    ensures { result ≡ is_text (codes "path") (first_value (found_of matches.now) (codes "sort")) }
{
    match matches.get_str("sort") {
        Some("path") => true,
        _ => false,
    }
}

/// Which ignore files of folders are read.
fn ignoring_of(matches: &ArgMatches<'_>) -> Ignoring
    ensures { result ≡ ignoring_given (found_of matches.now) }
{
    Ignoring {
        reads: is_set(matches, "ignore"),
        plain: !is_set(matches, "no-ignore-dot"),
        git: !is_set(matches, "no-ignore-vcs"),
        exclude: !is_set(matches, "no-ignore-exclude"),
        parents: !is_set(matches, "no-ignore-parent"),
        needs_tree: !is_set(matches, "no-require-git"),
    }
}

/// The files of `--ignore-file`, unless they don't count.
fn ignore_files<'m>(matches: &'m ArgMatches<'_>) -> &'m [&'m str]
    ensures { map (λ n. n.now) result.now ≡ ignore_files (found_of matches.now) }
{
    if is_set(matches, "no-ignore-files") {
        return &[];
    }
    matches.get_strs("ignore-file").unwrap_or(&[])
}

impl Selection {
    /// What the options choose that have no rules.
    fn new(alloc: Global, matches: &ArgMatches<'_>) -> Selection
        ensures { selection result ≡ selection_without_rules (found_of matches.now) }
    {
        Selection {
            files: Vec::new(alloc),
            folders: Vec::new(alloc),
            globs: Vec::new(alloc),
            types: Vec::new(alloc),
            ignored: Vec::new(alloc),
            ignoring: ignoring_of(matches),
            hides: is_set(matches, "no-hidden"),
            max_depth: number(matches, "max-depth"),
            max_size: size_given(matches),
            lists: is_set(matches, "files"),
            sorts: sorts(matches),
        }
    }

    /// Adds the rules of files that options give. Returns false after reporting an error.
    fn add_values(
        &mut self,
        rt: &HostRuntime,
        reports_input: bool,
        matches: &ArgMatches<'_>,
    ) -> Result<bool, AllocError>
        ensures rules { IfOk result (λ read. read ≡ true → (contents : List (List ℕ))
            × (selection self.new ≡ with_files (selection self.old) (values_rules (file_values (found_of matches.now)) contents))) }
        ensures sure { IfOk result (λ read. list_any (λ v. names_rules v.option) (file_values (found_of matches.now)) ≡ false → read ≡ true) }
    {
        let values = file_values(rt.alloc(), matches)?;
        push_values(rt, reports_input, &mut self.files, &values)
    }

    /// Adds the rules of folders that options give.
    fn add_folders(&mut self, alloc: Global, matches: &ArgMatches<'_>) -> Result<(), AllocError>
        ensures { OnOk result (selection self.new
            ≡ with_folders (selection self.old) (folder_rules (values_given (found_of matches.now) (codes "exclude-dir")))) }
    {
        let texts = matches.get_strs("exclude-dir").unwrap_or(&[]);
        push_folders(alloc, &mut self.folders, texts)
    }

    /// Adds the rules of `--glob` and `--iglob`. Returns false after reporting an error.
    fn add_globs(&mut self, rt: &HostRuntime, matches: &ArgMatches<'_>) -> Result<bool, AllocError>
        ensures sound { IfOk result (λ sound. sound ≡ gives_globs (found_of matches.now)) }
        ensures rules { IfOk result (λ sound. sound ≡ true → selection self.new
            ≡ with_globs (selection self.old) (globs_given (found_of matches.now))) }
    {
        let folds = is_set(matches, "glob-case-insensitive");
        let texts = matches.get_strs("glob").unwrap_or(&[]);
        if !push_globs(rt, &mut self.globs, folds, texts)? {
            return Ok(false);
        }
        let texts = matches.get_strs("iglob").unwrap_or(&[]);
        push_globs(rt, &mut self.globs, true, texts)
    }

    /// Adds the rules of `--ignore-file`. Returns false after reporting an error.
    fn add_ignored(
        &mut self,
        rt: &HostRuntime,
        reports_input: bool,
        matches: &ArgMatches<'_>,
    ) -> Result<bool, AllocError>
        ensures rules { IfOk result (λ read. read ≡ true → (ignored : List AnyRule)
            × (AreIgnored [] ignored (length (ignore_files (found_of matches.now)))
            × (selection self.new ≡ with_ignored (selection self.old) ignored))) }
        ensures sure { IfOk result (λ read. length (ignore_files (found_of matches.now)) ≡ 0 → read ≡ true) }
    {
        let names = ignore_files(matches);
        push_ignore_files(rt, reports_input, &mut self.ignored, names)
    }

    /// Adds the rules of types of files. Returns false after reporting an error.
    fn add_types(
        &mut self,
        rt: &HostRuntime,
        types: &[(&str, &str)],
        matches: &ArgMatches<'_>,
    ) -> Result<bool, AllocError>
        ensures known { IfOk result (λ known. known ≡ gives_types (found_of matches.now) (rows_of types.now)) }
        ensures rules { IfOk result (λ known. known ≡ true → selection self.new
            ≡ with_types (selection self.old) (types_given (found_of matches.now) (rows_of types.now))) }
    {
        let names = matches.get_strs("type").unwrap_or(&[]);
        if !push_named_types(rt, &mut self.types, types, true, names)? {
            return Ok(false);
        }
        let names = matches.get_strs("type-not").unwrap_or(&[]);
        push_named_types(rt, &mut self.types, types, false, names)
    }

    /// Adds the rules that options give. Returns false after reporting an error.
    fn add_rules(
        &mut self,
        rt: &HostRuntime,
        reports_input: bool,
        types: &[(&str, &str)],
        matches: &ArgMatches<'_>,
    ) -> Result<bool, AllocError>
        ensures rules { IfOk result (λ sound. sound ≡ true → (contents : List (List ℕ))
            × (selection self.new ≡ with_rules (selection self.old) (found_of matches.now) (rows_of types.now) contents)) }
        ensures sure { IfOk result (λ sound. is_sure (found_of matches.now) (rows_of types.now) ≡ true → sound ≡ true) }
    {
        if !self.add_values(rt, reports_input, matches)? {
            return Ok(false);
        }
        self.add_folders(rt.alloc(), matches)?;
        if !self.add_globs(rt, matches)? {
            return Ok(false);
        }
        self.add_types(rt, types, matches)
    }

    fn rules_for(&self, is_folder: bool) -> &[Rule]
        ensures { map rule_of result.now ≡ rules_for (selection self.now) is_folder }
    {
        if is_folder {
            &self.folders
        } else {
            &self.files
        }
    }

    /// Whether an argument that names a file or a folder is left out.
    pub fn skips_named(
        &self,
        alloc: Global,
        is_folder: bool,
        name: &str,
    ) -> Result<bool, AllocError>
        ensures { IfOk result (λ is. is ≡ skips_named (selection self.now) is_folder name.now) }
    {
        let rules = self.rules_for(is_folder);
        if rules.is_empty() {
            return Ok(false);
        }
        let name = chars_of(alloc, name)?;
        skips(alloc, rules, true, &name)
    }

    /// Whether the rules of GNU grep's options leave out what has this path in a folder, by its name.
    fn skips_entry(&self, alloc: Global, is_folder: bool, path: &str) -> Result<bool, AllocError>
        ensures { IfOk result (λ is. is ≡ skips_entry (selection self.now) is_folder path.now) }
    {
        let rules = self.rules_for(is_folder);
        if rules.is_empty() {
            return Ok(false);
        }
        let path = chars_of(alloc, path)?;
        skips(alloc, rules, false, file_name(&path))
    }

    /// What the rules of `--glob` say of a path.
    fn globs_say(
        &self,
        alloc: Global,
        is_folder: bool,
        path: &str,
    ) -> Result<Option<bool>, AllocError>
        ensures { IfOk result (λ known. known ≡ globs_say (selection self.now) is_folder path.now) }
    {
        if self.globs.is_empty() {
            return Ok(None);
        }
        let path = chars_of(alloc, path)?;
        let known = decides(alloc, &self.globs, is_folder, without_dot(&path))?;
        Ok(chosen_by(known, &self.globs, is_folder))
    }

    /// Whether this is git's own folder, and git's ignore files are read.
    fn is_git_folder(&self, alloc: Global, path: &str) -> Result<bool, AllocError>
        ensures { IfOk result (λ is. is ≡ is_git_folder (selection self.now) path.now) }
    {
        if !self.ignoring.reads || !self.ignoring.git {
            return Ok(false);
        }
        let path = chars_of(alloc, path)?;
        let name = file_name(&path);
        Ok(is_name(name, &['.', 'g', 'i', 't']))
    }

    /// What the rules of `--ignore-file` say of a path.
    fn files_say(
        &self,
        alloc: Global,
        is_folder: bool,
        path: &str,
    ) -> Result<Option<bool>, AllocError>
        ensures { IfOk result (λ known. known ≡ decided None (selection self.now).ignored is_folder false (without_dot (chars path.now))) }
    {
        if self.ignored.is_empty() {
            return Ok(None);
        }
        let path = chars_of(alloc, path)?;
        decides(alloc, &self.ignored, is_folder, without_dot(&path))
    }

    /// What all ignore files say of what is at a path, of which those of folders said this.
    fn ignores_say(
        &self,
        alloc: Global,
        said: Option<bool>,
        is_folder: bool,
        path: &str,
    ) -> Result<Option<bool>, AllocError>
        ensures { IfOk result (λ known. known ≡ ignores_say (selection self.now) said is_folder path.now) }
    {
        match said {
            Some(is) => Ok(Some(is)),
            None => self.files_say(alloc, is_folder, path),
        }
    }

    /// Whether what is at a path is to be ignored, of which the ignore files of folders said this.
    fn skips_ignored(
        &self,
        alloc: Global,
        said: Option<bool>,
        is_folder: bool,
        path: &str,
    ) -> Result<bool, AllocError>
        ensures { IfOk result (λ is. is ≡ skips_ignored (selection self.now) said is_folder path.now) }
    {
        if self.is_git_folder(alloc, path)? {
            return Ok(true);
        }
        let known = self.ignores_say(alloc, said, is_folder, path)?;
        Ok(is_ignoring(known))
    }

    /// Whether what is at a path is hidden.
    fn is_hidden(&self, alloc: Global, path: &str) -> Result<bool, AllocError>
        ensures { IfOk result (λ is. is ≡ is_hidden path.now) }
    {
        let path = chars_of(alloc, path)?;
        Ok(begins_with_dot(file_name(&path)))
    }

    /// Whether files are chosen by their types, and what is at a path is one of them.
    fn has_type(&self, alloc: Global, is_folder: bool, path: &str) -> Result<bool, AllocError>
        ensures { IfOk result (λ is. is ≡ has_type (selection self.now) is_folder path.now) }
    {
        if self.types.is_empty() || is_folder {
            return Ok(false);
        }
        let path = chars_of(alloc, path)?;
        let known = decides(alloc, &self.types, false, file_name(&path))?;
        Ok(is_ignoring(known))
    }

    /// Whether what is at a path is left out since it is hidden. The ignore files of folders said this of it.
    fn skips_hidden(
        &self,
        alloc: Global,
        said: Option<bool>,
        is_folder: bool,
        path: &str,
    ) -> Result<bool, AllocError>
        ensures { IfOk result (λ is. is ≡ skips_hidden (selection self.now) said is_folder path.now) }
    {
        if !self.hides || !self.is_hidden(alloc, path)? {
            return Ok(false);
        }
        let known = self.ignores_say(alloc, said, is_folder, path)?;
        if is_keeping(known) {
            return Ok(false);
        }
        let is = self.has_type(alloc, is_folder, path)?;
        Ok(!is)
    }

    /// Whether what is at a path is left out by ignore files, by types of files or since it is hidden.
    fn skips_unnamed(
        &self,
        alloc: Global,
        said: Option<bool>,
        is_folder: bool,
        path: &str,
    ) -> Result<bool, AllocError>
        ensures { IfOk result (λ is. is ≡ skips_unnamed (selection self.now) said is_folder path.now) }
    {
        if self.skips_ignored(alloc, said, is_folder, path)? {
            return Ok(true);
        }
        if self.skips_type(alloc, is_folder, path)? {
            return Ok(true);
        }
        self.skips_hidden(alloc, said, is_folder, path)
    }

    /// Whether the types of files leave out what has this path, by its name.
    fn skips_type(&self, alloc: Global, is_folder: bool, path: &str) -> Result<bool, AllocError>
        ensures { IfOk result (λ is. is ≡ skips_type (selection self.now) is_folder path.now) }
    {
        if is_folder || self.types.is_empty() {
            return Ok(false);
        }
        let path = chars_of(alloc, path)?;
        let chosen = chooses(alloc, &self.types, false, file_name(&path))?;
        Ok(!chosen)
    }

    /// Whether what is at this path, which was found in a folder and has this size, is left out. The ignore files of folders said this of
    /// it.
    pub fn skips_found(
        &self,
        alloc: Global,
        said: Option<bool>,
        is_folder: bool,
        size: Option<u64>,
        path: &str,
    ) -> Result<bool, AllocError>
        ensures { IfOk result (λ is. is ≡ skips_found (selection self.now) said is_folder size path.now) }
    {
        if is_too_large(self.max_size, size) || self.skips_entry(alloc, is_folder, path)? {
            return Ok(true);
        }
        match self.globs_say(alloc, is_folder, path)? {
            Some(chosen) => Ok(!chosen),
            None => {
                let is = self.skips_unnamed(alloc, said, is_folder, path)?;
                Ok(is)
            }
        }
    }

    /// Whether the folder at a path is searched, which is this deep.
    pub fn enters(&self, depth: usize) -> bool
        ensures { result ≡ enters self.now.max_depth depth }
    {
        match self.max_depth {
            Some(most) => (depth as u64) < most,
            None => true,
        }
    }
}

/// What rules that choose files say of a path of which this is known.
fn chosen_by(known: Option<bool>, rules: &[Rule], is_folder: bool) -> Option<bool>
    ensures { result ≡ chosen_by known (map rule_of rules.now) is_folder }
{
    match known {
        Some(selects) => Some(selects),
        None => if any_selects(rules) && !is_folder {
            Some(false)
        } else {
            None
        },
    }
}

/// Whether a rule of ignore files says that something isn't to be ignored.
fn is_keeping(known: Option<bool>) -> bool
    ensures { result ≡ is_keeping known }
{
    match known {
        Some(is) => !is,
        None => false,
    }
}

/// Whether a rule of ignore files says that something is to be ignored.
fn is_ignoring(known: Option<bool>) -> bool
    ensures { result ≡ is_ignoring known }
{
    match known {
        Some(is) => is,
        None => false,
    }
}

/// What the options choose. If an option has a fault or names a file that can't be read, reports it and returns none.
fn selection_of(
    rt: &HostRuntime,
    reports_input: bool,
    types: &[(&str, &str)],
    matches: &ArgMatches<'_>,
) -> Result<Option<Selection>, AllocError>
    ensures rules { IfOk result (λ o. IfSome o (λ s. IsGiven (found_of matches.now) (rows_of types.now) (selection s))) }
    ensures sure { IfOk result (λ o. is_sure (found_of matches.now) (rows_of types.now) ≡ true → length (ignore_files (found_of matches.now)) ≡ 0
        → is_some o ≡ true) }
{
    if !gives_size(rt, matches) {
        return Ok(None);
    }
    let mut selection = Selection::new(rt.alloc(), matches);
    if !selection.add_rules(rt, reports_input, types, matches)? {
        return Ok(None);
    }
    if !selection.add_ignored(rt, reports_input, matches)? {
        return Ok(None);
    }
    Ok(Some(selection))
}

/// What the options choose, by these types of files as options change them. If an option has a fault or names a file that can't be read,
/// reports it and returns none.
fn selection_by(
    rt: &HostRuntime,
    reports_input: bool,
    types: &[(&'static str, &'static str)],
    matches: &ArgMatches<'_>,
) -> Result<Option<Selection>, AllocError>
    ensures rules { IfOk result (λ o. IfSome o (λ s.
        IsGiven (found_of matches.now) (types_in_force (found_of matches.now) (rows_of types.now)) (selection s))) }
    ensures sure { IfOk result (λ o. chooses_surely (found_of matches.now) (rows_of types.now) ≡ true → is_some o ≡ true) }
{
    if !changes_types(matches) {
        return selection_of(rt, reports_input, types, matches);
    }
    match types_changed(rt, types, matches)? {
        Some(types) => selection_of(rt, reports_input, &types, matches),
        None => Ok(None),
    }
}

/// What the options choose, by the types of files as options change them. If an option has a fault or names a file that can't be read,
/// reports it.
pub fn selection_given(
    rt: &HostRuntime,
    reports_input: bool,
    matches: &ArgMatches<'_>,
) -> Result<Selection, Stop>
    ensures given { (rows : List TypeRow) × (IfOk result (λ s.
        IsGiven (found_of matches.now) (types_in_force (found_of matches.now) rows) (selection s))
        × (chooses_surely (found_of matches.now) rows ≡ true → IfErr result (λ e. e ≡ Stop.NoMemory))) }
    ensures status { IfErr result (λ e. (e ≡ Stop.With 2) ⊎ (e ≡ Stop.NoMemory)) }
{
    match selection_by(rt, reports_input, known_types(), matches) {
        Ok(Some(selection)) => Ok(selection),
        Ok(None) => Err(Stop::With(2)),
        Err(_) => Err(Stop::NoMemory),
    }
}
