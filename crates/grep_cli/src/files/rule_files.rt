//! Files of rules, which options name.
ghost use Rattle.std.specs.Prelude.{◌≡◌, ◌++◌, ◌∷◌, [], ℕ, true, false, List, IfErr, IfOk, OnOk, length, map, string_bytes};
ghost use Rattle.std.specs.Result.{is_ok};
ghost use Rattle.std.specs.Str.{chars};
ghost use Rattle.globs.specs.Ignoring.{ignore_rules};
ghost use Rattle.globs.specs.Rules.{excluded, grep_rule, rule_of};
ghost use Rattle.grep_cli.specs.Selecting.{AreIgnored, excluded_lines};

use crate::inputs::input::read_text;
use crate::results::messages::report_error;
use globs::{Rule, chars_of, push_excluded, push_ignore_rules};
use std::alloc::{AllocError, Global};
use std::io;
use std::rt::Runtime;

/// Appends a rule of GNU grep's.
pub fn push_rule(
    alloc: Global,
    rules: &mut Vec<Rule>,
    selects: bool,
    text: &str,
) -> Result<(), AllocError>
    ensures { OnOk result (map rule_of rules.new.items ≡ map rule_of rules.old.items ++ grep_rule selects (chars text.now) ∷ []) }
{
    let chars = chars_of(alloc, text)?;
    let rule = Rule::of_grep(alloc, selects, &chars)?;
    rules.push(rule)?;
    Ok(())
}

/// Appends the rule of a line of a file of rules, if it has one.
fn push_line(alloc: Global, rules: &mut Vec<Rule>, line: &str) -> Result<(), AllocError>
    ensures { OnOk result (map rule_of rules.new.items ≡ map rule_of rules.old.items ++ excluded (chars line.now)) }
{
    let chars = chars_of(alloc, line)?;
    push_excluded(alloc, rules, &chars)
}

/// Appends the rules in the content of a file, one a line.
fn push_lines(alloc: Global, rules: &mut Vec<Rule>, text: &str) -> Result<(), AllocError>
    ensures { OnOk result (map rule_of rules.new.items ≡ map rule_of rules.old.items ++ excluded_lines text.now) }
{
    for line in text.split('\n') {
        push_line(alloc, rules, line)?;
    }
    Ok(())
}

/// Appends the rules in the content of the file with this name. Returns false if it can't be read, after reporting the error.
fn push_content(
    rt: &HostRuntime,
    rules: &mut Vec<Rule>,
    name: &str,
    content: io::Result<String>,
) -> Result<bool, AllocError>
    ensures read { IfOk result (λ read. read ≡ is_ok content) }
    ensures rules { IfOk content (λ text. OnOk result
        (map rule_of rules.new.items ≡ map rule_of rules.old.items ++ excluded_lines (string_bytes text))) }
    ensures unread { IfErr content (λ _. OnOk result (rules.new ≡ rules.old)) }
{
    match content {
        Ok(text) => {
            push_lines(rt.alloc(), rules, text.as_str())?;
            Ok(true)
        }
        Err(e) => {
            report_error(rt, name, &e);
            Ok(false)
        }
    }
}

/// Appends the rules in a file. Returns false if it can't be read, after reporting the error.
pub fn push_file(
    rt: &HostRuntime,
    reports_input: bool,
    rules: &mut Vec<Rule>,
    name: &str,
) -> Result<bool, AllocError>
    ensures { IfOk result (λ read. read ≡ true → (content : List ℕ)
        × (map rule_of rules.new.items ≡ map rule_of rules.old.items ++ excluded_lines content)) }
{
    let content = read_text(rt, reports_input, name);
    push_content(rt, rules, name, content)
}

/// Appends the rules in the content of the file with this name, which is an ignore file. Returns false if it can't be read, after reporting
/// the error.
fn push_ignore_content(
    rt: &HostRuntime,
    rules: &mut Vec<Rule>,
    name: &str,
    content: io::Result<String>,
) -> Result<bool, AllocError>
    ensures read { IfOk result (λ read. read ≡ is_ok content) }
    ensures rules { IfOk content (λ text. OnOk result
        (map rule_of rules.new.items ≡ map rule_of rules.old.items ++ ignore_rules (string_bytes text))) }
    ensures unread { IfErr content (λ _. OnOk result (rules.new ≡ rules.old)) }
{
    match content {
        Ok(text) => {
            push_ignore_rules(rt.alloc(), rules, text.as_str())?;
            Ok(true)
        }
        Err(error) => {
            report_error(rt, name, &error);
            Ok(false)
        }
    }
}

/// Appends the rules in an ignore file. Returns false if it can't be read, after reporting the error.
fn push_ignore_file(
    rt: &HostRuntime,
    reports_input: bool,
    rules: &mut Vec<Rule>,
    name: &str,
) -> Result<bool, AllocError>
    ensures { IfOk result (λ read. read ≡ true → (content : List ℕ)
        × (map rule_of rules.new.items ≡ map rule_of rules.old.items ++ ignore_rules content)) }
{
    let content = read_text(rt, reports_input, name);
    push_ignore_content(rt, rules, name, content)
}

/// Appends the rules in ignore files. Returns false if one can't be read, after reporting the error.
pub fn push_ignore_files(
    rt: &HostRuntime,
    reports_input: bool,
    rules: &mut Vec<Rule>,
    names: &[&str],
) -> Result<bool, AllocError>
    ensures rules { IfOk result (λ read. read ≡ true → AreIgnored (map rule_of rules.old.items) (map rule_of rules.new.items)
        (length (map (λ n. n.now) names.now))) }
    ensures sure { IfOk result (λ read. length (map (λ n. n.now) names.now) ≡ 0 → read ≡ true) }
{
    for name in names {
        if !push_ignore_file(rt, reports_input, rules, name)? {
            return Ok(false);
        }
    }
    Ok(true)
}
