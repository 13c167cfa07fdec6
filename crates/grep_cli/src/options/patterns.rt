//! The patterns that options give.
ghost use Rattle.std.specs.Prelude.{◌≡◌, ◌++◌, ◌∷◌, [], ℕ, true, false, List, Some, IfOk, IfSome, IsTrue, OnOk, codes, is_some, length, map, option_map, string_bytes};
ghost use Rattle.std.specs.List.{flat_map};
ghost use Rattle.std.specs.Str.Lines.{lines};
ghost use Rattle.clap.specs.Words.{found_of};
ghost use Rattle.grep_options.specs.Options.{values_given};
ghost use Rattle.grep_cli.specs.Given.{ArePatterns, files_named, gives_patterns, lines_as_patterns, operand_patterns, patterns_of_file};

use crate::inputs::input::read_text;
use crate::results::messages::report_error;
use clap::ArgMatches;
use std::alloc::{AllocError, Global};
use std::rt::Runtime;

/// A file of patterns.
#[derive(Clone, Copy)]
pub struct PatternFile<'a> {
    /// Its name, as it was given. A dash is standard input.
    pub name: &'a str,
    /// The number of its first pattern, counted from 0.
    pub first: usize,
}

fn push_line(alloc: Global, patterns: &mut Vec<String>, line: &str) -> Result<(), AllocError>
    ensures { OnOk result (map string_bytes patterns.new.items ≡ map string_bytes patterns.old.items ++ line.now ∷ []) }
{
    let line = String::from_str(alloc, line)?;
    patterns.push(line)?;
    Ok(())
}

/// Appends the patterns in a text, one on each line.
fn push_lines(alloc: Global, patterns: &mut Vec<String>, text: &str) -> Result<(), AllocError>
    ensures { OnOk result (map string_bytes patterns.new.items ≡ map string_bytes patterns.old.items ++ lines_as_patterns text.now) }
{
    for line in text.split('\n') {
        push_line(alloc, patterns, line)?;
    }
    Ok(())
}

/// The patterns in an argument, one on each line.
fn lines_of(alloc: Global, text: &str) -> Result<Vec<String>, AllocError>
    ensures { IfOk result (λ v. map string_bytes v.items ≡ lines_as_patterns text.now) }
{
    let mut patterns = Vec::new(alloc);
    push_lines(alloc, &mut patterns, text)?;
    Ok(patterns)
}

/// Appends the patterns in a file with this content, whose lines have Windows line endings. Each pattern is a line without its line feed
/// and without one carriage return right before that.
fn push_file_lines(alloc: Global, patterns: &mut Vec<String>, text: &str) -> Result<(), AllocError>
    ensures { OnOk result (map string_bytes patterns.new.items ≡ map string_bytes patterns.old.items ++ lines text.now) }
{
    for line in text.lines() {
        push_line(alloc, patterns, line)?;
    }
    Ok(())
}

/// Appends the patterns in a file with this content, one on each line. An empty file has none.
fn push_text(
    alloc: Global,
    patterns: &mut Vec<String>,
    crlf: bool,
    text: &str,
) -> Result<(), AllocError>
    ensures { OnOk result (map string_bytes patterns.new.items ≡ map string_bytes patterns.old.items ++ patterns_of_file crlf text.now) }
{
    if crlf {
        return push_file_lines(alloc, patterns, text);
    }
    if text.is_empty() {
        return Ok(());
    }
    let lines = text.strip_suffix('\n').unwrap_or(text);
    push_lines(alloc, patterns, lines)
}

/// Appends the patterns in arguments.
fn push_given(alloc: Global, patterns: &mut Vec<String>, given: &[&str]) -> Result<(), AllocError>
    ensures { OnOk result (map string_bytes patterns.new.items
        ≡ map string_bytes patterns.old.items ++ flat_map lines_as_patterns (map (λ s. s.now) given.now)) }
{
    for text in given {
        push_lines(alloc, patterns, text)?;
    }
    Ok(())
}

/// The content of a file of patterns. If it can't be read, reports the error and returns none.
fn text_of(rt: &HostRuntime, reports_input: bool, name: &str) -> Option<String> {
    match read_text(rt, reports_input, name) {
        Ok(text) => Some(text),
        Err(e) => {
            report_error(rt, name, &e);
            None
        }
    }
}

/// Appends the patterns in files, and the files themselves to another list. Returns false if a file can't be read, after reporting the error.
fn push_files<'a>(
    rt: &HostRuntime,
    crlf: bool,
    reports_input: bool,
    patterns: &mut Vec<String>,
    files: &mut Vec<PatternFile<'a>>,
    names: &[&'a str],
) -> Result<bool, AllocError>
    ensures patterns { IfOk result (λ is_read. IsTrue is_read → (texts : List (List ℕ)) × (length texts ≡ length names.now)
        × (map string_bytes patterns.new.items ≡ map string_bytes patterns.old.items ++ flat_map (patterns_of_file crlf) texts)) }
    ensures sure { IfOk result (λ is_read. length names.now ≡ 0 → is_read ≡ true) }
{
    for name in names {
        let Some(text) = text_of(rt, reports_input, name) else {
            return Ok(false);
        };
        let first = patterns.len();
        files.push(PatternFile { name, first })?;
        push_text(rt.alloc(), patterns, crlf, text.as_str())?;
    }
    Ok(true)
}

/// Whether `-e` or `-f` gives patterns, so that all operands are files.
fn gives_patterns(matches: &ArgMatches<'_>) -> bool
    ensures { result ≡ gives_patterns (found_of matches.now) }
{
    matches.contains_id("regexp") || matches.contains_id("file")
}

/// The patterns that `-e` and `-f` give. The files are appended to a list. If one can't be read, reports the error and returns none.
fn patterns_of<'a>(
    rt: &HostRuntime,
    crlf: bool,
    reports_input: bool,
    matches: &'a ArgMatches<'_>,
    files: &mut Vec<PatternFile<'a>>,
) -> Result<Option<Vec<String>>, AllocError>
    ensures patterns { IfOk result (λ o. IfSome o (λ v. ArePatterns crlf (found_of matches.now) (map string_bytes v.items))) }
    ensures sure { IfOk result (λ o. length (values_given (found_of matches.now) (codes "file")) ≡ 0 → is_some o ≡ true) }
{
    let alloc = rt.alloc();
    let mut patterns = Vec::new(alloc);
    let given = matches.get_strs("regexp").unwrap_or(&[]);
    push_given(alloc, &mut patterns, given)?;
    let names = matches.get_strs("file").unwrap_or(&[]);
    let is_read = push_files(rt, crlf, reports_input, &mut patterns, files, names)?;
    Ok(if is_read { Some(patterns) } else { None })
}

/// The patterns in the first operand, one on each line. If there is no operand, reports that and returns none.
fn patterns_in_words(rt: &HostRuntime, words: &[&str]) -> Result<Option<Vec<String>>, AllocError>
    ensures { IfOk result (λ o. option_map (λ v. map string_bytes v.items) o ≡ operand_patterns (map (λ s. s.now) words.now)) }
{
    match words.split_first() {
        Some((text, _)) => {
            let patterns = lines_of(rt.alloc(), text)?;
            Ok(Some(patterns))
        }
        None => {
            let _ = eprintln!(rt; "hirgrep: no pattern; see hirgrep --help");
            Ok(None)
        }
    }
}

/// The operands that name files: all of them, or, without `-e` and `-f`, all but the first. If files are listed, there are no patterns.
pub fn names_of_files<'m>(matches: &'m ArgMatches<'_>, lists: bool) -> &'m [&'m str]
    ensures { map (λ n. n.now) result.now ≡ files_named (found_of matches.now) lists }
{
    let words = matches.get_strs("words").unwrap_or(&[]);
    if lists || gives_patterns(matches) {
        return words;
    }
    let Some((_, names)) = words.split_first() else {
        return words;
    };
    names
}

/// The patterns that are searched for, as they are given. The files of which they are read are appended to a list. If there is none, or a file
/// can't be read, reports that and returns none.
pub fn given_patterns<'a>(
    rt: &HostRuntime,
    crlf: bool,
    reports_input: bool,
    matches: &'a ArgMatches<'_>,
    lists: bool,
    files: &mut Vec<PatternFile<'a>>,
) -> Result<Option<Vec<String>>, AllocError>
    ensures listed { lists ≡ true → IfOk result (λ o. option_map (λ v. map string_bytes v.items) o ≡ Some []) }
    ensures given { lists ≡ false → gives_patterns (found_of matches.now) ≡ true → IfOk result (λ o. IfSome o (λ v.
        ArePatterns crlf (found_of matches.now) (map string_bytes v.items))) }
    ensures sure { lists ≡ false → gives_patterns (found_of matches.now) ≡ true
        → length (values_given (found_of matches.now) (codes "file")) ≡ 0 → IfOk result (λ o. is_some o ≡ true) }
    ensures operand { lists ≡ false → gives_patterns (found_of matches.now) ≡ false → IfOk result (λ o.
        option_map (λ v. map string_bytes v.items) o ≡ operand_patterns (values_given (found_of matches.now) (codes "words"))) }
{
    if lists {
        return Ok(Some(Vec::new(rt.alloc())));
    }
    if gives_patterns(matches) {
        return patterns_of(rt, crlf, reports_input, matches, files);
    }
    patterns_in_words(rt, matches.get_strs("words").unwrap_or(&[]))
}

/// The strings, borrowed. The error is that memory ran out.
pub fn strs_of<'a>(alloc: Global, texts: &'a [String]) -> Result<Vec<&'a str>, AllocError>
    ensures { IfOk result (λ v. map (λ s. s.now) v.items ≡ map string_bytes texts.now) }
{
    let mut words: Vec<&str> = Vec::new(alloc);
    for text in texts {
        words.push(text.as_str())?;
    }
    Ok(words)
}
