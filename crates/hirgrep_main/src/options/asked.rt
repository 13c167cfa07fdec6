//! What the options ask for.
ghost use Rattle.std.specs.Prelude.{◌≡◌, ◌||◌, codes, if◌then◌else◌};
ghost use Rattle.clap.specs.Words.{found_of};
ghost use Rattle.grep_core.specs.Printing.{group_text};
ghost use Rattle.grep_options.specs.Options.{is_set};
ghost use Rattle.grep_cli.specs.Flags.{color_of};
ghost use Rattle.hirgrep_main.specs.Asks.{all_lines, asked_of, colors_of, context_by, context_of, how_of};
ghost use Rattle.grep_cli.specs.Flags.{has_columns, has_heading, has_numbers, most_bytes_by, terminator_given};
ghost use Rattle.hirgrep_main.specs.Asks.{binary_given, group_given, print_of, what_of};
ghost use Rattle.grep_cli.specs.Inputs.{dot_matches_feeds, most_given, reading_given};

use clap::ArgMatches;
use grep_cli::{
    Binary, Devices, Directories, Names, Reading, binary_of, color_of, devices_of, directories_of,
    dot_matches_feeds, has_columns, has_heading, has_numbers, most_bytes_by, most_given, names_of,
    reading_given, terminator_given,
};
use grep_core::{Colors, Context, GroupSeparator, OutputOptions, Print};
use grep_options::{is_set, limit, number};
use line_search::PatternOptions;

/// More lines than an input has.
const ALL: u64 = 0xFFFF_FFFF_FFFF_FFFF;

/// What is borrowed besides the command line.
#[derive(Clone, Copy)]
pub struct Texts<'a> {
    /// The colours, if parts are marked.
    pub colors: Colors<'a>,
    /// The separator after each field before a selected line, if it is given.
    pub match_separator: Option<&'a [u8]>,
    /// The separator after each field before a context line, if it is given.
    pub context_separator: Option<&'a [u8]>,
    /// The text that is printed instead of each slash in names, if it is given.
    pub path_separator: Option<&'a str>,
}

/// What is asked for.
#[derive(Clone, Copy)]
pub struct Asked<'a> {
    pub how: PatternOptions,
    /// Letters match in either case if the patterns ask for it by having no capital letter.
    pub smart_case: bool,
    pub what: OutputOptions<'a>,
    /// What is printed of inputs with zero bytes.
    pub binary: Binary,
    pub names: Names,
    pub directories: Directories,
    /// Follows links that are found in folders.
    pub follows: bool,
    pub devices: Devices,
    /// Suppresses messages about files that can't be read.
    pub silent: bool,
    pub stats: bool,
    /// Reports on standard error when standard input is about to be read.
    pub reports_input: bool,
    /// Prints the name of a file once above its lines.
    pub heading: bool,
    /// How inputs are read.
    pub reading: Reading,
    /// The greatest number of bytes of an input that is read as a whole.
    pub most_read: u64,
    /// The text that is printed instead of each slash in names, if it is given.
    pub path_separator: Option<&'a str>,
}

/// How patterns are interpreted.
fn how_of(matches: &ArgMatches<'_>) -> PatternOptions
    ensures { result ≡ how_of (found_of matches.now) }
{
    PatternOptions {
        fixed: is_set(matches, "fixed-strings"),
        ignore_case: is_set(matches, "ignore-case"),
        lines: is_set(matches, "line-regexp"),
        words: is_set(matches, "word-regexp"),
        crlf: is_set(matches, "crlf"),
        text: is_set(matches, "multiline"),
        null: dot_matches_feeds(matches),
    }
}

/// What is counted by `--count-matches`. Lines that `-v` selects have no matches, and are counted themselves.
fn counted_print(matches: &ArgMatches<'_>) -> Print
    ensures { result ≡ (if is_set (found_of matches.now) (codes "invert-match") then Print.Count else Print.CountMatches) }
{
    if is_set(matches, "invert-match") {
        Print::Count
    } else {
        Print::CountMatches
    }
}

/// What is printed. Of several options, the one that prints least takes effect. Of `-l` and `-L`, the later one has turned off the other, and
/// so has that of `-c` and `--count-matches`.
fn print_of(matches: &ArgMatches<'_>) -> Print
    ensures { result ≡ print_of (found_of matches.now) }
{
    if is_set(matches, "quiet") {
        return Print::Nothing;
    }
    if is_set(matches, "files-without-match") {
        return Print::NameIfNone;
    }
    if is_set(matches, "files-with-matches") {
        return Print::NameIfAny;
    }
    if is_set(matches, "count") {
        return Print::Count;
    }
    if is_set(matches, "count-matches") {
        return counted_print(matches);
    }
    if is_set(matches, "only-matching") && !is_set(matches, "json") {
        return Print::Matches;
    }
    Print::Lines
}

/// The numbers of lines before and after each selected line, if either is asked for.
fn context_by(before: Option<u64>, after: Option<u64>) -> Option<Context>
    ensures { result ≡ context_by before after }
{
    match (before, after) {
        (None, None) => None,
        _ => Some(Context {
            before: before.unwrap_or(0),
            after: after.unwrap_or(0),
            first: 0,
        }),
    }
}

/// The context lines by which all lines are printed.
fn all_lines() -> Option<Context>
    ensures { result ≡ all_lines }
{
    Some(Context {
        before: 0,
        after: ALL,
        first: ALL,
    })
}

/// The context lines: `-B` and `-A` take precedence over `-C`. They and `--passthru` have turned off each other.
fn context_of(matches: &ArgMatches<'_>) -> Option<Context>
    ensures { result ≡ context_of (found_of matches.now) }
{
    if is_set(matches, "passthru") {
        return all_lines();
    }
    let both = number(matches, "context");
    let before = number(matches, "before-context").or(both);
    let after = number(matches, "after-context").or(both);
    context_by(before, after)
}

/// What separates groups of lines. Of the two options, the later one has turned off the other. With `--passthru` there are no groups.
pub fn groups_of<'a>(matches: &ArgMatches<'a>) -> GroupSeparator<'a>
    ensures { group_text result ≡ group_given (found_of matches.now) }
{
    if is_set(matches, "no-group-separator") || is_set(matches, "passthru") {
        return GroupSeparator::Omitted;
    }
    match matches.get_str("group-separator") {
        Some(text) => GroupSeparator::Given(text.as_bytes()),
        None => GroupSeparator::Hyphens,
    }
}

/// The colours, if parts are marked.
fn colors_of<'a>(
    matches: &ArgMatches<'_>,
    is_colorful: bool,
    colors: Colors<'a>,
) -> Option<Colors<'a>>
    ensures { result ≡ colors_of (found_of matches.now) is_colorful colors.entry }
{
    if color_of(matches, is_colorful) {
        Some(colors)
    } else {
        None
    }
}

/// What is printed for each input. The width of numbers depends on the input, and is 0 here.
fn what_of<'a>(
    matches: &ArgMatches<'_>,
    is_colorful: bool,
    texts: Texts<'a>,
    groups: GroupSeparator<'a>,
    replacement: Option<&'a [u8]>,
) -> OutputOptions<'a>
    ensures { result ≡ what_of (found_of matches.now) is_colorful texts.entry groups.entry replacement.entry }
{
    OutputOptions {
        invert: is_set(matches, "invert-match"),
        print: print_of(matches),
        numbers: has_numbers(matches),
        columns: has_columns(matches),
        each_match: is_set(matches, "vimgrep"),
        offsets: is_set(matches, "byte-offset"),
        context: context_of(matches),
        most: limit(matches, "max-count"),
        color: colors_of(matches, is_colorful, texts.colors),
        match_separator: texts.match_separator,
        context_separator: texts.context_separator,
        zero_names: is_set(matches, "null"),
        initial_tab: is_set(matches, "initial-tab"),
        trim: is_set(matches, "trim"),
        most_bytes: most_bytes_by(number(matches, "max-columns")),
        preview: is_set(matches, "max-columns-preview"),
        width: 0,
        groups,
        replacement,
        terminator: terminator_given(matches),
    }
}

/// What is printed of inputs with zero bytes. With `-z` these end records, and every input is text.
fn binary_given(matches: &ArgMatches<'_>) -> Binary
    ensures { result ≡ binary_given (found_of matches.now) }
{
    if is_set(matches, "null-data") {
        return Binary::AsText;
    }
    binary_of(matches)
}

/// What the options ask for. `is_colorful` says whether standard output is a terminal that supports colours.
pub fn asked_of<'a>(
    matches: &ArgMatches<'_>,
    is_colorful: bool,
    texts: Texts<'a>,
    groups: GroupSeparator<'a>,
    replacement: Option<&'a [u8]>,
) -> Asked<'a>
    ensures { result ≡ asked_of (found_of matches.now) is_colorful texts.entry groups.entry replacement.entry }
{
    Asked {
        how: how_of(matches),
        smart_case: is_set(matches, "smart-case"),
        what: what_of(matches, is_colorful, texts, groups, replacement),
        binary: binary_given(matches),
        names: names_of(matches),
        directories: directories_of(matches),
        follows: is_set(matches, "dereference-recursive"),
        devices: devices_of(matches, is_set(matches, "dereference-recursive")),
        silent: is_set(matches, "no-messages"),
        stats: is_set(matches, "stats"),
        reports_input: is_set(matches, "report-input"),
        heading: has_heading(matches),
        reading: reading_given(matches),
        most_read: most_given(matches),
        path_separator: texts.path_separator,
    }
}
