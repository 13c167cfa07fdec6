//! Options on what is printed.
ghost use Rattle.std.specs.Prelude.{◌≡◌, ◌++◌, map};
ghost use Rattle.grep_options.specs.CommandLine.{heading_options, line_options, number_options, paired_options, printing_options, separator_options, spacing_options};
ghost use Rattle.grep_options.specs.Rows.{row_of};

use crate::option_rows::{FLAG, Kind, Row, Subject};

/// Options on what is printed.
pub fn printing<'a>() -> &'a [Row<'a>]
    ensures { map row_of result.now ≡ printing_options }
{
    const ROWS: [Row; 8] = [
        Row {
            id: "count",
            letter: 'c',
            over: &["count-matches"],
            subject: Subject::Output,
            help: "print how many lines are selected",
            ..FLAG
        },
        Row {
            id: "count-matches",
            over: &["count"],
            subject: Subject::Output,
            help: "print how many matches the selected lines have, or with -v how many lines are selected",
            ..FLAG
        },
        Row {
            id: "only-matching",
            letter: 'o',
            subject: Subject::Output,
            help: "print the matches that aren't empty, each as a line",
            ..FLAG
        },
        Row {
            id: "no-messages",
            letter: 's',
            subject: Subject::Other,
            help: "suppress messages about files that can't be read",
            ..FLAG
        },
        Row {
            id: "line-number",
            letter: 'n',
            over: &["no-line-number"],
            subject: Subject::Format,
            help: "print each line's number before it, counted from 1",
            ..FLAG
        },
        Row {
            id: "no-line-number",
            letter: 'N',
            over: &["line-number"],
            subject: Subject::Format,
            help: "print no numbers of lines, also with --column, --vimgrep or -p",
            ..FLAG
        },
        Row {
            id: "byte-offset",
            letter: 'b',
            subject: Subject::Format,
            help: "print the byte offset of its start before it, counted from 0",
            ..FLAG
        },
        Row {
            id: "quiet",
            letter: 'q',
            aliases: &["silent"],
            subject: Subject::Output,
            help: "print nothing, and end at the first line that is selected",
            ..FLAG
        },
    ];
    &ROWS
}

/// Options on names of files, and numbers of lines.
pub fn pairs<'a>() -> &'a [Row<'a>]
    ensures { map row_of result.now ≡ paired_options ++ number_options }
{
    const ROWS: [Row; 8] = [
        Row {
            id: "with-filename",
            letter: 'H',
            over: &["no-filename"],
            subject: Subject::Format,
            help: "print the file's name before each line",
            ..FLAG
        },
        Row {
            id: "no-filename",
            letter: 'h',
            over: &["with-filename"],
            subject: Subject::Format,
            help: "print no names of files before lines",
            ..FLAG
        },
        Row {
            id: "files-with-matches",
            letter: 'l',
            over: &["files-without-match"],
            subject: Subject::Output,
            help: "print the names of files in which a line is selected",
            ..FLAG
        },
        Row {
            id: "files-without-match",
            letter: 'L',
            over: &["files-with-matches"],
            subject: Subject::Output,
            help: "print the names of files in which none is",
            ..FLAG
        },
        Row {
            id: "max-count",
            letter: 'm',
            kind: Kind::Integer,
            value: "N",
            subject: Subject::Selection,
            help: "select no more lines of a file than so many; a negative number is no limit",
            ..FLAG
        },
        Row {
            id: "after-context",
            letter: 'A',
            kind: Kind::Number,
            value: "N",
            over: &["passthru"],
            subject: Subject::Context,
            help: "print so many lines after each selected one",
            ..FLAG
        },
        Row {
            id: "before-context",
            letter: 'B',
            kind: Kind::Number,
            value: "N",
            over: &["passthru"],
            subject: Subject::Context,
            help: "print so many lines before each selected one",
            ..FLAG
        },
        Row {
            id: "context",
            letter: 'C',
            kind: Kind::Number,
            value: "N",
            over: &["passthru"],
            subject: Subject::Context,
            help: "print so many lines before and after each selected one; -5 is the same as -C 5",
            ..FLAG
        },
    ];
    &ROWS
}

/// Options on which lines are printed, and how.
pub fn lines<'a>() -> &'a [Row<'a>]
    ensures { map row_of result.now ≡ spacing_options ++ line_options }
{
    const ROWS: [Row; 12] = [
        Row {
            id: "null",
            letter: 'Z',
            subject: Subject::Format,
            help: "print a zero byte after a file's name, instead of a colon, a hyphen or a line feed",
            ..FLAG
        },
        Row {
            id: "initial-tab",
            letter: 'T',
            subject: Subject::Format,
            help: "print a tab between a name or number and its line, and numbers in columns",
            ..FLAG
        },
        Row {
            id: "group-separator",
            kind: Kind::Text,
            value: "SEP",
            over: &["no-group-separator"],
            subject: Subject::Context,
            help: "print this line, instead of --, between groups of lines with their context",
            ..FLAG
        },
        Row {
            id: "no-group-separator",
            over: &["group-separator"],
            subject: Subject::Context,
            help: "print no line between groups of lines with their context",
            ..FLAG
        },
        Row {
            id: "column",
            over: &["no-column"],
            subject: Subject::Format,
            help: "as -n, and print the column of the first match, or with -o of each, counted in bytes from 1",
            ..FLAG
        },
        Row {
            id: "no-column",
            over: &["column"],
            subject: Subject::Format,
            help: "print no columns, also with --vimgrep",
            ..FLAG
        },
        Row {
            id: "vimgrep",
            subject: Subject::Output,
            help: "as -n -H --column, and print a line once for each of its matches",
            ..FLAG
        },
        Row {
            id: "trim",
            subject: Subject::Format,
            help: "leave out white space at the beginning of each line",
            ..FLAG
        },
        Row {
            id: "max-columns",
            letter: 'M',
            kind: Kind::Number,
            value: "N",
            subject: Subject::Format,
            help: "print a short text instead of a line of more bytes than so many; 0 is no limit",
            ..FLAG
        },
        Row {
            id: "max-columns-preview",
            subject: Subject::Format,
            help: "with -M, print the beginning of a longer line before the short text",
            ..FLAG
        },
        Row {
            id: "passthru",
            aliases: &["passthrough"],
            over: &["after-context", "before-context", "context"],
            subject: Subject::Output,
            help: "print the lines that aren't selected too, as context lines",
            ..FLAG
        },
        Row {
            id: "replace",
            kind: Kind::Text,
            value: "TEMPLATE",
            subject: Subject::Output,
            help: "print this instead of each match; $1, $name and ${name} stand for its groups, and $$ for $",
            ..FLAG
        },
    ];
    &ROWS
}

/// Options on separators, and on names above lines.
pub fn fields<'a>() -> &'a [Row<'a>]
    ensures { map row_of result.now ≡ separator_options ++ heading_options }
{
    const ROWS: [Row; 6] = [
        Row {
            id: "field-match-separator",
            kind: Kind::Text,
            value: "SEP",
            subject: Subject::Format,
            help: "print this, instead of a colon, after names and numbers before selected lines; \\t is a tab",
            ..FLAG
        },
        Row {
            id: "field-context-separator",
            kind: Kind::Text,
            value: "SEP",
            subject: Subject::Format,
            help: "print this, instead of a hyphen, after names and numbers before context lines",
            ..FLAG
        },
        Row {
            id: "path-separator",
            kind: Kind::Text,
            value: "SEP",
            subject: Subject::Format,
            help: "print this byte instead of each slash in the name of a file",
            ..FLAG
        },
        Row {
            id: "heading",
            over: &["no-heading"],
            subject: Subject::Format,
            help: "print a file's name once above its lines, and an empty line between files",
            ..FLAG
        },
        Row {
            id: "no-heading",
            over: &["heading"],
            subject: Subject::Format,
            help: "print a file's name before each of its lines, as without these options",
            ..FLAG
        },
        Row {
            id: "pretty",
            letter: 'p',
            subject: Subject::Format,
            help: "as --color=always --heading -n",
            ..FLAG
        },
    ];
    &ROWS
}
