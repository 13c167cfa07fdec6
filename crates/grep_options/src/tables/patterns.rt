//! Options on patterns, and on what is selected.
ghost use Rattle.std.specs.Prelude.{◌≡◌, ◌++◌, map};
ghost use Rattle.grep_options.specs.CommandLine.{case_options, list_options, selecting_options, syntax_options};
ghost use Rattle.grep_options.specs.Rows.{row_of};

use crate::option_rows::{FLAG, Kind, Row, Subject};

/// Options on patterns and their syntax.
pub fn given_patterns<'a>() -> &'a [Row<'a>]
    ensures { map row_of result.now ≡ list_options ++ syntax_options }
{
    const ROWS: [Row; 7] = [
        Row {
            id: "regexp",
            letter: 'e',
            kind: Kind::List,
            value: "PATTERN",
            subject: Subject::Patterns,
            help: "a pattern, or several, one a line; may be given several times",
            ..FLAG
        },
        Row {
            id: "file",
            letter: 'f',
            kind: Kind::List,
            value: "FILE",
            subject: Subject::Patterns,
            help: "a file of patterns, one a line; may be given several times",
            ..FLAG
        },
        Row {
            id: "directory",
            kind: Kind::List,
            value: "FOLDER",
            subject: Subject::Folders,
            help: "search as if run in this folder; of several each is found from the one before",
            ..FLAG
        },
        Row {
            id: "extended-regexp",
            letter: 'E',
            without: &["fixed-strings"],
            subject: Subject::Patterns,
            help: "accepted: regular expressions have one syntax, that of the crate regex",
            ..FLAG
        },
        Row {
            id: "perl-regexp",
            letter: 'P',
            without: &["extended-regexp"],
            subject: Subject::Patterns,
            help: "accepted, as -E: there are neither references to groups nor look-arounds but word boundaries",
            ..FLAG
        },
        Row {
            id: "fixed-strings",
            letter: 'F',
            without: &["perl-regexp"],
            subject: Subject::Patterns,
            help: "patterns are strings, not regular expressions",
            ..FLAG
        },
        Row {
            id: "basic-regexp",
            letter: 'G',
            subject: Subject::Patterns,
            help: "not supported: operators such as + and | have no backslash",
            ..FLAG
        },
    ];
    &ROWS
}

/// Options on what is selected. Of those on the case of letters the last one takes effect.
pub fn selection<'a>() -> &'a [Row<'a>]
    ensures { map row_of result.now ≡ case_options ++ selecting_options }
{
    const ROWS: [Row; 6] = [
        Row {
            id: "ignore-case",
            letter: 'i',
            other_letter: 'y',
            over: &["smart-case", "no-ignore-case"],
            subject: Subject::Selection,
            help: "letters match in either case; -y is the same",
            ..FLAG
        },
        Row {
            id: "no-ignore-case",
            over: &["smart-case", "ignore-case"],
            subject: Subject::Selection,
            help: "letters match in their own case, also after -i or -S",
            ..FLAG
        },
        Row {
            id: "smart-case",
            letter: 'S',
            over: &["ignore-case", "no-ignore-case"],
            subject: Subject::Selection,
            help: "as -i if the patterns have letters, and none of them is a capital",
            ..FLAG
        },
        Row {
            id: "word-regexp",
            letter: 'w',
            subject: Subject::Selection,
            help: "a match neither starts nor ends inside a word",
            ..FLAG
        },
        Row {
            id: "line-regexp",
            letter: 'x',
            subject: Subject::Selection,
            help: "a match is a whole line",
            ..FLAG
        },
        Row {
            id: "invert-match",
            letter: 'v',
            subject: Subject::Selection,
            help: "select the lines without a match",
            ..FLAG
        },
    ];
    &ROWS
}
