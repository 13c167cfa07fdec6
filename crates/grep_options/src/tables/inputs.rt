//! Options on inputs: files with zero bytes, and inputs that are read as a whole.
ghost use Rattle.std.specs.Prelude.{◌≡◌, ◌++◌, map};
ghost use Rattle.grep_options.specs.CommandLine.{accepted_options, binary_options, input_options};
ghost use Rattle.grep_options.specs.Rows.{row_of};

use crate::option_rows::{FLAG, Kind, Row, Subject};

/// Options on files with zero bytes, and options of GNU grep that change nothing here.
pub fn binary<'a>() -> &'a [Row<'a>]
    ensures { map row_of result.now ≡ binary_options ++ accepted_options }
{
    const ROWS: [Row; 7] = [
        Row {
            id: "text",
            letter: 'a',
            over: &["binary-files", "skip-binary"],
            subject: Subject::Binary,
            help: "every file is text, as without this option",
            ..FLAG
        },
        Row {
            id: "binary-files",
            kind: Kind::Word,
            value: "TYPE",
            words: &["binary", "text", "without-match"],
            over: &["text", "skip-binary"],
            subject: Subject::Binary,
            help: "what is printed of a file with a zero byte: that it matches, its lines, or nothing",
            ..FLAG
        },
        Row {
            id: "skip-binary",
            letter: 'I',
            kind: Kind::Letter,
            over: &["text", "binary-files"],
            subject: Subject::Binary,
            help: "as --binary-files=without-match: a file with a zero byte has no match",
            ..FLAG
        },
        Row {
            id: "binary",
            letter: 'U',
            subject: Subject::Binary,
            help: "accepted: no carriage return is removed",
            ..FLAG
        },
        Row {
            id: "line-buffered",
            subject: Subject::Format,
            help: "accepted: selected lines are always written before more input is read",
            ..FLAG
        },
        Row {
            id: "include-zero",
            subject: Subject::Output,
            help: "accepted: counts of 0 are always printed",
            ..FLAG
        },
        Row {
            id: "encoding",
            kind: Kind::Word,
            value: "ENCODING",
            words: &["none"],
            subject: Subject::Binary,
            help: "accepted: no file is converted from another encoding, also without this option",
            ..FLAG
        },
    ];
    &ROWS
}

/// Options on inputs that are read as a whole: records that end in zero bytes, matches over several lines, and JSON.
pub fn inputs<'a>() -> &'a [Row<'a>]
    ensures { map row_of result.now ≡ input_options }
{
    const ROWS: [Row; 8] = [
        Row {
            id: "null-data",
            letter: 'z',
            over: &["crlf"],
            without: &["multiline", "json"],
            subject: Subject::Selection,
            help: "lines end in zero bytes instead of line feeds, in what is read and printed",
            ..FLAG
        },
        Row {
            id: "multiline",
            over: &["no-multiline"],
            subject: Subject::Selection,
            help: "matches may span lines, and each line that a match touches is selected",
            ..FLAG
        },
        Row {
            id: "no-multiline",
            over: &["multiline"],
            subject: Subject::Selection,
            help: "each line is searched by itself: the default",
            ..FLAG
        },
        Row {
            id: "multiline-dotall",
            over: &["no-multiline-dotall"],
            subject: Subject::Selection,
            help: "with --multiline, the dot matches line feeds, too",
            ..FLAG
        },
        Row {
            id: "no-multiline-dotall",
            over: &["multiline-dotall"],
            subject: Subject::Selection,
            help: "the dot matches no line feed: the default",
            ..FLAG
        },
        Row {
            id: "json",
            over: &["no-json"],
            without: &[
                "count",
                "count-matches",
                "files",
                "files-with-matches",
                "files-without-match",
            ],
            subject: Subject::Output,
            help: "print lines and their matches as JSON, each as an object in a line of its own",
            ..FLAG
        },
        Row {
            id: "no-json",
            over: &["json"],
            subject: Subject::Output,
            help: "print lines as they are: the default",
            ..FLAG
        },
        Row {
            id: "max-size",
            kind: Kind::Word,
            value: "N",
            subject: Subject::Files,
            help: "with -z, --multiline or --json, reject inputs of more bytes than so many, 1G by default; K, M and G stand for KiB, MiB and GiB",
            ..FLAG
        },
    ];
    &ROWS
}
