//! The other options, and the operands.
ghost use Rattle.std.specs.Prelude.{◌≡◌, map};
ghost use Rattle.grep_options.specs.CommandLine.{other_options};
ghost use Rattle.grep_options.specs.Rows.{row_of};

use crate::option_rows::{FLAG, Kind, Row, Subject};

/// The other options, and the operands.
pub fn others<'a>() -> &'a [Row<'a>]
    ensures { map row_of result.now ≡ other_options }
{
    const ROWS: [Row; 8] = [
        Row {
            id: "color",
            kind: Kind::Color,
            value: "WHEN",
            words: &[
                "auto", "tty", "if-tty", "always", "yes", "force", "never", "no", "none",
            ],
            aliases: &["colour"],
            subject: Subject::Format,
            help: "mark names, numbers and matches for a terminal; auto: where the reply goes to one",
            ..FLAG
        },
        Row {
            id: "label",
            kind: Kind::Text,
            value: "NAME",
            subject: Subject::Format,
            help: "the name of standard input, where names are printed",
            ..FLAG
        },
        Row {
            id: "crlf",
            over: &["null-data"],
            subject: Subject::Selection,
            help: "a carriage return before the line feed belongs to the end of a line",
            ..FLAG
        },
        Row {
            id: "stats",
            subject: Subject::Other,
            help: "print to standard error, at the end, how many lines were selected and what the search took",
            ..FLAG
        },
        Row {
            id: "help",
            kind: Kind::Help,
            subject: Subject::Other,
            help: "print this",
            ..FLAG
        },
        Row {
            id: "version",
            letter: 'V',
            kind: Kind::Version,
            subject: Subject::Other,
            help: "print the version",
            ..FLAG
        },
        Row {
            id: "report-input",
            kind: Kind::Hidden,
            subject: Subject::Other,
            help: "report where standard input is read",
            ..FLAG
        },
        Row {
            id: "words",
            kind: Kind::Operands,
            value: "PATTERN and FILES",
            subject: Subject::None,
            help: "the pattern, where none is given by -e or -f, and the files; - or none is standard input",
            ..FLAG
        },
    ];
    &ROWS
}
