//! Options that choose files.
ghost use Rattle.std.specs.Prelude.{◌≡◌, ◌++◌, map};
ghost use Rattle.grep_options.specs.CommandLine.{folder_options, found_options, glob_options, hidden_options, ignore_options, type_options};
ghost use Rattle.grep_options.specs.Rows.{row_of};

use crate::option_rows::{FLAG, Kind, Row, Subject};

/// Options on folders and devices.
pub fn folders<'a>() -> &'a [Row<'a>]
    ensures { map row_of result.now ≡ folder_options }
{
    const ROWS: [Row; 4] = [
        Row {
            id: "recursive",
            letter: 'r',
            over: &["directories"],
            subject: Subject::Folders,
            help: "search the files of folders, and of the folders in them",
            ..FLAG
        },
        Row {
            id: "dereference-recursive",
            letter: 'R',
            over: &["directories"],
            subject: Subject::Folders,
            help: "as -r, and follow links that are found in folders",
            ..FLAG
        },
        Row {
            id: "directories",
            letter: 'd',
            kind: Kind::Word,
            value: "ACTION",
            words: &["read", "recurse", "skip"],
            over: &["recursive", "dereference-recursive"],
            subject: Subject::Folders,
            help: "what is done with a folder: it is an error, searched as by -r, or skipped",
            ..FLAG
        },
        Row {
            id: "devices",
            letter: 'D',
            kind: Kind::Word,
            value: "ACTION",
            words: &["read", "skip"],
            subject: Subject::Folders,
            help: "what is done with devices, pipes and sockets; without it those are read that are named, and with -R all",
            ..FLAG
        },
    ];
    &ROWS
}

/// Options that choose files by their names.
pub fn globs<'a>() -> &'a [Row<'a>]
    ensures { map row_of result.now ≡ glob_options ++ type_options }
{
    const ROWS: [Row; 10] = [
        Row {
            id: "include",
            kind: Kind::List,
            value: "GLOB",
            subject: Subject::Files,
            help: "search only files whose name matches GLOB; of this and --exclude the last one that matches decides",
            ..FLAG
        },
        Row {
            id: "exclude",
            kind: Kind::List,
            value: "GLOB",
            subject: Subject::Files,
            help: "skip files whose name matches GLOB",
            ..FLAG
        },
        Row {
            id: "exclude-from",
            kind: Kind::List,
            value: "FILE",
            subject: Subject::Files,
            help: "skip files whose name matches one of the globs in FILE, one a line",
            ..FLAG
        },
        Row {
            id: "exclude-dir",
            kind: Kind::List,
            value: "GLOB",
            subject: Subject::Files,
            help: "skip folders whose name matches GLOB, and what is in them",
            ..FLAG
        },
        Row {
            id: "glob",
            letter: 'g',
            kind: Kind::List,
            value: "GLOB",
            subject: Subject::Files,
            help: "search files whose path matches GLOB, or with ! before it skip them; of several the last one that matches decides",
            ..FLAG
        },
        Row {
            id: "type",
            letter: 't',
            kind: Kind::List,
            value: "TYPE",
            subject: Subject::Files,
            help: "search only files of TYPE, by their names; see --type-list",
            ..FLAG
        },
        Row {
            id: "type-not",
            kind: Kind::List,
            value: "TYPE",
            subject: Subject::Files,
            help: "skip files of TYPE",
            ..FLAG
        },
        Row {
            id: "type-list",
            subject: Subject::Files,
            help: "print the types of files and the globs of their names",
            ..FLAG
        },
        Row {
            id: "type-add",
            kind: Kind::List,
            value: "SPEC",
            subject: Subject::Files,
            help: "add a glob to a type, as in web:*.html, or the globs of types, as in web:include:html,css",
            ..FLAG
        },
        Row {
            id: "type-clear",
            kind: Kind::List,
            value: "TYPE",
            subject: Subject::Files,
            help: "forget the globs of TYPE, before those of --type-add are added",
            ..FLAG
        },
    ];
    &ROWS
}

/// Options on what is found in folders.
pub fn found<'a>() -> &'a [Row<'a>]
    ensures { map row_of result.now ≡ hidden_options ++ found_options }
{
    const ROWS: [Row; 6] = [
        Row {
            id: "hidden",
            over: &["no-hidden"],
            subject: Subject::Folders,
            help: "search files and folders whose name begins with a dot, in folders: the default",
            ..FLAG
        },
        Row {
            id: "no-hidden",
            over: &["hidden"],
            subject: Subject::Folders,
            help: "skip files and folders whose name begins with a dot, in folders, unless a glob, a type or an ignore file chooses them",
            ..FLAG
        },
        Row {
            id: "max-depth",
            kind: Kind::Number,
            value: "N",
            subject: Subject::Folders,
            help: "search folders this deep alone: 1 for the files of a folder, 0 for none of them",
            ..FLAG
        },
        Row {
            id: "max-filesize",
            kind: Kind::Word,
            value: "N",
            subject: Subject::Files,
            help: "skip files of more bytes than so many, in folders; with K, M or G after the number, of more KiB, MiB or GiB",
            ..FLAG
        },
        Row {
            id: "sort",
            kind: Kind::Word,
            value: "ORDER",
            words: &["path", "none"],
            subject: Subject::Folders,
            help: "search the files of each folder in the order of their names, or as the system lists them",
            ..FLAG
        },
        Row {
            id: "files",
            subject: Subject::Files,
            help: "print the names of the files that would be searched, without a pattern",
            ..FLAG
        },
    ];
    &ROWS
}

/// Options on ignore files, and on the case of letters in globs.
pub fn ignoring<'a>() -> &'a [Row<'a>]
    ensures { map row_of result.now ≡ ignore_options }
{
    const ROWS: [Row; 12] = [
        Row {
            id: "ignore",
            over: &["no-ignore"],
            subject: Subject::Ignoring,
            help: "skip what .gitignore, .ignore and .rgignore in folders say, and .git, in folders that are searched",
            ..FLAG
        },
        Row {
            id: "no-ignore",
            over: &["ignore"],
            subject: Subject::Ignoring,
            help: "skip nothing because of ignore files in folders: the default",
            ..FLAG
        },
        Row {
            id: "unrestricted",
            letter: 'u',
            over: &["ignore"],
            subject: Subject::Ignoring,
            help: "as --no-ignore; hidden files and binary files are searched in any case",
            ..FLAG
        },
        Row {
            id: "ignore-file",
            kind: Kind::List,
            value: "FILE",
            subject: Subject::Ignoring,
            help: "skip what FILE says, whose lines are as those of .gitignore, with or without --ignore",
            ..FLAG
        },
        Row {
            id: "no-ignore-vcs",
            subject: Subject::Ignoring,
            help: "with --ignore: read no .gitignore and no .git/info/exclude",
            ..FLAG
        },
        Row {
            id: "no-ignore-dot",
            subject: Subject::Ignoring,
            help: "with --ignore: read no .ignore and no .rgignore",
            ..FLAG
        },
        Row {
            id: "no-ignore-parent",
            subject: Subject::Ignoring,
            help: "with --ignore: read no ignore files of the folders above those that are named",
            ..FLAG
        },
        Row {
            id: "no-require-git",
            subject: Subject::Ignoring,
            help: "with --ignore: read .gitignore outside of work trees of git, too",
            ..FLAG
        },
        Row {
            id: "no-ignore-exclude",
            subject: Subject::Ignoring,
            help: "with --ignore: read no .git/info/exclude",
            ..FLAG
        },
        Row {
            id: "no-ignore-files",
            subject: Subject::Ignoring,
            help: "read no file of --ignore-file",
            ..FLAG
        },
        Row {
            id: "iglob",
            kind: Kind::List,
            value: "GLOB",
            subject: Subject::Files,
            help: "as --glob, but letters match in either case; these globs come after those of --glob",
            ..FLAG
        },
        Row {
            id: "glob-case-insensitive",
            subject: Subject::Files,
            help: "letters match in either case in the globs of --glob, too",
            ..FLAG
        },
    ];
    &ROWS
}
