//! The command line, with the names and letters that GNU grep gives its options.
ghost use Rattle.std.specs.Prelude.{◌≡◌, [], OnOk, IfOk};
ghost use Rattle.clap.specs.Words.{args_of};
ghost use Rattle.grep_options.specs.CommandLine.{AddsOptions, option_rows, options};

use crate::option_rows::push_tables;
use crate::tables::folders::{folders, found, globs, ignoring};
use crate::tables::inputs::{binary, inputs};
use crate::tables::others::others;
use crate::tables::patterns::{given_patterns, selection};
use crate::tables::printing::{fields, lines, pairs, printing};
use clap::{Arg, Command};
use std::alloc::{AllocError, Global};

/// Appends all options, in the order in which they are listed.
fn push_all<'a>(alloc: Global, args: &mut Vec<Arg<'a>>) -> Result<(), AllocError>
    ensures { OnOk result (AddsOptions args.old.items args.new.items options) }
{
    let tables = [
        given_patterns(),
        selection(),
        printing(),
        folders(),
        globs(),
        found(),
        ignoring(),
        pairs(),
        binary(),
        lines(),
        fields(),
        inputs(),
        others(),
    ];
    push_tables(alloc, args, &tables)
}

fn without_options<'a>(alloc: Global) -> Result<Command<'a>, AllocError>
    ensures { IfOk result (λ c. args_of c ≡ []) }
{
    Command::new(alloc, "hirgrep")
        .version("1.0")
        .about(
            "Prints the lines of files in which a pattern matches, a pattern in the syntax of the crate regex",
        )
        .override_usage(
            "hirgrep [OPTIONS] PATTERN [FILE]..\n       hirgrep [OPTIONS] -e PATTERN.. -f FILE.. [FILE]..",
        )
        .after_help(
            "Files are read as they are. Compressed ones need a pipe: zcat FILE | hirgrep PATTERN",
        )
        .disable_help_flag(true)
        .disable_version_flag(true)
        .args_override_self(true)
        .infer_long_args(true)
        .bin_name("hirgrep")
}

/// The command line: these options, and no others.
pub fn command<'a>(alloc: Global) -> Result<Command<'a>, AllocError>
    ensures { IfOk result (λ c. option_rows (args_of c) ≡ options) }
{
    let mut args = Vec::new(alloc);
    push_all(alloc, &mut args)?;
    let command = without_options(alloc)?;
    command.args(args)
}
