//! The list of types of files, which `--type-list` prints.
ghost use Rattle.std.specs.Prelude.{◌≡◌, [], IfOk, IfSome, is_some, string_bytes};
ghost use Rattle.clap.specs.Words.{found_of};
ghost use Rattle.grep_cli.specs.FileTypes.{rows_of, types_text};
ghost use Rattle.grep_cli.specs.TypeChanges.{gives_definitions, types_changed};

use crate::options::file_types::{known_types, list_of_types};
use crate::options::type_changes::types_changed;
use crate::results::messages::report_output;
use clap::ArgMatches;
use std::alloc::AllocError;
use std::io::Write;
use std::rt::Runtime;

/// The list of these types of files, as options change them. Returns none after reporting a definition that can't be read.
fn types_listed(
    rt: &HostRuntime,
    types: &[(&'static str, &'static str)],
    matches: &ArgMatches<'_>,
) -> Result<Option<String>, AllocError>
    ensures list { IfOk result (λ o. IfSome o (λ text.
        string_bytes text ≡ types_text [] (types_changed (found_of matches.now) (rows_of types.now)))) }
    ensures is { IfOk result (λ o. is_some o ≡ gives_definitions (found_of matches.now) (rows_of types.now)) }
{
    match types_changed(rt, types, matches)? {
        Some(types) => {
            let text = list_of_types(rt.alloc(), &types);
            drop(types);
            Ok(Some(text?))
        }
        None => Ok(None),
    }
}

/// Prints a text, and returns the exit status.
fn print_text(rt: &HostRuntime, text: &str) -> u8 {
    match rt.stdout().write_all(text.as_bytes()) {
        Ok(()) => 0,
        Err(e) => {
            report_output(rt, &e);
            2
        }
    }
}

/// Prints the types of files as options change them, and returns the exit status: 0, or 2 after an error, which is reported.
pub fn print_types(rt: &HostRuntime, matches: &ArgMatches<'_>) -> Result<u8, AllocError> {
    match types_listed(rt, known_types(), matches)? {
        Some(text) => {
            let status = print_text(rt, text.as_str());
            drop(text);
            Ok(status)
        }
        None => Ok(2),
    }
}
