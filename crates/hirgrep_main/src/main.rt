//! The program `hirgrep` prints the lines of files, or of standard input, in which a pattern matches. Its exit status is 0 if a line is
//! selected, 1 if none is, and 2 after an error, which is reported on standard error.
#![tactic(auto)]

ghost use Rattle.std.specs.Prelude.{◌≡◌, IfOk, Some, codes, true};
ghost use Rattle.clap.specs.Words.{found_of};
ghost use Rattle.grep_options.specs.Options.{is_set};

mod compiling;
mod files;
mod inputs;
mod line_input;
mod options;
mod results;
mod searching;
mod task;

use crate::compiling::search;
use crate::options::asked::{asked_of, groups_of};
use crate::options::patterns::Patterns;
use crate::options::texts::GivenTexts;
use crate::searching::Files;
use clap::ArgMatches;
use grep_cli::{
    Stop, color_of, input_name, is_colorful, matches_of, names_of_files, print_types, report_error,
    selection_given, template_of, words_of,
};
use grep_options::is_set;
use std::alloc::AllocError;
use std::env;
use std::process::ExitCode;
use std::rt::Runtime;

/// Does what options ask for instead of a search, and returns the exit status: prints the types of files, or reports that basic regular
/// expressions aren't supported. Returns none if files are to be searched.
fn status_without_search(
    rt: &HostRuntime,
    matches: &ArgMatches<'_>,
) -> Result<Option<u8>, AllocError>
    ensures { is_set (found_of matches.now) (codes "basic-regexp") ≡ true → IfOk result (λ status. status ≡ Some 2) }
{
    if is_set(matches, "basic-regexp") {
        let _ = eprintln!(rt;
            "hirgrep: -G isn't supported: write \\+ \\? \\| \\( \\) \\{{ \\}} without a backslash, and + ? | ( ) {{ }} with one"
        );
        return Ok(Some(2));
    }
    if is_set(matches, "type-list") {
        let status = print_types(rt, matches)?;
        return Ok(Some(status));
    }
    Ok(None)
}

/// Changes to the folders that are named, each relative to the one before.
fn enter(rt: &HostRuntime, folders: &[&str]) -> Result<(), Stop> {
    for folder in folders {
        if let Err(e) = env::set_current_dir(rt, *folder) {
            report_error(rt, folder, &e);
            return Err(Stop::With(2));
        }
    }
    Ok(())
}

/// Searches for what the options ask for, and returns the exit status. Basic regular expressions are an error.
fn search_asked(rt: &HostRuntime, matches: &ArgMatches<'_>) -> Result<u8, Stop>
    ensures { is_set (found_of matches.now) (codes "basic-regexp") ≡ true → IfOk result (λ status. status ≡ 2) }
{
    if let Some(status) = status_without_search(rt, matches)? {
        return Ok(status);
    }
    let is_colorful = is_colorful(rt);
    let given = GivenTexts::new(rt, matches, color_of(matches, is_colorful))?;
    given.report_old_colors(rt);
    let asked = asked_of(
        matches,
        is_colorful,
        given.texts(matches.get_str("path-separator")),
        groups_of(matches),
        template_of(matches),
    );
    enter(rt, matches.get_strs("directory").unwrap_or(&[]))?;
    let selection = selection_given(rt, asked.reports_input, matches)?;
    let patterns = Patterns::given(rt, &asked, matches, selection.lists)?;
    let files = Files {
        names: names_of_files(matches, selection.lists),
        input_name: input_name(matches),
        selection: &selection,
    };
    let searched = search(rt, &asked, &patterns, files);
    drop(patterns);
    drop(selection);
    let outcome = searched?;
    Ok(outcome.status(&asked))
}

fn main(rt: HostRuntime) -> ExitCode {
    let words = match words_of(&rt) {
        Ok(words) => words,
        Err(stop) => return stop.status(&rt),
    };
    let matches = match matches_of(&rt, words.as_slice()) {
        Ok(matches) => matches,
        Err(stop) => return stop.status(&rt),
    };
    match search_asked(&rt, &matches) {
        Ok(status) => ExitCode::from(status),
        Err(stop) => stop.status(&rt),
    }
}
