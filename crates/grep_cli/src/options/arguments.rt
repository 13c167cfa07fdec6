//! The words of the command line, and messages about them.
ghost use Rattle.std.specs.Prelude.{◌≡◌, IfOk, map, string_bytes};
ghost use Rattle.grep_options.specs.Numbers.{with_numbers};
ghost use Rattle.grep_options.specs.declared.numbers.Next.TheVariants.{Value};

use crate::results::messages::report_output;
use crate::results::shown::{Shown, ShownLines};
use crate::results::stop::Stop;
use clap::{ArgMatches, Error};
use grep_options::{command, with_numbers};
use std::alloc::AllocError;
use std::io::ErrorKind;
use std::rt::Runtime;
use std::{env, fs, io, str};

/// The first argument that isn't UTF-8, as far as it can be shown.
fn broken_argument(rt: &HostRuntime) -> io::Result<Option<String>> {
    let words = fs::read(rt, "/proc/self/cmdline")?;
    for word in words.split(|byte| *byte == 0) {
        if str::from_utf8(word).is_err() {
            return Ok(Some(String::from_utf8_lossy(rt.alloc(), word)?));
        }
    }
    Ok(None)
}

/// Reports that an argument isn't UTF-8.
fn report_broken(rt: &HostRuntime) {
    let _ = match broken_argument(rt) {
        Ok(Some(word)) => {
            let word = Shown(word.as_str());
            eprintln!(rt; "hirgrep: {word}: the argument isn't UTF-8")
        }
        _ => eprintln!(rt; "hirgrep: an argument isn't UTF-8"),
    };
}

/// The arguments, starting with the program's name. If one isn't UTF-8, reports it and returns none.
fn arguments_of(rt: &HostRuntime) -> Result<Option<Vec<String>>, AllocError> {
    let words = match env::args(rt) {
        Ok(words) => words,
        Err(e) => {
            if e.kind() == ErrorKind::OutOfMemory {
                return Err(AllocError);
            }
            report_broken(rt);
            return Ok(None);
        }
    };
    let mut owned = Vec::new(rt.alloc());
    for word in words {
        owned.push(word)?;
    }
    Ok(Some(owned))
}

/// These arguments, with `-C` before each number that is an option of its own. If one isn't UTF-8, reports it.
fn numbered(rt: &HostRuntime, arguments: &[String]) -> Result<Vec<String>, Stop>
    ensures { IfOk result (λ words. map string_bytes words.items ≡ with_numbers Value (map string_bytes arguments.now)) }
{
    match with_numbers(rt.alloc(), arguments)? {
        Some(words) => Ok(words),
        None => {
            let _ = eprintln!(rt; "hirgrep: an argument isn't UTF-8");
            Err(Stop::With(2))
        }
    }
}

/// The words of the command line, starting with the program's name: the arguments, with `-C` before each number that is an option of its own.
/// If an argument isn't UTF-8, reports it.
pub fn words_of(rt: &HostRuntime) -> Result<Vec<String>, Stop> {
    let Some(arguments) = arguments_of(rt)? else {
        return Err(Stop::With(2));
    };
    numbered(rt, arguments.as_slice())
}

/// Prints what was asked for instead of a search, as `--help` does, or reports why the command line can't be understood. Returns the exit
/// status.
fn report_usage(rt: &HostRuntime, error: &Error) -> Result<u8, AllocError> {
    if error.use_stderr() {
        let text = error.to_string(rt.alloc())?;
        let lines = ShownLines(text.as_str());
        let _ = eprint!(rt; "{lines}");
        return Ok(2);
    }
    match error.print(rt) {
        Ok(()) => Ok(0),
        Err(e) => {
            report_output(rt, &e);
            Ok(2)
        }
    }
}

/// The options and operands that the words of the command line give. If they can't be understood, or ask for something else than a search as
/// `--help` does, reports that or prints it.
pub fn matches_of<'a>(rt: &HostRuntime, words: &'a [String]) -> Result<ArgMatches<'a>, Stop> {
    let command = command(rt.alloc())?;
    match command.try_get_matches_from(words) {
        Ok(matches) => Ok(matches),
        Err(error) => {
            let status = report_usage(rt, &error)?;
            Err(Stop::With(status))
        }
    }
}
