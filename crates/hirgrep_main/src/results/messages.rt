//! Messages on standard error for patterns that are rejected, and for inputs that aren't searched to their end.

use crate::options::asked::Asked;
use crate::options::loops::loop_offset;
use crate::options::patterns::Patterns;
use grep_cli::{Misnamed, PatternFile, Shown, first_misnamed, report_error, report_reason};
use hirhead::pointed;
use lazy_dfa::BuildError;
use line_search::{Fault, SearcherError};
use pattern_search::PatternError;
use pattern_text::{Config, ParseError};
use std::alloc::{AllocError, Global};
use std::io;
use std::io::ErrorKind;
use std::rt::Runtime;

/// The text without control characters.
fn shown_text(alloc: Global, text: &str) -> Result<String, AllocError> {
    let text = Shown(text);
    text.to_string(alloc)
}

/// The file of a pattern, and its line there.
fn line_of<'a>(from: &[PatternFile<'a>], number: usize) -> Option<(&'a str, usize)> {
    let mut found = None;
    for file in from {
        if let Some(line) = number.checked_sub(file.first) {
            found = Some((file.name, line.saturating_add(1)));
        }
    }
    found
}

/// Reports a message about a pattern, with its file and line or with its number, and shows the offset in the pattern if one is known.
fn report_pattern(
    rt: &HostRuntime,
    from: &[PatternFile<'_>],
    number: usize,
    message: &str,
    pattern: &str,
    place: Option<usize>,
) -> Result<(), AllocError> {
    let _ = match line_of(from, number) {
        Some((name, line)) => {
            let name = Shown(name);
            eprintln!(rt; "hirgrep: {name}:{line}: {message}")
        }
        None => eprintln!(rt; "hirgrep: pattern {number}: {message}"),
    };
    let Some(at) = place else {
        return Ok(());
    };
    if let Some((before, after)) = pattern.split_at_checked(at) {
        let mut text = shown_text(rt.alloc(), before)?;
        let at = text.len();
        text.push_str(shown_text(rt.alloc(), after)?.as_str())?;
        if text.is_char_boundary(at) {
            let shown = pointed(rt.alloc(), text.as_str(), at)?;
            let _ = eprint!(rt; "{shown}");
        }
    }
    Ok(())
}

/// The pattern with this number.
fn pattern_at(patterns: &[String], number: usize) -> &str {
    match patterns.get(number) {
        Some(pattern) => pattern.as_str(),
        None => "",
    }
}

/// Reports why a pattern is rejected, and shows the offset of the error.
fn report_refused(
    rt: &HostRuntime,
    from: &[PatternFile<'_>],
    patterns: &[String],
    error: PatternError,
) -> Result<(), AllocError> {
    let number = error.number;
    let ParseError::Refused { kind, span } = error.error else {
        return Err(AllocError);
    };
    let pattern = pattern_at(patterns, number);
    let place = Some(span.start);
    report_pattern(rt, from, number, kind.message(), pattern, place)
}

/// Reports that matches can't be printed or marked for a pattern with an unbounded repetition whose body can match the empty string. Shows
/// where that repetition is.
fn report_loop(
    rt: &HostRuntime,
    config: &Config,
    from: &[PatternFile<'_>],
    patterns: &[String],
    number: usize,
) -> Result<(), AllocError> {
    let message =
        "matches can't be printed or marked, since what is repeated without a bound may be empty";
    let pattern = pattern_at(patterns, number);
    let place = loop_offset(rt.alloc(), config, pattern)?;
    report_pattern(rt, from, number, message, pattern, place)
}

/// Reports why the patterns can't be compiled. A limit on their size is named.
fn report_build(rt: &HostRuntime, count: usize, error: BuildError) -> Result<(), AllocError> {
    let which = match count {
        1 => "pattern 0 is",
        _ => "the patterns together are",
    };
    let _ = match error {
        BuildError::NoMemory => return Err(AllocError),
        BuildError::NFA { err } => eprintln!(rt; "hirgrep: {which} too large: {err}"),
        error => eprintln!(rt; "hirgrep: {which} too large: {error}"),
    };
    Ok(())
}

/// Reports a name of a class in a pattern that is none.
fn report_misnamed(
    rt: &HostRuntime,
    from: &[PatternFile<'_>],
    number: usize,
    pattern: &str,
    misnamed: Misnamed,
) -> Result<(), AllocError> {
    let Misnamed::Unknown(at) = misnamed else {
        let words = "character class syntax is [[:space:]], not [:space:]";
        match line_of(from, number) {
            Some((name, line)) => {
                let name = Shown(name);
                let _ = eprintln!(rt; "hirgrep: {name}:{line}: {words}");
            }
            None => {
                let _ = eprintln!(rt; "hirgrep: {words}");
            }
        }
        return Ok(());
    };
    report_pattern(
        rt,
        from,
        number,
        "no character class has this name",
        pattern,
        Some(at),
    )
}

/// Whether a pattern has a name of a class that is none. The first one is reported.
pub fn is_misnamed(
    rt: &HostRuntime,
    from: &[PatternFile<'_>],
    patterns: &[String],
) -> Result<bool, AllocError> {
    for (number, pattern) in patterns.iter().enumerate() {
        let pattern = pattern.as_str();
        if let Some(misnamed) = first_misnamed(pattern) {
            report_misnamed(rt, from, number, pattern, misnamed)?;
            return Ok(true);
        }
    }
    Ok(false)
}

/// Reports why no finder can be built, of patterns that are parsed under these options.
pub fn report_no_finder(
    rt: &HostRuntime,
    config: &Config,
    patterns: &Patterns<'_>,
    error: SearcherError,
) -> Result<(), AllocError> {
    let from = patterns.files.as_slice();
    let given = patterns.given.as_slice();
    match error {
        SearcherError::Text(error) => report_refused(rt, from, patterns.parsed.as_slice(), error),
        SearcherError::EmptyLoop(number) => report_loop(rt, config, from, given, number),
        SearcherError::Build(error) => report_build(rt, given.len(), error),
    }
}

/// The codes of the system's errors when an input was read, and when its output was written.
#[derive(Clone, Copy)]
pub struct Causes {
    pub read: Option<i32>,
    pub write: Option<i32>,
}

/// Reports an error with what has this name. Its code is used if it is known, since a kind stands for several errors.
fn report_cause(rt: &HostRuntime, name: &str, kind: ErrorKind, code: Option<i32>) {
    match code {
        Some(code) => report_error(rt, name, &io::Error::from_raw_os_error(code)),
        None => report_error(rt, name, &io::Error::from(kind)),
    }
}

/// Reports why the input with this name isn't searched to its end.
pub fn report_fault(rt: &HostRuntime, name: &str, fault: Fault, causes: Causes) {
    let said = match fault {
        Fault::Read(ErrorKind::FileTooLarge) if causes.read.is_none() =>
            "more bytes than --max-size allows, 1G by default",
        Fault::Read(kind) => return report_cause(rt, name, kind, causes.read),
        Fault::Write(kind) => return report_cause(rt, "write error", kind, causes.write),
        Fault::NoMemory => "out of memory",
        Fault::TooLong => "a line above 1 GiB, or too many of them",
        Fault::TooLarge =>
            "the patterns are too large to replace matches, or to search a line with non-ASCII text next to a word boundary",
    };
    report_reason(rt, name, said);
}
