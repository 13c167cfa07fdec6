//! The program `hirhead`: patterns as arguments, and on standard output the query that means them.
//! It reads no input. Its status is 0 if the query is printed. It is 2 if a pattern is rejected, the arguments are wrong, a write
//! fails or memory runs out, which standard error reports.
#![tactic(auto)]

use clap::{Arg, ArgAction, ArgMatches, Command, value_parser};
use hirhead::{Cause, PatternOptions, QueryError, Unfit, pointed, query_for};
use pattern_text::ParseError;
use std::alloc::{AllocError, Global};
use std::env;
use std::process::ExitCode;
use std::rt::Runtime;

/// Adds an option that takes no value.
fn with_flag<'a>(
    alloc: Global,
    command: Command<'a>,
    id: &'a str,
    short: char,
    help: &'a str,
) -> Result<Command<'a>, AllocError> {
    let arg = Arg::new(alloc, id)
        .long(id)
        .short(short)
        .help(help)
        .action(ArgAction::SetTrue);
    let command = command.arg(arg)?;
    Ok(command)
}

/// Adds an option that takes the value `on` or `off`.
fn with_switch<'a>(
    alloc: Global,
    command: Command<'a>,
    id: &'a str,
    help: &'a str,
) -> Result<Command<'a>, AllocError> {
    let arg = Arg::new(alloc, id)
        .long(id)
        .help(help)
        .action(ArgAction::Set)
        .value_name("on|off")
        .value_parser(["on", "off"].as_slice())
        .default_value("on");
    let command = command.arg(arg)?;
    Ok(command)
}

fn with_crlf<'a>(alloc: Global, command: Command<'a>) -> Result<Command<'a>, AllocError> {
    let arg = Arg::new(alloc, "crlf")
        .long("crlf")
        .help("a carriage return ends a line too")
        .action(ArgAction::SetTrue);
    let command = command.arg(arg)?;
    Ok(command)
}

fn with_nest_limit<'a>(alloc: Global, command: Command<'a>) -> Result<Command<'a>, AllocError> {
    let arg = Arg::new(alloc, "nest-limit")
        .long("nest-limit")
        .help("how deep groups, classes and repetitions may nest, at most 1000")
        .action(ArgAction::Set)
        .value_name("N")
        .value_parser(value_parser!(u32).range(0..=1000))
        .default_value("250");
    let command = command.arg(arg)?;
    Ok(command)
}

fn with_patterns<'a>(alloc: Global, command: Command<'a>) -> Result<Command<'a>, AllocError> {
    let arg = Arg::new(alloc, "PATTERN")
        .help("a pattern in the syntax of the crate regex")
        .action(ArgAction::Append)
        .num_args(1..)
        .required(true);
    let command = command.arg(arg)?;
    Ok(command)
}

/// The options that take no value: their names, their letters and their help.
const FLAGS: [(&str, char, &str); 5] = [
    ("ignore-case", 'i', "letters match in either case"),
    ("multi-line", 'm', "^ and $ hold at the ends of lines"),
    ("dot-matches-new-line", 's', ". matches a line feed too"),
    ("swap-greed", 'U', "a* is lazy, and a*? greedy"),
    (
        "fixed-strings",
        'F',
        "patterns are strings, not regular expressions",
    ),
];

fn with_flags<'a>(alloc: Global, mut command: Command<'a>) -> Result<Command<'a>, AllocError> {
    for (id, short, help) in FLAGS {
        command = with_flag(alloc, command, id, short, help)?;
    }
    Ok(command)
}

fn command<'a>(alloc: Global) -> Result<Command<'a>, AllocError> {
    let command = Command::new(alloc, "hirhead").version("1.0").about(
        "Prints the query for the patterns, in the notation of hirscan",
    );
    let command = command.bin_name("hirhead")?;
    let command = with_flags(alloc, command)?;
    let command = with_crlf(alloc, command)?;
    let command = with_switch(
        alloc,
        command,
        "unicode",
        "whether classes and words are Unicode's",
    )?;
    let command = with_switch(
        alloc,
        command,
        "utf8",
        "whether matches are of whole characters",
    )?;
    let command = with_nest_limit(alloc, command)?;
    let command = with_patterns(alloc, command)?;
    Ok(command)
}

fn is_on(matches: &ArgMatches<'_>, id: &str) -> bool {
    matches.get_str(id) != Some("off")
}

fn how_of(matches: &ArgMatches<'_>) -> PatternOptions {
    PatternOptions {
        ignore_case: matches.get_flag("ignore-case"),
        multi_line: matches.get_flag("multi-line"),
        dot_matches_new_line: matches.get_flag("dot-matches-new-line"),
        swap_greed: matches.get_flag("swap-greed"),
        crlf: matches.get_flag("crlf"),
        unicode: is_on(matches, "unicode"),
        utf8: is_on(matches, "utf8"),
        nest_limit: matches.get_one::<u32>("nest-limit").unwrap_or(250),
    }
}

/// Reports why there is no query. A pattern that is rejected is shown with the offset of the error.
fn report_error(rt: &HostRuntime, texts: &[&str], error: QueryError) -> Result<u8, AllocError> {
    let number = error.number;
    match error.cause {
        Cause::Text(ParseError::Refused { kind, span }) => {
            let Some(text) = texts.get(number) else {
                return Ok(2);
            };
            if !text.is_char_boundary(span.start) {
                return Ok(2);
            }
            let shown = pointed(rt.alloc(), *text, span.start)?;
            let message = kind.message();
            let _ = eprint!(rt; "hirhead: pattern {number}: {message}\n{shown}");
        }
        Cause::Lines(Unfit::TooDeep) => {
            let _ = eprintln!(rt; "hirhead: pattern {number}: its tree is above 250 nodes high");
        }
        Cause::Lines(Unfit::TooManyParts) => {
            let _ = eprintln!(rt; "hirhead: pattern {number}: 4294967296 parts or more in a row");
        }
        Cause::Text(ParseError::NoMemory) | Cause::Lines(Unfit::NoMemory) => return Err(AllocError),
    }
    Ok(2)
}

fn run_texts(rt: &HostRuntime, texts: &[&str], how: &PatternOptions) -> Result<u8, AllocError> {
    match query_for(rt.alloc(), texts, how) {
        Ok(head) => match print!(rt; "{head}") {
            Ok(()) => Ok(0),
            Err(_) => {
                let _ = eprintln!(rt; "hirhead: write fault");
                Ok(2)
            }
        },
        Err(error) => report_error(rt, texts, error),
    }
}

/// The strings as patterns that match them literally.
fn escaped(alloc: Global, texts: &[&str]) -> Result<Vec<String>, AllocError> {
    let mut patterns = Vec::new(alloc);
    for text in texts {
        let pattern = regex_syntax::escape(alloc, *text)?;
        patterns.push(pattern)?;
    }
    Ok(patterns)
}

fn run_fixed(rt: &HostRuntime, texts: &[&str], how: &PatternOptions) -> Result<u8, AllocError> {
    let alloc = rt.alloc();
    let patterns = escaped(alloc, texts)?;
    let mut words: Vec<&str> = Vec::new(alloc);
    for pattern in patterns.iter() {
        words.push(pattern.as_str())?;
    }
    run_texts(rt, words.as_slice(), how)
}

fn run_matches(rt: &HostRuntime, matches: &ArgMatches<'_>) -> Result<u8, AllocError> {
    let how = how_of(matches);
    let Some(texts) = matches.get_strs("PATTERN") else {
        return Ok(2);
    };
    if matches.get_flag("fixed-strings") {
        run_fixed(rt, texts, &how)
    } else {
        run_texts(rt, texts, &how)
    }
}

fn run(rt: &HostRuntime) -> Result<u8, AllocError> {
    let alloc = rt.alloc();
    let Ok(args) = env::args(rt) else {
        let _ = eprintln!(rt; "hirhead: an argument isn't UTF-8");
        return Ok(2);
    };
    let mut owned: Vec<String> = Vec::new(alloc);
    for arg in args {
        owned.push(arg)?;
    }
    let command = command(alloc)?;
    match command.try_get_matches_from(owned.as_slice()) {
        Ok(matches) => run_matches(rt, &matches),
        Err(error) => {
            let _ = error.print(rt);
            Ok(if error.use_stderr() { 2 } else { 0 })
        }
    }
}

fn main(rt: HostRuntime) -> ExitCode {
    match run(&rt) {
        Ok(status) => ExitCode::from(status),
        Err(_) => {
            let _ = eprintln!(rt; "hirhead: out of memory");
            ExitCode::from(2)
        }
    }
}
