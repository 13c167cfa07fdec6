//! Finds where a pattern has an empty loop: an unbounded repetition whose body can match the empty string.

use hir_regex::first_empty_loop;
use pattern_search::parse_all;
use pattern_text::{Config, ParseError};
use regex_syntax::ErrorKind;
use std::alloc::{AllocError, Global};

/// The length in bytes of the longest pattern in which the empty loop is located.
const LONGEST: usize = 4096;

/// What a prefix of a pattern is, with some closing parentheses after it.
#[derive(Clone, Copy)]
enum Begun {
    /// A pattern without an empty loop.
    Plain,
    /// A pattern with an empty loop.
    Looping,
    /// A group is still open.
    Open,
    /// More groups are closed than were opened.
    Closed,
    /// A text that can't be parsed for another reason.
    Unread,
}

/// The prefix, a line feed, which ends a comment, and after it this many closing parentheses.
fn closed(alloc: Global, beginning: &str, open: usize) -> Result<String, AllocError> {
    let mut text = String::from_str(alloc, beginning)?;
    text.push('\n')?;
    for _ in 0..open {
        text.push(')')?;
    }
    Ok(text)
}

fn begun_by(kind: ErrorKind) -> Begun {
    match kind {
        ErrorKind::GroupUnclosed => Begun::Open,
        ErrorKind::GroupUnopened => Begun::Closed,
        _ => Begun::Unread,
    }
}

fn read_begun(alloc: Global, config: &Config, text: &str) -> Result<Begun, AllocError> {
    match parse_all(alloc, &[text], config) {
        Ok(trees) => Ok(match first_empty_loop(&trees) {
            Some(_) => Begun::Looping,
            None => Begun::Plain,
        }),
        Err(error) => match error.error {
            ParseError::NoMemory => Err(AllocError),
            ParseError::Refused { kind, .. } => Ok(begun_by(kind)),
        },
    }
}

/// Whether the prefix has an empty loop. `open` is the number of groups that a shorter prefix leaves open, and is updated for this one.
fn has_loop(
    alloc: Global,
    config: &Config,
    beginning: &str,
    open: &mut usize,
) -> Result<bool, AllocError> {
    for _ in 0..LONGEST {
        let text = closed(alloc, beginning, *open)?;
        match read_begun(alloc, config, text.as_str())? {
            Begun::Looping => return Ok(true),
            Begun::Open => *open = open.saturating_add(1),
            Begun::Closed if *open > 0 => *open -= 1,
            Begun::Closed | Begun::Plain | Begun::Unread => return Ok(false),
        }
    }
    Ok(false)
}

/// Whether an unbounded repetition may end with this byte, apart from a `?` that makes it lazy.
fn may_end_loop(byte: u8) -> bool {
    byte == b'*' || byte == b'+' || byte == b'}'
}

/// The offset of the last byte of the first empty loop. That is where the shortest prefix of the pattern ends that has one once its groups
/// are closed. A pattern of more than 4096 bytes isn't searched for it.
pub fn loop_offset(
    alloc: Global,
    config: &Config,
    pattern: &str,
) -> Result<Option<usize>, AllocError> {
    if pattern.len() > LONGEST {
        return Ok(None);
    }
    let mut open = 0usize;
    for (at, byte) in pattern.as_bytes().iter().enumerate() {
        if !may_end_loop(*byte) {
            continue;
        }
        let Some((beginning, _)) = pattern.split_at_checked(at.saturating_add(1)) else {
            continue;
        };
        if has_loop(alloc, config, beginning, &mut open)? {
            return Ok(Some(at));
        }
    }
    Ok(None)
}
