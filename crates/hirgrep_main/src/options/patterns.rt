//! The patterns that are searched for.
ghost use Rattle.std.specs.Prelude.{◌≡◌, IfOk, map, string_bytes};
ghost use Rattle.line_search.specs.Meant.{written};

use crate::options::asked::Asked;
use crate::options::decisions::lists_matches;
use crate::results::messages::is_misnamed;
use clap::ArgMatches;
use grep_cli::{PatternFile, Stop, given_patterns, put_longest_first, strs_of};
use line_search::pattern_source;
use std::alloc::{AllocError, Global};
use std::rt::Runtime;

/// The patterns in the syntax that is parsed.
fn texts_of(alloc: Global, asked: &Asked, patterns: &[&str]) -> Result<Vec<String>, AllocError>
    ensures { IfOk result (λ v. map string_bytes v.items ≡ map (λ p. written asked.now.how.fixed p.now) patterns.now) }
{
    let mut texts = Vec::new(alloc);
    for pattern in patterns {
        let text = pattern_source(alloc, asked.how.fixed, pattern)?;
        texts.push(text)?;
    }
    Ok(texts)
}

/// The patterns in the syntax that is parsed, in the order in which they are preferred.
fn parsed_patterns(
    alloc: Global,
    asked: &Asked,
    given: &[String],
) -> Result<Vec<String>, AllocError> {
    let mut patterns = strs_of(alloc, given)?;
    if lists_matches(asked) {
        put_longest_first(asked.how.fixed, &mut patterns)?;
    }
    texts_of(alloc, asked, patterns.as_slice())
}

/// The patterns that are searched for.
#[derive(Drop)]
pub struct Patterns<'a> {
    /// As they are given.
    pub given: Vec<String>,
    /// In the syntax that is parsed, in the order in which they are preferred.
    pub parsed: Vec<String>,
    /// The files of which they were read.
    pub files: Vec<PatternFile<'a>>,
}

impl<'a> Patterns<'a> {
    /// The patterns that the command line gives. Reports it if there is none, if a file can't be read, or if one has a class without a name.
    pub fn given(
        rt: &HostRuntime,
        asked: &Asked,
        matches: &'a ArgMatches<'_>,
        lists: bool,
    ) -> Result<Patterns<'a>, Stop> {
        let mut files = Vec::new(rt.alloc());
        let Some(given) = given_patterns(
            rt,
            asked.how.crlf,
            asked.reports_input,
            matches,
            lists,
            &mut files,
        )?
        else {
            return Err(Stop::With(2));
        };
        if !asked.how.fixed && is_misnamed(rt, &files, &given)? {
            return Err(Stop::With(2));
        }
        let parsed = parsed_patterns(rt.alloc(), asked, &given)?;
        Ok(Patterns {
            given,
            parsed,
            files,
        })
    }
}
