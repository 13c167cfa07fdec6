//! Compiles patterns, and searches files for them.
ghost use Rattle.std.specs.Prelude.{◌≡◌, IfOk, map};
ghost use Rattle.hirgrep_main.specs.Outcomes.{no_outcome, with_failure};
ghost use Rattle.hirgrep_main.specs.Asks.{with_case};

use crate::options::asked::Asked;
use crate::options::decisions::lists_matches;
use crate::options::patterns::Patterns;
use crate::results::messages::report_no_finder;
use crate::results::outcome::Outcome;
use crate::searching::{Files, search_files};
use grep_cli::{ignores_case, strs_of};
use line_search::{Finder, LinePatterns, PatternOptions, SearcherError, config_of};
use std::alloc::AllocError;
use std::rt::Runtime;

/// The patterns that are searched for, with their groups if matches are replaced.
fn sought_of<'t>(rt: &HostRuntime, asked: &Asked, texts: &'t [&'t str]) -> LinePatterns<'t>
    ensures { result ≡ (asked.now.how, map (λ t. t.now) texts.now) }
{
    if asked.what.replacement.is_some() {
        return LinePatterns::with_groups(rt.alloc(), texts, &asked.how);
    }
    LinePatterns::new(rt.alloc(), texts, &asked.how)
}

/// What is asked for, with the case of letters that these patterns ask for under smart case. They are in the syntax that is parsed.
fn with_case<'a>(asked: &Asked<'a>, texts: &[&str]) -> Asked<'a>
    ensures { result ≡ with_case asked.now (map (λ s. s.now) texts.now) }
{
    let ignore_case = asked.how.ignore_case || asked.smart_case && ignores_case(texts);
    Asked {
        how: PatternOptions {
            ignore_case,
            ..asked.how
        },
        ..*asked
    }
}

/// Reports why the patterns can't be searched for, and returns a failure.
fn refuse_patterns(
    rt: &HostRuntime,
    asked: &Asked,
    patterns: &Patterns<'_>,
    error: SearcherError,
) -> Result<Outcome, AllocError>
    ensures { IfOk result (λ o. o ≡ with_failure no_outcome) }
{
    report_no_finder(rt, &config_of(&asked.how), patterns, error)?;
    Ok(Outcome::failure())
}

/// Compiles the patterns, and searches files for them. The finder is freed before the one way out, and by its own crate, since proofs of what
/// a function drops get larger faster than what it owns.
pub fn search(
    rt: &HostRuntime,
    asked: &Asked,
    patterns: &Patterns<'_>,
    files: Files<'_>,
) -> Result<Outcome, AllocError> {
    let texts = strs_of(rt.alloc(), patterns.parsed.as_slice())?;
    let asked = with_case(asked, texts.as_slice());
    let sought = sought_of(rt, &asked, texts.as_slice());
    let searched = match Finder::new(rt.alloc(), &sought, lists_matches(&asked)) {
        Ok(mut finder) => {
            let mut outcome = Outcome::new();
            let given = patterns.given.as_slice();
            let searched = search_files(rt, &mut finder, &asked, given, &mut outcome, files);
            finder.close();
            match searched {
                Ok(()) => Ok(outcome),
                Err(error) => Err(error),
            }
        }
        Err(error) => refuse_patterns(rt, &asked, patterns, error),
    };
    drop(sought);
    drop(texts);
    searched
}
