//! Which of several patterns a match is of.
ghost use Rattle.std.specs.Prelude.{◌≡◌, ◌≤◌, IfOk, List, is_some, length, true};
ghost use Rattle.regex_hir.specs.Meaning.{alt_all};
ghost use Rattle.regex_hir.specs.Re.{Re, accept, attempt};
ghost use Rattle.regex_meta.specs.Programs.{pattern_of};
ghost use Rattle.regex_syntax.specs.Captures.{SameCaptures};
ghost use Rattle.pattern_fallback.specs.Fallbacks.{AreProgramsOfEach, first_at};

use crate::searching::see_bytes;
use regex_meta::{Program, Searcher};
use std::alloc::{AllocError, Global};

/// Whether a program has a match that starts at an offset.
fn starts_at(
    alloc: Global,
    program: &Program,
    haystack: &[u8],
    start: usize,
) -> Result<bool, AllocError>
    requires { start ≤ length haystack.now }
    ensures { IfOk result (λ starts. (a : Re) → SameCaptures (pattern_of program.now) a →
        starts ≡ is_some (attempt haystack.now a accept start)) }
{
    see_bytes(haystack);
    let mut searcher = Searcher::new(alloc, program)?;
    match searcher.find(haystack, start) {
        Some((first, _)) => Ok(first == start),
        None => Ok(false),
    }
}

/// The number, counted from 0, of the first of several patterns that has a match at an offset. There has to be such a pattern. The programs
/// are those of the patterns, in their order. A single pattern needs none.
pub fn number_at(
    alloc: Global,
    programs: &[Box<Program>],
    haystack: &[u8],
    start: usize,
) -> Result<usize, AllocError>
    requires { start ≤ length haystack.now }
    ensures { IfOk result (λ number. (res : List Re) → AreProgramsOfEach res programs.now →
        is_some (attempt haystack.now (alt_all res) accept start) ≡ true → number ≡ first_at res haystack.now start) }
{
    for number in 0..programs.len() {
        let starts = starts_at(alloc, &programs[number], haystack, start)?;
        if starts {
            return Ok(number);
        }
    }
    Ok(programs.len())
}
