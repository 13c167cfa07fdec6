//! Searches haystacks in which the automata give up by the toolchain's programs of the same patterns.
ghost use Rattle.std.specs.Prelude.{◌≡◌, ◌≤◌, ◌&&◌, ◌++◌, ◌∷◌, [], ℕ, List, Some, IfErr, IfOk, OnOk, is_some, length, map, slice_get, string_bytes};
ghost use Rattle.regex.specs.Search.{leftmost_in};
ghost use Rattle.regex_hir.specs.Meaning.{meaning};
ghost use Rattle.regex_hir.specs.Re.{Re};
ghost use Rattle.regex_meta.specs.Programs.{pattern_of};
ghost use Rattle.regex_syntax.specs.Captures.{SameCaptures};
ghost use Rattle.regex_syntax.specs.declared.Config.{Config as TextConfig};
ghost use Rattle.meta_regex.specs.Regexes.{IsSearchError};
ghost use Rattle.meta_regex.specs.Wordless.{both_true};
ghost use Rattle.meta_regex.specs.Fallbacks.{AreFallbacksFor, AreFallbacksOf, IsFoundFor, finds_any};

use crate::errors::SearchError;
use crate::found_match::FoundMatch;
use crate::texts::borrowed;
use pattern_fallback::{
    Alternatives, ProgramError, SIZE_LIMIT, find_from, has_one, number_at, parse_all,
};
use pattern_text::Config;
use regex_hir::Hir;
use regex_meta::{Program, Searcher};
use std::alloc::{AllocError, Global};

/// A program for all patterns and, if there are several, one for each of them.
#[derive(Drop)]
pub(crate) struct Fallbacks {
    pub(crate) all: Box<Program>,
    pub(crate) each: Vec<Box<Program>>,
}

fn push_copy(copies: &mut Vec<Hir>, copy: Hir) -> Result<(), AllocError>
    ensures { OnOk result (copies.new.items ≡ copies.old.items ++ copy ∷ []) }
{
    copies.push(copy)?;
    Ok(())
}

/// Copies of parsed patterns, which mean the same.
fn copies_of(alloc: Global, hirs: &[Hir]) -> Result<Vec<Hir>, AllocError>
    ensures { IfOk result (λ copies. map meaning copies.items ≡ map meaning hirs.now) }
{
    let mut copies = Vec::new(alloc);
    for hir in hirs {
        push_copy(&mut copies, hir.copy(alloc)?)?;
    }
    Ok(copies)
}

/// Compiles the programs of patterns.
fn programs_of(alloc: Global, texts: &[&str], config: &Config) -> Result<Fallbacks, ProgramError>
    ensures { IfOk result (AreFallbacksOf config.now (map (λ t. t.now) texts.now)) }
{
    let options = config.options();
    let parsed = parse_all(alloc, texts, &options)?;
    let copies = Alternatives {
        hirs: copies_of(alloc, &parsed.hirs)?,
        groups: parsed.groups,
    };
    let all = parsed.program(alloc, SIZE_LIMIT)?;
    let each = copies.programs(alloc, SIZE_LIMIT)?;
    Ok(Fallbacks { all, each })
}

/// Compiles the programs of patterns of which automata exist, so no error is one of syntax.
pub(crate) fn fallbacks_of(
    alloc: Global,
    texts: &[String],
    config: &Config,
) -> Result<Fallbacks, SearchError>
    ensures made { IfOk result (AreFallbacksOf config.now (map string_bytes texts.now)) }
    ensures refused { IfErr result (λ e. (config : TextConfig) → (h : List ℕ) → IsSearchError config h e) }
{
    let texts = match borrowed(alloc, texts) {
        Ok(texts) => texts,
        Err(_) => return Err(SearchError::NoMemory),
    };
    match programs_of(alloc, &texts, config) {
        Ok(fallbacks) => Ok(fallbacks),
        Err(ProgramError::NoMemory) => Err(SearchError::NoMemory),
        Err(ProgramError::TooLarge) => Err(SearchError::TooLarge),
    }
}

impl Fallbacks {
    /// The program of the pattern with this number. A single pattern has the program of all.
    fn program(&self, number: usize) -> &Program
        ensures { (res : List Re) (a : Re) → AreFallbacksFor res self.now → slice_get res number ≡ Some a →
            SameCaptures (pattern_of result.now) a }
    {
        match self.each.get(number) {
            Some(program) => program,
            None => &self.all,
        }
    }
}

/// The match from an offset on. In UTF-8 mode it doesn't start inside a character.
pub(crate) fn find_match(
    alloc: Global,
    fallbacks: &Fallbacks,
    haystack: &[u8],
    from: usize,
    utf8: bool,
) -> Result<Option<FoundMatch>, AllocError>
    requires { from ≤ length haystack.now }
    ensures { IfOk result (λ found. (res : List Re) → AreFallbacksFor res fallbacks.now → IsFoundFor utf8 res haystack.now from found) }
{
    let mut searcher = Searcher::new(alloc, &fallbacks.all)?;
    let Some(span) = find_from(&mut searcher, haystack, from, utf8) else {
        return Ok(None);
    };
    let number = number_at(alloc, &fallbacks.each, haystack, span.start)?;
    Ok(Some(FoundMatch {
        pattern: number,
        start: span.start,
        end: span.end,
    }))
}

/// Whether a program has a match, if it may have one.
fn has_one_if(
    alloc: Global,
    program: &Program,
    haystack: &[u8],
    may: bool,
    utf8: bool,
) -> Result<bool, AllocError>
    ensures { IfOk result (λ has. (a : Re) → SameCaptures (pattern_of program.now) a →
        has ≡ (may && is_some (leftmost_in utf8 a haystack.now 0))) }
{
    if !may {
        return Ok(false);
    }
    let mut searcher = Searcher::new(alloc, program)?;
    Ok(has_one(&mut searcher, haystack, utf8))
}

fn push(tests: &mut Vec<bool>, test: bool) -> Result<(), AllocError>
    ensures { OnOk result (tests.new.items ≡ tests.old.items ++ test ∷ []) }
{
    tests.push(test)?;
    Ok(())
}

/// For each pattern, whether it has a match. Only those are searched for of which the test says that they may have one.
pub(crate) fn have_each(
    alloc: Global,
    fallbacks: &Fallbacks,
    haystack: &[u8],
    may: &[bool],
    utf8: bool,
) -> Result<Vec<bool>, AllocError>
    ensures { IfOk result (λ tests. (res : List Re) → AreFallbacksFor res fallbacks.now → length may.now ≡ length res →
        tests.items ≡ both_true may.now (map (finds_any utf8 haystack.now) res)) }
{
    let mut tests = Vec::new(alloc);
    for number in 0..may.len() {
        let has = has_one_if(
            alloc,
            fallbacks.program(number),
            haystack,
            may[number],
            utf8,
        )?;
        push(&mut tests, has)?;
    }
    Ok(tests)
}
