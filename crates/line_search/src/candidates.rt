//! The lines of a block that may have a match.
ghost use Rattle.std.specs.Prelude.{◌≡◌, ◌==◌, ◌&&◌, ◌||◌, ◌≤◌, ◌<◌, ◌-◌, ◌∷◌, ℕ, Bool, List, [], length, option_map, slice_get};
ghost use Rattle.std.specs.Prelude.{is_some, not, slice_range};
ghost use Rattle.std.specs.Prelude.{true, Option, Some, IfErr, IfOk, IfSome, false};
ghost use Rattle.hir_core.specs.Tree.{Tree};
ghost use Rattle.regex_pair.specs.Pairs.{Pair};
ghost use Rattle.line_trees.specs.LineTrees.{line_tree, has_crlf, reads_feed, HasNoFeedFrom};
ghost use Rattle.hir_regex.specs.Built.{IsBuilt, FailsBuild};
ghost use Rattle.ucd_perl.specs.Perl.{is_word_char};
ghost use Rattle.growing_regex.specs.Earliest.{IsEarliestEnd, IsEarliestError, looks_by};
ghost use Rattle.line_search.specs.BoundedTrees.{IsTreeForLines};
ghost use Rattle.line_search.specs.declared.patterns.PatternOptions.{PatternOptions};
ghost use Rattle.line_search.specs.Candidates.{IsCandidatesOf, IsLineStart, HaveNoMatch, HasMatchAt, IsStop, IsStopIfAny};
ghost use Rattle.line_search.specs.Candidates.{IsEnd, block_regex, searched_tree, StopsInLine};
ghost use Rattle.line_search.specs.Searchers.{line_settings};
ghost use Rattle.line_search.specs.declared.fault.Fault.TheVariants.{NoMemory};

use crate::edges::asks_for_edge;
use crate::fault::Fault;
use crate::feeds::skip_back;
use crate::regexes::regex_of;
use growing_regex::{GrowingRegex, LARGEST};
use hir_core::Hir;
use hir_regex::see_bytes;
use lazy_dfa::BuildError;
use line_trees::{has_crlf, line_tree, reads_feed, wordless_tree};
use regex_pair::regex::Regex;
use search_types::{MatchError, MatchErrorKind};
use std::alloc::{AllocError, Global};
use std::sync::Arc;

/// What is known of a search of blocks, by which a line at which it stops may be known to have a match.
///
/// A regex searches blocks of lines for patterns. If a line has a match, then each block that contains the line has one there. So the lines
/// before the earliest end of a match in the block have none. A match in the block need not be a match in a line, since it may extend over the
/// ends of lines. It is one if the tree consumes no line feed and no carriage return belongs to the end of a line. If a carriage return does
/// belong to it, a match in the block may consume that byte, so each such line is searched by itself.
///
/// The regex is built from the tree of the patterns, or from that tree without its looks at words by characters. With such looks a search
/// gives up at each byte above ASCII. Without them it doesn't, but a line with a match need have none of the patterns. If the tree is its
/// own line tree, the regex is shared with the search of lines.
#[derive(Clone, Copy)]
pub(crate) struct BlockFacts {
    /// Whether the tree of the patterns is searched for as it is.
    exact: bool,
    /// Whether the tree consumes no line feed.
    feedless: bool,
    /// Whether a carriage return right before a line feed belongs to the end of a line.
    crlf: bool,
}

/// Where the search of a block stops.
#[derive(Clone, Copy)]
pub(crate) struct Stop {
    place: usize,
    /// Whether a match ends there. Otherwise the search gives up there.
    is_end: bool,
}

/// The result of searching a block.
#[derive(Clone, Copy)]
pub struct Reached {
    /// The start of the next line that may have a match, or the end of the block.
    pub start: usize,
    /// Whether that line is known to have a match.
    pub has: bool,
    /// How many bytes the search consumed.
    pub passed: usize,
    /// Whether the search gave up in that line.
    pub gave_up: bool,
}

impl Reached {
    /// The line that starts at this offset, of which nothing is known.
    pub(crate) fn here(start: usize) -> Reached
        ensures { result ≡ record { start = start; has = false; passed = 0; gave_up = false } }
    {
        Reached::line(start, false)
    }

    /// The line that starts at this offset, and whether it is known to have a match.
    pub(crate) fn line(start: usize, has: bool) -> Reached
        ensures { result ≡ record { start = start; has = has; passed = 0; gave_up = false } }
    {
        Reached {
            start,
            has,
            passed: 0,
            gave_up: false,
        }
    }
}

/// The offset right after the last line feed between both offsets, or the first offset if there is none.
pub fn line_start(block: &[u8], at: usize, place: usize) -> usize
    requires { at ≤ length block.now }
    ensures from { at ≤ result }
    ensures within { result ≤ length block.now }
    ensures before { at < result → result ≤ place }
    ensures starts { at < result → slice_get block.now (result - 1) ≡ Some 10 }
    ensures last { HasNoFeedFrom block.now result place }
{
    let mut start = skip_back(block, at, place.min(block.len()));
    while at < start {
        if block[start - 1] == b'\n' {
            return start;
        }
        start -= 1;
    }
    at
}

/// The offset at which a failed search stopped.
fn refused_at(at: usize, error: &MatchError) -> Result<usize, Fault>
    ensures reported { (xs : List Tree) (block : List ℕ) → IsEarliestError is_word_char xs line_settings block at error.now →
        IfOk result (λ place. IsStop xs block at place) }
    ensures refused { IfErr result (λ e. e ≡ NoMemory) }
{
    match error.kind() {
        MatchErrorKind::Quit { offset, .. } => Ok(*offset),
        MatchErrorKind::NoMemory => Err(Fault::NoMemory),
        _ => Ok(at),
    }
}

/// A search that found the end of a match stops there.
fn stop_at(end: Option<usize>) -> Option<Stop>
    ensures { option_map (λ stop. stop.place) result ≡ end }
{
    match end {
        Some(place) => Some(Stop {
            place,
            is_end: true,
        }),
        None => None,
    }
}

/// Where the search of a block from `at` on stops, given what it returned. It stops at the least end of the matches in the block that start
/// at this offset or later. Or it stops at a byte at which it gives up, before which no such match ends. If there is no such match, it stops
/// nowhere.
pub(crate) fn stop_of(
    at: usize,
    found: Result<Option<usize>, MatchError>,
) -> Result<Option<Stop>, Fault>
    ensures reported { (xs : List Tree) (block : List ℕ) →
        IfOk found (λ o. IsEarliestEnd xs (looks_by is_word_char line_settings block) block at (length block) o) →
        IfErr found (λ e. IsEarliestError is_word_char xs line_settings block at e) →
        IfOk result (λ o. IsStopIfAny xs block at (option_map (λ stop. stop.place) o)) }
    ensures ends { (xs : List Tree) (block : List ℕ) →
        IfOk found (λ o. IsEarliestEnd xs (looks_by is_word_char line_settings block) block at (length block) o) →
        IfOk result (λ o. IfSome o (λ stop. stop.is_end ≡ true → IsEnd xs block at stop.place)) }
    ensures refused { IfErr result (λ e. e ≡ NoMemory) }
{
    let error = match found {
        Ok(end) => return Ok(stop_at(end)),
        Err(error) => error,
    };
    let place = match refused_at(at, &error) {
        Ok(place) => place,
        Err(e) => return Err(e),
    };
    Ok(Some(Stop {
        place,
        is_end: false,
    }))
}

/// The regex of the line tree of this tree.
fn line_regex(alloc: Global, tree: &Hir, crlf: bool) -> Result<Arc<Regex>, BuildError>
    ensures built { IfOk result (λ re. IsBuilt (line_tree crlf tree.now ∷ []) line_settings re.value) }
    ensures refused { IfErr result (λ e. FailsBuild (line_tree crlf tree.now ∷ []) line_settings e) }
{
    let Ok(line) = line_tree(alloc, tree, crlf) else {
        return Err(BuildError::NoMemory);
    };
    match regex_of(alloc, &line) {
        Ok(regex) => Ok(regex),
        Err(e) => Err(e),
    }
}

/// The regex that searches blocks for this tree. If it is its own line tree, this is the regex of the searcher of lines.
pub(crate) fn exact_regex(
    alloc: Global,
    tree: &Hir,
    lines: &GrowingRegex,
    crlf: bool,
) -> Result<Arc<Regex>, BuildError>
    requires { IsBuilt (tree.now ∷ []) line_settings lines.now.pair }
    ensures built { IfOk result (λ re. IsBuilt (line_tree crlf (searched_tree true tree.now) ∷ []) line_settings re.value) }
    ensures refused { IfErr result (λ e. FailsBuild (line_tree crlf (searched_tree true tree.now) ∷ []) line_settings e) }
{
    if asks_for_edge(tree) {
        return match line_regex(alloc, tree, crlf) {
            Ok(regex) => Ok(regex),
            Err(e) => Err(e),
        };
    }
    match lines.regex() {
        Ok(regex) => Ok(regex),
        Err(_) => Err(BuildError::NoMemory),
    }
}

/// The regex that searches blocks for this tree without its looks at words by characters.
pub(crate) fn wordless_regex(
    alloc: Global,
    tree: &Hir,
    crlf: bool,
) -> Result<Arc<Regex>, BuildError>
    ensures built { IfOk result (λ re. IsBuilt (line_tree crlf (searched_tree false tree.now) ∷ []) line_settings re.value) }
    ensures refused { IfErr result (λ e. FailsBuild (line_tree crlf (searched_tree false tree.now) ∷ []) line_settings e) }
{
    let Ok(wordless) = wordless_tree(alloc, tree) else {
        return Err(BuildError::NoMemory);
    };
    match line_regex(alloc, &wordless, crlf) {
        Ok(regex) => Ok(regex),
        Err(e) => Err(e),
    }
}

/// A search of blocks of lines for the tree of the patterns, or for that tree without its looks at words by characters, with the regex that
/// is built for this. It returns none if the tree has a look-around assertion about carriage returns, since the laws about blocks don't cover
/// such a tree.
pub(crate) fn block_search(
    alloc: Global,
    regex: Arc<Regex>,
    tree: &Hir,
) -> Result<Option<GrowingRegex>, AllocError>
    ensures some { IfOk result (λ o. is_some o ≡ not (has_crlf tree.now)) }
    ensures candidates { (how : PatternOptions) (texts : List (List ℕ)) (exact feedless : Bool) → IsTreeForLines how texts tree.now →
        (feedless ≡ true → reads_feed tree.now ≡ false) →
        IsBuilt (line_tree how.crlf (searched_tree exact tree.now) ∷ []) line_settings regex.value →
        IfOk result (λ o. IfSome o (λ g. IsCandidatesOf how texts
        (block_regex g.pair (record { exact = exact; feedless = feedless; crlf = how.crlf })))) }
{
    if has_crlf(tree) {
        return Ok(None);
    }
    let search = GrowingRegex::new(alloc, regex, LARGEST)?;
    Ok(Some(search))
}

impl BlockFacts {
    /// What is known of a search for this tree as it is, or without its looks at words by characters.
    pub(crate) fn of(tree: &Hir, exact: bool, crlf: bool) -> BlockFacts
        ensures { result ≡ record { exact = exact; feedless = not (reads_feed tree.now); crlf = crlf } }
    {
        let feedless = !reads_feed(tree);
        BlockFacts {
            exact,
            feedless,
            crlf,
        }
    }

    /// What is known of any search without looks at words by characters.
    pub(crate) fn without_words(crlf: bool) -> BlockFacts
        ensures { result ≡ record { exact = false; feedless = false; crlf = crlf } }
    {
        BlockFacts {
            exact: false,
            feedless: false,
            crlf,
        }
    }

    /// Whether the line that starts at `start` is known to have a match, if the search started at `at`. It has one if a match ends in it
    /// that can't have begun before it. That is so if the search started there. It is also so if the tree consumes no line feed, since a
    /// match that began earlier would have consumed the one before the line. If a carriage return belongs to the end of a line, no line is
    /// known to have a match. None is if looks at words were left out either.
    fn is_known(&self, stop: Stop, start: usize, at: usize) -> bool
        ensures { result ≡ (not self.now.crlf && (self.now.exact && (stop.is_end && (self.now.feedless || start == at)))) }
    {
        !self.crlf && self.exact && stop.is_end && (self.feedless || start == at)
    }

    /// Returns the start of the next line that may have a match, or the end of the block if none may, by where the search of the block from
    /// `at` on stopped. The offset `at` is the start of a line. None of the lines from `at` up to the returned offset has a match.
    ///
    /// Unless the end of the block is returned, the search stopped in the line that starts at the returned offset, or at the line feed
    /// before it. It stopped at the least end of the matches in the block from `at` on. Or it stopped at a byte at which it gives up, such
    /// as a byte that isn't ASCII if words are asked for.
    ///
    /// If that match ends in the line that starts at `at`, or if the tree consumes no line feed, it is a match of the line. If a carriage
    /// return belongs to the end of a line, it need not be one.
    pub(crate) fn reached(&self, block: &[u8], at: usize, stop: Option<Stop>) -> Reached
        requires within { at ≤ length block.now }
        requires starts { IsLineStart block.now at }
        ensures from { at ≤ result.start }
        ensures within { result.start ≤ length block.now }
        ensures starts { result.start < length block.now → IsLineStart block.now result.start }
        ensures passed { (how : PatternOptions) (texts : List (List ℕ)) (re : Pair) (it : IsCandidatesOf how texts (block_regex re self.now)) →
            IsStopIfAny (line_tree how.crlf (searched_tree self.now.exact it.tree) ∷ []) block.now at (option_map (λ s. s.place) stop) →
            HaveNoMatch how texts (slice_range block.now at result.start) }
        ensures has { (how : PatternOptions) (texts : List (List ℕ)) (re : Pair) (it : IsCandidatesOf how texts (block_regex re self.now)) →
            IfSome stop (λ s. s.is_end ≡ true →
            IsEnd (line_tree how.crlf (searched_tree self.now.exact it.tree) ∷ []) block.now at s.place) →
            result.has ≡ true → HasMatchAt how texts block.now result.start }
        ensures stops { (xs : List Tree) → IsStopIfAny xs block.now at (option_map (λ s. s.place) stop) →
            result.start < length block.now → StopsInLine xs block.now at result.start }
    {
        see_bytes(block);
        match stop {
            None => Reached {
                start: block.len(),
                has: false,
                passed: block.len() - at,
                gave_up: false,
            },
            Some(stop) => {
                let start = line_start(block, at, stop.place);
                Reached {
                    start,
                    has: self.is_known(stop, start, at),
                    passed: stop.place.saturating_sub(at),
                    gave_up: !stop.is_end,
                }
            }
        }
    }
}
