//! Finds the lines of blocks that may have a match, in inputs of any script.
ghost use Rattle.std.specs.Prelude.{◌≡◌, ◌≤◌, ◌∷◌, [], IfSome, true, false, length, not};
ghost use Rattle.hir_regex.specs.Built.{IsBuilt};
ghost use Rattle.line_search.specs.BoundedTrees.{IsTreeForLines};
ghost use Rattle.line_search.specs.Candidates.{IsCandidatesOf, IsLineStart, ReachesLine, block_regex};
ghost use Rattle.line_trees.specs.LineTrees.{reads_feed};
ghost use Rattle.line_search.specs.Searchers.{line_settings};

use crate::candidates::{BlockFacts, Reached, block_search, exact_regex, stop_of, wordless_regex};
use crate::fault::Fault;
use crate::line_patterns::LinePatterns;
use growing_regex::GrowingRegex;
use hir_core::Hir;
use std::alloc::Global;
use std::marker::Model;

/// After the exact search of blocks gave up, this many bytes are searched without looks at words.
const WORDLESS_SPAN: usize = 1 << 16;

/// Two searches of blocks for the same patterns. The exact one is used until it gives up at a byte above ASCII. Then the other one, which has
/// no looks at words, is used for some time. That one never gives up, but passes fewer lines. If the exact one can't be built, no line is
/// passed.
#[derive(Drop)]
pub(crate) struct CandidateFinder<'t> {
    patterns: &'t LinePatterns<'t>,
    exact: Option<GrowingRegex>,
    /// What is known of the exact one.
    known: BlockFacts,
    /// It is built when the exact one first gives up, if that is possible.
    wordless: Option<GrowingRegex>,
    /// Whether the exact one gave up before.
    gave_up: bool,
    /// How many more bytes are searched without looks at words.
    wordless_left: usize,
}

impl<'t> Model for CandidateFinder<'t> {
    ghost use Rattle.std.specs.Prelude.{IfSome, ℕ, List, false};
    ghost use Rattle.line_search.specs.Candidates.{IsCandidatesOf, block_regex};
    ghost use Rattle.line_search.specs.declared.patterns.PatternOptions.{PatternOptions};

    ghost Value = { PatternOptions × List (List ℕ) };

    ghost view = { λ f. f.patterns.now };

    ghost invariant = { λ f. IfSome f.exact (λ g. IsCandidatesOf f.patterns.now.0 f.patterns.now.1 (block_regex g.pair f.known))
        × IfSome f.wordless (λ g. IsCandidatesOf f.patterns.now.0 f.patterns.now.1
        (block_regex g.pair (record { exact = false; feedless = false; crlf = f.patterns.now.0.crlf }))) };
}

/// A search of blocks for the tree of the patterns, over a search of lines for it. If there is none, each line is searched by itself.
fn exact_candidates(
    alloc: Global,
    patterns: &LinePatterns<'_>,
    tree: &Hir,
    lines: &GrowingRegex,
) -> Option<GrowingRegex>
    requires tree { IsTreeForLines patterns.now.0 patterns.now.1 tree.now }
    requires lines { IsBuilt (tree.now ∷ []) line_settings lines.now.pair }
    ensures { IfSome result (λ g. IsCandidatesOf patterns.now.0 patterns.now.1
        (block_regex g.pair (record { exact = true; feedless = not (reads_feed tree.now); crlf = patterns.now.0.crlf }))) }
{
    let crlf = patterns.how().crlf;
    let Ok(regex) = exact_regex(alloc, tree, lines, crlf) else {
        return None;
    };
    let Ok(candidates) = block_search(alloc, regex, tree) else {
        return None;
    };
    candidates
}

/// A search of blocks for the tree of the patterns without its looks at words, if there is one.
fn wordless_candidates(alloc: Global, patterns: &LinePatterns<'_>) -> Option<GrowingRegex>
    ensures { IfSome result (λ g. IsCandidatesOf patterns.now.0 patterns.now.1
        (block_regex g.pair (record { exact = false; feedless = false; crlf = patterns.now.0.crlf }))) }
{
    let crlf = patterns.how().crlf;
    let Ok(tree) = patterns.tree(false) else {
        return None;
    };
    let Ok(regex) = wordless_regex(alloc, tree, crlf) else {
        return None;
    };
    let Ok(candidates) = block_search(alloc, regex, tree) else {
        return None;
    };
    candidates
}

/// How often the caches of a search were cleared, if there is one.
fn clears_of(search: &Option<GrowingRegex>) -> usize {
    match search {
        Some(search) => search.clear_count(),
        None => 0,
    }
}

/// The bytes that the caches of a search are estimated to need, if there is one.
fn usage_of(search: &Option<GrowingRegex>) -> usize {
    match search {
        Some(search) => search.memory_usage(),
        None => 0,
    }
}

impl<'t> CandidateFinder<'t> {
    /// Builds the exact search, over a search of lines for the tree of the patterns.
    pub(crate) fn new(
        alloc: Global,
        patterns: &'t LinePatterns<'t>,
        tree: &Hir,
        lines: &GrowingRegex,
    ) -> CandidateFinder<'t>
        requires tree { IsTreeForLines patterns.now.0 patterns.now.1 tree.now }
        requires lines { IsBuilt (tree.now ∷ []) line_settings lines.now.pair }
        ensures { result ≡ patterns.now }
    {
        CandidateFinder {
            patterns,
            exact: exact_candidates(alloc, patterns, tree, lines),
            known: BlockFacts::of(tree, true, patterns.how().crlf),
            wordless: None,
            gave_up: false,
            wordless_left: 0,
        }
    }

    /// How often the caches were cleared. The greatest number stands for any number above it.
    pub(crate) fn clear_count(&self) -> usize {
        clears_of(&self.exact).saturating_add(clears_of(&self.wordless))
    }

    /// The bytes that the caches are estimated to need.
    pub(crate) fn memory_usage(&self) -> usize {
        usage_of(&self.exact).saturating_add(usage_of(&self.wordless))
    }

    /// Returns the next line that may have a match, by the search without looks at words. If there is none, this is the line at `at`.
    fn reach_wordless(&mut self, block: &[u8], at: usize) -> Result<Reached, Fault>
        requires within { at ≤ length block.now }
        requires starts { IsLineStart block.now at }
        ensures same { self.new ≡ self.old }
        ensures reaches { ReachesLine self.old.0 self.old.1 block.now at result }
    {
        let Some(wordless) = &mut self.wordless else {
            return Ok(Reached::here(at));
        };
        let found = wordless.find_earliest_end(block, at);
        let stop = match stop_of(at, found) {
            Ok(stop) => stop,
            Err(e) => return Err(e),
        };
        let known = BlockFacts::without_words(self.patterns.how().crlf);
        let reached = known.reached(block, at, stop);
        Ok(reached)
    }

    /// Has the next bytes searched without looks at words.
    #[inline(never)]
    fn begin_wordless(&mut self, alloc: Global)
        ensures { self.new ≡ self.old }
    {
        self.wordless_left = WORDLESS_SPAN;
        if self.gave_up {
            return;
        }
        self.gave_up = true;
        self.wordless = wordless_candidates(alloc, self.patterns);
    }

    /// Records that this many bytes were searched without looks at words.
    fn count_wordless(&mut self, bytes: usize)
        ensures { self.new ≡ self.old }
    {
        self.wordless_left = self.wordless_left.saturating_sub(bytes.max(1));
    }

    /// Returns the start of the next line of a block that may have a match, or the end of the block if none may. It also returns whether
    /// that line is known to have a match. The offset `at` is the start of a line. No line from there up to the returned offset has a
    /// match.
    pub(crate) fn search_block(
        &mut self,
        alloc: Global,
        block: &[u8],
        at: usize,
    ) -> Result<Reached, Fault>
        requires within { at ≤ length block.now }
        requires starts { IsLineStart block.now at }
        ensures same { self.new ≡ self.old }
        ensures reaches { ReachesLine self.old.0 self.old.1 block.now at result }
    {
        if self.wordless_left == 0 {
            let Some(exact) = &mut self.exact else {
                return Ok(Reached::here(at));
            };
            let found = exact.find_earliest_end(block, at);
            let stop = match stop_of(at, found) {
                Ok(stop) => stop,
                Err(e) => return Err(e),
            };
            let reached = self.known.reached(block, at, stop);
            if !reached.gave_up {
                return Ok(reached);
            }
            self.begin_wordless(alloc);
        }
        let reached = match self.reach_wordless(block, at) {
            Ok(reached) => reached,
            Err(e) => return Err(e),
        };
        self.count_wordless(reached.passed);
        Ok(reached)
    }
}
