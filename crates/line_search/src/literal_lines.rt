//! Skips lines that have none of the literals of which every match contains one, and knows lines that have a match by a string in them.
ghost use Rattle.std.specs.Prelude.{◌≡◌, ◌≤◌, ◌<◌, ℕ, List, length, IfSome};
ghost use Rattle.line_search.specs.BoundedTrees.{IsTreeForLines};
ghost use Rattle.line_search.specs.Candidates.{IsLineStart, IsNextLine};
ghost use Rattle.line_search.specs.LiteralLines.{AreLiteralsOf, HasStringsOf};
ghost use Rattle.line_search.specs.declared.patterns.PatternOptions.{PatternOptions};

use crate::candidates::{Reached, line_start};
use crate::feeds::feed_at;
use crate::strings::has_any_string_at;
use hir_core::Hir;
use hir_regex::see_bytes;
use line_trees::{has_crlf, line_tree};
use literal_search::{CandidateFinder, Effort};
use std::alloc::Global;
use std::marker::Model;

/// How many skipped bytes make up for a candidate: the automata search about as many in the time that a search of one short line takes.
const CANDIDATE: usize = 224;

/// What makes up for a candidate whose line is known to have a match, since automata don't search it.
const KNOWN: usize = 192;

/// Literals of which each match of the patterns contains one, and a search for them. A contract sees it as the list of the literals.
#[derive(Drop)]
pub(crate) struct LiteralLines {
    finder: CandidateFinder,
    effort: Effort,
    /// The start of the line at which the last search for literals stopped.
    stopped: usize,
}

impl Model for LiteralLines {
    ghost use Rattle.std.specs.Prelude.{ℕ, List};

    ghost Value = { List (List ℕ) };

    ghost view = { λ l. l.finder };
}

/// The offset after the line that starts at this offset: after its line feed, or at the end of the block.
pub(crate) fn line_end(block: &[u8], at: usize) -> usize
    requires { at ≤ length block.now }
    ensures from { at ≤ result }
    ensures within { result ≤ length block.now }
    ensures starts { result < length block.now → IsLineStart block.now result }
{
    match feed_at(&block[at..]) {
        Some(len) => at + len + 1,
        None => block.len(),
    }
}

impl LiteralLines {
    /// The literals of the tree of the patterns. It returns `None` if no useful ones are known, if the tree has a look-around assertion
    /// about carriage returns, or if memory ran out.
    pub(crate) fn new(alloc: Global, tree: &Hir, crlf: bool) -> Option<LiteralLines>
        ensures { (how : PatternOptions) (texts : List (List ℕ)) → how.crlf ≡ crlf → IsTreeForLines how texts tree.now →
            IfSome result (AreLiteralsOf how texts) }
    {
        if has_crlf(tree) {
            return None;
        }
        let Ok(line) = line_tree(alloc, tree, crlf) else {
            return None;
        };
        let Ok(made) = CandidateFinder::inside(alloc, &line) else {
            return None;
        };
        let Some(finder) = made else {
            return None;
        };
        Some(LiteralLines {
            finder,
            effort: Effort::with_price(CANDIDATE),
            stopped: usize::MAX,
        })
    }

    /// Whether the last search for literals stopped in the line that starts at this offset.
    pub(crate) fn stopped_at(&self, at: usize) -> bool {
        self.stopped == at
    }

    /// Records that this many bytes were searched by automata while no literals were searched for.
    pub(crate) fn pass(&mut self, bytes: usize)
        ensures { self.new ≡ self.old }
    {
        self.effort.pass(bytes);
    }

    /// Records that the search stopped in the line that starts at this offset, and whether the line is known to have a match.
    fn stop_at(&mut self, start: usize, has: bool)
        ensures { self.new ≡ self.old }
    {
        self.stopped = start;
        if has {
            self.effort.gain(KNOWN);
        }
    }

    /// Returns the start of the next line of a block that may have a match since the search for literals stops there, or the end of the
    /// block if none may. The line is known to have a match if the search stops at one of the strings. If it stopped in this line before, or
    /// doesn't pay, this is the line at `at`.
    pub(crate) fn next_with_literal(
        &mut self,
        block: &[u8],
        at: usize,
        strings: Option<&Hir>,
    ) -> Reached
        requires within { at ≤ length block.now }
        requires starts { IsLineStart block.now at }
        ensures same { self.new ≡ self.old }
        ensures next { (how : PatternOptions) (texts : List (List ℕ)) → AreLiteralsOf how texts self.old →
            IfSome strings.entry (λ x. HasStringsOf how texts x.now) → IsNextLine how texts block.now at result }
    {
        if self.stopped == at || !self.effort.pays() {
            return Reached::here(at);
        }
        see_bytes(block);
        match self.finder.next_end(&mut self.effort, block, at) {
            Some(place) => {
                let start = line_start(block, at, place);
                let has = has_any_string_at(strings, block, place);
                self.stop_at(start, has);
                Reached::line(start, has)
            }
            None => {
                self.stopped = usize::MAX;
                Reached::here(block.len())
            }
        }
    }
}
