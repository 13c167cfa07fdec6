//! Finds patterns by literals and automata. Where automata give up at a quit byte, a program of the toolchain for the same patterns answers.
ghost use Rattle.std.specs.Prelude.{◌≡◌, IfErr, IfOk, map, option_map, true, ◌≤◌, length};
ghost use Rattle.hir_core.specs.Facts.{LoopsRead};
ghost use Rattle.line_search.specs.BoundedTrees.{IsTreeAskedFor};
ghost use Rattle.line_search.specs.Candidates.{IsLineStart, IsNextLine};
ghost use Rattle.line_search.specs.FoundSpans.{IsNextSpan, IsFoundSpan};
ghost use Rattle.line_search.specs.LineMatchers.{span_pair};
ghost use Rattle.line_search.specs.Searchers.{AreReplaced, IsMatchReported, AreReported, IsSearcherError, SearchesFor};

use crate::candidate_finder::CandidateFinder;
use crate::candidates::Reached;
use crate::fault::Fault;
use crate::fewer_words::with_fewer_words;
use crate::line_patterns::LinePatterns;
use crate::literal_lines::{LiteralLines, line_end};
use crate::regexes::search_of;
use crate::replacing::Replaced;
use crate::searcher::{SearcherError, span_of, spans_of};
use crate::slow_search::SlowSearch;
use crate::strings::{borrowed, strings_of};
use growing_regex::{GrowingRegex, lacks_memory};
use hir_core::Hir;
use hir_regex::headline::searches_answer_leftmost_whatever_the_loops;
use hir_regex::see_bytes;
use pattern_fallback::ends_at;
use pattern_search::regex_laws::regexes_answer_what_patterns_say;
use pattern_search::search_from;
use search_types::{Input, Span};
use std::alloc::Global;
use std::marker::Model;
use std::mem;

/// Finds patterns in lines.
///
/// Automata search the lines. In some lines they give up at a quit byte, for example if `\b` is tried next to a byte that isn't ASCII. Such
/// lines are searched by a program of the toolchain for the same patterns ([`LinePatterns`]).
///
/// In blocks of lines, the literals of which each match contains one are searched for first, and automata are asked about the lines that
/// have one. While that doesn't pay, and if there are no such literals, automata search the blocks. They do so as the patterns stand, and,
/// after that gave up at a quit byte, for some time without looks at words. That passes fewer lines, each of which is then searched by
/// itself.
///
/// If the caches of the automata are cleared too soon, they are enlarged, up to 256 MiB each. This happens for example if prose is searched
/// for a thousand patterns that aren't literals.
#[derive(Drop)]
pub struct Finder<'t> {
    /// What searches lines.
    searcher: GrowingRegex,
    patterns: &'t LinePatterns<'t>,
    with_matches: bool,
    slow: SlowSearch<'t>,
    /// The literals of which each match contains one, if useful ones are known.
    literals: Option<LiteralLines>,
    /// The tree of the patterns, if a line with one of its strings is known to have a match.
    strings: Option<Hir>,
    candidates: CandidateFinder<'t>,
    /// Room for the bytes of an input, which is kept for the next one.
    room: Vec<u8>,
    /// How many reads there were into it.
    reads: u64,
}

impl<'t> Model for Finder<'t> {
    ghost use Rattle.std.specs.Prelude.{◌≡◌, IfSome, true};
    ghost use Rattle.hir_core.specs.Facts.{LoopsRead};
    ghost use Rattle.line_search.specs.BoundedTrees.{IsTreeOf};
    ghost use Rattle.line_search.specs.LiteralLines.{AreLiteralsOf, HasStringsOf};
    ghost use Rattle.line_search.specs.Searchers.{IsSearcherOf, Sought};

    ghost Value = { Sought };

    ghost view = { λ f. record { how = f.patterns.now.0; texts = f.patterns.now.1; spans = f.with_matches } };

    ghost invariant = { λ f.
        ((it : IsSearcherOf f.patterns.now.0 f.patterns.now.1 f.searcher.pair) × (f.with_matches ≡ true → IsTreeOf f.patterns.now.0 f.patterns.now.1 it.tree × LoopsRead it.tree))
        × (f.slow ≡ f.patterns.now)
        × (f.candidates ≡ f.patterns.now)
        × IfSome f.literals (AreLiteralsOf f.patterns.now.0 f.patterns.now.1)
        × IfSome f.strings (HasStringsOf f.patterns.now.0 f.patterns.now.1) };
}

impl<'t> Finder<'t> {
    /// Builds a finder that searches for this tree.
    fn of(
        alloc: Global,
        patterns: &'t LinePatterns<'t>,
        tree: &Hir,
        with_matches: bool,
    ) -> Result<Finder<'t>, SearcherError>
        requires tree { IsTreeAskedFor patterns.now.0 patterns.now.1 with_matches tree.now }
        requires loops { with_matches ≡ true → LoopsRead tree.now }
        ensures sought { IfOk result (λ f. f ≡ record { how = patterns.now.0; texts = patterns.now.1; spans = with_matches }) }
        ensures searches { IfOk result (λ f. SearchesFor f with_matches) }
        ensures refused { IfErr result (IsSearcherError patterns.now.0 patterns.now.1 with_matches) }
    {
        let searcher = match search_of(alloc, tree) {
            Ok(searcher) => searcher,
            Err(e) => return Err(SearcherError::Build(e)),
        };
        let literals = LiteralLines::new(alloc, tree, patterns.how().crlf);
        let candidates = CandidateFinder::new(alloc, patterns, tree, &searcher);
        Ok(Finder {
            searcher,
            patterns,
            with_matches,
            slow: SlowSearch::new(patterns),
            literals,
            strings: strings_of(alloc, tree, patterns.how().crlf),
            candidates,
            room: Vec::new(alloc),
            reads: 0,
        })
    }

    /// Builds a finder for patterns. It may be asked for matches, or only for whether there is one. It searches any bytes, whether they are
    /// UTF-8 or not. Each pattern is parsed by itself, and the result is then bounded as `how` asks. So nothing in a pattern can affect
    /// what is put around it.
    ///
    /// It returns an error if a pattern can't be parsed, with the number of the pattern and the offset in it. It also returns an error if
    /// matches are asked for and a pattern has an unbounded repetition whose body can match the empty string.
    pub fn new(
        alloc: Global,
        patterns: &'t LinePatterns<'t>,
        with_matches: bool,
    ) -> Result<Finder<'t>, SearcherError>
        ensures sought { IfOk result (λ f. f ≡ record { how = patterns.now.0; texts = patterns.now.1; spans = with_matches }) }
        ensures searches { IfOk result (λ f. SearchesFor f with_matches) }
        ensures refused { IfErr result (IsSearcherError patterns.now.0 patterns.now.1 with_matches) }
    {
        let tree = match patterns.tree(with_matches) {
            Ok(tree) => tree,
            Err(e) => return Err(e),
        };
        match with_fewer_words(alloc, tree, with_matches) {
            Some(fewer) => Finder::of(alloc, patterns, &fewer, with_matches),
            None => Finder::of(alloc, patterns, tree, with_matches),
        }
    }

    /// Takes the room for the bytes of an input. Returns it, and how many reads there were into it.
    pub fn take_room(&mut self, alloc: Global) -> (Vec<u8>, u64)
        ensures { self.new ≡ self.old }
    {
        let room = mem::replace(&mut self.room, Vec::new(alloc));
        (room, self.reads)
    }

    /// Keeps the room for the next input, and how many reads there were into it.
    pub fn keep_room(&mut self, room: Vec<u8>, reads: u64)
        ensures { self.new ≡ self.old }
    {
        self.room = room;
        self.reads = reads;
    }

    /// Whether a carriage return right before a line feed belongs to the end of a line.
    pub fn crlf(&self) -> bool
        ensures { result ≡ self.now.how.crlf }
    {
        self.patterns.how().crlf
    }

    /// Returns the next line that may have a match, by the literals. If there are none, this is the line at `at`.
    fn skip_by_literals(&mut self, block: &[u8], at: usize) -> Reached
        requires within { at ≤ length block.now }
        requires starts { IsLineStart block.now at }
        ensures same { self.new ≡ self.old }
        ensures next { IsNextLine self.old.how self.old.texts block.now at result }
    {
        let strings = borrowed(&self.strings);
        let Some(literals) = &mut self.literals else {
            return Reached::here(at);
        };
        literals.next_with_literal(block, at, strings)
    }

    /// Whether the last search for literals stopped in the line that starts at this offset.
    fn has_literal_at(&self, at: usize) -> bool {
        match &self.literals {
            Some(literals) => literals.stopped_at(at),
            None => false,
        }
    }

    /// Records that this many bytes of blocks were searched by automata alone.
    fn note_blocks(&mut self, bytes: usize)
        ensures { self.new ≡ self.old }
    {
        let Some(literals) = &mut self.literals else {
            return;
        };
        literals.pass(bytes);
    }

    /// Asks automata about the line at `at` alone. Returns its start if it may have a match, and the start of the line after it otherwise.
    fn search_line(&mut self, alloc: Global, block: &[u8], at: usize) -> Result<Reached, Fault>
        requires within { at ≤ length block.now }
        requires starts { IsLineStart block.now at }
        ensures same { self.new ≡ self.old }
        ensures next { IfOk result (IsNextLine self.old.how self.old.texts block.now at) }
    {
        let end = line_end(block, at);
        let reached = self.candidates.search_block(alloc, &block[..end], at)?;
        if reached.start < end {
            return Ok(reached);
        }
        Ok(Reached::here(reached.start))
    }

    /// Returns the start of the next line of a block that may have a match, or the end of the block if none may. It also returns whether
    /// that line is known to have a match. The offset `at` is the start of a line. No line from there up to the returned offset has a
    /// match.
    pub fn next_line(&mut self, alloc: Global, block: &[u8], at: usize) -> Result<Reached, Fault>
        requires within { at ≤ length block.now }
        requires starts { IsLineStart block.now at }
        ensures same { self.new ≡ self.old }
        ensures next { IfOk result (IsNextLine self.old.how self.old.texts block.now at) }
    {
        let skipped = self.skip_by_literals(block, at);
        if at < skipped.start || skipped.has {
            return Ok(skipped);
        }
        if self.has_literal_at(at) {
            let reached = self.search_line(alloc, block, at)?;
            return Ok(reached);
        }
        let reached = self.candidates.search_block(alloc, block, at)?;
        self.note_blocks(reached.passed);
        Ok(reached)
    }

    /// Frees what the finder owns.
    pub fn close(self) {
        drop(self);
    }

    /// How often the caches of the automata were cleared. The greatest number stands for any number above it.
    pub fn clear_count(&self) -> usize {
        let clears = self.searcher.clear_count();
        clears.saturating_add(self.candidates.clear_count())
    }

    /// The bytes that the caches are estimated to need.
    pub fn memory_usage(&self) -> usize {
        let usage = self.searcher.memory_usage();
        usage.saturating_add(self.candidates.memory_usage())
    }

    /// The number of lines in which the automata gave up, so that the toolchain's program reported whether there is a match.
    pub fn slow_lines(&self) -> u64 {
        self.slow.lines()
    }

    /// Whether the line has a match of some pattern. If the automata give up, the program reports it.
    pub fn has_match(&mut self, alloc: Global, line: &[u8]) -> Result<bool, Fault>
        ensures same { self.new ≡ self.old }
        ensures reported { IfOk result (λ reported. IsMatchReported self.old.how self.old.texts line.now reported) }
    {
        see_bytes(line);
        searches_answer_leftmost_whatever_the_loops();
        let error = match self.searcher.find(&Input::new(line)) {
            Ok(found) => return Ok(found.is_some()),
            Err(error) => error,
        };
        if lacks_memory(&error) {
            return Err(Fault::NoMemory);
        }
        let has = self.slow.has_match(alloc, line)?;
        Ok(has)
    }

    /// The matches of the line, from left to right.
    pub fn matches(&mut self, alloc: Global, line: &[u8]) -> Result<Vec<Span>, Fault>
        ensures same { self.new ≡ self.old }
        ensures reported { self.old.spans ≡ true →
            IfOk result (λ found. AreReported self.old.how self.old.texts line.now (map span_pair found.items)) }
    {
        see_bytes(line);
        regexes_answer_what_patterns_say();
        let error = match self.searcher.find_all(alloc, Input::new(line)) {
            Ok(all) => {
                let spans = spans_of(alloc, &all)?;
                return Ok(spans);
            }
            Err(error) => error,
        };
        if lacks_memory(&error) {
            return Err(Fault::NoMemory);
        }
        let found = self.slow.matches(alloc, line)?;
        Ok(found)
    }

    /// The line with its matches replaced by what a template writes for them, for patterns that were taken with their groups.
    pub fn replaced(
        &mut self,
        alloc: Global,
        line: &[u8],
        template: &[u8],
    ) -> Result<Replaced, Fault>
        ensures same { self.new ≡ self.old }
        ensures reported { IfOk result (λ r.
            AreReplaced self.old.how self.old.texts template.now line.now r.bytes.items (map span_pair r.spans.items)) }
    {
        let replaced = self.slow.replaced(alloc, line, template)?;
        Ok(replaced)
    }

    /// Whether it may be asked for matches.
    pub fn with_matches(&self) -> bool
        ensures { result ≡ self.now.spans }
    {
        self.with_matches
    }

    /// The span of the leftmost match that starts at an offset of the line or after it.
    pub fn find_from(
        &mut self,
        alloc: Global,
        line: &[u8],
        start: usize,
    ) -> Result<Option<Span>, Fault>
        requires { start ≤ length line.now }
        ensures same { self.new ≡ self.old }
        ensures reported { self.old.spans ≡ true →
            IfOk result (λ found. IsFoundSpan self.old.how self.old.texts line.now start (option_map span_pair found)) }
    {
        see_bytes(line);
        regexes_answer_what_patterns_say();
        let error = match self.searcher.find(&search_from(line, start)) {
            Ok(found) => return Ok(span_of(found)),
            Err(error) => error,
        };
        if lacks_memory(&error) {
            return Err(Fault::NoMemory);
        }
        let found = self.slow.find_from(alloc, line, start)?;
        Ok(found)
    }

    /// The next span of the line after one that ended at this offset. An empty span there is skipped.
    pub fn find_next(
        &mut self,
        alloc: Global,
        line: &[u8],
        end: usize,
    ) -> Result<Option<Span>, Fault>
        ensures same { self.new ≡ self.old }
        ensures reported { self.old.spans ≡ true →
            IfOk result (λ found. IsNextSpan self.old.how self.old.texts line.now end (option_map span_pair found)) }
    {
        if end > line.len() {
            return Ok(None);
        }
        let next = self.find_from(alloc, line, end)?;
        if !ends_at(next, end) {
            return Ok(next);
        }
        if end >= line.len() {
            return Ok(None);
        }
        let later = self.find_from(alloc, line, end + 1)?;
        Ok(later)
    }
}
