//! Searches lines in which automata give up, by a program of the toolchain.
ghost use Rattle.std.specs.Prelude.{◌≡◌, ◌≤◌, IfOk, IfSome, length, map, option_map};
ghost use Rattle.line_search.specs.Fallbacks.{IsProgramOf};
ghost use Rattle.line_search.specs.FoundSpans.{IsFoundSpan};
ghost use Rattle.line_search.specs.LineMatchers.{span_pair};
ghost use Rattle.line_search.specs.Searchers.{AreReplaced, IsMatchReported, AreReported};

use crate::fallback::program_of;
use crate::fault::Fault;
use crate::line_patterns::LinePatterns;
use crate::replacing::{Replaced, replace_all};
use pattern_fallback::{SIZE_LIMIT, all_matches, find_from, has_one};
use regex_meta::{Program, Searcher};
use search_types::Span;
use std::alloc::Global;
use std::marker::Model;

/// The program of the patterns, and a searcher of it that is kept from line to line. If the patterns have none, a program is compiled for
/// the first line, and a searcher is made for each line.
#[derive(Drop)]
pub(crate) struct SlowSearch<'t> {
    patterns: &'t LinePatterns<'t>,
    kept: Option<Searcher<'t>>,
    program: Option<Box<Program>>,
    lines: u64,
}

impl<'t> Model for SlowSearch<'t> {
    ghost use Rattle.std.specs.Prelude.{IfSome, ℕ, List};
    ghost use Rattle.line_search.specs.Fallbacks.{IsProgramOf};
    ghost use Rattle.line_search.specs.declared.patterns.PatternOptions.{PatternOptions};

    ghost Value = { PatternOptions × List (List ℕ) };

    ghost view = { λ s. s.patterns.now };

    ghost invariant = { λ s. IfSome s.kept (λ it. IsProgramOf s.patterns.now.0 s.patterns.now.1 it.program.now)
        × IfSome s.program (λ it. IsProgramOf s.patterns.now.0 s.patterns.now.1 it.value) };
}

impl<'t> SlowSearch<'t> {
    /// A search for patterns. Nothing is compiled yet.
    pub(crate) fn new(patterns: &'t LinePatterns<'t>) -> SlowSearch<'t>
        ensures { result ≡ patterns.now }
    {
        SlowSearch {
            patterns,
            kept: None,
            program: None,
            lines: 0,
        }
    }

    /// The number of lines that were searched for whether they have a match.
    pub(crate) fn lines(&self) -> u64 {
        self.lines
    }

    /// A searcher of the program of the patterns, if they have one.
    fn make_kept(&self, alloc: Global) -> Result<Option<Searcher<'t>>, Fault>
        ensures { IfOk result (λ o. IfSome o (λ it. IsProgramOf self.now.0 self.now.1 it.program.now)) }
    {
        let Some(program) = self.patterns.program() else {
            return Ok(None);
        };
        let searcher = Searcher::new(alloc, program)?;
        Ok(Some(searcher))
    }

    /// Makes the searcher that is kept, if the patterns have a program and there is none yet.
    fn ready(&mut self, alloc: Global) -> Result<(), Fault>
        ensures { self.new ≡ self.old }
    {
        if self.kept.is_some() {
            return Ok(());
        }
        let kept = self.make_kept(alloc)?;
        self.kept = kept;
        Ok(())
    }

    /// Compiles the program of patterns that have none, if that wasn't done yet.
    fn compile(&mut self, alloc: Global) -> Result<(), Fault>
        ensures { self.new ≡ self.old }
    {
        if self.program.is_some() {
            return Ok(());
        }
        let how = self.patterns.how();
        let program = program_of(alloc, &how, self.patterns.texts(), SIZE_LIMIT)?;
        self.program = Some(program);
        Ok(())
    }

    /// A searcher of the program that was compiled, for one line.
    fn searcher(&self, alloc: Global) -> Result<Searcher<'_>, Fault>
        ensures { IfOk result (λ it. IsProgramOf self.now.0 self.now.1 it.program.now) }
    {
        let Some(program) = &self.program else {
            return Err(Fault::TooLarge);
        };
        let searcher = Searcher::new(alloc, program)?;
        Ok(searcher)
    }

    /// Whether the line has a match, by the searcher that is kept, if there is one.
    fn has_match_kept(&mut self, line: &[u8]) -> Option<bool>
        ensures same { self.new ≡ self.old }
        ensures reported { IfSome result (IsMatchReported self.old.0 self.old.1 line.now) }
    {
        let Some(searcher) = &mut self.kept else {
            return None;
        };
        let has = has_one(searcher, line, false);
        Some(has)
    }

    /// The matches of the line, by the searcher that is kept, if there is one.
    fn matches_kept(&mut self, alloc: Global, line: &[u8]) -> Result<Option<Vec<Span>>, Fault>
        ensures same { self.new ≡ self.old }
        ensures reported { IfOk result (λ o. IfSome o (λ found. AreReported self.old.0 self.old.1 line.now (map span_pair found.items))) }
    {
        let Some(searcher) = &mut self.kept else {
            return Ok(None);
        };
        let found = all_matches(alloc, searcher, line)?;
        Ok(Some(found))
    }

    /// The line with its matches replaced, by the searcher that is kept, if the patterns have groups to search for.
    fn replaced_kept(
        &mut self,
        alloc: Global,
        line: &[u8],
        template: &[u8],
    ) -> Result<Replaced, Fault>
        ensures same { self.new ≡ self.old }
        ensures reported { IfOk result (λ r.
            AreReplaced self.old.0 self.old.1 template.now line.now r.bytes.items (map span_pair r.spans.items)) }
    {
        let Some(groups) = self.patterns.groups() else {
            return Err(self.patterns.fault());
        };
        let Some(searcher) = &mut self.kept else {
            return Err(self.patterns.fault());
        };
        match replace_all(alloc, searcher, groups, line, template) {
            Ok(replaced) => Ok(replaced),
            Err(e) => Err(e),
        }
    }

    /// Whether the line has a match.
    pub(crate) fn has_match(&mut self, alloc: Global, line: &[u8]) -> Result<bool, Fault>
        ensures same { self.new ≡ self.old }
        ensures reported { IfOk result (IsMatchReported self.old.0 self.old.1 line.now) }
    {
        self.lines = self.lines.saturating_add(1);
        self.ready(alloc)?;
        if let Some(has) = self.has_match_kept(line) {
            return Ok(has);
        }
        self.compile(alloc)?;
        let mut searcher = self.searcher(alloc)?;
        Ok(has_one(&mut searcher, line, false))
    }

    /// The matches of the line, from left to right.
    pub(crate) fn matches(&mut self, alloc: Global, line: &[u8]) -> Result<Vec<Span>, Fault>
        ensures same { self.new ≡ self.old }
        ensures reported { IfOk result (λ found. AreReported self.old.0 self.old.1 line.now (map span_pair found.items)) }
    {
        self.ready(alloc)?;
        if let Some(found) = self.matches_kept(alloc, line)? {
            return Ok(found);
        }
        self.compile(alloc)?;
        let mut searcher = self.searcher(alloc)?;
        let spans = all_matches(alloc, &mut searcher, line)?;
        Ok(spans)
    }

    /// The line with its matches replaced by what a template writes for them. It is an error if the patterns weren't taken with their groups.
    pub(crate) fn replaced(
        &mut self,
        alloc: Global,
        line: &[u8],
        template: &[u8],
    ) -> Result<Replaced, Fault>
        ensures same { self.new ≡ self.old }
        ensures reported { IfOk result (λ r.
            AreReplaced self.old.0 self.old.1 template.now line.now r.bytes.items (map span_pair r.spans.items)) }
    {
        self.ready(alloc)?;
        let replaced = self.replaced_kept(alloc, line, template)?;
        Ok(replaced)
    }

    /// The span of the match from an offset of the line on, by the searcher that is kept, if there is one.
    fn find_kept(&mut self, line: &[u8], start: usize) -> Option<Option<Span>>
        requires { start ≤ length line.now }
        ensures same { self.new ≡ self.old }
        ensures reported { IfSome result (λ found. IsFoundSpan self.old.0 self.old.1 line.now start (option_map span_pair found)) }
    {
        let Some(searcher) = &mut self.kept else {
            return None;
        };
        let found = find_from(searcher, line, start, false);
        Some(found)
    }

    /// The span of the leftmost match that starts at an offset of the line or after it.
    pub(crate) fn find_from(
        &mut self,
        alloc: Global,
        line: &[u8],
        start: usize,
    ) -> Result<Option<Span>, Fault>
        requires { start ≤ length line.now }
        ensures same { self.new ≡ self.old }
        ensures reported { IfOk result (λ found. IsFoundSpan self.old.0 self.old.1 line.now start (option_map span_pair found)) }
    {
        self.ready(alloc)?;
        if let Some(found) = self.find_kept(line, start) {
            return Ok(found);
        }
        self.compile(alloc)?;
        let mut searcher = self.searcher(alloc)?;
        Ok(find_from(&mut searcher, line, start, false))
    }
}
