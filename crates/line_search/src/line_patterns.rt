//! Patterns that lines are searched for.
ghost use Rattle.std.specs.Prelude.{◌≡◌, IfErr, IfOk, IfSome, map, true};
ghost use Rattle.hir_core.specs.Facts.{LoopsRead};
ghost use Rattle.line_search.specs.BoundedTrees.{IsTreeOf};
ghost use Rattle.line_search.specs.Fallbacks.{IsProgramOf};
ghost use Rattle.line_search.specs.Searchers.{IsSearcherError};

use crate::fallback::{EARLY_SIZE_LIMIT, program_of};
use crate::fault::Fault;
use crate::parsed_patterns::ParsedPatterns;
use crate::pattern_groups::{GROUPS_SIZE_LIMIT, PatternGroups};
use crate::patterns::PatternOptions;
use crate::searcher::SearcherError;
use hir_core::Hir;
use regex_meta::Program;
use std::alloc::Global;
use std::marker::Model;

/// Patterns, how they are interpreted, the one tree of them, and a program of the toolchain for them.
///
/// Finders of these patterns borrow the tree, so it is made once. The program searches the lines in which automata give up at a quit byte.
/// It is compiled at once if that can happen and it has at most 32 MiB, so that finders keep a searcher of it from line to line.
#[derive(Drop)]
pub struct LinePatterns<'t> {
    parsed: ParsedPatterns<'t>,
    program: Option<Box<Program>>,
    groups: Option<PatternGroups<'t>>,
    fault: Fault,
}

impl<'t> Model for LinePatterns<'t> {
    ghost use Rattle.std.specs.Prelude.{◌≡◌, IfSome, ℕ, List};
    ghost use Rattle.line_search.specs.Fallbacks.{IsProgramOf};
    ghost use Rattle.line_search.specs.declared.patterns.PatternOptions.{PatternOptions};

    ghost Value = { PatternOptions × List (List ℕ) };

    ghost view = { λ p. p.parsed };

    ghost invariant = { λ p. IfSome p.program (λ it. IsProgramOf p.parsed.0 p.parsed.1 it.value) × IfSome p.groups (λ g. g ≡ p.parsed) };
}

/// Whether both bytes may begin a look at words, as `\\b` does.
fn begins_look(first: u8, second: u8) -> bool {
    first == b'\\' && matches!(second, b'b' | b'B' | b'<' | b'>')
}

/// Whether a pattern may ask for words.
fn asks_for_words(text: &str) -> bool {
    text.as_bytes()
        .windows(2)
        .any(|pair| begins_look(pair[0], pair[1]))
}

/// Whether automata may give up at bytes above ASCII.
fn may_give_up(texts: &[&str], how: &PatternOptions) -> bool {
    (how.words && !how.lines) || texts.iter().any(|text| asks_for_words(text))
}

/// The program of patterns, if automata may give up and it can be compiled.
fn program_at_once(alloc: Global, texts: &[&str], how: &PatternOptions) -> Option<Box<Program>>
    ensures { IfSome result (λ p. IsProgramOf how.now (map (λ t. t.now) texts.now) p.value) }
{
    if may_give_up(texts, how) {
        program_of(alloc, how, texts, EARLY_SIZE_LIMIT).ok()
    } else {
        None
    }
}

/// Why matches can't be replaced, if the program or the groups couldn't be made.
fn fault_of(
    program: &Result<Box<Program>, Fault>,
    groups: &Result<PatternGroups<'_>, Fault>,
) -> Fault {
    match program {
        Err(e) => *e,
        Ok(_) => match groups {
            Err(e) => *e,
            Ok(_) => Fault::TooLarge,
        },
    }
}

impl<'t> LinePatterns<'t> {
    /// Takes patterns in the syntax that is parsed. No error is reported for a pattern: [`Finder::new`](crate::Finder::new) reports it.
    pub fn new(alloc: Global, texts: &'t [&'t str], how: &PatternOptions) -> LinePatterns<'t>
        ensures { result ≡ (how.now, map (λ t. t.now) texts.now) }
    {
        let program = program_at_once(alloc, texts, how);
        LinePatterns {
            parsed: ParsedPatterns::new(alloc, texts, how),
            program,
            groups: None,
            fault: Fault::TooLarge,
        }
    }

    /// Takes patterns whose matches are to be replaced. In any case a program is compiled that finds the groups of a match, unless it has more
    /// than 256 MiB. If there are several patterns, one is compiled for each of them too.
    pub fn with_groups(
        alloc: Global,
        texts: &'t [&'t str],
        how: &PatternOptions,
    ) -> LinePatterns<'t>
        ensures { result ≡ (how.now, map (λ t. t.now) texts.now) }
    {
        let program = program_of(alloc, how, texts, GROUPS_SIZE_LIMIT);
        let groups = PatternGroups::new(alloc, texts, how);
        let fault = fault_of(&program, &groups);
        LinePatterns {
            parsed: ParsedPatterns::new(alloc, texts, how),
            program: program.ok(),
            groups: groups.ok(),
            fault,
        }
    }

    /// The patterns.
    pub(crate) fn texts(&self) -> &'t [&'t str]
        ensures { map (λ t. t.now) result.now ≡ self.now.1 }
    {
        self.parsed.texts()
    }

    /// How they are interpreted.
    pub(crate) fn how(&self) -> PatternOptions
        ensures { result ≡ self.now.0 }
    {
        self.parsed.how()
    }

    /// The tree that lines are searched for, or why there is none.
    pub(crate) fn tree(&self, with_matches: bool) -> Result<&Hir, SearcherError>
        ensures tree { IfOk result (λ x. IsTreeOf self.now.0 self.now.1 x.now) }
        ensures loops { with_matches ≡ true → IfOk result (λ x. LoopsRead x.now) }
        ensures refused { IfErr result (IsSearcherError self.now.0 self.now.1 with_matches) }
    {
        match self.parsed.tree(with_matches) {
            Ok(tree) => Ok(tree),
            Err(e) => Err(e),
        }
    }

    /// Their groups, if matches are to be replaced.
    pub(crate) fn groups(&self) -> Option<&PatternGroups<'t>>
        ensures { IfSome result (λ g. g.now ≡ self.now) }
    {
        match &self.groups {
            Some(groups) => Some(groups),
            None => None,
        }
    }

    /// Why matches can't be replaced, if they can't.
    pub(crate) fn fault(&self) -> Fault {
        self.fault
    }

    /// Their program, if one is kept.
    pub(crate) fn program(&self) -> Option<&Program>
        ensures { IfSome result (λ p. IsProgramOf self.now.0 self.now.1 p.now) }
    {
        match &self.program {
            Some(program) => Some(program),
            None => None,
        }
    }
}
