//! Programs of the toolchain for lines in which the automata give up, one for all patterns.
ghost use Rattle.std.specs.Prelude.{◌≡◌, IfOk, map};
ghost use Rattle.regex_hir.specs.Meaning.{meaning};
ghost use Rattle.line_search.specs.Bounded.{bounded};
ghost use Rattle.line_search.specs.Fallbacks.{AreBoundedOf, AreProgramsOf, IsProgramOf};

use crate::bounded::bounded_pattern;
use crate::fault::Fault;
use crate::patterns::{PatternOptions, config_of};
use pattern_fallback::{Alternatives, parse_all};
use regex_hir::Hir;
use regex_meta::Program;
use std::alloc::{AllocError, Global};

/// The greatest size in bytes of a program that is compiled before the automata are. These take at most 60 MiB each, and patterns
/// that need more are rejected.
pub(crate) const EARLY_SIZE_LIMIT: usize = 1 << 25;

/// The trees of patterns with what is put around each of them.
fn bounded_each(
    alloc: Global,
    how: &PatternOptions,
    plain: Vec<Hir>,
) -> Result<Vec<Hir>, AllocError>
    ensures { IfOk result (λ v. map meaning v.items ≡ map (λ hir. bounded how.now (meaning hir)) plain.items) }
{
    let mut whole = Vec::new(alloc);
    for hir in plain {
        let bounded = bounded_pattern(alloc, how, hir)?;
        whole.push(bounded)?;
    }
    Ok(whole)
}

/// The trees of patterns, in order.
fn trees_of(alloc: Global, how: &PatternOptions, texts: &[&str]) -> Result<Alternatives, Fault>
    ensures { IfOk result (λ t. AreBoundedOf how.now (map (λ t. t.now) texts.now) (map meaning t.hirs.items)) }
{
    let parsed = parse_all(alloc, texts, &config_of(how).options())?;
    let groups = parsed.groups;
    let hirs = bounded_each(alloc, how, parsed.hirs)?;
    Ok(Alternatives { hirs, groups })
}

/// Compiles patterns into one program of at most so many bytes.
pub(crate) fn program_of(
    alloc: Global,
    how: &PatternOptions,
    texts: &[&str],
    size_limit: usize,
) -> Result<Box<Program>, Fault>
    ensures { IfOk result (λ p. IsProgramOf how.now (map (λ t. t.now) texts.now) p.value) }
{
    let trees = trees_of(alloc, how, texts)?;
    let program = trees.program(alloc, size_limit)?;
    Ok(program)
}

/// Compiles a program of each pattern, of at most so many bytes. There are none if there is no more than one pattern.
pub(crate) fn programs_of(
    alloc: Global,
    how: &PatternOptions,
    texts: &[&str],
    size_limit: usize,
) -> Result<Vec<Box<Program>>, Fault>
    ensures { IfOk result (λ ps. AreProgramsOf how.now (map (λ t. t.now) texts.now) ps.items) }
{
    let trees = trees_of(alloc, how, texts)?;
    let programs = trees.programs(alloc, size_limit)?;
    Ok(programs)
}
