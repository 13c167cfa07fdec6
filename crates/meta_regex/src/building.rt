//! Builds automata from patterns.
ghost use Rattle.std.specs.Prelude.{◌≡◌, All, Some, false, true, IfErr, IfNone, IfOk, IfSome, map};
ghost use Rattle.hir_core.specs.Facts.{LoopsRead};
ghost use Rattle.hir_regex.specs.Loops.{first_empty_loop};
ghost use Rattle.meta_regex.specs.Options.{config_of};
ghost use Rattle.search_types.specs.declared.match_kind.MatchKind.TheVariants.{LeftmostFirst};
ghost use Rattle.meta_regex.specs.Regexes.{AreReportedOf, IsNewError};
ghost use Rattle.meta_regex.specs.Starts.{AreTreesOf};

use crate::errors::NewError;
use crate::options::Options;
use hir_core::Hir;
use hir_regex::{all_loops_read, build, first_empty_loop};
use pattern_search::parse_all;
use regex_pair::regex::Regex;
use search_types::MatchKind;
use std::alloc::Global;

/// Two automata built from patterns, the trees of these, and whether the body of every unbounded repetition in them consumes at least one
/// byte.
#[derive(Drop)]
pub(crate) struct Built {
    pub(crate) pair: Regex,
    pub(crate) trees: Vec<Hir>,
    pub(crate) loops: bool,
}

/// If empty loops aren't allowed, the number of the first pattern that has one: an unbounded repetition whose body can match the empty
/// string.
fn refused_loop(trees: &[Hir], options: &Options) -> Option<usize>
    ensures none { IfNone result (options.now.empty_loops ≡ false → All LoopsRead trees.now) }
    ensures some { IfSome result (λ number. (options.now.empty_loops ≡ false) × (first_empty_loop trees.now ≡ Some number)) }
{
    if options.empty_loops {
        None
    } else {
        first_empty_loop(trees)
    }
}

/// Builds automata from patterns, which find leftmost-first matches.
pub(crate) fn build_pair(
    alloc: Global,
    texts: &[&str],
    options: &Options,
) -> Result<Built, NewError>
    ensures made { IfOk result (λ b. (it : AreReportedOf (config_of options.now) (map (λ t. t.now) texts.now) LeftmostFirst b.loops b.pair)
        ×
        (options.now.empty_loops ≡ false → b.loops ≡ true)) }
    ensures trees { IfOk result (λ b. AreTreesOf (config_of options.now) (map (λ t. t.now) texts.now) b.loops b.trees.items) }
    ensures refused { IfErr result (IsNewError options.now (map (λ t. t.now) texts.now)) }
{
    let trees = match parse_all(alloc, texts, &options.syntax) {
        Ok(trees) => trees,
        Err(e) => return Err(NewError::Text(e)),
    };
    if let Some(number) = refused_loop(&trees, options) {
        return Err(NewError::EmptyLoop(number));
    }
    let loops = all_loops_read(&trees);
    let settings = options.settings(MatchKind::LeftmostFirst);
    let pair = match build(alloc, &trees, &settings) {
        Ok(pair) => pair,
        Err(e) => return Err(NewError::Build(e)),
    };
    Ok(Built { pair, trees, loops })
}
