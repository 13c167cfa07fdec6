ghost use Rattle.std.specs.Prelude.{IfOk};
ghost use Rattle.hir_regex.specs.Built.{IsBuilt, default_settings};

use hir_core::Hir;
use hir_regex::{Settings, build, program_settings};
use lazy_dfa::BuildError;
use pattern_search::{PatternError, parse_all};
use pattern_text::Config;
use regex_pair::regex::Regex;
use std::alloc::Global;

/// A regex of trees, each a pattern of its own, the first preferred.
pub fn of_trees(alloc: Global, trees: &[Hir]) -> Result<Regex, BuildError>
    ensures { IfOk result (λ re. IsBuilt trees.now default_settings re) }
{
    build(alloc, trees, &Settings::new())
}

/// Why there is no regex of patterns as text.
#[derive(Debug, Drop)]
pub enum NoRegex {
    /// A pattern is rejected: its number, what is wrong and where.
    Text(PatternError),
    /// The trees have no automata.
    Trees(BuildError),
}

/// A regex of patterns in the syntax of the crate `regex`. Unicode word boundaries are accepted: searches then give up at bytes above 7F.
pub fn of_texts(alloc: Global, texts: &[&str]) -> Result<Regex, NoRegex> {
    let trees = match parse_all(alloc, texts, &Config::new()) {
        Ok(trees) => trees,
        Err(e) => return Err(NoRegex::Text(e)),
    };
    match build(alloc, &trees, &program_settings(Settings::new())) {
        Ok(re) => Ok(re),
        Err(e) => Err(NoRegex::Trees(e)),
    }
}
