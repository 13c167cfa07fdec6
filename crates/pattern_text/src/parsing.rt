ghost use Rattle.std.specs.Prelude.{◌+◌, ◌*◌, ◌≤◌, IfOk, IfErr, IsTrue};
ghost use Rattle.hir_core.specs.Facts.{is_utf8_tree, height};
ghost use Rattle.pattern_text.specs.Patterns.{MeansText, IsFault};

use crate::config::Config;
use crate::parse_error::ParseError;
use crate::trees::tree_of;
use hir_core::Hir;
use std::alloc::Global;

/// The tree of a pattern, which is written in the syntax of the crate `regex`.
pub fn parse(alloc: Global, pattern: &str, config: &Config) -> Result<Hir, ParseError>
    ensures means { IfOk result (λ x. MeansText config.now pattern.now x) }
    ensures utf8 { IsTrue config.now.utf8 → IfOk result (λ x. IsTrue (is_utf8_tree x)) }
    ensures height { IfOk result (λ x. height x ≤ 5 * config.now.nest_limit + 5) }
    ensures refused { IfErr result (λ e. IsFault config.now pattern.now e) }
{
    let parsed = match regex_syntax::parse(alloc, pattern, &config.options()) {
        Ok(parsed) => parsed,
        Err(error) => return Err(ParseError::of_parser(error)),
    };
    match tree_of(alloc, &parsed.hir, &parsed.names) {
        Ok(tree) => Ok(tree),
        Err(_) => Err(ParseError::NoMemory),
    }
}
