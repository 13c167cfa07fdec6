ghost use Rattle.std.specs.Prelude.{◌≡◌, ◌≤◌, ◌+◌, ◌*◌, ◌++◌, ◌∷◌, [], IfErr, IfOk, IsTrue, OnOk, All, map};
ghost use Rattle.hir_core.specs.Facts.{is_utf8_tree, height};
ghost use Rattle.hir_core.specs.Tree.{Tree};
ghost use Rattle.pattern_text.specs.Patterns.{MeansText, IsFault};
ghost use Rattle.pattern_search.specs.Texts.{AllMean, IsFirstFault};

use hir_core::Hir;
use pattern_text::{Config, ParseError, parse};
use std::alloc::Global;
use std::error::Error;
use std::fmt;

/// Why there are no trees for several patterns: the error of one of them.
#[derive(Clone, Copy, Debug, PartialEq, Eq)]
pub struct PatternError {
    /// The number of the pattern, counted from 0.
    pub number: usize,
    /// What is wrong with it, and where in it.
    pub error: ParseError,
}

/// Appends the tree of a pattern to those before it.
fn push(alloc: Global, trees: &mut Vec<Hir>, text: &str, config: &Config) -> Result<(), ParseError>
    ensures pushed { OnOk result ((x : Tree) × (trees.new.items ≡ trees.old.items ++ x ∷ []) × MeansText config.now text.now x
        × (IsTrue config.now.utf8 → IsTrue (is_utf8_tree x))
        × (height x ≤ 5 * config.now.nest_limit + 5)) }
    ensures refused { IfErr result (λ e. IsFault config.now text.now e) }
{
    let tree = parse(alloc, text, config)?;
    match trees.push(tree) {
        Ok(()) => Ok(()),
        Err(_) => Err(ParseError::NoMemory),
    }
}

/// The trees of patterns, one for each and in their order. If a pattern is rejected, the error is that of the
/// first rejected one, with its number, counted from 0.
pub fn parse_all(alloc: Global, texts: &[&str], config: &Config) -> Result<Vec<Hir>, PatternError>
    ensures means { IfOk result (λ xs. AllMean config.now (map (λ t. t.now) texts.now) xs.items) }
    ensures utf8 { IsTrue config.now.utf8 → IfOk result (λ xs. All (λ x. IsTrue (is_utf8_tree x)) xs.items) }
    ensures heights { IfOk result (λ xs. All (λ x. height x ≤ 5 * config.now.nest_limit + 5) xs.items) }
    ensures refused { IfErr result (λ e. IsFirstFault config.now (map (λ t. t.now) texts.now) e.number e.error) }
{
    let mut trees = Vec::new(alloc);
    for (number, text) in texts.iter().enumerate() {
        match push(alloc, &mut trees, text, config) {
            Ok(()) => {}
            Err(error) => return Err(PatternError { number, error }),
        }
    }
    Ok(trees)
}

impl fmt::Display for PatternError {
    fn fmt<W: fmt::Write>(&self, f: &mut fmt::Formatter<W>) -> fmt::Result {
        let number = self.number;
        let error = self.error;
        write!(f, "pattern {number}: {error}")
    }
}

impl Error for PatternError {}
