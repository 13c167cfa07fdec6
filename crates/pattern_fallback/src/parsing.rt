//! Parses patterns.
ghost use Rattle.std.specs.Prelude.{◌≡◌, ◌++◌, ◌∷◌, [], IfOk, OnOk, map};
ghost use Rattle.pattern_fallback.specs.Fallbacks.{AreParsedOf, IsParsedOf};

use crate::programs::ProgramError;
use regex_hir::Hir;
use regex_syntax::{Config, ErrorKind, Parsed};
use std::alloc::{AllocError, Global};

/// Parsed patterns in their order. Of those that match at an offset, the first is preferred.
#[derive(Drop)]
pub struct Alternatives {
    pub hirs: Vec<Hir>,
    /// The greatest number of groups of one of them, including group 0.
    pub groups: usize,
}

impl Alternatives {
    /// Appends a pattern.
    fn push(&mut self, pattern: Parsed) -> Result<(), AllocError>
        ensures { OnOk result (self.new.hirs.items ≡ self.old.hirs.items ++ pattern.hir ∷ []) }
    {
        self.groups = self.groups.max(pattern.names.len());
        self.hirs.push(pattern.hir)?;
        Ok(())
    }
}

/// Parses a pattern.
fn parse(alloc: Global, text: &str, config: &Config) -> Result<Parsed, ProgramError>
    ensures { IfOk result (λ parsed. IsParsedOf config.now text.now parsed.hir) }
{
    match regex_syntax::parse(alloc, text, config) {
        Ok(parsed) => Ok(parsed),
        Err(error) => {
            if error.kind == ErrorKind::OutOfMemory {
                Err(ProgramError::NoMemory)
            } else {
                Err(ProgramError::TooLarge)
            }
        }
    }
}

/// Parses patterns, in their order. A pattern that the grammar rejects counts as too large, since automata of these patterns exist.
pub fn parse_all(
    alloc: Global,
    texts: &[&str],
    config: &Config,
) -> Result<Alternatives, ProgramError>
    ensures { IfOk result (λ all. AreParsedOf config.now (map (λ t. t.now) texts.now) all.hirs.items) }
{
    let mut all = Alternatives {
        hirs: Vec::new(alloc),
        groups: 1,
    };
    for text in texts {
        let parsed = parse(alloc, text, config)?;
        all.push(parsed)?;
    }
    Ok(all)
}
