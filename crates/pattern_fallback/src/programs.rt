//! Programs of the toolchain for parsed patterns.
ghost use Rattle.std.specs.Prelude.{◌≡◌, List, IfOk, map};
ghost use Rattle.regex_hir.specs.Meaning.{alt_all, meaning};
ghost use Rattle.regex_hir.specs.Re.{Re};
ghost use Rattle.regex_meta.specs.Programs.{pattern_of};
ghost use Rattle.regex_syntax.specs.Captures.{SameCaptures};
ghost use Rattle.pattern_fallback.specs.Fallbacks.{AreAlike, AreProgramsOfEach};

use crate::parsing::Alternatives;
use regex_compile::Error;
use regex_hir::Hir;
use regex_meta::Program;
use std::alloc::{AllocError, Global};

/// The greatest size in bytes of a program for what automata gave up on.
pub const SIZE_LIMIT: usize = 1 << 34;

/// Why there is no program.
#[derive(Clone, Copy, Debug, PartialEq, Eq)]
pub enum ProgramError {
    /// An allocation failed.
    NoMemory,
    /// The program would be larger than allowed.
    TooLarge,
}

impl From<AllocError> for ProgramError {
    fn from(_e: AllocError) -> ProgramError {
        ProgramError::NoMemory
    }
}

/// The program of a pattern, of at most so many bytes.
fn program_of(
    alloc: Global,
    hir: Hir,
    groups: usize,
    size_limit: usize,
) -> Result<Box<Program>, ProgramError>
    ensures { IfOk result (λ p. pattern_of p.value ≡ meaning hir) }
{
    let Ok(groups) = u32::try_from(groups) else {
        return Err(ProgramError::TooLarge);
    };
    let program = match Program::new(alloc, hir, groups, size_limit) {
        Ok(program) => program,
        Err(Error::OutOfMemory) => return Err(ProgramError::NoMemory),
        Err(_) => return Err(ProgramError::TooLarge),
    };
    match Box::new(alloc, program) {
        Ok(program) => Ok(program),
        Err(_) => Err(ProgramError::NoMemory),
    }
}

/// The programs of patterns, in their order.
fn programs_of(
    alloc: Global,
    hirs: Vec<Hir>,
    groups: usize,
    size_limit: usize,
) -> Result<Vec<Box<Program>>, ProgramError>
    ensures { IfOk result (λ v. map (λ p. pattern_of p.value) v.items ≡ map meaning hirs.items) }
{
    let mut programs = Vec::new(alloc);
    for hir in hirs {
        let program = program_of(alloc, hir, groups, size_limit)?;
        match programs.push(program) {
            Ok(()) => {}
            Err(_) => return Err(ProgramError::NoMemory),
        }
    }
    Ok(programs)
}

impl Alternatives {
    /// The program that searches for all of them, of at most so many bytes.
    pub fn program(self, alloc: Global, size_limit: usize) -> Result<Box<Program>, ProgramError>
        ensures { IfOk result (λ p. (res : List Re) → AreAlike (map meaning self.hirs.items) res →
            SameCaptures (pattern_of p.value) (alt_all res)) }
    {
        let all = Hir::Alternation(self.hirs);
        let program = program_of(alloc, all, self.groups, size_limit)?;
        Ok(program)
    }

    /// A program of each of them, of at most so many bytes. There are none if there is no more than one pattern.
    pub fn programs(
        self,
        alloc: Global,
        size_limit: usize,
    ) -> Result<Vec<Box<Program>>, ProgramError>
        ensures { IfOk result (λ v. (res : List Re) → AreAlike (map meaning self.hirs.items) res → AreProgramsOfEach res v.items) }
    {
        if self.hirs.len() <= 1 {
            return Ok(Vec::new(alloc));
        }
        let programs = programs_of(alloc, self.hirs, self.groups, size_limit)?;
        Ok(programs)
    }
}
