ghost use Rattle.std.specs.Prelude.{◌≡◌};
ghost use Rattle.nfa_core.specs.declared.build_error.BuildError.TheVariants.{NoMemory};

use search_types::GroupInfoError;
use std::alloc::{AllocError, AllocFailed};
use thiserror::Error;

/// Why an automaton can't be built. As `regex_automata::nfa::thompson::BuildError`.
#[derive(Debug, Drop, Error)]
pub enum BuildError {
    /// There are more patterns than can be numbered.
    #[error("too many patterns")]
    TooManyPatterns,
    /// There are more states than can be numbered.
    #[error("too many states")]
    TooManyStates,
    /// The states take more bytes than they may.
    #[error("the states take more than {limit} bytes")]
    ExceededSizeLimit {
        /// How many bytes are allowed.
        limit: usize,
    },
    /// Capture groups were requested for an automaton that can't have them, as for one that reads in reverse.
    #[error("groups are not supported here")]
    UnsupportedCaptures,
    /// The groups break a rule, or have an index that is too great.
    #[error("groups can't be taken: {err}")]
    Captures {
        /// The rule.
        err: GroupInfoError,
    },
    /// Out of memory.
    #[error("out of memory")]
    NoMemory,
}

impl BuildError {
    ghost use Rattle.nfa_core.specs.BuildErrors.{size_limit_of};

    /// How many bytes are allowed, if the error is that the states take more, as `BuildError::size_limit`.
    pub fn size_limit(&self) -> Option<usize>
        ensures { result ≡ size_limit_of self.now }
    {
        match self {
            BuildError::ExceededSizeLimit { limit } => Some(*limit),
            _ => None,
        }
    }
}

impl From<AllocError> for BuildError {
    ghost from_gives = { λ _ e. e ≡ NoMemory };

    fn from(_error: AllocError) -> BuildError {
        BuildError::NoMemory
    }
}

impl<T: Drop> From<AllocFailed<T>> for BuildError {
    ghost from_gives = { λ _ e. e ≡ NoMemory };

    fn from(_error: AllocFailed<T>) -> BuildError {
        BuildError::NoMemory
    }
}
