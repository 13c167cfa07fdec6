use std::alloc::{AllocError, AllocFailed};
use thiserror::Error;

/// Why a step failed, as `regex_automata::hybrid::CacheError`.
#[derive(Clone, Copy, Debug, PartialEq, Eq, Error)]
pub enum CacheError {
    /// There is no room for a state, and the configuration doesn't allow another clear.
    #[error("lazy DFA cache has been cleared too many times")]
    GaveUp,
    /// Out of memory.
    #[error("out of memory")]
    NoMemory,
}

impl From<AllocError> for CacheError {
    ghost use Rattle.std.specs.Prelude.{◌≡◌};
    ghost use Rattle.lazy_dfa.specs.declared.cache_error.CacheError.TheVariants.{NoMemory};

    ghost from_gives = { λ _ e. e ≡ NoMemory };

    fn from(_error: AllocError) -> CacheError {
        CacheError::NoMemory
    }
}

impl<T: Drop> From<AllocFailed<T>> for CacheError {
    ghost use Rattle.std.specs.Prelude.{◌≡◌};
    ghost use Rattle.lazy_dfa.specs.declared.cache_error.CacheError.TheVariants.{NoMemory};

    ghost from_gives = { λ _ e. e ≡ NoMemory };

    fn from(_error: AllocFailed<T>) -> CacheError {
        CacheError::NoMemory
    }
}
