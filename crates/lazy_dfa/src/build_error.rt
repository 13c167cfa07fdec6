use thiserror::Error;

/// Why a DFA can't be built, as `regex_automata::hybrid::BuildError`.
#[derive(Debug, Drop, Error)]
pub enum BuildError {
    /// The NFA can't be built.
    #[error("error building NFA")]
    NFA {
        /// The error of building it.
        err: nfa_core::BuildError,
    },
    /// The capacity of a cache is below the minimum.
    #[error("given cache capacity ({given}) is smaller than minimum required ({minimum})")]
    InsufficientCacheCapacity {
        /// The number of bytes that a cache needs at least.
        minimum: usize,
        /// The number of bytes that a cache may take.
        given: usize,
    },
    /// States can't be numbered. This doesn't occur.
    #[error("states can't be numbered")]
    InsufficientStateIDCapacity,
    /// The NFA has Unicode word boundaries, and searches aren't set to give up at the bytes above 0x7F.
    #[error("unsupported regex feature for DFAs: cannot build lazy DFAs for regexes with Unicode word boundaries; switch to ASCII word boundaries, or heuristically enable Unicode word boundaries or use a different regex engine")]
    Unsupported,
    /// Out of memory.
    #[error("out of memory")]
    NoMemory,
}

impl From<nfa_core::BuildError> for BuildError {
    ghost use Rattle.std.specs.Prelude.{◌≡◌};
    ghost use Rattle.lazy_dfa.specs.Building.{error_of_compile};

    ghost from_gives = { λ e rejection. rejection ≡ error_of_compile e };

    fn from(err: nfa_core::BuildError) -> BuildError {
        match err {
            nfa_core::BuildError::NoMemory => BuildError::NoMemory,
            err => BuildError::NFA { err },
        }
    }
}
