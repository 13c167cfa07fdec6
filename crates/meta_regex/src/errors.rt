//! Why no regex is made, and why a search fails.
use lazy_dfa::BuildError;
use pattern_search::PatternError;
use std::alloc::AllocError;

/// Why no regex is made.
#[derive(Debug, Drop)]
pub enum NewError {
    /// Memory ran out.
    NoMemory,
    /// A pattern can't be parsed.
    Text(PatternError),
    /// The pattern with this number has an unbounded repetition whose body can match the empty string.
    EmptyLoop(usize),
    /// No regex can be built from the trees.
    Build(BuildError),
}

/// Why a search failed.
#[derive(Clone, Copy, Debug)]
pub enum SearchError {
    /// Memory ran out.
    NoMemory,
    /// The haystack isn't UTF-8 from this offset on, and the regex requires that.
    NotUtf8(usize),
    /// A regex of the toolchain, which is needed because the automata give up, is larger than allowed.
    TooLarge,
    /// The number of marks isn't the number of patterns.
    WrongMarkCount,
}

impl From<AllocError> for SearchError {
    ghost use Rattle.std.specs.Prelude.{◌≡◌};
    ghost use Rattle.meta_regex.specs.declared.errors.SearchError.TheVariants.{NoMemory};

    ghost from_gives = { λ _ e. e ≡ NoMemory };

    fn from(_: AllocError) -> SearchError {
        SearchError::NoMemory
    }
}
