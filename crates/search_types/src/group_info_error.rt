ghost use Rattle.std.specs.Prelude.{◌≡◌};
ghost use Rattle.search_types.specs.declared.group_info_error.GroupInfoError.TheVariants.{NoMemory};

use search_core::{PatternID, PatternIDError};
use std::alloc::{AllocError, AllocFailed};
use std::error::Error;
use std::fmt;

/// Why groups can't be accepted: the first rule that they break, or no memory. As
/// `regex_automata::util::captures::GroupInfoError`.
#[derive(Debug, Drop)]
pub enum GroupInfoError {
    /// There are more patterns than can be numbered.
    TooManyPatterns {
        /// The error for the first number that is too great.
        err: PatternIDError,
    },
    /// A pattern has more groups than can be numbered, or than there are slots for.
    TooManyGroups {
        /// The pattern.
        pattern: PatternID,
        /// How many groups it has, or at least how many.
        minimum: usize,
    },
    /// A pattern has no groups, not even one for its whole match.
    MissingGroups {
        /// The pattern.
        pattern: PatternID,
    },
    /// The first group of a pattern, which is its whole match, has a name.
    FirstMustBeUnnamed {
        /// The pattern.
        pattern: PatternID,
    },
    /// Two groups of a pattern have one name.
    Duplicate {
        /// The pattern.
        pattern: PatternID,
        /// The name.
        name: String,
    },
    /// There is no memory left.
    NoMemory,
}

impl fmt::Display for GroupInfoError {
    ghost use Rattle.std.specs.Prelude.{Some};
    ghost use Rattle.search_types.specs.ErrorTexts.{group_error_text};

    ghost output = { λ error. Some (group_error_text error) };

    fn fmt<W: fmt::Write>(&self, f: &mut fmt::Formatter<W>) -> fmt::Result {
        match self {
            GroupInfoError::TooManyPatterns { err } => write!(f, "too many patterns: {err}"),
            GroupInfoError::TooManyGroups { pattern, minimum } => write!(
                f,
                "pattern {} has too many groups, at least {minimum}",
                pattern.as_usize()
            ),
            GroupInfoError::MissingGroups { pattern } => {
                write!(f, "pattern {} has no groups", pattern.as_usize())
            }
            GroupInfoError::FirstMustBeUnnamed { pattern } => write!(
                f,
                "the first group of pattern {} has a name",
                pattern.as_usize()
            ),
            GroupInfoError::Duplicate { pattern, name } => write!(
                f,
                "two groups of pattern {} have the name '{name}'",
                pattern.as_usize()
            ),
            GroupInfoError::NoMemory => f.write_str("out of memory"),
        }
    }
}

impl Error for GroupInfoError {}

impl From<AllocError> for GroupInfoError {
    ghost from_gives = { λ _ e. e ≡ NoMemory };

    fn from(_error: AllocError) -> GroupInfoError {
        GroupInfoError::NoMemory
    }
}

impl<T: Drop> From<AllocFailed<T>> for GroupInfoError {
    ghost from_gives = { λ _ e. e ≡ NoMemory };

    fn from(_error: AllocFailed<T>) -> GroupInfoError {
        GroupInfoError::NoMemory
    }
}
