//! A match as three numbers.
ghost use Rattle.std.specs.Prelude.{◌≡◌};
ghost use Rattle.meta_regex.specs.Regexes.{row_of};

use search_types::Match;

/// One match: the number of its pattern, counted from 0, and the offsets of its start and end.
#[repr(C)]
#[derive(Clone, Copy, Drop)]
pub struct FoundMatch {
    pub pattern: usize,
    pub start: usize,
    pub end: usize,
}

impl FoundMatch {
    /// All 0.
    pub fn zero() -> FoundMatch
        ensures { result ≡ record { pattern = 0; start = 0; end = 0 } }
    {
        FoundMatch {
            pattern: 0,
            start: 0,
            end: 0,
        }
    }

    /// The three numbers of a match.
    pub fn of(found: &Match) -> FoundMatch
        ensures { result ≡ row_of found.now }
    {
        FoundMatch {
            pattern: found.pattern().as_usize(),
            start: found.start(),
            end: found.end(),
        }
    }
}
