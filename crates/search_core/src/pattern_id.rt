ghost use Rattle.std.specs.Prelude.{◌≡◌, ℕ, ◌+◌, ◌<◌, ◌≤◌, pos};
ghost use Rattle.search_core.specs.Index.{greatest_index, IsIndexOrError};

use crate::small_index::{SmallIndex, SmallIndexError};
use std::error::Error;
use std::fmt;
use std::marker::Model;

/// The number of a pattern, from 0 to [`PatternID::MAX`]. A contract sees it as the number.
#[derive(Clone, Copy, PartialEq, Eq, PartialOrd, Ord, Hash)]
pub struct PatternID(SmallIndex);

impl Model for PatternID {
    ghost Value = { ℕ };

    ghost view = { λ id. id.0 };

    ghost invariant = { λ id. id.0 ≤ greatest_index };

    ghost inverse = { λ n. record { 0 = n } };
}

impl PatternID {
    /// The greatest number of a pattern.
    pub const MAX: PatternID = PatternID(SmallIndex::MAX);

    /// How many such numbers there are, one more than the greatest.
    pub const LIMIT: usize = SmallIndex::LIMIT;

    /// The least number of a pattern.
    pub const ZERO: PatternID = PatternID(SmallIndex::ZERO);

    /// The bytes that such a number takes in memory.
    pub const SIZE: usize = SmallIndex::SIZE;

    /// Makes the number of a pattern, if it is at most [`PatternID::MAX`].
    pub fn new(id: usize) -> Result<PatternID, PatternIDError>
        ensures { IsIndexOrError id result }
    {
        PatternID::try_from(id as u64)
    }

    /// Makes the number of a pattern. Precondition: the number is at most [`PatternID::MAX`].
    pub fn must(id: usize) -> PatternID
        requires { id ≤ greatest_index }
        ensures { result ≡ id }
    {
        PatternID(SmallIndex::must(id))
    }

    /// The number as a `usize`.
    pub fn as_usize(&self) -> usize
        ensures value { result ≡ self.now }
        ensures in_range { result ≤ greatest_index }
    {
        self.0.as_usize()
    }

    /// The number as a `u64`.
    pub fn as_u64(&self) -> u64
        ensures value { result ≡ self.now }
        ensures in_range { result ≤ greatest_index }
    {
        self.0.as_u64()
    }

    /// The number as a `u32`.
    pub fn as_u32(&self) -> u32
        ensures value { result ≡ self.now }
        ensures in_range { result ≤ greatest_index }
    {
        self.0.as_u32()
    }

    /// The number as an `i32`.
    pub fn as_i32(&self) -> i32
        ensures value { result ≡ pos self.now }
        ensures in_range { self.now ≤ greatest_index }
    {
        self.0.as_i32()
    }

    /// The number plus one: how many patterns there are if this is the last one.
    pub fn one_more(&self) -> usize
        ensures value { result ≡ self.now + 1 }
        ensures in_range { self.now ≤ greatest_index }
    {
        self.0.one_more()
    }
}

impl Default for PatternID {
    ghost is_default = { λ id. id ≡ 0 };

    fn default() -> PatternID {
        PatternID::ZERO
    }
}

impl fmt::Debug for PatternID {
    fn fmt<W: fmt::Write>(&self, f: &mut fmt::Formatter<W>) -> fmt::Result {
        f.debug_tuple("PatternID").field(&self.as_u32()).finish()
    }
}

impl From<u8> for PatternID {
    ghost from_gives = { λ n id. id ≡ n };

    fn from(id: u8) -> PatternID {
        PatternID(SmallIndex::from(id))
    }
}

impl TryFrom<u16> for PatternID {
    type Error = PatternIDError;

    ghost try_from_gives = { IsIndexOrError };

    fn try_from(id: u16) -> Result<PatternID, PatternIDError> {
        PatternID::try_from(u64::from(id))
    }
}

impl TryFrom<u32> for PatternID {
    type Error = PatternIDError;

    ghost try_from_gives = { IsIndexOrError };

    fn try_from(id: u32) -> Result<PatternID, PatternIDError> {
        PatternID::try_from(u64::from(id))
    }
}

impl TryFrom<u64> for PatternID {
    type Error = PatternIDError;

    ghost try_from_gives = { IsIndexOrError };

    fn try_from(id: u64) -> Result<PatternID, PatternIDError> {
        match SmallIndex::try_from(id) {
            Ok(index) => Ok(PatternID(index)),
            Err(error) => Err(PatternIDError(error)),
        }
    }
}

impl TryFrom<usize> for PatternID {
    type Error = PatternIDError;

    ghost try_from_gives = { IsIndexOrError };

    fn try_from(id: usize) -> Result<PatternID, PatternIDError> {
        PatternID::new(id)
    }
}

/// The error for a number above [`PatternID::MAX`]. A contract sees it as that number.
#[derive(Clone, Copy, Debug, PartialEq, Eq)]
pub struct PatternIDError(SmallIndexError);

impl Model for PatternIDError {
    ghost Value = { ℕ };

    ghost view = { λ e. e.0 };

    ghost invariant = { λ e. greatest_index < e.0 };

    ghost inverse = { λ n. record { 0 = n } };
}

impl PatternIDError {
    /// The number that was rejected.
    pub fn attempted(&self) -> u64
        ensures value { result ≡ self.now }
        ensures above { greatest_index < result }
    {
        self.0.attempted()
    }
}

impl fmt::Display for PatternIDError {
    ghost use Rattle.std.specs.Prelude.{Some};
    ghost use Rattle.search_core.specs.ErrorTexts.{pattern_id_text};

    ghost output = { λ attempted. Some (pattern_id_text attempted) };

    fn fmt<W: fmt::Write>(&self, f: &mut fmt::Formatter<W>) -> fmt::Result {
        write!(
            f,
            "failed to create PatternID from {}, which exceeds PatternID({})",
            self.attempted(),
            PatternID::MAX.as_u32()
        )
    }
}

impl Error for PatternIDError {}
