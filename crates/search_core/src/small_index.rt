ghost use Rattle.std.specs.Prelude.{◌≡◌, ℕ, ◌+◌, ◌<◌, ◌≤◌, pos};
ghost use Rattle.search_core.specs.Index.{greatest_index, IsIndexOrError};

use std::error::Error;
use std::fmt;
use std::marker::Model;

/// A number from 0 to [`SmallIndex::MAX`], in four bytes. A contract sees it as the number.
#[derive(Clone, Copy, Debug, PartialEq, Eq, PartialOrd, Ord, Hash)]
pub struct SmallIndex(u32);

impl Model for SmallIndex {
    ghost Value = { ℕ };

    ghost view = { λ index. index.0 };

    ghost invariant = { λ index. index.0 ≤ greatest_index };

    ghost inverse = { λ n. record { 0 = n } };
}

impl SmallIndex {
    /// The greatest index.
    pub const MAX: SmallIndex = SmallIndex(2147483646);

    /// How many indices there are, one more than the greatest.
    pub const LIMIT: usize = 2147483647;

    /// The least index.
    pub const ZERO: SmallIndex = SmallIndex(0);

    /// The bytes that an index takes in memory.
    pub const SIZE: usize = size_of::<SmallIndex>();

    /// Makes an index, if the number is at most [`SmallIndex::MAX`].
    pub fn new(index: usize) -> Result<SmallIndex, SmallIndexError>
        ensures { IsIndexOrError index result }
    {
        SmallIndex::try_from(index as u64)
    }

    /// Makes an index. Precondition: the number is at most [`SmallIndex::MAX`].
    pub fn must(index: usize) -> SmallIndex
        requires { index ≤ greatest_index }
        ensures { result ≡ index }
    {
        SmallIndex(index as u32)
    }

    /// The index as a `usize`.
    pub fn as_usize(&self) -> usize
        ensures value { result ≡ self.now }
        ensures in_range { result ≤ greatest_index }
    {
        self.0 as usize
    }

    /// The index as a `u64`.
    pub fn as_u64(&self) -> u64
        ensures value { result ≡ self.now }
        ensures in_range { result ≤ greatest_index }
    {
        u64::from(self.0)
    }

    /// The index as a `u32`.
    pub fn as_u32(&self) -> u32
        ensures value { result ≡ self.now }
        ensures in_range { result ≤ greatest_index }
    {
        self.0
    }

    /// The index as an `i32`.
    pub fn as_i32(&self) -> i32
        ensures value { result ≡ pos self.now }
        ensures in_range { self.now ≤ greatest_index }
    {
        self.0 as i32
    }

    /// The index plus one: the length of a sequence whose last element is there.
    pub fn one_more(&self) -> usize
        ensures value { result ≡ self.now + 1 }
        ensures in_range { self.now ≤ greatest_index }
    {
        self.as_usize() + 1
    }
}

impl Default for SmallIndex {
    ghost is_default = { λ index. index ≡ 0 };

    fn default() -> SmallIndex {
        SmallIndex::ZERO
    }
}

impl From<u8> for SmallIndex {
    ghost from_gives = { λ n index. index ≡ n };

    fn from(index: u8) -> SmallIndex {
        SmallIndex(u32::from(index))
    }
}

impl TryFrom<u16> for SmallIndex {
    type Error = SmallIndexError;

    ghost try_from_gives = { IsIndexOrError };

    fn try_from(index: u16) -> Result<SmallIndex, SmallIndexError> {
        SmallIndex::try_from(u64::from(index))
    }
}

impl TryFrom<u32> for SmallIndex {
    type Error = SmallIndexError;

    ghost try_from_gives = { IsIndexOrError };

    fn try_from(index: u32) -> Result<SmallIndex, SmallIndexError> {
        SmallIndex::try_from(u64::from(index))
    }
}

impl TryFrom<u64> for SmallIndex {
    type Error = SmallIndexError;

    ghost try_from_gives = { IsIndexOrError };

    fn try_from(index: u64) -> Result<SmallIndex, SmallIndexError> {
        if index > SmallIndex::MAX.as_u64() {
            return Err(SmallIndexError { attempted: index });
        }
        Ok(SmallIndex(index as u32))
    }
}

impl TryFrom<usize> for SmallIndex {
    type Error = SmallIndexError;

    ghost try_from_gives = { IsIndexOrError };

    fn try_from(index: usize) -> Result<SmallIndex, SmallIndexError> {
        SmallIndex::new(index)
    }
}

/// The error for a number above [`SmallIndex::MAX`]. A contract sees it as that number.
#[derive(Clone, Copy, Debug, PartialEq, Eq)]
pub struct SmallIndexError {
    attempted: u64,
}

impl Model for SmallIndexError {
    ghost Value = { ℕ };

    ghost view = { λ e. e.attempted };

    ghost invariant = { λ e. greatest_index < e.attempted };

    ghost inverse = { λ n. record { attempted = n } };
}

impl SmallIndexError {
    /// The number that was rejected.
    pub fn attempted(&self) -> u64
        ensures value { result ≡ self.now }
        ensures above { greatest_index < result }
    {
        self.attempted
    }
}

impl fmt::Display for SmallIndexError {
    ghost use Rattle.std.specs.Prelude.{Some};
    ghost use Rattle.search_core.specs.ErrorTexts.{small_index_text};

    ghost output = { λ attempted. Some (small_index_text attempted) };

    fn fmt<W: fmt::Write>(&self, f: &mut fmt::Formatter<W>) -> fmt::Result {
        write!(
            f,
            "failed to create small index from {}, which exceeds SmallIndex({})",
            self.attempted,
            SmallIndex::MAX.as_u32()
        )
    }
}

impl Error for SmallIndexError {}
