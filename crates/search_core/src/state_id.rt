ghost use Rattle.std.specs.Prelude.{◌≡◌, ℕ, ◌+◌, ◌<◌, ◌≤◌, pos};
ghost use Rattle.search_core.specs.Index.{greatest_index, IsIndexOrError};

use crate::small_index::{SmallIndex, SmallIndexError};
use std::error::Error;
use std::fmt;
use std::marker::Model;

/// The number of a state, from 0 to [`StateID::MAX`]. A contract sees it as the number.
#[derive(Clone, Copy, PartialEq, Eq, PartialOrd, Ord, Hash)]
pub struct StateID(SmallIndex);

impl Model for StateID {
    ghost Value = { ℕ };

    ghost view = { λ id. id.0 };

    ghost invariant = { λ id. id.0 ≤ greatest_index };

    ghost inverse = { λ n. record { 0 = n } };
}

impl StateID {
    /// The greatest number of a state.
    pub const MAX: StateID = StateID(SmallIndex::MAX);

    /// How many such numbers there are, one more than the greatest.
    pub const LIMIT: usize = SmallIndex::LIMIT;

    /// The least number of a state.
    pub const ZERO: StateID = StateID(SmallIndex::ZERO);

    /// The bytes that such a number takes in memory.
    pub const SIZE: usize = SmallIndex::SIZE;

    /// Makes the number of a state, if it is at most [`StateID::MAX`].
    pub fn new(id: usize) -> Result<StateID, StateIDError>
        ensures { IsIndexOrError id result }
    {
        StateID::try_from(id as u64)
    }

    /// Makes the number of a state. Precondition: the number is at most [`StateID::MAX`].
    pub fn must(id: usize) -> StateID
        requires { id ≤ greatest_index }
        ensures { result ≡ id }
    {
        StateID(SmallIndex::must(id))
    }

    /// The number as a `usize`.
    pub fn as_usize(&self) -> usize
        ensures value { result ≡ self.now }
        ensures in_range { result ≤ greatest_index }
    {
        self.0.as_usize()
    }

    /// The number as a `u64`.
    pub fn as_u64(&self) -> u64
        ensures value { result ≡ self.now }
        ensures in_range { result ≤ greatest_index }
    {
        self.0.as_u64()
    }

    /// The number as a `u32`.
    pub fn as_u32(&self) -> u32
        ensures value { result ≡ self.now }
        ensures in_range { result ≤ greatest_index }
    {
        self.0.as_u32()
    }

    /// The number as an `i32`.
    pub fn as_i32(&self) -> i32
        ensures value { result ≡ pos self.now }
        ensures in_range { self.now ≤ greatest_index }
    {
        self.0.as_i32()
    }

    /// The number plus one: how many states there are if this is the last one.
    pub fn one_more(&self) -> usize
        ensures value { result ≡ self.now + 1 }
        ensures in_range { self.now ≤ greatest_index }
    {
        self.0.one_more()
    }
}

impl Default for StateID {
    ghost is_default = { λ id. id ≡ 0 };

    fn default() -> StateID {
        StateID::ZERO
    }
}

impl fmt::Debug for StateID {
    fn fmt<W: fmt::Write>(&self, f: &mut fmt::Formatter<W>) -> fmt::Result {
        f.debug_tuple("StateID").field(&self.as_u32()).finish()
    }
}

impl From<u8> for StateID {
    ghost from_gives = { λ n id. id ≡ n };

    fn from(id: u8) -> StateID {
        StateID(SmallIndex::from(id))
    }
}

impl TryFrom<u16> for StateID {
    type Error = StateIDError;

    ghost try_from_gives = { IsIndexOrError };

    fn try_from(id: u16) -> Result<StateID, StateIDError> {
        StateID::try_from(u64::from(id))
    }
}

impl TryFrom<u32> for StateID {
    type Error = StateIDError;

    ghost try_from_gives = { IsIndexOrError };

    fn try_from(id: u32) -> Result<StateID, StateIDError> {
        StateID::try_from(u64::from(id))
    }
}

impl TryFrom<u64> for StateID {
    type Error = StateIDError;

    ghost try_from_gives = { IsIndexOrError };

    fn try_from(id: u64) -> Result<StateID, StateIDError> {
        match SmallIndex::try_from(id) {
            Ok(index) => Ok(StateID(index)),
            Err(error) => Err(StateIDError(error)),
        }
    }
}

impl TryFrom<usize> for StateID {
    type Error = StateIDError;

    ghost try_from_gives = { IsIndexOrError };

    fn try_from(id: usize) -> Result<StateID, StateIDError> {
        StateID::new(id)
    }
}

/// The error for a number above [`StateID::MAX`]. A contract sees it as that number.
#[derive(Clone, Copy, Debug, PartialEq, Eq)]
pub struct StateIDError(SmallIndexError);

impl Model for StateIDError {
    ghost Value = { ℕ };

    ghost view = { λ e. e.0 };

    ghost invariant = { λ e. greatest_index < e.0 };

    ghost inverse = { λ n. record { 0 = n } };
}

impl StateIDError {
    /// The number that was rejected.
    pub fn attempted(&self) -> u64
        ensures value { result ≡ self.now }
        ensures above { greatest_index < result }
    {
        self.0.attempted()
    }
}

impl fmt::Display for StateIDError {
    ghost use Rattle.std.specs.Prelude.{Some};
    ghost use Rattle.search_core.specs.ErrorTexts.{state_id_text};

    ghost output = { λ attempted. Some (state_id_text attempted) };

    fn fmt<W: fmt::Write>(&self, f: &mut fmt::Formatter<W>) -> fmt::Result {
        write!(
            f,
            "failed to create StateID from {}, which exceeds StateID({})",
            self.attempted(),
            StateID::MAX.as_u32()
        )
    }
}

impl Error for StateIDError {}
