ghost use Rattle.std.specs.Prelude.{◌≡◌, IfOk, vec_capacity};
ghost use Rattle.determinize_core.specs.States.{dead};

use crate::positions::Positions;
use crate::state_builder_matches::StateBuilderMatches;
use std::alloc::{AllocError, Global};
use std::marker::Model;

/// The memory of a builder of powerset states, as `StateBuilderEmpty` of `regex_automata`. A contract sees it as the
/// number of bytes for which it has room.
#[derive(Drop)]
pub struct StateBuilderEmpty {
    bytes: Vec<u8>,
    positions: Positions,
}

impl Model for StateBuilderEmpty {
    ghost use Rattle.std.specs.Prelude.{ℕ, vec_capacity};

    ghost Value = { ℕ };

    ghost view = { λ b. vec_capacity b.bytes };
}

impl StateBuilderEmpty {
    /// A builder that has no memory yet.
    pub fn new(alloc: Global) -> StateBuilderEmpty
        ensures { result ≡ 0 }
    {
        StateBuilderEmpty::from_bytes(Vec::new(alloc), Positions::new(alloc))
    }

    pub(crate) fn from_bytes(bytes: Vec<u8>, positions: Positions) -> StateBuilderEmpty
        ensures { result ≡ vec_capacity bytes }
    {
        StateBuilderEmpty { bytes, positions }
    }

    /// Begins a state, which is the dead state so far.
    pub fn into_matches(self) -> Result<StateBuilderMatches, AllocError>
        ensures { IfOk result (λ builder. builder ≡ dead) }
    {
        let mut bytes = self.bytes;
        bytes.clear();
        bytes.extend_from_slice(&[0; 9])?;
        Ok(StateBuilderMatches::from_bytes(bytes, self.positions))
    }

    /// How many bytes of a state it has room for.
    pub fn capacity(&self) -> usize
        ensures { result ≡ self.now }
    {
        self.bytes.capacity()
    }
}
