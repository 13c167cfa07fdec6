ghost use Rattle.std.specs.Prelude.{◌≡◌, min};
ghost use Rattle.nfa_core.specs.States.{node_of, is_epsilon, list_memory, node_memory};

use crate::dense_transitions::DenseTransitions;
use crate::sparse_transitions::SparseTransitions;
use crate::transition::Transition;
use look_core::Look;
use search_core::{PatternID, SmallIndex, StateID};

/// The bytes that a state takes by itself, without its list.
const STATE_SIZE: usize = 24;

/// The bytes that a [`Transition`] takes.
const TRANSITION_SIZE: usize = 8;

/// The bytes that the table of a dense state takes.
const TABLE_SIZE: usize = 1024;

/// A state of a byte automaton. As `regex_automata::nfa::thompson::State`.
#[derive(Clone, PartialEq, Eq, Debug, Drop)]
pub enum State {
    /// Leads on by the bytes of one range.
    ByteRange {
        trans: Transition,
    },
    /// Leads on by the bytes of some ranges.
    Sparse(SparseTransitions),
    /// Leads on by a table that has a state for each byte.
    Dense(DenseTransitions),
    /// Leads on without a byte, if the look holds.
    Look {
        look: Look,
        next: StateID,
    },
    /// Leads to each of these states without a byte. An earlier one is preferred.
    Union {
        alternates: Vec<StateID>,
    },
    /// Leads to both states without a byte. The first is preferred.
    BinaryUnion {
        alt1: StateID,
        alt2: StateID,
    },
    /// Leads on without a byte, and stores the offset in a slot of a group of a pattern.
    Capture {
        next: StateID,
        pattern_id: PatternID,
        group_index: SmallIndex,
        slot: SmallIndex,
    },
    /// Leads nowhere.
    Fail,
    /// The pattern matches. Leads nowhere.
    Match {
        pattern_id: PatternID,
    },
}

impl State {
    /// Whether the state leads on without a byte, as looks, unions and captures do.
    #[inline]
    pub fn is_epsilon(&self) -> bool
        ensures { result ≡ is_epsilon (node_of self.now) }
    {
        match self {
            State::Look { .. } | State::Capture { .. } => true,
            State::Union { .. } | State::BinaryUnion { .. } => true,
            State::ByteRange { .. } | State::Sparse(_) | State::Dense(_) => false,
            State::Fail | State::Match { .. } => false,
        }
    }

    /// The bytes that the state is taken to need: 24 for itself, and for its list 8 for each transition of a sparse state, 1024 for the
    /// table of a dense one, and 4 for each alternate of a union. A number above [`usize::MAX`] is returned as [`usize::MAX`].
    pub fn memory_usage(&self) -> usize
        ensures { result ≡ min (node_memory (node_of self.now)) usize.MAX }
    {
        STATE_SIZE.saturating_add(self.list_memory())
    }

    /// The bytes of the state's list alone.
    fn list_memory(&self) -> usize
        ensures { result ≡ min (list_memory (node_of self.now)) usize.MAX }
    {
        match self {
            State::Sparse(sparse) => TRANSITION_SIZE.saturating_mul(sparse.transitions.len()),
            State::Dense(_) => TABLE_SIZE,
            State::Union { alternates } => StateID::SIZE.saturating_mul(alternates.len()),
            State::ByteRange { .. }
            | State::Look { .. }
            | State::BinaryUnion { .. }
            | State::Capture { .. }
            | State::Fail
            | State::Match { .. } => 0,
        }
    }
}
