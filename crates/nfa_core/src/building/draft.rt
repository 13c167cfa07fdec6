ghost use Rattle.std.specs.Prelude.{◌≡◌, ◌≤◌, ◌∷◌, [], length, min, IsOk, MatchResult};
ghost use Rattle.nfa_core.specs.BuilderStates.{draft_bytes, list_bytes, way_bytes, patched, union_draft};
ghost use Rattle.nfa_core.specs.Renaming.{stands_for, kept};
ghost use Rattle.nfa_core.specs.Drafts.{draft_of};

use crate::transition::Transition;
use look_core::Look;
use search_core::{PatternID, SmallIndex, StateID};
use std::alloc::AllocError;

/// The bytes that a state takes by itself, without its list.
const STATE_SIZE: usize = 24;

/// The bytes that a [`Transition`] takes.
const TRANSITION_SIZE: usize = 8;

/// A state of a builder. Where it leads may be set later.
#[derive(Drop)]
pub(crate) enum Draft {
    /// Stands for the state that it names.
    Empty {
        next: StateID,
    },
    ByteRange {
        trans: Transition,
    },
    Sparse {
        transitions: Vec<Transition>,
    },
    Look {
        look: Look,
        next: StateID,
    },
    CaptureStart {
        pattern_id: PatternID,
        group_index: SmallIndex,
        next: StateID,
    },
    CaptureEnd {
        pattern_id: PatternID,
        group_index: SmallIndex,
        next: StateID,
    },
    Union {
        alternates: Vec<StateID>,
    },
    /// A union whose last state is preferred.
    UnionReverse {
        alternates: Vec<StateID>,
    },
    Fail,
    Match {
        pattern_id: PatternID,
    },
}

impl Draft {
    /// The bytes that the state is taken to need, or [`usize::MAX`] if that is less.
    pub(crate) fn memory_usage(&self) -> usize
        ensures { result ≡ min (draft_bytes (draft_of self.now)) usize.MAX }
    {
        STATE_SIZE.saturating_add(self.list_memory())
    }

    /// The bytes of the state's list alone.
    fn list_memory(&self) -> usize
        ensures { result ≡ min (list_bytes (draft_of self.now)) usize.MAX }
    {
        match self {
            Draft::Sparse { transitions } => TRANSITION_SIZE.saturating_mul(transitions.len()),
            Draft::Union { alternates } => StateID::SIZE.saturating_mul(alternates.len()),
            Draft::UnionReverse { alternates } => StateID::SIZE.saturating_mul(alternates.len()),
            Draft::Empty { .. }
            | Draft::ByteRange { .. }
            | Draft::Look { .. }
            | Draft::CaptureStart { .. }
            | Draft::CaptureEnd { .. }
            | Draft::Fail
            | Draft::Match { .. } => 0,
        }
    }

    /// The bytes that one more way takes.
    pub(crate) fn patch_memory(&self) -> usize
        ensures { result ≡ way_bytes (draft_of self.now) }
    {
        match self {
            Draft::Union { .. } | Draft::UnionReverse { .. } => StateID::SIZE,
            Draft::Empty { .. } | Draft::ByteRange { .. } | Draft::Sparse { .. } => 0,
            Draft::Look { .. } | Draft::CaptureStart { .. } | Draft::CaptureEnd { .. } => 0,
            Draft::Fail | Draft::Match { .. } => 0,
        }
    }

    /// The state for which this one stands, if it is empty or a union of one way.
    pub(crate) fn stands_for(&self) -> Option<StateID>
        ensures { result ≡ stands_for (draft_of self.now) }
    {
        match self {
            Draft::Empty { next } => Some(*next),
            Draft::Union { alternates } => only(alternates),
            Draft::UnionReverse { alternates } => only(alternates),
            Draft::ByteRange { .. } | Draft::Sparse { .. } | Draft::Look { .. } => None,
            Draft::CaptureStart { .. } | Draft::CaptureEnd { .. } => None,
            Draft::Fail | Draft::Match { .. } => None,
        }
    }

    /// How many states of the automaton it becomes: none if it stands for another, and otherwise one.
    pub(crate) fn kept_len(&self) -> usize
        ensures value { result ≡ length (kept (draft_of self.now ∷ [])) }
        ensures most { result ≤ 1 }
    {
        if self.stands_for().is_none() { 1 } else { 0 }
    }

    /// Makes the state lead to `to`: a union gets one more way, and any other state leads there alone.
    pub(crate) fn patch(&mut self, to: StateID) -> Result<(), AllocError>
        ensures value { MatchResult result (λ _. draft_of self.new ≡ patched to (draft_of self.old))
            (λ _. draft_of self.new ≡ draft_of self.old) }
        ensures free { way_bytes (draft_of self.old) ≡ 0 → IsOk result }
    {
        match self {
            Draft::Empty { next } => *next = to,
            Draft::ByteRange { trans } => trans.next = to,
            Draft::Look { next, .. } => *next = to,
            Draft::CaptureStart { next, .. } => *next = to,
            Draft::CaptureEnd { next, .. } => *next = to,
            Draft::Union { alternates } => alternates.push(to)?,
            Draft::UnionReverse { alternates } => alternates.push(to)?,
            Draft::Sparse { .. } | Draft::Fail | Draft::Match { .. } => (),
        }
        Ok(())
    }
}

/// The state of a list that has exactly one.
fn only(names: &[StateID]) -> Option<StateID>
    ensures { result ≡ stands_for (union_draft names.now) }
{
    match names {
        [next] => Some(*next),
        _ => None,
    }
}
