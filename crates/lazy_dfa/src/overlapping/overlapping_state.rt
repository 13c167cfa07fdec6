ghost use Rattle.std.specs.Prelude.{◌≡◌, None};
ghost use Rattle.lazy_dfa.specs.Overlapping.{is_failed_overlapping};
ghost use Rattle.lazy_dfa.specs.OverlappingAnswers.{failed_by};
ghost use Rattle.lazy_dfa.specs.declared.overlapping.overlapping_state.OverlappingPosition.TheVariants.{Fresh, Ended};

use crate::lazy_id::LazyStateID;
use search_types::{HalfMatch, MatchErrorKind};
use std::marker::Model;

/// Where an overlapping search stopped: the position of the last unit that it read, the state after that unit, and the index of
/// the next pattern in the state's list.
#[derive(Clone, Copy, PartialEq, Eq)]
pub(crate) struct Stop {
    pub(crate) id: LazyStateID,
    pub(crate) index: usize,
    pub(crate) at: usize,
}

/// The progress of an overlapping search between two calls.
#[derive(Clone, Copy, PartialEq, Eq)]
pub(crate) enum OverlappingPosition {
    /// It hasn't begun.
    Fresh,
    /// Nothing is left of it.
    Ended,
    /// A call failed, and so do all later ones.
    Failed(MatchErrorKind),
    /// It stopped at an end that it reported.
    Stopped(Stop),
}

/// An overlapping search between two calls, as `regex_automata::hybrid::dfa::OverlappingState`. It holds the end that the last
/// call reported, and where the search goes on.
///
/// Of the cache, it keeps the ID of a state alone. So the search can go on as long as the cache still has this state under this
/// ID. A call that clears nothing leaves it so.
#[derive(Clone, Copy, PartialEq, Eq)]
pub struct OverlappingState {
    pub(crate) found: Option<HalfMatch>,
    pub(crate) walk: OverlappingPosition,
}

impl Model for OverlappingState {
    ghost use Rattle.lazy_dfa.specs.Overlapping.{OverlappingValue};

    ghost Value = { OverlappingValue };

    ghost view = { λ s. record { found = s.found; walk = s.walk } };

    ghost inverse = { λ w. record { found = w.found; walk = w.walk } };
}

impl OverlappingState {
    /// Returns a search that hasn't begun, as `OverlappingState::start`.
    pub fn start() -> OverlappingState
        ensures { result ≡ record { found = None; walk = Fresh } }
    {
        OverlappingState {
            found: None,
            walk: OverlappingPosition::Fresh,
        }
    }

    /// Returns the end that the last call reported, as `OverlappingState::get_match`. There is none before the first call, at the
    /// end of the search, and after an error.
    pub fn get_match(&self) -> Option<HalfMatch>
        ensures { result ≡ self.now.found }
    {
        self.found
    }

    /// Whether a call failed. All later calls return this error again.
    pub fn is_failed(&self) -> bool
        ensures { result ≡ is_failed_overlapping self.now.walk }
    {
        match self.walk {
            OverlappingPosition::Failed(_) => true,
            OverlappingPosition::Fresh => false,
            OverlappingPosition::Ended => false,
            OverlappingPosition::Stopped(_) => false,
        }
    }

    /// A search of which nothing is left.
    pub(crate) fn ended() -> OverlappingState
        ensures { result ≡ record { found = None; walk = Ended } }
    {
        OverlappingState {
            found: None,
            walk: OverlappingPosition::Ended,
        }
    }

    /// A search that failed.
    pub(crate) fn failed(kind: MatchErrorKind) -> OverlappingState
        ensures { result ≡ failed_by kind }
    {
        OverlappingState {
            found: None,
            walk: OverlappingPosition::Failed(kind),
        }
    }
}
