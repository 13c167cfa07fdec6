//! The position and state of a scan.
use crate::lazy_id::LazyStateID;
use search_types::HalfMatch;

/// The position and state of a scan: before the unit at `at`, in a state that isn't dead, with the match that it recorded last.
#[derive(Clone, Copy)]
pub(crate) struct Position {
    pub(crate) at: usize,
    pub(crate) id: LazyStateID,
    pub(crate) best: Option<HalfMatch>,
}
