use crate::state::State;
use look_core::{AsciiWord, LookMatcher};
use search_core::StateID;
use search_types::GroupInfo;

/// What an NFA is made of: its states, where it starts, its groups and its settings.
#[derive(Drop)]
pub(crate) struct Parts {
    pub(crate) states: Vec<State>,
    pub(crate) start_anchored: StateID,
    pub(crate) start_unanchored: StateID,
    /// For each pattern its anchored start.
    pub(crate) start_pattern: Vec<StateID>,
    pub(crate) group_info: GroupInfo,
    pub(crate) utf8: bool,
    pub(crate) reverse: bool,
    pub(crate) look_matcher: LookMatcher<AsciiWord>,
}
