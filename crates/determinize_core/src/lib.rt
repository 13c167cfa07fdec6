//! Powerset states of a byte automaton, one at a time, and how searches start.
//! ```rust
//! pub fn start_behind(byte: u8) -> Start {
//!     StartByteMap::new(&LookMatcher::default()).get(byte)
//! }
//! ```
#![tactic(auto)]

pub mod alike_laws;
mod closure;
mod ids_of;
mod known;
mod lookbehind;
mod next_state;
mod nfa_states;
mod positions;
mod start;
mod start_config;
pub mod start_laws;
mod start_map;
mod starting;
mod state;
mod state_builder;
mod state_builder_matches;
mod state_builder_nfa;
mod state_bytes;
mod state_ids;
pub mod state_laws;
pub mod step_laws;
pub mod stepped_laws;
pub mod walk_theorem;
mod walking;
mod workspace;

pub use closure::epsilon_closure;
pub use ids_of::of_nfa;
pub use lookbehind::{LookBehind, look_behind_of_start, set_lookbehind_from_start};
pub use next_state::next;
pub use nfa_states::add_nfa_states;
pub use start::Start;
pub use start_config::Config;
pub use start_map::StartByteMap;
pub use starting::start_state;
pub use state::State;
pub use state_builder::StateBuilderEmpty;
pub use state_builder_matches::StateBuilderMatches;
pub use state_builder_nfa::StateBuilderNFA;
pub use state_ids::StateIds;
pub use walking::{walk, walk_with};
pub use workspace::{Workspace, next_in, start_in};
