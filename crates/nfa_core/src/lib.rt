//! Byte automata: their definitions and laws, their states, a builder that puts states together, and what a search over them keeps. A
//! search keeps counters and sets of the states' numbers.
//!
//! The definitions are in `specs/`:
//!
//! - `Nfa.antt`: an automaton
//! - `Ways.antt`: where its states lead
//! - `Runs.antt`: runs and their preference
//! - `Walks.antt`: depth-first searches
//! - `Places.antt`: lists of states by position
//!
//! Their laws are public functions without code in [`run_laws`], [`place_laws`], [`walk_laws`] and [`way_laws`].
//!
//! What a builder holds is in `BuilderStates.antt`, and why its calls fail in `BuilderFaults.antt`. The automaton that its states stand for
//! is in `Renaming.antt`, with laws in [`builder_laws`] and [`builder_size_laws`]. The preconditions of building it are in `CanBuild.antt`,
//! and the result is in `NfaOf.antt`.
//!
//! What an [`NFA`] knows of its automaton is in `NfaValue.antt`. Which bytes the automaton doesn't distinguish is in `Alike.antt`, with
//! laws in [`nfa_laws`]. How far runs read is in `Reaches.antt`, with laws in [`text_laws`].
//! ```rust
//! pub fn is_for_text_alone(nfa: &NFA) -> bool {
//!     nfa.is_utf8() && !nfa.has_empty()
//! }
//! ```
#![tactic(auto)]

mod build_error;
mod builder;
mod building;
mod dense_transitions;
mod laws;
mod name_sets;
mod nfa;
mod nfa_facts;
mod nfa_parts;
mod pattern_iter;
mod reached;
mod sparse_transitions;
pub mod stack;
mod state;
mod steps;
mod transition;

pub use build_error::BuildError;
pub use builder::Builder;
pub use dense_transitions::DenseTransitions;
pub use laws::{
    builder_laws, builder_size_laws, nfa_laws, place_laws, run_laws, text_laws, walk_laws, way_laws,
};
pub use name_sets::name_set::NameSet;
pub use name_sets::pair_set::PairSet;
pub use name_sets::sets::{Sets, SparseSets};
pub use name_sets::sparse_set::SparseSet;
pub use name_sets::sparse_set_iter::SparseSetIter;
pub use nfa::NFA;
pub use pattern_iter::PatternIter;
pub use sparse_transitions::SparseTransitions;
pub use state::State;
pub use steps::Steps;
pub use transition::Transition;
