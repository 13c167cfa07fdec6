//! The steps of a builder, and what is built of its states.
mod builder_build;
mod builder_checks;
mod builder_groups;
mod builder_patterns;
mod builder_states;
pub(crate) mod draft;
mod kept_states;
mod naming;
mod pasts;
