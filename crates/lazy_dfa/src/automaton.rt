//! Lazy automata: how they are configured and built, and their quit bytes.
mod builder;
mod config;
pub mod dfa;
pub(crate) mod measures;
mod quits;
