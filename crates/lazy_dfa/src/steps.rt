//! Steps and starts over a cache, and the calls for them.
mod dfa_starts;
mod dfa_steps;
mod search_starts;
pub(crate) mod starting;
mod stepping;
