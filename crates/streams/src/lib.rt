//! Searches of input that comes in pieces.
//!
//! A [`Stream`] reports each end of a match with its pattern, as ends become known. It keeps what it needs between two pieces, so that many
//! streams can use one automaton and one cache in turn. What it reports doesn't depend on where the input is cut, on other streams, or on
//! what the cache holds: it is a function of the bytes (`specs/Streams.antt`). [`Stream::feed_lines`] searches each line by itself
//! (`specs/Lines.antt`). The laws are in [`laws`].
#![tactic(auto)]

mod errors;
mod feeding;
pub mod laws;
mod lines;
mod reading;
mod rows;
mod stream;

pub use errors::StreamError;
pub use feeding::Fed;
pub use stream::{Stream, StreamMatch};
