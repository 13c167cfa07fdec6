//! Why a stream takes no more bytes.
ghost use Rattle.std.specs.Prelude.{ℕ, Option};
ghost use Rattle.determinize_core.specs.Starts.{StartValue};
ghost use Rattle.determinize_core.specs.States.{StateValue};
ghost use Rattle.lazy_dfa.specs.Caches.{CacheValue, HeldAt};
ghost use Rattle.lazy_dfa.specs.Dfas.{Dfa};
ghost use Rattle.lazy_dfa.specs.StartCalls.{IsStartCause};
ghost use Rattle.lazy_dfa.specs.Steps.{IsCause, IsStepCause};
ghost use Rattle.streams.specs.Reading.{IsStepError};

use lazy_dfa::{CacheError, StartError};
use thiserror::Error;

/// Why a stream takes no more bytes.
#[derive(Clone, Copy, Debug, PartialEq, Eq, Error)]
pub enum StreamError {
    /// A byte at which the automaton gives up, as one above 7F next to a Unicode word boundary. The stream has failed for good.
    #[error("byte {byte} at offset {offset} isn't supported by the automaton")]
    Quit {
        /// The byte.
        byte: u8,
        /// Its offset in the stream.
        offset: usize,
    },
    /// The end of the input was read before.
    #[error("the stream is closed")]
    Closed,
    /// There is no room for a state, and the configuration doesn't allow another clear of the cache.
    #[error("lazy DFA cache has been cleared too many times")]
    GaveUp,
    /// Out of memory.
    #[error("out of memory")]
    NoMemory,
    /// The offsets of the stream would exceed the greatest `usize`.
    #[error("the stream is too long")]
    TooLong,
    /// The rows have no room for the ends at the end of the input.
    #[error("there is no room for the ends at the end of the input")]
    NoRoom,
}

/// The error of a stream, from that of a step or of a state that is added.
pub(crate) fn of_step(error: CacheError) -> StreamError
    ensures step { (d : Dfa) (v : CacheValue) (id : ℕ) (u : Option ℕ) (s : StateValue) → HeldAt v id s → IsStepCause d v id u error →
        IsStepError d result }
    ensures state { (d : Dfa) (v : CacheValue) (s : StateValue) → IsCause d v s error → IsStepError d result }
{
    match error {
        CacheError::GaveUp => StreamError::GaveUp,
        CacheError::NoMemory => StreamError::NoMemory,
    }
}

/// The error of a stream, from that of its start. A stream has no byte before its start, and isn't anchored.
pub(crate) fn of_start(error: StartError) -> StreamError
    ensures { (d : Dfa) (v : CacheValue) (c : StartValue) → IsStartCause d v c error → IsStepError d result }
{
    match error {
        StartError::Cache { err } => of_step(err),
        _ => StreamError::NoMemory,
    }
}
