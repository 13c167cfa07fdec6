use crate::cache_error::CacheError;
use search_types::Anchored;
use thiserror::Error;

/// Why no start state of a search can be returned, as `regex_automata::hybrid::StartError`.
#[derive(Clone, Copy, Debug, PartialEq, Eq, Error)]
pub enum StartError {
    /// There is no room for the state, and the configuration doesn't allow another clear.
    #[error("error computing start state because of cache inefficiency")]
    Cache {
        /// The error of the cache.
        err: CacheError,
    },
    /// The byte before the start of the search is a quit byte.
    #[error("error computing start state because the look-behind byte {byte} is a quit byte")]
    Quit {
        /// The quit byte.
        byte: u8,
    },
    /// The automaton has no start states for this mode.
    #[error("there is no start for searches in this mode")]
    UnsupportedAnchored {
        /// The mode.
        mode: Anchored,
    },
    /// Out of memory.
    #[error("out of memory")]
    NoMemory,
}
