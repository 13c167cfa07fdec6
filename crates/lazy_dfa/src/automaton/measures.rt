ghost use Rattle.std.specs.Prelude.{◌≡◌, ◌+◌, ◌*◌, ◌<◌, ◌≤◌};
ghost use Rattle.lazy_dfa.specs.Accounting.{longest_state, fresh_usage, least_capacity, effective_capacity};

use crate::lazy_id::SENTINELS;
use std::marker::Model;

/// The number of kinds of start states. The kind says what precedes the offset where a search starts, as far as looks distinguish
/// it.
pub(crate) const START_KINDS: usize = 7;

/// The numbers from which the bytes of a cache are computed, apart from the states that it holds.
#[derive(Clone, Copy)]
pub(crate) struct Measures {
    /// The number of states of the NFA.
    pub(crate) states: usize,
    /// The number of patterns.
    pub(crate) patterns: usize,
    /// The number of transitions that a state of the cache has.
    pub(crate) stride: usize,
    /// The number of start states that the cache records.
    pub(crate) starts: usize,
}

impl Model for Measures {
    ghost use Rattle.lazy_dfa.specs.Accounting.{Measures as TheMeasures};

    ghost Value = { TheMeasures };

    ghost view = { λ m. record { states = m.states; patterns = m.patterns; stride = m.stride; starts = m.starts } };

    ghost inverse = { λ v. record { states = v.states; patterns = v.patterns; stride = v.stride; starts = v.starts } };
}

impl Measures {
    /// The greatest number of bytes of a state.
    pub(crate) fn longest_state(&self) -> usize
        requires states { self.now.states < 0x1_0000_0000 }
        requires patterns { self.now.patterns < 0x1_0000_0000 }
        ensures { result ≡ longest_state self.now }
    {
        13 + 4 * self.patterns + 5 * self.states
    }

    /// The number of bytes of a cache that holds no states.
    pub(crate) fn fresh_usage(&self) -> usize
        requires states { self.now.states < 0x1_0000_0000 }
        requires patterns { self.now.patterns < 0x1_0000_0000 }
        requires stride { self.now.stride ≤ 512 }
        requires starts { self.now.starts < 0x10_0000_0000 }
        ensures { result ≡ fresh_usage self.now }
    {
        20 * self.states
            + self.longest_state()
            + 4 * self.starts
            + SENTINELS * (4 * self.stride + 16)
            + 20
            + 27
    }

    /// The least capacity in bytes that a cache may have.
    pub(crate) fn least_capacity(&self) -> usize
        requires states { self.now.states < 0x1_0000_0000 }
        requires patterns { self.now.patterns < 0x1_0000_0000 }
        requires stride { self.now.stride ≤ 512 }
        requires starts { self.now.starts < 0x10_0000_0000 }
        ensures { result ≡ least_capacity self.now }
    {
        self.fresh_usage() + 2 * (4 * self.stride + 16 + 20 + self.longest_state())
    }
}
