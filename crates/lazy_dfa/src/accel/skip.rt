//! How searches skip bytes.
//!
//! A search may come back to a state that most bytes don't change. It then doesn't read these bytes one by one. It looks for the
//! next byte that leaves the state, many bytes at once. A cache notes one such state, the state to stop at, with the bytes that
//! leave it. The cache lasts from search to search. Whatever writes a step forgets the state, since fewer bytes may leave it from
//! then on. A search looks for such a state again in the next stretch of bytes that it reads one by one. If a long stretch of bytes
//! doesn't lead to the state that is noted, the one that the search is in then may replace it. Bytes whose step isn't known yet
//! count as leaving, and so do quit bytes.
//!
//! If few bytes leave the state, the byte after one of them may lead the search back to it. The cache then also notes with which
//! of these next bytes the search may not be back. The search looks for two adjacent bytes: one that leaves, and one of these.
//!
//! A skip costs about as much as reading a few bytes. So each skip is paid from a credit, to which it adds the number of bytes
//! that it skipped. If the credit is used up, searches read all bytes for a while, and then get a small credit to try again.
ghost use Rattle.std.specs.Prelude.{◌≡◌};
ghost use Rattle.lazy_dfa.specs.Ids.{unknown_id};

use crate::accel::accel_bytes::Leaving;
use crate::accel::half_tables::HalfTables;
use crate::lazy_id::LazyStateID;

/// The cost of a skip: about as much as reading this many bytes.
const SKIP_COST: usize = 8;

/// The credit of a cache that holds no states.
const FIRST_CREDIT: usize = 1024;

/// The greatest credit.
const MOST_CREDIT: usize = 4096;

/// The number of bytes that searches read one by one once the credit is used up, before they may skip again.
pub(crate) const REST: usize = 1 << 16;

/// The credit after that: enough for one look at a state that turns out to be unusable, and for some skips.
const NEXT_CREDIT: usize = 256;

/// A state to stop at.
#[derive(Clone, Copy)]
pub(crate) struct Skip {
    /// Its ID, or the unknown one if none is noted.
    pub(crate) stop: LazyStateID,
    /// The bytes that leave it.
    pub(crate) leaving: Leaving,
    /// The bytes that, after one of those, may not lead the search back, if they are noted.
    pub(crate) behind: Option<HalfTables>,
    pub(crate) credit: usize,
    /// How many bytes were read one by one since the credit was used up.
    pub(crate) rested: usize,
}

/// The credit after a skip over this many bytes.
#[inline(always)]
pub(crate) fn paid(credit: usize, passed: usize) -> usize {
    let more = credit.saturating_add(passed).min(MOST_CREDIT);
    more.saturating_sub(SKIP_COST)
}

/// Whether a credit is used up.
#[inline(always)]
pub(crate) fn is_used_up(credit: usize) -> bool {
    credit < SKIP_COST
}

impl Skip {
    /// Returns notes of no state, with the first credit.
    pub(crate) fn new() -> Skip
        ensures { result.stop ≡ unknown_id }
    {
        Skip {
            stop: LazyStateID::unknown(),
            leaving: Leaving::Never,
            behind: None,
            credit: FIRST_CREDIT,
            rested: 0,
        }
    }

    /// Returns these notes after so many more bytes were read one by one since the credit was used up.
    pub(crate) fn after_rest(self, bytes: usize) -> Skip
        ensures same_stop { result.stop ≡ self.stop }
        ensures same_leaving { result.leaving ≡ self.leaving }
        ensures same_behind { result.behind ≡ self.behind }
    {
        let rested = self.rested.saturating_add(bytes);
        if rested < REST {
            return Skip { rested, ..self };
        }
        Skip {
            credit: NEXT_CREDIT,
            rested: 0,
            ..self
        }
    }

    /// Returns these notes without the state.
    pub(crate) fn forgotten(self) -> Skip
        ensures { result.stop ≡ unknown_id }
    {
        let mut rest = self;
        rest.stop = LazyStateID::unknown();
        rest
    }
}
