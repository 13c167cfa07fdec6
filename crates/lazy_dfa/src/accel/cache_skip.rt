//! What a cache notes of the state to stop at, and when searches skip bytes.
ghost use Rattle.std.specs.Prelude.{◌≡◌, ℕ, ◌<◌, ◌≤◌, IfSome, true, false};
ghost use Rattle.search_core.specs.ByteSets.{has};
ghost use Rattle.lazy_dfa.specs.Ids.{tag};
ghost use Rattle.lazy_dfa.specs.Skips.{cell_by, IsLeft, IsSkip};

use crate::accel::accel_bytes::Leaving;
use crate::accel::skip::{Skip, is_used_up};
use crate::cache::Cache;
use crate::lazy_id::LazyStateID;
use search_core::ByteSet;

/// The cost of finding out which bytes leave a state that then turns out to be unusable, or that replaces another one.
const LOOK_COST: usize = 128;

/// The number of bytes that are read one by one before a search looks for a state to stop at.
const STRETCH: usize = 64;

/// As many bytes, while a state is noted. If they don't lead to it, the one that they lead to may be better.
const LONG_STRETCH: usize = 512;

impl Cache {
    /// The ID at which a search stops that may skip bytes, or the unknown one.
    #[inline(always)]
    pub(crate) fn stop(&self) -> LazyStateID {
        self.skip.stop
    }

    /// Whether a search reads all bytes one by one, since the credit is used up and no state to stop at is noted.
    #[inline(always)]
    pub(crate) fn reads_all(&self) -> bool {
        self.skip.stop.is_tagged() && is_used_up(self.skip.credit)
    }

    /// The offset up to which bytes are read one by one: the end, or the end of a stretch after which a state to stop at is
    /// looked for. If one is noted, the stretch is longer.
    #[inline(always)]
    pub(crate) fn stretch_end(&self, from: usize, end: usize) -> usize
        requires { from ≤ end }
        ensures low { from ≤ result }
        ensures high { result ≤ end }
    {
        let stretch = if self.skip.stop.is_tagged() {
            STRETCH
        } else {
            LONG_STRETCH
        };
        if is_used_up(self.skip.credit) || end - from <= stretch {
            return end;
        }
        from + stretch
    }

    /// What is noted.
    #[inline(always)]
    pub(crate) fn skip(&self) -> &Skip
        ensures left { result.now.stop < tag → IsLeft self.now.cells self.now.classes result.now.stop result.now.leaving }
        ensures noted { IsSkip self.now.cells self.now.classes result.now }
    {
        &self.skip
    }

    /// Keeps the credit that is left after skips. If it is used up, the state is forgotten.
    #[inline(always)]
    pub(crate) fn pay(&mut self, credit: usize)
        ensures { self.new ≡ self.old }
    {
        self.skip.credit = credit;
        if is_used_up(credit) {
            self.skip.stop = LazyStateID::unknown();
        }
    }

    /// Records that so many bytes were read one by one. If the credit is used up, enough of them give it some credit again.
    #[inline(always)]
    pub(crate) fn rest(&mut self, bytes: usize)
        ensures { self.new ≡ self.old }
    {
        if is_used_up(self.skip.credit) {
            self.skip = self.skip.after_rest(bytes);
        }
    }

    /// Notes a state as the one to stop at, instead of the one that was noted, if the next byte doesn't leave it.
    #[inline(never)]
    pub(crate) fn look(&mut self, id: LazyStateID, byte: u8)
        requires { id < tag }
        ensures { self.new ≡ self.old }
    {
        if !self.leads(id, byte, id) {
            return;
        }
        let set = self.leaving_bytes(id);
        let Some(leaving) = Leaving::new(&set) else {
            let credit = self.skip.credit.saturating_sub(LOOK_COST);
            self.pay(credit);
            return;
        };
        let behind = self.tables_behind(id, &leaving);
        let cost = if self.skip.stop.is_tagged() {
            0
        } else {
            LOOK_COST
        };
        self.skip = Skip {
            stop: id,
            leaving,
            behind,
            credit: self.skip.credit.saturating_sub(cost),
            ..self.skip
        };
    }

    /// The ID to which a byte leads from an ID without tags, if there is a cell for it.
    pub(crate) fn step_by(&self, id: LazyStateID, byte: u8) -> Option<LazyStateID>
        ensures { IfSome result (λ next. cell_by self.now.cells self.now.classes id byte ≡ next) }
    {
        let place = id.bits() as usize + usize::from(self.classes.get(byte));
        self.cells.get(place).copied()
    }

    /// Whether the step by a byte is known and leads to a state.
    pub(crate) fn leads(&self, id: LazyStateID, byte: u8, to: LazyStateID) -> bool
        ensures { result ≡ true → cell_by self.now.cells self.now.classes id byte ≡ to }
    {
        let Some(next) = self.step_by(id, byte) else {
            return false;
        };
        next == to
    }

    /// The bytes that may leave a state.
    fn leaving_bytes(&self, id: LazyStateID) -> ByteSet
        ensures { (byte : ℕ) → byte < 256 → has result byte ≡ false → cell_by self.now.cells self.now.classes id byte ≡ id }
    {
        let mut set = ByteSet::empty();
        for byte in 0..=255 {
            if !self.leads(id, byte, id) {
                set.add(byte);
            }
        }
        set
    }
}
