//! Which bytes, after one that leaves the state to stop at, may not lead a search back to it.
ghost use Rattle.std.specs.Prelude.{◌≡◌, ℕ, ◌<◌, IfSome, true, false};
ghost use Rattle.lazy_dfa.specs.ByteTests.{in_halves};
ghost use Rattle.lazy_dfa.specs.Ids.{tag};
ghost use Rattle.lazy_dfa.specs.AccelBytes.{leaves};
ghost use Rattle.lazy_dfa.specs.Skips.{cell_by, IsAfterByte};

use crate::accel::accel_bytes::Leaving;
use crate::accel::byte_tests::ByteTest;
use crate::accel::half_tables::HalfTables;
use crate::cache::Cache;
use crate::lazy_id::LazyStateID;
use search_core::ByteSet;

impl Cache {
    /// A test of the byte after one that leaves a state, if few bytes leave it. If the test fails, the search is back.
    pub(crate) fn tables_behind(&self, id: LazyStateID, leaving: &Leaving) -> Option<HalfTables>
        ensures { IfSome result (IsAfterByte self.now.cells self.now.classes id leaving.now) }
    {
        if !leaving.are_few() {
            return None;
        }
        let set = self.bytes_behind(id, leaving);
        let tables = HalfTables::new(&set)?;
        if !self.are_behind(id, leaving, &tables) {
            return None;
        }
        Some(tables)
    }

    /// The bytes that have to pass. Whether they suffice is checked afterwards.
    fn bytes_behind(&self, id: LazyStateID, leaving: &Leaving) -> ByteSet {
        let mut set = ByteSet::empty();
        for byte in 0..=255 {
            if leaving.leaves(byte) {
                set.add(byte);
                self.add_behind(&mut set, id, byte);
            }
        }
        set
    }

    /// Adds the bytes that don't lead the search back after one byte.
    fn add_behind(&self, set: &mut ByteSet, id: LazyStateID, byte: u8) {
        let Some(next) = self.step_by(id, byte) else {
            return;
        };
        for second in 0..=255 {
            if !self.leads(next, second, id) {
                set.add(second);
            }
        }
    }

    /// Whether tables are such a test.
    fn are_behind(&self, id: LazyStateID, leaving: &Leaving, tables: &HalfTables) -> bool
        ensures { result ≡ true → IsAfterByte self.now.cells self.now.classes id leaving.now tables.now }
    {
        for byte in 0..256usize {
            let byte = byte as u8;
            if leaving.leaves(byte) && !self.are_behind_one(id, byte, leaving, tables) {
                return false;
            }
        }
        true
    }

    /// Whether tables are such a test after one byte.
    fn are_behind_one(
        &self,
        id: LazyStateID,
        byte: u8,
        leaving: &Leaving,
        tables: &HalfTables,
    ) -> bool
        ensures plain { result ≡ true → cell_by self.now.cells self.now.classes id byte < tag }
        ensures back { result ≡ true → (second : ℕ) → second < 256 → in_halves tables.now.low tables.now.high second ≡ false →
            (leaves leaving.now second ≡ false) × (cell_by self.now.cells self.now.classes (cell_by self.now.cells self.now.classes id byte)
            second ≡ id) }
    {
        let Some(next) = self.step_by(id, byte) else {
            return false;
        };
        if next.is_tagged() {
            return false;
        }
        for second in 0..256usize {
            let second = second as u8;
            if !tables.passes(second) && !self.comes_back_by(next, second, id, leaving) {
                return false;
            }
        }
        true
    }

    /// Whether a byte that doesn't leave a state leads back to it from another one.
    fn comes_back_by(&self, next: LazyStateID, byte: u8, id: LazyStateID, leaving: &Leaving) -> bool
        ensures { result ≡ true → (leaves leaving.now byte ≡ false) × (cell_by self.now.cells self.now.classes next byte ≡ id) }
    {
        !leaving.leaves(byte) && self.leads(next, byte, id)
    }
}
