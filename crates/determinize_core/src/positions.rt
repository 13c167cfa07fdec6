//! The possible positions of patterns in a list.
ghost use Rattle.std.specs.Prelude.{◌≡◌, ◌≢◌, ℕ, ◌<◌, [], length, slice_index, IsOk, OnOk};

use search_core::PatternID;
use std::alloc::{AllocError, Global};

/// A position in a list for each pattern; 0 if none was recorded. A caller that gets one checks whether the pattern is at that position of
/// the list. So positions that were recorded for patterns of an earlier list needn't be removed.
#[derive(Drop)]
pub(crate) struct Positions {
    pub(crate) noted: Vec<u32>,
}

impl Positions {
    /// Positions of which none was recorded.
    pub(crate) fn new(alloc: Global) -> Positions
        ensures { result.noted.items ≡ [] }
    {
        Positions {
            noted: Vec::new(alloc),
        }
    }

    /// The position that was recorded last for the pattern.
    pub(crate) fn position(&self, pid: PatternID) -> u32
        ensures { result ≡ slice_index self.now.noted.items pid }
    {
        match self.noted.get(pid.as_usize()) {
            Some(position) => *position,
            None => 0,
        }
    }

    /// Records a position for the pattern. For the first position, 0, nothing is recorded, and the call can't fail. Otherwise it returns an
    /// error if an allocation fails.
    pub(crate) fn note(&mut self, pid: PatternID, position: u32) -> Result<(), AllocError>
        ensures there { 0 < position → OnOk result (slice_index self.new.noted.items pid ≡ position) }
        ensures first { position ≡ 0 → IsOk result }
        ensures others { (p : ℕ) → p ≢ pid → slice_index self.new.noted.items p ≡ slice_index self.old.noted.items p }
    {
        if position == 0 {
            return Ok(());
        }
        self.make_room(pid)?;
        self.noted[pid.as_usize()] = position;
        Ok(())
    }

    /// Makes room for the position of the pattern. Returns an error if an allocation fails.
    fn make_room(&mut self, pid: PatternID) -> Result<(), AllocError>
        ensures room { OnOk result (pid < length self.new.noted.items) }
        ensures same { (p : ℕ) → slice_index self.new.noted.items p ≡ slice_index self.old.noted.items p }
    {
        let len = pid.one_more();
        if len <= self.noted.len() {
            return Ok(());
        }
        self.noted.resize(len, 0)
    }
}
