ghost use Rattle.std.specs.Prelude.{◌≡◌, ◌+◌, ◌%◌, ◌<◌, ◌↔◌, true, length, slice_index_or, IfSome};
ghost use Rattle.determinize_core.specs.States.{IsState};
ghost use Rattle.lazy_dfa.specs.Caches.{IsShaped, HeldAt, IsRow, is_clear_denied, fits, state_at, id_at, row_holding, usage};
ghost use Rattle.lazy_dfa.specs.Ids.{tag};

mod cache_progress;
mod cache_writes;
mod held_states;
mod making;
mod progress;

use crate::accel::skip::Skip;
use crate::cache::progress::Progress;
use crate::lazy_id::{LazyStateID, MATCH, SENTINELS};
use determinize_core::state_laws::bytes_stand_for_states;
use determinize_core::{State, Workspace};
use search_core::ByteClasses;
use std::collections::HashMap;
use std::marker::Model;

/// The powerset states that searches have built so far, with what is known of their steps, as
/// `regex_automata::hybrid::dfa::Cache`. It is usable only with the automaton for which it was created, or to which it was
/// [`reset`](Cache::reset).
#[derive(Drop)]
pub struct Cache {
    /// The states of the rows from 3 on. Rows 0, 1 and 2 are those of the sentinels.
    pub(crate) states: Vec<State>,
    /// Their IDs.
    pub(crate) ids: Vec<LazyStateID>,
    /// The index of each state in the list. It shares the states' bytes.
    pub(crate) rows: HashMap<State, usize>,
    /// The transitions, row after row.
    pub(crate) cells: Vec<LazyStateID>,
    /// The IDs of start states, seven for each mode.
    pub(crate) starts: Vec<LazyStateID>,
    /// What steps need in addition to the automaton.
    pub(crate) workspace: Workspace,
    /// The length of a row.
    pub(crate) stride: usize,
    /// The number of bytes that the cache is counted to need with no states.
    pub(crate) fresh: usize,
    /// The number of bytes that the cache is counted to need with its states.
    pub(crate) used: usize,
    pub(crate) clears: usize,
    /// The number of bytes that were searched since the last clear, up to the search in progress.
    pub(crate) searched: usize,
    pub(crate) progress: Option<Progress>,
    /// The classes of bytes, one for each column.
    pub(crate) classes: ByteClasses,
    /// Where searches skip bytes.
    pub(crate) skip: Skip,
}

impl Model for Cache {
    ghost use Rattle.lazy_dfa.specs.Caches.{CacheValue, IsKept};
    ghost use Rattle.lazy_dfa.specs.Skips.{IsSkip};

    ghost Value = { CacheValue };

    ghost view = { λ c. record {
      states = c.states.items;
      ids = c.ids.items;
      cells = c.cells.items;
      starts = c.starts.items;
      stride = c.stride;
      fresh = c.fresh;
      bound = c.workspace;
      clears = c.clears;
      searched = c.searched;
      progress = c.progress;
      classes = c.classes;
    } };

    ghost invariant = { λ c. IsKept (record {
      states = c.states.items;
      ids = c.ids.items;
      cells = c.cells.items;
      starts = c.starts.items;
      stride = c.stride;
      fresh = c.fresh;
      bound = c.workspace;
      clears = c.clears;
      searched = c.searched;
      progress = c.progress;
      classes = c.classes;
    }) c.rows c.used × IsSkip c.cells.items c.classes c.skip };
}

impl Cache {
    /// Returns how many times the cache was cleared since it was created or reset, as `Cache::clear_count`.
    pub fn clear_count(&self) -> usize
        ensures { result ≡ self.now.clears }
    {
        self.clears
    }

    /// Returns the number of bytes that the cache is counted to need, as `Cache::memory_usage`. The count stands for what the
    /// cache keeps, and not for real memory.
    pub fn memory_usage(&self) -> usize
        ensures { result ≡ usage self.now }
    {
        self.used
    }

    /// The length of a row.
    pub(crate) fn stride(&self) -> usize
        ensures stride { result ≡ self.now.stride }
        ensures shape { IsShaped self.now }
    {
        let _ = &self.rows;
        self.stride
    }

    /// The row from 3 on that holds the state.
    pub(crate) fn find(&self, state: &State) -> Option<usize>
        ensures place { result ≡ row_holding state.now self.now.states }
        ensures real { IsState state.now }
        ensures held { IfSome result (λ k. HeldAt self.now (id_at self.now k) state.now) }
        ensures row { IfSome result (λ k. k < length self.now.states) }
    {
        bytes_stand_for_states();
        let _ = state.as_bytes();
        self.rows.get(state).copied()
    }

    /// The row from 3 on that has the ID.
    pub(crate) fn row(&self, id: LazyStateID) -> usize
        requires { IsRow self.now id }
        ensures inside { result < length self.now.states }
        ensures id { id ≡ id_at self.now result }
    {
        let stride = self.stride();
        (id.bits() % MATCH) as usize / stride - SENTINELS
    }

    /// Whether the ID is that of a row from 3 on.
    pub(crate) fn has_row(&self, id: LazyStateID) -> bool
        ensures { (result ≡ true) ↔ IsRow self.now id }
    {
        let stride = self.stride();
        let row = (id.bits() % MATCH) as usize / stride;
        if row < SENTINELS {
            return false;
        }
        let k = row - SENTINELS;
        if k >= self.states.len() {
            return false;
        }
        let held = self.id(k);
        held == id
    }

    /// The ID of a row from 3 on.
    pub(crate) fn id(&self, k: usize) -> LazyStateID
        requires { k < length self.now.states }
        ensures { result ≡ id_at self.now k }
    {
        self.ids[k]
    }

    /// The state of a row from 3 on.
    pub(crate) fn state(&self, k: usize) -> &State
        requires { k < length self.now.states }
        ensures { result.now ≡ state_at self.now k }
    {
        &self.states[k]
    }

    /// Whether there is room for the state.
    pub(crate) fn fits(&self, state: &State, capacity: usize) -> bool
        ensures { result ≡ fits capacity state.now self.now }
    {
        if self.cells.len() + self.stride > MATCH as usize {
            return false;
        }
        if self.used > capacity {
            return false;
        }
        let left = capacity - self.used;
        let row = 4 * self.stride + 36;
        if left < row {
            return false;
        }
        state.memory_usage() <= left - row
    }

    /// What is known of the step from an ID by the units of a class.
    #[inline(always)]
    pub(crate) fn cell(&self, id: LazyStateID, class: usize) -> LazyStateID
        requires { id % tag + class < length self.now.cells }
        ensures { result ≡ slice_index_or self.now.cells (id % tag + class) 0 }
    {
        self.cells[(id.bits() % MATCH) as usize + class]
    }

    /// What is known of the step from an ID without tags, by the units of a class.
    ///
    /// It reads the column of the class instead of the table. So a search waits for one load per byte, and not for an addition
    /// before it too.
    #[inline(always)]
    #[tactic(auto, using(crate::proofs::CacheChanges::ListLemmas::cell_of_column))]
    pub(crate) fn cell_of_untagged(&self, id: LazyStateID, class: usize) -> LazyStateID
        requires { id + class < length self.now.cells }
        ensures { result ≡ slice_index_or self.now.cells (id + class) 0 }
    {
        let column = &self.cells[class..];
        column[id.bits() as usize]
    }

    /// What is known of a start state.
    pub(crate) fn start(&self, i: usize) -> LazyStateID
        requires { i < length self.now.starts }
        ensures { result ≡ slice_index_or self.now.starts i 0 }
    {
        self.starts[i]
    }

    /// Whether no further clear is allowed.
    pub(crate) fn refuses_clear(
        &self,
        least_clears: Option<usize>,
        least_bytes: Option<usize>,
    ) -> bool
        ensures { result ≡ is_clear_denied least_clears least_bytes self.now }
    {
        let Some(least) = least_clears else {
            return false;
        };
        if self.clears < least {
            return false;
        }
        let Some(bytes) = least_bytes else {
            return true;
        };
        self.search_total_len() < bytes.saturating_mul(self.states.len() + SENTINELS)
    }
}
