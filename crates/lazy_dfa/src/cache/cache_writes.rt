//! Calls that write to a cache. A call makes all its writes or none, since its allocations come before any write. One exception
//! is `clear_keeping`: if it fails, it may have cleared the cache.
ghost use Rattle.std.specs.Prelude.{◌≡◌, ◌+◌, ◌*◌, ◌%◌, ◌<◌, ◌≤◌, ◌⊎◌, [], ◌∷◌, ◌++◌, length, replicate, slice_set, IfOk, OnOk, OnErr};
ghost use Rattle.std.specs.Prelude.{None, vec_len, vec_capacity};
ghost use Rattle.search_core.specs.Index.{greatest_index};
ghost use Rattle.search_core.specs.Units.{unit_byte};
ghost use Rattle.determinize_core.specs.Costs.{free_ways};
ghost use Rattle.determinize_core.specs.Stepped.{IsStepped};
ghost use Rattle.determinize_core.specs.Steps.{step_value, start_value};
ghost use Rattle.lazy_dfa.specs.Dfas.{cost};
ghost use Rattle.lazy_dfa.specs.Caches.{state_at, id_at, row_holding, usage, with_state, new_id, cleared, empty_cache, sentinel_rows};
ghost use Rattle.lazy_dfa.specs.Ids.{tag, has_tag, start_tag};

use crate::accel::skip::Skip;
use crate::cache::Cache;
use crate::cache::progress::begun_anew;
use crate::lazy_id::{LazyStateID, MATCH, SENTINELS, id_of};
use crate::work::Work;
use determinize_core::{Start, State, Workspace, next_in, start_in};
use nfa_core::NFA;
use search_core::{ByteClasses, StateID, Unit};
use search_types::MatchKind;
use std::alloc::{AllocError, Global};
use std::collections::HashMap;
use std::sync::ledger::Ledger;

impl Cache {
    /// A cache that holds no states, whose sets have room for this many NFA states. If memory runs out, the call returns an
    /// error.
    pub(crate) fn empty(
        alloc: Global,
        stride: usize,
        fresh: usize,
        starts: usize,
        names: usize,
        classes: &ByteClasses,
    ) -> Result<Cache, AllocError>
        requires positive { 0 < stride }
        requires narrow { stride ≤ 512 }
        requires names { names ≤ greatest_index + 1 }
        ensures { IfOk result (λ c. c ≡ empty_cache stride fresh starts names classes.now) }
    {
        let cells = sentinel_rows(alloc, stride)?;
        let starts = vec![in alloc; LazyStateID::unknown(); starts]?;
        let workspace = Workspace::new(alloc, names)?;
        Ok(Cache {
            states: Vec::new(alloc),
            ids: Vec::new(alloc),
            rows: HashMap::new(alloc),
            cells,
            starts,
            workspace,
            stride,
            fresh,
            used: fresh,
            clears: 0,
            searched: 0,
            progress: None,
            classes: *classes,
            skip: Skip::new(),
        })
    }

    /// The state after a unit, from the state of a row.
    pub(crate) fn behind<L: Ledger, M: Ledger>(
        &mut self,
        nfa: &NFA,
        kind: MatchKind,
        k: usize,
        unit: Unit,
        work: &mut Work<L, M>,
    ) -> Result<State, AllocError>
        requires row { k < length self.old.states }
        requires bound { self.old.bound ≡ length nfa.now.automaton.states }
        requires stepped { IsStepped nfa.now.automaton (state_at self.old k) }
        ensures value { IfOk result (λ behind. behind ≡ step_value nfa.now.automaton nfa.now.terminator kind (state_at self.old k)
            (unit_byte unit)) }
        ensures same { self.new ≡ self.old }
        ensures determinized { work.new.determinized ≡ work.old.determinized + 1 }
        ensures inserted { work.new.inserted ≤ work.old.inserted + 3 * length nfa.now.automaton.states + 2 * free_ways nfa.now.automaton }
    {
        work.determinized.tick();
        let behind = next_in(
            nfa,
            kind,
            &mut self.workspace,
            &self.states[k],
            unit,
            &mut work.inserted,
        )?;
        Ok(behind)
    }

    /// The state in which a search starts from a state of the NFA.
    pub(crate) fn first<L: Ledger, M: Ledger>(
        &mut self,
        nfa: &NFA,
        start: Start,
        name: StateID,
        work: &mut Work<L, M>,
    ) -> Result<State, AllocError>
        requires inside { name < length nfa.now.automaton.states }
        requires bound { self.old.bound ≡ length nfa.now.automaton.states }
        ensures value { IfOk result (λ first. first ≡ start_value nfa.now.automaton nfa.now.terminator start name) }
        ensures same { self.new ≡ self.old }
        ensures determinized { work.new.determinized ≡ work.old.determinized + 1 }
        ensures inserted { work.new.inserted ≤ work.old.inserted + 1 + free_ways nfa.now.automaton }
    {
        work.determinized.tick();
        let first = start_in(nfa, start, name, &mut self.workspace, &mut work.inserted)?;
        Ok(first)
    }

    /// Records a start state.
    pub(crate) fn set_start(&mut self, i: usize, to: LazyStateID)
        requires { i < length self.old.starts }
        ensures { self.new ≡ record self.old { starts = slice_set self.old.starts i to } }
    {
        self.starts[i] = to;
    }

    /// Records the step from an ID by the units of a class.
    pub(crate) fn set_cell(&mut self, id: LazyStateID, class: usize, to: LazyStateID)
        requires { id % tag + class < length self.old.cells }
        ensures { self.new ≡ record self.old { cells = slice_set self.old.cells (id % tag + class) to } }
    {
        self.skip = self.skip.forgotten();
        self.cells[(id.bits() % MATCH) as usize + class] = to;
    }

    /// Removes all states but one, which gets a new row and keeps the tag of start states.
    pub(crate) fn clear_keeping(&mut self, k: usize) -> Result<LazyStateID, AllocError>
        requires row { k < length self.old.states }
        requires room { 5 * self.old.stride ≤ tag }
        requires counted { self.old.fresh + cost self.old.stride (state_at self.old k) < 0x1_0000_0000_0000_0000 }
        ensures id { IfOk result (λ id. id ≡ new_id (cleared self.old) (has_tag start_tag (id_at self.old k)) (state_at self.old k)) }
        ensures ok { OnOk result (self.new ≡ with_state (has_tag start_tag (id_at self.old k)) (state_at self.old k) (cleared self.old)) }
        ensures err { OnErr result ((self.new ≡ self.old) ⊎ (self.new ≡ cleared self.old)) }
    {
        let _ = &self.rows;
        let start = self.ids[k].is_start();
        let state = self.states[k].clone()?;
        self.clear();
        let id = self.add_state(state, start)?;
        Ok(id)
    }

    /// Removes all states, and restarts the search in progress where it is.
    pub(crate) fn clear(&mut self)
        ensures { self.new ≡ cleared self.old }
    {
        self.rows.clear();
        self.states.clear();
        self.ids.clear();
        self.cells.truncate(SENTINELS * self.stride);
        self.starts.fill(LazyStateID::unknown());
        self.used = self.fresh;
        self.clears = self.clears.saturating_add(1);
        self.searched = 0;
        self.progress = begun_anew(self.progress);
        self.skip = Skip::new();
    }

    /// Adds a state that isn't held yet, with a row of which nothing is known.
    pub(crate) fn add_state(
        &mut self,
        state: State,
        is_start: bool,
    ) -> Result<LazyStateID, AllocError>
        requires fresh { row_holding state self.old.states ≡ None }
        requires room { length self.old.cells + self.old.stride ≤ tag }
        requires counted { usage self.old + cost self.old.stride state < 0x1_0000_0000_0000_0000 }
        ensures id { IfOk result (λ id. id ≡ new_id self.old is_start state) }
        ensures ok { OnOk result (self.new ≡ with_state is_start state self.old) }
        ensures err { OnErr result (self.new ≡ self.old) }
    {
        let k = self.states.len();
        let at = self.cells.len();
        let id = id_of(at as u32, is_start, state.is_match());
        let cost = 4 * self.stride + 16 + 20 + state.memory_usage();
        let copy = state.clone()?;
        let stride = self.stride;
        reserve_row(&mut self.cells, stride, &mut self.states, &mut self.ids)?;
        self.rows.reserve(1)?;
        self.skip = self.skip.forgotten();
        lengthen(&mut self.cells, self.stride, LazyStateID::unknown());
        append(&mut self.states, copy);
        append(&mut self.ids, id);
        let Ok(_) = self.rows.insert(state, k) else {
            unreachable!()
        };
        self.used += cost;
        Ok(id)
    }
}

/// Reserves room for one more state in the lists of a cache: a row of cells, and one item in each of the others.
fn reserve_row(
    cells: &mut Vec<LazyStateID>,
    stride: usize,
    states: &mut Vec<State>,
    ids: &mut Vec<LazyStateID>,
) -> Result<(), AllocError>
    ensures cells { cells.new.items ≡ cells.old.items }
    ensures states { states.new.items ≡ states.old.items }
    ensures ids { ids.new.items ≡ ids.old.items }
    ensures row { OnOk result (vec_len cells.new + stride ≤ vec_capacity cells.new) }
    ensures state { OnOk result (vec_len states.new < vec_capacity states.new) }
    ensures id { OnOk result (vec_len ids.new < vec_capacity ids.new) }
{
    cells.reserve(stride)?;
    states.reserve(1)?;
    ids.reserve(1)?;
    Ok(())
}

/// Adds an item to a list that has room for it.
fn append<T: Drop>(items: &mut Vec<T>, item: T)
    requires room { vec_len items.old < vec_capacity items.old }
    ensures { items.new.items ≡ items.old.items ++ item ∷ [] }
{
    let Ok(()) = items.push(item) else {
        unreachable!()
    };
}

/// Adds copies of an ID to a list that has room for them.
fn lengthen(ids: &mut Vec<LazyStateID>, count: usize, id: LazyStateID)
    requires room { vec_len ids.old + count ≤ vec_capacity ids.old }
    ensures { ids.new.items ≡ ids.old.items ++ replicate count id }
{
    let len = ids.len();
    let Ok(()) = ids.resize(len + count, id) else {
        unreachable!()
    };
}

/// The rows of the sentinels, each of which leads to itself.
fn sentinel_rows(alloc: Global, stride: usize) -> Result<Vec<LazyStateID>, AllocError>
    requires { stride ≤ 512 }
    ensures { IfOk result (λ rows. rows.items ≡ sentinel_rows stride) }
{
    let mut rows = vec![in alloc; LazyStateID::unknown(); stride]?;
    rows.resize(2 * stride, LazyStateID::dead(stride))?;
    rows.resize(SENTINELS * stride, LazyStateID::quit(stride))?;
    Ok(rows)
}
