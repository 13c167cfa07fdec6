//! What a compiler of sequences of byte ranges keeps from one sequence to the next.
ghost use Rattle.std.specs.Prelude.{◌≡◌, ◌<◌, ◌↔◌, [], map, IfOk, OnOk, IsTrue};
ghost use Rattle.hir_core.specs.Sequences.{bytes_of};
ghost use Rattle.nfa_core.specs.Transitions.{range_of};
ghost use Rattle.thompson_nfa.specs.SlotTables.{unready_table};
ghost use Rattle.thompson_nfa.specs.Utf8Stacks.{frozen_with, fresh, advanced};

use crate::class_fragments::utf8_bounded_map::Utf8BoundedMap;
use hir_core::Utf8Range;
use nfa_core::Transition;
use search_core::StateID;
use std::alloc::{AllocError, Global};
use std::marker::Model;

/// How many states are kept to be used again.
const CAPACITY: usize = 10_000;

/// A state on the path of the last sequence that isn't made yet. It has ranges that lead to states, and a
/// last range whose state isn't known.
///
/// As `regex_automata::nfa::thompson::compiler::Utf8Node`.
#[derive(Drop)]
pub(crate) struct Utf8Node {
    trans: Vec<Transition>,
    last: Utf8Range,
}

impl Model for Utf8Node {
    ghost use Rattle.std.specs.Prelude.{map};
    ghost use Rattle.hir_core.specs.Sequences.{bytes_of};
    ghost use Rattle.nfa_core.specs.Transitions.{range_of};
    ghost use Rattle.thompson_nfa.specs.Utf8Stacks.{Stage};

    ghost Value = { Stage };

    ghost view = { λ n. record { frozen = map range_of n.trans.items; last = bytes_of n.last } };
}

impl Utf8Node {
    /// A node with this range alone.
    pub(crate) fn new(alloc: Global, last: Utf8Range) -> Utf8Node
        ensures { result ≡ fresh (bytes_of last) }
    {
        Utf8Node {
            trans: Vec::new(alloc),
            last,
        }
    }

    /// Whether this is the last range.
    pub(crate) fn ends_in(&self, range: Utf8Range) -> bool
        ensures { IsTrue result ↔ (self.now.last ≡ bytes_of range) }
    {
        self.last.start == range.start && self.last.end == range.end
    }

    /// Lets the last range lead to the state, and puts another after it.
    pub(crate) fn advance(&mut self, next: StateID, range: Utf8Range) -> Result<(), AllocError>
        ensures { OnOk result (self.new ≡ advanced next (bytes_of range) self.old) }
    {
        self.trans.push(Transition {
            start: self.last.start,
            end: self.last.end,
            next,
        })?;
        self.last = range;
        Ok(())
    }

    /// All ranges, with the last one leading to the state.
    pub(crate) fn freeze(self, next: StateID) -> Result<Vec<Transition>, AllocError>
        ensures { IfOk result (λ v. map range_of v.items ≡ frozen_with next self) }
    {
        let mut trans = self.trans;
        trans.push(Transition {
            start: self.last.start,
            end: self.last.end,
            next,
        })?;
        Ok(trans)
    }
}

/// The nodes on the path of the last sequence, the states that were made for nodes, and the state to which
/// all sequences lead. It may be used for one class after another.
///
/// As `regex_automata::nfa::thompson::compiler::Utf8State`.
#[derive(Drop)]
pub(crate) struct Utf8State {
    pub(crate) compiled: Utf8BoundedMap,
    pub(crate) nodes: Vec<Utf8Node>,
    pub(crate) end: StateID,
    ghost some: { 0 < compiled.capacity },
}

impl Utf8State {
    /// A state that has compiled nothing.
    pub(crate) fn new(alloc: Global) -> Utf8State
        ensures compiled { result.compiled ≡ unready_table 10000 }
        ensures nodes { result.nodes.items ≡ [] }
    {
        Utf8State {
            compiled: Utf8BoundedMap::new(alloc, CAPACITY),
            nodes: Vec::new(alloc),
            end: StateID::ZERO,
        }
    }
}
