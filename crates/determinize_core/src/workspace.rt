ghost use Rattle.std.specs.Prelude.{◌≡◌, ◌+◌, ◌*◌, ◌<◌, ◌≤◌, length, IfOk};
ghost use Rattle.search_core.specs.Index.{greatest_index};
ghost use Rattle.search_core.specs.Units.{unit_byte};
ghost use Rattle.determinize_core.specs.Costs.{free_ways};
ghost use Rattle.determinize_core.specs.Stepped.{IsStepped};
ghost use Rattle.determinize_core.specs.Steps.{start_value, step_value};

use crate::next_state::next;
use crate::start::Start;
use crate::starting::start_state;
use crate::state::State;
use crate::state_builder::StateBuilderEmpty;
use crate::stepped_laws::starts_and_steps_are_stepped;
use nfa_core::{NFA, NameSet, SparseSets, Steps};
use search_core::{StateID, Unit};
use search_types::MatchKind;
use std::alloc::{AllocError, Global};
use std::marker::Model;
use std::mem;
use std::sync::ledger::Ledger;

/// What steps need in addition to an automaton, for one step after the other: the two sets, the stack and the memory of the builder. The
/// Rust crate has these in the cache of its lazy automaton. A contract sees for how many states of an automaton it has room.
#[derive(Drop)]
pub struct Workspace {
    alloc: Global,
    sets: SparseSets,
    stack: Vec<StateID>,
    memory: StateBuilderEmpty,
}

impl Model for Workspace {
    ghost use Rattle.std.specs.Prelude.{◌≡◌, ℕ};

    ghost Value = { ℕ };

    ghost view = { λ w. w.sets.set1.bound };

    ghost invariant = { λ w. w.sets.set2.bound ≡ w.sets.set1.bound };
}

impl Workspace {
    /// Room for automata of so many states. Returns an error if an allocation fails.
    pub fn new(alloc: Global, states: usize) -> Result<Workspace, AllocError>
        requires { states ≤ greatest_index + 1 }
        ensures { IfOk result (λ work. work ≡ states) }
    {
        Ok(Workspace {
            alloc,
            sets: SparseSets::new(alloc, states)?,
            stack: Vec::new(alloc),
            memory: StateBuilderEmpty::new(alloc),
        })
    }

    /// For how many states of an automaton it has room.
    pub fn states(&self) -> usize
        ensures { result ≡ self.now }
    {
        self.sets.set1.capacity()
    }
}

/// The state after a unit, as [`next`](crate::next) makes it, in a workspace that has room for the automaton's states. If an allocation
/// fails, the call returns an error, and the workspace remains usable.
pub fn next_in<L: Ledger>(
    nfa: &NFA,
    kind: MatchKind,
    work: &mut Workspace,
    state: &State,
    unit: Unit,
    steps: &mut Steps<L>,
) -> Result<State, AllocError>
    requires room { work.old ≡ length nfa.now.automaton.states }
    requires state { IsStepped nfa.now.automaton state.now }
    ensures value { IfOk result (λ behind. behind ≡ step_value nfa.now.automaton nfa.now.terminator kind state.now (unit_byte unit)) }
    ensures stepped { IfOk result (λ behind. IsStepped nfa.now.automaton behind) }
    ensures room { work.new ≡ work.old }
    ensures cost { steps.new ≤ steps.old + 3 * length nfa.now.automaton.states + 2 * free_ways nfa.now.automaton }
{
    nfa.is_sound();
    starts_and_steps_are_stepped();
    work.stack.clear();
    let memory = mem::replace(&mut work.memory, StateBuilderEmpty::new(work.alloc));
    let built = next(
        nfa,
        kind,
        &mut work.sets,
        &mut work.stack,
        state,
        unit,
        memory,
        steps,
    )?;
    let behind = built.to_state(work.alloc)?;
    work.memory = built.clear();
    Ok(behind)
}

/// The state in which a search starts from a state of the automaton, as [`start_state`](crate::start_state) makes it, in a workspace that
/// has room for the automaton's states. If an allocation fails, the call returns an error, and the workspace remains usable.
pub fn start_in<L: Ledger>(
    nfa: &NFA,
    start: Start,
    id: StateID,
    work: &mut Workspace,
    steps: &mut Steps<L>,
) -> Result<State, AllocError>
    requires inside { id < length nfa.now.automaton.states }
    requires room { work.old ≡ length nfa.now.automaton.states }
    ensures value { IfOk result (λ first. first ≡ start_value nfa.now.automaton nfa.now.terminator start id) }
    ensures stepped { IfOk result (λ first. IsStepped nfa.now.automaton first) }
    ensures room { work.new ≡ work.old }
    ensures cost { steps.new ≤ steps.old + 1 + free_ways nfa.now.automaton }
{
    nfa.is_sound();
    starts_and_steps_are_stepped();
    work.stack.clear();
    let memory = mem::replace(&mut work.memory, StateBuilderEmpty::new(work.alloc));
    let built = start_state(
        nfa,
        start,
        id,
        &mut work.sets.set1,
        &mut work.stack,
        memory,
        steps,
    )?;
    let first = built.to_state(work.alloc)?;
    work.memory = built.clear();
    Ok(first)
}
