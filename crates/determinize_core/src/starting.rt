ghost use Rattle.std.specs.Prelude.{◌≡◌, ◌+◌, ◌<◌, ◌≤◌, [], ◌∷◌, length, OnOk, IfOk};
ghost use Rattle.determinize_core.specs.Costs.{free_ways};
ghost use Rattle.determinize_core.specs.LookBehind.{with_look_behind};
ghost use Rattle.determinize_core.specs.Steps.{look_behind_of, closed, start_value};

use crate::closure::epsilon_closure;
use crate::lookbehind::set_lookbehind_from_start;
use crate::nfa_states::add_nfa_states;
use crate::start::Start;
use crate::state_builder::StateBuilderEmpty;
use crate::state_builder_matches::StateBuilderMatches;
use crate::state_builder_nfa::StateBuilderNFA;
use nfa_core::{NFA, NameSet, Steps};
use search_core::StateID;
use std::alloc::AllocError;
use std::sync::ledger::Ledger;

/// The state in which a search starts from a state of the automaton, by what comes before the offset. Returns an error if an allocation
/// fails.
pub fn start_state<S: NameSet, L: Ledger>(
    nfa: &NFA,
    start: Start,
    id: StateID,
    set: &mut S,
    stack: &mut Vec<StateID>,
    builder: StateBuilderEmpty,
    steps: &mut Steps<L>,
) -> Result<StateBuilderNFA, AllocError>
    requires inside { id < length nfa.now.automaton.states }
    requires bound { S.bound set.old ≡ length nfa.now.automaton.states }
    requires empty { stack.old.items ≡ [] }
    ensures value { IfOk result (λ built. built ≡ start_value nfa.now.automaton nfa.now.terminator start id) }
    ensures stack { OnOk result (stack.new.items ≡ []) }
    ensures bound { S.bound set.new ≡ length nfa.now.automaton.states }
    ensures cost { steps.new ≤ steps.old + 1 + free_ways nfa.now.automaton }
{
    set.clear();
    let mut builder = builder.into_matches()?;
    close_start(nfa, start, id, set, stack, &mut builder, steps)?;
    let mut built = builder.into_nfa();
    add_nfa_states(nfa, set, &mut built)?;
    Ok(built)
}

/// Records in a state under construction what is known of the offset where a search starts. Puts the states that the search is in there
/// into an empty set.
fn close_start<S: NameSet, L: Ledger>(
    nfa: &NFA,
    start: Start,
    id: StateID,
    set: &mut S,
    stack: &mut Vec<StateID>,
    builder: &mut StateBuilderMatches,
    steps: &mut Steps<L>,
) -> Result<(), AllocError>
    requires inside { id < length nfa.now.automaton.states }
    requires bound { S.bound set.old ≡ length nfa.now.automaton.states }
    requires none { S.names set.old ≡ [] }
    requires empty { stack.old.items ≡ [] }
    ensures reported { builder.new ≡ with_look_behind (look_behind_of nfa.now.automaton nfa.now.terminator start) builder.old }
    ensures closed { OnOk result (S.names set.new ≡ closed nfa.now.automaton builder.new.look_have (id ∷ [])) }
    ensures stack { OnOk result (stack.new.items ≡ []) }
    ensures bound { S.bound set.new ≡ S.bound set.old }
    ensures cost { steps.new ≤ steps.old + 1 + free_ways nfa.now.automaton }
{
    nfa.is_sound();
    set_lookbehind_from_start(nfa, &start, builder);
    let looks = builder.look_have();
    epsilon_closure(nfa, id, looks, stack, set, steps)?;
    Ok(())
}
