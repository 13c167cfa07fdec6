//! Whether the states of a powerset state are states of an automaton, each once.
ghost use Rattle.std.specs.Prelude.{◌≡◌, ◌<◌, ◌↔◌, ℕ, true, length, All, nat_lt};
ghost use Rattle.std.specs.Bool.{nat_eq};
ghost use Rattle.std.specs.List.{list_all, list_any, IsDistinct};
ghost use Rattle.determinize_core.specs.WalkLists.{is_once};

use crate::state::State;
use crate::state_ids::StateIds;
use nfa_core::NFA;
use search_core::StateID;

/// Whether a step of the automaton may be made from a state: whether the state's states are states of the automaton, none of them twice.
pub fn of_nfa(nfa: &NFA, state: &State) -> bool
    ensures { (result ≡ true) ↔ (All (λ q. q < length nfa.now.automaton.states) state.now.ids × IsDistinct nat_eq state.now.ids) }
{
    let below = are_below(state.iter_nfa_state_ids(), nfa.states().len());
    let once = are_once(state.iter_nfa_state_ids());
    below && once
}

/// Whether all of them are below the bound.
fn are_below(ids: StateIds<'_>, bound: usize) -> bool
    ensures { result ≡ list_all (λ q. nat_lt q bound) ids.entry }
{
    for id in ids {
        if id.as_usize() >= bound {
            return false;
        }
    }
    true
}

/// Whether none of them occurs twice.
fn are_once(ids: StateIds<'_>) -> bool
    ensures { result ≡ is_once ids.entry }
{
    let mut left = ids;
    while let Some(id) = left.next() {
        if has_id(left.rest(), id) {
            return false;
        }
    }
    true
}

/// Whether one of them is this one.
fn has_id(ids: StateIds<'_>, wanted: StateID) -> bool
    ensures { result ≡ list_any (nat_eq wanted) ids.entry }
{
    for id in ids {
        if id == wanted {
            return true;
        }
    }
    false
}
