ghost use Rattle.std.specs.Prelude.{◌≡◌, ◌≤◌, ◌<◌, ℕ, Bool, List, [], Some, None, false};
ghost use Rattle.std.specs.Bool.{nat_eq};
ghost use Rattle.std.specs.List.{flat_map};
ghost use Rattle.search_core.specs.Marks.{marks_below, HasMarks};
ghost use Rattle.look_core.specs.Terminators.{Terminator};
ghost use Rattle.nfa_core.specs.Alike.{marks_of, AreAlike};
ghost use Rattle.nfa_core.specs.BuilderStates.{Assembly, DraftNode, bytes_of_drafts, draft_at};
ghost use Rattle.nfa_core.specs.Nfa.{Automaton, IsWellFormed};
ghost use Rattle.nfa_core.specs.NfaValue.{memory_of, IsSound};
ghost use Rattle.nfa_core.specs.Places.{arrivals, same_pair, IsGraph, AreStepLists};
ghost use Rattle.nfa_core.specs.Renaming.{automaton_of, past, stands_for};
ghost use Rattle.nfa_core.specs.Returns.{IsLeftForGood};
ghost use Rattle.nfa_core.specs.Walks.{distinct, join, Has, Visits};
ghost use Rattle.nfa_core.specs.Ways.{Text, ends_from, matched, ways, IsPairOf};

use nfa_core::builder_laws::past_states_stand_for_themselves;
use nfa_core::builder_size_laws::automata_need_no_more_than_builders;
use nfa_core::nfa_laws::bytes_of_one_class_are_alike;
use nfa_core::place_laws::lists_join_what_arrives;
use nfa_core::run_laws::matches_lead_nowhere;
use nfa_core::text_laws::ends_lie_inside;
use nfa_core::walk_laws::walks_come_to_one_list;
use nfa_core::way_laws::ends_come_by_the_ways;
use nfa_core::{NFA, stack};
use search_core::StateID;
use std::alloc::AllocError;

pub fn is_for_text_alone(nfa: &NFA) -> bool {
    nfa.is_utf8() && !nfa.has_empty()
}

pub fn kept_states_keep_their_place()
    ensures { (drafts : List DraftNode) (q : ℕ) → stands_for (draft_at drafts q) ≡ None → past drafts q ≡ q }
{
    past_states_stand_for_themselves();
}

pub fn automata_need_no_more()
    ensures { (b : Assembly) (x y : ℕ) → memory_of (automaton_of b x y).states ≤ bytes_of_drafts b.drafts }
{
    automata_need_no_more_than_builders();
}

pub fn bytes_are_alike()
    ensures { (a : Automaton) (t : Terminator) (ms : List Bool) (b c : ℕ) → IsSound a → HasMarks ms (marks_of t a.states) → b < 256 →
        c < 256 → marks_below ms b ≡ marks_below ms c → AreAlike t a b c }
{
    bytes_of_one_class_are_alike();
}

pub fn lists_are_joined()
    ensures { (eps step : ℕ → ℕ → List ℕ) (n len q : ℕ) (ls : ℕ → List ℕ) → IsGraph eps step n len → q < n →
        AreStepLists eps step (λ k xs. xs) len q ls → (k : ℕ) → k ≤ len → ls k ≡ join nat_eq [] (arrivals eps step n q k) }
{
    lists_join_what_arrives();
}

pub fn matches_have_no_way()
    ensures { (a : Automaton) (t : Text) (p e : ℕ × ℕ) → matched a p ≡ Some e → ways a t p ≡ [] }
{
    matches_lead_nowhere();
}

pub fn push_both(states: &mut Vec<StateID>, a: StateID, b: StateID) -> Result<(), AllocError> {
    stack::push(states, a)?;
    stack::push(states, b)
}

pub fn ends_lie_behind_their_start()
    ensures { (a : Automaton) (t : Text) (i q : ℕ) (e : ℕ × ℕ) → IsWellFormed a → IsPairOf a t (i, q) → a.reverse ≡ false →
        Has same_pair e (ends_from a t (i, q)) → i ≤ e.0 }
{
    ends_lie_inside();
}

pub fn walks_end_alike()
    ensures { (steps : ℕ → List ℕ) (now seen a b : List ℕ) → Visits nat_eq steps now seen a → Visits nat_eq steps now seen b → a ≡ b }
{
    walks_come_to_one_list();
}

pub fn ends_are_joined()
    ensures { (a : Automaton) (t : Text) (p : ℕ × ℕ) → IsWellFormed a → IsPairOf a t p → IsLeftForGood a t p → matched a p ≡ None →
        ends_from a t p ≡ distinct same_pair (flat_map (ends_from a t) (ways a t p)) }
{
    ends_come_by_the_ways();
}
