ghost use Rattle.std.specs.Prelude.{◌≡◌, ◌≤◌, ◌<◌, ℕ, List, Option, Some, length, true, false};
ghost use Rattle.search_core.specs.Text.{byte_before};
ghost use Rattle.look_core.specs.Terminators.{Terminator};
ghost use Rattle.search_types.specs.declared.match_kind.MatchKind.{MatchKind};
ghost use Rattle.nfa_core.specs.Nfa.{Automaton, IsWellFormed};
ghost use Rattle.nfa_core.specs.Ways.{Text, AreLists};
ghost use Rattle.determinize_core.specs.Alike.{AreUnitsAlike};
ghost use Rattle.determinize_core.specs.LookBehind.{look_behind};
ghost use Rattle.determinize_core.specs.Starts.{start_of};
ghost use Rattle.determinize_core.specs.StateBytes.{encoded};
ghost use Rattle.determinize_core.specs.States.{StateValue, IsState, dead};
ghost use Rattle.determinize_core.specs.Stepped.{IsStepped, widest};
ghost use Rattle.determinize_core.specs.Steps.{step_value};
ghost use Rattle.determinize_core.specs.Walked.{cut_of, lists_along};

use determinize_core::alike_laws::alike_units_step_alike;
use determinize_core::start_laws::what_is_known_forward_is_true;
use determinize_core::state_laws::bytes_stand_for_states;
use determinize_core::step_laws::dead_states_stay_dead;
use determinize_core::stepped_laws::stepped_states_are_short;
use determinize_core::walk_theorem::walked_lists_are_lists;
use determinize_core::{Start, StartByteMap};
use look_core::LookMatcher;

pub fn start_behind(byte: u8) -> Start {
    StartByteMap::new(&LookMatcher::default()).get(byte)
}

pub fn steps_are_alike()
    ensures { (a : Automaton) (t : Terminator) (k : MatchKind) (v : StateValue) (u w : Option ℕ) → IsStepped a v →
        AreUnitsAlike a t u w → step_value a t k v u ≡ step_value a t k v w }
{
    alike_units_step_alike();
}

pub fn halves_stand_behind_returns()
    ensures { (looks : ℕ) (t : Terminator) (h : List ℕ) (i : ℕ) →
        (look_behind looks false t (start_of t (byte_before h i))).is_half_crlf ≡ true → byte_before h i ≡ Some 0x0D }
{
    what_is_known_forward_is_true();
}

pub fn bytes_tell_states_apart()
    ensures { (v w : StateValue) → IsState v → IsState w → encoded v ≡ encoded w → v ≡ w }
{
    bytes_stand_for_states();
}

pub fn nothing_comes_of_a_dead_state()
    ensures { (a : Automaton) (t : Terminator) (k : MatchKind) (u : Option ℕ) → step_value a t k dead u ≡ dead }
{
    dead_states_stay_dead();
}

pub fn states_are_narrow()
    ensures { (a : Automaton) (v : StateValue) → IsStepped a v → length (encoded v) ≤ widest a }
{
    stepped_states_are_short();
}

pub fn walks_make_lists()
    ensures { (k : MatchKind) (a : Automaton) (t : Text) (i q : ℕ) → IsWellFormed a → q < length a.states →
        AreLists a t (i, q) (cut_of k a i) (lists_along k a t i q) }
{
    walked_lists_are_lists();
}
