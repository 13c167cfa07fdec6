//! Laws of the states that starts and steps lead to. The contract of each function is the law; they have no code.
//! ```rust
//! pub fn states_are_narrow()
//!     ensures { (a : Automaton) (v : StateValue) → IsStepped a v → length (encoded v) ≤ widest a }
//! {
//!     stepped_states_are_short();
//! }
//! ```
ghost use Rattle.std.specs.Prelude.{◌<◌, ◌≤◌, ℕ, length, Option};
ghost use Rattle.look_core.specs.Terminators.{Terminator};
ghost use Rattle.search_types.specs.declared.match_kind.MatchKind.{MatchKind};
ghost use Rattle.nfa_core.specs.Nfa.{Automaton};
ghost use Rattle.nfa_core.specs.NfaValue.{IsSound};
ghost use Rattle.determinize_core.specs.States.{StateValue, dead};
ghost use Rattle.determinize_core.specs.StateBytes.{encoded};
ghost use Rattle.determinize_core.specs.Stepped.{IsStepped, widest};
ghost use Rattle.determinize_core.specs.Steps.{step_value, start_value};
ghost use Rattle.determinize_core.specs.declared.start.Start.{Start};

/// What starts and steps lead to is made of the automaton's states, patterns and looks, none twice, and so is the dead state. So a step may
/// be made from it.
pub fn starts_and_steps_are_stepped()
    ensures step { (a : Automaton) (t : Terminator) (kind : MatchKind) (v : StateValue) (u : Option ℕ) → IsSound a →
        IsStepped a (step_value a t kind v u) }
    ensures start { (a : Automaton) (t : Terminator) (s : Start) (q : ℕ) → IsSound a → q < length a.states →
        IsStepped a (start_value a t s q) }
    ensures dead { (a : Automaton) → IsStepped a dead }
{}

/// A state that starts and steps lead to has at most thirteen bytes, and in addition four for each pattern of the automaton and five for
/// each of its states.
pub fn stepped_states_are_short()
    ensures { (a : Automaton) (v : StateValue) → IsStepped a v → length (encoded v) ≤ widest a }
{}
