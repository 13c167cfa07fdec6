//! Laws of the steps from one powerset state to the next. The contract of each function is the law; they have no code.
//! ```rust
//! pub fn nothing_comes_of_a_dead_state()
//!     ensures { (a : Automaton) (t : Terminator) (k : MatchKind) (u : Option ℕ) → step_value a t k dead u ≡ dead }
//! {
//!     dead_states_stay_dead();
//! }
//! ```
ghost use Rattle.std.specs.Prelude.{◌≡◌, ◌<◌, ◌≤◌, ℕ, [], All, length, Option};
ghost use Rattle.std.specs.Bool.{nat_eq};
ghost use Rattle.std.specs.List.{IsDistinct};
ghost use Rattle.look_core.specs.Terminators.{Terminator};
ghost use Rattle.search_types.specs.declared.match_kind.MatchKind.{MatchKind};
ghost use Rattle.search_types.specs.declared.match_kind.MatchKind.TheVariants.{LeftmostFirst};
ghost use Rattle.nfa_core.specs.Nfa.{Automaton, IsWellFormed};
ghost use Rattle.nfa_core.specs.NfaValue.{IsSound};
ghost use Rattle.determinize_core.specs.States.{StateValue, IsState, dead};
ghost use Rattle.determinize_core.specs.Steps.{step_value, start_value};
ghost use Rattle.determinize_core.specs.declared.start.Start.{Start};

/// From the dead state, each step leads to the dead state. A step that reaches no match and no state of the automaton leads to it as well.
pub fn dead_states_stay_dead()
    ensures dead { (a : Automaton) (t : Terminator) (kind : MatchKind) (u : Option ℕ) → step_value a t kind dead u ≡ dead }
    ensures none { (a : Automaton) (t : Terminator) (kind : MatchKind) (v : StateValue) (u : Option ℕ) →
        (step_value a t kind v u).matches ≡ [] → (step_value a t kind v u).ids ≡ [] → step_value a t kind v u ≡ dead }
{}

/// A state in which a search starts lists no match. Under leftmost-first, a step lists at most one.
pub fn steps_list_few_matches()
    ensures start { (a : Automaton) (t : Terminator) (s : Start) (q : ℕ) → (start_value a t s q).matches ≡ [] }
    ensures leftmost { (a : Automaton) (t : Terminator) (v : StateValue) (u : Option ℕ) →
        length (step_value a t LeftmostFirst v u).matches ≤ 1 }
{}

/// A step may be made from what starts and steps lead to: their states are those of the automaton, none twice.
pub fn steps_come_to_states_of_the_automaton()
    ensures below { (a : Automaton) (t : Terminator) (kind : MatchKind) (v : StateValue) (u : Option ℕ) → IsWellFormed a →
        All (λ q. q < length a.states) (step_value a t kind v u).ids }
    ensures once { (a : Automaton) (t : Terminator) (kind : MatchKind) (v : StateValue) (u : Option ℕ) →
        IsDistinct nat_eq (step_value a t kind v u).ids }
    ensures start_below { (a : Automaton) (t : Terminator) (s : Start) (q : ℕ) → IsWellFormed a → q < length a.states →
        All (λ r. r < length a.states) (start_value a t s q).ids }
    ensures start_once { (a : Automaton) (t : Terminator) (s : Start) (q : ℕ) → IsDistinct nat_eq (start_value a t s q).ids }
{}

/// What starts and steps lead to is a state.
pub fn steps_come_to_states()
    ensures step { (a : Automaton) (t : Terminator) (kind : MatchKind) (v : StateValue) (u : Option ℕ) → IsSound a →
        IsState (step_value a t kind v u) }
    ensures start { (a : Automaton) (t : Terminator) (s : Start) (q : ℕ) → IsSound a → q < length a.states → IsState (start_value a t s q) }
{}
