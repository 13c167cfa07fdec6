//! A law of units that an automaton does not distinguish. The function's contract is the law; it has no code.
//! ```rust
//! pub fn steps_are_alike()
//!     ensures { (a : Automaton) (t : Terminator) (k : MatchKind) (v : StateValue) (u w : Option ℕ) → IsStepped a v →
//!         AreUnitsAlike a t u w → step_value a t k v u ≡ step_value a t k v w }
//! {
//!     alike_units_step_alike();
//! }
//! ```
ghost use Rattle.std.specs.Prelude.{◌≡◌, ℕ, Option};
ghost use Rattle.look_core.specs.Terminators.{Terminator};
ghost use Rattle.search_types.specs.declared.match_kind.MatchKind.{MatchKind};
ghost use Rattle.nfa_core.specs.Nfa.{Automaton};
ghost use Rattle.determinize_core.specs.Alike.{AreUnitsAlike};
ghost use Rattle.determinize_core.specs.States.{StateValue};
ghost use Rattle.determinize_core.specs.Starts.{start_of};
ghost use Rattle.determinize_core.specs.Stepped.{IsStepped};
ghost use Rattle.determinize_core.specs.Steps.{step_value, start_value};

/// Units that an automaton does not distinguish lead from each state to the same state, and a search starts after them in the same state.
pub fn alike_units_step_alike()
    ensures step { (a : Automaton) (t : Terminator) (kind : MatchKind) (v : StateValue) (u w : Option ℕ) →
        IsStepped a v → AreUnitsAlike a t u w →
        step_value a t kind v u ≡ step_value a t kind v w }
    ensures start { (a : Automaton) (t : Terminator) (q : ℕ) (u w : Option ℕ) → AreUnitsAlike a t u w →
        start_value a t (start_of t u) q ≡ start_value a t (start_of t w) q }
{}
