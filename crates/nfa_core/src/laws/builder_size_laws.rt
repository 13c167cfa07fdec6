//! Laws of the memory of what is built. Each function has no code: its contract is the law.
//! ```rust
//! pub fn automata_need_no_more()
//!     ensures { (b : Assembly) (x y : ℕ) → memory_of (automaton_of b x y).states ≤ bytes_of_drafts b.drafts }
//! {
//!     automata_need_no_more_than_builders();
//! }
//! ```
ghost use Rattle.std.specs.Prelude.{ℕ, ◌≤◌};
ghost use Rattle.nfa_core.specs.BuilderStates.{Assembly, bytes_of_drafts};
ghost use Rattle.nfa_core.specs.NfaValue.{memory_of};
ghost use Rattle.nfa_core.specs.Renaming.{automaton_of};

/// The states of an automaton are taken to need no more bytes than those of the builder from which it is built. So an automaton that is
/// built under a limit keeps to it.
pub fn automata_need_no_more_than_builders()
    ensures { (b : Assembly) (anchored unanchored : ℕ) → memory_of (automaton_of b anchored unanchored).states ≤ bytes_of_drafts b.drafts }
{}
