//! Laws of what an NFA knows of its automaton. Each function has no code: its contract is the law.
//! ```rust
//! pub fn bytes_are_alike()
//!     ensures { (a : Automaton) (t : Terminator) (ms : List Bool) (b c : ℕ) → IsSound a → HasMarks ms (marks_of t a.states) → b < 256 →
//!         c < 256 → marks_below ms b ≡ marks_below ms c → AreAlike t a b c }
//! {
//!     bytes_of_one_class_are_alike();
//! }
//! ```
ghost use Rattle.std.specs.Prelude.{◌≡◌, ℕ, ◌<◌, ◌↔◌, Bool, true, List, get_or, All};
ghost use Rattle.std.specs.Bool.{nat_eq};
ghost use Rattle.std.specs.Option.{option_to_list};
ghost use Rattle.search_core.specs.Marks.{marks_below, HasMarks};
ghost use Rattle.look_core.specs.declared.look.Look.{Look};
ghost use Rattle.look_core.specs.LookSets.{has_look};
ghost use Rattle.look_core.specs.Looks.{holds_ascii};
ghost use Rattle.look_core.specs.SameClasses.{HaveSameClasses};
ghost use Rattle.look_core.specs.Terminators.{Terminator};
ghost use Rattle.nfa_core.specs.Alike.{marks_of, AreAlike};
ghost use Rattle.nfa_core.specs.Nfa.{Automaton, look_node, node_at};
ghost use Rattle.nfa_core.specs.NfaValue.{IsSound, free_steps, reached_freely, looks_of, prefix_looks};
ghost use Rattle.nfa_core.specs.Runs.{IsChain, last_or};
ghost use Rattle.nfa_core.specs.Transitions.{sparse_next, dense_next};
ghost use Rattle.nfa_core.specs.Walks.{Has};
ghost use Rattle.nfa_core.specs.Ways.{span, ways, in_ranges, named, ends_from};

/// The states that patterns reach without a byte are those to which chains lead from their starts if each look counts as passed.
pub fn reached_states_are_led_to()
    ensures led { (a : Automaton) (q : ℕ) → IsSound a → Has nat_eq q (reached_freely a) →
        (s : ℕ) × (r : List ℕ) × Has nat_eq s a.start_pattern × IsChain nat_eq (free_steps a) s r × (last_or s r ≡ q) }
    ensures all { (a : Automaton) (q s : ℕ) (r : List ℕ) → IsSound a → Has nat_eq s a.start_pattern → IsChain nat_eq (free_steps a) s r →
        last_or s r ≡ q → Has nat_eq q (reached_freely a) }
{}

/// By two bytes of one class each state leads to the same states, and the looks of states read them alike.
/// The classes may be finer than the automaton's, as with marks on further bytes.
pub fn bytes_of_one_class_are_alike()
    ensures { (a : Automaton) (t : Terminator) (marks : List Bool) (b c : ℕ) → IsSound a → HasMarks marks (marks_of t a.states) →
        b < 256 → c < 256 → marks_below marks b ≡ marks_below marks c → AreAlike t a b c }
{}

/// Let two haystacks have bytes of the same class at each offset. Then the automaton follows both alike, the looks of states hold at the
/// same offsets, and runs find the same ends.
pub fn texts_of_one_class_are_followed_alike()
    ensures looks { (a : Automaton) (t : Terminator) (marks : List Bool) (h g : List ℕ) (l : Look) (i : ℕ) → IsSound a →
        HasMarks marks (marks_of t a.states) → All (λ b. b < 256) h → All (λ b. b < 256) g → HaveSameClasses marks h g →
        has_look (looks_of a.states) l ≡ true → holds_ascii t h l i ≡ holds_ascii t g l i }
    ensures ways { (a : Automaton) (t : Terminator) (marks : List Bool) (h g : List ℕ) (start end : ℕ) (p : ℕ × ℕ) → IsSound a →
        HasMarks marks (marks_of t a.states) → All (λ b. b < 256) h → All (λ b. b < 256) g → HaveSameClasses marks h g →
        ways a (span t h start end) p ≡ ways a (span t g start end) p }
    ensures ends { (a : Automaton) (t : Terminator) (marks : List Bool) (h g : List ℕ) (start end : ℕ) (p : ℕ × ℕ) → IsSound a →
        HasMarks marks (marks_of t a.states) → All (λ b. b < 256) h → All (λ b. b < 256) g → HaveSameClasses marks h g →
        ends_from a (span t h start end) p ≡ ends_from a (span t g start end) p }
{}

/// The sets of looks have the looks of states, and of those that patterns reach without a byte.
pub fn look_sets_have_the_looks_of_states()
    ensures any { (a : Automaton) (l : Look) →
        (has_look (looks_of a.states) l ≡ true) ↔ ((q : ℕ) × (next : ℕ) × (node_at a q ≡ look_node l next)) }
    ensures prefix { (a : Automaton) (l : Look) → (has_look (prefix_looks a) l ≡ true) ↔
        ((q : ℕ) × (next : ℕ) × Has nat_eq q (reached_freely a) × (node_at a q ≡ look_node l next)) }
{}

/// A transition leads by a byte where the automaton's definition says that the byte leads.
pub fn transitions_lead_where_bytes_do()
    ensures sparse { (ranges : List (ℕ × ℕ × ℕ)) (b : ℕ) → option_to_list (sparse_next ranges b) ≡ in_ranges ranges b }
    ensures dense { (names : List ℕ) (b : ℕ) → option_to_list (dense_next names b) ≡ named (get_or names b 0) }
{}
