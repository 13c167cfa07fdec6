//! Laws of what is built of a builder's states. Each function has no code: its contract is the law.
//! ```rust
//! pub fn kept_states_keep_their_place()
//!     ensures { (drafts : List DraftNode) (q : ℕ) → stands_for (draft_at drafts q) ≡ None → past drafts q ≡ q }
//! {
//!     past_states_stand_for_themselves();
//! }
//! ```
ghost use Rattle.std.specs.Prelude.{◌≡◌, ℕ, ◌<◌, ◌≤◌, List, [], ◌∷◌, map, length, None, Some, All};
ghost use Rattle.nfa_core.specs.BuilderStates.{DraftNode, draft_at, Assembly};
ghost use Rattle.nfa_core.specs.CanBuild.{names_of, CanBuild};
ghost use Rattle.nfa_core.specs.Drafted.{table_ways, table_match, table_ends};
ghost use Rattle.nfa_core.specs.Nfa.{node_at, IsWellFormed};
ghost use Rattle.nfa_core.specs.Places.{same_pair};
ghost use Rattle.nfa_core.specs.Renaming.{stands_for, past, HasNoLoop, new_name, renamed, automaton_of};
ghost use Rattle.nfa_core.specs.Runs.{IsChain, last_or};
ghost use Rattle.nfa_core.specs.Walks.{Has, HasNoneTwice, distinct, Lists};
ghost use Rattle.nfa_core.specs.Ways.{Text, ways, matched, ends_from};

/// A state that stands for itself is itself the state past it. If states that stand for others make no loop, past any state there is one
/// that stands for itself. A state that stands for another leads past to what that one leads past to.
pub fn past_states_stand_for_themselves()
    ensures itself { (drafts : List DraftNode) (q : ℕ) → stands_for (draft_at drafts q) ≡ None → past drafts q ≡ q }
    ensures stands { (drafts : List DraftNode) (q : ℕ) → HasNoLoop drafts → q < length drafts →
        stands_for (draft_at drafts (past drafts q)) ≡ None }
    ensures inside { (drafts : List DraftNode) (q : ℕ) → HasNoLoop drafts →
        All (λ draft. All (λ r. r < length drafts) (names_of draft)) drafts →
        q < length drafts → past drafts q < length drafts }
    ensures twice { (drafts : List DraftNode) (q : ℕ) → HasNoLoop drafts → q < length drafts → past drafts (past drafts q) ≡ past drafts q }
    ensures next { (drafts : List DraftNode) (q r : ℕ) → HasNoLoop drafts → stands_for (draft_at drafts q) ≡ Some r →
        past drafts q ≡ past drafts r }
{}

/// A kept state is in the automaton under its new name. No two have the same name, and each name of the automaton is that of a kept state.
pub fn kept_states_are_renamed()
    ensures inside { (b : Assembly) (x y q : ℕ) → q < length b.drafts → stands_for (draft_at b.drafts q) ≡ None →
        new_name b.drafts q < length (automaton_of b x y).states }
    ensures state { (b : Assembly) (x y q : ℕ) → q < length b.drafts → stands_for (draft_at b.drafts q) ≡ None →
        node_at (automaton_of b x y) (new_name b.drafts q) ≡ renamed (new_name b.drafts) b.groups (draft_at b.drafts q) }
    ensures one { (drafts : List DraftNode) (p q : ℕ) → p < length drafts → q < length drafts → stands_for (draft_at drafts p) ≡ None →
        stands_for (draft_at drafts q) ≡ None → new_name drafts p ≡ new_name drafts q → p ≡ q }
    ensures all { (b : Assembly) (x y k : ℕ) → k < length (automaton_of b x y).states →
        (q : ℕ) × (q < length b.drafts) × (stands_for (draft_at b.drafts q) ≡ None) × (new_name b.drafts q ≡ k) }
{}

/// A kept state leads in the automaton to where it led in the table, under the new names, and matches what it
/// matched there.
pub fn ways_are_renamed()
    ensures leads { (b : Assembly) (x y q i : ℕ) (t : Text) → q < length b.drafts → stands_for (draft_at b.drafts q) ≡ None →
        ways (automaton_of b x y) t (i, new_name b.drafts q)
        ≡ map (λ p. (p.0, new_name b.drafts p.1)) (table_ways b.reverse t (draft_at b.drafts) (i, q)) }
    ensures matches { (b : Assembly) (x y q i : ℕ) → q < length b.drafts → stands_for (draft_at b.drafts q) ≡ None →
        matched (automaton_of b x y) (i, new_name b.drafts q) ≡ table_match (draft_at b.drafts) (i, q) }
{}

/// What the search of a stack lists from a pair of the table, it lists from that pair of the automaton.
pub fn lists_are_carried_over()
    ensures { (b : Assembly) (x y : ℕ) (t : Text) (q i : ℕ) (l : List (ℕ × ℕ)) → CanBuild b x y → q < length b.drafts →
        Lists (table_ways b.reverse t (draft_at b.drafts)) (table_match (draft_at b.drafts)) ((i, q) ∷ []) l →
        Lists (ways (automaton_of b x y) t) (matched (automaton_of b x y)) ((i, new_name b.drafts q) ∷ []) l }
{}

/// What a chain of the table finds, one of the automaton finds, and the other way round.
pub fn chains_are_carried_over()
    ensures forth { (b : Assembly) (x y : ℕ) (t : Text) (q i : ℕ) (r : List (ℕ × ℕ)) (e : ℕ × ℕ) → CanBuild b x y → q < length b.drafts →
        IsChain same_pair (table_ways b.reverse t (draft_at b.drafts)) (i, q) r →
        table_match (draft_at b.drafts) (last_or (i, q) r) ≡ Some e →
        (s : List (ℕ × ℕ)) × IsChain same_pair (ways (automaton_of b x y) t) (i, new_name b.drafts q) s
        × (matched (automaton_of b x y) (last_or (i, new_name b.drafts q) s) ≡ Some e) }
    ensures back { (b : Assembly) (x y : ℕ) (t : Text) (q i : ℕ) (s : List (ℕ × ℕ)) (e : ℕ × ℕ) → CanBuild b x y → q < length b.drafts →
        IsChain same_pair (ways (automaton_of b x y) t) (i, new_name b.drafts q) s →
        matched (automaton_of b x y) (last_or (i, new_name b.drafts q) s) ≡ Some e →
        (r : List (ℕ × ℕ)) × IsChain same_pair (table_ways b.reverse t (draft_at b.drafts)) (i, q) r
        × (table_match (draft_at b.drafts) (last_or (i, q) r) ≡ Some e) }
{}

/// All names of the automaton are names of its states.
pub fn built_automata_are_well_formed()
    ensures inside { (b : Assembly) (x y q : ℕ) → CanBuild b x y → q < length b.drafts →
        new_name b.drafts q < length (automaton_of b x y).states }
    ensures formed { (b : Assembly) (x y : ℕ) → CanBuild b x y → IsWellFormed (automaton_of b x y) }
{}

/// The ends of the automaton's runs from a pair are those of the table's runs, in the same order of preference, whatever loops the table
/// has that consume nothing.
pub fn ends_keep_their_order()
    ensures { (b : Assembly) (x y : ℕ) (t : Text) (q i : ℕ) → CanBuild b x y → q < length b.drafts → i ≤ t.end →
        ends_from (automaton_of b x y) t (i, new_name b.drafts q) ≡ table_ends b.reverse t b.drafts (i, q) }
{}

/// The ends of the automaton's runs from a pair are what the table lists from it, with repeats dropped. They are also what chains of the
/// table find. If the search of a stack comes to its end, no chain visits a pair twice.
pub fn ends_are_those_of_the_table()
    ensures listed { (b : Assembly) (x y : ℕ) (t : Text) (q i : ℕ) (l : List (ℕ × ℕ)) → CanBuild b x y → q < length b.drafts → i ≤ t.end →
        Lists (table_ways b.reverse t (draft_at b.drafts)) (table_match (draft_at b.drafts)) ((i, q) ∷ []) l →
        ends_from (automaton_of b x y) t (i, new_name b.drafts q) ≡ distinct same_pair l }
    ensures found { (b : Assembly) (x y : ℕ) (t : Text) (q i : ℕ) (e : ℕ × ℕ) → CanBuild b x y → q < length b.drafts → i ≤ t.end →
        Has same_pair e (ends_from (automaton_of b x y) t (i, new_name b.drafts q)) →
        (r : List (ℕ × ℕ)) × IsChain same_pair (table_ways b.reverse t (draft_at b.drafts)) (i, q) r
        × (table_match (draft_at b.drafts) (last_or (i, q) r) ≡ Some e) }
    ensures all { (b : Assembly) (x y : ℕ) (t : Text) (q i : ℕ) (e : ℕ × ℕ) (r : List (ℕ × ℕ)) → CanBuild b x y →
        q < length b.drafts → i ≤ t.end →
        IsChain same_pair (table_ways b.reverse t (draft_at b.drafts)) (i, q) r →
        table_match (draft_at b.drafts) (last_or (i, q) r) ≡ Some e →
        Has same_pair e (ends_from (automaton_of b x y) t (i, new_name b.drafts q)) }
    ensures once { (b : Assembly) (x y : ℕ) (t : Text) (q i : ℕ) (l r : List (ℕ × ℕ)) → CanBuild b x y → q < length b.drafts → i ≤ t.end →
        Lists (table_ways b.reverse t (draft_at b.drafts)) (table_match (draft_at b.drafts)) ((i, q) ∷ []) l →
        IsChain same_pair (ways (automaton_of b x y) t) (i, new_name b.drafts q) r → HasNoneTwice same_pair ((i, new_name b.drafts q) ∷ r) }
{}
