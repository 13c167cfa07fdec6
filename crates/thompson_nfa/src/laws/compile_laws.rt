//! Laws of the automata that trees are compiled to. The contract of each function is the law; none has work to do.
//! ```rust
//! pub fn spans_are_texts()
//!     ensures { (t : Terminator) (h : List ℕ) (s e : ℕ) → e ≤ length h → All (λ b. b < 256) h → IsPlainText (span t h s e) }
//! {
//!     spans_have_edges_that_are_read_as_they_are();
//! }
//! ```
ghost use Rattle.std.specs.Prelude.{◌≡◌, ◌↔◌, ◌<◌, ◌≤◌, ◌-◌, ℕ, suc, true, false, List, All, length, slice_get, Some};
ghost use Rattle.std.specs.List.{flat_map};
ghost use Rattle.look_core.specs.LookSets.{has_look};
ghost use Rattle.look_core.specs.Terminators.{Terminator};
ghost use Rattle.look_core.specs.declared.look.Look.{Look};
ghost use Rattle.hir_core.specs.Facts.{looks_used};
ghost use Rattle.hir_core.specs.Tree.{Tree};
ghost use Rattle.nfa_core.specs.NfaValue.{Nfa, looks_of};
ghost use Rattle.nfa_core.specs.Places.{same_pair};
ghost use Rattle.nfa_core.specs.Walks.{Has, distinct};
ghost use Rattle.nfa_core.specs.Ways.{Text, span, ends_from};
ghost use Rattle.search_types.specs.FirstFound.{offsets_from};
ghost use Rattle.thompson_nfa.specs.Compilations.{HasStarts, IsCompiled, IsPlainText, pattern_start};
ghost use Rattle.thompson_nfa.specs.Compiled.{turned};
ghost use Rattle.thompson_nfa.specs.Configs.{Options, reverse_of};
ghost use Rattle.thompson_nfa.specs.Directions.{AreBothWays};

use hir_core::cut_laws::cut_haystacks_have_the_spans_within;

/// A span of a haystack of bytes, with words read as bytes, is a text whose edges are read as they are.
pub fn spans_have_edges_that_are_read_as_they_are()
    ensures { (t : Terminator) (h : List ℕ) (s e : ℕ) → e ≤ length h → All (λ byte. byte < 256) h → IsPlainText (span t h s e) }
{}

/// A state has a look exactly if one of the trees uses it. If the automaton reads in reverse, the look that the tree uses is the
/// reverse of the state's.
pub fn states_have_the_looks_that_trees_use()
    ensures { (o : Options) (xs : List Tree) (n : Nfa) → IsCompiled o xs n → (l : Look) →
        (has_look (looks_of n.automaton.states) l ≡ true)
        ↔ ((p : ℕ) × (x : Tree) × (slice_get xs p ≡ Some x) × (has_look (looks_used x) (turned (reverse_of o) l) ≡ true)) }
{}

/// When an automaton reads forward, the ends from the unanchored start are those from the patterns' starts, with repeats dropped.
/// They come offset by offset, and pattern by pattern at each offset. This holds whatever the bodies of repetitions consume. So a
/// statement about the order of the patterns' ends covers every order.
pub fn unanchored_ends_are_those_of_the_patterns()
    ensures { (count : ℕ) (n : Nfa) → HasStarts false count n → (t : Text) (i : ℕ) → IsPlainText t → t.start ≤ i → i ≤ t.end →
        ends_from n.automaton t (i, n.automaton.start_unanchored)
        ≡ distinct same_pair (flat_map (λ k. flat_map (λ p. ends_from n.automaton t (
          k,
          pattern_start n.automaton p,
        )) (offsets_from 0 count))
        (offsets_from i (suc t.end - i))) }
{}

/// In one text, from offsets inside it, pattern p is found forward from i to j exactly if it is found in reverse from j to i.
/// This holds from the pattern's own starts, and from those that lead to all patterns.
///
/// From the unanchored start at s, an end j is found forward exactly if the reverse automaton, from j, finds a start that isn't
/// before s. Both hold for every tree, whatever the bodies of its repetitions consume.
pub fn both_directions_find_the_same_spans()
    ensures patterns { (o r : Options) (xs : List Tree) (n m : Nfa) → AreBothWays o r xs n m →
        (t : Text) (p i j : ℕ) → p < length xs → t.start ≤ i → i ≤ t.end → j ≤ t.end →
        Has same_pair (j, p) (ends_from n.automaton t (i, pattern_start n.automaton p))
        ↔ Has same_pair (i, p) (ends_from m.automaton t (j, pattern_start m.automaton p)) }
    ensures anchored { (o r : Options) (xs : List Tree) (n m : Nfa) → AreBothWays o r xs n m →
        (t : Text) (p i j : ℕ) → t.start ≤ i → i ≤ t.end → j ≤ t.end →
        Has same_pair (j, p) (ends_from n.automaton t (i, n.automaton.start_anchored))
        ↔ Has same_pair (i, p) (ends_from m.automaton t (j, m.automaton.start_anchored)) }
    ensures unanchored { (o r : Options) (xs : List Tree) (n m : Nfa) → AreBothWays o r xs n m →
        (t : Text) (p s j : ℕ) → IsPlainText t → t.start ≤ s → s ≤ t.end → j ≤ t.end →
        Has same_pair (j, p) (ends_from n.automaton t (s, n.automaton.start_unanchored))
        ↔ ((i : ℕ) × (s ≤ i) × (i ≤ t.end) × Has same_pair (i, p) (ends_from m.automaton t (j, m.automaton.start_anchored))) }
{
    cut_haystacks_have_the_spans_within();
}
