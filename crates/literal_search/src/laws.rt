//! Laws for callers: what is skipped has no match. Each function has no code: its contract is the law.
ghost use Rattle.std.specs.Prelude.{◌≡◌, ◌≢◌, ◌-◌, ◌<◌, ◌≤◌, ℕ, List, [], Some, length, slice_get};
ghost use Rattle.hir_core.specs.Tree.{Tree};
ghost use Rattle.hir_core.specs.Means.{Looks};
ghost use Rattle.hir_core.specs.PreferredEnds.{preferred_ends};
ghost use Rattle.literal_search.specs.Searches.{StartsFrom, StartsNowhere};

/// A line starts at an offset and contains a later one. A span that has no line feed and doesn't end before that later offset starts in the
/// line, or after it. So no line before the one of [`CandidateFinder::next_end`](crate::CandidateFinder::next_end) has a match.
#[tactic(auto, using(crate::proofs::SearchLemmas::starts_in_the_line))]
pub fn a_match_starts_in_the_line_of_its_candidate()
    ensures { (h : List ℕ) (start k s e : ℕ) → (0 < start → slice_get h (start - 1) ≡ Some 10) → start ≤ k → k ≤ e →
        ((p : ℕ) → s ≤ p → p < e → slice_get h p ≢ Some 10) → start ≤ s }
{}

/// A tree has no preferred end from the offsets that [`CandidateFinder::next_start`](crate::CandidateFinder::next_start) skips. So a search
/// for the leftmost match may begin at the offset that it returns.
#[tactic(auto, using(crate::proofs::SearchLemmas::no_ends_before, crate::proofs::SearchLemmas::no_ends_at_all))]
pub fn skipped_offsets_have_no_ends()
    ensures before { (looks : Looks) (h : List ℕ) (x : Tree) (i k s : ℕ) → StartsFrom x h i k → i ≤ s → s < k → s ≤ length h →
        preferred_ends looks h x s ≡ [] }
    ensures nowhere { (looks : Looks) (h : List ℕ) (x : Tree) (i s : ℕ) → StartsNowhere x h i → i ≤ s → s ≤ length h →
        preferred_ends looks h x s ≡ [] }
{}
