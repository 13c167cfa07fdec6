//! Laws of lists of matches in pieces. Each function has no code: its contract is the law.
ghost use Rattle.std.specs.Prelude.{◌≡◌, ◌+◌, ◌++◌, ℕ, List, None, length};
ghost use Rattle.regex_hir.specs.Re.{Re};
ghost use Rattle.regex_hir.specs.Meaning.{alt_all};
ghost use Rattle.regex_syntax.specs.declared.Config.{Config};
ghost use Rattle.pattern_search.specs.Searches.{all_found};
ghost use Rattle.captures.specs.NextMatches.{after_all, next_matches, without_adjacent};

/// Take a piece of a list with room for m matches, and a piece with room for n matches that goes on where the first one ends. One after the
/// other, they are a piece with room for as many as both.
#[tactic(auto, using(crate::proofs::PieceLemmas::pieces_are_the_list))]
pub fn pieces_are_the_list()
    ensures { (config : Config) (res : List Re) (h : List ℕ) (at m n : ℕ) → next_matches config res h at (m + n)
        ≡ next_matches config res h at m ++ next_matches config res h (after_all at (next_matches config res h at m)) n }
{}

/// Take a piece of a list from the start of the haystack, with room for one match more than the haystack has bytes. Without each empty match
/// that is right at the end of the one before it, it is the list of all matches that the matcher finds.
#[tactic(auto, using(crate::proofs::PieceLemmas::all_are_those_apart))]
pub fn all_matches_are_those_apart()
    ensures { (config : Config) (res : List Re) (h : List ℕ) → without_adjacent None (next_matches config res h 0 (length h + 1))
        ≡ all_found config.utf8 (alt_all res) h }
{}
