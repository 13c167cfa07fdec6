/// Which of the matches that start at one offset a search reports. As `regex_automata::MatchKind`.
#[derive(Clone, Copy, Debug, PartialEq, Eq)]
pub enum MatchKind {
    /// Each of them.
    All,
    /// The one that a backtracking search would find first: of alternatives that match the
    /// leftmost, and of a repetition's rounds as many or as few as it prefers. This is the default.
    LeftmostFirst,
}

impl Default for MatchKind {
    ghost use Rattle.std.specs.Prelude.{◌≡◌};
    ghost use Rattle.search_types.specs.declared.match_kind.MatchKind.TheVariants.{LeftmostFirst};

    ghost is_default = { λ kind. kind ≡ LeftmostFirst };

    fn default() -> MatchKind {
        MatchKind::LeftmostFirst
    }
}
