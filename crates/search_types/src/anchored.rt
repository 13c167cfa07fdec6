ghost use Rattle.std.specs.Prelude.{◌≡◌};
ghost use Rattle.search_types.specs.Modes.{is_anchored, named_pattern};

use search_core::PatternID;

/// Where a search may find a match, and of which patterns. As `regex_automata::Anchored`.
#[derive(Clone, Copy, Debug, PartialEq, Eq)]
pub enum Anchored {
    /// At any offset of the span.
    No,
    /// Only at the start of the span.
    Yes,
    /// Only at the start of the span, and only for this pattern.
    Pattern(PatternID),
}

impl Anchored {
    /// Whether a match must start where the search starts.
    pub fn is_anchored(&self) -> bool
        ensures { result ≡ is_anchored self.now }
    {
        !matches!(self, Anchored::No)
    }

    /// The pattern that the mode names, if it names one.
    pub fn pattern(&self) -> Option<PatternID>
        ensures { result ≡ named_pattern self.now }
    {
        match self {
            Anchored::Pattern(pattern) => Some(*pattern),
            Anchored::No | Anchored::Yes => None,
        }
    }
}
