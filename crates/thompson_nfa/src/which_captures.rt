ghost use Rattle.std.specs.Prelude.{◌≡◌, not};
ghost use Rattle.thompson_nfa.specs.declared.which_captures.WhichCaptures.TheVariants.{All};
ghost use Rattle.thompson_nfa.specs.Configs.{is_any};

/// For which groups an automaton has states.
///
/// As `regex_automata::nfa::thompson::WhichCaptures`.
#[derive(Clone, Copy, PartialEq, Eq, Debug)]
pub enum WhichCaptures {
    /// For all.
    All,
    /// For the whole match of each pattern alone.
    Implicit,
    /// For none.
    None,
}

impl WhichCaptures {
    /// Whether there are states for no group.
    pub fn is_none(&self) -> bool
        ensures { result ≡ not (is_any self.now) }
    {
        match self {
            WhichCaptures::All | WhichCaptures::Implicit => false,
            WhichCaptures::None => true,
        }
    }

    /// Whether there are states for some group.
    pub fn is_any(&self) -> bool
        ensures { result ≡ is_any self.now }
    {
        !self.is_none()
    }
}

impl Default for WhichCaptures {
    fn default() -> WhichCaptures
        ensures { result ≡ All }
    {
        WhichCaptures::All
    }
}
