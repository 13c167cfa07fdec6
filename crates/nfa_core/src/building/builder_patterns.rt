ghost use Rattle.std.specs.Prelude.{◌≡◌, ◌≤◌, ◌∷◌, [], ◌++◌, true, false, length, None, Some, MatchResult};
ghost use Rattle.search_core.specs.Index.{greatest_index};
ghost use Rattle.nfa_core.specs.BuilderStates.{pattern_count};
ghost use Rattle.nfa_core.specs.BuilderFaults.{pattern_count_fault, too_many_patterns};
ghost use Rattle.nfa_core.specs.declared.build_error.BuildError.TheVariants.{NoMemory, TooManyPatterns};

use crate::build_error::BuildError;
use crate::builder::Builder;
use search_core::{PatternID, StateID};

impl Builder {
    /// Whether a pattern was started that isn't finished.
    pub fn in_pattern(&self) -> bool
        ensures { result ≡ self.now.is_open }
    {
        self.is_open
    }

    /// How many patterns were started.
    pub fn pattern_len(&self) -> usize
        ensures { result ≡ pattern_count self.now }
    {
        if self.is_open {
            return self.starts.len() + 1;
        }
        self.starts.len()
    }

    /// The number of the pattern that was started and isn't finished.
    pub fn current_pattern_id(&self) -> PatternID
        requires { self.now.is_open ≡ true }
        ensures value { result ≡ length self.now.starts }
        ensures in_range { result ≤ greatest_index }
    {
        PatternID::must(self.starts.len())
    }

    /// Starts a pattern, and returns its number.
    pub fn start_pattern(&mut self) -> Result<PatternID, BuildError>
        requires { self.old.is_open ≡ false }
        ensures { MatchResult result
            (λ id. (id ≡ length self.old.starts) × (self.new ≡ record self.old { is_open = true }) × (pattern_count_fault self.old ≡ None))
            (λ e. (self.new ≡ self.old) × (e ≡ TooManyPatterns) × (pattern_count_fault self.old ≡ Some too_many_patterns)) }
    {
        let Ok(id) = PatternID::new(self.starts.len()) else {
            return Err(BuildError::TooManyPatterns);
        };
        self.is_open = true;
        Ok(id)
    }

    /// Finishes the current pattern, which starts in this state, and returns its number. It fails only if an allocation fails.
    pub fn finish_pattern(&mut self, start: StateID) -> Result<PatternID, BuildError>
        requires { self.old.is_open ≡ true }
        ensures { MatchResult result
            (λ id. (id ≡ length self.old.starts) × (self.new ≡ record self.old { starts = self.old.starts ++ start ∷ []; is_open = false }))
            (λ e. (self.new ≡ self.old) × (e ≡ NoMemory)) }
    {
        let id = self.current_pattern_id();
        self.starts.push(start)?;
        self.is_open = false;
        Ok(id)
    }
}
