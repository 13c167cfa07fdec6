//! Which patterns match: those of all ends of an overlapping search.
ghost use Rattle.std.specs.Prelude.{◌≡◌, ◌<◌, ◌||◌, false, None, Ok, IfErr};
ghost use Rattle.search_types.specs.declared.match_error.MatchErrorKind.TheVariants.{NoMemory};
ghost use Rattle.lazy_dfa.specs.Caches.{IsCacheOf};
ghost use Rattle.lazy_dfa.specs.ConfigValue.{clears_of};
ghost use Rattle.lazy_dfa.specs.Dfas.{reader};
ghost use Rattle.lazy_dfa.specs.Overlapping.{whole_rest};
ghost use Rattle.lazy_dfa.specs.OverlappingAnswers.{MakesWhich, with_pattern, is_full};

use crate::automaton::dfa::{Cache, DFA};
use crate::overlapping::call;
use crate::overlapping::overlapping_state::OverlappingState;
use crate::work::Work;
use search_types::{HalfMatch, Input, MatchError, PatternSet};
use std::sync::ledger::Ledger;

/// Adds a pattern to a set that has room for it.
fn add(patterns: &mut PatternSet, found: HalfMatch)
    ensures { patterns.new ≡ with_pattern patterns.old found.pattern }
{
    let _ = patterns.try_insert(found.pattern());
}

/// Whether a set has each pattern that it has room for.
fn has_all(patterns: &PatternSet) -> bool
    ensures { result ≡ is_full patterns.now }
{
    patterns.is_full()
}

/// Whether no more ends are looked for.
fn is_enough(patterns: &PatternSet, input: &Input<'_>) -> bool
    ensures { result ≡ (input.now.earliest || is_full patterns.now) }
{
    input.get_earliest() || has_all(patterns)
}

/// An overlapping search over a whole span, end by end.
fn which<L: Ledger, M: Ledger>(
    dfa: &DFA,
    cache: &mut Cache,
    input: &Input<'_>,
    patterns: &mut PatternSet,
    work: &mut Work<L, M>,
) -> Result<(), MatchError>
    requires { IsCacheOf dfa.now cache.old }
    ensures own { IsCacheOf dfa.now cache.new }
    ensures which { MakesWhich dfa.now input.now cache.old cache.new work.old.determinized work.new.determinized work.old.inserted
        work.new.inserted patterns.old patterns.new result }
{
    dfa.is_made();
    let mut state = OverlappingState::start();
    loop {
        match call(dfa, cache, input, &mut state, work) {
            Ok(()) => {}
            Err(e) => return Err(e),
        }
        let Some(found) = state.get_match() else {
            return Ok(());
        };
        add(patterns, found);
        if is_enough(patterns, input) {
            return Ok(());
        }
    }
}

impl DFA {
    /// Adds the patterns of all ends in a span to a set, as `DFA::try_which_overlapping_matches`. The automaton reads forward.
    ///
    /// The ends are those that an overlapping search reports. Patterns at or above the set's capacity are skipped. The search
    /// stops at an end with which the set is full. If the earliest end is enough, it stops at the first one.
    ///
    /// The call fails as an overlapping search does. The patterns of the ends that its calls reported by then were added, and
    /// stay in the set. These are the ends before the unit at which the search failed.
    ///
    /// The cache records the progress of each call as an overlapping search does. So a search that gives up at its start records
    /// nothing. A done span has no ends, and the call never fails there.
    pub fn try_which_overlapping_matches<L: Ledger, M: Ledger>(
        &self,
        cache: &mut Cache,
        input: &Input<'_>,
        patterns: &mut PatternSet,
        work: &mut Work<L, M>,
    ) -> Result<(), MatchError>
        requires own { IsCacheOf self.now cache.old }
        requires is_forward { self.now.nfa.automaton.reverse ≡ false }
        ensures own { IsCacheOf self.now cache.new }
        ensures which { MakesWhich self.now input.now cache.old cache.new work.old.determinized work.new.determinized work.old.inserted
            work.new.inserted patterns.old patterns.new result }
        ensures done { input.now.end < input.now.start → (result ≡ Ok tt) × (cache.new ≡ cache.old) × (patterns.new ≡ patterns.old) }
        ensures sure { clears_of self.now.options ≡ None → (whole_rest (reader self.now) input.now).rejection ≡ None →
            IfErr result (λ e. e ≡ NoMemory) }
    {
        if input.is_done() {
            return Ok(());
        }
        which(self, cache, input, patterns, work)
    }
}
