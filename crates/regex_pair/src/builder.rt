ghost use Rattle.std.specs.Prelude.{◌≡◌, true, false};
ghost use Rattle.lazy_dfa.specs.ConfigValue.{no_dfa_options, changed_dfa_options};
ghost use Rattle.regex_pair.specs.Pairs.{pair_built, back_options};

use crate::regex::Regex;
use lazy_dfa::BuildError;
use lazy_dfa::dfa::{self, Config, DFA};
use nfa_core::NFA;
use search_types::MatchKind;
use std::marker::Model;

/// Builds regexes of two automata, as `regex_automata::hybrid::regex::Builder`. A contract sees the options that are set for
/// both.
#[derive(Clone, Copy)]
pub struct Builder {
    dfa: dfa::Builder,
}

impl Model for Builder {
    ghost use Rattle.lazy_dfa.specs.ConfigValue.{DfaOptions};

    ghost Value = { DfaOptions };

    ghost view = { λ b. b.dfa };

    ghost inverse = { λ o. record { dfa = o } };
}

/// The options in which the automaton that finds starts differs.
fn back_config() -> Config
    ensures { result ≡ back_options }
{
    DFA::config()
        .match_kind(MatchKind::All)
        .specialize_start_states(false)
}

/// The builder of the automaton that finds starts.
fn back_builder(both: &Builder) -> dfa::Builder
    ensures { result ≡ changed_dfa_options both.now back_options }
{
    let mut back = both.dfa;
    back.configure(back_config());
    back
}

impl Builder {
    /// A builder with no option set, as `Builder::new`.
    pub fn new() -> Builder
        ensures { result ≡ no_dfa_options }
    {
        Builder {
            dfa: DFA::builder(),
        }
    }

    /// Sets each option that the configuration has set, for both automata, as `Builder::dfa`.
    pub fn dfa(&mut self, config: Config) -> &mut Builder
        ensures same { result.ghost_name ≡ self.entry.ghost_name }
        ensures value { result.now ≡ changed_dfa_options self.old config }
    {
        self.dfa.configure(config);
        self
    }

    /// The regex of two automata as they are, as `Builder::build_from_dfas`; no option matters. Precondition: the first reads
    /// forward and the second in reverse, as `is_reverse` of their NFAs returns.
    pub fn build_from_dfas(&self, forward: DFA, reverse: DFA) -> Regex
        requires is_forward { forward.nfa.automaton.reverse ≡ false }
        requires is_reverse { reverse.nfa.automaton.reverse ≡ true }
        ensures { result ≡ record { forward = forward; reverse = reverse } }
    {
        Regex { forward, reverse }
    }

    /// The regex of the automata of two NFAs with the options of this builder. Precondition: the first reads forward and the
    /// second in reverse, as `is_reverse` returns. The automaton that finds starts has the kind [`All`](MatchKind::All) and no
    /// tagged starts, whatever is set. If building one of the automata fails, its error is returned; the error of the first one
    /// comes first.
    pub fn build_from_nfas(&self, forward: NFA, reverse: NFA) -> Result<Regex, BuildError>
        requires is_forward { forward.automaton.reverse ≡ false }
        requires is_reverse { reverse.automaton.reverse ≡ true }
        ensures { result ≡ pair_built forward reverse self.now }
    {
        let ends = match self.dfa.build_from_nfa(forward) {
            Ok(ends) => ends,
            Err(e) => return Err(e),
        };
        let back = back_builder(self);
        let starts = match back.build_from_nfa(reverse) {
            Ok(starts) => starts,
            Err(e) => return Err(e),
        };
        Ok(Regex {
            forward: ends,
            reverse: starts,
        })
    }
}

impl Default for Builder {
    ghost use Rattle.std.specs.Prelude.{◌≡◌};
    ghost use Rattle.lazy_dfa.specs.ConfigValue.{no_dfa_options};

    ghost is_default = { λ b. b ≡ no_dfa_options };

    fn default() -> Builder {
        Builder::new()
    }
}
