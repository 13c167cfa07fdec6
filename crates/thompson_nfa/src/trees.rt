//! The steps from trees to an automaton.
ghost use Rattle.std.specs.Prelude.{◌≡◌, ◌≢◌, ◌⊎◌, ◌<◌, ◌≤◌, ◌+◌, ◌&&◌, true, false, length, IfOk, IfErr, MatchOption, MatchResult, ⊤};
ghost use Rattle.search_core.specs.Index.{greatest_index};
ghost use Rattle.nfa_core.specs.BuilderFaults.{ReportsFaultOf, build_fault};
ghost use Rattle.nfa_core.specs.CanBuild.{CanBuild};
ghost use Rattle.nfa_core.specs.NfaOf.{nfa_of};
ghost use Rattle.nfa_core.specs.NfaValue.{memory_of};
ghost use Rattle.nfa_core.specs.Renaming.{past};
ghost use Rattle.nfa_core.specs.declared.build_error.BuildError.TheVariants.{NoMemory, TooManyPatterns, UnsupportedCaptures};
ghost use Rattle.thompson_nfa.specs.Assembled.{IsAssembled};
ghost use Rattle.thompson_nfa.specs.ByteRoom.{at_least};
ghost use Rattle.thompson_nfa.specs.Compilations.{IsCompiled, bytes_needed};
ghost use Rattle.thompson_nfa.specs.Compiled.{sum_of_bytes};
ghost use Rattle.thompson_nfa.specs.Configs.{reverse_of, captures_of, is_any};
ghost use Rattle.thompson_nfa.specs.Patterns.{begun_with, error_under};
ghost use Rattle.thompson_nfa.specs.RefusedTrees.{RejectsTrees};

use crate::compiling::Shared;
use crate::config::Config;
use crate::patterns::{Starts, compile_all};
use hir_core::Hir;
use nfa_core::nfa_laws::reached_states_are_led_to;
use nfa_core::{BuildError, Builder, NFA, Steps};
use search_core::{PatternID, StateID};
use std::alloc::Global;
use std::marker::Brand;
use std::sync::ledger::{Blank, Ledger};

/// The least number of bytes that as many states as can be numbered take.
const ALL_STATES: usize = 24 * StateID::LIMIT;

/// Rejects more patterns than can be numbered.
fn check_patterns(len: usize) -> Result<(), BuildError>
    ensures { MatchResult result (λ _. len ≤ greatest_index + 1) (λ e. (e ≡ TooManyPatterns) × (greatest_index + 1 < len)) }
{
    if len > PatternID::LIMIT {
        return Err(BuildError::TooManyPatterns);
    }
    Ok(())
}

/// Rejects groups in an automaton that reads in reverse.
fn check_captures(config: &Config) -> Result<(), BuildError>
    ensures { MatchResult result (λ _. (reverse_of config.now && is_any (captures_of config.now)) ≡ false)
        (λ e. (e ≡ UnsupportedCaptures) × ((reverse_of config.now && is_any (captures_of config.now)) ≡ true)) }
{
    if config.get_reverse() && config.get_which_captures().is_any() {
        return Err(BuildError::UnsupportedCaptures);
    }
    Ok(())
}

/// Removes all states and patterns, whatever they are, and sets what the configuration says.
fn start_over(builder: &mut Builder, config: &Config) -> Result<(), BuildError>
    ensures { MatchResult result (λ _. builder.new ≡ begun_with config.now) (λ e. e ≡ NoMemory) }
{
    builder.clear();
    builder.set_utf8(config.get_utf8());
    builder.set_reverse(config.get_reverse());
    builder.set_look_matcher(config.get_look_matcher());
    builder.set_size_limit(config.get_nfa_size_limit())?;
    Ok(())
}

/// Returns the error to report. If the limit has no room for as many states as can be numbered, too many
/// states are reported as an exceeded limit.
fn reported(limit: Option<usize>, err: BuildError) -> BuildError
    ensures { result ≡ error_under limit err }
{
    match (limit, err) {
        (Some(limit), BuildError::TooManyStates) if limit < ALL_STATES => {
            BuildError::ExceededSizeLimit { limit }
        }
        (_, err) => err,
    }
}

/// Builds the automaton, and counts the moves.
fn build_counted<L: Ledger>(
    builder: &Builder,
    starts: Starts,
    blank: Blank,
) -> Result<NFA, BuildError>
    requires can { CanBuild builder.now starts.anchored starts.unanchored }
    requires name { blank.name ≡ L.name }
    requires parts { blank.parts ≡ L.parts }
    requires some { 0 < blank.parts }
    ensures value { MatchResult result (λ n. n ≡ nfa_of builder.now starts.anchored starts.unanchored)
        (λ e. (e ≡ NoMemory) ⊎ ReportsFaultOf e (build_fault builder.now)) }
    ensures within { IfOk result (λ n. MatchOption builder.now.size_limit ⊤ (λ most. memory_of n.automaton.states ≤ most)) }
{
    let mut steps = Steps::<L>::new(blank);
    let nfa = builder.build(starts.anchored, starts.unanchored, &mut steps)?;
    Ok(nfa)
}

/// Builds the automaton.
fn build(builder: &Builder, starts: Starts) -> Result<NFA, BuildError>
    requires { CanBuild builder.now starts.anchored starts.unanchored }
    ensures value { MatchResult result (λ n. n ≡ nfa_of builder.now starts.anchored starts.unanchored)
        (λ e. (e ≡ NoMemory) ⊎ ReportsFaultOf e (build_fault builder.now)) }
    ensures within { IfOk result (λ n. MatchOption builder.now.size_limit ⊤ (λ most. memory_of n.automaton.states ≤ most)) }
{
    build_counted::<Brand>(builder, starts, Blank::new(1))
}

/// The automaton of what is compiled.
fn finish(
    builder: &Builder,
    config: &Config,
    exprs: &[Hir],
    starts: Starts,
) -> Result<NFA, BuildError>
    requires assembled { IsAssembled config.now exprs.now builder.now starts.anchored starts.unanchored }
    requires apart { past builder.now.drafts starts.anchored ≢ starts.unanchored }
    requires needed { bytes_needed at_least config.now exprs.now ≤ sum_of_bytes builder.now }
    ensures compiled { IfOk result (λ n. IsCompiled config.now exprs.now n) }
    ensures refused { IfErr result (λ e. RejectsTrees config.now exprs.now e) }
{
    let _ = (config.get_utf8(), exprs.len(), builder.memory_usage());
    let nfa = build(builder, starts)?;
    nfa.is_sound();
    reached_states_are_led_to();
    Ok(nfa)
}

/// The automaton of these trees under the configuration. What the builder holds is removed first.
pub(crate) fn compile_trees(
    builder: &mut Builder,
    alloc: Global,
    shared: &mut Shared,
    config: &Config,
    exprs: &[Hir],
) -> Result<NFA, BuildError>
    ensures compiled { IfOk result (λ n. IsCompiled config.now exprs.now n) }
    ensures refused { IfErr result (λ e. RejectsTrees config.now exprs.now e) }
{
    check_patterns(exprs.len())?;
    check_captures(config)?;
    start_over(builder, config)?;
    let starts = match compile_all(builder, alloc, shared, config, exprs) {
        Ok(starts) => starts,
        Err(err) => return Err(reported(config.get_nfa_size_limit(), err)),
    };
    let nfa = finish(builder, config, exprs, starts)?;
    Ok(nfa)
}
