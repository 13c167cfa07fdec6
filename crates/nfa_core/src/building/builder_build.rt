ghost use Rattle.std.specs.Prelude.{◌≡◌, ◌⊎◌, ◌+◌, ◌*◌, ◌≤◌, length, None, IfErr, IfOk, MatchOption, MatchResult, ⊤};
ghost use Rattle.search_types.specs.GroupFaults.{groups_in, group_fault};
ghost use Rattle.search_types.specs.GroupRefusals.{TakesMemory};
ghost use Rattle.nfa_core.specs.declared.build_error.BuildError.TheVariants.{NoMemory};
ghost use Rattle.nfa_core.specs.BuilderFaults.{ReportsFaultOf, groups_fault, build_fault};
ghost use Rattle.nfa_core.specs.CanBuild.{CanBuild};
ghost use Rattle.nfa_core.specs.NfaOf.{nfa_of};
ghost use Rattle.nfa_core.specs.NfaParts.{automaton_in, nfa_in};
ghost use Rattle.nfa_core.specs.NfaValue.{IsSound, memory_of};

use crate::build_error::BuildError;
use crate::builder::Builder;
use crate::building::kept_states::{kept_states, rename, rename_all};
use crate::building::naming::name_all;
use crate::nfa::NFA;
use crate::nfa_parts::Parts;
use crate::steps::Steps;
use search_core::StateID;
use search_types::{GroupInfo, GroupInfoError};
use std::alloc::{AllocError, Global};
use std::sync::ledger::Ledger;

impl Builder {
    /// Builds the automaton of the states. An anchored search starts in the first of the two given states, and any other search in the
    /// second. Empty states and unions of one way are left out. What led to one of them leads to the first state past it that is neither.
    ///
    /// Groups that break a rule are an error, however much memory there is. If a name occurs twice, the error may be out of memory instead.
    /// The automaton keeps to the builder's size limit.
    ///
    /// A move is one way that is followed past a state that is left out. There are at most two moves for each state.
    pub fn build<L: Ledger>(
        &self,
        start_anchored: StateID,
        start_unanchored: StateID,
        steps: &mut Steps<L>,
    ) -> Result<NFA, BuildError>
        requires { CanBuild self.now start_anchored start_unanchored }
        ensures value { MatchResult result (λ n. (n ≡ nfa_of self.now start_anchored start_unanchored) × (build_fault self.now ≡ None))
            (λ e. (e ≡ NoMemory) ⊎ ReportsFaultOf e (build_fault self.now)) }
        ensures reported { IfErr result (λ e. e ≡ NoMemory → TakesMemory (group_fault self.now.groups)) }
        ensures within { IfOk result (λ n. MatchOption self.now.size_limit ⊤ (λ most. memory_of n.automaton.states ≤ most)) }
        ensures moves { steps.new ≤ steps.old + 2 * length self.now.drafts }
    {
        let alloc = *self.drafts.allocator();
        let group_info = take_groups(alloc, &self.groups)?;
        let parts = self.parts(alloc, group_info, start_anchored, start_unanchored, steps)?;
        let nfa = NFA::from_parts(alloc, parts)?;
        Ok(nfa)
    }

    /// The parts of the automaton, with its groups as given.
    fn parts<L: Ledger>(
        &self,
        alloc: Global,
        group_info: GroupInfo,
        start_anchored: StateID,
        start_unanchored: StateID,
        steps: &mut Steps<L>,
    ) -> Result<Parts, AllocError>
        requires can { CanBuild self.now start_anchored start_unanchored }
        requires groups { group_info ≡ self.now.groups }
        ensures value { IfOk result (λ parts. nfa_in parts ≡ nfa_of self.now start_anchored start_unanchored) }
        ensures sound { IfOk result (λ parts. IsSound (automaton_in parts)) }
        ensures moves { steps.new ≤ steps.old + 2 * length self.now.drafts }
    {
        let names = name_all(alloc, &self.drafts, steps)?;
        let states = kept_states(alloc, &names, &group_info, &self.drafts)?;
        let start_pattern = rename_all(alloc, &names, &self.starts)?;
        let anchored = rename(&names, start_anchored);
        let unanchored = rename(&names, start_unanchored);
        Ok(Parts {
            states,
            start_anchored: anchored,
            start_unanchored: unanchored,
            start_pattern,
            group_info,
            utf8: self.utf8,
            reverse: self.reverse,
            look_matcher: self.look_matcher.clone()?,
        })
    }
}

/// Builds the groups from the names of each pattern's groups. Groups that break a rule are an error.
fn take_groups(alloc: Global, groups: &[Vec<Option<String>>]) -> Result<GroupInfo, BuildError>
    ensures value { MatchResult result (λ g. (g ≡ groups_in groups.now) × (group_fault (groups_in groups.now) ≡ None))
        (λ e. (e ≡ NoMemory) ⊎ ReportsFaultOf e (groups_fault (group_fault (groups_in groups.now)))) }
    ensures reported { IfErr result (λ e. e ≡ NoMemory → TakesMemory (group_fault (groups_in groups.now))) }
{
    match GroupInfo::new(alloc, groups) {
        Ok(taken) => Ok(taken),
        Err(GroupInfoError::NoMemory) => Err(BuildError::NoMemory),
        Err(err) => Err(BuildError::Captures { err }),
    }
}
