ghost use Rattle.std.specs.Prelude.{◌≡◌, ◌<◌, ◌≤◌, true, false, length, map, None, All, IsOk, MatchResult};
ghost use Rattle.nfa_core.specs.BuilderStates.{empty_draft, range_draft, sparse_draft, look_draft, union_draft, union_reverse_draft};
ghost use Rattle.nfa_core.specs.BuilderStates.{fail_draft, match_draft, AscendsFrom, draft_at, patched_at, way_bytes, is_sparse};
ghost use Rattle.nfa_core.specs.BuilderFaults.{Adds, ReportsFaultOf, patch_fault};
ghost use Rattle.nfa_core.specs.declared.build_error.BuildError.TheVariants.{NoMemory};
ghost use Rattle.nfa_core.specs.Drafts.{draft_of};
ghost use Rattle.nfa_core.specs.Transitions.{range_of};

use crate::build_error::BuildError;
use crate::builder::{Builder, check_limit};
use crate::building::draft::Draft;
use crate::transition::Transition;
use look_core::Look;
use search_core::StateID;

impl Builder {
    /// Adds a state that stands for another, which [`patch`](Builder::patch) names later. The automaton
    /// has no such state.
    pub fn add_empty(&mut self) -> Result<StateID, BuildError>
        ensures { Adds self.old self.new result (empty_draft 0) }
    {
        self.add(Draft::Empty {
            next: StateID::ZERO,
        })
    }

    /// Adds a state that leads to each of these, the preferred first. [`patch`](Builder::patch) adds more.
    pub fn add_union(&mut self, alternates: Vec<StateID>) -> Result<StateID, BuildError>
        ensures { Adds self.old self.new result (union_draft alternates.items) }
    {
        self.add(Draft::Union { alternates })
    }

    /// Adds a state that leads to each of these, the preferred last. [`patch`](Builder::patch) adds more.
    pub fn add_union_reverse(&mut self, alternates: Vec<StateID>) -> Result<StateID, BuildError>
        ensures { Adds self.old self.new result (union_reverse_draft alternates.items) }
    {
        self.add(Draft::UnionReverse { alternates })
    }

    /// Adds a state that leads on by the bytes of a range, which has at least one byte.
    pub fn add_range(&mut self, trans: Transition) -> Result<StateID, BuildError>
        requires { trans.start ≤ trans.end }
        ensures { Adds self.old self.new result (range_draft trans.start trans.end trans.next) }
    {
        self.add(Draft::ByteRange { trans })
    }

    /// Adds a state that leads on by the bytes of ranges. Each range has at least one byte, they ascend, and no two have a byte in common.
    /// The state can't be patched.
    pub fn add_sparse(&mut self, transitions: Vec<Transition>) -> Result<StateID, BuildError>
        requires { AscendsFrom 0 (map range_of transitions.items) }
        ensures { Adds self.old self.new result (sparse_draft (map range_of transitions.items)) }
    {
        see_bytes(&transitions);
        self.add(Draft::Sparse { transitions })
    }

    /// Adds a state that leads on if the look holds.
    pub fn add_look(&mut self, next: StateID, look: Look) -> Result<StateID, BuildError>
        ensures { Adds self.old self.new result (look_draft look next) }
    {
        self.add(Draft::Look { look, next })
    }

    /// Adds a state that leads nowhere. Patching it changes nothing.
    pub fn add_fail(&mut self) -> Result<StateID, BuildError>
        ensures { Adds self.old self.new result fail_draft }
    {
        self.add(Draft::Fail)
    }

    /// Adds a state in which the current pattern matches. Patching it changes nothing.
    pub fn add_match(&mut self) -> Result<StateID, BuildError>
        requires { self.old.is_open ≡ true }
        ensures { Adds self.old self.new result (match_draft (length self.old.starts)) }
    {
        let pattern_id = self.current_pattern_id();
        self.add(Draft::Match { pattern_id })
    }

    /// Makes the state `from` lead to `to`. A union gets one more way, after those that it had. Any other state leads to `to` and no longer
    /// where it did, and for such a state the call never fails.
    pub fn patch(&mut self, from: StateID, to: StateID) -> Result<(), BuildError>
        requires from { from < length self.old.drafts }
        requires to { to < length self.old.drafts }
        requires kind { is_sparse (draft_at self.old.drafts from) ≡ false }
        ensures value { MatchResult result
            (λ _. (self.new ≡ record self.old { drafts = patched_at self.old.drafts from to }) × (patch_fault self.old from to ≡ None))
            (λ e. (self.new ≡ self.old) × ReportsFaultOf e (patch_fault self.old from to)) }
        ensures free { way_bytes (draft_at self.old.drafts from) ≡ 0 → IsOk result }
    {
        let memory = self.memory.saturating_add(way_memory(&self.drafts, from));
        check_limit(self.size_limit, memory)?;
        patch(&mut self.drafts, from, to)?;
        self.memory = memory;
        Ok(())
    }
}

/// The last byte of a range.
fn last_byte(transition: &Transition) -> u8
    ensures { transition.now.end < 256 }
{
    transition.end
}

/// The ranges end in bytes, as their type says. The loop does nothing.
fn see_bytes(transitions: &[Transition])
    ensures { All (λ t. t.end < 256) transitions.now }
{
    for transition in transitions {
        let _end = last_byte(transition);
    }
}

/// The bytes that one more way of a state takes.
#[tactic(auto, using(crate::proofs::BuilderLemmas::view_at))]
fn way_memory(drafts: &[Draft], from: StateID) -> usize
    requires { from < length drafts.now }
    ensures { result ≡ way_bytes (draft_at (map draft_of drafts.now) from) }
{
    drafts[from.as_usize()].patch_memory()
}

/// Makes one of the states lead to `to`.
#[tactic(auto, using(crate::proofs::BuilderLemmas::view_patched, crate::proofs::BuilderLemmas::view_kept, crate::proofs::BuilderLemmas::view_at))]
fn patch(drafts: &mut Vec<Draft>, from: StateID, to: StateID) -> Result<(), BuildError>
    requires { from < length drafts.old.items }
    ensures value { MatchResult result (λ _. map draft_of drafts.new.items ≡ patched_at (map draft_of drafts.old.items) from to)
        (λ e. (map draft_of drafts.new.items ≡ map draft_of drafts.old.items) × (e ≡ NoMemory)) }
    ensures free { way_bytes (draft_at (map draft_of drafts.old.items) from) ≡ 0 → IsOk result }
{
    drafts[from.as_usize()].patch(to)?;
    Ok(())
}
