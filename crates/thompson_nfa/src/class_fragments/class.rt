//! Fragments of byte classes.
ghost use Rattle.std.specs.Prelude.{◌≡◌, ◌<◌, ◌≤◌, ◌+◌, ◌*◌, length, map, take, All, IfOk, IfErr, MatchResult, IsTrue};
ghost use Rattle.hir_core.specs.Facts.{is_ascending};
ghost use Rattle.hir_core.specs.Tree.{byte_class};
ghost use Rattle.nfa_core.specs.BuilderStates.{sparse_draft, AscendsFrom};
ghost use Rattle.nfa_core.specs.Transitions.{range_of};
ghost use Rattle.thompson_nfa.specs.Added.{AddsDraft};
ghost use Rattle.thompson_nfa.specs.Compiled.{Makes, Does, TakesBytes};
ghost use Rattle.thompson_nfa.specs.Refusals.{Quits, Stays, ExceedsLimit};

use crate::compiling::Fragment;
use crate::drafts::add_empty;
use nfa_core::{BuildError, Builder, Transition};
use search_core::StateID;
use std::alloc::{AllocError, Global};

/// The last byte of a range.
fn last_byte(range: &(u8, u8)) -> u8
    ensures value { result ≡ range.now.1 }
    ensures byte { range.now.1 < 256 }
{
    range.1
}

/// One transition for each of the ranges, which end in bytes, all to the same state.
fn transitions(
    alloc: Global,
    ranges: &[(u8, u8)],
    next: StateID,
) -> Result<Vec<Transition>, AllocError>
    ensures each { IfOk result (λ v. map range_of v.items ≡ map (λ r. (r.0, r.1, next)) ranges.now) }
    ensures bytes { IfOk result (λ _. All (λ r. r.1 < 256) ranges.now) }
{
    let mut all = Vec::new(alloc);
    for range in ranges {
        all.push(Transition {
            start: range.0,
            end: last_byte(range),
            next,
        })?;
    }
    Ok(all)
}

/// Adds a state that leads on by the bytes of the ranges, all to the same state. It can't be led on.
#[tactic(auto, using(crate::proofs::Fragments::ClassLemmas::ascends, crate::proofs::Fragments::ClassLemmas::few_ranges, crate::proofs::Fragments::ClassLemmas::bytes_shown, crate::proofs::Steps::StepLemmas::added_of, crate::proofs::Steps::StepLemmas::add_refused))]
fn add_ranges(
    builder: &mut Builder,
    alloc: Global,
    ranges: &[(u8, u8)],
    next: StateID,
) -> Result<StateID, BuildError>
    requires { IsTrue (is_ascending ranges.now) }
    ensures added { IfOk result (λ id. AddsDraft builder.old builder.new id
        (sparse_draft (map (λ r. (r.0, r.1, next)) ranges.now)) builder.old.groups) }
    ensures few { IfOk result (λ _. length ranges.now ≤ 256) }
    ensures refused { IfErr result (λ e. Stays builder.old builder.new 1 2072 e) }
    ensures passed { IfErr result (λ e. ExceedsLimit builder.old (24 + 8 * length ranges.now) e) }
{
    let all = transitions(alloc, ranges, next)?;
    let id = builder.add_sparse(all)?;
    Ok(id)
}

/// One state that reads a byte of the ranges, before one that stands for what follows. It is the same when
/// the automaton reads in reverse.
#[tactic(auto, using(crate::proofs::Fragments::ClassLemmas::class_made, crate::proofs::Fragments::ClassLemmas::class_takes, crate::proofs::Fragments::ClassLemmas::class_does, crate::proofs::Steps::ProgressLemmas::first_quits, crate::proofs::Fragments::ClassLemmas::class_quits))]
pub(crate) fn byte_class(
    builder: &mut Builder,
    alloc: Global,
    ranges: &[(u8, u8)],
) -> Result<Fragment, BuildError>
    requires { IsTrue (is_ascending ranges.now) }
    ensures made { IfOk result (λ f. Makes builder.old builder.new f.start f.end 2) }
    ensures denotes { IfOk result (λ f. Does builder.old builder.new f.start f.end (byte_class ranges.now)) }
    ensures weighs { IfOk result (λ f. TakesBytes builder.old builder.new f.end
        (48 + 8 * length ranges.now) (48 + 8 * length ranges.now)) }
    ensures passed { IfErr result (λ e. ExceedsLimit builder.old (48 + 8 * length ranges.now) e) }
    ensures groups { IfOk result (λ _. builder.new.groups ≡ builder.old.groups) }
    ensures refused { IfErr result (λ e. Quits builder.old builder.new 2 e) }
{
    let end = add_empty(builder)?;
    let start = add_ranges(builder, alloc, ranges, end)?;
    Ok(Fragment { start, end })
}
