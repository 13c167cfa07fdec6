//! Fragments of trees without parts.
ghost use Rattle.std.specs.Prelude.{◌≡◌, ◌<◌, ◌≤◌, ◌+◌, ◌*◌, [], ◌∷◌, length, max, IfOk, IfErr};
ghost use Rattle.hir_core.specs.Tree.{empty, literal, byte_class, look, never};
ghost use Rattle.thompson_nfa.specs.Compiled.{Makes, Does, TakesBytes};
ghost use Rattle.thompson_nfa.specs.Refusals.{Quits, ExceedsLimit};
ghost use Rattle.thompson_nfa.specs.Turned.{turned_position};

use crate::compiling::Fragment;
use crate::drafts::{add_empty, add_fail, add_look, add_range, lead};
use look_core::Look;
use nfa_core::{BuildError, Builder};

/// One state that stands for what follows.
#[tactic(auto, using(crate::proofs::Fragments::LeafLemmas::empty_does, crate::proofs::Fragments::LeafLemmas::empty_made, crate::proofs::Fragments::TakeLemmas::one_takes, crate::proofs::Steps::ProgressLemmas::first_quits))]
pub(crate) fn empty(builder: &mut Builder) -> Result<Fragment, BuildError>
    ensures made { IfOk result (λ f. Makes builder.old builder.new f.start f.end 1) }
    ensures denotes { IfOk result (λ f. Does builder.old builder.new f.start f.end empty) }
    ensures weighs { IfOk result (λ f. TakesBytes builder.old builder.new f.end 24 24) }
    ensures passed { IfErr result (λ e. ExceedsLimit builder.old 24 e) }
    ensures groups { IfOk result (λ _. builder.new.groups ≡ builder.old.groups) }
    ensures refused { IfErr result (λ e. Quits builder.old builder.new 1 e) }
{
    let id = add_empty(builder)?;
    Ok(Fragment { start: id, end: id })
}

/// One state that leads nowhere.
#[tactic(auto, using(crate::proofs::Fragments::LeafLemmas::fail_does, crate::proofs::Fragments::LeafLemmas::fail_made, crate::proofs::Fragments::TakeLemmas::one_takes, crate::proofs::Steps::ProgressLemmas::first_quits))]
pub(crate) fn fail(builder: &mut Builder) -> Result<Fragment, BuildError>
    ensures made { IfOk result (λ f. Makes builder.old builder.new f.start f.end 1) }
    ensures denotes { IfOk result (λ f. Does builder.old builder.new f.start f.end never) }
    ensures weighs { IfOk result (λ f. TakesBytes builder.old builder.new f.end 24 24) }
    ensures passed { IfErr result (λ e. ExceedsLimit builder.old 24 e) }
    ensures groups { IfOk result (λ _. builder.new.groups ≡ builder.old.groups) }
    ensures refused { IfErr result (λ e. Quits builder.old builder.new 1 e) }
{
    let id = add_fail(builder)?;
    Ok(Fragment { start: id, end: id })
}

/// One state that reads a byte from the first to the last.
#[tactic(auto, using(crate::proofs::Fragments::LeafLemmas::range_does, crate::proofs::Fragments::LeafLemmas::range_made, crate::proofs::Fragments::TakeLemmas::one_takes, crate::proofs::Steps::ProgressLemmas::first_quits))]
pub(crate) fn byte_range(builder: &mut Builder, start: u8, end: u8) -> Result<Fragment, BuildError>
    requires { start ≤ end }
    ensures made { IfOk result (λ f. Makes builder.old builder.new f.start f.end 1) }
    ensures denotes { IfOk result (λ f. Does builder.old builder.new f.start f.end (byte_class ((start, end) ∷ []))) }
    ensures weighs { IfOk result (λ f. TakesBytes builder.old builder.new f.end 24 24) }
    ensures passed { IfErr result (λ e. ExceedsLimit builder.old 24 e) }
    ensures groups { IfOk result (λ _. builder.new.groups ≡ builder.old.groups) }
    ensures refused { IfErr result (λ e. Quits builder.old builder.new 1 e) }
{
    let id = add_range(builder, start, end)?;
    Ok(Fragment { start: id, end: id })
}

/// One state that leads on where the look holds. If the automaton reads in reverse, the state has the look
/// that holds there when reading in reverse.
#[tactic(auto, using(crate::proofs::Fragments::LeafLemmas::look_does, crate::proofs::Fragments::LeafLemmas::look_made, crate::proofs::Fragments::TakeLemmas::one_takes, crate::proofs::Steps::ProgressLemmas::first_quits))]
pub(crate) fn look(builder: &mut Builder, assertion: Look) -> Result<Fragment, BuildError>
    ensures made { IfOk result (λ f. Makes builder.old builder.new f.start f.end 1) }
    ensures denotes { IfOk result (λ f. Does builder.old builder.new f.start f.end (look assertion)) }
    ensures weighs { IfOk result (λ f. TakesBytes builder.old builder.new f.end 24 24) }
    ensures passed { IfErr result (λ e. ExceedsLimit builder.old 24 e) }
    ensures groups { IfOk result (λ _. builder.new.groups ≡ builder.old.groups) }
    ensures refused { IfErr result (λ e. Quits builder.old builder.new 1 e) }
{
    let turned = if builder.get_reverse() {
        assertion.reversed()
    } else {
        assertion
    };
    let id = add_look(builder, turned)?;
    Ok(Fragment { start: id, end: id })
}

/// The index of the part that is met after `i` others, of `len` in all.
pub(crate) fn turned_position(reverse: bool, i: usize, len: usize) -> usize
    requires { i < len }
    ensures value { result ≡ turned_position reverse i len }
    ensures within { result < len }
{
    if reverse { len - (i + 1) } else { i }
}

/// One state that reads the byte.
#[tactic(auto, using(crate::proofs::Fragments::LeafLemmas::byte_does, crate::proofs::Fragments::LeafLemmas::range_made, crate::proofs::Fragments::TakeLemmas::one_takes, crate::proofs::Steps::ProgressLemmas::first_quits))]
fn byte(builder: &mut Builder, byte: u8) -> Result<Fragment, BuildError>
    ensures made { IfOk result (λ f. Makes builder.old builder.new f.start f.end 1) }
    ensures denotes { IfOk result (λ f. Does builder.old builder.new f.start f.end (literal (byte ∷ []))) }
    ensures weighs { IfOk result (λ f. TakesBytes builder.old builder.new f.end 24 24) }
    ensures passed { IfErr result (λ e. ExceedsLimit builder.old 24 e) }
    ensures groups { IfOk result (λ _. builder.new.groups ≡ builder.old.groups) }
    ensures refused { IfErr result (λ e. Quits builder.old builder.new 1 e) }
{
    let id = add_range(builder, byte, byte)?;
    Ok(Fragment { start: id, end: id })
}

/// A state for each of the bytes, joined in the order in which they are read.
pub(crate) fn literal(builder: &mut Builder, bytes: &[u8]) -> Result<Fragment, BuildError>
    ensures made { IfOk result (λ f. Makes builder.old builder.new f.start f.end (length bytes.now + 1)) }
    ensures denotes { IfOk result (λ f. Does builder.old builder.new f.start f.end (literal bytes.now)) }
    ensures weighs { IfOk result (λ f. TakesBytes builder.old builder.new f.end
        (24 * max (length bytes.now) 1) (24 * max (length bytes.now) 1)) }
    ensures passed { IfErr result (λ e. ExceedsLimit builder.old (24 * max (length bytes.now) 1) e) }
    ensures groups { IfOk result (λ _. builder.new.groups ≡ builder.old.groups) }
    ensures refused { IfErr result (λ e. Quits builder.old builder.new (length bytes.now + 1) e) }
{
    if bytes.len() == 0 {
        let none = empty(builder)?;
        return Ok(none);
    }
    let reverse = builder.get_reverse();
    let first = byte(builder, bytes[turned_position(reverse, 0, bytes.len())])?;
    let mut end = first.end;
    for i in 1..bytes.len() {
        let next = byte(builder, bytes[turned_position(reverse, i, bytes.len())])?;
        lead(builder, end, next.start)?;
        end = next.end;
    }
    Ok(Fragment {
        start: first.start,
        end,
    })
}
