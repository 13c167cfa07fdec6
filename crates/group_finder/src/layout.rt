//! Layouts: steps that write the offsets of the groups of each match of a pattern.
ghost use Rattle.std.specs.Prelude.{◌≡◌, Bool, List, IfOk, IfSome, map, true};
ghost use Rattle.regex_hir.specs.Re.{group};
ghost use Rattle.regex_hir.specs.Meaning.{cat_all, meaning};
ghost use Rattle.group_finder.specs.Layouts.{AreApart, Covers, IsFirstByte, IsLayoutOf, IsMore, IsStepOver, Lays, Reads, Starts};

use crate::lengths::{Lengths, lengths_of};
use crate::steps::Step;
use regex_hir::Hir;
use search_core::ByteSet;
use std::alloc::{AllocError, Global};

/// What is known of what follows in a match.
#[derive(Clone, Copy, Drop)]
pub(crate) struct Ahead {
    /// How many bytes there are up to the end of the match, if each match has as many.
    pub(crate) rest: Option<usize>,
    /// The bytes by which it may go on.
    pub(crate) follow: ByteSet,
}

/// Whether no byte is in both sets.
fn are_apart(a: &ByteSet, b: &ByteSet) -> bool
    ensures { result ≡ true → AreApart a.now b.now }
{
    for byte in 0..256usize {
        if a.contains(byte as u8) && b.contains(byte as u8) {
            return false;
        }
    }
    true
}

/// The bytes of either set.
fn union(a: &ByteSet, b: &ByteSet) -> ByteSet
    ensures first { Covers a.now result }
    ensures second { Covers b.now result }
{
    let mut all = ByteSet::empty();
    for byte in 0..256usize {
        if a.contains(byte as u8) || b.contains(byte as u8) {
            all.add(byte as u8);
        }
    }
    all
}

/// The bytes by which a tree may start if it reads bytes of a set: for a literal, its first byte.
fn starts_of(hir: &Hir, set: ByteSet) -> ByteSet
    ensures { Starts (meaning hir.now) result set }
{
    match hir {
        Hir::Literal(bytes) => first_of(bytes, set),
        _ => set,
    }
}

/// The set of the first byte, or the other set if there is none.
fn first_of(bytes: &[u8], set: ByteSet) -> ByteSet
    ensures { IsFirstByte bytes.now set result }
{
    if bytes.is_empty() {
        return set;
    }
    let mut first = ByteSet::empty();
    first.add(bytes[0]);
    first
}

/// The step over a tree with these lengths that reads bytes of a set, and how many bytes there are then up to the end of the match.
fn step_over(lengths: Lengths, set: ByteSet, ahead: &Ahead) -> Option<(Step, Option<usize>)>
    ensures { IfSome result (λ s. IsStepOver lengths set ahead.now s.0 s.1) }
{
    if lengths.fixed {
        return Some((Step::Skip(lengths.least), sum_of(ahead.rest, lengths.least)));
    }
    if let Some(count) = ahead.rest {
        return Some((Step::Rest(count), None));
    }
    if are_apart(&set, &ahead.follow) {
        return Some((Step::Run(set), None));
    }
    None
}

/// The sum, if there are both numbers and it can be counted.
fn sum_of(rest: Option<usize>, count: usize) -> Option<usize>
    ensures { IsMore rest count result }
{
    rest?.checked_add(count)
}

/// What is known before a tree with these lengths that reads bytes of a set.
fn before(hir: &Hir, lengths: Lengths, set: ByteSet, rest: Option<usize>, ahead: &Ahead) -> Ahead
    ensures rest { result.rest ≡ rest }
    ensures follow { (first : List Bool) × Starts (meaning hir.now) first set × Covers first result.follow
        × ((lengths.least ≡ 0) → Covers ahead.now.follow result.follow) }
{
    let first = starts_of(hir, set);
    let follow = if lengths.least == 0 {
        union(&first, &ahead.follow)
    } else {
        first
    };
    Ahead { rest, follow }
}

/// Adds the step over a class of characters, and returns what is known before it. There is none for other trees.
fn add_character(
    hir: &Hir,
    lengths: Lengths,
    set: ByteSet,
    steps: &mut Vec<Step>,
    ahead: Ahead,
) -> Result<Option<Ahead>, AllocError>
    requires { Reads (meaning hir.now) set lengths }
    ensures { IfOk result (λ o. IfSome o (Lays (meaning hir.now) steps.old.items ahead steps.new.items)) }
{
    match hir {
        Hir::Chars(_) => {
            steps.push(Step::Character)?;
            Ok(Some(before(hir, lengths, set, None, &ahead)))
        }
        _ => Ok(None),
    }
}

/// Adds the step over a tree without groups, and returns what is known before it. There is none for a tree whose end depends on more than
/// the bytes that it may read, unless it is a class of characters.
fn add_part(hir: &Hir, steps: &mut Vec<Step>, ahead: Ahead) -> Result<Option<Ahead>, AllocError>
    ensures { IfOk result (λ o. IfSome o (Lays (meaning hir.now) steps.old.items ahead steps.new.items)) }
{
    let mut set = ByteSet::empty();
    let Some(lengths) = lengths_of(hir, &mut set) else {
        return Ok(None);
    };
    let Some((step, rest)) = step_over(lengths, set, &ahead) else {
        return add_character(hir, lengths, set, steps, ahead);
    };
    steps.push(step)?;
    Ok(Some(before(hir, lengths, set, rest, &ahead)))
}

/// Adds the steps over a tree, the last one first, and returns what is known before it.
#[cycle(add)]
fn add(hir: &Hir, steps: &mut Vec<Step>, ahead: Ahead) -> Result<Option<Ahead>, AllocError>
    ensures { IfOk result (λ o. IfSome o (Lays (meaning hir.now) steps.old.items ahead steps.new.items)) }
{
    match hir {
        Hir::Capture { index, sub } => add_group(*index, sub, steps, ahead),
        Hir::Concat(subs) => add_all(subs, steps, ahead),
        _ => add_part(hir, steps, ahead),
    }
}

/// Adds the steps over a group.
#[cycle(add)]
fn add_group(
    index: u32,
    sub: &Hir,
    steps: &mut Vec<Step>,
    ahead: Ahead,
) -> Result<Option<Ahead>, AllocError>
    ensures { IfOk result (λ o. IfSome o (Lays (group index (meaning sub.now)) steps.old.items ahead steps.new.items)) }
{
    let slot = 2 * index as usize;
    steps.push(Step::Save(slot + 1))?;
    let inner = add(sub, steps, ahead)?;
    steps.push(Step::Save(slot))?;
    Ok(inner)
}

/// Adds the steps over trees one after the other.
#[cycle(add)]
fn add_all(subs: &[Hir], steps: &mut Vec<Step>, ahead: Ahead) -> Result<Option<Ahead>, AllocError>
    ensures { IfOk result (λ o. IfSome o (Lays (cat_all (map meaning subs.now)) steps.old.items ahead steps.new.items)) }
{
    let mut now = ahead;
    for i in (0..subs.len()).rev() {
        let Some(next) = add(&subs[i], steps, now)? else {
            return Ok(None);
        };
        now = next;
    }
    Ok(Some(now))
}

/// A layout of a tree, if it has one.
pub(crate) fn layout_of(alloc: Global, hir: &Hir) -> Result<Option<Vec<Step>>, AllocError>
    ensures { IfOk result (λ o. IfSome o (λ steps. IsLayoutOf (meaning hir.now) steps.items)) }
{
    let mut steps = Vec::new(alloc);
    let end = Ahead {
        rest: Some(0),
        follow: ByteSet::empty(),
    };
    let Some(_) = add(hir, &mut steps, end)? else {
        return Ok(None);
    };
    steps.reverse();
    Ok(Some(steps))
}
