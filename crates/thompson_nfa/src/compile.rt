//! Trees as fragments of states. Recursion goes into parts of the tree only.
ghost use Rattle.std.specs.Prelude.{◌≡◌, ◌<◌, ◌≤◌, ◌+◌, ◌-◌, ◌*◌, ◌==◌, false, [], ◌∷◌, length, IfOk};
ghost use Rattle.std.specs.Prelude.{IfErr, IfSome, Some, None, option_map, string_bytes};
ghost use Rattle.hir_core.specs.Facts.{minimum_len};
ghost use Rattle.hir_core.specs.Tree.{repetition, capture, concat, alternation};
ghost use Rattle.thompson_nfa.specs.ByteRoom.{tree_least, tree_most, group_bytes, loop_bytes, rounds_bytes};
ghost use Rattle.thompson_nfa.specs.Compiled.{IsReady, Makes, TakesBytes, Does, DoesCopies, DoesOption, is_above_zero};
ghost use Rattle.thompson_nfa.specs.NotedGroups.{with_groups_of, keeps_group};
ghost use Rattle.thompson_nfa.specs.Refusals.{FailsFragment, ExceedsLimit};
ghost use Rattle.thompson_nfa.specs.Room.{room};

use crate::class_fragments::class::byte_class;
use crate::class_fragments::scalar_class::compile_scalars;
use crate::compiling::{Fragment, How, Shared};
use crate::drafts::{add_choice, add_empty, end_group, lead, start_group};
use crate::leaves::{empty, fail, literal, look, turned_position};
use crate::literals::{all_literals, compile_literals};
use crate::which_captures::WhichCaptures;
use hir_core::{Hir, HirKind};
use nfa_core::{BuildError, Builder};
use search_core::StateID;
use std::alloc::{AllocError, Global};

/// Compiles a tree.
#[cycle(compile)]
pub(crate) fn compile(
    builder: &mut Builder,
    alloc: Global,
    how: How,
    shared: &mut Shared,
    x: &Hir,
) -> Result<Fragment, BuildError>
    requires { IsReady how.which builder.old }
    ensures made { IfOk result (λ f. Makes builder.old builder.new f.start f.end (room how.shrink x.now)) }
    ensures denotes { IfOk result (λ f. Does builder.old builder.new f.start f.end (x.now)) }
    ensures weighs { IfOk result (λ f. TakesBytes builder.old builder.new f.end
        (tree_least how.which x.now) (tree_most how.which how.shrink x.now)) }
    ensures groups { IfOk result (λ _. builder.new.groups ≡
        with_groups_of how.which (length builder.old.starts) (x.now) builder.old.groups) }
    ensures refused { IfErr result (λ e. FailsFragment how.which builder.old builder.new (room how.shrink x.now) (x.now) e) }
    ensures passed { IfErr result (λ e. ExceedsLimit builder.old (tree_most how.which how.shrink x.now) e) }
{
    match x.kind() {
        HirKind::Empty => empty(builder),
        HirKind::Literal(bytes) => literal(builder, bytes),
        HirKind::Bytes(ranges) => byte_class(builder, alloc, ranges),
        HirKind::Chars(ranges) => compile_scalars(builder, alloc, how, shared, ranges),
        HirKind::Look(assertion) => look(builder, *assertion),
        HirKind::Repetition {
            min,
            max,
            greedy,
            sub,
        } => match max {
            None => at_least(builder, alloc, how, shared, sub, *greedy, *min),
            Some(max) => between(builder, alloc, how, shared, sub, *greedy, *min, *max),
        },
        HirKind::Capture { index, name, sub } => {
            captured(builder, alloc, how, shared, *index, name, sub)
        }
        HirKind::Concat(subs) => concatenation(builder, alloc, how, shared, subs),
        HirKind::Alternation(subs) => alternatives(builder, alloc, how, shared, subs),
    }
}

/// Whether the states of a group are made.
fn keeps(which: WhichCaptures, index: u32) -> bool
    ensures { result ≡ keeps_group which index }
{
    match which {
        WhichCaptures::All => true,
        WhichCaptures::Implicit => index == 0,
        WhichCaptures::None => false,
    }
}

fn clone_name(name: &Option<String>, alloc: Global) -> Result<Option<String>, AllocError>
    ensures { IfOk result (λ copy. option_map string_bytes copy ≡ option_map string_bytes name.now) }
{
    match name {
        None => Ok(None),
        Some(name) => Ok(Some(String::from_str(alloc, name)?)),
    }
}

/// A group, between states that note its ends where such states are made.
#[cycle(compile)]
pub(crate) fn captured(
    builder: &mut Builder,
    alloc: Global,
    how: How,
    shared: &mut Shared,
    index: u32,
    name: &Option<String>,
    x: &Hir,
) -> Result<Fragment, BuildError>
    requires { IsReady how.which builder.old }
    ensures made { IfOk result (λ f. Makes builder.old builder.new f.start f.end (room how.shrink x.now + 2)) }
    ensures denotes { IfOk result (λ f. Does builder.old builder.new f.start f.end
        (capture index (option_map string_bytes name.now) x.now)) }
    ensures weighs { IfOk result (λ f. TakesBytes builder.old builder.new f.end
        (group_bytes how.which index + tree_least how.which x.now) (group_bytes how.which index + tree_most how.which how.shrink x.now)) }
    ensures groups { IfOk result (λ _. builder.new.groups ≡
        with_groups_of how.which (length builder.old.starts) (capture index (option_map string_bytes name.now) x.now) builder.old.groups) }
    ensures refused { IfErr result (λ e. FailsFragment how.which builder.old builder.new (room how.shrink x.now + 2)
        (capture index (option_map string_bytes name.now) x.now) e) }
    ensures passed { IfErr result (λ e. ExceedsLimit builder.old (group_bytes how.which index + tree_most how.which how.shrink x.now) e) }
{
    if !keeps(how.which, index) {
        let body = compile(builder, alloc, how, shared, x)?;
        return Ok(body);
    }
    let name = clone_name(name, alloc)?;
    let start = start_group(builder, index, name)?;
    let body = compile(builder, alloc, how, shared, x)?;
    let end = end_group(builder, index)?;
    lead(builder, start, body.start)?;
    lead(builder, body.end, end)?;
    Ok(Fragment { start, end })
}

/// The parts, one after the other, in the order in which they are read.
#[cycle(compile)]
fn concatenation(
    builder: &mut Builder,
    alloc: Global,
    how: How,
    shared: &mut Shared,
    subs: &[Hir],
) -> Result<Fragment, BuildError>
    requires { IsReady how.which builder.old }
    ensures made { IfOk result (λ f. Makes builder.old builder.new f.start f.end (room how.shrink (concat subs.now))) }
    ensures denotes { IfOk result (λ f. Does builder.old builder.new f.start f.end (concat subs.now)) }
    ensures weighs { IfOk result (λ f. TakesBytes builder.old builder.new f.end
        (tree_least how.which (concat subs.now)) (tree_most how.which how.shrink (concat subs.now))) }
    ensures groups { IfOk result (λ _. builder.new.groups ≡
        with_groups_of how.which (length builder.old.starts) (concat subs.now) builder.old.groups) }
    ensures refused { IfErr result (λ e. FailsFragment how.which builder.old builder.new
        (room how.shrink (concat subs.now)) (concat subs.now) e) }
    ensures passed { IfErr result (λ e. ExceedsLimit builder.old (tree_most how.which how.shrink (concat subs.now)) e) }
{
    if subs.len() == 0 {
        let none = empty(builder)?;
        return Ok(none);
    }
    let reverse = builder.get_reverse();
    let begin = turned_position(reverse, 0, subs.len());
    let first = compile(builder, alloc, how, shared, &subs[begin])?;
    let mut end = first.end;
    for i in 1..subs.len() {
        let place = turned_position(reverse, i, subs.len());
        let next = compile(builder, alloc, how, shared, &subs[place])?;
        lead(builder, end, next.start)?;
        end = next.end;
    }
    Ok(Fragment {
        start: first.start,
        end,
    })
}

/// Whether each span of the tree has at least one byte, as far as its minimum length shows.
fn reads(x: &Hir) -> bool
    ensures { result ≡ is_above_zero (minimum_len x.now) }
{
    match x.properties().minimum_len() {
        None => false,
        Some(n) => n > 0,
    }
}

/// Any number of rounds. If each round consumes at least one byte, one choice is both start and end. If
/// rounds may consume nothing, such a loop would prefer other ends, so the fragment has a form of its own.
#[cycle(compile)]
fn zero_or_more(
    builder: &mut Builder,
    alloc: Global,
    how: How,
    shared: &mut Shared,
    x: &Hir,
    greedy: bool,
) -> Result<Fragment, BuildError>
    requires { IsReady how.which builder.old }
    ensures made { IfOk result (λ f. Makes builder.old builder.new f.start f.end (room how.shrink x.now + 3)) }
    ensures denotes { IfOk result (λ f. Does builder.old builder.new f.start f.end (repetition 0 None greedy x.now)) }
    ensures weighs { IfOk result (λ f. TakesBytes builder.old builder.new f.end
        (loop_bytes (is_above_zero (minimum_len x.now)) (tree_least how.which x.now))
        (loop_bytes (is_above_zero (minimum_len x.now)) (tree_most how.which how.shrink x.now))) }
    ensures groups { IfOk result (λ _. builder.new.groups ≡
        with_groups_of how.which (length builder.old.starts) (x.now) builder.old.groups) }
    ensures refused { IfErr result (λ e. FailsFragment how.which builder.old builder.new (room how.shrink x.now + 3) (x.now) e) }
    ensures passed { IfErr result (λ e. ExceedsLimit builder.old
        (loop_bytes (is_above_zero (minimum_len x.now)) (tree_most how.which how.shrink x.now)) e) }
    ensures form { IfOk result (λ f. (f.start == f.end) ≡ is_above_zero (minimum_len x.now)) }
{
    let some = reads(x);
    if !some {
        let any = zero_or_more_of_empty(builder, alloc, how, shared, x, greedy)?;
        return Ok(any);
    }
    let union = add_choice(builder, alloc, greedy)?;
    let body = compile(builder, alloc, how, shared, x)?;
    lead(builder, union, body.start)?;
    lead(builder, body.end, union)?;
    Ok(Fragment {
        start: union,
        end: union,
    })
}

/// Any number of rounds of a tree that may consume nothing.
#[cycle(compile)]
fn zero_or_more_of_empty(
    builder: &mut Builder,
    alloc: Global,
    how: How,
    shared: &mut Shared,
    x: &Hir,
    greedy: bool,
) -> Result<Fragment, BuildError>
    requires { IsReady how.which builder.old }
    ensures made { IfOk result (λ f. Makes builder.old builder.new f.start f.end (room how.shrink x.now + 3)) }
    ensures denotes { IfOk result (λ f. Does builder.old builder.new f.start f.end (repetition 0 None greedy x.now)) }
    ensures weighs { IfOk result (λ f. TakesBytes builder.old builder.new f.end
        (tree_least how.which x.now + 88) (tree_most how.which how.shrink x.now + 88)) }
    ensures groups { IfOk result (λ _. builder.new.groups ≡
        with_groups_of how.which (length builder.old.starts) (x.now) builder.old.groups) }
    ensures refused { IfErr result (λ e. FailsFragment how.which builder.old builder.new (room how.shrink x.now + 3) (x.now) e) }
    ensures passed { IfErr result (λ e. ExceedsLimit builder.old (tree_most how.which how.shrink x.now + 88) e) }
    ensures apart { IfOk result (λ f. (f.start == f.end) ≡ false) }
{
    let body = compile(builder, alloc, how, shared, x)?;
    let plus = add_choice(builder, alloc, greedy)?;
    lead(builder, body.end, plus)?;
    lead(builder, plus, body.start)?;
    let question = add_choice(builder, alloc, greedy)?;
    let empty = add_empty(builder)?;
    lead(builder, question, body.start)?;
    lead(builder, question, empty)?;
    lead(builder, plus, empty)?;
    Ok(Fragment {
        start: question,
        end: empty,
    })
}

/// At least one round.
#[cycle(compile)]
fn one_or_more(
    builder: &mut Builder,
    alloc: Global,
    how: How,
    shared: &mut Shared,
    x: &Hir,
    greedy: bool,
) -> Result<Fragment, BuildError>
    requires { IsReady how.which builder.old }
    ensures made { IfOk result (λ f. Makes builder.old builder.new f.start f.end (room how.shrink x.now + 1)) }
    ensures denotes { IfOk result (λ f. Does builder.old builder.new f.start f.end (repetition 1 None greedy x.now)) }
    ensures weighs { IfOk result (λ f. TakesBytes builder.old builder.new f.end
        (tree_least how.which x.now + 32) (tree_most how.which how.shrink x.now + 32)) }
    ensures groups { IfOk result (λ _. builder.new.groups ≡
        with_groups_of how.which (length builder.old.starts) (x.now) builder.old.groups) }
    ensures refused { IfErr result (λ e. FailsFragment how.which builder.old builder.new (room how.shrink x.now + 1) (x.now) e) }
    ensures passed { IfErr result (λ e. ExceedsLimit builder.old (tree_most how.which how.shrink x.now + 32) e) }
{
    let body = compile(builder, alloc, how, shared, x)?;
    let union = add_choice(builder, alloc, greedy)?;
    lead(builder, body.end, union)?;
    lead(builder, union, body.start)?;
    Ok(Fragment {
        start: body.start,
        end: union,
    })
}

/// Exactly `n` rounds, one after the other; `n` is at least 1.
#[cycle(compile)]
fn copies(
    builder: &mut Builder,
    alloc: Global,
    how: How,
    shared: &mut Shared,
    x: &Hir,
    n: u32,
) -> Result<Fragment, BuildError>
    requires ready { IsReady how.which builder.old }
    requires some { 1 ≤ n }
    ensures made { IfOk result (λ f. Makes builder.old builder.new f.start f.end (n * room how.shrink x.now)) }
    ensures denotes { IfOk result (λ f. DoesCopies builder.old builder.new f.start f.end n x.now) }
    ensures weighs { IfOk result (λ f. TakesBytes builder.old builder.new f.end
        (n * tree_least how.which x.now) (n * tree_most how.which how.shrink x.now)) }
    ensures groups { IfOk result (λ _. builder.new.groups ≡
        with_groups_of how.which (length builder.old.starts) (x.now) builder.old.groups) }
    ensures refused { IfErr result (λ e. FailsFragment how.which builder.old builder.new (n * room how.shrink x.now) (x.now) e) }
    ensures passed { IfErr result (λ e. ExceedsLimit builder.old (n * tree_most how.which how.shrink x.now) e) }
{
    let first = compile(builder, alloc, how, shared, x)?;
    let mut end = first.end;
    for _ in 1..n {
        let next = compile(builder, alloc, how, shared, x)?;
        lead(builder, end, next.start)?;
        end = next.end;
    }
    Ok(Fragment {
        start: first.start,
        end,
    })
}

/// At least `min` rounds.
#[cycle(compile)]
fn at_least(
    builder: &mut Builder,
    alloc: Global,
    how: How,
    shared: &mut Shared,
    x: &Hir,
    greedy: bool,
    min: u32,
) -> Result<Fragment, BuildError>
    requires { IsReady how.which builder.old }
    ensures made { IfOk result (λ f. Makes builder.old builder.new f.start f.end (room how.shrink (repetition min None greedy x.now))) }
    ensures denotes { IfOk result (λ f. Does builder.old builder.new f.start f.end (repetition min None greedy x.now)) }
    ensures weighs { IfOk result (λ f. TakesBytes builder.old builder.new f.end
        (tree_least how.which (repetition min None greedy x.now)) (tree_most how.which how.shrink (repetition min None greedy x.now))) }
    ensures groups { IfOk result (λ _. builder.new.groups ≡
        with_groups_of how.which (length builder.old.starts) (repetition min None greedy x.now) builder.old.groups) }
    ensures refused { IfErr result (λ e. FailsFragment how.which builder.old builder.new
        (room how.shrink (repetition min None greedy x.now)) (repetition min None greedy x.now) e) }
    ensures passed { IfErr result (λ e. ExceedsLimit builder.old (tree_most how.which how.shrink (repetition min None greedy x.now)) e) }
{
    if min == 0 {
        let any = zero_or_more(builder, alloc, how, shared, x, greedy)?;
        return Ok(any);
    }
    if min == 1 {
        let some = one_or_more(builder, alloc, how, shared, x, greedy)?;
        return Ok(some);
    }
    let prefix = copies(builder, alloc, how, shared, x, min - 1)?;
    let last = one_or_more(builder, alloc, how, shared, x, greedy)?;
    lead(builder, prefix.end, last.start)?;
    Ok(Fragment {
        start: prefix.start,
        end: last.end,
    })
}

/// One round, or the way to the exit.
#[cycle(compile)]
fn option(
    builder: &mut Builder,
    alloc: Global,
    how: How,
    shared: &mut Shared,
    x: &Hir,
    greedy: bool,
    exit: StateID,
) -> Result<Fragment, BuildError>
    requires ready { IsReady how.which builder.old }
    requires there { exit < length builder.old.drafts }
    ensures made { IfOk result (λ f. Makes builder.old builder.new f.start f.end (room how.shrink x.now + 1)) }
    ensures denotes { IfOk result (λ f. DoesOption builder.old builder.new f.start f.end exit greedy x.now) }
    ensures weighs { IfOk result (λ f. TakesBytes builder.old builder.new f.end
        (tree_least how.which x.now + 32) (tree_most how.which how.shrink x.now + 32)) }
    ensures groups { IfOk result (λ _. builder.new.groups ≡
        with_groups_of how.which (length builder.old.starts) (x.now) builder.old.groups) }
    ensures refused { IfErr result (λ e. FailsFragment how.which builder.old builder.new (room how.shrink x.now + 1) (x.now) e) }
    ensures passed { IfErr result (λ e. ExceedsLimit builder.old (tree_most how.which how.shrink x.now + 32) e) }
{
    let union = add_choice(builder, alloc, greedy)?;
    let body = compile(builder, alloc, how, shared, x)?;
    lead(builder, union, body.start)?;
    lead(builder, union, exit)?;
    Ok(Fragment {
        start: union,
        end: body.end,
    })
}

/// At most `most` rounds; `most` is at least 1.
#[cycle(compile)]
fn up_to(
    builder: &mut Builder,
    alloc: Global,
    how: How,
    shared: &mut Shared,
    x: &Hir,
    greedy: bool,
    most: u32,
) -> Result<Fragment, BuildError>
    requires ready { IsReady how.which builder.old }
    requires some { 1 ≤ most }
    ensures made { IfOk result (λ f. Makes builder.old builder.new f.start f.end (most * (room how.shrink x.now + 1) + 1)) }
    ensures denotes { IfOk result (λ f. Does builder.old builder.new f.start f.end (repetition 0 (Some most) greedy x.now)) }
    ensures weighs { IfOk result (λ f. TakesBytes builder.old builder.new f.end
        (rounds_bytes 0 most (tree_least how.which x.now)) (rounds_bytes 0 most (tree_most how.which how.shrink x.now))) }
    ensures groups { IfOk result (λ _. builder.new.groups ≡
        with_groups_of how.which (length builder.old.starts) (x.now) builder.old.groups) }
    ensures refused { IfErr result (λ e. FailsFragment how.which builder.old builder.new
        (most * (room how.shrink x.now + 1) + 1) (x.now) e) }
    ensures passed { IfErr result (λ e. ExceedsLimit builder.old (rounds_bytes 0 most (tree_most how.which how.shrink x.now)) e) }
{
    let exit = add_empty(builder)?;
    let first = option(builder, alloc, how, shared, x, greedy, exit)?;
    let mut end = first.end;
    for _ in 1..most {
        let next = option(builder, alloc, how, shared, x, greedy, exit)?;
        lead(builder, end, next.start)?;
        end = next.end;
    }
    lead(builder, end, exit)?;
    Ok(Fragment {
        start: first.start,
        end: exit,
    })
}

/// At least `min` rounds, and at most `most`; `min` is at least 1.
#[cycle(compile)]
fn owed_and_more(
    builder: &mut Builder,
    alloc: Global,
    how: How,
    shared: &mut Shared,
    x: &Hir,
    greedy: bool,
    min: u32,
    most: u32,
) -> Result<Fragment, BuildError>
    requires ready { IsReady how.which builder.old }
    requires some { 1 ≤ min }
    requires ordered { min ≤ most }
    ensures made { IfOk result (λ f. Makes builder.old builder.new f.start f.end
        (min * room how.shrink x.now + (most - min) * (room how.shrink x.now + 1) + 1)) }
    ensures denotes { IfOk result (λ f. Does builder.old builder.new f.start f.end (repetition min (Some most) greedy x.now)) }
    ensures weighs { IfOk result (λ f. TakesBytes builder.old builder.new f.end
        (rounds_bytes min most (tree_least how.which x.now)) (rounds_bytes min most (tree_most how.which how.shrink x.now))) }
    ensures groups { IfOk result (λ _. builder.new.groups ≡
        with_groups_of how.which (length builder.old.starts) (x.now) builder.old.groups) }
    ensures refused { IfErr result (λ e. FailsFragment how.which builder.old builder.new
        (min * room how.shrink x.now + (most - min) * (room how.shrink x.now + 1) + 1) (x.now) e) }
    ensures passed { IfErr result (λ e. ExceedsLimit builder.old (rounds_bytes min most (tree_most how.which how.shrink x.now)) e) }
{
    let prefix = copies(builder, alloc, how, shared, x, min)?;
    let exit = add_empty(builder)?;
    let mut end = prefix.end;
    for _ in min..most {
        let next = option(builder, alloc, how, shared, x, greedy, exit)?;
        lead(builder, end, next.start)?;
        end = next.end;
    }
    lead(builder, end, exit)?;
    Ok(Fragment {
        start: prefix.start,
        end: exit,
    })
}

/// At least so many rounds, and no more than the bound.
#[cycle(compile)]
fn between(
    builder: &mut Builder,
    alloc: Global,
    how: How,
    shared: &mut Shared,
    x: &Hir,
    greedy: bool,
    min: u32,
    most: u32,
) -> Result<Fragment, BuildError>
    requires ready { IsReady how.which builder.old }
    requires ordered { min ≤ most }
    ensures made { IfOk result (λ f. Makes builder.old builder.new f.start f.end
        (room how.shrink (repetition min (Some most) greedy x.now))) }
    ensures denotes { IfOk result (λ f. Does builder.old builder.new f.start f.end (repetition min (Some most) greedy x.now)) }
    ensures weighs { IfOk result (λ f. TakesBytes builder.old builder.new f.end
        (tree_least how.which (repetition min (Some most) greedy x.now))
        (tree_most how.which how.shrink (repetition min (Some most) greedy x.now))) }
    ensures groups { IfOk result (λ _. builder.new.groups ≡
        with_groups_of how.which (length builder.old.starts) (repetition min (Some most) greedy x.now) builder.old.groups) }
    ensures refused { IfErr result (λ e. FailsFragment how.which builder.old builder.new
        (room how.shrink (repetition min (Some most) greedy x.now)) (repetition min (Some most) greedy x.now) e) }
    ensures passed { IfErr result (λ e. ExceedsLimit builder.old (tree_most how.which how.shrink (repetition min (Some most) greedy x.now))
        e) }
{
    if most == 0 {
        let none = empty(builder)?;
        return Ok(none);
    }
    if min == most {
        let all = copies(builder, alloc, how, shared, x, min)?;
        return Ok(all);
    }
    if min > 0 {
        let some = owed_and_more(builder, alloc, how, shared, x, greedy, min, most)?;
        return Ok(some);
    }
    let any = up_to(builder, alloc, how, shared, x, greedy, most)?;
    Ok(any)
}

/// One of the parts, an earlier one preferred. If there are two parts or more, a union leads to them.
#[cycle(compile)]
fn alternatives(
    builder: &mut Builder,
    alloc: Global,
    how: How,
    shared: &mut Shared,
    subs: &[Hir],
) -> Result<Fragment, BuildError>
    requires { IsReady how.which builder.old }
    ensures made { IfOk result (λ f. Makes builder.old builder.new f.start f.end (room how.shrink (alternation subs.now))) }
    ensures denotes { IfOk result (λ f. Does builder.old builder.new f.start f.end (alternation subs.now)) }
    ensures weighs { IfOk result (λ f. TakesBytes builder.old builder.new f.end
        (tree_least how.which (alternation subs.now)) (tree_most how.which how.shrink (alternation subs.now))) }
    ensures groups { IfOk result (λ _. builder.new.groups ≡
        with_groups_of how.which (length builder.old.starts) (alternation subs.now) builder.old.groups) }
    ensures refused { IfErr result (λ e. FailsFragment how.which builder.old builder.new
        (room how.shrink (alternation subs.now)) (alternation subs.now) e) }
    ensures passed { IfErr result (λ e. ExceedsLimit builder.old (tree_most how.which how.shrink (alternation subs.now)) e) }
{
    if subs.len() == 0 {
        let none = fail(builder)?;
        return Ok(none);
    }
    if all_literals(subs) {
        let literals = compile_literals(builder, alloc, subs)?;
        return Ok(literals);
    }
    if subs.len() == 1 {
        let one = compile(builder, alloc, how, shared, &subs[0])?;
        return Ok(one);
    }
    let first = compile(builder, alloc, how, shared, &subs[0])?;
    let second = compile(builder, alloc, how, shared, &subs[1])?;
    let union = add_choice(builder, alloc, true)?;
    let end = add_empty(builder)?;
    lead(builder, union, first.start)?;
    lead(builder, first.end, end)?;
    lead(builder, union, second.start)?;
    lead(builder, second.end, end)?;
    for i in 2..subs.len() {
        let next = compile(builder, alloc, how, shared, &subs[i])?;
        lead(builder, union, next.start)?;
        lead(builder, next.end, end)?;
    }
    Ok(Fragment { start: union, end })
}
