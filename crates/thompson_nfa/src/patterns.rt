//! All patterns, and what precedes them.

ghost use Rattle.std.specs.Prelude.{◌≡◌, ◌≢◌, ◌<◌, ◌≤◌, ◌+◌, ◌&&◌, true, false, [], ◌∷◌, length, IfOk, IfErr, MatchResult};
ghost use Rattle.std.specs.List.{list_all};
ghost use Rattle.search_core.specs.Index.{greatest_index};
ghost use Rattle.nfa_core.specs.BuilderStates.{match_draft, union_draft, draft_at, is_sparse, sparse_draft};
ghost use Rattle.nfa_core.specs.Renaming.{past};
ghost use Rattle.thompson_nfa.specs.Added.{AddsDraft};
ghost use Rattle.thompson_nfa.specs.Assembled.{IsAssembled};
ghost use Rattle.thompson_nfa.specs.ByteRoom.{at_least, at_most};
ghost use Rattle.thompson_nfa.specs.Compiled.{TakesBytes, TakesInAll, sum_of_bytes, way_at};
ghost use Rattle.thompson_nfa.specs.Configs.{reverse_of, captures_of, is_any, is_shrunk};
ghost use Rattle.thompson_nfa.specs.ListBytes.{bytes_of_pattern, bytes_for, patterns_bytes, start_bytes};
ghost use Rattle.thompson_nfa.specs.Patterns.{HasAll, HasStart, LeadsToFurther, LeadsToPatterns, FailsPatterns, begun_with, room_for};
ghost use Rattle.thompson_nfa.specs.Refusals.{Stays, ExceedsLimit};
ghost use Rattle.thompson_nfa.specs.RefusedTrees.{Breaks};
ghost use Rattle.thompson_nfa.specs.Room.{room};
ghost use Rattle.thompson_nfa.specs.Compilations.{is_anchored_tree, bytes_needed};
ghost use Rattle.thompson_nfa.specs.Prefix.{HasPrefix};
ghost use Rattle.thompson_nfa.specs.declared.which_captures.WhichCaptures.TheVariants as which_captures;

use crate::compile::captured;
use crate::compiling::{How, Shared};
use crate::config::Config;
use crate::drafts::{add_choice, add_empty, add_fail, lead};
use hir_core::Hir;
use look_core::Look;
use nfa_core::{BuildError, Builder, Transition};
use search_core::StateID;
use std::alloc::Global;

/// The states in which searches start: anchored searches, which start at one offset alone, and all others.
#[derive(Clone, Copy)]
pub(crate) struct Starts {
    pub(crate) anchored: StateID,
    pub(crate) unanchored: StateID,
}

/// Adds a state in which the pattern that was begun matches.
#[tactic(auto, using(crate::proofs::Steps::StepLemmas::added_of, crate::proofs::Steps::StepLemmas::add_refused))]
fn add_match(builder: &mut Builder) -> Result<StateID, BuildError>
    requires { builder.old.is_open ≡ true }
    ensures { MatchResult result (λ id. AddsDraft builder.old builder.new id (match_draft (length builder.old.starts)) builder.old.groups)
        (λ e. Stays builder.old builder.new 1 24 e) }
{
    builder.add_match()
}

/// Compiles one pattern: its tree, with the whole match as group 0, and the state in which it matches. After
/// an error the pattern stays begun.
fn compile_pattern(
    builder: &mut Builder,
    alloc: Global,
    how: How,
    shared: &mut Shared,
    expr: &Hir,
) -> Result<StateID, BuildError>
    requires closed { builder.old.is_open ≡ false }
    requires forward { builder.old.reverse ≡ true → how.which ≡ which_captures.None }
    requires numbered { length builder.old.starts ≤ greatest_index }
    ensures has { IfOk result (λ start. HasAll how.which builder.old builder.new
        (start ∷ []) (expr.now ∷ []) (room how.shrink expr.now + 3) 4) }
    ensures refused { IfErr result (λ e. FailsPatterns how.which builder.old (room how.shrink expr.now + 3) (expr.now ∷ []) e) }
    ensures weighs { IfOk result (λ _. TakesInAll builder.old builder.new
        (bytes_of_pattern at_least how.which expr.now) (bytes_of_pattern (at_most how.shrink) how.which expr.now)) }
    ensures passed { IfErr result (λ e. ExceedsLimit builder.old (bytes_of_pattern (at_most how.shrink) how.which expr.now) e) }
{
    builder.start_pattern()?;
    let unnamed: Option<String> = None;
    let body = captured(builder, alloc, how, shared, 0, &unnamed, expr)?;
    let end = add_match(builder)?;
    lead(builder, body.end, end)?;
    builder.finish_pattern(body.start)?;
    Ok(body.start)
}

/// Compiles more patterns. The union leads to them after those to which it leads already.
fn compile_further(
    builder: &mut Builder,
    alloc: Global,
    how: How,
    shared: &mut Shared,
    union: StateID,
    exprs: &[Hir],
) -> Result<(), BuildError>
    requires closed { builder.old.is_open ≡ false }
    requires forward { builder.old.reverse ≡ true → how.which ≡ which_captures.None }
    requires numbered { length builder.old.starts + length exprs.now ≤ greatest_index + 1 }
    requires there { union < length builder.old.drafts }
    requires kind { is_sparse (draft_at builder.old.drafts union) ≡ false }
    requires way { way_at builder.old union ≡ 4 }
    ensures has { IfOk result (λ _. LeadsToFurther how.which union builder.old builder.new exprs.now (room_for how.shrink exprs.now)) }
    ensures refused { IfErr result (λ e. FailsPatterns how.which builder.old (room_for how.shrink exprs.now) exprs.now e) }
    ensures weighs { IfOk result (λ _. TakesInAll builder.old builder.new
        (bytes_for at_least how.which exprs.now) (bytes_for (at_most how.shrink) how.which exprs.now)) }
    ensures passed { IfErr result (λ e. ExceedsLimit builder.old (bytes_for (at_most how.shrink) how.which exprs.now) e) }
{
    for expr in exprs {
        let start = compile_pattern(builder, alloc, how, shared, expr)?;
        lead(builder, union, start)?;
    }
    Ok(())
}

/// Compiles all patterns, and returns the state that leads to them, the first ones preferred. That is the
/// only one's start, a union, or a state that leads nowhere.
fn compile_patterns(
    builder: &mut Builder,
    alloc: Global,
    how: How,
    shared: &mut Shared,
    exprs: &[Hir],
) -> Result<StateID, BuildError>
    requires closed { builder.old.is_open ≡ false }
    requires forward { builder.old.reverse ≡ true → how.which ≡ which_captures.None }
    requires numbered { length builder.old.starts + length exprs.now ≤ greatest_index + 1 }
    ensures has { IfOk result (λ c. LeadsToPatterns how.which builder.old builder.new c exprs.now (room_for how.shrink exprs.now + 1)) }
    ensures refused { IfErr result (λ e. FailsPatterns how.which builder.old (room_for how.shrink exprs.now + 1) exprs.now e) }
    ensures weighs { IfOk result (λ _. TakesInAll builder.old builder.new
        (patterns_bytes at_least how.which exprs.now) (patterns_bytes (at_most how.shrink) how.which exprs.now)) }
    ensures passed { IfErr result (λ e. ExceedsLimit builder.old (patterns_bytes (at_most how.shrink) how.which exprs.now) e) }
{
    let Some((first, rest)) = exprs.split_first() else {
        let none = add_fail(builder)?;
        return Ok(none);
    };
    let first = compile_pattern(builder, alloc, how, shared, first)?;
    let Some((second, rest)) = rest.split_first() else {
        return Ok(first);
    };
    let second = compile_pattern(builder, alloc, how, shared, second)?;
    let union = add_choice(builder, alloc, true)?;
    lead(builder, union, first)?;
    lead(builder, union, second)?;
    compile_further(builder, alloc, how, shared, union, rest)?;
    Ok(union)
}

/// Adds what precedes the patterns.
fn add_start(builder: &mut Builder, alloc: Global, anchored: bool) -> Result<StateID, BuildError>
    ensures has { MatchResult result (λ u. HasStart anchored builder.old builder.new u) (λ e. Breaks builder.old builder.new 3 e) }
    ensures weighs { IfOk result (λ u. TakesBytes builder.old builder.new u (start_bytes anchored) (start_bytes anchored)) }
    ensures passed { IfErr result (λ e. ExceedsLimit builder.old (start_bytes anchored) e) }
{
    if anchored {
        let start = add_empty(builder)?;
        return Ok(start);
    }
    let start = add_prefix(builder, alloc)?;
    Ok(start)
}

/// Compiles all patterns, and what precedes them. An anchored search starts in the state that leads to the
/// patterns.
pub(crate) fn compile_all(
    builder: &mut Builder,
    alloc: Global,
    shared: &mut Shared,
    config: &Config,
    exprs: &[Hir],
) -> Result<Starts, BuildError>
    requires begun { builder.old ≡ begun_with config.now }
    requires captures { (reverse_of config.now && is_any (captures_of config.now)) ≡ false }
    requires numbered { length exprs.now ≤ greatest_index + 1 }
    ensures assembled { IfOk result (λ s. IsAssembled config.now exprs.now builder.new s.anchored s.unanchored) }
    ensures apart { IfOk result (λ s. past builder.new.drafts s.anchored ≢ s.unanchored) }
    ensures refused { IfErr result (λ e. FailsPatterns (captures_of config.now) builder.old
        (room_for (is_shrunk config.now) exprs.now + 4) exprs.now e) }
    ensures passed { IfErr result (λ e. ExceedsLimit builder.old (bytes_needed (at_most (is_shrunk config.now)) config.now exprs.now) e) }
    ensures needed { IfOk result (λ _. bytes_needed at_least config.now exprs.now ≤ sum_of_bytes builder.new) }
{
    let which = config.get_which_captures();
    let shrink = config.is_shrunk();
    let how = How { which, shrink };
    let anchored = all_anchored(exprs, config.get_reverse());
    let start = add_start(builder, alloc, anchored)?;
    let patterns = compile_patterns(builder, alloc, how, shared, exprs)?;
    lead(builder, start, patterns)?;
    Ok(Starts {
        anchored: patterns,
        unanchored: start,
    })
}

// ---- What precedes the patterns, for a search that may begin at each offset.

/// Whether each tree's spans begin, or end if the automaton reads in reverse, at the haystack's edge.
pub(crate) fn all_anchored(exprs: &[Hir], reverse: bool) -> bool
    ensures { result ≡ list_all (is_anchored_tree reverse) exprs.now }
{
    for expr in exprs {
        if !is_anchored(expr, reverse) {
            return false;
        }
    }
    true
}

/// Whether the tree's spans begin, or end if the automaton reads in reverse, at the haystack's edge, as far
/// as its looks show.
fn is_anchored(expr: &Hir, reverse: bool) -> bool
    ensures { result ≡ is_anchored_tree reverse expr.now }
{
    let properties = expr.properties();
    if reverse {
        return properties.look_set_suffix().contains(Look::End);
    }
    properties.look_set_prefix().contains(Look::Start)
}

/// Adds a state that reads any byte.
#[tactic(auto, using(crate::proofs::Steps::StepLemmas::added_of, crate::proofs::Steps::StepLemmas::add_refused))]
fn add_any_byte(builder: &mut Builder, alloc: Global, next: StateID) -> Result<StateID, BuildError>
    ensures { MatchResult result (λ id. AddsDraft builder.old builder.new id (sparse_draft ((0, 255, next) ∷ [])) builder.old.groups)
        (λ e. Stays builder.old builder.new 1 32 e) }
{
    let mut transitions = Vec::new(alloc);
    transitions.push(Transition {
        start: 0,
        end: u8::MAX,
        next,
    })?;
    builder.add_sparse(transitions)
}

/// Adds the state of the unanchored prefix, which goes past any bytes. At each offset it goes on to the state
/// to which it is led later.
pub(crate) fn add_prefix(builder: &mut Builder, alloc: Global) -> Result<StateID, BuildError>
    ensures has { MatchResult result (λ u. HasPrefix builder.old builder.new u) (λ e. Breaks builder.old builder.new 3 e) }
    ensures weighs { IfOk result (λ u. TakesBytes builder.old builder.new u 88 88) }
    ensures passed { IfErr result (λ e. ExceedsLimit builder.old 88 e) }
{
    let union = add_choice(builder, alloc, false)?;
    let end = add_empty(builder)?;
    let any = add_any_byte(builder, alloc, end)?;
    lead(builder, union, any)?;
    lead(builder, end, union)?;
    Ok(union)
}
