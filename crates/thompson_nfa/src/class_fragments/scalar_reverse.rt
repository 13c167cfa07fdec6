//! Fragments of classes of scalars for automata that read in reverse: sequences of byte ranges that begin
//! alike share states.

ghost use Rattle.std.specs.Prelude.{◌≡◌, ◌<◌, ◌≤◌, ◌+◌, ◌*◌, true, false, length, map, take, All, IfOk, IfErr, IsTrue};
ghost use Rattle.hir_core.specs.BySequences.{sequences_of};
ghost use Rattle.hir_core.specs.Facts.{count, is_ascending};
ghost use Rattle.hir_core.specs.Sequences.{bytes_of, ranges_of_sequence, utf8_sequences};
ghost use Rattle.hir_core.specs.Tree.{char_class};
ghost use Rattle.nfa_core.specs.BuilderStates.{draft_at, is_sparse};
ghost use Rattle.thompson_nfa.specs.ByteRoom.{sequence_bytes};
ghost use Rattle.thompson_nfa.specs.Compiled.{Makes, Weighs, Does};
ghost use Rattle.thompson_nfa.specs.Refusals.{Stays, Quits, ExceedsLimit};
ghost use Rattle.thompson_nfa.specs.SharedSuffixes.{key_of, AddsRange, SharesRange, SharesRanges, TakesWays, AddsSequence, AddsSequences};
ghost use Rattle.thompson_nfa.specs.SlotTables.{is_ready};

use crate::class_fragments::utf8_suffix_map::{Utf8SuffixKey, Utf8SuffixMap};
use crate::compiling::Fragment;
use crate::drafts::{add_choice, add_empty, lead};
use hir_core::{Utf8Range, Utf8Sequence, Utf8Sequences};
use nfa_core::{BuildError, Builder, Transition};
use search_core::StateID;
use std::alloc::Global;

/// Adds the state of the key, and keeps it in the slot at `hash`.
#[tactic(auto, using(crate::proofs::Steps::StepLemmas::add_refused))]
fn add_key(
    builder: &mut Builder,
    suffixes: &mut Utf8SuffixMap,
    key: Utf8SuffixKey,
    hash: usize,
) -> Result<StateID, BuildError>
    requires ready { IsTrue (is_ready suffixes.old) }
    requires below { hash < suffixes.old.capacity }
    requires rising { key.start ≤ key.end }
    ensures added { IfOk result (λ id. AddsRange builder.old builder.new suffixes.old suffixes.new key.from (key.start, key.end) id) }
    ensures capacity { suffixes.new.capacity ≡ suffixes.old.capacity }
    ensures refused { IfErr result (λ e. Stays builder.old builder.new 1 24 e) }
{
    let id = builder.add_range(Transition {
        start: key.start,
        end: key.end,
        next: key.from,
    })?;
    suffixes.set(key, hash, id);
    Ok(id)
}

/// The key under which a state is kept that reads a byte of the range and leads to `next`.
fn key_of(next: StateID, range: Utf8Range) -> Utf8SuffixKey
    ensures { result ≡ key_of next (bytes_of range) }
{
    Utf8SuffixKey {
        from: next,
        start: range.start,
        end: range.end,
    }
}

/// A state that reads a byte of the range and leads to `next`: one that is kept, or otherwise a new one.
fn share_range(
    builder: &mut Builder,
    suffixes: &mut Utf8SuffixMap,
    next: StateID,
    range: Utf8Range,
) -> Result<StateID, BuildError>
    requires ready { IsTrue (is_ready suffixes.old) }
    requires places { 0 < suffixes.old.capacity }
    requires rising { range.start ≤ range.end }
    ensures shared { IfOk result (λ id. SharesRange builder.old builder.new suffixes.old suffixes.new next (bytes_of range) id) }
    ensures capacity { suffixes.new.capacity ≡ suffixes.old.capacity }
    ensures refused { IfErr result (λ e. Stays builder.old builder.new 1 24 e) }
{
    let key = key_of(next, range);
    let hash = suffixes.hash(&key);
    if let Some(id) = suffixes.get(&key, hash) {
        return Ok(id);
    }
    let id = add_key(builder, suffixes, key, hash)?;
    Ok(id)
}

/// A new state that reads a byte of a sequence's last range and leads to `next`. The map keeps it, and has
/// none for it yet: no sequence is another one, or the beginning of another.
fn last_range(
    builder: &mut Builder,
    suffixes: &mut Utf8SuffixMap,
    next: StateID,
    range: Utf8Range,
) -> Result<StateID, BuildError>
    requires ready { IsTrue (is_ready suffixes.old) }
    requires places { 0 < suffixes.old.capacity }
    requires rising { range.start ≤ range.end }
    ensures added { IfOk result (λ id. AddsRange builder.old builder.new suffixes.old suffixes.new next (bytes_of range) id) }
    ensures capacity { suffixes.new.capacity ≡ suffixes.old.capacity }
    ensures refused { IfErr result (λ e. Stays builder.old builder.new 1 24 e) }
{
    let key = key_of(next, range);
    let hash = suffixes.hash(&key);
    let id = add_key(builder, suffixes, key, hash)?;
    Ok(id)
}

/// States for the first `many` ranges. Each leads to the state of the range before it, and the first to the
/// end.
fn share_ranges(
    builder: &mut Builder,
    suffixes: &mut Utf8SuffixMap,
    ranges: &[Utf8Range],
    many: usize,
    end: StateID,
) -> Result<StateID, BuildError>
    requires ready { IsTrue (is_ready suffixes.old) }
    requires places { 0 < suffixes.old.capacity }
    requires within { many ≤ length ranges.now }
    requires rising { All (λ r. r.0 ≤ r.1) (map bytes_of ranges.now) }
    ensures shared { IfOk result (λ id. SharesRanges end builder.old suffixes.old builder.new suffixes.new id
        (take many (map bytes_of ranges.now))) }
    ensures capacity { suffixes.new.capacity ≡ suffixes.old.capacity }
    ensures refused { IfErr result (λ e. Quits builder.old builder.new many e) }
    ensures passed { IfErr result (λ e. ExceedsLimit builder.old (24 * many) e) }
{
    let mut next = end;
    for place in 0..many {
        next = share_range(builder, suffixes, next, ranges[place])?;
    }
    Ok(next)
}

/// Adds a way of the choice to the states of the sequence, which lead to the end.
fn add_sequence_reverse(
    builder: &mut Builder,
    suffixes: &mut Utf8SuffixMap,
    sequence: &Utf8Sequence,
    choice: StateID,
    end: StateID,
) -> Result<(), BuildError>
    requires ready { IsTrue (is_ready suffixes.old) }
    requires places { 0 < suffixes.old.capacity }
    requires choice { TakesWays builder.old choice }
    requires some { 1 ≤ length (ranges_of_sequence sequence.now) }
    requires few { length (ranges_of_sequence sequence.now) ≤ 4 }
    requires rising { All (λ r. r.0 ≤ r.1) (ranges_of_sequence sequence.now) }
    ensures added { IfOk result (λ _. AddsSequence builder.old builder.new suffixes.old suffixes.new choice end
        (ranges_of_sequence sequence.now)) }
    ensures capacity { suffixes.new.capacity ≡ suffixes.old.capacity }
    ensures refused { IfErr result (λ e. Quits builder.old builder.new 4 e) }
    ensures passed { IfErr result (λ e. ExceedsLimit builder.old (24 * length (ranges_of_sequence sequence.now) + 4) e) }
{
    let ranges = sequence.as_slice();
    let last = ranges.len() - 1;
    let next = share_ranges(builder, suffixes, ranges, last, end)?;
    let first = last_range(builder, suffixes, next, ranges[last])?;
    lead(builder, choice, first)?;
    Ok(())
}

/// Adds a way of the choice for each sequence of the characters from `first` to `last`.
fn add_sequences_reverse(
    builder: &mut Builder,
    suffixes: &mut Utf8SuffixMap,
    first: char,
    last: char,
    choice: StateID,
    end: StateID,
) -> Result<(), BuildError>
    requires ready { IsTrue (is_ready suffixes.old) }
    requires places { 0 < suffixes.old.capacity }
    requires choice { choice < length builder.old.drafts }
    requires kind { is_sparse (draft_at builder.old.drafts choice) ≡ false }
    ensures added { IfOk result (λ _. AddsSequences choice end builder.old suffixes.old builder.new suffixes.new
        (utf8_sequences first last)) }
    ensures capacity { suffixes.new.capacity ≡ suffixes.old.capacity }
    ensures refused { IfErr result (λ e. Quits builder.old builder.new (4 * length (utf8_sequences first last)) e) }
    ensures passed { IfErr result (λ e. ExceedsLimit builder.old (sequence_bytes (utf8_sequences first last)) e) }
{
    for sequence in Utf8Sequences::new(first, last) {
        add_sequence_reverse(builder, suffixes, &sequence, choice, end)?;
    }
    Ok(())
}

/// A choice of the sequences of all ranges, which all lead to one common end, for a builder that reads in
/// reverse. Sequences that begin alike share the states of their beginning, as far as the map keeps them.
///
/// As `regex_automata::nfa::thompson::compiler::Compiler::c_unicode_class_reverse_with_suffix`.
pub(crate) fn compile_scalars_reverse(
    builder: &mut Builder,
    alloc: Global,
    suffixes: &mut Utf8SuffixMap,
    ranges: &[(char, char)],
) -> Result<Fragment, BuildError>
    requires ascending { is_ascending ranges.now ≡ true }
    requires reverse { builder.old.reverse ≡ true }
    requires places { 0 < suffixes.old.capacity }
    ensures made { IfOk result (λ f. Makes builder.old builder.new f.start f.end (count (char_class ranges.now))) }
    ensures does { IfOk result (λ f. Does builder.old builder.new f.start f.end (char_class ranges.now)) }
    ensures weighs { IfOk result (λ _. Weighs builder.old builder.new (48 + sequence_bytes (sequences_of ranges.now))) }
    ensures passed { IfErr result (λ e. ExceedsLimit builder.old (48 + sequence_bytes (sequences_of ranges.now)) e) }
    ensures groups { IfOk result (λ _. builder.new.groups ≡ builder.old.groups) }
    ensures capacity { suffixes.new.capacity ≡ suffixes.old.capacity }
    ensures refused { IfErr result (λ e. Quits builder.old builder.new (count (char_class ranges.now)) e) }
{
    suffixes.clear()?;
    let choice = add_choice(builder, alloc, true)?;
    let end = add_empty(builder)?;
    for range in ranges {
        add_sequences_reverse(builder, suffixes, range.0, range.1, choice, end)?;
    }
    Ok(Fragment { start: choice, end })
}
