//! Finds the groups of a match of one pattern.
ghost use Rattle.std.proofs.Props.{props};
ghost use Rattle.std.specs.Prelude.{◌≡◌, ℕ, ◌+◌, ◌-◌, ◌≤◌, ◌<◌, All, List, Some, None, length, map, option_map, vec_len, IfErr, IfOk, IfSome};
ghost use Rattle.regex_syntax.specs.declared.Config.{Config as TextConfig};
ghost use Rattle.regex_hir.specs.Re.{Re, Trace, accept, attempt};
ghost use Rattle.regex_tagged.specs.Valid.{IsFor};
ghost use Rattle.regex_vm.specs.Found.{first_match, span, group_cells};
ghost use Rattle.group_finder.specs.Slots.{slots_of};
ghost use Rattle.group_finder.specs.Engines.{HasRoomFor, IsAutomatonOf, automaton_bytes, counted, offsets_of, pikevm_bytes};
ghost use Rattle.group_finder.specs.Layouts.{IsLaidBy, layout_bytes};
ghost use Rattle.group_finder.specs.Errors.{IsNewError};

use crate::errors::{NewError, allowed, cause_of};
use crate::layout::layout_of;
use crate::slots::{clear, decode, write_ends, write_start};
use crate::steps::{Step, slots_along};
use regex_compile::compile;
use regex_dfa::Dfa;
use regex_nfa::{BuildError, Nfa};
use regex_syntax::{Config, Parsed};
use regex_tagged::Tagged;
use regex_vm::PikeVm;
use std::alloc::{AllocError, Global};

/// Finds the groups of a match of one pattern. Its tables grow while it searches.
///
/// If the pattern has a layout, the slots of a match whose span is known need no search. Each group then starts and ends at an offset that
/// is given by a count of bytes, a run of bytes of a set or the end of the match.
///
/// Otherwise the toolchain's tagged automaton searches. It declines spans above 4 GiB and very long ones, and it gives up for good if its
/// tables had to be dropped several times before they paid off. Then the toolchain's PikeVM searches, which is made by the first search
/// that needs it.
#[derive(Drop)]
pub struct GroupFinder {
    pub(crate) dfa: Dfa,
    tagged: Tagged,
    pikevm: Option<PikeVm>,
    pub(crate) layout: Option<Vec<Step>>,
    ghost tagged_runs: { IsFor tagged dfa },
    ghost pikevm_runs: { IfSome pikevm (HasRoomFor dfa.nfa) } by { Prim.hlevel props },
}

/// The elements of a haystack are bytes, below 256.
pub(crate) fn see_bytes(bytes: &[u8])
    ensures { All (λ byte. byte < 256) bytes.now }
{}

/// The match that starts at an offset and consumes no byte from another one on, by the PikeVM.
#[cold]
#[inline(never)]
fn find_by_pikevm(
    alloc: Global,
    nfa: &Nfa,
    pikevm: &mut Option<PikeVm>,
    haystack: &[u8],
    start: usize,
    stop: usize,
    cells: &mut [usize],
) -> Result<Option<(usize, usize)>, AllocError>
    requires room { IfSome pikevm.old (HasRoomFor nfa.now) }
    requires ordered { (start ≤ stop) × (stop ≤ length haystack.now) }
    requires width { length cells.old ≤ nfa.now.slot_count - 2 }
    ensures span { IfOk result (λ found. found ≡ option_map span (first_match nfa.now haystack.now stop start start)) }
    ensures groups { IfOk result (λ _. IfSome (first_match nfa.now haystack.now stop start start)
        (λ m. cells.new ≡ group_cells m (length cells.old))) }
    ensures room { IfSome pikevm.new (HasRoomFor nfa.now) }
{
    let mut vm = match pikevm.take() {
        Some(vm) => vm,
        None => PikeVm::new(alloc, nfa)?,
    };
    let found = vm.find(nfa, haystack, start, start, stop, cells);
    *pikevm = Some(vm);
    Ok(found)
}

/// The match that starts at an offset and consumes no byte from another one on, by either engine.
#[inline(always)]
fn find_cells(
    alloc: Global,
    dfa: &Dfa,
    tagged: &mut Tagged,
    pikevm: &mut Option<PikeVm>,
    haystack: &[u8],
    start: usize,
    stop: usize,
    cells: &mut [usize],
) -> Result<Option<(usize, usize)>, AllocError>
    requires own { IsFor tagged.old dfa.now }
    requires room { IfSome pikevm.old (HasRoomFor dfa.now.nfa) }
    requires ordered { (start ≤ stop) × (stop ≤ length haystack.now) }
    requires width { length cells.old ≤ dfa.now.nfa.slot_count - 2 }
    ensures span { IfOk result (λ found. found ≡ option_map span (first_match dfa.now.nfa haystack.now stop start start)) }
    ensures groups { IfOk result (λ _. IfSome (first_match dfa.now.nfa haystack.now stop start start)
        (λ m. cells.new ≡ group_cells m (length cells.old))) }
    ensures own { IsFor tagged.new dfa.now }
    ensures room { IfSome pikevm.new (HasRoomFor dfa.now.nfa) }
{
    match tagged.find_at(dfa, haystack, start, stop, cells) {
        Ok(found) => Ok(found),
        Err(_) => find_by_pikevm(alloc, &dfa.nfa, pikevm, haystack, start, stop, cells),
    }
}

/// That match, with the offsets of its groups.
#[inline(always)]
fn find_offsets(
    alloc: Global,
    dfa: &Dfa,
    tagged: &mut Tagged,
    pikevm: &mut Option<PikeVm>,
    haystack: &[u8],
    start: usize,
    stop: usize,
    offsets: &mut [usize],
) -> Result<Option<(usize, usize)>, AllocError>
    requires own { IsFor tagged.old dfa.now }
    requires room { IfSome pikevm.old (HasRoomFor dfa.now.nfa) }
    requires ordered { (start ≤ stop) × (stop ≤ length haystack.now) }
    requires width { length offsets.old ≤ dfa.now.nfa.slot_count - 2 }
    ensures span { IfOk result (λ found. found ≡ option_map span (first_match dfa.now.nfa haystack.now stop start start)) }
    ensures groups { IfOk result (λ _. IfSome (first_match dfa.now.nfa haystack.now stop start start)
        (λ m. offsets.new ≡ offsets_of m (length offsets.old))) }
    ensures own { IsFor tagged.new dfa.now }
    ensures room { IfSome pikevm.new (HasRoomFor dfa.now.nfa) }
{
    let found = find_cells(alloc, dfa, tagged, pikevm, haystack, start, stop, offsets)?;
    decode(offsets);
    Ok(found)
}

/// The end of that match, with the slots of the match as far as there is room.
#[inline(always)]
fn find_slots(
    alloc: Global,
    dfa: &Dfa,
    tagged: &mut Tagged,
    pikevm: &mut Option<PikeVm>,
    haystack: &[u8],
    start: usize,
    stop: usize,
    slots: &mut [usize],
) -> Result<Option<usize>, AllocError>
    requires own { IsFor tagged.old dfa.now }
    requires room { IfSome pikevm.old (HasRoomFor dfa.now.nfa) }
    requires ordered { (start ≤ stop) × (stop ≤ length haystack.now) }
    ensures end { IfOk result (λ o. o ≡ option_map (λ m. m.trace.end) (first_match dfa.now.nfa haystack.now stop start start)) }
    ensures slots { IfOk result (λ _. IfSome (first_match dfa.now.nfa haystack.now stop start start)
        (λ m. All (λ w. w.0 < dfa.now.nfa.slot_count) m.trace.writes → slots.new ≡ slots_of m (length slots.old))) }
    ensures own { IsFor tagged.new dfa.now }
    ensures room { IfSome pikevm.new (HasRoomFor dfa.now.nfa) }
{
    if slots.len() < 2 {
        let found = find_offsets(alloc, dfa, tagged, pikevm, haystack, start, stop, &mut [])?;
        return Ok(write_start(found, slots));
    }
    let (ends, offsets) = slots.split_at_mut(2);
    let room = offsets.len().min(dfa.nfa.slot_count as usize - 2);
    let (own, rest) = offsets.split_at_mut(room);
    let found = find_offsets(alloc, dfa, tagged, pikevm, haystack, start, stop, own)?;
    clear(rest);
    Ok(write_ends(found, ends))
}

/// The automaton of a pattern, and its layout if it has one.
fn dfa_of(
    alloc: Global,
    text: &str,
    config: &Config,
    size_limit: usize,
) -> Result<(Dfa, Option<Vec<Step>>), NewError>
    ensures made { IfOk result (λ d. IsAutomatonOf config.now text.now d.0.nfa) }
    ensures laid { IfOk result (λ d. IfSome d.1 (λ steps. IsLaidBy config.now text.now steps.items)) }
    ensures refused { IfErr result (IsNewError config.now text.now size_limit) }
{
    let Parsed { hir, names } = match regex_syntax::parse(alloc, text, config) {
        Ok(parsed) => parsed,
        Err(error) => return Err(cause_of(error)),
    };
    let most = allowed(size_limit);
    let Ok(groups) = u32::try_from(names.len()) else {
        return Err(NewError::TooLarge(most));
    };
    let nfa = match compile(alloc, &hir, groups, most) {
        Ok(nfa) => nfa,
        Err(regex_compile::Error::OutOfMemory) => return Err(NewError::NoMemory),
        Err(regex_compile::Error::TooBig) => return Err(NewError::TooLarge(most)),
        Err(regex_compile::Error::Malformed) => unreachable!(),
    };
    let Ok(layout) = layout_of(alloc, &hir) else {
        return Err(NewError::NoMemory);
    };
    match Dfa::new(alloc, nfa) {
        Ok(dfa) => Ok((dfa, layout)),
        Err(BuildError::OutOfMemory) => Err(NewError::NoMemory),
        Err(BuildError::Malformed) => unreachable!(),
    }
}

/// The bytes of an automaton, and of a PikeVM for it if there is one.
fn bytes_of(nfa: &Nfa, pikevm: bool) -> usize
    ensures { result ≡ counted (automaton_bytes nfa.now + pikevm_bytes nfa.now pikevm) }
{
    let states = nfa.states.len();
    let usage = (16 * states).saturating_add(nfa.transitions.len().saturating_mul(8));
    if !pikevm {
        return usage;
    }
    let each = 16 * (nfa.slot_count as usize - 2) + 60;
    usage.saturating_add(states.saturating_mul(each))
}

/// The bytes of a layout, if there is one.
fn layout_bytes_of(layout: &Option<Vec<Step>>) -> usize
    ensures { result ≡ counted (layout_bytes layout.now) }
{
    match layout {
        Some(steps) => steps.len().saturating_mul(264),
        None => 0,
    }
}

impl GroupFinder {
    ghost use Rattle.std.specs.Prelude.{IfNone, false, replicate, true};
    ghost use Rattle.group_finder.specs.Slots.{no_offset};
    ghost use Rattle.group_finder.specs.Patterns.{IsParsedAs};
    ghost use Rattle.group_finder.specs.Engines.{counted};
    ghost use Rattle.group_finder.specs.Groups.{IsFinderOf, HasSlots, automaton_of, finder_bytes};

    /// Makes the finder of a pattern. The tables of its automaton take at most `size_limit` bytes, and at most 16 GiB.
    pub fn new(
        alloc: Global,
        text: &str,
        config: &Config,
        size_limit: usize,
    ) -> Result<GroupFinder, NewError>
        ensures made { IfOk result (IsFinderOf config.now text.now) }
        ensures refused { IfErr result (IsNewError config.now text.now size_limit) }
    {
        let (dfa, layout) = match dfa_of(alloc, text, config, size_limit) {
            Ok(made) => made,
            Err(error) => return Err(error),
        };
        let tagged = match Tagged::new(alloc, &dfa) {
            Ok(tagged) => tagged,
            Err(_) => return Err(NewError::NoMemory),
        };
        Ok(GroupFinder {
            dfa,
            tagged,
            pikevm: None,
            layout,
        })
    }

    /// The bytes that the finder takes, as far as they are counted. The automaton of the pattern takes 16 for each state and 8 for each
    /// transition. The PikeVM, if a search needed it, takes for each state 60, and 16 for each slot after the first two. A layout takes 264
    /// for each step. The greatest number stands for any number above it.
    ///
    /// The tables of the toolchain's tagged automaton aren't counted, since it doesn't report them. It drops them at some 8 MiB.
    pub fn memory_usage(&self) -> usize
        ensures { result ≡ counted (finder_bytes self.now) }
    {
        bytes_of(&self.dfa.nfa, self.pikevm.is_some()).saturating_add(layout_bytes_of(&self.layout))
    }

    /// Finds the match that the pattern has from an offset, and returns its end. `stop` is an offset at or after this end: the end itself, if
    /// it is known, or else the length of the haystack.
    ///
    /// `slots` get the offsets of the groups: the start and end of group n in the slots 2n and 2n + 1, or [`NO_OFFSET`](crate::NO_OFFSET) in
    /// both if it took no part. Group 0 is the match. Slots after the last group get that too, as do all if there is no match or no memory.
    #[inline]
    pub fn groups_at(
        &mut self,
        alloc: Global,
        haystack: &[u8],
        start: usize,
        stop: usize,
        slots: &mut [usize],
    ) -> Result<Option<usize>, AllocError>
        requires ordered { (start ≤ stop) × (stop ≤ length haystack.now) }
        ensures found { (config : TextConfig) (text : List ℕ) (a : Re) → IsFinderOf config text self.old → IsParsedAs config text a →
            (t : Trace) → attempt haystack.now a accept start ≡ Some t → t.end ≤ stop → IfOk result (λ o. HasSlots start t o slots.new) }
        ensures none { (config : TextConfig) (text : List ℕ) (a : Re) → IsFinderOf config text self.old → IsParsedAs config text a →
            attempt haystack.now a accept start ≡ None → stop ≡ length haystack.now → IfOk result (λ o. o ≡ None) }
        ensures cleared { IfOk result (λ o. IfNone o (slots.new ≡ replicate (length slots.old) no_offset)) }
        ensures refused { IfErr result (λ _. slots.new ≡ replicate (length slots.old) no_offset) }
        ensures own { (config : TextConfig) (text : List ℕ) → IsFinderOf config text self.old → IsFinderOf config text self.new }
        ensures same { automaton_of self.new ≡ automaton_of self.old }
    {
        see_bytes(haystack);
        match find_slots(
            alloc,
            &self.dfa,
            &mut self.tagged,
            &mut self.pikevm,
            haystack,
            start,
            stop,
            slots,
        ) {
            Ok(Some(end)) => Ok(Some(end)),
            Ok(None) => {
                clear(slots);
                Ok(None)
            }
            Err(error) => {
                clear(slots);
                Err(error)
            }
        }
    }

    /// Writes the slots of the match that the pattern has from an offset up to its end, if the pattern has a layout: then no search is needed.
    /// Returns whether it has one. Otherwise the slots are unchanged. `end` is the end of this match.
    #[inline(always)]
    pub fn write_by_layout(
        &self,
        haystack: &[u8],
        start: usize,
        end: usize,
        slots: &mut [usize],
    ) -> bool
        requires ordered { (start ≤ end) × (end ≤ length haystack.now) }
        ensures written { result ≡ true → (config : TextConfig) (text : List ℕ) (a : Re) → IsFinderOf config text self.now →
            IsParsedAs config text a → (t : Trace) → attempt haystack.now a accept start ≡ Some t → t.end ≡ end →
            slots.new ≡ slots_of (record { start = start; trace = t }) (length slots.old) }
        ensures kept { result ≡ false → slots.new ≡ slots.old }
    {
        see_bytes(haystack);
        let Some(steps) = &self.layout else {
            return false;
        };
        slots_along(steps, haystack, start, end, slots);
        true
    }

    /// Writes the slots of the match that the pattern has from an offset up to its end, as [`groups_at`](GroupFinder::groups_at) does. `end`
    /// is the end of this match.
    #[inline]
    pub fn groups_between(
        &mut self,
        alloc: Global,
        haystack: &[u8],
        start: usize,
        end: usize,
        slots: &mut [usize],
    ) -> Result<(), AllocError>
        requires ordered { (start ≤ end) × (end ≤ length haystack.now) }
        ensures written { (config : TextConfig) (text : List ℕ) (a : Re) → IsFinderOf config text self.old → IsParsedAs config text a →
            (t : Trace) → attempt haystack.now a accept start ≡ Some t → t.end ≡ end →
            IfOk result (λ _. slots.new ≡ slots_of (record { start = start; trace = t }) (length slots.old)) }
        ensures refused { IfErr result (λ _. slots.new ≡ replicate (length slots.old) no_offset) }
        ensures own { (config : TextConfig) (text : List ℕ) → IsFinderOf config text self.old → IsFinderOf config text self.new }
        ensures same { automaton_of self.new ≡ automaton_of self.old }
    {
        if self.write_by_layout(haystack, start, end, slots) {
            return Ok(());
        }
        match self.groups_at(alloc, haystack, start, end, slots) {
            Ok(_) => Ok(()),
            Err(error) => Err(error),
        }
    }
}
