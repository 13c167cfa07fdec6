//! Steps along a match whose span is known, which write the offsets of its groups.
ghost use Rattle.std.specs.Prelude.{◌≡◌, ◌≤◌, ◌+◌, ◌-◌, [], length, min, slice_index, slice_set};
ghost use Rattle.group_finder.specs.Layouts.{after_step, run_end, slot_of, slots_laid, steps_write, width_by, written};

use crate::slots::clear;
use search_core::ByteSet;

/// A step along a match.
#[derive(Clone, Copy, Drop)]
pub(crate) enum Step {
    /// Skips so many bytes.
    Skip(usize),
    /// Skips the bytes up to the first that isn't in the set.
    Run(ByteSet),
    /// Skips the character that is spelled there.
    Character,
    /// Goes to the offset so many bytes before the end of the match.
    Rest(usize),
    /// Writes the offset into the slot with this number.
    Save(usize),
}

/// The offset of the first byte from `from` on that isn't in the set, or `end` if each one is.
#[inline(always)]
fn run_to(set: &ByteSet, haystack: &[u8], from: usize, end: usize) -> usize
    requires ordered { (from ≤ end) × (end ≤ length haystack.now) }
    ensures is { result ≡ run_end set.now haystack.now (end - from) from }
    ensures within { result ≤ end }
{
    for at in from..end {
        if !set.contains(haystack[at]) {
            return at;
        }
    }
    end
}

/// How many bytes a character has that starts with this byte.
#[inline(always)]
fn width(first: u8) -> usize
    ensures { result ≡ width_by first }
{
    if first < 0x80 {
        1
    } else if first < 0xE0 {
        2
    } else if first < 0xF0 {
        3
    } else {
        4
    }
}

/// The offset after the character that starts here, or `end` if the character ends after it.
#[inline(always)]
fn next_character(haystack: &[u8], at: usize, end: usize) -> usize
    requires ordered { (at ≤ end) × (end ≤ length haystack.now) }
    ensures is { result ≡ min (at + width_by (slice_index haystack.now at)) end }
    ensures within { result ≤ end }
{
    if at == end {
        return end;
    }
    at + (end - at).min(width(haystack[at]))
}

/// Writes an offset into the slot with this number, if there is one.
#[inline(always)]
fn save(slots: &mut [usize], slot: usize, offset: usize)
    ensures { slots.new ≡ slice_set slots.old slot offset }
{
    if slot < slots.len() {
        slots[slot] = offset;
    }
}

/// The slot into which a step writes, if it is one that does.
#[inline(always)]
fn slot_of(step: &Step) -> Option<usize>
    ensures { result ≡ slot_of step.now }
{
    match step {
        Step::Save(slot) => Some(*slot),
        Step::Skip(_) | Step::Run(_) | Step::Character | Step::Rest(_) => None,
    }
}

/// The offset after a step. It is a call of its own: in one body with the question whether a step writes, both would be one jump by a table.
#[inline(never)]
fn after(step: &Step, haystack: &[u8], at: usize, end: usize) -> usize
    requires ordered { (at ≤ end) × (end ≤ length haystack.now) }
    ensures is { result ≡ after_step haystack.now end step.now at }
    ensures within { result ≤ end }
{
    match step {
        Step::Save(_) => at,
        Step::Skip(count) => at + (end - at).min(*count),
        Step::Run(set) => run_to(set, haystack, at, end),
        Step::Character => next_character(haystack, at, end),
        Step::Rest(count) => end.saturating_sub(*count),
    }
}

/// Writes what the steps write along a match. Half of them or more only write, so that is asked first.
#[inline(always)]
fn walk(steps: &[Step], haystack: &[u8], start: usize, end: usize, slots: &mut [usize])
    requires ordered { (start ≤ end) × (end ≤ length haystack.now) }
    ensures { slots.new ≡ written (steps_write haystack.now end steps.now start) slots.old }
{
    let mut at = start;
    let mut left = steps;
    while let Some((step, others)) = left.split_first() {
        match slot_of(step) {
            Some(slot) => save(slots, slot, at),
            None => at = after(step, haystack, at, end),
        }
        left = others;
    }
}

/// Writes the slots of a match of known span, by the steps of a layout.
#[inline(always)]
pub(crate) fn slots_along(
    steps: &[Step],
    haystack: &[u8],
    start: usize,
    end: usize,
    slots: &mut [usize],
)
    requires ordered { (start ≤ end) × (end ≤ length haystack.now) }
    ensures { slots.new ≡ slots_laid haystack.now steps.now start end (length slots.old) }
{
    clear(slots);
    walk(steps, haystack, start, end, slots);
    save(slots, 0, start);
    save(slots, 1, end);
}
