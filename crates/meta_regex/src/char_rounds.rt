//! Rounds of a class of characters, read character by character, for runs that aren't all ASCII.
ghost use Rattle.std.specs.Prelude.{◌≡◌, ◌<◌, ◌≤◌, ◌||◌, ℕ, List, IfSome, Some, length, true};
ghost use Rattle.search_core.specs.ByteSets.{has};
ghost use Rattle.search_core.specs.Characters.{character_at, spelling_len};
ghost use Rattle.hir_core.specs.Means.{is_member};
ghost use Rattle.hir_core.specs.Tree.{Tree};
ghost use Rattle.meta_regex.specs.CharRounds.{AreCharsOf, AreRoundsFrom, Advances, EndsAt, IsRoundAt, IsTableOf, SaysWhether};

use crate::first_bytes::has_high;
use hir_core::{Hir, HirKind};
use search_core::utf8::decode;
use std::alloc::Global;

/// A table has the scalars below this one, those of the Basic Multilingual Plane.
const TABLE: usize = 0x10000;

/// Where a round of a class ends.
#[derive(Clone, Copy)]
pub(crate) enum Round {
    /// It ends at this offset.
    To(usize),
    /// None begins here.
    Missing,
    /// The table doesn't have the character.
    Unknown,
}

/// Rounds that follow each other, and where no further one begins.
#[derive(Clone, Copy)]
pub(crate) struct Rounds {
    /// How many there are.
    pub(crate) count: usize,
    /// Where the last one ends.
    pub(crate) end: usize,
}

/// Marks the scalars of a range, as far as the table goes.
fn mark(table: &mut [bool], first: usize, last: usize)
    ensures len { length table.new ≡ length table.old }
    ensures marked { (c : ℕ) → first ≤ c → c ≤ last → c < length table.old → has table.new c ≡ true }
    ensures below { (c : ℕ) → c < first → has table.new c ≡ has table.old c }
    ensures above { (c : ℕ) → last < c → has table.new c ≡ has table.old c }
{
    let end = table.len().min(last.saturating_add(1));
    for scalar in first..end {
        table[scalar] = true;
    }
}

/// Marks the characters of all ranges, as far as the table goes.
fn mark_all(table: &mut [bool], ranges: &[(char, char)])
    ensures len { length table.new ≡ length table.old }
    ensures marked { (c : ℕ) → c < length table.old → has table.new c ≡ (has table.old c || is_member ranges.now c) }
{
    let mut left = ranges;
    while let Some((range, others)) = left.split_first() {
        mark(table, range.0 as usize, range.1 as usize);
        left = others;
    }
}

/// The table of the characters of these ranges, if memory suffices.
fn table_of(alloc: Global, ranges: &[(char, char)]) -> Option<Vec<bool>>
    ensures { IfSome result (λ t. IsTableOf t.items ranges.now) }
{
    let mut table = Vec::new(alloc);
    let Ok(()) = table.resize(TABLE, false) else {
        return None;
    };
    mark_all(&mut table, ranges);
    Some(table)
}

/// The table of a class of characters, if the tree is one that has others than ASCII and memory suffices.
pub(crate) fn chars_of(alloc: Global, x: &Hir) -> Option<Vec<bool>>
    ensures { IfSome result (λ t. AreCharsOf t.items x.now) }
{
    let HirKind::Chars(ranges) = x.kind() else {
        return None;
    };
    if !has_high(ranges) {
        return None;
    }
    let Some(table) = table_of(alloc, ranges) else {
        return None;
    };
    Some(table)
}

/// How many bytes spell a scalar.
#[inline(always)]
fn spelling_len(scalar: usize) -> usize
    ensures is { result ≡ spelling_len scalar }
    ensures low { 0 < result }
    ensures high { result ≤ 4 }
{
    if scalar <= 0x7F {
        1
    } else if scalar <= 0x7FF {
        2
    } else if scalar <= 0xFFFF {
        3
    } else {
        4
    }
}

/// The round that is this scalar, which ends at an offset.
#[inline(always)]
fn round_of(table: &[bool], scalar: usize, end: usize) -> Round
    ensures end { EndsAt end result }
    ensures is { (ranges : List (ℕ × ℕ)) → IsTableOf table.now ranges → SaysWhether (is_member ranges scalar) result }
{
    match table.get(scalar) {
        Some(true) => Round::To(end),
        Some(false) => Round::Missing,
        None => Round::Unknown,
    }
}

/// The character that begins at an offset, if it is ASCII.
#[inline(always)]
fn one_byte(haystack: &[u8], at: usize) -> Option<usize>
    ensures { IfSome result (λ c. character_at haystack.now at ≡ Some c) }
{
    match haystack.get(at) {
        Some(byte) if *byte < 0x80 => Some(usize::from(*byte)),
        _ => None,
    }
}

/// The character that begins at an offset, if two bytes spell it.
#[inline(always)]
fn two_bytes(haystack: &[u8], at: usize) -> Option<usize>
    requires { at ≤ length haystack.now }
    ensures { IfSome result (λ c. character_at haystack.now at ≡ Some c) }
{
    let (Some(first), Some(second)) = (haystack.get(at), haystack.get(at + 1)) else {
        return None;
    };
    if *first < 0xC2 || 0xDF < *first || *second < 0x80 || 0xBF < *second {
        return None;
    }
    Some((usize::from(*first) - 0xC0) * 64 + (usize::from(*second) - 0x80))
}

/// The character that begins at an offset.
fn decoded(haystack: &[u8], at: usize) -> Option<usize>
    requires { at ≤ length haystack.now }
    ensures { result ≡ character_at haystack.now at }
{
    match decode(&haystack[at..]) {
        Some(Ok(c)) => Some(c as usize),
        Some(Err(_)) => None,
        None => None,
    }
}

/// The character that begins at an offset. Most are spelled by one or two bytes.
#[inline(always)]
fn character_at(haystack: &[u8], at: usize) -> Option<usize>
    requires { at ≤ length haystack.now }
    ensures { result ≡ character_at haystack.now at }
{
    if let Some(scalar) = one_byte(haystack, at) {
        return Some(scalar);
    }
    if let Some(scalar) = two_bytes(haystack, at) {
        return Some(scalar);
    }
    decoded(haystack, at)
}

/// The round that begins at an offset.
#[inline(always)]
fn round_at(table: &[bool], haystack: &[u8], at: usize) -> Round
    requires { at ≤ length haystack.now }
    ensures advances { Advances haystack.now at result }
    ensures is { (x : Tree) → AreCharsOf table.now x → IsRoundAt x haystack.now at result }
{
    match character_at(haystack, at) {
        Some(scalar) => round_of(table, scalar, at + spelling_len(scalar)),
        None => Round::Missing,
    }
}

/// The rounds that follow each other from an offset on. It returns `None` if the table doesn't have one of the characters.
pub(crate) fn rounds_from(table: &[bool], haystack: &[u8], start: usize) -> Option<Rounds>
    requires { start ≤ length haystack.now }
    ensures { (x : Tree) → AreCharsOf table.now x → IfSome result (λ r. AreRoundsFrom x haystack.now start r.count r.end) }
{
    let mut at = start;
    let mut count = 0;
    loop {
        match round_at(table, haystack, at) {
            Round::To(end) => {
                at = end;
                count += 1;
            }
            Round::Missing => return Some(Rounds { count, end: at }),
            Round::Unknown => return None,
        }
    }
}
