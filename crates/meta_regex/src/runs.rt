//! Patterns that are one or more rounds of a class of bytes or characters, as `[0-9]+` and `\w+`: a search for their matches without
//! automata.
//!
//! The leftmost-first match is the first run of enough bytes of the class. Of a class of characters the run has ASCII alone. If a byte that
//! may begin another character of the class is at the start or the end of a run, its characters are read one by one. Where these aren't in
//! the table of the class, or too few of them follow each other, the search stops before the run, and automata go on there.
ghost use Rattle.std.specs.Prelude.{◌≡◌, ◌<◌, ◌≤◌, ℕ, false, get_or, IfSome, length, not, true};
ghost use Rattle.search_core.specs.ByteSets.{has};
ghost use Rattle.hir_core.specs.Tree.{Tree};
ghost use Rattle.meta_regex.specs.FirstBytes.{may_begin};
ghost use Rattle.meta_regex.specs.Runs.{AreRoundsOf, IsNextRun, IsRunOf, IsRunOfTrees, has_byte};

use crate::char_rounds::{chars_of, rounds_from};
use crate::first_bytes::{has_byte, has_char, may_be_empty, may_begin};
use crate::rounds::rounds_of;
use hir_core::{Hir, HirKind};
use hir_regex::see_bytes;
use search_core::ByteSet;
use std::alloc::Global;

/// How many bytes of a run are examined one by one.
const NEAR: usize = 24;

/// How many offsets are tried, character by character, before automata go on.
const TRIES: usize = 8;

/// At least so many rounds of a class.
#[derive(Drop)]
pub(crate) struct Run {
    /// The bytes with which a round may begin.
    pub(crate) first: ByteSet,
    /// A search for the next of these bytes.
    pub(crate) starts: regex_literal::ByteSet,
    /// The bytes that are a round each.
    pub(crate) members: ByteSet,
    /// A search for the next byte that is none of these.
    pub(crate) ends: regex_literal::ByteSet,
    /// How many rounds there are at least.
    pub(crate) least: usize,
    /// The table of the class, if it is one of characters with others than ASCII.
    pub(crate) chars: Option<Vec<bool>>,
}

/// What a search for a run finds.
#[derive(Clone, Copy)]
pub(crate) enum NextRun {
    /// The next match, by its start and its end.
    Found(usize, usize),
    /// There is no match.
    Missing,
    /// No match starts before this offset.
    From(usize),
}

/// Whether the tree is a class that has this byte, or the character that this byte alone spells.
fn is_round(x: &Hir, byte: u8) -> bool
    ensures { result ≡ true → has_byte x.now byte ≡ true }
{
    match x.kind() {
        HirKind::Bytes(ranges) => has_byte(ranges, byte),
        HirKind::Chars(ranges) => byte < 0x80 && has_char(ranges, byte),
        _ => false,
    }
}

/// The bytes that are a span of the class each.
fn members_of(x: &Hir) -> ByteSet
    ensures { (b : ℕ) → b < 256 → has result b ≡ true → has_byte x.now b ≡ true }
{
    let mut set = ByteSet::empty();
    for byte in 0..=255u8 {
        if is_round(x, byte) {
            set.add(byte);
        }
    }
    set
}

/// The bytes with which the spans of the tree begin.
fn first_bytes_of(x: &Hir) -> ByteSet
    ensures { (b : ℕ) → b < 256 → may_begin x.now b ≡ true → has result b ≡ true }
{
    let mut set = ByteSet::empty();
    for byte in 0..=255u8 {
        if may_begin(x, byte) {
            set.add(byte);
        }
    }
    set
}

/// A test for each byte of a set.
pub(crate) fn flags_of(set: &ByteSet) -> [bool; 256]
    ensures { (b : ℕ) → b < 256 → has result b ≡ has set.now b }
{
    let mut flags = [false; 256];
    for byte in 0..=255u8 {
        flags[usize::from(byte)] = set.contains(byte);
    }
    flags
}

/// A test for each byte that isn't in a set.
fn flags_of_others(set: &ByteSet) -> [bool; 256]
    ensures { (b : ℕ) → b < 256 → has result b ≡ not (has set.now b) }
{
    let mut flags = [false; 256];
    for byte in 0..=255u8 {
        flags[usize::from(byte)] = !set.contains(byte);
    }
    flags
}

/// At least so many rounds of this body, if it is a class with a byte that is a round.
pub(crate) fn run_of_body(least: usize, body: &Hir) -> Option<Run>
    ensures least { IfSome result (λ r. r.least ≡ least) }
    ensures rounds { IfSome result (λ r. AreRoundsOf r body.now) }
{
    if may_be_empty(body) {
        return None;
    }
    let members = members_of(body);
    if members.is_empty() {
        return None;
    }
    let first = first_bytes_of(body);
    Some(Run {
        first,
        starts: regex_literal::ByteSet::new(&flags_of(&first)),
        members,
        ends: regex_literal::ByteSet::new(&flags_of_others(&members)),
        least,
        chars: None,
    })
}

/// The run that the tree is, if it is one.
fn run_of(alloc: Global, x: &Hir) -> Option<Run>
    ensures { IfSome result (λ r. IsRunOf r x.now) }
{
    let Some(rounds) = rounds_of(x) else {
        return None;
    };
    if rounds.least == 0 {
        return None;
    }
    let Some(mut run) = run_of_body(rounds.least, rounds.body) else {
        return None;
    };
    run.chars = chars_of(alloc, rounds.body);
    Some(run)
}

/// The run that the only tree is, if there is one tree.
pub(crate) fn run_of_only(alloc: Global, trees: &[Hir]) -> Option<Run>
    ensures { IfSome result (λ r. IsRunOfTrees r trees.now) }
{
    let Some((tree, others)) = trees.split_first() else {
        return None;
    };
    if !others.is_empty() {
        return None;
    }
    let Some(run) = run_of(alloc, tree) else {
        return None;
    };
    Some(run)
}

/// The first offset from `from` on, before `end`, whose byte isn't of the set, or otherwise `end`.
#[inline(always)]
pub(crate) fn skip_members(set: &ByteSet, haystack: &[u8], from: usize, end: usize) -> usize
    requires fits { from ≤ end }
    requires within { end ≤ length haystack.now }
    ensures low { from ≤ result }
    ensures high { result ≤ end }
    ensures passed { (k : ℕ) → from ≤ k → k < result → has set.now (get_or haystack.now k 0) ≡ true }
{
    let mut at = from;
    while at < end && set.contains(haystack[at]) {
        at += 1;
    }
    at
}

/// Whether a byte of the set is at this offset.
#[inline(always)]
pub(crate) fn stands_at(set: &ByteSet, haystack: &[u8], at: usize) -> bool
    ensures { result ≡ false → at < length haystack.now → has set.now (get_or haystack.now at 0) ≡ false }
{
    at < haystack.len() && set.contains(haystack[at])
}

impl Run {
    /// The first offset from `from` on with a byte with which a round may begin, or the haystack's length.
    #[inline(always)]
    fn next_start(&self, haystack: &[u8], from: usize) -> usize
        requires { from ≤ length haystack.now }
        ensures low { from ≤ result }
        ensures high { result ≤ length haystack.now }
        ensures passed { (k : ℕ) → from ≤ k → k < result → has self.now.starts (get_or haystack.now k 0) ≡ false }
    {
        match self.starts.find_near(haystack, from, haystack.len()) {
            Some(at) => at,
            None => haystack.len(),
        }
    }

    /// The first offset from `from` on whose byte isn't a round, or the haystack's length. Many bytes are examined at once.
    #[inline(never)]
    fn far_end(&self, haystack: &[u8], from: usize) -> usize
        requires { from ≤ length haystack.now }
        ensures low { from ≤ result }
        ensures high { result ≤ length haystack.now }
        ensures passed { (k : ℕ) → from ≤ k → k < result → has self.now.ends (get_or haystack.now k 0) ≡ false }
    {
        match self.ends.find(haystack, from, haystack.len()) {
            Some(at) => at,
            None => haystack.len(),
        }
    }

    /// The end of the run that begins at this offset. Most runs are short, so the next bytes are examined one by one.
    #[inline(always)]
    pub(crate) fn run_end(&self, haystack: &[u8], from: usize) -> usize
        requires { from ≤ length haystack.now }
        ensures low { from ≤ result }
        ensures high { result ≤ length haystack.now }
        ensures passed { (body : Tree) → AreRoundsOf self.now body → (k : ℕ) → from ≤ k → k < result →
            has self.now.members (get_or haystack.now k 0) ≡ true }
    {
        see_bytes(haystack);
        let near = haystack.len().min(from.saturating_add(NEAR));
        let end = skip_members(&self.members, haystack, from, near);
        if end < near {
            return end;
        }
        self.far_end(haystack, end)
    }

    /// The next match from an offset on at which a character may be that isn't ASCII, as far as the table has the characters.
    #[inline(never)]
    fn next_by_characters(&self, haystack: &[u8], from: usize) -> NextRun
        requires { from ≤ length haystack.now }
        ensures { (x : Tree) → IsRunOf self.now x → IsNextRun x haystack.now from result }
    {
        see_bytes(haystack);
        let Some(table) = &self.chars else {
            return NextRun::From(from);
        };
        let mut at = from;
        for _ in 0..TRIES {
            let start = self.next_start(haystack, at);
            if start == haystack.len() {
                return NextRun::Missing;
            }
            let Some(rounds) = rounds_from(table, haystack, start) else {
                return NextRun::From(start);
            };
            if self.least <= rounds.count {
                return NextRun::Found(start, rounds.end);
            }
            if rounds.count > 0 {
                return NextRun::From(start);
            }
            at = start + 1;
        }
        NextRun::From(at)
    }

    /// The next match from this offset on.
    #[inline(always)]
    pub(crate) fn next(&self, haystack: &[u8], from: usize) -> NextRun
        requires { from ≤ length haystack.now }
        ensures { (x : Tree) → IsRunOf self.now x → IsNextRun x haystack.now from result }
    {
        see_bytes(haystack);
        let mut at = from;
        while at < haystack.len() {
            let start = self.next_start(haystack, at);
            let end = self.run_end(haystack, start);
            if stands_at(&self.first, haystack, end) {
                return self.next_by_characters(haystack, start);
            }
            if self.least <= end - start {
                return NextRun::Found(start, end);
            }
            if end == haystack.len() {
                return NextRun::Missing;
            }
            at = end + 1;
        }
        NextRun::Missing
    }
}
