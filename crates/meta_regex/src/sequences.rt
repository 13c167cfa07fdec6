//! Patterns that are literals and greedy rounds of classes, one after the other, as `struct\s+\w+\s*\{`: a search for their matches without
//! automata.
//!
//! A match is tried at each offset at which one may start, by a literal or by the first byte. If the first part has as many rounds as there
//! are, and what follows isn't at their end, no match starts in these rounds either. If a byte that may begin a character of a class is in
//! the way, the search stops before the try, and automata go on there.
ghost use Rattle.std.specs.Prelude.{◌≤◌, ℕ, IfSome, List, length};
ghost use Rattle.hir_core.specs.Tree.{Tree};
ghost use Rattle.literal_search.specs.Searches.{IsBegunBy, IsNextStart};
ghost use Rattle.meta_regex.specs.Parts.{AreDecided, AreParts};
ghost use Rattle.meta_regex.specs.FirstBytes.{AreFirstBytes};
ghost use Rattle.meta_regex.specs.Runs.{IsNextRun, PrefersEnd};
ghost use Rattle.meta_regex.specs.Sequences.{IsAttempt, IsAttemptWithin, IsLastStart, IsSequenceOf};

use crate::parts::{Part, Read, read_part, read_parts};
use crate::runs::{NextRun, stands_at};
use hir_regex::see_bytes;
use literal_search::{CandidateFinder, Effort};
use search_core::ByteSet;

/// A match saves as much as a search by automata of this many bytes costs.
const GAIN: usize = 160;

/// A try in vain costs as much as a search by automata of so many bytes, and of as many as it reads.
const FAILED: usize = 24;

/// A try that gives up costs as much as a search by automata of so many bytes, which begins there: where that is common, automata are as
/// good alone.
const GAVE_UP: usize = 128;

/// A pattern as parts.
#[derive(Drop)]
pub(crate) struct Sequence {
    /// Its parts, from the first to the last.
    pub(crate) parts: Vec<Part>,
    /// The bytes with which a match may begin.
    pub(crate) first: ByteSet,
    /// A search for the next of these bytes.
    pub(crate) starts: regex_literal::ByteSet,
}

/// What is found at one offset.
#[derive(Clone, Copy)]
enum Attempt {
    /// The match that starts there ends here.
    Ends(usize),
    /// No match starts there, nor after it up to `last`. The bytes up to `read` were read.
    Nowhere { last: usize, read: usize },
    /// A byte was read that may begin a character of a class.
    GaveUp,
}

/// The last offset up to which the first part has no end but this one, if it is unbounded.
fn last_start(part: &Part, start: usize, end: usize) -> usize
    ensures { IsLastStart part.now start end result }
{
    match part {
        Part::Rounds { most: None, .. } => end,
        _ => start,
    }
}

/// The match between these offsets, unless it is empty.
fn match_to(start: usize, end: usize) -> Attempt
    ensures within { (h : List ℕ) → start ≤ length h → IsAttemptWithin h start result }
    ensures ends { (x : Tree) → (h : List ℕ) → start ≤ end → end ≤ length h → PrefersEnd x h start end → IsAttempt x h start result }
{
    if end == start {
        return Attempt::GaveUp;
    }
    Attempt::Ends(end)
}

/// Tries whether the parts match at this offset.
fn try_at(parts: &[Part], haystack: &[u8], start: usize) -> Attempt
    requires { start ≤ length haystack.now }
    ensures within { IsAttemptWithin haystack.now start result }
    ensures found { (x : Tree) → AreParts parts.now x → AreDecided parts.now → IsAttempt x haystack.now start result }
{
    see_bytes(haystack);
    let Some((first, others)) = parts.split_first() else {
        return Attempt::GaveUp;
    };
    let end = match read_part(first, haystack, start) {
        Read::To(end) => end,
        Read::Missing(read) => return Attempt::Nowhere { last: start, read },
        Read::GaveUp => return Attempt::GaveUp,
    };
    let read = match read_parts(others, haystack, end) {
        Read::To(to) => return match_to(start, to),
        Read::Missing(read) => read,
        Read::GaveUp => return Attempt::GaveUp,
    };
    Attempt::Nowhere {
        last: last_start(first, start, end),
        read,
    }
}

/// What a try in vain costs that read up to this offset. The first one of a search costs nothing if it read little: no literal was searched
/// for, and searches of short haystacks would soon leave out literals.
fn price_of(start: usize, read: usize, is_first: bool) -> usize {
    let read = read.saturating_sub(start);
    if is_first {
        return read.saturating_sub(FAILED);
    }
    read.saturating_add(FAILED)
}

impl Sequence {
    /// The first offset from `from` on with a byte with which a match may begin, if there is one.
    #[inline(always)]
    fn next_first(&self, effort: &mut Effort, haystack: &[u8], from: usize) -> Option<usize>
        requires { from ≤ length haystack.now }
        ensures within { IfSome result (λ start. (from ≤ start) × (start ≤ length haystack.now)) }
        ensures start { (x : Tree) → AreFirstBytes self.now.starts x → IsNextStart x haystack.now from result }
    {
        let Some(start) = self.starts.find_near(haystack, from, haystack.len()) else {
            return None;
        };
        effort.gain(start - from);
        Some(start)
    }

    /// The next offset at which a match may start, by these literals with which each match begins, or by its first byte. Where a search
    /// begins that isn't the first one, the last match often ended, and the next one starts at once: so no literal is searched for if the byte
    /// there may begin one.
    #[inline(always)]
    fn next_start(
        &self,
        literals: Option<&CandidateFinder>,
        effort: &mut Effort,
        haystack: &[u8],
        from: usize,
        is_new: bool,
    ) -> Option<usize>
        requires { from ≤ length haystack.now }
        ensures within { IfSome result (λ start. (from ≤ start) × (start ≤ length haystack.now)) }
        ensures start { (x : Tree) → IsSequenceOf self.now x → IfSome literals.entry (λ f. IsBegunBy f.now x) → IsNextStart x haystack.now from result }
    {
        if is_new && stands_at(&self.first, haystack, from) {
            return Some(from);
        }
        match literals {
            Some(finder) => finder.next_start(effort, haystack, from),
            None => self.next_first(effort, haystack, from),
        }
    }

    /// The next match from this offset on, as long as tries pay.
    #[inline(never)]
    pub(crate) fn next(
        &self,
        literals: Option<&CandidateFinder>,
        effort: &mut Effort,
        haystack: &[u8],
        from: usize,
    ) -> NextRun
        requires { from ≤ length haystack.now }
        ensures { (x : Tree) → IsSequenceOf self.now x → IfSome literals.entry (λ f. IsBegunBy f.now x) → IsNextRun x haystack.now from result }
    {
        let is_later = 0 < from;
        let mut at = from;
        while effort.pays() {
            let Some(start) = self.next_start(
                literals,
                effort,
                haystack,
                at,
                is_later && at == from,
            ) else {
                return NextRun::Missing;
            };
            match try_at(&self.parts, haystack, start) {
                Attempt::Ends(end) => {
                    effort.gain(GAIN);
                    return NextRun::Found(start, end);
                }
                Attempt::Nowhere { last, read } => {
                    effort.charge(price_of(start, read, is_later && start == from));
                    if last == haystack.len() {
                        return NextRun::Missing;
                    }
                    at = last + 1;
                }
                Attempt::GaveUp => {
                    effort.charge(GAVE_UP);
                    return NextRun::From(start);
                }
            }
        }
        NextRun::From(at)
    }
}
