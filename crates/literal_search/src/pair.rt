//! A search for one literal by two of its bytes, at 32 offsets at once. It is part of the caller's loop, so it takes few instructions if the
//! literal is near, as from match to match.
//!
//! Where both bytes stand, the literal is compared by one vector. If it isn't there, the search ends, and so it does 64 bytes before the end
//! of the haystack. The toolchain's search, which bears many false candidates, goes on from there.
ghost use Rattle.std.specs.Prelude.{◌≡◌, ◌↔◌, ◌∷◌, [], ℕ, ◌+◌, ◌<◌, ◌≤◌, List, length, slice_index, IfOk, IfSome, IsTrue};
ghost use Rattle.regex_literal.specs.Find.{Nowhere, OccursAt};
ghost use Rattle.regex_literal.specs.Fronts.{IsFrontOf};
ghost use Rattle.regex_literal.specs.Lanes.{Covers, Marks};
ghost use Rattle.literal_search.specs.Searches.{IsNear};

use crate::lanes::{LANES, bits_below, both, differing, either, equal_to, load, lowest, top_bits};
use crate::literals::Literals;
use regex_literal::byte_frequency;
use std::alloc::{AllocError, Global};
use std::simd::prelude::*;

/// The length of the longest literal that is searched for by two bytes.
const MAX_LEN: usize = LANES;

/// How many bytes have to be in the haystack from an offset on, so that the literal may be read at each of the next 32 offsets.
const ROOM: usize = LANES + MAX_LEN;

/// How many bytes are examined before the literal is taken to be far off.
const NEAR: usize = 8 * LANES;

/// How many offsets are skipped at once from there on.
const FAR: usize = 4 * LANES;

/// The two bytes are searched for only if fewer than so many of a million offsets of typical text are expected to have both.
const MAX_CANDIDATES: u64 = 500;

/// How much more a byte weighs if it is the same as the other one: it says little then.
const SAME: u64 = 64;

/// What a search for a literal finds.
#[derive(Clone, Copy)]
pub(crate) enum Near {
    /// The first offset at which it begins.
    At(usize),
    /// It doesn't begin before this offset.
    Passed(usize),
}

/// The first bytes of a literal, for one comparison of vectors.
#[derive(Clone, Copy)]
struct Front {
    bytes: [u8; 32],
    len: usize,
}

impl Front {
    /// The first bytes of this literal.
    fn new(literal: &[u8]) -> Front
        ensures { IsFrontOf result.bytes result.len literal.now }
    {
        let mut bytes = [0; 32];
        for k in 0..literal.len().min(LANES) {
            bytes[k] = literal[k];
        }
        Front {
            bytes,
            len: literal.len(),
        }
    }

    /// Whether the literal stands at an offset, if it has at most 32 bytes.
    #[inline(always)]
    fn stands_at(&self, haystack: &[u8], at: usize) -> bool
        requires short { self.now.len ≤ 32 }
        requires room { at + 32 ≤ length haystack.now }
        ensures { (literal : List ℕ) → IsFrontOf self.now.bytes self.now.len literal → (IsTrue result ↔ OccursAt haystack.now literal at) }
    {
        let differences = differing(load(haystack, at), load(&self.bytes, 0));
        bits_below(top_bits(differences), self.len) == 0
    }
}

/// How much a byte of the literal says where it stands, next to another byte that is searched for: the less, the better.
fn weight(literal: &[u8], offset: usize, other: Option<usize>) -> u64
    requires { offset < length literal.now }
{
    let byte = literal[offset];
    let alone = byte_frequency(byte);
    let Some(other) = other else {
        return alone;
    };
    if other == offset {
        return u64::MAX;
    }
    if literal.get(other) == Some(&byte) {
        return alone.saturating_mul(SAME);
    }
    alone
}

/// The offset of the byte that says the most.
fn rarest(literal: &[u8], other: Option<usize>) -> usize
    ensures { 0 < length literal.now → result < length literal.now }
{
    let (mut best, mut least) = (0, u64::MAX);
    for offset in 0..literal.len() {
        let weight = weight(literal, offset, other);
        if weight < least {
            (best, least) = (offset, weight);
        }
    }
    best
}

/// A search for one literal by two of its bytes.
#[derive(Drop)]
pub(crate) struct PairSearch {
    pub(crate) literal: Vec<u8>,
    /// The offsets of the two bytes in the literal.
    first: usize,
    second: usize,
    front: Front,
    ghost some: { 0 < length literal.items },
    ghost short: { length literal.items ≤ 32 },
    ghost within: { (first < length literal.items) × (second < length literal.items) },
    ghost begins: { IsFrontOf front.bytes front.len literal.items },
}

impl PairSearch {
    /// A search for the only literal of the list, if there is one, it has at least two and at most 32 bytes, and two of these are rare together.
    pub(crate) fn new(alloc: Global, literals: &Literals) -> Result<Option<PairSearch>, AllocError>
        ensures { IfOk result (λ made. IfSome made (λ p. literals.now ≡ p.literal.items ∷ [])) }
    {
        if literals.len() != 1 {
            return Ok(None);
        }
        let literal = literals.get(0);
        if literal.len() < 2 || literal.len() > MAX_LEN {
            return Ok(None);
        }
        let first = rarest(literal, None);
        let second = rarest(literal, Some(first));
        let candidates = byte_frequency(literal[first]).saturating_mul(byte_frequency(
            literal[second],
        )) >> 12;
        if candidates >= MAX_CANDIDATES {
            return Ok(None);
        }
        let front = Front::new(literal);
        let literal = literal.to_vec(alloc)?;
        Ok(Some(PairSearch {
            literal,
            first,
            second,
            front,
        }))
    }

    /// All bits of each lane at whose offset the byte may stand that the literal has at an offset.
    #[inline(always)]
    fn lanes_of(&self, offset: usize, haystack: &[u8], at: usize) -> u8x32
        requires within { offset < length self.now.literal.items }
        requires room { at + 64 ≤ length haystack.now }
        ensures { (k : ℕ) → k < 32 → OccursAt haystack.now self.now.literal.items (at + k) → slice_index result k ≡ 255 }
    {
        equal_to(load(haystack, at + offset), self.literal[offset])
    }

    /// The lanes of the next 32 offsets. The top bit of each is set at whose offset the literal begins.
    #[inline(always)]
    fn lanes(&self, haystack: &[u8], at: usize) -> u8x32
        requires { at + 64 ≤ length haystack.now }
        ensures { Covers (OccursAt haystack.now self.now.literal.items) at result }
    {
        both(
            self.lanes_of(self.first, haystack, at),
            self.lanes_of(self.second, haystack, at),
        )
    }

    /// A bit for each of the next 32 offsets, set where the literal begins.
    #[inline(always)]
    fn marks(&self, haystack: &[u8], at: usize) -> u64
        requires { at + 64 ≤ length haystack.now }
        ensures { Marks (OccursAt haystack.now self.now.literal.items) at (at + 32) result }
    {
        top_bits(self.lanes(haystack, at))
    }

    /// Whether the literal begins at none of the next 128 offsets, as far as the two bytes say.
    #[inline(always)]
    fn is_quiet(&self, haystack: &[u8], at: usize) -> bool
        requires { at + 160 ≤ length haystack.now }
        ensures { IsTrue result → Nowhere (OccursAt haystack.now self.now.literal.items) at (at + 128) }
    {
        let front = either(self.lanes(haystack, at), self.lanes(haystack, at + LANES));
        let back = either(
            self.lanes(haystack, at + 2 * LANES),
            self.lanes(haystack, at + 3 * LANES),
        );
        top_bits(either(front, back)) == 0
    }

    /// Skips 128 offsets at a time at which the literal doesn't begin.
    #[inline(always)]
    fn skip(&self, haystack: &[u8], from: usize) -> usize
        requires { from ≤ length haystack.now }
        ensures low { from ≤ result }
        ensures high { result ≤ length haystack.now }
        ensures passed { Nowhere (OccursAt haystack.now self.now.literal.items) from result }
    {
        let mut at = from;
        while FAR + MAX_LEN <= haystack.len() - at && self.is_quiet(haystack, at) {
            at += FAR;
        }
        at
    }

    /// The first offset from `from` on at which the literal begins, as far as it is found before `end`, and no candidate comes to nothing.
    #[inline(always)]
    fn find_below(&self, haystack: &[u8], from: usize, end: usize) -> Near
        requires ordered { from ≤ end }
        requires within { end ≤ length haystack.now }
        ensures near { IsNear self.now.literal.items haystack.now from result }
        ensures passed { (at : ℕ) → result ≡ Near.Passed at → at ≤ end }
    {
        let mut at = from;
        while ROOM <= end - at {
            let marks = self.marks(haystack, at);
            if marks != 0 {
                let found = at + lowest(marks);
                if self.front.stands_at(haystack, found) {
                    return Near::At(found);
                }
                return Near::Passed(found);
            }
            at += LANES;
        }
        Near::Passed(at)
    }

    /// The rest of a search, if the literal isn't near.
    #[inline(never)]
    fn find_far(&self, haystack: &[u8], from: usize) -> Near
        requires { from ≤ length haystack.now }
        ensures { IsNear self.now.literal.items haystack.now from result }
    {
        let far = self.skip(haystack, from);
        self.find_below(haystack, far, haystack.len())
    }

    /// The first offset from `from` on at which the literal begins, or a later one before which it doesn't.
    #[inline(always)]
    pub(crate) fn find(&self, haystack: &[u8], from: usize) -> Near
        requires { from ≤ length haystack.now }
        ensures { IsNear self.now.literal.items haystack.now from result }
    {
        let end = from + (haystack.len() - from).min(NEAR);
        match self.find_below(haystack, from, end) {
            Near::At(at) => Near::At(at),
            Near::Passed(at) => {
                if ROOM <= end - at {
                    return Near::Passed(at);
                }
                self.find_far(haystack, at)
            }
        }
    }
}
