//! Tests of bytes, also of 32 at once, and the search for the first byte that passes one.
ghost use Rattle.std.specs.Prelude.{◌≡◌, ◌+◌, ◌<◌, ◌≤◌, ◌==◌, ◌||◌, ℕ, Bool, true, length, map, slice_index_or};
ghost use Rattle.std.specs.Simd.Lanes.{chunk, mask_l};
ghost use Rattle.lazy_dfa.specs.ByteTests.{has_bits, in_range, marked, NoneSatisfies};

use std::simd::prelude::*;

/// The number of bytes that are tested at once.
pub(crate) const LANES: usize = 32;

/// The number of bytes that are tested before the byte that is searched for is taken to be far off.
const NEAR: usize = 8 * LANES;

/// The number of bytes that are skipped at once from there on.
const FAR: usize = 4 * LANES;

/// A test of bytes.
pub(crate) trait ByteTest {
    ghost passes: { Self → ℕ → Bool };

    fn passes(&self, byte: u8) -> bool
        ensures { result ≡ passes self.now byte };

    /// Tests 32 bytes at once. If a byte passes, all bits of its lane are set, and otherwise none.
    fn lanes(&self, bytes: u8x32) -> u8x32
        ensures { result ≡ marked (passes self.now) bytes };
}

/// One byte passes, and no other.
#[derive(Clone, Copy)]
pub(crate) struct OneByte(pub(crate) u8);

impl ByteTest for OneByte {
    ghost passes = { λ s x. x == s.0 };

    #[inline(always)]
    fn passes(&self, byte: u8) -> bool {
        byte == self.0
    }

    #[inline(always)]
    fn lanes(&self, bytes: u8x32) -> u8x32 {
        bytes
            .simd_eq(u8x32::splat(self.0))
            .select(u8x32::splat(255), u8x32::splat(0))
    }
}

/// The bytes of a range pass: its first one, and a number of bytes after it, where 0 follows 255.
#[derive(Clone, Copy)]
pub(crate) struct ByteRange {
    first: u8,
    behind: u8,
}

impl ByteRange {
    /// The range from its first byte to its last one.
    pub(crate) fn new((first, last): (u8, u8)) -> ByteRange {
        ByteRange {
            first,
            behind: last.wrapping_sub(first),
        }
    }
}

impl ByteTest for ByteRange {
    ghost passes = { λ s x. in_range s x };

    #[inline(always)]
    fn passes(&self, byte: u8) -> bool {
        byte.wrapping_sub(self.first) <= self.behind
    }

    #[inline(always)]
    fn lanes(&self, bytes: u8x32) -> u8x32 {
        (bytes - u8x32::splat(self.first))
            .simd_le(u8x32::splat(self.behind))
            .select(u8x32::splat(255), u8x32::splat(0))
    }
}

/// A byte passes if it passes one of two tests.
#[derive(Drop)]
pub(crate) struct Either<A: ByteTest, B: ByteTest>(pub(crate) A, pub(crate) B);

impl<A: ByteTest, B: ByteTest> ByteTest for Either<A, B> {
    ghost passes = { λ s x. A.passes s.0 x || B.passes s.1 x };

    #[inline(always)]
    fn passes(&self, byte: u8) -> bool {
        self.0.passes(byte) || self.1.passes(byte)
    }

    #[inline(always)]
    fn lanes(&self, bytes: u8x32) -> u8x32 {
        self.0.lanes(bytes) | self.1.lanes(bytes)
    }
}

/// A bit for each lane, set if the lane has bits.
#[inline(always)]
pub(crate) fn bits_of(lanes: u8x32) -> u64
    ensures { result ≡ mask_l (map has_bits lanes) }
{
    lanes.simd_ne(u8x32::splat(0)).to_bitmask()
}

/// The marks of the 32 bytes from an offset on.
#[inline(always)]
pub(crate) fn marks_at<T: ByteTest>(test: &T, haystack: &[u8], at: usize) -> u8x32
    requires { at + 32 ≤ length haystack.now }
    ensures { result ≡ marked (T.passes test.now) (chunk at 32 haystack.now) }
{
    test.lanes(u8x32::from_slice(&haystack[at..]))
}

/// Whether none of the 128 bytes from an offset on passes.
#[inline(always)]
fn none_passes<T: ByteTest>(test: &T, haystack: &[u8], at: usize) -> bool
    requires { at + 128 ≤ length haystack.now }
    ensures { result ≡ true → NoneSatisfies (T.passes test.now) haystack.now at (at + 128) }
{
    let first = marks_at(test, haystack, at) | marks_at(test, haystack, at + LANES);
    let second = marks_at(test, haystack, at + 2 * LANES)
        | marks_at(test, haystack, at + 3 * LANES);
    bits_of(first | second) == 0
}

/// Returns the offset, up to `end`, from which the search goes on. It skipped 128 bytes at a time, none of which passes.
#[inline(always)]
fn pass_far<T: ByteTest>(test: &T, haystack: &[u8], from: usize, end: usize) -> usize
    requires fits { from ≤ end }
    requires within { end ≤ length haystack.now }
    ensures low { from ≤ result }
    ensures high { result ≤ end }
    ensures passed { NoneSatisfies (T.passes test.now) haystack.now from result }
{
    let mut at = from;
    'far: while end - at >= FAR && none_passes(test, haystack, at) {
        at += FAR;
    }
    at
}

/// Returns the first offset from `from` on, before `end`, whose byte passes, or otherwise `end`. It tests 32 bytes at once.
#[inline(always)]
fn find_wide<T: ByteTest>(test: &T, haystack: &[u8], from: usize, end: usize) -> usize
    requires fits { from ≤ end }
    requires within { end ≤ length haystack.now }
    ensures low { from ≤ result }
    ensures high { result ≤ end }
    ensures passed { NoneSatisfies (T.passes test.now) haystack.now from result }
    ensures found { result < end → T.passes test.now (slice_index_or haystack.now result 0) ≡ true }
{
    let mut at = from;
    'wide: while end - at >= LANES {
        let marks = bits_of(test.lanes(u8x32::from_slice(&haystack[at..])));
        if marks != 0 {
            return at + marks.trailing_zeros() as usize;
        }
        at += LANES;
    }
    'ones: while at < end && !test.passes(haystack[at]) {
        at += 1;
    }
    at
}

/// Returns the first offset from `from` on, before `end`, whose byte passes, or otherwise `end`. It tests the next few bytes
/// first, since most searches end there.
#[inline(always)]
pub(crate) fn find_by<T: ByteTest>(test: &T, haystack: &[u8], from: usize, end: usize) -> usize
    requires fits { from ≤ end }
    requires within { end ≤ length haystack.now }
    ensures low { from ≤ result }
    ensures high { result ≤ end }
    ensures passed { NoneSatisfies (T.passes test.now) haystack.now from result }
    ensures found { result < end → T.passes test.now (slice_index_or haystack.now result 0) ≡ true }
{
    let near_end = from + (end - from).min(NEAR);
    let near = find_wide(test, haystack, from, near_end);
    if near < near_end {
        return near;
    }
    let far = pass_far(test, haystack, near, end);
    find_wide(test, haystack, far, end)
}
