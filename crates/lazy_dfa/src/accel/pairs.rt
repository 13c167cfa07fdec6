//! The search for two adjacent bytes that pass two tests, at 32 offsets at once.
ghost use Rattle.std.specs.Prelude.{◌≡◌, ◌+◌, ◌<◌, ◌≤◌, length, map, bit_and};
ghost use Rattle.std.specs.Simd.Lanes.{chunk, mask_l, zip2};
ghost use Rattle.lazy_dfa.specs.ByteTests.{has_bits, marked, NoPairs};

use crate::accel::byte_tests::{ByteTest, LANES, bits_of, marks_at};

/// A bit for each of the 32 offsets from `at` on, set if the byte passes the first test and the byte after it the second one.
#[inline(always)]
fn pair_bits<A: ByteTest, B: ByteTest>(first: &A, second: &B, haystack: &[u8], at: usize) -> u64
    requires { at + 33 ≤ length haystack.now }
    ensures { result ≡ mask_l (map has_bits (zip2 bit_and (marked (A.passes first.now) (chunk at 32 haystack.now))
        (marked (B.passes second.now) (chunk (at + 1) 32 haystack.now)))) }
{
    bits_of(marks_at(first, haystack, at) & marks_at(second, haystack, at + 1))
}

/// Returns an offset from `from` on. At no earlier offset does a byte pass the first test and the byte after it the second one.
/// At the returned offset they do, or no two bytes are left before `end`.
#[inline(always)]
pub(crate) fn find_pair<A: ByteTest, B: ByteTest>(
    first: &A,
    second: &B,
    haystack: &[u8],
    from: usize,
    end: usize,
) -> usize
    requires fits { from ≤ end }
    requires within { end ≤ length haystack.now }
    ensures low { from ≤ result }
    ensures high { result ≤ end }
    ensures passed { NoPairs (A.passes first.now) (B.passes second.now) haystack.now from result }
{
    let mut at = from;
    'wide: while end - at > LANES {
        let bits = pair_bits(first, second, haystack, at);
        if bits != 0 {
            return at + bits.trailing_zeros() as usize;
        }
        at += LANES;
    }
    'ones: while end - at >= 2 && !(first.passes(haystack[at]) && second.passes(haystack[at + 1])) {
        at += 1;
    }
    at
}
