//! Vectors of 32 bytes, and the masks of bits that are made of them.
ghost use Rattle.std.specs.Prelude.{◌≡◌, ◌≢◌, ◌↔◌, ℕ, ◌+◌, ◌<◌, ◌≤◌, ◌==◌, if◌then◌else◌, length, slice_index, bit_and, bit_or};
ghost use Rattle.std.specs.Int.{bit_at};
ghost use Rattle.regex_literal.specs.Lanes.{HasLanes};

use std::simd::prelude::*;

/// How many bytes a vector has.
pub(crate) const LANES: usize = 32;

/// The 32 bytes from an offset on.
#[inline(always)]
pub(crate) fn load(bytes: &[u8], at: usize) -> u8x32
    requires { at + 32 ≤ length bytes.now }
    ensures { HasLanes result (λ k. slice_index bytes.now (at + k)) }
{
    u8x32::from_slice(&bytes[at..])
}

/// All bits of each lane that is this byte, and none of the others.
#[inline(always)]
pub(crate) fn equal_to(lanes: u8x32, byte: u8) -> u8x32
    ensures { HasLanes result (λ k. if slice_index lanes k == byte then 255 else 0) }
{
    lanes
        .simd_eq(u8x32::splat(byte))
        .select(u8x32::splat(255), u8x32::splat(0))
}

/// No bit of each lane that is the same in both, and all bits of the others.
#[inline(always)]
pub(crate) fn differing(first: u8x32, second: u8x32) -> u8x32
    ensures { HasLanes result (λ k. if slice_index first k == slice_index second k then 0 else 255) }
{
    first
        .simd_eq(second)
        .select(u8x32::splat(0), u8x32::splat(255))
}

/// The bits that are in both.
#[inline(always)]
pub(crate) fn both(first: u8x32, second: u8x32) -> u8x32
    ensures { HasLanes result (λ k. bit_and (slice_index first k) (slice_index second k)) }
{
    first & second
}

/// The bits that are in either.
#[inline(always)]
pub(crate) fn either(first: u8x32, second: u8x32) -> u8x32
    ensures { HasLanes result (λ k. bit_or (slice_index first k) (slice_index second k)) }
{
    first | second
}

/// A mask that has the top bit of each lane.
#[inline(always)]
pub(crate) fn top_bits(lanes: u8x32) -> u64
    ensures { (k : ℕ) → (bit_at result k ≡ 1) ↔ (128 ≤ slice_index lanes k) }
{
    lanes.simd_ge(u8x32::splat(128)).to_bitmask()
}

/// The number of the lowest bit that is set.
#[inline(always)]
pub(crate) fn lowest(mask: u64) -> usize
    requires { mask ≢ 0 }
    ensures bound { result < 64 }
    ensures set { bit_at mask result ≡ 1 }
    ensures below { (k : ℕ) → k < result → bit_at mask k ≡ 0 }
{
    mask.trailing_zeros() as usize
}

/// The lowest bits of a mask, so many.
#[inline(always)]
pub(crate) fn bits_below(mask: u64, count: usize) -> u64
    requires { count < 64 }
    ensures kept { (k : ℕ) → k < count → bit_at result k ≡ bit_at mask k }
    ensures no_more { (k : ℕ) → bit_at result k ≡ 1 → k < count }
{
    mask & ((1 << count) - 1)
}
