//! Finds line feeds: the first one, and how far back there is none. It examines many bytes at once.
ghost use Rattle.std.specs.Prelude.{◌≡◌, ◌==◌, ◌+◌, ◌≤◌, length, map};
ghost use Rattle.std.specs.List.{position};
ghost use Rattle.std.specs.Simd.Lanes.{mask_l};
ghost use Rattle.line_trees.specs.LineTrees.{HasNoFeedFrom};

use std::simd::prelude::*;

/// How many bytes are examined at once.
const LANES: usize = 32;

/// A bit for each byte, set where it is a line feed.
#[inline(always)]
fn marks_of(bytes: u8x32) -> u64
    ensures { result ≡ mask_l (map (λ b. b == 10) bytes) }
{
    bytes.simd_eq(u8x32::splat(b'\n')).to_bitmask()
}

/// The first offset of a line feed among few bytes.
fn feed_of_few(text: &[u8]) -> Option<usize>
    ensures { result ≡ position (λ b. b == 10) text.now }
{
    text.iter().position(|b| *b == b'\n')
}

/// The first offset of a line feed.
pub fn feed_at(text: &[u8]) -> Option<usize>
    ensures { result ≡ position (λ b. b == 10) text.now }
{
    let mut at = 0usize;
    'wide: while text.len() - at >= LANES {
        let marks = marks_of(u8x32::from_slice(&text[at..]));
        if marks != 0 {
            return Some(at + marks.trailing_zeros() as usize);
        }
        at += LANES;
    }
    match feed_of_few(&text[at..]) {
        Some(behind) => Some(at + behind),
        None => None,
    }
}

/// The offset after the last line feed of the 32 bytes from an offset on, or that offset if they have none.
#[inline(always)]
fn after_feeds(text: &[u8], at: usize) -> usize
    requires { at + 32 ≤ length text.now }
    ensures from { at ≤ result }
    ensures within { result ≤ at + 32 }
    ensures none { HasNoFeedFrom text.now result (at + 32) }
{
    let marks = marks_of(u8x32::from_slice(&text[at..]));
    at + (u64::BITS - marks.leading_zeros()) as usize
}

/// Returns an offset such that no line feed lies between it and `place`: the one after the last line feed, or `at` if that is greater. The
/// first bytes of the haystack, which are too few to be examined at once, are never skipped.
pub(crate) fn skip_back(text: &[u8], at: usize, place: usize) -> usize
    requires { place ≤ length text.now }
    ensures from { at ≤ place → at ≤ result }
    ensures within { result ≤ place }
    ensures none { HasNoFeedFrom text.now result place }
{
    let low = at.min(place);
    let mut start = place;
    'wide: while low < start && start >= LANES {
        let first = start - LANES;
        start = after_feeds(text, first);
        if first < start {
            return start.max(low);
        }
    }
    start.max(low)
}
