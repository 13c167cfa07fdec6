// The facts of a leaf from its bytes or its ranges.
ghost use Rattle.std.specs.Prelude.{◌≡◌, nat_lt, length};
ghost use Rattle.std.specs.List.{list_all};
ghost use Rattle.std.specs.Str.{is_utf8};
ghost use Rattle.hir_core.specs.Sequences.{utf8_sequences};
ghost use Rattle.hir_core.specs.Facts.{least_spelling, longest_spelling, capped, sequence_count};

use crate::facts::least_of_either;
use crate::utf8_sequences::Utf8Sequences;

/// Whether the bytes are valid UTF-8.
#[tactic(auto, using(crate::proofs::Utf8Lemmas::is_utf8_yes, crate::proofs::Utf8Lemmas::is_utf8_no))]
pub fn is_utf8(bytes: &[u8]) -> bool
    ensures { result ≡ is_utf8 bytes.now }
{
    str::from_utf8(bytes).is_ok()
}

/// Whether the ranges have only bytes of ASCII.
pub fn are_ascii(ranges: &[(u8, u8)]) -> bool
    ensures { result ≡ list_all (λ r. nat_lt r.1 0x80) ranges.now }
{
    ranges.iter().all(|range| range.1 < 0x80)
}

/// The least number of bytes that spell a scalar of the ranges.
#[tactic(auto, using(crate::proofs::BackwardLemmas::behind_more, crate::proofs::BackwardLemmas::behind_all))]
pub fn least_spelling(ranges: &[(char, char)]) -> Option<usize>
    ensures { result ≡ least_spelling ranges.now }
{
    let mut least = None;
    for range in ranges.iter().rev() {
        least = least_of_either(Some(range.0.len_utf8()), least);
    }
    least
}

/// The greatest number of bytes that spell a scalar of the ranges.
pub fn longest_spelling(ranges: &[(char, char)]) -> Option<usize>
    ensures { result ≡ longest_spelling ranges.now }
{
    if ranges.is_empty() {
        return None;
    }
    let mut longest = 0usize;
    for range in ranges {
        longest = longest.max(range.1.len_utf8());
    }
    Some(longest)
}

/// How many sequences of byte ranges spell the scalars from `start` to `end`.
fn sequences_between(start: char, end: char) -> usize
    ensures { result ≡ length (utf8_sequences start end) }
{
    Utf8Sequences::new(start, end).count()
}

/// How many sequences of byte ranges spell the scalars of the ranges, at most `usize::MAX`.
#[tactic(auto, using(crate::proofs::BackwardLemmas::behind_more, crate::proofs::BackwardLemmas::behind_all))]
pub fn sequence_count(ranges: &[(char, char)]) -> usize
    ensures { result ≡ capped (sequence_count ranges.now) }
{
    let mut sequences = 0usize;
    for range in ranges.iter().rev() {
        sequences = sequences.saturating_add(sequences_between(range.0, range.1));
    }
    sequences
}
