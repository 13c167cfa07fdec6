//! The order in which several strings are searched for.
ghost use Rattle.std.specs.Prelude.{◌≡◌, OnOk, chars, false, length, map, true};
ghost use Rattle.std.specs.List.Sorted.{IsPermutation, IsSortedBy, IsStableBy};
ghost use Rattle.std.specs.List.{list_any};
ghost use Rattle.std.specs.Ordering.{is_lt};
ghost use Rattle.grep_cli.specs.Strings.{are_strings, has_operator, is_longer, is_special};

use std::alloc::AllocError;
use std::cmp::Ordering;

/// The operators of patterns, by their first bytes.
const OPERATORS: &[u8] = b"\\.^$|*+?()[{";

/// Whether the byte is an operator of patterns, or begins one.
fn is_special(byte: u8) -> bool
    ensures { result ≡ is_special byte }
{
    OPERATORS.contains(&byte)
}

/// Whether a pattern has an operator.
fn has_operator(pattern: &[u8]) -> bool
    ensures { result ≡ has_operator pattern.now }
{
    pattern.iter().any(|byte| is_special(*byte))
}

/// Whether one of the patterns has an operator.
fn any_has_operator(patterns: &[&str]) -> bool
    ensures { result ≡ list_any has_operator (map (λ p. p.now) patterns.now) }
{
    for pattern in patterns {
        if has_operator(pattern.as_bytes()) {
            return true;
        }
    }
    false
}

/// Whether all patterns stand for themselves alone.
fn are_strings(patterns: &[&str]) -> bool
    ensures { result ≡ are_strings (map (λ p. p.now) patterns.now) }
{
    !any_has_operator(patterns)
}

/// How many characters a pattern has.
fn char_count(pattern: &str) -> usize
    ensures { result ≡ length (chars pattern.now) }
{
    pattern.chars().count()
}

/// Compares two patterns by their lengths in characters. The longer one is the lesser one.
fn compare_lengths(a: &str, b: &str) -> Ordering
    ensures { is_lt result ≡ is_longer a.now b.now }
{
    char_count(b).cmp(&char_count(a))
}

/// Puts patterns in the order of their lengths in characters, the longest first. Those of one length stay in their order.
fn sort_by_lengths(patterns: &mut Vec<&str>) -> Result<(), AllocError>
    ensures same { IsPermutation patterns.old.items patterns.new.items }
    ensures sorted { OnOk result (IsSortedBy (λ p q. is_longer p.now q.now) patterns.new.items) }
    ensures stable { IsStableBy (λ p q. is_longer p.now q.now) patterns.old.items patterns.new.items }
{
    patterns.sort_by(|a: &&str, b: &&str| -> Ordering { compare_lengths(a, b) })?;
    Ok(())
}

/// Puts patterns that are strings in the order of their lengths in characters, the longest first. So of several that match at an offset the
/// longest one counts, as in GNU grep. Other patterns stay in their order.
pub fn put_longest_first(fixed: bool, patterns: &mut Vec<&str>) -> Result<(), AllocError>
    ensures same { IsPermutation patterns.old.items patterns.new.items }
    ensures fixed { fixed ≡ true → OnOk result (IsSortedBy (λ p q. is_longer p.now q.now) patterns.new.items) }
    ensures strings { are_strings (map (λ p. p.now) patterns.old.items) ≡ true
        → OnOk result (IsSortedBy (λ p q. is_longer p.now q.now) patterns.new.items) }
    ensures stable { IsStableBy (λ p q. is_longer p.now q.now) patterns.old.items patterns.new.items }
    ensures others { fixed ≡ false → are_strings (map (λ p. p.now) patterns.old.items) ≡ false → patterns.new.items ≡ patterns.old.items }
{
    if fixed || are_strings(patterns.as_slice()) {
        return sort_by_lengths(patterns);
    }
    Ok(())
}
