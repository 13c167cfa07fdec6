//! The members of small classes as literals.
ghost use Rattle.std.specs.Prelude.{◌≡◌, ◌+◌, ◌<◌, ◌≤◌, ℕ, List, [], ◌∷◌, IsTrue, IfOk, OnOk};
ghost use Rattle.std.specs.Char.{encode_utf8};
ghost use Rattle.search_core.specs.Utf8.{Spells};
ghost use Rattle.hir_core.specs.Means.{is_member};
ghost use Rattle.literal_search.specs.Literals.{KeepsAll, Listed};

use crate::literals::Literals;
use std::alloc::{AllocError, Global};

/// How many bytes the ranges have.
pub(crate) fn byte_count(ranges: &[(u8, u8)]) -> usize {
    let mut count = 0usize;
    for range in ranges {
        let width = (range.1 as usize).saturating_sub(range.0 as usize);
        count = count.saturating_add(width).saturating_add(1);
    }
    count
}

/// How many scalars the ranges have, surrogates counted.
pub(crate) fn char_count(ranges: &[(char, char)]) -> usize {
    let mut count = 0usize;
    for range in ranges {
        let width = (range.1 as usize).saturating_sub(range.0 as usize);
        count = count.saturating_add(width).saturating_add(1);
    }
    count
}

/// Appends each byte from `low` to `high`.
fn append_bytes(alloc: Global, literals: &mut Literals, low: u8, high: u8) -> Result<(), AllocError>
    ensures keeps { OnOk result (KeepsAll literals.old literals.new) }
    ensures added { OnOk result ((b : ℕ) → low ≤ b → b ≤ high → Listed literals.new (b ∷ [])) }
{
    let mut next = high as usize + 1;
    while next > low as usize {
        next -= 1;
        literals.push(vec![in alloc; next as u8]?)?;
    }
    Ok(())
}

/// Each byte of the ranges, as a literal.
pub(crate) fn byte_literals(alloc: Global, ranges: &[(u8, u8)]) -> Result<Literals, AllocError>
    ensures { IfOk result (λ r. (b : ℕ) → IsTrue (is_member ranges.now b) → Listed r (b ∷ [])) }
{
    let mut literals = Literals::new(alloc);
    let mut n = ranges.len();
    while n > 0 {
        n -= 1;
        append_bytes(alloc, &mut literals, ranges[n].0, ranges[n].1)?;
    }
    Ok(literals)
}

/// The UTF-8 of a scalar.
fn encoded(alloc: Global, scalar: char) -> Result<Vec<u8>, AllocError>
    ensures { IfOk result (λ v. v.items ≡ encode_utf8 scalar) }
{
    let mut buffer = [0u8; 4];
    let text = scalar.encode_utf8(&mut buffer);
    let bytes = text.as_bytes().to_vec(alloc)?;
    Ok(bytes)
}

/// Appends the UTF-8 of a scalar, if the number is one.
fn append_scalar(alloc: Global, literals: &mut Literals, number: u32) -> Result<(), AllocError>
    ensures keeps { OnOk result (KeepsAll literals.old literals.new) }
    ensures added { OnOk result ((s : List ℕ) → Spells number s → Listed literals.new s) }
{
    let Some(scalar) = char::from_u32(number) else {
        return Ok(());
    };
    literals.push(encoded(alloc, scalar)?)?;
    Ok(())
}

/// Appends the UTF-8 of each scalar from `low` to `high`.
fn append_chars(
    alloc: Global,
    literals: &mut Literals,
    low: char,
    high: char,
) -> Result<(), AllocError>
    ensures keeps { OnOk result (KeepsAll literals.old literals.new) }
    ensures added { OnOk result ((c : ℕ) (s : List ℕ) → low ≤ c → c ≤ high → Spells c s → Listed literals.new s) }
{
    let mut next = high as u32 + 1;
    while next > low as u32 {
        next -= 1;
        append_scalar(alloc, literals, next)?;
    }
    Ok(())
}

/// The UTF-8 of each scalar of the ranges, as a literal.
pub(crate) fn char_literals(alloc: Global, ranges: &[(char, char)]) -> Result<Literals, AllocError>
    ensures { IfOk result (λ r. (c : ℕ) (s : List ℕ) → IsTrue (is_member ranges.now c) → Spells c s → Listed r s) }
{
    let mut literals = Literals::new(alloc);
    let mut n = ranges.len();
    while n > 0 {
        n -= 1;
        append_chars(alloc, &mut literals, ranges[n].0, ranges[n].1)?;
    }
    Ok(literals)
}
