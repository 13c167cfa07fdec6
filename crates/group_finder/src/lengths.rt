//! How many bytes a tree without groups reads, and which.
ghost use Rattle.std.specs.Prelude.{◌≡◌, ◌<◌, ◌≤◌, ◌*◌, ◌+◌, ◌&&◌, ℕ, All, List, IfNone, IfSome, Some, length, map, min, true};
ghost use Rattle.regex_class.specs.Ranges.{in_ranges};
ghost use Rattle.regex_hir.specs.Meaning.{alt_all, cat_all, meaning};
ghost use Rattle.search_core.specs.ByteSets.{has};
ghost use Rattle.group_finder.specs.Layouts.{Reads, Widens};

use regex_class::Class;
use regex_hir::Hir;
use search_core::ByteSet;

/// How many bytes are read: at least so many, and no more if the length is fixed.
#[derive(Clone, Copy, Drop)]
pub(crate) struct Lengths {
    pub(crate) least: usize,
    pub(crate) fixed: bool,
}

/// Exactly so many.
fn exactly(count: usize) -> Lengths
    ensures { result ≡ record { least = count; fixed = true } }
{
    Lengths {
        least: count,
        fixed: true,
    }
}

/// The lengths of one part after another, if they can be counted.
fn joined(first: Lengths, second: Lengths) -> Option<Lengths>
    ensures { IfSome result (λ n. n ≡ record { least = first.least + second.least; fixed = first.fixed && second.fixed }) }
{
    let least = first.least.checked_add(second.least)?;
    Some(Lengths {
        least,
        fixed: first.fixed && second.fixed,
    })
}

/// The lengths of either of two parts. If there is no other part, they are those of the first.
fn either(first: Lengths, other: Option<Lengths>) -> Lengths
    ensures alone { IfNone other (result ≡ first) }
    ensures both { IfSome other (λ n. (result.least ≡ min first.least n.least)
        × (result.fixed ≡ true → (first.fixed ≡ true) × (n.fixed ≡ true) × (first.least ≡ n.least))) }
{
    match other {
        None => first,
        Some(other) => Lengths {
            least: first.least.min(other.least),
            fixed: first.fixed && other.fixed && first.least == other.least,
        },
    }
}

/// The lengths of a repetition, if they can be counted.
fn repeated(each: Lengths, least: u32, most: Option<u32>) -> Option<Lengths>
    ensures { IfSome result (λ n. (n.least ≡ each.least * least)
        × (n.fixed ≡ true → (each.fixed ≡ true) × (most ≡ Some least))) }
{
    let total = each.least.checked_mul(least as usize)?;
    Some(Lengths {
        least: total,
        fixed: each.fixed && most == Some(least),
    })
}

/// Adds bytes to a set.
fn add_bytes(set: &mut ByteSet, bytes: &[u8])
    requires { length set.old ≡ 256 }
    ensures widens { Widens set.old set.new }
    ensures added { All (λ b. has set.new b ≡ true) bytes.now }
{
    for i in 0..bytes.len() {
        set.add(bytes[i]);
    }
}

/// Adds the members below a number, which is at most 256.
fn add_members(set: &mut ByteSet, class: &Class, below: usize)
    requires whole { length set.old ≡ 256 }
    requires bytes { below ≤ 256 }
    ensures widens { Widens set.old set.new }
    ensures added { (b : ℕ) → b < below → in_ranges class.now.ranges.items b ≡ true → has set.new b ≡ true }
{
    for byte in 0..below {
        if class.contains(byte as u32) {
            set.add(byte as u8);
        }
    }
}

/// Adds all bytes above ASCII.
fn add_high(set: &mut ByteSet)
    requires { length set.old ≡ 256 }
    ensures widens { Widens set.old set.new }
    ensures added { (b : ℕ) → 128 ≤ b → b < 256 → has set.new b ≡ true }
{
    for byte in 128..256usize {
        set.add(byte as u8);
    }
}

/// Adds the bytes that spell the characters of a class, and all bytes above ASCII if one of its characters is above. Returns whether all
/// are ASCII.
fn add_chars(set: &mut ByteSet, class: &Class) -> bool
    requires { length set.old ≡ 256 }
    ensures widens { Widens set.old set.new }
    ensures ascii { (c : ℕ) → c < 128 → in_ranges class.now.ranges.items c ≡ true → has set.new c ≡ true }
    ensures high { (c : ℕ) → 128 ≤ c → in_ranges class.now.ranges.items c ≡ true → (b : ℕ) → 128 ≤ b → b < 256 → has set.new b ≡ true }
    ensures alone { result ≡ true → (c : ℕ) → in_ranges class.now.ranges.items c ≡ true → c ≤ 127 }
{
    add_members(set, class, 128);
    if class.is_within(127) {
        return true;
    }
    add_high(set);
    false
}

/// The lengths of a tree, whose bytes are added to a set. There are none for a tree with groups.
#[cycle(lengths)]
pub(crate) fn lengths_of(hir: &Hir, set: &mut ByteSet) -> Option<Lengths>
    requires { length set.old ≡ 256 }
    ensures widens { Widens set.old set.new }
    ensures reads { IfSome result (Reads (meaning hir.now) set.new) }
{
    match hir {
        Hir::Empty => Some(exactly(0)),
        Hir::Look(_) => Some(exactly(0)),
        Hir::Literal(bytes) => {
            add_bytes(set, bytes);
            Some(exactly(bytes.len()))
        }
        Hir::Bytes(class) => {
            add_members(set, class, 256);
            Some(exactly(1))
        }
        Hir::Chars(class) => {
            let fixed = add_chars(set, class);
            Some(Lengths { least: 1, fixed })
        }
        Hir::Repetition { min, max, sub, .. } => {
            let each = lengths_of(sub, set)?;
            repeated(each, *min, *max)
        }
        Hir::Capture { .. } => None,
        Hir::Concat(subs) => lengths_of_all(subs, set),
        Hir::Alternation(subs) => lengths_of_any(subs, set),
    }
}

/// The lengths of trees one after the other.
#[cycle(lengths)]
fn lengths_of_all(subs: &[Hir], set: &mut ByteSet) -> Option<Lengths>
    requires { length set.old ≡ 256 }
    ensures widens { Widens set.old set.new }
    ensures reads { IfSome result (Reads (cat_all (map meaning subs.now)) set.new) }
{
    let mut total = exactly(0);
    for i in (0..subs.len()).rev() {
        let part = lengths_of(&subs[i], set)?;
        total = joined(part, total)?;
    }
    Some(total)
}

/// The lengths of any of several trees.
#[cycle(lengths)]
fn lengths_of_any(subs: &[Hir], set: &mut ByteSet) -> Option<Lengths>
    requires { length set.old ≡ 256 }
    ensures widens { Widens set.old set.new }
    ensures reads { IfSome result (Reads (alt_all (map meaning subs.now)) set.new) }
{
    let mut total = None;
    for i in (0..subs.len()).rev() {
        let part = lengths_of(&subs[i], set)?;
        total = Some(either(part, total));
    }
    total
}
