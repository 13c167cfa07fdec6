//! Which bytes matches begin with.
ghost use Rattle.std.specs.Prelude.{◌≡◌, ◌==◌, ◌<◌, ◌≤◌, ℕ, IfSome, length, nat_lt, true, if◌then◌else◌};
ghost use Rattle.search_core.specs.ByteSets.{has};
ghost use Rattle.hir_core.specs.Tree.{Tree, alternation, concat};
ghost use Rattle.hir_core.specs.Means.{is_member};
ghost use Rattle.literal_search.specs.Searches.{IsNextStart};
ghost use Rattle.meta_regex.specs.FirstBytes.{AreFirstBytes, begins_with, has_high, may_be_empty, may_begin};

use hir_core::{Hir, HirKind};
use search_core::ByteSet;

/// How many bytes are examined one by one for one with which a match may begin.
pub(crate) const MOST_SCANNED: usize = 64;

/// Trees with more states than this aren't examined for the bytes with which their spans begin.
const MOST_STATES: usize = 1 << 15;

/// Whether the bytes begin with this one.
fn begins_with(bytes: &[u8], byte: u8) -> bool
    ensures { result ≡ begins_with bytes.now byte }
{
    match bytes.split_first() {
        Some((first, _)) => *first == byte,
        None => false,
    }
}

pub(crate) fn has_byte(ranges: &[(u8, u8)], byte: u8) -> bool
    ensures { result ≡ is_member ranges.now byte }
{
    ranges
        .iter()
        .any(|range| range.0 <= byte && byte <= range.1)
}

pub(crate) fn has_char(ranges: &[(char, char)], byte: u8) -> bool
    ensures { result ≡ is_member ranges.now byte }
{
    ranges.iter().any(|range| range.0 as u32 <= byte as u32 && byte as u32 <= range.1 as u32)
}

/// Whether one of the ranges ends above ASCII.
pub(crate) fn has_high(ranges: &[(char, char)]) -> bool
    ensures { result ≡ has_high ranges.now }
{
    ranges.iter().any(|range| 0x80 <= range.1 as u32)
}

/// Whether the UTF-8 of a character of the ranges may begin with this byte.
fn may_lead(ranges: &[(char, char)], byte: u8) -> bool
    ensures { result ≡ (if nat_lt byte 0x80 then is_member ranges.now byte else has_high ranges.now) }
{
    if byte < 0x80 {
        return has_char(ranges, byte);
    }
    has_high(ranges)
}

/// Whether the tree may have an empty span.
#[cycle(may_be_empty)]
pub(crate) fn may_be_empty(x: &Hir) -> bool
    ensures { result ≡ may_be_empty x.now }
{
    match x.kind() {
        HirKind::Empty | HirKind::Look(_) => true,
        HirKind::Literal(bytes) => bytes.len() == 0,
        HirKind::Bytes(_) | HirKind::Chars(_) => false,
        HirKind::Repetition { min, sub, .. } => *min == 0 || may_be_empty(sub),
        HirKind::Capture { sub, .. } => may_be_empty(sub),
        HirKind::Concat(subs) => all_may_be_empty(subs),
        HirKind::Alternation(subs) => any_may_be_empty(subs),
    }
}

#[cycle(may_be_empty)]
fn all_may_be_empty(xs: &[Hir]) -> bool
    ensures { result ≡ may_be_empty (concat xs.now) }
{
    for x in xs {
        if !may_be_empty(x) {
            return false;
        }
    }
    true
}

#[cycle(may_be_empty)]
fn any_may_be_empty(xs: &[Hir]) -> bool
    ensures { result ≡ may_be_empty (alternation xs.now) }
{
    for x in xs {
        if may_be_empty(x) {
            return true;
        }
    }
    false
}

/// Whether a span of the tree that isn't empty may begin with this byte.
#[cycle(may_begin)]
pub(crate) fn may_begin(x: &Hir, byte: u8) -> bool
    ensures { result ≡ may_begin x.now byte }
{
    match x.kind() {
        HirKind::Empty | HirKind::Look(_) => false,
        HirKind::Literal(bytes) => begins_with(bytes, byte),
        HirKind::Bytes(ranges) => has_byte(ranges, byte),
        HirKind::Chars(ranges) => may_lead(ranges, byte),
        HirKind::Repetition { sub, .. } => may_begin(sub, byte),
        HirKind::Capture { sub, .. } => may_begin(sub, byte),
        HirKind::Concat(subs) => sequence_may_begin(subs, byte),
        HirKind::Alternation(subs) => any_may_begin(subs, byte),
    }
}

/// Whether a span of the concatenation of these trees that isn't empty may begin with this byte.
#[cycle(may_begin)]
fn sequence_may_begin(xs: &[Hir], byte: u8) -> bool
    ensures { result ≡ may_begin (concat xs.now) byte }
{
    for x in xs {
        if may_begin(x, byte) {
            return true;
        }
        if !may_be_empty(x) {
            return false;
        }
    }
    false
}

/// Whether a span of one of these trees that isn't empty may begin with this byte.
#[cycle(may_begin)]
fn any_may_begin(xs: &[Hir], byte: u8) -> bool
    ensures { result ≡ may_begin (alternation xs.now) byte }
{
    for x in xs {
        if may_begin(x, byte) {
            return true;
        }
    }
    false
}

/// All bytes that a span of one of these trees may begin with that isn't empty.
fn bytes_of(trees: &[Hir]) -> ByteSet
    ensures { (b : ℕ) → b < 256 → may_begin (alternation trees.now) b ≡ true → has result b ≡ true }
{
    let mut set = ByteSet::empty();
    for byte in 0..=255u8 {
        if any_may_begin(trees, byte) {
            set.add(byte);
        }
    }
    set
}

/// The bytes with which the spans of one of these trees begin. It returns `None` if there may be an empty span.
pub(crate) fn set_of_first_bytes(trees: &[Hir]) -> Option<ByteSet>
    ensures { IfSome result (λ set. AreFirstBytes set (alternation trees.now)) }
{
    if any_may_be_empty(trees) {
        return None;
    }
    Some(bytes_of(trees))
}

/// Whether the spans of these trees may begin with the bytes that are most common in text, and the trees are small.
pub(crate) fn begins_often(trees: &[Hir]) -> bool {
    for tree in trees {
        if MOST_STATES < tree.count() {
            return false;
        }
    }
    trees.len() < MOST_STATES && any_may_begin(trees, b'e') && any_may_begin(trees, b't')
}

/// The next offset at which a byte of the set is, the only ones at which a span may start that begins with one. If it isn't among the next
/// [`MOST_SCANNED`] bytes, it returns the offset after these.
pub(crate) fn next_of(set: &ByteSet, haystack: &[u8], from: usize) -> Option<usize>
    requires { from ≤ length haystack.now }
    ensures { (x : Tree) → AreFirstBytes set.now x → IsNextStart x haystack.now from result }
{
    let end = haystack.len().min(from.saturating_add(MOST_SCANNED));
    let mut at = from;
    while at < end {
        if set.contains(haystack[at]) {
            return Some(at);
        }
        at += 1;
    }
    if at < haystack.len() {
        return Some(at);
    }
    None
}
