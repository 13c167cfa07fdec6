//! Which trees are read to their end within few bytes of typical text, whether they match there or not.

use hir_core::{Hir, HirKind};
use line_trees::reads_feed;

/// Whether a class of bytes has the most common letter.
fn has_letter(ranges: &[(u8, u8)]) -> bool {
    ranges
        .iter()
        .any(|range| range.0 <= b'e' && b'e' <= range.1)
}

/// Whether a class of characters has the most common letter.
fn has_letter_char(ranges: &[(char, char)]) -> bool {
    ranges.iter().any(|range| range.0 <= 'e' && 'e' <= range.1)
}

/// Whether any number of rounds of this body end within a line or a word of typical text.
fn is_short_body(body: &Hir) -> bool {
    if !reads_feed(body) {
        return true;
    }
    match body.kind() {
        HirKind::Bytes(ranges) => !has_letter(ranges),
        HirKind::Chars(ranges) => !has_letter_char(ranges),
        _ => false,
    }
}

/// Whether a match of the tree, or what looks like one, ends within few bytes of typical text: in each unbounded repetition, the body consumes no
/// line feed, or it is a class without letters.
#[cycle(has_short_loops)]
pub(crate) fn has_short_loops(x: &Hir) -> bool {
    match x.kind() {
        HirKind::Empty
        | HirKind::Look(_)
        | HirKind::Literal(_)
        | HirKind::Bytes(_)
        | HirKind::Chars(_) => true,
        HirKind::Repetition { max, sub, .. } => match max {
            Some(_) => has_short_loops(sub),
            None => is_short_body(sub),
        },
        HirKind::Capture { sub, .. } => has_short_loops(sub),
        HirKind::Concat(subs) => all_have_short_loops(subs),
        HirKind::Alternation(subs) => all_have_short_loops(subs),
    }
}

/// Whether each of the trees has short loops alone.
#[cycle(has_short_loops)]
pub(crate) fn all_have_short_loops(xs: &[Hir]) -> bool {
    for x in xs {
        if !has_short_loops(x) {
            return false;
        }
    }
    true
}
