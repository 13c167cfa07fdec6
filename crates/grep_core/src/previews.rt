//! The beginnings of lines and matches that are too long, and what follows them.
ghost use Rattle.std.specs.Prelude.{◌≡◌, IfOk, count_by, get_or, map, not, nat_lt, take, unwrap_or};
ghost use Rattle.grep_core.specs.Printing.{cut_at, end_note, is_inner, more_note};
ghost use Rattle.line_search.specs.LineMatchers.{span_pair};

use search_types::Span;
use std::alloc::{AllocError, Global};

/// Whether the byte at this offset is one of a character after its first one.
fn is_inner(text: &[u8], at: usize) -> bool
    ensures { result ≡ is_inner (get_or text.now at 0) }
{
    match text.get(at) {
        Some(byte) => *byte > 127 && *byte < 192,
        None => false,
    }
}

/// The greatest offset up to this one that isn't inside a character.
#[tactic(auto, using(crate::proofs::PreviewLemmas::cut_further, crate::proofs::PreviewLemmas::cut_here, crate::proofs::PreviewLemmas::cut_none))]
fn cut_at(text: &[u8], most: usize) -> usize
    ensures { result ≡ cut_at text.now most }
{
    let mut at = most;
    while at > 0 && is_inner(text, at) {
        at -= 1;
    }
    at
}

/// The beginning of a text that has more than so many bytes: whole characters.
pub(crate) fn front(most: Option<u64>, text: &[u8]) -> &[u8]
    ensures { result.now ≡ take (cut_at text.now (unwrap_or most 0)) text.now }
{
    let cut = cut_at(text, most.unwrap_or(0) as usize);
    if cut > text.len() {
        return text;
    }
    &text[..cut]
}

/// What follows the beginning of a line, if this number of matches begins after it.
pub(crate) fn more_note(alloc: Global, count: usize) -> Result<Vec<u8>, AllocError>
    ensures { IfOk result (λ v. v.items ≡ more_note count) }
{
    let text = if count == 1 {
        format!(in alloc; " [... {count} more match]")?
    } else {
        format!(in alloc; " [... {count} more matches]")?
    };
    text.as_str().as_bytes().to_vec(alloc)
}

/// How many of these matches begin after the first bytes of a line.
fn count_after(shown: &[Span], len: usize) -> usize
    ensures { result ≡ count_by (λ s. not (nat_lt s.0 len)) (map span_pair shown.now) }
{
    let mut count = 0usize;
    for span in shown {
        if span.start >= len {
            count += 1;
        }
    }
    count
}

/// What follows the first bytes of a line in which these matches are shown.
pub(crate) fn end_note(alloc: Global, shown: &[Span], len: usize) -> Result<Vec<u8>, AllocError>
    ensures { IfOk result (λ v. v.items ≡ end_note (map span_pair shown.now) len) }
{
    if shown.is_empty() {
        return b" [... omitted end of long line]".to_vec(alloc);
    }
    more_note(alloc, count_after(shown, len))
}
