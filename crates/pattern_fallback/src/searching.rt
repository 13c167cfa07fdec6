//! Searches by a program of the toolchain.
ghost use Rattle.std.specs.Prelude.{◌≡◌, ◌≤◌, ◌<◌, ◌∷◌, ◌++◌, ◌==◌, [], All, IfOk, IfSome, OnOk, is_some, true, length, map, option_map};
ghost use Rattle.regex.specs.Search.{LiesWithin, leftmost_in};
ghost use Rattle.regex_hir.specs.Find.{find_all};
ghost use Rattle.regex_hir.specs.Re.{Re};
ghost use Rattle.regex_hir.specs.Text.{is_boundary, is_some_and};
ghost use Rattle.regex_meta.specs.Programs.{pattern_of};
ghost use Rattle.regex_syntax.specs.Captures.{SameCaptures};
ghost use Rattle.regex_vm.specs.Found.{span};
ghost use Rattle.pattern_fallback.specs.Fallbacks.{found_at, found_in, next_after, span_pair};

use regex_meta::Searcher;
use search_types::Span;
use std::alloc::{AllocError, Global};

/// The elements of a haystack are bytes, below 256.
pub(crate) fn see_bytes(bytes: &[u8])
    ensures { All (λ byte. byte < 256) bytes.now }
{}

/// The span of the match from an offset on, which may start at any byte.
fn find_in_bytes(searcher: &mut Searcher<'_>, haystack: &[u8], start: usize) -> Option<Span>
    requires { start ≤ length haystack.now }
    ensures found { option_map span_pair result ≡ found_at (pattern_of searcher.old.program.now) haystack.now start }
    ensures same { searcher.new.program.now ≡ searcher.old.program.now }
{
    match searcher.find(haystack, start) {
        Some((start, end)) => Some(Span { start, end }),
        None => None,
    }
}

/// Whether an offset isn't inside a character.
fn is_boundary(haystack: &[u8], at: usize) -> bool
    ensures { result ≡ is_boundary haystack.now at }
{
    if at >= haystack.len() {
        return true;
    }
    (haystack[at] < 0x80) | (haystack[at] > 0xBF)
}

/// The span of the match from an offset on. In UTF-8 mode it doesn't start inside a character.
fn find_leftmost(
    searcher: &mut Searcher<'_>,
    haystack: &[u8],
    start: usize,
    utf8: bool,
) -> Option<Span>
    requires { start ≤ length haystack.now }
    ensures found { option_map span_pair result ≡ found_in utf8 (pattern_of searcher.old.program.now) haystack.now start }
    ensures same { searcher.new.program.now ≡ searcher.old.program.now }
{
    let mut at = start;
    loop {
        let Some(found) = find_in_bytes(searcher, haystack, at) else {
            return None;
        };
        if !utf8 || is_boundary(haystack, found.start) {
            return Some(found);
        }
        at = found.start + 1;
    }
}

/// The span of the leftmost match that starts at an offset or after it. Look-around assertions see what precedes the offset. In UTF-8 mode
/// no match starts inside a character.
pub fn find_from(
    searcher: &mut Searcher<'_>,
    haystack: &[u8],
    start: usize,
    utf8: bool,
) -> Option<Span>
    requires { start ≤ length haystack.now }
    ensures found { (a : Re) → SameCaptures (pattern_of searcher.old.program.now) a →
        option_map span_pair result ≡ found_in utf8 a haystack.now start }
    ensures within { IfSome result (λ s. LiesWithin start (length haystack.now) (span_pair s)) }
    ensures same { searcher.new.program.now ≡ searcher.old.program.now }
{
    see_bytes(haystack);
    find_leftmost(searcher, haystack, start, utf8)
}

/// Whether there is a match. In UTF-8 mode no match starts inside a character.
pub fn has_one(searcher: &mut Searcher<'_>, haystack: &[u8], utf8: bool) -> bool
    ensures reported { (a : Re) → SameCaptures (pattern_of searcher.old.program.now) a →
        result ≡ is_some (leftmost_in utf8 a haystack.now 0) }
    ensures same { searcher.new.program.now ≡ searcher.old.program.now }
{
    see_bytes(haystack);
    if utf8 {
        find_leftmost(searcher, haystack, 0, true).is_some()
    } else {
        searcher.is_match(haystack, 0)
    }
}

/// Whether there is a span, and it ends at this offset.
pub fn ends_at(next: Option<Span>, end: usize) -> bool
    ensures { result ≡ is_some_and (option_map span_pair next) (λ s. s.1 == end) }
{
    match next {
        Some(span) => span.end == end,
        None => false,
    }
}

/// The next span after one that ended at this offset. An empty span there is skipped.
fn find_next(searcher: &mut Searcher<'_>, haystack: &[u8], end: usize) -> Option<Span>
    ensures found { option_map span_pair result ≡ next_after (found_at (pattern_of searcher.old.program.now) haystack.now) end }
    ensures same { searcher.new.program.now ≡ searcher.old.program.now }
{
    if end > haystack.len() {
        return None;
    }
    let next = find_in_bytes(searcher, haystack, end);
    if !ends_at(next, end) {
        return next;
    }
    if end >= haystack.len() {
        return None;
    }
    find_in_bytes(searcher, haystack, end + 1)
}

fn push_span(found: &mut Vec<Span>, span: Span) -> Result<(), AllocError>
    ensures { OnOk result (map span_pair found.new.items ≡ map span_pair found.old.items ++ span_pair span ∷ []) }
{
    found.push(span)?;
    Ok(())
}

/// The spans of all matches, from left to right. An empty match right after another match is skipped.
pub fn all_matches(
    alloc: Global,
    searcher: &mut Searcher<'_>,
    haystack: &[u8],
) -> Result<Vec<Span>, AllocError>
    ensures found { IfOk result (λ found. (a : Re) → SameCaptures (pattern_of searcher.old.program.now) a →
        map span_pair found.items ≡ map span (find_all a haystack.now)) }
    ensures same { searcher.new.program.now ≡ searcher.old.program.now }
{
    see_bytes(haystack);
    let mut found = Vec::new(alloc);
    let mut next = find_in_bytes(searcher, haystack, 0);
    let most = haystack.len() + 1;
    for step in 0..most {
        let Some(span) = next else {
            return Ok(found);
        };
        push_span(&mut found, span)?;
        next = find_next(searcher, haystack, span.end);
    }
    Ok(found)
}
