// Why a query that was read is rejected with the haystack after it.
ghost use Rattle.std.specs.Prelude.{◌≡◌, IfOk, option_map, string_bytes};
ghost use Rattle.hir_regex.specs.BrokenText.{first_broken};
ghost use Rattle.hirscan.specs.QueryReports.{value_of_query};
ghost use Rattle.hirscan.specs.Rejections.{first_not_utf8, span_of, is_span, pattern_causes, haystack_causes};
ghost use Rattle.hirscan.specs.Rejections.{rejection};

use crate::head::Head;
use hir_core::Hir;
use hir_regex::{first_broken, first_empty_loop};
use search_types::Span;
use std::alloc::{AllocError, Global};

/// The number of the first pattern whose spans aren't known to be UTF-8.
fn first_not_utf8(patterns: &[Hir]) -> Option<usize>
    ensures { result ≡ first_not_utf8 patterns.now }
{
    patterns.iter().position(|x| !x.properties().is_utf8())
}

/// Whether the part of the haystack that is searched fits.
fn span_fits(span: Option<Span>, h: &[u8]) -> bool
    ensures { result ≡ is_span (span_of span h.now) h.now }
{
    match span {
        None => true,
        Some(span) => span.end <= h.len() && span.start <= span.end.saturating_add(1),
    }
}

/// The cause that lies in the patterns, if there is one.
fn pattern_cause(alloc: Global, head: &Head) -> Result<Option<String>, AllocError>
    ensures { IfOk result (λ cause. option_map string_bytes cause ≡ pattern_causes head.now.settings.utf8 head.now.patterns.items) }
{
    if let Some(pattern) = first_empty_loop(&head.patterns) {
        let cause = format!(in alloc; "pattern {pattern}: unbounded body may be empty")?;
        return Ok(Some(cause));
    }
    if head.settings.utf8 {
        if let Some(pattern) = first_not_utf8(&head.patterns) {
            let cause = format!(in alloc; "pattern {pattern}: not UTF-8")?;
            return Ok(Some(cause));
        }
    }
    Ok(None)
}

/// The cause that lies in the haystack, or in the part of it that is searched, if there is one.
fn haystack_cause(alloc: Global, head: &Head, h: &[u8]) -> Result<Option<String>, AllocError>
    ensures { IfOk result (λ cause. option_map string_bytes cause ≡ haystack_causes head.now.settings.utf8 head.now.span h.now) }
{
    if head.settings.utf8 {
        if let Some(at) = first_broken(h) {
            let cause = format!(in alloc; "haystack not UTF-8 at {at}")?;
            return Ok(Some(cause));
        }
    }
    if !span_fits(head.span, h) {
        return Ok(Some(String::from_str(alloc, "span")?));
    }
    Ok(None)
}

/// Returns the first cause that shows in the input to reject this query with this haystack, or `None` if its patterns are
/// searched for.
pub(crate) fn refusal_cause(
    alloc: Global,
    head: &Head,
    h: &[u8],
) -> Result<Option<String>, AllocError>
    ensures { IfOk result (λ cause. option_map string_bytes cause ≡ rejection (value_of_query head.now).setup head.now.patterns.items
        h.now) }
{
    if let Some(cause) = pattern_cause(alloc, head)? {
        return Ok(Some(cause));
    }
    haystack_cause(alloc, head, h)
}
