//! The result of searching a line.
ghost use Rattle.std.specs.Prelude.{◌≡◌, Bool, IfOk, map, true};
ghost use Rattle.grep_core.specs.Blocks.{bytes_or, seen_line};
ghost use Rattle.line_search.specs.Lines.{searched};
ghost use Rattle.line_search.specs.LineMatchers.{span_pair};
ghost use Rattle.line_search.specs.Searchers.{IsMatchReported, SearchesFor, found_by};
ghost use Rattle.grep_core.specs.Reporting.{needs_shown, needs_spans, with_needed_spans};
ghost use Rattle.grep_core.specs.Report.{as_it_is, shown_of};

use crate::output_options::{OutputOptions, Print};
use crate::printing::shows_matches;
use crate::texts::{text_from, without_return};
use line_search::{Fault, Finder, Replaced};
use search_types::Span;
use std::alloc::Global;

/// The result of searching a line.
#[derive(Drop)]
pub(crate) struct Seen {
    /// Whether the line has a match.
    pub has: bool,
    /// The matches, or the spans of what replaces them, if the output depends on these.
    pub found: Vec<Span>,
    /// The line with its matches replaced, if they are.
    pub replaced: Option<Vec<u8>>,
}

/// The bytes of a line as it is shown: those with its matches replaced, if they are, and else its own.
pub(crate) fn shown_bytes<'a>(replaced: &'a Option<Vec<u8>>, bytes: &'a [u8]) -> &'a [u8]
    ensures { result.now ≡ bytes_or replaced.now bytes.now }
{
    match replaced {
        Some(other) => other.as_slice(),
        None => bytes,
    }
}

/// Whether the output depends on what is shown of lines, besides their bytes.
fn needs_shown(what: &OutputOptions) -> bool
    ensures { result ≡ needs_shown what.now }
{
    match what.print {
        Print::Lines => shows_matches(what),
        Print::Matches | Print::CountMatches => true,
        Print::Count => false,
        Print::NameIfAny | Print::NameIfNone | Print::Nothing => false,
    }
}

/// Whether the output depends on the matches of lines. What replaces matches is found without them.
pub fn needs_spans(what: &OutputOptions) -> bool
    ensures { result ≡ needs_spans what.now }
{
    needs_shown(what) && what.replacement.is_none()
}

/// Whether a line has a match. It is searched unless it is known to have one.
fn has_match(
    alloc: Global,
    finder: &mut Finder<'_>,
    line: &[u8],
    is_known: bool,
) -> Result<bool, Fault>
    requires { is_known ≡ true → IsMatchReported finder.old.how finder.old.texts line.now true }
    ensures same { finder.new ≡ finder.old }
    ensures reported { IfOk result (λ reported. IsMatchReported finder.old.how finder.old.texts line.now reported) }
{
    if is_known {
        return Ok(true);
    }
    match finder.has_match(alloc, line) {
        Ok(has) => Ok(has),
        Err(e) => Err(e),
    }
}

/// The bytes of a line against which patterns are matched: the line without its line feed and, with `crlf`, without one carriage return
/// right before that.
pub fn searched(crlf: bool, line: &[u8], is_ended: bool) -> &[u8]
    ensures { result.now ≡ searched crlf (record { bytes = line.now; is_ended = is_ended }) }
{
    if !crlf || !is_ended {
        return line;
    }
    without_return(line)
}

/// The line with its matches replaced. What is searched of it comes first.
fn replace_in(
    alloc: Global,
    finder: &mut Finder<'_>,
    template: &[u8],
    line: &[u8],
    bytes: &[u8],
) -> Result<Replaced, Fault>
    ensures same { finder.new ≡ finder.old }
    ensures replaced { IfOk result (λ r. (is_ended : Bool) → line.now ≡ searched finder.old.how.crlf (record { bytes = bytes.now; is_ended = is_ended }) →
        (spans : Bool) (by : SearchesFor finder.old spans) →
        as_it_is (record { bytes = r.bytes.items; is_ended = is_ended }) (map span_pair r.spans.items)
        ≡ (found_by by).replaced template.now (record { bytes = bytes.now; is_ended = is_ended })) }
{
    let mut replaced = match finder.replaced(alloc, line, template) {
        Ok(replaced) => replaced,
        Err(e) => return Err(e),
    };
    replaced
        .bytes
        .extend_from_slice(text_from(bytes, line.len()))?;
    Ok(replaced)
}

/// Whether a line has a match, and what is shown of it, if the output depends on that. What is searched of it comes first. `is_known` says
/// whether it is known to have a match.
fn look_in(
    alloc: Global,
    finder: &mut Finder<'_>,
    what: &OutputOptions,
    line: &[u8],
    bytes: &[u8],
    is_known: bool,
) -> Result<Seen, Fault>
    requires { is_known ≡ true → IsMatchReported finder.old.how finder.old.texts line.now true }
    ensures same { finder.new ≡ finder.old }
    ensures has { IfOk result (λ seen. (is_ended : Bool) → line.now ≡ searched finder.old.how.crlf (record { bytes = bytes.now; is_ended = is_ended }) →
        (by : SearchesFor finder.old (needs_spans what.now)) → seen.has ≡ (found_by by).has_match (record { bytes = bytes.now; is_ended = is_ended })) }
    ensures shown { IfOk result (λ seen. (is_ended : Bool) → line.now ≡ searched finder.old.how.crlf (record { bytes = bytes.now; is_ended = is_ended }) →
        (by : SearchesFor finder.old (needs_spans what.now)) →
        seen_line seen.replaced (map span_pair seen.found.items) (record { bytes = bytes.now; is_ended = is_ended })
        ≡ shown_of what.now (with_needed_spans what.now (found_by by)) (record { bytes = bytes.now; is_ended = is_ended })) }
{
    let has = match has_match(alloc, finder, line, is_known) {
        Ok(has) => has,
        Err(e) => return Err(e),
    };
    if !has || !needs_shown(what) {
        return Ok(Seen {
            has,
            found: Vec::new(alloc),
            replaced: None,
        });
    }
    if let Some(template) = what.replacement {
        return match replace_in(alloc, finder, template, line, bytes) {
            Ok(Replaced { bytes, spans }) => Ok(Seen {
                has,
                found: spans,
                replaced: Some(bytes),
            }),
            Err(e) => Err(e),
        };
    }
    match finder.matches(alloc, line) {
        Ok(found) => Ok(Seen {
            has,
            found,
            replaced: None,
        }),
        Err(e) => Err(e),
    }
}

/// Whether a line has a match, and what is shown of it, if the output depends on that. The line is given without its line feed. `is_known`
/// says whether it is known to have a match.
pub(crate) fn look_at(
    alloc: Global,
    finder: &mut Finder<'_>,
    what: &OutputOptions,
    bytes: &[u8],
    is_ended: bool,
    is_known: bool,
) -> Result<Seen, Fault>
    requires { is_known ≡ true → IsMatchReported finder.old.how finder.old.texts
        (searched finder.old.how.crlf (record { bytes = bytes.now; is_ended = is_ended })) true }
    ensures same { finder.new ≡ finder.old }
    ensures has { IfOk result (λ seen. (by : SearchesFor finder.old (needs_spans what.now)) →
        seen.has ≡ (found_by by).has_match (record { bytes = bytes.now; is_ended = is_ended })) }
    ensures shown { IfOk result (λ seen. (by : SearchesFor finder.old (needs_spans what.now)) →
        seen_line seen.replaced (map span_pair seen.found.items) (record { bytes = bytes.now; is_ended = is_ended })
        ≡ shown_of what.now (with_needed_spans what.now (found_by by)) (record { bytes = bytes.now; is_ended = is_ended })) }
{
    let line = searched(finder.crlf(), bytes, is_ended);
    match look_in(alloc, finder, what, line, bytes, is_known) {
        Ok(seen) => Ok(seen),
        Err(e) => Err(e),
    }
}
