//! Which lines of a text are selected.
ghost use Rattle.std.specs.Prelude.{◌≡◌, ◌<◌, ◌≤◌, ◌+◌, ◌++◌, IfOk, drop, length, true, if◌then◌else◌};
ghost use Rattle.grep_core.specs.Report.{selected};
ghost use Rattle.line_search.specs.Searchers.{SearchesFor, found_by};
ghost use Rattle.text_report.specs.EventCourse.{flags_of, selects};
ghost use Rattle.text_report.specs.LineSpans.{split_at};
ghost use Rattle.text_report.specs.Records.{records_of};

use crate::lines::line_at;
use grep_core::{OutputOptions, is_selected, may_select, searched};
use line_search::{Fault, Finder};
use std::alloc::Global;

/// Whether a line has a match.
fn has_match(
    alloc: Global,
    finder: &mut Finder<'_>,
    bytes: &[u8],
    is_ended: bool,
) -> Result<bool, Fault>
    ensures same { finder.new ≡ finder.old }
    ensures reported { IfOk result (λ has. (by : SearchesFor finder.old true) →
        has ≡ (found_by by).has_match (record { bytes = bytes.now; is_ended = is_ended })) }
{
    let line = searched(finder.crlf(), bytes, is_ended);
    match finder.has_match(alloc, line) {
        Ok(has) => Ok(has),
        Err(e) => Err(e),
    }
}

/// Whether a line is selected, after so many selected ones. No line is searched once enough are.
fn is_line_selected(
    alloc: Global,
    finder: &mut Finder<'_>,
    what: &OutputOptions<'_>,
    count: u64,
    bytes: &[u8],
    is_ended: bool,
) -> Result<bool, Fault>
    ensures same { finder.new ≡ finder.old }
    ensures reported { IfOk result (λ sel. (by : SearchesFor finder.old true) →
        sel ≡ selects what.now count ((found_by by).has_match (record { bytes = bytes.now; is_ended = is_ended }))) }
{
    if !may_select(what, count) {
        return Ok(false);
    }
    match has_match(alloc, finder, bytes, is_ended) {
        Ok(has) => Ok(is_selected(what, count, has)),
        Err(e) => Err(e),
    }
}

/// Counts a selected line.
pub(crate) fn count_more(count: u64, is_selected: bool) -> Result<u64, Fault>
    ensures { IfOk result (λ n. n ≡ count + (if is_selected then 1 else 0)) }
{
    if !is_selected {
        return Ok(count);
    }
    match count.checked_add(1) {
        Some(more) => Ok(more),
        None => Err(Fault::TooLong),
    }
}

/// Appends whether the line at an offset is selected, after so many selected ones. Returns the offset after it, and the new number.
fn select_line(
    alloc: Global,
    finder: &mut Finder<'_>,
    what: &OutputOptions<'_>,
    text: &[u8],
    at: usize,
    count: u64,
    flags: &mut Vec<bool>,
) -> Result<(usize, u64), Fault>
    requires { at < length text.now }
    ensures same { finder.new ≡ finder.old }
    ensures on { IfOk result (λ next. at < next.0) }
    ensures within { IfOk result (λ next. next.0 ≤ length text.now) }
    ensures goes_on { IfOk result (λ next. (by : SearchesFor finder.old true) →
        flags.old.items ++ flags_of what.now (found_by by) count (split_at what.now.terminator (drop at text.now))
        ≡ flags.new.items ++ flags_of what.now (found_by by) next.1 (split_at what.now.terminator (drop next.0 text.now))) }
{
    let Some(line) = line_at(text, what.terminator, 1, at) else {
        return Err(Fault::TooLong);
    };
    let bytes = &text[line.start..line.end];
    let is_selected = match is_line_selected(alloc, finder, what, count, bytes, line.is_ended) {
        Ok(is_selected) => is_selected,
        Err(e) => return Err(e),
    };
    let more = match count_more(count, is_selected) {
        Ok(more) => more,
        Err(e) => return Err(e),
    };
    match flags.push(is_selected) {
        Ok(()) => Ok((line.whole_end(), more)),
        Err(_) => Err(Fault::NoMemory),
    }
}

/// For each line of a text, whether it is selected.
pub(crate) fn select_lines(
    alloc: Global,
    finder: &mut Finder<'_>,
    what: &OutputOptions<'_>,
    text: &[u8],
) -> Result<Vec<bool>, Fault>
    ensures same { finder.new ≡ finder.old }
    ensures selected { IfOk result (λ flags. (by : SearchesFor finder.old true) →
        flags.items ≡ selected what.now (found_by by) (records_of what.now text.now)) }
{
    let mut flags = Vec::new(alloc);
    let mut at = 0usize;
    let mut count = 0u64;
    while at < text.len() {
        (at, count) = match select_line(alloc, finder, what, text, at, count, &mut flags) {
            Ok(next) => next,
            Err(e) => return Err(e),
        };
    }
    Ok(flags)
}
