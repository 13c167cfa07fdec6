//! Which lines of a text are selected whose matches may span lines.
ghost use Rattle.std.specs.Prelude.{◌≡◌, ◌<◌, ◌≤◌, ◌++◌, IfOk, length, map};
ghost use Rattle.line_search.specs.LineMatchers.{span_pair};
ghost use Rattle.text_report.specs.EventCourse.{touched_of};
ghost use Rattle.text_report.specs.LineSpans.{lines_from};
ghost use Rattle.text_report.specs.TextEvents.{touched_lines};
ghost use Rattle.text_report.specs.Touching.{AreBefore, StartInOrder};

use crate::selecting::count_more;
use crate::text_lines::{TextPosition, first_position, next_line, position_after};
use grep_core::{OutputOptions, is_selected};
use line_search::Fault;
use search_types::Span;
use std::alloc::Global;

/// Appends whether the next line of a text is selected, after so many selected ones. Returns where the line after it begins, and the new
/// number.
fn select_next(
    what: &OutputOptions<'_>,
    found: &[Span],
    text: &[u8],
    at: TextPosition,
    count: u64,
    flags: &mut Vec<bool>,
) -> Result<(TextPosition, u64), Fault>
    requires below { at.place < length text.now }
    requires past { AreBefore found.now at.first at.place }
    ensures on { IfOk result (λ next. at.place < next.0.place) }
    ensures within { IfOk result (λ next. next.0.place ≤ length text.now) }
    ensures past { IfOk result (λ next. AreBefore found.now next.0.first next.0.place) }
    ensures goes_on { IfOk result (λ next. StartInOrder (map span_pair found.now) →
        flags.old.items ++ touched_of what.now (map span_pair found.now) count (lines_from what.now.terminator text.now at.number at.place)
        ≡ flags.new.items
        ++ touched_of what.now (map span_pair found.now) next.1 (lines_from what.now.terminator text.now next.0.number next.0.place)) }
{
    let Some(seen) = next_line(text, what.terminator, found, false, at) else {
        return Err(Fault::TooLong);
    };
    let is_selected = is_selected(what, count, seen.has);
    let more = match count_more(count, is_selected) {
        Ok(more) => more,
        Err(e) => return Err(e),
    };
    let next = match position_after(seen) {
        Ok(next) => next,
        Err(e) => return Err(e),
    };
    match flags.push(is_selected) {
        Ok(()) => Ok((next, more)),
        Err(_) => Err(Fault::NoMemory),
    }
}

/// For each line of a text, whether it is selected: some match touches it, or with `invert` none. The matches are in order.
pub(crate) fn select_touched(
    alloc: Global,
    what: &OutputOptions<'_>,
    found: &[Span],
    text: &[u8],
) -> Result<Vec<bool>, Fault>
    ensures { IfOk result (λ flags. StartInOrder (map span_pair found.now) →
        flags.items ≡ touched_lines what.now (map span_pair found.now) text.now) }
{
    let mut flags = Vec::new(alloc);
    let mut at = first_position();
    let mut count = 0u64;
    while at.place < text.len() {
        (at, count) = match select_next(what, found, text, at, count, &mut flags) {
            Ok(next) => next,
            Err(e) => return Err(e),
        };
    }
    Ok(flags)
}
