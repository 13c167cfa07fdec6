//! What is printed for the lines of a text that come of some lines whose matches are replaced.
ghost use Rattle.std.specs.Prelude.{◌≡◌, ◌++◌, ◌∷◌, ◌≤◌, ◌<◌, ◌+◌, ◌-◌, ◌&&◌, ◌||◌, [], Bool, IfOk, List, OnOk, length, not, true};
ghost use Rattle.line_search.specs.Lines.{TextLine};
ghost use Rattle.grep_core.specs.ContextPrinting.{Item, Waits};
ghost use Rattle.text_report.specs.LineSpans.{line_of, lines_from};
ghost use Rattle.text_report.specs.ReplacedProgress.{ReportsNew, reported_items, new_left};
ghost use Rattle.text_report.specs.ReplacedText.{new_item};
ghost use Rattle.text_report.specs.TextProgress.{matches_of_task};
ghost use Rattle.text_report.specs.TextReports.{by_starts};
ghost use Rattle.text_report.specs.Touching.{AreBefore, StartInOrder, has_match_of};

use crate::lines::LineSpan;
use crate::reporting::{TextTask, by_starts, parts_of};
use crate::text_lines::{SeenLine, TextPosition, next_line, position_after};
use grep_core::{Line, Reporter, report_flagged};
use line_search::Fault;
use std::alloc::Global;

/// Lines of a replaced text that come of some lines of the text.
#[derive(Clone, Copy)]
pub(crate) struct NewLines<'a> {
    /// The replaced text up to the end of these lines, and what replaces the matches in them.
    pub task: TextTask<'a>,
    /// Where the lines begin in the text.
    pub place: usize,
    /// Where they begin in the replaced text.
    pub start: usize,
    /// Whether the lines of which they come are selected.
    pub is_selected: bool,
}

/// Whether a line is printed only if the replacement of a match begins in it.
fn needs_start(lines: NewLines<'_>) -> bool
    ensures { result ≡ (by_starts lines.entry.task.what.now && lines.entry.is_selected) }
{
    by_starts(lines.task.what) && lines.is_selected
}

/// Whether a line is printed, given whether the replacement of a match begins in it.
fn is_kept(lines: NewLines<'_>, has: bool) -> bool
    ensures { result ≡ (not (by_starts lines.entry.task.what.now && lines.entry.is_selected) || has) }
{
    !needs_start(lines) || has
}

/// The offset that is printed for a line.
fn place_of(lines: NewLines<'_>, line: LineSpan) -> Result<u64, Fault>
    ensures { IfOk result (λ place. place ≡ lines.entry.place + (line.start - lines.entry.start)) }
{
    let on = line.start.saturating_sub(lines.start);
    match lines.place.checked_add(on) {
        Some(place) => Ok(place as u64),
        None => Err(Fault::TooLong),
    }
}

/// Processes a line that is printed.
fn report_kept(
    alloc: Global,
    out: &mut Vec<u8>,
    lines: NewLines<'_>,
    telling: &mut Reporter,
    seen: SeenLine,
) -> Result<(), Fault>
    requires waits { Waits lines.task.what.now telling.old.course }
    requires ordered { seen.line.start ≤ seen.line.end }
    requires inside { seen.line.end ≤ length lines.task.text.now }
    ensures goes_on { OnOk result (StartInOrder (matches_of_task lines.entry.task) →
        AreBefore lines.entry.task.found.now seen.first seen.line.start → (flags : List Bool) (items : List Item) →
        out.old.items ++ reported_items lines.entry.task telling.old (lines.entry.is_selected ∷ flags)
        (new_item lines.entry.task.what.now lines.entry.task.crlf (matches_of_task lines.entry.task) lines.entry.place lines.entry.start
        (line_of lines.entry.task.text.now seen.line) ∷ items)
        ≡ out.new.items ++ reported_items lines.entry.task telling.new flags items) }
    ensures waits { OnOk result (Waits lines.entry.task.what.now telling.new.course) }
{
    let (task, line) = (lines.task, seen.line);
    let parts = parts_of(alloc, task, line, seen.first)?;
    let place = place_of(lines, line)?;
    let shown = Line {
        number: line.number,
        place,
        bytes: &task.text[line.start..line.end],
        is_ended: line.is_ended,
    };
    report_flagged(
        alloc,
        out,
        task.what,
        task.name,
        task.with_name,
        telling,
        shown,
        lines.is_selected,
        &parts,
    )?;
    Ok(())
}

/// Processes a line.
fn report_line(
    alloc: Global,
    out: &mut Vec<u8>,
    lines: NewLines<'_>,
    telling: &mut Reporter,
    seen: SeenLine,
) -> Result<(), Fault>
    requires waits { Waits lines.task.what.now telling.old.course }
    requires ordered { seen.line.start ≤ seen.line.end }
    requires inside { seen.line.end ≤ length lines.task.text.now }
    ensures goes_on { OnOk result (StartInOrder (matches_of_task lines.entry.task) →
        AreBefore lines.entry.task.found.now seen.first seen.line.start →
        seen.has ≡ has_match_of true (matches_of_task lines.entry.task) (line_of lines.entry.task.text.now seen.line) → (rest : List TextLine) →
        ReportsNew lines.entry (line_of lines.entry.task.text.now seen.line ∷ rest) rest telling.old telling.new out.old.items out.new.items) }
    ensures waits { OnOk result (Waits lines.entry.task.what.now telling.new.course) }
{
    if !is_kept(lines, seen.has) {
        return Ok(());
    }
    match report_kept(alloc, out, lines, telling, seen) {
        Ok(()) => Ok(()),
        Err(e) => Err(e),
    }
}

/// Processes the next line. Returns where the line after it begins.
fn report_next(
    alloc: Global,
    out: &mut Vec<u8>,
    lines: NewLines<'_>,
    telling: &mut Reporter,
    at: TextPosition,
) -> Result<TextPosition, Fault>
    requires waits { Waits lines.task.what.now telling.old.course }
    requires below { at.place < length lines.task.text.now }
    requires past { AreBefore lines.task.found.now at.first at.place }
    ensures on { IfOk result (λ next. at.place < next.place) }
    ensures within { IfOk result (λ next. next.place ≤ length lines.entry.task.text.now) }
    ensures past { IfOk result (λ next. AreBefore lines.entry.task.found.now next.first next.place) }
    ensures waits { OnOk result (Waits lines.entry.task.what.now telling.new.course) }
    ensures goes_on { IfOk result (λ next. StartInOrder (matches_of_task lines.entry.task) →
        ReportsNew lines.entry (new_left lines.entry at) (new_left lines.entry next) telling.old telling.new out.old.items out.new.items) }
{
    let task = lines.task;
    let Some(seen) = next_line(task.text, task.what.terminator, task.found, true, at) else {
        return Err(Fault::TooLong);
    };
    match report_line(alloc, out, lines, telling, seen) {
        Ok(()) => {}
        Err(e) => return Err(e),
    }
    match position_after(seen) {
        Ok(next) => Ok(next),
        Err(e) => Err(e),
    }
}

/// Processes all lines, of which the first has this number.
pub(crate) fn report_new(
    alloc: Global,
    out: &mut Vec<u8>,
    lines: NewLines<'_>,
    telling: &mut Reporter,
    number: u64,
) -> Result<(), Fault>
    requires waits { Waits lines.task.what.now telling.old.course }
    ensures waits { OnOk result (Waits lines.entry.task.what.now telling.new.course) }
    ensures goes_on { OnOk result (StartInOrder (matches_of_task lines.entry.task) →
        ReportsNew lines.entry (lines_from lines.entry.task.what.now.terminator lines.entry.task.text.now number lines.entry.start) []
        telling.old telling.new out.old.items out.new.items) }
{
    let mut at = TextPosition {
        number,
        place: lines.start,
        first: 0,
    };
    while at.place < lines.task.text.len() {
        at = match report_next(alloc, out, lines, telling, at) {
            Ok(next) => next,
            Err(e) => return Err(e),
        };
    }
    Ok(())
}
