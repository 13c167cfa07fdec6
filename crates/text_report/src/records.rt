//! The report of a text in memory, record by record.
ghost use Rattle.std.specs.Prelude.{◌≡◌, ◌<◌, ◌≤◌, ℕ, [], OnOk, IfErr, IfOk, length, take};
ghost use Rattle.std.specs.Io.KnownBytes.{Appends};
ghost use Rattle.line_search.specs.Searchers.{SearchesFor, found_by};
ghost use Rattle.grep_core.specs.Blocks.{IsOver, KeepsOn, SearchesBy, counts_lines, finds_by, reported_bytes};
ghost use Rattle.grep_core.specs.ContextPrinting.{Waits};
ghost use Rattle.grep_core.specs.LongLines.{WritesLines};
ghost use Rattle.grep_core.specs.Report.{counted_as};
ghost use Rattle.grep_core.specs.Reporting.{needs_spans};
ghost use Rattle.text_report.specs.Records.{ReportsRecords, WritesBeginning, records_left, report_records, selected_records};

use crate::lines::line_at;
use grep_core::{
    OutputOptions, Progress, Reporter, SeparatorState, Task, count_of, first_of, flush,
    is_task_over, report_one, write_end, write_out,
};
use line_search::{Fault, Finder};
use std::alloc::Global;
use std::io::Write;

/// The output is written whenever so many bytes are held.
const HELD: usize = 1 << 16;

/// Processes the record that begins at this offset. Returns the offset after it.
fn report_record(
    alloc: Global,
    out: &mut Vec<u8>,
    finder: &mut Finder<'_>,
    task: Task<'_>,
    progress: &mut Progress,
    text: &[u8],
    at: usize,
) -> Result<usize, Fault>
    requires waits { Waits task.what.now progress.old.telling.course }
    requires below { at < length text.now }
    ensures keeps { KeepsOn task.entry finder.old finder.new progress.new result }
    ensures reports { IfOk result
        (ReportsRecords task.entry finder.old progress.old progress.new out.old.items out.new.items text.now at) }
{
    let Some(line) = line_at(text, task.what.terminator, 1, at) else {
        return Err(Fault::TooLong);
    };
    match report_one(
        alloc,
        out,
        finder,
        task,
        progress,
        &text[line.start..line.end],
        line.is_ended,
        false,
    ) {
        Ok(()) => Ok(line.whole_end()),
        Err(e) => Err(e),
    }
}

/// Processes the record that begins at an offset, and those after it until enough output is held, the text ends or nothing more is printed.
/// Returns the offset after them.
fn report_some(
    alloc: Global,
    out: &mut Vec<u8>,
    finder: &mut Finder<'_>,
    task: Task<'_>,
    progress: &mut Progress,
    text: &[u8],
    start: usize,
) -> Result<usize, Fault>
    requires waits { Waits task.what.now progress.old.telling.course }
    requires below { start < length text.now }
    ensures keeps { KeepsOn task.entry finder.old finder.new progress.new result }
    ensures reports { IfOk result
        (ReportsRecords task.entry finder.old progress.old progress.new out.old.items out.new.items text.now start) }
{
    let mut at = match report_record(alloc, out, finder, task, progress, text, start) {
        Ok(next) => next,
        Err(e) => return Err(e),
    };
    while at < text.len() && out.len() < HELD && !is_task_over(task, progress) {
        at = match report_record(alloc, out, finder, task, progress, text, at) {
            Ok(next) => next,
            Err(e) => return Err(e),
        };
    }
    Ok(at)
}

/// Processes the record that begins at an offset, and some after it, and writes their output. Returns the offset after them.
fn write_some<W: Write>(
    alloc: Global,
    writer: &mut W,
    finder: &mut Finder<'_>,
    task: Task<'_>,
    progress: &mut Progress,
    text: &[u8],
    start: usize,
) -> Result<usize, Fault>
    requires waits { Waits task.what.now progress.old.telling.course }
    requires below { start < length text.now }
    ensures keeps { KeepsOn task.entry finder.old finder.new progress.new result }
    ensures on { IfOk result (λ next. start < next) }
    ensures within { IfOk result (λ next. next ≤ length text.now) }
    ensures writes { IfOk result (λ next. (by : SearchesBy task.entry finder.old) →
        WritesLines task.entry (finds_by task.entry by) progress.old progress.new (records_left task.entry text.now start)
        (records_left task.entry text.now next) (W.contents writer.old) (W.contents writer.new)) }
    ensures fault { IfErr result (λ _. (by : SearchesBy task.entry finder.old) →
        WritesBeginning task.entry (finds_by task.entry by) progress.old (records_left task.entry text.now start)
        (W.contents writer.old) (W.contents writer.new)) }
{
    let mut out = Vec::new(alloc);
    let next = match report_some(alloc, &mut out, finder, task, progress, text, start) {
        Ok(next) => next,
        Err(e) => return Err(e),
    };
    match write_out(writer, &out) {
        Ok(()) => Ok(next),
        Err(e) => Err(e),
    }
}

/// Processes the records of a text until it ends or nothing more is printed, and writes their output. Returns the offset after them.
fn write_records<W: Write>(
    alloc: Global,
    writer: &mut W,
    finder: &mut Finder<'_>,
    task: Task<'_>,
    progress: &mut Progress,
    text: &[u8],
) -> Result<usize, Fault>
    requires waits { Waits task.what.now progress.old.telling.course }
    ensures keeps { KeepsOn task.entry finder.old finder.new progress.new result }
    ensures writes { IfOk result (λ next. (by : SearchesBy task.entry finder.old) →
        WritesLines task.entry (finds_by task.entry by) progress.old progress.new (records_left task.entry text.now 0)
        (records_left task.entry text.now next) (W.contents writer.old) (W.contents writer.new)) }
    ensures over { IfOk result (λ next. next < length text.now → IsOver task.entry progress.new) }
    ensures fault { IfErr result (λ _. (by : SearchesBy task.entry finder.old) →
        WritesBeginning task.entry (finds_by task.entry by) progress.old (records_left task.entry text.now 0)
        (W.contents writer.old) (W.contents writer.new)) }
{
    let mut at = 0usize;
    while at < text.len() && !is_task_over(task, progress) {
        at = match write_some(alloc, writer, finder, task, progress, text, at) {
            Ok(next) => next,
            Err(e) => return Err(e),
        };
    }
    Ok(at)
}

/// Processes all records of a text, writes their output and what is printed after it, and flushes the writer.
fn write_all<W: Write>(
    alloc: Global,
    writer: &mut W,
    finder: &mut Finder<'_>,
    task: Task<'_>,
    progress: &mut Progress,
    text: &[u8],
) -> Result<(), Fault>
    requires waits { Waits task.what.now progress.old.telling.course }
    ensures same { finder.new ≡ finder.old }
    ensures written { OnOk result ((by : SearchesBy task.entry finder.old) →
        Appends (W.contents writer.old) (W.contents writer.new)
        (reported_bytes task.entry (finds_by task.entry by) progress.old (records_left task.entry text.now 0))) }
    ensures counts { OnOk result ((by : SearchesBy task.entry finder.old) →
        counted_as task.entry.what.now.print (counts_lines task.entry (finds_by task.entry by) progress.new [])
        ≡ counted_as task.entry.what.now.print (counts_lines task.entry (finds_by task.entry by) progress.old
        (records_left task.entry text.now 0))) }
    ensures fault { IfErr result (λ _. (by : SearchesBy task.entry finder.old) →
        WritesBeginning task.entry (finds_by task.entry by) progress.old (records_left task.entry text.now 0)
        (W.contents writer.old) (W.contents writer.new)) }
{
    match write_records(alloc, writer, finder, task, progress, text) {
        Ok(_) => {}
        Err(e) => return Err(e),
    }
    match write_end(alloc, writer, task, progress) {
        Ok(()) => {}
        Err(e) => return Err(e),
    }
    match flush(writer) {
        Ok(()) => Ok(()),
        Err(e) => Err(e),
    }
}

/// Writes what is printed for a text in memory whose lines end with the terminator of the options. Returns the number of selected ones. If
/// names of inputs are asked for, or nothing, the number is at most 1.
///
/// Each line is searched by itself, as [`grep_core::report_input`] does. The output is written whenever 64 KiB are held, and no line is
/// searched once nothing more will be printed. On an error, a prefix of the output was written.
///
/// `known` says whether lines of earlier inputs were printed. It decides whether a separator line precedes the first group of lines of this
/// text.
///
/// Matches of lines are searched for if they are printed alone or marked. Precondition for that: the body of every unbounded repetition in
/// the patterns consumes at least one byte.
pub fn report_records<W: Write>(
    alloc: Global,
    finder: &mut Finder<'_>,
    what: &OutputOptions<'_>,
    name: &[u8],
    with_name: bool,
    known: SeparatorState,
    text: &[u8],
    writer: &mut W,
) -> Result<u64, Fault>
    ensures same { finder.new ≡ finder.old }
    ensures reported { OnOk result ((by : SearchesFor finder.old (needs_spans what.now)) →
        Appends (W.contents writer.old) (W.contents writer.new)
        (report_records what.now (found_by by) name.now with_name known text.now)) }
    ensures selected { IfOk result (λ n. (by : SearchesFor finder.old (needs_spans what.now)) →
        n ≡ counted_as what.now.print (selected_records what.now (found_by by) text.now)) }
    ensures fault { IfErr result (λ _. (by : SearchesFor finder.old (needs_spans what.now)) →
        (n : ℕ) × Appends (W.contents writer.old) (W.contents writer.new)
        (take n (report_records what.now (found_by by) name.now with_name known text.now))) }
{
    let task = Task {
        what,
        name,
        with_name,
    };
    let mut progress = Progress {
        number: 1,
        place: 0,
        telling: Reporter::new(alloc, first_of(what), known),
    };
    match write_all(alloc, writer, finder, task, &mut progress, text) {
        Ok(()) => Ok(count_of(what.print, &progress)),
        Err(e) => Err(e),
    }
}
