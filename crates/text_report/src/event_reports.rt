//! The JSON events of a text in memory.
ghost use Rattle.std.specs.Prelude.{◌≡◌, ◌+◌, ℕ, IfErr, IfOk, List, OnOk, Option, length, take, true};
ghost use Rattle.std.specs.Io.KnownBytes.{Appends};
ghost use Rattle.line_search.specs.Searchers.{SearchesFor, found_by};
ghost use Rattle.grep_core.specs.Report.{first_of};
ghost use Rattle.text_report.specs.Events.{ended_events, json_report, json_stats, printed, stats_of, tally};
ghost use Rattle.text_report.specs.EventCourse.{AreOrdered, IsHeld, all_events, all_stats, gap, task_with};
ghost use Rattle.text_report.specs.TextEvents.{json_of_text, json_text_stats};

use crate::event_lines::{EventProgress, EventTask};
use crate::event_loop::write_groups;
use crate::events::{Counts, no_stats, stats_of, sum};
use crate::selecting::select_lines;
use crate::touched::select_touched;
use crate::turns::{Turn, first_selected};
use grep_core::{OutputOptions, first_of, flush, write_out};
use json_events::{Elapsed, Stats, push_begin, push_end};
use line_search::{Fault, Finder};
use search_types::Span;
use std::alloc::Global;
use std::io::Write;

/// Before the first line.
fn first_progress(task: EventTask<'_>) -> EventProgress
    ensures { result ≡ record {
      at = 0;
      first = 0;
      turn = record { index = 0; left = first_of task.entry.what.now.context; next = gap task.entry.flags.now };
      counts = tally 0 0 0;
      written = 0;
    } }
{
    EventProgress {
        at: 0,
        first: 0,
        turn: Turn {
            index: 0,
            left: first_of(task.what),
            next: first_selected(task.flags, 0),
        },
        counts: Counts {
            lines: 0,
            matches: 0,
            end: 0,
        },
        written: 0,
    }
}

/// Writes bytes, and flushes the writer.
fn write_all<W: Write>(writer: &mut W, out: &[u8]) -> Result<(), Fault>
    ensures ok { OnOk result (Appends (W.contents writer.old) (W.contents writer.new) out.now) }
    ensures part { IfErr result (λ _. (n : ℕ) × Appends (W.contents writer.old) (W.contents writer.new) (take n out.now)) }
{
    match write_out(writer, out) {
        Ok(()) => {}
        Err(e) => return Err(e),
    }
    match flush(writer) {
        Ok(()) => Ok(()),
        Err(e) => Err(e),
    }
}

/// Writes what is held and the event at the end, and flushes the writer. If no line is printed, nothing is written. Returns the statistics.
fn write_end<W: Write>(
    alloc: Global,
    writer: &mut W,
    out: &mut Vec<u8>,
    task: EventTask<'_>,
    time: Elapsed,
    progress: EventProgress,
) -> Result<Stats, Fault>
    ensures written { OnOk result ((start : Option (List ℕ)) (all : List ℕ) →
        IsHeld start (W.contents writer.old) all out.old.items progress.written progress.counts.end →
        Appends start (W.contents writer.new)
        (ended_events task.entry.what.now task.entry.name.now time (length task.entry.text.now) (printed all progress.counts))) }
    ensures stats { IfOk result (λ stats. (all : List ℕ) → length all ≡ progress.written + length out.old.items →
        stats ≡ stats_of task.entry.what.now time (length task.entry.text.now) (printed all progress.counts)) }
    ensures fault { IfErr result (λ _. (start : Option (List ℕ)) (all : List ℕ) →
        IsHeld start (W.contents writer.old) all out.old.items progress.written progress.counts.end →
        (n : ℕ) × Appends start (W.contents writer.new)
        (take n (ended_events task.entry.what.now task.entry.name.now time (length task.entry.text.now) (printed all progress.counts)))) }
{
    if progress.counts.end == 0 {
        match flush(writer) {
            Ok(()) => return Ok(no_stats()),
            Err(e) => return Err(e),
        }
    }
    let bytes = match sum(progress.written, out.as_slice().len() as u64) {
        Ok(bytes) => bytes,
        Err(e) => return Err(e),
    };
    let stats = stats_of(task.what, time, task.text.len(), bytes, progress.counts);
    match push_end(alloc, out, task.name, stats) {
        Ok(()) => {}
        Err(_) => return Err(Fault::NoMemory),
    }
    match write_all(writer, out) {
        Ok(()) => Ok(stats),
        Err(e) => Err(e),
    }
}

/// Writes the events of a text. Returns its statistics.
fn write_events<W: Write>(
    alloc: Global,
    finder: &mut Finder<'_>,
    task: EventTask<'_>,
    time: Elapsed,
    writer: &mut W,
) -> Result<Stats, Fault>
    ensures same { finder.new ≡ finder.old }
    ensures reported { OnOk result ((by : SearchesFor finder.old true) → AreOrdered task.entry →
        Appends (W.contents writer.old) (W.contents writer.new) (all_events task.entry (found_by by) time)) }
    ensures stats { IfOk result (λ stats. (by : SearchesFor finder.old true) → AreOrdered task.entry →
        stats ≡ all_stats task.entry (found_by by) time) }
    ensures fault { IfErr result (λ _. (by : SearchesFor finder.old true) → AreOrdered task.entry →
        (n : ℕ) × Appends (W.contents writer.old) (W.contents writer.new) (take n (all_events task.entry (found_by by) time))) }
{
    let mut out = Vec::new(alloc);
    match push_begin(alloc, &mut out, task.name) {
        Ok(()) => {}
        Err(_) => return Err(Fault::NoMemory),
    }
    let mut progress = first_progress(task);
    match write_groups(alloc, writer, &mut out, finder, task, &mut progress) {
        Ok(()) => {}
        Err(e) => return Err(e),
    }
    match write_end(alloc, writer, &mut out, task, time, progress) {
        Ok(stats) => Ok(stats),
        Err(e) => Err(e),
    }
}

/// Writes the events of a text of which these lines are selected. `found` has all matches of the text, or is `None` if its lines are searched
/// by themselves. Returns the statistics.
fn write_report<'x, W: Write>(
    alloc: Global,
    finder: &mut Finder<'_>,
    what: &'x OutputOptions<'x>,
    name: &'x [u8],
    text: &'x [u8],
    flags: &'x [bool],
    found: Option<&'x [Span]>,
    time: Elapsed,
    writer: &mut W,
) -> Result<Stats, Fault>
    ensures same { finder.new ≡ finder.old }
    ensures reported { OnOk result ((by : SearchesFor finder.old true) →
        AreOrdered (task_with what.entry name.entry text.entry flags.entry found.entry) →
        Appends (W.contents writer.old) (W.contents writer.new)
        (all_events (task_with what.entry name.entry text.entry flags.entry found.entry) (found_by by) time)) }
    ensures stats { IfOk result (λ stats. (by : SearchesFor finder.old true) →
        AreOrdered (task_with what.entry name.entry text.entry flags.entry found.entry) →
        stats ≡ all_stats (task_with what.entry name.entry text.entry flags.entry found.entry) (found_by by) time) }
    ensures fault { IfErr result (λ _. (by : SearchesFor finder.old true) →
        AreOrdered (task_with what.entry name.entry text.entry flags.entry found.entry) →
        (n : ℕ) × Appends (W.contents writer.old) (W.contents writer.new)
        (take n (all_events (task_with what.entry name.entry text.entry flags.entry found.entry) (found_by by) time))) }
{
    let task = EventTask {
        what,
        name,
        text,
        flags,
        found,
    };
    match write_events(alloc, finder, task, time, writer) {
        Ok(stats) => Ok(stats),
        Err(e) => Err(e),
    }
}

/// Writes the JSON events of a text in memory, whose lines end with the terminator of the options, and whose matches are those of its
/// lines. Returns the statistics of the text, which the caller adds up for [`json_events::push_summary`].
///
/// `time` is the time that is printed as the elapsed one. A text of which no line is printed has no event, and its statistics count nothing.
/// Events are written whenever 64 KiB are held. On an error, a prefix of the events was written.
///
/// Of the options, those that say which lines are printed and whether they have numbers have a meaning here.
///
/// Matches of lines are searched for. Precondition for that: the body of every unbounded repetition in the patterns consumes at least one
/// byte.
pub fn report_events<W: Write>(
    alloc: Global,
    finder: &mut Finder<'_>,
    what: &OutputOptions<'_>,
    name: &[u8],
    text: &[u8],
    time: Elapsed,
    writer: &mut W,
) -> Result<Stats, Fault>
    ensures same { finder.new ≡ finder.old }
    ensures reported { OnOk result ((by : SearchesFor finder.old true) →
        Appends (W.contents writer.old) (W.contents writer.new) (json_report what.now (found_by by) name.now time text.now)) }
    ensures stats { IfOk result (λ stats. (by : SearchesFor finder.old true) →
        stats ≡ json_stats what.now (found_by by) name.now time text.now) }
    ensures fault { IfErr result (λ _. (by : SearchesFor finder.old true) →
        (n : ℕ) × Appends (W.contents writer.old) (W.contents writer.new)
        (take n (json_report what.now (found_by by) name.now time text.now))) }
{
    let flags = match select_lines(alloc, finder, what, text) {
        Ok(flags) => flags,
        Err(e) => return Err(e),
    };
    match write_report(alloc, finder, what, name, text, &flags, None, time, writer) {
        Ok(stats) => Ok(stats),
        Err(e) => Err(e),
    }
}

/// Searches a text as a whole, and writes its JSON events. Matches may span lines, and each line that a match touches is selected. Adjacent
/// selected lines are one event, unless lines without a match are selected. Returns the statistics of the text, as [`report_events`] does.
///
/// All matches of the text are in memory. Events are written whenever 64 KiB are held. On an error, a prefix of the events was written.
///
/// Precondition: the finder may be asked for matches, so the body of every unbounded repetition in the patterns consumes at least one byte.
pub fn report_text_events<W: Write>(
    alloc: Global,
    finder: &mut Finder<'_>,
    what: &OutputOptions<'_>,
    name: &[u8],
    text: &[u8],
    time: Elapsed,
    writer: &mut W,
) -> Result<Stats, Fault>
    ensures same { finder.new ≡ finder.old }
    ensures reported { OnOk result ((by : SearchesFor finder.old true) →
        Appends (W.contents writer.old) (W.contents writer.new) (json_of_text what.now by.how by.patterns name.now time text.now)) }
    ensures stats { IfOk result (λ stats. (by : SearchesFor finder.old true) →
        stats ≡ json_text_stats what.now by.how by.patterns name.now time text.now) }
    ensures fault { IfErr result (λ _. (by : SearchesFor finder.old true) →
        (n : ℕ) × Appends (W.contents writer.old) (W.contents writer.new)
        (take n (json_of_text what.now by.how by.patterns name.now time text.now))) }
{
    let found = match finder.matches(alloc, text) {
        Ok(found) => found,
        Err(e) => return Err(e),
    };
    let flags = match select_touched(alloc, what, &found, text) {
        Ok(flags) => flags,
        Err(e) => return Err(e),
    };
    match write_report(
        alloc,
        finder,
        what,
        name,
        text,
        &flags,
        Some(&found),
        time,
        writer,
    ) {
        Ok(stats) => Ok(stats),
        Err(e) => Err(e),
    }
}
