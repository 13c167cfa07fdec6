//! What is printed for a text whose matches may span lines. If there is a template, the matches are replaced.
ghost use Rattle.std.specs.Prelude.{◌≡◌, ◌++◌, ◌∷◌, ◌≤◌, ◌<◌, ℕ, [], IfErr, IfOk, List, OnOk, Option, Some, length, map, take, true};
ghost use Rattle.std.specs.Io.KnownBytes.{Appends};
ghost use Rattle.line_search.specs.LineMatchers.{span_pair};
ghost use Rattle.line_search.specs.Searchers.{SearchesFor};
ghost use Rattle.grep_core.specs.ContextPrinting.{Waits};
ghost use Rattle.grep_core.specs.Report.{counted_as};
ghost use Rattle.grep_core.specs.Selecting.{count_selected};
ghost use Rattle.text_report.specs.EventCourse.{IsGroup, KnowsNext, group_of, task_with};
ghost use Rattle.text_report.specs.ReplacedProgress.{AreBegun, AreLinesOf, WritesNew, WritesNewPart, groups_to_come, reported_items, report_left};
ghost use Rattle.text_report.specs.ReplacedText.{begun_before, report_with, report_new, report_text, selected_by, selected_in_text, selected_touched, template_of};
ghost use Rattle.text_report.specs.TextEvents.{EventLines, touched_lines};
ghost use Rattle.text_report.specs.TextProgress.{matches_of_task};
ghost use Rattle.text_report.specs.Touching.{StartInOrder};

use crate::event_lines::{EventTask, Group, is_selected, take_group};
use crate::event_loop::write_held;
use crate::replaced_lines::{NewLines, report_new};
use crate::replaced_offsets::{begun_before, front, offset_after, spans_between};
use crate::reporting::{TextTask, report_as_it_is, write_end};
use crate::selecting::count_more;
use crate::touched::select_touched;
use crate::turns::{Turn, first_selected};
use grep_core::{
    OutputOptions, Reporter, SeparatorState, counted_as, first_of, prints_lines, write_out,
};
use line_search::{Fault, Finder};
use search_types::Span;
use std::alloc::Global;
use std::io::Write;

/// A text of which lines are printed with their matches replaced.
#[derive(Clone, Copy)]
pub(crate) struct NewTask<'a> {
    /// The text with its matches, and what is printed.
    pub task: TextTask<'a>,
    /// For each line, whether it is selected.
    pub flags: &'a [bool],
    /// The text with its matches replaced.
    pub bytes: &'a [u8],
    /// Where what replaces each match is in it.
    pub spans: &'a [Span],
}

/// Where the next line begins, and the state of the output after the lines before it.
#[derive(Drop)]
pub(crate) struct NewProgress {
    pub at: usize,
    /// A number of matches that begin before the line.
    pub first: usize,
    pub turn: Turn,
    pub telling: Reporter,
    /// How many bytes were written.
    pub written: u64,
}

/// The text with the lines that are selected.
fn events_of(task: NewTask<'_>) -> EventTask<'_>
    ensures { result ≡ task_with task.entry.task.what task.entry.task.name task.entry.task.text task.entry.flags (Some task.entry.task.found) }
{
    EventTask {
        what: task.task.what,
        name: task.task.name,
        text: task.task.text,
        flags: task.flags,
        found: Some(task.task.found),
    }
}

/// The lines that come of some lines, before which so many matches begin.
fn lines_for<'a>(task: NewTask<'a>, group: Group, first: usize) -> Result<NewLines<'a>, Fault>
    requires lies { IsGroup task.task.text.now group }
    requires begun { AreBegun task.task.found.now first group.first.start }
    requires counted { first ≡ begun_before (matches_of_task task.task) group.first.start }
    ensures { IfOk result (λ lines. AreLinesOf task.entry group lines) }
{
    let (found, spans) = (task.task.found, task.spans);
    let Some(past) = group.last.end.checked_add(1) else {
        return Err(Fault::TooLong);
    };
    let last = begun_before(found, first, past);
    let start = match offset_after(found, spans, first, group.first.start) {
        Ok(start) => start,
        Err(e) => return Err(e),
    };
    let end = match offset_after(found, spans, last, past) {
        Ok(end) => end,
        Err(e) => return Err(e),
    };
    Ok(NewLines {
        task: TextTask {
            what: task.task.what,
            name: task.task.name,
            with_name: task.task.with_name,
            crlf: task.task.crlf,
            text: front(task.bytes, end),
            found: spans_between(spans, first, last),
        },
        place: group.first.start,
        start,
        is_selected: is_selected(group.role),
    })
}

/// Processes what comes of some lines, before which so many matches begin.
fn report_group(
    alloc: Global,
    out: &mut Vec<u8>,
    task: NewTask<'_>,
    group: Group,
    first: usize,
    telling: &mut Reporter,
) -> Result<(), Fault>
    requires waits { Waits task.task.what.now telling.old.course }
    requires lies { IsGroup task.task.text.now group }
    requires begun { AreBegun task.task.found.now first group.first.start }
    requires counted { first ≡ begun_before (matches_of_task task.task) group.first.start }
    ensures waits { OnOk result (Waits task.entry.task.what.now telling.new.course) }
    ensures goes_on { OnOk result (StartInOrder (map span_pair task.entry.spans.now) → (rest : List EventLines) →
        out.old.items ++ report_left task.entry telling.old (group_of task.entry.task.text.now group ∷ rest)
        ≡ out.new.items ++ report_left task.entry telling.new rest) }
{
    let lines = match lines_for(task, group, first) {
        Ok(lines) => lines,
        Err(e) => return Err(e),
    };
    match report_new(alloc, out, lines, telling, group.first.number) {
        Ok(()) => Ok(()),
        Err(e) => Err(e),
    }
}

/// Processes the next lines that are replaced together.
fn report_next(
    alloc: Global,
    out: &mut Vec<u8>,
    task: NewTask<'_>,
    progress: &mut NewProgress,
) -> Result<(), Fault>
    requires waits { Waits task.task.what.now progress.old.telling.course }
    requires below { progress.old.at < length task.task.text.now }
    requires known { KnowsNext task.flags.now progress.old.turn }
    requires begun { AreBegun task.task.found.now progress.old.first progress.old.at }
    ensures waits { OnOk result (Waits task.entry.task.what.now progress.new.telling.course) }
    ensures on { OnOk result ((progress.old.at < progress.new.at) × (progress.new.at ≤ length task.entry.task.text.now)) }
    ensures known { OnOk result (KnowsNext task.entry.flags.now progress.new.turn) }
    ensures begun { OnOk result (AreBegun task.entry.task.found.now progress.new.first progress.new.at) }
    ensures written { OnOk result (progress.new.written ≡ progress.old.written) }
    ensures goes_on { OnOk result (StartInOrder (map span_pair task.entry.spans.now) →
        out.old.items ++ report_left task.entry progress.old.telling (groups_to_come task.entry progress.old)
        ≡ out.new.items ++ report_left task.entry progress.new.telling (groups_to_come task.entry progress.new)) }
{
    let at = progress.at;
    let group = match take_group(events_of(task), &mut progress.turn, at) {
        Ok(group) => group,
        Err(e) => return Err(e),
    };
    let first = begun_before(task.task.found, progress.first, at);
    match report_group(alloc, out, task, group, first, &mut progress.telling) {
        Ok(()) => {}
        Err(e) => return Err(e),
    }
    progress.first = first;
    progress.at = group.last.whole_end();
    Ok(())
}

/// Processes all lines, and writes the output but for what is held at the end.
fn write_groups<W: Write>(
    alloc: Global,
    writer: &mut W,
    out: &mut Vec<u8>,
    task: NewTask<'_>,
    progress: &mut NewProgress,
) -> Result<(), Fault>
    requires waits { Waits task.task.what.now progress.old.telling.course }
    requires within { progress.old.at ≤ length task.task.text.now }
    requires known { KnowsNext task.flags.now progress.old.turn }
    requires begun { AreBegun task.task.found.now progress.old.first progress.old.at }
    requires none_written { progress.old.written ≡ 0 }
    requires none_held { out.old.items ≡ [] }
    ensures waits { OnOk result (Waits task.entry.task.what.now progress.new.telling.course) }
    ensures end { OnOk result (length task.entry.task.text.now ≤ progress.new.at) }
    ensures printed { OnOk result (StartInOrder (map span_pair task.entry.spans.now) →
        WritesNew task.entry (W.contents writer.old) (W.contents writer.new) out.new.items progress.old progress.new) }
    ensures fault { IfErr result (λ _. StartInOrder (map span_pair task.entry.spans.now) →
        WritesNewPart task.entry progress.old (W.contents writer.old) (W.contents writer.new)) }
{
    while progress.at < task.task.text.len() {
        match report_next(alloc, out, task, progress) {
            Ok(()) => {}
            Err(e) => return Err(e),
        }
        match write_held(writer, out, 1, &mut progress.written) {
            Ok(()) => {}
            Err(e) => return Err(e),
        }
    }
    Ok(())
}

/// Writes what is held and what is printed after the last line, and flushes the writer.
fn write_rest<W: Write>(
    alloc: Global,
    writer: &mut W,
    out: &[u8],
    task: TextTask<'_>,
    telling: &Reporter,
) -> Result<(), Fault>
    requires { Waits task.what.now telling.now.course }
    ensures written { OnOk result (Appends (W.contents writer.old) (W.contents writer.new) (out.now ++ reported_items task.entry telling.now [] [])) }
    ensures fault { IfErr result (λ _. (n : ℕ) × Appends (W.contents writer.old) (W.contents writer.new)
        (take n (out.now ++ reported_items task.entry telling.now [] []))) }
{
    match write_out(writer, out) {
        Ok(()) => {}
        Err(e) => return Err(e),
    }
    match write_end(alloc, writer, task, telling) {
        Ok(()) => Ok(()),
        Err(e) => Err(e),
    }
}

/// Writes what is printed for a text of which these lines are selected.
fn write_new<W: Write>(
    alloc: Global,
    writer: &mut W,
    task: NewTask<'_>,
    known: SeparatorState,
) -> Result<(), Fault>
    ensures reported { OnOk result (StartInOrder (map span_pair task.entry.spans.now) →
        task.entry.flags.now ≡ touched_lines task.entry.task.what.now (matches_of_task task.entry.task) task.entry.task.text.now →
        Appends (W.contents writer.old) (W.contents writer.new)
        (report_new task.entry.task.what.now task.entry.task.crlf task.entry.task.name.now task.entry.task.with_name known task.entry.bytes.now
        (matches_of_task task.entry.task) (map span_pair task.entry.spans.now) task.entry.task.text.now)) }
    ensures fault { IfErr result (λ _. StartInOrder (map span_pair task.entry.spans.now) →
        task.entry.flags.now ≡ touched_lines task.entry.task.what.now (matches_of_task task.entry.task) task.entry.task.text.now →
        (n : ℕ) × Appends (W.contents writer.old) (W.contents writer.new) (take n
        (report_new task.entry.task.what.now task.entry.task.crlf task.entry.task.name.now task.entry.task.with_name known task.entry.bytes.now
        (matches_of_task task.entry.task) (map span_pair task.entry.spans.now) task.entry.task.text.now))) }
{
    let first = first_of(task.task.what);
    let mut progress = NewProgress {
        at: 0,
        first: 0,
        turn: Turn {
            index: 0,
            left: first,
            next: first_selected(task.flags, 0),
        },
        telling: Reporter::new(alloc, first, known),
        written: 0,
    };
    let mut out = Vec::new(alloc);
    match write_groups(alloc, writer, &mut out, task, &mut progress) {
        Ok(()) => {}
        Err(e) => return Err(e),
    }
    match write_rest(alloc, writer, &out, task.task, &progress.telling) {
        Ok(()) => Ok(()),
        Err(e) => Err(e),
    }
}

/// How many lines are selected.
fn count_flags(flags: &[bool]) -> Result<u64, Fault>
    ensures { IfOk result (λ n. n ≡ count_selected flags.now) }
{
    let mut count = 0u64;
    for flag in flags {
        count = match count_more(count, *flag) {
            Ok(more) => more,
            Err(e) => return Err(e),
        };
    }
    Ok(count)
}

/// Writes what is printed for a text with these matches, which are replaced. Returns the number of selected lines.
fn report_found<'x, W: Write>(
    alloc: Global,
    writer: &mut W,
    task: TextTask<'x>,
    bytes: &'x [u8],
    spans: &'x [Span],
    known: SeparatorState,
) -> Result<u64, Fault>
    ensures reported { OnOk result (StartInOrder (matches_of_task task.entry) → StartInOrder (map span_pair spans.entry.now) →
        Appends (W.contents writer.old) (W.contents writer.new)
        (report_new task.entry.what.now task.entry.crlf task.entry.name.now task.entry.with_name known bytes.entry.now
        (matches_of_task task.entry) (map span_pair spans.entry.now) task.entry.text.now)) }
    ensures selected { IfOk result (λ n. StartInOrder (matches_of_task task.entry) →
        n ≡ counted_as task.entry.what.now.print (selected_touched task.entry.what.now (matches_of_task task.entry) task.entry.text.now)) }
    ensures fault { IfErr result (λ _. StartInOrder (matches_of_task task.entry) → StartInOrder (map span_pair spans.entry.now) →
        (n : ℕ) × Appends (W.contents writer.old) (W.contents writer.new) (take n
        (report_new task.entry.what.now task.entry.crlf task.entry.name.now task.entry.with_name known bytes.entry.now
        (matches_of_task task.entry) (map span_pair spans.entry.now) task.entry.text.now))) }
{
    let flags = match select_touched(alloc, task.what, task.found, task.text) {
        Ok(flags) => flags,
        Err(e) => return Err(e),
    };
    let count = match count_flags(&flags) {
        Ok(count) => count,
        Err(e) => return Err(e),
    };
    let task = NewTask {
        task,
        flags: &flags,
        bytes,
        spans,
    };
    match write_new(alloc, writer, task, known) {
        Ok(()) => Ok(counted_as(task.task.what.print, count)),
        Err(e) => Err(e),
    }
}

/// Searches a text as a whole, and writes what is printed for it with its matches replaced by what a template writes.
fn report_replaced<W: Write>(
    alloc: Global,
    finder: &mut Finder<'_>,
    what: &OutputOptions<'_>,
    template: &[u8],
    name: &[u8],
    with_name: bool,
    known: SeparatorState,
    text: &[u8],
    writer: &mut W,
) -> Result<u64, Fault>
    ensures same { finder.new ≡ finder.old }
    ensures reported { OnOk result ((by : SearchesFor finder.old true) → Appends (W.contents writer.old) (W.contents writer.new)
        (report_with (Some template.entry) what.now by.how by.names by.patterns name.now with_name known text.now)) }
    ensures selected { IfOk result (λ n. (by : SearchesFor finder.old true) →
        n ≡ counted_as what.now.print (selected_by (Some template.entry) what.now by.how by.patterns text.now)) }
    ensures fault { IfErr result (λ _. (by : SearchesFor finder.old true) → (n : ℕ) × Appends (W.contents writer.old) (W.contents writer.new)
        (take n (report_with (Some template.entry) what.now by.how by.names by.patterns name.now with_name known text.now))) }
{
    let crlf = finder.crlf();
    let found = match finder.matches(alloc, text) {
        Ok(found) => found,
        Err(e) => return Err(e),
    };
    let replaced = match finder.replaced(alloc, text, template) {
        Ok(replaced) => replaced,
        Err(e) => return Err(e),
    };
    let task = TextTask {
        what,
        name,
        with_name,
        crlf,
        text,
        found: &found,
    };
    match report_found(alloc, writer, task, &replaced.bytes, &replaced.spans, known) {
        Ok(count) => Ok(count),
        Err(e) => Err(e),
    }
}

/// The template, if lines or matches are printed.
fn template_of<'a>(what: &OutputOptions<'a>) -> Option<&'a [u8]>
    ensures { result ≡ template_of what.now }
{
    if prints_lines(what.print) {
        what.replacement
    } else {
        None
    }
}

/// Searches a text as a whole, and writes what is printed for it. Matches may span lines, and each line that a match touches is selected.
/// Returns the number of selected lines. If names of inputs are asked for, or nothing, the number is at most 1.
///
/// If there is a template, and lines or matches are printed, each match is replaced by what the template writes for it. Adjacent selected
/// lines are replaced together, and what comes of them is printed line by line. Numbers and offsets count on from those of the first one.
///
/// All matches of the text are in memory, and with a template the text with its matches replaced is, too. The output is written whenever
/// 64 KiB are held. On an error, a prefix of it was written.
///
/// `known` says whether lines of earlier inputs were printed. It decides whether a separator line precedes the first group of lines of this
/// text.
///
/// Preconditions: the finder may be asked for matches, so the body of every unbounded repetition in the patterns consumes at least one byte.
/// If there is a template, the patterns were taken with their groups.
pub fn report_text<W: Write>(
    alloc: Global,
    finder: &mut Finder<'_>,
    what: &OutputOptions<'_>,
    name: &[u8],
    with_name: bool,
    known: SeparatorState,
    text: &[u8],
    writer: &mut W,
) -> Result<u64, Fault>
    ensures same { finder.new ≡ finder.old }
    ensures reported { OnOk result ((by : SearchesFor finder.old true) → Appends (W.contents writer.old) (W.contents writer.new)
        (report_text what.now by.how by.names by.patterns name.now with_name known text.now)) }
    ensures selected { IfOk result (λ n. (by : SearchesFor finder.old true) →
        n ≡ counted_as what.now.print (selected_in_text what.now by.how by.patterns text.now)) }
    ensures fault { IfErr result (λ _. (by : SearchesFor finder.old true) → (n : ℕ) × Appends (W.contents writer.old) (W.contents writer.new)
        (take n (report_text what.now by.how by.names by.patterns name.now with_name known text.now))) }
{
    let Some(template) = template_of(what) else {
        return report_as_it_is(alloc, finder, what, name, with_name, known, text, writer);
    };
    report_replaced(
        alloc, finder, what, template, name, with_name, known, text, writer,
    )
}
