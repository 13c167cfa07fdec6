//! What is printed for a text whose matches may span lines.
ghost use Rattle.std.specs.Prelude.{◌≡◌, ◌++◌, ◌∷◌, ◌<◌, ◌≤◌, [], ℕ, IfErr, IfOk, List, OnOk, false, length, map, take, true};
ghost use Rattle.std.specs.Io.KnownBytes.{Appends};
ghost use Rattle.line_search.specs.LineMatchers.{span_pair};
ghost use Rattle.line_search.specs.Lines.{TextLine};
ghost use Rattle.line_search.specs.Searchers.{SearchesFor};
ghost use Rattle.grep_core.specs.ContextPrinting.{Waits};
ghost use Rattle.grep_core.specs.Report.{counted_as};
ghost use Rattle.text_report.specs.LineSpans.{line_of};
ghost use Rattle.text_report.specs.TextProgress.{LeavesLines, ReportsLines, WritesTextLines, WritesPrefix, count_left, matches_of_task, lines_left, reported_left};
ghost use Rattle.text_report.specs.TextReports.{by_starts, counts_begun, report_as_it_is, report_found, selected_as_it_is, selected_in_found};
ghost use Rattle.text_report.specs.Touching.{AreBefore, StartInOrder, has_match_of, parts_in};

use crate::lines::LineSpan;
use crate::text_lines::{SeenLine, TextPosition, first_position, next_line, position_after};
use crate::touching::{from_index, push_parts};
use grep_core::{
    Line, OutputOptions, Reporter, SeparatorState, counted_as, counts_matches, first_of, flush,
    is_selected, prints_lines, report_end, report_flagged, searched, write_out,
};
use line_search::{Fault, Finder};
use search_types::Span;
use std::alloc::{AllocError, Global};
use std::io::Write;

/// The output is written whenever so many bytes are held.
const HELD: usize = 1 << 16;

/// A text with all matches of it, from left to right, and what is printed for it.
#[derive(Clone, Copy)]
pub struct TextTask<'a> {
    pub what: &'a OutputOptions<'a>,
    pub name: &'a [u8],
    /// Whether the name is printed before lines.
    pub with_name: bool,
    /// Whether a carriage return before the line feed belongs to the end of a line.
    pub crlf: bool,
    pub text: &'a [u8],
    pub found: &'a [Span],
}

/// Where the next line begins, and the state of the output after the lines before it.
#[derive(Drop)]
pub struct TextProgress {
    pub at: TextPosition,
    pub telling: Reporter,
}

/// Whether a line is selected only if a match begins in it.
pub(crate) fn by_starts(what: &OutputOptions<'_>) -> bool
    ensures { result ≡ by_starts what.now }
{
    what.each_match && prints_lines(what.print) && !what.invert
}

/// Whether the matches of a line are those that begin in it.
fn counts_begun(what: &OutputOptions<'_>) -> bool
    ensures { result ≡ counts_begun what.now }
{
    by_starts(what) || counts_matches(what.print)
}

/// The parts of matches that are shown in a line. The matches before this index are before the line.
pub(crate) fn parts_of(
    alloc: Global,
    task: TextTask<'_>,
    line: LineSpan,
    first: usize,
) -> Result<Vec<Span>, AllocError>
    requires ordered { line.start ≤ line.end }
    requires inside { line.end ≤ length task.text.now }
    ensures { IfOk result (λ parts. StartInOrder (matches_of_task task.entry) → AreBefore task.entry.found.now first line.start →
        map span_pair parts.items
        ≡ parts_in (counts_begun task.entry.what.now) task.entry.crlf (matches_of_task task.entry) (line_of task.entry.text.now line)) }
{
    let bytes = &task.text[line.start..line.end];
    let size = searched(task.crlf, bytes, line.is_ended).len();
    let begun = counts_begun(task.what);
    let found = from_index(task.found, first);
    let mut parts = Vec::new(alloc);
    push_parts(&mut parts, found, begun, line.start, line.end, size)?;
    Ok(parts)
}

/// Processes a line.
fn report_seen(
    alloc: Global,
    out: &mut Vec<u8>,
    task: TextTask<'_>,
    telling: &mut Reporter,
    seen: SeenLine,
) -> Result<(), Fault>
    requires waits { Waits task.what.now telling.old.course }
    requires ordered { seen.line.start ≤ seen.line.end }
    requires inside { seen.line.end ≤ length task.text.now }
    ensures goes_on { OnOk result (StartInOrder (matches_of_task task.entry) → AreBefore task.entry.found.now seen.first seen.line.start →
        seen.has ≡ has_match_of (by_starts task.entry.what.now) (matches_of_task task.entry) (line_of task.entry.text.now seen.line) →
        (lines : List TextLine) →
        out.old.items ++ reported_left task.entry telling.old (line_of task.entry.text.now seen.line ∷ lines)
        ≡ out.new.items ++ reported_left task.entry telling.new lines) }
    ensures counts { OnOk result (
        seen.has ≡ has_match_of (by_starts task.entry.what.now) (matches_of_task task.entry) (line_of task.entry.text.now seen.line) →
        (lines : List TextLine) →
        count_left task.entry telling.new lines ≡ count_left task.entry telling.old (line_of task.entry.text.now seen.line ∷ lines)) }
    ensures waits { OnOk result (Waits task.entry.what.now telling.new.course) }
{
    let line = seen.line;
    let parts = parts_of(alloc, task, line, seen.first)?;
    let is_selected = is_selected(task.what, telling.count, seen.has);
    let shown = Line {
        number: line.number,
        place: line.start as u64,
        bytes: &task.text[line.start..line.end],
        is_ended: line.is_ended,
    };
    report_flagged(
        alloc,
        out,
        task.what,
        task.name,
        task.with_name,
        telling,
        shown,
        is_selected,
        &parts,
    )?;
    Ok(())
}

/// Processes the next line. Returns whether there is one.
fn report_next(
    alloc: Global,
    out: &mut Vec<u8>,
    task: TextTask<'_>,
    progress: &mut TextProgress,
) -> Result<bool, Fault>
    requires waits { Waits task.what.now progress.old.telling.course }
    requires within { progress.old.at.place ≤ length task.text.now }
    ensures leaves { LeavesLines task.entry progress.new result }
    ensures on { IfOk result (λ more. more ≡ true → progress.old.at.place < progress.new.at.place) }
    ensures goes_on { OnOk result (StartInOrder (matches_of_task task.entry) → AreBefore task.entry.found.now progress.old.at.first progress.old.at.place →
        ReportsLines task.entry progress.old progress.new out.old.items out.new.items) }
{
    let begun = by_starts(task.what);
    let Some(seen) = next_line(task.text, b'\n', task.found, begun, progress.at) else {
        return Ok(false);
    };
    report_seen(alloc, out, task, &mut progress.telling, seen)?;
    progress.at = position_after(seen)?;
    Ok(true)
}

/// Processes the next lines until enough output is held or the text ends. Returns whether there may be more of them.
fn report_some(
    alloc: Global,
    out: &mut Vec<u8>,
    task: TextTask<'_>,
    progress: &mut TextProgress,
) -> Result<bool, Fault>
    requires waits { Waits task.what.now progress.old.telling.course }
    requires within { progress.old.at.place ≤ length task.text.now }
    ensures leaves { LeavesLines task.entry progress.new result }
    ensures goes_on { OnOk result (StartInOrder (matches_of_task task.entry) → AreBefore task.entry.found.now progress.old.at.first progress.old.at.place →
        ReportsLines task.entry progress.old progress.new out.old.items out.new.items) }
{
    for _lines in 0..usize::MAX {
        if out.len() >= HELD {
            return Ok(true);
        }
        match report_next(alloc, out, task, progress) {
            Ok(true) => {}
            Ok(false) => return Ok(false),
            Err(e) => return Err(e),
        }
    }
    Ok(true)
}

/// Processes some of the next lines, and writes their output. Returns whether there may be more of them.
fn write_some<W: Write>(
    alloc: Global,
    writer: &mut W,
    task: TextTask<'_>,
    progress: &mut TextProgress,
) -> Result<bool, Fault>
    requires waits { Waits task.what.now progress.old.telling.course }
    requires within { progress.old.at.place ≤ length task.text.now }
    ensures leaves { LeavesLines task.entry progress.new result }
    ensures writes { OnOk result (StartInOrder (matches_of_task task.entry) → AreBefore task.entry.found.now progress.old.at.first progress.old.at.place →
        WritesTextLines task.entry progress.old progress.new (W.contents writer.old) (W.contents writer.new)) }
    ensures fault { IfErr result (λ _. StartInOrder (matches_of_task task.entry) →
        AreBefore task.entry.found.now progress.old.at.first progress.old.at.place →
        WritesPrefix task.entry progress.old (W.contents writer.old) (W.contents writer.new)) }
{
    let mut out = Vec::new(alloc);
    let more = match report_some(alloc, &mut out, task, progress) {
        Ok(more) => more,
        Err(e) => return Err(e),
    };
    match write_out(writer, &out) {
        Ok(()) => Ok(more),
        Err(e) => Err(e),
    }
}

/// Processes all lines, and writes their output.
fn write_lines<W: Write>(
    alloc: Global,
    writer: &mut W,
    task: TextTask<'_>,
    progress: &mut TextProgress,
) -> Result<(), Fault>
    requires waits { Waits task.what.now progress.old.telling.course }
    requires within { progress.old.at.place ≤ length task.text.now }
    ensures waits { OnOk result (Waits task.entry.what.now progress.new.telling.course) }
    ensures end { OnOk result (lines_left task.entry progress.new ≡ []) }
    ensures writes { OnOk result (StartInOrder (matches_of_task task.entry) → AreBefore task.entry.found.now progress.old.at.first progress.old.at.place →
        WritesTextLines task.entry progress.old progress.new (W.contents writer.old) (W.contents writer.new)) }
    ensures fault { IfErr result (λ _. StartInOrder (matches_of_task task.entry) →
        AreBefore task.entry.found.now progress.old.at.first progress.old.at.place →
        WritesPrefix task.entry progress.old (W.contents writer.old) (W.contents writer.new)) }
{
    for _parts in 0..u64::MAX {
        match write_some(alloc, writer, task, progress) {
            Ok(true) => {}
            Ok(false) => return Ok(()),
            Err(e) => return Err(e),
        }
    }
    Err(Fault::TooLong)
}

/// Writes what is printed after the last line, and flushes the writer.
pub(crate) fn write_end<W: Write>(
    alloc: Global,
    writer: &mut W,
    task: TextTask<'_>,
    telling: &Reporter,
) -> Result<(), Fault>
    requires { Waits task.what.now telling.now.course }
    ensures written { OnOk result (Appends (W.contents writer.old) (W.contents writer.new) (reported_left task.entry telling.now [])) }
    ensures fault { IfErr result (λ _. (n : ℕ) × Appends (W.contents writer.old) (W.contents writer.new)
        (take n (reported_left task.entry telling.now []))) }
{
    let mut out = Vec::new(alloc);
    match report_end(
        alloc,
        &mut out,
        task.what,
        task.name,
        task.with_name,
        telling,
    ) {
        Ok(()) => {}
        Err(_) => return Err(Fault::NoMemory),
    }
    match write_out(writer, &out) {
        Ok(()) => {}
        Err(e) => return Err(e),
    }
    match flush(writer) {
        Ok(()) => Ok(()),
        Err(e) => Err(e),
    }
}

/// Writes what is printed for a text and these matches of it. Returns the number of selected lines.
fn report_found<W: Write>(
    alloc: Global,
    writer: &mut W,
    task: TextTask<'_>,
    known: SeparatorState,
) -> Result<u64, Fault>
    ensures reported { OnOk result (StartInOrder (matches_of_task task.entry) → Appends (W.contents writer.old) (W.contents writer.new)
        (report_found task.entry.what.now task.entry.crlf task.entry.name.now task.entry.with_name known (matches_of_task task.entry)
        task.entry.text.now)) }
    ensures selected { IfOk result (λ n. StartInOrder (matches_of_task task.entry) →
        n ≡ counted_as task.entry.what.now.print (selected_in_found task.entry.what.now (matches_of_task task.entry) task.entry.text.now)) }
    ensures fault { IfErr result (λ _. StartInOrder (matches_of_task task.entry) → (n : ℕ) × Appends (W.contents writer.old) (W.contents writer.new)
        (take n (report_found task.entry.what.now task.entry.crlf task.entry.name.now task.entry.with_name known (matches_of_task task.entry)
        task.entry.text.now))) }
{
    let mut progress = TextProgress {
        at: first_position(),
        telling: Reporter::new(alloc, first_of(task.what), known),
    };
    match write_lines(alloc, writer, task, &mut progress) {
        Ok(()) => {}
        Err(e) => return Err(e),
    }
    match write_end(alloc, writer, task, &progress.telling) {
        Ok(()) => Ok(counted_as(task.what.print, progress.telling.count)),
        Err(e) => Err(e),
    }
}

/// Searches a text as a whole, and writes what is printed for it with its matches as they are. Returns the number of selected lines.
pub(crate) fn report_as_it_is<W: Write>(
    alloc: Global,
    finder: &mut Finder<'_>,
    what: &OutputOptions<'_>,
    name: &[u8],
    with_name: bool,
    known: SeparatorState,
    text: &[u8],
    writer: &mut W,
) -> Result<u64, Fault>
    ensures same { finder.new ≡ finder.old }
    ensures reported { OnOk result ((by : SearchesFor finder.old true) → Appends (W.contents writer.old) (W.contents writer.new)
        (report_as_it_is what.now by.how by.patterns name.now with_name known text.now)) }
    ensures selected { IfOk result (λ n. (by : SearchesFor finder.old true) →
        n ≡ counted_as what.now.print (selected_as_it_is what.now by.how by.patterns text.now)) }
    ensures fault { IfErr result (λ _. (by : SearchesFor finder.old true) → (n : ℕ) × Appends (W.contents writer.old) (W.contents writer.new)
        (take n (report_as_it_is what.now by.how by.patterns name.now with_name known text.now))) }
{
    let crlf = finder.crlf();
    let found = match finder.matches(alloc, text) {
        Ok(found) => found,
        Err(e) => return Err(e),
    };
    let task = TextTask {
        what,
        name,
        with_name,
        crlf,
        text,
        found: &found,
    };
    match report_found(alloc, writer, task, known) {
        Ok(count) => Ok(count),
        Err(e) => Err(e),
    }
}
