//! What is printed for an input that is read as a whole.
ghost use Rattle.std.specs.Prelude.{◌≡◌, ◌++◌, ℕ, false, true, IfErr, IfOk, IfSome, OnOk, take};
ghost use Rattle.std.specs.Io.KnownBytes.{Appends};
ghost use Rattle.line_search.specs.Searchers.{SearchesFor, found_by};
ghost use Rattle.grep_core.specs.Headings.{heading, under};
ghost use Rattle.text_report.specs.Events.{json_report, json_stats};
ghost use Rattle.text_report.specs.TextEvents.{json_of_text, json_text_stats};
ghost use Rattle.hirgrep_main.specs.Decisions.{is_headed};
ghost use Rattle.hirgrep_main.specs.Readings.{lists_in};
ghost use Rattle.hirgrep_main.specs.Tasks.{IsInputReported, body, body_count, patterns_by, report_by, whole_report_by};
ghost use Rattle.hirgrep_main.specs.Totals.{no_time, summed};

use crate::inputs::reading::read_whole;
use crate::inputs::reporting::is_headed;
use crate::results::outcome::Outcome;
use crate::results::totals::{no_time, summed};
use crate::task::Task;
use grep_cli::Reading;
use grep_core::{Headed, OutputOptions, SeparatorState, heading_of, report_input, write_out};
use json_events::Stats;
use line_search::{Fault, Finder};
use std::alloc::{AllocError, Global};
use std::io::{Read, Write};
use text_report::{report_events, report_records, report_text, report_text_events};

/// Writes the lines of a text as JSON, and adds what was searched to the sum.
fn report_json<W: Write>(
    alloc: Global,
    finder: &mut Finder<'_>,
    what: &OutputOptions<'_>,
    name: &[u8],
    text: &[u8],
    writer: &mut W,
    totals: &mut Stats,
) -> Result<u64, Fault>
    ensures same { finder.new ≡ finder.old }
    ensures written { OnOk result ((by : SearchesFor finder.old true) →
        Appends (W.contents writer.old) (W.contents writer.new)
        (json_report what.now (found_by by) name.now no_time text.now)) }
    ensures counted { IfOk result (λ n. (by : SearchesFor finder.old true) →
        n ≡ (json_stats what.now (found_by by) name.now no_time text.now).matched_lines) }
    ensures part { IfErr result (λ _. (by : SearchesFor finder.old true) →
        (n : ℕ) × Appends (W.contents writer.old) (W.contents writer.new)
        (take n (json_report what.now (found_by by) name.now no_time text.now))) }
    ensures sum { IfOk result (λ _. (by : SearchesFor finder.old true) →
        totals.new ≡ summed totals.old (json_stats what.now (found_by by) name.now no_time text.now)) }
{
    let stats = match report_events(alloc, finder, what, name, text, no_time(), writer) {
        Ok(stats) => stats,
        Err(e) => return Err(e),
    };
    *totals = summed(*totals, stats);
    Ok(stats.matched_lines)
}

/// Searches a text as a whole, writes the lines that matches touch as JSON, and adds what was searched to the sum.
fn report_text_json<W: Write>(
    alloc: Global,
    finder: &mut Finder<'_>,
    what: &OutputOptions<'_>,
    name: &[u8],
    text: &[u8],
    writer: &mut W,
    totals: &mut Stats,
) -> Result<u64, Fault>
    ensures same { finder.new ≡ finder.old }
    ensures written { OnOk result ((by : SearchesFor finder.old true) →
        Appends (W.contents writer.old) (W.contents writer.new)
        (json_of_text what.now by.how by.patterns name.now no_time text.now)) }
    ensures counted { IfOk result (λ n. (by : SearchesFor finder.old true) →
        n ≡ (json_text_stats what.now by.how by.patterns name.now no_time text.now).matched_lines) }
    ensures part { IfErr result (λ _. (by : SearchesFor finder.old true) →
        (n : ℕ) × Appends (W.contents writer.old) (W.contents writer.new)
        (take n (json_of_text what.now by.how by.patterns name.now no_time text.now))) }
    ensures sum { IfOk result (λ _. (by : SearchesFor finder.old true) →
        totals.new ≡ summed totals.old (json_text_stats what.now by.how by.patterns name.now no_time text.now)) }
{
    let searched = match report_text_events(alloc, finder, what, name, text, no_time(), writer) {
        Ok(searched) => searched,
        Err(e) => return Err(e),
    };
    *totals = summed(*totals, searched);
    Ok(searched.matched_lines)
}

/// Writes what is printed for a text: its lines, its records, the lines that matches touch, or its lines as JSON.
fn report_body<W: Write>(
    alloc: Global,
    finder: &mut Finder<'_>,
    reading: Reading,
    what: &OutputOptions<'_>,
    name: &[u8],
    with_name: bool,
    known: SeparatorState,
    text: &[u8],
    writer: &mut W,
    totals: &mut Stats,
) -> Result<u64, Fault>
    ensures same { finder.new ≡ finder.old }
    ensures written { OnOk result ((by : SearchesFor finder.old (lists_in reading what.now)) →
        Appends (W.contents writer.old) (W.contents writer.new)
        (body reading what.now (patterns_by by) name.now with_name known text.now)) }
    ensures counted { IfOk result (λ n. (by : SearchesFor finder.old (lists_in reading what.now)) →
        n ≡ body_count reading what.now (patterns_by by) name.now text.now) }
    ensures part { IfErr result (λ _. (by : SearchesFor finder.old (lists_in reading what.now)) →
        (n : ℕ) × Appends (W.contents writer.old) (W.contents writer.new)
        (take n (body reading what.now (patterns_by by) name.now with_name known text.now))) }
{
    match reading {
        Reading::Text => report_text(alloc, finder, what, name, with_name, known, text, writer),
        Reading::Events => report_json(alloc, finder, what, name, text, writer, totals),
        Reading::TextEvents => { report_text_json(alloc, finder, what, name, text, writer, totals) }
        Reading::Records => report_records(
            alloc, finder, what, name, with_name, known, text, writer,
        ),
        Reading::Lines => {
            let mut reader = text;
            report_input(
                alloc,
                finder,
                what,
                name,
                with_name,
                known,
                &mut reader,
                writer,
            )
        }
    }
}

/// A text under a heading. An empty one has none.
fn text_under(
    alloc: Global,
    what: &OutputOptions<'_>,
    name: &[u8],
    with_name: bool,
    printed: bool,
    text: &[u8],
) -> Result<Vec<u8>, AllocError>
    ensures { IfOk result (λ all. all.items ≡ under (heading what.now name.now with_name printed) text.now) }
{
    if text.is_empty() {
        return Ok(Vec::new(alloc));
    }
    let mut all = heading_of(alloc, what, name, with_name, printed)?;
    all.extend_from_slice(text)?;
    Ok(all)
}

/// Writes what is printed for a text under a heading. If nothing is printed, there is no heading.
fn report_below<W: Write>(
    alloc: Global,
    finder: &mut Finder<'_>,
    task: Task<'_>,
    what: &OutputOptions<'_>,
    printed: bool,
    name: &[u8],
    text: &[u8],
    writer: &mut W,
    totals: &mut Stats,
) -> Result<u64, Fault>
    ensures same { finder.new ≡ finder.old }
    ensures written { OnOk result ((by : SearchesFor finder.old (lists_in task.entry.asked.now.reading what.now)) →
        Appends (W.contents writer.old) (W.contents writer.new)
        (under (heading what.now name.now task.entry.with_name printed)
        (body task.entry.asked.now.reading what.now (patterns_by by) name.now false SeparatorState.NonePrinted text.now))) }
    ensures counted { IfOk result (λ n. (by : SearchesFor finder.old (lists_in task.entry.asked.now.reading what.now)) →
        n ≡ body_count task.entry.asked.now.reading what.now (patterns_by by) name.now text.now) }
    ensures part { IfErr result (λ _. (by : SearchesFor finder.old (lists_in task.entry.asked.now.reading what.now)) →
        (n : ℕ) × Appends (W.contents writer.old) (W.contents writer.new)
        (take n (heading what.now name.now task.entry.with_name printed
        ++ body task.entry.asked.now.reading what.now (patterns_by by) name.now false SeparatorState.NonePrinted text.now))) }
{
    let mut body = Vec::new(alloc);
    let none = SeparatorState::NonePrinted;
    let lines = match report_body(
        alloc,
        finder,
        task.asked.reading,
        what,
        name,
        false,
        none,
        text,
        &mut body,
        totals,
    ) {
        Ok(lines) => lines,
        Err(e) => return Err(e),
    };
    let all = match text_under(alloc, what, name, task.with_name, printed, &body) {
        Ok(all) => all,
        Err(_) => return Err(Fault::NoMemory),
    };
    match write_out(writer, &all) {
        Ok(()) => Ok(lines),
        Err(e) => Err(e),
    }
}

/// Reads an input as a whole, and writes what is printed for it with these options. `outcome` is that of earlier inputs, and `totals` the
/// sum of what was printed as JSON.
pub fn report_whole<R: Read, W: Write>(
    alloc: Global,
    finder: &mut Finder<'_>,
    task: Task<'_>,
    what: &OutputOptions<'_>,
    outcome: Outcome,
    name: &[u8],
    reader: &mut R,
    writer: &mut Headed<W>,
    totals: &mut Stats,
) -> Result<u64, Fault>
    ensures same { finder.new ≡ finder.old }
    ensures reported { (by : SearchesFor finder.old (lists_in task.entry.asked.now.reading what.now)) → IfSome (R.remaining reader.old) (λ bytes.
        IsInputReported (W.contents writer.old.writer) (W.contents writer.new.writer) result
        (report_by task.entry.asked.now.reading (is_headed task.entry.asked.now.heading what.now.print) task.entry what.now outcome
        (patterns_by by) name.now bytes)
        (whole_report_by task.entry.asked.now.reading (is_headed task.entry.asked.now.heading what.now.print) task.entry what.now outcome
        (patterns_by by) name.now bytes)
        (body_count task.entry.asked.now.reading what.now (patterns_by by) name.now bytes)) }
{
    let reading = task.asked.reading;
    let text = match read_whole(alloc, reader, task.asked.most_read) {
        Ok(text) => text,
        Err(e) => return Err(e),
    };
    let writer = &mut writer.writer;
    if is_headed(task.asked.heading, what.print) {
        return report_below(
            alloc,
            finder,
            task,
            what,
            outcome.printed,
            name,
            &text,
            writer,
            totals,
        );
    }
    report_body(
        alloc,
        finder,
        reading,
        what,
        name,
        task.with_name,
        outcome.known(),
        &text,
        writer,
        totals,
    )
}
