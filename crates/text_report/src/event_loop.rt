//! The JSON events of a text, one after the other.
ghost use Rattle.std.specs.Prelude.{◌≡◌, ◌<◌, ◌≤◌, ◌++◌, ℕ, IfErr, IfOk, List, OnOk, Option, length, map, true};
ghost use Rattle.line_search.specs.LineMatchers.{span_pair};
ghost use Rattle.line_search.specs.Searchers.{SearchesFor, found_by};
ghost use Rattle.json_events.specs.declared.elapsed.Elapsed.{Elapsed as TheElapsed};
ghost use Rattle.text_report.specs.Events.{printed, shown_found, with_event};
ghost use Rattle.text_report.specs.EventCourse.{AreOrdered, ArePast, ArePrinted, IsCutOff, IsHeld, IsGroup, KnowsNext, WritesSome, group_of, item_of, printed_left};
ghost use Rattle.text_report.specs.LineSpans.{whole_end};
ghost use Rattle.text_report.specs.TextEvents.{parts_between};
ghost use Rattle.text_report.specs.Touching.{AreBefore, StartInOrder};

use crate::event_lines::{EventProgress, EventTask, Group, take_group};
use crate::events::{Counts, Item, has_marks, matches_of, push_item, sum};
use crate::touching::{first_touching, from_index, push_parts};
use grep_core::{Role, write_out};
use line_search::{Fault, Finder};
use search_types::Span;
use std::alloc::{AllocError, Global};
use std::io::Write;

/// Events are written whenever so many bytes are held.
const HELD: usize = 1 << 16;

/// The parts of matches of a text that are in some lines. The matches before this index are before the lines.
fn parts_of(
    alloc: Global,
    found: &[Span],
    group: Group,
    first: usize,
) -> Result<Vec<Span>, AllocError>
    requires ordered { group.first.start ≤ whole_end group.last }
    requires within { whole_end group.last ≤ 0xFFFF_FFFF_FFFF_FFFF }
    ensures { IfOk result (λ parts. StartInOrder (map span_pair found.now) → AreBefore found.now first group.first.start →
        map span_pair parts.items
        ≡ parts_between (map span_pair found.now) group.first.start group.last.end (whole_end group.last)) }
{
    let (start, end) = (group.first.start, group.last.end);
    let size = group.last.whole_end() - start;
    let rest = from_index(found, first);
    let mut parts = Vec::new(alloc);
    push_parts(&mut parts, rest, false, start, end, size)?;
    Ok(parts)
}

/// The parts of all matches that are in some lines.
fn found_in(
    alloc: Global,
    finder: &mut Finder<'_>,
    task: EventTask<'_>,
    group: Group,
    first: usize,
) -> Result<Vec<Span>, Fault>
    requires lies { IsGroup task.text.now group }
    requires past { ArePast task first group.first.start }
    ensures same { finder.new ≡ finder.old }
    ensures found { IfOk result (λ found. (by : SearchesFor finder.old true) → AreOrdered task.entry →
        map span_pair found.items ≡ (item_of task.entry (found_by by) (group_of task.entry.text.now group)).found) }
{
    let Some(found) = task.found else {
        let line = group.first;
        return matches_of(
            alloc,
            finder,
            &task.text[line.start..line.end],
            line.is_ended,
        );
    };
    match parts_of(alloc, found, group, first) {
        Ok(parts) => Ok(parts),
        Err(_) => Err(Fault::NoMemory),
    }
}

/// The parts of matches that are shown in some lines.
fn shown_in(
    alloc: Global,
    finder: &mut Finder<'_>,
    task: EventTask<'_>,
    group: Group,
    first: usize,
) -> Result<Vec<Span>, Fault>
    requires lies { IsGroup task.text.now group }
    requires past { ArePast task first group.first.start }
    ensures same { finder.new ≡ finder.old }
    ensures found { IfOk result (λ found. (by : SearchesFor finder.old true) → AreOrdered task.entry → map span_pair found.items
        ≡ shown_found task.entry.what.now group.role (item_of task.entry (found_by by) (group_of task.entry.text.now group)).found) }
{
    if !has_marks(task.what, group.role) {
        return Ok(Vec::new(alloc));
    }
    match found_in(alloc, finder, task, group, first) {
        Ok(found) => Ok(found),
        Err(e) => Err(e),
    }
}

/// Appends the event of some lines, if they are printed, and counts them.
fn push_group(
    alloc: Global,
    out: &mut Vec<u8>,
    finder: &mut Finder<'_>,
    task: EventTask<'_>,
    group: Group,
    first: usize,
    counts: Counts,
) -> Result<Counts, Fault>
    requires lies { IsGroup task.text.now group }
    requires past { ArePast task first group.first.start }
    ensures same { finder.new ≡ finder.old }
    ensures kept { IfOk result (λ new. new.end ≡ 0 → counts.end ≡ 0) }
    ensures reported { IfOk result (λ new. (by : SearchesFor finder.old true) → AreOrdered task.entry →
        printed out.new.items new
        ≡ with_event task.entry.what.now task.entry.name.now group.role (item_of task.entry (found_by by) (group_of task.entry.text.now group))
        (printed out.old.items counts)) }
{
    match group.role {
        Role::Hidden => return Ok(counts),
        Role::Selected | Role::Beside => {}
    }
    let found = match shown_in(alloc, finder, task, group, first) {
        Ok(found) => found,
        Err(e) => return Err(e),
    };
    let item = Item {
        number: group.first.number,
        place: group.first.start as u64,
        bytes: &task.text[group.first.start..group.last.whole_end()],
        found: &found,
        lines: group.lines,
    };
    match push_item(alloc, out, task.what, task.name, group.role, item, counts) {
        Ok(new) => Ok(new),
        Err(e) => Err(e),
    }
}

/// The index of the first match of the text, from this one on, that isn't before each line from an offset on.
fn match_index(task: EventTask<'_>, first: usize, at: usize) -> usize
    requires { ArePast task first at }
    ensures { ArePast task.entry result at }
{
    match task.found {
        Some(found) => first_touching(found, first, at),
        None => first,
    }
}

/// Appends the event of the next lines, if they are printed, and counts them.
fn push_next(
    alloc: Global,
    out: &mut Vec<u8>,
    finder: &mut Finder<'_>,
    task: EventTask<'_>,
    progress: &mut EventProgress,
) -> Result<(), Fault>
    requires below { progress.old.at < length task.text.now }
    requires known { KnowsNext task.flags.now progress.old.turn }
    requires past { ArePast task progress.old.first progress.old.at }
    ensures same { finder.new ≡ finder.old }
    ensures on { OnOk result ((progress.old.at < progress.new.at) × (progress.new.at ≤ length task.entry.text.now)) }
    ensures known { OnOk result (KnowsNext task.entry.flags.now progress.new.turn) }
    ensures past { OnOk result (ArePast task.entry progress.new.first progress.new.at) }
    ensures written { OnOk result (progress.new.written ≡ progress.old.written) }
    ensures kept { OnOk result (progress.new.counts.end ≡ 0 → progress.old.counts.end ≡ 0) }
    ensures goes_on { OnOk result ((by : SearchesFor finder.old true) → AreOrdered task.entry → (before : List ℕ) →
        printed_left task.entry (found_by by) progress.old (printed (before ++ out.old.items) progress.old.counts)
        ≡ printed_left task.entry (found_by by) progress.new (printed (before ++ out.new.items) progress.new.counts)) }
{
    let at = progress.at;
    let group = match take_group(task, &mut progress.turn, at) {
        Ok(group) => group,
        Err(e) => return Err(e),
    };
    let first = match_index(task, progress.first, at);
    let counts = match push_group(alloc, out, finder, task, group, first, progress.counts) {
        Ok(counts) => counts,
        Err(e) => return Err(e),
    };
    progress.counts = counts;
    progress.first = first;
    progress.at = group.last.whole_end();
    Ok(())
}

/// Writes what is held, if it is enough and a line is among it. `end` is the offset after the last line that is printed, or 0.
pub(crate) fn write_held<W: Write>(
    writer: &mut W,
    out: &mut Vec<u8>,
    end: u64,
    written: &mut u64,
) -> Result<(), Fault>
    ensures held { OnOk result ((start : Option (List ℕ)) (all : List ℕ) →
        IsHeld start (W.contents writer.old) all out.old.items written.old end →
        IsHeld start (W.contents writer.new) all out.new.items written.new end) }
    ensures fault { IfErr result (λ _. (start : Option (List ℕ)) (all : List ℕ) →
        IsHeld start (W.contents writer.old) all out.old.items written.old end → IsCutOff start (W.contents writer.new) all end) }
{
    if out.len() < HELD || end == 0 {
        return Ok(());
    }
    let more = match sum(*written, out.as_slice().len() as u64) {
        Ok(more) => more,
        Err(e) => return Err(e),
    };
    match write_out(writer, out) {
        Ok(()) => {}
        Err(e) => return Err(e),
    }
    *written = more;
    out.clear();
    Ok(())
}

/// Makes the events of all lines, and writes those that aren't held at the end.
pub(crate) fn write_groups<W: Write>(
    alloc: Global,
    writer: &mut W,
    out: &mut Vec<u8>,
    finder: &mut Finder<'_>,
    task: EventTask<'_>,
    progress: &mut EventProgress,
) -> Result<(), Fault>
    requires within { progress.old.at ≤ length task.text.now }
    requires known { KnowsNext task.flags.now progress.old.turn }
    requires past { ArePast task progress.old.first progress.old.at }
    requires none_written { progress.old.written ≡ 0 }
    requires none_printed { progress.old.counts.end ≡ 0 }
    ensures same { finder.new ≡ finder.old }
    ensures end { OnOk result (length task.entry.text.now ≤ progress.new.at) }
    ensures printed { OnOk result (ArePrinted task.entry finder.old (W.contents writer.old) (W.contents writer.new)
        out.old.items out.new.items progress.old progress.new) }
    ensures fault { IfErr result (λ _. (by : SearchesFor finder.old true) → AreOrdered task.entry → (time : TheElapsed) →
        WritesSome task.entry (found_by by) time progress.old out.old.items (W.contents writer.old) (W.contents writer.new)) }
{
    while progress.at < task.text.len() {
        match push_next(alloc, out, finder, task, progress) {
            Ok(()) => {}
            Err(e) => return Err(e),
        }
        match write_held(writer, out, progress.counts.end, &mut progress.written) {
            Ok(()) => {}
            Err(e) => return Err(e),
        }
    }
    Ok(())
}
