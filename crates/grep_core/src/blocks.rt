//! Processes the lines of blocks of an input.
ghost use Rattle.std.specs.Prelude.{◌≡◌, ◌++◌, ◌∷◌, ◌+◌, ◌≤◌, ◌==◌, List, None, OnOk, IfOk, drop, length, ◌<◌, true};
ghost use Rattle.std.specs.List.{position};
ghost use Rattle.grep_core.specs.Blocks.{KeepsOn, SearchesBy, ReportsUpTo, finds_by, reported_bytes, counts_lines};
ghost use Rattle.line_search.specs.Candidates.{IsLineStart, IsNextLine};
ghost use Rattle.grep_core.specs.ContextPrinting.{Waits};
ghost use Rattle.line_search.specs.Lines.{SplitLine, searched};
ghost use Rattle.grep_core.specs.Skipping.{AreWhole};
ghost use Rattle.line_search.specs.Searchers.{IsMatchReported};

use crate::line::Line;
use crate::looking::{look_at, shown_bytes};
use crate::passing::skip_lines;
use crate::progress::{Progress, Task, pass};
use crate::reporter::report_line;
use line_search::{Fault, Finder, Reached, feed_at, line_start};
use std::alloc::Global;

/// Processes the whole lines at the start of a block. Returns the number of their bytes.
pub(crate) fn report_block(
    alloc: Global,
    out: &mut Vec<u8>,
    finder: &mut Finder<'_>,
    task: Task<'_>,
    progress: &mut Progress,
    block: &[u8],
) -> Result<usize, Fault>
    requires { Waits task.what.now progress.old.telling.course }
    ensures keeps { KeepsOn task.entry finder.old finder.new progress.new result }
    ensures within { IfOk result (λ done. done ≤ length block.now) }
    ensures all { IfOk result (λ done. position (λ b. b == 10) (drop done block.now) ≡ None) }
    ensures reports { IfOk result (λ done. ReportsUpTo task.entry finder.old progress.old progress.new out.old.items out.new.items
        block.now (drop done block.now)) }
{
    let whole = line_start(block, 0, block.len());
    let lines = &block[..whole];
    let mut done = 0usize;
    while done < whole {
        let reached = match finder.next_line(alloc, lines, done) {
            Ok(reached) => reached,
            Err(e) => return Err(e),
        };
        done = match report_reached(alloc, out, finder, task, progress, lines, done, reached) {
            Ok(next) => next,
            Err(e) => return Err(e),
        };
    }
    Ok(done)
}

/// Processes lines from the start of a line on: those before the next line that may have a match, which a search reached, and that line if
/// it is known to have one or is the first. Returns the offset after them. The block consists of whole lines.
fn report_reached(
    alloc: Global,
    out: &mut Vec<u8>,
    finder: &mut Finder<'_>,
    task: Task<'_>,
    progress: &mut Progress,
    block: &[u8],
    at: usize,
    reached: Reached,
) -> Result<usize, Fault>
    requires waits { Waits task.what.now progress.old.telling.course }
    requires below { at < length block.now }
    requires whole { AreWhole block.now }
    requires next { IsNextLine finder.old.how finder.old.texts block.now at reached }
    ensures keeps { KeepsOn task.entry finder.old finder.new progress.new result }
    ensures on { IfOk result (λ next. at < next) }
    ensures within { IfOk result (λ next. next ≤ length block.now) }
    ensures starts { IfOk result (λ next. IsLineStart block.now next) }
    ensures reports { IfOk result (λ next. ReportsUpTo task.entry finder.old progress.old progress.new out.old.items out.new.items
        (drop at block.now) (drop next block.now)) }
{
    let start = reached.start;
    match skip_lines(alloc, out, task, progress, &block[at..start]) {
        Ok(()) => {}
        Err(e) => return Err(e),
    }
    if at < start && !reached.has {
        return Ok(start);
    }
    let len = match feed_at(&block[start..]) {
        Some(len) => len,
        None => return Ok(start),
    };
    let line = &block[start..start + len];
    match report_one(alloc, out, finder, task, progress, line, true, reached.has) {
        Ok(()) => Ok(start + len + 1),
        Err(e) => Err(e),
    }
}

/// Processes one line. The line is given without its line feed. `is_known` says whether it is known to have a match.
pub fn report_one(
    alloc: Global,
    out: &mut Vec<u8>,
    finder: &mut Finder<'_>,
    task: Task<'_>,
    progress: &mut Progress,
    bytes: &[u8],
    is_ended: bool,
    is_known: bool,
) -> Result<(), Fault>
    requires waits { Waits task.what.now progress.old.telling.course }
    requires known { is_known ≡ true → IsMatchReported finder.old.how finder.old.texts
        (searched finder.old.how.crlf (record { bytes = bytes.now; is_ended = is_ended })) true }
    ensures same { finder.new ≡ finder.old }
    ensures waits { OnOk result (Waits task.entry.what.now progress.new.telling.course) }
    ensures goes_on { OnOk result ((by : SearchesBy task.entry finder.old) (lines : List SplitLine) →
        out.old.items ++ reported_bytes task.entry (finds_by task.entry by) progress.old (record { bytes = bytes.now; is_ended = is_ended }
        ∷ lines)
        ≡ out.new.items ++ reported_bytes task.entry (finds_by task.entry by) progress.new lines) }
    ensures counts { OnOk result ((by : SearchesBy task.entry finder.old) (lines : List SplitLine) →
        counts_lines task.entry (finds_by task.entry by) progress.new lines ≡
        counts_lines task.entry (finds_by task.entry by) progress.old (record { bytes = bytes.now; is_ended = is_ended } ∷ lines)) }
{
    let seen = match look_at(alloc, finder, task.what, bytes, is_ended, is_known) {
        Ok(seen) => seen,
        Err(e) => return Err(e),
    };
    let line = Line {
        number: progress.number,
        place: progress.place,
        bytes: shown_bytes(&seen.replaced, bytes),
        is_ended,
    };
    match report_line(
        alloc,
        out,
        task.what,
        task.name,
        task.with_name,
        &mut progress.telling,
        line,
        seen.has,
        &seen.found,
    ) {
        Ok(()) => {}
        Err(e) => return Err(e),
    }
    match pass(progress, bytes.len()) {
        Ok(()) => Ok(()),
        Err(e) => Err(e),
    }
}
