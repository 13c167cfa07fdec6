//! Processes lines that are known to have no match, without searching them.
ghost use Rattle.std.specs.Prelude.{◌≡◌, ◌==◌, ◌++◌, ◌∷◌, [], ◌+◌, ◌<◌, ◌≤◌, ℕ, All, List, IfOk, OnOk, IsTrue, count_by, drop, false, true};
ghost use Rattle.std.specs.Prelude.{length};
ghost use Rattle.grep_core.specs.Blocks.{SearchesBy, finds_by, reported_bytes, counts_lines};
ghost use Rattle.line_search.specs.Candidates.{IsLineStart};
ghost use Rattle.grep_core.specs.ContextPrinting.{Waits};
ghost use Rattle.line_search.specs.Lines.{SplitLine, ended, split_lines};
ghost use Rattle.grep_core.specs.Skipping.{AreWhole, HasNoMatch, MaySkip, PassesLinesTo, held_of, shows_numbers};
ghost use Rattle.line_search.specs.LineMatchers.{LineMatcher};
ghost use Rattle.line_search.specs.Searchers.{Sought, found_by};

use crate::context_printer::{ContextPrinter, after_hidden, before_of, forget_waiting};
use crate::line::Line;
use crate::output_options::OutputOptions;
use crate::progress::{Progress, Task, pass, sum};
use crate::reporter::{prints_lines, report_line};
use line_search::{Fault, feed_at, line_start};
use std::alloc::Global;

/// How many bytes are counted in one byte: no more than the greatest count that fits into it, and whole vectors.
const PART: usize = 128;

/// The number of line feeds in a short part. The count is kept in one byte, so that many bytes are compared and added at once.
fn count_few(part: &[u8]) -> u8
    requires { length part.now ≤ 255 }
    ensures { result ≡ count_by (λ b. b == 10) part.now }
{
    let mut feeds = 0u8;
    for b in part {
        if *b == b'\n' {
            feeds += 1;
        }
    }
    feeds
}

/// The number of line feeds in an input.
fn count_feeds(text: &[u8]) -> usize
    ensures { result ≡ count_by (λ b. b == 10) text.now }
{
    let mut feeds = 0usize;
    let mut done = 0usize;
    while done < text.len() {
        let len = (text.len() - done).min(PART);
        feeds += count_few(&text[done..done + len]) as usize;
        done += len;
    }
    feeds
}

/// How many lines before a selected one are printed with it.
fn held_of(what: &OutputOptions<'_>) -> u64
    ensures { result ≡ held_of what.now }
{
    if prints_lines(what.print) {
        before_of(what)
    } else {
        0
    }
}

/// The start of the last `count` lines of some whole lines, or 0 if there are no more than that.
fn last_lines(lines: &[u8], count: u64) -> usize
    requires { AreWhole lines.now }
    ensures within { result ≤ length lines.now }
    ensures starts { IsLineStart lines.now result }
    ensures enough { 0 < result → count ≤ count_by (λ b. b == 10) (drop result lines.now) }
{
    let mut start = lines.len();
    let mut found = 0u64;
    while found < count {
        if start == 0 {
            return 0;
        }
        start = line_start(lines, 0, start - 1);
        found += 1;
    }
    start
}

/// Whether processing lines without a match one by one can stop. It can if such lines can be skipped, unless `all` asks for all of them.
fn stops(what: &OutputOptions<'_>, course: &ContextPrinter, all: bool) -> bool
    ensures may { IsTrue result → MaySkip what.now course.now }
    ensures some { IsTrue result → all ≡ false }
{
    if all {
        return false;
    }
    if what.invert {
        return false;
    }
    !prints_lines(what.print) || course.left == 0
}

/// Whether the output depends on the numbers of lines or on their offsets.
fn shows_numbers(what: &OutputOptions<'_>) -> bool
    ensures { result ≡ shows_numbers what.now }
{
    prints_lines(what.print) && (what.numbers || what.offsets)
}

/// Counts whole lines that are skipped, if the output depends on the numbers or offsets of lines.
fn count_over(what: &OutputOptions<'_>, progress: &mut Progress, lines: &[u8]) -> Result<(), Fault>
    ensures number { shows_numbers what.now ≡ true →
        OnOk result (progress.new.number ≡ progress.old.number + count_by (λ b. b == 10) lines.now) }
    ensures place { shows_numbers what.now ≡ true → OnOk result (progress.new.place ≡ progress.old.place + length lines.now) }
    ensures telling { OnOk result (progress.new.telling ≡ progress.old.telling) }
{
    if !shows_numbers(what) {
        return Ok(());
    }
    let feeds = count_feeds(lines);
    progress.number = sum(progress.number, feeds as u64)?;
    progress.place = sum(progress.place, lines.len() as u64)?;
    Ok(())
}

/// Skips lines without a match, except the last ones, which are printed if a selected line follows them. If any line is skipped, the
/// buffered lines are dropped, and if numbers or offsets are printed, the skipped ones are counted. Returns the start of the first line that isn't
/// skipped.
fn skip_over(task: Task<'_>, progress: &mut Progress, lines: &[u8]) -> Result<usize, Fault>
    requires waits { Waits task.what.now progress.old.telling.course }
    requires whole { AreWhole lines.now }
    requires may { MaySkip task.what.now progress.old.telling.course }
    ensures waits { OnOk result (Waits task.entry.what.now progress.new.telling.course) }
    ensures within { IfOk result (λ start. start ≤ length lines.now) }
    ensures passes { IfOk result (λ start. (f : LineMatcher) (out : List ℕ) →
        PassesLinesTo task.entry f progress.old progress.new lines.now (drop start lines.now) out out) }
{
    let start = last_lines(lines, held_of(task.what));
    if start == 0 {
        return Ok(0);
    }
    count_over(task.what, progress, &lines[..start])?;
    forget_waiting(&mut progress.telling.course);
    progress.telling.course.known = after_hidden(progress.telling.course.known);
    Ok(start)
}

/// Processes a line without a match. The line is given without its line feed.
fn report_without(
    alloc: Global,
    out: &mut Vec<u8>,
    task: Task<'_>,
    progress: &mut Progress,
    bytes: &[u8],
) -> Result<(), Fault>
    requires { Waits task.what.now progress.old.telling.course }
    ensures waits { OnOk result (Waits task.entry.what.now progress.new.telling.course) }
    ensures goes_on { OnOk result ((f : LineMatcher) → HasNoMatch f (ended bytes.now) → (lines : List SplitLine) →
        out.old.items ++ reported_bytes task.entry f progress.old (ended bytes.now ∷ lines)
        ≡ out.new.items ++ reported_bytes task.entry f progress.new lines) }
    ensures counts { OnOk result ((f : LineMatcher) → HasNoMatch f (ended bytes.now) → (lines : List SplitLine) →
        counts_lines task.entry f progress.new lines ≡ counts_lines task.entry f progress.old (ended bytes.now ∷ lines)) }
{
    let line = Line {
        number: progress.number,
        place: progress.place,
        bytes,
        is_ended: true,
    };
    match report_line(
        alloc,
        out,
        task.what,
        task.name,
        task.with_name,
        &mut progress.telling,
        line,
        false,
        &[],
    ) {
        Ok(()) => {}
        Err(e) => return Err(e),
    }
    match pass(progress, bytes.len()) {
        Ok(()) => Ok(()),
        Err(e) => Err(e),
    }
}

/// Processes lines without a match one by one: all of them, or only those before the first one from which on they can be skipped. Returns
/// the offset after them.
fn report_each(
    alloc: Global,
    out: &mut Vec<u8>,
    task: Task<'_>,
    progress: &mut Progress,
    lines: &[u8],
    all: bool,
) -> Result<usize, Fault>
    requires waits { Waits task.what.now progress.old.telling.course }
    requires whole { AreWhole lines.now }
    ensures waits { OnOk result (Waits task.entry.what.now progress.new.telling.course) }
    ensures within { IfOk result (λ done. done ≤ length lines.now) }
    ensures all { all ≡ true → IfOk result (λ done. length lines.now ≤ done) }
    ensures may { IfOk result (λ done. done < length lines.now → MaySkip task.entry.what.now progress.new.telling.course) }
    ensures passes { IfOk result (λ done. (f : LineMatcher) →
        PassesLinesTo task.entry f progress.old progress.new lines.now (drop done lines.now) out.old.items out.new.items) }
{
    let mut done = 0usize;
    while !stops(task.what, &progress.telling.course, all) {
        let Some(len) = feed_at(&lines[done..]) else {
            return Ok(done);
        };
        report_without(alloc, out, task, progress, &lines[done..done + len])?;
        done += len + 1;
    }
    Ok(done)
}

/// Processes lines without a match. They are empty or end with a line feed. Those that may be printed, depending on what follows, are
/// processed one by one, and all others at once.
pub(crate) fn skip_lines(
    alloc: Global,
    out: &mut Vec<u8>,
    task: Task<'_>,
    progress: &mut Progress,
    lines: &[u8],
) -> Result<(), Fault>
    requires waits { Waits task.what.now progress.old.telling.course }
    requires whole { AreWhole lines.now }
    ensures waits { OnOk result (Waits task.entry.what.now progress.new.telling.course) }
    ensures goes_on { OnOk result ((s : Sought) (by : SearchesBy task.entry s) →
        All (λ line. (found_by by).has_match line ≡ false) (split_lines lines.now) → (more : List ℕ) →
        out.old.items ++ reported_bytes task.entry (finds_by task.entry by) progress.old (split_lines (lines.now ++ more))
        ≡ out.new.items ++ reported_bytes task.entry (finds_by task.entry by) progress.new (split_lines more)) }
    ensures counts { OnOk result ((s : Sought) (by : SearchesBy task.entry s) →
        All (λ line. (found_by by).has_match line ≡ false) (split_lines lines.now) → (more : List ℕ) →
        counts_lines task.entry (finds_by task.entry by) progress.new (split_lines more)
        ≡ counts_lines task.entry (finds_by task.entry by) progress.old (split_lines (lines.now ++ more))) }
{
    let done = report_each(alloc, out, task, progress, lines, false)?;
    if done == lines.len() {
        return Ok(());
    }
    let start = skip_over(task, progress, &lines[done..])?;
    let _ = report_each(alloc, out, task, progress, &lines[done + start..], true)?;
    Ok(())
}
