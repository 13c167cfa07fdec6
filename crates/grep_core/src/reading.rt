//! Reads an input in blocks, and processes its lines one after the other.
ghost use Rattle.std.specs.Prelude.{◌≡◌, ◌==◌, None, ◌++◌, ◌<◌, ◌≤◌, ℕ, [], List, Some, Ok, OnOk, IfOk, IfErr, IfSome, IsTrue, take};
ghost use Rattle.std.specs.Prelude.{true, false, length};
ghost use Rattle.std.specs.Io.KnownBytes.{Appends, IsAtEnd, Keeps};
ghost use Rattle.std.specs.List.{position};
ghost use Rattle.grep_core.specs.Blocks.{KeepsOn, SearchesBy, finds_by, reported_bytes, counts_lines, ReadsAndWrites, WritesFirstLines, WritesLast, WritesPart, IsOver};
ghost use Rattle.grep_core.specs.ContextPrinting.{Waits};
ghost use Rattle.line_search.specs.Lines.{split_lines};
ghost use Rattle.line_search.specs.LineMatchers.{LineMatcher};
ghost use Rattle.grep_core.specs.Report.{counted_as, report, selected_count};
ghost use Rattle.line_search.specs.Searchers.{SearchesFor, found_by};
ghost use Rattle.grep_core.specs.Reporting.{needs_spans};
ghost use Rattle.grep_core.specs.declared.progress.Task.{Task as TheTask};

use crate::blocks::report_block;
use crate::context_printer::first_of;
use crate::line_buffer::LineBuffer;
use crate::long_lines::{prints_each, prints_matches, write_line, write_listed};
use crate::output_options::{OutputOptions, Print};
use crate::progress::{Progress, Task};
use crate::reporter::{Reporter, counted_as, is_over, report_end};
use crate::separator_state::SeparatorState;
use line_search::{Fault, Finder, feed_at, line_start};
use std::alloc::Global;
use std::io::{ErrorKind, Read, Write};

/// The greatest number of bytes that a line may have.
const LONGEST: usize = 1 << 30;

/// From this many bytes on, the matches of a line are printed one after the other. Those of shorter lines are listed first.
const LONG: usize = 1 << 20;

/// If lines are printed once for each of their matches, lines of this many bytes or more are printed while their matches are searched for.
/// The output for shorter lines is written after at most so many bytes of them.
const PIECE: usize = 4096;

/// Reads an input line by line, and writes what is printed for it. Returns the number of selected lines. If names of inputs are asked for,
/// or nothing, the number is at most 1. Then reading stops as soon as it is known whether a line is selected.
///
/// It reads blocks of at most 64 KiB, and writes the output for the lines that end in a block before it reads the next one. It stops
/// reading if nothing more will be printed, whatever follows. Each line is held in memory as a whole. A line longer than 1 GiB is rejected,
/// and one that is up to a block shorter may be. On an error, a prefix of the output was written.
///
/// `known` says whether lines of earlier inputs were printed. It decides whether a separator line precedes the first group of lines of this
/// input.
///
/// Matches of lines are searched for if they are printed alone or marked. Precondition for that: the body of every unbounded repetition in
/// the patterns consumes at least one byte.
pub fn report_input<R: Read, W: Write>(
    alloc: Global,
    finder: &mut Finder<'_>,
    what: &OutputOptions<'_>,
    name: &[u8],
    with_name: bool,
    known: SeparatorState,
    reader: &mut R,
    writer: &mut W,
) -> Result<u64, Fault>
    ensures same { finder.new ≡ finder.old }
    ensures reported { OnOk result ((by : SearchesFor finder.old (needs_spans what.now)) → IfSome (R.remaining reader.old) (λ text.
        Appends (W.contents writer.old) (W.contents writer.new) (report what.now (found_by by) name.now with_name known text))) }
    ensures selected { IfOk result (λ n. (by : SearchesFor finder.old (needs_spans what.now)) → IfSome (R.remaining reader.old) (λ text.
        n ≡ counted_as what.now.print (selected_count what.now (found_by by) text))) }
    ensures fault { IfErr result (λ _. (by : SearchesFor finder.old (needs_spans what.now)) → IfSome (R.remaining reader.old) (λ text.
        (n : ℕ) × Appends (W.contents writer.old) (W.contents writer.new)
        (take n (report what.now (found_by by) name.now with_name known text)))) }
{
    let task = Task {
        what,
        name,
        with_name,
    };
    let mut progress = Progress::new(alloc, first_of(what), known);
    let (room, reads) = finder.take_room(alloc);
    let mut read = LineBuffer::over(room, reads);
    let ended = match report_blocks(
        alloc,
        reader,
        writer,
        finder,
        task,
        &mut read,
        &mut progress,
    ) {
        Ok(ended) => ended,
        Err(e) => return Err(e),
    };
    match finish(
        alloc,
        writer,
        finder,
        task,
        ended,
        read.bytes(),
        &mut progress,
    ) {
        Ok(()) => {
            give_back(alloc, finder, read);
            Ok(count_of(what.print, &progress))
        }
        Err(e) => Err(e),
    }
}

/// Reads blocks until the input ends, or nothing more is printed for it, and writes the output for the lines that end in each, for long ones
/// while their matches are searched for. Returns whether the input ended. The bytes after its last line feed are left.
fn report_blocks<R: Read, W: Write>(
    alloc: Global,
    reader: &mut R,
    writer: &mut W,
    finder: &mut Finder<'_>,
    task: Task<'_>,
    read: &mut LineBuffer,
    progress: &mut Progress,
) -> Result<bool, Fault>
    requires waits { Waits task.what.now progress.old.telling.course }
    requires open { position (λ b. b == 10) read.old ≡ None }
    ensures keeps { KeepsOn task.entry finder.old finder.new progress.new result }
    ensures open { IfOk result (λ _. position (λ b. b == 10) read.new ≡ None) }
    ensures reads { OnOk result ((by : SearchesBy task.entry finder.old) (text : List ℕ) → R.remaining reader.old ≡ Some text →
        ReadsAndWrites task.entry (finds_by task.entry by) progress.old progress.new read.old read.new text (R.remaining reader.new)
        (W.contents writer.old) (W.contents writer.new)) }
    ensures end { IfOk result (λ ended. ended ≡ true → IsAtEnd (R.remaining reader.new)) }
    ensures over { IfOk result (λ ended. ended ≡ false → IsOver task.entry progress.new) }
    ensures fault { IfErr result (λ _. (by : SearchesBy task.entry finder.old) (text : List ℕ) → R.remaining reader.old ≡ Some text →
        WritesPart task.entry (finds_by task.entry by) progress.old (read.old ++ text) (W.contents writer.old)
        (W.contents writer.new)) }
{
    for _blocks in 0..u64::MAX {
        let before = read.bytes().len();
        let taken = match read.read_some(reader) {
            Ok(taken) => taken,
            Err(e) => return Err(e),
        };
        if taken == 0 {
            return Ok(true);
        }
        let bytes = read.bytes();
        if bytes.len() > LONGEST {
            return Err(Fault::TooLong);
        }
        match feed_at(&bytes[before..]) {
            Some(_) => {}
            None => continue,
        }
        let first = match write_beginning(alloc, writer, finder, task, bytes, progress) {
            Ok(first) => first,
            Err(e) => return Err(e),
        };
        let lines = &bytes[first..];
        let mut out = Vec::new(alloc);
        let done = match report_block(alloc, &mut out, finder, task, progress, lines) {
            Ok(done) => done,
            Err(e) => return Err(e),
        };
        match write_out(writer, &out) {
            Ok(()) => {}
            Err(e) => return Err(e),
        }
        read.forget(first + done);
        if is_task_over(task, progress) {
            return Ok(false);
        }
    }
    Err(Fault::TooLong)
}

/// Writes the output for lines of an input as long as these are printed once for each of their matches, and for a first line that is long.
/// Returns the offset after them. The others are left to other calls.
fn write_beginning<W: Write>(
    alloc: Global,
    writer: &mut W,
    finder: &mut Finder<'_>,
    task: Task<'_>,
    read: &[u8],
    progress: &mut Progress,
) -> Result<usize, Fault>
    requires { Waits task.what.now progress.old.telling.course }
    ensures { WritesFirstLines task.entry finder.old finder.new progress.old progress.new read.now (W.contents writer.old)
        (W.contents writer.new) result }
{
    let mut done = 0usize;
    for _pieces in 0..read.len() {
        let next = match write_first(alloc, writer, finder, task, &read[done..], progress) {
            Ok(next) => next,
            Err(e) => return Err(e),
        };
        if next == 0 {
            return Ok(done);
        }
        done += next;
    }
    Ok(done)
}

/// Writes the output for the first lines of an input, or for one long line, if its matches may be printed while they are searched for. Returns
/// the offset after them, or 0 if they are left to other calls.
fn write_first<W: Write>(
    alloc: Global,
    writer: &mut W,
    finder: &mut Finder<'_>,
    task: Task<'_>,
    read: &[u8],
    progress: &mut Progress,
) -> Result<usize, Fault>
    requires { Waits task.what.now progress.old.telling.course }
    ensures { WritesFirstLines task.entry finder.old finder.new progress.old progress.new read.now (W.contents writer.old)
        (W.contents writer.new) result }
{
    let piece = piece_len(task, read);
    if piece > 0 {
        return write_piece(alloc, writer, finder, task, read, progress, piece);
    }
    if !begins_long(task, read) {
        return Ok(0);
    }
    let Some(len) = feed_at(read) else {
        return Ok(0);
    };
    match write_line(alloc, writer, finder, task, progress, &read[..len], true) {
        Ok(()) => {}
        Err(e) => return Err(e),
    }
    Ok(len + 1)
}

/// The length of the whole lines among the first bytes of an input, if lines are printed once for each of their matches, and else 0.
fn piece_len(task: Task<'_>, read: &[u8]) -> usize
    ensures { result ≤ length read.now }
{
    if !prints_each(task.what) {
        return 0;
    }
    line_start(read, 0, PIECE)
}

/// Writes the output for the whole lines among the first bytes of an input. Returns how many bytes they have.
fn write_piece<W: Write>(
    alloc: Global,
    writer: &mut W,
    finder: &mut Finder<'_>,
    task: Task<'_>,
    read: &[u8],
    progress: &mut Progress,
    len: usize,
) -> Result<usize, Fault>
    requires waits { Waits task.what.now progress.old.telling.course }
    requires within { len ≤ length read.now }
    ensures { WritesFirstLines task.entry finder.old finder.new progress.old progress.new read.now (W.contents writer.old)
        (W.contents writer.new) result }
{
    let mut out = Vec::new(alloc);
    let done = match report_block(alloc, &mut out, finder, task, progress, &read[..len]) {
        Ok(done) => done,
        Err(e) => return Err(e),
    };
    match write_out(writer, &out) {
        Ok(()) => Ok(done),
        Err(e) => Err(e),
    }
}

/// Whether an input is so long that the matches of its first line are printed one after the other, if they are printed alone or the line is
/// printed for each.
fn begins_long(task: Task<'_>, read: &[u8]) -> bool
    ensures { IsTrue result → 0 < length read.now }
{
    if prints_each(task.what) {
        return read.len() >= PIECE;
    }
    read.len() >= LONG && prints_matches(task.what)
}

/// Whether nothing is printed for the next lines, whatever they are.
pub fn is_task_over(task: Task<'_>, progress: &Progress) -> bool
    ensures { IsTrue result → IsOver task.entry progress.now }
{
    is_over(task.what, &progress.telling)
}

/// Writes the rest of the output, and flushes the writer.
fn finish<W: Write>(
    alloc: Global,
    writer: &mut W,
    finder: &mut Finder<'_>,
    task: Task<'_>,
    ended: bool,
    read: &[u8],
    progress: &mut Progress,
) -> Result<(), Fault>
    requires waits { Waits task.what.now progress.old.telling.course }
    requires open { position (λ b. b == 10) read.now ≡ None }
    requires over { ended ≡ false → IsOver task progress.old }
    ensures same { finder.new ≡ finder.old }
    ensures written { OnOk result ((by : SearchesBy task.entry finder.old) (more : List ℕ) → (ended ≡ true → more ≡ []) →
        Appends (W.contents writer.old) (W.contents writer.new)
        (reported_bytes task.entry (finds_by task.entry by) progress.old (split_lines (read.now ++ more)))) }
    ensures counts { OnOk result ((by : SearchesBy task.entry finder.old) (more : List ℕ) → (ended ≡ true → more ≡ []) →
        counted_as task.entry.what.now.print (counts_lines task.entry (finds_by task.entry by) progress.new [])
        ≡ counted_as task.entry.what.now.print (counts_lines task.entry (finds_by task.entry by) progress.old
        (split_lines (read.now ++ more)))) }
    ensures fault { IfErr result (λ _. (by : SearchesBy task.entry finder.old) (more : List ℕ) → (ended ≡ true → more ≡ []) →
        WritesPart task.entry (finds_by task.entry by) progress.old (read.now ++ more) (W.contents writer.old) (W.contents writer.new)) }
{
    match write_open_line(alloc, writer, finder, task, ended, read, progress) {
        Ok(()) => {}
        Err(e) => return Err(e),
    }
    match write_end(alloc, writer, task, progress) {
        Ok(()) => {}
        Err(e) => return Err(e),
    }
    match flush(writer) {
        Ok(()) => Ok(()),
        Err(e) => Err(e),
    }
}

/// Writes the output for the last line of an input, if the input has ended and no line feed ends that line. A long line is written while its
/// matches are searched for.
fn write_open_line<W: Write>(
    alloc: Global,
    writer: &mut W,
    finder: &mut Finder<'_>,
    task: Task<'_>,
    ended: bool,
    read: &[u8],
    progress: &mut Progress,
) -> Result<(), Fault>
    requires waits { Waits task.what.now progress.old.telling.course }
    requires open { position (λ b. b == 10) read.now ≡ None }
    requires over { ended ≡ false → IsOver task progress.old }
    ensures keeps { KeepsOn task.entry finder.old finder.new progress.new result }
    ensures writes { OnOk result ((by : SearchesBy task.entry finder.old) (more : List ℕ) → (ended ≡ true → more ≡ []) →
        WritesLast task.entry (finds_by task.entry by) progress.old progress.new (read.now ++ more) (W.contents writer.old)
        (W.contents writer.new)) }
    ensures fault { IfErr result (λ _. (by : SearchesBy task.entry finder.old) (more : List ℕ) → (ended ≡ true → more ≡ []) →
        WritesPart task.entry (finds_by task.entry by) progress.old (read.now ++ more) (W.contents writer.old) (W.contents writer.new)) }
{
    if !ended {
        return Ok(());
    }
    if read.is_empty() {
        return Ok(());
    }
    if begins_long(task, read) {
        return write_line(alloc, writer, finder, task, progress, read, false);
    }
    write_listed(alloc, writer, finder, task, progress, read, false, false)
}

/// Writes what is printed after all lines.
pub fn write_end<W: Write>(
    alloc: Global,
    writer: &mut W,
    task: Task<'_>,
    progress: &Progress,
) -> Result<(), Fault>
    requires { Waits task.what.now progress.now.telling.course }
    ensures written { OnOk result ((f : LineMatcher) → Appends (W.contents writer.old) (W.contents writer.new)
        (reported_bytes task.entry f progress.now [])) }
    ensures fault { IfErr result (λ _. (f : LineMatcher) → (n : ℕ) × Appends (W.contents writer.old) (W.contents writer.new)
        (take n (reported_bytes task.entry f progress.now []))) }
{
    let mut out = Vec::new(alloc);
    match report_end(
        alloc,
        &mut out,
        task.what,
        task.name,
        task.with_name,
        &progress.telling,
    ) {
        Ok(()) => {}
        Err(_) => return Err(Fault::NoMemory),
    }
    write_out(writer, &out)
}

/// Writes all bytes. On an error, the bytes that were written are a prefix of them.
pub fn write_out<W: Write>(writer: &mut W, out: &[u8]) -> Result<(), Fault>
    ensures ok { OnOk result (Appends (W.contents writer.old) (W.contents writer.new) out.now) }
    ensures part { IfErr result (λ _. (n : ℕ) × Appends (W.contents writer.old) (W.contents writer.new) (take n out.now)) }
{
    let mut done = 0usize;
    while done < out.len() {
        match writer.write(&out[done..]) {
            Ok(0) => return Err(Fault::Write(ErrorKind::WriteZero)),
            Ok(n) => done += n,
            Err(e) => return Err(Fault::Write(e.kind())),
        }
    }
    Ok(())
}

/// Flushes the writer.
pub fn flush<W: Write>(writer: &mut W) -> Result<(), Fault>
    ensures { Keeps (W.contents writer.old) (W.contents writer.new) }
{
    match writer.flush() {
        Ok(()) => Ok(()),
        Err(e) => Err(Fault::Write(e.kind())),
    }
}

/// How many selected lines are counted after the last line.
pub fn count_of(print: Print, progress: &Progress) -> u64
    ensures { (t : TheTask) → (f : LineMatcher) → result ≡ counted_as print (counts_lines t f progress.now []) }
{
    counted_as(print, progress.telling.count)
}

/// Gives the room of a buffer back to the finder, for the next input.
fn give_back(alloc: Global, finder: &mut Finder<'_>, mut read: LineBuffer)
    ensures { finder.new ≡ finder.old }
{
    let reads = read.reads();
    finder.keep_room(read.take_room(alloc), reads);
}
