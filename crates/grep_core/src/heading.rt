//! Headings: the name of an input once above its lines.
ghost use Rattle.std.specs.Prelude.{◌≡◌, ◌≤◌, ◌++◌, ◌==◌, ℕ, false, IfErr, IfOk, IfSome, OnOk, if◌then◌else◌, length, take};
ghost use Rattle.std.specs.Io.KnownBytes.{Appends, Keeps};
ghost use Rattle.grep_core.specs.Headings.{heading, report_under, with_heading};
ghost use Rattle.grep_core.specs.Report.{counted_as, report, selected_count};
ghost use Rattle.line_search.specs.Searchers.{SearchesFor, found_by};
ghost use Rattle.grep_core.specs.Reporting.{needs_spans};

use crate::output_options::OutputOptions;
use crate::reading::report_input;
use crate::reporter::push_name;
use crate::separator_state::SeparatorState;
use line_search::{Fault, Finder};
use std::alloc::{AllocError, Global};
use std::io;
use std::io::{ErrorKind, Read, Write};

/// A writer that writes a heading before the first byte. If no byte is written, neither is the heading.
#[derive(Drop)]
pub struct Headed<W> {
    /// Where the heading is written, and what follows it.
    pub writer: W,
    heading: Vec<u8>,
    /// How many bytes of the heading are written.
    done: usize,
    /// How many bytes may still be written after it.
    left: usize,
}

impl<W> Headed<W> {
    /// A writer without a heading yet.
    pub fn new(alloc: Global, writer: W) -> Headed<W>
        ensures { result.writer ≡ writer }
    {
        Headed {
            writer,
            heading: Vec::new(alloc),
            done: 0,
            left: usize::MAX,
        }
    }

    /// Begins an input with this heading.
    fn begin(&mut self, heading: Vec<u8>)
        ensures writer { self.new.writer ≡ self.old.writer }
        ensures heading { self.new.heading ≡ heading }
        ensures done { self.new.done ≡ 0 }
        ensures left { self.new.left ≡ 0xFFFF_FFFF_FFFF_FFFF }
    {
        self.heading = heading;
        self.done = 0;
        self.left = usize::MAX;
    }

    /// Whether the heading is whole if bytes follow it, and none of it is written otherwise.
    fn is_whole(&self) -> bool
        ensures { result ≡ (if self.now.left == 0xFFFF_FFFF_FFFF_FFFF then self.now.done == 0
            else self.now.done == length self.now.heading.items) }
    {
        if self.left == usize::MAX {
            self.done == 0
        } else {
            self.done == self.heading.len()
        }
    }
}

fn written_none() -> io::Error {
    io::Error::from(ErrorKind::WriteZero)
}

impl<W: Write> Headed<W> {
    /// Writes the rest of the heading.
    fn write_heading(&mut self) -> io::Result<()>
        ensures left { self.new.left ≡ self.old.left }
        ensures heading { self.new.heading ≡ self.old.heading }
        ensures all { OnOk result (length self.old.heading.items ≤ self.new.done) }
        ensures known { Keeps (with_heading (W.contents self.old.writer) self.old.heading.items self.old.done)
            (with_heading (W.contents self.new.writer) self.new.heading.items self.new.done) }
    {
        while self.done < self.heading.len() {
            match self.writer.write(&self.heading[self.done..]) {
                Ok(0) => return Err(written_none()),
                Ok(n) => self.done += n,
                Err(e) => return Err(e),
            }
        }
        Ok(())
    }
}

impl<W: Write> Write for Headed<W> {
    ghost use Rattle.std.specs.Prelude.{option_map};
    ghost use Rattle.grep_core.specs.Headings.{tagged, with_heading};

    ghost contents = { λ h. option_map (tagged h.left h.heading.items) (with_heading (W.contents h.writer) h.heading.items h.done) };

    fn write(&mut self, buf: &[u8]) -> io::Result<usize> {
        if buf.is_empty() {
            return Ok(0);
        }
        if buf.len() > self.left {
            return Err(written_none());
        }
        match self.write_heading() {
            Ok(()) => {}
            Err(e) => return Err(e),
        }
        match self.writer.write(buf) {
            Ok(n) => {
                self.left -= n;
                Ok(n)
            }
            Err(e) => Err(e),
        }
    }

    fn flush(&mut self) -> io::Result<()> {
        self.writer.flush()
    }
}

/// The heading of an input: its name as a line, if it is to be printed. If something was printed for earlier inputs, an empty line
/// precedes it.
pub fn heading_of(
    alloc: Global,
    what: &OutputOptions<'_>,
    name: &[u8],
    with_name: bool,
    printed: bool,
) -> Result<Vec<u8>, AllocError>
    ensures { IfOk result (λ v. v.items ≡ heading what.now name.now with_name printed) }
{
    let mut text = Vec::new(alloc);
    if printed {
        text.push(b'\n')?;
    }
    if with_name {
        push_name(&mut text, what, name)?;
    }
    Ok(text)
}

/// Reads an input line by line, as [`report_input`] does, and writes what is printed for it under a heading.
///
/// The heading is the input's name as a line, if `with_name` asks for it. With `printed`, which says that something was printed for earlier
/// inputs, an empty line precedes it. If nothing is printed for the input, there is no heading. Lines have no name before them. On an
/// error, a prefix of the heading and what follows it was written.
pub fn report_headed<R: Read, W: Write>(
    alloc: Global,
    finder: &mut Finder<'_>,
    what: &OutputOptions<'_>,
    name: &[u8],
    with_name: bool,
    printed: bool,
    reader: &mut R,
    writer: &mut Headed<W>,
) -> Result<u64, Fault>
    ensures same { finder.new ≡ finder.old }
    ensures reported { OnOk result ((by : SearchesFor finder.old (needs_spans what.now)) → IfSome (R.remaining reader.old) (λ text.
        Appends (W.contents writer.old.writer) (W.contents writer.new.writer)
        (report_under what.now (found_by by) name.now with_name printed text))) }
    ensures selected { IfOk result (λ n. (by : SearchesFor finder.old (needs_spans what.now)) → IfSome (R.remaining reader.old) (λ text.
        n ≡ counted_as what.now.print (selected_count what.now (found_by by) text))) }
    ensures fault { IfErr result (λ _. (by : SearchesFor finder.old (needs_spans what.now)) → IfSome (R.remaining reader.old) (λ text.
        (n : ℕ) × Appends (W.contents writer.old.writer) (W.contents writer.new.writer)
        (take n (heading what.now name.now with_name printed
        ++ report what.now (found_by by) name.now false SeparatorState.NonePrinted text)))) }
{
    let heading = match heading_of(alloc, what, name, with_name, printed) {
        Ok(heading) => heading,
        Err(_) => return Err(Fault::NoMemory),
    };
    writer.begin(heading);
    let lines = match report_input(
        alloc,
        finder,
        what,
        name,
        false,
        SeparatorState::NonePrinted,
        reader,
        writer,
    ) {
        Ok(lines) => lines,
        Err(e) => return Err(e),
    };
    if writer.is_whole() {
        return Ok(lines);
    }
    Err(Fault::Write(ErrorKind::WriteZero))
}
