//! The outcome of a search.
ghost use Rattle.std.specs.Prelude.{◌≡◌, nat_lt};
ghost use Rattle.hirgrep_main.specs.Decisions.{prints_nothing, status};
ghost use Rattle.hirgrep_main.specs.Outcomes.{Continues, after_result, after_search, is_of_output, known_of, no_outcome};
ghost use Rattle.hirgrep_main.specs.Outcomes.{with_failure, with_file, with_lines};

use crate::options::asked::Asked;
use crate::results::messages::{Causes, report_fault};
use crate::results::totals::{no_stats, no_time};
use grep_cli::{report_error, report_output, report_reason};
use grep_core::{Print, SeparatorState};
use json_events::{Stats, push_summary};
use line_search::{Fault, Finder};
use std::alloc::AllocError;
use std::io;
use std::io::{ErrorKind, Write};
use std::rt::Runtime;

/// The outcome of the files so far.
#[derive(Clone, Copy)]
pub struct Outcome {
    /// A line was selected.
    pub selected: bool,
    /// Something was printed.
    pub printed: bool,
    /// Something failed.
    pub failed: bool,
    /// Nothing more is searched: the output can't be written, or the answer is known.
    pub ended: bool,
    /// How many files were read, including standard input.
    pub files: u64,
    /// How many bytes were read from them.
    pub bytes: u64,
    /// How many lines were selected. If all that is asked of a file is whether it has one, at most one is counted for it.
    pub lines: u64,
    /// What was searched and printed as JSON.
    pub totals: Stats,
}

/// Whether the fault is that output can't be written.
fn is_of_output(fault: Fault) -> bool
    ensures { result ≡ is_of_output fault }
{
    match fault {
        Fault::Write(_) => true,
        _ => false,
    }
}

/// Whether nothing is printed, so that the first selected line decides.
fn prints_nothing(print: Print) -> bool
    ensures { result ≡ prints_nothing print }
{
    match print {
        Print::Nothing => true,
        _ => false,
    }
}

/// Whether the fault is reported on standard error. A broken pipe isn't, and with `-s` a file that can't be read isn't.
fn is_reported(asked: &Asked, fault: Fault) -> bool {
    match fault {
        Fault::Write(cause) => cause != ErrorKind::BrokenPipe,
        Fault::Read(_) => !asked.silent,
        _ => true,
    }
}

impl Outcome {
    /// The outcome before the first file.
    pub fn new() -> Outcome
        ensures { result ≡ no_outcome }
    {
        Outcome {
            selected: false,
            printed: false,
            failed: false,
            ended: false,
            files: 0,
            bytes: 0,
            lines: 0,
            totals: no_stats(),
        }
    }

    /// The outcome after a failure before the first file.
    pub fn failure() -> Outcome
        ensures { result ≡ with_failure no_outcome }
    {
        let mut outcome = Outcome::new();
        outcome.failed = true;
        outcome
    }

    /// Counts a file from which this many bytes were read.
    fn count(&mut self, bytes: u64)
        ensures { self.new ≡ with_file self.old bytes }
    {
        self.files = self.files.saturating_add(1);
        self.bytes = self.bytes.saturating_add(bytes);
    }

    /// Counts the selected lines of a file. Returns whether there are any.
    fn count_lines(&mut self, lines: u64) -> bool
        ensures any { result ≡ nat_lt 0 lines }
        ensures counted { self.new ≡ with_lines self.old lines }
    {
        let any = lines > 0;
        self.selected |= any;
        self.lines = self.lines.saturating_add(lines);
        any
    }

    /// Records what the search of a file returned: how many lines are selected, or why it failed. It reports no message.
    fn keep_result(&mut self, print: Print, reported: Result<u64, Fault>)
        ensures { self.new ≡ after_result print self.old reported }
    {
        match reported {
            Ok(lines) => {
                let any = self.count_lines(lines);
                self.ended |= any && prints_nothing(print);
            }
            Err(fault) => {
                self.failed = true;
                self.ended |= is_of_output(fault);
            }
        }
    }

    /// Records what the search of the file with this name returned, and reports a fault.
    fn keep(
        &mut self,
        rt: &HostRuntime,
        asked: &Asked,
        name: &str,
        reported: Result<u64, Fault>,
        causes: Causes,
    )
        ensures { self.new ≡ after_result asked.now.what.print self.old reported }
    {
        if let Err(fault) = reported {
            if is_reported(asked, fault) {
                report_fault(rt, name, fault, causes);
            }
        }
        self.keep_result(asked.what.print, reported);
    }

    /// Records the outcome of the file with this name: how many bytes were read, whether anything was printed, and what its search
    /// returned.
    pub fn keep_search(
        &mut self,
        rt: &HostRuntime,
        asked: &Asked,
        name: &str,
        bytes: u64,
        wrote: bool,
        reported: Result<u64, Fault>,
        causes: Causes,
    )
        ensures { self.new ≡ after_search asked.now.what.print self.old bytes wrote reported }
    {
        self.printed |= wrote;
        self.count(bytes);
        self.keep(rt, asked, name, reported, causes);
    }

    /// Records that something can't be read.
    pub fn fail(&mut self, rt: &HostRuntime, asked: &Asked, path: &str, error: io::Error)
        ensures { self.new ≡ with_failure self.old }
    {
        self.failed = true;
        if !asked.silent {
            report_error(rt, path, &error);
        }
    }

    /// Records that something isn't searched, for this reason.
    pub fn fail_with(&mut self, rt: &HostRuntime, asked: &Asked, path: &str, reason: &str)
        ensures { self.new ≡ with_failure self.old }
    {
        self.failed = true;
        if !asked.silent {
            report_reason(rt, path, reason);
        }
    }

    /// What is known of the lines of earlier files: some were printed if anything was selected or printed.
    pub fn known(&self) -> SeparatorState
        ensures { result ≡ known_of self.now }
    {
        if self.selected || self.printed {
            SeparatorState::EarlierPrinted
        } else {
            SeparatorState::NonePrinted
        }
    }

    /// The exit status. It is 2 after an error, except for a search that prints nothing and found a selected line.
    pub fn status(&self, asked: &Asked) -> u8
        ensures { result ≡ status asked.now.what.print self.now.selected self.now.failed }
    {
        if prints_nothing(asked.what.print) && self.selected {
            return 0;
        }
        if self.failed {
            return 2;
        }
        if self.selected { 0 } else { 1 }
    }

    /// Prints the sum of what was searched, as JSON, unless the output can't be written.
    pub fn write_summary(&mut self, rt: &HostRuntime) -> Result<(), AllocError>
        ensures { Continues self.old self.new }
    {
        if self.ended {
            return Ok(());
        }
        let mut text = Vec::new(rt.alloc());
        push_summary(rt.alloc(), &mut text, self.totals, no_time())?;
        if let Err(error) = rt.stdout().write_all(&text) {
            report_output(rt, &error);
            self.failed = true;
        }
        Ok(())
    }

    /// Prints the statistics of the searches to standard error.
    pub fn report_stats(&self, rt: &HostRuntime, finder: &Finder<'_>) {
        report_counts(rt, self.files, self.bytes, self.lines);
        report_caches(rt, finder.clear_count(), finder.memory_usage());
        let lines = finder.slow_lines();
        let _ = eprintln!(rt; "hirgrep: lines in which automata gave up: {lines}");
    }
}

/// Prints how many files and bytes were read, and how many lines were selected.
fn report_counts(rt: &HostRuntime, files: u64, bytes: u64, selected: u64) {
    let _ = eprintln!(rt; "hirgrep: files read: {files}\nhirgrep: bytes read: {bytes}");
    let _ = eprintln!(rt; "hirgrep: lines selected: {selected}");
}

/// Prints how often caches were cleared, and how many bytes they have.
fn report_caches(rt: &HostRuntime, clears: usize, kept: usize) {
    let _ = eprintln!(rt; "hirgrep: caches cleared: {clears}\nhirgrep: bytes in caches: {kept}");
}
