//! What is printed for one input, with the options that depend on it.
ghost use Rattle.std.specs.Prelude.{◌≡◌, false, IfSome};
ghost use Rattle.line_search.specs.Searchers.{SearchesFor};
ghost use Rattle.hirgrep_main.specs.Decisions.{is_headed, is_plain};
ghost use Rattle.hirgrep_main.specs.Readings.{lists_in};
ghost use Rattle.hirgrep_main.specs.Tasks.{IsInputReported, body_count, options_for, options_in, patterns_by, report_by, whole_report_by};

use crate::inputs::binary::{options_by, prints_lines};
use crate::inputs::whole_report::report_whole;
use crate::options::asked::Asked;
use crate::results::outcome::Outcome;
use crate::task::Task;
use grep_cli::is_by_lines;
use grep_core::{Headed, OutputOptions, Print, report_headed};
use json_events::Stats;
use line_search::{Fault, Finder};
use std::alloc::Global;
use std::io::{Read, Write};

/// Whether the name of a file is printed once above its lines. Counts and names have none above them.
pub fn is_headed(heading: bool, print: Print) -> bool
    ensures { result ≡ is_headed heading print }
{
    heading && prints_lines(print)
}

/// The output options for the input that is searched, whatever its bytes are.
fn options_in<'a>(task: Task<'a>) -> OutputOptions<'a>
    ensures { result ≡ options_in task.entry }
{
    OutputOptions {
        width: task.width,
        ..task.asked.what
    }
}

/// The output options for the input that is searched, given whether it is binary.
pub fn options_for<'a>(task: Task<'a>, zero: bool) -> OutputOptions<'a>
    ensures { result ≡ options_for task.entry zero }
{
    options_by(task.asked.binary, zero, options_in(task))
}

/// Whether the report of an input that is read line by line has no heading.
pub fn is_plain(asked: &Asked, print: Print) -> bool
    ensures { result ≡ is_plain asked.now.reading asked.now.heading print }
{
    is_by_lines(asked.reading) && !is_headed(asked.heading, print)
}

/// Searches the input of a reader that is read as a whole, or whose report has a heading, and writes its report with these options, under
/// this name. `outcome` is that of earlier inputs. What was searched is added to `totals`, if it is printed as JSON.
pub fn report_otherwise<R: Read, W: Write>(
    alloc: Global,
    finder: &mut Finder<'_>,
    task: Task<'_>,
    what: &OutputOptions<'_>,
    outcome: Outcome,
    name: &[u8],
    reader: &mut R,
    writer: &mut Headed<W>,
    totals: &mut Stats,
) -> Result<u64, Fault>
    ensures same { finder.new ≡ finder.old }
    ensures reported { is_plain task.entry.asked.now.reading task.entry.asked.now.heading what.now.print ≡ false
        → (by : SearchesFor finder.old (lists_in task.entry.asked.now.reading what.now)) → IfSome (R.remaining reader.old) (λ bytes.
        IsInputReported (W.contents writer.old.writer) (W.contents writer.new.writer) result
        (report_by task.entry.asked.now.reading (is_headed task.entry.asked.now.heading what.now.print) task.entry what.now outcome
        (patterns_by by) name.now bytes)
        (whole_report_by task.entry.asked.now.reading (is_headed task.entry.asked.now.heading what.now.print) task.entry what.now outcome
        (patterns_by by) name.now bytes)
        (body_count task.entry.asked.now.reading what.now (patterns_by by) name.now bytes)) }
{
    if !is_by_lines(task.asked.reading) {
        return report_whole(
            alloc, finder, task, what, outcome, name, reader, writer, totals,
        );
    }
    let with_name = task.with_name;
    let printed = outcome.printed;
    report_headed(
        alloc, finder, what, name, with_name, printed, reader, writer,
    )
}
