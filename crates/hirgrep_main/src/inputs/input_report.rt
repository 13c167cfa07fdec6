//! The report of one input.
ghost use Rattle.std.specs.Prelude.{◌≡◌, IfSome};
ghost use Rattle.hirgrep_main.specs.Readings.{lists_matches};
ghost use Rattle.line_search.specs.Searchers.{SearchesFor};
ghost use Rattle.grep_cli.specs.PrintedNames.{printed_name};
ghost use Rattle.hirgrep_main.specs.Tasks.{IsInputReported, count_of, patterns_by, report_in, whole_report_in};

use crate::inputs::binary::is_noticed;
use crate::inputs::reporting::{is_plain, options_for, report_otherwise};
use crate::results::outcome::Outcome;
use crate::task::Task;
use grep_cli::{Searched, has_zero, printed_name, read_ahead, report_reason};
use grep_core::{Headed, report_input};
use json_events::Stats;
use line_search::{Fault, Finder};
use std::io::{Read, Write};
use std::rt::Runtime;

/// Returns what a search returned. Reports that a binary input has a selected line, if that is printed instead of its lines.
fn noticed(
    rt: &HostRuntime,
    task: Task<'_>,
    name: &str,
    zero: bool,
    reported: Result<u64, Fault>,
) -> Result<u64, Fault>
    ensures { result ≡ reported }
{
    if is_noticed(task.asked.binary, task.asked.what.print, zero, reported) {
        report_reason(rt, name, "binary file matches");
    }
    reported
}

/// Searches the input of a reader, and writes the output for it under this name, whose control characters may be hidden: the report that was
/// asked for. If inputs with a zero byte aren't text, the first bytes decide what is printed. `outcome` is that of earlier inputs. What was
/// searched is added to `totals`, if it is printed as JSON.
pub fn report_one<R: Read, W: Write>(
    rt: &HostRuntime,
    finder: &mut Finder<'_>,
    task: Task<'_>,
    outcome: Outcome,
    name: &str,
    reader: &mut R,
    writer: &mut Headed<W>,
    totals: &mut Stats,
) -> Result<u64, Fault>
    ensures same { finder.new ≡ finder.old }
    ensures reported { (by : SearchesFor finder.old (lists_matches task.entry.asked.now)) → IfSome (R.remaining reader.old) (λ text.
        IsInputReported (W.contents writer.old.writer) (W.contents writer.new.writer) result
        (report_in task.entry outcome (patterns_by by) (printed_name task.entry.hides_controls name.now) text)
        (whole_report_in task.entry outcome (patterns_by by) (printed_name task.entry.hides_controls name.now) text)
        (count_of task.entry (patterns_by by) (printed_name task.entry.hides_controls name.now) text)) }
{
    let alloc = rt.alloc();
    let Ok(printed) = printed_name(alloc, task.hides_controls, name) else {
        return Err(Fault::NoMemory);
    };
    let ahead = match read_ahead(alloc, task.asked.binary, reader) {
        Ok(ahead) => ahead,
        Err(e) => return Err(Fault::Read(e.kind())),
    };
    let first = ahead.as_slice();
    let zero = has_zero(first);
    let mut input = Searched::new(first.chain(reader), task.asked.binary, zero);
    let what = options_for(task, zero);
    let name = printed.as_str();
    let bytes = name.as_bytes();
    if !is_plain(task.asked, what.print) {
        let reported = report_otherwise(
            alloc, finder, task, &what, outcome, bytes, &mut input, writer, totals,
        );
        return noticed(rt, task, name, zero, reported);
    }
    let known = outcome.known();
    let out = &mut writer.writer;
    let reported = report_input(
        alloc,
        finder,
        &what,
        bytes,
        task.with_name,
        known,
        &mut input,
        out,
    );
    noticed(rt, task, name, zero, reported)
}
