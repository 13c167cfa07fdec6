//! Opens files, and searches what they have.
ghost use Rattle.std.specs.Prelude.{◌≡◌, ℕ, Bool, true, false, Result, Ok, IfErr, IfOk, IfSome, if◌then◌else◌};
ghost use Rattle.line_search.specs.Searchers.{SearchesFor};
ghost use Rattle.hirgrep_main.specs.Readings.{lists_matches};
ghost use Rattle.line_search.specs.declared.fault.Fault.{Fault as TheFault};
ghost use Rattle.json_events.specs.declared.stats.Stats.{Stats as TheStats};
ghost use Rattle.grep_cli.specs.Counting.{counted};
ghost use Rattle.hirgrep_main.specs.Decisions.{may_run_on};
ghost use Rattle.hirgrep_main.specs.Walking.{Tries};
ghost use Rattle.hirgrep_main.specs.Outcomes.{Continues, after_search, with_failure, with_totals};
ghost use Rattle.hirgrep_main.specs.Tasks.{count_of, patterns_by};
ghost use Rattle.grep_cli.specs.PrintedNames.{printed_name};

use crate::files::listing::list_file;
use crate::inputs::binary::prints_lines;
use crate::inputs::columns::width_at;
use crate::inputs::input_report::report_one;
use crate::line_input::{LineInput, begins_with_zero};
use crate::options::asked::Asked;
use crate::options::decisions::may_run_on;
use crate::options::texts::separated_name;
use crate::results::messages::Causes;
use crate::results::outcome::Outcome;
use crate::task::Task;
use grep_cli::{
    Binary, Counting, Kind, Output, PrintedName, input, is_by_lines, is_output, kind_of, shown_name,
};
use grep_core::{Headed, OutputOptions};
use line_search::Finder;
use std::alloc::{AllocError, Global};
use std::io::{Read, Stdin, Write};
use std::rt::Runtime;
use std::{fs, io};

/// Whether the output would become part of the input. This is reported and recorded as a failure.
fn is_refused_output(
    rt: &HostRuntime,
    task: Task<'_>,
    outcome: &mut Outcome,
    name: &str,
    path: &str,
) -> bool
    ensures came { outcome.new ≡ (if result then with_failure outcome.old else outcome.old) }
    ensures continues { Continues outcome.old outcome.new }
{
    let is_refused = may_run_on(task.asked) && is_output(rt, task.output, path);
    if is_refused {
        outcome.fail_with(rt, task.asked, name, "input file is also the output");
    }
    is_refused
}

/// Searches what was opened under this name, with numbers at least this wide, and records the outcome. Or records that it can't be opened, or
/// that memory ran out.
fn search_reader<R: Read + Drop>(
    rt: &HostRuntime,
    finder: &mut Finder<'_>,
    task: Task<'_>,
    outcome: &mut Outcome,
    name: &str,
    width: Result<usize, AllocError>,
    opened: io::Result<R>,
)
    ensures same { finder.new ≡ finder.old }
    ensures unknown { IfErr width (λ _. outcome.new ≡ with_failure outcome.old) }
    ensures unread { IfErr opened (λ _. outcome.new ≡ with_failure outcome.old) }
    ensures came { IfOk width (λ w. IfOk opened (λ reader.
        (reported : Result ℕ TheFault) × (bytes : ℕ) × (wrote : Bool) × (totals : TheStats)
        × (outcome.new ≡ after_search task.entry.asked.now.what.print (with_totals outcome.old totals) bytes wrote reported)
        × IfOk reported (λ n. (by : SearchesFor finder.old (lists_matches task.entry.asked.now)) → IfSome (R.remaining reader)
        (λ text. n ≡ count_of (record task.entry { width = w }) (patterns_by by) (printed_name task.entry.hides_controls name.now) text)))) }
    ensures counted { IfOk width (λ _. IfOk opened (λ _. outcome.new.files ≡ counted outcome.old.files 1)) }
    ensures tried { Tries outcome.old outcome.new }
    ensures continues { Continues outcome.old outcome.new }
{
    let Ok(width) = width else {
        outcome.fail_with(rt, task.asked, name, "out of memory");
        return;
    };
    let reader = match opened {
        Ok(reader) => reader,
        Err(e) => return outcome.fail(rt, task.asked, name, e),
    };
    let task = Task { width, ..task };
    let mut input = Counting::new(reader);
    let mut writer = Headed::new(rt.alloc(), Output::new(rt.stdout()));
    let mut totals = outcome.totals;
    let reported = report_one(
        rt,
        finder,
        task,
        *outcome,
        name,
        &mut input,
        &mut writer,
        &mut totals,
    );
    outcome.totals = totals;
    let causes = Causes {
        read: input.code(),
        write: writer.writer.code(),
    };
    let wrote = writer.writer.wrote();
    outcome.keep_search(rt, task.asked, name, input.count(), wrote, reported, causes);
}

/// How many lines are read after the last selected one: those that are printed as its context.
fn after_of(what: &OutputOptions<'_>) -> u64 {
    match what.context {
        Some(context) if prints_lines(what.print) => context.after,
        _ => 0,
    }
}

/// What is asked for if the input has no zero byte among its first bytes.
fn as_text<'a>(asked: Asked<'a>) -> Asked<'a> {
    Asked {
        binary: Binary::AsText,
        ..asked
    }
}

/// Whether standard input is left after the last selected line: it is a file, and there is a greatest number of lines. One with a zero byte
/// among its first bytes isn't, if it counts as binary.
fn is_left_after_line(rt: &HostRuntime, task: Task<'_>, stdin: Stdin) -> bool {
    if task.asked.what.most.is_none() || !is_by_lines(task.asked.reading) {
        return false;
    }
    let Ok(Kind::File) = kind_of(rt, "/dev/stdin", true) else {
        return false;
    };
    if task.asked.binary == Binary::AsText {
        return true;
    }
    match begins_with_zero(rt, stdin) {
        Ok(zero) => !zero,
        Err(_) => false,
    }
}

/// Searches standard input.
pub fn search_input(
    rt: &HostRuntime,
    finder: &mut Finder<'_>,
    task: Task<'_>,
    outcome: &mut Outcome,
)
    ensures listed { task.entry.selection.now.lists ≡ true → outcome.new ≡ outcome.old }
    ensures tried { task.entry.selection.now.lists ≡ false → Tries outcome.old outcome.new }
    ensures continues { Continues outcome.old outcome.new }
{
    if task.selection.lists {
        return;
    }
    let name = task.input_name;
    let stdin = input(rt, task.asked.reports_input);
    if is_refused_output(rt, task, outcome, name, "/dev/stdin") {
        return;
    }
    let width = width_at(rt, &task.asked.what, "/dev/stdin");
    let by_lines = is_left_after_line(rt, task, stdin);
    let after = after_of(&task.asked.what);
    let mut reader = LineInput::new(rt, stdin, by_lines, after > 0);
    let asked = if by_lines {
        as_text(*task.asked)
    } else {
        *task.asked
    };
    let task = Task {
        asked: &asked,
        ..task
    };
    search_reader(rt, finder, task, outcome, name, width, Ok(&mut reader));
    reader.leave(after);
}

/// The name that is printed for the file at a path, with another separator if one is asked for.
fn file_name<'a>(
    alloc: Global,
    task: Task<'_>,
    path: &'a str,
) -> Result<PrintedName<'a>, AllocError> {
    let name = shown_name(task.bare, path);
    let Some(separator) = task.asked.path_separator else {
        return Ok(PrintedName::Given(name));
    };
    let made = separated_name(alloc, separator, name)?;
    Ok(PrintedName::Made(made))
}

/// Searches a file, or prints its name.
pub fn search_file(
    rt: &HostRuntime,
    finder: &mut Finder<'_>,
    task: Task<'_>,
    outcome: &mut Outcome,
    path: &str,
)
    ensures tried { Tries outcome.old outcome.new }
    ensures continues { Continues outcome.old outcome.new }
{
    let Ok(name) = file_name(rt.alloc(), task, path) else {
        outcome.fail_with(rt, task.asked, path, "out of memory");
        return;
    };
    let name = name.as_str();
    if task.selection.lists {
        list_file(rt, task, outcome, name);
        return;
    }
    if is_refused_output(rt, task, outcome, name, path) {
        return;
    }
    let width = width_at(rt, &task.asked.what, path);
    search_reader(rt, finder, task, outcome, name, width, fs::open(rt, path));
}
