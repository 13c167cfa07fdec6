//! The names of the files that would be searched.
ghost use Rattle.std.specs.Prelude.{◌≡◌, IfOk, OnOk};
ghost use Rattle.std.specs.Io.KnownBytes.{Appends};
ghost use Rattle.grep_cli.specs.Counting.{counted};
ghost use Rattle.hirgrep_main.specs.Outcomes.{Continues};
ghost use Rattle.grep_cli.specs.PrintedNames.{printed_name};
ghost use Rattle.hirgrep_main.specs.Texts.{listed_name};

use crate::results::messages::Causes;
use crate::results::outcome::Outcome;
use crate::task::Task;
use grep_cli::{Output, without_controls};
use grep_core::Print;
use line_search::Fault;
use std::alloc::Global;
use std::io::Write;
use std::rt::Runtime;

/// Writes the name of a file and what ends it, unless nothing is printed.
fn write_name<W: Write>(print: Print, name: &str, end: char, writer: &mut W) -> Result<u64, Fault>
    ensures one { IfOk result (λ n. n ≡ 1) }
    ensures written { OnOk result (Appends (W.contents writer.old) (W.contents writer.new) (listed_name print name.now end)) }
{
    if print == Print::Nothing {
        return Ok(1);
    }
    match write!(writer, "{name}{end}") {
        Ok(()) => Ok(1),
        Err(e) => Err(Fault::Write(e.kind())),
    }
}

/// Writes the name of a file, whose control characters may be hidden, and what ends it.
fn write_shown<W: Write>(
    alloc: Global,
    task: Task<'_>,
    name: &str,
    end: char,
    writer: &mut W,
) -> Result<u64, Fault>
    ensures one { IfOk result (λ n. n ≡ 1) }
    ensures written { OnOk result (Appends (W.contents writer.old) (W.contents writer.new)
        (listed_name task.entry.asked.now.what.print (printed_name task.entry.hides_controls name.now) end)) }
{
    let print = task.asked.what.print;
    if !task.hides_controls {
        return write_name(print, name, end, writer);
    }
    match without_controls(alloc, name) {
        Ok(shown) => write_name(print, shown.as_str(), end, writer),
        Err(_) => Err(Fault::NoMemory),
    }
}

/// Prints the name of a file, and records the outcome.
pub fn list_file(rt: &HostRuntime, task: Task<'_>, outcome: &mut Outcome, name: &str)
    ensures counted { outcome.new.files ≡ counted outcome.old.files 1 }
    ensures continues { Continues outcome.old outcome.new }
{
    let mut writer = Output::new(rt.stdout());
    let end = if task.asked.what.zero_names {
        '\0'
    } else {
        '\n'
    };
    let written = write_shown(rt.alloc(), task, name, end, &mut writer);
    outcome.keep_search(
        rt,
        task.asked,
        name,
        0,
        writer.wrote(),
        written,
        Causes {
            read: None,
            write: writer.code(),
        },
    );
}
