//! What is searched, and how far its lines are processed.
ghost use Rattle.std.specs.Prelude.{◌≡◌, ℕ, ◌+◌, List, IfOk, OnOk};
ghost use Rattle.grep_core.specs.Blocks.{PassesLine, reported_bytes, counts_lines};
ghost use Rattle.grep_core.specs.ContextPrinting.{Waits};
ghost use Rattle.line_search.specs.Lines.{text_lines, split_lines};
ghost use Rattle.line_search.specs.LineMatchers.{LineMatcher};
ghost use Rattle.grep_core.specs.Report.{first_of, report_as, selected};
ghost use Rattle.grep_core.specs.Selecting.{count_selected};
ghost use Rattle.grep_core.specs.declared.progress.Task.{Task as TheTask};
ghost use Rattle.grep_core.specs.declared.output_options.OutputOptions.{OutputOptions as TheOutputOptions};

use crate::output_options::OutputOptions;
use crate::reporter::Reporter;
use crate::separator_state::SeparatorState;
use line_search::Fault;
use std::alloc::Global;

/// A task: an input with this name is searched, and `what` says what to print.
#[derive(Clone, Copy)]
pub struct Task<'a> {
    pub what: &'a OutputOptions<'a>,
    pub name: &'a [u8],
    /// Whether the name is printed before lines.
    pub with_name: bool,
}

/// The number and offset of the next line, if lines are printed, and the state of the output after the lines before it.
#[derive(Drop)]
pub struct Progress {
    pub number: u64,
    pub place: u64,
    pub telling: Reporter,
}

impl Progress {
    /// The state before the first line, where `known` describes the lines of earlier inputs, and so many lines are printed as context
    /// before the first selected one.
    pub(crate) fn new(alloc: Global, first: u64, known: SeparatorState) -> Progress
        ensures starts { (t : TheTask) → first ≡ first_of t.what.now.context → (f : LineMatcher) → (text : List ℕ) →
            reported_bytes t f result (split_lines text) ≡
            report_as t.what.now.print t.what.now f t.name.now t.with_name known (text_lines text)
            (selected t.what.now f (text_lines text)) }
        ensures counts { (t : TheTask) → (f : LineMatcher) → (text : List ℕ) →
            counts_lines t f result (split_lines text) ≡ count_selected (selected t.what.now f (text_lines text)) }
        ensures waits { (w : TheOutputOptions) → Waits w result.telling.course }
    {
        Progress {
            number: 1,
            place: 0,
            telling: Reporter::new(alloc, first, known),
        }
    }
}

pub(crate) fn sum(a: u64, b: u64) -> Result<u64, Fault>
    ensures { IfOk result (λ n. n ≡ a + b) }
{
    match a.checked_add(b) {
        Some(sum) => Ok(sum),
        None => Err(Fault::TooLong),
    }
}

/// Advances past a line of this many bytes.
pub(crate) fn pass(progress: &mut Progress, len: usize) -> Result<(), Fault>
    ensures { OnOk result (PassesLine progress.old progress.new len) }
{
    progress.number = sum(progress.number, 1)?;
    progress.place = sum(sum(progress.place, len as u64)?, 1)?;
    Ok(())
}
