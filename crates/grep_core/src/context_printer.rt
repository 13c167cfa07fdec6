//! How far the printing of lines has come, and how it advances by one line.
ghost use Rattle.std.specs.Prelude.{◌≡◌, ◌++◌, ◌∷◌, [], ℕ, Bool, List, OnOk, map, option_map, true, false, IfOk, Option, drop, ◌<◌};
ghost use Rattle.grep_core.specs.ContextPrinting.{Item, Waits, still, item, queued, after_queue, print_item, waiting_item};
ghost use Rattle.line_search.specs.LineMatchers.{span_pair};
ghost use Rattle.grep_core.specs.Printing.{text_line};
ghost use Rattle.grep_core.specs.declared.output_options.OutputOptions.{OutputOptions as TheOutputOptions};
ghost use Rattle.grep_core.specs.Report.{parting, before_of, after_of, first_of, after_hidden, print_lines};
ghost use Rattle.grep_core.specs.Selecting.{roles};

use crate::items::push_item;
use crate::line::Line;
use crate::output_options::OutputOptions;
use crate::printing::push_group;
use crate::role::Role;
use crate::separator_state::SeparatorState;
use line_search::Fault;
use search_types::Span;
use std::alloc::{AllocError, Global};
use std::collections::VecDeque;

/// A buffered line. It is printed as a context line if a later line is selected before it is dropped.
#[derive(Drop)]
pub struct Waiting {
    number: u64,
    place: u64,
    bytes: Vec<u8>,
    is_ended: bool,
    found: Vec<Span>,
}

/// How far the printing of lines has come.
#[derive(Drop)]
pub struct ContextPrinter {
    pub known: SeparatorState,
    /// How many more lines are printed as context after the last selected one.
    pub left: u64,
    /// The lines before the next one that are printed only if one of the next ones is selected.
    waiting: VecDeque<Waiting>,
}

/// Appends the line that separates groups of lines, if a new group begins here.
pub(crate) fn push_parting(
    out: &mut Vec<u8>,
    what: &OutputOptions<'_>,
    known: SeparatorState,
) -> Result<(), AllocError>
    ensures { OnOk result (out.new.items ≡ out.old.items ++ parting what.now known) }
{
    match known {
        SeparatorState::EarlierPrinted if what.context.is_some() => push_group(out, what),
        _ => Ok(()),
    }
}

/// Appends a buffered line, as a context line.
fn push_waiting(
    alloc: Global,
    out: &mut Vec<u8>,
    what: &OutputOptions<'_>,
    name: Option<&[u8]>,
    known: SeparatorState,
    it: &Waiting,
) -> Result<(), Fault>
    ensures { OnOk result (out.new.items ≡ out.old.items
        ++ (parting what.now known ++ print_item what.now (option_map (λ n. n.now) name.entry) Role.Beside (waiting_item it.now))) }
{
    push_parting(out, what, known)?;
    let line = Line {
        number: it.number,
        place: it.place,
        bytes: &it.bytes,
        is_ended: it.is_ended,
    };
    push_item(alloc, out, what, name, Role::Beside, line, &it.found)?;
    Ok(())
}

/// Appends all buffered lines, and empties the buffer.
fn print_waiting(
    alloc: Global,
    out: &mut Vec<u8>,
    what: &OutputOptions<'_>,
    name: Option<&[u8]>,
    course: &mut ContextPrinter,
) -> Result<(), Fault>
    ensures printed { OnOk result (out.new.items ≡ out.old.items
        ++ queued what.now (print_item what.now (option_map (λ n. n.now) name.entry)) course.old.known
        (map waiting_item course.old.waiting.items)) }
    ensures known { OnOk result (course.new.known ≡ after_queue course.old.known course.old.waiting.items) }
    ensures none { OnOk result (course.new.waiting.items ≡ []) }
    ensures left { course.new.left ≡ course.old.left }
{
    while let Some(it) = course.waiting.pop_front() {
        push_waiting(alloc, out, what, name, course.known, &it)?;
        course.known = SeparatorState::LastPrinted;
    }
    Ok(())
}

/// How many context lines are printed after a selected one.
fn after_of(what: &OutputOptions<'_>) -> u64
    ensures { result ≡ after_of what.now.context }
{
    match what.context {
        Some(context) => context.after,
        None => 0,
    }
}

/// How many context lines are printed before a selected one.
pub(crate) fn before_of(what: &OutputOptions<'_>) -> u64
    ensures { result ≡ before_of what.now.context }
{
    match what.context {
        Some(context) => context.before,
        None => 0,
    }
}

/// How many lines at the beginning are printed as context.
pub fn first_of(what: &OutputOptions<'_>) -> u64
    ensures { result ≡ first_of what.now.context }
{
    match what.context {
        Some(context) => context.first,
        None => 0,
    }
}

/// Advances by a line that is selected.
fn select(
    alloc: Global,
    out: &mut Vec<u8>,
    what: &OutputOptions<'_>,
    name: Option<&[u8]>,
    course: &mut ContextPrinter,
    line: Line<'_>,
    found: &[Span],
) -> Result<(), Fault>
    requires { Waits what.now course.old }
    ensures goes_on { OnOk result ((flags : List Bool) (items : List Item) →
        out.old.items ++ still what.now (option_map (λ n. n.now) name.entry) course.old (true ∷ flags)
        (item (text_line line.entry) (map span_pair found.now) ∷ items)
        ≡ out.new.items ++ still what.now (option_map (λ n. n.now) name.entry) course.new flags items) }
    ensures waits { OnOk result (Waits what.now course.new) }
{
    print_waiting(alloc, out, what, name, course)?;
    push_parting(out, what, course.known)?;
    push_item(alloc, out, what, name, Role::Selected, line, found)?;
    course.known = SeparatorState::LastPrinted;
    course.left = after_of(what);
    Ok(())
}

/// Advances by a line that is selected, up to what is printed of it: the buffered lines and the separator are printed.
pub(crate) fn select_first(
    alloc: Global,
    out: &mut Vec<u8>,
    what: &OutputOptions<'_>,
    name: Option<&[u8]>,
    course: &mut ContextPrinter,
) -> Result<(), Fault>
    requires { Waits what.now course.old }
    ensures goes_on { OnOk result ((it : Item) (flags : List Bool) (items : List Item) →
        out.old.items ++ still what.now (option_map (λ n. n.now) name.entry) course.old (true ∷ flags) (it ∷ items)
        ≡ (out.new.items ++ print_item what.now (option_map (λ n. n.now) name.entry) Role.Selected it)
        ++ still what.now (option_map (λ n. n.now) name.entry) course.new flags items) }
    ensures waits { OnOk result (Waits what.now course.new) }
{
    print_waiting(alloc, out, what, name, course)?;
    push_parting(out, what, course.known)?;
    course.known = SeparatorState::LastPrinted;
    course.left = after_of(what);
    Ok(())
}

/// Advances by a line that isn't selected, if it is owed to the last selected one as context.
fn stand_next_to(
    alloc: Global,
    out: &mut Vec<u8>,
    what: &OutputOptions<'_>,
    name: Option<&[u8]>,
    course: &mut ContextPrinter,
    line: Line<'_>,
    found: &[Span],
) -> Result<(), Fault>
    requires waits { Waits what.now course.old }
    requires owed { 0 < course.old.left }
    ensures goes_on { OnOk result ((flags : List Bool) (items : List Item) →
        out.old.items ++ still what.now (option_map (λ n. n.now) name.entry) course.old (false ∷ flags)
        (item (text_line line.entry) (map span_pair found.now) ∷ items)
        ≡ out.new.items ++ still what.now (option_map (λ n. n.now) name.entry) course.new flags items) }
    ensures waits { OnOk result (Waits what.now course.new) }
{
    push_parting(out, what, course.known)?;
    push_item(alloc, out, what, name, Role::Beside, line, found)?;
    course.known = SeparatorState::LastPrinted;
    course.left -= 1;
    Ok(())
}

/// What is known after a line that isn't printed.
pub(crate) fn after_hidden(known: SeparatorState) -> SeparatorState
    ensures { result ≡ after_hidden known }
{
    match known {
        SeparatorState::NonePrinted => SeparatorState::NonePrinted,
        _ => SeparatorState::EarlierPrinted,
    }
}

/// Copies a line and its matches for the buffer.
fn waiting_of(alloc: Global, line: Line<'_>, found: &[Span]) -> Result<Waiting, AllocError>
    ensures { IfOk result (λ it. waiting_item it ≡ item (text_line line.entry) (map span_pair found.now)) }
{
    let bytes = line.bytes.to_vec(alloc)?;
    let found = found.to_vec(alloc)?;
    Ok(Waiting {
        number: line.number,
        place: line.place,
        bytes,
        is_ended: line.is_ended,
        found,
    })
}

/// Removes the first buffered line, which isn't printed.
fn forget_first(course: &mut ContextPrinter)
    ensures known { course.new.known ≡ after_hidden course.old.known }
    ensures waiting { course.new.waiting.items ≡ drop 1 course.old.waiting.items }
    ensures left { course.new.left ≡ course.old.left }
{
    if let Some(first) = course.waiting.pop_front() {
        drop(first);
    }
    course.known = after_hidden(course.known);
}

/// Removes all buffered lines, none of which is printed.
pub(crate) fn forget_waiting(course: &mut ContextPrinter)
    ensures none { course.new.waiting.items ≡ [] }
    ensures known { course.new.known ≡ course.old.known }
    ensures left { course.new.left ≡ course.old.left }
{
    course.waiting.clear();
}

/// Advances by a line that isn't selected, if no line is owed to the last selected one.
fn wait(
    alloc: Global,
    what: &OutputOptions<'_>,
    course: &mut ContextPrinter,
    line: Line<'_>,
    found: &[Span],
) -> Result<(), AllocError>
    requires waits { Waits what.now course.old }
    requires none_owed { course.old.left ≡ 0 }
    ensures goes_on { OnOk result ((name : Option (List ℕ)) (flags : List Bool) (items : List Item) →
        still what.now name course.old (false ∷ flags) (item (text_line line.entry) (map span_pair found.now) ∷ items)
        ≡ still what.now name course.new flags items) }
    ensures waits { OnOk result (Waits what.now course.new) }
{
    let most = before_of(what);
    if most == 0 {
        course.known = after_hidden(course.known);
        return Ok(());
    }
    let waiting = waiting_of(alloc, line, found)?;
    course.waiting.push_back(waiting)?;
    if course.waiting.len() as u64 > most {
        forget_first(course);
    }
    Ok(())
}

impl ContextPrinter {
    /// The state before the first line, where `known` describes the lines of earlier inputs, and so many lines are printed as context
    /// before the first selected one.
    pub(crate) fn new(alloc: Global, first: u64, known: SeparatorState) -> ContextPrinter
        ensures starts { (what : TheOutputOptions) → first ≡ first_of what.context → (name : Option (List ℕ)) → (flags : List Bool) →
            (items : List Item) → still what name result flags items ≡ print_lines what (print_item what name) known
            (roles (before_of what.context) (after_of what.context) (first_of what.context) flags) items }
        ensures waits { (what : TheOutputOptions) → Waits what result }
    {
        ContextPrinter {
            known,
            left: first,
            waiting: VecDeque::new(alloc),
        }
    }
}

/// Advances by one line.
pub(crate) fn advance(
    alloc: Global,
    out: &mut Vec<u8>,
    what: &OutputOptions<'_>,
    name: Option<&[u8]>,
    course: &mut ContextPrinter,
    line: Line<'_>,
    is_selected: bool,
    found: &[Span],
) -> Result<(), Fault>
    requires { Waits what.now course.old }
    ensures goes_on { OnOk result ((flags : List Bool) (items : List Item) →
        out.old.items ++ still what.now (option_map (λ n. n.now) name.entry) course.old (is_selected ∷ flags)
        (item (text_line line.entry) (map span_pair found.now) ∷ items)
        ≡ out.new.items ++ still what.now (option_map (λ n. n.now) name.entry) course.new flags items) }
    ensures waits { OnOk result (Waits what.now course.new) }
{
    if is_selected {
        return select(alloc, out, what, name, course, line, found);
    }
    if course.left > 0 {
        return stand_next_to(alloc, out, what, name, course, line, found);
    }
    wait(alloc, what, course, line, found)?;
    Ok(())
}

/// After the last line nothing more is printed.
pub(crate) fn see_end(what: &OutputOptions<'_>, course: &ContextPrinter)
    requires { Waits what.now course.now }
    ensures { (name : Option (List ℕ)) → still what.now name course.now [] [] ≡ [] }
{
    let _left = course.left;
}
