//! The lines of a text that are printed as one event.
ghost use Rattle.std.specs.Prelude.{◌≡◌, ◌<◌, ◌+◌, ◌∷◌, ◌&&◌, Bool, IfOk, false, length, true};
ghost use Rattle.text_report.specs.EventCourse.{IsGroup, KnowsNext, TakesLines, group_of, groups_left, joins_lines, roles_left};
ghost use Rattle.text_report.specs.LineSpans.{whole_end};
ghost use Rattle.text_report.specs.TextEvents.{EventLines, is_selected, put_lines, starts_selected};

use crate::events::Counts;
use crate::lines::{LineSpan, line_at};
use crate::turns::{Turn, take_role};
use grep_core::{OutputOptions, Role};
use line_search::Fault;
use search_types::Span;

/// A text of which events are printed.
#[derive(Clone, Copy)]
pub(crate) struct EventTask<'a> {
    pub what: &'a OutputOptions<'a>,
    pub name: &'a [u8],
    pub text: &'a [u8],
    /// For each line, whether it is selected.
    pub flags: &'a [bool],
    /// All matches of the text, from left to right. If there are none of the text, each line is searched by itself.
    pub found: Option<&'a [Span]>,
}

/// How far the events of a text were made.
#[derive(Clone, Copy)]
pub(crate) struct EventProgress {
    /// The offset of the next line.
    pub at: usize,
    /// The index of a match of the text. Those before it are before the line.
    pub first: usize,
    pub turn: Turn,
    pub counts: Counts,
    /// How many bytes were written.
    pub written: u64,
}

/// Adjacent lines that are printed as one event.
#[derive(Clone, Copy)]
pub(crate) struct Group {
    pub role: Role,
    pub first: LineSpan,
    pub last: LineSpan,
    /// How many lines there are.
    pub lines: u64,
}

/// Whether adjacent selected lines are printed as one event.
fn joins_lines(task: EventTask<'_>) -> bool
    ensures { result ≡ joins_lines task.entry }
{
    match task.found {
        Some(_) => !task.what.invert,
        None => false,
    }
}

/// The line at an offset, with its role.
fn take_line(task: EventTask<'_>, turn: &mut Turn, at: usize) -> Result<Group, Fault>
    requires below { at < length task.text.now }
    requires known { KnowsNext task.flags.now turn.old }
    ensures takes { TakesLines task.entry turn.new at result }
    ensures role { IfOk result (λ a. is_selected a.role ≡ starts_selected (roles_left task.entry.what.now task.entry.flags.now turn.old)) }
    ensures lines { IfOk result (λ a. groups_left task.entry turn.old at
        ≡ put_lines (joins_lines task.entry) (group_of task.entry.text.now a) (groups_left task.entry turn.new (whole_end a.last))) }
{
    let index = turn.index;
    if index >= task.flags.len() {
        return Err(Fault::TooLong);
    }
    let Some(line) = line_at(task.text, task.what.terminator, index as u64 + 1, at) else {
        return Err(Fault::TooLong);
    };
    let role = take_role(task.what, task.flags, turn);
    Ok(Group {
        role,
        first: line,
        last: line,
        lines: 1,
    })
}

/// Whether lines in this role are selected.
pub(crate) fn is_selected(role: Role) -> bool
    ensures { result ≡ is_selected role }
{
    match role {
        Role::Selected => true,
        Role::Beside | Role::Hidden => false,
    }
}

/// Whether the next line is there and selected.
fn is_next_selected(task: EventTask<'_>, turn: Turn) -> bool
    ensures { result ≡ starts_selected (roles_left task.entry.what.now task.entry.flags.now turn) }
{
    match task.flags.get(turn.index) {
        Some(flag) => *flag,
        None => false,
    }
}

/// Whether the line at an offset is there and selected.
fn goes_on(task: EventTask<'_>, turn: Turn, at: usize) -> bool
    ensures below { result ≡ true → at < length task.entry.text.now }
    ensures selected { result ≡ true → starts_selected (roles_left task.entry.what.now task.entry.flags.now turn) ≡ true }
    ensures apart { result ≡ false → (joins : Bool) (a : EventLines) →
        put_lines joins a (groups_left task.entry turn at) ≡ a ∷ groups_left task.entry turn at }
{
    if at >= task.text.len() {
        return false;
    }
    is_next_selected(task, turn)
}

/// Whether some lines are joined with adjacent selected ones.
fn is_joined(task: EventTask<'_>, group: Group) -> bool
    ensures { result ≡ (joins_lines task.entry && is_selected group.role) }
{
    joins_lines(task) && is_selected(group.role)
}

/// Some lines and the lines after them.
fn joined(group: Group, next: Group) -> Result<Group, Fault>
    ensures { IfOk result (λ a. a ≡ record { role = group.role; first = group.first; last = next.last; lines = group.lines + next.lines }) }
{
    let Some(lines) = group.lines.checked_add(next.lines) else {
        return Err(Fault::TooLong);
    };
    Ok(Group {
        role: group.role,
        first: group.first,
        last: next.last,
        lines,
    })
}

/// Some selected lines, and the selected lines that are adjacent to them.
fn take_joined(task: EventTask<'_>, turn: &mut Turn, begun: Group) -> Result<Group, Fault>
    requires lies { IsGroup task.text.now begun }
    requires known { KnowsNext task.flags.now turn.old }
    requires joins { (joins_lines task && is_selected begun.role) ≡ true }
    ensures takes { TakesLines task.entry turn.new begun.first.start result }
    ensures lines { IfOk result (λ a.
        put_lines (joins_lines task.entry) (group_of task.entry.text.now begun) (groups_left task.entry turn.old (whole_end begun.last))
        ≡ group_of task.entry.text.now a ∷ groups_left task.entry turn.new (whole_end a.last)) }
{
    let mut group = begun;
    while goes_on(task, *turn, group.last.whole_end()) {
        let next = match take_line(task, turn, group.last.whole_end()) {
            Ok(next) => next,
            Err(e) => return Err(e),
        };
        group = match joined(group, next) {
            Ok(group) => group,
            Err(e) => return Err(e),
        };
    }
    Ok(group)
}

/// The lines that are printed as one event with the line at an offset.
pub(crate) fn take_group(task: EventTask<'_>, turn: &mut Turn, at: usize) -> Result<Group, Fault>
    requires below { at < length task.text.now }
    requires known { KnowsNext task.flags.now turn.old }
    ensures takes { TakesLines task.entry turn.new at result }
    ensures lines { IfOk result (λ a. groups_left task.entry turn.old at
        ≡ group_of task.entry.text.now a ∷ groups_left task.entry turn.new (whole_end a.last)) }
{
    let line = match take_line(task, turn, at) {
        Ok(line) => line,
        Err(e) => return Err(e),
    };
    if !is_joined(task, line) {
        return Ok(line);
    }
    match take_joined(task, turn, line) {
        Ok(group) => Ok(group),
        Err(e) => Err(e),
    }
}
