//! The roles of lines, one after the other.
ghost use Rattle.std.specs.Prelude.{◌≡◌, ◌<◌, ◌≤◌, ◌+◌, ◌∷◌, drop, length, take, if◌then◌else◌};
ghost use Rattle.std.specs.List.{position};
ghost use Rattle.grep_core.specs.Report.{after_of, before_of};
ghost use Rattle.grep_core.specs.Selecting.{any};
ghost use Rattle.grep_core.specs.declared.role.Role.TheVariants.{Beside, Hidden};
ghost use Rattle.text_report.specs.EventCourse.{KnowsNext, gap, roles_left};

use grep_core::{OutputOptions, Role};

/// How far the roles of lines were taken.
#[derive(Clone, Copy)]
pub(crate) struct Turn {
    /// The index of the next line.
    pub index: usize,
    /// How many more lines are printed as context after the last selected one.
    pub left: u64,
    /// The index of the next selected line from there on, or the number of lines.
    pub next: usize,
}

/// The index of the first selected line.
fn first_true(flags: &[bool]) -> Option<usize>
    ensures { result ≡ position (λ flag. flag) flags.now }
{
    flags.iter().position(|flag| *flag)
}

/// The index of the first selected line from this one on, or the number of lines.
pub(crate) fn first_selected(flags: &[bool], from: usize) -> usize
    requires { from ≤ length flags.now }
    ensures found { result ≡ from + gap (drop from flags.now) }
    ensures within { result ≤ length flags.now }
{
    match first_true(&flags[from..]) {
        Some(n) => from + n,
        None => flags.len(),
    }
}

/// How many context lines are printed before a selected one.
fn before_of(what: &OutputOptions<'_>) -> u64
    ensures { result ≡ before_of what.now.context }
{
    match what.context {
        Some(context) => context.before,
        None => 0,
    }
}

/// How many context lines are printed after a selected one.
fn after_of(what: &OutputOptions<'_>) -> u64
    ensures { result ≡ after_of what.now.context }
{
    match what.context {
        Some(context) => context.after,
        None => 0,
    }
}

/// The role of a line that isn't selected and isn't printed after a selected one. The next selected line has this index.
fn role_before(what: &OutputOptions<'_>, flags: &[bool], index: usize, next: usize) -> Role
    requires below { index < length flags.now }
    requires known { next ≡ index + 1 + gap (drop (index + 1) flags.now) }
    ensures { result ≡ (if any (take (before_of what.now.context) (drop (index + 1) flags.now)) then Beside else Hidden) }
{
    if next >= flags.len() {
        return Role::Hidden;
    }
    if ((next - index - 1) as u64) < before_of(what) {
        Role::Beside
    } else {
        Role::Hidden
    }
}

/// The role of the next line.
pub(crate) fn take_role(what: &OutputOptions<'_>, flags: &[bool], turn: &mut Turn) -> Role
    requires below { turn.old.index < length flags.now }
    requires known { KnowsNext flags.now turn.old }
    ensures role { roles_left what.now flags.now turn.old ≡ result ∷ roles_left what.now flags.now turn.new }
    ensures on { turn.new.index ≡ turn.old.index + 1 }
    ensures known { KnowsNext flags.now turn.new }
{
    let index = turn.index;
    turn.index = index + 1;
    if flags[index] {
        turn.next = first_selected(flags, index + 1);
        turn.left = after_of(what);
        return Role::Selected;
    }
    if turn.left > 0 {
        turn.left -= 1;
        return Role::Beside;
    }
    role_before(what, flags, index, turn.next)
}
