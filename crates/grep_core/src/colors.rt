//! How parts of the output are marked for a terminal.
ghost use Rattle.std.specs.Prelude.{◌≡◌, ◌++◌, ◌∷◌, ℕ, IfOk, List, OnOk, map};
ghost use Rattle.grep_core.specs.Colors.{code_of, coloured, end_of, erasing, in_color, line_part, marked_from, marked_text};
ghost use Rattle.grep_core.specs.Colors.{match_part, rest_of, start_of};
ghost use Rattle.grep_core.specs.Printing.{moved};
ghost use Rattle.line_search.specs.LineMatchers.{span_pair};

use crate::role::Role;
use crate::texts::{piece, text_from, without_return};
use search_types::Span;
use std::alloc::AllocError;

/// The colours of a terminal in which parts of the output are shown. Each is the text between `ESC [` and `m` in the sequence that sets it.
/// If that is empty, the part isn't marked.
#[derive(Clone, Copy)]
pub struct Colors<'a> {
    /// That of the names of inputs.
    pub names: &'a [u8],
    /// That of line numbers and columns.
    pub numbers: &'a [u8],
    /// That of offsets.
    pub offsets: &'a [u8],
    /// That of separators between fields and between groups of lines.
    pub separators: &'a [u8],
    /// That of selected lines, outside of their matches.
    pub selected_lines: &'a [u8],
    /// That of context lines, outside of their matches.
    pub context_lines: &'a [u8],
    /// That of matches in selected lines.
    pub selected_matches: &'a [u8],
    /// That of matches in context lines.
    pub context_matches: &'a [u8],
    /// Whether selected lines and context lines swap their colours, if lines without a match are selected.
    pub swaps: bool,
    /// Whether the rest of the terminal's line is erased after each sequence.
    pub erases: bool,
}

/// A part of the output that may be marked.
#[derive(Clone, Copy)]
pub(crate) enum Part {
    Name,
    Number,
    Offset,
    Separator,
    SelectedLine,
    ContextLine,
    SelectedMatch,
    ContextMatch,
}

/// The text that sets the colour of a part.
pub(crate) fn code_of<'a>(colors: &Colors<'a>, part: Part) -> &'a [u8]
    ensures { result.now ≡ code_of colors.now part }
{
    match part {
        Part::Name => colors.names,
        Part::Number => colors.numbers,
        Part::Offset => colors.offsets,
        Part::Separator => colors.separators,
        Part::SelectedLine => colors.selected_lines,
        Part::ContextLine => colors.context_lines,
        Part::SelectedMatch => colors.selected_matches,
        Part::ContextMatch => colors.context_matches,
    }
}

/// Which part a line is, outside of its matches. `swaps` exchanges selected and context lines.
pub(crate) fn line_part(swaps: bool, role: Role) -> Part
    ensures { result ≡ line_part swaps role }
{
    match role {
        Role::Selected if !swaps => Part::SelectedLine,
        Role::Selected => Part::ContextLine,
        _ if swaps => Part::SelectedLine,
        _ => Part::ContextLine,
    }
}

/// Which part a match in a line of this role is.
pub(crate) fn match_part(role: Role) -> Part
    ensures { result ≡ match_part role }
{
    match role {
        Role::Selected => Part::SelectedMatch,
        _ => Part::ContextMatch,
    }
}

/// Appends what erases the rest of the terminal's line.
fn push_erasing(out: &mut Vec<u8>, colors: &Colors<'_>) -> Result<(), AllocError>
    ensures { OnOk result (out.new.items ≡ out.old.items ++ erasing colors.now) }
{
    if colors.erases {
        out.extend_from_slice(b"\x1B[K")?;
    }
    Ok(())
}

/// Appends the sequence that sets the colour of a part.
pub(crate) fn push_start(
    out: &mut Vec<u8>,
    colors: &Colors<'_>,
    part: Part,
) -> Result<(), AllocError>
    ensures { OnOk result (out.new.items ≡ out.old.items ++ start_of colors.now part) }
{
    let code = code_of(colors, part);
    if code.is_empty() {
        return Ok(());
    }
    out.extend_from_slice(b"\x1B[")?;
    out.extend_from_slice(code)?;
    out.extend_from_slice(b"m")?;
    push_erasing(out, colors)
}

/// Appends the sequence that resets the colour of a part.
fn push_end(out: &mut Vec<u8>, colors: &Colors<'_>, part: Part) -> Result<(), AllocError>
    ensures { OnOk result (out.new.items ≡ out.old.items ++ end_of colors.now part) }
{
    if code_of(colors, part).is_empty() {
        return Ok(());
    }
    out.extend_from_slice(b"\x1B[m")?;
    push_erasing(out, colors)
}

/// Appends a text in the colour of a part.
pub(crate) fn push_in_color(
    out: &mut Vec<u8>,
    colors: &Colors<'_>,
    part: Part,
    text: &[u8],
) -> Result<(), AllocError>
    ensures { OnOk result (out.new.items ≡ out.old.items ++ in_color colors.now part text.now) }
{
    push_start(out, colors, part)?;
    out.extend_from_slice(text)?;
    push_end(out, colors, part)
}

/// Appends a part of the output, in its colour if parts are marked.
pub(crate) fn push_marked(
    out: &mut Vec<u8>,
    color: &Option<Colors<'_>>,
    part: Part,
    text: &[u8],
) -> Result<(), AllocError>
    ensures { OnOk result (out.new.items ≡ out.old.items ++ coloured color.now part text.now) }
{
    match color {
        Some(colors) => push_in_color(out, colors, part, text),
        None => {
            out.extend_from_slice(text)?;
            Ok(())
        }
    }
}

/// Appends a text in the colour of a part, unless it is empty.
fn push_text(
    out: &mut Vec<u8>,
    colors: &Colors<'_>,
    part: Part,
    text: &[u8],
) -> Result<(), AllocError>
    ensures { OnOk result (out.new.items ≡ out.old.items ++ marked_text colors.now part text.now) }
{
    if text.is_empty() {
        return Ok(());
    }
    push_in_color(out, colors, part, text)
}

/// Appends the end of a line, in the colour of the line. A carriage return at its end isn't marked.
pub(crate) fn push_rest(
    out: &mut Vec<u8>,
    colors: &Colors<'_>,
    part: Part,
    text: &[u8],
) -> Result<(), AllocError>
    ensures { OnOk result (out.new.items ≡ out.old.items ++ rest_of colors.now part text.now) }
{
    let marked = without_return(text);
    push_text(out, colors, part, marked)?;
    out.extend_from_slice(text_from(text, marked.len()))?;
    Ok(())
}

/// Appends a match in a line, with the line's text from `at` to it. Returns the offset from which the line goes on.
fn push_match(
    out: &mut Vec<u8>,
    colors: &Colors<'_>,
    own: Part,
    part: Part,
    text: &[u8],
    at: usize,
    start: usize,
    end: usize,
) -> Result<usize, AllocError>
    ensures { IfOk result (λ next. (spans : List (ℕ × ℕ)) → out.old.items ++ marked_from colors.now own part text.now at ((start, end) ∷ spans)
        ≡ out.new.items ++ marked_from colors.now own part text.now next spans) }
{
    if start >= end || start >= text.len() {
        return Ok(at);
    }
    push_start(out, colors, own)?;
    out.extend_from_slice(piece(text, at, start))?;
    push_in_color(out, colors, part, piece(text, start, end))?;
    Ok(end)
}

/// Appends the text of a line with the matches in it marked. The text is the line without so many bytes at its beginning, or the beginning
/// of that.
pub(crate) fn push_matches(
    out: &mut Vec<u8>,
    colors: &Colors<'_>,
    own: Part,
    part: Part,
    text: &[u8],
    found: &[Span],
    left: usize,
) -> Result<(), AllocError>
    ensures { OnOk result (out.new.items ≡ out.old.items
        ++ marked_from colors.now own part text.now 0 (map (moved left) (map span_pair found.now))) }
{
    let mut at = 0usize;
    for span in found {
        let start = span.start.saturating_sub(left);
        let end = span.end.saturating_sub(left);
        at = push_match(out, colors, own, part, text, at, start, end)?;
    }
    push_rest(out, colors, own, piece(text, at, text.len()))
}
