//! What is printed of a line: the line itself, or the matches in it.
ghost use Rattle.std.specs.Prelude.{◌≡◌, ◌++◌, ◌+◌, OnOk, map, option_map, slice_range};
ghost use Rattle.std.specs.List.{flat_map};
ghost use Rattle.grep_core.specs.ContextPrinting.{item, print_item};
ghost use Rattle.grep_core.specs.Printing.{column_of, fields, is_printed, long_match, match_bytes, match_text, printed_match, printed_matches, text_line};
ghost use Rattle.line_search.specs.LineMatchers.{span_pair};

use crate::colors::{match_part, push_marked};
use crate::line::Line;
use crate::output_options::{OutputOptions, Print};
use crate::previews::{front, more_note};
use crate::printing::{
    column_of, exceeds, has_marks, push_fields, push_line, push_omission, push_tab, trimmed,
};
use crate::progress::sum;
use crate::role::Role;
use crate::texts::piece;
use line_search::Fault;
use search_types::Span;
use std::alloc::{AllocError, Global};

/// Appends the bytes of a match, unless it is empty.
fn push_match_bytes(
    out: &mut Vec<u8>,
    what: &OutputOptions<'_>,
    role: Role,
    text: &[u8],
) -> Result<(), AllocError>
    ensures { OnOk result (out.new.items ≡ out.old.items ++ match_bytes what.now role text.now) }
{
    if text.is_empty() {
        return Ok(());
    }
    push_marked(out, &what.color, match_part(role), text)
}

/// Appends what is printed after the fields of a match that is too long.
fn push_long_match(
    alloc: Global,
    out: &mut Vec<u8>,
    what: &OutputOptions<'_>,
    name: Option<&[u8]>,
    role: Role,
    text: &[u8],
) -> Result<(), AllocError>
    ensures { OnOk result (out.new.items ≡ out.old.items
        ++ long_match what.now (option_map (λ n. n.now) name.entry) role text.now) }
{
    if !what.preview {
        return push_omission(alloc, out, what, name, role, 0);
    }
    let note = more_note(alloc, 0)?;
    push_tab(out, what, name, &note)?;
    push_match_bytes(out, what, role, trimmed(what, front(what.most_bytes, text)))?;
    out.extend_from_slice(&note)?;
    out.push(what.terminator)?;
    Ok(())
}

/// Appends the bytes of a match after its fields.
fn push_match_text(
    alloc: Global,
    out: &mut Vec<u8>,
    what: &OutputOptions<'_>,
    name: Option<&[u8]>,
    role: Role,
    text: &[u8],
) -> Result<(), AllocError>
    ensures { OnOk result (out.new.items ≡ out.old.items
        ++ match_text what.now (option_map (λ n. n.now) name.entry) role text.now) }
{
    if exceeds(what.most_bytes, text.len() as u64) {
        return push_long_match(alloc, out, what, name, role, text);
    }
    let text = trimmed(what, text);
    push_tab(out, what, name, text)?;
    push_match_bytes(out, what, role, text)?;
    out.push(what.terminator)?;
    Ok(())
}

/// Appends a match with the fields before it.
fn push_match(
    alloc: Global,
    out: &mut Vec<u8>,
    what: &OutputOptions<'_>,
    name: Option<&[u8]>,
    role: Role,
    line: Line<'_>,
    span: Span,
) -> Result<(), Fault>
    ensures { OnOk result (out.new.items ≡ out.old.items
        ++ (fields what.now (option_map (λ n. n.now) name.entry) role line.entry.number (column_of what.now (span_pair span))
        (line.entry.place + span.start)
        ++ match_text what.now (option_map (λ n. n.now) name.entry) role (slice_range line.entry.bytes.now span.start span.end))) }
{
    let column = column_of(what, span)?;
    let place = sum(line.place, span.start as u64)?;
    push_fields(alloc, out, what, name, role, line.number, column, place)?;
    let text = piece(line.bytes, span.start, span.end);
    push_match_text(alloc, out, what, name, role, text)?;
    Ok(())
}

/// Whether a match, or what replaces it, is printed as a line of its own.
fn is_printed(what: &OutputOptions<'_>, span: Span) -> bool
    ensures { result ≡ is_printed what.now (span_pair span) }
{
    span.start < span.end || what.replacement.is_some()
}

/// Appends a match as a line of its own, unless it is empty and isn't replaced.
pub(crate) fn push_some(
    alloc: Global,
    out: &mut Vec<u8>,
    what: &OutputOptions<'_>,
    name: Option<&[u8]>,
    role: Role,
    line: Line<'_>,
    span: Span,
) -> Result<(), Fault>
    ensures { OnOk result (out.new.items ≡ out.old.items
        ++ printed_match what.now (option_map (λ n. n.now) name.entry) role (text_line line.entry) (span_pair span)) }
{
    if is_printed(what, span) {
        return push_match(alloc, out, what, name, role, line, span);
    }
    Ok(())
}

/// Appends the matches of a line, each as a line of its own.
fn push_all(
    alloc: Global,
    out: &mut Vec<u8>,
    what: &OutputOptions<'_>,
    name: Option<&[u8]>,
    role: Role,
    line: Line<'_>,
    found: &[Span],
) -> Result<(), Fault>
    ensures { OnOk result (out.new.items ≡ out.old.items
        ++ flat_map (printed_match what.now (option_map (λ n. n.now) name.entry) role (text_line line.entry)) (map span_pair found.now)) }
{
    for span in found {
        push_some(alloc, out, what, name, role, line, *span)?;
    }
    Ok(())
}

/// Appends the matches of a line of this role, if matches in such lines are printed.
fn push_matches(
    alloc: Global,
    out: &mut Vec<u8>,
    what: &OutputOptions<'_>,
    name: Option<&[u8]>,
    role: Role,
    line: Line<'_>,
    found: &[Span],
) -> Result<(), Fault>
    ensures { OnOk result (out.new.items ≡ out.old.items
        ++ printed_matches what.now (option_map (λ n. n.now) name.entry) role (text_line line.entry) (map span_pair found.now)) }
{
    if has_marks(what, role) {
        return push_all(alloc, out, what, name, role, line, found);
    }
    Ok(())
}

/// Appends a line, or the matches in it if matches alone are printed.
pub(crate) fn push_item(
    alloc: Global,
    out: &mut Vec<u8>,
    what: &OutputOptions<'_>,
    name: Option<&[u8]>,
    role: Role,
    line: Line<'_>,
    found: &[Span],
) -> Result<(), Fault>
    ensures { OnOk result (out.new.items ≡ out.old.items
        ++ print_item what.now (option_map (λ n. n.now) name.entry) role (item (text_line line.entry) (map span_pair found.now))) }
{
    match what.print {
        Print::Matches => push_matches(alloc, out, what, name, role, line, found),
        _ => push_line(alloc, out, what, name, role, line, found),
    }
}
