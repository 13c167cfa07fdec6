//! How a line is printed, in the format of GNU grep.
ghost use Rattle.std.specs.Prelude.{◌≡◌, ◌<◌, ◌++◌, ◌+◌, ◌&&◌, ◌||◌, ◌∷◌, [], Some, codes, decimal, is_some, length, map, nat_lt, option_map, IfOk, OnOk};
ghost use Rattle.std.specs.List.{flat_map};
ghost use Rattle.grep_core.specs.Colors.{coloured};
ghost use Rattle.grep_core.specs.Printing.{long_text, marked_line, name_before, preview_text, line_bytes, printed_line, text_line, group_line};
ghost use Rattle.line_search.specs.LineMatchers.{span_pair};
ghost use Rattle.grep_core.specs.Printing.{field, fields, if_asked, name_field, number_field, padded, separator, separator_line, tab};
ghost use Rattle.grep_core.specs.Printing.{blanks, column_field, column_of, exceeds, first_column, has_marks, is_blank, is_long, left_out};
ghost use Rattle.grep_core.specs.Printing.{line_text, moved, omission, omitted_line, omitted_text, printed_for, printed_once, printed_with};
ghost use Rattle.grep_core.specs.Printing.{shown_matches, shows_matches, trimmed};

use crate::colors::{Colors, Part, code_of, line_part, match_part, push_marked, push_matches};
use crate::line::Line;
use crate::output_options::{GroupSeparator, OutputOptions};
use crate::previews::{end_note, front};
use crate::progress::sum;
use crate::role::Role;
use crate::texts::text_from;
use line_search::Fault;
use search_types::Span;
use std::alloc::{AllocError, Global};

/// The separator after each field before a line.
fn separator<'a>(what: &OutputOptions<'a>, role: Role) -> &'a [u8]
    ensures { result.now ≡ separator what.now role }
{
    match role {
        Role::Selected => what.match_separator.unwrap_or(b":"),
        _ => what.context_separator.unwrap_or(b"-"),
    }
}

/// Appends a field and the separator after it.
pub(crate) fn push_field(
    out: &mut Vec<u8>,
    what: &OutputOptions<'_>,
    role: Role,
    part: Part,
    text: &[u8],
) -> Result<(), AllocError>
    ensures { OnOk result (out.new.items ≡ out.old.items ++ field what.now role part text.now) }
{
    push_marked(out, &what.color, part, text)?;
    push_marked(out, &what.color, Part::Separator, separator(what, role))?;
    Ok(())
}

/// Appends a name and what follows it: a zero byte if that is asked for, and else this separator.
pub(crate) fn push_name_before(
    out: &mut Vec<u8>,
    what: &OutputOptions<'_>,
    separator: &[u8],
    name: &[u8],
) -> Result<(), AllocError>
    ensures { OnOk result (out.new.items ≡ out.old.items
        ++ name_before what.now name.now (coloured what.now.color Part.Separator separator.now)) }
{
    push_marked(out, &what.color, Part::Name, name)?;
    if what.zero_names {
        out.push(0)?;
        return Ok(());
    }
    push_marked(out, &what.color, Part::Separator, separator)
}

/// Appends a name as a field.
fn push_name_field(
    out: &mut Vec<u8>,
    what: &OutputOptions<'_>,
    role: Role,
    name: &[u8],
) -> Result<(), AllocError>
    ensures { OnOk result (out.new.items ≡ out.old.items ++ name_field what.now role (Some name.now)) }
{
    push_name_before(out, what, separator(what, role), name)
}

/// The text of at least this many bytes: spaces precede a shorter one.
fn padded(alloc: Global, width: usize, text: &[u8]) -> Result<Vec<u8>, AllocError>
    requires { 0 < width }
    ensures { IfOk result (λ v. v.items ≡ padded width text.now) }
{
    let mut all = Vec::new(alloc);
    all.resize(width.saturating_sub(text.len()), b' ')?;
    all.extend_from_slice(text)?;
    Ok(all)
}

/// Appends a number as a field.
fn push_number_field(
    alloc: Global,
    out: &mut Vec<u8>,
    what: &OutputOptions<'_>,
    role: Role,
    part: Part,
    number: u64,
) -> Result<(), AllocError>
    ensures { OnOk result (out.new.items ≡ out.old.items ++ number_field what.now role part number) }
{
    let text = format!(in alloc; "{number}")?;
    let digits = text.as_str().as_bytes();
    let width = what.width;
    if width == 0 {
        return push_field(out, what, role, part, digits);
    }
    let wide = padded(alloc, width, digits)?;
    push_field(out, what, role, part, &wide)
}

/// Appends a number as a field, if it is asked for.
fn push_number(
    alloc: Global,
    out: &mut Vec<u8>,
    what: &OutputOptions<'_>,
    role: Role,
    part: Part,
    is_asked: bool,
    number: u64,
) -> Result<(), AllocError>
    ensures { OnOk result (out.new.items ≡ out.old.items ++ if_asked is_asked (number_field what.now role part number)) }
{
    if is_asked {
        return push_number_field(alloc, out, what, role, part, number);
    }
    Ok(())
}

/// The column of a match, if columns are asked for.
pub(crate) fn column_of(what: &OutputOptions<'_>, span: Span) -> Result<Option<u64>, Fault>
    ensures { IfOk result (λ column. column ≡ column_of what.now (span_pair span)) }
{
    if !what.columns {
        return Ok(None);
    }
    let column = sum(span.start as u64, 1)?;
    Ok(Some(column))
}

/// Appends the column of a match as a field, if there is one.
fn push_column(
    alloc: Global,
    out: &mut Vec<u8>,
    what: &OutputOptions<'_>,
    role: Role,
    column: Option<u64>,
) -> Result<(), AllocError>
    ensures { OnOk result (out.new.items ≡ out.old.items ++ column_field what.now role column) }
{
    match column {
        Some(column) => push_number_field(alloc, out, what, role, Part::Number, column),
        None => Ok(()),
    }
}

/// Appends what is printed before a line, or before a match in it, whose first byte is at this offset.
pub(crate) fn push_fields(
    alloc: Global,
    out: &mut Vec<u8>,
    what: &OutputOptions<'_>,
    name: Option<&[u8]>,
    role: Role,
    number: u64,
    column: Option<u64>,
    place: u64,
) -> Result<(), AllocError>
    ensures { OnOk result (out.new.items ≡ out.old.items
        ++ fields what.now (option_map (λ n. n.now) name.entry) role number column place) }
{
    if let Some(name) = name {
        push_name_field(out, what, role, name)?;
    }
    push_number(alloc, out, what, role, Part::Number, what.numbers, number)?;
    push_column(alloc, out, what, role, column)?;
    push_number(alloc, out, what, role, Part::Offset, what.offsets, place)?;
    Ok(())
}

/// Whether there is a tab before this text.
fn has_tab(what: &OutputOptions<'_>, name: Option<&[u8]>, text: &[u8]) -> bool
    ensures { result ≡ (what.now.initial_tab && (is_some name.entry || what.now.numbers || what.now.offsets)
        && nat_lt 0 (length text.now)) }
{
    what.initial_tab && (name.is_some() || what.numbers || what.offsets) && !text.is_empty()
}

/// Appends the tab between fields and a text, if it is asked for.
pub(crate) fn push_tab(
    out: &mut Vec<u8>,
    what: &OutputOptions<'_>,
    name: Option<&[u8]>,
    text: &[u8],
) -> Result<(), AllocError>
    ensures { OnOk result (out.new.items ≡ out.old.items ++ tab what.now (option_map (λ n. n.now) name.entry) text.now) }
{
    if has_tab(what, name, text) {
        out.push(b'\t')?;
    }
    Ok(())
}

/// Whether matches are shown in lines of this role.
pub(crate) fn has_marks(what: &OutputOptions<'_>, role: Role) -> bool
    ensures { result ≡ has_marks what.now role }
{
    match role {
        Role::Selected => !what.invert,
        _ => what.invert,
    }
}

/// Whether the output for a line depends on the matches in it.
pub(crate) fn shows_matches(what: &OutputOptions<'_>) -> bool
    ensures { result ≡ shows_matches what.now }
{
    what.color.is_some() || what.columns || what.each_match || what.replacement.is_some()
}

/// The matches that are shown in a line of this role that has these.
fn shown_matches<'a>(what: &OutputOptions<'_>, role: Role, found: &'a [Span]) -> &'a [Span]
    ensures { map span_pair result.now ≡ shown_matches what.now role (map span_pair found.now) }
{
    if shows_matches(what) && has_marks(what, role) {
        return found;
    }
    &[]
}

/// Whether a byte is ASCII white space.
fn is_blank(byte: u8) -> bool
    ensures { result ≡ is_blank byte }
{
    (byte > 8 && byte < 14) || byte == b' '
}

/// How many bytes of ASCII white space a text begins with.
fn blanks(text: &[u8]) -> usize
    ensures { result ≡ blanks text.now }
{
    for at in 0..text.len() {
        if !is_blank(text[at]) {
            return at;
        }
    }
    text.len()
}

/// How many bytes are left out at the beginning of a text.
pub(crate) fn left_out(what: &OutputOptions<'_>, text: &[u8]) -> usize
    ensures { result ≡ left_out what.now text.now }
{
    if what.trim { blanks(text) } else { 0 }
}

/// Whether a text of this many bytes has more than may be printed.
pub(crate) fn exceeds(most: Option<u64>, len: u64) -> bool
    ensures { result ≡ exceeds most len }
{
    match most {
        Some(most) => len > most,
        None => false,
    }
}

/// Whether a line with its line feed has more bytes than may be printed.
fn is_long(what: &OutputOptions<'_>, line: Line<'_>) -> Result<bool, Fault>
    ensures { IfOk result (λ is. is ≡ is_long what.now (text_line line.entry)) }
{
    if what.most_bytes.is_none() {
        return Ok(false);
    }
    let feed = if line.is_ended { 1 } else { 0 };
    let len = sum(line.bytes.len() as u64, feed)?;
    Ok(exceeds(what.most_bytes, len))
}

/// What is printed instead of a line that is too long, if no match is shown in it.
fn omitted_line(role: Role) -> &'static [u8]
    ensures { result.now ≡ omitted_line role }
{
    match role {
        Role::Selected => b"[Omitted long matching line]",
        _ => b"[Omitted long context line]",
    }
}

/// What is printed instead of a line that is too long and in which so many matches are shown.
fn counted_omission(alloc: Global, count: usize) -> Result<Vec<u8>, AllocError>
    ensures { IfOk result (λ v. v.items ≡ codes "[Omitted long line with " ++ (decimal count ++ codes " matches]")) }
{
    let text = format!(in alloc; "[Omitted long line with {count} matches]")?;
    text.as_str().as_bytes().to_vec(alloc)
}

/// What is printed instead of a line that is too long, with so many matches that are shown in it.
fn omission(alloc: Global, role: Role, count: usize) -> Result<Vec<u8>, AllocError>
    ensures { IfOk result (λ v. v.items ≡ omission role count) }
{
    if count > 0 {
        return counted_omission(alloc, count);
    }
    omitted_line(role).to_vec(alloc)
}

/// Appends what is printed instead of a line that is too long, after its fields.
pub(crate) fn push_omission(
    alloc: Global,
    out: &mut Vec<u8>,
    what: &OutputOptions<'_>,
    name: Option<&[u8]>,
    role: Role,
    count: usize,
) -> Result<(), AllocError>
    ensures { OnOk result (out.new.items ≡ out.old.items ++ omitted_text what.now (option_map (λ n. n.now) name.entry) role count) }
{
    let text = omission(alloc, role, count)?;
    push_tab(out, what, name, &text)?;
    out.extend_from_slice(&text)?;
    out.push(what.terminator)?;
    Ok(())
}

/// Appends a text of a line in which these matches are marked. The text is the line without so many bytes at its beginning. Without a
/// colour for matches, the line has its own.
fn push_marks(
    out: &mut Vec<u8>,
    colors: &Colors<'_>,
    invert: bool,
    role: Role,
    text: &[u8],
    found: &[Span],
    left: usize,
) -> Result<(), AllocError>
    ensures { OnOk result (out.new.items ≡ out.old.items
        ++ marked_line (Some colors.now) invert role (map (moved left) (map span_pair found.now)) text.now) }
{
    let own = line_part(invert && colors.swaps, role);
    let part = match_part(role);
    if code_of(colors, part).is_empty() {
        return push_matches(out, colors, own, part, text, &[], left);
    }
    push_matches(out, colors, own, part, text, found, left)
}

/// Appends the bytes of a line of this role, in which these matches are shown.
fn push_bytes(
    out: &mut Vec<u8>,
    what: &OutputOptions<'_>,
    role: Role,
    line: &[u8],
    found: &[Span],
) -> Result<(), AllocError>
    ensures { OnOk result (out.new.items ≡ out.old.items ++ line_bytes what.now role (map span_pair found.now) line.now) }
{
    let left = left_out(what, line);
    let text = text_from(line, left);
    match &what.color {
        Some(colors) => push_marks(out, colors, what.invert, role, text, found, left),
        None => {
            out.extend_from_slice(text)?;
            Ok(())
        }
    }
}

/// The text without the white space at its beginning, if that is left out.
pub(crate) fn trimmed<'a>(what: &OutputOptions<'_>, text: &'a [u8]) -> &'a [u8]
    ensures { result.now ≡ trimmed what.now text.now }
{
    text_from(text, left_out(what, text))
}

/// Appends a line that isn't too long after its fields, with these matches marked in it.
fn push_short(
    out: &mut Vec<u8>,
    what: &OutputOptions<'_>,
    name: Option<&[u8]>,
    role: Role,
    line: &[u8],
    marks: &[Span],
) -> Result<(), AllocError>
    ensures { OnOk result (out.new.items ≡ out.old.items
        ++ (tab what.now (option_map (λ n. n.now) name.entry) (trimmed what.now line.now)
        ++ (line_bytes what.now role (map span_pair marks.now) line.now ++ what.now.terminator ∷ []))) }
{
    push_tab(out, what, name, trimmed(what, line))?;
    push_bytes(out, what, role, line, marks)?;
    out.push(what.terminator)?;
    Ok(())
}

/// Appends the beginning of a line that is too long after its fields, with these matches marked in it, and what follows it.
fn push_preview(
    alloc: Global,
    out: &mut Vec<u8>,
    what: &OutputOptions<'_>,
    name: Option<&[u8]>,
    role: Role,
    line: &[u8],
    marks: &[Span],
    shown: &[Span],
) -> Result<(), AllocError>
    ensures { OnOk result (out.new.items ≡ out.old.items
        ++ preview_text what.now (option_map (λ n. n.now) name.entry) role line.now (map span_pair marks.now) (map span_pair shown.now)) }
{
    let front = front(what.most_bytes, line);
    let note = end_note(alloc, shown, front.len())?;
    push_tab(out, what, name, &note)?;
    push_bytes(out, what, role, front, marks)?;
    out.extend_from_slice(&note)?;
    out.push(what.terminator)?;
    Ok(())
}

/// Appends what is printed after the fields of a line that is too long.
fn push_long(
    alloc: Global,
    out: &mut Vec<u8>,
    what: &OutputOptions<'_>,
    name: Option<&[u8]>,
    role: Role,
    line: &[u8],
    marks: &[Span],
    shown: &[Span],
) -> Result<(), AllocError>
    ensures { OnOk result (out.new.items ≡ out.old.items
        ++ long_text what.now (option_map (λ n. n.now) name.entry) role line.now (map span_pair marks.now) (map span_pair shown.now)) }
{
    if what.preview {
        return push_preview(alloc, out, what, name, role, line, marks, shown);
    }
    push_omission(alloc, out, what, name, role, shown.len())
}

/// Appends a line after its fields, with these of the matches that are shown in it marked.
fn push_text(
    alloc: Global,
    out: &mut Vec<u8>,
    what: &OutputOptions<'_>,
    name: Option<&[u8]>,
    role: Role,
    line: Line<'_>,
    marks: &[Span],
    shown: &[Span],
) -> Result<(), Fault>
    ensures { OnOk result (out.new.items ≡ out.old.items
        ++ line_text what.now (option_map (λ n. n.now) name.entry) role (text_line line.entry) (map span_pair marks.now)
        (map span_pair shown.now)) }
{
    if is_long(what, line)? {
        push_long(alloc, out, what, name, role, line.bytes, marks, shown)?;
        return Ok(());
    }
    push_short(out, what, name, role, line.bytes, marks)?;
    Ok(())
}

/// The column of the first match, if columns are asked for.
fn first_column(what: &OutputOptions<'_>, shown: &[Span]) -> Result<Option<u64>, Fault>
    ensures { IfOk result (λ column. column ≡ first_column what.now (map span_pair shown.now)) }
{
    match shown.first() {
        Some(span) => column_of(what, *span),
        None => Ok(None),
    }
}

/// Appends a line that is printed once, with these matches shown in it.
fn push_once(
    alloc: Global,
    out: &mut Vec<u8>,
    what: &OutputOptions<'_>,
    name: Option<&[u8]>,
    role: Role,
    line: Line<'_>,
    shown: &[Span],
) -> Result<(), Fault>
    ensures { OnOk result (out.new.items ≡ out.old.items
        ++ printed_once what.now (option_map (λ n. n.now) name.entry) role (text_line line.entry) (map span_pair shown.now)) }
{
    let column = first_column(what, shown)?;
    push_fields(
        alloc,
        out,
        what,
        name,
        role,
        line.number,
        column,
        line.place,
    )?;
    push_text(alloc, out, what, name, role, line, shown, shown)
}

/// Appends a line for one of the matches that are shown in it.
pub(crate) fn push_for(
    alloc: Global,
    out: &mut Vec<u8>,
    what: &OutputOptions<'_>,
    name: Option<&[u8]>,
    role: Role,
    line: Line<'_>,
    shown: &[Span],
    span: Span,
) -> Result<(), Fault>
    ensures { OnOk result (out.new.items ≡ out.old.items
        ++ printed_for what.now (option_map (λ n. n.now) name.entry) role (text_line line.entry) (map span_pair shown.now)
        (span_pair span)) }
{
    let column = column_of(what, span)?;
    let place = sum(line.place, span.start as u64)?;
    push_fields(alloc, out, what, name, role, line.number, column, place)?;
    push_text(alloc, out, what, name, role, line, &[span], shown)
}

/// Appends a line once for each of its matches.
fn push_for_each(
    alloc: Global,
    out: &mut Vec<u8>,
    what: &OutputOptions<'_>,
    name: Option<&[u8]>,
    role: Role,
    line: Line<'_>,
    shown: &[Span],
) -> Result<(), Fault>
    ensures { OnOk result (out.new.items ≡ out.old.items
        ++ flat_map (printed_for what.now (option_map (λ n. n.now) name.entry) role (text_line line.entry) (map span_pair shown.now))
        (map span_pair shown.now)) }
{
    for span in shown {
        push_for(alloc, out, what, name, role, line, shown, *span)?;
    }
    Ok(())
}

/// Appends a line in which these matches are shown.
fn push_with(
    alloc: Global,
    out: &mut Vec<u8>,
    what: &OutputOptions<'_>,
    name: Option<&[u8]>,
    role: Role,
    line: Line<'_>,
    shown: &[Span],
) -> Result<(), Fault>
    ensures { OnOk result (out.new.items ≡ out.old.items
        ++ printed_with what.now (option_map (λ n. n.now) name.entry) role (text_line line.entry) (map span_pair shown.now)) }
{
    if what.each_match && !shown.is_empty() {
        return push_for_each(alloc, out, what, name, role, line, shown);
    }
    push_once(alloc, out, what, name, role, line, shown)
}

/// Appends a line that has these matches, with the fields before it.
pub(crate) fn push_line(
    alloc: Global,
    out: &mut Vec<u8>,
    what: &OutputOptions<'_>,
    name: Option<&[u8]>,
    role: Role,
    line: Line<'_>,
    found: &[Span],
) -> Result<(), Fault>
    ensures { OnOk result (out.new.items ≡ out.old.items
        ++ printed_line what.now (option_map (λ n. n.now) name.entry) role (text_line line.entry) (map span_pair found.now)) }
{
    let shown = shown_matches(what, role, found);
    push_with(alloc, out, what, name, role, line, shown)
}

/// Appends a separator line of this text.
fn push_separator_line(
    out: &mut Vec<u8>,
    what: &OutputOptions<'_>,
    text: &[u8],
) -> Result<(), AllocError>
    ensures { OnOk result (out.new.items ≡ out.old.items ++ separator_line what.now (Some text.now)) }
{
    push_marked(out, &what.color, Part::Separator, text)?;
    out.push(b'\n')?;
    Ok(())
}

/// Appends what is between two groups of lines.
pub(crate) fn push_group(out: &mut Vec<u8>, what: &OutputOptions<'_>) -> Result<(), AllocError>
    ensures { OnOk result (out.new.items ≡ out.old.items ++ group_line what.now) }
{
    match what.groups {
        GroupSeparator::Hyphens => push_separator_line(out, what, b"--"),
        GroupSeparator::Given(text) => push_separator_line(out, what, text),
        GroupSeparator::Omitted => Ok(()),
    }
}
