//! Objects, each as a line.
ghost use Rattle.std.specs.Prelude.{◌≡◌, ◌++◌, ◌∷◌, [], OnOk, map};
ghost use Rattle.json.specs.Token.{end_object};
ghost use Rattle.json_events.specs.Events.{as_line, begin_event, content, end_event, event_start, kind_name, line_number, lines_event, part, path};
ghost use Rattle.json_events.specs.Events.{span_ends, submatch, submatches, summary_data, summary_event};

use crate::elapsed::{Elapsed, write_sorted_elapsed};
use crate::stats::{Stats, write_sorted_stats, write_stats};
use crate::values::{write_data, write_null, write_number, write_text};
use json::Writer;
use search_types::Span;
use std::alloc::{AllocError, Global};

/// Which lines are printed.
#[derive(Clone, Copy, Debug, PartialEq, Eq)]
pub enum Kind {
    /// Selected lines.
    Match,
    /// A context line.
    Context,
}

/// A line, or adjacent lines that are printed as one.
#[derive(Clone, Copy, Debug)]
pub struct Lines<'a> {
    pub kind: Kind,
    /// The number of the first line, counted from 1, if it is printed.
    pub number: Option<u64>,
    /// The offset of the first byte in the input, counted from 0.
    pub place: u64,
    /// The bytes, with each line feed.
    pub bytes: &'a [u8],
    /// The matches that are shown, as offsets in these bytes.
    pub found: &'a [Span],
}

/// The part of a text between two offsets.
fn part(text: &[u8], span: Span) -> &[u8]
    ensures { result.now ≡ part text.now (span_ends span) }
{
    match text.get(span.start..span.end) {
        Some(part) => part,
        None => &[],
    }
}

/// The name of a kind.
fn kind_name(kind: Kind) -> &'static str
    ensures { result.now ≡ kind_name kind }
{
    match kind {
        Kind::Match => "match",
        Kind::Context => "context",
    }
}

/// Begins an object of this type, and its data.
fn begin(writer: &mut Writer, kind: &str) -> Result<(), AllocError>
    ensures before { writer.new.before ≡ writer.old.before }
    ensures tokens { OnOk result (writer.new.tokens ≡ writer.old.tokens ++ event_start kind.now) }
{
    writer.begin_object()?;
    writer.key("type")?;
    writer.string(kind)?;
    writer.key("data")?;
    writer.begin_object()
}

/// Appends the name of an input.
fn write_path(alloc: Global, writer: &mut Writer, name: &[u8]) -> Result<(), AllocError>
    ensures before { writer.new.before ≡ writer.old.before }
    ensures tokens { OnOk result (writer.new.tokens ≡ writer.old.tokens ++ path name.now) }
{
    writer.key("path")?;
    write_data(alloc, writer, name)?;
    Ok(())
}

/// Appends an object as a line.
fn finish(out: &mut Vec<u8>, writer: Writer) -> Result<(), AllocError>
    requires { writer.before ≡ [] }
    ensures { OnOk result (out.new.items ≡ out.old.items ++ as_line writer.tokens) }
{
    let text = writer.into_inner();
    out.extend_from_slice(&text)?;
    out.push(b'\n')?;
    Ok(())
}

/// Ends the data and the object, and appends it as a line.
fn finish_event(out: &mut Vec<u8>, writer: Writer) -> Result<(), AllocError>
    requires { writer.before ≡ [] }
    ensures { OnOk result (out.new.items ≡ out.old.items ++ as_line (writer.tokens ++ end_object ∷ end_object ∷ [])) }
{
    let mut writer = writer;
    writer.end_object()?;
    writer.end_object()?;
    finish(out, writer)?;
    Ok(())
}

/// Appends the line that begins the objects of an input.
pub fn push_begin(alloc: Global, out: &mut Vec<u8>, name: &[u8]) -> Result<(), AllocError>
    ensures { OnOk result (out.new.items ≡ out.old.items ++ as_line (begin_event name.now)) }
{
    let mut writer = Writer::new(Vec::new(alloc));
    begin(&mut writer, "begin")?;
    write_path(alloc, &mut writer, name)?;
    finish_event(out, writer)?;
    Ok(())
}

/// Appends a match.
fn write_submatch(
    alloc: Global,
    writer: &mut Writer,
    text: &[u8],
    span: Span,
) -> Result<(), AllocError>
    ensures before { writer.new.before ≡ writer.old.before }
    ensures tokens { OnOk result (writer.new.tokens ≡ writer.old.tokens ++ submatch text.now (span_ends span)) }
{
    writer.begin_object()?;
    writer.key("match")?;
    write_data(alloc, writer, part(text, span))?;
    write_number(writer, "start", span.start as u64)?;
    write_number(writer, "end", span.end as u64)?;
    writer.end_object()?;
    Ok(())
}

/// Appends the matches.
fn write_submatches(
    alloc: Global,
    writer: &mut Writer,
    text: &[u8],
    found: &[Span],
) -> Result<(), AllocError>
    ensures before { writer.new.before ≡ writer.old.before }
    ensures tokens { OnOk result (writer.new.tokens ≡ writer.old.tokens ++ submatches text.now (map span_ends found.now)) }
{
    writer.key("submatches")?;
    writer.begin_array()?;
    for span in found {
        write_submatch(alloc, writer, text, *span)?;
    }
    writer.end_array()?;
    Ok(())
}

/// Appends the number of a line, or that there is none.
fn write_line_number(writer: &mut Writer, number: Option<u64>) -> Result<(), AllocError>
    ensures before { writer.new.before ≡ writer.old.before }
    ensures tokens { OnOk result (writer.new.tokens ≡ writer.old.tokens ++ line_number number) }
{
    match number {
        Some(number) => write_number(writer, "line_number", number),
        None => write_null(writer, "line_number"),
    }
}

/// Appends what an event has of lines besides their matches.
fn write_content(alloc: Global, writer: &mut Writer, lines: Lines<'_>) -> Result<(), AllocError>
    ensures before { writer.new.before ≡ writer.old.before }
    ensures tokens { OnOk result (writer.new.tokens ≡ writer.old.tokens ++ content lines.entry.number lines.entry.place lines.entry.bytes.now) }
{
    writer.key("lines")?;
    write_data(alloc, writer, lines.bytes)?;
    write_line_number(writer, lines.number)?;
    write_number(writer, "absolute_offset", lines.place)?;
    Ok(())
}

/// Appends a line, or adjacent lines, as a line.
pub fn push_lines(
    alloc: Global,
    out: &mut Vec<u8>,
    name: &[u8],
    lines: Lines<'_>,
) -> Result<(), AllocError>
    ensures { OnOk result (out.new.items ≡ out.old.items ++ as_line (lines_event name.now lines.entry.kind lines.entry.number lines.entry.place
        lines.entry.bytes.now (map span_ends lines.entry.found.now))) }
{
    let mut writer = Writer::new(Vec::new(alloc));
    begin(&mut writer, kind_name(lines.kind))?;
    write_path(alloc, &mut writer, name)?;
    write_content(alloc, &mut writer, lines)?;
    write_submatches(alloc, &mut writer, lines.bytes, lines.found)?;
    finish_event(out, writer)?;
    Ok(())
}

/// Appends the line that ends the objects of an input.
pub fn push_end(
    alloc: Global,
    out: &mut Vec<u8>,
    name: &[u8],
    stats: Stats,
) -> Result<(), AllocError>
    ensures { OnOk result (out.new.items ≡ out.old.items ++ as_line (end_event name.now stats)) }
{
    let mut writer = Writer::new(Vec::new(alloc));
    begin(&mut writer, "end")?;
    write_path(alloc, &mut writer, name)?;
    write_null(&mut writer, "binary_offset")?;
    write_stats(alloc, &mut writer, stats)?;
    finish_event(out, writer)?;
    Ok(())
}

/// Appends the data of the summary.
fn write_summary_data(
    alloc: Global,
    writer: &mut Writer,
    stats: Stats,
    total: Elapsed,
) -> Result<(), AllocError>
    ensures before { writer.new.before ≡ writer.old.before }
    ensures tokens { OnOk result (writer.new.tokens ≡ writer.old.tokens ++ summary_data stats total) }
{
    writer.begin_object()?;
    write_sorted_elapsed(alloc, writer, "elapsed_total", total)?;
    write_sorted_stats(alloc, writer, stats)?;
    writer.end_object()?;
    Ok(())
}

/// Appends the summary, as a line. Its parts are in the order of their names.
pub fn push_summary(
    alloc: Global,
    out: &mut Vec<u8>,
    stats: Stats,
    total: Elapsed,
) -> Result<(), AllocError>
    ensures { OnOk result (out.new.items ≡ out.old.items ++ as_line (summary_event stats total)) }
{
    let mut writer = Writer::new(Vec::new(alloc));
    writer.begin_object()?;
    writer.key("data")?;
    write_summary_data(alloc, &mut writer, stats, total)?;
    write_text(&mut writer, "type", "summary")?;
    writer.end_object()?;
    finish(out, writer)?;
    Ok(())
}
