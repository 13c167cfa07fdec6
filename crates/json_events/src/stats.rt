//! What was searched and found.
ghost use Rattle.std.specs.Prelude.{◌≡◌, ◌++◌, OnOk};
ghost use Rattle.json_events.specs.Events.{byte_counts, input_counts, match_counts, search_counts, sorted_statistics, statistics};

use crate::elapsed::{Elapsed, write_elapsed, write_sorted_elapsed};
use crate::values::{begin_member, write_number};
use json::Writer;
use std::alloc::{AllocError, Global};

/// What was searched and found, in an input or in several.
#[derive(Clone, Copy, Debug, PartialEq, Eq)]
pub struct Stats {
    pub elapsed: Elapsed,
    /// The inputs of which something is printed.
    pub searches: u64,
    /// The inputs with a selected line.
    pub searches_with_match: u64,
    pub bytes_searched: u64,
    /// The bytes that were printed before this number.
    pub bytes_printed: u64,
    /// The selected lines.
    pub matched_lines: u64,
    /// The matches in selected lines.
    pub matches: u64,
}

/// Appends how much was searched and printed.
fn write_searches(writer: &mut Writer, stats: Stats) -> Result<(), AllocError>
    ensures before { writer.new.before ≡ writer.old.before }
    ensures tokens { OnOk result (writer.new.tokens ≡ writer.old.tokens ++ search_counts stats) }
{
    write_number(writer, "searches", stats.searches)?;
    write_number(writer, "searches_with_match", stats.searches_with_match)?;
    write_number(writer, "bytes_searched", stats.bytes_searched)?;
    write_number(writer, "bytes_printed", stats.bytes_printed)?;
    Ok(())
}

/// Appends how much was found.
fn write_matches(writer: &mut Writer, stats: Stats) -> Result<(), AllocError>
    ensures before { writer.new.before ≡ writer.old.before }
    ensures tokens { OnOk result (writer.new.tokens ≡ writer.old.tokens ++ match_counts stats) }
{
    write_number(writer, "matched_lines", stats.matched_lines)?;
    write_number(writer, "matches", stats.matches)?;
    Ok(())
}

/// Appends the statistics of an input.
pub(crate) fn write_stats(
    alloc: Global,
    writer: &mut Writer,
    stats: Stats,
) -> Result<(), AllocError>
    ensures before { writer.new.before ≡ writer.old.before }
    ensures tokens { OnOk result (writer.new.tokens ≡ writer.old.tokens ++ statistics stats) }
{
    begin_member(writer, "stats")?;
    write_elapsed(alloc, writer, stats.elapsed)?;
    write_searches(writer, stats)?;
    write_matches(writer, stats)?;
    writer.end_object()?;
    Ok(())
}

/// Appends how many bytes were printed and searched.
fn write_sorted_bytes(writer: &mut Writer, stats: Stats) -> Result<(), AllocError>
    ensures before { writer.new.before ≡ writer.old.before }
    ensures tokens { OnOk result (writer.new.tokens ≡ writer.old.tokens ++ byte_counts stats) }
{
    write_number(writer, "bytes_printed", stats.bytes_printed)?;
    write_number(writer, "bytes_searched", stats.bytes_searched)?;
    Ok(())
}

/// Appends how many inputs were searched.
fn write_sorted_searches(writer: &mut Writer, stats: Stats) -> Result<(), AllocError>
    ensures before { writer.new.before ≡ writer.old.before }
    ensures tokens { OnOk result (writer.new.tokens ≡ writer.old.tokens ++ input_counts stats) }
{
    write_number(writer, "searches", stats.searches)?;
    write_number(writer, "searches_with_match", stats.searches_with_match)?;
    Ok(())
}

/// Appends what was counted of all inputs, after the bytes.
fn write_sorted_counts(writer: &mut Writer, stats: Stats) -> Result<(), AllocError>
    ensures before { writer.new.before ≡ writer.old.before }
    ensures tokens { OnOk result (writer.new.tokens ≡ writer.old.tokens ++ (match_counts stats ++ input_counts stats)) }
{
    write_matches(writer, stats)?;
    write_sorted_searches(writer, stats)?;
    Ok(())
}

/// Appends the statistics of all inputs, by name.
pub(crate) fn write_sorted_stats(
    alloc: Global,
    writer: &mut Writer,
    stats: Stats,
) -> Result<(), AllocError>
    ensures before { writer.new.before ≡ writer.old.before }
    ensures tokens { OnOk result (writer.new.tokens ≡ writer.old.tokens ++ sorted_statistics stats) }
{
    begin_member(writer, "stats")?;
    write_sorted_bytes(writer, stats)?;
    write_sorted_elapsed(alloc, writer, "elapsed", stats.elapsed)?;
    write_sorted_counts(writer, stats)?;
    writer.end_object()?;
    Ok(())
}
