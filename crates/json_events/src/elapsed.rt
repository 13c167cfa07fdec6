//! Elapsed times.
ghost use Rattle.std.specs.Prelude.{◌≡◌, ◌++◌, IfOk, OnOk, replicate, string_bytes};
ghost use Rattle.json_events.specs.Events.{elapsed, human, sorted_elapsed};

use crate::values::{begin_member, write_number, write_text};
use json::Writer;
use std::alloc::{AllocError, Global};

/// An elapsed time.
#[derive(Clone, Copy, Debug, PartialEq, Eq)]
pub struct Elapsed {
    /// Whole seconds.
    pub secs: u64,
    /// The rest, in nanoseconds.
    pub nanos: u64,
}

/// Appends so many zeros.
fn push_zeros(text: &mut String, count: usize) -> Result<(), AllocError>
    ensures { OnOk result (string_bytes text.new ≡ string_bytes text.old ++ replicate count 48) }
{
    for _zero in 0..count {
        text.push('0')?;
    }
    Ok(())
}

/// The time in seconds, with six digits after the point.
fn human(alloc: Global, time: Elapsed) -> Result<String, AllocError>
    ensures { IfOk result (λ t. string_bytes t ≡ human time) }
{
    let secs = time.secs;
    let micros = time.nanos / 1000;
    let digits = format!(in alloc; "{micros}")?;
    let mut text = format!(in alloc; "{secs}.")?;
    push_zeros(&mut text, 6usize.saturating_sub(digits.len()))?;
    text.push_str(digits.as_str())?;
    text.push('s')?;
    Ok(text)
}

/// Appends a time after a key, with its parts in the order of an input's statistics.
pub(crate) fn write_elapsed(
    alloc: Global,
    writer: &mut Writer,
    time: Elapsed,
) -> Result<(), AllocError>
    ensures before { writer.new.before ≡ writer.old.before }
    ensures tokens { OnOk result (writer.new.tokens ≡ writer.old.tokens ++ elapsed time) }
{
    let text = human(alloc, time)?;
    begin_member(writer, "elapsed")?;
    write_number(writer, "secs", time.secs)?;
    write_number(writer, "nanos", time.nanos)?;
    write_text(writer, "human", text.as_str())?;
    writer.end_object()?;
    Ok(())
}

/// Appends a time after this key, with its parts in the order of the summary.
pub(crate) fn write_sorted_elapsed(
    alloc: Global,
    writer: &mut Writer,
    name: &str,
    time: Elapsed,
) -> Result<(), AllocError>
    ensures before { writer.new.before ≡ writer.old.before }
    ensures tokens { OnOk result (writer.new.tokens ≡ writer.old.tokens ++ sorted_elapsed name.now time) }
{
    let text = human(alloc, time)?;
    begin_member(writer, name)?;
    write_text(writer, "human", text.as_str())?;
    write_number(writer, "nanos", time.nanos)?;
    write_number(writer, "secs", time.secs)?;
    writer.end_object()?;
    Ok(())
}
