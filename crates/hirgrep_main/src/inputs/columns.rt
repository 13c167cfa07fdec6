//! How wide numbers are under `-T`.
ghost use Rattle.std.specs.Prelude.{◌≡◌, IfOk, false};
ghost use Rattle.hirgrep_main.specs.Decisions.{width_for};

use grep_core::OutputOptions;
use std::alloc::{AllocError, Global};
use std::fs;
use std::rt::Runtime;

/// The greatest offset that the system has.
const GREATEST: u64 = 0x7FFF_FFFF_FFFF_FFFF;

/// The size in bytes of the file at the path. Of anything else than a file, it is the greatest offset.
fn size_at(rt: &HostRuntime, path: &str) -> u64 {
    match fs::metadata(rt, path) {
        Ok(metadata) if metadata.is_file() => metadata.len(),
        _ => GREATEST,
    }
}

/// How many digits the greatest offset and, if asked for, line number of a file of this size may have.
fn width_for(alloc: Global, numbers: bool, size: u64) -> Result<usize, AllocError>
    ensures { IfOk result (λ n. n ≡ width_for numbers size) }
{
    let most = if numbers {
        size.saturating_add(1)
    } else {
        size
    };
    let text = format!(in alloc; "{most}")?;
    Ok(text.as_str().len())
}

/// How wide the numbers are that are printed for the file at the path. Without `-T` nothing is known of the file, and they are as wide as
/// they are.
pub fn width_at(rt: &HostRuntime, what: &OutputOptions<'_>, path: &str) -> Result<usize, AllocError>
    ensures { what.now.initial_tab ≡ false → IfOk result (λ n. n ≡ 0) }
{
    if !what.initial_tab {
        return Ok(0);
    }
    width_for(rt.alloc(), what.numbers, size_at(rt, path))
}
