use hir_core::Hir;
use std::alloc::{AllocError, Global};

/// Two digits: `[0-9]{2}`.
fn two_digits(alloc: Global) -> Result<Hir, AllocError> {
    let mut ranges = Vec::new(alloc);
    ranges.push((b'0', b'9'))?;
    Hir::repetition(alloc, 2, Some(2), true, Hir::bytes(ranges))
}

/// A time of day: `[0-9]{2}:[0-9]{2}`.
pub fn time_of_day(alloc: Global) -> Result<Hir, AllocError> {
    let mut parts = Vec::new(alloc);
    parts.push(two_digits(alloc)?)?;
    parts.push(Hir::literal(b":".to_vec(alloc)?))?;
    parts.push(two_digits(alloc)?)?;
    Ok(Hir::concat(parts))
}
