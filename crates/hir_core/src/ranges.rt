ghost use Rattle.std.specs.Prelude.{◌≡◌};
ghost use Rattle.hir_core.specs.Facts.{is_ascending};

/// Whether the ranges are ascending and disjoint, each with its start at most its end: what
/// [`Hir::bytes`](crate::Hir::bytes) requires.
pub fn is_ascending(ranges: &[(u8, u8)]) -> bool
    ensures { result ≡ is_ascending ranges.now }
{
    let mut low = 0u16;
    for range in ranges {
        let (start, end) = *range;
        if u16::from(start) < low || end < start {
            return false;
        }
        low = u16::from(end) + 1;
    }
    true
}

/// Whether the ranges of scalars are ascending and disjoint, each with its start at most its end: what
/// [`Hir::chars`](crate::Hir::chars) requires.
pub fn is_ascending_chars(ranges: &[(char, char)]) -> bool
    ensures { result ≡ is_ascending ranges.now }
{
    let mut low = 0u32;
    for range in ranges {
        let (start, end) = *range;
        if u32::from(start) < low || end < start {
            return false;
        }
        low = u32::from(end) + 1;
    }
    true
}
