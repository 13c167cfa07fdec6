//! The slots of a match: two offsets for each group, its start and its end.
ghost use Rattle.std.specs.Prelude.{◌≡◌, ◌<◌, ◌∷◌, [], IfSome, length, map, option_map, replicate};
ghost use Rattle.group_finder.specs.Slots.{no_offset, offset_of_cell};

/// What a slot of a group holds that took no part in the match.
pub const NO_OFFSET: usize = usize::MAX;

/// The offset in a cell of the toolchain's engines: it holds the offset plus one, or 0 for none.
#[inline(always)]
fn offset(cell: usize) -> usize
    ensures { result ≡ offset_of_cell cell }
{
    if cell == 0 { NO_OFFSET } else { cell - 1 }
}

/// Converts cells to slots.
#[inline(always)]
pub(crate) fn decode(cells: &mut [usize])
    ensures { cells.new ≡ map offset_of_cell cells.old }
{
    for i in 0..cells.len() {
        cells[i] = offset(cells[i]);
    }
}

/// Writes into all slots that there is no offset.
#[inline(always)]
pub fn clear(slots: &mut [usize])
    ensures { slots.new ≡ replicate (length slots.old) no_offset }
{
    for i in 0..slots.len() {
        slots[i] = NO_OFFSET;
    }
}

/// Writes a span into the slots of group 0, and returns its end.
#[inline(always)]
pub(crate) fn write_ends(span: Option<(usize, usize)>, ends: &mut [usize]) -> Option<usize>
    requires { length ends.old ≡ 2 }
    ensures end { result ≡ option_map (λ s. s.1) span }
    ensures written { IfSome span (λ s. ends.new ≡ s.0 ∷ s.1 ∷ []) }
{
    let (start, end) = span?;
    ends[0] = start;
    ends[1] = end;
    Some(end)
}

/// Writes the start of a span into the slots, of which there is at most one, and returns its end.
pub(crate) fn write_start(span: Option<(usize, usize)>, slots: &mut [usize]) -> Option<usize>
    requires { length slots.old < 2 }
    ensures end { result ≡ option_map (λ s. s.1) span }
    ensures written { IfSome span (λ s. slots.new ≡ replicate (length slots.old) s.0) }
{
    let (start, end) = span?;
    if slots.len() == 1 {
        slots[0] = start;
    }
    Some(end)
}
