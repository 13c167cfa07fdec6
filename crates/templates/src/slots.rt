//! What groups matched, if their offsets are in slots.
ghost use Rattle.std.specs.Prelude.{◌≡◌, slice_range};
ghost use Rattle.templates.specs.Slots.{group_in};

use group_finder::NO_OFFSET;

/// The bytes from one offset to another. There are none after the end of the haystack, and none if the offsets are in the wrong order.
#[inline]
pub fn bytes_between(haystack: &[u8], start: usize, end: usize) -> &[u8]
    ensures { result.now ≡ slice_range haystack.now start end }
{
    let end = end.min(haystack.len());
    if start >= end {
        return &[];
    }
    &haystack[start..end]
}

/// The bytes of a haystack that a group matched, by the slots of a match: the group with number n has its start in slot 2n and its end in slot
/// 2n + 1, as offsets in bytes. A group that took no part has [`NO_OFFSET`] in both, and its text is empty, as is that of a group whose slots
/// aren't there.
#[inline]
pub fn group_in<'a>(haystack: &'a [u8], slots: &[usize], group: usize) -> &'a [u8]
    ensures { result.now ≡ group_in haystack.now slots.now group }
{
    if group >= slots.len() / 2 {
        return &[];
    }
    let start = slots[2 * group];
    let end = slots[2 * group + 1];
    if start == NO_OFFSET {
        return &[];
    }
    if end == NO_OFFSET {
        return &[];
    }
    bytes_between(haystack, start, end)
}
