//! What the bytes of a state say at an offset.

ghost use Rattle.std.specs.Prelude.{◌≡◌, ◌<◌, ◌≤◌, ◌+◌, length, slice_index, ◌++◌, ◌%◌, take, drop, slice_set, OnOk, OnErr};
ghost use Rattle.determinize_core.specs.StateBytes.{has_flag, number_at, ids_start, IsEncoded, in_four_bytes, groups};
ghost use Rattle.std.specs.Int.Bits.{bit_or};

use std::alloc::AllocError;

/// Set if a pattern matches.
pub(crate) const MATCHES: u8 = 1;
/// Set if the patterns are listed.
pub(crate) const LISTED: u8 = 2;
/// Set if the byte before is a word byte.
pub(crate) const FROM_WORD: u8 = 4;
/// Set at the half of a CRLF.
pub(crate) const HALF_CRLF: u8 = 8;

/// Whether the first byte has a flag.
pub(crate) fn has_flag(bytes: &[u8], flag: u8) -> bool
    requires { 0 < length bytes.now }
    ensures { result ≡ has_flag (slice_index bytes.now 0) flag }
{
    bytes[0] & flag != 0
}

/// The number in four bytes from an offset on.
pub(crate) fn number_at(bytes: &[u8], at: usize) -> u32
    requires { at + 4 ≤ length bytes.now }
    ensures { result ≡ number_at at bytes.now }
{
    u32::from_le_bytes([bytes[at], bytes[at + 1], bytes[at + 2], bytes[at + 3]])
}

/// Where the states begin among the bytes of a state.
pub(crate) fn ids_start(bytes: &[u8]) -> usize
    requires { IsEncoded bytes.now }
    ensures value { result ≡ ids_start (has_flag (slice_index bytes.now 0) 2) (number_at 9 bytes.now) }
    ensures within { result ≤ length bytes.now }
{
    if has_flag(bytes, LISTED) {
        13 + 4 * number_at(bytes, 9) as usize
    } else {
        9
    }
}

// ---- What is written into the bytes of a state.

/// Sets a flag of the first byte.
pub(crate) fn set_flag(bytes: &mut Vec<u8>, flag: u8)
    requires { 0 < length bytes.old.items }
    ensures { bytes.new.items ≡ slice_set bytes.old.items 0 (bit_or (slice_index bytes.old.items 0) flag) }
{
    bytes[0] |= flag;
}

/// Writes a number over four bytes.
pub(crate) fn write_number(bytes: &mut Vec<u8>, at: usize, number: u32)
    requires { at + 4 ≤ length bytes.old.items }
    ensures { bytes.new.items ≡ take at bytes.old.items ++ (in_four_bytes number ++ drop (at + 4) bytes.old.items) }
{
    bytes[at..at + 4].copy_from_slice(&number.to_le_bytes());
}

/// Adds a number in four bytes. If an allocation fails, the bytes stay as they were.
pub(crate) fn push_number(bytes: &mut Vec<u8>, number: u32) -> Result<(), AllocError>
    ensures ok { OnOk result (bytes.new.items ≡ bytes.old.items ++ in_four_bytes number) }
    ensures err { OnErr result (bytes.new.items ≡ bytes.old.items) }
{
    bytes.extend_from_slice(&number.to_le_bytes())
}

/// Adds a 0 in four bytes and then a number in four bytes. If an allocation fails, the bytes stay as they were.
pub(crate) fn push_behind_four(bytes: &mut Vec<u8>, number: u32) -> Result<(), AllocError>
    ensures ok { OnOk result (bytes.new.items ≡ bytes.old.items ++ (in_four_bytes 0 ++ in_four_bytes number)) }
    ensures err { OnErr result (bytes.new.items ≡ bytes.old.items) }
{
    let [a, b, c, d] = number.to_le_bytes();
    bytes.extend_from_slice(&[0, 0, 0, 0, a, b, c, d])
}

/// Adds two 0s in four bytes each and then a number in four bytes. If an allocation fails, the bytes stay as they were.
pub(crate) fn push_behind_eight(bytes: &mut Vec<u8>, number: u32) -> Result<(), AllocError>
    ensures ok { OnOk result (bytes.new.items ≡ bytes.old.items ++ (in_four_bytes 0 ++ (in_four_bytes 0 ++ in_four_bytes number))) }
    ensures err { OnErr result (bytes.new.items ≡ bytes.old.items) }
{
    let [a, b, c, d] = number.to_le_bytes();
    bytes.extend_from_slice(&[0, 0, 0, 0, 0, 0, 0, 0, a, b, c, d])
}

/// Adds a number in groups of seven bits. If an allocation fails, the bytes stay as they were. Most numbers have one group.
#[inline(always)]
pub(crate) fn push_groups(bytes: &mut Vec<u8>, number: u32) -> Result<(), AllocError>
    ensures ok { OnOk result (bytes.new.items ≡ bytes.old.items ++ groups 4 number) }
    ensures err { OnErr result (bytes.new.items ≡ bytes.old.items) }
{
    if number >= 128 {
        push_more_groups(bytes, number)?;
        return Ok(());
    }
    bytes.push(number as u8)?;
    Ok(())
}

/// Adds a number that has more than one group, in groups of seven bits. If an allocation fails, the bytes stay as they were.
#[inline(never)]
fn push_more_groups(bytes: &mut Vec<u8>, number: u32) -> Result<(), AllocError>
    requires { 128 ≤ number }
    ensures ok { OnOk result (bytes.new.items ≡ bytes.old.items ++ groups 4 number) }
    ensures err { OnErr result (bytes.new.items ≡ bytes.old.items) }
{
    let second = number / 128;
    if second < 128 {
        return bytes.extend_from_slice(&[open(number), second as u8]);
    }
    let third = second / 128;
    if third < 128 {
        return bytes.extend_from_slice(&[open(number), open(second), third as u8]);
    }
    let fourth = third / 128;
    if fourth < 128 {
        return bytes.extend_from_slice(&[open(number), open(second), open(third), fourth as u8]);
    }
    let last = (fourth / 128) as u8;
    bytes.extend_from_slice(&[open(number), open(second), open(third), open(fourth), last])
}

/// A group that others follow.
fn open(number: u32) -> u8
    ensures { result ≡ number % 128 + 128 }
{
    (number % 128 + 128) as u8
}
