//! Bytes read as UTF-8.
//! ```rust
//! pub fn starts_with_a_character(bytes: &[u8]) -> bool {
//!     matches!(utf8::decode(bytes), Some(Ok(_)))
//! }
//! ```
ghost use Rattle.std.specs.Prelude.{◌≡◌, ◌<◌, ℕ, length, [], ◌∷◌, MatchOption};
ghost use Rattle.std.specs.Int.{is_in_range};
ghost use Rattle.search_core.specs.Utf8.{second_of_three, second_of_four, Spells, SpellsFirst, SpellsLast, Decodes};
ghost use Rattle.search_core.specs.Utf8.{DecodesLast, is_boundary, is_word_byte};

/// The first character of the bytes. If no character begins them, the error is the first byte. If there are
/// no bytes, the result is `None`.
pub fn decode(bytes: &[u8]) -> Option<Result<char, u8>>
    ensures { Decodes bytes.now result }
{
    let first = *bytes.first()?;
    Some(first_char(bytes).ok_or(first))
}

/// The last character of the bytes. If no character ends them, the error is the last byte. If there are no
/// bytes, the result is `None`.
pub fn decode_last(bytes: &[u8]) -> Option<Result<char, u8>>
    ensures { DecodesLast bytes.now result }
{
    let last = *bytes.last()?;
    Some(last_char(bytes).ok_or(last))
}

fn first_char(bytes: &[u8]) -> Option<char>
    requires { 0 < length bytes.now }
    ensures { MatchOption result ((c : ℕ) → ¬ (SpellsFirst c bytes.now)) (λ c. SpellsFirst c bytes.now) }
{
    let first = bytes[0];
    if first <= 0x7F {
        Some(char::from(first))
    } else if first <= 0xDF {
        if bytes.len() < 2 {
            return None;
        }
        two_bytes(first, bytes[1])
    } else if first <= 0xEF {
        if bytes.len() < 3 {
            return None;
        }
        three_bytes(first, bytes[1], bytes[2])
    } else {
        if bytes.len() < 4 {
            return None;
        }
        four_bytes(first, bytes[1], bytes[2], bytes[3])
    }
}

// The shorter spellings first: the first byte of a spelling never stands inside another, so one length
// fits at most.
fn last_char(bytes: &[u8]) -> Option<char>
    requires { 0 < length bytes.now }
    ensures { MatchOption result ((c : ℕ) → ¬ (SpellsLast c bytes.now)) (λ c. SpellsLast c bytes.now) }
{
    let n = bytes.len();
    let last = bytes[n - 1];
    if last <= 0x7F {
        return Some(char::from(last));
    }
    if n < 2 {
        return None;
    }
    if let Some(found) = two_bytes(bytes[n - 2], last) {
        return Some(found);
    }
    if n < 3 {
        return None;
    }
    if let Some(found) = three_bytes(bytes[n - 3], bytes[n - 2], last) {
        return Some(found);
    }
    if n < 4 {
        return None;
    }
    four_bytes(bytes[n - 4], bytes[n - 3], bytes[n - 2], last)
}

fn two_bytes(a: u8, b: u8) -> Option<char>
    ensures { MatchOption result ((c : ℕ) → ¬ (Spells c (a ∷ b ∷ []))) (λ c. Spells c (a ∷ b ∷ [])) }
{
    if a < 0xC2 || 0xDF < a || !is_continuation(b) {
        return None;
    }
    char::from_u32((u32::from(a) - 0xC0) * 64 + (u32::from(b) - 0x80))
}

fn three_bytes(a: u8, b: u8, d: u8) -> Option<char>
    ensures { MatchOption result ((c : ℕ) → ¬ (Spells c (a ∷ b ∷ d ∷ []))) (λ c. Spells c (a ∷ b ∷ d ∷ [])) }
{
    if !is_second_of_three(a, b) || !is_continuation(d) {
        return None;
    }
    char::from_u32(
        (u32::from(a) - 0xE0) * 4096 + (u32::from(b) - 0x80) * 64 + (u32::from(d) - 0x80),
    )
}

fn four_bytes(a: u8, b: u8, d: u8, e: u8) -> Option<char>
    ensures { MatchOption result ((c : ℕ) → ¬ (Spells c (a ∷ b ∷ d ∷ e ∷ []))) (λ c. Spells c (a ∷ b ∷ d ∷ e ∷ [])) }
{
    if !is_second_of_four(a, b) || !is_continuation(d) || !is_continuation(e) {
        return None;
    }
    char::from_u32(
        (u32::from(a) - 0xF0) * 262_144
            + (u32::from(b) - 0x80) * 4096
            + (u32::from(d) - 0x80) * 64
            + (u32::from(e) - 0x80),
    )
}

fn is_second_of_three(a: u8, b: u8) -> bool
    ensures { result ≡ second_of_three a b }
{
    match a {
        0xE0 => (0xA0..=0xBF).contains(&b),
        0xE1..=0xEC | 0xEE..=0xEF => is_continuation(b),
        0xED => (0x80..=0x9F).contains(&b),
        _ => false,
    }
}

fn is_second_of_four(a: u8, b: u8) -> bool
    ensures { result ≡ second_of_four a b }
{
    match a {
        0xF0 => (0x90..=0xBF).contains(&b),
        0xF1..=0xF3 => is_continuation(b),
        0xF4 => (0x80..=0x8F).contains(&b),
        _ => false,
    }
}

fn is_continuation(b: u8) -> bool
    ensures { result ≡ is_in_range 0x80 0xBF b }
{
    (0x80..=0xBF).contains(&b)
}

/// Whether the bytes may be cut at the offset `i`: it is their end, or the byte after it doesn't continue a
/// character.
pub fn is_boundary(bytes: &[u8], i: usize) -> bool
    ensures { result ≡ is_boundary bytes.now i }
{
    match bytes.get(i) {
        None => i == bytes.len(),
        Some(byte) => *byte <= 0x7F || *byte >= 0xC0,
    }
}

/// Whether the byte is a digit, a letter or the underscore of ASCII.
pub fn is_word_byte(b: u8) -> bool
    ensures { result ≡ is_word_byte b }
{
    matches!(b, b'0'..=b'9' | b'A'..=b'Z' | b'_' | b'a'..=b'z')
}
