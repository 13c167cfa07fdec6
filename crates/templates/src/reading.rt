//! Reads replacement templates.
ghost use Rattle.std.specs.Prelude.{◌≡◌, ◌≢◌, ◌+◌, ◌<◌, ◌≤◌, ◌==◌, ℕ, List, IfSome, drop, length, not, option_map, slice_index};
ghost use Rattle.std.specs.List.{prefix_len};
ghost use Rattle.regex.specs.Templates.{group_called, is_name_byte, name_at};
ghost use Rattle.templates.specs.Reading.{IsStep, first_called, is_called};

use group_finder::GroupNames;

/// What is at an offset of a replacement text: bytes that stand for themselves, the group that is written after them, and the offset at which
/// reading goes on.
pub(crate) struct Step<'a> {
    pub(crate) literal: &'a [u8],
    pub(crate) group: Option<usize>,
    pub(crate) next: usize,
}

/// What follows a number of bytes.
fn after(bytes: &[u8], count: usize) -> &[u8]
    requires { count ≤ length bytes.now }
    ensures { result.now ≡ drop count bytes.now }
{
    &bytes[count..]
}

/// How many bytes precede the first byte of a value. All of them, if there is none.
fn len_before(bytes: &[u8], byte: u8) -> usize
    ensures value { result ≡ prefix_len (λ b. not (b == byte)) bytes.now }
    ensures within { result ≤ length bytes.now }
{
    for i in 0..bytes.len() {
        if bytes[i] == byte {
            return i;
        }
    }
    bytes.len()
}

fn is_name_byte(byte: u8) -> bool
    ensures { result ≡ is_name_byte byte }
{
    byte.is_ascii_alphanumeric() || byte == b'_'
}

/// How many bytes at the start can be part of a name without braces.
fn name_len(bytes: &[u8]) -> usize
    ensures value { result ≡ prefix_len is_name_byte bytes.now }
    ensures within { result ≤ length bytes.now }
{
    for i in 0..bytes.len() {
        if !is_name_byte(bytes[i]) {
            return i;
        }
    }
    bytes.len()
}

/// The first byte, or 0 if there is none.
fn first_byte(bytes: &[u8]) -> u8
    ensures value { result ≡ slice_index bytes.now 0 }
    ensures some { 0 < result → 0 < length bytes.now }
{
    if bytes.is_empty() { 0 } else { bytes[0] }
}

/// The name in braces that begins after an opening one, and the length of the name with its braces. None if there is no closing brace, or if
/// the name isn't UTF-8.
fn name_in_braces(rest: &[u8]) -> Option<(&str, usize)>
    requires { slice_index rest.now 0 ≡ 123 }
    ensures value { option_map (λ found. (found.0.now, found.1)) result ≡ name_at rest.now }
    ensures within { IfSome result (λ found. found.1 ≤ length rest.now) }
{
    if rest.is_empty() {
        return None;
    }
    let inside = after(rest, 1);
    let len = len_before(inside, b'}');
    if len >= inside.len() {
        return None;
    }
    match std::str::from_utf8(&inside[..len]) {
        Ok(name) => Some((name, len + 2)),
        Err(_) => None,
    }
}

/// The longest name without braces, and its length. None if it would be empty.
fn bare_name(rest: &[u8]) -> Option<(&str, usize)>
    requires { slice_index rest.now 0 ≢ 123 }
    ensures value { option_map (λ found. (found.0.now, found.1)) result ≡ name_at rest.now }
    ensures within { IfSome result (λ found. found.1 ≤ length rest.now) }
{
    let len = name_len(rest);
    if len == 0 {
        return None;
    }
    match std::str::from_utf8(&rest[..len]) {
        Ok(name) => Some((name, len)),
        Err(_) => None,
    }
}

/// The name of the reference that follows a dollar sign, and the length of the reference.
fn name_at(rest: &[u8]) -> Option<(&str, usize)>
    ensures value { option_map (λ found. (found.0.now, found.1)) result ≡ name_at rest.now }
    ensures within { IfSome result (λ found. found.1 ≤ length rest.now) }
{
    if first_byte(rest) == b'{' {
        name_in_braces(rest)
    } else {
        bare_name(rest)
    }
}

/// Whether this is the name of the group with a number.
fn has_name(names: &GroupNames, group: usize, name: &str) -> bool
    ensures { result ≡ is_called names.now name.now group }
{
    match names.group_name(group) {
        Some(other) => other == name,
        None => false,
    }
}

/// The number of the first group with a name.
fn index_of(names: &GroupNames, name: &str) -> Option<usize>
    ensures { result ≡ first_called names.now name.now }
{
    for group in 0..names.group_count() {
        if has_name(names, group, name) {
            return Some(group);
        }
    }
    None
}

/// The group to which a name refers: the one with this number, or else the first one with this name. A number need not be that of a group.
fn group_called(names: &GroupNames, name: &str) -> Option<usize>
    ensures { result ≡ group_called names.now name.now }
{
    match name.parse::<usize>() {
        Ok(number) => Some(number),
        Err(_) => index_of(names, name),
    }
}

/// What follows a dollar sign at an offset: a second one, a reference, or neither.
fn dollar_step<'a>(names: &GroupNames, replacement: &'a [u8], at: usize) -> Step<'a>
    requires within { at < length replacement.now }
    requires dollar { slice_index replacement.now at ≡ 36 }
    ensures { IsStep names.now replacement.now at result.literal.now result.group result.next }
{
    let rest = after(replacement, at + 1);
    if first_byte(rest) == b'$' {
        return Step {
            literal: &replacement[at..at + 1],
            group: None,
            next: at + 2,
        };
    }
    match name_at(rest) {
        Some((name, len)) => Step {
            literal: &[],
            group: group_called(names, name),
            next: at + 1 + len,
        },
        None => Step {
            literal: &replacement[at..at + 1],
            group: None,
            next: at + 1,
        },
    }
}

/// What is at an offset of a replacement text: the bytes up to the next dollar sign, or what a dollar sign begins.
pub(crate) fn step_at<'a>(names: &GroupNames, replacement: &'a [u8], at: usize) -> Step<'a>
    requires { at < length replacement.now }
    ensures { IsStep names.now replacement.now at result.literal.now result.group result.next }
{
    if replacement[at] == b'$' {
        return dollar_step(names, replacement, at);
    }
    let len = len_before(after(replacement, at), b'$');
    Step {
        literal: &replacement[at..at + len],
        group: None,
        next: at + len,
    }
}
