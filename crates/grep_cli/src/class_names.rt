//! Names of classes, as `[:alpha:]`, where a pattern has no class of this name.
ghost use Rattle.std.specs.Prelude.{◌≡◌, ◌≤◌, ◌<◌, ◌-◌, ◌^◌, ◌∷◌, length, map, nat_eq, true};
ghost use Rattle.std.specs.List.{list_any};
ghost use Rattle.std.specs.Cmp.Lexicographic.{pointwise};
ghost use Rattle.globs.specs.Rules.{begins, without_first};
ghost use Rattle.grep_cli.specs.ClassNames.{Other, fault_from, first_misnamed, has_flags, is_class_name, letters_len, may_have_comments, name_len};
ghost use Rattle.grep_cli.specs.ClassParts.{Reads, opening_len};

/// The names of classes.
const NAMES: [&str; 14] = [
    "alnum", "alpha", "ascii", "blank", "cntrl", "digit", "graph", "lower", "print", "punct",
    "space", "upper", "word", "xdigit",
];

/// Where a pattern has a name of a class that is none.
#[derive(Clone, Copy)]
pub enum Misnamed {
    /// Outside of brackets.
    Outside,
    /// In brackets at this offset, where no class has the name.
    Unknown(usize),
}

/// How many small letters the text begins with.
fn letters_len(text: &[u8]) -> usize
    ensures len { result ≡ letters_len text.now }
    ensures within { result ≤ length text.now }
{
    for at in 0..text.len() {
        if !text[at].is_ascii_lowercase() {
            return at;
        }
    }
    text.len()
}

/// The length of the name that the text begins with, between two colons and before a bracket. It is 0 if there is none.
fn name_len(text: &[u8]) -> usize
    ensures len { result ≡ name_len text.now }
    ensures within { result ≤ length text.now - 1 }
{
    let Some((colon, rest)) = text.split_first() else {
        return 0;
    };
    let len = letters_len(rest);
    if *colon == b':' && rest[len..].starts_with(b":]") {
        return len;
    }
    0
}

/// Whether the text begins with this byte.
fn begins(text: &[u8], byte: u8) -> bool
    ensures is { result ≡ begins byte text.now }
    ensures some { result ≡ true → 0 < length text.now }
{
    !text.is_empty() && text[0] == byte
}

/// The text without a caret at its beginning.
fn without_caret(text: &[u8]) -> &[u8]
    ensures { result.now ≡ without_first 94 text.now }
{
    if begins(text, b'^') { &text[1..] } else { text }
}

/// How many bytes belong to the bracket before this text, which begins a class: a caret, and a bracket that is one of its characters.
fn opening_len(rest: &[u8]) -> usize
    ensures len { result ≡ opening_len rest.now }
    ensures within { result ≤ 2 }
{
    let caret = usize::from(begins(rest, b'^'));
    let bracket = usize::from(begins(without_caret(rest), b']'));
    caret + bracket
}

/// Whether this is one of the names.
fn is_among(names: &[&str], name: &[u8]) -> bool
    ensures { result ≡ list_any (λ known. pointwise nat_eq known name.now) (map (λ known. known.now) names.now) }
{
    for known in names {
        if known.as_bytes() == name {
            return true;
        }
    }
    false
}

/// Whether a class has this name.
fn is_known(name: &[u8]) -> bool
    ensures { result ≡ is_class_name name.now }
{
    is_among(&NAMES, name)
}

/// The next part of a pattern.
#[derive(Clone, Copy)]
enum Part {
    /// So many bytes, after which so many classes are open.
    Read(usize, u64),
    /// A name that isn't in brackets, with the brackets of the name.
    Unbracketed,
    /// A name that no class has.
    Unnamed,
}

/// Reads a bracket outside of classes, before this text. The name of one that begins there, or after a caret, is meant to be in brackets.
fn read_outer(rest: &[u8]) -> Part
    ensures { Reads result 0 (91 ∷ rest.now) }
{
    if name_len(without_caret(rest)) > 0 {
        return Part::Unbracketed;
    }
    Part::Read(1 + opening_len(rest), 1)
}

/// Reads a bracket before this text, where so many classes are open.
fn read_inner(rest: &[u8], depth: u64) -> Part
    ensures { 0 < depth → depth < 2 ^ 64 - 1 → Reads result depth (91 ∷ rest.now) }
{
    let len = name_len(rest);
    if len == 0 {
        return Part::Read(1 + opening_len(rest), depth.saturating_add(1));
    }
    if is_known(&rest[1..1 + len]) {
        return Part::Read(len + 4, depth);
    }
    Part::Unnamed
}

/// Reads the next part of a pattern, which begins with this byte, where so many classes are open.
fn read_part(first: u8, rest: &[u8], depth: u64) -> Part
    ensures { depth < 2 ^ 64 - 1 → Reads result depth (first ∷ rest.now) }
{
    match first {
        b'\\' => Part::Read(2, depth),
        b'[' if depth == 0 => read_outer(rest),
        b'[' => read_inner(rest, depth),
        b']' => Part::Read(1, depth.saturating_sub(1)),
        _ => Part::Read(1, depth),
    }
}

/// Whether the text has the beginning of a group with flags.
fn has_flags(text: &[u8]) -> bool
    ensures { result ≡ has_flags text.now }
{
    for from in 0..text.len() {
        if text[from..].starts_with(b"(?") {
            return true;
        }
    }
    false
}

/// Whether a pattern may have comments, in which names aren't read.
fn may_have_comments(pattern: &[u8]) -> bool
    ensures { result ≡ may_have_comments pattern.now }
{
    pattern.contains(&b'#') && has_flags(pattern)
}

/// The first name of a class that is none in a pattern without comments.
fn misnamed_in(text: &[u8]) -> Option<Misnamed>
    ensures { result ≡ fault_from Other 0 0 text.now }
{
    let mut at = 0usize;
    let mut depth = 0u64;
    for _part in 0..text.len() {
        let Some(left) = text.get(at..) else {
            return None;
        };
        let Some((first, rest)) = left.split_first() else {
            return None;
        };
        let (len, now) = match read_part(*first, rest, depth) {
            Part::Read(len, now) => (len, now),
            Part::Unbracketed => return Some(Misnamed::Outside),
            Part::Unnamed => return Some(Misnamed::Unknown(at)),
        };
        at = at.saturating_add(len);
        depth = now;
    }
    None
}

/// The first name of a class in a pattern that is none.
pub fn first_misnamed(pattern: &str) -> Option<Misnamed>
    ensures { result ≡ first_misnamed pattern.now }
{
    let text = pattern.as_bytes();
    if may_have_comments(text) {
        return None;
    }
    misnamed_in(text)
}
