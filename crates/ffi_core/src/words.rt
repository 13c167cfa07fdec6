//! Messages for errors.
ghost use Rattle.std.specs.Prelude.{◌≡◌, slice_set};
ghost use Rattle.meta_regex.specs.Regexes.{overlaid};

use crate::failure::{
    BAD_ARGUMENT, CAPACITY_TOO_SMALL, CLOSED, EMPTY_LOOP, Failure, HAYSTACK_NOT_UTF8,
    NESTS_TOO_DEEP, NO_MEMORY, NOT_UTF8, OUTPUT_TOO_SMALL, SYNTAX_ERROR, TOO_LARGE, UNSUPPORTED,
    kind_of,
};

/// The message for what is wrong with a pattern.
fn words_of_cause(cause: u32) -> &'static str {
    match kind_of(cause) {
        Some(kind) => kind.message(),
        None => "no pattern",
    }
}

/// The message for an error.
fn words_of(failure: &Failure) -> &'static str {
    match failure.status {
        0 | 1 => "",
        BAD_ARGUMENT => "an argument isn't one that the call takes",
        NO_MEMORY => "out of memory",
        NOT_UTF8 => "the pattern is no UTF-8",
        SYNTAX_ERROR | NESTS_TOO_DEEP => words_of_cause(failure.cause),
        EMPTY_LOOP =>
            "the pattern has an unbounded repetition whose body can match the empty string",
        TOO_LARGE => "the automata are larger than they may be",
        CAPACITY_TOO_SMALL => "a cache may take fewer bytes than it needs",
        UNSUPPORTED => "a Unicode word boundary can't be decided in a stream",
        HAYSTACK_NOT_UTF8 => "the haystack is no UTF-8",
        OUTPUT_TOO_SMALL => "the output is longer than the room for it",
        CLOSED => "the stream is closed",
        _ => "unknown status",
    }
}

/// Writes a byte at this index, if the room is long enough.
fn put(room: &mut [u8], at: usize, byte: u8)
    ensures { room.new ≡ slice_set room.old at byte }
{
    if at < room.len() {
        room[at] = byte;
    }
}

/// Writes the first bytes into the room, as many as fit.
pub(crate) fn write_into(bytes: &[u8], room: &mut [u8])
    ensures { room.new ≡ overlaid bytes.now room.old }
{
    for (at, byte) in bytes.iter().enumerate() {
        put(room, at, *byte);
    }
}

/// Writes the message for an error into the room, as far as it fits. Returns the length of the message in bytes.
pub fn error_text(failure: &Failure, room: &mut [u8]) -> usize {
    let words = words_of(failure).as_bytes();
    write_into(words, room);
    words.len()
}
