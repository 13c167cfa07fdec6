//! Parts of a text.
ghost use Rattle.std.specs.Prelude.{◌≡◌, drop, slice_range};
ghost use Rattle.line_search.specs.Lines.{without_return};

/// The part of a line between two offsets. It is empty if the end is before the start, and it stops at the end of the line.
pub(crate) fn piece(line: &[u8], start: usize, end: usize) -> &[u8]
    ensures { result.now ≡ slice_range line.now start end }
{
    let end = end.min(line.len());
    if start >= end {
        return &[];
    }
    &line[start..end]
}

/// The text without so many bytes at its beginning.
pub(crate) fn text_from(text: &[u8], left: usize) -> &[u8]
    ensures { result.now ≡ drop left text.now }
{
    if left > text.len() {
        return &[];
    }
    &text[left..]
}

/// The bytes without the carriage return at their end, if there is one.
#[tactic(auto, using(crate::proofs::ReturnLemmas::none_left_out, crate::proofs::ReturnLemmas::return_left_out, crate::proofs::ReturnLemmas::other_kept))]
pub(crate) fn without_return(bytes: &[u8]) -> &[u8]
    ensures { result.now ≡ without_return bytes.now }
{
    let Some((last, front)) = bytes.split_last() else {
        return bytes;
    };
    if *last == b'\r' {
        return front;
    }
    bytes
}
