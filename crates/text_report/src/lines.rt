//! The lines of a text in memory, one after the other. Any byte ends them.
ghost use Rattle.std.specs.Prelude.{◌≡◌, ◌==◌, ◌+◌, ◌≤◌, ◌<◌, [], IfNone, IfSome, IsTrue, length};
ghost use Rattle.std.specs.List.{position};
ghost use Rattle.text_report.specs.LineSpans.{IsLineAt, lines_from, whole_end};

/// A line of a text.
#[derive(Clone, Copy)]
pub struct LineSpan {
    /// Its number, counted from 1.
    pub number: u64,
    /// The offset of its first byte.
    pub start: usize,
    /// The offset after its last byte, without the byte that ends it.
    pub end: usize,
    /// Whether such a byte ends it. Only the last line of a text may have none.
    pub is_ended: bool,
}

impl LineSpan {
    /// The offset after the line and the byte that ends it.
    pub fn whole_end(self) -> usize
        requires { IsTrue self.is_ended → self.end < 0xFFFF_FFFF_FFFF_FFFF }
        ensures { result ≡ whole_end self }
    {
        if self.is_ended {
            self.end + 1
        } else {
            self.end
        }
    }
}

/// The offset of the first such byte.
fn byte_at(text: &[u8], byte: u8) -> Option<usize>
    ensures { result ≡ position (λ b. b == byte) text.now }
{
    text.iter().position(|b| *b == byte)
}

/// The line of this number that begins at this offset, if bytes are there. `terminator` is the byte that ends lines.
pub fn line_at(text: &[u8], terminator: u8, number: u64, start: usize) -> Option<LineSpan>
    requires { start ≤ length text.now }
    ensures none { IfNone result (lines_from terminator text.now number start ≡ []) }
    ensures end { IfNone result (start ≡ length text.now) }
    ensures some { IfSome result (λ line. IsLineAt terminator text.now number start line) }
{
    let rest = &text[start..];
    if rest.is_empty() {
        return None;
    }
    match byte_at(rest, terminator) {
        Some(len) => Some(LineSpan {
            number,
            start,
            end: start + len,
            is_ended: true,
        }),
        None => Some(LineSpan {
            number,
            start,
            end: text.len(),
            is_ended: false,
        }),
    }
}
