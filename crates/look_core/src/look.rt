ghost use Rattle.std.specs.Prelude.{◌≡◌, ◌↔◌, Some};
ghost use Rattle.look_core.specs.Codes.{reversed, repr, char_of};

/// A look-around assertion: a condition on an offset of a haystack. Whether it holds depends on the bytes or
/// the characters next to the offset. It consumes none of them. As `regex_automata::util::look::Look`.
#[derive(Clone, Copy, Debug, PartialEq, Eq)]
pub enum Look {
    /// The offset is the start of the haystack.
    Start,
    /// The offset is the end of the haystack.
    End,
    /// The offset is the start of the haystack, or comes right after a line terminator.
    StartLF,
    /// The offset is the end of the haystack, or a line terminator comes right after it.
    EndLF,
    /// The start of a line, if `\r`, `\n` and `\r\n` end lines: never between `\r` and `\n`.
    StartCRLF,
    /// The end of a line, if `\r`, `\n` and `\r\n` end lines: never between `\r` and `\n`.
    EndCRLF,
    /// An ASCII word character is on exactly one side of the offset.
    WordAscii,
    /// An ASCII word character is on both sides of the offset, or on neither.
    WordAsciiNegate,
    /// A word character is on exactly one side of the offset.
    WordUnicode,
    /// A word character is on both sides of the offset, or on neither.
    WordUnicodeNegate,
    /// An ASCII word character comes right after the offset, and none right before it.
    WordStartAscii,
    /// An ASCII word character comes right before the offset, and none right after it.
    WordEndAscii,
    /// A word character comes right after the offset, and none right before it.
    WordStartUnicode,
    /// A word character comes right before the offset, and none right after it.
    WordEndUnicode,
    /// No ASCII word character comes right before the offset.
    WordStartHalfAscii,
    /// No ASCII word character comes right after the offset.
    WordEndHalfAscii,
    /// No word character comes right before the offset.
    WordStartHalfUnicode,
    /// No word character comes right after the offset.
    WordEndHalfUnicode,
}

impl Look {
    /// The look that holds in the reversed haystack where this one holds.
    pub fn reversed(self) -> Look
        ensures { result ≡ reversed self }
    {
        match self {
            Look::Start => Look::End,
            Look::End => Look::Start,
            Look::StartLF => Look::EndLF,
            Look::EndLF => Look::StartLF,
            Look::StartCRLF => Look::EndCRLF,
            Look::EndCRLF => Look::StartCRLF,
            Look::WordAscii => Look::WordAscii,
            Look::WordAsciiNegate => Look::WordAsciiNegate,
            Look::WordUnicode => Look::WordUnicode,
            Look::WordUnicodeNegate => Look::WordUnicodeNegate,
            Look::WordStartAscii => Look::WordEndAscii,
            Look::WordEndAscii => Look::WordStartAscii,
            Look::WordStartUnicode => Look::WordEndUnicode,
            Look::WordEndUnicode => Look::WordStartUnicode,
            Look::WordStartHalfAscii => Look::WordEndHalfAscii,
            Look::WordEndHalfAscii => Look::WordStartHalfAscii,
            Look::WordStartHalfUnicode => Look::WordEndHalfUnicode,
            Look::WordEndHalfUnicode => Look::WordStartHalfUnicode,
        }
    }

    /// A number for the look: a power of two, different for each look.
    pub fn as_repr(self) -> u32
        ensures { result ≡ repr self }
    {
        match self {
            Look::Start => 1 << 0,
            Look::End => 1 << 1,
            Look::StartLF => 1 << 2,
            Look::EndLF => 1 << 3,
            Look::StartCRLF => 1 << 4,
            Look::EndCRLF => 1 << 5,
            Look::WordAscii => 1 << 6,
            Look::WordAsciiNegate => 1 << 7,
            Look::WordUnicode => 1 << 8,
            Look::WordUnicodeNegate => 1 << 9,
            Look::WordStartAscii => 1 << 10,
            Look::WordEndAscii => 1 << 11,
            Look::WordStartUnicode => 1 << 12,
            Look::WordEndUnicode => 1 << 13,
            Look::WordStartHalfAscii => 1 << 14,
            Look::WordEndHalfAscii => 1 << 15,
            Look::WordStartHalfUnicode => 1 << 16,
            Look::WordEndHalfUnicode => 1 << 17,
        }
    }

    /// The look that has this number, or `None` if no look has it.
    pub fn from_repr(number: u32) -> Option<Look>
        ensures { (l : Look) → (number ≡ repr l) ↔ (result ≡ Some l) }
    {
        match number {
            0x00001 => Some(Look::Start),
            0x00002 => Some(Look::End),
            0x00004 => Some(Look::StartLF),
            0x00008 => Some(Look::EndLF),
            0x00010 => Some(Look::StartCRLF),
            0x00020 => Some(Look::EndCRLF),
            0x00040 => Some(Look::WordAscii),
            0x00080 => Some(Look::WordAsciiNegate),
            0x00100 => Some(Look::WordUnicode),
            0x00200 => Some(Look::WordUnicodeNegate),
            0x00400 => Some(Look::WordStartAscii),
            0x00800 => Some(Look::WordEndAscii),
            0x01000 => Some(Look::WordStartUnicode),
            0x02000 => Some(Look::WordEndUnicode),
            0x04000 => Some(Look::WordStartHalfAscii),
            0x08000 => Some(Look::WordEndHalfAscii),
            0x10000 => Some(Look::WordStartHalfUnicode),
            0x20000 => Some(Look::WordEndHalfUnicode),
            _ => None,
        }
    }

    /// A character for the look, different for each look.
    pub fn as_char(self) -> char
        ensures { result ≡ char_of self }
    {
        match self {
            Look::Start => 'A',
            Look::End => 'z',
            Look::StartLF => '^',
            Look::EndLF => '$',
            Look::StartCRLF => 'r',
            Look::EndCRLF => 'R',
            Look::WordAscii => 'b',
            Look::WordAsciiNegate => 'B',
            Look::WordUnicode => '𝛃',
            Look::WordUnicodeNegate => '𝚩',
            Look::WordStartAscii => '<',
            Look::WordEndAscii => '>',
            Look::WordStartUnicode => '〈',
            Look::WordEndUnicode => '〉',
            Look::WordStartHalfAscii => '◁',
            Look::WordEndHalfAscii => '▷',
            Look::WordStartHalfUnicode => '◀',
            Look::WordEndHalfUnicode => '▶',
        }
    }
}
