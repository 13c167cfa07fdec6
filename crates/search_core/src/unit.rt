ghost use Rattle.std.specs.Prelude.{◌≡◌, ◌≤◌, ◌↔◌, IsTrue, IsSome};
ghost use Rattle.search_core.specs.Units.{unit_byte, unit_end, unit_number, is_unit_byte, is_word_unit};

use crate::utf8::is_word_byte;

/// One unit of input: a byte, or the end of the input, whose number lies above those of all bytes or
/// byte classes. As `regex_automata::util::alphabet::Unit`.
#[derive(Clone, Copy, Debug, PartialEq, Eq)]
pub enum Unit {
    Byte(u8),
    End(u16),
}

impl Unit {
    /// The unit of a byte, or of the byte class with this number.
    pub fn u8(byte: u8) -> Unit
        ensures { result ≡ Unit.Byte byte }
    {
        Unit::Byte(byte)
    }

    /// The end of the input. Its number is the count of byte classes.
    pub fn eoi(num_byte_equiv_classes: usize) -> Unit
        requires { num_byte_equiv_classes ≤ 256 }
        ensures { result ≡ Unit.End num_byte_equiv_classes }
    {
        Unit::End(num_byte_equiv_classes as u16)
    }

    /// The byte, or the number of the class; `None` at the end of the input.
    pub fn as_u8(self) -> Option<u8>
        ensures { result ≡ unit_byte self }
    {
        match self {
            Unit::Byte(byte) => Some(byte),
            Unit::End(_) => None,
        }
    }

    /// The number of the end of the input.
    pub fn as_eoi(self) -> Option<u16>
        ensures { result ≡ unit_end self }
    {
        match self {
            Unit::Byte(_) => None,
            Unit::End(number) => Some(number),
        }
    }

    /// The number: that of the byte or class, or the one above all of them.
    pub fn as_usize(self) -> usize
        ensures { result ≡ unit_number self }
    {
        match self {
            Unit::Byte(byte) => usize::from(byte),
            Unit::End(number) => usize::from(number),
        }
    }

    /// Whether this is a byte or a class.
    pub fn is_byte(self, byte: u8) -> bool
        ensures { result ≡ is_unit_byte self byte }
    {
        self.as_u8() == Some(byte)
    }

    /// Whether this is the end of the input.
    pub fn is_eoi(self) -> bool
        ensures { IsTrue result ↔ IsSome (unit_end self) }
    {
        self.as_eoi().is_some()
    }

    /// Whether this is an ASCII letter, a digit or `_`. The end of the input is none.
    pub fn is_word_byte(self) -> bool
        ensures { result ≡ is_word_unit self }
    {
        match self {
            Unit::Byte(byte) => is_word_byte(byte),
            Unit::End(_) => false,
        }
    }
}
