ghost use Rattle.std.specs.Prelude.{◌≡◌};
ghost use Rattle.hirscan.specs.Words.{look_name};

use look_core::Look;

/// The name of the look in the notation.
pub(crate) fn look_name(look: Look) -> &'static str
    ensures { result.now ≡ look_name look }
{
    match look {
        Look::Start => "Start",
        Look::End => "End",
        Look::StartLF => "StartLF",
        Look::EndLF => "EndLF",
        Look::StartCRLF => "StartCRLF",
        Look::EndCRLF => "EndCRLF",
        Look::WordAscii => "WordAscii",
        Look::WordAsciiNegate => "WordAsciiNegate",
        Look::WordUnicode => "WordUnicode",
        Look::WordUnicodeNegate => "WordUnicodeNegate",
        Look::WordStartAscii => "WordStartAscii",
        Look::WordEndAscii => "WordEndAscii",
        Look::WordStartUnicode => "WordStartUnicode",
        Look::WordEndUnicode => "WordEndUnicode",
        Look::WordStartHalfAscii => "WordStartHalfAscii",
        Look::WordEndHalfAscii => "WordEndHalfAscii",
        Look::WordStartHalfUnicode => "WordStartHalfUnicode",
        Look::WordEndHalfUnicode => "WordEndHalfUnicode",
    }
}
