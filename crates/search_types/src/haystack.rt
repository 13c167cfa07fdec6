ghost use Rattle.std.specs.Prelude.{◌≡◌, List, ℕ, Bool};
ghost use Rattle.std.specs.Option.{option_map};
ghost use Rattle.search_types.specs.declared.span.Span.{Span as Cut};
ghost use Rattle.search_types.specs.CapturesValue.{cut_span, cuts_bytes, cuts_text};

use crate::span::Span;
use search_core::utf8::is_boundary;

/// A haystack that is searched and cut up by spans: UTF-8 or bytes.
pub trait Haystack: Copy + Drop {
    /// Its bytes.
    ghost bytes: { Self → List ℕ };

    /// Whether a span cuts a part out of these bytes.
    ghost cuts: { List ℕ → Cut → Bool };

    /// The part in a span, if it cuts one out.
    fn cut(self, span: Span) -> Option<Self>
        ensures { option_map bytes result ≡ cut_span (cuts (bytes self)) (bytes self) span };
}

/// A haystack that is UTF-8.
pub trait Text: Haystack {}

/// A haystack of bytes.
pub trait Bytes: Haystack {}

impl<'h> Text for &'h str {}

impl<'h> Bytes for &'h [u8] {}

/// A span cuts bytes out if its start isn't above its end, nor this above the haystack's.
impl<'h> Haystack for &'h [u8] {
    ghost bytes = { λ h. h.now };

    ghost cuts = { cuts_bytes };

    fn cut(self, span: Span) -> Option<&'h [u8]> {
        if span.start > span.end || span.end > self.len() {
            return None;
        }
        Some(&self[span.start..span.end])
    }
}

/// A span cuts UTF-8 out if it cuts bytes out, and no character in two.
impl<'h> Haystack for &'h str {
    ghost bytes = { λ h. h.now };

    ghost cuts = { cuts_text };

    fn cut(self, span: Span) -> Option<&'h str> {
        let bytes = self.as_bytes();
        bytes.cut(span)?;
        if !is_boundary(bytes, span.start) || !is_boundary(bytes, span.end) {
            return None;
        }
        self.get(span.start..span.end)
    }
}
