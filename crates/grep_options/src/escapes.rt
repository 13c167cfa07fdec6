//! Values of options in which escapes stand for bytes.
ghost use Rattle.std.specs.Prelude.{◌≡◌, ◌++◌, ◌∷◌, ℕ, IfOk, List, OnOk};
ghost use Rattle.std.specs.Char.{digit_value};
ghost use Rattle.grep_options.specs.Escapes.{escaped, hex_byte, is_hex, unescaped, unescaped_from, unread};

use std::alloc::{AllocError, Global};

/// How much of an escape was read.
#[derive(Clone, Copy)]
pub enum Escape {
    Nothing,
    Backslash,
    /// `\x`
    Hex,
    /// `\x` and a digit.
    Digit(u8),
}

/// The value of a digit or a letter, and 36 for other bytes.
fn digit_value(byte: u8) -> u8
    ensures { result ≡ digit_value byte }
{
    match byte {
        0..=47 => 36,
        48..=57 => byte - 48,
        58..=64 => 36,
        65..=90 => byte - 55,
        91..=96 => 36,
        97..=122 => byte - 87,
        _ => 36,
    }
}

/// Whether a byte is a hexadecimal digit.
fn is_hex(byte: u8) -> bool
    ensures { result ≡ is_hex byte }
{
    digit_value(byte) < 16
}

/// Appends what a backslash and this byte stand for.
fn push_escaped(out: &mut Vec<u8>, byte: u8) -> Result<(), AllocError>
    ensures { OnOk result (out.new.items ≡ out.old.items ++ escaped byte) }
{
    match byte {
        b'n' => out.extend_from_slice(b"\n"),
        b'r' => out.extend_from_slice(b"\r"),
        b't' => out.extend_from_slice(b"\t"),
        b'\\' => out.extend_from_slice(b"\\"),
        _ => out.extend_from_slice(&[b'\\', byte]),
    }
}

/// Appends what `\x` and these two bytes stand for.
fn push_hex(out: &mut Vec<u8>, first: u8, byte: u8) -> Result<(), AllocError>
    ensures { OnOk result (out.new.items ≡ out.old.items ++ hex_byte first byte) }
{
    if is_hex(first) && is_hex(byte) {
        return out.extend_from_slice(&[16 * digit_value(first) + digit_value(byte)]);
    }
    out.extend_from_slice(&[b'\\', b'x', first, byte])
}

/// Appends what the next byte stands for after so much of an escape. Returns how much of one is read then.
fn push_byte(out: &mut Vec<u8>, escape: Escape, byte: u8) -> Result<Escape, AllocError>
    ensures { IfOk result (λ next. (text : List ℕ) → out.old.items ++ unescaped_from escape (byte ∷ text)
        ≡ out.new.items ++ unescaped_from next text) }
{
    match escape {
        Escape::Nothing if byte == b'\\' => return Ok(Escape::Backslash),
        Escape::Nothing => out.push(byte)?,
        Escape::Backslash if byte == b'x' => return Ok(Escape::Hex),
        Escape::Backslash => push_escaped(out, byte)?,
        Escape::Hex if is_hex(byte) => return Ok(Escape::Digit(byte)),
        Escape::Hex => out.extend_from_slice(&[b'\\', b'x', byte])?,
        Escape::Digit(first) => push_hex(out, first, byte)?,
    }
    Ok(Escape::Nothing)
}

/// Appends an escape that isn't whole.
fn push_unread(out: &mut Vec<u8>, escape: Escape) -> Result<(), AllocError>
    ensures { OnOk result (out.new.items ≡ out.old.items ++ unread escape) }
{
    match escape {
        Escape::Nothing => Ok(()),
        Escape::Backslash => out.extend_from_slice(b"\\"),
        Escape::Hex => out.extend_from_slice(b"\\x"),
        Escape::Digit(first) => out.extend_from_slice(&[b'\\', b'x', first]),
    }
}

/// A text in which `\n`, `\r`, `\t`, `\\` and `\x7F`, with any two hexadecimal digits, stand for bytes. Other backslashes stand for themselves.
pub fn unescaped(alloc: Global, text: &str) -> Result<Vec<u8>, AllocError>
    ensures { IfOk result (λ v. v.items ≡ unescaped text.now) }
{
    let mut out = Vec::new(alloc);
    let mut escape = Escape::Nothing;
    for byte in text.as_bytes() {
        escape = push_byte(&mut out, escape, *byte)?;
    }
    push_unread(&mut out, escape)?;
    Ok(out)
}
