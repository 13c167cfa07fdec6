//! Bytes as JSON.
ghost use Rattle.std.specs.Prelude.{◌≡◌, ◌++◌, ◌∷◌, [], OnOk, codes};
ghost use Rattle.base64.specs.Engines.{standard};
ghost use Rattle.base64.specs.GeneralPurpose.{encode_of};
ghost use Rattle.json.specs.Token.{begin_object, key};
ghost use Rattle.json_events.specs.Events.{bytes_member, bytes_value, null_value, number_value, text_value};

use base64::engine::general_purpose::STANDARD;
use json::Writer;
use std::alloc::{AllocError, Global};
use std::str;

/// Appends a key with a text.
pub(crate) fn write_text(writer: &mut Writer, name: &str, text: &str) -> Result<(), AllocError>
    ensures before { writer.new.before ≡ writer.old.before }
    ensures tokens { OnOk result (writer.new.tokens ≡ writer.old.tokens ++ text_value name.now text.now) }
{
    writer.key(name)?;
    writer.string(text)
}

/// Appends a key with a number.
pub(crate) fn write_number(writer: &mut Writer, name: &str, number: u64) -> Result<(), AllocError>
    ensures before { writer.new.before ≡ writer.old.before }
    ensures tokens { OnOk result (writer.new.tokens ≡ writer.old.tokens ++ number_value name.now number) }
{
    writer.key(name)?;
    writer.u64(number)
}

/// Appends a key with no value.
pub(crate) fn write_null(writer: &mut Writer, name: &str) -> Result<(), AllocError>
    ensures before { writer.new.before ≡ writer.old.before }
    ensures tokens { OnOk result (writer.new.tokens ≡ writer.old.tokens ++ null_value name.now) }
{
    writer.key(name)?;
    writer.null()
}

/// Appends a key, and begins an object.
pub(crate) fn begin_member(writer: &mut Writer, name: &str) -> Result<(), AllocError>
    ensures before { writer.new.before ≡ writer.old.before }
    ensures tokens { OnOk result (writer.new.tokens ≡ writer.old.tokens ++ key name.now ∷ begin_object ∷ []) }
{
    writer.key(name)?;
    writer.begin_object()
}

/// Appends bytes in base64, as a member of an object.
fn write_bytes(alloc: Global, writer: &mut Writer, bytes: &[u8]) -> Result<(), AllocError>
    ensures before { writer.new.before ≡ writer.old.before }
    ensures tokens { OnOk result (writer.new.tokens ≡ writer.old.tokens ++ text_value (codes "bytes") (encode_of standard bytes.now)) }
{
    let text = STANDARD.encode(alloc, bytes)?;
    write_text(writer, "bytes", text.as_str())
}

/// Appends a text, or bytes in base64 if they aren't UTF-8, as a member of an object.
fn write_member(alloc: Global, writer: &mut Writer, bytes: &[u8]) -> Result<(), AllocError>
    ensures before { writer.new.before ≡ writer.old.before }
    ensures tokens { OnOk result (writer.new.tokens ≡ writer.old.tokens ++ bytes_member bytes.now) }
{
    match str::from_utf8(bytes) {
        Ok(text) => write_text(writer, "text", text),
        Err(_) => write_bytes(alloc, writer, bytes),
    }
}

/// Appends an object with a text, or with bytes in base64 if they aren't UTF-8.
pub(crate) fn write_data(alloc: Global, writer: &mut Writer, bytes: &[u8]) -> Result<(), AllocError>
    ensures before { writer.new.before ≡ writer.old.before }
    ensures tokens { OnOk result (writer.new.tokens ≡ writer.old.tokens ++ bytes_value bytes.now) }
{
    writer.begin_object()?;
    write_member(alloc, writer, bytes)?;
    writer.end_object()?;
    Ok(())
}
