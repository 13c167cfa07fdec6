//! Reads and writes that a signal interrupts are tried again.
ghost use Rattle.std.specs.Prelude.{◌≡◌, ◌≢◌, ◌↔◌, IfErr, IsTrue};
ghost use Rattle.std.specs.IoError.{error_kind};
ghost use Rattle.std.specs.Io.{ReadsAtMost, WritesAtMost};
ghost use Rattle.std.specs.Io.KnownBytes.{Keeps, ReadConsumes, WriteAppends};

use std::io;
use std::io::{Error, ErrorKind, Read, Write};

/// How often a call is made before the program gives up.
const TRIES: u32 = 1_000_000;

fn is_interrupted(e: &Error) -> bool
    ensures { IsTrue result ↔ (error_kind e.now ≡ ErrorKind.Interrupted) }
{
    e.kind() == ErrorKind::Interrupted
}

/// The error after the last try, which isn't of the kind that is tried again.
fn too_many_tries() -> Error
    ensures { error_kind result ≢ ErrorKind.Interrupted }
{
    Error::from(ErrorKind::TimedOut)
}

/// Reads from a reader. A read that a signal interrupted is tried again.
pub fn read<R: Read>(reader: &mut R, buf: &mut [u8]) -> io::Result<usize>
    ensures bound { ReadsAtMost result buf.new }
    ensures bytes { ReadConsumes (R.remaining reader.old) (R.remaining reader.new) result buf.new }
    ensures retried { IfErr result (λ e. error_kind e ≢ ErrorKind.Interrupted) }
{
    for _ in 0..TRIES {
        match reader.read(buf) {
            Ok(n) => return Ok(n),
            Err(e) => {
                if !is_interrupted(&e) {
                    return Err(e);
                }
            }
        }
    }
    Err(too_many_tries())
}

/// Writes to a writer. A write that a signal interrupted is tried again.
pub fn write<W: Write>(writer: &mut W, buf: &[u8]) -> io::Result<usize>
    ensures bound { WritesAtMost result buf.now }
    ensures bytes { WriteAppends (W.contents writer.old) (W.contents writer.new) result buf.now }
    ensures retried { IfErr result (λ e. error_kind e ≢ ErrorKind.Interrupted) }
{
    for _ in 0..TRIES {
        match writer.write(buf) {
            Ok(count) => return Ok(count),
            Err(error) => {
                if !is_interrupted(&error) {
                    return Err(error);
                }
            }
        }
    }
    Err(too_many_tries())
}
