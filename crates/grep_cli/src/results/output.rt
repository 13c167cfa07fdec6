//! A writer that records whether bytes were written to it, tries again after an interruption, and keeps the code of an error.
ghost use Rattle.std.specs.Prelude.{◌≡◌, None, false};

use crate::inputs::retrying;
use std::io;
use std::io::{ErrorKind, Write};

/// A writer, whether bytes were written to it, and the code of the system's error if a write failed.
#[derive(Drop)]
pub struct Output<W> {
    writer: W,
    wrote: bool,
    code: Option<i32>,
}

impl<W> Output<W> {
    /// A writer to which nothing was written yet.
    pub fn new(writer: W) -> Output<W>
        ensures writer { result.writer ≡ writer }
        ensures wrote { result.wrote ≡ false }
        ensures code { result.code ≡ None }
    {
        Output {
            writer,
            wrote: false,
            code: None,
        }
    }

    /// Whether bytes were written to it.
    pub fn wrote(&self) -> bool
        ensures { result ≡ self.now.wrote }
    {
        self.wrote
    }

    /// The code of the system's error, if a write failed with one.
    pub fn code(&self) -> Option<i32>
        ensures { result ≡ self.now.code }
    {
        self.code
    }
}

impl<W: Write> Write for Output<W> {
    ghost use Rattle.std.specs.Prelude.{◌≡◌, ◌≢◌, IfErr, IfOk, true};
    ghost use Rattle.std.specs.IoError.{error_kind, raw_os_error};
    ghost use Rattle.std.specs.Io.{WritesAtMost};
    ghost use Rattle.std.specs.Io.KnownBytes.{Keeps, WriteAppends};

    ghost contents = { λ o. W.contents o.writer };

    fn write(&mut self, buf: &[u8]) -> io::Result<usize>
        ensures bound { WritesAtMost result buf.now }
        ensures bytes { WriteAppends (W.contents self.old.writer) (W.contents self.new.writer) result buf.now }
        ensures wrote { self.new.wrote ≡ true }
        ensures code { IfErr result (λ e. self.new.code ≡ raw_os_error e) }
        ensures kept { IfOk result (λ _. self.new.code ≡ self.old.code) }
        ensures retried { IfErr result (λ e. error_kind e ≢ ErrorKind.Interrupted) }
    {
        self.wrote = true;
        match retrying::write(&mut self.writer, buf) {
            Ok(n) => Ok(n),
            Err(e) => {
                self.code = e.raw_os_error();
                Err(e)
            }
        }
    }

    fn flush(&mut self) -> io::Result<()>
        ensures bytes { Keeps (W.contents self.old.writer) (W.contents self.new.writer) }
        ensures wrote { self.new.wrote ≡ self.old.wrote }
        ensures code { self.new.code ≡ self.old.code }
    {
        self.writer.flush()
    }
}
