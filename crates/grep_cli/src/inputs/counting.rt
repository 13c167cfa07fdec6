//! A reader that counts bytes, tries again after an interruption, and keeps the code of an error.
ghost use Rattle.std.specs.Prelude.{◌≡◌, None};

use crate::inputs::retrying;
use std::io;
use std::io::{ErrorKind, Read};

/// A reader, how many bytes it returned, and the code of the system's error if a read failed.
#[derive(Drop)]
pub struct Counting<R> {
    reader: R,
    count: u64,
    code: Option<i32>,
}

impl<R> Counting<R> {
    /// A reader that has returned no byte yet.
    pub fn new(reader: R) -> Counting<R>
        ensures reader { result.reader ≡ reader }
        ensures count { result.count ≡ 0 }
        ensures code { result.code ≡ None }
    {
        Counting {
            reader,
            count: 0,
            code: None,
        }
    }

    /// How many bytes it returned. The greatest number stands for any number above it.
    pub fn count(&self) -> u64
        ensures { result ≡ self.now.count }
    {
        self.count
    }

    /// The code of the system's error, if a read failed with one.
    pub fn code(&self) -> Option<i32>
        ensures { result ≡ self.now.code }
    {
        self.code
    }
}

impl<R: Read> Read for Counting<R> {
    ghost use Rattle.std.specs.Prelude.{◌≡◌, ◌≢◌, IfErr, IfOk};
    ghost use Rattle.std.specs.IoError.{error_kind, raw_os_error};
    ghost use Rattle.std.specs.Io.{ReadsAtMost};
    ghost use Rattle.std.specs.Io.KnownBytes.{ReadConsumes};
    ghost use Rattle.grep_cli.specs.Counting.{counted};

    ghost remaining = { λ c. R.remaining c.reader };

    fn read(&mut self, buf: &mut [u8]) -> io::Result<usize>
        ensures bound { ReadsAtMost result buf.new }
        ensures bytes { ReadConsumes (R.remaining self.old.reader) (R.remaining self.new.reader) result buf.new }
        ensures count { IfOk result (λ n. self.new.count ≡ counted self.old.count n) }
        ensures uncounted { IfErr result (λ _. self.new.count ≡ self.old.count) }
        ensures code { IfErr result (λ e. self.new.code ≡ raw_os_error e) }
        ensures kept { IfOk result (λ _. self.new.code ≡ self.old.code) }
        ensures retried { IfErr result (λ e. error_kind e ≢ ErrorKind.Interrupted) }
    {
        match retrying::read(&mut self.reader, buf) {
            Ok(n) => {
                self.count = self.count.saturating_add(n as u64);
                Ok(n)
            }
            Err(e) => {
                self.code = e.raw_os_error();
                Err(e)
            }
        }
    }
}
