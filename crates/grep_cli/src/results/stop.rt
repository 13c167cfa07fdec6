//! Why the program ends without the outcome of a search.

use std::alloc::AllocError;
use std::process::ExitCode;
use std::rt::Runtime;

/// Why the program ends without the outcome of a search.
#[derive(Clone, Copy)]
pub enum Stop {
    /// What it had to print or to report is printed. This is the exit status.
    With(u8),
    /// Memory ran out.
    NoMemory,
}

impl From<AllocError> for Stop {
    ghost use Rattle.std.specs.Prelude.{◌≡◌};

    fn from(_e: AllocError) -> Stop
        ensures { result ≡ Stop.NoMemory }
    {
        Self::NoMemory
    }
}

impl Stop {
    /// The exit status. Reports that memory ran out, if it did.
    pub fn status(self, rt: &HostRuntime) -> ExitCode {
        match self {
            Stop::With(status) => ExitCode::from(status),
            Stop::NoMemory => {
                let _ = eprintln!(rt; "hirgrep: out of memory");
                ExitCode::from(2)
            }
        }
    }
}
