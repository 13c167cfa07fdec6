//! Why an input isn't searched, or the output isn't written, to the end.
use pattern_fallback::ProgramError;
use std::alloc::AllocError;
use std::io::ErrorKind;

/// Why an input wasn't searched, or the output for it wasn't written, to the end.
#[derive(Clone, Copy, Debug, PartialEq, Eq)]
pub enum Fault {
    /// A read failed, for this cause.
    Read(ErrorKind),
    /// A write or a flush failed, for this cause. The cause is `WriteZero` if a write accepted no byte.
    Write(ErrorKind),
    /// An allocation failed.
    NoMemory,
    /// A line is longer than a line may be, or the input has 2^64 bytes or lines.
    TooLong,
    /// A search gave up at a quit byte or matches are replaced, and a pattern is too large for the toolchain's regexes.
    TooLarge,
}

impl From<AllocError> for Fault {
    ghost use Rattle.std.specs.Prelude.{◌≡◌};
    ghost use Rattle.line_search.specs.declared.fault.Fault.TheVariants.{NoMemory};

    ghost from_gives = { λ _ e. e ≡ NoMemory };

    fn from(_e: AllocError) -> Fault {
        Fault::NoMemory
    }
}

impl From<ProgramError> for Fault {
    fn from(e: ProgramError) -> Fault {
        match e {
            ProgramError::NoMemory => Fault::NoMemory,
            ProgramError::TooLarge => Fault::TooLarge,
        }
    }
}
