ghost use Rattle.std.specs.Prelude.{◌≡◌};
ghost use Rattle.search_types.specs.declared.match_error.MatchErrorKind.TheVariants.{Quit, GaveUp, HaystackTooLong, UnsupportedAnchored};

use crate::anchored::Anchored;
use std::alloc::AllocError;
use std::fmt::{self, Display, Formatter, Write};
use std::marker::Model;
use thiserror::Error;

/// Why a search reported neither a match nor that there is none. As `regex_automata::MatchErrorKind`.
#[derive(Clone, Copy, Debug, PartialEq, Eq)]
pub enum MatchErrorKind {
    /// The search read a quit byte: a byte at which it was set to stop. The offset is that of the byte.
    Quit { byte: u8, offset: usize },
    /// From this offset on, the search would have been too slow, by its own measure.
    GaveUp { offset: usize },
    /// The haystack has so many bytes, which are more than this engine searches.
    HaystackTooLong { len: usize },
    /// The automaton has no start state for this mode.
    UnsupportedAnchored { mode: Anchored },
    /// The automaton that searches back found no start for the end that the other one found, so the
    /// two are not of the same patterns.
    NotAPair,
    /// An allocation failed.
    NoMemory,
}

impl Display for MatchErrorKind {
    ghost use Rattle.std.specs.Prelude.{Some};
    ghost use Rattle.search_types.specs.ErrorTexts.{error_text};

    ghost output = { λ kind. Some (error_text kind) };

    fn fmt<W: Write>(&self, f: &mut Formatter<W>) -> Result<(), fmt::Error> {
        match self {
            MatchErrorKind::Quit { byte, offset } => {
                write!(f, "quit at byte {byte} at offset {offset}")
            }
            MatchErrorKind::GaveUp { offset } => write!(f, "gave up at offset {offset}"),
            MatchErrorKind::HaystackTooLong { len } => {
                write!(f, "haystack of {len} bytes is too long")
            }
            MatchErrorKind::UnsupportedAnchored { mode } => match mode {
                Anchored::No => {
                    f.write_str("there is no start for searches that are not anchored")
                }
                Anchored::Yes => f.write_str("there is no start for anchored searches"),
                Anchored::Pattern(pattern) => {
                    let pattern = pattern.as_u32();
                    write!(
                        f,
                        "there is no start for searches anchored to pattern {pattern}"
                    )
                }
            },
            MatchErrorKind::NotAPair => f.write_str("forward and reverse automata are no pair"),
            MatchErrorKind::NoMemory => f.write_str("out of memory"),
        }
    }
}

/// The error of a search. A contract sees it as its kind. As `regex_automata::MatchError`.
#[derive(Clone, Copy, Debug, PartialEq, Eq, Error)]
#[error("{0}")]
pub struct MatchError(MatchErrorKind);

impl Model for MatchError {
    ghost use Rattle.search_types.specs.declared.match_error.MatchErrorKind.{MatchErrorKind};

    ghost Value = { MatchErrorKind };

    ghost view = { λ e. e.0 };

    ghost inverse = { λ kind. record { 0 = kind } };
}

impl MatchError {
    /// An error of this kind.
    pub fn new(kind: MatchErrorKind) -> MatchError
        ensures { result ≡ kind }
    {
        MatchError(kind)
    }

    /// What kind of error it is.
    pub fn kind(&self) -> &MatchErrorKind
        ensures { result.now ≡ self.now }
    {
        &self.0
    }

    /// The search read this quit byte, at which it was set to stop, at this offset.
    pub fn quit(byte: u8, offset: usize) -> MatchError
        ensures { result ≡ Quit byte offset }
    {
        MatchError(MatchErrorKind::Quit { byte, offset })
    }

    /// The search would have been too slow from this offset on.
    pub fn gave_up(offset: usize) -> MatchError
        ensures { result ≡ GaveUp offset }
    {
        MatchError(MatchErrorKind::GaveUp { offset })
    }

    /// The haystack has so many bytes, which are more than this engine searches.
    pub fn haystack_too_long(len: usize) -> MatchError
        ensures { result ≡ HaystackTooLong len }
    {
        MatchError(MatchErrorKind::HaystackTooLong { len })
    }

    /// The automaton has no start state for this mode.
    pub fn unsupported_anchored(mode: Anchored) -> MatchError
        ensures { result ≡ UnsupportedAnchored mode }
    {
        MatchError(MatchErrorKind::UnsupportedAnchored { mode })
    }
}

impl From<AllocError> for MatchError {
    ghost use Rattle.std.specs.Prelude.{◌≡◌};
    ghost use Rattle.search_types.specs.declared.match_error.MatchErrorKind.TheVariants.{NoMemory};

    ghost from_gives = { λ _ e. e ≡ NoMemory };

    fn from(_e: AllocError) -> MatchError {
        MatchError(MatchErrorKind::NoMemory)
    }
}
