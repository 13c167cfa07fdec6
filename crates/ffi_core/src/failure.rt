//! Errors in numbers, as callers from C read them. A status of 0 says that a call succeeded, and 1 that there is no match. No error has the
//! status 11.
ghost use Rattle.std.specs.Prelude.{◌≡◌, ◌<◌, ℕ, List};
ghost use Rattle.meta_regex.specs.Regexes.{IsNewError as IsRegexError};
ghost use Rattle.ffi_core.specs.Compiled.{IsNewError};
ghost use Rattle.ffi_core.specs.Failures.{plain, failure_of_text, failure_of_build, failure_of_new, failure_of_search, without_cause};
ghost use Rattle.ffi_core.specs.Failures.{failure_of_captures};
ghost use Rattle.ffi_core.specs.Options.{options_of};
ghost use Rattle.ffi_core.specs.declared.options.Options.{Options};

use captures::CapturesError;
use lazy_dfa::BuildError;
use meta_regex::SearchError;
use pattern_search::PatternError;
use pattern_text::ParseError;
use regex_syntax::ErrorKind;

/// An argument isn't one that the call accepts.
pub(crate) const BAD_ARGUMENT: u32 = 2;

/// Memory ran out.
pub(crate) const NO_MEMORY: u32 = 3;

/// A pattern isn't UTF-8.
pub(crate) const NOT_UTF8: u32 = 4;

/// A pattern has a syntax error.
pub(crate) const SYNTAX_ERROR: u32 = 5;

/// A pattern nests deeper than allowed.
pub(crate) const NESTS_TOO_DEEP: u32 = 6;

/// A pattern has an unbounded repetition whose body can match the empty string.
pub(crate) const EMPTY_LOOP: u32 = 7;

/// The automata are larger than allowed, or the toolchain's regexes that a search needs are, or what finds groups is.
pub(crate) const TOO_LARGE: u32 = 8;

/// The capacity of a cache is less than it needs.
pub(crate) const CAPACITY_TOO_SMALL: u32 = 9;

/// Unicode word boundaries need automata that give up at bytes above 0x7F.
pub(crate) const UNSUPPORTED: u32 = 10;

/// The haystack isn't UTF-8, and the regex is made for UTF-8.
pub(crate) const HAYSTACK_NOT_UTF8: u32 = 12;

/// The output of a call is longer than the room for it.
pub(crate) const OUTPUT_TOO_SMALL: u32 = 13;

/// The stream was closed before.
pub(crate) const CLOSED: u32 = 14;

/// An error in numbers. Fields that don't apply to its status are 0.
#[repr(C)]
#[derive(Clone, Copy, Drop)]
pub struct Failure {
    pub status: u32,
    pub cause: u32,
    pub pattern: usize,
    pub start: usize,
    pub end: usize,
    pub limit: usize,
}

impl Failure {
    /// An error with a status alone.
    pub fn plain(status: u32) -> Failure
        ensures { result ≡ plain status }
    {
        Failure {
            status,
            cause: 0,
            pattern: 0,
            start: 0,
            end: 0,
            limit: 0,
        }
    }

    /// The error of a search in numbers.
    pub fn of_search(error: &SearchError) -> Failure
        ensures { result ≡ failure_of_search error.now }
    {
        match error {
            SearchError::WrongMarkCount => Failure::plain(BAD_ARGUMENT),
            SearchError::NoMemory => Failure::plain(NO_MEMORY),
            SearchError::NotUtf8(at) => Failure {
                start: *at,
                ..Failure::plain(HAYSTACK_NOT_UTF8)
            },
            SearchError::TooLarge => Failure::plain(TOO_LARGE),
        }
    }

    /// An error about a limit on bytes.
    fn too_large(limit: usize) -> Failure
        ensures { result ≡ record (plain 8) { limit = limit } }
    {
        Failure {
            limit,
            ..Failure::plain(TOO_LARGE)
        }
    }

    /// The error of a search for groups in numbers.
    pub fn of_captures(error: &CapturesError) -> Failure
        ensures { result ≡ failure_of_captures error.now }
    {
        match error {
            CapturesError::Search(error) => Failure::of_search(error),
            CapturesError::NoMemory => Failure::plain(NO_MEMORY),
            CapturesError::TooLarge(limit) => Failure::too_large(*limit),
        }
    }
}

/// Why no regex is made.
#[derive(Debug, Drop)]
pub enum NewError {
    /// The options have an unknown flag, or the lengths don't fit the bytes.
    BadArgument,
    /// Memory ran out.
    NoMemory,
    /// The pattern with this number isn't UTF-8 from this offset on.
    NotUtf8 { pattern: usize, at: usize },
    /// A pattern can't be parsed.
    Text(PatternError),
    /// The pattern with this number has an unbounded repetition whose body can match the empty string.
    EmptyLoop(usize),
    /// No regex can be built from the trees.
    Build(BuildError),
    /// What finds the groups of a pattern would take more than this many bytes, and the options ask to make it at once.
    GroupsTooLarge(usize),
}

/// What may be wrong with a pattern. The number of each cause is its position here, counted from 1.
const KINDS: [ErrorKind; 38] = [
    ErrorKind::CaptureLimitExceeded,
    ErrorKind::ClassEscapeInvalid,
    ErrorKind::ClassRangeInvalid,
    ErrorKind::ClassRangeLiteral,
    ErrorKind::ClassUnclosed,
    ErrorKind::DecimalInvalid,
    ErrorKind::EscapeHexEmpty,
    ErrorKind::EscapeHexInvalid,
    ErrorKind::EscapeHexInvalidDigit,
    ErrorKind::EscapeUnexpectedEof,
    ErrorKind::EscapeUnrecognized,
    ErrorKind::FlagDanglingNegation,
    ErrorKind::FlagDuplicate,
    ErrorKind::FlagRepeatedNegation,
    ErrorKind::FlagUnexpectedEof,
    ErrorKind::FlagUnrecognized,
    ErrorKind::GroupNameDuplicate,
    ErrorKind::GroupNameEmpty,
    ErrorKind::GroupNameInvalid,
    ErrorKind::GroupNameUnexpectedEof,
    ErrorKind::GroupUnclosed,
    ErrorKind::GroupUnopened,
    ErrorKind::InvalidUtf8,
    ErrorKind::NestLimitExceeded,
    ErrorKind::OutOfMemory,
    ErrorKind::RepetitionCountDecimalEmpty,
    ErrorKind::RepetitionCountInvalid,
    ErrorKind::RepetitionCountUnclosed,
    ErrorKind::RepetitionMissing,
    ErrorKind::SpecialWordBoundaryUnclosed,
    ErrorKind::SpecialWordBoundaryUnrecognized,
    ErrorKind::SpecialWordOrRepetitionUnexpectedEof,
    ErrorKind::UnicodeClassInvalid,
    ErrorKind::UnicodeNotAllowed,
    ErrorKind::UnicodePropertyNotFound,
    ErrorKind::UnicodePropertyValueNotFound,
    ErrorKind::UnsupportedBackreference,
    ErrorKind::UnsupportedLookAround,
];

/// The number of a cause.
fn cause_of(kind: ErrorKind) -> u32 {
    let mut number = 1;
    for known in KINDS {
        if known == kind {
            return number;
        }
        number = u32::saturating_add(number, 1);
    }
    0
}

/// The cause with a number.
pub(crate) fn kind_of(cause: u32) -> Option<ErrorKind> {
    let mut number = 1;
    for known in KINDS {
        if number == cause {
            return Some(known);
        }
        number = u32::saturating_add(number, 1);
    }
    None
}

fn failure_of_text(error: &PatternError) -> Failure
    ensures value { without_cause result ≡ failure_of_text error.now }
    ensures fails { 0 < result.status }
{
    match error.error {
        ParseError::NoMemory => Failure::plain(NO_MEMORY),
        ParseError::Refused { kind, span } => Failure {
            cause: cause_of(kind),
            pattern: error.number,
            start: span.start,
            end: span.end,
            ..Failure::plain(match kind {
                ErrorKind::NestLimitExceeded => NESTS_TOO_DEEP,
                _ => SYNTAX_ERROR,
            })
        },
    }
}

fn failure_of_build(error: &BuildError) -> Failure
    ensures value { result ≡ failure_of_build error.now }
    ensures fails { 0 < result.status }
{
    match error {
        BuildError::NFA { err } => match err.size_limit() {
            Some(limit) => Failure {
                limit,
                ..Failure::plain(TOO_LARGE)
            },
            None => Failure::plain(TOO_LARGE),
        },
        BuildError::InsufficientCacheCapacity { minimum, .. } => Failure {
            limit: *minimum,
            ..Failure::plain(CAPACITY_TOO_SMALL)
        },
        BuildError::InsufficientStateIDCapacity => Failure::plain(TOO_LARGE),
        BuildError::Unsupported => Failure::plain(UNSUPPORTED),
        BuildError::NoMemory => Failure::plain(NO_MEMORY),
    }
}

impl NewError {
    /// An error of the engine.
    pub(crate) fn of(error: meta_regex::NewError) -> NewError
        ensures { (o : Options) → (texts : List (List ℕ)) → IsRegexError (options_of o) texts error → IsNewError o texts result }
    {
        match error {
            meta_regex::NewError::NoMemory => NewError::NoMemory,
            meta_regex::NewError::Text(e) => NewError::Text(e),
            meta_regex::NewError::EmptyLoop(pattern) => NewError::EmptyLoop(pattern),
            meta_regex::NewError::Build(e) => NewError::Build(e),
        }
    }

    /// The error in numbers.
    pub fn failure(&self) -> Failure
        ensures value { without_cause result ≡ failure_of_new self.now }
        ensures fails { 0 < result.status }
    {
        match self {
            NewError::BadArgument => Failure::plain(BAD_ARGUMENT),
            NewError::NoMemory => Failure::plain(NO_MEMORY),
            NewError::NotUtf8 { pattern, at } => Failure {
                pattern: *pattern,
                start: *at,
                ..Failure::plain(NOT_UTF8)
            },
            NewError::Text(error) => failure_of_text(error),
            NewError::EmptyLoop(pattern) => Failure {
                pattern: *pattern,
                ..Failure::plain(EMPTY_LOOP)
            },
            NewError::Build(error) => failure_of_build(error),
            NewError::GroupsTooLarge(limit) => Failure::too_large(*limit),
        }
    }
}
