use lazy_dfa::BuildError;
use nfa_core::BuildError as CompileError;
use pattern_text::ParseError;
use search_types::{MatchError, MatchErrorKind};

/// What a caller does if there is an error instead of a regex or an answer.
#[derive(Clone, Copy, Debug, PartialEq, Eq)]
pub enum Then {
    /// Reports the error to the author of the pattern, with the bytes of the pattern from the first offset up
    /// to before the second.
    Show(usize, usize),
    /// Gives each NFA more bytes than these, or takes a smaller pattern.
    RaiseSize(usize),
    /// Gives each cache so many bytes, or lets the capacity be raised.
    RaiseCapacity(usize),
    /// Turns on the heuristic for words by characters, or searches for words by bytes.
    ChangeWords,
    /// Splits the list of patterns.
    Split,
    /// Asks another engine from this offset on: nothing that was reported before is wrong.
    AskAnother(usize),
    /// Searches with a limit on clears that is higher, or with none.
    AllowClears,
    /// Builds the automata with starts for each pattern.
    AddStarts,
    /// Frees memory, and calls again: all that was borrowed is as it was, or usable.
    FreeMemory,
    /// Nothing: a regex that `build` made never returns this error.
    Never,
}

/// Of a text.
pub fn of_text(e: &ParseError) -> Then {
    match e {
        ParseError::Refused { span, .. } => Then::Show(span.start, span.end),
        ParseError::NoMemory => Then::FreeMemory,
    }
}

fn of_compile(e: &CompileError) -> Then {
    match e {
        CompileError::ExceededSizeLimit { limit } => Then::RaiseSize(*limit),
        CompileError::TooManyPatterns | CompileError::TooManyStates => Then::Split,
        CompileError::UnsupportedCaptures | CompileError::Captures { .. } => Then::Never,
        CompileError::NoMemory => Then::FreeMemory,
    }
}

/// Of a regex that is built of trees.
pub fn of_build(e: &BuildError) -> Then {
    match e {
        BuildError::NFA { err } => of_compile(err),
        BuildError::InsufficientCacheCapacity { minimum, .. } => Then::RaiseCapacity(*minimum),
        BuildError::Unsupported => Then::ChangeWords,
        BuildError::InsufficientStateIDCapacity => Then::Never,
        BuildError::NoMemory => Then::FreeMemory,
    }
}

/// What to do after an error of a search, of a step of an iterator or of an overlapping search.
pub fn of_search(e: &MatchError) -> Then {
    match e.kind() {
        MatchErrorKind::Quit { offset, .. } => Then::AskAnother(*offset),
        MatchErrorKind::GaveUp { .. } => Then::AllowClears,
        MatchErrorKind::UnsupportedAnchored { .. } => Then::AddStarts,
        MatchErrorKind::NoMemory => Then::FreeMemory,
        MatchErrorKind::HaystackTooLong { .. } | MatchErrorKind::NotAPair => Then::Never,
    }
}
