ghost use Rattle.std.specs.Prelude.{◌≡◌};
ghost use Rattle.hirscan.specs.QueryReports.{kind_text, on_line};

use std::fmt::{self, Display, Formatter, Write};
use thiserror::Error;

/// What is wrong with a line of a query. If several kinds apply, a line has the first one in this order. If
/// several words are faulty, it has the fault of the first one from the left.
#[derive(Clone, Copy, Debug, PartialEq, Eq)]
pub enum FaultKind {
    /// The text ends before the line's line feed.
    NoFindLine,
    /// The first word begins no line of the notation.
    UnknownWord,
    /// A line that sets something comes after one that pushes a tree.
    SettingAfterNode,
    /// There are too few or too many words.
    WrongWordCount,
    /// A number isn't decimal, has a leading zero or is above 4294967295.
    BadNumber,
    /// Digits aren't hexadecimal, or not as many as they have to be.
    BadHex,
    /// The low end of a class's item is above its high end, or one of both isn't a scalar.
    BadRange,
    /// No look has the name.
    UnknownLook,
    /// A word is none of those that may stand there.
    BadChoice,
    /// A repetition's least number of rounds is above its greatest.
    MinAboveMax,
    /// The stack has fewer trees than the line takes.
    TooFewTrees,
    /// The new tree would be higher than 250.
    TooDeep,
    /// A pattern is taken while the stack has no tree or several.
    NotOneTree,
    /// The query ends while the stack has a tree.
    TreeLeftOver,
}

impl FaultKind {
    /// The text of the kind: a few words in lower case.
    pub fn text(self) -> &'static str
        ensures { result.now ≡ kind_text self }
    {
        match self {
            FaultKind::NoFindLine => "no find line",
            FaultKind::UnknownWord => "unknown word",
            FaultKind::SettingAfterNode => "setting after a node",
            FaultKind::WrongWordCount => "wrong word count",
            FaultKind::BadNumber => "bad number",
            FaultKind::BadHex => "bad hex",
            FaultKind::BadRange => "bad range",
            FaultKind::UnknownLook => "unknown look",
            FaultKind::BadChoice => "bad choice",
            FaultKind::MinAboveMax => "min above max",
            FaultKind::TooFewTrees => "too few trees",
            FaultKind::TooDeep => "too deep",
            FaultKind::NotOneTree => "not one tree",
            FaultKind::TreeLeftOver => "tree left over",
        }
    }
}

impl Display for FaultKind {
    ghost use Rattle.std.specs.Prelude.{Some};
    ghost use Rattle.hirscan.specs.QueryReports.{kind_text};

    ghost output = { λ kind. Some (kind_text kind) };

    fn fmt<W: Write>(&self, f: &mut Formatter<W>) -> Result<(), fmt::Error> {
        f.write_str(self.text())
    }
}

/// Why a query can't be read.
#[derive(Debug, Drop, Error)]
pub enum Fault {
    /// The first faulty line, counted from 1, and what is wrong with it.
    #[error("line {line}: {kind}")]
    Notation { line: usize, kind: FaultKind },
    /// An allocation failed. This says nothing of the text.
    #[error("out of memory")]
    NoMemory,
}

/// Why a line, or a part of it, can't be read.
#[derive(Drop)]
pub(crate) enum LineFault {
    Is(FaultKind),
    NoMemory,
}

impl LineFault {
    pub(crate) fn on_line(self, line: usize) -> Fault
        ensures { result ≡ on_line self line }
    {
        match self {
            LineFault::Is(kind) => Fault::Notation { line, kind },
            LineFault::NoMemory => Fault::NoMemory,
        }
    }
}
