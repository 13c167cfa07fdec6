ghost use Rattle.std.specs.Prelude.{◌≡◌, ◌<◌, ◌↔◌, Some};
ghost use Rattle.determinize_core.specs.Starts.{number_of};

/// What comes before the offset where a search starts, as far as looks depend on it, as `regex_automata::util::start::Start`. For a search
/// in reverse it is what comes after the offset.
///
/// The set of bytes that end lines may have two members. A byte of it that is a word byte too has a kind of its own.
#[derive(Clone, Copy, Debug, PartialEq, Eq)]
pub enum Start {
    /// A byte that no other kind has.
    NonWordByte,
    /// A word byte that ends no line.
    WordByte,
    /// No byte: the offset is the haystack's edge.
    Text,
    /// The line feed, whether or not it ends lines.
    LineLF,
    /// The carriage return, whether or not it ends lines.
    LineCR,
    /// Another byte that ends lines, and no word byte.
    CustomLineTerminator,
    /// A word byte that ends lines.
    CustomWordLineTerminator,
}

impl Start {
    /// The start with this number, as `Start::from_usize`; `None` if no start has it.
    pub fn from_usize(number: usize) -> Option<Start>
        ensures { (s : Start) → (number ≡ number_of s) ↔ (result ≡ Some s) }
    {
        match number {
            0 => Some(Start::NonWordByte),
            1 => Some(Start::WordByte),
            2 => Some(Start::Text),
            3 => Some(Start::LineLF),
            4 => Some(Start::LineCR),
            5 => Some(Start::CustomLineTerminator),
            6 => Some(Start::CustomWordLineTerminator),
            _ => None,
        }
    }

    /// How many starts there are, as `Start::len`. Their numbers are those below.
    pub fn len() -> usize
        ensures { result ≡ 7 }
    {
        7
    }

    /// The start's number as a `u8`, as `Start::as_u8`.
    pub fn as_u8(&self) -> u8
        ensures number { result ≡ number_of self.now }
        ensures in_range { result < 7 }
    {
        match self {
            Start::NonWordByte => 0,
            Start::WordByte => 1,
            Start::Text => 2,
            Start::LineLF => 3,
            Start::LineCR => 4,
            Start::CustomLineTerminator => 5,
            Start::CustomWordLineTerminator => 6,
        }
    }

    /// The start's number as a `usize`, as `Start::as_usize`.
    pub fn as_usize(&self) -> usize
        ensures number { result ≡ number_of self.now }
        ensures in_range { result < 7 }
    {
        usize::from(self.as_u8())
    }
}
