//! Why patterns can't be searched for in pieces.
use lazy_dfa::BuildError;
use pattern_search::PatternError;

/// Why patterns can't be searched for in input that comes in pieces.
#[derive(Debug, Drop)]
pub enum NewError {
    /// Memory ran out.
    NoMemory,
    /// A pattern can't be parsed.
    Text(PatternError),
    /// The pattern with this number has a Unicode word boundary. Write `(?-u:\b)` for one of ASCII.
    WordLook(usize),
    /// No automaton can be built from the trees.
    Build(BuildError),
}
