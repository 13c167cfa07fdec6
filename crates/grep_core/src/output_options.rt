use crate::colors::Colors;

/// How many lines are printed as context.
#[derive(Clone, Copy)]
pub struct Context {
    /// Lines before each selected line.
    pub before: u64,
    /// Lines after each selected line.
    pub after: u64,
    /// Lines at the beginning of the input, before the first selected line.
    pub first: u64,
}

/// What is printed for an input.
#[derive(Clone, Copy, PartialEq, Eq)]
pub enum Print {
    /// The selected lines.
    Lines,
    /// The matches in the selected lines that aren't empty, each as a line of its own.
    Matches,
    /// How many lines are selected.
    Count,
    /// How many matches the selected lines have.
    CountMatches,
    /// The name of the input, if a line is selected.
    NameIfAny,
    /// The name of the input, if no line is selected.
    NameIfNone,
    /// Nothing.
    Nothing,
}

/// What separates groups of lines that aren't adjacent.
#[derive(Clone, Copy)]
pub enum GroupSeparator<'a> {
    /// A line of two hyphens.
    Hyphens,
    /// A line of these bytes.
    Given(&'a [u8]),
    /// Nothing.
    Omitted,
}

/// What is asked for.
#[derive(Clone, Copy)]
pub struct OutputOptions<'a> {
    /// If set, the lines without a match are selected instead of those with one.
    pub invert: bool,
    /// What is printed.
    pub print: Print,
    /// Whether the number of each line, counted from 1, is printed before it.
    pub numbers: bool,
    /// Whether the column of the first match, counted in bytes from 1, is printed before each line, and that of each match before it.
    pub columns: bool,
    /// Whether a line is printed for each of its matches.
    pub each_match: bool,
    /// Whether the offset of the first byte, counted from 0, is printed before each line or match.
    pub offsets: bool,
    /// The context lines around selected lines, if asked for. If they are, groups of lines are separated.
    pub context: Option<Context>,
    /// The greatest number of lines that are selected, if there is one.
    pub most: Option<u64>,
    /// The colours in which names, numbers, separators, lines and matches are marked for a terminal, if they are.
    pub color: Option<Colors<'a>>,
    /// The separator after each field before a selected line. Without one it is a colon.
    pub match_separator: Option<&'a [u8]>,
    /// The separator after each field before a context line. Without one it is a hyphen.
    pub context_separator: Option<&'a [u8]>,
    /// Whether a zero byte follows names, instead of a separator or a line feed.
    pub zero_names: bool,
    /// Whether a tab separates a line or match from the fields before it, if there are any. An empty line has none.
    pub initial_tab: bool,
    /// Whether ASCII white space is left out at the beginning of each line or match.
    pub trim: bool,
    /// The greatest number of bytes of a line, with its line feed, or match that is printed, if there is one. A short text stands for
    /// longer ones.
    pub most_bytes: Option<u64>,
    /// Whether the beginning of a line or match that is too long is printed, and not only the short text.
    pub preview: bool,
    /// The least number of bytes for a number, column or offset. Spaces precede shorter ones.
    pub width: usize,
    /// What separates groups of lines, if context is asked for.
    pub groups: GroupSeparator<'a>,
    /// The template by which each match is replaced in lines and matches that are printed, if there is one.
    pub replacement: Option<&'a [u8]>,
    /// The byte that ends each line and match that is printed: a line feed, or a zero byte. Counts, names and separator lines end in a line
    /// feed.
    pub terminator: u8,
}
