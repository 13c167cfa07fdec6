/// A line without its line feed.
#[derive(Clone, Copy)]
pub struct Line<'a> {
    /// Its number, counted from 1.
    pub number: u64,
    /// The offset of its first byte in the input, counted from 0.
    pub place: u64,
    pub bytes: &'a [u8],
    /// Whether a line feed ends it. Only the last line of an input may have none.
    pub is_ended: bool,
}
