/// What is known of the lines before one.
#[derive(Clone, Copy)]
pub enum SeparatorState {
    /// None of them was printed.
    NonePrinted,
    /// The last one was.
    LastPrinted,
    /// An earlier one was, and the last one wasn't.
    EarlierPrinted,
}
