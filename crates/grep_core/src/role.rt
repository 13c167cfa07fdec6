/// The part that a line has in the output.
#[derive(Clone, Copy)]
pub enum Role {
    /// It is selected, and printed.
    Selected,
    /// It is printed as a context line of a selected line.
    Beside,
    /// It isn't printed.
    Hidden,
}
