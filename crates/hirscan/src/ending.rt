// How a run ends.
/// How a run ended that wrote its whole reply.
#[derive(Clone, Copy, Debug, PartialEq, Eq)]
pub enum Ending {
    /// The spans are listed.
    Listed,
    /// The spans up to where a search gave up at a quit byte, and then this byte.
    Quit,
    /// The input is rejected, by one line that says why.
    Refused,
}
