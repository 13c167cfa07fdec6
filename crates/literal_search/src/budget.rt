//! A bound on the work that literals take.

use crate::literals::Literals;

/// How many literals are listed for a tree, with those of all its parts. Sixteen words without case take a third of them; a search for the
/// literals of more such words isn't made anyway.
const MAX_LISTED: usize = 1 << 15;

/// How many literals may still be listed for a tree. Nothing is known of parts that are reached when none may be.
#[derive(Debug, Drop)]
pub(crate) struct Budget {
    left: usize,
}

impl Budget {
    /// The budget of a tree of which no part has been examined.
    pub(crate) fn new() -> Budget {
        Budget { left: MAX_LISTED }
    }

    /// Whether no more literals may be listed.
    pub(crate) fn is_spent(&self) -> bool {
        self.left == 0
    }

    /// Records that these literals were listed.
    pub(crate) fn spend(&mut self, literals: &Literals) {
        self.left = self.left.saturating_sub(literals.len());
    }
}
