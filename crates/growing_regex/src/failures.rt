//! Why searches failed.
ghost use Rattle.std.specs.Prelude.{◌≡◌};
ghost use Rattle.growing_regex.specs.Growing.{lacks_memory};

use search_types::{MatchError, MatchErrorKind};

/// Whether a search failed because it ran out of memory. Otherwise the automata gave up, and a search without them may find the answer.
pub fn lacks_memory(error: &MatchError) -> bool
    ensures { result ≡ lacks_memory error.now }
{
    match error.kind() {
        MatchErrorKind::NoMemory => true,
        _ => false,
    }
}
